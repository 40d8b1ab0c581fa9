//! What the commands print.

ghost use Rattle.std.specs.Prelude.{◌≡◌, ◌++◌, true, IfOk, string_bytes};
ghost use Rattle.xs_base.specs.Layout.{has_row};
ghost use Rattle.xs_bench.specs.Words.{place_text, places_line, rows_of_machine, row_line, sizes_text, table_text};

use crate::command::Machine;
use std::alloc::AllocError;
use std::fmt::Write;
use xs_base::Features;
use xs_layout::{Layout, Row};

/// Appends the table of a machine, a row a line.
pub fn push_table(text: &mut String, layout: &Layout) -> Result<(), AllocError>
    ensures { IfOk result (λ _. string_bytes text.new ≡ string_bytes text.old ++ table_text layout.now) }
{
    for row in layout.as_slice() {
        push_row(text, *row)?;
    }
    Ok(())
}

/// Appends a row's number, size, offset and flags.
fn push_row(text: &mut String, row: Row) -> Result<(), AllocError>
    ensures { IfOk result (λ _. string_bytes text.new ≡ string_bytes text.old ++ row_line row) }
{
    writeln!(
        text,
        "{} {} {} {}",
        row.comp.0, row.size, row.offset, row.flags
    )
}

/// Appends the line of places: the machine, the mask in hexadecimal, the bytes of an area of the standard format with the
/// components of the mask, those of the compacted format, and the place there of each of them from 2 on.
pub fn push_places(text: &mut String, machine: Machine, mask: Features) -> Result<(), AllocError>
    ensures { IfOk result (λ _. string_bytes text.new ≡ string_bytes text.old ++ places_line machine mask.0) }
{
    let layout = machine.layout();
    push_sizes(text, machine, &layout, mask)?;
    'each: for i in 0..layout.len() {
        push_place(text, &layout, mask, layout.row_at(i))?;
    }
    text.push('\n')
}

/// Appends the machine, the mask and the bytes of both formats.
fn push_sizes(
    text: &mut String,
    machine: Machine,
    layout: &Layout,
    mask: Features,
) -> Result<(), AllocError>
    ensures { IfOk result (λ _. string_bytes text.new ≡ string_bytes text.old ++ sizes_text machine layout.now mask.0) }
{
    let name = machine.name();
    let standard = layout.standard_size(mask);
    let compact = layout.compact_size(mask);
    write!(text, "{name} {:x} {standard} {compact}", mask.0)
}

/// Appends the place of a row's component, where the mask has it and it stands behind the header.
fn push_place(
    text: &mut String,
    layout: &Layout,
    mask: Features,
    row: Row,
) -> Result<(), AllocError>
    requires { has_row layout.now row.comp.0 ≡ true }
    ensures { IfOk result (λ _. string_bytes text.new ≡ string_bytes text.old ++ place_text layout.now mask.0 row) }
{
    if row.comp.0 >= 2 && mask.has(row.comp) {
        let place = layout.compact_offset(mask, row.comp);
        write!(text, " {}:{place}", row.comp.0)?;
    }
    Ok(())
}
