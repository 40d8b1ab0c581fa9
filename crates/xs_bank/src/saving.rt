//! Saves: what any bank writes into an area, of the components that it chooses.

ghost use Rattle.std.specs.Prelude.{◌≡◌, ℕ, ◌+◌, ◌<◌, ◌≤◌, ◌^◌, ◌&&◌, ◌||◌, ◌==◌, true, false, List, length, slice_index, slice_get, Some, if◌then◌else◌};
ghost use Rattle.std.specs.Int.{to_le_bytes, w64};
ghost use Rattle.xs_base.specs.declared.component.Row.{Row};
ghost use Rattle.xs_base.specs.Bytes.{splice, is_within};
ghost use Rattle.xs_base.specs.Compact.{place, compact_size, compacted};
ghost use Rattle.xs_base.specs.Component.{sse_number};
ghost use Rattle.xs_base.specs.File.{in_use, is_saved};
ghost use Rattle.xs_base.specs.Layout.{standard_size, has_row};
ghost use Rattle.xs_bank.specs.Bank.{IsKept};
ghost use Rattle.xs_base.specs.Header.{xcomp_bv};
ghost use Rattle.xs_bank.specs.Save.{IsWrittenArea, IsStandardSave, IsCompactedSave, StandsWithin, IsInitialOutside, IsLoadableSave};
ghost use Rattle.xs_base.specs.KernelArea.{IsLoadable};
ghost use Rattle.xs_base.specs.declared.class.Class.{Class};
ghost use Rattle.xs_base.specs.Area.{StandsFor};
ghost use Rattle.xs_base.specs.Sets.{has};
ghost use Rattle.xs_base.specs.Standard.{component_byte, saved_byte};

use xs_area::{compacted, xstate_bv};
use xs_base::{Comp, Features, INITIAL_MXCSR, put_component, put_control, put_number};
use xs_regs::File;

/// Saves in the standard format: these components of the mask are written, XSTATE_BV gets the bits of the whole mask. The
/// area then stands for the mask, where its XCOMP_BV is 0 and it did so for what was left out.
pub fn save_standard(file: &File, mask: Features, written: Features, into: &mut [u8])
    requires within { (c : ℕ) → has written.0 c ≡ true → has mask.0 c ≡ true }
    requires room { standard_size file.now.rows mask.0 ≤ length into.old }
    ensures saved { IsStandardSave file.now mask.0 written.0 into.old into.new }
    ensures stands { xcomp_bv into.old ≡ 0 → ((i : ℕ) (r : Row) → slice_get file.now.rows i ≡ Some r → has mask.0 r.comp.0 ≡ true → in_use file.now r.comp.0 ≡ true → has written.0 r.comp.0 ≡ false → IsKept file.now into.old r) → StandsWithin mask.0 into.new file.now }
{
    // The rows pass every test of a table.
    let _ = file.layout();
    let bits = merged(Features(xstate_bv(into)), file.in_use_of(mask), mask);
    put_area(file, Features(0), mask.has_control(), written, into);
    put_number(into, 512, bits.0);
}

/// Saves in the compacted format: these components of the mask are written, the header is that of the whole mask. The area
/// then stands for the mask, where it did so for what was left out.
pub fn save_compacted(file: &File, mask: Features, written: Features, into: &mut [u8])
    requires within { (c : ℕ) → has written.0 c ≡ true → has mask.0 c ≡ true }
    requires machine { (c : ℕ) → has mask.0 c ≡ true → has_row file.now.rows c ≡ true }
    requires room { compact_size file.now.rows mask.0 ≤ length into.old }
    ensures saved { IsCompactedSave file.now mask.0 written.0 into.old into.new }
    ensures stands { ((i : ℕ) (r : Row) → slice_get file.now.rows i ≡ Some r → has mask.0 r.comp.0 ≡ true → is_saved file.now r.comp.0 ≡ true → has written.0 r.comp.0 ≡ false → IsKept file.now into.old r × (xcomp_bv into.old ≡ compacted mask.0)) → StandsWithin mask.0 into.new file.now }
    ensures whole { StandsWithin mask.0 into.new file.now → has mask.0 sse_number ≡ true → IsInitialOutside mask.0 file.now → StandsFor file.now.rows into.new file.now }
    ensures loadable { (class : Class) (id : ℕ) → IsLoadableSave file.now mask.0 class id into.old → StandsWithin mask.0 into.new file.now → IsLoadable file.now.rows class id into.new }
{
    // The rows pass every test of a table.
    let _ = file.layout();
    let names = compacted(mask);
    put_area(file, names, written.has(Comp::SSE), written, into);
    put_number(into, 520, names.0);
    put_number(into, 512, saved_bits(file, mask).0);
}

/// The components of the mask that a save with the init optimisation gives the bit 1: those in use, and SSE also where
/// MXCSR isn't initial (SDM volume 1, 13.11).
pub fn saved_bits(file: &File, mask: Features) -> Features
    ensures { (c : ℕ) → has result.0 c ≡ (has mask.0 c && is_saved file.now c) }
{
    let used = file.in_use_of(mask);
    let control = mask.has(Comp::SSE) && file.mxcsr() != INITIAL_MXCSR;
    used.with(Comp::SSE, used.has(Comp::SSE) | control)
}

/// The components of the mask by the one set, the others by the other.
fn merged(others: Features, inside: Features, mask: Features) -> Features
    ensures { (c : ℕ) → has result.0 c ≡ (if has mask.0 c then has inside.0 c else has others.0 c) }
{
    Features(others.0 ^ ((others.0 ^ inside.0) & mask.0))
}

/// Writes components to their places by XCOMP_BV, and MXCSR with its mask where it is wanted.
fn put_area(file: &File, names: Features, control: bool, written: Features, into: &mut [u8])
    requires header { 576 ≤ length into.old }
    requires room { (i : ℕ) (r : Row) → slice_get file.now.rows i ≡ Some r → has written.0 r.comp.0 ≡ true → place file.now.rows names.0 r + r.size ≤ length into.old }
    ensures written { IsWrittenArea file.now names.0 control written.0 into.old into.new }
    ensures header { (k : ℕ) → is_within 416 160 k ≡ true → slice_index into.new k ≡ slice_index into.old k }
{
    // The rows pass every test of a table.
    let _ = file.layout();
    put_components(file, names, written, into);
    if control {
        put_control(into, file.mxcsr());
    }
}

/// Writes components to their places by XCOMP_BV. Bytes 24 to 31 stay.
fn put_components(file: &File, names: Features, written: Features, into: &mut [u8])
    requires header { 576 ≤ length into.old }
    requires room { (i : ℕ) (r : Row) → slice_get file.now.rows i ≡ Some r → has written.0 r.comp.0 ≡ true → place file.now.rows names.0 r + r.size ≤ length into.old }
    ensures len { length into.new ≡ length into.old }
    ensures each { (k : ℕ) → slice_index into.new k ≡ component_byte (saved_byte file.now) (place file.now.rows names.0) written.0 k file.now.rows (slice_index into.old k) }
{
    // A save that may leave everything out goes along no row.
    if written.0 == 0 {
        return;
    }
    put_rows(file, names, written, into);
}

/// The same, going along the rows of the machine.
fn put_rows(file: &File, names: Features, written: Features, into: &mut [u8])
    requires header { 576 ≤ length into.old }
    requires room { (i : ℕ) (r : Row) → slice_get file.now.rows i ≡ Some r → has written.0 r.comp.0 ≡ true → place file.now.rows names.0 r + r.size ≤ length into.old }
    ensures len { length into.new ≡ length into.old }
    ensures each { (k : ℕ) → slice_index into.new k ≡ component_byte (saved_byte file.now) (place file.now.rows names.0) written.0 k file.now.rows (slice_index into.old k) }
{
    let layout = file.layout();
    'each: for i in 0..layout.len() {
        let row = layout.row_at(i);
        if written.has(row.comp) {
            let at = layout.place(names, row) as usize;
            put_component(into, at, row.comp, file.part(row.comp));
        }
    }
}
