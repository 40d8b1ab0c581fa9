//! Areas that come to stand for a file: that of the parts of an image, or that of another area.

ghost use Rattle.std.specs.Prelude.{◌≡◌, ℕ, ◌+◌, ◌<◌, ◌≤◌, ◌^◌, true, false, not, ◌&&◌, ◌||◌, ◌==◌, nat_le, length, slice_index, slice_get, Some, if◌then◌else◌};
ghost use Rattle.xs_base.specs.declared.component.Row.{Row};
ghost use Rattle.xs_base.specs.Area.{StandsFor, HasPlaces, IsOfParts, IsCut, KeepsForm, has_room, is_named, control_in};
ghost use Rattle.xs_base.specs.Bytes.{splice, zeros};
ghost use Rattle.xs_base.specs.Compact.{is_compacted, place};
ghost use Rattle.xs_base.specs.Component.{pkru_number, sse_number, initial_mxcsr};
ghost use Rattle.xs_base.specs.File.{File, IsFile, initial_file, is_own};
ghost use Rattle.xs_base.specs.Header as header;
ghost use Rattle.xs_base.specs.Layout.{IsLayout, IsSound};
ghost use Rattle.xs_base.specs.Sets.{has};
ghost use Rattle.xs_base.specs.Standard.{IsWritten};
ghost use Rattle.xs_area.specs.Copy as copy;
ghost use Rattle.xs_area.specs.Copy.{IsTaken, AreCopied, IsFinished};

use crate::area::{Area, xcomp_bv, xstate_bv};
use crate::readable::has_room;
use crate::standard::control_in;
use xs_base::{
    Comp, Features, INITIAL_MXCSR, Parts, Row, clear, put_component, put_control, put_number,
};
use xs_layout::{Cursor, Layout};

/// Makes the area stand for the parts of an image in the standard format, `bytes`, and what they lack is initial: its
/// XSTATE_BV becomes the bits without PKRU, in a compacted area with bit 1 also where MXCSR isn't initial. The id, the
/// length, XCOMP_BV and bytes 528 to 575 of the area stay. The area has at least 576 bytes and room for component 1 and
/// for each component of the bits but PKRU; `bytes` has the standard place of each component of the bits.
pub fn compact_of(layout: &Layout, bytes: &[u8], parts: &Parts, area: &mut Area)
    requires header { 576 ≤ length area.old.bytes.items }
    requires sse { has_room layout.now area.old.bytes.items sse_number ≡ true }
    requires room { (c : ℕ) → (c ≡ pkru_number → ⊥) → has parts.now.bits.0 c ≡ true → has_room layout.now area.old.bytes.items c ≡ true }
    requires places { (i : ℕ) (r : Row) → slice_get layout.now i ≡ Some r → has parts.now.bits.0 r.comp.0 ≡ true → r.offset + r.size ≤ length bytes.now }
    ensures stands { (file : File) → IsFile file → IsOfParts layout.now bytes.now parts.now (initial_file layout.now) file → StandsFor layout.now area.new.bytes.items file }
    ensures bits { (c : ℕ) → has (header.xstate_bv area.new.bytes.items) c ≡ is_named layout.now area.old.bytes.items parts.now.bits.0 parts.now.mxcsr c }
    ensures form { KeepsForm area.old.bytes.items area.new.bytes.items }
    ensures id { area.new.id ≡ area.old.id }
{
    take(
        layout,
        bytes,
        Features(0),
        parts.bits,
        parts.mxcsr,
        &mut area.bytes,
    );
}

/// Makes `to` stand for what `from` stands for, as far as it has room; what `from` has no room for is initial. The
/// XSTATE_BV of `to` becomes that of `from` without PKRU and without the components that `to` has no room for, in a
/// compacted area with room for component 1 with bit 1 also where MXCSR isn't initial. The id, the length, XCOMP_BV and
/// bytes 528 to 575 of `to` stay. Both areas have at least 576 bytes, and `from` has the place of each component whose
/// bit in XSTATE_BV is 1. Where `from` stands for no file, which `stands` tells, nothing is said of what `to` stands
/// for.
pub fn copy_area(layout: &Layout, from: &Area, to: &mut Area)
    requires from_header { 576 ≤ length from.now.bytes.items }
    requires to_header { 576 ≤ length to.old.bytes.items }
    requires places { HasPlaces layout.now from.now.bytes.items (header.xstate_bv from.now.bytes.items) }
    ensures stands { (file cut : File) → IsFile file → IsFile cut → StandsFor layout.now from.now.bytes.items file → IsCut layout.now to.old.bytes.items file cut → StandsFor layout.now to.new.bytes.items cut }
    ensures bits { (c : ℕ) → has (header.xstate_bv to.new.bytes.items) c ≡ is_named layout.now to.old.bytes.items (header.xstate_bv from.now.bytes.items) (control_in from.now.bytes.items) c }
    ensures form { KeepsForm to.old.bytes.items to.new.bytes.items }
    ensures id { to.new.id ≡ to.old.id }
{
    let source = from.bytes.as_slice();
    take(
        layout,
        source,
        Features(xcomp_bv(source)),
        Features(xstate_bv(source)),
        control_in(source),
        &mut to.bytes,
    );
}

/// Copies the components of `set` but PKRU, which stand in `from` by the XCOMP_BV `names`, to their places in `to`, as
/// far as it has room, and writes MXCSR and XSTATE_BV.
fn take(layout: &Layout, from: &[u8], names: Features, set: Features, control: u32, to: &mut [u8])
    requires header { 576 ≤ length to.old }
    requires places { (i : ℕ) (r : Row) → slice_get layout.now i ≡ Some r → has set.0 r.comp.0 ≡ true → place layout.now names.0 r + r.size ≤ length from.now }
    ensures taken { IsTaken layout.now from.now names.0 set.0 control to.old to.new }
    ensures layout { IsLayout layout.now }
{
    let copied = copied_of(layout, to, set);
    copy_rows(layout, from, names, copied, to);
    finish(to, copied, control);
}

/// The components that are copied.
pub fn copied_of(layout: &Layout, to: &[u8], set: Features) -> Features
    requires { 576 ≤ length to.now }
    ensures copied { (c : ℕ) → has result.0 c ≡ copy.is_copied layout.now to.now set.0 c }
    ensures layout { IsLayout layout.now }
{
    let names = Features(xcomp_bv(to));
    let mut cursor = Cursor::new(names);
    let mut copied = Features(0);
    'each: for i in 0..layout.len() {
        let (row, at) = cursor.pass(layout, i);
        let room = has_room(layout, names, row, at, to.len());
        copied = copied.with(row.comp, is_copied(set, row.comp, room));
    }
    copied
}

/// Whether a component is copied that there is room for, or not: it is of the set, and isn't PKRU.
fn is_copied(set: Features, c: Comp, room: bool) -> bool
    ensures { result ≡ (has set.0 c.0 && not (c.0 == pkru_number) && room) }
{
    set.has(c) && c != Comp::PKRU && room
}

/// Copies components to their places.
fn copy_rows(layout: &Layout, from: &[u8], names: Features, copied: Features, to: &mut [u8])
    requires header { 576 ≤ length to.old }
    requires places { (i : ℕ) (r : Row) → slice_get layout.now i ≡ Some r → has copied.0 r.comp.0 ≡ true → place layout.now names.0 r + r.size ≤ length from.now }
    requires room { (c : ℕ) → has copied.0 c ≡ true → has_room layout.now to.old c ≡ true }
    ensures { AreCopied layout.now from.now names.0 copied.0 (length layout.now) to.old to.new }
{
    let mut source = Cursor::new(names);
    let mut target = Cursor::new(Features(xcomp_bv(to)));
    'each: for i in 0..layout.len() {
        let (_, at) = source.pass(layout, i);
        let (row, into) = target.pass(layout, i);
        if copied.has(row.comp) {
            copy_row(from, at, row, to, into);
        }
    }
}

/// Copies a component from byte `at` to byte `into`.
fn copy_row(from: &[u8], at: usize, row: Row, to: &mut [u8], into: usize)
    requires sound { IsSound row }
    requires there { at + row.size ≤ length from.now }
    requires room { into + row.size ≤ length to.old }
    requires legacy { 32 ≤ length to.old }
    ensures { IsWritten into row.size (λ k. if is_own row.comp.0 k then slice_index from.now (at + k) else 0) to.old to.new }
{
    put_component(to, into, row.comp, &from[at..at + row.size as usize]);
}

/// Writes MXCSR and XSTATE_BV, bytes 512 to 519 (SDM volume 1, 13.4.2). Where a compacted area needs bit 1 for MXCSR alone,
/// the XMM registers become initial.
fn finish(to: &mut [u8], copied: Features, control: u32)
    requires { 576 ≤ length to.old }
    ensures { IsFinished copied.0 control (copy.is_alone to.old copied.0 control) to.old to.new }
{
    let alone = is_alone(to, copied, control);
    let sse = copied.has(Comp::SSE) | alone;
    clear_sse(to, alone);
    put_control(to, control);
    put_number(to, 512, copied.with(Comp::SSE, sse).0);
}

/// Whether the area needs bit 1 of XSTATE_BV for MXCSR alone.
fn is_alone(to: &[u8], copied: Features, control: u32) -> bool
    requires { 576 ≤ length to.now }
    ensures { result ≡ copy.is_alone to.now copied.0 control }
{
    let names = Features(xcomp_bv(to));
    names.is_compacted()
        && names.has(Comp::SSE)
        && !copied.has(Comp::SSE)
        && control != INITIAL_MXCSR
}

/// Makes the XMM registers zero, where this is wanted.
fn clear_sse(to: &mut [u8], wanted: bool)
    requires { 416 ≤ length to.old }
    ensures written { to.new ≡ (if wanted then splice 160 (zeros 256) to.old else to.old) }
    ensures len { length to.new ≡ length to.old }
{
    if wanted {
        clear(to, 160, 256);
    }
}
