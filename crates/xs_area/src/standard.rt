//! The standard bytes of what an area stands for.

ghost use Rattle.std.specs.Prelude.{◌≡◌, ℕ, ◌+◌, ◌≤◌, true, length, slice_index};
ghost use Rattle.xs_base.specs.Area.{StandsFor, HasPlaces, control_in};
ghost use Rattle.xs_base.specs.File.{File, IsFile, with_pkru};
ghost use Rattle.xs_base.specs.Header as header;
ghost use Rattle.xs_base.specs.Layout.{standard_size, IsSound};
ghost use Rattle.xs_base.specs.Standard.{IsStandard, IsWritten, component_byte, saved_byte};
ghost use Rattle.xs_base.specs.Sets.{has};
ghost use Rattle.xs_area.specs.Stored as stored;

use crate::area::{Area, mxcsr, xcomp_bv, xstate_bv};
use xs_base::{
    Comp, Features, INITIAL_MXCSR, Row, pkru_bytes, put_component, put_control,
    put_initial_component,
};
use xs_layout::{Cursor, Layout};

/// Writes the standard bytes of what the area stands for, with this PKRU, for the components of `mask`, over `out`
/// (SDM volume 1, 13.7). The area has at least 576 bytes and the place of each component whose bit in XSTATE_BV is 1;
/// `out` has at least `standard_size(mask)` bytes.
pub fn standard_of(layout: &Layout, area: &Area, pkru: u32, mask: Features, out: &mut [u8])
    requires header { 576 ≤ length area.now.bytes.items }
    requires places { HasPlaces layout.now area.now.bytes.items (header.xstate_bv area.now.bytes.items) }
    requires room { standard_size layout.now mask.0 ≤ length out.old }
    ensures len { length out.new ≡ length out.old }
    ensures standard { (file : File) → IsFile file → StandsFor layout.now area.now.bytes.items file → IsStandard (with_pkru file pkru) mask.0 out.old out.new }
{
    put_components(layout, &area.bytes, pkru, mask, out);
    if mask.has_control() {
        put_control(out, control_in(&area.bytes));
    }
}

/// Writes the components of `mask` to their standard places. Bytes 24 to 31 stay.
fn put_components(layout: &Layout, area: &[u8], pkru: u32, mask: Features, out: &mut [u8])
    requires header { 576 ≤ length area.now }
    requires places { HasPlaces layout.now area.now (header.xstate_bv area.now) }
    requires room { standard_size layout.now mask.0 ≤ length out.old }
    ensures len { length out.new ≡ length out.old }
    ensures each { (file : File) → IsFile file → StandsFor layout.now area.now file → (k : ℕ) → slice_index out.new k ≡ component_byte (saved_byte (with_pkru file pkru)) (λ r. r.offset) mask.0 k layout.now (slice_index out.old k) }
{
    let bits = Features(xstate_bv(area));
    let mut cursor = Cursor::new(Features(xcomp_bv(area)));
    'each: for i in 0..layout.len() {
        let (row, at) = cursor.pass(layout, i);
        if mask.has(row.comp) {
            put_stored(area, at, bits, pkru, row, out);
        }
    }
}

/// Writes a component to its standard place: PKRU, or what the area has from byte `at` on, or the initial
/// configuration.
fn put_stored(area: &[u8], at: usize, bits: Features, pkru: u32, row: Row, out: &mut [u8])
    requires sound { IsSound row }
    requires inside { has bits.0 row.comp.0 ≡ true → at + row.size ≤ length area.now }
    requires room { row.offset + row.size ≤ length out.old }
    requires legacy { 32 ≤ length out.old }
    ensures { IsWritten row.offset row.size (stored.stored_byte area.now bits.0 pkru at row.comp.0) out.old out.new }
{
    let to = row.offset as usize;
    let size = row.size as usize;
    if row.comp == Comp::PKRU {
        put_component(out, to, row.comp, &pkru_bytes(pkru));
    } else if bits.has(row.comp) {
        put_component(out, to, row.comp, &area[at..at + size]);
    } else {
        put_initial_component(out, to, row.comp, size);
    }
}

/// The area's MXCSR: in the compacted format it is initial where SSE is (SDM volume 1, 13.8.2).
pub fn control_in(area: &[u8]) -> u32
    requires { 576 ≤ length area.now }
    ensures { result ≡ control_in area.now }
{
    if Features(xcomp_bv(area)).is_compacted() && !Features(xstate_bv(area)).has(Comp::SSE) {
        INITIAL_MXCSR
    } else {
        mxcsr(area)
    }
}
