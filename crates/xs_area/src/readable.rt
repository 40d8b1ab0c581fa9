//! Whether an area from elsewhere can be read.

ghost use Rattle.std.specs.Prelude.{◌≡◌, ℕ, ◌+◌, ◌≤◌, ◌<◌, ◌^◌, ◌↔◌, ◌&&◌, nat_le, true, length, IsTrue, bit_and, ◌==◌};
ghost use Rattle.xs_base.specs.Area.{has_room, HasPlaces};
ghost use Rattle.xs_base.specs.Compact.{has_place};
ghost use Rattle.xs_base.specs.Header as header;
ghost use Rattle.xs_base.specs.Sets.{has};
ghost use Rattle.xs_base.specs.Layout.{IsLayout, features};
ghost use Rattle.xs_area.specs.Readable.{IsReadable, HasRows};

use crate::area::{Area, xcomp_bv, xstate_bv};
use xs_base::{Features, Row};
use xs_layout::{Cursor, Layout};

/// Whether the area can be read: it has at least 576 bytes, each component whose bit in XSTATE_BV is 1 has a place by
/// XCOMP_BV, and the area has the bytes of each such place. Then it stands for a file of the machine (SDM volume 1,
/// 13.4.2 and 13.4.3).
pub fn stands(layout: &Layout, area: &Area) -> bool
    ensures readable { IsTrue result ↔ IsReadable layout.now area.now.bytes.items }
    ensures room { IsTrue result → (c : ℕ) → has (header.xstate_bv area.now.bytes.items) c ≡ true → has_room layout.now area.now.bytes.items c ≡ true }
{
    let bytes = area.bytes.as_slice();
    if bytes.len() < 576 {
        return false;
    }
    if !is_of_machine(layout, xstate_bv(bytes)) {
        return false;
    }
    has_rows(layout, bytes)
}

/// Whether the area can be loaded in the compacted format, as far as its length goes: it has at least 576 bytes, and the
/// bytes of the place of each component of the machine that its XCOMP_BV names (SDM volume 1, 13.4.3).
pub fn has_named_places(layout: &Layout, area: &Area) -> bool
    ensures { IsTrue result ↔ ((576 ≤ length area.now.bytes.items) × HasPlaces layout.now area.now.bytes.items (header.xcomp_bv area.now.bytes.items)) }
{
    let bytes = area.bytes.as_slice();
    bytes.len() >= 576 && has_named_rows(layout, bytes)
}

/// Whether the area has the place of each component of the machine that its XCOMP_BV names.
fn has_named_rows(layout: &Layout, bytes: &[u8]) -> bool
    requires { 576 ≤ length bytes.now }
    ensures { IsTrue result ↔ HasPlaces layout.now bytes.now (header.xcomp_bv bytes.now) }
{
    let names = Features(xcomp_bv(bytes));
    let mut cursor = Cursor::new(names);
    'each: for i in 0..layout.len() {
        let (row, at) = cursor.pass(layout, i);
        if names.has(row.comp) && at + row.size as usize > bytes.len() {
            return false;
        }
    }
    true
}

/// Whether the machine has each component of the set.
fn is_of_machine(layout: &Layout, bits: u64) -> bool
    ensures { result ≡ (bit_and bits (features layout.now) == bits) }
{
    bits & layout.features().0 == bits
}

/// Whether the area has the place of each component of the machine whose bit in XSTATE_BV is 1.
fn has_rows(layout: &Layout, bytes: &[u8]) -> bool
    requires { 576 ≤ length bytes.now }
    ensures rows { IsTrue result ↔ HasRows layout.now bytes.now }
    ensures layout { IsLayout layout.now }
{
    let bits = Features(xstate_bv(bytes));
    let names = Features(xcomp_bv(bytes));
    let mut cursor = Cursor::new(names);
    'each: for i in 0..layout.len() {
        let (row, at) = cursor.pass(layout, i);
        if bits.has(row.comp) && !has_room(layout, names, row, at, bytes.len()) {
            return false;
        }
    }
    true
}

/// Whether the component of this row of the machine has a place by the XCOMP_BV `names`, which from byte `at` on is
/// within `len` bytes.
pub fn has_room(layout: &Layout, names: Features, row: Row, at: usize, len: usize) -> bool
    requires { at < 2 ^ 32 }
    ensures { result ≡ (has_place layout.now names.0 row.comp.0 && nat_le (at + row.size) len) }
{
    layout.has_place(names, row.comp) && at + row.size as usize <= len
}
