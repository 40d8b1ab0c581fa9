//! Places along the rows of a machine.

ghost use Rattle.std.specs.Prelude.{◌≡◌, ℕ, ◌+◌, ◌<◌, ◌^◌, ◌&&◌, nat_le, List, length, slice_index_or, if◌then◌else◌};
ghost use Rattle.xs_base.specs.declared.component.Row.{Row};
ghost use Rattle.xs_base.specs.Compact.{aligned, is_compacted, place};
ghost use Rattle.xs_base.specs.Layout.{IsSound};
ghost use Rattle.xs_layout.specs.Cursor.{IsBefore};

use crate::layout::Layout;
use crate::places::{aligned, compact_after};
use xs_base::{Features, Row};

/// Goes along the rows of a machine, and tells where each component stands by an XCOMP_BV: in the compacted format
/// each follows those before it (SDM volume 1, 13.4.3).
#[derive(Clone, Copy, PartialEq, Eq, Debug)]
pub struct Cursor {
    /// XCOMP_BV.
    pub names: Features,
    /// Where the components of the rows so far end in the compacted format.
    pub end: u32,
}

impl Cursor {
    /// Before the first row of any machine: the header ends at 576.
    pub fn new(names: Features) -> Cursor
        ensures names { result.names ≡ names }
        ensures before { (rows : List Row) → IsBefore rows 0 result }
    {
        Cursor { names, end: 576 }
    }

    /// Row `i`, before which the cursor stands, and where its component stands, in bytes from the area's beginning.
    /// The cursor then stands before the next row.
    pub fn pass(&mut self, layout: &Layout, i: usize) -> (Row, usize)
        requires within { i < length layout.now }
        requires before { IsBefore layout.now i self.old }
        ensures row { result.0 ≡ slice_index_or layout.now i result.0 }
        ensures sound { IsSound result.0 }
        ensures place { result.1 ≡ place layout.now self.old.names.0 result.0 }
        ensures small { result.1 < 2 ^ 32 }
        ensures before { IsBefore layout.now (i + 1) self.new }
        ensures names { self.new.names ≡ self.old.names }
    {
        let row = layout.row_at(i);
        let at = self.place_of(row);
        self.end = compact_after(self.names, self.end, row);
        (row, at as usize)
    }

    /// Where the row's component stands, where those of the rows before it end at `end`.
    fn place_of(self, row: Row) -> u32
        requires { self.end + 63 < 2 ^ 32 }
        ensures { result ≡ (if is_compacted self.names.0 && nat_le 2 row.comp.0 then aligned row self.end else row.offset) }
    {
        if self.names.is_compacted() && row.comp.0 >= 2 {
            aligned(row, self.end)
        } else {
            row.offset
        }
    }
}
