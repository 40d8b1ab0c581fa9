//! Sizes and places in the standard and in the compacted format.

ghost use Rattle.std.specs.Prelude.{◌≡◌, ◌+◌, ◌<◌, ◌≤◌, ◌^◌, true};
ghost use Rattle.xs_base.specs.Sets.{has};
ghost use Rattle.xs_base.specs.Layout.{IsLayout, has_row, standard_size, full_size, default_size};
ghost use Rattle.xs_base.specs.Compact as compact;

use crate::Layout;
use xs_base::{Comp, Features, Row};

/// The end of the legacy region and the header, in bytes: the least size of an area.
const HEADER_END: u32 = 576;

impl Layout {
    /// The bytes of an area of the standard format with the components of the mask, at least 576 (SDM volume 1, 13.4.3).
    pub fn standard_size(&self, mask: Features) -> u32
        ensures size { result ≡ standard_size self.now mask.0 }
        ensures low { 576 ≤ result }
        ensures high { result ≤ 16384 }
    {
        let mut end = HEADER_END;
        'each: for i in 0..self.len() {
            let row = self.row_at(i);
            if mask.has(row.comp) {
                end = end.max(row.offset + row.size);
            }
        }
        end
    }

    /// The bytes of the standard format with every component, at most 16,384.
    pub fn full_size(&self) -> u32
        ensures size { result ≡ full_size self.now }
        ensures low { 576 ≤ result }
        ensures high { result ≤ 16384 }
    {
        self.standard_size(self.features())
    }

    /// The bytes of the standard format with every component but TILEDATA.
    pub fn default_size(&self) -> u32
        ensures size { result ≡ default_size self.now }
        ensures low { 576 ≤ result }
        ensures full { result ≤ full_size self.now }
    {
        self.standard_size(self.default_features())
    }

    /// The bytes of an area of the compacted format with the components of the mask, at least 576 (SDM volume 1,
    /// 13.4.3).
    pub fn compact_size(&self, mask: Features) -> u32
        ensures size { result ≡ compact.compact_size self.now mask.0 }
        ensures low { 576 ≤ result }
    {
        let mut end = HEADER_END;
        'each: for i in 0..self.len() {
            end = compact_after(mask, end, self.row_at(i));
        }
        end
    }

    /// Where component `c` of the mask begins in the compacted format, in bytes from the area's beginning.
    pub fn compact_offset(&self, mask: Features, c: Comp) -> u32
        requires extended { 2 ≤ c.0 }
        requires named { has mask.0 c.0 ≡ true }
        requires there { has_row self.now c.0 ≡ true }
        ensures offset { result ≡ compact.compact_offset self.now mask.0 c.0 }
        ensures low { 576 ≤ result }
    {
        self.compacted_place(mask, c)
    }

    /// Where the component of the row begins in an area with this XCOMP_BV: by its bit 63 that is the place in the
    /// compacted or in the standard format.
    pub fn place(&self, xcomp: Features, row: Row) -> u32
        ensures { result ≡ compact.place self.now xcomp.0 row }
    {
        if xcomp.is_compacted() && row.comp.0 >= 2 {
            self.compacted_place(xcomp, row.comp)
        } else {
            row.offset
        }
    }

    /// Whether the component has a place in an area with this XCOMP_BV.
    pub fn has_place(&self, xcomp: Features, c: Comp) -> bool
        ensures { result ≡ compact.has_place self.now xcomp.0 c.0 }
    {
        self.has_row(c) && xcomp.leaves_place(c)
    }

    /// Where the first row of component `c` begins behind those of the mask, or their end where there is no such row.
    fn compacted_place(&self, mask: Features, c: Comp) -> u32
        ensures offset { result ≡ compact.compact_offset self.now mask.0 c.0 }
        ensures low { 576 ≤ result }
    {
        let mut end = HEADER_END;
        'each: for i in 0..self.len() {
            let row = self.row_at(i);
            if row.comp.0 == c.0 {
                return aligned(row, end);
            }
            end = compact_after(mask, end, row);
        }
        end
    }
}

/// Where the row's component begins in the compacted format behind byte `end`.
pub(crate) fn aligned(row: Row, end: u32) -> u32
    requires { end + 63 < 2 ^ 32 }
    ensures { result ≡ compact.aligned row end }
{
    if row.is_aligned() {
        (end + 63) / 64 * 64
    } else {
        end
    }
}

/// Where the components end in the compacted format with the row's, which has a place where the mask names it.
pub(crate) fn compact_after(mask: Features, end: u32, row: Row) -> u32
    requires { end + 63 + row.size < 2 ^ 32 }
    ensures { result ≡ compact.compact_after mask.0 end row }
{
    if row.comp.0 >= 2 && mask.has(row.comp) {
        aligned(row, end) + row.size
    } else {
        end
    }
}
