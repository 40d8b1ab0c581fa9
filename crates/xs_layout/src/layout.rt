//! The table of a machine.

ghost use Rattle.std.specs.Prelude.{◌≡◌, ℕ, ◌<◌, ◌≤◌, Bool, true, false, not, ◌&&◌, ◌==◌, length, slice_index_or, IfOk, IfErr, IfSome, MatchOption, Some};
ghost use Rattle.xs_base.specs.Component.{tiledata_number};
ghost use Rattle.xs_base.specs.Sets.{has};
ghost use Rattle.xs_base.specs.Layout.{IsLayout, IsSound, IsRowOf, most_rows, amx_rows, avx_rows, has_row, row_of, features, default_features};
ghost use Rattle.xs_base.specs.Layout as table;
ghost use Rattle.xs_layout.specs.Rows.{padded};

use crate::checks::{has_row, layout_fault};
use std::marker::Model;
use xs_base::{Comp, Features, LayoutFault, Row};

/// The greatest number of rows: one for each component.
pub const MOST_ROWS: usize = 9;

/// A row by its number, size, offset and flags.
macro_rules! row {
    ($number:literal, $size:literal, $offset:literal, $flags:literal) => {
        Row {
            comp: Comp($number),
            size: $size,
            offset: $offset,
            flags: $flags,
        }
    };
}

/// Fills the rows past a layout's last.
const NO_ROW: Row = row!(0, 0, 0, 0);

const AMX: [Row; 9] = [
    row!(0, 160, 0, 0),
    row!(1, 256, 160, 0),
    row!(2, 256, 576, 0),
    row!(5, 64, 1088, 0),
    row!(6, 512, 1152, 0),
    row!(7, 1024, 1664, 0),
    row!(9, 8, 2688, 0),
    row!(17, 64, 2752, 2),
    row!(18, 8192, 2816, 6),
];

const AVX: [Row; 3] = [
    row!(0, 160, 0, 0),
    row!(1, 256, 160, 0),
    row!(2, 256, 576, 0),
];

/// A machine's table of components, in rising order of their numbers. Contracts see the list of its rows. A copy
/// takes no memory.
#[derive(Clone, Copy, PartialEq, Eq, Debug)]
pub struct Layout {
    rows: [Row; MOST_ROWS],
    count: usize,
}

impl Model for Layout {
    ghost use Rattle.std.specs.Prelude.{List, length, take};
    ghost use Rattle.xs_base.specs.declared.component.Row.{Row};
    ghost use Rattle.xs_layout.specs.Rows.{AreRows, padded, fields_back};

    ghost Value = { List Row };

    ghost view = { λ l. take l.count l.rows };

    ghost invariant = { λ l. AreRows l.rows l.count };

    ghost inverse = { λ rows. record { rows = padded rows; count = length rows } };

    ghost inverse_ok = { λ l h. fields_back l h };
}

impl Layout {
    /// The machine with AVX-512, protection keys and AMX, in Intel's places.
    pub fn amx() -> Layout
        ensures { result ≡ amx_rows }
    {
        Layout::of_table(&AMX)
    }

    /// The machine with x87, SSE and AVX alone.
    pub fn avx() -> Layout
        ensures { result ≡ avx_rows }
    {
        Layout::of_table(&AVX)
    }

    /// The layout of exactly these rows, or the first test that they fail: of the first row that fails, or else of the
    /// whole table.
    pub fn from_rows(rows: &[Row]) -> Result<Layout, LayoutFault>
        ensures rows { IfOk result (λ layout. layout ≡ rows.now) }
        ensures accepted { IfOk result (λ layout. IsLayout rows.now) }
        ensures refused { IfErr result (λ fault. table.layout_fault rows.now ≡ Some fault) }
    {
        if let Some(fault) = layout_fault(rows) {
            return Err(fault);
        }
        Ok(Layout::of_table(rows))
    }

    /// The number of rows, at most `MOST_ROWS`.
    pub fn len(&self) -> usize
        ensures len { result ≡ length self.now }
        ensures few { result ≤ most_rows }
        ensures layout { IsLayout self.now }
    {
        self.count
    }

    /// The rows in order.
    pub fn as_slice(&self) -> &[Row]
        ensures rows { result.now ≡ self.now }
        ensures layout { IsLayout self.now }
    {
        &self.rows[..self.count]
    }

    /// Row `i`, from 0.
    pub fn row_at(&self, i: usize) -> Row
        requires { i < length self.now }
        ensures at { result ≡ slice_index_or self.now i result }
        ensures sound { IsSound result }
        ensures layout { IsLayout self.now }
    {
        let rows = &self.rows;
        rows[i]
    }

    /// The row of the component, None exactly where the machine lacks it.
    pub fn row(&self, c: Comp) -> Option<Row>
        ensures is { result ≡ row_of self.now c.0 }
        ensures row { MatchOption result (has_row self.now c.0 ≡ false) (IsRowOf self.now c.0) }
        ensures there { IfSome result (λ row. has_row self.now c.0 ≡ true) }
        ensures sound { IfSome result IsSound }
    {
        'each: for i in 0..self.len() {
            let row = self.row_at(i);
            if row.comp.0 == c.0 {
                return Some(row);
            }
        }
        None
    }

    /// The machine has the component.
    pub fn has_row(&self, c: Comp) -> bool
        ensures { result ≡ has_row self.now c.0 }
    {
        has_row(self.as_slice(), c)
    }

    /// The components of the machine, its XCR0.
    pub fn features(&self) -> Features
        ensures bits { result.0 ≡ features self.now }
        ensures has { (c : ℕ) → has result.0 c ≡ has_row self.now c }
    {
        let mut bits: u64 = 0;
        'each: for i in 0..self.len() {
            bits |= 1 << self.row_at(i).comp.0;
        }
        Features(bits)
    }

    /// The components of the machine without TILEDATA.
    pub fn default_features(&self) -> Features
        ensures bits { result.0 ≡ default_features self.now }
        ensures has { (c : ℕ) → has result.0 c ≡ (has_row self.now c && not (c == tiledata_number)) }
    {
        Features(self.features().0 & !Features::TILEDATA.0)
    }

    /// The layout of rows that pass every test.
    fn of_table(rows: &[Row]) -> Layout
        requires { IsLayout rows.now }
        ensures { result ≡ rows.now }
    {
        let padded_rows = padded(rows);
        Layout {
            rows: padded_rows,
            count: rows.len(),
        }
    }
}

/// The rows, and rows of nothing behind them.
fn padded(rows: &[Row]) -> [Row; MOST_ROWS]
    requires { length rows.now ≤ most_rows }
    ensures { result ≡ padded rows.now }
{
    let mut table = [NO_ROW; MOST_ROWS];
    table[..rows.len()].copy_from_slice(rows);
    table
}
