//! The tests of a machine's table: of a row behind the rows before it, and of the whole.

ghost use Rattle.std.specs.Prelude.{◌≡◌, []};
ghost use Rattle.xs_base.specs.Layout as table;
ghost use Rattle.xs_base.specs.Component as component;

use xs_base::{Comp, LayoutError, LayoutFault, Row};

/// The greatest end of a component, in bytes.
const MOST_BYTES: u64 = 16384;

/// The size of each component in bytes, by its number; 0 where there is none (SDM volume 1, 13.5).
const SIZES: [u32; 19] = [
    160, 256, 256, 0, 0, 64, 512, 1024, 0, 8, 0, 0, 0, 0, 0, 0, 0, 64, 8192,
];

/// The first test that a row fails behind the rows before it, None where it passes them all. The tests of one row come
/// in the order of `LayoutError`, from `UnknownComponent` to `Overlap`.
#[tactic(auto, unfolding(xs_base::specs::Layout::row_error))]
pub fn row_error(before: &[Row], row: Row) -> Option<LayoutError>
    ensures { result ≡ table.row_error before.now row }
{
    if !is_known(row.comp) {
        return Some(LayoutError::UnknownComponent);
    }
    if is_repeated(before, row) {
        return Some(LayoutError::Repeated);
    }
    if row.size == 0 {
        return Some(LayoutError::SizeZero);
    }
    if has_wrong_size(row) {
        return Some(LayoutError::SizeWrong);
    }
    if has_wrong_flags(row) {
        return Some(LayoutError::FlagsWrong);
    }
    if end_of_row(row) > MOST_BYTES {
        return Some(LayoutError::TooLarge);
    }
    if overlaps(before, row) {
        return Some(LayoutError::Overlap);
    }
    None
}

/// The first test that a table fails as a whole, None where it passes both: `LegacyMissing`, then `TileAlone`.
#[tactic(auto, unfolding(xs_base::specs::Layout::table_error))]
pub fn table_error(rows: &[Row]) -> Option<LayoutError>
    ensures { result ≡ table.table_error rows.now }
{
    if !(has_row(rows, Comp::X87) && has_row(rows, Comp::SSE)) {
        return Some(LayoutError::LegacyMissing);
    }
    if has_row(rows, Comp::TILECFG) != has_row(rows, Comp::TILEDATA) {
        return Some(LayoutError::TileAlone);
    }
    None
}

/// Whether one of the rows is the component's.
pub(crate) fn has_row(rows: &[Row], c: Comp) -> bool
    ensures { result ≡ table.has_row rows.now c.0 }
{
    rows.iter().any(|row| row.comp == c)
}

/// Where the row ends in the standard format.
fn end_of_row(row: Row) -> u64
    ensures { result ≡ table.row_end row }
{
    row.offset as u64 + row.size as u64
}

/// Whether the number is that of a component.
fn is_known(c: Comp) -> bool
    ensures { result ≡ table.is_known c.0 }
{
    matches!(c.0, 0 | 1 | 2 | 5 | 6 | 7 | 9 | 17 | 18)
}

/// The bytes of the component, 0 where it is none.
pub fn component_size(c: Comp) -> u32
    ensures { result ≡ component.component_size c.0 }
{
    match SIZES.get(c.0 as usize) {
        Some(size) => *size,
        None => 0,
    }
}

/// Whether the row's number isn't above that of a row before it.
fn is_repeated(before: &[Row], row: Row) -> bool
    ensures { result ≡ table.is_repeated before.now row }
{
    before.iter().any(|other| row.comp.0 <= other.comp.0)
}

/// Whether the size isn't the component's, or the row is one of the legacy region and stands elsewhere.
fn has_wrong_size(row: Row) -> bool
    ensures { result ≡ table.has_wrong_size row }
{
    row.size != component_size(row.comp)
        || (row.comp == Comp::X87 && row.offset != 0)
        || (row.comp == Comp::SSE && row.offset != 160)
}

/// Whether the component may not have these flags: none is a supervisor's, and XFD supports TILEDATA alone.
fn has_wrong_flags(row: Row) -> bool
    ensures { result ≡ table.has_wrong_flags row }
{
    row.flags > 7
        || row.is_supervisor()
        || row.has_xfd() != (row.comp == Comp::TILEDATA)
        || (row.comp.0 <= 1 && row.flags != 0)
}

/// Whether the row begins where another stands. Rows 0 and 1 have places of their own.
fn overlaps(before: &[Row], row: Row) -> bool
    ensures { result ≡ table.overlaps before.now row }
{
    row.comp.0 >= 2 && begins_before(before, row)
}

/// Whether the row begins before the end of the header, or of a row before it.
fn begins_before(before: &[Row], row: Row) -> bool
    ensures { result ≡ table.begins_before before.now row }
{
    let begin = u64::from(row.offset);
    begin < 576 || before.iter().any(|other| begin < end_of_row(*other))
}

/// The first row that fails, by its place in the list, and its error.
pub(crate) fn first_row_fault(rows: &[Row]) -> Option<LayoutFault>
    ensures { result ≡ table.first_row_fault [] rows.now }
{
    'each: for (i, row) in rows.iter().enumerate() {
        if let Some(error) = row_error(&rows[..i], *row) {
            return Some(LayoutFault {
                row: Some(i as u32),
                error,
            });
        }
    }
    None
}

/// The first test that a list of rows fails, each row in turn and then the table. None where it is a machine's table.
#[tactic(auto, unfolding(xs_base::specs::Layout::layout_fault))]
pub(crate) fn layout_fault(rows: &[Row]) -> Option<LayoutFault>
    ensures { result ≡ table.layout_fault rows.now }
{
    if let Some(fault) = first_row_fault(rows) {
        return Some(fault);
    }
    match table_error(rows) {
        Some(error) => Some(LayoutFault { row: None, error }),
        None => None,
    }
}
