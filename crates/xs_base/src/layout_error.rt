//! Why a list of rows is no machine's table.

/// The test that a table of components fails. The tests and their order are this project's own.
#[derive(Clone, Copy, PartialEq, Eq, Debug)]
pub enum LayoutError {
    /// The number is that of no component here.
    UnknownComponent = 1,
    /// The number isn't above that of each row before it.
    Repeated = 2,
    /// The size is 0.
    SizeZero = 3,
    /// The size isn't the component's, or row 0 or 1 stands elsewhere than in the legacy region.
    SizeWrong = 4,
    /// The flags aren't those that the component may have.
    FlagsWrong = 5,
    /// The row ends past byte 16,384.
    TooLarge = 6,
    /// The row begins in the legacy region or the header, or before the end of a row before it.
    Overlap = 7,
    /// Row 0 or row 1 isn't there.
    LegacyMissing = 8,
    /// Of TILECFG and TILEDATA one is there without the other.
    TileAlone = 9,
}

/// The first test that a table fails: of its first row that fails, or of the table as a whole.
#[derive(Clone, Copy, PartialEq, Eq, Debug)]
pub struct LayoutFault {
    /// The place of the row in the list, from 0. None where the whole list fails.
    pub row: Option<u32>,
    /// The test.
    pub error: LayoutError,
}
