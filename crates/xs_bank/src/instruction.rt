//! What instructions on a bank answer.

use xs_base::{Features, HeaderError};

/// Why an instruction on a bank is refused: a general protection exception, or #NM of these armed components (SDM volume
/// 1, 13.8, 13.12 and 13.14).
#[derive(Clone, Copy, PartialEq, Eq, Debug)]
pub enum Trap {
    /// General protection: the area's header or its MXCSR may not be loaded.
    Gp(HeaderError),
    /// Device not available: XFD is armed for these components.
    Nm(Features),
}

/// The instructions that a bank has run: how many, and a number that takes up each of them in order, with its operands.
/// The count stays at its greatest value. Both are this project's own.
#[derive(Clone, Copy, PartialEq, Eq, Debug)]
pub struct Execs {
    /// How many.
    pub count: u64,
    /// The number that takes them up.
    pub trail: u64,
}
