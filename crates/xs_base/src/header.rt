//! What a header check answers.

use crate::component::Features;

/// Why an image or an area is refused, by the first test that it fails (SDM volume 1, 13.8.1 and 13.12; Linux 6.6,
/// arch/x86/kernel/fpu/xstate.c, validate_user_xstate_header).
#[derive(Clone, Copy, PartialEq, Eq, Debug)]
pub enum HeaderError {
    /// XSTATE_BV or XCOMP_BV names a component that isn't allowed.
    Features = 1,
    /// The format isn't the one that is asked for.
    Compacted = 2,
    /// A reserved byte of the header isn't zero.
    Reserved = 3,
    /// MXCSR has a bit above 15.
    Mxcsr = 4,
}

/// Where an image in the standard format comes from.
#[derive(Clone, Copy, PartialEq, Eq, Debug)]
pub enum Origin {
    /// A signal frame, of which these components are wanted.
    Frame(Features),
    /// A register set of ptrace.
    Regset,
}

/// What an image in the standard format has: the components that come from it, all others being initial, and the
/// two registers that are taken as numbers.
#[derive(Clone, Copy, PartialEq, Eq, Debug)]
pub struct Parts {
    /// The components.
    pub bits: Features,
    /// MXCSR.
    pub mxcsr: u32,
    /// PKRU.
    pub pkru: u32,
}
