//! The two sizes of the save areas that a kernel keeps.

/// The two sizes of a kernel's save area: without room for TILEDATA, and with it (Linux 6.6,
/// arch/x86/include/asm/fpu/types.h, struct fpu_state_config: default_size and max_size).
#[derive(Clone, Copy, PartialEq, Eq, Debug)]
pub enum Class {
    /// For a task that hasn't used TILEDATA.
    Small,
    /// For one that has.
    Large,
}
