//! Values of MXCSR, the register of the controls and flags of SSE.

/// MXCSR after initialisation (SDM volume 1, 10.2.3 and 13.6).
pub const INITIAL_MXCSR: u32 = 0x1f80;

/// The greatest MXCSR that is taken: bits 16 to 31 are reserved (SDM volume 1, 10.2.3).
pub const MOST_MXCSR: u32 = 0xffff;
