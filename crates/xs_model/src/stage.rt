//! What a block is doing.

/// What a block is doing. A turn has its processor and the number of Local events that it has made.
#[derive(Clone, Copy, PartialEq, Eq)]
pub enum Stage {
    /// No fork has made it yet.
    Unborn,
    Ready,
    Turn { cpu: u32, ran: u32 },
    /// Its tracer has it.
    Stopped,
    /// It waits for the child.
    Waiting { child: u32 },
    Ended,
}
