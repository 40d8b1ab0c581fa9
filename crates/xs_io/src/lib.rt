//! Where bytes come from and where they go: a source is read, a sink is written, and each counts its faults. It
//! stands on std alone. The contract of every implementation is that of the traits `Source` and `Sink`: which bytes
//! were taken, and that a call fails only where the count of faults rises, so a program that compares two counts
//! knows whether a fault came between them. `MemSource` and `MemSink` stand in memory and fail where they are told
//! to; `StdSource` and `StdSink` stand over the readers and writers of std. After its first fault a `StdSink` hands
//! nothing more on.
#![tactic(auto)]

mod fail_stop;
mod failed;
mod memory;
mod sink;
mod source;
mod standard;
#[cfg(test)]
mod tests;

pub use failed::Failed;
pub use memory::{MemSink, MemSource};
pub use sink::Sink;
pub use source::Source;
pub use standard::{StdSink, StdSource};
