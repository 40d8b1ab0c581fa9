//! The lines of a script.

use xs_base::Row;
use xs_model::{BlockKind, Command, Items, Name, Named};

/// A line of a script, without its line feed.
#[derive(Drop)]
pub enum Line {
    /// `xstate 1`
    Version,
    /// `machine NAME`
    Machine(Named),
    /// `row NUMBER SIZE OFFSET FLAGS`
    Row(Row),
    /// `cpus N`
    Cpus(u32),
    /// `quantum N`
    Quantum(u32),
    /// `large N`
    Large(u32),
    /// `sched N N ..`. A schedule is read word by word, so that no value of this form is made.
    Sched(Items<u32>),
    /// `task NAME`, `child NAME` or `kthread NAME`
    Begin(BlockKind, Name),
    /// A command.
    Order(Command),
    /// `kill NAME N` with a number that is that of no signal, so that it is no command.
    NoSignal(Name, u32),
    /// `handler`
    Handler,
    /// `end`
    End,
}
