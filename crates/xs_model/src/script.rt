//! A script: a machine and the blocks of lines that run on it.

ghost use Rattle.std.specs.Prelude.{◌<◌, ◌^◌};

use crate::items::Items;
use crate::name::Name;
use xs_base::{Lane, Set, Signo};
use xs_layout::Layout;

/// A machine that a script names.
#[derive(Clone, Copy, PartialEq, Eq)]
pub enum Named {
    /// x87, SSE, AVX, AVX-512, PKRU and AMX.
    Amx,
    /// x87, SSE and AVX.
    Avx,
    /// The components of the script's own rows.
    Rows,
}

/// What a block of lines is: a task from the start, a task that a fork makes, or a kernel thread.
#[derive(Clone, Copy, PartialEq, Eq)]
pub enum BlockKind {
    /// A task from the start.
    Task,
    /// A task that a fork makes.
    Child,
    /// A kernel thread.
    Kthread,
}

/// A command. A local one touches only its own task; an outer one, from `Fork` on, reaches another block and ends the
/// turn.
#[derive(Drop)]
pub enum Command {
    /// The register becomes these bytes.
    Set { reg: Name, bytes: Lane },
    /// The register's bytes are the reply.
    Get { reg: Name },
    /// The tiles and their configuration become initial.
    Tilerelease,
    /// The kernel uses the vector registers, and writes this byte to all of XMM0.
    Ksec { byte: u8 },
    /// The task asks for the permission to use a component.
    Perm { feature: u32 },
    /// The turn ends.
    Yield,
    /// Bytes of the frame memory are the reply.
    Peek { at: u32, len: u32 },
    /// Bytes are written into the frame memory.
    Poke { at: u32, bytes: Lane },
    /// Bytes of the buffer are the reply.
    Bpeek { at: u32, len: u32 },
    /// Bytes are written into the buffer.
    Bpoke { at: u32, bytes: Lane },
    /// The task returns from its signal handler.
    Sigreturn,
    /// The child block is born.
    Fork { name: Name },
    /// The signal is sent to the block.
    Kill { name: Name, signo: Signo },
    /// The task stops for its tracer.
    Stop,
    /// The task waits until its child is stopped or has ended.
    Wait { name: Name },
    /// A register set of the child is read into the buffer.
    Getregs { name: Name, set: Set },
    /// A register set of the child is written from the first bytes of the buffer.
    Setregs { name: Name, set: Set, count: u32 },
    /// The stopped child goes on.
    Cont { name: Name },
}

/// A line of a block: its number in the script, counted from 1, and its command.
#[derive(Drop)]
pub struct Order {
    /// The number of the line in the script, from 1.
    pub number: u32,
    /// What the line asks.
    pub command: Command,
    /// A definition sees a natural number, which is one of 32 bits.
    pub ghost in_range: { number < 2 ^ 32 },
}

/// A block: the lines between its first line and `end`. The handler is empty where there is none.
#[derive(Drop)]
pub struct Block {
    /// What the block is.
    pub kind: BlockKind,
    /// Its name, which no other block has.
    pub name: Name,
    /// Its lines outside the handler.
    pub body: Items<Order>,
    /// The lines of its signal handler.
    pub handler: Items<Order>,
}

/// A script. `cpus` is the number of processors, 1 to 16; `quantum` the greatest number of Local events in a turn,
/// 1 to 32; `large` the number of Large save areas, 0 to 64; `sched` the processors of a replay, in turn.
#[derive(Drop)]
pub struct Script {
    /// The machine.
    pub machine: Named,
    /// The machine's table of components.
    pub layout: Layout,
    /// The number of processors.
    pub cpus: u32,
    /// The most Local events of a turn.
    pub quantum: u32,
    /// The number of Large save areas.
    pub large: u32,
    /// The processors of a replay, in turn.
    pub sched: Items<u32>,
    /// The blocks, 1 to 64, in the order of the text.
    pub blocks: Items<Block>,
}
