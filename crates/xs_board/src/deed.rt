//! What the line with which a turn closes does beside its turn.

ghost use Rattle.std.specs.Prelude.{◌≡◌, ◌<◌, ◌≤◌, length};
ghost use Rattle.xs_board.specs.Deed as deeds;
ghost use Rattle.xs_board.specs.Deed.{deed_by};
ghost use Rattle.xs_board.specs.Putting.{at_outer};
ghost use Rattle.xs_board.specs.Turn.{body_command};

use crate::turn::Close;
use xs_base::{Set, Signo};
use xs_model::{Command, Script};

/// What an outer line does. The blocks are the numbers of those that it names.
#[derive(Clone, Copy)]
pub enum Deed {
    /// The child is born.
    Fork(u32),
    /// The signal is sent to the block.
    Send { target: u32, signo: Signo },
    /// The task stops for its tracer.
    Stop,
    /// The task waits for the child.
    Wait(u32),
    /// A register set of the block is read.
    Get { target: u32, set: Set },
    /// A register set of the block is written from so many bytes.
    Put { target: u32, set: Set, count: u32 },
    /// The stopped block goes on.
    Cont(u32),
}

/// What a task at this place of its body does with the close of its turn.
pub fn find_deed(script: &Script, name: u32, place: u32, close: Close) -> Option<Deed>
    requires known { name < length script.now.blocks }
    requires few { length script.now.blocks ≤ 64 }
    ensures { result ≡ at_outer close (deed_by script.now (body_command script.now name place)) }
{
    match close {
        Close::Outer(_) => deed_at(script, name, place),
        _ => None,
    }
}

/// What the line at this place of a body does.
fn deed_at(script: &Script, name: u32, place: u32) -> Option<Deed>
    requires known { name < length script.now.blocks }
    requires few { length script.now.blocks ≤ 64 }
    ensures { result ≡ deed_by script.now (body_command script.now name place) }
{
    let blocks = script.blocks.as_slice();
    let order = blocks[name as usize].body.as_slice().get(place as usize)?;
    deed_of(script, &order.command)
}

/// What a command does, if it is an outer one.
fn deed_of(script: &Script, command: &Command) -> Option<Deed>
    requires few { length script.now.blocks ≤ 64 }
    ensures { result ≡ deeds.deed_of script.now command.now }
{
    match command {
        Command::Fork { name } => Some(Deed::Fork(script.block_named(name.as_slice()))),
        Command::Kill { name, signo } => Some(Deed::Send {
            target: script.block_named(name.as_slice()),
            signo: *signo,
        }),
        Command::Stop => Some(Deed::Stop),
        Command::Wait { name } => Some(Deed::Wait(script.block_named(name.as_slice()))),
        Command::Getregs { name, set } => Some(Deed::Get {
            target: script.block_named(name.as_slice()),
            set: *set,
        }),
        Command::Setregs { name, set, count } => Some(Deed::Put {
            target: script.block_named(name.as_slice()),
            set: *set,
            count: *count,
        }),
        Command::Cont { name } => Some(Deed::Cont(script.block_named(name.as_slice()))),
        _ => None,
    }
}
