//! A turn that a processor takes from the board, and what it brings back.

ghost use Rattle.std.specs.Prelude.{◌≡◌, ◌&&◌};
ghost use Rattle.xs_model.specs.Due.{how_of};
ghost use Rattle.xs_model.specs.Note.{is_at};
ghost use Rattle.xs_model.specs.Script.{is_user_kind};

use arrayvec::ArrayVec;
use xs_base::{HeaderError, How, Signo};
use xs_model::{BlockKind, Reply};
use xs_task::Task;

/// A task that is handed out for a turn.
#[derive(Drop)]
pub struct Turn {
    /// The task. That of a kernel thread has a place alone, without an area and with empty memories.
    pub task: Task,
    /// The processor of the turn.
    pub cpu: u32,
    /// How the task's registers come.
    pub how: How,
    /// The signal that the task gets.
    pub signal: Option<Signo>,
}

/// What a processor gets that asks for a turn.
#[derive(Drop)]
pub enum Taken {
    /// The turn of the first ready block.
    Turn(Turn),
    /// No block is ready, and one lives.
    Nothing,
    /// No block lives.
    Done,
}

/// A line that ran, and its reply.
#[derive(Drop)]
pub struct Entry {
    /// The number of the line in the script.
    pub line: u32,
    /// What it answered.
    pub reply: Reply,
}

impl Default for Entry {
    fn default() -> Entry {
        Entry {
            line: 0,
            reply: Reply::Done,
        }
    }
}

/// The lines of a turn, in order: at most 32, the greatest quantum.
pub type Entries = ArrayVec<Entry, 32>;

/// How a turn ends.
#[derive(Clone, Copy, PartialEq, Eq, Debug)]
pub enum Close {
    /// By as many lines as the quantum.
    Quantum,
    /// By a line `yield`.
    Yield,
    /// By the outer line of this number, at which the task stands.
    Outer(u32),
    /// By a return from a handler, at which the task stands: its frame is refused with this error, and the task ends.
    Refused(HeaderError),
    /// By a line, at which the task stands, that uses tiles for which the task has no room: it grows, or it is killed.
    Trap,
    /// At the end of the body.
    End,
}

/// How the registers of the block come at a Start on the processor, by the processor's mark and the task's last processor.
pub fn start_how(kind: BlockKind, mark: Option<u32>, last: Option<u32>, name: u32, cpu: u32) -> How
    ensures { result ≡ how_of (is_user_kind kind) (is_at mark name && is_at last cpu) }
{
    match kind {
        BlockKind::Kthread => How::Kern,
        _ if mark == Some(name) && last == Some(cpu) => How::Skip,
        _ => How::Load,
    }
}
