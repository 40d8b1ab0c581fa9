//! The parts of a block, and what may stand in each.

ghost use Rattle.std.specs.Prelude.{◌≡◌, ◌^◌, ◌<◌};
ghost use Rattle.xs_base.specs.Task.{frame_length, buffer_length};
ghost use Rattle.xs_model.specs.Script.{is_kernel_command, is_return, is_user_kind, fits_memory, is_caught};
ghost use Rattle.xs_script.specs.LineOrder.{may_have, may_handle, may_close, no_signal_kind, part_after, limit_unless, command_limit, order_fault};

use crate::refusal::{Kind, LimitName};
use xs_base::Signo;
use xs_model::{BlockKind, Command};

/// The bytes of the memory of a signal frame.
const FRAME_LENGTH: u64 = 16_388;

/// The bytes of the buffer for register sets.
const BUFFER_LENGTH: u64 = 16_384;

/// The most bytes that a line reads or writes of a memory.
const MOST_BYTES: u64 = 64;

/// Where a reader stands in a block.
#[derive(Clone, Copy, PartialEq, Eq)]
pub enum BlockPart {
    /// In its body: no handler has begun.
    Body,
    /// In its handler.
    Handler,
    /// After the return from its handler, where only the block's end may come.
    Returned,
}

impl BlockPart {
    /// Whether the command may stand there in a block of this kind: a kernel thread has kernel sections and yields alone, and
    /// the return from a handler stands in a handler.
    fn may_have(self, kind: BlockKind, command: &Command) -> bool
        ensures { result ≡ may_have self kind command.now }
    {
        match self {
            BlockPart::Body => match kind {
                BlockKind::Task | BlockKind::Child => !is_return(command),
                BlockKind::Kthread => is_kernel_command(command),
            },
            BlockPart::Handler => true,
            BlockPart::Returned => false,
        }
    }

    /// Whether the handler of a block of this kind may begin there.
    pub(crate) fn may_handle(self, kind: BlockKind) -> bool
        ensures { result ≡ may_handle self kind }
    {
        match self {
            BlockPart::Body => is_user_kind(kind),
            BlockPart::Handler | BlockPart::Returned => false,
        }
    }

    /// Whether the block may end there.
    pub(crate) fn may_close(self) -> bool
        ensures { result ≡ may_close self }
    {
        match self {
            BlockPart::Body | BlockPart::Returned => true,
            BlockPart::Handler => false,
        }
    }

    /// Where a reader stands after the command.
    pub(crate) fn after(self, command: &Command) -> BlockPart
        ensures { result ≡ part_after self command.now }
    {
        match self {
            BlockPart::Body => BlockPart::Body,
            BlockPart::Handler if is_return(command) => BlockPart::Returned,
            BlockPart::Handler => BlockPart::Handler,
            BlockPart::Returned => BlockPart::Returned,
        }
    }

    /// What the command is refused with there, in a block of this kind.
    pub(crate) fn order_fault(self, kind: BlockKind, command: &Command) -> Option<Kind>
        ensures { result ≡ order_fault self kind command.now }
    {
        if !self.may_have(kind, command) {
            return Some(Kind::BadLine);
        }
        match command_limit(command) {
            Some(name) => Some(Kind::Limit(name)),
            None => None,
        }
    }

    /// What a number that no signal has is refused with there, in a block of this kind.
    pub(crate) fn no_signal_kind(self, kind: BlockKind) -> Kind
        ensures { result ≡ no_signal_kind self kind }
    {
        match self {
            BlockPart::Body if is_user_kind(kind) => Kind::Limit(LimitName::Signal),
            BlockPart::Body => Kind::BadLine,
            BlockPart::Handler => Kind::Limit(LimitName::Signal),
            BlockPart::Returned => Kind::BadLine,
        }
    }
}

/// The limit that the numbers or bytes of a command are out of.
fn command_limit(command: &Command) -> Option<LimitName>
    ensures { result ≡ command_limit command.now }
{
    match command {
        Command::Peek { at, len } => frame_limit(*at, *len as u64),
        Command::Poke { at, bytes } => frame_limit(*at, bytes.as_slice().len() as u64),
        Command::Bpeek { at, len } => buffer_limit(*at, *len as u64),
        Command::Bpoke { at, bytes } => buffer_limit(*at, bytes.as_slice().len() as u64),
        Command::Kill { signo, .. } => limit_unless(LimitName::Signal, is_caught(*signo)),
        Command::Setregs { count, .. } => {
            limit_unless(LimitName::Count, *count as u64 <= BUFFER_LENGTH)
        }
        _ => None,
    }
}

/// The limit that so many bytes of the memory of a signal frame are out of, from a place on.
fn frame_limit(at: u32, len: u64) -> Option<LimitName>
    requires { len < 2 ^ 32 }
    ensures { result ≡ limit_unless LimitName.Frame (fits_memory frame_length at len) }
{
    limit_unless(LimitName::Frame, fits_memory(FRAME_LENGTH, at, len))
}

/// The limit that so many bytes of the buffer are out of.
fn buffer_limit(at: u32, len: u64) -> Option<LimitName>
    requires { len < 2 ^ 32 }
    ensures { result ≡ limit_unless LimitName.Buffer (fits_memory buffer_length at len) }
{
    limit_unless(LimitName::Buffer, fits_memory(BUFFER_LENGTH, at, len))
}

/// The limit, where what it limits is out of it.
fn limit_unless(name: LimitName, fits: bool) -> Option<LimitName>
    ensures { result ≡ limit_unless name fits }
{
    if fits { None } else { Some(name) }
}

/// Whether so many bytes from a place on lie within a memory of this size, and are 1 to 64.
fn fits_memory(size: u64, at: u32, len: u64) -> bool
    requires { len < 2 ^ 32 }
    ensures { result ≡ fits_memory size at len }
{
    1 <= len && len <= MOST_BYTES && at as u64 + len <= size
}

/// Whether a handler can have the signal: SIGKILL and SIGSTOP have none.
fn is_caught(signo: Signo) -> bool
    ensures { result ≡ is_caught signo.number }
{
    signo.number != 9 && signo.number != 19
}

fn is_user_kind(kind: BlockKind) -> bool
    ensures { result ≡ is_user_kind kind }
{
    match kind {
        BlockKind::Task | BlockKind::Child => true,
        BlockKind::Kthread => false,
    }
}

fn is_kernel_command(command: &Command) -> bool
    ensures { result ≡ is_kernel_command command.now }
{
    matches!(command, Command::Ksec { .. } | Command::Yield)
}

fn is_return(command: &Command) -> bool
    ensures { result ≡ is_return command.now }
{
    matches!(command, Command::Sigreturn)
}
