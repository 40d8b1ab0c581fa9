//! What a local line answers, and which line traps.

ghost use Rattle.std.specs.Prelude.{◌≡◌, None, Some, MatchResult};
ghost use Rattle.xs_base.specs.Task.{IsPrivateTask};
ghost use Rattle.xs_base.specs.Frame.{return_of};
ghost use Rattle.xs_model.specs.Script.{IsCommand};
ghost use Rattle.xs_model.specs.Line as lines;
ghost use Rattle.xs_model.specs.Line.{refusal, return_cause, return_reply};

use xs_base::{Errno, HeaderError};
use xs_model::{Command, Reply, Why};
use xs_private::{Private, Restored};

/// Whether the line raises #NM: it uses tiles for which the task has no room yet.
pub fn traps(task: &Private, command: &Command) -> bool
    requires { IsCommand task.now.file.rows command.now }
    ensures { result ≡ lines.traps task.now command.now }
{
    match command {
        Command::Get { reg } => task.traps(reg.as_slice(), false),
        Command::Set { reg, .. } => task.traps(reg.as_slice(), true),
        _ => false,
    }
}

/// What a local line answers, or why it kills its task, where it is a return from a handler that is refused.
pub fn local_answer(task: &Private, command: &Command) -> Result<Reply, Why>
    requires valid { IsPrivateTask task.now.file.rows task.now }
    requires known { IsCommand task.now.file.rows command.now }
    ensures { MatchResult result (λ reply. (refusal task.now command.now ≡ None) × (reply ≡ lines.local_reply task.now command.now)) (λ why. refusal task.now command.now ≡ Some why) }
{
    match command {
        Command::Get { reg } => Ok(Reply::Bytes(task.read(reg.as_slice()))),
        Command::Perm { feature } => Ok(count_or_error(0, task.request_error(*feature))),
        Command::Peek { at, len } => Ok(Reply::Bytes(task.peek_frame(*at, *len))),
        Command::Bpeek { at, len } => Ok(Reply::Bytes(task.peek_buffer(*at, *len))),
        Command::Sigreturn => answer_return(task),
        _ => Ok(Reply::Done),
    }
}

/// What a return from a handler answers, or why it kills its task.
fn answer_return(task: &Private) -> Result<Reply, Why>
    requires { IsPrivateTask task.now.file.rows task.now }
    ensures { MatchResult result (λ reply. (return_cause (return_of task.now) ≡ None) × (reply ≡ return_reply (return_of task.now))) (λ why. return_cause (return_of task.now) ≡ Some why) }
{
    match task.return_answer() {
        Ok(Restored::Full) => Ok(Reply::Full),
        Ok(Restored::LegacyOnly) => Ok(Reply::Legacy),
        Err(error) => Err(frame_cause(error)),
    }
}

/// The cause of the kill by a frame that is refused.
fn frame_cause(error: HeaderError) -> Why
    ensures { result ≡ lines.frame_cause error }
{
    match error {
        HeaderError::Features => Why::FrameFeatures,
        HeaderError::Compacted => Why::FrameCompacted,
        HeaderError::Reserved => Why::FrameReserved,
        HeaderError::Mxcsr => Why::FrameMxcsr,
    }
}

/// An error's number (Linux 6.6, `errno-base.h` and `errno.h`), or else the count.
pub fn count_or_error(count: u32, error: Option<Errno>) -> Reply
    ensures { result ≡ lines.count_or_error count error }
{
    match error {
        Some(error) => Reply::Error(error as u32),
        None => Reply::Count(count),
    }
}
