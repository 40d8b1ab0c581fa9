//! All that the program does, over any source and sink.

ghost use Rattle.std.specs.Prelude.{◌≡◌, ◌⊎◌, ◌+◌, ◌≤◌, ◌↔◌, List, ℕ, length, true, IfNone, IfOk, IfSome};
ghost use Rattle.xs_counts.specs.Answers.{CallEnds, InputEnds};
ghost use Rattle.xs_counts.specs.Text.{processors_text};
ghost use Rattle.xs_model.specs.declared.script.Script.{Script};
ghost use Rattle.xs_top.specs.Answers.{AnswerEnds, IsAccepted, IsRefused};
ghost use Rattle.xs_outside.specs.Outside.{script_limit, outside, output_of};
ghost use Rattle.xs_outside.specs.Statuses.{TellEnds};
ghost use Rattle.xs_top.specs.Run.{AreNumbered, AreUncounted};
ghost use Rattle.xs_top.specs.declared.play.Play.{Play};

use crate::held::Held;
use crate::text::counts_text;
use std::alloc::{AllocError, Global};
use xs_bank::Bank;
use xs_io::{Sink, Source};
use xs_machine::Proc;
use xs_outside::{ReadError, SCRIPT_LIMIT, Status, read_up_to, tell};
use xs_script::{ScriptError, one_script, read_script};
use xs_top::replay_call;

/// Replays the script that the source has and writes its history, and behind it the text of its counts; or writes the line that
/// refuses the input. It takes the processors that `replay_call` takes.
pub fn counts_call<S: Source, K: Sink, B: Bank>(
    alloc: Global,
    source: &mut S,
    sink: &mut K,
    procs: &mut [Proc<B>],
) -> Status
    requires many { length procs.old ≡ 16 }
    requires numbers { AreNumbered procs.old }
    requires counts { AreUncounted B.state procs.old }
    ensures { CallEnds (outside S.Source K.Sink source.old sink.old) (outside S.Source K.Sink source.new sink.new) result }
{
    match read_up_to(alloc, SCRIPT_LIMIT, source) {
        Ok(input) => answer(alloc, input.as_slice(), sink, procs),
        Err(ReadError::Fault) => Status::ReadFault,
        Err(ReadError::Memory) => Status::NoMemory,
    }
}

/// Answers an input that was read.
fn answer<K: Sink, B: Bank>(
    alloc: Global,
    input: &[u8],
    sink: &mut K,
    procs: &mut [Proc<B>],
) -> Status
    requires short { length input.now ≤ script_limit + 1 }
    requires many { length procs.old ≡ 16 }
    requires numbers { AreNumbered procs.old }
    requires counts { AreUncounted B.state procs.old }
    ensures { InputEnds input.now (output_of K.Sink sink.old) (output_of K.Sink sink.new) result }
{
    one_script();
    let Ok(found) = processors_of(alloc, input) else {
        return Status::NoMemory;
    };
    let status = replay_input(alloc, input, sink, procs);
    let Some(count) = found else { return status };
    if !has_history(status) {
        return status;
    }
    tell_counts(&procs[..count], sink, status)
}

/// How many processors the script has that the input is; None where the input is refused.
fn processors_of(alloc: Global, input: &[u8]) -> Result<Option<usize>, AllocError>
    ensures some { IfOk result (λ found. IfSome found (λ count. (script : Script) × IsAccepted input.now script × (count ≡ script.cpus))) }
    ensures none { IfOk result (λ found. IfNone found ((line : List ℕ) × IsRefused input.now line)) }
{
    if input.len() > SCRIPT_LIMIT {
        return Ok(None);
    }
    match read_script(alloc, input) {
        Ok(script) => Ok(Some(script.cpus as usize)),
        Err(ScriptError::Refused { .. }) => Ok(None),
        Err(ScriptError::Memory) => Err(AllocError),
    }
}

/// Replays an input and writes its history. One that is refused has none.
fn replay_input<K: Sink, B: Bank>(
    alloc: Global,
    input: &[u8],
    sink: &mut K,
    procs: &mut [Proc<B>],
) -> Status
    requires short { length input.now ≤ script_limit + 1 }
    requires many { length procs.old ≡ 16 }
    requires numbers { AreNumbered procs.old }
    requires counts { AreUncounted B.state procs.old }
    ensures ends { AnswerEnds B.state Play.Replay input.now (output_of K.Sink sink.old) (output_of K.Sink sink.new) procs.old procs.new result }
    ensures refused { (line : List ℕ) → IsRefused input.now line → (result ≡ Status.Done) ⊎ (result ≡ Status.Killed) → ⊥ }
    ensures numbers { AreNumbered procs.new }
{
    replay_call(alloc, &mut Held { rest: input }, sink, procs)
}

/// Whether a call with this status wrote a history.
fn has_history(status: Status) -> bool
    ensures { (result ≡ true) ↔ ((status ≡ Status.Done) ⊎ (status ≡ Status.Killed)) }
{
    matches!(status, Status::Done | Status::Killed)
}

/// Writes the text of the counts of these processors, and answers the status.
fn tell_counts<K: Sink, B: Bank>(procs: &[Proc<B>], sink: &mut K, status: Status) -> Status
    requires { length procs.now ≤ 16 }
    ensures { TellEnds status (processors_text B.state procs.now) (output_of K.Sink sink.old) (output_of K.Sink sink.new) result }
{
    tell(sink, counts_text(procs).as_slice(), status)
}
