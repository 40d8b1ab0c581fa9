//! The command that checks a history.

ghost use Rattle.std.specs.Prelude.{◌≡◌, ℕ, List, Some};
ghost use Rattle.xs_model.specs.declared.script.Script as scripts;
ghost use Rattle.xs_model.specs.Script.{IsValid};
ghost use Rattle.xs_outside.specs.declared.status.Status as statuses;
ghost use Rattle.xs_outside.specs.Outside.{output_of, outside};
ghost use Rattle.xs_outside.specs.Statuses.{TellEnds, Unfailed};
ghost use Rattle.xs_script.specs.Grammar.{Spells};
ghost use Rattle.xs_script.specs.RefusalText.{refusal_text};
ghost use Rattle.xs_check.specs.Call.{AnswerEnds, CheckEnds, MayJudge, MayTell, TellsOf};
ghost use Rattle.xs_check.specs.Verdict.{HasParts, IsVerdict};

use crate::following::{Finding, find};
use crate::laws::{no_refusal, one_verdict};
use crate::split::split;
use crate::verdict::{illegal_line, legal_line};
use std::alloc::Global;
use xs_io::{Sink, Source};
use xs_model::Script;
use xs_outside::{ReadError, SCRIPT_LIMIT, Status, read_up_to, tell, tell_too_long};
use xs_script::{Kind, RefusalLine, ScriptError, read_script, write_refusal};

/// The most bytes of an input.
const CHECK_LIMIT: usize = 268_435_456;

/// Reads an input from the source, of at most 268,435,456 bytes: a script, the line `%%`, and a text. Writes `legal N` to the sink where
/// the text is that of a whole history of the script, which has N lines, and else `illegal N`, where N is the line that shows it; or
/// the line of a refusal, where the script's text is refused, or it or the input is too long. It never answers 1 or 64.
pub fn check_call<S: Source, K: Sink>(alloc: Global, source: &mut S, sink: &mut K) -> Status
    // By its status: the input was read, and the line of its verdict was written, or a front of it at 5. At 4 and 6 nothing was
    // written.
    ensures ends { CheckEnds (outside S.Source K.Sink source.old sink.old) (outside S.Source K.Sink source.new sink.new) result }
    // A known input is told its verdict and no other.
    ensures told { (input text : List ℕ) (right : statuses.Status) → S.left source.old ≡ Some input → IsVerdict input right text → MayTell right text (output_of K.Sink sink.old) (output_of K.Sink sink.new) result }
    // One whose script is accepted is never refused.
    ensures judges { (input script_text text : List ℕ) (script : scripts.Script) → S.left source.old ≡ Some input → HasParts input script_text text → Spells script_text script → MayJudge result }
    // No fault is passed over.
    ensures unfailed { Unfailed (outside S.Source K.Sink source.old sink.old) (outside S.Source K.Sink source.new sink.new) result }
{
    one_verdict();
    no_refusal();
    match read_up_to(alloc, CHECK_LIMIT, source) {
        Ok(input) => answer(alloc, input.as_slice(), sink),
        Err(ReadError::Fault) => Status::ReadFault,
        Err(ReadError::Memory) => Status::NoMemory,
    }
}

/// Answers an input with the line of its verdict.
fn answer<K: Sink>(alloc: Global, input: &[u8], sink: &mut K) -> Status
    ensures { AnswerEnds input.now (output_of K.Sink sink.old) (output_of K.Sink sink.new) result }
{
    if input.len() > CHECK_LIMIT {
        return tell_too_long(sink);
    }
    let (script_text, text) = split(input);
    if script_text.len() > SCRIPT_LIMIT {
        return tell_too_long(sink);
    }
    match read_script(alloc, script_text) {
        Ok(script) => answer_history(alloc, &script, text, sink),
        Err(ScriptError::Refused { line, kind }) => tell_refusal(line, kind, sink),
        Err(ScriptError::Memory) => Status::NoMemory,
    }
}

/// Writes the line of a refusal.
fn tell_refusal<K: Sink>(line: u32, kind: Kind, sink: &mut K) -> Status
    ensures { TellEnds Status.Refused (refusal_text line kind) (output_of K.Sink sink.old) (output_of K.Sink sink.new) result }
{
    let mut text = RefusalLine::new();
    write_refusal(line, kind, &mut text);
    tell(sink, text.as_slice(), Status::Refused)
}

/// Answers the text of a history of the script.
fn answer_history<K: Sink>(alloc: Global, script: &Script, text: &[u8], sink: &mut K) -> Status
    requires { IsValid script.now }
    ensures { TellsOf script.now text.now (output_of K.Sink sink.old) (output_of K.Sink sink.new) result }
{
    match find(alloc, script, text) {
        Ok(Finding::Whole(lines)) => tell(sink, legal_line(lines).as_slice(), Status::Done),
        Ok(Finding::Broken(line)) => tell(sink, illegal_line(line).as_slice(), Status::Illegal),
        Err(_) => Status::NoMemory,
    }
}
