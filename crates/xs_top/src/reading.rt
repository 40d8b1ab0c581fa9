//! The script that a command plays, read from its input.

ghost use Rattle.std.specs.Prelude.{◌≡◌, IfOk, IfErr};
ghost use Rattle.xs_outside.specs.Outside.{outside, output_of};
ghost use Rattle.xs_outside.specs.Statuses.{TellEnds};
ghost use Rattle.xs_script.specs.RefusalText.{refusal_text};
ghost use Rattle.xs_top.specs.Answers.{HasScript, IsAccepted, NoScript, NoScriptIn};

use std::alloc::Global;
use xs_io::{Sink, Source};
use xs_model::Script;
use xs_outside::{ReadError, SCRIPT_LIMIT, Status, read_up_to, tell, tell_too_long};
use xs_script::{Kind, RefusalLine, ScriptError, read_script, write_refusal};

/// Reads a script from the source. Where there is none, the answer is the status that says why, and the line of a refusal was written.
pub fn read_play<S: Source, K: Sink>(
    alloc: Global,
    source: &mut S,
    sink: &mut K,
) -> Result<Script, Status>
    ensures script { IfOk result (λ script. HasScript script (outside S.Source K.Sink source.old sink.old) (outside S.Source K.Sink source.new sink.new)) }
    ensures none { IfErr result (NoScript (outside S.Source K.Sink source.old sink.old) (outside S.Source K.Sink source.new sink.new)) }
{
    match read_up_to(alloc, SCRIPT_LIMIT, source) {
        Ok(input) => script_of(alloc, input.as_slice(), sink),
        Err(ReadError::Fault) => Err(Status::ReadFault),
        Err(ReadError::Memory) => Err(Status::NoMemory),
    }
}

/// The script that an input is, or the status that says why there is none; the line of a refusal was written.
fn script_of<K: Sink>(alloc: Global, input: &[u8], sink: &mut K) -> Result<Script, Status>
    ensures script { IfOk result (IsAccepted input.now) }
    ensures unwritten { IfOk result (λ _. output_of K.Sink sink.new ≡ output_of K.Sink sink.old) }
    ensures none { IfErr result (NoScriptIn input.now (output_of K.Sink sink.old) (output_of K.Sink sink.new)) }
{
    if input.len() > SCRIPT_LIMIT {
        return Err(tell_too_long(sink));
    }
    match read_script(alloc, input) {
        Ok(script) => Ok(script),
        Err(ScriptError::Refused { line, kind }) => Err(tell_refusal(line, kind, sink)),
        Err(ScriptError::Memory) => Err(Status::NoMemory),
    }
}

/// Writes the line of a refusal.
fn tell_refusal<K: Sink>(line: u32, kind: Kind, sink: &mut K) -> Status
    ensures { TellEnds Status.Refused (refusal_text line kind) (output_of K.Sink sink.old) (output_of K.Sink sink.new) result }
{
    let mut text = RefusalLine::new();
    write_refusal(line, kind, &mut text);
    tell(sink, text.as_slice(), Status::Refused)
}
