//! The top call: all that the program does, over any source and sink.

ghost use Rattle.std.specs.Prelude.{◌≡◌, ℕ, List, ◌⊎◌, length, map, string_bytes, Some};
ghost use Rattle.xs_check.specs.Call.{MayJudge, MayTell};
ghost use Rattle.xs_check.specs.Verdict.{HasParts, IsVerdict};
ghost use Rattle.xs_io.specs.Causes.{Rose};
ghost use Rattle.xs_model.specs.declared.script.Script.{Script};
ghost use Rattle.xs_script.specs.Grammar.{Spells};
ghost use Rattle.xs_top.specs.declared.play.Play.{Play};
ghost use Rattle.xs_outside.specs.declared.status.Status as statuses;
ghost use Rattle.xs_outside.specs.Outside.{outside, input_of, output_of, script_limit, TakesAtMost, Writes, WritesNothing};
ghost use Rattle.xs_outside.specs.Statuses.{Unfailed};
ghost use Rattle.xs_top.specs.Run.{AreNumbered, AreUncounted, IsCheckLine, IsCommandLine, IsDemoLine, IsGenLine, IsPlayLine, play_words};
ghost use Rattle.xs_top.specs.Answers.{IsAccepted, IsRefused, CheckCall, DemoCall, GenCall, PlayEnds, IsCutShort, IsPlayCutShort, KeepsProcessors, usage_text};
ghost use Rattle.xs_top.specs.Headline.{Headline, Refusal, MayRun, MayRefuse};

use crate::command::{Command, command_of};
use crate::demo::demo_call;
use crate::play::Play;
use crate::playing::{write_replay, write_run};
use crate::reading::read_play;
use std::alloc::Global;
use std::sync::Wait;
use std::thread::Threads;
use xs_bank::Bank;
use xs_check::check_call;
use xs_gen::gen_call;
use xs_io::{Sink, Source};
use xs_machine::{Gate, Proc};
use xs_outside::{Status, tell};
use xs_script::{not_both, one_refusal};

/// The line that answers other words than a command.
const USAGE: &[u8] = b"usage: xstate run [--tasks] | replay | check | gen N | demo N\n";

/// Does what the words of the command line ask: `run` and `replay` read a script from the source and write its history to the sink;
/// `check` reads a script and a history of it, and writes whether the history is legal and whole, or which line shows that it isn't;
/// `gen N` writes the generator's script of the number, and `demo N` runs it and writes what its history has. `words` is the command
/// line without the program's name. The processors are sixteen, numbered from 0 in order, whose banks have counted nothing. The
/// script's ones are the first: they are set up once all memory is found, and no other changes. `run` and `demo` have each of them on a
/// thread of its own, which calls `gate`; they may wait, and it isn't promised that they return. All else waits for nobody.
pub fn top<R: Threads + Wait + Sync, S: Source, K: Sink, B: Bank + Send, G: Gate + Sync>(
    rt: &R,
    alloc: Global,
    words: &[String],
    source: &mut S,
    sink: &mut K,
    procs: &mut [Proc<B>],
    gate: &G,
) -> Status
    requires many { length procs.old ≡ 16 }
    requires numbers { AreNumbered procs.old }
    requires counts { AreUncounted B.state procs.old }

    // 64: the words are no command, and the usage line was written. Nothing was read.
    ensures usage { result ≡ Status.Usage → (IsCommandLine (map string_bytes words.now) → ⊥)
        × Writes (output_of K.Sink sink.old) (output_of K.Sink sink.new) usage_text × (input_of S.Source source.new ≡ input_of S.Source source.old) }
    // Other words than a command answer nothing else, but that the usage line was not written.
    ensures no_command { (IsCommandLine (map string_bytes words.now) → ⊥) → (result ≡ Status.Usage) ⊎ (result ≡ Status.WriteFault) }
    // `run` and `replay` at 0 and 1: what was written is the text of the one history of the script's run, and the processors are as
    // this run leaves them. It is 1 exactly where a task is killed in that history.
    ensures headline { IsPlayLine (map string_bytes words.now) → (result ≡ Status.Done) ⊎ (result ≡ Status.Killed) → (play : Play) × (map string_bytes words.now ≡ play_words play)
        × Headline B.state play (outside S.Source K.Sink source.old sink.old) (outside S.Source K.Sink source.new sink.new) procs.old procs.new result }
    // 2: only of a command that reads a script. Where it is played, what was read is no script, and what was written is the line of its
    // first refusal.
    ensures reads { result ≡ Status.Refused → IsPlayLine (map string_bytes words.now) ⊎ IsCheckLine (map string_bytes words.now) }
    ensures refused { IsPlayLine (map string_bytes words.now) → result ≡ Status.Refused
        → Refusal (outside S.Source K.Sink source.old sink.old) (outside S.Source K.Sink source.new sink.new) }
    // A known input that is a script is never refused.
    ensures runs { (input : List ℕ) (script : Script) → S.left source.old ≡ Some input → IsPlayLine (map string_bytes words.now) → IsAccepted input script → MayRun result }
    // A known input that is refused by a line is refused by no other, and never run.
    ensures refuses { (input line : List ℕ) → S.left source.old ≡ Some input → IsPlayLine (map string_bytes words.now) → IsRefused input line → MayRefuse (output_of K.Sink sink.old) (output_of K.Sink sink.new) line result }
    // `check`: 0 where the text after `%%` is that of a whole history of the script before it, 3 where it isn't, and 2 where that is no
    // script, or it or the input is too long, each with the line that says so. No processor changed.
    ensures checked { IsCheckLine (map string_bytes words.now) → CheckCall (outside S.Source K.Sink source.old sink.old) (outside S.Source K.Sink source.new sink.new) procs.old procs.new result }
    // A known input is told its one verdict and no other.
    ensures verdict { (input text : List ℕ) (right : statuses.Status) → S.left source.old ≡ Some input → IsCheckLine (map string_bytes words.now) → IsVerdict input right text → MayTell right text (output_of K.Sink sink.old) (output_of K.Sink sink.new) result }
    // One whose script is accepted is never refused.
    ensures judges { (input script_text text : List ℕ) (script : Script) → S.left source.old ≡ Some input → IsCheckLine (map string_bytes words.now) → HasParts input script_text text → Spells script_text script → MayJudge result }
    // `gen N`: 0 where the generator's script of the number was written. Nothing was read, and no processor changed.
    ensures generated { IsGenLine (map string_bytes words.now) → GenCall (map string_bytes words.now) (outside S.Source K.Sink source.old sink.old) (outside S.Source K.Sink source.new sink.new) procs.old procs.new result }
    // `demo N`: 0 where the line was written that tells what the one history of the number's script has, and the processors are as
    // this run leaves them. Nothing was read.
    ensures summary { IsDemoLine (map string_bytes words.now) → DemoCall B.state (map string_bytes words.now) (outside S.Source K.Sink source.old sink.old) (outside S.Source K.Sink source.new sink.new) procs.old procs.new result }
    // 4: only where the source failed in this call, and nothing was written.
    ensures read_fault { result ≡ Status.ReadFault → Rose (S.fault_count source.old) (S.fault_count source.new)
        × ((IsCheckLine (map string_bytes words.now) → ⊥) → TakesAtMost script_limit (input_of S.Source source.old) (input_of S.Source source.new)) × WritesNothing (output_of K.Sink sink.old) (output_of K.Sink sink.new) }
    // 5: only where the sink failed in this call, and what was written by then is a front of the right output. Where that is
    // the text of a run, the processors are as this run leaves them; where it is a line, no processor changed.
    ensures write_fault { result ≡ Status.WriteFault → IsCutShort B.state (map string_bytes words.now) (outside S.Source K.Sink source.old sink.old) (outside S.Source K.Sink source.new sink.new) procs.old procs.new }
    // 6: nothing was written. It is the answer to want of memory, for which no clause can ask.
    ensures no_memory { result ≡ Status.NoMemory → IsCommandLine (map string_bytes words.now)
        × ((IsCheckLine (map string_bytes words.now) → ⊥) → TakesAtMost script_limit (input_of S.Source source.old) (input_of S.Source source.new)) × WritesNothing (output_of K.Sink sink.old) (output_of K.Sink sink.new) }
    // 3: only of `check`, and 1 only of `run` and `replay`.
    ensures illegal { result ≡ Status.Illegal → IsCheckLine (map string_bytes words.now) }
    ensures killed { result ≡ Status.Killed → IsPlayLine (map string_bytes words.now) }
    // No fault is passed over: the source failed only at 4, and the sink only at 5.
    ensures unfailed { Unfailed (outside S.Source K.Sink source.old sink.old) (outside S.Source K.Sink source.new sink.new) result }
    // At 64, 2, 3, 4 and 6 no script ran, and no processor changed.
    ensures processors { KeepsProcessors procs.old procs.new result }
    // Each processor keeps its number.
    ensures numbers { AreNumbered procs.new }
{
    one_refusal();
    not_both();
    match command_of(words) {
        Some(Command::Play(play)) => play_call(rt, alloc, play, source, sink, procs, gate),
        Some(Command::Check) => check_call(alloc, source, sink),
        Some(Command::Gen(number)) => gen_call(alloc, number, sink),
        Some(Command::Demo(number)) => demo_call(rt, alloc, number, sink, procs, gate),
        None => tell(sink, USAGE, Status::Usage),
    }
}

/// The command `replay` alone: reads a script from the source, runs it by its schedule and writes its history to the sink. It
/// takes the processors that `top` takes, and never answers 64.
pub fn replay_call<S: Source, K: Sink, B: Bank>(
    alloc: Global,
    source: &mut S,
    sink: &mut K,
    procs: &mut [Proc<B>],
) -> Status
    requires many { length procs.old ≡ 16 }
    requires numbers { AreNumbered procs.old }
    requires counts { AreUncounted B.state procs.old }

    ensures no_usage { result ≡ Status.Usage → ⊥ }
    ensures no_verdict { result ≡ Status.Illegal → ⊥ }
    // 0 and 1: what was written is the text of the one history of the script's run, and the processors are as this run leaves
    // them. It is 1 exactly where a task is killed in that history.
    ensures headline { (result ≡ Status.Done) ⊎ (result ≡ Status.Killed) → Headline B.state Play.Replay (outside S.Source K.Sink source.old sink.old) (outside S.Source K.Sink source.new sink.new) procs.old procs.new result }
    // 2: what was read is no script, and what was written is the line of its first refusal.
    ensures refused { result ≡ Status.Refused → Refusal (outside S.Source K.Sink source.old sink.old) (outside S.Source K.Sink source.new sink.new) }
    // A known input that is a script is never refused, and one that is refused by a line is refused by no other and never run.
    ensures runs { (input : List ℕ) (script : Script) → S.left source.old ≡ Some input → IsAccepted input script → MayRun result }
    ensures refuses { (input line : List ℕ) → S.left source.old ≡ Some input → IsRefused input line → MayRefuse (output_of K.Sink sink.old) (output_of K.Sink sink.new) line result }
    // 4: only where the source failed in this call, and nothing was written.
    ensures read_fault { result ≡ Status.ReadFault → Rose (S.fault_count source.old) (S.fault_count source.new)
        × TakesAtMost script_limit (input_of S.Source source.old) (input_of S.Source source.new) × WritesNothing (output_of K.Sink sink.old) (output_of K.Sink sink.new) }
    // 5: only where the sink failed in this call, and what was written by then is a front of the right output, with the processors
    // that go with it.
    ensures write_fault { result ≡ Status.WriteFault → IsPlayCutShort B.state Play.Replay (outside S.Source K.Sink source.old sink.old) (outside S.Source K.Sink source.new sink.new) procs.old procs.new }
    // 6: nothing was written.
    ensures no_memory { result ≡ Status.NoMemory → TakesAtMost script_limit (input_of S.Source source.old) (input_of S.Source source.new) × WritesNothing (output_of K.Sink sink.old) (output_of K.Sink sink.new) }
    // No fault is passed over, no processor changed where no script ran, and each keeps its number.
    ensures unfailed { Unfailed (outside S.Source K.Sink source.old sink.old) (outside S.Source K.Sink source.new sink.new) result }
    ensures processors { KeepsProcessors procs.old procs.new result }
    ensures numbers { AreNumbered procs.new }
{
    one_refusal();
    not_both();
    schedule_call(alloc, source, sink, procs)
}

/// Reads a script, plays it as the command does and writes its history.
fn play_call<R: Threads + Wait + Sync, S: Source, K: Sink, B: Bank + Send, G: Gate + Sync>(
    rt: &R,
    alloc: Global,
    play: Play,
    source: &mut S,
    sink: &mut K,
    procs: &mut [Proc<B>],
    gate: &G,
) -> Status
    requires many { length procs.old ≡ 16 }
    requires numbers { AreNumbered procs.old }
    requires counts { AreUncounted B.state procs.old }
    ensures ends { PlayEnds B.state play (outside S.Source K.Sink source.old sink.old) (outside S.Source K.Sink source.new sink.new) procs.old procs.new result }
    ensures processors { KeepsProcessors procs.old procs.new result }
    ensures numbers { AreNumbered procs.new }
{
    match play {
        Play::Run => threads_call(rt, alloc, source, sink, procs, gate),
        Play::Replay => schedule_call(alloc, source, sink, procs),
    }
}

/// Reads a script, runs it on threads and writes its history.
fn threads_call<R: Threads + Wait + Sync, S: Source, K: Sink, B: Bank + Send, G: Gate + Sync>(
    rt: &R,
    alloc: Global,
    source: &mut S,
    sink: &mut K,
    procs: &mut [Proc<B>],
    gate: &G,
) -> Status
    requires many { length procs.old ≡ 16 }
    requires numbers { AreNumbered procs.old }
    requires counts { AreUncounted B.state procs.old }
    ensures ends { PlayEnds B.state Play.Run (outside S.Source K.Sink source.old sink.old) (outside S.Source K.Sink source.new sink.new) procs.old procs.new result }
    ensures processors { KeepsProcessors procs.old procs.new result }
    ensures numbers { AreNumbered procs.new }
{
    match read_play(alloc, source, sink) {
        Ok(script) => write_run(rt, alloc, &script, sink, procs, gate),
        Err(status) => status,
    }
}

/// Reads a script, runs it by its schedule and writes its history.
fn schedule_call<S: Source, K: Sink, B: Bank>(
    alloc: Global,
    source: &mut S,
    sink: &mut K,
    procs: &mut [Proc<B>],
) -> Status
    requires many { length procs.old ≡ 16 }
    requires numbers { AreNumbered procs.old }
    requires counts { AreUncounted B.state procs.old }
    ensures ends { PlayEnds B.state Play.Replay (outside S.Source K.Sink source.old sink.old) (outside S.Source K.Sink source.new sink.new) procs.old procs.new result }
    ensures processors { KeepsProcessors procs.old procs.new result }
    ensures numbers { AreNumbered procs.new }
{
    match read_play(alloc, source, sink) {
        Ok(script) => write_replay(alloc, &script, sink, procs),
        Err(status) => status,
    }
}
