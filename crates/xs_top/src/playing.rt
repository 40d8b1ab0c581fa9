//! A script is run, and its history written.

ghost use Rattle.std.specs.Prelude.{◌≡◌, length};
ghost use Rattle.xs_model.specs.Script.{IsValid};
ghost use Rattle.xs_outside.specs.Outside.{output_of};
ghost use Rattle.xs_outside.specs.Statuses.{TellEnds};
ghost use Rattle.xs_text.specs.Text.{AreTasksKnown, history_text};
ghost use Rattle.xs_top.specs.declared.play.Play.{Play};
ghost use Rattle.xs_top.specs.Statuses as told;
ghost use Rattle.xs_top.specs.Answers.{KeepsProcessors, WriteEnds};
ghost use Rattle.xs_top.specs.Run.{AreNumbered, AreUncounted};

use crate::history::write_history;
use crate::running::{open_board, open_shared, run_by_schedule, run_on_threads};
use crate::status::status_of;
use std::alloc::Global;
use std::sync::Wait;
use std::thread::Threads;
use xs_bank::Bank;
use xs_io::Sink;
use xs_machine::{Gate, Proc};
use xs_model::{Event, Script};
use xs_outside::Status;

/// Runs a script with each of its processors on a thread, and writes its history.
pub fn write_run<R: Threads + Wait + Sync, K: Sink, B: Bank + Send, G: Gate + Sync>(
    rt: &R,
    alloc: Global,
    script: &Script,
    sink: &mut K,
    procs: &mut [Proc<B>],
    gate: &G,
) -> Status
    requires valid { IsValid script.now }
    requires many { length procs.old ≡ 16 }
    requires numbers { AreNumbered procs.old }
    requires counts { AreUncounted B.state procs.old }
    ensures ends { WriteEnds B.state Play.Run script.now (output_of K.Sink sink.old) (output_of K.Sink sink.new) procs.old procs.new result }
    ensures processors { KeepsProcessors procs.old procs.new result }
    ensures numbers { AreNumbered procs.new }
{
    match open_shared(alloc, script) {
        Ok((shared, passes)) => {
            let history = run_on_threads(rt, script, shared, passes, procs, gate);
            tell_history(script, history.events(), sink)
        }
        Err(_) => Status::NoMemory,
    }
}

/// Runs a script by its schedule, and writes its history.
pub fn write_replay<K: Sink, B: Bank>(
    alloc: Global,
    script: &Script,
    sink: &mut K,
    procs: &mut [Proc<B>],
) -> Status
    requires valid { IsValid script.now }
    requires many { length procs.old ≡ 16 }
    requires numbers { AreNumbered procs.old }
    requires counts { AreUncounted B.state procs.old }
    ensures ends { WriteEnds B.state Play.Replay script.now (output_of K.Sink sink.old) (output_of K.Sink sink.new) procs.old procs.new result }
    ensures processors { KeepsProcessors procs.old procs.new result }
    ensures numbers { AreNumbered procs.new }
{
    match open_board(alloc, script) {
        Ok(board) => {
            let history = run_by_schedule(script, board, procs);
            tell_history(script, history.events(), sink)
        }
        Err(_) => Status::NoMemory,
    }
}

/// Writes a history, and answers its status.
fn tell_history<K: Sink>(script: &Script, history: &[Event], sink: &mut K) -> Status
    requires { AreTasksKnown script.now history.now }
    ensures { TellEnds (told.status_of history.now) (history_text script.now history.now) (output_of K.Sink sink.old) (output_of K.Sink sink.new) result }
{
    match write_history(script, history, sink) {
        Ok(()) => status_of(history),
        Err(_) => Status::WriteFault,
    }
}
