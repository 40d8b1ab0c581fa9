//! The command that runs a generated script, and tells what its history has.

ghost use Rattle.std.specs.Prelude.{◌≡◌, ◌<◌, ◌^◌, length, IfOk};
ghost use Rattle.xs_gen.specs.Generated.{generated_text};
ghost use Rattle.xs_model.specs.Script.{IsValid};
ghost use Rattle.xs_outside.specs.Outside.{output_of};
ghost use Rattle.xs_script.specs.Grammar.{Spells};
ghost use Rattle.xs_top.specs.Demo.{DemoEnds, SummaryEnds};
ghost use Rattle.xs_top.specs.Run.{AreNumbered, AreUncounted};

use crate::running::{open_shared, run_on_threads};
use crate::summary::summary_line;
use std::alloc::{AllocError, Global};
use std::sync::Wait;
use std::thread::Threads;
use xs_bank::Bank;
use xs_gen::{every_number_has_a_script, generate, no_number_is_refused};
use xs_io::Sink;
use xs_machine::{Gate, Proc};
use xs_model::Script;
use xs_outside::{Status, tell};
use xs_script::{ScriptError, read_script};

/// Runs the generator's script of the number with each of its processors on a thread, and writes the line of its summary.
pub fn demo_call<R: Threads + Wait + Sync, K: Sink, B: Bank + Send, G: Gate + Sync>(
    rt: &R,
    alloc: Global,
    number: u32,
    sink: &mut K,
    procs: &mut [Proc<B>],
    gate: &G,
) -> Status
    requires many { length procs.old ≡ 16 }
    requires numbers { AreNumbered procs.old }
    requires counts { AreUncounted B.state procs.old }
    ensures ends { DemoEnds B.state number (output_of K.Sink sink.old) (output_of K.Sink sink.new) procs.old procs.new result }
    ensures numbers { AreNumbered procs.new }
{
    match generated_script(alloc, number) {
        Ok(script) => tell_run(rt, alloc, &script, sink, procs, gate),
        Err(_) => Status::NoMemory,
    }
}

/// The generator's script of the number. Fails for want of memory alone.
fn generated_script(alloc: Global, number: u32) -> Result<Script, AllocError>
    ensures { IfOk result (λ script. Spells (generated_text number) script) }
{
    every_number_has_a_script();
    no_number_is_refused();
    let text = generate(alloc, number)?;
    match read_script(alloc, text.as_slice()) {
        Ok(script) => Ok(script),
        Err(ScriptError::Refused { .. }) => unreachable!(),
        Err(ScriptError::Memory) => Err(AllocError),
    }
}

/// Runs a script, and writes the line of its summary.
fn tell_run<R: Threads + Wait + Sync, K: Sink, B: Bank + Send, G: Gate + Sync>(
    rt: &R,
    alloc: Global,
    script: &Script,
    sink: &mut K,
    procs: &mut [Proc<B>],
    gate: &G,
) -> Status
    requires valid { IsValid script.now }
    requires many { length procs.old ≡ 16 }
    requires numbers { AreNumbered procs.old }
    requires counts { AreUncounted B.state procs.old }
    ensures ends { SummaryEnds B.state script.now (output_of K.Sink sink.old) (output_of K.Sink sink.new) procs.old procs.new result }
    ensures numbers { AreNumbered procs.new }
{
    let Ok((shared, passes)) = open_shared(alloc, script) else {
        return Status::NoMemory;
    };
    let history = run_on_threads(rt, script, shared, passes, procs, gate);
    let line = summary_line(script, history.events());
    tell(sink, line.as_slice(), Status::Done)
}
