//! A history followed to its end, or to the first line that breaks it.

ghost use Rattle.std.specs.Prelude.{◌≤◌, [], length, IfOk};
ghost use Rattle.xs_legal.specs.Standing.{StandsAfter};
ghost use Rattle.xs_model.specs.Script.{IsValid};
ghost use Rattle.xs_check.specs.Verdict.{IsFollowed, IsFound};

use std::alloc::{AllocError, Global};
use xs_legal::{Machine, wrong_once};
use xs_model::{Event, Script};
use xs_text::{TextError, read_history};

/// What is found of a text.
#[derive(Clone, Copy)]
pub enum Finding {
    /// It is that of a whole history, which has so many lines.
    Whole(u32),
    /// This line, counted from 1, shows that it isn't.
    Broken(u32),
}

/// What is found of the text of a history: the whole of it is read before its first event is judged. Fails for want of memory alone.
#[tactic(auto, using(crate::proofs::Events::found, crate::proofs::Events::misspelled))]
pub fn find(alloc: Global, script: &Script, text: &[u8]) -> Result<Finding, AllocError>
    requires { IsValid script.now }
    ensures { IfOk result (IsFound script.now text.now) }
{
    match read_history(alloc, script, text) {
        Ok(history) => {
            let mut machine = Machine::open(alloc, script)?;
            Ok(follow(&mut machine, history.events()))
        }
        Err(TextError::BadLine(line)) => Ok(Finding::Broken(line)),
        Err(TextError::Memory) => Err(AllocError),
    }
}

/// What is found of the events by the machine that is opened for them.
fn follow(machine: &mut Machine, events: &[Event]) -> Finding
    requires opened { StandsAfter machine.old [] }
    requires few { length events.now ≤ 1048576 }
    ensures { IsFollowed machine.old.script events.now result }
{
    wrong_once();
    let mut line: u32 = 0;
    'events: for event in events {
        line += 1;
        match machine.step(event) {
            Ok(()) => {}
            Err(_) => return Finding::Broken(line),
        }
    }
    if machine.whole() {
        Finding::Whole(line)
    } else {
        Finding::Broken(line + 1)
    }
}
