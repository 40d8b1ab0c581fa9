//! The reader of histories: the history that a text is that of, or its first line that is badly spelled.

ghost use Rattle.std.specs.Prelude.{◌≡◌, ℕ, List, IfOk, IfErr};
ghost use Rattle.xs_model.specs.declared.event.Event.{Event};
ghost use Rattle.xs_model.specs.declared.script.Script.{Script};
ghost use Rattle.xs_model.specs.Script.{IsValid};
ghost use Rattle.xs_text.specs.Reading.{IsHistoryOf, IsFirstBadLine, Explains};

use crate::event_reader::read_event;
use std::alloc::Global;
use xs_model::{History, Script};

/// The most lines of a text.
const MOST_LINES: u32 = 1_048_576;

/// Why no history was read.
#[derive(Clone, Copy, PartialEq, Eq)]
pub enum TextError {
    /// The text's first line, counted from 1, that is badly spelled.
    BadLine(u32),
    /// No memory is left.
    Memory,
}

/// The history that the text is that of, a line for each event in its one spelling, or the first line that is badly spelled.
/// A text has at most 1,048,576 lines, and a further one is badly spelled. It takes memory for the events alone.
pub fn read_history(alloc: Global, script: &Script, text: &[u8]) -> Result<History, TextError>
    requires { IsValid script.now }
    ensures history { IfOk result (IsHistoryOf script.now text.now) }
    ensures refused { IfErr result (Explains script.now text.now) }
{
    let mut history = History::new(alloc);
    let mut number = 1;
    let mut left = text;
    'lines: while !left.is_empty() {
        if number > MOST_LINES {
            return Err(TextError::BadLine(number));
        }
        let (event, rest) = match read_event(script, left) {
            Some(read) => read,
            None => return Err(TextError::BadLine(number)),
        };
        match history.push(event) {
            Ok(()) => left = rest,
            Err(_) => return Err(TextError::Memory),
        }
        number += 1;
    }
    Ok(history)
}

/// A text has at most one first line that is badly spelled. A call does nothing.
pub fn one_bad_line()
    ensures { (script : Script) (text : List ℕ) (m n : ℕ) → IsValid script → IsFirstBadLine script text m → IsFirstBadLine script text n → m ≡ n }
{}

/// The text of a history has no line that is badly spelled. A call does nothing.
pub fn not_both()
    ensures { (script : Script) (text : List ℕ) (history : List Event) (n : ℕ) → IsValid script → IsHistoryOf script text history → IsFirstBadLine script text n → ⊥ }
{}

/// No text is neither that of a history nor one with a first line that is badly spelled, so none has want of memory as its only
/// answer. A call does nothing.
pub fn every_text()
    ensures { (script : Script) (text : List ℕ) → ((history : List Event) → IsHistoryOf script text history → ⊥) → ((n : ℕ) → IsFirstBadLine script text n → ⊥) → ⊥ }
{}
