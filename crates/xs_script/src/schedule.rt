//! The schedule of a script: the processors of a replay, in turn.

ghost use Rattle.std.specs.Prelude.{◌≡◌, ◌+◌, ◌^◌, ◌<◌, ◌≤◌, ◌++◌, ◌∷◌, length, codes, MatchOption, IfSome, OnOk, IfOk, IfErr};
ghost use Rattle.xs_script.specs.LineOrder.{AtSched};
ghost use Rattle.xs_base.specs.Bytes.{Lacks};
ghost use Rattle.xs_script.specs.Front.{ExplainsFrom};
ghost use Rattle.xs_script.specs.Schedule.{NoSched, TakesWords, ExplainsWords, TakesEntry, ExplainsWord, IsScheduleOf};

use crate::refusal::{Kind, LimitName, ScriptError};
use crate::words::read_number;
use std::alloc::Global;
use xs_base::{after, cut_at};
use xs_model::Items;

/// The most entries of a schedule.
const MOST_ENTRIES: usize = 4096;

/// The entries so far, of a script with so many processors.
#[derive(Drop)]
pub(crate) struct Schedule {
    pub(crate) cpus: u32,
    pub(crate) entries: Items<u32>,
}

/// The entries of the `sched` lines that the text begins with, of which line `first` is the first, the number of the line
/// after them, and the text from there on.
pub(crate) fn read_schedule(
    alloc: Global,
    cpus: u32,
    first: u32,
    text: &[u8],
) -> Result<(Items<u32>, u32, &[u8]), ScriptError>
    requires { first + length text.now < 2 ^ 32 }
    ensures schedule { IfOk result (λ x. IsScheduleOf cpus first text.now x.0 x.1 x.2.now) }
    ensures room { IfOk result (λ x. x.1 + length x.2.now ≤ first + length text.now) }
    ensures refused { IfErr result (ExplainsFrom (AtSched cpus 0) first text.now) }
{
    let mut schedule = Schedule {
        cpus,
        entries: Items::new(alloc),
    };
    let mut number = first;
    let mut left = text;
    'lines: while let Some((words, rest)) = sched_words(left) {
        match schedule.add_words(number, words) {
            Ok(()) => left = rest,
            Err(e) => return Err(e),
        }
        number += 1;
    }
    let Schedule { entries, .. } = schedule;
    Ok((entries, number, left))
}

/// The words after the first of the text's first line, where that is `sched`, and the text after this line.
fn sched_words(text: &[u8]) -> Option<(&[u8], &[u8])>
    ensures words { MatchOption result (NoSched text.now) (λ x. Lacks 10 x.0.now × (text.now ≡ codes "sched " ++ (x.0.now ++ 10 ∷ x.1.now))) }
    ensures shorter { IfSome result (λ x. length x.1.now < length text.now) }
{
    let words = after(b"sched ", text)?;
    let (words, rest) = cut_at(b'\n', words)?;
    Some((words, rest))
}

impl Schedule {
    /// Takes the words of a `sched` line after the first, which is line `number`.
    fn add_words(&mut self, number: u32, words: &[u8]) -> Result<(), ScriptError>
        requires few { length self.old.entries ≤ 4096 }
        ensures taken { OnOk result (TakesWords self.old words.now self.new) }
        ensures refused { IfErr result (ExplainsWords self.old number words.now) }
    {
        let mut within = true;
        let mut left = words;
        'words: while let Some((word, rest)) = cut_at(b' ', left) {
            match self.add_word(number, within, word) {
                Ok(still) => within = still,
                Err(e) => return Err(e),
            }
            left = rest;
        }
        match self.add_word(number, within, left) {
            Ok(true) => Ok(()),
            Ok(false) => Err(ScriptError::Refused {
                line: number,
                kind: Kind::Limit(LimitName::Sched),
            }),
            Err(e) => Err(e),
        }
    }

    /// Takes a word of a line as one entry more, where none before it on the line is beyond a limit and it isn't either, and
    /// answers whether this is so.
    fn add_word(&mut self, number: u32, within: bool, word: &[u8]) -> Result<bool, ScriptError>
        requires few { length self.old.entries ≤ 4096 }
        ensures taken { IfOk result (λ still. TakesEntry self.old within word.now still self.new) }
        ensures refused { IfErr result (ExplainsWord number word.now) }
    {
        let entry = match read_number(word) {
            Some(entry) => entry,
            None => {
                return Err(ScriptError::Refused {
                    line: number,
                    kind: Kind::BadLine,
                });
            }
        };
        if !within || self.cpus <= entry || self.entries.len() >= MOST_ENTRIES {
            return Ok(false);
        }
        match self.entries.push(entry) {
            Ok(()) => Ok(true),
            Err(_) => Err(ScriptError::Memory),
        }
    }
}
