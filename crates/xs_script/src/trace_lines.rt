//! The lines of a parent and its child, which waits for it and reaches its registers, and of the buffer for these, read.

ghost use Rattle.std.specs.Prelude.{◌≡◌, true, List, ℕ, ◌∷◌, ◌++◌, codes, MatchOption};
ghost use Rattle.xs_base.specs.declared.words.Set.{Set};
ghost use Rattle.xs_model.specs.Script.{is_name};
ghost use Rattle.xs_script.specs.ScriptLine.{set_word, line_text, kept_line};
ghost use Rattle.xs_script.specs.Reads.{Reads, ReadsAs};
ghost use Rattle.xs_script.specs.Parts.{IsTraceLine};

use crate::line::Line;
use crate::words::{read_bytes, read_first_number, read_name, read_number};
use xs_base::{Set, after, cut_at};
use xs_model::{Command, Name};

/// A line of a parent and its child, or of the buffer. Its first word says of which kind it can be.
pub(crate) fn read_trace_line(line: &[u8]) -> Option<Line>
    ensures { ReadsAs line_text IsTraceLine kept_line result line.now }
{
    if let Some(words) = after(b"getregs ", line) {
        return read_getregs(words);
    }
    if let Some(words) = after(b"setregs ", line) {
        return read_setregs(words);
    }
    if let Some(words) = after(b"bpeek ", line) {
        return read_bpeek(words);
    }
    if let Some(words) = after(b"bpoke ", line) {
        return read_bpoke(words);
    }
    if let Some(name) = after(b"wait ", line) {
        return read_wait(name);
    }
    if let Some(name) = after(b"cont ", line) {
        return read_cont(name);
    }
    if line == b"stop".as_slice() {
        return Some(Line::Order(Command::Stop));
    }
    None
}

/// The line `wait NAME`, by its name.
fn read_wait(name: &[u8]) -> Option<Line>
    ensures { ReadsAs line_text IsTraceLine kept_line result (codes "wait " ++ name.now) }
{
    let name = read_name(name)?;
    Some(Line::Order(Command::Wait { name }))
}

/// The line `cont NAME`, by its name.
fn read_cont(name: &[u8]) -> Option<Line>
    ensures { ReadsAs line_text IsTraceLine kept_line result (codes "cont " ++ name.now) }
{
    let name = read_name(name)?;
    Some(Line::Order(Command::Cont { name }))
}

/// The line `getregs NAME SET`, by the words after its first.
fn read_getregs(words: &[u8]) -> Option<Line>
    ensures { ReadsAs line_text IsTraceLine kept_line result (codes "getregs " ++ words.now) }
{
    let (name, word) = read_first_name(words)?;
    let set = read_set_word(word)?;
    Some(Line::Order(Command::Getregs { name, set }))
}

/// The line `setregs NAME SET COUNT`, by the words after its first.
fn read_setregs(words: &[u8]) -> Option<Line>
    ensures { ReadsAs line_text IsTraceLine kept_line result (codes "setregs " ++ words.now) }
{
    let (name, words) = read_first_name(words)?;
    let (set, digits) = read_first_set(words)?;
    let count = read_number(digits)?;
    Some(Line::Order(Command::Setregs { name, set, count }))
}

/// The line `bpeek AT LEN`, by its two numbers.
fn read_bpeek(words: &[u8]) -> Option<Line>
    ensures { ReadsAs line_text IsTraceLine kept_line result (codes "bpeek " ++ words.now) }
{
    let (at, len) = read_first_number(words)?;
    let len = read_number(len)?;
    Some(Line::Order(Command::Bpeek { at, len }))
}

/// The line `bpoke AT BYTES`, by the words after its first.
fn read_bpoke(words: &[u8]) -> Option<Line>
    ensures { ReadsAs line_text IsTraceLine kept_line result (codes "bpoke " ++ words.now) }
{
    let (at, digits) = read_first_number(words)?;
    let bytes = read_bytes(digits)?;
    Some(Line::Order(Command::Bpoke { at, bytes }))
}

/// The name before the first space of some words, and the words after it.
fn read_first_name(words: &[u8]) -> Option<(Name, &[u8])>
    ensures { MatchOption result ((name rest : List ℕ) → is_name name ≡ true → words.now ≡ name ++ 32 ∷ rest → ⊥) (λ x. (is_name x.0 ≡ true) × (words.now ≡ x.0 ++ 32 ∷ x.1.now)) }
{
    let (name, rest) = cut_at(b' ', words)?;
    let name = read_name(name)?;
    Some((name, rest))
}

/// The register set before the first space of some words, and the words after it.
fn read_first_set(words: &[u8]) -> Option<(Set, &[u8])>
    ensures { MatchOption result ((set : Set) (rest : List ℕ) → words.now ≡ set_word set ++ 32 ∷ rest → ⊥) (λ x. words.now ≡ set_word x.0 ++ 32 ∷ x.1.now) }
{
    let (word, rest) = cut_at(b' ', words)?;
    let set = read_set_word(word)?;
    Some((set, rest))
}

/// The register set of the word.
fn read_set_word(word: &[u8]) -> Option<Set>
    ensures { Reads set_word (λ set. Unit {0}) result word.now }
{
    if word == b"xstate".as_slice() {
        return Some(Set::Xstate);
    }
    if word == b"fx".as_slice() {
        return Some(Set::Fx);
    }
    None
}
