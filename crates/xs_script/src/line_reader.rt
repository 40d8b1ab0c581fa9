//! The lines of a script, read.

ghost use Rattle.std.specs.Prelude.{◌≡◌, ◌<◌, List, ℕ, ◌∷◌, ◌++◌, length, codes, bytes_eq, MatchOption, IfSome};
ghost use Rattle.xs_script.specs.declared.line.Line.{Line};
ghost use Rattle.xs_script.specs.ScriptLine.{block_word, line_text, IsSignal, kept_line};
ghost use Rattle.xs_script.specs.Reads.{ReadsAs};
ghost use Rattle.xs_script.specs.Parts.{IsPlainLine, IsBlockLine, IsSignalLine, IsHeadLine, IsKillLine, NoPlainLine};
ghost use Rattle.xs_script.specs.Refusal.{first_word};

use crate::line::Line;
use crate::trace_lines::read_trace_line;
use crate::words::{
    before, read_byte, read_bytes, read_first_number, read_name, read_number, read_register,
};
use xs_base::{Comp, Row, Signo, after, cut_at};
use xs_model::{BlockKind, Command, Name, Named};

/// The first line of the text, if it is spelled as a line that is none of a schedule, and the text after its line feed. Of a
/// value of more than 64 bytes none is kept, and of a row's number above 255 it is 255.
pub fn next_line(text: &[u8]) -> Option<(Line, &[u8])>
    ensures line { MatchOption result (NoPlainLine text.now) (λ x. (line : Line) × IsPlainLine line × (text.now ≡ line_text line ++ 10 ∷ x.1.now) × (x.0 ≡ kept_line line)) }
    ensures shorter { IfSome result (λ x. length x.1.now < length text.now) }
{
    let (line, rest) = cut_at(b'\n', text)?;
    let line = read_line(line)?;
    Some((line, rest))
}

/// Whether the text's first line begins with the word `row`.
pub fn begins_row(text: &[u8]) -> bool
    ensures { result ≡ bytes_eq (first_word text.now) (codes "row") }
{
    let word = before(b' ', before(b'\n', text));
    word == b"row".as_slice()
}

/// A line without its line feed, that is none of a schedule.
fn read_line(line: &[u8]) -> Option<Line>
    ensures { ReadsAs line_text IsPlainLine kept_line result line.now }
{
    let read = read_block_line(line);
    if read.is_some() {
        return read;
    }
    let read = read_signal_line(line);
    if read.is_some() {
        return read;
    }
    let read = read_trace_line(line);
    if read.is_some() {
        return read;
    }
    read_head_line(line)
}

/// A line of signals, their handlers and the memory of a frame. Its first word says of which kind it can be.
fn read_signal_line(line: &[u8]) -> Option<Line>
    ensures { ReadsAs line_text IsSignalLine kept_line result line.now }
{
    if let Some(words) = after(b"peek ", line) {
        return read_peek(words);
    }
    if let Some(words) = after(b"poke ", line) {
        return read_poke(words);
    }
    if let Some(words) = after(b"kill ", line) {
        return read_kill(words);
    }
    if line == b"handler".as_slice() {
        return Some(Line::Handler);
    }
    if line == b"sigreturn".as_slice() {
        return Some(Line::Order(Command::Sigreturn));
    }
    None
}

/// Another line of a block. Its first word says of which kind it can be.
fn read_block_line(line: &[u8]) -> Option<Line>
    ensures { ReadsAs line_text IsBlockLine kept_line result line.now }
{
    if let Some(reg) = after(b"get ", line) {
        return read_get(reg);
    }
    if let Some(words) = after(b"set ", line) {
        return read_set(words);
    }
    if line == b"yield".as_slice() {
        return Some(Line::Order(Command::Yield));
    }
    if let Some(digits) = after(b"ksec ", line) {
        return read_ksec(digits);
    }
    if line == b"end".as_slice() {
        return Some(Line::End);
    }
    if line == b"tilerelease".as_slice() {
        return Some(Line::Order(Command::Tilerelease));
    }
    if let Some(digits) = after(b"perm ", line) {
        return read_perm(digits);
    }
    if let Some(name) = after(b"fork ", line) {
        return read_fork(name);
    }
    if let Some(name) = after(b"task ", line) {
        return read_begin(BlockKind::Task, name);
    }
    if let Some(name) = after(b"child ", line) {
        return read_begin(BlockKind::Child, name);
    }
    if let Some(name) = after(b"kthread ", line) {
        return read_begin(BlockKind::Kthread, name);
    }
    None
}

/// A line before the schedule. Its first word says of which kind it can be.
fn read_head_line(line: &[u8]) -> Option<Line>
    ensures { ReadsAs line_text IsHeadLine kept_line result line.now }
{
    if let Some(words) = after(b"row ", line) {
        return read_row(words);
    }
    if let Some(name) = after(b"machine ", line) {
        return read_machine(name);
    }
    if let Some(digits) = after(b"cpus ", line) {
        let n = read_number(digits)?;
        return Some(Line::Cpus(n));
    }
    if let Some(digits) = after(b"quantum ", line) {
        let n = read_number(digits)?;
        return Some(Line::Quantum(n));
    }
    if let Some(digits) = after(b"large ", line) {
        let n = read_number(digits)?;
        return Some(Line::Large(n));
    }
    if line == b"xstate 1".as_slice() {
        return Some(Line::Version);
    }
    None
}

/// The line `get REGISTER`, by its register.
fn read_get(reg: &[u8]) -> Option<Line>
    ensures { ReadsAs line_text IsBlockLine kept_line result (codes "get " ++ reg.now) }
{
    let reg = read_register(reg)?;
    Some(Line::Order(Command::Get { reg }))
}

/// The line `set REGISTER BYTES`, by the words after its first.
fn read_set(words: &[u8]) -> Option<Line>
    ensures { ReadsAs line_text IsBlockLine kept_line result (codes "set " ++ words.now) }
{
    let (reg, digits) = cut_at(b' ', words)?;
    let reg = read_register(reg)?;
    let bytes = read_bytes(digits)?;
    Some(Line::Order(Command::Set { reg, bytes }))
}

/// The line `ksec BYTE`, by its byte.
fn read_ksec(digits: &[u8]) -> Option<Line>
    ensures { ReadsAs line_text IsBlockLine kept_line result (codes "ksec " ++ digits.now) }
{
    let byte = read_byte(digits)?;
    Some(Line::Order(Command::Ksec { byte }))
}

/// The line `perm N`, by its number.
fn read_perm(digits: &[u8]) -> Option<Line>
    ensures { ReadsAs line_text IsBlockLine kept_line result (codes "perm " ++ digits.now) }
{
    let feature = read_number(digits)?;
    Some(Line::Order(Command::Perm { feature }))
}

/// The line `fork NAME`, by its name.
fn read_fork(name: &[u8]) -> Option<Line>
    ensures { ReadsAs line_text IsBlockLine kept_line result (codes "fork " ++ name.now) }
{
    let name = read_name(name)?;
    Some(Line::Order(Command::Fork { name }))
}

/// The line `peek AT LEN`, by its two numbers.
fn read_peek(words: &[u8]) -> Option<Line>
    ensures { ReadsAs line_text IsSignalLine kept_line result (codes "peek " ++ words.now) }
{
    let (at, len) = read_first_number(words)?;
    let len = read_number(len)?;
    Some(Line::Order(Command::Peek { at, len }))
}

/// The line `poke AT BYTES`, by the words after its first.
fn read_poke(words: &[u8]) -> Option<Line>
    ensures { ReadsAs line_text IsSignalLine kept_line result (codes "poke " ++ words.now) }
{
    let (at, digits) = read_first_number(words)?;
    let bytes = read_bytes(digits)?;
    Some(Line::Order(Command::Poke { at, bytes }))
}

/// The line `kill NAME SIG`, by the words after its first.
fn read_kill(words: &[u8]) -> Option<Line>
    ensures { ReadsAs line_text IsSignalLine kept_line result (codes "kill " ++ words.now) }
{
    let (name, digits) = cut_at(b' ', words)?;
    let name = read_name(name)?;
    let number = read_number(digits)?;
    Some(kill_line(name, number))
}

/// The line of a signal's number for a block, which is a command where there is such a signal.
fn kill_line(name: Name, number: u32) -> Line
    ensures { IsKillLine name number result }
{
    match signal_of(number) {
        Some(signo) => Line::Order(Command::Kill { name, signo }),
        None => Line::NoSignal(name, number),
    }
}

/// The signal of the number, if there is one.
fn signal_of(number: u32) -> Option<Signo>
    ensures { MatchOption result (IsSignal number → ⊥) (λ signo. signo.number ≡ number) }
{
    if number <= 255 {
        Signo::new(number as u8)
    } else {
        None
    }
}

/// The first line of a block, by its name.
fn read_begin(kind: BlockKind, name: &[u8]) -> Option<Line>
    ensures { ReadsAs line_text IsBlockLine kept_line result (block_word kind ++ name.now) }
{
    let name = read_name(name)?;
    Some(Line::Begin(kind, name))
}

/// The line of a machine, by its name.
fn read_machine(name: &[u8]) -> Option<Line>
    ensures { ReadsAs line_text IsHeadLine kept_line result (codes "machine " ++ name.now) }
{
    if name == b"amx".as_slice() {
        return Some(Line::Machine(Named::Amx));
    }
    if name == b"avx".as_slice() {
        return Some(Line::Machine(Named::Avx));
    }
    if name == b"rows".as_slice() {
        return Some(Line::Machine(Named::Rows));
    }
    None
}

/// The line of a row, by its four numbers.
fn read_row(words: &[u8]) -> Option<Line>
    ensures { ReadsAs line_text IsHeadLine kept_line result (codes "row " ++ words.now) }
{
    let (number, words) = read_first_number(words)?;
    let (size, words) = read_first_number(words)?;
    let (offset, flags) = read_first_number(words)?;
    let flags = read_number(flags)?;
    Some(Line::Row(Row {
        comp: Comp(number.min(255) as u8),
        size,
        offset,
        flags,
    }))
}
