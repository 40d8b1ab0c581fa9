//! The words of a line, each read from the front of a text with the byte that ends it.

ghost use Rattle.std.specs.Prelude.{◌≡◌, ℕ, ◌+◌, ◌*◌, ◌^◌, ◌<◌, ◌≤◌, List, ◌∷◌, ◌++◌, length, decimal, MatchOption};
ghost use Rattle.xs_base.specs.declared.words.Signo.{Signo};
ghost use Rattle.xs_model.specs.Script.{IsValid};
ghost use Rattle.xs_text.specs.Text.{how_word, signal_word, cause_word, name_of};
ghost use Rattle.xs_text.specs.Reading.{IsRead, NoneRead, Any, IsNumber};

use crate::event_line::name_of;
use xs_base::{How, Signo, after, cut_at};
use xs_model::{Script, Why};

/// What comes after the byte that the bytes begin with.
pub(crate) fn after_byte(byte: u8, bytes: &[u8]) -> Option<&[u8]>
    ensures { MatchOption result ((rest : List ℕ) → bytes.now ≡ byte ∷ rest → ⊥) (λ rest. bytes.now ≡ byte ∷ rest.now) }
{
    let (first, rest) = bytes.split_first()?;
    if *first == byte { Some(rest) } else { None }
}

/// The task whose name the bytes begin with.
pub(crate) fn read_task<'a>(script: &Script, end: u8, bytes: &'a [u8]) -> Option<(u32, &'a [u8])>
    requires valid { IsValid script.now }
    requires end { end ≤ 32 }
    ensures { MatchOption result (NoneRead (name_of script.now) (λ task. task < length script.now.blocks) end bytes.now) (λ x. IsRead (name_of script.now) (λ task. task < length script.now.blocks) end bytes.now x.0 x.1.now) }
{
    let (name, rest) = cut_at(end, bytes)?;
    let task = find_task(script, name)?;
    Some((task, rest))
}

/// The task of the name: the number of its block.
fn find_task(script: &Script, name: &[u8]) -> Option<u32>
    requires { IsValid script.now }
    ensures { MatchOption result ((task : ℕ) → task < length script.now.blocks → name.now ≡ name_of script.now task → ⊥) (λ task. (task < length script.now.blocks) × (name.now ≡ name_of script.now task)) }
{
    let count = script.blocks.len() as u32;
    'tasks: for task in 0..count {
        if name_of(script, task) == name {
            return Some(task);
        }
    }
    None
}

/// The number that the bytes begin with, which has no needless zero in front.
pub(crate) fn read_number(end: u8, bytes: &[u8]) -> Option<(u32, &[u8])>
    requires { end ≤ 32 }
    ensures { MatchOption result (NoneRead decimal IsNumber end bytes.now) (λ x. IsRead decimal IsNumber end bytes.now x.0 x.1.now) }
{
    let (first, rest) = read_digit(bytes)?;
    if first > 0 {
        return read_digits(first, end, rest);
    }
    let rest = after_byte(end, rest)?;
    Some((0, rest))
}

/// The number that goes on with the bytes after the digits of `first`.
fn read_digits(first: u32, end: u8, bytes: &[u8]) -> Option<(u32, &[u8])>
    requires first { 0 < first }
    requires end { end ≤ 32 }
    ensures { MatchOption result (NoneRead decimal IsNumber end (decimal first ++ bytes.now)) (λ x. IsRead decimal IsNumber end (decimal first ++ bytes.now) x.0 x.1.now) }
{
    let mut number = first;
    let mut left = bytes;
    'digits: while let Some((digit, rest)) = read_digit(left) {
        number = with_digit(number, digit)?;
        left = rest;
    }
    let rest = after_byte(end, left)?;
    Some((number, rest))
}

/// The digit that the bytes begin with, and what comes after it.
#[inline(always)]
fn read_digit(bytes: &[u8]) -> Option<(u32, &[u8])>
    ensures { MatchOption result ((digit : ℕ) (rest : List ℕ) → digit < 10 → bytes.now ≡ (48 + digit) ∷ rest → ⊥) (λ x. (x.0 < 10) × (bytes.now ≡ (48 + x.0) ∷ x.1.now)) }
{
    let (first, rest) = bytes.split_first()?;
    if *first < b'0' || *first > b'9' {
        return None;
    }
    Some((u32::from(*first - b'0'), rest))
}

/// The number with one digit more, if it has 32 bits.
#[inline(always)]
fn with_digit(number: u32, digit: u32) -> Option<u32>
    ensures { MatchOption result (2 ^ 32 ≤ 10 * number + digit) (λ more. more ≡ 10 * number + digit) }
{
    let more = 10 * u64::from(number) + u64::from(digit);
    if more <= u64::from(u32::MAX) {
        Some(more as u32)
    } else {
        None
    }
}

/// How registers come at a start, by the word that the bytes begin with.
pub(crate) fn read_how(bytes: &[u8]) -> Option<(How, &[u8])>
    ensures { MatchOption result (NoneRead how_word Any 32 bytes.now) (λ x. IsRead how_word Any 32 bytes.now x.0 x.1.now) }
{
    if let Some(rest) = after(b"load ", bytes) {
        return Some((How::Load, rest));
    }
    if let Some(rest) = after(b"skip ", bytes) {
        return Some((How::Skip, rest));
    }
    if let Some(rest) = after(b"kern ", bytes) {
        return Some((How::Kern, rest));
    }
    None
}

/// A signal or none, by the line's last word.
pub(crate) fn read_signal(bytes: &[u8]) -> Option<(Option<Signo>, &[u8])>
    ensures { MatchOption result (NoneRead signal_word Any 10 bytes.now) (λ x. IsRead signal_word Any 10 bytes.now x.0 x.1.now) }
{
    if let Some(rest) = after(b"-\n", bytes) {
        return Some((None, rest));
    }
    let (signo, rest) = read_signo(b'\n', bytes)?;
    Some((Some(signo), rest))
}

/// The signal whose number the bytes begin with.
pub(crate) fn read_signo(end: u8, bytes: &[u8]) -> Option<(Signo, &[u8])>
    requires { end ≤ 32 }
    ensures { MatchOption result (NoneRead (λ (signo : Signo). decimal signo.number) Any end bytes.now) (λ x. IsRead (λ (signo : Signo). decimal signo.number) Any end bytes.now x.0 x.1.now) }
{
    let (number, rest) = read_number(end, bytes)?;
    let signo = signal_of(number)?;
    Some((signo, rest))
}

/// The signal of the number, if there is one.
fn signal_of(number: u32) -> Option<Signo>
    ensures { MatchOption result ((1 ≤ number) × (number ≤ 31) → ⊥) (λ signo. signo.number ≡ number) }
{
    if number <= 31 {
        Signo::new(number as u8)
    } else {
        None
    }
}

/// The cause of a kill, by the line's last word.
pub(crate) fn read_cause(bytes: &[u8]) -> Option<(Why, &[u8])>
    ensures { MatchOption result (NoneRead cause_word Any 10 bytes.now) (λ x. IsRead cause_word Any 10 bytes.now x.0 x.1.now) }
{
    if let Some(rest) = after(b"permission\n", bytes) {
        return Some((Why::Permission, rest));
    }
    if let Some(rest) = after(b"area\n", bytes) {
        return Some((Why::Area, rest));
    }
    if let Some(rest) = after(b"frame-features\n", bytes) {
        return Some((Why::FrameFeatures, rest));
    }
    if let Some(rest) = after(b"frame-compacted\n", bytes) {
        return Some((Why::FrameCompacted, rest));
    }
    if let Some(rest) = after(b"frame-reserved\n", bytes) {
        return Some((Why::FrameReserved, rest));
    }
    if let Some(rest) = after(b"frame-mxcsr\n", bytes) {
        return Some((Why::FrameMxcsr, rest));
    }
    None
}
