//! The line of one event, read from the front of a text word by word. Its first word says of which kind it can be.

ghost use Rattle.std.specs.Prelude.{◌++◌, codes, MatchOption};
ghost use Rattle.xs_model.specs.Script.{IsValid};
ghost use Rattle.xs_text.specs.Reading.{IsEventOf, NoEvent};

use crate::reply_reader::read_reply;
use crate::word_reader::{read_cause, read_how, read_number, read_signal, read_signo, read_task};
use xs_base::after;
use xs_model::{Event, Script};

/// The event whose line is the text's first, and the text after its line feed.
pub(crate) fn read_event<'a>(script: &Script, text: &'a [u8]) -> Option<(Event, &'a [u8])>
    requires { IsValid script.now }
    ensures { MatchOption result (NoEvent script.now text.now) (λ x. IsEventOf script.now text.now x.0 x.1.now) }
{
    if let Some(words) = after(b"local ", text) {
        return read_local(script, words);
    }
    if let Some(words) = after(b"start ", text) {
        return read_start(script, words);
    }
    if let Some(words) = after(b"outer ", text) {
        return read_outer(script, words);
    }
    if let Some(words) = after(b"end ", text) {
        return read_end(script, words);
    }
    if let Some(words) = after(b"grow ", text) {
        return read_grow(script, words);
    }
    if let Some(words) = after(b"kill ", text) {
        return read_kill(script, words);
    }
    None
}

/// The line `start TASK CPU HOW SIGNAL`, by the words after its first.
fn read_start<'a>(script: &Script, words: &'a [u8]) -> Option<(Event, &'a [u8])>
    requires { IsValid script.now }
    ensures { MatchOption result (NoEvent script.now (codes "start " ++ words.now)) (λ x. IsEventOf script.now (codes "start " ++ words.now) x.0 x.1.now) }
{
    let (task, words) = read_task(script, b' ', words)?;
    let (cpu, words) = read_number(b' ', words)?;
    let (how, words) = read_how(words)?;
    let (signal, rest) = read_signal(words)?;
    let event = Event::Start {
        task,
        cpu,
        how,
        signal,
    };
    Some((event, rest))
}

/// The line `local TASK LINE REPLY`, by the words after its first.
fn read_local<'a>(script: &Script, words: &'a [u8]) -> Option<(Event, &'a [u8])>
    requires { IsValid script.now }
    ensures { MatchOption result (NoEvent script.now (codes "local " ++ words.now)) (λ x. IsEventOf script.now (codes "local " ++ words.now) x.0 x.1.now) }
{
    let (task, words) = read_task(script, b' ', words)?;
    let (line, words) = read_number(b' ', words)?;
    match read_reply(words) {
        Some((reply, rest)) => Some((Event::Local { task, line, reply }, rest)),
        None => None,
    }
}

/// The line `outer TASK LINE REPLY`, by the words after its first.
fn read_outer<'a>(script: &Script, words: &'a [u8]) -> Option<(Event, &'a [u8])>
    requires { IsValid script.now }
    ensures { MatchOption result (NoEvent script.now (codes "outer " ++ words.now)) (λ x. IsEventOf script.now (codes "outer " ++ words.now) x.0 x.1.now) }
{
    let (task, words) = read_task(script, b' ', words)?;
    let (line, words) = read_number(b' ', words)?;
    match read_reply(words) {
        Some((reply, rest)) => Some((Event::Outer { task, line, reply }, rest)),
        None => None,
    }
}

/// The line `grow TASK`, by the word after its first.
fn read_grow<'a>(script: &Script, words: &'a [u8]) -> Option<(Event, &'a [u8])>
    requires { IsValid script.now }
    ensures { MatchOption result (NoEvent script.now (codes "grow " ++ words.now)) (λ x. IsEventOf script.now (codes "grow " ++ words.now) x.0 x.1.now) }
{
    let (task, rest) = read_task(script, b'\n', words)?;
    Some((Event::Grow { task }, rest))
}

/// The line `kill TASK SIGNO CAUSE`, by the words after its first.
fn read_kill<'a>(script: &Script, words: &'a [u8]) -> Option<(Event, &'a [u8])>
    requires { IsValid script.now }
    ensures { MatchOption result (NoEvent script.now (codes "kill " ++ words.now)) (λ x. IsEventOf script.now (codes "kill " ++ words.now) x.0 x.1.now) }
{
    let (task, words) = read_task(script, b' ', words)?;
    let (signo, words) = read_signo(b' ', words)?;
    let (why, rest) = read_cause(words)?;
    Some((Event::Kill { task, signo, why }, rest))
}

/// The line `end TASK`, by the word after its first.
fn read_end<'a>(script: &Script, words: &'a [u8]) -> Option<(Event, &'a [u8])>
    requires { IsValid script.now }
    ensures { MatchOption result (NoEvent script.now (codes "end " ++ words.now)) (λ x. IsEventOf script.now (codes "end " ++ words.now) x.0 x.1.now) }
{
    let (task, rest) = read_task(script, b'\n', words)?;
    Some((Event::End { task }, rest))
}
