//! The parts of an event.

ghost use Rattle.std.specs.Prelude.{◌≡◌, ◌↔◌, IsTrue, Some};
ghost use Rattle.std.specs.Option.{option_copied};
ghost use Rattle.xs_model.specs.Note as notes;
ghost use Rattle.xs_legal.specs.Wrong as wrongs;
ghost use Rattle.xs_legal.specs.Wrong.{AreAlike, how_in, signal_in};

use xs_base::{How, Signo};
use xs_model::{Event, Reply, Why};

/// The block whose event it is.
pub fn task_of(event: &Event) -> u32
    ensures { result ≡ notes.task_of event.now }
{
    match event {
        Event::Start { task, .. }
        | Event::Local { task, .. }
        | Event::Outer { task, .. }
        | Event::Grow { task }
        | Event::Kill { task, .. }
        | Event::End { task } => *task,
    }
}

/// Whether it is a Start at which the registers come so.
pub fn has_how(event: &Event, how: How) -> bool
    ensures { IsTrue result ↔ (how_in event.now ≡ Some how) }
{
    match event {
        Event::Start { how: other, .. } => *other == how,
        _ => false,
    }
}

/// Whether it is a Start that carries this signal, or none.
pub fn has_signal(event: &Event, signal: Option<Signo>) -> bool
    ensures { IsTrue result ↔ (signal_in event.now ≡ Some signal) }
{
    match event {
        Event::Start { signal: other, .. } => is_same_signal(*other, signal),
        _ => false,
    }
}

/// Whether both are the same signal, or both are none.
fn is_same_signal(one: Option<Signo>, other: Option<Signo>) -> bool
    ensures { IsTrue result ↔ (one ≡ other) }
{
    match (one, other) {
        (Some(signo), Some(number)) => is_same_signo(signo, number),
        (None, None) => true,
        _ => false,
    }
}

/// Whether both signals have the same number.
fn is_same_signo(one: Signo, other: Signo) -> bool
    ensures { IsTrue result ↔ (one ≡ other) }
{
    one == other
}

/// The reply that it tells.
pub fn reply_in(event: &Event) -> Option<&Reply>
    ensures { option_copied result ≡ wrongs.reply_in event.now }
{
    match event {
        Event::Local { reply, .. } | Event::Outer { reply, .. } => Some(reply),
        _ => None,
    }
}

/// Whether both are of one kind, and have the same task, processor, line, signal number and cause.
pub fn are_alike(one: &Event, other: &Event) -> bool
    ensures { IsTrue result ↔ AreAlike one.now other.now }
{
    match (one, other) {
        (
            Event::Start { task, cpu, .. },
            Event::Start {
                task: t,
                cpu: c,
                ..
            },
        ) => { task == t && cpu == c }
        (
            Event::Local { task, line, .. },
            Event::Local {
                task: t,
                line: l,
                ..
            },
        ) => { task == t && line == l }
        (
            Event::Outer { task, line, .. },
            Event::Outer {
                task: t,
                line: l,
                ..
            },
        ) => { task == t && line == l }
        (Event::Grow { task }, Event::Grow { task: t }) => task == t,
        (
            Event::Kill { task, signo, why },
            Event::Kill {
                task: t,
                signo: s,
                why: w,
            },
        ) => { task == t && is_same_end(*signo, *why, *s, *w) }
        (Event::End { task }, Event::End { task: t }) => task == t,
        _ => false,
    }
}

/// Whether two kills are by the same signal and for the same cause.
fn is_same_end(signo: Signo, why: Why, other: Signo, cause: Why) -> bool
    ensures { IsTrue result ↔ ((signo ≡ other) × (why ≡ cause)) }
{
    is_same_signo(signo, other) && why == cause
}

/// Whether both replies are the same.
pub fn is_same_reply(one: &Reply, other: &Reply) -> bool
    ensures { IsTrue result ↔ (one.now ≡ other.now) }
{
    match (one, other) {
        (Reply::Bytes(bytes), Reply::Bytes(others)) => *bytes.as_slice() == *others.as_slice(),
        (Reply::Count(count), Reply::Count(number)) => count == number,
        (Reply::Error(error), Reply::Error(number)) => error == number,
        (Reply::Done, Reply::Done)
        | (Reply::Blocked, Reply::Blocked)
        | (Reply::Stopped, Reply::Stopped)
        | (Reply::Ended, Reply::Ended)
        | (Reply::Held, Reply::Held)
        | (Reply::Full, Reply::Full)
        | (Reply::Legacy, Reply::Legacy) => true,
        _ => false,
    }
}
