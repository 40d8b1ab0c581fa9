//! Events that join a history, which has room for them.

ghost use Rattle.std.specs.Prelude.{◌≡◌, ◌+◌, ◌≤◌, ◌++◌, [], ◌∷◌, length, vec_capacity};
ghost use Rattle.xs_model.specs.Due.{violation};
ghost use Rattle.xs_model.specs.Line as lines;
ghost use Rattle.xs_board.specs.Turn as turns;
ghost use Rattle.xs_board.specs.Turn.{close_events, trap_end, turn_events};

use crate::turn::{Close, Entry};
use xs_base::{HeaderError, Signo};
use xs_model::{Event, Reply, Why};

/// Adds the events of a turn after its Start; an outer line with which it closes replied this, and a line that trapped kills it for
/// this cause, if it does.
pub fn tell_turn(
    events: &mut Vec<Event>,
    task: u32,
    entries: &[Entry],
    close: Close,
    reply: Reply,
    fate: Option<Why>,
)
    requires room { length events.old.items + length (turn_events task entries.now close (record { reply = reply; fate = fate })) ≤ vec_capacity events.old }
    ensures told { events.new.items ≡ events.old.items ++ turn_events task entries.now close (record { reply = reply; fate = fate }) }
    ensures capacity { vec_capacity events.new ≡ vec_capacity events.old }
{
    'each: for entry in entries {
        let reply = entry.reply.copy();
        tell(
            events,
            Event::Local {
                task,
                line: entry.line,
                reply,
            },
        );
    }
    tell_close(events, task, close, reply, fate);
}

/// Adds the event of a close, if it has one.
fn tell_close(events: &mut Vec<Event>, task: u32, close: Close, reply: Reply, fate: Option<Why>)
    requires room { length events.old.items + length (close_events task close (record { reply = reply; fate = fate })) ≤ vec_capacity events.old }
    ensures told { events.new.items ≡ events.old.items ++ close_events task close (record { reply = reply; fate = fate }) }
    ensures capacity { vec_capacity events.new ≡ vec_capacity events.old }
{
    match close {
        Close::Quantum | Close::Yield => {}
        Close::Outer(line) => tell(events, Event::Outer { task, line, reply }),
        Close::Refused(error) => tell(
            events,
            Event::Kill {
                task,
                signo: violation_signal(),
                why: frame_cause(error),
            },
        ),
        Close::Trap => tell(events, trap_event(task, fate)),
        Close::End => tell(events, Event::End { task }),
    }
}

/// The event of a line that traps: the kill for this cause, or else the growth.
fn trap_event(task: u32, fate: Option<Why>) -> Event
    ensures { result ≡ trap_end task fate }
{
    match fate {
        Some(why) => Event::Kill {
            task,
            signo: trap_signal(why),
            why,
        },
        None => Event::Grow { task },
    }
}

/// The signal of a kill by a line that traps: SIGILL where the task may not use tiles, and SIGSEGV where no area is free.
fn trap_signal(why: Why) -> Signo
    ensures { result ≡ turns.trap_signal why }
{
    match why {
        Why::Permission => Signo { number: 4 },
        _ => violation_signal(),
    }
}

/// SIGSEGV.
fn violation_signal() -> Signo
    ensures { result ≡ violation }
{
    Signo { number: 11 }
}

/// The cause of the kill by a frame that is refused.
fn frame_cause(error: HeaderError) -> Why
    ensures { result ≡ lines.frame_cause error }
{
    match error {
        HeaderError::Features => Why::FrameFeatures,
        HeaderError::Compacted => Why::FrameCompacted,
        HeaderError::Reserved => Why::FrameReserved,
        HeaderError::Mxcsr => Why::FrameMxcsr,
    }
}

/// Adds an event.
pub fn tell(events: &mut Vec<Event>, event: Event)
    requires room { length events.old.items + 1 ≤ vec_capacity events.old }
    ensures told { events.new.items ≡ events.old.items ++ event ∷ [] }
    ensures capacity { vec_capacity events.new ≡ vec_capacity events.old }
{
    events.push_reserved(event);
}
