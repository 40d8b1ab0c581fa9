//! Events and the history that they make. A task is the number of its block, from 0.

ghost use Rattle.std.specs.Prelude.{◌≡◌, [], ◌∷◌, ◌++◌, OnOk, OnErr};

use crate::items::Items;
use std::alloc::{AllocError, Global};
use std::marker::Model;
use xs_base::{How, Lane, Signo};

/// What a line answers.
#[derive(Drop)]
pub enum Reply {
    /// The line was done and has nothing to tell.
    Done,
    /// 1 to 64 bytes.
    Bytes(Lane),
    /// A count of bytes, or 0.
    Count(u32),
    /// An error's number.
    Error(u32),
    /// The task waits for its child.
    Blocked,
    /// The child is stopped.
    Stopped,
    /// The child has ended.
    Ended,
    /// The task is stopped.
    Held,
    /// The whole frame was restored.
    Full,
    /// The legacy part of the frame was restored.
    Legacy,
}

/// Why a task was killed: no permission for tiles, no Large area, or a signal frame that is refused.
#[derive(Clone, Copy, PartialEq, Eq)]
pub enum Why {
    /// The task has no permission to use tiles.
    Permission,
    /// No Large area is free.
    Area,
    /// The frame has components that the task may not use.
    FrameFeatures,
    /// The frame is in the compacted format.
    FrameCompacted,
    /// Reserved bytes of the frame aren't zero.
    FrameReserved,
    /// The frame's MXCSR has a bit above 15.
    FrameMxcsr,
}

/// One step of the machine.
#[derive(Drop)]
pub enum Event {
    /// A turn of the task begins on the processor.
    Start {
        task: u32,
        cpu: u32,
        how: How,
        signal: Option<Signo>,
    },
    /// A line ran that touches only its task.
    Local {
        task: u32,
        line: u32,
        reply: Reply,
    },
    /// A line ran that reaches other tasks. It ends the turn.
    Outer {
        task: u32,
        line: u32,
        reply: Reply,
    },
    /// The task got a Large save area.
    Grow {
        task: u32,
    },
    /// The task was killed.
    Kill {
        task: u32,
        signo: Signo,
        why: Why,
    },
    /// The task came to the end of its body.
    End {
        task: u32,
    },
}

/// A history: the events of a run, in order.
#[derive(Drop)]
pub struct History {
    events: Items<Event>,
}

impl Model for History {
    ghost use Rattle.std.specs.Prelude.{List};
    ghost use Rattle.xs_model.specs.declared.event.Event.{Event};

    ghost Value = { List Event };

    ghost view = { λ h. h.events };
}

impl History {
    /// No events. It takes no memory.
    pub fn new(alloc: Global) -> History
        ensures { result ≡ [] }
    {
        History {
            events: Items::new(alloc),
        }
    }

    /// The history of these events. It takes no memory.
    pub fn from_vec(events: Vec<Event>) -> History
        ensures { result ≡ events.items }
    {
        History {
            events: Items::from_vec(events),
        }
    }

    /// The events, in order.
    pub fn events(&self) -> &[Event]
        ensures { result.now ≡ self.now }
    {
        self.events.as_slice()
    }

    /// Adds an event at the end. On want of memory the history stays as it was.
    pub fn push(&mut self, event: Event) -> Result<(), AllocError>
        ensures ok { OnOk result (self.new ≡ self.old ++ event ∷ []) }
        ensures err { OnErr result (self.new ≡ self.old) }
    {
        self.events.push(event)
    }
}
