//! A user task as if it had a processor to itself: what it is, how it begins, and what becomes of it between its lines.

ghost use Rattle.std.specs.Prelude.{◌≡◌, ◌+◌, ◌<◌, ◌^◌, List, IfOk};
ghost use Rattle.xs_base.specs.declared.component.Row.{Row};
ghost use Rattle.xs_base.specs.Frame.{refused_file};
ghost use Rattle.xs_base.specs.Task.{IsPrivateTask, root_task, child_of, parked};
ghost use Rattle.xs_base.specs.Tile.{grown, permitted_task};

use crate::file::{clear_all, copy_file, marks_after, start_again, start_file, zeroed};
use std::alloc::{AllocError, Global};
use std::marker::Model;
use xs_base::{Comp, Features};
use xs_layout::Layout;
use xs_regs::File;

/// The bytes of the memory of a signal frame.
pub const FRAME: usize = 16388;

/// The bytes of the buffer for register sets.
pub const BUFFER: usize = 16384;

/// A user task as if it had a processor to itself: its registers, what a tracer is shown as saved (marks), whether it may use tiles
/// and has room for them, its two memories, and where it stands in its lines. Contracts see the record `PrivateTask`.
#[derive(Drop)]
pub struct Private {
    pub(crate) file: File,
    pub(crate) marks: Features,
    permitted: bool,
    pub(crate) large: bool,
    pub(crate) frame: Vec<u8>,
    pub(crate) buffer: Vec<u8>,
    pub(crate) handling: bool,
    pub(crate) place: u32,
    pub(crate) back: u32,
}

impl Model for Private {
    ghost use Rattle.xs_base.specs.Task as tasks;

    ghost Value = { tasks.PrivateTask };

    ghost view = { λ p. record { file = p.file; marks = p.marks.0; permitted = p.permitted; large = p.large; frame = p.frame.items; buffer = p.buffer.items; handling = p.handling; place = p.place; back = p.back } };
}

impl Private {
    /// A task before its first turn, which no fork has made. Fails for want of memory alone.
    pub fn open(alloc: Global, layout: &Layout) -> Result<Private, AllocError>
        ensures { IfOk result (λ p. p ≡ root_task layout.now) }
    {
        let file = start_file(alloc, layout)?;
        let mut task = Private {
            file,
            marks: Features(0),
            permitted: false,
            large: false,
            frame: zeroed(alloc, FRAME)?,
            buffer: zeroed(alloc, BUFFER)?,
            handling: false,
            place: 0,
            back: 0,
        };
        task.park();
        Ok(task)
    }

    /// Whether a signal handler runs.
    pub fn handling(&self) -> bool
        ensures { result ≡ self.now.handling }
    {
        self.handling
    }

    /// The place in its lines.
    pub fn place(&self) -> u32
        ensures { result ≡ self.now.place }
    {
        self.place
    }

    /// Whether it may use tiles.
    pub fn permitted(&self) -> bool
        ensures { result ≡ self.now.permitted }
    {
        self.permitted
    }

    /// Whether it has room for TILEDATA.
    pub fn is_large(&self) -> bool
        ensures { result ≡ self.now.large }
    {
        self.large
    }

    /// The turn ends: its marks are those after a turn.
    pub fn park(&mut self)
        ensures { self.new ≡ parked self.old }
    {
        self.marks = marks_after(&self.file, self.large);
    }

    /// It has room for TILEDATA from now on.
    pub fn grow(&mut self)
        ensures { self.new ≡ grown self.old }
    {
        self.large = true;
    }

    /// It is the child of a fork before its first turn.
    pub fn bear(&mut self, parent: &Private)
        requires valid { (rows : List Row) × IsPrivateTask rows self.old × IsPrivateTask rows parent.now }
        ensures { self.new ≡ child_of parent.now }
    {
        copy_file(&parent.file, &mut self.file);
        self.file.reset(Comp::TILEDATA);
        self.permitted = parent.permitted;
        self.large = false;
        clear_all(&mut self.frame, FRAME);
        clear_all(&mut self.buffer, BUFFER);
        self.handling = false;
        self.place = 0;
        self.back = 0;
        self.marks = marks_after(&self.file, false);
    }

    /// It goes on with its next line.
    pub fn pass_line(&mut self)
        requires { self.old.place + 1 < 2 ^ 32 }
        ensures { self.new ≡ record self.old { place = self.old.place + 1 } }
    {
        self.place += 1;
    }

    /// It may use tiles from now on.
    pub fn permit(&mut self)
        ensures { self.new ≡ permitted_task self.old }
    {
        self.permitted = true;
    }

    /// Its frame was refused, and it has lost its registers.
    pub fn lose_registers(&mut self)
        ensures { self.new ≡ record self.old { file = refused_file self.old } }
    {
        start_again(&mut self.file);
    }
}
