//! One block of the machine.

ghost use Rattle.std.specs.Prelude.{◌≡◌, [], None, IfOk};
ghost use Rattle.xs_base.specs.Task.{root_task};
ghost use Rattle.xs_model.specs.Due.{first_signal};
ghost use Rattle.xs_model.specs.Machine.{later_signals};
ghost use Rattle.xs_model.specs.Outer.{insert};
ghost use Rattle.xs_model.specs.State.{lives, is_stopped};

use std::alloc::{AllocError, Global};
use std::marker::Model;
use xs_base::Signo;
use xs_layout::Layout;
use xs_model::{Stage, add_signal};
use xs_private::Private;

/// How many signals there are, each of which is pending once at most.
const SIGNALS: usize = 31;

/// One block: what it does, its private task, the block that forked it, and the signals that are pending of it. A kernel thread uses
/// the place of its private task alone.
#[derive(Drop)]
pub struct State {
    pub(crate) stage: Stage,
    pub(crate) task: Private,
    pub(crate) parent: Option<u32>,
    /// In the order of their numbers, each once. There is room for all.
    pub(crate) pending: Vec<Signo>,
}

impl Model for State {
    ghost use Rattle.std.specs.Prelude.{◌≤◌, vec_capacity};
    ghost use Rattle.xs_model.specs.Laws.{ArePending};
    ghost use Rattle.xs_model.specs.State as states;

    ghost Value = { states.BlockState };

    ghost view = { λ s. record { stage = s.stage; task = s.task; parent = s.parent; pending = s.pending.items } };

    ghost invariant = { λ s. ArePending 0 s.pending.items × (31 ≤ vec_capacity s.pending) };
}

impl State {
    /// A block with a task that no fork has made, without a parent or a signal. Fails for want of memory alone; no other call takes
    /// memory.
    pub fn open(alloc: Global, stage: Stage, layout: &Layout) -> Result<State, AllocError>
        ensures { IfOk result (λ s. s ≡ record { stage = stage; task = root_task layout.now; parent = None; pending = [] }) }
    {
        let task = Private::open(alloc, layout)?;
        let pending = Vec::with_capacity(alloc, SIGNALS)?;
        Ok(State {
            stage,
            task,
            parent: None,
            pending,
        })
    }

    /// What the block does.
    pub fn stage(&self) -> Stage
        ensures { result ≡ self.now.stage }
    {
        self.stage
    }

    /// The private task.
    pub fn task(&self) -> &Private
        ensures { result.now ≡ self.now.task }
    {
        &self.task
    }

    /// The block that forked it.
    pub fn parent(&self) -> Option<u32>
        ensures { result ≡ self.now.parent }
    {
        self.parent
    }

    /// The lowest signal that is pending.
    pub fn first_signal(&self) -> Option<Signo>
        ensures { result ≡ first_signal self.now.pending }
    {
        self.pending.as_slice().first().copied()
    }

    /// Whether the block was born and hasn't ended.
    pub fn lives(&self) -> bool
        ensures { result ≡ lives self.now.stage }
    {
        !matches!(self.stage, Stage::Unborn | Stage::Ended)
    }

    /// Whether its tracer has it.
    pub fn is_stopped(&self) -> bool
        ensures { result ≡ is_stopped self.now.stage }
    {
        matches!(self.stage, Stage::Stopped)
    }

    /// The block does this from now on.
    pub fn set_stage(&mut self, stage: Stage)
        ensures { self.new ≡ record self.old { stage = stage } }
    {
        self.stage = stage;
    }

    /// The lowest signal is no longer pending.
    pub fn drop_first(&mut self)
        ensures { self.new ≡ record self.old { pending = later_signals self.old.pending } }
    {
        if !self.pending.is_empty() {
            let _ = self.pending.remove(0);
        }
    }

    /// No signal is pending any longer.
    pub fn drop_all(&mut self)
        ensures { self.new ≡ record self.old { pending = [] } }
    {
        self.pending.clear();
    }

    /// The signal joins the pending ones, if it isn't pending already.
    pub fn add(&mut self, signo: Signo)
        ensures { self.new ≡ record self.old { pending = insert signo self.old.pending } }
    {
        add_signal(&mut self.pending, signo);
    }
}
