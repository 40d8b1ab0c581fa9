//! What the board keeps of a block beside its task.

ghost use Rattle.std.specs.Prelude.{◌≡◌, [], Some, None, IfOk};
ghost use Rattle.xs_board.specs.declared.member.Life.TheVariants as lives;
ghost use Rattle.xs_board.specs.Member.{emptied, ended, is_alive, is_stopped_life, is_stopped_child, next_signal, received, waits_for};

use std::alloc::{AllocError, Global};
use std::marker::Model;
use xs_base::Signo;
use xs_model::add_signal;

/// How many signals there are, each of which is pending once at most.
const SIGNALS: usize = 31;

/// What a block does. One that is ready or in a turn goes.
#[derive(Clone, Copy)]
pub enum Life {
    /// No fork has made it yet.
    Unborn,
    /// It is ready or in a turn.
    Going,
    /// Its tracer has it.
    Stopped,
    /// It waits for the child of this number.
    Waiting(u32),
    /// It has ended.
    Ended,
}

/// A block as the board knows it beside its task: what it does, the block that forked it, and the signals that are pending of it.
#[derive(Drop)]
pub struct Member {
    life: Life,
    parent: Option<u32>,
    /// In the order of their numbers, each once. There is room for all.
    signals: Vec<Signo>,
}

impl Model for Member {
    ghost use Rattle.std.specs.Prelude.{◌≤◌, vec_capacity};
    ghost use Rattle.xs_model.specs.Laws.{ArePending};
    ghost use Rattle.xs_board.specs.Member as members;

    ghost Value = { members.Member };

    ghost view = { λ m. record { life = m.life; parent = m.parent; pending = m.signals.items } };

    ghost invariant = { λ m. ArePending 0 m.signals.items × (31 ≤ vec_capacity m.signals) };
}

impl Member {
    /// A block without a parent or a signal. Fails for want of memory alone.
    pub fn new(alloc: Global, life: Life) -> Result<Member, AllocError>
        ensures { IfOk result (λ member. member ≡ record { life = life; parent = None; pending = [] }) }
    {
        let signals = Vec::with_capacity(alloc, SIGNALS)?;
        Ok(Member {
            life,
            parent: None,
            signals,
        })
    }

    /// What the block does.
    pub fn life(&self) -> Life
        ensures { result ≡ self.now.life }
    {
        self.life
    }

    /// The block that forked it.
    pub fn parent(&self) -> Option<u32>
        ensures { result ≡ self.now.parent }
    {
        self.parent
    }

    /// Whether the block was born and hasn't ended.
    pub fn lives(&self) -> bool
        ensures { result ≡ is_alive self.now.life }
    {
        !matches!(self.life, Life::Unborn | Life::Ended)
    }

    /// Whether its tracer has it.
    pub fn is_stopped(&self) -> bool
        ensures { result ≡ is_stopped_life self.now.life }
    {
        matches!(self.life, Life::Stopped)
    }

    /// Whether it waits for this child.
    pub fn waits_for(&self, child: u32) -> bool
        ensures { result ≡ waits_for child self.now.life }
    {
        match self.life {
            Life::Waiting(number) => number == child,
            _ => false,
        }
    }

    /// Whether it is stopped and this block's child.
    pub fn is_stopped_child(&self, parent: u32) -> bool
        ensures { result ≡ is_stopped_child parent self.now }
    {
        match (self.life, self.parent) {
            (Life::Stopped, Some(number)) => number == parent,
            _ => false,
        }
    }

    /// Takes the lowest signal out, if there is one and no handler runs.
    pub fn take_next(&mut self, handling: bool) -> Option<Signo>
        ensures signal { result ≡ next_signal handling self.old }
        ensures rest { self.new ≡ emptied handling self.old }
    {
        if handling || self.signals.is_empty() {
            return None;
        }
        Some(self.signals.remove(0))
    }

    /// The signal joins those that are pending, if the block lives. Answers whether it does.
    pub fn receive(&mut self, signo: Signo) -> bool
        ensures alive { result ≡ is_alive self.old.life }
        ensures given { self.new ≡ received signo self.old }
    {
        let lives = self.lives();
        if lives {
            add_signal(&mut self.signals, signo);
        }
        lives
    }

    /// The block does this from now on.
    pub fn set_life(&mut self, life: Life)
        ensures { self.new ≡ record self.old { life = life } }
    {
        self.life = life;
    }

    /// The block is born of this one.
    pub fn bear(&mut self, parent: u32)
        ensures { self.new ≡ record self.old { life = lives.Going; parent = Some parent } }
    {
        self.life = Life::Going;
        self.parent = Some(parent);
    }

    /// The block has ended, and its signals are dropped.
    pub fn end(&mut self)
        ensures { self.new ≡ ended self.old }
    {
        self.life = Life::Ended;
        self.signals.clear();
    }
}
