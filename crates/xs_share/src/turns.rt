//! Taking and giving the turn, and the mark.
ghost use Rattle.std.specs.Prelude.{◌≡◌, true, false, IfSome, IfNone};
ghost use Rattle.xs_share.specs.Rule.{took, gave, marked};
ghost use Rattle.xs_share.specs.Passes.{name_of, home_of, view, mark_word};

use crate::kept::Kept;
use crate::pass::Pass;
use crate::rule::{Gives, Marks, Takes};
use crate::shared::Shared;
use std::sync::Wait;
use std::thread;
use std::thread::Parker;
use std::time::Duration;

/// How often a thread asks for the turn before it rests.
const ASKS: u32 = 16;

/// How long it rests, in microseconds.
const REST: u64 = 300;

impl<K: Kept> Shared<K> {
    // One exchange on the turn word.
    fn try_take(&self, pass: &mut Pass<K>) -> Option<K>
        requires home { home_of pass.old ≡ name_of self.now }
        requires turn { (view pass.old).turn ≡ false }
        ensures home { home_of pass.new ≡ home_of pass.old }
        ensures taken { IfSome result (λ k. (view pass.new ≡ took (view pass.old) k) × K.follows (view pass.old).number (view pass.old).last k) }
        ensures missed { IfNone result (view pass.new ≡ view pass.old) }
    {
        let word = 1 + u64::from(pass.cpu);
        let found = self
            .table
            .shared
            .compare_exchange::<Takes>(&mut pass.seat, 0, 0, word);
        if found != 0 {
            return None;
        }
        pass.seat.slot_mut(&self.table.shared, 0).take()
    }

    /// Waits until the turn is free, and takes it with the value. A thread that finds the turn taken makes room for others, and where it
    /// has asked in vain a few times it rests, so that those who have work don't share their processors with those who only ask.
    pub fn take_turn<R: Wait>(&self, rt: &R, pass: &mut Pass<K>) -> K
        requires home { home_of pass.old ≡ name_of self.now }
        requires turn { (view pass.old).turn ≡ false }
        ensures home { home_of pass.new ≡ home_of pass.old }
        ensures pass { view pass.new ≡ took (view pass.old) result }
        ensures value { K.follows (view pass.old).number (view pass.old).last result }
    {
        let parker = Parker::new();
        let mut asked = 0u32;
        for _ in rt.forever() {
            if let Some(kept) = self.try_take(pass) {
                return kept;
            }
            asked = asked.wrapping_add(1);
            if asked % ASKS == 0 {
                parker.park_timeout(rt, Duration::from_micros(REST));
            } else {
                thread::yield_now();
            }
        }
        unreachable!()
    }

    /// Gives the value and the turn back. The value is one that this processor may make of the one that it took.
    pub fn give_turn(&self, pass: &mut Pass<K>, kept: K)
        requires home { home_of pass.old ≡ name_of self.now }
        requires turn { (view pass.old).turn ≡ true }
        requires value { K.next (view pass.old).number (view pass.old).last kept }
        ensures home { home_of pass.new ≡ home_of pass.old }
        ensures pass { view pass.new ≡ gave (view pass.old) kept }
    {
        let empty = pass.seat.slot_mut(&self.table.shared, 0).replace(kept);
        let None = empty else { unreachable!() };
        self.table.shared.store::<Gives>(&mut pass.seat, 0, 0);
    }

    /// Stores the owner mark of this processor (Linux 6.6, arch/x86/kernel/fpu/context.h, fpregs_activate, which writes
    /// fpu_fpregs_owner_ctx): none, or the user task that has its turn on it in the value that the pass last took or gave.
    /// The turn with the kept value isn't needed for it.
    pub fn mark(&self, pass: &mut Pass<K>, mark: Option<u32>)
        requires home { home_of pass.old ≡ name_of self.now }
        requires task { IfSome mark (K.runs (view pass.old).number (view pass.old).last) }
        ensures home { home_of pass.new ≡ home_of pass.old }
        ensures pass { view pass.new ≡ marked (view pass.old) (mark_word mark) }
    {
        let word = match mark {
            None => 0,
            Some(task) => u64::from(task) + 1,
        };
        let place = pass.cpu as usize + 1;
        self.table
            .shared
            .store::<Marks>(&mut pass.seat, place, word);
    }
}
