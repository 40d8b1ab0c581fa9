//! The beginning and the end of a shared value.
ghost use Rattle.std.specs.Prelude.{◌≡◌, ℕ, ◌<◌, ◌≤◌, length, IfOk};
ghost use Rattle.xs_share.specs.Passes.{name_of, opened, view, EachPass, HasAll, IsIdle, IsNew};

use crate::kept::Kept;
use crate::pass::{Pass, Passes};
use crate::rule::{Makes, TakesBack};
use crate::shared::Shared;
use arrayvec::ArrayVec;
use atomic_table::{Refused, Table};
use std::alloc::{AllocError, Global};
use std::snapshot::Snapshot;

impl<K: Kept> Shared<K> {
    /// The value at home, and a pass for each of so many processors. On want of memory the value is dropped.
    pub fn open(alloc: Global, kept: K, cpus: u32) -> Result<(Shared<K>, Passes<K>), AllocError>
    where
        K: Drop,
        requires { (0 < cpus) × (cpus ≤ 16) }
        ensures all { IfOk result (λ r. HasAll (name_of r.0) r.1) }
        ensures count { IfOk result (λ r. length r.1.list.items ≡ cpus) }
        ensures first { IfOk result (λ r. opened r.1 ≡ kept) }
        ensures new { IfOk result (λ r. EachPass (IsNew (name_of r.0) kept) r.1.list.items) }
    {
        let about = Snapshot::of(&kept);
        let mut slots = Vec::with_capacity(alloc, 1)?;
        slots.push_reserved(Some(kept));
        let (table, mut keeper) = match Table::new(alloc, &[0; 17], slots, &about) {
            Ok(opened) => opened,
            Err(refused) => {
                drop(refused);
                return Err(AllocError);
            }
        };
        let shared = Shared { table };
        let mut list = ArrayVec::new();
        for cpu in 0..cpus {
            let seat = shared.table.shared.split_seat::<Makes>(&mut keeper);
            list.push(Some(Pass { seat, cpu }));
        }
        Ok((shared, Passes { keeper, list }))
    }

    /// Takes all passes back, none with the turn, and answers the value. To each processor it follows the value that
    /// its pass last took or gave, and to a processor that has no pass the value that was opened.
    pub fn close(self, passes: Passes<K>) -> K
        requires all { HasAll (name_of self) passes }
        requires idle { EachPass (IsIdle (name_of self)) passes.list.items }
        ensures passes { EachPass (λ c p. K.follows c (view p).last result) passes.list.items }
        ensures opened { (c : ℕ) → length passes.list.items ≤ c → K.follows c (opened passes) result }
    {
        let Passes {
            mut keeper,
            mut list,
        } = passes;
        while let Some(slot) = list.pop() {
            let pass = slot.unwrap();
            self.table
                .shared
                .join_seat::<TakesBack>(&mut keeper, pass.into_seat());
        }
        let Shared { table } = self;
        let mut closed = table.close_with(keeper);
        let kept = closed.take(0).unwrap();
        closed.free();
        kept
    }
}
