//! The passes go to their processors before a run, and come back after it.

ghost use Rattle.std.specs.Prelude.{◌≡◌, ℕ, ◌<◌, ◌≤◌, [], length, slice_index_or, None};
ghost use Rattle.xs_machine.specs.declared.proc.Proc.{Proc};

use crate::proc::Proc;
use arrayvec::ArrayVec;
use xs_bank::Bank;
use xs_board::Board;
use xs_share::Pass;

/// Gives each processor the pass at its place.
pub fn seat<B: Bank>(list: &mut ArrayVec<Option<Pass<Board>>, 16>, procs: &mut [Proc<B>])
    requires { length procs.old ≡ length list.old.items }
    ensures list { list.new.items ≡ [] }
    ensures many { length procs.new ≡ length procs.old }
    ensures procs { (c : ℕ) (d : Proc B) → c < length procs.old → slice_index_or procs.new c d ≡ record (slice_index_or procs.old c d) { pass = slice_index_or list.old.items c None } }
{
    while let Some(pass) = list.pop() {
        procs[list.len()].pass = pass;
    }
}

/// Takes the passes back, each to its place.
pub fn collect<B: Bank>(procs: &mut [Proc<B>], list: &mut ArrayVec<Option<Pass<Board>>, 16>)
    requires none { list.old.items ≡ [] }
    requires many { length procs.old ≤ 16 }
    ensures count { length list.new.items ≡ length procs.old }
    ensures list { (c : ℕ) (d : Proc B) → c < length procs.old → slice_index_or list.new.items c None ≡ (slice_index_or procs.old c d).pass }
    ensures many { length procs.new ≡ length procs.old }
    ensures procs { (c : ℕ) (d : Proc B) → c < length procs.old → slice_index_or procs.new c d ≡ record (slice_index_or procs.old c d) { pass = None } }
{
    for place in 0..procs.len() {
        list.push(procs[place].pass.take());
    }
}
