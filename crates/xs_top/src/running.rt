//! A script's run, from its board to the history.

ghost use Rattle.std.specs.Prelude.{◌≡◌, ◌≤◌, [], length, IfOk};
ghost use Rattle.xs_model.specs.Script.{IsValid};
ghost use Rattle.xs_share.specs.Passes.{name_of, opened, EachPass, HasAll, IsNew};
ghost use Rattle.xs_text.specs.Text.{AreTasksKnown};
ghost use Rattle.xs_top.specs.declared.play.Play.{Play};
ghost use Rattle.xs_top.specs.Run.{AreNumbered, AreUncounted, IsRunOf};

use crate::procs::set_up;
use std::alloc::{AllocError, Global};
use std::sync::Wait;
use std::thread::Threads;
use xs_bank::Bank;
use xs_board::Board;
use xs_machine::{Gate, Proc, run_schedule, run_threads};
use xs_model::{History, Script};
use xs_share::{Passes, Shared};
use xs_text::a_legal_history_has_a_text;

/// The board of the script, which stays. It takes all memory of the run.
pub fn open_board(alloc: Global, script: &Script) -> Result<Board, AllocError>
    requires valid { IsValid script.now }
    ensures script { IfOk result (λ board. board.script ≡ script.now) }
    ensures new { IfOk result (λ board. board.history ≡ []) }
{
    Board::open(alloc, script.copy(alloc)?)
}

/// The same board for the script's processors to take turns with, and a pass for each of them.
pub fn open_shared(
    alloc: Global,
    script: &Script,
) -> Result<(Shared<Board>, Passes<Board>), AllocError>
    requires valid { IsValid script.now }
    ensures all { IfOk result (λ r. HasAll (name_of r.0) r.1) }
    ensures count { IfOk result (λ r. length r.1.list.items ≡ script.now.cpus) }
    ensures script { IfOk result (λ r. (opened r.1).script ≡ script.now) }
    ensures new { IfOk result (λ r. (opened r.1).history ≡ []) }
    ensures passes { IfOk result (λ r. EachPass (IsNew (name_of r.0) (opened r.1)) r.1.list.items) }
{
    let board = open_board(alloc, script)?;
    Shared::open(alloc, board, script.cpus)
}

/// Sets the script's processors up, and runs it by its schedule on a board that is new. Takes no memory.
pub fn run_by_schedule<B: Bank>(script: &Script, board: Board, procs: &mut [Proc<B>]) -> History
    requires valid { IsValid script.now }
    requires script { board.script ≡ script.now }
    requires new { board.history ≡ [] }
    requires many { length procs.old ≡ 16 }
    requires numbers { AreNumbered procs.old }
    requires counts { AreUncounted B.state procs.old }
    ensures run { IsRunOf B.state Play.Replay script.now result procs.old procs.new }
    ensures tasks { AreTasksKnown script.now result }
    ensures numbers { AreNumbered procs.new }
{
    a_legal_history_has_a_text();
    set_up(script, procs);
    run_schedule(script, board, procs)
}

/// Sets the script's processors up, and runs it with each of them on a thread. The board is new. Takes no memory but for the threads.
pub fn run_on_threads<R: Threads + Wait + Sync, B: Bank + Send, G: Gate + Sync>(
    rt: &R,
    script: &Script,
    shared: Shared<Board>,
    passes: Passes<Board>,
    procs: &mut [Proc<B>],
    gate: &G,
) -> History
    requires valid { IsValid script.now }
    requires all { HasAll (name_of shared) passes }
    requires count { length passes.list.items ≡ script.now.cpus }
    requires script { (opened passes).script ≡ script.now }
    requires new { (opened passes).history ≡ [] }
    requires passes { EachPass (IsNew (name_of shared) (opened passes)) passes.list.items }
    requires many { length procs.old ≡ 16 }
    requires numbers { AreNumbered procs.old }
    requires counts { AreUncounted B.state procs.old }
    ensures run { IsRunOf B.state Play.Run script.now result procs.old procs.new }
    ensures tasks { AreTasksKnown script.now result }
    ensures numbers { AreNumbered procs.new }
{
    a_legal_history_has_a_text();
    set_up(script, procs);
    run_threads(rt, script, shared, passes, procs, gate)
}
