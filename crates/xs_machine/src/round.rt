//! A round of the schedule.

ghost use Rattle.std.specs.Prelude.{◌≡◌, ◌<◌, ◌≤◌, IsTrue, [], length, drop, true};
ghost use Rattle.xs_board.specs.Board.{past_of, machine_in, KeepsTurns};
ghost use Rattle.xs_model.specs.Replay.{entry, entries, schedule_of};
ghost use Rattle.xs_model.specs.State.{none_lives};
ghost use Rattle.xs_machine.specs.Processors.{KeepProcessors};
ghost use Rattle.xs_machine.specs.Running.{AreAt, IsRun, IsIdle, KeepsToSchedule};

use crate::entry::run_entry;
use crate::proc::Proc;
use crate::script::{entries, entry_at};
use xs_bank::Bank;
use xs_board::{Board, Entries, Turn};
use xs_model::{Script, free_processors_known, never_stuck, ready_once};

/// One round of the schedule, from its first entry to its last. Answers whether an event was made: where none was, no block lives.
pub fn run_round<B: Bank>(
    script: &Script,
    board: &mut Board,
    turns: &mut [Option<Turn>],
    procs: &mut [Proc<B>],
    lines: &mut Entries,
) -> bool
    requires none { lines.old.items ≡ [] }
    requires run { IsRun script.now board.old }
    requires many { script.now.cpus ≤ length procs.old }
    requires room { script.now.cpus ≤ length turns.old }
    requires at { AreAt B.state script.now board.old turns.old procs.old }
    requires schedule { KeepsToSchedule script.now board.old }
    ensures none { lines.new.items ≡ [] }
    ensures run { IsRun script.now board.new }
    ensures at { AreAt B.state script.now board.new turns.new procs.new }
    ensures schedule { KeepsToSchedule script.now board.new }
    ensures replay { past_of board.new ≡ entries script.now (past_of board.old) (schedule_of script.now.cpus script.now.sched) }
    ensures kept { KeepProcessors procs.old procs.new }
    ensures others { drop script.now.cpus procs.new ≡ drop script.now.cpus procs.old }
    ensures many { length procs.new ≡ length procs.old }
    ensures room { length turns.new ≡ length turns.old }
    ensures grows { IsTrue result → length board.old.history < length board.new.history }
    ensures ended { (IsTrue result → ⊥) → none_lives (machine_in board.new) ≡ true }
{
    ready_once();
    never_stuck();
    free_processors_known();
    let mut moved = false;
    'entries: for at in 0..entries(script) {
        let made = run_at(script, board, turns, procs, entry_at(script, at), lines);
        moved = moved || made;
    }
    moved
}

/// One entry of the schedule, on the processor of this number. Answers whether an event was made.
fn run_at<B: Bank>(
    script: &Script,
    board: &mut Board,
    turns: &mut [Option<Turn>],
    procs: &mut [Proc<B>],
    number: u32,
    lines: &mut Entries,
) -> bool
    requires none { lines.old.items ≡ [] }
    requires run { IsRun script.now board.old }
    requires known { number < script.now.cpus }
    requires many { script.now.cpus ≤ length procs.old }
    requires room { script.now.cpus ≤ length turns.old }
    requires at { AreAt B.state script.now board.old turns.old procs.old }
    ensures none { lines.new.items ≡ [] }
    ensures run { IsRun script.now board.new }
    ensures at { AreAt B.state script.now board.new turns.new procs.new }
    ensures turns { KeepsTurns number board.old board.new }
    ensures replay { past_of board.new ≡ entry script.now (past_of board.old) number }
    ensures kept { KeepProcessors procs.old procs.new }
    ensures others { drop script.now.cpus procs.new ≡ drop script.now.cpus procs.old }
    ensures many { length procs.new ≡ length procs.old }
    ensures room { length turns.new ≡ length turns.old }
    ensures grows { IsTrue result → length board.old.history < length board.new.history }
    ensures idle { (IsTrue result → ⊥) → IsIdle script.now number board.old board.new }
{
    let index = number as usize;
    run_entry(
        script,
        board,
        &mut procs[index].cpu,
        &mut turns[index],
        number,
        lines,
    )
}
