//! One entry of the schedule.

ghost use Rattle.std.specs.Prelude.{◌≡◌, ◌<◌, IsTrue, [], false, length, Some, None};
ghost use Rattle.xs_base.specs.declared.words.How.TheVariants as hows;
ghost use Rattle.xs_base.specs.Task.{PrivateTask};
ghost use Rattle.xs_bank.specs.SetUp.{WasSetUp};
ghost use Rattle.xs_board.specs.declared.turn.Turn as turns;
ghost use Rattle.xs_board.specs.Board as boards;
ghost use Rattle.xs_board.specs.Board.{past_of, KeepsTurns};
ghost use Rattle.xs_board.specs.Taken.{is_user_how};
ghost use Rattle.xs_model.specs.Replay.{entry};
ghost use Rattle.xs_machine.specs.Processors.{KeepsProcessor};
ghost use Rattle.xs_machine.specs.Running.{IsAt, IsRun, LeavesOthers, IsIdle, MayBegin, Begun};
ghost use Rattle.xs_machine.specs.Threads.{HasRunTurn, SomeTurn};

use crate::turn::{leave, run_lines};
use xs_bank::{Bank, Cpu};
use xs_base::How;
use xs_board::{Board, Close, Entries, Taken, Turn};
use xs_frame::deliver;
use xs_model::{
    Script, machine_known, never_idle, signals_known, task_stays, turns_known, unseen_stays,
};
use xs_switch::{switch_in, to_kernel};
use xs_task::Task;

/// One entry of the schedule on a processor: it takes a turn where it has none, and else runs its turn and brings it back. The list
/// of lines is empty between turns. Answers whether an event was made.
pub fn run_entry<B: Bank>(
    script: &Script,
    board: &mut Board,
    cpu: &mut Cpu<B>,
    slot: &mut Option<Turn>,
    number: u32,
    lines: &mut Entries,
) -> bool
    requires run { IsRun script.now board.old }
    requires none { lines.old.items ≡ [] }
    requires known { number < script.now.cpus }
    requires at { IsAt script.now board.old number slot.old cpu.old (B.state cpu.old.bank) }
    ensures run { IsRun script.now board.new }
    ensures none { lines.new.items ≡ [] }
    ensures at { IsAt script.now board.new number slot.new cpu.new (B.state cpu.new.bank) }
    ensures others { LeavesOthers B script.now number board.old board.new }
    ensures turns { KeepsTurns number board.old board.new }
    ensures replay { past_of board.new ≡ entry script.now (past_of board.old) number }
    ensures kept { KeepsProcessor cpu.old cpu.new }
    ensures grows { IsTrue result → length board.old.history < length board.new.history }
    ensures idle { (IsTrue result → ⊥) → IsIdle script.now number board.old board.new }
{
    signals_known();
    turns_known();
    task_stays();
    unseen_stays();
    match slot.take() {
        Some(turn) => {
            finish_turn(script, board, cpu, turn, lines);
            true
        }
        None => match board.take(number, cpu.mark) {
            Taken::Turn(turn) => {
                *slot = Some(begin_turn(cpu, turn));
                true
            }
            _ => false,
        },
    }
}

/// Begins a turn that the board handed out: the registers of a user task come to the bank, and its signal is delivered. A kernel
/// thread has no registers but its PKRU, and no signal.
pub fn begin_turn<B: Bank>(cpu: &mut Cpu<B>, turn: Turn) -> Turn
    requires set_up { WasSetUp cpu.old.layout (B.state cpu.old.bank) cpu.old.initial }
    requires home { (p : PrivateTask) × MayBegin cpu.old.layout turn (B.state cpu.old.bank) p }
    requires skip { turn.how ≡ hows.Skip → (cpu.old.mark ≡ Some turn.task.name) × (turn.task.last ≡ Some cpu.old.number) }
    requires quiet { is_user_how turn.how ≡ false → turn.signal ≡ None }
    ensures { Begun turn result cpu.old cpu.new (B.state cpu.old.bank) (B.state cpu.new.bank) }
{
    let mut turn = turn;
    if turn.how == How::Kern {
        // The bank has a file of its machine.
        let _ = cpu.bank.loads();
        to_kernel(cpu);
    } else {
        switch_in(&mut turn.task, cpu, turn.how);
        if turn.signal.is_some() {
            deliver(&mut turn.task, cpu);
        }
    }
    turn
}

/// Runs the lines of a turn and brings it back to the board.
fn finish_turn<B: Bank>(
    script: &Script,
    board: &mut Board,
    cpu: &mut Cpu<B>,
    turn: Turn,
    lines: &mut Entries,
)
    requires run { IsRun script.now board.old }
    requires none { lines.old.items ≡ [] }
    requires at { IsAt script.now board.old turn.cpu (Some turn) cpu.old (B.state cpu.old.bank) }
    ensures run { IsRun script.now board.new }
    ensures none { lines.new.items ≡ [] }
    ensures at { IsAt script.now board.new turn.cpu None cpu.new (B.state cpu.new.bank) }
    ensures others { LeavesOthers B script.now turn.cpu board.old board.new }
    ensures turns { KeepsTurns turn.cpu board.old board.new }
    ensures replay { past_of board.new ≡ entry script.now (past_of board.old) turn.cpu }
    ensures kept { KeepsProcessor cpu.old cpu.new }
    ensures grows { length board.old.history < length board.new.history }
{
    turns_known();
    unseen_stays();
    let mut turn = turn;
    let close = run_turn(script, cpu, &mut turn.task, lines);
    board.commit(turn, lines, close);
    lines.clear();
}

/// Runs the lines of a turn, after which its task leaves the processor. Answers how the turn closes. It looks at no board: what it
/// promises holds for each board that has the turn.
fn run_turn<B: Bank>(
    script: &Script,
    cpu: &mut Cpu<B>,
    task: &mut Task,
    lines: &mut Entries,
) -> Close
    requires none { lines.old.items ≡ [] }
    requires some { SomeTurn script.now task.old cpu.old (B.state cpu.old.bank) }
    ensures ran { (board : boards.Board) (turn : turns.Turn) → turn.task ≡ task.old → IsRun script.now board → IsAt script.now board turn.cpu (Some turn) cpu.old (B.state cpu.old.bank) → HasRunTurn script.now board turn (B.state cpu.old.bank) lines.new.items result task.new cpu.new (B.state cpu.new.bank) }
    ensures kept { KeepsProcessor cpu.old cpu.new }
{
    machine_known();
    never_idle();
    let close = run_lines(script, cpu, task, lines);
    leave(script, cpu, task);
    close
}
