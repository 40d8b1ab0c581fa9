//! The worker of a processor.

ghost use Rattle.std.specs.Prelude.{◌≡◌, [], true, false, Some, None};
ghost use Rattle.xs_share.specs.Passes.{name_of, view};
ghost use Rattle.xs_board.specs.Board.{machine_in};
ghost use Rattle.xs_model.specs.State.{none_lives};
ghost use Rattle.xs_machine.specs.Processors.{KeepsProcessor};
ghost use Rattle.xs_machine.specs.Threads.{IsDone, IsReady, Stands};

use crate::gate::{Gate, Point};
use crate::marking::{begin_marked, run_marked_turn};
use crate::proc::Proc;
use std::sync::Wait;
use std::thread;
use xs_bank::{Bank, Cpu};
use xs_board::{Board, Entries, Taken, Turn};
use xs_model::{Script, signals_known, task_stays, turns_known, unseen_stays};
use xs_share::{Pass, Shared};

/// Takes turns from the board until no block lives.
pub fn work<R: Wait, B: Bank, G: Gate>(
    rt: &R,
    script: &Script,
    shared: &Shared<Board>,
    proc: &mut Proc<B>,
    gate: &G,
)
    requires ready { IsReady (name_of shared.now) script.now B.state proc.old }
    ensures done { IsDone (name_of shared.now) script.now B.state proc.new }
    ensures kept { KeepsProcessor proc.old.cpu proc.new.cpu }
{
    let mut pass = proc.pass.take().unwrap();
    let mut lines = Entries::new();
    for _ in rt.forever() {
        if !work_once(
            rt,
            script,
            shared,
            &mut pass,
            &mut proc.cpu,
            &mut lines,
            gate,
        ) {
            break;
        }
    }
    proc.pass = Some(pass);
}

/// Asks the board for a turn, and runs the one that it gets. Where no block is ready, its thread makes room for others. Answers whether
/// there may be more to do: where not, no block lives.
fn work_once<R: Wait, B: Bank, G: Gate>(
    rt: &R,
    script: &Script,
    shared: &Shared<Board>,
    pass: &mut Pass<Board>,
    cpu: &mut Cpu<B>,
    lines: &mut Entries,
    gate: &G,
) -> bool
    requires none { lines.old.items ≡ [] }
    requires stands { Stands (name_of shared.now) script.now None pass.old cpu.old (B.state cpu.old.bank) }
    ensures none { lines.new.items ≡ [] }
    ensures stands { Stands (name_of shared.now) script.now None pass.new cpu.new (B.state cpu.new.bank) }
    ensures over { result ≡ false → none_lives (machine_in (view pass.new).last) ≡ true }
    ensures kept { KeepsProcessor cpu.old cpu.new }
{
    signals_known();
    turns_known();
    task_stays();
    unseen_stays();
    let mut board = shared.take_turn(rt, pass);
    // The history of a board is legal.
    let _ = board.history();
    let taken = board.take(cpu.number, cpu.mark);
    shared.give_turn(pass, board);
    match taken {
        Taken::Turn(turn) => {
            gate.at(cpu.number, Point::Took);
            let turn = begin_marked(shared, pass, cpu, turn);
            finish(rt, script, shared, pass, cpu, turn, lines, gate);
            true
        }
        Taken::Nothing => {
            thread::yield_now();
            true
        }
        Taken::Done => false,
    }
}

/// Runs the lines of a turn and brings it back to the board, as others have left that by then.
fn finish<R: Wait, B: Bank, G: Gate>(
    rt: &R,
    script: &Script,
    shared: &Shared<Board>,
    pass: &mut Pass<Board>,
    cpu: &mut Cpu<B>,
    turn: Turn,
    lines: &mut Entries,
    gate: &G,
)
    requires none { lines.old.items ≡ [] }
    requires stands { Stands (name_of shared.now) script.now (Some turn) pass.old cpu.old (B.state cpu.old.bank) }
    ensures none { lines.new.items ≡ [] }
    ensures stands { Stands (name_of shared.now) script.now None pass.new cpu.new (B.state cpu.new.bank) }
    ensures kept { KeepsProcessor cpu.old cpu.new }
{
    turns_known();
    unseen_stays();
    let mut turn = turn;
    let close = run_marked_turn(script, shared, pass, cpu, &mut turn.task, lines);
    gate.at(cpu.number, Point::Ran);
    let mut board = shared.take_turn(rt, pass);
    // The history of a board is legal.
    let _ = board.history();
    board.commit(turn, lines, close);
    shared.give_turn(pass, board);
    lines.clear();
}
