//! A run by the script's schedule, on one thread.

ghost use Rattle.std.specs.Prelude.{◌≡◌, ◌≤◌, [], length, drop};
ghost use Rattle.xs_model.specs.History.{IsWhole};
ghost use Rattle.xs_model.specs.Replay.{IsReplay};
ghost use Rattle.xs_model.specs.Script.{IsValid};
ghost use Rattle.xs_machine.specs.Processors.{AreSetUp, HaveRun, KeepProcessors};

use crate::proc::Proc;
use crate::round::run_round;
use xs_bank::Bank;
use xs_board::{Board, Entries, Turn};
use xs_model::{History, Script, few_events};

/// Runs a script by its schedule on its processors, which are the first ones of `procs`. At each entry of the schedule the
/// processor takes a turn where it has none, and else runs the lines of its turn and brings it back; the rounds end once no block
/// lives. Takes no memory.
///
/// The history is the script's replay, and it's whole. Each bank has counted what the history says, and holds the file that it
/// says, whatever banks these are; each processor has the owner mark that the history gives it. Processors past those of the
/// script don't change.
pub fn run_schedule<B: Bank>(script: &Script, board: Board, procs: &mut [Proc<B>]) -> History
    requires valid { IsValid script.now }
    requires script { board.script ≡ script.now }
    requires new { board.history ≡ [] }
    requires many { script.now.cpus ≤ length procs.old }
    requires set_up { AreSetUp B.state script.now procs.old }
    ensures replay { IsReplay script.now result }
    ensures whole { IsWhole script.now result }
    ensures banks { HaveRun B.state script.now result procs.new }
    ensures kept { KeepProcessors procs.old procs.new }
    ensures others { drop script.now.cpus procs.new ≡ drop script.now.cpus procs.old }
{
    few_events();
    let mut board = board;
    let mut turns: [Option<Turn>; 16] = [
        None, None, None, None, None, None, None, None, None, None, None, None, None, None, None,
        None,
    ];
    let mut lines = Entries::new();
    'rounds: while run_round(script, &mut board, &mut turns, procs, &mut lines) {}
    board.into_history()
}
