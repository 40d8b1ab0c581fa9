//! A run on threads, one a processor.

ghost use Rattle.std.specs.Prelude.{◌≡◌, ◌<◌, ◌≤◌, [], length, drop};
ghost use Rattle.xs_share.specs.Passes.{name_of, opened, EachPass, HasAll, IsNew};
ghost use Rattle.xs_model.specs.History.{IsWhole};
ghost use Rattle.xs_model.specs.Replay.{IsReplay};
ghost use Rattle.xs_model.specs.Script.{IsValid};
ghost use Rattle.xs_machine.specs.Processors.{AreSetUp, HaveRun, KeepProcessors};
ghost use Rattle.xs_machine.specs.Threads.{EachProc, HasRunAll, IsDone, IsReady, KeepEach};

use crate::gate::Gate;
use crate::proc::Proc;
use crate::seats::{collect, seat};
use crate::worker::work;
use std::sync::Wait;
use std::thread;
use std::thread::Threads;
use xs_bank::Bank;
use xs_board::Board;
use xs_model::{History, Script, turns_known, unseen_stays};
use xs_share::{Passes, Shared};

/// Runs a script on its processors, which are the first ones of `procs`, each in a thread of its own. The board is that of `shared`,
/// newly opened over an equal script, with a pass for each processor. The order in which the processors come to the board is the
/// machine's: it isn't promised that a run ends. Takes no memory but for the threads.
///
/// Whatever the order was, the history is whole. Each bank has counted what the history says, and holds the file that it says,
/// whatever banks these are; each processor has the owner mark that the history gives it. Processors past those of the script don't
/// change. On one processor the history is the script's replay.
pub fn run_threads<R: Threads + Wait + Sync, B: Bank + Send, G: Gate + Sync>(
    rt: &R,
    script: &Script,
    shared: Shared<Board>,
    passes: Passes<Board>,
    procs: &mut [Proc<B>],
    gate: &G,
) -> History
    requires valid { IsValid script.now }
    requires all { HasAll (name_of shared) passes }
    requires script { (opened passes).script ≡ script.now }
    requires new { (opened passes).history ≡ [] }
    requires passes { EachPass (IsNew (name_of shared) (opened passes)) passes.list.items }
    requires count { length passes.list.items ≡ script.now.cpus }
    requires many { script.now.cpus ≤ length procs.old }
    requires set_up { AreSetUp B.state script.now procs.old }
    ensures whole { IsWhole script.now result }
    ensures banks { HaveRun B.state script.now result procs.new }
    ensures alone { script.now.cpus ≡ 1 → IsReplay script.now result }
    ensures kept { KeepProcessors procs.old procs.new }
    ensures others { drop script.now.cpus procs.new ≡ drop script.now.cpus procs.old }
{
    let (workers, _) = procs.split_at_mut(script.cpus as usize);
    run_all(rt, script, shared, passes, workers, gate)
}

/// Runs a script on these processors, which are all that it has.
fn run_all<R: Threads + Wait + Sync, B: Bank + Send, G: Gate + Sync>(
    rt: &R,
    script: &Script,
    shared: Shared<Board>,
    passes: Passes<Board>,
    procs: &mut [Proc<B>],
    gate: &G,
) -> History
    requires valid { IsValid script.now }
    requires all { HasAll (name_of shared) passes }
    requires script { (opened passes).script ≡ script.now }
    requires new { (opened passes).history ≡ [] }
    requires passes { EachPass (IsNew (name_of shared) (opened passes)) passes.list.items }
    requires count { length passes.list.items ≡ script.now.cpus }
    requires many { length procs.old ≡ script.now.cpus }
    requires set_up { AreSetUp B.state script.now procs.old }
    ensures { HasRunAll B.state script.now result procs.old procs.new }
{
    turns_known();
    unseen_stays();
    let mut passes = passes;
    seat(&mut passes.list, procs);
    work_all(rt, script, &shared, procs, gate);
    collect(procs, &mut passes.list);
    shared.close(passes).into_history()
}

/// Lets each processor work in a thread of its own.
fn work_all<R: Threads + Wait + Sync, B: Bank + Send, G: Gate + Sync>(
    rt: &R,
    script: &Script,
    shared: &Shared<Board>,
    procs: &mut [Proc<B>],
    gate: &G,
)
    requires some { 0 < length procs.old }
    requires ready { EachProc (λ _ proc. IsReady (name_of shared.now) script.now B.state proc) procs.old }
    ensures many { length procs.new ≡ length procs.old }
    ensures done { EachProc (λ _ proc. IsDone (name_of shared.now) script.now B.state proc) procs.new }
    ensures kept { KeepEach procs.old procs.new }
{
    let threads = procs.len();
    thread::for_each_mut(
        rt,
        procs,
        threads,
        &|_, proc| work(rt, script, shared, proc, gate),
    );
}
