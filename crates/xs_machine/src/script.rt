//! What a processor looks up in the script.

ghost use Rattle.std.specs.Option.{option_copied};
ghost use Rattle.std.specs.Prelude.{◌≡◌, ◌<◌, ◌&&◌, length, slice_get, slice_index, true, false, Some, None, MatchOption};
ghost use Rattle.xs_board.specs.Turn.{line_of, closed_by};
ghost use Rattle.xs_model.specs.Machine.{goes_on};
ghost use Rattle.xs_model.specs.Replay.{schedule_of};
ghost use Rattle.xs_model.specs.Script.{IsValid};
ghost use Rattle.xs_base.specs.Task.{PrivateTask};
ghost use Rattle.xs_machine.specs.Line.{StandsAt, is_next_section, order_in};

use xs_board::Close;
use xs_model::{Command, Order, Script};
use xs_task::Task;

/// The line at the task's place, where it has one: that of its handler while a user task runs it, and else that of its body.
pub fn line_of<'a>(script: &'a Script, task: &Task, user: bool) -> Option<&'a Order>
    requires { task.now.name < length script.now.blocks }
    ensures line { MatchOption result ((p : PrivateTask) → StandsAt user task.now p → line_of script.now task.now.name p ≡ None) (λ o. (p : PrivateTask) → StandsAt user task.now p → line_of script.now task.now.name p ≡ Some o.now) }
    ensures order { option_copied result ≡ order_in (slice_get script.now.blocks task.now.name) (user && task.now.handling) task.now.place }
{
    let block = &script.blocks.as_slice()[task.name as usize];
    block.line_at(user && task.handling, task.place)
}

/// Whether the next line of the task is a kernel section.
pub fn is_section_next(script: &Script, task: &Task) -> bool
    requires { task.now.name < length script.now.blocks }
    ensures { result ≡ is_next_section script.now task.now }
{
    match line_of(script, task, script.is_user(task.name)) {
        Some(order) => matches!(order.command, Command::Ksec { .. }),
        None => false,
    }
}

/// How the turn is over after a line, where it doesn't go on: `ran` Local events came before the line.
pub fn close_after(script: &Script, command: &Command, ran: u32) -> Option<Close>
    requires { ran < script.now.quantum }
    ensures { MatchOption result (goes_on script.now command.now ran ≡ true) (λ close. (goes_on script.now command.now ran ≡ false) × (close ≡ closed_by command.now)) }
{
    if command.is_yield() {
        return Some(Close::Yield);
    }
    let quantum = script.quantum;
    if ran + 1 < quantum {
        None
    } else {
        Some(Close::Quantum)
    }
}

/// How many entries the schedule has.
pub fn entries(script: &Script) -> usize
    ensures { result ≡ length (schedule_of script.now.cpus script.now.sched) }
{
    if script.sched.is_empty() {
        script.cpus as usize
    } else {
        script.sched.len()
    }
}

/// The processor of an entry of the schedule.
pub fn entry_at(script: &Script, at: usize) -> u32
    requires valid { IsValid script.now }
    requires within { at < length (schedule_of script.now.cpus script.now.sched) }
    ensures is { result ≡ slice_index (schedule_of script.now.cpus script.now.sched) at }
    ensures known { result < script.now.cpus }
{
    if script.sched.is_empty() {
        at as u32
    } else {
        script.sched.as_slice()[at]
    }
}
