//! The turn of a task on its processor, from its first line to its close.

ghost use Rattle.std.specs.Prelude.{◌≡◌, ◌+◌, ◌<◌, ℕ, [], List, length, true, IfNone};
ghost use Rattle.xs_base.specs.Task.{PrivateTask};
ghost use Rattle.xs_bank.specs.Bank as banks;
ghost use Rattle.xs_board.specs.Turn.{task_after};
ghost use Rattle.xs_model.specs.declared.event.Event.{Event};
ghost use Rattle.xs_model.specs.Script.{IsValid};
ghost use Rattle.xs_machine.specs.Line.{line_mark};
ghost use Rattle.xs_machine.specs.Processors.{KeepsProcessor};
ghost use Rattle.xs_machine.specs.Turn.{AfterLine, AreOver, AreRunning, HasLeft, IsTurning, SomeOver, SomeRunning};

use crate::lines::{come_back, run_local};
use crate::script::{close_after, line_of};
use xs_bank::{Bank, Cpu};
use xs_board::{Close, Entries, Entry, lines_follow};
use xs_model::{Script, lines_found, machine_known, named_known};
use xs_switch::switch_out;
use xs_task::Task;

/// Runs the lines of a turn, and answers how it closes. They join the entries.
pub fn run_lines<B: Bank>(
    script: &Script,
    cpu: &mut Cpu<B>,
    task: &mut Task,
    entries: &mut Entries,
) -> Close
    requires valid { IsValid script.now }
    requires none { entries.old.items ≡ [] }
    requires turning { SomeRunning script.now [] task.old cpu.old (B.state cpu.old.bank) }
    ensures over { (t c : ℕ) (past : List Event) (before : banks.Bank) (start : PrivateTask) → AreRunning script.now t c past before start [] start task.old cpu.old (B.state cpu.old.bank) → AreOver script.now t c past before start entries.new.items result task.new cpu.new (B.state cpu.new.bank) }
    ensures kept { KeepsProcessor cpu.old cpu.new }
{
    loop {
        if let Some(close) = run_line(script, cpu, task, entries) {
            return close;
        }
    }
}

/// Runs the next line of a turn, which joins the entries, and answers how the turn is over where it doesn't go on. An outer line is
/// left to the board, and so is a line that traps; a refused return ends the task, and without a line the turn closes with the
/// body's end.
pub fn run_line<B: Bank>(
    script: &Script,
    cpu: &mut Cpu<B>,
    task: &mut Task,
    entries: &mut Entries,
) -> Option<Close>
    requires valid { IsValid script.now }
    requires turning { SomeRunning script.now entries.old.items task.old cpu.old (B.state cpu.old.bank) }
    ensures after { (t c : ℕ) (past : List Event) (before : banks.Bank) (start private : PrivateTask) → AreRunning script.now t c past before start entries.old.items private task.old cpu.old (B.state cpu.old.bank) → AfterLine script.now t c past before start entries.new.items result task.new cpu.new (B.state cpu.new.bank) }
    ensures longer { IfNone result (length entries.new.items ≡ length entries.old.items + 1) }
    ensures mark { cpu.new.mark ≡ line_mark script.now task.old cpu.old.mark }
    ensures name { task.new.name ≡ task.old.name }
    ensures kept { KeepsProcessor cpu.old cpu.new }
{
    lines_found();
    machine_known();
    lines_follow();
    named_known();
    let ran = entries.len() as u32;
    let user = script.is_user(task.name);
    come_back(cpu, task, user);
    let Some(order) = line_of(script, task, user) else {
        return Some(Close::End);
    };
    if order.command.is_outer() {
        return Some(Close::Outer(order.number));
    }
    let reply = match run_local(cpu, task, &order.command, user) {
        Ok(reply) => reply,
        Err(close) => return Some(close),
    };
    entries.push(Entry {
        line: order.number,
        reply,
    });
    close_after(script, &order.command, ran)
}

/// The task leaves the processor after its turn: a user task is switched out.
pub fn leave<B: Bank>(script: &Script, cpu: &mut Cpu<B>, task: &mut Task)
    requires turning { SomeOver script.now task.old cpu.old (B.state cpu.old.bank) }
    requires known { task.old.name < length script.now.blocks }
    ensures left { (t c : ℕ) (first past : List Event) (before : banks.Bank) (private : PrivateTask) → IsTurning script.now t c first past before true 0 private task.old cpu.old (B.state cpu.old.bank) → HasLeft script.now t c first past before private task.new cpu.new (B.state cpu.new.bank) }
    ensures name { task.new.name ≡ task.old.name }
    ensures mark { cpu.new.mark ≡ cpu.old.mark }
    ensures kept { KeepsProcessor cpu.old cpu.new }
{
    if script.is_user(task.name) {
        switch_out(task, cpu);
    }
}
