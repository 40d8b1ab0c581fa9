//! The event that a block in a turn makes next.

ghost use Rattle.std.specs.Prelude.{◌≡◌, ◌<◌, ◌≤◌, length};
ghost use Rattle.std.specs.List.{AllByRecursion};
ghost use Rattle.xs_base.specs.Task.{IsPrivateTask};
ghost use Rattle.xs_model.specs.Due as dues;
ghost use Rattle.xs_model.specs.Due.{large_count, line_event, trap_event};
ghost use Rattle.xs_model.specs.Script.{IsCommand, IsValid};
ghost use Rattle.xs_model.specs.State as states;
ghost use Rattle.xs_model.specs.State.{Machine};

use crate::local_reply::{local_answer, traps};
use crate::outer_reply::outer_reply;
use crate::state::State;
use xs_base::Signo;
use xs_model::{Event, Order, Script, Stage, Why};
use xs_private::Private;

/// The one event that block `t` can make next in its turn, if it is in one.
pub fn due(script: &Script, blocks: &[State], t: u32) -> Option<Event>
    requires script { IsValid script.now }
    requires count { length blocks.now ≡ length script.now.blocks }
    requires valid { AllByRecursion (λ (block : states.BlockState). IsPrivateTask script.now.layout block.task) blocks.now }
    ensures { (m : Machine) → m.script ≡ script.now → m.blocks ≡ blocks.now → result ≡ dues.due m t }
{
    let block = blocks.get(t as usize)?;
    let lines = script.blocks.as_slice().get(t as usize)?;
    let Stage::Turn { ran, .. } = block.stage() else {
        return None;
    };
    let task = block.task();
    match lines.line_at(task.handling(), task.place()) {
        Some(order) => event_of_line(script, blocks, t, ran, task, order),
        None if ran < script.quantum && !task.handling() => Some(Event::End { task: t }),
        None => None,
    }
}

/// The event of a line of block `t`, whose turn has made so many Local events.
fn event_of_line(
    script: &Script,
    blocks: &[State],
    t: u32,
    ran: u32,
    task: &Private,
    order: &Order,
) -> Option<Event>
    requires few { length script.now.blocks ≤ 64 }
    requires count { length blocks.now ≡ length script.now.blocks }
    requires here { t < length blocks.now }
    requires valid { AllByRecursion (λ (block : states.BlockState). IsPrivateTask script.now.layout block.task) blocks.now }
    requires task { IsPrivateTask script.now.layout task.now }
    requires known { IsCommand script.now.layout order.now.command }
    ensures { (m : Machine) → m.script ≡ script.now → m.blocks ≡ blocks.now → result ≡ line_event m t ran task.now order.now }
{
    let command = &order.command;
    let line = order.number;
    if command.is_outer() {
        let reply = outer_reply(script, blocks, t, command);
        return Some(Event::Outer {
            task: t,
            line,
            reply,
        });
    }
    if traps(task, command) {
        return Some(event_of_trap(script, blocks, t, task));
    }
    match local_answer(task, command) {
        Ok(reply) if ran < script.quantum => Some(Event::Local {
            task: t,
            line,
            reply,
        }),
        Ok(_) => None,
        Err(why) => Some(Event::Kill {
            task: t,
            signo: violation(),
            why,
        }),
    }
}

/// The event of a line of block `t` that traps: the task grows where it is permitted and a Large area is free.
fn event_of_trap(script: &Script, blocks: &[State], t: u32, task: &Private) -> Event
    requires { length blocks.now ≤ 64 }
    ensures { (m : Machine) → m.script ≡ script.now → m.blocks ≡ blocks.now → result ≡ trap_event m t task.now }
{
    if !task.permitted() {
        Event::Kill {
            task: t,
            signo: illegal(),
            why: Why::Permission,
        }
    } else if count_large(blocks) < script.large {
        Event::Grow { task: t }
    } else {
        Event::Kill {
            task: t,
            signo: violation(),
            why: Why::Area,
        }
    }
}

/// How many living blocks have room for TILEDATA.
fn count_large(blocks: &[State]) -> u32
    requires { length blocks.now ≤ 64 }
    ensures { result ≡ large_count blocks.now }
{
    let mut count = 0;
    'each: for block in blocks {
        if block.task().is_large() && block.lives() {
            count += 1;
        }
    }
    count
}

/// SIGILL.
fn illegal() -> Signo
    ensures { result ≡ dues.illegal }
{
    Signo { number: 4 }
}

/// SIGSEGV.
fn violation() -> Signo
    ensures { result ≡ dues.violation }
{
    Signo { number: 11 }
}
