//! What an event does to the blocks.

ghost use Rattle.std.specs.Prelude.{◌≡◌, ℕ, ◌≤◌, Some, length};
ghost use Rattle.xs_legal.specs.Step.{CanReach, IsAtLine, IsLocalLine, IsNext, IsOuterLine};
ghost use Rattle.xs_model.specs.Machine.{blocks_after, ran_line};
ghost use Rattle.xs_model.specs.Note as notes;
ghost use Rattle.xs_model.specs.Outer as outers;
ghost use Rattle.xs_model.specs.Outer.{outer_own, outer_reach, reach_of};
ghost use Rattle.xs_model.specs.Script.{command_at};
ghost use Rattle.xs_model.specs.State.{changed};

use crate::giving::{Gift, pass};
use crate::laws::steps_told;
use crate::reached::{free_all, wake_all};
use crate::state::State;
use xs_model::{Command, Event, Reply, Script};

/// Does to the blocks what the event does, which is a step. It takes no memory.
pub fn change(script: &Script, blocks: &mut [State], event: &Event)
    requires { IsNext script.now blocks.old event.now }
    ensures { blocks.new ≡ blocks_after script.now event.now blocks.old }
{
    steps_told();
    match event {
        Event::Start {
            task,
            cpu,
            signal,
            ..
        } => blocks[*task as usize].start(*cpu, *signal),
        Event::Local { task, .. } => run_in(script, blocks, *task),
        Event::Outer { task, reply, .. } => leave_in(script, blocks, *task, reply),
        Event::Grow { task } => blocks[*task as usize].grow(),
        Event::Kill { task, why, .. } => {
            free_all(blocks, *task);
            blocks[*task as usize].kill(*why);
        }
        Event::End { task } => {
            free_all(blocks, *task);
            blocks[*task as usize].end();
        }
    }
}

/// The local line at which block `t` stands runs.
fn run_in(script: &Script, blocks: &mut [State], t: u32)
    requires { (line : ℕ) × IsLocalLine script.now blocks.old t line }
    ensures { (line : ℕ) → IsLocalLine script.now blocks.old t line → blocks.new ≡ changed t (ran_line script.now (command_at script.now t line)) blocks.old }
{
    let command = command_of(script, blocks, t);
    blocks[t as usize].run(script, command);
}

/// The outer line at which block `t` stands runs, and answers this.
fn leave_in(script: &Script, blocks: &mut [State], t: u32, reply: &Reply)
    requires few { length script.now.blocks ≤ 64 }
    requires line { (line : ℕ) × IsOuterLine script.now blocks.old t line reply.now }
    ensures { (line : ℕ) → IsOuterLine script.now blocks.old t line reply.now → blocks.new ≡ changed t (outer_own script.now (command_at script.now t line) reply.now) (outer_reach script.now t (command_at script.now t line) reply.now blocks.old) }
{
    let command = command_of(script, blocks, t);
    reach(script, blocks, t, command, reply);
    blocks[t as usize].leave(script, command, reply);
}

/// The command of the line at which block `t` stands.
pub fn command_of<'a>(script: &'a Script, blocks: &[State], t: u32) -> &'a Command
    requires { (line : ℕ) × IsAtLine script.now blocks.now t line }
    ensures { (line : ℕ) → IsAtLine script.now blocks.now t line → command_at script.now t line ≡ Some result.now }
{
    let task = blocks[t as usize].task();
    let lines = &script.blocks.as_slice()[t as usize];
    match lines.line_at(task.handling(), task.place()) {
        Some(order) => &order.command,
        None => unreachable!(),
    }
}

/// Does what an outer line of block `t` does beside its own turn: to another block, or to its own buffer.
fn reach(script: &Script, blocks: &mut [State], t: u32, command: &Command, reply: &Reply)
    requires few { length script.now.blocks ≤ 64 }
    requires can { CanReach script.now blocks.old t command.now reply.now }
    ensures { blocks.new ≡ reach_of script.now t command.now reply.now blocks.old }
{
    match command {
        Command::Fork { name } => {
            let child = script.block_named(name.as_slice());
            pass(blocks, Gift::Birth { parent: t }, t, child);
        }
        Command::Stop => {
            if is_held(reply) {
                wake_all(blocks, t);
            }
        }
        Command::Kill { name, signo } => {
            if is_count(reply) {
                blocks[script.block_named(name.as_slice()) as usize].add(*signo);
            }
        }
        Command::Cont { name } => {
            if is_count(reply) {
                blocks[script.block_named(name.as_slice()) as usize].resume();
            }
        }
        Command::Getregs { name, set } => {
            if is_count(reply) {
                let child = script.block_named(name.as_slice());
                pass(blocks, Gift::Registers { set: *set }, child, t);
            }
        }
        Command::Setregs { name, set, count } => {
            if is_count(reply) {
                let (set, count) = (*set, *count);
                let child = script.block_named(name.as_slice());
                pass(blocks, Gift::Bytes { set, count }, t, child);
            }
        }
        _ => {}
    }
}

/// Whether the line answers that the task is stopped.
fn is_held(reply: &Reply) -> bool
    ensures { result ≡ outers.is_held reply.now }
{
    matches!(reply, Reply::Held)
}

/// Whether the line answers a count, and so was done.
pub fn is_count(reply: &Reply) -> bool
    ensures { result ≡ notes.is_count reply.now }
{
    matches!(reply, Reply::Count(_))
}
