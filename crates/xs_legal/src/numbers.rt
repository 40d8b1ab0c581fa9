//! The two numbers by which a machine tells whether a bank still holds a task's registers: the owner mark of each processor, and the
//! last processor of each block.

ghost use Rattle.std.specs.Prelude.{◌≡◌, ◌<◌, ◌≤◌, ◌==◌, ℕ, None, Some, length, if◌then◌else◌};
ghost use Rattle.std.specs.Prelude as prelude;
ghost use Rattle.xs_legal.specs.Standing as standings;
ghost use Rattle.xs_legal.specs.Standing.{AreLastsAfter, AreMarksAfter, clears, cpu_after};
ghost use Rattle.xs_legal.specs.Step.{IsNext};
ghost use Rattle.xs_legal.specs.Wrong.{how_in};
ghost use Rattle.xs_model.specs.Note as notes;
ghost use Rattle.xs_model.specs.Note.{act_of, set_act, set_target};
ghost use Rattle.xs_model.specs.State as states;

use crate::effects::{command_of, is_count};
use crate::laws::steps_told;
use crate::parts::task_of;
use crate::state::State;
use xs_model::{Command, Event, Reply, Script, Stage, machine_known, turns_known};

/// Whether both numbers say that the processor still holds the task.
pub fn are_both(marks: &[Option<u32>], lasts: &[Option<u32>], cpu: u32, t: u32) -> bool
    ensures { result ≡ standings.are_both marks.now lasts.now cpu t }
{
    is_at(number_at(marks, cpu), t) && is_at(number_at(lasts, t), cpu)
}

/// Notes in the marks what the event, which is a step, does to that of its processor.
pub fn note_mark(marks: &mut [Option<u32>], script: &Script, blocks: &[State], event: &Event)
    requires { IsNext script.now blocks.now event.now }
    ensures { (step : IsNext script.now blocks.now event.now) → AreMarksAfter script.now event.now (cpu_after script.now step.past event.now) marks.old marks.new }
{
    if let Some(cpu) = cpu_of(script, blocks, event) {
        let older = number_at(marks, cpu);
        put(marks, cpu, mark_left(script, blocks, event, older));
    }
}

/// Notes in the last processors what the event, which is a step, does to them.
pub fn note_last(lasts: &mut [Option<u32>], script: &Script, blocks: &[State], event: &Event)
    requires { IsNext script.now blocks.now event.now }
    ensures { AreLastsAfter (notes.task_of event.now) (act_of script.now event.now) lasts.old lasts.new }
{
    steps_told();
    match event {
        Event::Start { task, cpu, .. } => put(lasts, *task, Some(*cpu)),
        Event::Grow { task } => put(lasts, *task, None),
        Event::Outer { task, reply, .. } => {
            let command = command_of(script, blocks, *task);
            note_set(lasts, script, *task, command, reply);
        }
        _ => {}
    }
}

/// Notes that an outer line sets the registers of a block, if it does: no bank holds them then.
fn note_set(lasts: &mut [Option<u32>], script: &Script, t: u32, command: &Command, reply: &Reply)
    requires few { length script.now.blocks ≤ 64 }
    ensures { AreLastsAfter t (set_act (set_target script.now (Some command.now)) (notes.is_count reply.now)) lasts.old lasts.new }
{
    match command {
        Command::Setregs { name, .. } if is_count(reply) => {
            put(lasts, script.block_named(name.as_slice()), None);
        }
        _ => {}
    }
}

/// The processor of the event, which is a step.
fn cpu_of(script: &Script, blocks: &[State], event: &Event) -> Option<u32>
    requires { IsNext script.now blocks.now event.now }
    ensures { (step : IsNext script.now blocks.now event.now) → result ≡ cpu_after script.now step.past event.now }
{
    match event {
        Event::Start { cpu, .. } => Some(*cpu),
        _ => cpu_of_turn(script, blocks, event),
    }
}

/// The processor of the event, which is a step and no Start.
fn cpu_of_turn(script: &Script, blocks: &[State], event: &Event) -> Option<u32>
    requires step { IsNext script.now blocks.now event.now }
    requires inside { how_in event.now ≡ None }
    ensures { (step : IsNext script.now blocks.now event.now) → result ≡ cpu_after script.now step.past event.now }
{
    steps_told();
    turns_known();
    turn_of(blocks, task_of(event))
}

/// The processor of the turn of block `t`, if it is in one.
pub fn turn_of(blocks: &[State], t: u32) -> Option<u32>
    ensures { result ≡ states.turn_of blocks.now t }
{
    match blocks.get(t as usize)?.stage() {
        Stage::Turn { cpu, .. } => Some(cpu),
        _ => None,
    }
}

/// The mark that the event, which is a step, leaves on its processor.
fn mark_left(script: &Script, blocks: &[State], event: &Event, older: Option<u32>) -> Option<u32>
    requires { IsNext script.now blocks.now event.now }
    ensures { result ≡ standings.mark_left script.now event.now older }
{
    steps_told();
    machine_known();
    let t = task_of(event);
    if is_section(script, blocks, event) {
        None
    } else if script.is_user(t) {
        Some(t)
    } else {
        older
    }
}

/// Whether the kernel uses the registers at the event, which is a step.
fn is_section(script: &Script, blocks: &[State], event: &Event) -> bool
    requires { IsNext script.now blocks.now event.now }
    ensures { result ≡ clears (act_of script.now event.now) }
{
    steps_told();
    match event {
        Event::Local { task, .. } => is_ksec(command_of(script, blocks, *task)),
        _ => false,
    }
}

/// Whether the command is a section in which the kernel uses the registers.
fn is_ksec(command: &Command) -> bool
    ensures { result ≡ notes.is_section (Some command.now) }
{
    matches!(command, Command::Ksec { .. })
}

/// The number of this place.
fn number_at(numbers: &[Option<u32>], place: u32) -> Option<u32>
    ensures { result ≡ prelude.slice_index_or numbers.now place None }
{
    match numbers.get(place as usize) {
        Some(number) => *number,
        None => None,
    }
}

/// Whether this number is known.
fn is_at(known: Option<u32>, number: u32) -> bool
    ensures { result ≡ notes.is_at known number }
{
    match known {
        Some(other) => other == number,
        None => false,
    }
}

/// Puts the number at this place, if there is one.
fn put(numbers: &mut [Option<u32>], place: u32, number: Option<u32>)
    ensures { (i : ℕ) → i < length numbers.old → prelude.slice_index_or numbers.new i None ≡ if place == i then number else prelude.slice_index_or numbers.old i None }
{
    if (place as usize) < numbers.len() {
        numbers[place as usize] = number;
    }
}
