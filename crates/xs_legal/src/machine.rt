//! The machine that follows a history, event by event.

ghost use Rattle.std.specs.Prelude.{◌≡◌, ℕ, List, ◌∷◌, [], map, replicate, Option, None, IfOk, MatchResult};
ghost use Rattle.std.specs.List.{list_any};
ghost use Rattle.xs_base.specs.declared.words.How.{How};
ghost use Rattle.xs_base.specs.declared.words.Signo.{Signo};
ghost use Rattle.xs_model.specs.declared.event.Event as events;
ghost use Rattle.xs_model.specs.declared.event.Event.TheVariants as kinds;
ghost use Rattle.xs_model.specs.Machine as machines;
ghost use Rattle.xs_model.specs.Machine.{IsStep, committing_after};
ghost use Rattle.xs_model.specs.Script.{IsValid};
ghost use Rattle.xs_model.specs.State as states;
ghost use Rattle.xs_model.specs.State.{lives, none_lives, opening_block, opening_stage};
ghost use Rattle.xs_legal.specs.Standing as standings;
ghost use Rattle.xs_legal.specs.Standing.{StandsAfter};
ghost use Rattle.xs_legal.specs.Wrong.{IsWrong};

use crate::effects::change;
use crate::judging::judge;
use crate::numbers::{are_both, note_last, note_mark, turn_of};
use crate::parts::task_of;
use crate::state::State;
use crate::wrong::Wrong;
use std::alloc::{AllocError, Global};
use std::marker::Model;
use xs_model::{Block, BlockKind, Event, Script, Stage, machine_known, two_numbers};

/// How many processors a script has at most.
const PROCESSORS: usize = 16;

/// The machine of a script, in which each task owns a register file, after the events that were made so far. It keeps what the next
/// step needs and none of the events: so it takes memory at its opening alone, and a step takes the same time after any history.
#[derive(Drop)]
pub struct Machine {
    script: Script,
    blocks: Vec<State>,
    /// The block whose commit is open.
    committing: Option<u32>,
    /// The owner mark of each processor.
    marks: Vec<Option<u32>>,
    /// The last processor of each block.
    lasts: Vec<Option<u32>>,
}

impl Model for Machine {
    ghost use Rattle.xs_legal.specs.Standing.{IsStanding};
    ghost use Rattle.xs_legal.specs.Standing as standings;

    ghost Value = { standings.Standing };

    ghost view = { λ m. record { script = m.script; blocks = m.blocks.items; committing = m.committing; marks = m.marks.items; lasts = m.lasts.items } };

    ghost invariant = { λ m. IsStanding (record { script = m.script; blocks = m.blocks.items; committing = m.committing; marks = m.marks.items; lasts = m.lasts.items }) };
}

impl Machine {
    /// The machine of a copy of the script before the first event. Fails for want of memory alone.
    pub fn open(alloc: Global, script: &Script) -> Result<Machine, AllocError>
        requires { IsValid script.now }
        ensures { IfOk result (λ m. (m.script ≡ script.now) × StandsAfter m []) }
    {
        let script = script.copy(alloc)?;
        let blocks = first_blocks(alloc, &script)?;
        let marks = no_numbers(alloc, PROCESSORS)?;
        let lasts = no_numbers(alloc, script.blocks.len())?;
        Ok(Machine {
            script,
            blocks,
            committing: None,
            marks,
            lasts,
        })
    }

    /// Makes the event, if it is a step, and else says what is wrong with it: `NotNow` where no step is like it in its kind, its task,
    /// and its processor, line, signal number and cause, and else the first of how, signal and reply that is wrong, with the right
    /// value. After an error the machine is as before. It takes no memory.
    pub fn step(&mut self, event: &Event) -> Result<(), Wrong>
        ensures step { (past : List events.Event) → StandsAfter self.old past → MatchResult result
            (λ _. IsStep (machines.machine self.old.script past) event.now × StandsAfter self.new (event.now ∷ past))
            (λ wrong. IsWrong (machines.machine self.old.script past) event.now wrong × (self.new ≡ self.old)) }
        ensures script { self.new.script ≡ self.old.script }
    {
        machine_known();
        two_numbers();
        let is_held = is_held(self.marks.as_slice(), self.lasts.as_slice(), event);
        match judge(
            &self.script,
            self.blocks.as_slice(),
            self.committing,
            is_held,
            event,
        ) {
            Ok(()) => {
                self.make(event);
                Ok(())
            }
            Err(wrong) => Err(wrong),
        }
    }

    /// Makes the event, which is a step.
    fn make(&mut self, event: &Event)
        requires { (past : List events.Event) × StandsAfter self.old past × IsStep (machines.machine self.old.script past) event.now }
        ensures step { (past : List events.Event) → StandsAfter self.old past → IsStep (machines.machine self.old.script past) event.now → StandsAfter self.new (event.now ∷ past) }
        ensures script { self.new.script ≡ self.old.script }
    {
        machine_known();
        let blocks = self.blocks.as_mut_slice();
        note_mark(self.marks.as_mut_slice(), &self.script, blocks, event);
        note_last(self.lasts.as_mut_slice(), &self.script, blocks, event);
        change(&self.script, blocks, event);
        self.committing = committing(blocks, event);
    }

    /// Whether every block that was born has ended.
    pub fn whole(&self) -> bool
        ensures { (past : List events.Event) → StandsAfter self.now past → result ≡ none_lives (machines.machine self.now.script past) }
    {
        !any_lives(self.blocks.as_slice())
    }
}

/// Whether the numbers say that the processor of a Start still holds the task.
fn is_held(marks: &[Option<u32>], lasts: &[Option<u32>], event: &Event) -> bool
    ensures { (t cpu : ℕ) (how : How) (signal : Option Signo) → event.now ≡ kinds.Start t cpu how signal → result ≡ standings.are_both marks.now lasts.now cpu t }
{
    match event {
        Event::Start { task, cpu, .. } => are_both(marks, lasts, *cpu, *task),
        _ => false,
    }
}

/// Whether one of the blocks was born and hasn't ended.
fn any_lives(blocks: &[State]) -> bool
    ensures { result ≡ list_any (λ (block : states.BlockState). lives block.stage) blocks.now }
{
    blocks.iter().any(|block| block.lives())
}

/// So many places, none of which has a number.
fn no_numbers(alloc: Global, count: usize) -> Result<Vec<Option<u32>>, AllocError>
    ensures { IfOk result (λ numbers. numbers.items ≡ replicate count None) }
{
    let mut numbers = Vec::with_capacity(alloc, count)?;
    'each: for _place in 0..count {
        numbers.push_reserved(None);
    }
    Ok(numbers)
}

/// The blocks before the first event.
fn first_blocks(alloc: Global, script: &Script) -> Result<Vec<State>, AllocError>
    ensures { IfOk result (λ blocks. blocks.items ≡ map (opening_block script.now.layout) script.now.blocks) }
{
    let blocks = script.blocks.as_slice();
    let mut states = Vec::with_capacity(alloc, blocks.len())?;
    'each: for block in blocks {
        states.push_reserved(first_block(alloc, script, block)?);
    }
    Ok(states)
}

/// A block before the first event.
fn first_block(alloc: Global, script: &Script, block: &Block) -> Result<State, AllocError>
    ensures { IfOk result (λ state. state ≡ opening_block script.now.layout block.now) }
{
    State::open(alloc, first_stage(block.kind), &script.layout)
}

/// What a block does before the first event.
fn first_stage(kind: BlockKind) -> Stage
    ensures { result ≡ opening_stage kind }
{
    match kind {
        BlockKind::Child => Stage::Unborn,
        _ => Stage::Ready,
    }
}

/// The block whose commit is open after the event, which left the blocks so.
fn committing(blocks: &[State], event: &Event) -> Option<u32>
    ensures { result ≡ committing_after blocks.now event.now }
{
    match event {
        Event::Local { task, .. } if turn_of(blocks, *task).is_some() => Some(*task),
        _ => None,
    }
}
