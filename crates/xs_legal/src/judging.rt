//! Whether an event is a step.

ghost use Rattle.std.specs.Prelude.{◌≡◌, true, length, MatchResult};
ghost use Rattle.std.specs.List.{AllByRecursion};
ghost use Rattle.xs_base.specs.Task.{IsPrivateTask};
ghost use Rattle.xs_model.specs.Machine as machines;
ghost use Rattle.xs_model.specs.Machine.{IsStep};
ghost use Rattle.xs_model.specs.Script.{IsValid};
ghost use Rattle.xs_model.specs.State as states;
ghost use Rattle.xs_model.specs.State.{Machine};
ghost use Rattle.xs_legal.specs.Wrong.{IsWrong};
ghost use Rattle.xs_legal.specs.Difference.{IsKnown};

use crate::difference::compare;
use crate::due::due;
use crate::parts::task_of;
use crate::start::start_due;
use crate::state::State;
use crate::wrong::Wrong;
use xs_model::{Event, Script};

/// Whether the event is a step of the machine with this script and these blocks, and else what is wrong with it. `committing` is the
/// block whose commit is open; whether a bank still holds a user task's registers at its Start the caller knows.
pub fn judge(
    script: &Script,
    blocks: &[State],
    committing: Option<u32>,
    is_held: bool,
    event: &Event,
) -> Result<(), Wrong>
    requires script { IsValid script.now }
    requires count { length blocks.now ≡ length script.now.blocks }
    requires valid { AllByRecursion (λ (block : states.BlockState). IsPrivateTask script.now.layout block.task) blocks.now }
    ensures { (m : Machine) → m.script ≡ script.now → m.blocks ≡ blocks.now → m.committing ≡ committing → IsKnown m event.now is_held → MatchResult result (λ _. IsStep m event.now) (λ wrong. IsWrong m event.now wrong) }
{
    if !may_act(committing, task_of(event)) {
        return Err(Wrong::NotNow);
    }
    match foreseen(script, blocks, is_held, event) {
        Some(right) => compare(&right, event),
        None => Err(Wrong::NotNow),
    }
}

/// Whether block `t` may act while this block's commit is open, if one is.
fn may_act(committing: Option<u32>, t: u32) -> bool
    ensures { result ≡ machines.may_act committing t }
{
    match committing {
        Some(number) => number == t,
        None => true,
    }
}

/// The event of this kind that may come from this block.
fn foreseen(script: &Script, blocks: &[State], is_held: bool, event: &Event) -> Option<Event>
    requires script { IsValid script.now }
    requires count { length blocks.now ≡ length script.now.blocks }
    requires valid { AllByRecursion (λ (block : states.BlockState). IsPrivateTask script.now.layout block.task) blocks.now }
    ensures { (m : Machine) → m.script ≡ script.now → m.blocks ≡ blocks.now → IsKnown m event.now is_held → result ≡ machines.foreseen m event.now }
{
    match event {
        Event::Start { task, cpu, .. } => start_due(script, blocks, *task, *cpu, is_held),
        _ => due(script, blocks, task_of(event)),
    }
}
