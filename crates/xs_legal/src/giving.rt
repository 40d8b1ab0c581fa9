//! What one block takes of another.

ghost use Rattle.std.specs.Prelude.{◌≡◌, ◌<◌, List, [], Some, length, slice_get, slice_set};
ghost use Rattle.xs_base.specs.declared.component.Row.{Row};
ghost use Rattle.xs_base.specs.Task.{IsPrivateTask, child_of};
ghost use Rattle.xs_legal.specs.Gift.{ArePair, CanGive, given};
ghost use Rattle.xs_model.specs.declared.stage.Stage.TheVariants.{Ready};
ghost use Rattle.xs_model.specs.State as states;

use crate::state::State;
use xs_base::Set;
use xs_model::Stage;
use xs_private::Private;

/// What a block gives another.
#[derive(Clone, Copy)]
pub enum Gift {
    /// Its registers, to a child that it bears.
    Birth { parent: u32 },
    /// A register set, to the front of its tracer's buffer.
    Registers { set: Set },
    /// The first bytes of its buffer, as a register set.
    Bytes { set: Set, count: u32 },
}

/// Gives block `to` what it takes of block `from`.
pub fn pass(blocks: &mut [State], gift: Gift, from: u32, to: u32)
    requires { ArePair gift blocks.old from to }
    ensures { (giver taker : states.BlockState) → slice_get blocks.old from ≡ Some giver → slice_get blocks.old to ≡ Some taker → blocks.new ≡ slice_set blocks.old to (given gift giver taker) }
{
    let from = from as usize;
    let to = to as usize;
    if from < to {
        let (front, back) = blocks.split_at_mut(to);
        give(gift, &front[from], &mut back[0]);
    } else {
        let (front, back) = blocks.split_at_mut(from);
        give(gift, &back[0], &mut front[to]);
    }
}

/// Gives one block what it takes of another.
fn give(gift: Gift, giver: &State, taker: &mut State)
    requires valid { (rows : List Row) × IsPrivateTask rows giver.now.task × IsPrivateTask rows taker.old.task }
    requires can { CanGive gift giver.now taker.old }
    ensures { taker.new ≡ given gift giver.now taker.old }
{
    match gift {
        Gift::Birth { parent } => taker.bear(parent, &giver.task),
        Gift::Registers { set } => giver.task.read_set(set, &mut taker.task),
        Gift::Bytes { set, count } => taker.task.write_set(set, count, &giver.task),
    }
}

impl State {
    /// The block is born of this one.
    fn bear(&mut self, parent: u32, task: &Private)
        requires valid { (rows : List Row) × IsPrivateTask rows self.old.task × IsPrivateTask rows task.now }
        ensures { self.new ≡ record { stage = Ready; task = child_of task.now; parent = Some parent; pending = [] } }
    {
        self.task.bear(task);
        self.parent = Some(parent);
        self.drop_all();
        self.set_stage(Stage::Ready);
    }
}
