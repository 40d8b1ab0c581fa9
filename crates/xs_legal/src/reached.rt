//! What an event does to other blocks than its own.

ghost use Rattle.std.specs.Prelude.{◌≡◌, map};
ghost use Rattle.xs_model.specs.Outer as outers;
ghost use Rattle.xs_model.specs.Outer.{continued, freed, is_held, woken};

use crate::state::State;
use xs_model::Stage;

impl State {
    /// The block is ready, if it waits for block `t`.
    pub fn wake(&mut self, t: u32)
        ensures { self.new ≡ woken t self.old }
    {
        match self.stage() {
            Stage::Waiting { child } if child == t => self.set_stage(Stage::Ready),
            _ => {}
        }
    }

    /// The block is ready, if it is stopped.
    pub fn resume(&mut self)
        ensures { self.new ≡ continued self.old }
    {
        if self.is_stopped() {
            self.set_stage(Stage::Ready);
        }
    }

    /// Block `t` has ended: the block waits for it no more, and goes on, if it is stopped and a child of `t`.
    pub fn free(&mut self, t: u32)
        ensures { self.new ≡ freed t self.old }
    {
        self.wake(t);
        if self.parent() == Some(t) {
            self.resume();
        }
    }
}

/// Whoever waits for block `t` is ready.
pub fn wake_all(blocks: &mut [State], t: u32)
    ensures { blocks.new ≡ map (woken t) blocks.old }
{
    'each: for block in blocks.iter_mut() {
        block.wake(t);
    }
}

/// Block `t` has ended: whoever waits for it is ready, and so are its stopped children.
pub fn free_all(blocks: &mut [State], t: u32)
    ensures { blocks.new ≡ map (freed t) blocks.old }
{
    'each: for block in blocks.iter_mut() {
        block.free(t);
    }
}
