//! The Xstate set of a stopped task, read and written many times. Each turn changes PKRU of the task that is read, or eight bytes of
//! the set that is written, and takes a byte of the set or of the task's area into a sum, so that no compiler leaves a call out.

ghost use Rattle.std.specs.Prelude.{◌≡◌, ◌≤◌, length, true};
ghost use Rattle.xs_base.specs.Task.{buffer_length};
ghost use Rattle.xs_task.specs.TaskArea.{IsTask};

use crate::inputs::Inputs;
use crate::repeats::{change, next_sum, sum_with};
use crate::signals::task_with;
use std::alloc::{AllocError, Global};
use xs_area::Class;
use xs_base::Set;
use xs_layout::Layout;
use xs_regset::{get, set};
use xs_task::Task;

/// How many bytes of an area are looked at in turn.
const LOOKED_AT: u64 = 8192;

/// How many bytes a task's buffer has, from which a set is read and to which it is written.
const BUFFER: usize = 16384;

/// Gives a task the set of every component of the machine `amx` so many times, and answers the sum; None where the set is refused.
pub fn repeat_set(alloc: Global, turns: u64) -> Result<Option<u64>, AllocError> {
    let mut inputs = Inputs::new(alloc)?;
    let Some(mut task) = task_with(alloc, &inputs.layout, Class::Large)? else {
        return Ok(None);
    };
    let image = inputs.image.as_mut_slice();
    Ok(set_in_turn(&inputs.layout, &mut task, image, turns))
}

/// Reads the set of a task that has every component of the machine `amx` in use so many times, and answers the sum; None where the
/// task doesn't take these registers.
pub fn repeat_get(alloc: Global, turns: u64) -> Result<Option<u64>, AllocError> {
    let inputs = Inputs::new(alloc)?;
    let Some(mut task) = task_with(alloc, &inputs.layout, Class::Large)? else {
        return Ok(None);
    };
    let Ok(()) = set(&inputs.layout, &mut task, Set::Xstate, &inputs.image) else {
        return Ok(None);
    };
    let mut out = vec![in alloc; 0u8; BUFFER]?;
    Ok(Some(get_in_turn(&inputs.layout, &mut task, &mut out, turns)))
}

/// The sets of `repeat_set`.
fn set_in_turn(layout: &Layout, task: &mut Task, image: &mut [u8], turns: u64) -> Option<u64>
    requires task { IsTask layout.now task.old }
    requires need_load { task.old.need_load ≡ true }
{
    if image.len() < 8192 {
        return None;
    }
    let mut sum = 0;
    'turns: for turn in 0..turns {
        change(image, turn);
        set(layout, task, Set::Xstate, image).ok()?;
        let area = task.lease.as_ref()?;
        sum = next_sum(sum, &area.area.bytes, (turn % LOOKED_AT) as usize);
    }
    Some(sum)
}

/// The reads of `repeat_get`.
fn get_in_turn(layout: &Layout, task: &mut Task, out: &mut [u8], turns: u64) -> u64
    requires task { IsTask layout.now task.old }
    requires need_load { task.old.need_load ≡ true }
    requires room { length out.old ≡ buffer_length }
{
    let mut sum = 0;
    'turns: for turn in 0..turns {
        task.pkru = (turn % LOOKED_AT) as u32;
        get(layout, task, Set::Xstate, out);
        sum = sum_with(sum, out, turn);
    }
    sum
}
