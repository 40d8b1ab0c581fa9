//! The growth of a task's area, made many times. Two tasks with other registers get the one area with room for tiles in turn, and a
//! byte of it goes into a sum, so that no compiler leaves a call out.

ghost use Rattle.std.specs.Prelude.{◌≡◌, true, IfOk, IfSome};
ghost use Rattle.xs_area.specs.declared.area.Lease.{Lease};
ghost use Rattle.xs_base.specs.declared.class.Class.{Class};
ghost use Rattle.xs_task.specs.TaskArea.{IsTask, IsTaskArea};

use crate::inputs::Inputs;
use crate::repeats::{change, next_sum};
use crate::signals::task_with;
use std::alloc::{AllocError, Global};
use xs_area::{Class, Lease};
use xs_base::{Features, Set, put_number};
use xs_layout::Layout;
use xs_regset::set;
use xs_task::Task;
use xs_tile::grow;

/// How many bytes of an area are looked at in turn.
const LOOKED_AT: u64 = 8192;

/// Makes an area grow so many times over the machine `amx`, with every register in use that a Small area has, and answers the sum;
/// None where a task doesn't take these registers.
pub fn repeat_grow(alloc: Global, turns: u64) -> Result<Option<u64>, AllocError> {
    let mut inputs = Inputs::new(alloc)?;
    let layout = inputs.layout;
    let image = inputs.image.as_mut_slice();
    let Some(mut first) = small_task(alloc, &layout, image, 3)? else {
        return Ok(None);
    };
    let Some(mut second) = small_task(alloc, &layout, image, 0x0500)? else {
        return Ok(None);
    };
    let Some(mut large) = task_with(alloc, &layout, Class::Large)? else {
        return Ok(None);
    };
    let Some(area) = large.lease.take() else {
        return Ok(None);
    };
    match area.class {
        Class::Large => Ok(grow_in_turn(&layout, &mut first, &mut second, area, turns)),
        Class::Small => Ok(None),
    }
}

/// A task with a Small area that has the registers of the image but for the tiles' data, with this number in XMM0.
fn small_task(
    alloc: Global,
    layout: &Layout,
    image: &mut [u8],
    number: u64,
) -> Result<Option<Task>, AllocError>
    ensures { IfOk result (λ task. IfSome task (IsTask layout.now)) }
{
    let Some(mut task) = task_with(alloc, layout, Class::Small)? else {
        return Ok(None);
    };
    if image.len() < 8192 {
        return Ok(None);
    }
    change(image, number);
    put_number(image, 512, layout.default_features().0);
    match set(layout, &mut task, Set::Xstate, image) {
        Ok(()) => Ok(Some(task)),
        Err(_) => Ok(None),
    }
}

/// The growths of `repeat_grow`: of the first task in the even turns, and of the second in the odd ones.
fn grow_in_turn(
    layout: &Layout,
    first: &mut Task,
    second: &mut Task,
    area: Lease,
    turns: u64,
) -> Option<u64>
    requires first { IsTask layout.now first.old }
    requires second { IsTask layout.now second.old }
    requires area { IsTaskArea layout.now area }
    requires class { area.class ≡ Class.Large }
{
    let mut area = area;
    let mut sum = 0;
    'turns: for turn in 0..turns {
        area = grow_one(layout, first, second, area, turn)?;
        sum = next_sum(sum, &area.area.bytes, (turn % LOOKED_AT) as usize);
    }
    Some(sum)
}

/// The growth of one of two tasks, by the turn. The task gives the area with room for tiles back.
fn grow_one(
    layout: &Layout,
    first: &mut Task,
    second: &mut Task,
    area: Lease,
    turn: u64,
) -> Option<Lease>
    requires first { IsTask layout.now first.old }
    requires second { IsTask layout.now second.old }
    requires area { IsTaskArea layout.now area }
    requires class { area.class ≡ Class.Large }
    ensures first { IsTask layout.now first.new }
    ensures second { IsTask layout.now second.new }
    ensures area { IfSome result (IsTaskArea layout.now) }
    ensures class { IfSome result (λ area. area.class ≡ Class.Large) }
{
    if turn % 2 == 0 {
        grow_and_back(layout, first, area)
    } else {
        grow_and_back(layout, second, area)
    }
}

/// The growth of a task, which then gets its old area back.
fn grow_and_back(layout: &Layout, task: &mut Task, area: Lease) -> Option<Lease>
    requires task { IsTask layout.now task.old }
    requires area { IsTaskArea layout.now area }
    requires class { area.class ≡ Class.Large }
    ensures task { IsTask layout.now task.new }
    ensures area { IfSome result (IsTaskArea layout.now) }
    ensures class { IfSome result (λ area. area.class ≡ Class.Large) }
{
    let old = grow(layout, task, area);
    let large = task.lease.take();
    task.lease = Some(old);
    large
}
