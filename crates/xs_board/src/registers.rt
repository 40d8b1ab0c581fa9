//! Lines that read and write the registers of a stopped child.

ghost use Rattle.std.specs.Prelude.{◌≡◌, ◌<◌, ◌≤◌, ◌^◌, length, take, true, Some};
ghost use Rattle.xs_base.specs.Task.{buffer_length};
ghost use Rattle.xs_model.specs.declared.event.Reply.TheVariants as replies;
ghost use Rattle.xs_model.specs.Line.{errno_number};
ghost use Rattle.xs_model.specs.Outer.{no_block};
ghost use Rattle.xs_task.specs.declared.task.Task as types;
ghost use Rattle.xs_task.specs.TaskArea.{IsTask};
ghost use Rattle.xs_board.specs.Deed.{HasRead, HasWritten, IfStopped, IsReached, WasWritten};
ghost use Rattle.xs_board.specs.Member.{is_stopped_life, member_at};

use crate::doing::no_such_block;
use crate::member::Member;
use xs_base::{Errno, Set};
use xs_layout::Layout;
use xs_model::Reply;
use xs_regset::{errno, get, set};
use xs_task::Task;

/// Reads a register set of the target, which is stopped, to the front of the task's buffer. Answers how many bytes it has, or no
/// such process where the target has ended.
pub fn get_registers(
    layout: &Layout,
    tasks: &[Option<Task>],
    members: &[Member],
    task: &mut Task,
    target: u32,
    which: Set,
) -> Reply
    requires known { (target < length members.now) × (target < length tasks.now) }
    requires buffer { length task.old.buffer.items ≡ buffer_length }
    requires reached { is_stopped_life (member_at members.now target).life ≡ true → IsReached layout.now tasks.now target }
    ensures { IfStopped (is_stopped_life (member_at members.now target).life) (HasRead layout.now which target tasks.now result task.old task.new) ((result ≡ no_block) × (task.new ≡ task.old)) }
{
    if !members[target as usize].is_stopped() {
        return no_such_block();
    }
    let Some(child) = &tasks[target as usize] else {
        unreachable!()
    };
    Reply::Count(get(layout, child, which, &mut task.buffer))
}

/// Writes a register set of the target, which is stopped, from the first bytes of a buffer. Answers how many they are or why they
/// are refused, or no such process where the target has ended.
pub fn put_registers(
    layout: &Layout,
    tasks: &mut Vec<Option<Task>>,
    members: &[Member],
    buffer: &[u8],
    target: u32,
    which: Set,
    count: u32,
) -> Reply
    requires known { (target < length members.now) × (target < length tasks.old.items) }
    requires within { count ≤ length buffer.now }
    requires reached { is_stopped_life (member_at members.now target).life ≡ true → IsReached layout.now tasks.old.items target }
    ensures { IfStopped (is_stopped_life (member_at members.now target).life) (HasWritten layout.now which count (take count buffer.now) target result tasks.old.items tasks.new.items) ((result ≡ no_block) × (tasks.new.items ≡ tasks.old.items)) }
{
    if !members[target as usize].is_stopped() {
        return no_such_block();
    }
    put_set(
        layout,
        &mut tasks[target as usize],
        which,
        &buffer[..count as usize],
    )
}

/// Gives the task in this slot the registers of the bytes. Answers how many they are, or why they are refused.
fn put_set(layout: &Layout, slot: &mut Option<Task>, which: Set, bytes: &[u8]) -> Reply
    requires task { (task : types.Task) × (slot.old ≡ Some task) × IsTask layout.now task × (task.need_load ≡ true) }
    requires few { length bytes.now < 2 ^ 32 }
    ensures { (before : types.Task) → slot.old ≡ Some before → (after : types.Task) × (slot.new ≡ Some after) × WasWritten layout.now which (length bytes.now) bytes.now result before after }
{
    let Some(task) = slot else { unreachable!() };
    match set(layout, task, which, bytes) {
        Ok(()) => Reply::Count(bytes.len() as u32),
        Err(error) => refuse(errno(error)),
    }
}

/// The error's number.
fn refuse(error: Errno) -> Reply
    ensures { result ≡ replies.Error (errno_number error) }
{
    Reply::Error(error as u32)
}
