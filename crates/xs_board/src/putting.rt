//! A task that comes back to the board.

ghost use Rattle.std.specs.Prelude.{◌≡◌, ◌+◌, ◌-◌, ◌<◌, ◌≤◌, ◌^◌, ◌++◌, length, false, true, IfSome};
ghost use Rattle.std.specs.VecDeque.{deque_capacity};
ghost use Rattle.xs_base.specs.KernelArea.{class_size};
ghost use Rattle.xs_pool.specs.Pool.{stock_of};
ghost use Rattle.xs_board.specs.Member.{child_if, member_at, released};
ghost use Rattle.xs_board.specs.Putting as closes;
ghost use Rattle.xs_board.specs.Putting.{AreLeft, AreReleased, Where, children_in, freed_in, home_after, living_after, members_ended, moved_on, pool_after, pool_without, ready_after, self_ready};

use crate::doing::wake_parent;
use crate::member::{Life, Member};
use crate::turn::Close;
use std::collections::VecDeque;
use xs_area::Lease;
use xs_model::Why;
use xs_pool::AreaPool;
use xs_task::Task;

/// Puts the task of a turn back by the turn's close, and by why a line that trapped kills it, if it does. Where it has ended its area goes to the pool, it is dropped with its pending
/// signals, its parent is ready if it waits for it, and then its stopped children in the order of their blocks. Else it is home,
/// and the last of the ready list if it goes on. Takes no memory.
pub fn put_back(
    tasks: &mut Vec<Option<Task>>,
    ready: &mut VecDeque<u32>,
    living: &mut u32,
    members: &mut Vec<Member>,
    pool: &mut AreaPool,
    task: Task,
    close: Close,
    fate: Option<Why>,
)
    requires lives { Where (closes.ends close fate) (0 < living.old) }
    requires out { Where (closes.ends close fate) (IfSome task.lease (λ lease. (stock_of pool.old lease.class).out ≡ 0 → ⊥)) }
    requires len { Where (closes.ends close fate) (IfSome task.lease (λ lease. length lease.area.bytes.items ≡ class_size pool.old.rows lease.class)) }
    requires member { task.name < length members.old.items }
    requires known { task.name < length tasks.old.items }
    requires few { length members.old.items < 2 ^ 32 }
    requires room { length ready.old.items + length (ready_after (closes.ends close fate) task.name members.old.items) ≤ deque_capacity ready.old }
    requires place { Where (closes.moves_on close (member_at members.old.items task.name).life) (task.place + 1 < 2 ^ 32) }
    ensures home { tasks.new.items ≡ home_after (closes.ends close fate) (moved_on (closes.moves_on close (member_at members.old.items task.name).life) task) tasks.old.items }
    ensures ready { ready.new.items ≡ ready.old.items ++ ready_after (closes.ends close fate) task.name members.old.items }
    ensures capacity { deque_capacity ready.new ≡ deque_capacity ready.old }
    ensures living { living.new ≡ living_after (closes.ends close fate) living.old }
    ensures members { AreLeft (closes.ends close fate) task.name members.old.items members.new.items }
    ensures each { length members.new.items ≡ length members.old.items }
    ensures pool { pool.new ≡ pool_after (closes.ends close fate) task.lease pool.old }
{
    if ends(close, fate) {
        *living -= 1;
        free_others(ready, members, task.name);
        let Task { lease, .. } = task;
        give_back(pool, lease);
    } else {
        let life = members[task.name as usize].life();
        keep(tasks, ready, task, close, life);
    }
}

/// Whether the task ends with its turn.
fn ends(close: Close, fate: Option<Why>) -> bool
    ensures { result ≡ closes.ends close fate }
{
    match close {
        Close::Quantum | Close::Yield | Close::Outer(_) => false,
        Close::Refused(_) | Close::End => true,
        Close::Trap => fate.is_some(),
    }
}

/// The task is home, behind the outer line that closed its turn unless it waits there, and ready if it goes on.
fn keep(
    tasks: &mut Vec<Option<Task>>,
    ready: &mut VecDeque<u32>,
    task: Task,
    close: Close,
    life: Life,
)
    requires known { task.name < length tasks.old.items }
    requires room { length ready.old.items + length (self_ready task.name life) ≤ deque_capacity ready.old }
    requires place { Where (closes.moves_on close life) (task.place + 1 < 2 ^ 32) }
    ensures home { tasks.new.items ≡ home_after false (moved_on (closes.moves_on close life) task) tasks.old.items }
    ensures ready { ready.new.items ≡ ready.old.items ++ self_ready task.name life }
    ensures capacity { deque_capacity ready.new ≡ deque_capacity ready.old }
{
    let name = task.name;
    let mut task = task;
    if moves_on(close, life) {
        task.place += 1;
    }
    tasks[name as usize] = Some(task);
    if let Life::Going = life {
        ready.push_back_reserved(name);
    }
}

/// Whether a task goes behind the line with which its turn closes.
fn moves_on(close: Close, life: Life) -> bool
    ensures { result ≡ closes.moves_on close life }
{
    matches!(close, Close::Outer(_)) && !matches!(life, Life::Waiting(_))
}

/// The block has ended: the parent that waits for it is ready, and then its stopped children in the order of their blocks.
fn free_others(ready: &mut VecDeque<u32>, members: &mut Vec<Member>, name: u32)
    requires known { name < length members.old.items }
    requires few { length members.old.items < 2 ^ 32 }
    requires room { length ready.old.items + length (freed_in name members.old.items) ≤ deque_capacity ready.old }
    ensures ready { ready.new.items ≡ ready.old.items ++ freed_in name members.old.items }
    ensures capacity { deque_capacity ready.new ≡ deque_capacity ready.old }
    ensures members { AreReleased name (members_ended name members.old.items) members.new.items }
    ensures each { length members.new.items ≡ length members.old.items }
{
    wake_parent(members, ready, name);
    members[name as usize].end();
    free_children(members, ready, name);
}

/// The stopped children of the block go on, and are ready in the order of their blocks.
fn free_children(members: &mut Vec<Member>, ready: &mut VecDeque<u32>, parent: u32)
    requires few { length members.old.items < 2 ^ 32 }
    requires room { length ready.old.items + length (children_in parent 0 members.old.items) ≤ deque_capacity ready.old }
    ensures ready { ready.new.items ≡ ready.old.items ++ children_in parent 0 members.old.items }
    ensures capacity { deque_capacity ready.new ≡ deque_capacity ready.old }
    ensures members { AreReleased parent members.old.items members.new.items }
    ensures each { length members.new.items ≡ length members.old.items }
{
    'each: for number in 0..members.len() {
        free_child(&mut members[number], ready, parent, number as u32);
    }
}

/// A block of this number goes on and is ready, if it is stopped and a child of the parent.
fn free_child(member: &mut Member, ready: &mut VecDeque<u32>, parent: u32, number: u32)
    requires room { length ready.old.items + length (child_if parent number member.old) ≤ deque_capacity ready.old }
    ensures ready { ready.new.items ≡ ready.old.items ++ child_if parent number member.old }
    ensures capacity { deque_capacity ready.new ≡ deque_capacity ready.old }
    ensures member { member.new ≡ released parent member.old }
{
    if member.is_stopped_child(parent) {
        member.set_life(Life::Going);
        ready.push_back_reserved(number);
    }
}

/// Gives the area of a task back, where it has one.
fn give_back(pool: &mut AreaPool, lease: Option<Lease>)
    requires out { IfSome lease (λ lease. (stock_of pool.old lease.class).out ≡ 0 → ⊥) }
    requires len { IfSome lease (λ lease. length lease.area.bytes.items ≡ class_size pool.old.rows lease.class) }
    ensures { pool.new ≡ pool_without lease pool.old }
{
    if let Some(lease) = lease {
        pool.give_back(lease);
    }
}
