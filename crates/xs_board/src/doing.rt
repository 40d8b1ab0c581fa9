//! The deed with which a turn closes.

ghost use Rattle.std.specs.Prelude.{◌≡◌, ◌+◌, ◌<◌, ◌≤◌, ◌^◌, ◌++◌, [], ◌∷◌, length, slice_set, IfSome, Some, if◌then◌else◌};
ghost use Rattle.std.specs.VecDeque.{deque_capacity};
ghost use Rattle.xs_model.specs.declared.event.Reply.TheVariants as replies;
ghost use Rattle.xs_model.specs.Outer.{no_block};
ghost use Rattle.xs_task.specs.declared.task.Task as types;
ghost use Rattle.xs_task.specs.TaskArea.{IsTask};
ghost use Rattle.xs_board.specs.declared.deed.Deed.TheVariants as deeds;
ghost use Rattle.xs_board.specs.Birth.{BecameChild, CanBeBorn};
ghost use Rattle.xs_board.specs.Deed.{CanDo, HasBorn, IfDeed, IsDoneBy, blocks_at, is_traced, living_born, members_by, members_done, named_in, newborn, ready_by, ready_done, task_home, wait_answer};
ghost use Rattle.xs_board.specs.declared.member.Life.TheVariants as lives;
ghost use Rattle.xs_board.specs.Member.{is_alive, is_stopped_life, lives_at, listed, member_at, received, waiter_in, with_going, with_life};

use crate::deed::Deed;
use crate::member::{Life, Member};
use crate::registers::{get_registers, put_registers};
use std::collections::VecDeque;
use xs_base::{Errno, Signo};
use xs_layout::Layout;
use xs_model::Reply;
use xs_task::{Task, inherit};

/// Does what the line with which the turn of this task closes does beside it, and answers what the line answers. Without a deed it
/// does nothing.
pub fn perform(
    layout: &Layout,
    tasks: &mut Vec<Option<Task>>,
    members: &mut Vec<Member>,
    ready: &mut VecDeque<u32>,
    living: &mut u32,
    task: &mut Task,
    deed: Option<Deed>,
) -> Reply
    requires can { IfDeed deed (CanDo layout.now tasks.old.items members.old.items task.old) }
    requires own { task.old.name < length members.old.items }
    requires named { IfDeed deed (λ deed. IfSome (named_in deed) (λ u. (u < length members.old.items) × (u < length tasks.old.items))) }
    requires room { length ready.old.items + length (ready_by task.old.name deed members.old.items) ≤ deque_capacity ready.old }
    requires few { living.old + 1 < 2 ^ 32 }
    ensures done { IsDoneBy layout.now members.old.items task.old.name deed result tasks.old.items tasks.new.items task.old task.new }
    ensures members { members.new.items ≡ members_by task.old.name deed members.old.items }
    ensures ready { ready.new.items ≡ ready.old.items ++ ready_by task.old.name deed members.old.items }
    ensures capacity { deque_capacity ready.new ≡ deque_capacity ready.old }
    ensures living { living.new ≡ living_born (newborn deed) living.old }
{
    let Some(deed) = deed else {
        return Reply::Done;
    };
    let name = task.name;
    match deed {
        Deed::Fork(child) => fork(layout, tasks, members, ready, living, task, child),
        Deed::Send { target, signo } => send(members, target, signo),
        Deed::Stop => stop(members, ready, name),
        Deed::Wait(child) => wait(members, name, child),
        Deed::Get { target, set } => {
            get_registers(
                layout,
                tasks.as_slice(),
                members.as_slice(),
                task,
                target,
                set,
            )
        }
        Deed::Put { target, set, count } => put_registers(
            layout,
            tasks,
            members.as_slice(),
            &task.buffer,
            target,
            set,
            count,
        ),
        Deed::Cont(child) => cont(members, ready, child),
    }
}

/// Makes the block the child of this task, which is ready then.
fn fork(
    layout: &Layout,
    tasks: &mut Vec<Option<Task>>,
    members: &mut Vec<Member>,
    ready: &mut VecDeque<u32>,
    living: &mut u32,
    parent: &Task,
    child: u32,
) -> Reply
    requires parent { IsTask layout.now parent.now }
    requires child { (before : types.Task) × (task_home tasks.old.items child ≡ Some before) × CanBeBorn layout.now before }
    requires known { child < length tasks.old.items }
    requires member { child < length members.old.items }
    requires room { length ready.old.items < deque_capacity ready.old }
    requires few { living.old + 1 < 2 ^ 32 }
    ensures reply { result ≡ replies.Done }
    ensures home { HasBorn layout.now parent.now child tasks.old.items tasks.new.items }
    ensures members { members.new.items ≡ members_done parent.now.name (deeds.Fork child) members.old.items }
    ensures ready { ready.new.items ≡ ready.old.items ++ ready_done parent.now.name (deeds.Fork child) members.old.items }
    ensures capacity { deque_capacity ready.new ≡ deque_capacity ready.old }
    ensures living { living.new ≡ living.old + 1 }
{
    bear(layout, &mut tasks[child as usize], parent);
    members[child as usize].bear(parent.name);
    ready.push_back_reserved(child);
    *living += 1;
    Reply::Done
}

/// Makes the task of an unborn block the child of one that was switched out.
fn bear(layout: &Layout, slot: &mut Option<Task>, parent: &Task)
    requires parent { IsTask layout.now parent.now }
    requires child { (before : types.Task) × (slot.old ≡ Some before) × CanBeBorn layout.now before }
    ensures { (before : types.Task) → slot.old ≡ Some before → (after : types.Task) × (slot.new ≡ Some after) × BecameChild layout.now parent.now before after }
{
    let Some(child) = slot else { unreachable!() };
    inherit(layout, parent, child);
}

/// Sends a signal to a block, which gets it if it lives. Answers 0, or no such process where it doesn't live.
fn send(members: &mut Vec<Member>, target: u32, signo: Signo) -> Reply
    requires known { target < length members.old.items }
    ensures members { members.new.items ≡ slice_set members.old.items target (received signo (member_at members.old.items target)) }
    ensures reply { result ≡ (if is_alive (member_at members.old.items target).life then replies.Count 0 else no_block) }
{
    if members[target as usize].receive(signo) {
        Reply::Count(0)
    } else {
        no_such_block()
    }
}

/// No such process: the block isn't born, or has ended.
pub fn no_such_block() -> Reply
    ensures { result ≡ no_block }
{
    Reply::Error(Errno::Srch as u32)
}

/// Holds the block, if its parent lives, which is ready then if it waits for the block.
fn stop(members: &mut Vec<Member>, ready: &mut VecDeque<u32>, name: u32) -> Reply
    requires known { name < length members.old.items }
    requires room { length ready.old.items + length (ready_done name deeds.Stop members.old.items) ≤ deque_capacity ready.old }
    ensures members { members.new.items ≡ members_done name deeds.Stop members.old.items }
    ensures ready { ready.new.items ≡ ready.old.items ++ ready_done name deeds.Stop members.old.items }
    ensures capacity { deque_capacity ready.new ≡ deque_capacity ready.old }
    ensures reply { result ≡ (if is_traced members.old.items name then replies.Held else replies.Done) }
{
    if !lives_there(members.as_slice(), members[name as usize].parent()) {
        return Reply::Done;
    }
    wake_parent(members, ready, name);
    members[name as usize].set_life(Life::Stopped);
    Reply::Held
}

/// Whether there is such a block and it lives.
fn lives_there(members: &[Member], block: Option<u32>) -> bool
    ensures { result ≡ lives_at members.now block }
{
    match block {
        Some(number) => match members.get(number as usize) {
            Some(member) => member.lives(),
            None => false,
        },
        None => false,
    }
}

/// The parent of the block is ready, if it waits for the block.
pub fn wake_parent(members: &mut Vec<Member>, ready: &mut VecDeque<u32>, name: u32)
    requires known { name < length members.old.items }
    requires room { length ready.old.items + length (listed (waiter_in members.old.items name)) ≤ deque_capacity ready.old }
    ensures members { members.new.items ≡ with_going (waiter_in members.old.items name) members.old.items }
    ensures ready { ready.new.items ≡ ready.old.items ++ listed (waiter_in members.old.items name) }
    ensures capacity { deque_capacity ready.new ≡ deque_capacity ready.old }
{
    if let Some(parent) = find_waiter(members.as_slice(), name) {
        members[parent as usize].set_life(Life::Going);
        ready.push_back_reserved(parent);
    }
}

/// The parent of the block, if it waits for the block.
fn find_waiter(members: &[Member], name: u32) -> Option<u32>
    requires known { name < length members.now }
    ensures waiter { result ≡ waiter_in members.now name }
    ensures within { IfSome result (λ parent. parent < length members.now) }
{
    let parent = members[name as usize].parent()?;
    if members.get(parent as usize)?.waits_for(name) {
        Some(parent)
    } else {
        None
    }
}

/// Answers what the child does; while it goes on, the block waits for it.
fn wait(members: &mut Vec<Member>, name: u32, child: u32) -> Reply
    requires own { name < length members.old.items }
    requires known { child < length members.old.items }
    ensures members { members.new.items ≡ members_done name (deeds.Wait child) members.old.items }
    ensures reply { result ≡ wait_answer name (member_at members.old.items child) }
{
    let reply = answer_wait(&members[child as usize], name);
    if let Reply::Blocked = reply {
        members[name as usize].set_life(Life::Waiting(child));
    }
    reply
}

/// What a wait of this block for a child answers.
fn answer_wait(child: &Member, name: u32) -> Reply
    ensures reply { result ≡ wait_answer name child.now }
{
    if child.parent() != Some(name) {
        return Reply::Ended;
    }
    match child.life() {
        Life::Going | Life::Waiting(_) => Reply::Blocked,
        Life::Stopped => Reply::Stopped,
        Life::Unborn | Life::Ended => Reply::Ended,
    }
}

/// Lets a stopped child go on, which is ready then. Answers 0, or no such process where it has ended.
fn cont(members: &mut Vec<Member>, ready: &mut VecDeque<u32>, child: u32) -> Reply
    requires known { child < length members.old.items }
    requires room { length ready.old.items + length (if is_stopped_life (member_at members.old.items child).life then child ∷ [] else []) ≤ deque_capacity ready.old }
    ensures members { members.new.items ≡ (if is_stopped_life (member_at members.old.items child).life then with_life child lives.Going members.old.items else members.old.items) }
    ensures ready { ready.new.items ≡ ready.old.items ++ (if is_stopped_life (member_at members.old.items child).life then child ∷ [] else []) }
    ensures capacity { deque_capacity ready.new ≡ deque_capacity ready.old }
    ensures reply { result ≡ (if is_stopped_life (member_at members.old.items child).life then replies.Count 0 else no_block) }
{
    if !members[child as usize].is_stopped() {
        return no_such_block();
    }
    members[child as usize].set_life(Life::Going);
    ready.push_back_reserved(child);
    Reply::Count(0)
}
