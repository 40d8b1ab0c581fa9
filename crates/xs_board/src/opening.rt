//! What a board has before its first event.

ghost use Rattle.std.specs.Prelude.{◌≡◌, true, map, ◌+◌, ◌-◌, ◌<◌, ◌≤◌, ◌^◌, ◌++◌, length, IfOk, OnOk, Some, None};
ghost use Rattle.std.specs.VecDeque.{deque_capacity};
ghost use Rattle.xs_base.specs.Task.{root_task};
ghost use Rattle.xs_model.specs.Script.{is_user_kind};
ghost use Rattle.xs_pool.specs.Pool.{leased};
ghost use Rattle.xs_board.specs.Home.{IsUserHome, IsThreadHome};
ghost use Rattle.xs_model.specs.State.{opening_stage};
ghost use Rattle.xs_board.specs.Member.{life_of};
ghost use Rattle.xs_board.specs.Opening.{first_member, one_user, users_in, born_if, born_from, IsFirstTask, AreFirst, pool_first};
ghost use Rattle.xs_base.specs.declared.class.Class.TheVariants as classes;

use crate::member::{Life, Member};
use std::alloc::{AllocError, Global};
use std::collections::VecDeque;
use xs_area::Class;
use xs_base::START_PKRU;
use xs_layout::Layout;
use xs_model::{Block, BlockKind};
use xs_pool::AreaPool;
use xs_task::Task;

/// How many of the blocks are user tasks.
pub fn users(blocks: &[Block]) -> u32
    requires { length blocks.now ≤ 64 }
    ensures { result ≡ users_in blocks.now }
{
    let mut users: u32 = 0;
    'each: for block in blocks {
        users += one_if_user(block.kind);
    }
    users
}

/// 1 for a user task.
fn one_if_user(kind: BlockKind) -> u32
    ensures { result ≡ one_user kind }
{
    match kind {
        BlockKind::Kthread => 0,
        _ => 1,
    }
}

/// The numbers of the blocks that are born before the first event, in a queue that has room for those of all blocks.
pub fn born_blocks(alloc: Global, blocks: &[Block]) -> Result<VecDeque<u32>, AllocError>
    requires { length blocks.now ≤ 64 }
    ensures born { IfOk result (λ born. born.items ≡ born_from 0 blocks.now) }
    ensures room { IfOk result (λ born. length blocks.now ≤ deque_capacity born) }
{
    let mut born = VecDeque::with_capacity(alloc, blocks.len())?;
    let mut number: u32 = 0;
    'each: for block in blocks {
        add_born(&mut born, block.kind, number);
        number += 1;
    }
    Ok(born)
}

/// Adds the number of a block, if the block is born before the first event.
fn add_born(born: &mut VecDeque<u32>, kind: BlockKind, number: u32)
    requires room { length born.old.items < deque_capacity born.old }
    ensures born { born.new.items ≡ born.old.items ++ born_if kind number }
    ensures capacity { deque_capacity born.new ≡ deque_capacity born.old }
{
    match kind {
        BlockKind::Child => {}
        _ => born.push_back_reserved(number),
    }
}

/// What is kept of each block beside its task before the first event.
pub fn first_members(alloc: Global, blocks: &[Block]) -> Result<Vec<Member>, AllocError>
    ensures { IfOk result (λ members. members.items ≡ map first_member blocks.now) }
{
    let mut members = Vec::with_capacity(alloc, blocks.len())?;
    'each: for block in blocks {
        members.push_reserved(Member::new(alloc, first_life(block.kind))?);
    }
    Ok(members)
}

/// What a block does before the first event: a child isn't born.
fn first_life(kind: BlockKind) -> Life
    ensures { result ≡ life_of (opening_stage kind) }
{
    match kind {
        BlockKind::Child => Life::Unborn,
        _ => Life::Going,
    }
}

/// The task of each block before the first event, the areas from a pool that gave none yet and has one for each user task.
pub fn first_tasks(
    alloc: Global,
    layout: &Layout,
    blocks: &[Block],
    pool: &mut AreaPool,
) -> Result<Vec<Option<Task>>, AllocError>
    requires few { length blocks.now ≤ 64 }
    requires rows { pool.old.rows ≡ layout.now }
    requires out { pool.old.small.out ≡ 0 }
    requires given { pool.old.given ≡ 0 }
    requires enough { users_in blocks.now ≤ pool.old.small.capacity }
    ensures count { IfOk result (λ tasks. length tasks.items ≡ length blocks.now) }
    ensures first { IfOk result (λ tasks. AreFirst layout.now blocks.now (length blocks.now) tasks.items) }
    ensures rows { pool.new.rows ≡ pool.old.rows }
    ensures out { OnOk result (pool.new.small.out ≡ users_in blocks.now) }
    ensures large { OnOk result (pool.new.large ≡ pool.old.large) }
    ensures given { OnOk result (pool.new.given ≡ users_in blocks.now) }
{
    let mut tasks = Vec::with_capacity(alloc, blocks.len())?;
    'each: for block in blocks {
        let task = first_task(alloc, layout, block.kind, pool, tasks.len() as u32)?;
        tasks.push_reserved(Some(task));
    }
    Ok(tasks)
}

/// The task of a block of this kind before the first event, with an area of the pool where it is a user task.
fn first_task(
    alloc: Global,
    layout: &Layout,
    kind: BlockKind,
    pool: &mut AreaPool,
    name: u32,
) -> Result<Task, AllocError>
    requires rows { pool.old.rows ≡ layout.now }
    requires some { is_user_kind kind ≡ true → pool.old.small.out < pool.old.small.capacity }
    requires few { pool.old.given < 2 ^ 64 - 1 }
    ensures first { IfOk result (IsFirstTask layout.now kind name) }
    ensures rows { pool.new.rows ≡ pool.old.rows }
    ensures pool { OnOk result (pool.new ≡ pool_first kind pool.old) }
{
    match kind {
        BlockKind::Kthread => Ok(thread(alloc, layout, name)),
        _ => user_task(alloc, layout, pool, name),
    }
}

/// A user task before its first turn, with a Small area of the pool, which has one left.
pub fn user_task(
    alloc: Global,
    layout: &Layout,
    pool: &mut AreaPool,
    name: u32,
) -> Result<Task, AllocError>
    requires rows { pool.old.rows ≡ layout.now }
    requires some { pool.old.small.out < pool.old.small.capacity }
    requires few { pool.old.given < 2 ^ 64 - 1 }
    ensures name { IfOk result (λ task. task.name ≡ name) }
    ensures home { IfOk result (λ task. IsUserHome layout.now task (root_task layout.now)) }
    ensures last { IfOk result (λ task. task.last ≡ None) }
    ensures rows { pool.new.rows ≡ pool.old.rows }
    ensures pool { IfOk result (λ task. pool.new ≡ leased pool.old classes.Small) }
{
    let mut task = Task::open(alloc, name)?;
    let Ok(lease) = pool.lease(Class::Small) else {
        unreachable!()
    };
    task.born(layout, lease);
    Ok(task)
}

/// A kernel thread's record before its first turn. It takes no memory.
#[tactic(auto, unfolding(xs_base::specs::Task::root_task))]
pub fn thread(alloc: Global, layout: &Layout, name: u32) -> Task
    ensures name { result.name ≡ name }
    ensures home { IsThreadHome result (root_task layout.now) }
{
    let _ = layout;
    Task {
        name,
        lease: None,
        last: None,
        need_load: true,
        pkru: START_PKRU,
        permitted: false,
        frame: Vec::new(alloc),
        buffer: Vec::new(alloc),
        handling: false,
        place: 0,
        back: 0,
    }
}
