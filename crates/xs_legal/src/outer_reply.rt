//! What a line answers that reaches another block.

ghost use Rattle.std.specs.Prelude.{◌≡◌, ◌<◌, ◌≤◌, length, slice_get, if◌then◌else◌};
ghost use Rattle.std.specs.List.{AllByRecursion};
ghost use Rattle.xs_base.specs.Task.{IsPrivateTask, buffer_length};
ghost use Rattle.xs_model.specs.declared.event.Reply.TheVariants as replies;
ghost use Rattle.xs_model.specs.Outer as outers;
ghost use Rattle.xs_model.specs.Outer.{buffer_of, child_reply, get_reply, put_reply, no_block, parent_lives};
ghost use Rattle.xs_model.specs.Script.{IsCommand};
ghost use Rattle.xs_model.specs.State as states;
ghost use Rattle.xs_model.specs.State.{lives, parent_of, stage_at};

use crate::local_reply::count_or_error;
use crate::state::State;
use xs_base::{Errno, Set};
use xs_model::{Command, Reply, Script, Stage};

/// What an outer line of block `t` answers.
pub fn outer_reply(script: &Script, blocks: &[State], t: u32, command: &Command) -> Reply
    requires few { length script.now.blocks ≤ 64 }
    requires here { t < length blocks.now }
    requires valid { AllByRecursion (λ (block : states.BlockState). IsPrivateTask script.now.layout block.task) blocks.now }
    requires known { IsCommand script.now.layout command.now }
    ensures { result ≡ outers.outer_reply script.now blocks.now t command.now }
{
    match command {
        Command::Kill { name, .. } => kill_reply(blocks, script.block_named(name.as_slice())),
        Command::Stop => stop_reply(blocks, t),
        Command::Wait { name } => wait_reply(blocks, t, script.block_named(name.as_slice())),
        Command::Getregs { name, set } => {
            get_reply(blocks, script.block_named(name.as_slice()), *set)
        }
        Command::Setregs { name, set, count } => {
            let target = script.block_named(name.as_slice());
            put_reply(script, blocks, t, target, *set, *count)
        }
        Command::Cont { name } => cont_reply(blocks, script.block_named(name.as_slice())),
        _ => Reply::Done,
    }
}

/// Whether the block of this number was born and hasn't ended.
fn is_alive(blocks: &[State], target: u32) -> bool
    ensures { result ≡ lives (stage_at blocks.now target) }
{
    match blocks.get(target as usize) {
        Some(block) => block.lives(),
        None => false,
    }
}

/// What a signal to the block answers.
fn kill_reply(blocks: &[State], target: u32) -> Reply
    ensures { result ≡ (if lives (stage_at blocks.now target) then replies.Count 0 else no_block) }
{
    if is_alive(blocks, target) {
        Reply::Count(0)
    } else {
        no_such_block()
    }
}

/// What a stop of block `t` answers: it is held where its parent lives.
fn stop_reply(blocks: &[State], t: u32) -> Reply
    requires { t < length blocks.now }
    ensures { result ≡ (if parent_lives blocks.now (parent_of (slice_get blocks.now t)) then replies.Held else replies.Done) }
{
    match blocks[t as usize].parent() {
        Some(parent) if is_alive(blocks, parent) => Reply::Held,
        _ => Reply::Done,
    }
}

/// What a wait of block `t` for this block answers.
fn wait_reply(blocks: &[State], t: u32, target: u32) -> Reply
    ensures { result ≡ outers.wait_reply t (slice_get blocks.now target) }
{
    match blocks.get(target as usize) {
        Some(child) if child.parent() == Some(t) => stage_reply(child.stage()),
        _ => Reply::Ended,
    }
}

/// What a wait for a child answers by what that does.
fn stage_reply(stage: Stage) -> Reply
    ensures { result ≡ outers.stage_reply stage }
{
    match stage {
        Stage::Ready | Stage::Turn { .. } | Stage::Waiting { .. } => Reply::Blocked,
        Stage::Stopped => Reply::Stopped,
        Stage::Unborn | Stage::Ended => Reply::Ended,
    }
}

/// How many bytes a register set of this block has.
fn get_reply(blocks: &[State], target: u32, set: Set) -> Reply
    ensures { result ≡ child_reply (outers.get_reply set) (slice_get blocks.now target) }
{
    match blocks.get(target as usize) {
        Some(child) if child.is_stopped() => Reply::Count(child.task().set_len(set)),
        _ => no_such_block(),
    }
}

/// What setting a register set of this block answers, from so many first bytes of the buffer of block `t`.
fn put_reply(script: &Script, blocks: &[State], t: u32, target: u32, set: Set, count: u32) -> Reply
    requires here { t < length blocks.now }
    requires valid { AllByRecursion (λ (block : states.BlockState). IsPrivateTask script.now.layout block.task) blocks.now }
    requires within { count ≤ buffer_length }
    ensures { result ≡ child_reply (outers.put_reply set count (buffer_of (slice_get blocks.now t))) (slice_get blocks.now target) }
{
    let tracer = blocks[t as usize].task();
    match blocks.get(target as usize) {
        Some(child) if child.is_stopped() => {
            count_or_error(count, child.task().set_error(set, count, tracer))
        }
        _ => no_such_block(),
    }
}

/// What it answers to let this block go on.
fn cont_reply(blocks: &[State], target: u32) -> Reply
    ensures { result ≡ child_reply (λ task. replies.Count 0) (slice_get blocks.now target) }
{
    match blocks.get(target as usize) {
        Some(child) if child.is_stopped() => Reply::Count(0),
        _ => no_such_block(),
    }
}

/// No such block: it isn't born or has ended.
fn no_such_block() -> Reply
    ensures { result ≡ no_block }
{
    Reply::Error(Errno::Srch as u32)
}
