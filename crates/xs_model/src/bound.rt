//! The most events of a run.

ghost use Rattle.std.specs.Prelude.{◌≡◌, ◌*◌, ◌≤◌, length};
ghost use Rattle.xs_model.specs.Bound as bound;

use crate::script::{Block, Command, Order};

/// The most events that a run of these blocks can have. Neither the lines nor the blocks are more than the bytes of a text, nor the
/// signals with the lines of their handlers more than the square of that: so the number is no greater than 64 bits are.
pub fn most_events(blocks: &[Block]) -> u64
    requires lines { bound.body_lines blocks.now ≤ 1048576 }
    requires signals { bound.all_kill_lines blocks.now * bound.longest_handler blocks.now ≤ 1048576 * 1048576 }
    requires blocks { length blocks.now ≤ 1048576 }
    ensures { result ≡ bound.most_of blocks.now }
{
    let lines = body_lines(blocks);
    let kills = all_kill_lines(blocks);
    let handler = longest_handler(blocks);
    4 * lines + 2 * (kills * handler) + 8 * blocks.len() as u64
}

/// The lines of all bodies.
fn body_lines(blocks: &[Block]) -> u64
    requires { bound.body_lines blocks.now ≤ 1048576 }
    ensures { result ≡ bound.body_lines blocks.now }
{
    let mut lines: u64 = 0;
    'each: for block in blocks {
        lines += block.body.len() as u64;
    }
    lines
}

/// The lines of all bodies that send a signal.
fn all_kill_lines(blocks: &[Block]) -> u64
    requires { bound.body_lines blocks.now ≤ 1048576 }
    ensures is { result ≡ bound.all_kill_lines blocks.now }
    ensures few { result ≤ bound.body_lines blocks.now }
{
    let mut kills: u64 = 0;
    'each: for block in blocks {
        kills += kill_lines(block.body.as_slice());
    }
    kills
}

/// The lines of a body that send a signal.
fn kill_lines(orders: &[Order]) -> u64
    ensures is { result ≡ bound.kill_lines orders.now }
    ensures few { result ≤ length orders.now }
{
    let mut kills: u64 = 0;
    'each: for order in orders {
        if matches!(&order.command, Command::Kill { .. }) {
            kills += 1;
        }
    }
    kills
}

/// The lines of the longest handler, its return among them.
fn longest_handler(blocks: &[Block]) -> u64
    ensures { result ≡ bound.longest_handler blocks.now }
{
    let mut longest: u64 = 0;
    'each: for block in blocks {
        longest = longest.max(block.handler.len() as u64);
    }
    longest
}
