//! The lines of events, written many times, and beside it plain copies of the same lines.

ghost use Rattle.std.specs.Prelude.{◌≡◌, ◌<◌, length, IfOk};
ghost use Rattle.xs_text.specs.Text.{task_of, AreTasksKnown};

use crate::repeats::next_sum;
use std::alloc::{AllocError, Global};
use xs_base::Lane;
use xs_layout::Layout;
use xs_model::{Block, BlockKind, Event, Items, Name, Named, Reply, Script};
use xs_text::{Line, write_event};

/// How many events there are, and as many lines.
const EVENTS: u32 = 16;

/// The byte of a line that goes into the sum: a digit of what the register has.
const LOOKED_AT: usize = 24;

/// Writes a line so many times, in rounds of sixteen, and answers the sum. The events are there before the first round.
pub fn repeat_writes(alloc: Global, turns: u64) -> Result<Option<u64>, AllocError> {
    let script = one_task(alloc)?;
    let events = events(alloc, &script)?;
    let rounds = turns / u64::from(EVENTS);
    Ok(Some(write_events(&script, events.as_slice(), rounds)))
}

/// Copies a line so many times, in the same rounds. The lines are there before the first round.
pub fn repeat_line_copies(alloc: Global, turns: u64) -> Result<Option<u64>, AllocError> {
    let script = one_task(alloc)?;
    let events = events(alloc, &script)?;
    let lines = lines(alloc, &script, events.as_slice())?;
    let rounds = turns / u64::from(EVENTS);
    Ok(Some(copy_lines(lines.as_slice(), rounds)))
}

/// A script of one task.
fn one_task(alloc: Global) -> Result<Script, AllocError>
    ensures { IfOk result (λ script. length script.blocks ≡ 1) }
{
    let mut blocks = Vec::new(alloc);
    blocks.push(Block {
        kind: BlockKind::Task,
        name: Name::from_slice(b"t101"),
        body: Items::new(alloc),
        handler: Items::new(alloc),
    })?;
    Ok(Script {
        machine: Named::Amx,
        layout: Layout::amx(),
        cpus: 1,
        quantum: 1,
        large: 0,
        sched: Items::new(alloc),
        blocks: Items::from_vec(blocks),
    })
}

/// Sixteen events that differ: `get` of a register of 16 bytes, each in another line and with other bytes.
fn events(alloc: Global, script: &Script) -> Result<Vec<Event>, AllocError>
    requires { 0 < length script.now.blocks }
    ensures { IfOk result (λ events. AreTasksKnown script.now events.items) }
{
    let mut events = Vec::new(alloc);
    for n in 0..EVENTS {
        events.push(event(n))?;
    }
    Ok(events)
}

/// An event of the first task, by its number.
fn event(n: u32) -> Event
    requires { n < 16 }
    ensures { task_of result ≡ 0 }
{
    let bytes = u128::from(n + 1) * 0x0102_0408_1020_4080_0f0e_0d0c_0b0a_0908;
    Event::Local {
        task: 0,
        line: 100_000 + n * 12_345,
        reply: Reply::Bytes(Lane::from_slice(&bytes.to_le_bytes())),
    }
}

/// The line of each event.
fn lines(alloc: Global, script: &Script, events: &[Event]) -> Result<Vec<Line>, AllocError>
    requires { AreTasksKnown script.now events.now }
{
    let mut lines = Vec::new(alloc);
    for event in events {
        let mut line = Line::new();
        write_event(script, event, &mut line);
        lines.push(line)?;
    }
    Ok(lines)
}

/// Writes the line of each event, in so many rounds.
fn write_events(script: &Script, events: &[Event], rounds: u64) -> u64
    requires { AreTasksKnown script.now events.now }
{
    let mut line = Line::new();
    let mut sum = 0;
    for _ in 0..rounds {
        for event in events {
            write_event(script, event, &mut line);
            sum = next_sum(sum, line.as_slice(), LOOKED_AT);
        }
    }
    sum
}

/// Copies each line, in so many rounds.
fn copy_lines(lines: &[Line], rounds: u64) -> u64 {
    let mut to = [0; 192];
    let mut sum = 0;
    for _ in 0..rounds {
        for line in lines {
            let bytes = line.as_slice();
            to[..bytes.len()].copy_from_slice(bytes);
            sum = next_sum(sum, &to, LOOKED_AT);
        }
    }
    sum
}
