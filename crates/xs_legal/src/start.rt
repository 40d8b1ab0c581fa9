//! The Start that a ready block can make.

ghost use Rattle.std.specs.Prelude.{◌≡◌, ◌<◌, true, length};
ghost use Rattle.xs_model.specs.Due as dues;
ghost use Rattle.xs_model.specs.Held.{held};
ghost use Rattle.xs_model.specs.Script.{is_user};
ghost use Rattle.xs_model.specs.State as states;
ghost use Rattle.xs_model.specs.State.{Machine, is_on_cpu, turn_cpu};

use crate::state::State;
use xs_base::{How, Signo};
use xs_model::{Event, Script, Stage};

/// The one Start of block `t` on the processor, where it is ready and the processor is one of the script's without a turn. Whether
/// the processor still holds the state of a user task the caller knows.
pub fn start_due(
    script: &Script,
    blocks: &[State],
    t: u32,
    cpu: u32,
    is_held: bool,
) -> Option<Event>
    requires { length blocks.now ≡ length script.now.blocks }
    ensures { (m : Machine) → m.script ≡ script.now → m.blocks ≡ blocks.now → (cpu < m.script.cpus → is_user m.script t ≡ true → is_held ≡ held m.script m.past cpu t) → result ≡ dues.start_due m t cpu }
{
    let block = blocks.get(t as usize)?;
    if block.stage() != Stage::Ready || cpu >= script.cpus || has_turn(blocks, cpu) {
        return None;
    }
    Some(Event::Start {
        task: t,
        cpu,
        how: how_of(script.is_user(t), is_held),
        signal: signal_of(block),
    })
}

/// Whether the processor has a turn.
fn has_turn(blocks: &[State], cpu: u32) -> bool
    ensures { result ≡ states.has_turn blocks.now cpu }
{
    blocks.iter().any(|block| is_on(block.stage(), cpu))
}

/// Whether this is a turn on the processor.
fn is_on(stage: Stage, number: u32) -> bool
    ensures { result ≡ is_on_cpu number (turn_cpu stage) }
{
    match stage {
        Stage::Turn { cpu, .. } => cpu == number,
        _ => false,
    }
}

/// How the registers come: a kernel thread has none, and a restore is left out where they are held.
fn how_of(is_user: bool, is_held: bool) -> How
    ensures { result ≡ dues.how_of is_user is_held }
{
    match (is_user, is_held) {
        (true, true) => How::Skip,
        (true, false) => How::Load,
        (false, _) => How::Kern,
    }
}

/// The signal that a Start carries: the lowest pending one, while no handler runs.
fn signal_of(block: &State) -> Option<Signo>
    ensures { result ≡ dues.signal_of block.now }
{
    if block.task().handling() {
        None
    } else {
        block.first_signal()
    }
}
