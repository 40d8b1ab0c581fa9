//! The lines of a task.

ghost use Rattle.std.specs.Prelude.{◌≡◌, ◌++◌, codes, OnOk};
ghost use Rattle.xs_model.specs.declared.script.Command.TheVariants as commands;
ghost use Rattle.xs_script.specs.Grammar.{lines_text};
ghost use Rattle.xs_gen.specs.Generated.{after, after_round, after_rounds, after_task, draws, round_lines, rounds, task_block, third_draws, third_line, tile_lines};
ghost use Rattle.xs_gen.specs.Written.{order_text, orders_text};

use crate::draws::Draws;
use crate::lines::{put_get, put_ksec, put_set, put_task_name};
use crate::names::xmm_name;
use std::alloc::AllocError;

/// How many rounds a task has.
const ROUNDS: u32 = 104;

/// The bytes of an SSE register, of a mask register and of a row of tiles.
const XMM_BYTES: usize = 16;

const MASK_BYTES: usize = 8;

const TILE_BYTES: usize = 64;

/// Appends the lines of a task.
pub fn put_task(text: &mut Vec<u8>, source: &mut Draws, task: u32) -> Result<(), AllocError>
    ensures text { OnOk result (text.new.items ≡ text.old.items ++ lines_text (task_block task source.old.state)) }
    ensures state { OnOk result (source.new.state ≡ after_task source.old.state) }
{
    put_task_name(text, task)?;
    text.extend_from_slice(b"perm 18\n")?;
    put_rounds(text, source)?;
    put_tile(text, source)?;
    text.extend_from_slice(b"end\n")
}

/// Appends the rounds of a task.
fn put_rounds(text: &mut Vec<u8>, source: &mut Draws) -> Result<(), AllocError>
    ensures text { OnOk result (text.new.items ≡ text.old.items ++ orders_text (rounds 104 0 source.old.state)) }
    ensures state { OnOk result (source.new.state ≡ after_rounds 104 0 source.old.state) }
{
    for round in 0..ROUNDS {
        put_round(text, source, round)?;
    }
    Ok(())
}

/// Appends a round: a register is set and read, and the third line follows.
fn put_round(text: &mut Vec<u8>, source: &mut Draws, round: u32) -> Result<(), AllocError>
    ensures text { OnOk result (text.new.items ≡ text.old.items ++ orders_text (round_lines round source.old.state)) }
    ensures state { OnOk result (source.new.state ≡ after_round round source.old.state) }
{
    let name = xmm_name(source.draw());
    let mut bytes = [0; XMM_BYTES];
    source.fill(&mut bytes);
    put_set(text, name, &bytes)?;
    put_get(text, name)?;
    put_third(text, source, round)
}

/// Appends the third line of a round.
fn put_third(text: &mut Vec<u8>, source: &mut Draws, round: u32) -> Result<(), AllocError>
    ensures text { OnOk result (text.new.items ≡ text.old.items ++ order_text (third_line round source.old.state)) }
    ensures state { OnOk result (source.new.state ≡ after (third_draws round) source.old.state) }
{
    match round % 4 {
        0 => text.extend_from_slice(b"yield\n"),
        1 => put_ksec(text, source.draw()),
        2 => put_mask(text, source),
        _ => put_get(text, b"pkru"),
    }
}

/// Appends the line that sets K0 to eight draws.
fn put_mask(text: &mut Vec<u8>, source: &mut Draws) -> Result<(), AllocError>
    ensures text { OnOk result (text.new.items ≡ text.old.items ++ order_text (commands.Set (codes "k0") (draws 8 source.old.state))) }
    ensures state { source.new.state ≡ after 8 source.old.state }
{
    let mut bytes = [0; MASK_BYTES];
    source.fill(&mut bytes);
    put_set(text, b"k0", &bytes)
}

/// Appends the lines that set a row of tiles and read it.
fn put_tile(text: &mut Vec<u8>, source: &mut Draws) -> Result<(), AllocError>
    ensures text { OnOk result (text.new.items ≡ text.old.items ++ orders_text (tile_lines source.old.state)) }
    ensures state { source.new.state ≡ after 64 source.old.state }
{
    let mut bytes = [0; TILE_BYTES];
    source.fill(&mut bytes);
    put_set(text, b"tmm0.0", &bytes)?;
    put_get(text, b"tmm0.0")
}
