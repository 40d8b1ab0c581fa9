//! The script reader: the one script that a text spells, or its first refusal.

ghost use Rattle.std.specs.Prelude.{◌≡◌, ◌⊎◌, ℕ, ◌+◌, ◌^◌, ◌<◌, ◌≤◌, List, [], length, IfOk, IfErr};
ghost use Rattle.xs_model.specs.declared.script.Script.{Script};
ghost use Rattle.xs_script.specs.declared.refusal.Kind.{Kind};
ghost use Rattle.xs_script.specs.Grammar.{Spells};
ghost use Rattle.xs_script.specs.Refusal.{Refuses, Explains};
ghost use Rattle.xs_script.specs.LineOrder.{AtVersion, AtBlock};
ghost use Rattle.xs_script.specs.Front.{ExplainsFrom};
ghost use Rattle.xs_script.specs.Head.{IsHeadOf};
ghost use Rattle.xs_script.specs.Outline.{AreWholeBlocks};
ghost use Rattle.xs_script.specs.Body.{AreBlocksOf, ExplainsBlocks};

use crate::body::Body;
use crate::commands::Scope;
use crate::head::{Head, Stage};
use crate::outline::look_through;
use crate::refusal::{Kind, ScriptError};
use crate::schedule::read_schedule;
use std::alloc::Global;
use xs_model::{Block, Items, Script, most_events};

/// The most events that a run of a script may have.
const MOST_EVENTS: u64 = 1_048_576;

/// The script that the text spells, which has at most 1,048,576 bytes, or its first refusal. It takes memory for the
/// schedule, the names of blocks, the blocks and their orders alone, and for the blocks and orders only where the first pass
/// finds nothing wrong.
pub fn read_script(alloc: Global, text: &[u8]) -> Result<Script, ScriptError>
    requires { length text.now ≤ 1048576 }
    ensures spelled { IfOk result (Spells text.now) }
    ensures refused { IfErr result (Explains text.now) }
{
    let (head, number, rest) = match read_head(text) {
        Ok(read) => read,
        Err(e) => return Err(e),
    };
    let (sched, number, rest) = match read_schedule(alloc, head.cpus, number, rest) {
        Ok(read) => read,
        Err(e) => return Err(e),
    };
    let (children, handled) = match look_through(alloc, number, rest) {
        Ok(names) => names,
        Err(e) => return Err(e),
    };
    let scope = Scope {
        layout: head.layout,
        children,
        handled,
    };
    let blocks = match read_blocks(alloc, &scope, number, rest) {
        Ok(blocks) => blocks,
        Err(e) => return Err(e),
    };
    let events = most_events(blocks.as_slice());
    if MOST_EVENTS < events {
        return Err(ScriptError::Refused {
            line: 0,
            kind: Kind::TooMuch(events),
        });
    }
    Ok(Script {
        machine: head.machine,
        layout: head.layout,
        cpus: head.cpus,
        quantum: head.quantum,
        large: head.large,
        sched,
        blocks,
    })
}

/// A text spells at most one script. A call does nothing.
pub fn one_script()
    ensures { (text : List ℕ) (a b : Script) → Spells text a → Spells text b → a ≡ b }
{}

/// A text has at most one refusal: one line, and one kind. A call does nothing.
pub fn one_refusal()
    ensures { (text : List ℕ) (m n : ℕ) (k j : Kind) → Refuses text m k → Refuses text n j → (m ≡ n) × (k ≡ j) }
{}

/// A text that is refused spells no script. A call does nothing.
pub fn not_both()
    ensures { (text : List ℕ) (script : Script) (n : ℕ) (k : Kind) → Spells text script → Refuses text n k → ⊥ }
{}

/// A text within the limit spells a script or is refused. A call does nothing.
pub fn every_text()
    ensures { (text : List ℕ) → length text ≤ 1048576 → ((script : Script) × Spells text script) ⊎ ((n : ℕ) × (k : Kind) × Refuses text n k) }
{}

/// The lines before the schedule, the number of the line after them, and the text from there on.
fn read_head(text: &[u8]) -> Result<(Head, u32, &[u8]), ScriptError>
    requires { length text.now ≤ 1048576 }
    ensures head { IfOk result (λ x. IsHeadOf text.now x.0 x.1 x.2.now) }
    ensures room { IfOk result (λ x. x.1 + length x.2.now ≤ 1 + length text.now) }
    ensures refused { IfErr result (ExplainsFrom AtVersion 1 text.now) }
{
    let mut head = Head::new();
    let mut number = 1;
    let mut left = text;
    'lines: while head.stage != Stage::Sched {
        match head.read_line(number, left) {
            Ok(rest) => left = rest,
            Err(e) => return Err(e),
        }
        number += 1;
    }
    Ok((head, number, left))
}

/// The blocks that the text is, to its end, where its first line is line `first` and the first pass finds nothing wrong:
/// or what the second pass finds.
fn read_blocks(
    alloc: Global,
    scope: &Scope,
    first: u32,
    text: &[u8],
) -> Result<Items<Block>, ScriptError>
    requires room { first + length text.now < 2 ^ 32 }
    requires whole { AreWholeBlocks text.now scope.now.children scope.now.handled }
    ensures blocks { IfOk result (AreBlocksOf scope.now first text.now) }
    ensures refused { IfErr result (ExplainsBlocks scope.now first text.now) }
{
    let mut body = Body::new(alloc);
    let mut number = first;
    let mut left = text;
    'lines: while !left.is_empty() {
        match body.read_line(alloc, scope, number, left) {
            Ok(rest) => left = rest,
            Err(e) => return Err(e),
        }
        number += 1;
    }
    match body.finish(number) {
        Ok(blocks) => Ok(blocks),
        Err(e) => Err(e),
    }
}
