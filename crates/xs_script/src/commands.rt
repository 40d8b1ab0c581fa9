//! The commands of a script, and what they name.

ghost use Rattle.std.specs.Prelude.{◌≡◌, ◌==◌, drop, MatchOption};
ghost use Rattle.std.specs.List.{list_all};
ghost use Rattle.xs_base.specs.File.{is_mxcsr};
ghost use Rattle.xs_model.specs.Script.{fits_register};
ghost use Rattle.xs_script.specs.Refusal.{is_among, outer_fault, wait_fault, reach_fault, name_fault, CommandFails};
ghost use Rattle.xs_script.specs.Commands.{known_before, PassesCommand};

use crate::own_child::{OwnChild, is_own, is_own_awaited};
use crate::refusal::Kind;
use xs_base::{Lane, Place};
use xs_layout::Layout;
use xs_model::{Command, Items, Name};
use xs_regs::place_of_bytes;

/// What the commands of a script may name: the registers of its machine, its child blocks, and its blocks with a handler.
#[derive(Drop)]
pub struct Scope {
    /// The machine's table of components.
    pub layout: Layout,
    /// The names of the child blocks, in the order of the text.
    pub children: Items<Name>,
    /// The names of the blocks with a handler, in the order of the text.
    pub handled: Items<Name>,
}

/// What a command is refused with, in a handler or not, where the lines before it fork these children, and those of its own
/// body these.
pub(crate) fn command_fault(
    scope: &Scope,
    inside: bool,
    forked: &[Name],
    own: &[OwnChild],
    command: &Command,
) -> Option<Kind>
    ensures { MatchOption result (PassesCommand scope.now (known_before inside forked.now own.now) command.now) (CommandFails scope.now (known_before inside forked.now own.now) command.now) }
{
    match command {
        Command::Set { reg, bytes } => match place_of_bytes(reg.as_slice(), &scope.layout) {
            Some(place) if fits_register(place, bytes) => None,
            Some(_) => Some(Kind::BadLine),
            None => Some(Kind::UnknownName),
        },
        Command::Get { reg } => match place_of_bytes(reg.as_slice(), &scope.layout) {
            Some(_) => None,
            None => Some(Kind::UnknownName),
        },
        other => name_fault(scope, inside, forked, own, other),
    }
}

/// What a command is refused with by the block that it names and by its place, which is in a handler or not.
fn name_fault(
    scope: &Scope,
    inside: bool,
    forked: &[Name],
    own: &[OwnChild],
    command: &Command,
) -> Option<Kind>
    ensures { result ≡ name_fault scope.now (known_before inside forked.now own.now) command.now }
{
    match command {
        Command::Fork { name } => {
            if !is_among(name, scope.children.as_slice()) {
                return Some(Kind::UnknownName);
            }
            if is_among(name, forked) {
                return Some(Kind::Repeated);
            }
            outer_fault(inside)
        }
        Command::Kill { name, .. } => {
            if !is_among(name, scope.handled.as_slice()) {
                return Some(Kind::UnknownName);
            }
            outer_fault(inside)
        }
        Command::Stop => outer_fault(inside),
        Command::Wait { name } => wait_fault(inside, is_own(own, name)),
        Command::Getregs { name, .. } | Command::Setregs { name, .. } | Command::Cont { name } => {
            reach_fault(inside, is_own(own, name), is_own_awaited(own, name))
        }
        _ => None,
    }
}

/// What an outer command is refused with by its place, which is in a handler or not.
fn outer_fault(inside: bool) -> Option<Kind>
    ensures { result ≡ outer_fault inside }
{
    if inside {
        Some(Kind::OuterInHandler)
    } else {
        None
    }
}

/// What a wait is refused with, in a handler or not, for a child of its own body or another block.
fn wait_fault(inside: bool, own: bool) -> Option<Kind>
    ensures { result ≡ wait_fault inside own }
{
    match (inside, own) {
        (true, _) => Some(Kind::OuterInHandler),
        (false, true) => None,
        (false, false) => Some(Kind::UnknownName),
    }
}

/// What a command that reaches a child is refused with, which is one of its own body or not, and awaited or not.
fn reach_fault(inside: bool, own: bool, awaited: bool) -> Option<Kind>
    ensures { result ≡ reach_fault inside own awaited }
{
    match wait_fault(inside, own) {
        Some(kind) => Some(kind),
        None if awaited => None,
        None => Some(Kind::NotAwaited),
    }
}

/// Whether the name is one of these.
pub(crate) fn is_among(name: &Name, names: &[Name]) -> bool
    ensures { result ≡ is_among name.now names.now }
{
    let name = name.as_slice();
    names.iter().any(|other| other.as_slice() == name)
}

/// Whether the register can be set to these bytes: as many as it has, and for MXCSR with bits 16 to 31 zero, which are
/// reserved (SDM volume 1, 10.2.3).
fn fits_register(place: Place, bytes: &Lane) -> bool
    ensures { result ≡ fits_register place bytes.now }
{
    let bytes = bytes.as_slice();
    bytes.len() == place.len as usize && (!place.is_mxcsr() || are_zero_from(2, bytes))
}

/// Whether the bytes from this one on are zero.
fn are_zero_from(first: usize, bytes: &[u8]) -> bool
    ensures { result ≡ list_all (λ byte. byte == 0) (drop first bytes.now) }
{
    bytes.iter().skip(first).all(|byte| *byte == 0)
}
