//! The commands, by the words of the command line.

ghost use Rattle.std.specs.Prelude.{[], ◌∷◌, map, string_bytes, IfSome, IfNone};
ghost use Rattle.xs_top.specs.Run.{IsCommandLine};
ghost use Rattle.xs_top.specs.Command.{IsSaidBy};

use crate::play::{Play, play_named};
use xs_script::read_number;

/// What the words of a command line ask.
#[derive(Clone, Copy, PartialEq, Eq)]
pub enum Command {
    /// A script is read and played.
    Play(Play),
    /// A script and a history of it are read, and what is wrong with the history is told.
    Check,
    /// The generator's script of this number is written.
    Gen(u32),
    /// It is run, and what its history has is told.
    Demo(u32),
}

/// The command that the words are, if any.
pub fn command_of(words: &[String]) -> Option<Command>
    ensures some { IfSome result (IsSaidBy (map string_bytes words.now)) }
    ensures none { IfNone result (IsCommandLine (map string_bytes words.now) → ⊥) }
{
    match words {
        [word] => alone(word.as_bytes()),
        [word, number] => numbered(word.as_bytes(), number.as_bytes()),
        _ => None,
    }
}

/// The command of a word alone, if any.
fn alone(word: &[u8]) -> Option<Command>
    ensures some { IfSome result (IsSaidBy (word.now ∷ [])) }
    ensures none { IfNone result (IsCommandLine (word.now ∷ []) → ⊥) }
{
    if word == b"check".as_slice() {
        return Some(Command::Check);
    }
    Some(Command::Play(play_named(word)?))
}

/// The command of a word and a number, if any.
fn numbered(word: &[u8], number: &[u8]) -> Option<Command>
    ensures some { IfSome result (IsSaidBy (word.now ∷ number.now ∷ [])) }
    ensures none { IfNone result (IsCommandLine (word.now ∷ number.now ∷ []) → ⊥) }
{
    if word == b"gen".as_slice() {
        return Some(Command::Gen(read_number(number)?));
    }
    if word == b"demo".as_slice() {
        return Some(Command::Demo(read_number(number)?));
    }
    None
}
