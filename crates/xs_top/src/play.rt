//! The commands that play a script.

ghost use Rattle.std.specs.Prelude.{◌≡◌, [], ◌∷◌, IfSome, IfNone};
ghost use Rattle.xs_top.specs.Run.{IsPlayLine, play_words};

/// How a script is played.
#[derive(Clone, Copy, PartialEq, Eq)]
pub enum Play {
    /// `run`: each processor runs on a thread of its own, and they come to their turns as they may.
    Run,
    /// `replay`: they have them as the script's schedule says.
    Replay,
}

/// The command of this one word, if any.
pub fn play_named(word: &[u8]) -> Option<Play>
    ensures some { IfSome result (λ play. word.now ∷ [] ≡ play_words play) }
    ensures none { IfNone result (IsPlayLine (word.now ∷ []) → ⊥) }
{
    if word == b"run".as_slice() {
        return Some(Play::Run);
    }
    if word == b"replay".as_slice() {
        return Some(Play::Replay);
    }
    None
}
