//! What kind of command a line has.

ghost use Rattle.std.specs.Prelude.{◌≡◌};
ghost use Rattle.xs_model.specs.Script.{is_outer, is_return, is_yield};

use crate::script::Command;

impl Command {
    /// Whether the command reaches another block.
    pub fn is_outer(&self) -> bool
        ensures { result ≡ is_outer self.now }
    {
        matches!(
            self,
            Command::Fork { .. }
                | Command::Kill { .. }
                | Command::Stop
                | Command::Wait { .. }
                | Command::Getregs { .. }
                | Command::Setregs { .. }
                | Command::Cont { .. }
        )
    }

    /// Whether the command ends the turn by itself, without reaching another block.
    pub fn is_yield(&self) -> bool
        ensures { result ≡ is_yield self.now }
    {
        matches!(self, Command::Yield)
    }

    /// Whether the command is a return from a handler.
    pub fn is_return(&self) -> bool
        ensures { result ≡ is_return self.now }
    {
        matches!(self, Command::Sigreturn)
    }
}
