//! A processor of a run.

ghost use Rattle.std.specs.Prelude.{◌≡◌, None};

use xs_bank::{Bank, Cpu};
use xs_board::Board;
use xs_share::Pass;

/// A processor, with what a run keeps for it.
#[derive(Drop)]
pub struct Proc<B: Bank> {
    /// The processor itself: its bank, and what the kernel keeps beside.
    pub cpu: Cpu<B>,
    /// Its right to take turns with the board, while a run on threads lasts.
    pub pass: Option<Pass<Board>>,
}

impl<B: Bank> Proc<B> {
    /// The processor before a run. Takes no memory.
    pub fn new(cpu: Cpu<B>) -> Proc<B>
        ensures cpu { result.cpu ≡ cpu }
        ensures pass { result.pass ≡ None }
    {
        Proc { cpu, pass: None }
    }
}
