//! The laws of a judgement, for proofs: a caller has them by calling their function, which does nothing.

ghost use Rattle.std.specs.Prelude.{◌≡◌};
ghost use Rattle.xs_model.specs.declared.event.Event.{Event};
ghost use Rattle.xs_model.specs.Machine.{IsStep};
ghost use Rattle.xs_model.specs.State.{Machine};
ghost use Rattle.xs_legal.specs.declared.wrong.Wrong.{Wrong};
ghost use Rattle.xs_legal.specs.Step.{LocalTold, OuterTold, StepTurns, StepValid, StepWithin};
ghost use Rattle.xs_legal.specs.Wrong.{IsWrong};

use xs_model::{a_fork_bears, lines_found, machine_known, named_known};

/// Nothing is wrong with a step, and an event is wrong in one way only.
pub fn wrong_once()
    ensures right { (m : Machine) (event : Event) (wrong : Wrong) → IsStep m event → IsWrong m event wrong → ⊥ }
    ensures once { (m : Machine) (event : Event) (one other : Wrong) → IsWrong m event one → IsWrong m event other → one ≡ other }
{}

/// What is known of a step: its block is there, each private task is valid, and where it is a line's event, the block stands at that
/// line, and whoever the line reaches is there; and where it is no Start, its block is in a turn.
pub fn steps_told()
    ensures within { StepWithin }
    ensures valid { StepValid }
    ensures local { LocalTold }
    ensures outer { OuterTold }
    ensures turns { StepTurns }
{
    lines_found();
    machine_known();
    named_known();
    a_fork_bears();
}
