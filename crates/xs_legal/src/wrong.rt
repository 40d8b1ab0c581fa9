//! What is wrong with an event that is no step.

use xs_base::{How, Signo};
use xs_model::Reply;

/// Why an event is no step, with the value in place of which it has another. The value is the one of the step that is like it in its
/// kind, its task, and its processor or line.
#[derive(Drop)]
pub enum Wrong {
    /// No step is like the event.
    NotNow,
    /// How the registers come.
    How(How),
    /// The signal that the Start carries, or that it carries none.
    Signal(Option<Signo>),
    /// What the line answers.
    Reply(Reply),
}
