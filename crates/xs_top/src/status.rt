//! The exit status of a history.

ghost use Rattle.std.specs.Prelude.{◌≡◌};
ghost use Rattle.xs_model.specs.History as histories;
ghost use Rattle.xs_top.specs.Statuses.{status_of};

use xs_model::Event;
use xs_outside::Status;

/// The status of a history that was written.
pub fn status_of(history: &[Event]) -> Status
    ensures { result ≡ status_of history.now }
{
    if has_kill(history) {
        Status::Killed
    } else {
        Status::Done
    }
}

/// Whether a task is killed in the history.
fn has_kill(history: &[Event]) -> bool
    ensures { result ≡ histories.has_kill history.now }
{
    history
        .iter()
        .any(|event| matches!(event, Event::Kill { .. }))
}
