//! In what an event differs from the one that may come in its place.

ghost use Rattle.std.specs.Prelude.{◌≡◌, None, Some, MatchResult};
ghost use Rattle.xs_legal.specs.Wrong as wrongs;
ghost use Rattle.xs_legal.specs.Wrong.{AreAlike};
ghost use Rattle.xs_legal.specs.Difference.{Differs};

use crate::parts::{are_alike, has_how, has_signal, is_same_reply, reply_in};
use crate::wrong::Wrong;
use xs_base::{How, Signo};
use xs_model::{Event, Reply};

/// The first in which the event differs from the right one, if it does.
pub fn compare(right: &Event, event: &Event) -> Result<(), Wrong>
    ensures { MatchResult result (λ _. right.now ≡ event.now) (λ wrong. Differs right.now event.now wrong) }
{
    if !are_alike(event, right) {
        return Err(Wrong::NotNow);
    }
    match right {
        Event::Start { how, signal, .. } => compare_start(event, right, *how, *signal),
        _ => compare_replies(event, right),
    }
}

/// The first in which the event differs from the right Start, which is like it.
fn compare_start(event: &Event, right: &Event, how: How, signal: Option<Signo>) -> Result<(), Wrong>
    requires alike { AreAlike event.now right.now }
    requires how { wrongs.how_in right.now ≡ Some how }
    requires signal { wrongs.signal_in right.now ≡ Some signal }
    ensures { MatchResult result (λ _. right.now ≡ event.now) (λ wrong. Differs right.now event.now wrong) }
{
    if !has_how(event, how) {
        return Err(Wrong::How(how));
    }
    if !has_signal(event, signal) {
        return Err(Wrong::Signal(signal));
    }
    Ok(())
}

/// Whether the event differs from the right one, which is like it and no Start, in its reply.
fn compare_replies(event: &Event, right: &Event) -> Result<(), Wrong>
    requires alike { AreAlike event.now right.now }
    requires inside { wrongs.how_in right.now ≡ None }
    ensures { MatchResult result (λ _. right.now ≡ event.now) (λ wrong. Differs right.now event.now wrong) }
{
    match (reply_in(right), reply_in(event)) {
        (Some(reply), Some(other)) if !is_same_reply(reply, other) => {
            Err(Wrong::Reply(reply.copy()))
        }
        _ => Ok(()),
    }
}
