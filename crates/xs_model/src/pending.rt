//! Signals that are pending, in the order of their numbers.

ghost use Rattle.std.specs.Prelude.{◌≡◌, ◌≤◌, length, slice_get, vec_capacity};
ghost use Rattle.xs_model.specs.Laws.{ArePending};
ghost use Rattle.xs_model.specs.Outer.{insert};
ghost use Rattle.xs_model.specs.Pending.{below, is_signal};

use xs_base::Signo;

/// The signal joins the pending ones at its place, if it isn't pending already. With room for the 31 signals it takes no memory.
pub fn add_signal(signals: &mut Vec<Signo>, signo: Signo)
    requires rise { ArePending 0 signals.old.items }
    requires room { 31 ≤ vec_capacity signals.old }
    ensures items { signals.new.items ≡ insert signo signals.old.items }
    ensures rise { ArePending 0 signals.new.items }
    ensures room { 31 ≤ vec_capacity signals.new }
{
    let place = count_below(signals.as_slice(), signo);
    if !stands_at(signals.as_slice(), place, signo) {
        let _ = signals.insert(place, signo);
    }
}

/// How many signals stand before the place of this one.
fn count_below(signals: &[Signo], signo: Signo) -> usize
    ensures count { result ≡ below signo signals.now }
    ensures within { result ≤ length signals.now }
{
    let mut count = 0;
    'each: for other in signals {
        if other.number >= signo.number {
            return count;
        }
        count += 1;
    }
    count
}

/// Whether the signal stands at this place.
fn stands_at(signals: &[Signo], place: usize, signo: Signo) -> bool
    ensures { result ≡ is_signal (slice_get signals.now place) signo }
{
    match signals.get(place) {
        Some(other) => other.number == signo.number,
        None => false,
    }
}
