//! The counts of a bank, and the trail of its instructions.

ghost use Rattle.std.specs.Prelude.{◌≡◌, ◌∷◌};
ghost use Rattle.xs_base.specs.Trail as numbers;

use crate::instruction::Execs;
use xs_base::Place;

/// The number of an instruction that reads a register.
pub const READ: u64 = 1;

/// The number of one that writes a register.
pub const WRITE: u64 = 2;

/// The number of TILERELEASE.
const RELEASE: u64 = 3;

/// The instructions with one more on a register: its number, the register's place, and the bytes that it reads or writes.
#[tactic(auto, unfolding(xs_base::specs::Trail::mixed))]
pub fn executed(execs: Execs, kind: u64, place: Place, bytes: &[u8]) -> Execs
    ensures { result ≡ record { count = numbers.counted execs.count; trail = numbers.mixed execs.trail (kind ∷ place.comp.0 ∷ place.offset ∷ bytes.now) } }
{
    let start = mix(execs.trail, kind);
    let component = mix(start, place.comp.0 as u64);
    let offset = mix(component, place.offset as u64);
    Execs {
        count: counted(execs.count),
        trail: mixed(offset, bytes),
    }
}

/// The instructions with one more TILERELEASE.
#[tactic(auto, unfolding(xs_base::specs::Trail::mixed))]
pub fn released(execs: Execs) -> Execs
    ensures { result ≡ record { count = numbers.counted execs.count; trail = numbers.mixed execs.trail numbers.release_numbers } }
{
    Execs {
        count: counted(execs.count),
        trail: mix(execs.trail, RELEASE),
    }
}

/// One more, and the greatest number at the greatest.
pub fn counted(count: u64) -> u64
    ensures { result ≡ numbers.counted count }
{
    count.saturating_add(1)
}

/// The trail with bytes taken up.
#[tactic(auto, using(crate::proofs::TrailLemmas::mixed_more, crate::proofs::TrailLemmas::mixed_all))]
fn mixed(trail: u64, bytes: &[u8]) -> u64
    ensures { result ≡ numbers.mixed trail bytes.now }
{
    let mut now = trail;
    'each: for byte in bytes {
        now = mix(now, *byte as u64);
    }
    now
}

/// The trail with one number taken up.
#[tactic(auto, using(crate::proofs::TrailLemmas::wrapped))]
fn mix(trail: u64, n: u64) -> u64
    ensures { result ≡ numbers.mix trail n }
{
    trail
        .wrapping_mul(6364136223846793005)
        .wrapping_add(n)
        .wrapping_add(1)
}
