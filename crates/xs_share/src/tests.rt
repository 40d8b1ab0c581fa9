//! The five calls once each, over a value of the tests.
ghost use Rattle.std.specs.Prelude.{◌≡◌, ◌<◌, length, refl};
ghost use Rattle.std.proofs.Common.{◌∙◌};
ghost use Rattle.xs_share.specs.Passes.{name_of, EachPass, HasAll, IsIdle};

use crate::{Kept, Passes, Shared};
use std::sync::Wait;
use std::test::Fail;

/// Its name stays; its count may become any.
#[derive(Drop)]
struct Tally {
    name: u32,
    count: u32,
}

// Processor c runs task c alone.
impl Kept for Tally {
    ghost follows = { λ c old new. new.name ≡ old.name };

    ghost next = { λ c old new. new.name ≡ old.name };

    ghost runs = { λ c k t. t ≡ c };

    ghost blank = { record { name = 0; count = 0 } };

    ghost follows_same = { λ c k. refl };

    ghost follows_next = { λ c d x y z f n other. n ∙ f };
}

// One turn of the processor, which marks itself with its task. Answers the count that it found.
fn take_one<R: Wait>(
    rt: &R,
    shared: &Shared<Tally>,
    passes: &mut Passes<Tally>,
    cpu: u32,
    count: u32,
) -> u32
    requires place { cpu < length passes.old.list.items }
    requires all { HasAll (name_of shared.now) passes.old }
    requires idle { EachPass (IsIdle (name_of shared.now)) passes.old.list.items }
    ensures count { length passes.new.list.items ≡ length passes.old.list.items }
    ensures all { HasAll (name_of shared.now) passes.new }
    ensures idle { EachPass (IsIdle (name_of shared.now)) passes.new.list.items }
{
    let mut pass = passes.list[cpu as usize].take().unwrap();
    let mut tally = shared.take_turn(rt, &mut pass);
    let found = tally.count;
    tally.count = count;
    shared.give_turn(&mut pass, tally);
    shared.mark(&mut pass, Some(cpu));
    shared.mark(&mut pass, None);
    passes.list[cpu as usize] = Some(pass);
    found
}

#[test]
fn two_processors_take_turns(rt: HostRuntime) -> Result<(), Fail> {
    let tally = Tally { name: 7, count: 0 };
    let (shared, mut passes) = Shared::open(rt.alloc(), tally, 2)?;
    assert_eq!(rt; take_one(&rt, &shared, &mut passes, 0, 5), 0);
    assert_eq!(rt; take_one(&rt, &shared, &mut passes, 1, 6), 5);
    assert_eq!(rt; take_one(&rt, &shared, &mut passes, 0, 7), 6);
    let tally = shared.close(passes);
    assert_eq!(rt; tally.count, 7);
    Ok(())
}
