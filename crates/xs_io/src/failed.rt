//! What a read or a write answers where it failed, and how a fault is counted.

ghost use Rattle.std.specs.Prelude.{◌≡◌, ◌≤◌};
ghost use Rattle.xs_io.specs.Causes.{one_more};

/// A read or a write failed, and it took or gave no byte.
#[derive(Clone, Copy, PartialEq, Eq, Debug)]
pub struct Failed;

/// Counts a fault, which is the answer. The count stops at 2^64 - 1.
pub(crate) fn fault(faults: &mut u64) -> Failed
    ensures count { faults.new ≡ one_more faults.old }
    ensures later { faults.old ≤ faults.new }
{
    *faults = faults.saturating_add(1);
    Failed
}
