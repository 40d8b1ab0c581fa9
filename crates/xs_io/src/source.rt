//! Where bytes come from.

ghost use Rattle.std.specs.Prelude.{◌≡◌, ℕ, List, Option};
ghost use Rattle.std.specs.Io.{ReadsAtMost};
ghost use Rattle.std.specs.Io.KnownBytes.{ReadConsumes};
ghost use Rattle.xs_io.specs.Causes.{HasCause};

use crate::Failed;

/// A source of bytes, which counts its faults.
pub trait Source {
    /// The bytes that are left, where the source tells them.
    ghost left: { Self → Option (List ℕ) };

    /// How many faults came so far, 2^64 - 1 for more.
    ghost fault_count: { Self → ℕ };

    /// Reads bytes to the front of `into`, and answers how many: 0 only at the end of the input, or where `into` is
    /// empty. A read that fails takes none.
    fn read(&mut self, into: &mut [u8]) -> Result<usize, Failed>
        ensures bound { ReadsAtMost result into.new }
        ensures bytes { ReadConsumes (left self.old) (left self.new) result into.new }
        ensures cause { HasCause (fault_count self.old) (fault_count self.new) result };

    /// The number of faults so far, which stops at 2^64 - 1.
    fn faults(&self) -> u64
        ensures { result ≡ fault_count self.now };
}
