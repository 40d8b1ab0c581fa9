//! Where bytes go.

ghost use Rattle.std.specs.Prelude.{◌≡◌, ◌<◌, ℕ, List, Option, IfOk, length};
ghost use Rattle.std.specs.Io.{WritesAtMost};
ghost use Rattle.std.specs.Io.KnownBytes.{WriteAppends};
ghost use Rattle.xs_io.specs.Causes.{HasCause};

use crate::Failed;

/// A sink of bytes, which counts its faults.
pub trait Sink {
    /// The bytes that were written, where the sink tells them.
    ghost written: { Self → Option (List ℕ) };

    /// How many faults came so far, 2^64 - 1 for more.
    ghost fault_count: { Self → ℕ };

    /// Writes bytes from the front of `bytes`, and answers how many it took: at least one, where there is one. A
    /// write that fails takes none.
    fn write(&mut self, bytes: &[u8]) -> Result<usize, Failed>
        ensures bound { WritesAtMost result bytes.now }
        ensures bytes { WriteAppends (written self.old) (written self.new) result bytes.now }
        ensures progress { IfOk result (λ count. 0 < length bytes.now → 0 < count) }
        ensures cause { HasCause (fault_count self.old) (fault_count self.new) result };

    /// The number of faults so far, which stops at 2^64 - 1.
    fn faults(&self) -> u64
        ensures { result ≡ fault_count self.now };
}
