//! An input that is held as a whole.

ghost use Rattle.std.specs.Prelude.{Some};

use xs_io::{Failed, Source};

/// The rest of an input that was read before: to read it again never fails.
#[derive(Drop)]
pub struct Held<'a> {
    /// The bytes that are left.
    pub rest: &'a [u8],
}

impl Source for Held<'_> {
    ghost left = { λ s. Some s.rest.now };

    ghost fault_count = { λ _. 0 };

    fn read(&mut self, into: &mut [u8]) -> Result<usize, Failed> {
        let rest = self.rest;
        let count = rest.len().min(into.len());
        into[..count].copy_from_slice(&rest[..count]);
        self.rest = &rest[count..];
        Ok(count)
    }

    fn faults(&self) -> u64 {
        0
    }
}
