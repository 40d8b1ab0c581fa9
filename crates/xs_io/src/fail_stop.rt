//! A writer that stops at its first failure.

ghost use Rattle.std.specs.Prelude.{◌≡◌, ◌≢◌, ◌<◌, ◌⊎◌, [], true, false, length, IfOk, IfErr, IsErr};
ghost use Rattle.std.specs.Io.{WritesAtMost};
ghost use Rattle.std.specs.Io.KnownBytes.{Keeps, WriteAppends};
ghost use Rattle.std.specs.IoError.{error_kind};
ghost use Rattle.xs_io.specs.Standard.{has_failed};

use std::io::{Error, ErrorKind, Result, Write};

/// A writer that is never called again once it has failed: from then on each call is an error. It fails by an error,
/// unless a signal interrupted the call and it may be tried again, and by taking nothing of a piece that isn't empty. A
/// buffer hands on what it holds when it is dropped: over this writer it hands on nothing after a failure.
#[derive(Drop)]
pub struct FailStop<W> {
    writer: W,
    failed: bool,
}

impl<W: Write> FailStop<W> {
    /// Stands over this writer, which has not failed.
    pub(crate) fn new(writer: W) -> FailStop<W>
        ensures { result ≡ record { writer = writer; failed = false } }
    {
        FailStop {
            writer,
            failed: false,
        }
    }
}

impl<W: Write> Write for FailStop<W> {
    ghost contents = { λ s. W.contents s.writer };

    fn write(&mut self, piece: &[u8]) -> Result<usize>
        ensures bound { WritesAtMost result piece.now }
        ensures bytes { WriteAppends (W.contents self.old.writer) (W.contents self.new.writer) result piece.now }
        ensures stopped { has_failed self.old ≡ true → IsErr result × (self.new ≡ self.old) }
        ensures error { IfErr result (λ error. error_kind error ≢ ErrorKind.Interrupted → has_failed self.new ≡ true) }
        ensures nothing { IfOk result (λ count. count ≡ 0 → 0 < length piece.now → has_failed self.new ≡ true) }
        ensures goes_on { IfOk result (λ count. (0 < count) ⊎ (piece.now ≡ []) → has_failed self.new ≡ has_failed self.old) }
        ensures tried_again { IfErr result (λ error. error_kind error ≡ ErrorKind.Interrupted → has_failed self.new ≡ has_failed self.old) }
    {
        if self.failed {
            return Err(Error::from(ErrorKind::BrokenPipe));
        }
        let result = self.writer.write(piece);
        self.failed = match &result {
            Ok(count) => *count == 0 && !piece.is_empty(),
            Err(error) => error.kind() != ErrorKind::Interrupted,
        };
        result
    }

    fn flush(&mut self) -> Result<()>
        ensures bytes { Keeps (W.contents self.old.writer) (W.contents self.new.writer) }
        ensures stopped { has_failed self.old ≡ true → IsErr result × (self.new ≡ self.old) }
        ensures error { IfErr result (λ _. has_failed self.new ≡ true) }
        ensures goes_on { IfOk result (λ _. has_failed self.new ≡ has_failed self.old) }
    {
        if self.failed {
            return Err(Error::from(ErrorKind::BrokenPipe));
        }
        let result = self.writer.flush();
        self.failed = result.is_err();
        result
    }
}
