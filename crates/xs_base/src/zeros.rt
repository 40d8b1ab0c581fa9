//! Bytes that are zero throughout.

ghost use Rattle.std.specs.Prelude.{◌≡◌, ◌==◌};
ghost use Rattle.std.specs.List.{list_all};

/// Whether every byte is zero: the first is, and each other is as the one before it. So two slices are compared, which is
/// faster than a walk.
pub fn are_zero(bytes: &[u8]) -> bool
    ensures { result ≡ list_all (λ b. b == 0) bytes.now }
{
    let Some(first) = bytes.first() else {
        return true;
    };
    let (_, others) = bytes.split_at(1);
    let (before, _) = bytes.split_at(others.len());
    *first == 0 && others == before
}
