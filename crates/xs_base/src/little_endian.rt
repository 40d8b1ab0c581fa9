//! MXCSR and PKRU by their bytes, the lowest first.

ghost use Rattle.std.specs.Prelude.{◌≡◌, ℕ, ◌<◌, List, length, slice_index};
ghost use Rattle.std.specs.Int.{from_le_bytes, to_le_bytes, w32};

/// Four bytes that are read as a number and written again are the same bytes. A call does nothing.
pub fn four_bytes_again()
    ensures { (bytes : List ℕ) → length bytes ≡ 4 → ((i : ℕ) → slice_index bytes i < 256) → to_le_bytes w32 (from_le_bytes w32 bytes) ≡ bytes }
{}
