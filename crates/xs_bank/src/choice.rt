//! What a bank writes of the components that it is asked to save.

ghost use Rattle.std.specs.Prelude.{◌≡◌, ℕ, ◌≤◌, true, false, length};
ghost use Rattle.xs_base.specs.Compact as compact;
ghost use Rattle.xs_base.specs.File.{in_use, is_saved};
ghost use Rattle.xs_base.specs.Header as header;
ghost use Rattle.xs_base.specs.Sets.{has};
ghost use Rattle.xs_bank.specs.Bank as banks;

use crate::registers::Registers;
use crate::saving::saved_bits;
use crate::tracking::changed_of;
use xs_area::{compacted, xcomp_bv};
use xs_base::Features;

/// Which components of the mask a save writes that may leave some out. Their bits in XSTATE_BV are the bank's own.
pub trait Choice: Drop {
    /// Those that XSAVEOPT writes into the area of this number: of those in use it may leave out what wasn't changed since the
    /// area was loaded (SDM volume 1, 13.9).
    fn standard(registers: &Registers, mask: Features, id: u64, area: &[u8]) -> Features
        requires { 576 ≤ length area.now }
        ensures within { (c : ℕ) → has result.0 c ≡ true → has mask.0 c ≡ true }
        ensures left { (c : ℕ) → has mask.0 c ≡ true → in_use registers.now.file c ≡ true → has result.0 c ≡ false → banks.is_unmodified registers.now.tracked id (header.xcomp_bv area.now) c ≡ true };

    /// Those that XSAVES writes: the same, where the area keeps its XCOMP_BV (SDM volume 1, 13.11).
    fn compacted(registers: &Registers, mask: Features, id: u64, area: &[u8]) -> Features
        requires { 576 ≤ length area.now }
        ensures within { (c : ℕ) → has result.0 c ≡ true → has mask.0 c ≡ true }
        ensures left { (c : ℕ) → has mask.0 c ≡ true → is_saved registers.now.file c ≡ true → has result.0 c ≡ false → (banks.is_unmodified registers.now.tracked id (header.xcomp_bv area.now) c ≡ true) × (header.xcomp_bv area.now ≡ compact.compacted mask.0) };
}

/// A save leaves nothing out.
#[derive(Drop)]
pub struct Everything {}

impl Choice for Everything {
    fn standard(registers: &Registers, mask: Features, id: u64, area: &[u8]) -> Features {
        mask
    }

    fn compacted(registers: &Registers, mask: Features, id: u64, area: &[u8]) -> Features {
        mask
    }
}

/// A save leaves out whatever it may: in the compacted format SSE goes with MXCSR, and an area whose XCOMP_BV changes has nothing
/// that can be left out.
#[derive(Drop)]
pub struct Changes {}

impl Choice for Changes {
    fn standard(registers: &Registers, mask: Features, id: u64, area: &[u8]) -> Features {
        let used = registers.file().in_use_of(mask);
        changed_of(used, registers.tracked(), id, xcomp_bv(area))
    }

    fn compacted(registers: &Registers, mask: Features, id: u64, area: &[u8]) -> Features {
        let saved = saved_bits(registers.file(), mask);
        let names = xcomp_bv(area);
        if names != compacted(mask).0 {
            return saved;
        }
        changed_of(saved, registers.tracked(), id, names)
    }
}
