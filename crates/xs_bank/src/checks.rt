//! What traps: reads and writes of tiles, and loads.

ghost use Rattle.std.specs.Prelude.{◌≡◌, ◌≤◌, ◌&&◌, ◌||◌, ◌==◌, not, length, Some, None, if◌then◌else◌, bit_and, ◌-◌, ◌^◌};
ghost use Rattle.std.specs.List.{list_any};
ghost use Rattle.xs_bank.specs.Bank as banks;
ghost use Rattle.xs_base.specs.Compact.{compacted_bit};
ghost use Rattle.xs_base.specs.Component.{sse_number, tiledata_number};
ghost use Rattle.xs_base.specs.HeaderCheck as check;
ghost use Rattle.xs_bank.specs.Load as load;
ghost use Rattle.xs_base.specs.Sets.{has};
ghost use Rattle.xs_bank.specs.declared.instruction.Trap.TheVariants.{Nm};

use crate::instruction::Trap;
use xs_area::{mxcsr, xcomp_bv, xstate_bv};
use xs_base::{Comp, Features, HeaderError, MOST_MXCSR, Place, are_zero};
use xs_layout::Layout;

/// Whether a read of the register traps: it is one of TILEDATA, and that is armed.
pub fn read_trap(armed: Features, place: Place) -> Option<Trap>
    ensures { result ≡ banks.read_trap armed.0 place }
{
    if armed.has(Comp::TILEDATA) && place.comp == Comp::TILEDATA {
        return Some(Trap::Nm(Features::TILEDATA));
    }
    None
}

/// Whether a write of the register traps: it is one of TILECFG or of TILEDATA, and TILEDATA is armed.
pub fn write_trap(armed: Features, place: Place) -> Option<Trap>
    ensures { result ≡ banks.write_trap armed.0 place }
{
    if armed.has(Comp::TILEDATA) && (place.comp == Comp::TILECFG || place.comp == Comp::TILEDATA) {
        return Some(Trap::Nm(Features::TILEDATA));
    }
    None
}

/// The first reason that XRSTOR of the components of the mask is refused for (SDM volume 1, 13.8).
#[tactic(auto, unfolding(crate::specs::Load::standard_trap))]
pub fn standard_trap(layout: &Layout, armed: Features, mask: Features, area: &[u8]) -> Option<Trap>
    requires { 576 ≤ length area.now }
    ensures { result ≡ load.standard_trap layout.now armed.0 mask.0 area.now }
{
    let bits = Features(xstate_bv(area));
    if bits.has_outside(layout.features()) {
        return Some(Trap::Gp(HeaderError::Features));
    }
    if xcomp_bv(area) != 0 {
        return Some(Trap::Gp(HeaderError::Compacted));
    }
    if has_byte(&area[528..536]) {
        return Some(Trap::Gp(HeaderError::Reserved));
    }
    if mask.has_control() && mxcsr(area) > MOST_MXCSR {
        return Some(Trap::Gp(HeaderError::Mxcsr));
    }
    tiles_trap(armed, mask, bits)
}

/// The first reason that XRSTORS of the components of the mask is refused for (SDM volume 1, 13.12).
#[tactic(auto, unfolding(crate::specs::Load::compacted_trap))]
pub fn compacted_trap(layout: &Layout, armed: Features, mask: Features, area: &[u8]) -> Option<Trap>
    requires { 576 ≤ length area.now }
    ensures { result ≡ load.compacted_trap layout.now armed.0 mask.0 area.now }
{
    let bits = Features(xstate_bv(area));
    let names = Features(xcomp_bv(area));
    if has_unknown(bits, names, layout.features()) {
        return Some(Trap::Gp(HeaderError::Features));
    }
    if !names.is_compacted() {
        return Some(Trap::Gp(HeaderError::Compacted));
    }
    if has_byte(&area[528..576]) {
        return Some(Trap::Gp(HeaderError::Reserved));
    }
    if takes_control(mask, bits) && mxcsr(area) > MOST_MXCSR {
        return Some(Trap::Gp(HeaderError::Mxcsr));
    }
    tiles_trap(armed, mask, bits)
}

/// Whether XSTATE_BV or XCOMP_BV names what the machine lacks, or XSTATE_BV what XCOMP_BV doesn't name.
fn has_unknown(bits: Features, names: Features, features: Features) -> bool
    ensures { result ≡ (check.has_outside bits.0 features.0 || check.has_outside (bit_and names.0 (2 ^ compacted_bit - 1)) features.0 || check.has_outside bits.0 names.0) }
{
    bits.has_outside(features)
        || Features(names.0 & 0x7fff_ffff_ffff_ffff).has_outside(features)
        || bits.has_outside(names)
}

/// Whether a byte isn't zero.
fn has_byte(bytes: &[u8]) -> bool
    ensures { result ≡ list_any (λ byte. not (byte == 0)) bytes.now }
{
    !are_zero(bytes)
}

/// Whether MXCSR comes from a compacted area with this XSTATE_BV.
fn takes_control(mask: Features, bits: Features) -> bool
    ensures { result ≡ (has mask.0 sse_number && has bits.0 sse_number) }
{
    mask.has(Comp::SSE) && bits.has(Comp::SSE)
}

/// #NM where TILEDATA is armed and would be loaded (SDM volume 1, 13.14).
fn tiles_trap(armed: Features, mask: Features, bits: Features) -> Option<Trap>
    ensures { result ≡ (if has armed.0 tiledata_number && has mask.0 tiledata_number && has bits.0 tiledata_number then Some (Nm (record { 0 = load.tiles })) else None) }
{
    if armed.has(Comp::TILEDATA) && mask.has(Comp::TILEDATA) && bits.has(Comp::TILEDATA) {
        return Some(Trap::Nm(Features::TILEDATA));
    }
    None
}
