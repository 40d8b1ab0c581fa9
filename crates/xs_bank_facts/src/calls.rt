//! Calls on a bank, which first look whether what they require holds.

ghost use Rattle.std.specs.Prelude.{◌≡◌, ℕ, ◌≤◌, true, List, length, slice_index, IfOk};
ghost use Rattle.xs_base.specs.File.{is_mxcsr};
ghost use Rattle.xs_base.specs.Layout.{has_row};
ghost use Rattle.xs_base.specs.Sets.{has};
ghost use Rattle.xs_bank.specs.Bank.{IsReady};
ghost use Rattle.xs_bank_facts.specs.Turn.{KeepsReady};

use xs_area::{Area, has_named_places, xcomp_bv};
use xs_bank::{Bank, Trap};
use xs_base::{Comp, Features, Lane, Place};
use xs_layout::Layout;
use xs_regs::place_of;

/// Why a call isn't answered: it can't be made, since the machine or the area has no room for it, or it traps.
#[derive(Clone, Copy)]
pub enum Refusal {
    /// The machine or the area has no room for it.
    NotMade,
    /// It traps.
    Trapped(Trap),
}

/// XCOMP_BV of an area, and 0 where it has no header.
pub fn names_of(area: &Area) -> u64 {
    if area.bytes.len() < 576 {
        return 0;
    }
    xcomp_bv(&area.bytes)
}

/// The format of an area.
#[derive(Clone, Copy)]
pub enum Format {
    /// Where each component stands at its machine's offset.
    Standard,
    /// Where the components that XCOMP_BV names stand close together.
    Compacted,
}

/// The machine's components of a set.
pub fn of_machine(layout: &Layout, set: Features) -> Features
    ensures { (c : ℕ) → has result.0 c ≡ true → has_row layout.now c ≡ true }
{
    Features(layout.features().0 & set.0)
}

/// Sets a bank up: it tracks no area.
pub fn start<B: Bank>(bank: &mut B, layout: &Layout)
    ensures rows { (B.state bank.new).file.rows ≡ layout.now }
    ensures ready { (id m : ℕ) (area : List ℕ) → IsReady (B.state bank.new) id m area }
{
    bank.set_up(layout);
}

/// Reads a register by its name.
pub fn read<B: Bank>(bank: &mut B, layout: &Layout, name: &str) -> Result<Lane, Refusal>
    requires { (B.state bank.old).file.rows ≡ layout.now }
    ensures { KeepsReady (B.state bank.old) (B.state bank.new) }
{
    let Some(place) = place_of(name, layout) else {
        return Err(Refusal::NotMade);
    };
    match bank.read(place) {
        Ok(lane) => Ok(lane),
        Err(trap) => Err(Refusal::Trapped(trap)),
    }
}

/// Writes a register by its name: as many of the bytes as it has. Bytes 2 and 3 of MXCSR become zero.
pub fn write<B: Bank>(
    bank: &mut B,
    layout: &Layout,
    name: &str,
    bytes: [u8; 64],
) -> Result<(), Refusal>
    requires { (B.state bank.old).file.rows ≡ layout.now }
    ensures { KeepsReady (B.state bank.old) (B.state bank.new) }
{
    let Some(place) = place_of(name, layout) else {
        return Err(Refusal::NotMade);
    };
    match bank.write(place, &lane_of(place, bytes)) {
        Ok(()) => Ok(()),
        Err(trap) => Err(Refusal::Trapped(trap)),
    }
}

/// The bytes that a register has. Bytes 2 and 3 of MXCSR are zero.
fn lane_of(place: Place, bytes: [u8; 64]) -> Lane
    requires { place.len ≤ 64 }
    ensures len { length result ≡ place.len }
    ensures control { is_mxcsr place ≡ true → (slice_index result 2 ≡ 0) × (slice_index result 3 ≡ 0) }
{
    let mut all = bytes;
    if place.is_mxcsr() {
        all[2] = 0;
        all[3] = 0;
    }
    Lane::from_slice(&all[..place.len as usize])
}

/// Arms TILEDATA or nothing, where the machine has TILEDATA.
pub fn arm<B: Bank>(bank: &mut B, layout: &Layout, tiles: bool) -> Result<(), Refusal>
    requires { (B.state bank.old).file.rows ≡ layout.now }
    ensures { KeepsReady (B.state bank.old) (B.state bank.new) }
{
    if !layout.has_row(Comp::TILEDATA) {
        return Err(Refusal::NotMade);
    }
    bank.set_xfd(if tiles {
        Features::TILEDATA
    } else {
        Features(0)
    });
    Ok(())
}

/// Saves into a buffer in the standard format.
pub fn save_buffer<B: Bank>(
    bank: &mut B,
    layout: &Layout,
    mask: Features,
    into: &mut [u8],
) -> Result<(), Refusal>
    requires { (B.state bank.old).file.rows ≡ layout.now }
    ensures { KeepsReady (B.state bank.old) (B.state bank.new) }
{
    let mask = of_machine(layout, mask);
    if into.len() < layout.standard_size(mask) as usize {
        return Err(Refusal::NotMade);
    }
    bank.xsave(mask, into);
    Ok(())
}

/// Loads an area in the compacted format.
fn load_compacted<B: Bank>(
    bank: &mut B,
    layout: &Layout,
    mask: Features,
    area: &Area,
) -> Result<(), Refusal>
    requires { (B.state bank.old).file.rows ≡ layout.now }
    ensures rows { (B.state bank.new).file.rows ≡ layout.now }
    ensures ready { IfOk result (λ _. (m : ℕ) → IsReady (B.state bank.new) area.now.id m area.now.bytes.items) }
    ensures others { IfOk result (λ _. (id m : ℕ) (bytes : List ℕ) → (id ≡ area.now.id → ⊥) → IsReady (B.state bank.new) id m bytes) }
{
    if !has_named_places(layout, area) {
        return Err(Refusal::NotMade);
    }
    match bank.xrstors(of_machine(layout, mask), area) {
        Ok(()) => Ok(()),
        Err(trap) => Err(Refusal::Trapped(trap)),
    }
}

/// Loads an area in the standard format.
fn load_standard<B: Bank>(
    bank: &mut B,
    layout: &Layout,
    mask: Features,
    area: &Area,
) -> Result<(), Refusal>
    requires { (B.state bank.old).file.rows ≡ layout.now }
    ensures rows { (B.state bank.new).file.rows ≡ layout.now }
    ensures ready { IfOk result (λ _. (m : ℕ) → IsReady (B.state bank.new) area.now.id m area.now.bytes.items) }
    ensures others { IfOk result (λ _. (id m : ℕ) (bytes : List ℕ) → (id ≡ area.now.id → ⊥) → IsReady (B.state bank.new) id m bytes) }
{
    let mask = of_machine(layout, mask);
    if area.bytes.len() < layout.standard_size(mask) as usize {
        return Err(Refusal::NotMade);
    }
    match bank.xrstor(mask, area) {
        Ok(()) => Ok(()),
        Err(trap) => Err(Refusal::Trapped(trap)),
    }
}

/// Saves into an area in the compacted format.
fn save_compacted<B: Bank>(
    bank: &mut B,
    layout: &Layout,
    mask: Features,
    area: &mut Area,
) -> Result<(), Refusal>
    requires rows { (B.state bank.old).file.rows ≡ layout.now }
    requires machine { (c : ℕ) → has mask.0 c ≡ true → has_row layout.now c ≡ true }
    requires ready { IsReady (B.state bank.old) area.old.id mask.0 area.old.bytes.items }
    ensures rows { (B.state bank.new).file.rows ≡ layout.now }
    ensures id { area.new.id ≡ area.old.id }
    ensures ready { IsReady (B.state bank.new) area.new.id mask.0 area.new.bytes.items }
{
    if area.bytes.len() < layout.compact_size(mask) as usize {
        return Err(Refusal::NotMade);
    }
    bank.xsaves(mask, area);
    Ok(())
}

/// Saves into an area in the standard format.
fn save_standard<B: Bank>(
    bank: &mut B,
    layout: &Layout,
    mask: Features,
    area: &mut Area,
) -> Result<(), Refusal>
    requires rows { (B.state bank.old).file.rows ≡ layout.now }
    requires machine { (c : ℕ) → has mask.0 c ≡ true → has_row layout.now c ≡ true }
    requires ready { IsReady (B.state bank.old) area.old.id mask.0 area.old.bytes.items }
    ensures rows { (B.state bank.new).file.rows ≡ layout.now }
    ensures id { area.new.id ≡ area.old.id }
    ensures ready { IsReady (B.state bank.new) area.new.id mask.0 area.new.bytes.items }
{
    if area.bytes.len() < layout.standard_size(mask) as usize {
        return Err(Refusal::NotMade);
    }
    if xcomp_bv(&area.bytes) != 0 {
        return Err(Refusal::NotMade);
    }
    bank.xsaveopt(mask, area);
    Ok(())
}

/// Loads an area in one of the formats.
pub fn load<B: Bank>(
    bank: &mut B,
    layout: &Layout,
    format: Format,
    mask: Features,
    area: &Area,
) -> Result<(), Refusal>
    requires { (B.state bank.old).file.rows ≡ layout.now }
    ensures rows { (B.state bank.new).file.rows ≡ layout.now }
    ensures ready { IfOk result (λ _. (m : ℕ) → IsReady (B.state bank.new) area.now.id m area.now.bytes.items) }
    ensures others { IfOk result (λ _. (id m : ℕ) (bytes : List ℕ) → (id ≡ area.now.id → ⊥) → IsReady (B.state bank.new) id m bytes) }
{
    match format {
        Format::Standard => load_standard(bank, layout, mask, area),
        Format::Compacted => load_compacted(bank, layout, mask, area),
    }
}

/// Saves into an area: in the standard format where that is asked for and the area isn't compacted.
pub fn save<B: Bank>(
    bank: &mut B,
    layout: &Layout,
    format: Format,
    mask: Features,
    area: &mut Area,
) -> Result<(), Refusal>
    requires rows { (B.state bank.old).file.rows ≡ layout.now }
    requires machine { (c : ℕ) → has mask.0 c ≡ true → has_row layout.now c ≡ true }
    requires ready { IsReady (B.state bank.old) area.old.id mask.0 area.old.bytes.items }
    ensures rows { (B.state bank.new).file.rows ≡ layout.now }
    ensures id { area.new.id ≡ area.old.id }
    ensures ready { IsReady (B.state bank.new) area.new.id mask.0 area.new.bytes.items }
{
    match format {
        Format::Standard if names_of(area) == 0 => save_standard(bank, layout, mask, area),
        _ => save_compacted(bank, layout, mask, area),
    }
}
