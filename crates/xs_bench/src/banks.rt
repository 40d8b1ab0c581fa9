//! The instructions of a bank, each made many times. A turn with a save takes a byte of the area into a sum. One with a load first
//! changes eight bytes of the area and its XSTATE_BV, and takes PKRU into the sum, which at the end takes a byte of two
//! registers. So no compiler leaves a call out.

ghost use Rattle.std.specs.Prelude.{◌≡◌, ◌≤◌, ℕ, List, length, IfSome};
ghost use Rattle.xs_base.specs.Header as header;
ghost use Rattle.xs_bank.specs.Bank.{IsReady};

use crate::command::BankCall;
use crate::inputs::Inputs;
use crate::repeats::{change, put_state, sum_with};
use xs_area::{Area, Class, class_features, has_named_places};
use xs_bank::Bank;
use xs_base::{Features, Lane};
use xs_layout::Layout;
use xs_regs::place_of;

/// Every component.
const ALL: Features = Features(u64::MAX);

/// Makes an instruction of this bank so many times, and answers the sum; None where its inputs don't meet its conditions.
pub fn repeat_bank_call<B: Bank>(
    bank: &mut B,
    inputs: &mut Inputs,
    call: BankCall,
    turns: u64,
) -> Option<u64>
    requires { inputs.old.area.id ≡ inputs.old.other.id → ⊥ }
{
    let layout = &inputs.layout;
    let (area, other) = (&mut inputs.area, &mut inputs.other);
    start(bank, layout);
    match call {
        BankCall::LoadFull | BankCall::LoadOne | BankCall::LoadInitial => {
            repeat_loads(bank, layout, area, set_of(call), turns)
        }
        BankCall::SaveFull => {
            load(bank, layout, area)?;
            other.bytes.fill(0);
            repeat_saves(bank, layout, other, turns)
        }
        _ => {
            prepare(bank, layout, area, call)?;
            repeat_saves(bank, layout, area, turns)
        }
    }
}

/// Brings a bank to where a save into the area that was loaded begins.
fn prepare<B: Bank>(bank: &mut B, layout: &Layout, area: &Area, call: BankCall) -> Option<()>
    requires rows { (B.state bank.old).file.rows ≡ layout.now }
    requires ready { (m : ℕ) → IsReady (B.state bank.old) area.now.id m area.now.bytes.items }
    ensures rows { IfSome result (λ _. (B.state bank.new).file.rows ≡ layout.now) }
    ensures ready { IfSome result (λ _. (m : ℕ) → IsReady (B.state bank.new) area.now.id m area.now.bytes.items) }
{
    match call {
        BankCall::SaveOne => {
            load(bank, layout, area)?;
            write_sse(bank, layout)?;
            Some(())
        }
        BankCall::SaveUnmodified => load(bank, layout, area),
        _ => Some(()),
    }
}

/// The components that the area has state of in the odd turns of a load.
fn set_of(call: BankCall) -> Features {
    match call {
        BankCall::LoadOne => Features::SSE,
        BankCall::LoadInitial => Features(0),
        _ => ALL,
    }
}

/// Sets a bank up with nothing armed: it tracks no area.
fn start<B: Bank>(bank: &mut B, layout: &Layout)
    ensures rows { (B.state bank.new).file.rows ≡ layout.now }
    ensures ready { (id m : ℕ) (area : List ℕ) → IsReady (B.state bank.new) id m area }
{
    bank.set_up(layout);
    bank.set_xfd(Features(0));
}

/// Loads an area. None where it has not the places that it names, or is refused.
fn load<B: Bank>(bank: &mut B, layout: &Layout, area: &Area) -> Option<()>
    requires { (B.state bank.old).file.rows ≡ layout.now }
    ensures rows { (B.state bank.new).file.rows ≡ layout.now }
    ensures ready { IfSome result (λ _. (m : ℕ) → IsReady (B.state bank.new) area.now.id m area.now.bytes.items) }
    ensures others { IfSome result (λ _. (id m : ℕ) (bytes : List ℕ) → (id ≡ area.now.id → ⊥) → IsReady (B.state bank.new) id m bytes) }
{
    if !has_named_places(layout, area) {
        return None;
    }
    match bank.xrstors(class_features(layout, Class::Large), area) {
        Ok(()) => Some(()),
        Err(_) => None,
    }
}

/// Writes XMM0.
fn write_sse<B: Bank>(bank: &mut B, layout: &Layout) -> Option<()>
    requires { (B.state bank.old).file.rows ≡ layout.now }
    ensures rows { IfSome result (λ _. (B.state bank.new).file.rows ≡ layout.now) }
    ensures ready { IfSome result (λ _. (id m : ℕ) (area : List ℕ) → IsReady (B.state bank.old) id m area → IsReady (B.state bank.new) id m area) }
{
    let place = place_of("xmm0", layout)?;
    if place.len != 16 || place.offset != 0 {
        return None;
    }
    match bank.write(place, &Lane::from_slice(&[2; 16])) {
        Ok(()) => Some(()),
        Err(_) => None,
    }
}

/// Saves every component of the machine but PKRU.
fn repeat_saves<B: Bank>(bank: &mut B, layout: &Layout, area: &mut Area, turns: u64) -> Option<u64>
    requires rows { (B.state bank.old).file.rows ≡ layout.now }
    requires ready { (m : ℕ) → IsReady (B.state bank.old) area.old.id m area.old.bytes.items }
{
    let mask = class_features(layout, Class::Large);
    if area.bytes.len() < 8192 || area.bytes.len() < layout.compact_size(mask) as usize {
        return None;
    }
    let mut sum = 0;
    'turns: for turn in 0..turns {
        bank.xsaves(mask, area);
        sum = sum_with(sum, &area.bytes, turn);
    }
    Some(sum)
}

/// Loads every component of the machine but PKRU, from the area that in turn has state of each of them and of those of the
/// set alone. So a component outside the set comes from the area in one turn and is made initial in the next, and each load has
/// to move all of them. Takes the first byte of XMM0 and that of TMM0 into the sum at the end.
fn repeat_loads<B: Bank>(
    bank: &mut B,
    layout: &Layout,
    area: &mut Area,
    set: Features,
    turns: u64,
) -> Option<u64>
    requires { (B.state bank.old).file.rows ≡ layout.now }
{
    let sum = load_in_turn(bank, layout, area, set, turns)?;
    let sse = u64::from(first_byte(bank, layout, "xmm0")?);
    let tile = u64::from(first_byte(bank, layout, "tmm0.0")?);
    Some(sum.wrapping_add(sse).wrapping_add(tile))
}

/// The loads of `repeat_loads`.
fn load_in_turn<B: Bank>(
    bank: &mut B,
    layout: &Layout,
    area: &mut Area,
    set: Features,
    turns: u64,
) -> Option<u64>
    requires { (B.state bank.old).file.rows ≡ layout.now }
    ensures { IfSome result (λ _. (B.state bank.new).file.rows ≡ layout.now) }
{
    if !has_named_places(layout, area) {
        return None;
    }
    let mask = class_features(layout, Class::Large);
    let mut sum: u64 = 0;
    'turns: for turn in 0..turns {
        give_state(area, state_of(mask, set, turn), turn);
        bank.xrstors(mask, area).ok()?;
        sum = sum.wrapping_mul(31).wrapping_add(u64::from(bank.rdpkru()));
    }
    Some(sum)
}

/// Changes eight bytes of the area, and says that it has state of these components.
fn give_state(area: &mut Area, bits: Features, turn: u64)
    requires { 576 ≤ length area.old.bytes.items }
    ensures len { length area.new.bytes.items ≡ length area.old.bytes.items }
    ensures names { header.xcomp_bv area.new.bytes.items ≡ header.xcomp_bv area.old.bytes.items }
{
    let bytes = area.bytes.as_mut_slice();
    change(bytes, turn);
    put_state(bytes, bits);
}

/// The components that an area has state of in a turn: all of the mask in the even ones, those of the set in the odd ones.
fn state_of(mask: Features, set: Features, turn: u64) -> Features {
    if turn % 2 == 0 {
        mask
    } else {
        Features(mask.0 & set.0)
    }
}

/// The first byte of a register. None where the machine lacks it, or the instruction is refused.
fn first_byte<B: Bank>(bank: &mut B, layout: &Layout, name: &str) -> Option<u8>
    requires { (B.state bank.old).file.rows ≡ layout.now }
    ensures { IfSome result (λ _. (B.state bank.new).file.rows ≡ layout.now) }
{
    let lane = bank.read(place_of(name, layout)?).ok()?;
    lane.as_slice().first().copied()
}
