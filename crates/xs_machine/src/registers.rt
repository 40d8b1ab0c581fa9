//! Registers by their names, on a bank.

ghost use Rattle.std.specs.Prelude.{◌≡◌, ℕ, List, length, None, Some, IfOk, IfErr, MatchResult};
ghost use Rattle.std.specs.Int.{from_le_bytes, w32};
ghost use Rattle.xs_bank.specs.Bank as banks;
ghost use Rattle.xs_bank.specs.Bank.{IsReady};
ghost use Rattle.xs_base.specs.File.{read_place};
ghost use Rattle.xs_base.specs.Register.{IsRegister, place_of};
ghost use Rattle.xs_base.specs.declared.component.Place.{Place};
ghost use Rattle.xs_model.specs.declared.script.Command.TheVariants as commands;
ghost use Rattle.xs_model.specs.Script.{IsCommand};
ghost use Rattle.xs_machine.specs.Line.{after_get, after_set};

use xs_bank::{Bank, Trap};
use xs_base::{Comp, Lane, Place};
use xs_layout::Layout;
use xs_regs::place_of_bytes;

/// Sets a register of the machine: PKRU by WRPKRU, which isn't counted. Refused by #NM as the bank does.
pub fn write_register<B: Bank>(
    bank: &mut B,
    layout: &Layout,
    reg: &[u8],
    bytes: &Lane,
) -> Result<(), Trap>
    requires machine { (B.state bank.old).file.rows ≡ layout.now }
    requires known { IsCommand layout.now (commands.Set reg.now bytes.now) }
    ensures trap { MatchResult result (λ _. banks.write_trap (B.state bank.old).armed (place_of reg.now) ≡ None) (λ t. banks.write_trap (B.state bank.old).armed (place_of reg.now) ≡ Some t) }
    ensures after { IfOk result (λ _. B.state bank.new ≡ after_set (B.state bank.old) (place_of reg.now) bytes.now) }
    ensures ready { IfOk result (λ _. (id m : ℕ) (area : List ℕ) → IsReady (B.state bank.old) id m area → IsReady (B.state bank.new) id m area) }
    ensures kept { IfErr result (λ _. B.state bank.new ≡ B.state bank.old) }
{
    let place = place_in(layout, reg);
    if place.comp == Comp::PKRU {
        bank.wrpkru(word(bytes));
        return Ok(());
    }
    bank.write(place, bytes)
}

/// The bytes of a register of the machine: those of PKRU by RDPKRU, which isn't counted. Refused by #NM as the bank does.
pub fn read_register<B: Bank>(bank: &mut B, layout: &Layout, reg: &[u8]) -> Result<Lane, Trap>
    requires machine { (B.state bank.old).file.rows ≡ layout.now }
    requires known { IsCommand layout.now (commands.Get reg.now) }
    ensures trap { MatchResult result (λ _. banks.read_trap (B.state bank.old).armed (place_of reg.now) ≡ None) (λ t. banks.read_trap (B.state bank.old).armed (place_of reg.now) ≡ Some t) }
    ensures lane { IfOk result (λ lane. lane ≡ read_place (B.state bank.old).file (place_of reg.now)) }
    ensures after { IfOk result (λ lane. B.state bank.new ≡ after_get (B.state bank.old) (place_of reg.now) lane) }
    ensures kept { IfErr result (λ _. B.state bank.new ≡ B.state bank.old) }
{
    let place = place_in(layout, reg);
    if place.comp == Comp::PKRU {
        // The bank has a file of its machine.
        let _ = bank.loads();
        return Ok(Lane::from_slice(&bank.rdpkru().to_le_bytes()));
    }
    bank.read(place)
}

/// The number of four bytes, the lowest first.
fn word(bytes: &Lane) -> u32
    requires { length bytes.now ≡ 4 }
    ensures { result ≡ from_le_bytes w32 bytes.now }
{
    let bytes = bytes.as_slice();
    u32::from_le_bytes([bytes[0], bytes[1], bytes[2], bytes[3]])
}

/// The place of a register that the machine has.
fn place_in(layout: &Layout, reg: &[u8]) -> Place
    requires { (place : Place) × IsRegister layout.now reg.now place }
    ensures register { IsRegister layout.now reg.now result }
    ensures place { result ≡ place_of reg.now }
{
    let Some(place) = place_of_bytes(reg, layout) else {
        unreachable!()
    };
    place
}
