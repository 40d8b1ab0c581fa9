//! The registers of a handler before its first line, and those of a task whose frame is refused.

ghost use Rattle.std.specs.Prelude.{◌≡◌, ℕ, List};
ghost use Rattle.xs_base.specs.Counts.{one_load};
ghost use Rattle.xs_base.specs.Task.{start_file};
ghost use Rattle.xs_bank.specs.Bank.{counts_of, IsReady};
ghost use Rattle.xs_bank.specs.SetUp.{WasSetUp};

use xs_area::class_features;
use xs_bank::{Bank, Cpu};
use xs_base::{Class, START_PKRU};
use xs_switch::give_pkru;

/// Makes every register initial, PKRU aside, by a load of the processor's initial area (Linux 6.6, arch/x86/kernel/fpu/core.c,
/// fpu__clear_user_states), and gives PKRU the value that a handler starts with. No area of a task was loaded last.
pub fn make_initial<B: Bank>(cpu: &mut Cpu<B>)
    requires set_up { WasSetUp cpu.old.layout (B.state cpu.old.bank) cpu.old.initial }
    ensures set_up { WasSetUp cpu.new.layout (B.state cpu.new.bank) cpu.new.initial }
    ensures cpu { cpu.new ≡ record cpu.old { bank = cpu.new.bank } }
    ensures file { (B.state cpu.new.bank).file ≡ start_file cpu.old.layout }
    ensures armed { (B.state cpu.new.bank).armed ≡ (B.state cpu.old.bank).armed }
    ensures ready { (id m : ℕ) (area : List ℕ) → (id ≡ 0 → ⊥) → IsReady (B.state cpu.new.bank) id m area }
    ensures counts { counts_of (B.state cpu.new.bank) ≡ one_load (counts_of (B.state cpu.old.bank)) }
{
    // The rows pass every test of a table.
    let _ = cpu.layout.len();
    let mask = class_features(&cpu.layout, Class::Large);
    match cpu.bank.xrstors(mask, cpu.initial.area()) {
        Ok(()) => {}
        Err(_) => unreachable!(),
    }
    give_pkru(&mut cpu.bank, START_PKRU);
}
