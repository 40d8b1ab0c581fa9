//! PKRU, which a switch writes apart.

ghost use Rattle.std.specs.Prelude.{◌≡◌, ℕ, List};
ghost use Rattle.xs_base.specs.Component.{pkru_number};
ghost use Rattle.xs_base.specs.File.{File, IsFile, AreSameButPkru, part, pkru_bytes, with_pkru};
ghost use Rattle.xs_base.specs.Task.{start_pkru};
ghost use Rattle.xs_bank.specs.Bank.{counts_of, IsReady};
ghost use Rattle.xs_bank.specs.SetUp.{WasSetUp};
ghost use Rattle.xs_switch.specs.Pkru.{given_pkru};

use xs_bank::{Bank, Cpu};
use xs_base::START_PKRU;

/// Gives the bank this PKRU, and writes it only where the bank has another (Linux 6.6, arch/x86/include/asm/pkru.h,
/// write_pkru).
#[tactic(auto, using(crate::proofs::SwitchLemmas::same_file))]
pub fn give_pkru<B: Bank>(bank: &mut B, value: u32)
    ensures given { B.state bank.new ≡ given_pkru (B.state bank.old) value }
    ensures file { (B.state bank.new).file ≡ with_pkru (B.state bank.old).file value }
    ensures same { (file : File) → IsFile file → AreSameButPkru file (B.state bank.old).file → part file pkru_number ≡ pkru_bytes value → (B.state bank.new).file ≡ file }
    ensures armed { (B.state bank.new).armed ≡ (B.state bank.old).armed }
    ensures counts { counts_of (B.state bank.new) ≡ counts_of (B.state bank.old) }
    ensures ready { (id m : ℕ) (area : List ℕ) → IsReady (B.state bank.old) id m area → IsReady (B.state bank.new) id m area }
{
    // The bank has a file of its machine.
    let _ = bank.loads();
    if bank.rdpkru() != value {
        bank.wrpkru(value);
    }
}

/// Gives the bank the PKRU of a kernel thread, which is that of a task's start for its whole life (Linux 6.6,
/// arch/x86/kernel/process.c, copy_thread; that a kernel thread keeps it is this project's own). Everything else stays.
pub fn to_kernel<B: Bank>(cpu: &mut Cpu<B>)
    requires set_up { WasSetUp cpu.old.layout (B.state cpu.old.bank) cpu.old.initial }
    ensures set_up { WasSetUp cpu.new.layout (B.state cpu.new.bank) cpu.new.initial }
    ensures given { B.state cpu.new.bank ≡ given_pkru (B.state cpu.old.bank) start_pkru }
    ensures file { (B.state cpu.new.bank).file ≡ with_pkru (B.state cpu.old.bank).file start_pkru }
    ensures armed { (B.state cpu.new.bank).armed ≡ (B.state cpu.old.bank).armed }
    ensures counts { counts_of (B.state cpu.new.bank) ≡ counts_of (B.state cpu.old.bank) }
    ensures cpu { cpu.new ≡ record cpu.old { bank = cpu.new.bank } }
{
    give_pkru(&mut cpu.bank, START_PKRU);
}
