//! A restore: a bank takes the registers that an area stands for.

ghost use Rattle.std.specs.Prelude.{◌≡◌, ℕ};
ghost use Rattle.xs_base.specs.Area.{StandsFor};
ghost use Rattle.xs_base.specs.Component.{pkru_number};
ghost use Rattle.xs_base.specs.Counts.{one_load};
ghost use Rattle.xs_base.specs.File.{File, IsFile, AreSameButPkru, part};
ghost use Rattle.xs_bank.specs.Bank.{counts_of, IsReady};
ghost use Rattle.xs_task.specs.TaskArea.{IsTaskArea};
ghost use Rattle.xs_switch.specs.Armed.{armed_for};

use crate::arm::arm;
use xs_area::{Class, Lease, class_features};
use xs_bank::Bank;
use xs_layout::Layout;

/// Restores the registers that a task's area stands for. The mask is every component but PKRU, so that what another task left
/// becomes initial (Linux 6.6, arch/x86/kernel/fpu/core.c, restore_fpregs_from_fpstate).
pub fn restore<B: Bank>(bank: &mut B, layout: &Layout, lease: &Lease)
    requires machine { (B.state bank.old).file.rows ≡ layout.now }
    requires area { IsTaskArea layout.now lease.now }
    ensures machine { (B.state bank.new).file.rows ≡ layout.now }
    ensures file { (file : File) → IsFile file → StandsFor layout.now lease.now.area.bytes.items file → AreSameButPkru file (B.state bank.new).file }
    ensures pkru { part (B.state bank.new).file pkru_number ≡ part (B.state bank.old).file pkru_number }
    ensures armed { (B.state bank.new).armed ≡ armed_for layout.now lease.now.class }
    ensures counts { counts_of (B.state bank.new) ≡ one_load (counts_of (B.state bank.old)) }
    ensures ready { (m : ℕ) → IsReady (B.state bank.new) lease.now.area.id m lease.now.area.bytes.items }
{
    arm(bank, layout, lease.class);
    let mask = class_features(layout, Class::Large);
    match bank.xrstors(mask, &lease.area) {
        Ok(()) => {}
        Err(_) => unreachable!(),
    }
}
