//! A save: an area comes to stand for the registers of a bank.

ghost use Rattle.std.specs.Prelude.{◌≡◌, ℕ, ◌&&◌};
ghost use Rattle.xs_base.specs.Area.{StandsFor};
ghost use Rattle.xs_base.specs.File.{is_saved};
ghost use Rattle.xs_base.specs.Header.{xcomp_bv};
ghost use Rattle.xs_base.specs.KernelArea as kernel;
ghost use Rattle.xs_base.specs.Sets.{has};
ghost use Rattle.xs_base.specs.Trail.{counted};
ghost use Rattle.xs_bank.specs.Bank.{IsReady};
ghost use Rattle.xs_task.specs.Marks.{is_marked_in};
ghost use Rattle.xs_task.specs.TaskArea.{IsTaskArea};
ghost use Rattle.xs_switch.specs.Armed.{armed_for};

use xs_area::{Lease, class_features};
use xs_bank::Bank;
use xs_layout::Layout;

/// Saves a task's registers into its area, those of every component of its class.
pub fn save<B: Bank>(bank: &mut B, layout: &Layout, lease: &mut Lease)
    requires machine { (B.state bank.old).file.rows ≡ layout.now }
    requires area { IsTaskArea layout.now lease.old }
    requires armed { (B.state bank.old).armed ≡ armed_for layout.now lease.old.class }
    requires ready { IsReady (B.state bank.old) lease.old.area.id (kernel.class_features layout.now lease.old.class) lease.old.area.bytes.items }
    ensures area { IsTaskArea layout.now lease.new }
    ensures class { lease.new.class ≡ lease.old.class }
    ensures id { lease.new.area.id ≡ lease.old.area.id }
    ensures form { xcomp_bv lease.new.area.bytes.items ≡ xcomp_bv lease.old.area.bytes.items }
    ensures stands { StandsFor layout.now lease.new.area.bytes.items (B.state bank.old).file }
    ensures marks { (c : ℕ) → is_marked_in lease.new.area.bytes.items c ≡ (has (kernel.class_features layout.now lease.old.class) c && is_saved (B.state bank.old).file c) }
    ensures bank { B.state bank.new ≡ record (B.state bank.old) { saves = counted (B.state bank.old).saves } }
    ensures ready { IsReady (B.state bank.new) lease.new.area.id (kernel.class_features layout.now lease.new.class) lease.new.area.bytes.items }
{
    // The bank has a file of its machine, and TILEDATA is initial while it is armed.
    let _ = bank.loads();
    let mask = class_features(layout, lease.class);
    bank.xsaves(mask, &mut lease.area);
}
