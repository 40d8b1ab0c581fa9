//! The registers of a task that begins a turn.

ghost use Rattle.std.specs.Prelude.{◌≡◌, ℕ};
ghost use Rattle.xs_base.specs.declared.words.How.TheVariants as hows;
ghost use Rattle.xs_base.specs.Area.{StandsFor};
ghost use Rattle.xs_base.specs.Component.{pkru_number};
ghost use Rattle.xs_base.specs.Counts.{after_start};
ghost use Rattle.xs_base.specs.File.{File, IsFile, part};
ghost use Rattle.xs_base.specs.KernelArea.{class_features};
ghost use Rattle.xs_bank.specs.Bank.{counts_of, IsReady};
ghost use Rattle.xs_task.specs.TaskArea.{IsTaskArea};
ghost use Rattle.xs_switch.specs.Running.{IsInBank};

use crate::restoring::restore;
use xs_area::Lease;
use xs_bank::{Bank, an_area_of_the_registers_is_ready};
use xs_base::How;
use xs_layout::Layout;

/// The registers come from the area, or the bank still has them: an area that stands for them is ready to save.
pub fn take_registers<B: Bank>(bank: &mut B, layout: &Layout, lease: &Lease, how: How)
    requires machine { (B.state bank.old).file.rows ≡ layout.now }
    requires area { IsTaskArea layout.now lease.now }
    requires user { how ≡ hows.Kern → ⊥ }
    ensures machine { (B.state bank.new).file.rows ≡ layout.now }
    ensures in_bank { (file : File) → IsFile file → StandsFor layout.now lease.now.area.bytes.items file → (how ≡ hows.Skip → IsInBank layout.now lease.now (B.state bank.old) file) → IsInBank layout.now lease.now (B.state bank.new) file }
    ensures ready { (file : File) → IsFile file → StandsFor layout.now lease.now.area.bytes.items file → (how ≡ hows.Skip → IsInBank layout.now lease.now (B.state bank.old) file) → IsReady (B.state bank.new) lease.now.area.id (class_features layout.now lease.now.class) lease.now.area.bytes.items }
    ensures skipped { how ≡ hows.Skip → B.state bank.new ≡ B.state bank.old }
    ensures pkru { part (B.state bank.new).file pkru_number ≡ part (B.state bank.old).file pkru_number }
    ensures counts { counts_of (B.state bank.new) ≡ after_start how (counts_of (B.state bank.old)) }
{
    an_area_of_the_registers_is_ready();
    match how {
        How::Load => restore(bank, layout, lease),
        How::Skip => {}
        How::Kern => unreachable!(),
    }
}
