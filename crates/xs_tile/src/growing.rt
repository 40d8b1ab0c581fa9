//! An area with room for the tiles in place of one without.

ghost use Rattle.std.specs.Prelude.{◌≡◌, true, None, Some};
ghost use Rattle.xs_base.specs.declared.class.Class.TheVariants.{Large};
ghost use Rattle.xs_base.specs.Task.{PrivateTask, marks_after, parked};
ghost use Rattle.xs_base.specs.Tile.{grown};
ghost use Rattle.xs_task.specs.Parked.{IsParked};
ghost use Rattle.xs_task.specs.TaskArea.{IsTask, IsTaskArea, KeepsArea, has_large};

use crate::laws::growth_keeps_the_marks;
use xs_area::Lease;
use xs_layout::Layout;
use xs_task::{Task, copy_lease};

/// Gives a task an area with room for TILEDATA, into which its registers are copied, and answers its old area. No processor has
/// the registers of the task from then on (Linux 6.6, arch/x86/kernel/fpu/xstate.c, fpstate_realloc). That they are copied there,
/// and are loaded in the next turn, is this project's own.
pub fn grow(layout: &Layout, task: &mut Task, lease: Lease) -> Lease
    requires task { IsTask layout.now task.old }
    requires area { IsTaskArea layout.now lease }
    requires large { lease.class ≡ Large }
    ensures old { task.old.lease ≡ Some result }
    ensures old_area { IsTaskArea layout.now result }
    ensures whole { IsTask layout.now task.new }
    ensures area { KeepsArea (Some lease) task.new.lease }
    ensures large { has_large task.new.lease ≡ true }
    ensures others { task.new ≡ record task.old { lease = task.new.lease; last = None } }
    ensures parked { (p : PrivateTask) → IsParked layout.now task.old p → IsParked layout.now task.new (grown p) }
    ensures after_turn { (p : PrivateTask) → IsParked layout.now task.old p → p.marks ≡ marks_after p → IsParked layout.now task.new (parked (grown p)) }
{
    growth_keeps_the_marks();
    let Some(old) = task.lease.take() else {
        unreachable!()
    };
    let mut lease = lease;
    copy_lease(layout, &old, &mut lease);
    task.lease = Some(lease);
    task.last = None;
    old
}
