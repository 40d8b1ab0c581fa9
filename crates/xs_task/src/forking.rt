//! The child of a fork: its area takes over what its parent's stands for.

ghost use Rattle.std.specs.Prelude.{◌≡◌, ℕ, ◌<◌, ◌^◌, ◌&&◌, true, false, Some, None};
ghost use Rattle.xs_base.specs.declared.class.Class.TheVariants.{Small};
ghost use Rattle.xs_area.specs.declared.area.Lease.{Lease};
ghost use Rattle.xs_base.specs.Area.{StandsFor};
ghost use Rattle.xs_base.specs.Bytes.{zeros};
ghost use Rattle.xs_base.specs.File.{File, IsFile};
ghost use Rattle.xs_base.specs.Header.{xcomp_bv};
ghost use Rattle.xs_base.specs.KernelArea.{class_features};
ghost use Rattle.xs_base.specs.Sets.{has};
ghost use Rattle.xs_base.specs.Task.{PrivateTask, marks_after, child_of, frame_length, buffer_length};
ghost use Rattle.xs_task.specs.Marks.{is_marked_in};
ghost use Rattle.xs_task.specs.Parked.{IsParked};
ghost use Rattle.xs_task.specs.TaskArea.{IsTask, IsTaskArea, IsCutTo, KeepsArea};

use crate::task::Task;
use xs_area::{Lease, a_file_can_be_cut, copy_area};
use xs_layout::Layout;

/// Makes a task's area stand for what another one stands for, as far as its class has a place for it. Its class, its number and
/// its XCOMP_BV stay, and a component is marked in it that was marked in the other one and that its class has a place for.
pub fn copy_lease(layout: &Layout, from: &Lease, to: &mut Lease)
    requires from { IsTaskArea layout.now from.now }
    requires to { IsTaskArea layout.now to.old }
    ensures area { IsTaskArea layout.now to.new }
    ensures class { to.new.class ≡ to.old.class }
    ensures id { to.new.area.id ≡ to.old.area.id }
    ensures form { xcomp_bv to.new.area.bytes.items ≡ xcomp_bv to.old.area.bytes.items }
    ensures stands { (file cut : File) → IsFile file → IsFile cut → StandsFor layout.now from.now.area.bytes.items file → IsCutTo layout.now to.old.class file cut → StandsFor layout.now to.new.area.bytes.items cut }
    ensures marks { (c : ℕ) → is_marked_in to.new.area.bytes.items c ≡ (is_marked_in from.now.area.bytes.items c && has (class_features layout.now to.old.class) c) }
{
    a_file_can_be_cut();
    copy_area(layout, &from.area, &mut to.area);
}

/// Makes a task with a Small area the child of a parked one, before its first turn: it has its parent's registers but for
/// TILEDATA, which is initial, its parent's PKRU and its parent's permission, and memories of its own (Linux 6.6,
/// arch/x86/kernel/fpu/core.c, fpu_clone and fpu_inherit_perms; arch/x86/kernel/process.c, copy_thread). No processor has its
/// registers. The class of its area, its number and its XCOMP_BV stay.
pub fn fork_into(layout: &Layout, parent: &Task, child: &mut Task)
    requires parent { IsTask layout.now parent.now }
    requires child { IsTask layout.now child.old }
    requires small { (lease : Lease) → child.old.lease ≡ Some lease → lease.class ≡ Small }
    ensures whole { IsTask layout.now child.new }
    ensures parked { (p : PrivateTask) → IsParked layout.now parent.now p → p.marks ≡ marks_after p → IsParked layout.now child.new (child_of p) }
    ensures name { child.new.name ≡ child.old.name }
    ensures last { child.new.last ≡ None }
    ensures area { KeepsArea child.old.lease child.new.lease }
    ensures own { child.new.pkru ≡ parent.now.pkru }
    ensures frame { child.new.frame.items ≡ zeros frame_length }
    ensures buffer { child.new.buffer.items ≡ zeros buffer_length }
    ensures others { child.new ≡ record child.old { lease = child.new.lease; last = None; need_load = true; pkru = parent.now.pkru; permitted = parent.now.permitted; frame = child.new.frame; buffer = child.new.buffer; handling = false; place = 0; back = 0 } }
{
    child.clear_memories();
    inherit(layout, parent, child);
}

/// What `fork_into` does but for the memories, which stay: for a task whose memories are zero, as they are in a task that was
/// never born. The area is copied once.
pub fn inherit(layout: &Layout, parent: &Task, child: &mut Task)
    requires parent { IsTask layout.now parent.now }
    requires child { IsTask layout.now child.old }
    requires small { (lease : Lease) → child.old.lease ≡ Some lease → lease.class ≡ Small }
    ensures whole { IsTask layout.now child.new }
    ensures parked { (p : PrivateTask) → IsParked layout.now parent.now p → p.marks ≡ marks_after p → child.old.frame.items ≡ zeros frame_length → child.old.buffer.items ≡ zeros buffer_length → IsParked layout.now child.new (child_of p) }
    ensures name { child.new.name ≡ child.old.name }
    ensures last { child.new.last ≡ None }
    ensures area { KeepsArea child.old.lease child.new.lease }
    ensures own { child.new.pkru ≡ parent.now.pkru }
    ensures others { child.new ≡ record child.old { lease = child.new.lease; last = None; need_load = true; pkru = parent.now.pkru; permitted = parent.now.permitted; handling = false; place = 0; back = 0 } }
{
    let Some(from) = &parent.lease else {
        unreachable!()
    };
    let Some(to) = &mut child.lease else {
        unreachable!()
    };
    copy_lease(layout, from, to);
    child.pkru = own_pkru(parent);
    child.permitted = parent.permitted;
    child.begin();
}

/// A task's PKRU, a number of 32 bits.
fn own_pkru(task: &Task) -> u32
    ensures is { result ≡ task.now.pkru }
    ensures small { task.now.pkru < 2 ^ 32 }
{
    task.pkru
}
