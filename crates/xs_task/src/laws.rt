//! Laws of what a task stands for.

ghost use Rattle.std.specs.Prelude.{◌≡◌, ℕ, ◌≤◌, true, List, length, Some, None};
ghost use Rattle.xs_base.specs.declared.component.Row.{Row};
ghost use Rattle.xs_area.specs.declared.area.Lease.{Lease};
ghost use Rattle.xs_base.specs.Area.{HasPlaces};
ghost use Rattle.xs_base.specs.Component.{pkru_number};
ghost use Rattle.xs_base.specs.File.{part, pkru_bytes, pkru_of};
ghost use Rattle.xs_base.specs.Header.{xstate_bv};
ghost use Rattle.xs_base.specs.Task.{PrivateTask, IsPrivateTask, parked};
ghost use Rattle.xs_task.specs.declared.task.Task.{Task};
ghost use Rattle.xs_task.specs.Marks.{IsSavedIn};
ghost use Rattle.xs_task.specs.Parked.{IsParked};
ghost use Rattle.xs_task.specs.Private.{HasForm};
ghost use Rattle.xs_task.specs.TaskArea.{IsTaskArea};

/// A task whose registers were saved into its area, with its PKRU beside, is parked and stands for its private task after the
/// turn, whose marks are those of the area. A call does nothing.
pub fn a_saved_task_is_parked()
    ensures { (rows : List Row) (task : Task) (private : PrivateTask) → IsPrivateTask rows private → task.need_load ≡ true → HasForm task private → (task.lease ≡ None → ⊥) → ((lease : Lease) → task.lease ≡ Some lease → IsSavedIn rows lease private.file) → part private.file pkru_number ≡ pkru_bytes task.pkru → pkru_of private.file ≡ task.pkru → IsParked rows task (parked private) }
{}

/// A task's area has the bytes of its header and those of each component that it has state of. A call does nothing.
pub fn an_area_has_its_places()
    ensures long { (rows : List Row) (lease : Lease) → IsTaskArea rows lease → 576 ≤ length lease.area.bytes.items }
    ensures places { (rows : List Row) (lease : Lease) → IsTaskArea rows lease → HasPlaces rows lease.area.bytes.items (xstate_bv lease.area.bytes.items) }
{}
