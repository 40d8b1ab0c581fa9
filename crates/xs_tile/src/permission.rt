//! Leave to use TILEDATA.

ghost use Rattle.std.specs.Prelude.{◌≡◌, true, None, Some, IfErr, IfOk, MatchResult};
ghost use Rattle.xs_base.specs.Task.{PrivateTask};
ghost use Rattle.xs_base.specs.Tile.{feature_error, permitted_task};
ghost use Rattle.xs_task.specs.Private.{HasForm};
ghost use Rattle.xs_task.specs.TaskArea.{has_large};
ghost use Rattle.xs_tile.specs.Need.{need_of};

use xs_base::{Class, Comp, Errno};
use xs_layout::Layout;
use xs_task::Task;

/// The numbers of components are below this one (Linux 6.6, arch/x86/include/asm/fpu/types.h, XFEATURE_MAX).
const COMPONENTS: u32 = 19;

/// The only component that a task must ask for.
const ASKED: u32 = 18;

/// What a task lacks where an instruction of the tiles raises #NM.
#[derive(Clone, Copy, PartialEq, Eq, Debug)]
pub enum Need {
    /// Leave to use TILEDATA.
    NeedsPermission,
    /// An area with room for it.
    NeedsArea,
    /// Nothing.
    Ready,
}

/// Gives a task leave to use TILEDATA, the only component for which leave is asked, or answers why it isn't given: the number is
/// none of a component, or it isn't TILEDATA or the machine has none. A task that has the leave gets it again; a refusal changes
/// nothing (Linux 6.6, arch/x86/kernel/fpu/xstate.c, fpu_xstate_prctl and xstate_request_perm).
pub fn request(layout: &Layout, task: &mut Task, feature: u32) -> Result<(), Errno>
    ensures error { MatchResult result (λ _. feature_error layout.now feature ≡ None) (λ e. feature_error layout.now feature ≡ Some e) }
    ensures granted { IfOk result (λ _. task.new ≡ record task.old { permitted = true }) }
    ensures form { (p : PrivateTask) → HasForm task.old p → IfOk result (λ _. HasForm task.new (permitted_task p)) }
    ensures refused { IfErr result (λ _. task.new ≡ task.old) }
{
    if feature >= COMPONENTS {
        return Err(Errno::Invalid);
    }
    if feature != ASKED || !layout.has_row(Comp::TILEDATA) {
        return Err(Errno::NotSupported);
    }
    task.permitted = true;
    Ok(())
}

/// What a task lacks where an instruction of the tiles raises #NM (Linux 6.6, arch/x86/kernel/traps.c, handle_xfd_event, and
/// arch/x86/kernel/fpu/xstate.c, __xfd_enable_feature).
pub fn first_use(task: &Task) -> Need
    ensures own { result ≡ need_of task.now.permitted (has_large task.now.lease) }
    ensures form { (p : PrivateTask) → HasForm task.now p → result ≡ need_of p.permitted p.large }
{
    if !task.permitted {
        return Need::NeedsPermission;
    }
    match &task.lease {
        Some(lease) => match lease.class {
            Class::Small => Need::NeedsArea,
            Class::Large => Need::Ready,
        },
        None => Need::NeedsArea,
    }
}
