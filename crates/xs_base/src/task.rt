//! Private tasks and their files, and the PKRU that a task starts with.

ghost use Rattle.std.specs.Prelude.{List};
ghost use Rattle.xs_base.specs.declared.component.Row.{Row};
ghost use Rattle.xs_base.specs.Layout.{IsLayout};
ghost use Rattle.xs_base.specs.File.{initial_file};
ghost use Rattle.xs_base.specs.Task.{IsFileOf, IsPrivateTask, root_task};

/// The PKRU that a task starts with and that a handler has at its first line: only key 0 may be used (Linux 6.6,
/// arch/x86/mm/pkeys.c, init_pkru_value).
pub const START_PKRU: u32 = 0x5555_5554;

/// On each machine the initial file is one that a task may have. A call does nothing.
pub fn the_initial_file_is_valid()
    ensures { (rows : List Row) → IsLayout rows → IsFileOf rows (initial_file rows) }
{}

/// On each machine a task that no fork has made is a valid private task. A call does nothing.
pub fn a_root_task_is_valid()
    ensures { (rows : List Row) → IsLayout rows → IsPrivateTask rows (root_task rows) }
{}
