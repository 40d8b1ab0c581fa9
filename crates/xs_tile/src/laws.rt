//! A law of growth.

ghost use Rattle.std.specs.Prelude.{◌≡◌, List};
ghost use Rattle.xs_base.specs.declared.component.Row.{Row};
ghost use Rattle.xs_base.specs.Task.{PrivateTask, IsPrivateTask, marks_after};
ghost use Rattle.xs_base.specs.Tile.{grown};

/// Growth changes none of the marks that a task has after a turn: without room for TILEDATA it is initial, so that no save
/// has it. A call does nothing.
pub fn growth_keeps_the_marks()
    ensures { (rows : List Row) (task : PrivateTask) → IsPrivateTask rows task → marks_after (grown task) ≡ marks_after task }
{}
