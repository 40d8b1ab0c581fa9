//! A task whose line uses tiles for which it has no room.

ghost use Rattle.std.specs.Prelude.{◌≡◌, None};
ghost use Rattle.xs_board.specs.Trapping.{CanTrap, IfTrap, WasSettled};

use crate::turn::Close;
use xs_area::Class;
use xs_layout::Layout;
use xs_model::Why;
use xs_pool::AreaPool;
use xs_task::Task;
use xs_tile::{Need, first_use, grow};

/// Settles what becomes of the task by the close of its turn. Where a line trapped, a task that may use tiles has a Large area then,
/// if the pool has one left, and its old one is back in the pool; else the answer is why it is killed. Without a trap nothing
/// changes. Takes no memory.
pub fn settle(layout: &Layout, pool: &mut AreaPool, task: &mut Task, close: Close) -> Option<Why>
    requires can { IfTrap close (CanTrap layout.now pool.old task.old) (Unit {0}) }
    ensures { IfTrap close (WasSettled layout.now result pool.old pool.new task.old task.new) ((result ≡ None) × (pool.new ≡ pool.old) × (task.new ≡ task.old)) }
{
    match close {
        Close::Trap => use_tiles(layout, pool, task),
        _ => None,
    }
}

/// Settles what becomes of a task that uses tiles without room for them.
fn use_tiles(layout: &Layout, pool: &mut AreaPool, task: &mut Task) -> Option<Why>
    requires can { CanTrap layout.now pool.old task.old }
    ensures { WasSettled layout.now result pool.old pool.new task.old task.new }
{
    match first_use(task) {
        Need::NeedsPermission => Some(Why::Permission),
        Need::NeedsArea => match pool.lease(Class::Large) {
            Ok(lease) => {
                let old = grow(layout, task, lease);
                pool.give_back(old);
                None
            }
            Err(_) => Some(Why::Area),
        },
        Need::Ready => unreachable!(),
    }
}
