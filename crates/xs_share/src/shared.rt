ghost use Rattle.std.specs.Prelude.{◌≡◌};

use crate::kept::Kept;
use crate::rule::{Turns, View};
use atomic_table::Table;
use std::alloc::Global;
use std::snapshot::Snapshot;

/// The kept value, at home or out with the pass that has the turn, and a mark for each processor.
pub struct Shared<K: Kept> {
    pub(crate) table: Table<Option<K>, View<K>, Snapshot<K>, Turns, Global>,
    ghost sized: { (table.shared.table_id.words ≡ 17) × (table.shared.table_id.slots ≡ 1) },
}
