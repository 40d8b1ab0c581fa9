//! The rule of the table, and what each atomic step tells its pass.
//! Word 0 is the turn: 0, or 1 more than the processor that has it. Word c + 1 is the mark of processor c: 0 for none,
//! or 1 more than the task. Slot 0 has the kept value while no pass has the turn.
//! Seat 0 is the keeper, which makes all passes and takes them back; seat c + 1 is the pass of processor c.
use crate::kept::Kept;
use atomic_table::{Join, Play, Split, TableRule};
use std::collections::LinkedList;
use std::snapshot::Snapshot;

/// What a seat at the table knows. No value of it is made.
pub struct View<K> {
    /// It is the keeper, and then the next four fields speak.
    pub keeps: bool,
    /// So many passes were made.
    pub made: u64,
    /// Those below it are not taken back.
    pub out: u64,
    /// The value that was opened.
    pub first: K,
    /// Of each pass taken back, its processor and the value that it last took or gave.
    pub ended: LinkedList<(u64, K)>,
    /// It is a pass, and then the last four fields speak.
    pub works: bool,
    pub number: u64,
    /// It has the turn.
    pub turn: bool,
    /// The mark word of its processor.
    pub mark: u64,
    /// The value that it last took or gave.
    pub last: K,
}

pub(crate) struct Turns;

impl<K: Kept> TableRule<Option<K>, View<K>, Snapshot<K>> for Turns {
    ghost use Rattle.xs_share.specs.Rule.{Ruled, keeper};

    ghost holds = { λ _. Ruled K.follows };

    ghost first = { λ key. keeper key.value };
}

/// The turn word goes from 0 to 1 more than the processor, and the value out with the pass. Else it is a miss.
pub(crate) struct Takes;

impl<K: Kept> Play<Option<K>, View<K>> for Takes {
    ghost use Rattle.xs_share.specs.Rule.{Took};

    ghost then = { Took K.follows };
}

/// The turn word goes to 0, and the value home.
pub(crate) struct Gives;

impl<K> Play<Option<K>, View<K>> for Gives {
    ghost use Rattle.xs_share.specs.Rule.{Gave};

    ghost then = { Gave };
}

pub(crate) struct Marks;

impl<K> Play<Option<K>, View<K>> for Marks {
    ghost use Rattle.xs_share.specs.Rule.{Marked};

    ghost then = { Marked };
}

/// The keeper makes the next pass.
pub(crate) struct Makes;

impl<K> Split<View<K>> for Makes {
    ghost use Rattle.xs_share.specs.Rule.{with_pass, new_pass};

    ghost left = { with_pass };

    ghost right = { new_pass };
}

/// The keeper takes the last pass back.
pub(crate) struct TakesBack;

impl<K: Kept> Join<View<K>> for TakesBack {
    ghost use Rattle.xs_share.specs.Rule.{without_pass, spent};

    ghost both = { without_pass };

    ghost spent = { spent K.blank };
}
