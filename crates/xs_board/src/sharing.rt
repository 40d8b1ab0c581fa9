//! The board as a value that processors take turns with. Its relations are those of `specs/Follows.antt`.

use crate::board::Board;
use xs_share::Kept;

impl Kept for Board {
    ghost use Rattle.xs_board.specs.Follows as boards;
    ghost use Rattle.xs_board.specs.FollowsLaws as laws;

    ghost follows = { boards.Follows };

    ghost next = { boards.Next };

    ghost runs = { boards.Runs };

    ghost blank = { boards.blank };

    ghost follows_same = { laws.follows_same };

    ghost follows_next = { laws.follows_next };
}
