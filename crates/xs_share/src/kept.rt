ghost use Rattle.std.specs.Prelude.{ℕ, ◌≢◌};

/// A value that processors take turns with, and what one processor may rely on while the others have it. A trait of
/// names: it has no function. Its relations are of the kept value's meaning alone (its plan, its history, what lies in
/// it), and its two laws are all that the rule of the table needs of them.
pub trait Kept {
    // To processor c, which saw the second value, the third may be what it finds: `c` made none of the change.
    ghost follows: { ℕ → Self → Self → Type 0 };

    // Processor d, which took the second value, may give the third.
    ghost next: { ℕ → Self → Self → Type 0 };

    // In this value the user task has its turn on processor c, which may then be marked with it.
    ghost runs: { ℕ → Self → ℕ → Type 0 };

    // What stands in the view of a pass that is no more. Any value serves.
    ghost blank: { Self };

    ghost follows_same: { (c : ℕ) (k : Self) → follows c k k };

    ghost follows_next: { (c d : ℕ) (x y z : Self) → follows c x y → next d y z → d ≢ c → follows c x z };
}
