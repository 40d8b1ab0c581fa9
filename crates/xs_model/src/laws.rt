//! The laws of the machine, for proofs: a caller has a law by calling its function, which does nothing.

ghost use Rattle.xs_model.specs.Laws.{LinesFound, TurnsKnown, TurnsApart, TurnsMarked, TwoNumbers, ReadyOnce, FirstReady, NobodyReady, MarkUnseen, CountsUnseen, RemainsUnseen, LastUnseen, HeldUnseen, MachineKnown, TasksValid, StartIsStep, LocalIsStep, EndIsStep, FreeTells, FreeFound, OuterOutside, ReturnInside, OuterOfUser, NamedUser, ThreadsQuiet, PendingRise, QuietUnlessAlive, TaskStays, OthersKeep, WaitsForChild, NeverStuck, FewEvents, ForkBears, BornByFork, UnbornUnseen, OuterIsStep, RefusalIsStep, TrapIsStep, LargeStays, LargeGrows, LargeEnds, LargeKilled, FewLarge, LargeKnown, TrapOfUser, LinesValid};
ghost use Rattle.xs_model.specs.Effects.{StartedBlock, RanBlock, OuterOwn, OuterOther, EndedBlock, KilledBlock, StartOthers, LocalOthers, EndOthers, KilledOthers, StartTakes, LocalKeeps, LocalRises, OuterRises, EndRises, KillRises, GrewBlock, GrowOthers, GrowRises};
ghost use Rattle.xs_model.specs.Runs.{OneReplay, TurnsShort, NeverIdle};

/// A line of a valid script is found by its number.
pub fn lines_found()
    ensures { LinesFound }
{}

/// What a legal past tells of the blocks that are in a turn: their processors, that these differ, and the marks there.
pub fn turns_known()
    ensures known { TurnsKnown }
    ensures apart { TurnsApart }
    ensures marked { TurnsMarked }
{}

/// A processor still holds a task's state exactly where its mark is the task, and the task's last processor is this
/// one.
pub fn two_numbers()
    ensures { TwoNumbers }
{}

/// The ready list has each ready block once and no other: its first is ready, and where it is empty nobody is.
pub fn ready_once()
    ensures once { ReadyOnce }
    ensures first { FirstReady }
    ensures nobody { NobodyReady }
{}

/// Whom an event makes ready: a Start nobody, a local line its own block where it ends the turn, a Grow its own block, an outer
/// line whom it lets go on and then its own block where that goes on, and an end or a kill the parent that waits and then the
/// stopped children.
pub fn risers_known()
    ensures start { StartTakes }
    ensures goes_on { LocalKeeps }
    ensures ends { LocalRises }
    ensures outer { OuterRises }
    ensures grow { GrowRises }
    ensures end { EndRises }
    ensures kill { KillRises }
{}

/// How many living blocks have room for TILEDATA after an event, that they are at most as many as the script's Large areas, and
/// that each is a user task.
pub fn large_known()
    ensures stays { LargeStays }
    ensures grows { LargeGrows }
    ensures ends { LargeEnds }
    ensures killed { LargeKilled }
    ensures few { FewLarge }
    ensures known { LargeKnown }
{}

/// Where lines stand that reach another block or return from a handler, whom they name, and whose lines trap.
pub fn named_known()
    ensures outer { OuterOutside }
    ensures inside { ReturnInside }
    ensures user { OuterOfUser }
    ensures named { NamedUser }
    ensures trap { TrapOfUser }
{}

/// Which signals are pending of a block.
pub fn signals_known()
    ensures threads { ThreadsQuiet }
    ensures rise { PendingRise }
    ensures quiet { QuietUnlessAlive }
{}

/// At a fork the child isn't born: a block is born by a fork alone, each child is forked by one line at most, and who
/// isn't born had no turn.
pub fn a_fork_bears()
    ensures bears { ForkBears }
    ensures by_fork { BornByFork }
    ensures unseen { UnbornUnseen }
{}

/// What newer events on other processors, or of other blocks, leave as it was.
pub fn unseen_stays()
    ensures mark { MarkUnseen }
    ensures counts { CountsUnseen }
    ensures remains { RemainsUnseen }
    ensures last { LastUnseen }
    ensures held { HeldUnseen }
{}

/// The script and the past of a past's machine, how many blocks it has, and that in a legal past of a valid script each
/// of them has a valid private task.
pub fn machine_known()
    ensures known { MachineKnown }
    ensures valid { TasksValid }
    ensures lines { LinesValid }
{}

/// Which Start, local line, outer line, refused return, line that traps and end is a step.
pub fn steps_known()
    ensures start { StartIsStep }
    ensures local { LocalIsStep }
    ensures outer { OuterIsStep }
    ensures refused { RefusalIsStep }
    ensures trap { TrapIsStep }
    ensures end { EndIsStep }
{}

/// A processor without a turn is that of no block's turn.
pub fn free_processors_known()
    ensures tells { FreeTells }
    ensures found { FreeFound }
{}

/// What an event makes of its own block, and of each other one.
pub fn blocks_known()
    ensures started { StartedBlock }
    ensures ran { RanBlock }
    ensures outer { OuterOwn }
    ensures grew { GrewBlock }
    ensures ended { EndedBlock }
    ensures killed { KilledBlock }
    ensures start_others { StartOthers }
    ensures local_others { LocalOthers }
    ensures grow_others { GrowOthers }
    ensures outer_others { OuterOther }
    ensures end_others { EndOthers }
    ensures kill_others { KilledOthers }
{}

/// Another block's event leaves the private task of a block that was born, unless it sets its registers; and it leaves a turn, and
/// the private task of each block that still has its last processor.
pub fn task_stays()
    ensures stays { TaskStays }
    ensures keeps { OthersKeep }
{}

/// For whom a block waits.
pub fn waits_known()
    ensures { WaitsForChild }
{}

/// A script has one replay at most.
pub fn one_replay()
    ensures { OneReplay }
{}

/// While a block lives, one is ready or in a turn.
pub fn never_stuck()
    ensures { NeverStuck }
{}

/// No history has more events than the bound of its script.
pub fn few_events()
    ensures { FewEvents }
{}

/// A block in a turn has a next event, and the turn is within the quantum.
pub fn never_idle()
    ensures short { TurnsShort }
    ensures next { NeverIdle }
{}
