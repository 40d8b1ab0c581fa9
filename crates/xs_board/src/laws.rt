//! Laws of the lines of a turn, and those of the machine on which the board rests.

ghost use Rattle.std.specs.Prelude.{◌≡◌, ℕ, ◌+◌, true, false, List, [], ◌∷◌, ◌++◌, None};
ghost use Rattle.xs_base.specs.declared.header.HeaderError.{HeaderError};
ghost use Rattle.xs_base.specs.Task.{PrivateTask};
ghost use Rattle.xs_model.specs.declared.script.Order.{Order};
ghost use Rattle.xs_model.specs.declared.script.Script.{Script};
ghost use Rattle.xs_model.specs.Line.{local_after};
ghost use Rattle.xs_model.specs.Machine.{goes_on};
ghost use Rattle.xs_board.specs.declared.turn.Entry.{Entry};
ghost use Rattle.xs_board.specs.declared.turn.Close.TheVariants.{End, Outer, Refused, Trap};
ghost use Rattle.xs_board.specs.Laws.{Laws};
ghost use Rattle.xs_board.specs.Turn.{AreLines, HaveRun, IsEntry, IsOuterLine, IsRefusedReturn, IsTrapLine, closed_by, line_of, task_after};

use xs_model::{
    a_fork_bears, blocks_known, few_events, large_known, lines_found, machine_known, named_known,
    never_stuck, ready_once, risers_known, signals_known, steps_known, task_stays, turns_known,
    two_numbers, waits_known,
};

/// The lines of a turn as they run: none has run at its beginning; one more runs, and the turn goes on; it was the last, by the
/// quantum or by `yield`; the next line is outer, or a return that is refused; or no line is left. A call does nothing.
pub fn lines_follow()
    ensures none { (script : Script) (t : ℕ) (first : PrivateTask) → HaveRun script t first [] first 0 }
    ensures more { (script : Script) (t : ℕ) (first : PrivateTask) (entries : List Entry) (task : PrivateTask) (ran : ℕ) (entry : Entry) (order : Order) → HaveRun script t first entries task ran → IsEntry script t task entry order → goes_on script order.command ran ≡ true → HaveRun script t first (entries ++ entry ∷ []) (local_after task order.command) (ran + 1) }
    ensures last { (script : Script) (t : ℕ) (first : PrivateTask) (entries : List Entry) (task : PrivateTask) (ran : ℕ) (entry : Entry) (order : Order) → HaveRun script t first entries task ran → IsEntry script t task entry order → goes_on script order.command ran ≡ false → AreLines script t first 0 (entries ++ entry ∷ []) (closed_by order.command) }
    ensures last_task { (script : Script) (t : ℕ) (first : PrivateTask) (entries : List Entry) (task : PrivateTask) (ran : ℕ) (entry : Entry) (order : Order) → HaveRun script t first entries task ran → IsEntry script t task entry order → task_after script t first (entries ++ entry ∷ []) ≡ local_after task order.command }
    ensures outer { (script : Script) (t : ℕ) (first : PrivateTask) (entries : List Entry) (task : PrivateTask) (ran line : ℕ) (order : Order) → HaveRun script t first entries task ran → IsOuterLine script t task line order → AreLines script t first 0 entries (Outer line) }
    ensures refused { (script : Script) (t : ℕ) (first : PrivateTask) (entries : List Entry) (task : PrivateTask) (ran : ℕ) (error : HeaderError) (order : Order) → HaveRun script t first entries task ran → IsRefusedReturn script t task error order → AreLines script t first 0 entries (Refused error) }
    ensures trap { (script : Script) (t : ℕ) (first : PrivateTask) (entries : List Entry) (task : PrivateTask) (ran : ℕ) (order : Order) → HaveRun script t first entries task ran → IsTrapLine script t task order → AreLines script t first 0 entries Trap }
    ensures end { (script : Script) (t : ℕ) (first : PrivateTask) (entries : List Entry) (task : PrivateTask) (ran : ℕ) → HaveRun script t first entries task ran → line_of script t task ≡ None → task.handling ≡ false → AreLines script t first 0 entries End }
{}

/// What the private machine tells. A call does nothing.
pub fn machine_laws()
    ensures { Laws }
{
    lines_found();
    turns_known();
    two_numbers();
    ready_once();
    never_stuck();
    few_events();
    machine_known();
    large_known();
    a_fork_bears();
    steps_known();
    blocks_known();
    risers_known();
    named_known();
    waits_known();
    signals_known();
    task_stays();
}
