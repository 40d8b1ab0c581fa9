//! Turns of a processor that runs beside others. Its owner mark is stored where a turn changes it: none before another task's registers
//! come to its bank and before a kernel section, and the task once its registers are there (Linux 6.6,
//! arch/x86/kernel/fpu/context.h, fpregs_activate, and core.c, kernel_fpu_begin_mask).

ghost use Rattle.std.specs.Prelude.{◌≡◌, ◌+◌, ◌<◌, ℕ, [], length, List, true, false, Some, None, IfNone};
ghost use Rattle.xs_base.specs.declared.words.How.TheVariants as hows;
ghost use Rattle.xs_base.specs.Task.{PrivateTask};
ghost use Rattle.xs_bank.specs.Bank as banks;
ghost use Rattle.xs_bank.specs.SetUp.{WasSetUp};
ghost use Rattle.xs_share.specs.Passes.{name_of, view};
ghost use Rattle.xs_board.specs.declared.turn.Turn as turns;
ghost use Rattle.xs_board.specs.Board as boards;
ghost use Rattle.xs_board.specs.Follows.{Runs};
ghost use Rattle.xs_board.specs.Taken.{is_user_how};
ghost use Rattle.xs_model.specs.declared.event.Event.{Event};
ghost use Rattle.xs_model.specs.Script.{IsValid, is_user};
ghost use Rattle.xs_machine.specs.Line.{is_next_section};
ghost use Rattle.xs_machine.specs.Processors.{KeepsProcessor};
ghost use Rattle.xs_machine.specs.Running.{Begun, IsAt, IsRun, MayBegin};
ghost use Rattle.xs_machine.specs.Threads.{HasPass, HasRunTurn, SomeTurn};
ghost use Rattle.xs_machine.specs.Turn.{AfterLine, AreOver, AreRunning, SomeRunning};

use crate::entry::begin_turn;
use crate::script::is_section_next;
use crate::turn::{leave, run_line};
use xs_bank::{Bank, Cpu};
use xs_base::How;
use xs_board::{Board, Close, Entries, Turn};
use xs_model::{Script, machine_known, never_idle};
use xs_share::{Pass, Shared};
use xs_task::Task;

/// Begins a turn that the board handed out. Where the task's registers are to come to the bank, the processor has no mark meanwhile.
pub fn begin_marked<B: Bank>(
    shared: &Shared<Board>,
    pass: &mut Pass<Board>,
    cpu: &mut Cpu<B>,
    turn: Turn,
) -> Turn
    requires set_up { WasSetUp cpu.old.layout (B.state cpu.old.bank) cpu.old.initial }
    requires home { (p : PrivateTask) × MayBegin cpu.old.layout turn (B.state cpu.old.bank) p }
    requires skip { turn.how ≡ hows.Skip → (cpu.old.mark ≡ Some turn.task.name) × (turn.task.last ≡ Some cpu.old.number) }
    requires quiet { is_user_how turn.how ≡ false → turn.signal ≡ None }
    requires pass { HasPass (name_of shared.now) cpu.old.number (view pass.old).last cpu.old.mark pass.old }
    requires runs { is_user_how turn.how ≡ true → Runs cpu.old.number (view pass.old).last turn.task.name }
    ensures begun { Begun turn result cpu.old cpu.new (B.state cpu.old.bank) (B.state cpu.new.bank) }
    ensures pass { HasPass (name_of shared.now) cpu.old.number (view pass.old).last cpu.new.mark pass.new }
{
    match turn.how {
        How::Load => {
            shared.mark(pass, None);
            begin_unmarked(shared, pass, cpu, turn)
        }
        _ => begin_held(cpu, turn),
    }
}

/// Begins a turn whose registers the bank still holds, or that has none. The processor keeps its mark.
fn begin_held<B: Bank>(cpu: &mut Cpu<B>, turn: Turn) -> Turn
    requires set_up { WasSetUp cpu.old.layout (B.state cpu.old.bank) cpu.old.initial }
    requires home { (p : PrivateTask) × MayBegin cpu.old.layout turn (B.state cpu.old.bank) p }
    requires skip { turn.how ≡ hows.Skip → (cpu.old.mark ≡ Some turn.task.name) × (turn.task.last ≡ Some cpu.old.number) }
    requires quiet { is_user_how turn.how ≡ false → turn.signal ≡ None }
    requires held { turn.how ≡ hows.Load → ⊥ }
    ensures begun { Begun turn result cpu.old cpu.new (B.state cpu.old.bank) (B.state cpu.new.bank) }
    ensures mark { cpu.new.mark ≡ cpu.old.mark }
{
    begin_turn(cpu, turn)
}

/// Begins a turn whose registers come to the bank, on a processor whose mark word is none. Then the task is its mark.
fn begin_unmarked<B: Bank>(
    shared: &Shared<Board>,
    pass: &mut Pass<Board>,
    cpu: &mut Cpu<B>,
    turn: Turn,
) -> Turn
    requires set_up { WasSetUp cpu.old.layout (B.state cpu.old.bank) cpu.old.initial }
    requires home { (p : PrivateTask) × MayBegin cpu.old.layout turn (B.state cpu.old.bank) p }
    requires loads { turn.how ≡ hows.Load }
    requires pass { HasPass (name_of shared.now) cpu.old.number (view pass.old).last None pass.old }
    requires runs { Runs cpu.old.number (view pass.old).last turn.task.name }
    ensures begun { Begun turn result cpu.old cpu.new (B.state cpu.old.bank) (B.state cpu.new.bank) }
    ensures pass { HasPass (name_of shared.now) cpu.old.number (view pass.old).last cpu.new.mark pass.new }
{
    let task = turn.task.name;
    let turn = begin_turn(cpu, turn);
    shared.mark(pass, Some(task));
    turn
}

/// Runs the lines of a turn, after which its task leaves the processor. Answers how the turn closes. It looks at no board: what it
/// promises holds for each board that has the turn.
pub fn run_marked_turn<B: Bank>(
    script: &Script,
    shared: &Shared<Board>,
    pass: &mut Pass<Board>,
    cpu: &mut Cpu<B>,
    task: &mut Task,
    lines: &mut Entries,
) -> Close
    requires none { lines.old.items ≡ [] }
    requires some { SomeTurn script.now task.old cpu.old (B.state cpu.old.bank) }
    requires pass { HasPass (name_of shared.now) cpu.old.number (view pass.old).last cpu.old.mark pass.old }
    requires runs { is_user script.now task.old.name ≡ true → Runs cpu.old.number (view pass.old).last task.old.name }
    ensures ran { (board : boards.Board) (turn : turns.Turn) → turn.task ≡ task.old → IsRun script.now board → IsAt script.now board turn.cpu (Some turn) cpu.old (B.state cpu.old.bank) → HasRunTurn script.now board turn (B.state cpu.old.bank) lines.new.items result task.new cpu.new (B.state cpu.new.bank) }
    ensures kept { KeepsProcessor cpu.old cpu.new }
    ensures pass { HasPass (name_of shared.now) cpu.old.number (view pass.old).last cpu.new.mark pass.new }
{
    machine_known();
    never_idle();
    let close = run_marked_lines(script, shared, pass, cpu, task, lines);
    leave(script, cpu, task);
    close
}

/// Runs the lines of a turn, and answers how it closes. They join the entries.
fn run_marked_lines<B: Bank>(
    script: &Script,
    shared: &Shared<Board>,
    pass: &mut Pass<Board>,
    cpu: &mut Cpu<B>,
    task: &mut Task,
    entries: &mut Entries,
) -> Close
    requires valid { IsValid script.now }
    requires none { entries.old.items ≡ [] }
    requires turning { SomeRunning script.now [] task.old cpu.old (B.state cpu.old.bank) }
    requires pass { HasPass (name_of shared.now) cpu.old.number (view pass.old).last cpu.old.mark pass.old }
    requires runs { is_user script.now task.old.name ≡ true → Runs cpu.old.number (view pass.old).last task.old.name }
    ensures over { (t c : ℕ) (past : List Event) (before : banks.Bank) (start : PrivateTask) → AreRunning script.now t c past before start [] start task.old cpu.old (B.state cpu.old.bank) → AreOver script.now t c past before start entries.new.items result task.new cpu.new (B.state cpu.new.bank) }
    ensures kept { KeepsProcessor cpu.old cpu.new }
    ensures pass { HasPass (name_of shared.now) cpu.old.number (view pass.old).last cpu.new.mark pass.new }
{
    loop {
        if let Some(close) = run_marked_line(script, shared, pass, cpu, task, entries) {
            return close;
        }
    }
}

/// Runs the next line of a turn, as `run_line` does. Before a kernel section the processor's mark word becomes none, and once a user
/// task's registers came back the task.
fn run_marked_line<B: Bank>(
    script: &Script,
    shared: &Shared<Board>,
    pass: &mut Pass<Board>,
    cpu: &mut Cpu<B>,
    task: &mut Task,
    entries: &mut Entries,
) -> Option<Close>
    requires valid { IsValid script.now }
    requires turning { SomeRunning script.now entries.old.items task.old cpu.old (B.state cpu.old.bank) }
    requires pass { HasPass (name_of shared.now) cpu.old.number (view pass.old).last cpu.old.mark pass.old }
    requires runs { is_user script.now task.old.name ≡ true → Runs cpu.old.number (view pass.old).last task.old.name }
    ensures after { (t c : ℕ) (past : List Event) (before : banks.Bank) (start private : PrivateTask) → AreRunning script.now t c past before start entries.old.items private task.old cpu.old (B.state cpu.old.bank) → AfterLine script.now t c past before start entries.new.items result task.new cpu.new (B.state cpu.new.bank) }
    ensures longer { IfNone result (length entries.new.items ≡ length entries.old.items + 1) }
    ensures name { task.new.name ≡ task.old.name }
    ensures kept { KeepsProcessor cpu.old cpu.new }
    ensures pass { HasPass (name_of shared.now) cpu.old.number (view pass.old).last cpu.new.mark pass.new }
{
    machine_known();
    if is_section_next(script, task) {
        shared.mark(pass, None);
        run_section(script, pass, cpu, task, entries)
    } else {
        run_plain(script, shared, pass, cpu, task, entries)
    }
}

/// Runs the next line of a turn, which is no kernel section. A user task whose registers came back for it becomes the mark.
fn run_plain<B: Bank>(
    script: &Script,
    shared: &Shared<Board>,
    pass: &mut Pass<Board>,
    cpu: &mut Cpu<B>,
    task: &mut Task,
    entries: &mut Entries,
) -> Option<Close>
    requires valid { IsValid script.now }
    requires turning { SomeRunning script.now entries.old.items task.old cpu.old (B.state cpu.old.bank) }
    requires plain { is_next_section script.now task.old ≡ false }
    requires pass { HasPass (name_of shared.now) cpu.old.number (view pass.old).last cpu.old.mark pass.old }
    requires runs { is_user script.now task.old.name ≡ true → Runs cpu.old.number (view pass.old).last task.old.name }
    ensures after { (t c : ℕ) (past : List Event) (before : banks.Bank) (start private : PrivateTask) → AreRunning script.now t c past before start entries.old.items private task.old cpu.old (B.state cpu.old.bank) → AfterLine script.now t c past before start entries.new.items result task.new cpu.new (B.state cpu.new.bank) }
    ensures longer { IfNone result (length entries.new.items ≡ length entries.old.items + 1) }
    ensures name { task.new.name ≡ task.old.name }
    ensures kept { KeepsProcessor cpu.old cpu.new }
    ensures pass { HasPass (name_of shared.now) cpu.old.number (view pass.old).last cpu.new.mark pass.new }
{
    let mark = cpu.mark;
    let close = run_line(script, cpu, task, entries);
    if cpu.mark != mark {
        shared.mark(pass, cpu.mark);
    }
    close
}

/// Runs the next line of a turn, which is a kernel section, on a processor whose mark word is none.
fn run_section<B: Bank>(
    script: &Script,
    _pass: &Pass<Board>,
    cpu: &mut Cpu<B>,
    task: &mut Task,
    entries: &mut Entries,
) -> Option<Close>
    requires valid { IsValid script.now }
    requires turning { SomeRunning script.now entries.old.items task.old cpu.old (B.state cpu.old.bank) }
    requires section { is_next_section script.now task.old ≡ true }
    requires unmarked { (view _pass.now).mark ≡ 0 }
    ensures after { (t c : ℕ) (past : List Event) (before : banks.Bank) (start private : PrivateTask) → AreRunning script.now t c past before start entries.old.items private task.old cpu.old (B.state cpu.old.bank) → AfterLine script.now t c past before start entries.new.items result task.new cpu.new (B.state cpu.new.bank) }
    ensures longer { IfNone result (length entries.new.items ≡ length entries.old.items + 1) }
    ensures name { task.new.name ≡ task.old.name }
    ensures mark { cpu.new.mark ≡ None }
    ensures kept { KeepsProcessor cpu.old cpu.new }
{
    run_line(script, cpu, task, entries)
}
