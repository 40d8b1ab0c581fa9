//! The delivery of a signal and the return from its handler, each made many times for a task whose registers are in a bank. Each
//! turn changes eight bytes of the frame, and takes a byte of it or PKRU into a sum, so that no compiler leaves a call out.

ghost use Rattle.std.specs.Prelude.{◌≡◌, ℕ, List, false, true, IfOk, IfSome};
ghost use Rattle.xs_bank.specs.Bank.{IsReady};
ghost use Rattle.xs_bank.specs.SetUp.{WasSetUp};
ghost use Rattle.xs_switch.specs.Running.{CanSave};
ghost use Rattle.xs_task.specs.TaskArea.{IsTask};

use crate::command::SignalCall;
use crate::inputs::{ONES, REGISTERS};
use crate::repeats::{change, sum_with};
use std::alloc::{AllocError, Global};
use xs_area::Class;
use xs_bank::{Bank, Cpu, TrackBank};
use xs_base::Lane;
use xs_frame::{Restored, deliver, sigreturn};
use xs_layout::Layout;
use xs_pool::AreaPool;
use xs_regs::place_of;
use xs_switch::resume;
use xs_task::Task;

/// Makes a step of a signal's handler so many times over the machine `amx`, for a task with an area of the class, and answers the
/// sum; None where a return doesn't give the task all of its registers.
pub fn repeat_signal_call(
    alloc: Global,
    call: SignalCall,
    class: Class,
    turns: u64,
) -> Result<Option<u64>, AllocError> {
    let layout = Layout::amx();
    let mut cpu = Cpu::new(alloc, 0, TrackBank::new(alloc)?)?;
    cpu.set_up(&layout);
    let Some(mut task) = task_with(alloc, &layout, class)? else {
        return Ok(None);
    };
    enter(&mut task, &mut cpu);
    Ok(match call {
        SignalCall::Both => repeat_both(&mut task, &mut cpu, turns),
        SignalCall::Return => repeat_returns(&mut task, &mut cpu, turns),
    })
}

/// A task with an area of the class. None where a pool of one has none.
pub fn task_with(alloc: Global, layout: &Layout, class: Class) -> Result<Option<Task>, AllocError>
    ensures whole { IfOk result (λ task. IfSome task (IsTask layout.now)) }
    ensures parked { IfOk result (λ task. IfSome task (λ t. t.need_load ≡ true)) }
{
    let mut pool = AreaPool::open(alloc, layout, 1, 1)?;
    let mut task = Task::open(alloc, 0)?;
    let Ok(lease) = pool.lease(class) else {
        return Ok(None);
    };
    task.lease = Some(lease);
    task.need_load = true;
    Ok(Some(task))
}

/// Brings the task's registers to the bank, and writes one of each component there.
fn enter<B: Bank>(task: &mut Task, cpu: &mut Cpu<B>)
    requires set_up { WasSetUp cpu.old.layout (B.state cpu.old.bank) cpu.old.initial }
    requires task { IsTask cpu.old.layout task.old }
    requires parked { task.old.need_load ≡ true }
    ensures set_up { WasSetUp cpu.new.layout (B.state cpu.new.bank) cpu.new.initial }
    ensures whole { IsTask cpu.new.layout task.new }
    ensures in_bank { task.new.need_load ≡ false }
    ensures ready { CanSave cpu.new.layout task.new (B.state cpu.new.bank) }
{
    resume(task, cpu);
    fill(&mut cpu.bank, &cpu.layout);
}

/// Writes a register of each component into the bank. One that the bank refuses stays.
fn fill<B: Bank>(bank: &mut B, layout: &Layout)
    requires { (B.state bank.old).file.rows ≡ layout.now }
    ensures rows { (B.state bank.new).file.rows ≡ layout.now }
    ensures armed { (B.state bank.new).armed ≡ (B.state bank.old).armed }
    ensures ready { (id m : ℕ) (area : List ℕ) → IsReady (B.state bank.old) id m area → IsReady (B.state bank.new) id m area }
{
    for name in REGISTERS.split(' ') {
        write_ones(bank, layout, name);
    }
}

/// Writes a register that stands in the first 256 bytes of its component, where the machine has it and the bank doesn't refuse.
fn write_ones<B: Bank>(bank: &mut B, layout: &Layout, name: &str)
    requires { (B.state bank.old).file.rows ≡ layout.now }
    ensures rows { (B.state bank.new).file.rows ≡ layout.now }
    ensures armed { (B.state bank.new).armed ≡ (B.state bank.old).armed }
    ensures ready { (id m : ℕ) (area : List ℕ) → IsReady (B.state bank.old) id m area → IsReady (B.state bank.new) id m area }
{
    if let Some(place) = place_of(name, layout) {
        if place.offset < 256 {
            let _ = bank.write(place, &Lane::from_slice(&ONES[..place.len as usize]));
        }
    }
}

/// A delivery and the return after it, so many times.
fn repeat_both<B: Bank>(task: &mut Task, cpu: &mut Cpu<B>, turns: u64) -> Option<u64>
    requires set_up { WasSetUp cpu.old.layout (B.state cpu.old.bank) cpu.old.initial }
    requires task { IsTask cpu.old.layout task.old }
    requires in_bank { task.old.need_load ≡ false }
    requires ready { CanSave cpu.old.layout task.old (B.state cpu.old.bank) }
{
    let mut sum = 0;
    'turns: for turn in 0..turns {
        deliver(task, cpu);
        change(&mut task.frame, turn);
        let Ok(Restored::Full) = sigreturn(task, cpu) else {
            return None;
        };
        sum = sum_with(sum, &task.frame, turn);
    }
    Some(sum)
}

/// A delivery, and so many returns.
fn repeat_returns<B: Bank>(task: &mut Task, cpu: &mut Cpu<B>, turns: u64) -> Option<u64>
    requires set_up { WasSetUp cpu.old.layout (B.state cpu.old.bank) cpu.old.initial }
    requires task { IsTask cpu.old.layout task.old }
    requires in_bank { task.old.need_load ≡ false }
    requires ready { CanSave cpu.old.layout task.old (B.state cpu.old.bank) }
{
    deliver(task, cpu);
    let mut sum: u64 = 0;
    'turns: for turn in 0..turns {
        change(&mut task.frame, turn);
        let Ok(Restored::Full) = sigreturn(task, cpu) else {
            return None;
        };
        sum = sum
            .wrapping_mul(31)
            .wrapping_add(u64::from(cpu.bank.rdpkru()));
    }
    Some(sum)
}
