//! The lines of a task on its processor.

ghost use Rattle.std.specs.Prelude.{◌≡◌, ◌+◌, ◌<◌, ◌^◌, true, false, MatchResult};
ghost use Rattle.xs_base.specs.Task.{PrivateTask};
ghost use Rattle.xs_bank.specs.SetUp.{WasSetUp};
ghost use Rattle.xs_model.specs.declared.script.Command.TheVariants as commands;
ghost use Rattle.xs_model.specs.Script.{IsCommand, is_kernel_command, is_outer, is_return};
ghost use Rattle.xs_base.specs.Layout.{IsLayout};
ghost use Rattle.xs_machine.specs.Line.{CameBack, Halted, IsOn, Ran, RanLine, WasTrapped, restored_reply};

use crate::registers::{read_register, write_register};
use crate::tiles::{ask, release};
use xs_bank::{Bank, Cpu, Trap};
use xs_board::Close;
use xs_frame::{Restored, sigreturn};
use xs_model::{Command, Reply};
use xs_switch::{kernel_section, resume, thread_section};
use xs_task::{Mem, Task};

/// The registers of a user task come back before its line, and before its end.
pub fn come_back<B: Bank>(cpu: &mut Cpu<B>, task: &mut Task, user: bool)
    requires set_up { WasSetUp cpu.old.layout (B.state cpu.old.bank) cpu.old.initial }
    requires on { (p : PrivateTask) × IsOn user cpu.old.layout task.old (B.state cpu.old.bank) p }
    ensures { CameBack user task.old task.new cpu.old cpu.new (B.state cpu.old.bank) (B.state cpu.new.bank) }
{
    if user {
        resume(task, cpu);
    }
}

/// Runs the line at the task's place, whose command is local, and answers its reply. A user task's registers are in the bank. A
/// return from a handler may be refused, and an instruction of the tiles may trap; then the task stays at its line, and the answer
/// is how the turn closes.
pub fn run_local<B: Bank>(
    cpu: &mut Cpu<B>,
    task: &mut Task,
    command: &Command,
    user: bool,
) -> Result<Reply, Close>
    requires layout { IsLayout cpu.old.layout }
    requires set_up { WasSetUp cpu.old.layout (B.state cpu.old.bank) cpu.old.initial }
    requires on { (p : PrivateTask) × IsOn user cpu.old.layout task.old (B.state cpu.old.bank) p }
    requires loaded { user ≡ true → task.old.need_load ≡ false }
    requires known { IsCommand cpu.old.layout command.now }
    requires inner { is_outer command.now ≡ false }
    requires kind { user ≡ false → is_kernel_command command.now ≡ true }
    requires inside { is_return command.now ≡ true → task.old.handling ≡ true }
    requires fits { task.old.place + 1 < 2 ^ 32 }
    ensures { MatchResult result (λ reply. RanLine user command.now reply task.old task.new cpu.old cpu.new (B.state cpu.old.bank) (B.state cpu.new.bank)) (λ close. Halted user command.now close task.old task.new cpu.old cpu.new (B.state cpu.old.bank) (B.state cpu.new.bank)) }
{
    if command.is_return() {
        return go_back(cpu, task);
    }
    match run_command(cpu, task, command, user) {
        Ok(reply) => {
            task.place += 1;
            Ok(reply)
        }
        Err(_) => Err(Close::Trap),
    }
}

/// Returns from the handler of a user task, whose registers are in the bank.
fn go_back<B: Bank>(cpu: &mut Cpu<B>, task: &mut Task) -> Result<Reply, Close>
    requires set_up { WasSetUp cpu.old.layout (B.state cpu.old.bank) cpu.old.initial }
    requires on { (p : PrivateTask) × IsOn true cpu.old.layout task.old (B.state cpu.old.bank) p }
    requires loaded { task.old.need_load ≡ false }
    requires inside { task.old.handling ≡ true }
    ensures { MatchResult result (λ reply. RanLine true commands.Sigreturn reply task.old task.new cpu.old cpu.new (B.state cpu.old.bank) (B.state cpu.new.bank)) (λ close. Halted true commands.Sigreturn close task.old task.new cpu.old cpu.new (B.state cpu.old.bank) (B.state cpu.new.bank)) }
{
    match sigreturn(task, cpu) {
        Ok(restored) => Ok(reply_of(restored)),
        Err(error) => Err(Close::Refused(error)),
    }
}

/// What a return answers.
fn reply_of(restored: Restored) -> Reply
    ensures { result ≡ restored_reply restored }
{
    match restored {
        Restored::Full => Reply::Full,
        Restored::LegacyOnly => Reply::Legacy,
    }
}

/// Runs a local command of the task that is no return from a handler, and answers its reply. The task stays at the command's
/// line. A user task's registers are in the bank.
fn run_command<B: Bank>(
    cpu: &mut Cpu<B>,
    task: &mut Task,
    command: &Command,
    user: bool,
) -> Result<Reply, Trap>
    requires layout { IsLayout cpu.old.layout }
    requires set_up { WasSetUp cpu.old.layout (B.state cpu.old.bank) cpu.old.initial }
    requires on { (p : PrivateTask) × IsOn user cpu.old.layout task.old (B.state cpu.old.bank) p }
    requires loaded { user ≡ true → task.old.need_load ≡ false }
    requires known { IsCommand cpu.old.layout command.now }
    requires inner { is_outer command.now ≡ false }
    requires stays { is_return command.now ≡ false }
    requires kind { user ≡ false → is_kernel_command command.now ≡ true }
    ensures { MatchResult result (λ reply. Ran user command.now reply task.old task.new cpu.old cpu.new (B.state cpu.old.bank) (B.state cpu.new.bank)) (λ _. WasTrapped user command.now task.old task.new cpu.old cpu.new (B.state cpu.old.bank) (B.state cpu.new.bank)) }
{
    if user {
        run_user_command(cpu, task, command)
    } else {
        Ok(run_thread_command(cpu, task, command))
    }
}

/// Runs a command of a user task, whose registers are in the bank.
fn run_user_command<B: Bank>(
    cpu: &mut Cpu<B>,
    task: &mut Task,
    command: &Command,
) -> Result<Reply, Trap>
    requires layout { IsLayout cpu.old.layout }
    requires set_up { WasSetUp cpu.old.layout (B.state cpu.old.bank) cpu.old.initial }
    requires on { (p : PrivateTask) × IsOn true cpu.old.layout task.old (B.state cpu.old.bank) p }
    requires loaded { task.old.need_load ≡ false }
    requires known { IsCommand cpu.old.layout command.now }
    requires inner { is_outer command.now ≡ false }
    requires stays { is_return command.now ≡ false }
    ensures { MatchResult result (λ reply. Ran true command.now reply task.old task.new cpu.old cpu.new (B.state cpu.old.bank) (B.state cpu.new.bank)) (λ _. WasTrapped true command.now task.old task.new cpu.old cpu.new (B.state cpu.old.bank) (B.state cpu.new.bank)) }
{
    match command {
        Command::Set { reg, bytes } => {
            match write_register(&mut cpu.bank, &cpu.layout, reg.as_slice(), bytes) {
                Ok(()) => Ok(Reply::Done),
                Err(trap) => Err(trap),
            }
        }
        Command::Get { reg } => {
            match read_register(&mut cpu.bank, &cpu.layout, reg.as_slice()) {
                Ok(bytes) => Ok(Reply::Bytes(bytes)),
                Err(trap) => Err(trap),
            }
        }
        Command::Tilerelease => {
            release(cpu);
            Ok(Reply::Done)
        }
        Command::Perm { feature } => Ok(ask(&cpu.layout, task, *feature)),
        Command::Ksec { byte } => {
            kernel_section(task, cpu, *byte);
            Ok(Reply::Done)
        }
        Command::Yield => Ok(Reply::Done),
        Command::Peek { at, len } => Ok(Reply::Bytes(task.peek(Mem::Frame, *at, *len))),
        Command::Bpeek { at, len } => Ok(Reply::Bytes(task.peek(Mem::Buffer, *at, *len))),
        Command::Poke { at, bytes } => {
            task.poke(Mem::Frame, *at, bytes);
            Ok(Reply::Done)
        }
        Command::Bpoke { at, bytes } => {
            task.poke(Mem::Buffer, *at, bytes);
            Ok(Reply::Done)
        }
        _ => unreachable!(),
    }
}

/// Runs a command of a kernel thread.
fn run_thread_command<B: Bank>(cpu: &mut Cpu<B>, task: &Task, command: &Command) -> Reply
    requires set_up { WasSetUp cpu.old.layout (B.state cpu.old.bank) cpu.old.initial }
    requires kind { is_kernel_command command.now ≡ true }
    ensures { Ran false command.now result task.now task.now cpu.old cpu.new (B.state cpu.old.bank) (B.state cpu.new.bank) }
{
    match command {
        Command::Ksec { byte } => {
            thread_section(cpu, *byte);
            Reply::Done
        }
        _ => Reply::Done,
    }
}
