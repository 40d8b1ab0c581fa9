//! What an event does to its own block.

ghost use Rattle.std.specs.Prelude.{◌≡◌, ℕ, ◌+◌, ◌<◌, ◌≤◌, ◌^◌, List, Some, length};
ghost use Rattle.xs_base.specs.declared.component.Row.{Row};
ghost use Rattle.xs_base.specs.Task.{IsPrivateTask};
ghost use Rattle.xs_model.specs.declared.stage.Stage.TheVariants.{Turn};
ghost use Rattle.xs_model.specs.Line as lines;
ghost use Rattle.xs_model.specs.Line.{killed};
ghost use Rattle.xs_model.specs.Machine.{ended_with, grew, ran_in, started};
ghost use Rattle.xs_model.specs.Outer as outers;
ghost use Rattle.xs_model.specs.Outer.{outer_own, task_left};
ghost use Rattle.xs_model.specs.Script.{IsCommand};

use crate::line::run_line;
use crate::state::State;
use xs_base::Signo;
use xs_model::{Command, Reply, Script, Stage, Why};
use xs_private::Private;

impl State {
    /// A turn starts on the processor, and the signal is delivered, if there is one.
    pub fn start(&mut self, cpu: u32, signal: Option<Signo>)
        requires { (rows : List Row) × IsPrivateTask rows self.old.task }
        ensures { self.new ≡ started cpu signal self.old }
    {
        if signal.is_some() {
            self.task.deliver();
            self.drop_first();
        }
        self.set_stage(Stage::Turn { cpu, ran: 0 });
    }

    /// A local line runs, and the turn goes on, if the line is no yield and the quantum isn't over.
    pub fn run(&mut self, script: &Script, command: &Command)
        requires valid { IsPrivateTask self.old.task.file.rows self.old.task }
        requires known { IsCommand self.old.task.file.rows command.now }
        requires place { self.old.task.place + 1 < 2 ^ 32 }
        requires short { (cpu ran : ℕ) → self.old.stage ≡ Turn cpu ran → ran < script.now.quantum }
        ensures { self.new ≡ ran_in script.now command.now self.old.stage self.old }
    {
        let Stage::Turn { cpu, ran } = self.stage else {
            return;
        };
        let quantum = script.quantum;
        run_line(&mut self.task, command);
        let ran = ran + 1;
        if !command.is_yield() && ran < quantum {
            self.stage = Stage::Turn { cpu, ran };
        } else {
            self.stage = Stage::Ready;
            self.task.park();
        }
    }

    /// The task has a Large area from now on, and its line runs in its next turn.
    pub fn grow(&mut self)
        ensures { self.new ≡ grew self.old }
    {
        self.stage = Stage::Ready;
        self.task.grow();
        self.task.park();
    }

    /// The block has ended, and its signals are dropped.
    pub fn end(&mut self)
        ensures { self.new ≡ ended_with self.old.task self.old }
    {
        self.task.park();
        self.drop_all();
        self.set_stage(Stage::Ended);
    }

    /// The block is killed. A refused frame leaves no registers.
    pub fn kill(&mut self, why: Why)
        ensures { self.new ≡ ended_with (killed why self.old.task) self.old }
    {
        if is_frame_cause(why) {
            self.task.lose_registers();
        }
        self.end();
    }

    /// The turn ends with an outer line, which answered this.
    pub fn leave(&mut self, script: &Script, command: &Command, reply: &Reply)
        requires place { self.old.task.place + 1 < 2 ^ 32 }
        requires few { length script.now.blocks ≤ 64 }
        ensures { self.new ≡ outer_own script.now (Some command.now) reply.now self.old }
    {
        self.stage = stage_left(script, command, reply);
        pass(&mut self.task, command, reply);
        self.task.park();
    }
}

/// Whether the cause is a refused frame.
fn is_frame_cause(why: Why) -> bool
    ensures { result ≡ lines.is_frame_cause why }
{
    !matches!(why, Why::Permission | Why::Area)
}

/// The stage in which an outer line leaves its own block.
fn stage_left(script: &Script, command: &Command, reply: &Reply) -> Stage
    requires { length script.now.blocks ≤ 64 }
    ensures { result ≡ outers.stage_left script.now command.now reply.now }
{
    match (command, reply) {
        (Command::Stop, Reply::Held) => Stage::Stopped,
        (Command::Wait { name }, Reply::Blocked) => Stage::Waiting {
            child: script.block_named(name.as_slice()),
        },
        _ => Stage::Ready,
    }
}

/// The task goes on with its next line, unless it waits.
fn pass(task: &mut Private, command: &Command, reply: &Reply)
    requires { task.old.place + 1 < 2 ^ 32 }
    ensures { task.new ≡ task_left command.now reply.now task.old }
{
    match (command, reply) {
        (Command::Wait { .. }, Reply::Blocked) => {}
        _ => task.pass_line(),
    }
}
