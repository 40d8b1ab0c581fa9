//! The board.

ghost use Rattle.std.specs.Prelude.{◌≡◌, ◌<◌, ◌++◌, [], ◌∷◌, true, false, length, IfOk, IfSome, Some, None};
ghost use Rattle.xs_base.specs.declared.words.How.TheVariants as hows;
ghost use Rattle.xs_model.specs.declared.event.Event.TheVariants as events;
ghost use Rattle.xs_model.specs.declared.stage.Stage.TheVariants as stages;
ghost use Rattle.xs_model.specs.History.{IsLegal};
ghost use Rattle.xs_model.specs.Note as notes;
ghost use Rattle.xs_model.specs.Replay.{entry};
ghost use Rattle.xs_model.specs.Script.{IsValid, is_user};
ghost use Rattle.xs_model.specs.State.{none_lives};
ghost use Rattle.xs_board.specs.Board.{past_of, machine_in, ready_of, stage_in, private_in, private_with, private_after, private_closed, begun, answer_in, turn_on, IsBoard, KeepsOthers, OthersKept, KeepsTurns};
ghost use Rattle.xs_board.specs.Follows.{Next};
ghost use Rattle.xs_board.specs.Home.{IsHome};
ghost use Rattle.xs_board.specs.Taken.{HasOther, IfTurn, OnNothing, OnDone, IsTurnOf};
ghost use Rattle.xs_board.specs.Turn.{turn_events, AreLines, stage_closed};

use crate::deed::find_deed;
use crate::doing::perform;
use crate::laws::machine_laws;
use crate::member::Member;
use crate::opening::{born_blocks, first_members, first_tasks, users};
use crate::putting::put_back;
use crate::telling::{tell, tell_turn};
use crate::trapping::settle;
use crate::turn::{Close, Entries, Taken, Turn, start_how};
use std::alloc::{AllocError, Global};
use std::collections::VecDeque;
use std::marker::Model;
use xs_model::{Event, History, Script, most_events};
use xs_pool::AreaPool;
use xs_task::Task;

/// The board. All memory of a run is taken when it is opened.
#[derive(Drop)]
pub struct Board {
    script: Script,
    events: Vec<Event>,
    /// The task of each block while it is home.
    tasks: Vec<Option<Task>>,
    /// The blocks that are ready, the first to start at the front.
    ready: VecDeque<u32>,
    /// How many blocks live.
    living: u32,
    /// What each block does, its parent and its signals.
    members: Vec<Member>,
    pool: AreaPool,
}

impl Model for Board {
    ghost use Rattle.std.specs.Prelude.{vec_capacity};
    ghost use Rattle.std.specs.VecDeque.{deque_capacity};
    ghost use Rattle.xs_board.specs.Board as boards;
    ghost use Rattle.xs_board.specs.Board.{IsBoard, IsKeptBeside};

    ghost Value = { boards.Board };

    ghost view = { λ b. record { script = b.script; history = b.events.items; home = b.tasks.items; pool = b.pool; room = vec_capacity b.events } };

    ghost invariant = { λ b.
        IsBoard (record { script = b.script; history = b.events.items; home = b.tasks.items; pool = b.pool; room = vec_capacity b.events })
        × IsKeptBeside (record { script = b.script; history = b.events.items; home = b.tasks.items; pool = b.pool; room = vec_capacity b.events }) b.ready.items (deque_capacity b.ready) b.living b.members.items };
}

impl Board {
    /// The board of a script before the first event. It takes the whole room of a run: that of the most events that a run has,
    /// both memories of each user task, the pool of save areas, the ready list and the signals of each block. Fails for want of memory alone,
    /// and then the script is dropped.
    pub fn open(alloc: Global, script: Script) -> Result<Board, AllocError>
        requires valid { IsValid script }
        ensures script { IfOk result (λ board. board.script ≡ script) }
        ensures history { IfOk result (λ board. board.history ≡ []) }
    {
        let blocks = script.blocks.as_slice();
        let room = most_events(blocks) as usize;
        let events = Vec::with_capacity(alloc, room)?;
        let mut pool = AreaPool::open(alloc, &script.layout, users(blocks), script.large)?;
        let tasks = first_tasks(alloc, &script.layout, blocks, &mut pool)?;
        let ready = born_blocks(alloc, blocks)?;
        let members = first_members(alloc, blocks)?;
        let living = ready.len() as u32;
        Ok(Board {
            script,
            events,
            tasks,
            ready,
            living,
            members,
            pool,
        })
    }

    /// Hands out the first ready block for a turn on the processor, which is one of the script's and has no turn; `mark` is the
    /// owner mark that the history gives it. The turn has the lowest pending signal of a task in which no handler runs; it isn't
    /// delivered yet, and is pending no more. The Start joins the history. Takes no memory.
    ///
    /// `Nothing` comes exactly where no block is ready and one lives: then another processor has a turn. `Done` comes exactly where
    /// none lives. After both nothing has changed.
    pub fn take(&mut self, cpu: u32, mark: Option<u32>) -> Taken
        requires processor { cpu < self.old.script.cpus }
        requires free { turn_on self.old cpu ≡ None }
        requires mark { mark ≡ notes.mark self.old.script (past_of self.old) cpu }

        // Which answer comes.
        ensures turn { IfTurn result (λ turn. IsTurnOf self.old cpu turn) }
        ensures lives { IfTurn result (λ turn. none_lives (machine_in self.old) ≡ false) }
        ensures nothing { OnNothing result ((ready_of self.old ≡ []) × (none_lives (machine_in self.old) ≡ false)) }
        ensures idle { OnNothing result (HasOther self.old cpu) }
        ensures done { OnDone result (none_lives (machine_in self.old) ≡ true) }

        // A restore is left out only where the mark is the task and its last processor is this one.
        ensures skip { IfTurn result (λ turn. turn.how ≡ hows.Skip → (mark ≡ Some turn.task.name) × (turn.task.last ≡ Some cpu)) }

        // What joins the history, which stays legal.
        ensures history { IfTurn result (λ turn. self.new.history ≡ self.old.history ++ events.Start turn.task.name cpu turn.how turn.signal ∷ []) }
        ensures legal { IsLegal self.new.script self.new.history }
        ensures replay { past_of self.new ≡ entry self.old.script (past_of self.old) cpu }

        // What the history tells then.
        ensures stage { IfTurn result (λ turn. stage_in self.new turn.task.name ≡ stages.Turn cpu 0) }
        ensures private { IfTurn result (λ turn. private_in self.new turn.task.name ≡ begun turn.signal (private_in self.old turn.task.name)) }
        ensures busy { IfTurn result (λ turn. turn_on self.new cpu ≡ Some turn.task.name) }
        ensures others { IfTurn result (λ turn. KeepsOthers turn.task.name self.old self.new) }
        ensures turns { KeepsTurns cpu self.old self.new }

        // What every other processor may rely on.
        ensures next { Next cpu self.old self.new }

        // What stays.
        ensures script { self.new.script ≡ self.old.script }
        ensures nothing_changes { OnNothing result (self.new ≡ self.old) }
        ensures done_changes { OnDone result (self.new ≡ self.old) }
    {
        machine_laws();
        let Some(name) = self.ready.pop_front() else {
            return if self.living == 0 {
                Taken::Done
            } else {
                Taken::Nothing
            };
        };
        let kind = self.script.blocks.as_slice()[name as usize].kind;
        let Some(task) = self.tasks[name as usize].take() else {
            unreachable!()
        };
        let how = start_how(kind, mark, task.last, name, cpu);
        let signal = self.members[name as usize].take_next(task.handling);
        tell(
            &mut self.events,
            Event::Start {
                task: name,
                cpu,
                how,
                signal,
            },
        );
        Taken::Turn(Turn {
            task,
            cpu,
            how,
            signal,
        })
    }

    /// Takes a task back after its turn, with the lines that ran and the turn's close. Their events join the history, and the outer
    /// line with which it closes is done: a fork bears its child, a `kill` adds its signal to those that are pending of a block that
    /// lives, a `stop` holds the block while its parent lives, a `wait` blocks it while its child goes on, `getregs` and `setregs`
    /// read and write the registers of a child that is stopped, and `cont` lets it go on. A line that traps makes the task
    /// grow, where it may use tiles and a Large area is free, and else kills it. At End and where it is killed the task's area goes
    /// back to the pool and the task is dropped. The ready list gets the parent that waited, then the children that
    /// were freed, let go or born, and then the block itself, if it goes on. Takes no memory.
    ///
    /// The block is in this turn, and the lines and the close are the script's from the task's place on. The task stands for the
    /// private task after the lines, with the marks after a turn: a user task was switched out on the turn's processor. An outer
    /// line is still before it, and a refused return left it no registers.
    pub fn commit(&mut self, turn: Turn, entries: &Entries, close: Close)
        requires turn { stage_in self.old turn.task.name ≡ stages.Turn turn.cpu 0 }
        requires lines { AreLines self.old.script turn.task.name (private_in self.old turn.task.name) 0 entries.now.items close }
        requires task { IsHome (is_user self.old.script turn.task.name) self.old.script.layout turn.task (private_after self.old turn.task.name entries.now.items close) }
        requires last { is_user self.old.script turn.task.name ≡ true → turn.task.last ≡ Some turn.cpu }

        // What joins the history, which stays legal.
        ensures history { self.new.history ≡ self.old.history ++ turn_events turn.task.name entries.now.items close (answer_in self.old turn.task.name entries.now.items close) }
        ensures grows { length self.old.history < length self.new.history }
        ensures legal { IsLegal self.new.script self.new.history }
        ensures replay { past_of self.new ≡ entry self.old.script (past_of self.old) turn.cpu }

        // What the history tells then.
        ensures stage { stage_in self.new turn.task.name ≡ stage_closed self.old.script turn.task.name close (answer_in self.old turn.task.name entries.now.items close) }
        ensures private { private_in self.new turn.task.name ≡ private_closed self.old turn.task.name entries.now.items close }
        ensures free { turn_on self.new turn.cpu ≡ None }
        ensures others { OthersKept turn.task.name self.old self.new }
        ensures turns { KeepsTurns turn.cpu self.old self.new }

        // What every other processor may rely on.
        ensures next { Next turn.cpu self.old self.new }

        // What stays.
        ensures script { self.new.script ≡ self.old.script }
    {
        machine_laws();
        let Turn { task, .. } = turn;
        let mut task = task;
        let name = task.name;
        let deed = find_deed(&self.script, name, task.place, close);
        let reply = perform(
            &self.script.layout,
            &mut self.tasks,
            &mut self.members,
            &mut self.ready,
            &mut self.living,
            &mut task,
            deed,
        );
        let fate = settle(&self.script.layout, &mut self.pool, &mut task, close);
        tell_turn(
            &mut self.events,
            name,
            entries.as_slice(),
            close,
            reply,
            fate,
        );
        put_back(
            &mut self.tasks,
            &mut self.ready,
            &mut self.living,
            &mut self.members,
            &mut self.pool,
            task,
            close,
            fate,
        );
    }

    /// The events so far, in order. What a board is between calls holds of it.
    pub fn history(&self) -> &[Event]
        ensures events { result.now ≡ self.now.history }
        ensures board { IsBoard self.now }
    {
        self.events.as_slice()
    }

    /// The history of the run, in which each turn was that of the first ready block. Takes no memory.
    pub fn into_history(self) -> History
        ensures events { result ≡ self.history }
        ensures board { IsBoard self }
    {
        let Board { events, .. } = self;
        History::from_vec(events)
    }
}
