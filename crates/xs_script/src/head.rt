//! The lines of a script before its blocks.

ghost use Rattle.std.specs.Prelude.{◌≡◌, ◌<◌, ◌≤◌, [], length, OnOk, IfOk, IfErr};
ghost use Rattle.xs_base.specs.Layout.{row_error};
ghost use Rattle.xs_script.specs.LineOrder.{AtVersion, next, after_cpus, AtQuantum};
ghost use Rattle.xs_script.specs.Refusal.{table_fault};
ghost use Rattle.xs_script.specs.Front.{ExplainsLine};
ghost use Rattle.xs_script.specs.Head.{IsHead, Takes, Steps, head_stand, lines_of_head};

use crate::front::first_line;
use crate::line::Line;
use crate::line_reader::begins_row;
use crate::refusal::{Kind, LimitName, ScriptError};
use arrayvec::ArrayVec;
use xs_base::{LayoutError, Row};
use xs_layout::{Layout, MOST_ROWS, row_error, table_error};
use xs_model::Named;

/// The most processors of a script.
const MOST_CPUS: u32 = 16;

/// The greatest quantum, in Local events.
const MOST_QUANTUM: u32 = 32;

/// The most Large save areas.
const MOST_LARGE: u32 = 64;

/// The line that comes next.
#[derive(Clone, Copy, PartialEq, Eq)]
pub(crate) enum Stage {
    Version,
    Machine,
    Row,
    Cpus,
    Quantum,
    Large,
    Sched,
}

/// What came so far of the lines before the blocks. A part that didn't come yet is one that a script may have.
#[derive(Drop)]
pub(crate) struct Head {
    pub(crate) stage: Stage,
    pub(crate) machine: Named,
    pub(crate) layout: Layout,
    pub(crate) rows: ArrayVec<Row, MOST_ROWS>,
    pub(crate) cpus: u32,
    pub(crate) quantum: u32,
    pub(crate) large: u32,
}

impl Head {
    /// No line came.
    pub(crate) fn new() -> Head
        ensures head { IsHead result }
        ensures none { lines_of_head result ≡ [] }
        ensures stand { head_stand result ≡ AtVersion }
    {
        Head {
            stage: Stage::Version,
            machine: Named::Amx,
            layout: Layout::amx(),
            rows: ArrayVec::new(),
            cpus: 1,
            quantum: 1,
            large: 0,
        }
    }

    /// Takes the first line of the text, which is line `number`, and answers the text after it.
    pub(crate) fn read_line<'a>(
        &mut self,
        number: u32,
        text: &'a [u8],
    ) -> Result<&'a [u8], ScriptError>
        requires head { IsHead self.old }
        requires part { self.old.stage ≡ Stage.Sched → ⊥ }
        ensures taken { IfOk result (λ rest. Steps self.old text.now self.new rest.now) }
        ensures shorter { IfOk result (λ rest. length rest.now < length text.now) }
        ensures refused { IfErr result (ExplainsLine (head_stand self.old) number text.now) }
    {
        if let Some(error) = self.table_fault(text) {
            return Err(ScriptError::Refused {
                line: 2,
                kind: Kind::Layout(error),
            });
        }
        let (line, rest) = match first_line(text) {
            Ok(first) => first,
            Err(kind) => return Err(ScriptError::Refused { line: number, kind }),
        };
        match self.add(line) {
            Ok(()) => Ok(rest),
            Err(kind) => Err(ScriptError::Refused { line: number, kind }),
        }
    }

    /// The first test that the whole table fails, where the text's first line isn't a row any more.
    fn table_fault(&self, text: &[u8]) -> Option<LayoutError>
        ensures { result ≡ table_fault (head_stand self.now) text.now }
    {
        if self.stage == Stage::Row && !begins_row(text) {
            table_error(self.rows.as_slice())
        } else {
            None
        }
    }

    /// Takes the next line, or answers what it is refused with.
    fn add(&mut self, line: Line) -> Result<(), Kind>
        requires head { IsHead self.old }
        requires part { self.old.stage ≡ Stage.Sched → ⊥ }
        ensures taken { OnOk result (Takes self.old line self.new) }
        ensures refused { IfErr result (λ kind. next (head_stand self.old) line ≡ Err kind) }
    {
        match (self.stage, line) {
            (Stage::Version, Line::Version) => {
                self.stage = Stage::Machine;
                Ok(())
            }
            (Stage::Machine, Line::Machine(named)) => {
                self.set_machine(named);
                Ok(())
            }
            (Stage::Row, Line::Row(row)) => self.add_row(row),
            (Stage::Row, Line::Cpus(n)) => self.close_rows(n),
            (Stage::Cpus, Line::Cpus(n)) => self.set_cpus(n),
            (Stage::Quantum, Line::Quantum(n)) => self.set_quantum(n),
            (Stage::Large, Line::Large(n)) => self.set_large(n),
            _ => Err(Kind::BadLine),
        }
    }

    /// Takes the machine: one with a name has its table, and of one of rows these are next.
    fn set_machine(&mut self, named: Named)
        requires head { IsHead self.old }
        requires stage { self.old.stage ≡ Stage.Machine }
        ensures { Takes self.old (Line.Machine named) self.new }
    {
        match named {
            Named::Amx => {
                self.machine = named;
                self.layout = Layout::amx();
                self.stage = Stage::Cpus;
            }
            Named::Avx => {
                self.machine = named;
                self.layout = Layout::avx();
                self.stage = Stage::Cpus;
            }
            Named::Rows => self.stage = Stage::Row,
        }
    }

    /// Takes one row more.
    fn add_row(&mut self, row: Row) -> Result<(), Kind>
        requires head { IsHead self.old }
        requires stage { self.old.stage ≡ Stage.Row }
        ensures taken { OnOk result (Takes self.old (Line.Row row) self.new) }
        ensures refused { IfErr result (λ kind. next (head_stand self.old) (Line.Row row) ≡ Err kind) }
    {
        match self.row_error(row) {
            Some(error) => Err(Kind::Layout(error)),
            None => {
                self.rows.push(row);
                Ok(())
            }
        }
    }

    /// The first test that the row fails as the next one.
    fn row_error(&self, row: Row) -> Option<LayoutError>
        ensures { result ≡ row_error self.now.rows.items row }
    {
        row_error(self.rows.as_slice(), row)
    }

    /// Takes the number of processors after the rows, which are the machine's table.
    fn close_rows(&mut self, n: u32) -> Result<(), Kind>
        requires head { IsHead self.old }
        requires stage { self.old.stage ≡ Stage.Row }
        ensures taken { OnOk result (Takes self.old (Line.Cpus n) self.new) }
        ensures refused { IfErr result (λ kind. next (head_stand self.old) (Line.Cpus n) ≡ Err kind) }
    {
        let layout = match Layout::from_rows(self.rows.as_slice()) {
            Ok(layout) => layout,
            Err(fault) => return Err(Kind::Layout(fault.error)),
        };
        match check_cpus(n) {
            Ok(()) => {
                self.machine = Named::Rows;
                self.layout = layout;
                self.cpus = n;
                self.stage = Stage::Quantum;
                Ok(())
            }
            Err(kind) => Err(kind),
        }
    }

    /// Takes the number of processors.
    fn set_cpus(&mut self, n: u32) -> Result<(), Kind>
        requires head { IsHead self.old }
        requires stage { self.old.stage ≡ Stage.Cpus }
        ensures taken { OnOk result (Takes self.old (Line.Cpus n) self.new) }
        ensures refused { IfErr result (λ kind. next (head_stand self.old) (Line.Cpus n) ≡ Err kind) }
    {
        check_cpus(n)?;
        self.cpus = n;
        self.stage = Stage::Quantum;
        Ok(())
    }

    /// Takes the quantum.
    fn set_quantum(&mut self, n: u32) -> Result<(), Kind>
        requires head { IsHead self.old }
        requires stage { self.old.stage ≡ Stage.Quantum }
        ensures taken { OnOk result (Takes self.old (Line.Quantum n) self.new) }
        ensures refused { IfErr result (λ kind. next (head_stand self.old) (Line.Quantum n) ≡ Err kind) }
    {
        if n < 1 || MOST_QUANTUM < n {
            return Err(Kind::Limit(LimitName::Quantum));
        }
        self.quantum = n;
        self.stage = Stage::Large;
        Ok(())
    }

    /// Takes the number of Large save areas.
    fn set_large(&mut self, n: u32) -> Result<(), Kind>
        requires head { IsHead self.old }
        requires stage { self.old.stage ≡ Stage.Large }
        ensures taken { OnOk result (Takes self.old (Line.Large n) self.new) }
        ensures refused { IfErr result (λ kind. next (head_stand self.old) (Line.Large n) ≡ Err kind) }
    {
        if MOST_LARGE < n {
            return Err(Kind::Limit(LimitName::Large));
        }
        self.large = n;
        self.stage = Stage::Sched;
        Ok(())
    }
}

/// Whether there may be so many processors.
fn check_cpus(n: u32) -> Result<(), Kind>
    ensures taken { OnOk result (after_cpus n ≡ Ok (AtQuantum n)) }
    ensures few { OnOk result ((0 < n) × (n ≤ 16)) }
    ensures refused { IfErr result (λ kind. after_cpus n ≡ Err kind) }
{
    match n {
        1..=MOST_CPUS => Ok(()),
        _ => Err(Kind::Limit(LimitName::Cpus)),
    }
}
