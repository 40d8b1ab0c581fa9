//! The blocks of a script, and the second pass over their lines.

ghost use Rattle.std.specs.Prelude.{ℕ, ◌≡◌, ◌+◌, ◌<◌, ◌++◌, true, List, [], length, None, OnOk, IfOk, IfErr};
ghost use Rattle.std.specs.List.{list_any};
ghost use Rattle.std.specs.Str.{bytes_eq};
ghost use Rattle.xs_model.specs.declared.script.Block.{Block};
ghost use Rattle.xs_model.specs.Names.{forked_name};
ghost use Rattle.xs_script.specs.LineOrder.{next, may_end};
ghost use Rattle.xs_script.specs.Front.{ExplainsLine, ExplainsNext};
ghost use Rattle.xs_script.specs.Body.{begun_inside, begun_own, TakesLine, Adds, ReadsLine, body_stand, ExplainsAdded, ExplainsBody};

use crate::begun::{Begun, Tail};
use crate::commands::{Scope, command_fault};
use crate::front::first_line;
use crate::line::Line;
use crate::own_child::OwnChild;
use crate::refusal::{Kind, LimitName, ScriptError};
use std::alloc::{AllocError, Global};
use xs_model::{Block, BlockKind, Command, Items, Name, Order};

/// The most blocks of a script.
const MOST_BLOCKS: usize = 64;

/// What came so far of the blocks: those that are whole, the one that has begun, and the names of the children that their
/// lines fork.
#[derive(Drop)]
pub(crate) struct Body {
    pub(crate) blocks: Items<Block>,
    pub(crate) begun: Option<Begun>,
    pub(crate) forked: Items<Name>,
}

impl Body {
    /// No line came.
    pub(crate) fn new(alloc: Global) -> Body
        ensures none { result.blocks ≡ [] }
        ensures begun { result.begun ≡ None }
        ensures forked { result.forked ≡ [] }
    {
        Body {
            blocks: Items::new(alloc),
            begun: None,
            forked: Items::new(alloc),
        }
    }

    /// Takes the first line of the text, which is line `number` and isn't the text's end, and answers the text after
    /// it.
    pub(crate) fn read_line<'a>(
        &mut self,
        alloc: Global,
        scope: &Scope,
        number: u32,
        text: &'a [u8],
    ) -> Result<&'a [u8], ScriptError>
        requires some { text.now ≡ [] → ⊥ }
        ensures taken { IfOk result (λ rest. ReadsLine scope.now number self.old text.now self.new rest.now) }
        ensures shorter { IfOk result (λ rest. length rest.now < length text.now) }
        ensures refused { IfErr result (ExplainsBody scope.now self.old number text.now) }
    {
        let (line, rest) = match first_line(text) {
            Ok(first) => first,
            Err(kind) => return Err(ScriptError::Refused { line: number, kind }),
        };
        match self.add(alloc, scope, number, line) {
            Ok(()) => Ok(rest),
            Err(e) => Err(e),
        }
    }

    /// The blocks, where the text ends before line `number`.
    pub(crate) fn finish(self, number: u32) -> Result<Items<Block>, ScriptError>
        ensures whole { IfOk result (λ blocks. (self.blocks ≡ blocks) × (self.begun ≡ None) × (may_end (body_stand self) ≡ true)) }
        ensures refused { IfErr result (ExplainsLine (body_stand self) number []) }
    {
        let Body { blocks, begun, .. } = self;
        if begun.is_some() {
            return Err(ScriptError::Refused {
                line: number,
                kind: Kind::BadLine,
            });
        }
        if blocks.is_empty() {
            return Err(ScriptError::Refused {
                line: number,
                kind: Kind::BadLine,
            });
        }
        Ok(blocks)
    }

    /// Takes a line, which is line `number`.
    fn add(
        &mut self,
        alloc: Global,
        scope: &Scope,
        number: u32,
        line: Line,
    ) -> Result<(), ScriptError>
        ensures taken { OnOk result (Adds scope.now number self.old line self.new) }
        ensures refused { IfErr result (ExplainsAdded scope.now self.old number line) }
    {
        match line {
            Line::Begin(kind, name) => match self.begin(alloc, kind, name) {
                Ok(()) => Ok(()),
                Err(kind) => Err(ScriptError::Refused { line: number, kind }),
            },
            Line::Order(command) => self.add_order(scope, number, command),
            Line::NoSignal(_, _) => Err(ScriptError::Refused {
                line: number,
                kind: self.no_signal_kind(),
            }),
            Line::Handler => self.begin_handler(alloc, number),
            Line::End => self.close(alloc, number),
            _other => Err(ScriptError::Refused {
                line: number,
                kind: Kind::BadLine,
            }),
        }
    }

    /// Begins a block.
    fn begin(&mut self, alloc: Global, kind: BlockKind, name: Name) -> Result<(), Kind>
        ensures taken { OnOk result ((number : ℕ) → TakesLine number self.old (Line.Begin kind name) self.new) }
        ensures forked { self.new.forked ≡ self.old.forked }
        ensures refused { IfErr result (λ why. next (body_stand self.old) (Line.Begin kind name) ≡ Err why) }
    {
        if self.begun.is_some() {
            return Err(Kind::BadLine);
        }
        if self.blocks.len() >= MOST_BLOCKS {
            return Err(Kind::Limit(LimitName::Blocks));
        }
        if has_name(self.blocks.as_slice(), &name) {
            return Err(Kind::Repeated);
        }
        self.begun = Some(Begun {
            kind,
            name,
            body: Items::new(alloc),
            tail: Tail::Body,
            own: Items::new(alloc),
        });
        Ok(())
    }

    /// Takes a command in the block that has begun, by line `number`, where nothing is wrong with what it names.
    fn add_order(&mut self, scope: &Scope, number: u32, command: Command) -> Result<(), ScriptError>
        ensures taken { OnOk result (Adds scope.now number self.old (Line.Order command) self.new) }
        ensures refused { IfErr result (ExplainsAdded scope.now self.old number (Line.Order command)) }
    {
        if let Some(kind) = command_fault(
            scope,
            self.is_inside(),
            self.forked.as_slice(),
            self.own(),
            &command,
        ) {
            return Err(ScriptError::Refused { line: number, kind });
        }
        match note_fork(&mut self.forked, &command) {
            Ok(()) => {}
            Err(_) => return Err(ScriptError::Memory),
        }
        self.push_order(number, command)
    }

    /// Whether a handler has begun in the block that has begun.
    fn is_inside(&self) -> bool
        ensures { result ≡ begun_inside self.now.begun }
    {
        match &self.begun {
            Some(begun) => begun.tail.is_inside(),
            None => false,
        }
    }

    /// The children that the lines of the block that has begun fork.
    fn own(&self) -> &[OwnChild]
        ensures { result.now ≡ begun_own self.now.begun }
    {
        match &self.begun {
            Some(begun) => begun.own.as_slice(),
            None => &[],
        }
    }

    /// Adds an order to the block that has begun.
    fn push_order(&mut self, number: u32, command: Command) -> Result<(), ScriptError>
        ensures taken { OnOk result (TakesLine number self.old (Line.Order command) self.new) }
        ensures forked { self.new.forked ≡ self.old.forked }
        ensures refused { IfErr result (ExplainsNext (next (body_stand self.old) (Line.Order command)) number) }
    {
        let begun = match self.begun.take() {
            Some(begun) => begun,
            None => {
                return Err(ScriptError::Refused {
                    line: number,
                    kind: Kind::BadLine,
                });
            }
        };
        if let Some(kind) = begun.order_fault(&command) {
            return Err(ScriptError::Refused { line: number, kind });
        }
        match begun.push(Order { number, command }) {
            Ok(begun) => {
                self.begun = Some(begun);
                Ok(())
            }
            Err(_) => Err(ScriptError::Memory),
        }
    }

    /// What a number that no signal has is refused with.
    fn no_signal_kind(&self) -> Kind
        ensures { (name : List ℕ) (number : ℕ) → next (body_stand self.now) (Line.NoSignal name number) ≡ Err result }
    {
        match &self.begun {
            Some(begun) => begun.tail.part().no_signal_kind(begun.kind),
            None => Kind::BadLine,
        }
    }

    /// Begins the handler of the block that has begun.
    fn begin_handler(&mut self, alloc: Global, number: u32) -> Result<(), ScriptError>
        ensures taken { OnOk result (TakesLine number self.old Line.Handler self.new) }
        ensures forked { self.new.forked ≡ self.old.forked }
        ensures refused { IfErr result (ExplainsNext (next (body_stand self.old) Line.Handler) number) }
    {
        match self.begun.take() {
            Some(begun) if begun.tail.part().may_handle(begun.kind) => {
                self.begun = Some(Begun {
                    kind: begun.kind,
                    name: begun.name,
                    body: begun.body,
                    tail: Tail::Handler(Items::new(alloc)),
                    own: begun.own,
                });
                Ok(())
            }
            _ => Err(ScriptError::Refused {
                line: number,
                kind: Kind::BadLine,
            }),
        }
    }

    /// Ends the block that has begun.
    fn close(&mut self, alloc: Global, number: u32) -> Result<(), ScriptError>
        ensures taken { OnOk result (TakesLine number self.old Line.End self.new) }
        ensures forked { self.new.forked ≡ self.old.forked }
        ensures refused { IfErr result (ExplainsNext (next (body_stand self.old) Line.End) number) }
    {
        match self.begun.take() {
            Some(begun) if begun.tail.part().may_close() => {
                match self.blocks.push(begun.into_block(alloc)) {
                    Ok(()) => Ok(()),
                    Err(_) => Err(ScriptError::Memory),
                }
            }
            _ => Err(ScriptError::Refused {
                line: number,
                kind: Kind::BadLine,
            }),
        }
    }
}

/// Adds the name of the child that the command forks, where it forks one.
fn note_fork(forked: &mut Items<Name>, command: &Command) -> Result<(), AllocError>
    ensures { OnOk result (forked.new ≡ forked.old ++ forked_name command.now) }
{
    match command {
        Command::Fork { name } => forked.push(Name::from_slice(name.as_slice())),
        _ => Ok(()),
    }
}

/// Whether a block has this name.
fn has_name(blocks: &[Block], name: &Name) -> bool
    ensures { result ≡ list_any (λ (block : Block). bytes_eq block.name name.now) blocks.now }
{
    let name = name.as_slice();
    blocks.iter().any(|block| block.name.as_slice() == name)
}
