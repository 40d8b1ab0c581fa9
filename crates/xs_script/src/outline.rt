//! The blocks of a text, looked through before memory is taken for them: the first pass.

ghost use Rattle.std.specs.Prelude.{ℕ, ◌≡◌, ◌+◌, ◌^◌, ◌<◌, ◌++◌, true, List, [], length, OnOk, IfOk, IfErr};
ghost use Rattle.xs_script.specs.LineOrder.{AtBlock, next, may_end};
ghost use Rattle.xs_script.specs.Refusal.{child_name};
ghost use Rattle.xs_script.specs.Front.{ExplainsFrom, ExplainsLine, ExplainsNext};
ghost use Rattle.xs_script.specs.Outline.{outline_stand, HasSameNames, Looks, LooksOn, AreWholeBlocks};

use crate::block_part::BlockPart;
use crate::commands::is_among;
use crate::front::first_line;
use crate::line::Line;
use crate::refusal::{Kind, LimitName, ScriptError};
use std::alloc::{AllocError, Global};
use xs_model::{BlockKind, Command, Items, Name};

/// The most blocks of a script.
const MOST_BLOCKS: usize = 64;

/// A block that has begun and not ended: its kind, and the part of it that a reader stands in.
#[derive(Clone, Copy, PartialEq, Eq)]
pub(crate) struct Opened {
    pub(crate) kind: BlockKind,
    pub(crate) part: BlockPart,
}

/// What is kept of the lines so far: the names of the blocks, of the child blocks and of the blocks with a handler among them, the
/// name of the last block, and what else is known of it where it hasn't ended.
#[derive(Drop)]
pub(crate) struct Outline {
    pub(crate) names: Items<Name>,
    pub(crate) children: Items<Name>,
    pub(crate) handled: Items<Name>,
    pub(crate) last: Name,
    pub(crate) begun: Option<Opened>,
}

/// Looks through the blocks that the text is, to its end, where its first line is line `first`, and answers the names of the child
/// blocks and of the blocks with a handler. It takes memory for names alone.
pub(crate) fn look_through(
    alloc: Global,
    first: u32,
    text: &[u8],
) -> Result<(Items<Name>, Items<Name>), ScriptError>
    requires { first + length text.now < 2 ^ 32 }
    ensures whole { IfOk result (λ x. AreWholeBlocks text.now x.0 x.1) }
    ensures refused { IfErr result (ExplainsFrom (AtBlock []) first text.now) }
{
    let mut outline = Outline::new(alloc);
    let mut number = first;
    let mut left = text;
    'lines: while !left.is_empty() {
        match outline.read_line(number, left) {
            Ok(rest) => left = rest,
            Err(e) => return Err(e),
        }
        number += 1;
    }
    match outline.finish(number) {
        Ok(names) => Ok(names),
        Err(e) => Err(e),
    }
}

impl Outline {
    /// No line came.
    fn new(alloc: Global) -> Outline
        ensures names { result.names ≡ [] }
        ensures children { result.children ≡ [] }
        ensures handled { result.handled ≡ [] }
        ensures last { result.last ≡ [] }
        ensures begun { result.begun ≡ None }
    {
        Outline {
            names: Items::new(alloc),
            children: Items::new(alloc),
            handled: Items::new(alloc),
            last: Name::from_slice(b""),
            begun: None,
        }
    }

    /// Takes the first line of the text, which is line `number` and isn't the text's end, and answers the text after
    /// it.
    fn read_line<'a>(&mut self, number: u32, text: &'a [u8]) -> Result<&'a [u8], ScriptError>
        requires some { text.now ≡ [] → ⊥ }
        ensures taken { IfOk result (λ rest. LooksOn self.old text.now self.new rest.now) }
        ensures shorter { IfOk result (λ rest. length rest.now < length text.now) }
        ensures refused { IfErr result (ExplainsLine (outline_stand self.old) number text.now) }
    {
        let (line, rest) = match first_line(text) {
            Ok(first) => first,
            Err(kind) => return Err(ScriptError::Refused { line: number, kind }),
        };
        match self.add(number, line) {
            Ok(()) => Ok(rest),
            Err(e) => Err(e),
        }
    }

    /// Takes a line, which is line `number`.
    fn add(&mut self, number: u32, line: Line) -> Result<(), ScriptError>
        ensures taken { OnOk result (Looks self.old line self.new) }
        ensures refused { IfErr result (ExplainsNext (next (outline_stand self.old) line) number) }
    {
        match line {
            Line::Begin(kind, name) => self.begin(number, kind, name),
            Line::Order(command) => self.add_order(number, &command),
            Line::NoSignal(_, _) => Err(ScriptError::Refused {
                line: number,
                kind: self.no_signal_kind(),
            }),
            Line::Handler => self.begin_handler(number),
            Line::End => self.close(number),
            _other => Err(ScriptError::Refused {
                line: number,
                kind: Kind::BadLine,
            }),
        }
    }

    /// Takes a command in the block that has begun, by line `number`.
    fn add_order(&mut self, number: u32, command: &Command) -> Result<(), ScriptError>
        ensures taken { OnOk result (next (outline_stand self.old) (Line.Order command.now) ≡ Ok (outline_stand self.new)) }
        ensures same { HasSameNames self.old self.new }
        ensures refused { IfErr result (ExplainsNext (next (outline_stand self.old) (Line.Order command.now)) number) }
    {
        let opened = match self.begun {
            Some(opened) => opened,
            None => {
                return Err(ScriptError::Refused {
                    line: number,
                    kind: Kind::BadLine,
                });
            }
        };
        if let Some(kind) = opened.part.order_fault(opened.kind, command) {
            return Err(ScriptError::Refused { line: number, kind });
        }
        self.begun = Some(Opened {
            kind: opened.kind,
            part: opened.part.after(command),
        });
        Ok(())
    }

    /// What a number that no signal has is refused with.
    fn no_signal_kind(&self) -> Kind
        ensures { (name : List ℕ) (number : ℕ) → next (outline_stand self.now) (Line.NoSignal name number) ≡ Err result }
    {
        match self.begun {
            Some(opened) => opened.part.no_signal_kind(opened.kind),
            None => Kind::BadLine,
        }
    }

    /// Begins the handler of the block that has begun, by line `number`.
    fn begin_handler(&mut self, number: u32) -> Result<(), ScriptError>
        ensures taken { OnOk result (Looks self.old Line.Handler self.new) }
        ensures refused { IfErr result (ExplainsNext (next (outline_stand self.old) Line.Handler) number) }
    {
        let opened = match self.begun {
            Some(opened) if opened.part.may_handle(opened.kind) => opened,
            _ => {
                return Err(ScriptError::Refused {
                    line: number,
                    kind: Kind::BadLine,
                });
            }
        };
        match self.handled.push(Name::from_slice(self.last.as_slice())) {
            Ok(()) => {
                self.begun = Some(Opened {
                    kind: opened.kind,
                    part: BlockPart::Handler,
                });
                Ok(())
            }
            Err(_) => Err(ScriptError::Memory),
        }
    }

    /// Ends the block that has begun, by line `number`.
    fn close(&mut self, number: u32) -> Result<(), ScriptError>
        ensures taken { OnOk result (next (outline_stand self.old) Line.End ≡ Ok (outline_stand self.new)) }
        ensures same { HasSameNames self.old self.new }
        ensures refused { IfErr result (ExplainsNext (next (outline_stand self.old) Line.End) number) }
    {
        match self.begun {
            Some(opened) if opened.part.may_close() => {
                self.begun = None;
                Ok(())
            }
            _ => Err(ScriptError::Refused {
                line: number,
                kind: Kind::BadLine,
            }),
        }
    }

    /// Begins a block, by line `number`.
    fn begin(&mut self, number: u32, kind: BlockKind, name: Name) -> Result<(), ScriptError>
        ensures taken { OnOk result (next (outline_stand self.old) (Line.Begin kind name) ≡ Ok (outline_stand self.new)) }
        ensures children { OnOk result (self.new.children ≡ self.old.children ++ child_name kind name) }
        ensures handled { self.new.handled ≡ self.old.handled }
        ensures last { OnOk result (self.new.last ≡ name) }
        ensures refused { IfErr result (ExplainsNext (next (outline_stand self.old) (Line.Begin kind name)) number) }
    {
        if self.begun.is_some() {
            return Err(ScriptError::Refused {
                line: number,
                kind: Kind::BadLine,
            });
        }
        if self.names.len() >= MOST_BLOCKS {
            return Err(ScriptError::Refused {
                line: number,
                kind: Kind::Limit(LimitName::Blocks),
            });
        }
        if is_among(&name, self.names.as_slice()) {
            return Err(ScriptError::Refused {
                line: number,
                kind: Kind::Repeated,
            });
        }
        match note_child(&mut self.children, kind, &name) {
            Ok(()) => {}
            Err(_) => return Err(ScriptError::Memory),
        }
        self.last = Name::from_slice(name.as_slice());
        match self.names.push(name) {
            Ok(()) => {
                self.begun = Some(Opened {
                    kind,
                    part: BlockPart::Body,
                });
                Ok(())
            }
            Err(_) => Err(ScriptError::Memory),
        }
    }

    /// The names of the child blocks and of the blocks with a handler, where the text ends before line `number`.
    fn finish(self, number: u32) -> Result<(Items<Name>, Items<Name>), ScriptError>
        ensures whole { IfOk result (λ x. (x.0 ≡ self.children) × (x.1 ≡ self.handled) × (may_end (outline_stand self) ≡ true)) }
        ensures refused { IfErr result (ExplainsLine (outline_stand self) number []) }
    {
        let Outline {
            names,
            children,
            handled,
            begun,
            ..
        } = self;
        if begun.is_some() {
            return Err(ScriptError::Refused {
                line: number,
                kind: Kind::BadLine,
            });
        }
        if names.is_empty() {
            return Err(ScriptError::Refused {
                line: number,
                kind: Kind::BadLine,
            });
        }
        Ok((children, handled))
    }
}

/// Adds the name of a block to those of the children, where it is a child's.
fn note_child(children: &mut Items<Name>, kind: BlockKind, name: &Name) -> Result<(), AllocError>
    ensures { OnOk result (children.new ≡ children.old ++ child_name kind name.now) }
{
    match kind {
        BlockKind::Task | BlockKind::Kthread => Ok(()),
        BlockKind::Child => children.push(Name::from_slice(name.as_slice())),
    }
}
