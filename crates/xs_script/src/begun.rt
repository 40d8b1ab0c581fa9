//! A block that has begun: its lines so far, and the children that they fork.

ghost use Rattle.std.specs.Prelude.{◌≡◌, None, IfOk};
ghost use Rattle.xs_script.specs.LineOrder.{order_fault};
ghost use Rattle.xs_script.specs.Body.{tail_part, tail_inside, tail_orders, handler_with, block_of_begun, IsPushed};

use crate::block_part::BlockPart;
use crate::own_child::{OwnChild, own_after};
use crate::refusal::Kind;
use std::alloc::{AllocError, Global};
use xs_model::{Block, BlockKind, Command, Items, Name, Order};

/// The handler of a block that has begun.
#[derive(Drop)]
pub(crate) enum Tail {
    /// None has begun.
    Body,
    /// These lines of it came.
    Handler(Items<Order>),
    /// These are all its lines.
    Returned(Items<Order>),
}

/// A block that has begun and not ended, and the children that it forks.
#[derive(Drop)]
pub(crate) struct Begun {
    pub(crate) kind: BlockKind,
    pub(crate) name: Name,
    pub(crate) body: Items<Order>,
    pub(crate) tail: Tail,
    pub(crate) own: Items<OwnChild>,
}

impl Tail {
    /// The part of the block that a reader stands in.
    pub(crate) fn part(&self) -> BlockPart
        ensures { result ≡ tail_part self.now }
    {
        match self {
            Tail::Body => BlockPart::Body,
            Tail::Handler(_) => BlockPart::Handler,
            Tail::Returned(_) => BlockPart::Returned,
        }
    }

    /// Whether a reader stands in the handler, to its end.
    pub(crate) fn is_inside(&self) -> bool
        ensures { result ≡ tail_inside self.now }
    {
        match self {
            Tail::Body => false,
            Tail::Handler(_) | Tail::Returned(_) => true,
        }
    }

    /// The lines of the handler.
    fn into_orders(self, alloc: Global) -> Items<Order>
        ensures { result ≡ tail_orders self }
    {
        match self {
            Tail::Body => Items::new(alloc),
            Tail::Handler(orders) | Tail::Returned(orders) => orders,
        }
    }
}

impl Begun {
    /// What a command is refused with by its place.
    pub(crate) fn order_fault(&self, command: &Command) -> Option<Kind>
        ensures { result ≡ order_fault (tail_part self.now.tail) self.now.kind command.now }
    {
        self.tail.part().order_fault(self.kind, command)
    }

    /// The block with one line more, which may stand there.
    pub(crate) fn push(self, order: Order) -> Result<Begun, AllocError>
        requires { order_fault (tail_part self.tail) self.kind order.command ≡ None }
        ensures { IfOk result (IsPushed self order) }
    {
        let Begun {
            kind,
            name,
            mut body,
            tail,
            own,
        } = self;
        let own = own_after(own, &order.command)?;
        let tail = match tail {
            Tail::Body => {
                body.push(order)?;
                Tail::Body
            }
            Tail::Handler(orders) => push_handler(orders, order)?,
            Tail::Returned(orders) => Tail::Returned(orders),
        };
        Ok(Begun {
            kind,
            name,
            body,
            tail,
            own,
        })
    }

    /// The whole block, which may end there.
    pub(crate) fn into_block(self, alloc: Global) -> Block
        ensures { result ≡ block_of_begun self }
    {
        let Begun {
            kind,
            name,
            body,
            tail,
            ..
        } = self;
        let handler = tail.into_orders(alloc);
        Block {
            kind,
            name,
            body,
            handler,
        }
    }
}

/// The handler of these lines and one more, which ends it where it is the return.
fn push_handler(mut orders: Items<Order>, order: Order) -> Result<Tail, AllocError>
    ensures { IfOk result (λ tail. tail ≡ handler_with orders order) }
{
    let part = BlockPart::Handler.after(&order.command);
    orders.push(order)?;
    match part {
        BlockPart::Returned => Ok(Tail::Returned(orders)),
        _ => Ok(Tail::Handler(orders)),
    }
}
