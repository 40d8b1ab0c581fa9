//! Copies of scripts and of replies.

ghost use Rattle.std.specs.Prelude.{◌≡◌, IfOk};

use crate::event::Reply;
use crate::items::Items;
use crate::name::Name;
use crate::script::{Block, Command, Order, Script};
use std::alloc::{AllocError, Global};
use xs_base::Lane;

impl Script {
    /// An equal script. Fails for want of memory alone.
    pub fn copy(&self, alloc: Global) -> Result<Script, AllocError>
        ensures { IfOk result (λ script. script ≡ self.now) }
    {
        let sched = copy_entries(alloc, self.sched.as_slice())?;
        let blocks = copy_blocks(alloc, self.blocks.as_slice())?;
        Ok(Script {
            machine: self.machine,
            layout: self.layout,
            cpus: self.cpus,
            quantum: self.quantum,
            large: self.large,
            sched,
            blocks,
        })
    }
}

impl Reply {
    /// The same reply.
    pub fn copy(&self) -> Reply
        ensures { result ≡ self.now }
    {
        match self {
            Reply::Done => Reply::Done,
            Reply::Bytes(lane) => Reply::Bytes(copy_lane(lane)),
            Reply::Count(count) => Reply::Count(*count),
            Reply::Error(number) => Reply::Error(*number),
            Reply::Blocked => Reply::Blocked,
            Reply::Stopped => Reply::Stopped,
            Reply::Ended => Reply::Ended,
            Reply::Held => Reply::Held,
            Reply::Full => Reply::Full,
            Reply::Legacy => Reply::Legacy,
        }
    }
}

/// The same entries of a schedule.
fn copy_entries(alloc: Global, entries: &[u32]) -> Result<Items<u32>, AllocError>
    ensures { IfOk result (λ copies. copies ≡ entries.now) }
{
    Ok(Items::from_vec(Vec::from_slice(alloc, entries)?))
}

/// The same blocks.
fn copy_blocks(alloc: Global, blocks: &[Block]) -> Result<Items<Block>, AllocError>
    ensures { IfOk result (λ copies. copies ≡ blocks.now) }
{
    let mut copies = Vec::with_capacity(alloc, blocks.len())?;
    'each: for block in blocks {
        copies.push(copy_block(alloc, block)?)?;
    }
    Ok(Items::from_vec(copies))
}

/// The same block.
fn copy_block(alloc: Global, block: &Block) -> Result<Block, AllocError>
    ensures { IfOk result (λ copied. copied ≡ block.now) }
{
    let body = copy_orders(alloc, block.body.as_slice())?;
    let handler = copy_orders(alloc, block.handler.as_slice())?;
    Ok(Block {
        kind: block.kind,
        name: copy_name(&block.name),
        body,
        handler,
    })
}

/// The same orders.
fn copy_orders(alloc: Global, orders: &[Order]) -> Result<Items<Order>, AllocError>
    ensures { IfOk result (λ copies. copies ≡ orders.now) }
{
    let mut copies = Vec::with_capacity(alloc, orders.len())?;
    'each: for order in orders {
        copies.push(copy_order(order))?;
    }
    Ok(Items::from_vec(copies))
}

/// The same order.
fn copy_order(order: &Order) -> Order
    ensures { result ≡ order.now }
{
    Order {
        number: order.number,
        command: copy_command(&order.command),
    }
}

/// The same command.
fn copy_command(command: &Command) -> Command
    ensures { result ≡ command.now }
{
    match command {
        Command::Set { reg, bytes } => Command::Set {
            reg: copy_name(reg),
            bytes: copy_lane(bytes),
        },
        Command::Get { reg } => Command::Get {
            reg: copy_name(reg),
        },
        Command::Tilerelease => Command::Tilerelease,
        Command::Ksec { byte } => Command::Ksec { byte: *byte },
        Command::Perm { feature } => Command::Perm { feature: *feature },
        Command::Yield => Command::Yield,
        Command::Peek { at, len } => Command::Peek { at: *at, len: *len },
        Command::Poke { at, bytes } => Command::Poke {
            at: *at,
            bytes: copy_lane(bytes),
        },
        Command::Bpeek { at, len } => Command::Bpeek { at: *at, len: *len },
        Command::Bpoke { at, bytes } => Command::Bpoke {
            at: *at,
            bytes: copy_lane(bytes),
        },
        Command::Sigreturn => Command::Sigreturn,
        Command::Fork { name } => Command::Fork {
            name: copy_name(name),
        },
        Command::Kill { name, signo } => Command::Kill {
            name: copy_name(name),
            signo: *signo,
        },
        Command::Stop => Command::Stop,
        Command::Wait { name } => Command::Wait {
            name: copy_name(name),
        },
        Command::Getregs { name, set } => Command::Getregs {
            name: copy_name(name),
            set: *set,
        },
        Command::Setregs { name, set, count } => Command::Setregs {
            name: copy_name(name),
            set: *set,
            count: *count,
        },
        Command::Cont { name } => Command::Cont {
            name: copy_name(name),
        },
    }
}

/// The same name.
fn copy_name(name: &Name) -> Name
    ensures { result ≡ name.now }
{
    Name::from_slice(name.as_slice())
}

/// The same bytes.
fn copy_lane(lane: &Lane) -> Lane
    ensures { result ≡ lane.now }
{
    Lane::from_slice(lane.as_slice())
}
