//! `xs_bank_facts`: prints what both kinds of bank answer in worked rows, whether they answer the same to random calls, and what
//! calls on areas do.
#![tactic(auto)]

mod areas;
mod calls;
mod causes;
mod page;
mod pool;
mod random;
mod registers;
mod rounds;
mod rows;
mod side;

use crate::areas::{tell_areas, tell_copies, tell_images};
use crate::causes::{tell_causes, tell_image_causes};
use crate::page::Page;
use crate::pool::tell_pool;
use crate::registers::tell_registers;
use crate::rounds::{are_many, tell_the_same};
use crate::rows::tell_rows;
use crate::side::{Side, side_of};
use std::alloc::{AllocError, Global};
use std::io;
use std::process::ExitCode;
use xs_area::Area;
use xs_bank::{Bank, PlainBank, TrackBank};

/// Prints what the banks answer. The status is 0 where all was printed.
fn main(rt: HostRuntime) -> ExitCode {
    match print_facts(&rt) {
        Ok(true) => ExitCode::from(0),
        _ => ExitCode::from(1),
    }
}

/// Prints what the banks answer, and says whether there was memory for all of it.
fn print_facts(rt: &HostRuntime) -> io::Result<bool> {
    let mut page = Page::new(rt.alloc());
    tell_banks(rt.alloc(), &mut page)?;
    tell_layers(rt.alloc(), &mut page)?;
    rt.print(page.text.as_str())?;
    Ok(page.is_whole)
}

/// Tells what both banks answer.
fn tell_banks(alloc: Global, page: &mut Page) -> Result<(), AllocError> {
    let mut plain = plain_side(alloc)?;
    let mut track = track_side(alloc)?;
    tell_both(&mut plain, &mut track, page);
    Ok(())
}

/// The side of a bank that writes every component.
fn plain_side(alloc: Global) -> Result<Side<PlainBank>, AllocError> {
    let bank = PlainBank::new(alloc)?;
    side_of(alloc, bank)
}

/// The side of a bank that leaves out what it may.
fn track_side(alloc: Global) -> Result<Side<TrackBank>, AllocError> {
    let bank = TrackBank::new(alloc)?;
    side_of(alloc, bank)
}

/// Tells what each bank answers, and whether both answer the same to random calls.
fn tell_both<A: Bank, B: Bank>(plain: &mut Side<A>, track: &mut Side<B>, page: &mut Page) {
    tell_side("plain ", plain, page);
    tell_side("track ", track, page);
    page.word("random rounds tell the same of both banks =");
    page.fact(tell_the_same(plain, track));
    page.word("\nthey have enough calls of each kind =");
    page.fact(are_many(&plain.tools.log.answered));
    page.word("\n");
}

/// Tells the rows of a bank, and whether it answers the first reason against a load.
fn tell_side<B: Bank>(name: &str, side: &mut Side<B>, page: &mut Page) {
    tell_rows(name, &mut side.bank, &mut side.large, page);
    tell_causes(name, &mut side.bank, &mut side.large, page);
}

/// Tells what images have, where registers stand, which areas can be read, and what is copied.
fn tell_layers(alloc: Global, page: &mut Page) -> Result<(), AllocError> {
    let bytes = vec![in alloc; 0u8; 11008]?;
    let mut area = Area { id: 1, bytes };
    tell_images(&mut area, page);
    tell_image_causes(&mut area, page);
    tell_registers(page);
    tell_pool(alloc, page)?;
    tell_areas(alloc, page)?;
    tell_copies(alloc, page)
}
