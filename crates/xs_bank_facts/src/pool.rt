//! A pool whose areas are out.

ghost use Rattle.std.specs.Prelude.{◌<◌};

use crate::page::Page;
use std::alloc::{AllocError, Global};
use xs_area::Class;
use xs_layout::Layout;
use xs_pool::{AreaPool, Full};

/// Tells what a pool of one Large area answers to a second lease: how many are out, and how many there are.
pub fn tell_pool(alloc: Global, page: &mut Page) -> Result<(), AllocError> {
    let mut pool = AreaPool::open(alloc, &Layout::amx(), 0, 1)?;
    page.word("the second lease of a pool of one Large area is full: out, capacity =");
    if let Some(full) = second_lease(&mut pool) {
        page.number(u64::from(full.out));
        page.number(u64::from(full.capacity));
    }
    page.word("\n");
    Ok(())
}

/// What the pool answers to a second lease, where it answers the first.
fn second_lease(pool: &mut AreaPool) -> Option<Full>
    requires { pool.old.given < 100 }
{
    let Ok(_lease) = pool.lease(Class::Large) else {
        return None;
    };
    pool.lease(Class::Large).err()
}
