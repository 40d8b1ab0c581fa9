//! A processor's area in the initial configuration.

ghost use Rattle.std.specs.Prelude.{◌≡◌, length, IfOk};
ghost use Rattle.xs_bank.specs.SetUp.{IsInitialArea};

use std::alloc::{AllocError, Global};
use std::marker::Model;
use xs_area::{Area, Class, make_initial};
use xs_layout::Layout;

/// The bytes of an initial area: those of the greatest area of any machine.
const INITIAL_BYTES: usize = 16384;

/// An area of 16,384 bytes and number 0, which no pool gives. Contracts see the list of its bytes.
#[derive(Drop)]
pub struct InitialArea {
    area: Area,
}

impl Model for InitialArea {
    ghost use Rattle.std.specs.Prelude.{◌≡◌, List, ℕ, vec_len};

    ghost Value = { List ℕ };

    ghost view = { λ i. i.area.bytes.items };

    ghost invariant = { λ i. (i.area.id ≡ 0) × (vec_len i.area.bytes ≡ 16384) };
}

impl InitialArea {
    /// An area of zeros. Fails for want of memory alone.
    pub fn new(alloc: Global) -> Result<InitialArea, AllocError>
        ensures { IfOk result (λ initial. length initial ≡ 16384) }
    {
        let bytes = zeros_of(alloc, INITIAL_BYTES)?;
        Ok(InitialArea {
            area: Area { id: 0, bytes },
        })
    }

    /// The area.
    pub fn area(&self) -> &Area
        ensures bytes { result.now.bytes.items ≡ self.now }
        ensures id { result.now.id ≡ 0 }
        ensures len { length self.now ≡ 16384 }
    {
        &self.area
    }

    /// Makes it a Small area of the machine without state, in the compacted format. But for its number it can be loaded, and it
    /// has the bytes of each place that it names.
    pub fn set_up(&mut self, layout: &Layout)
        ensures { IsInitialArea layout.now self.new }
    {
        // The rows pass every test of a table.
        let _ = layout.len();
        make_initial(layout, Class::Small, &mut self.area.bytes);
    }
}

/// A vector of `len` zeros.
fn zeros_of(alloc: Global, len: usize) -> Result<Vec<u8>, AllocError>
    ensures { IfOk result (λ v. length v.items ≡ len) }
{
    vec![in alloc; 0u8; len]
}
