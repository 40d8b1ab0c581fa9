//! What is found in a script.

ghost use Rattle.std.specs.Prelude.{◌≡◌, ◌<◌, ◌≤◌, bytes_eq, length};
ghost use Rattle.std.specs.List.{position_or_len};
ghost use Rattle.std.specs.Option.{option_copied};
ghost use Rattle.xs_model.specs.declared.script.Block.{Block};
ghost use Rattle.xs_model.specs.Line.{order_at};
ghost use Rattle.xs_model.specs.Script.{block_named, is_user};

use crate::script::{Block, BlockKind, Order, Script};

impl Script {
    /// Whether the block is a user task.
    pub fn is_user(&self, block: u32) -> bool
        requires { block < length self.now.blocks }
        ensures { result ≡ is_user self.now block }
    {
        self.blocks.as_slice()[block as usize].kind != BlockKind::Kthread
    }

    /// The number of the block of this name, and the number of blocks where none has it.
    pub fn block_named(&self, name: &[u8]) -> u32
        requires { length self.now.blocks ≤ 64 }
        ensures { result ≡ block_named self.now name.now }
    {
        first_named(self.blocks.as_slice(), name)
    }
}

impl Block {
    /// The line at this place: of the handler while it runs, and else of the body.
    pub fn line_at(&self, handling: bool, place: u32) -> Option<&Order>
        ensures { option_copied result ≡ order_at self.now handling place }
    {
        let lines = if handling { &self.handler } else { &self.body };
        lines.as_slice().get(place as usize)
    }
}

/// The number of the first block of this name, and the number of blocks where none has it.
fn first_named(blocks: &[Block], name: &[u8]) -> u32
    requires { length blocks.now ≤ 64 }
    ensures { result ≡ position_or_len (λ (block : Block). bytes_eq block.name name.now) blocks.now }
{
    let mut number = 0;
    'each: for block in blocks {
        if *block.name.as_slice() == *name {
            return number;
        }
        number += 1;
    }
    number
}
