//! The script of a number.

ghost use Rattle.std.specs.Prelude.{◌≡◌, IfOk};
ghost use Rattle.xs_gen.specs.Generated.{generated_text};

use crate::draws::Draws;
use crate::task::put_task;
use std::alloc::{AllocError, Global};

/// The lines before the first task: a machine with tiles, and eight processors.
const HEAD: &[u8] = b"xstate 1\nmachine amx\ncpus 8\nquantum 8\nlarge 64\n";

/// How many tasks a script has.
const TASKS: u32 = 64;

/// The text of the number's script, at most 1,048,576 bytes: 64 tasks that use registers of every kind.
pub fn generate(alloc: Global, number: u32) -> Result<Vec<u8>, AllocError>
    ensures { IfOk result (λ text. text.items ≡ generated_text number) }
{
    let mut text = Vec::from_slice(alloc, HEAD)?;
    let mut draws = Draws::new(number);
    for task in 0..TASKS {
        put_task(&mut text, &mut draws, task)?;
    }
    Ok(text)
}
