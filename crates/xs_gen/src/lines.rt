//! The lines of a script that have a word of their own, appended to a text.

ghost use Rattle.std.specs.Prelude.{◌≡◌, ◌≤◌, ◌∷◌, [], ◌++◌, length, codes, decimal, OnOk};
ghost use Rattle.hex.specs.Hex.{encode_lower};
ghost use Rattle.xs_model.specs.declared.script.Command.TheVariants as commands;
ghost use Rattle.xs_gen.specs.Written.{order_text};

use hex::encode_to_slice;
use itoa::Buffer;
use std::alloc::AllocError;

/// The most bytes of a register.
const MOST_BYTES: usize = 64;

/// Appends the line that sets the register of this name to the bytes, at most 64.
pub fn put_set(text: &mut Vec<u8>, name: &[u8], bytes: &[u8]) -> Result<(), AllocError>
    requires { length bytes.now ≤ 64 }
    ensures { OnOk result (text.new.items ≡ text.old.items ++ order_text (commands.Set name.now bytes.now)) }
{
    text.extend_from_slice(b"set ")?;
    text.extend_from_slice(name)?;
    text.extend_from_slice(b" ")?;
    put_hex(text, bytes)?;
    text.extend_from_slice(b"\n")
}

/// Appends the line that reads the register of this name.
pub fn put_get(text: &mut Vec<u8>, name: &[u8]) -> Result<(), AllocError>
    ensures { OnOk result (text.new.items ≡ text.old.items ++ order_text (commands.Get name.now)) }
{
    text.extend_from_slice(b"get ")?;
    text.extend_from_slice(name)?;
    text.extend_from_slice(b"\n")
}

/// Appends the line of a kernel section that writes this byte.
pub fn put_ksec(text: &mut Vec<u8>, byte: u8) -> Result<(), AllocError>
    ensures { OnOk result (text.new.items ≡ text.old.items ++ order_text (commands.Ksec byte)) }
{
    text.extend_from_slice(b"ksec ")?;
    put_hex(text, &[byte])?;
    text.extend_from_slice(b"\n")
}

/// Appends the first line of a task, whose name is `t` and its number.
pub fn put_task_name(text: &mut Vec<u8>, task: u32) -> Result<(), AllocError>
    ensures { OnOk result (text.new.items ≡ text.old.items ++ (codes "task t" ++ decimal task ++ 10 ∷ [])) }
{
    let mut digits = Buffer::new();
    text.extend_from_slice(b"task t")?;
    text.extend_from_slice(digits.format(task).as_bytes())?;
    text.extend_from_slice(b"\n")
}

/// Appends the digits of the bytes, at most 64, two a byte.
fn put_hex(text: &mut Vec<u8>, bytes: &[u8]) -> Result<(), AllocError>
    requires { length bytes.now ≤ 64 }
    ensures { OnOk result (text.new.items ≡ text.old.items ++ encode_lower bytes.now) }
{
    let mut digits = [0; 2 * MOST_BYTES];
    let digits = &mut digits[..2 * bytes.len()];
    let _ = encode_to_slice(bytes, digits);
    text.extend_from_slice(digits)
}
