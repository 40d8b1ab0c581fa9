//! The text of counts.

ghost use Rattle.std.specs.Prelude.{◌≡◌, ◌+◌, ◌≤◌, ◌∷◌, ◌++◌, length, decimal};
ghost use Rattle.arrayvec.specs.ArrayVec.{array_vec_len};
ghost use Rattle.xs_counts.specs.Text.{processor_line, processors_text};

use arrayvec::ArrayVec;
use itoa::Buffer;
use xs_bank::Bank;
use xs_machine::Proc;

/// The text of the counts of sixteen processors at most.
pub type CountsText = ArrayVec<u8, 2048>;

/// The line `%%`, and a line for each of the processors. Takes no memory.
pub fn counts_text<B: Bank>(procs: &[Proc<B>]) -> CountsText
    requires { length procs.now ≤ 16 }
    ensures { result.items ≡ processors_text B.state procs.now }
{
    let mut text = CountsText::new();
    put(&mut text, b"%%\n");
    for proc in procs {
        put_line(&mut text, proc);
    }
    text
}

/// Appends the line of a processor, at most 105 bytes.
fn put_line<B: Bank>(text: &mut CountsText, proc: &Proc<B>)
    requires { array_vec_len text.old + 105 ≤ 2048 }
    ensures items { text.new.items ≡ text.old.items ++ processor_line B.state proc.now }
    ensures len { array_vec_len text.new ≤ array_vec_len text.old + 105 }
{
    let bank = &proc.cpu.bank;
    let execs = bank.execs();
    put_number(text, u64::from(proc.cpu.number));
    put_word(text, bank.loads());
    put_word(text, bank.saves());
    put_word(text, execs.count);
    put_word(text, execs.trail);
    put(text, b"\n");
}

/// Appends a space and a number.
fn put_word(text: &mut CountsText, number: u64)
    requires { array_vec_len text.old + 21 ≤ 2048 }
    ensures items { text.new.items ≡ text.old.items ++ 32 ∷ decimal number }
    ensures len { array_vec_len text.new ≤ array_vec_len text.old + 21 }
{
    put(text, b" ");
    put_number(text, number);
}

/// Appends a number.
fn put_number(text: &mut CountsText, number: u64)
    requires { array_vec_len text.old + 20 ≤ 2048 }
    ensures items { text.new.items ≡ text.old.items ++ decimal number }
    ensures len { array_vec_len text.new ≤ array_vec_len text.old + 20 }
{
    let mut buffer = Buffer::new();
    put(text, buffer.format(number).as_bytes());
}

/// Appends the bytes.
fn put(text: &mut CountsText, bytes: &[u8])
    requires { array_vec_len text.old + length bytes.now ≤ 2048 }
    ensures items { text.new.items ≡ text.old.items ++ bytes.now }
    ensures len { array_vec_len text.new ≡ array_vec_len text.old + length bytes.now }
{
    let _ = text.try_extend_from_slice(bytes);
}
