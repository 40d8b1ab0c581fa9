//! The numbers in names of registers.

ghost use Rattle.std.specs.Prelude.{◌≡◌, ℕ, ◌+◌, ◌/◌, ◌%◌, ◌<◌, ◌≤◌, decimal};
ghost use Rattle.xs_regs.specs.Finds.{Finds};

/// The digit that the byte is in decimal.
pub fn read_digit(byte: u8) -> Option<u32>
    ensures { Finds (λ (n : ℕ). (n < 10) × (byte ≡ 48 + n)) result }
{
    if b'0' <= byte && byte <= b'9' {
        Some((byte - b'0') as u32)
    } else {
        None
    }
}

/// The number below 100 that the bytes spell in decimal, with no needless zero in front.
pub fn read_index(digits: &[u8]) -> Option<u32>
    ensures { Finds (λ (n : ℕ). (n < 100) × (digits.now ≡ decimal n)) result }
{
    match *digits {
        [ones] => read_digit(ones),
        [tens, ones] => read_two_digits(tens, ones),
        _ => None,
    }
}

/// The number from 10 to 99 that two bytes spell.
fn read_two_digits(tens: u8, ones: u8) -> Option<u32>
    ensures { Finds (λ (n : ℕ). (10 ≤ n) × (n < 100) × (tens ≡ 48 + n / 10) × (ones ≡ 48 + n % 10)) result }
{
    let tens = read_digit(tens)?;
    let ones = read_digit(ones)?;
    if tens >= 1 {
        Some(10 * tens + ones)
    } else {
        None
    }
}
