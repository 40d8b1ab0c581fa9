//! The digits of numbers and of bytes, appended to a line in pieces of a length that the compiler knows.

ghost use Rattle.std.specs.Prelude.{◌≡◌, ◌+◌, ◌*◌, ◌/◌, ◌%◌, ◌<◌, ◌≤◌, [], ◌∷◌, ◌++◌, length, slice_index, decimal};
ghost use Rattle.hex.specs.Hex.{encode_lower, lower_digits};

use crate::line::Line;

/// The two digits of each number below 100, one after the other.
static PAIRS: [u8; 200] =
    *b"00010203040506070809101112131415161718192021222324252627282930313233343536373839404142434445464748495051525354555657585960616263646566676869707172737475767778798081828384858687888990919293949596979899";

/// Appends a number, at most ten digits.
#[inline(always)]
pub fn put_digits(line: &mut Line, n: u32)
    requires { length line.old + 10 ≤ 192 }
    ensures items { line.new ≡ line.old ++ decimal n }
    ensures len { length line.new ≤ length line.old + 10 }
{
    if n < 10_000 {
        put_at_most_four(line, n);
    } else if n < 100_000_000 {
        put_at_most_four(line, n / 10_000);
        put_four(line, n % 10_000);
    } else {
        put_pair_or_digit(line, n / 100_000_000);
        put_four(line, n / 10_000 % 10_000);
        put_four(line, n % 10_000);
    }
}

/// Appends a number of at most four digits.
#[inline(always)]
fn put_at_most_four(line: &mut Line, n: u32)
    requires room { length line.old + 4 ≤ 192 }
    requires small { n < 10000 }
    ensures items { line.new ≡ line.old ++ decimal n }
    ensures len { length line.new ≤ length line.old + 4 }
{
    if n < 100 {
        put_pair_or_digit(line, n);
    } else {
        put_pair_or_digit(line, n / 100);
        put_pair(line, n % 100);
    }
}

/// Appends a number of one or two digits.
#[inline(always)]
fn put_pair_or_digit(line: &mut Line, n: u32)
    requires room { length line.old + 2 ≤ 192 }
    requires small { n < 100 }
    ensures items { line.new ≡ line.old ++ decimal n }
    ensures len { length line.new ≤ length line.old + 2 }
{
    if n < 10 {
        line.put(&[n as u8 + b'0']);
    } else {
        put_pair(line, n);
    }
}

/// Appends four digits.
#[inline(always)]
fn put_four(line: &mut Line, n: u32)
    requires room { length line.old + 4 ≤ 192 }
    requires small { n < 10000 }
    ensures { line.new ≡ line.old ++ (48 + n / 1000) ∷ (48 + n / 100 % 10) ∷ (48 + n / 10 % 10) ∷ (48 + n % 10) ∷ [] }
{
    put_pair(line, n / 100);
    put_pair(line, n % 100);
}

/// Appends two digits.
#[inline(always)]
fn put_pair(line: &mut Line, n: u32)
    requires room { length line.old + 2 ≤ 192 }
    requires small { n < 100 }
    ensures { line.new ≡ line.old ++ (48 + n / 10) ∷ (48 + n % 10) ∷ [] }
{
    let from = 2 * n as usize;
    line.put(&[PAIRS[from], PAIRS[from + 1]]);
}

/// Appends the bytes as digits 0 to 9 and a to f, two a byte.
#[inline(always)]
pub fn put_hex(line: &mut Line, bytes: &[u8])
    requires { length line.old + 2 * length bytes.now ≤ 192 }
    ensures items { line.new ≡ line.old ++ encode_lower bytes.now }
    ensures len { length line.new ≡ length line.old + 2 * length bytes.now }
{
    let mut rest = bytes;
    while rest.len() >= 16 {
        let mut digits = [0; 32];
        fill_digits(&rest[..16], &mut digits);
        line.put(&digits);
        rest = &rest[16..];
    }
    for byte in rest {
        line.put(&[hex_digit(*byte >> 4), hex_digit(*byte & 0x0f)]);
    }
}

/// Fills `digits` with the bytes' digits, two a byte. By a test and sums for each digit the loop becomes vector
/// instructions, which a table of the digits would not.
#[inline(always)]
fn fill_digits(bytes: &[u8], digits: &mut [u8])
    requires { length digits.old ≡ 2 * length bytes.now }
    ensures { digits.new ≡ encode_lower bytes.now }
{
    for i in 0..bytes.len() {
        let byte = bytes[i];
        digits[2 * i] = hex_digit(byte >> 4);
        digits[2 * i + 1] = hex_digit(byte & 0x0f);
    }
}

/// The digit of a number below 16, 0 to 9 or a to f.
#[inline(always)]
fn hex_digit(n: u8) -> u8
    requires { n < 16 }
    ensures { result ≡ slice_index lower_digits n }
{
    let from_zero = if n < 10 { 0 } else { b'a' - b'9' - 1 };
    n + b'0' + from_zero
}
