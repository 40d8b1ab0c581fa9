//! The words of a line, read: cuts, numbers, names, words of registers and hex.

ghost use Rattle.std.specs.Prelude.{◌≡◌, ℕ, ◌^◌, ◌<◌, ◌≤◌, true, List, [], ◌∷◌, ◌++◌, length, decimal, MatchOption};
ghost use Rattle.std.specs.List.{list_all};
ghost use Rattle.std.specs.Str.{bytes_eq};
ghost use Rattle.hex.specs.Hex.{encode_lower};
ghost use Rattle.xs_model.specs.Script.{is_letter, is_letter_or_digit, is_name};
ghost use Rattle.xs_script.specs.Reads.{Reads, ReadsAs};
ghost use Rattle.xs_script.specs.ScriptLine.{IsNumber, is_register_byte, is_register_word, kept_bytes};
ghost use Rattle.xs_script.specs.Parts.{IsValue, IsSpelledBy, is_lower_digit, is_hex_text, digit_value};
ghost use Rattle.xs_script.specs.Refusal.{before};

use std::str;
use xs_base::{Lane, cut_at};
use xs_model::Name;

/// The bytes before the first `byte`, and all of them where there is none.
pub fn before(byte: u8, bytes: &[u8]) -> &[u8]
    ensures { result.now ≡ before byte bytes.now }
{
    match cut_at(byte, bytes) {
        Some((front, _)) => front,
        None => bytes,
    }
}

/// The number below 2 ^ 32 that the bytes spell in decimal, with no needless zero in front.
pub fn read_number(bytes: &[u8]) -> Option<u32>
    ensures { Reads decimal (λ n. n < 2 ^ 32) result bytes.now }
{
    let number = parse_number(bytes)?;
    let mut buffer = itoa::Buffer::new();
    if buffer.format(number).as_bytes() == bytes {
        Some(number)
    } else {
        None
    }
}

/// The number that std reads: also one with a plus sign or zeros in front.
fn parse_number(bytes: &[u8]) -> Option<u32>
    ensures { MatchOption result ((n : ℕ) → n < 2 ^ 32 → bytes.now ≡ decimal n → ⊥) (λ x. (n : ℕ) → n < 2 ^ 32 → bytes.now ≡ decimal n → x ≡ n) }
{
    let text = match str::from_utf8(bytes) {
        Ok(text) => text,
        Err(_) => return None,
    };
    match text.parse::<u32>() {
        Ok(number) => Some(number),
        Err(_) => None,
    }
}

/// The number before the first space of some words, and the words after it.
pub fn read_first_number(words: &[u8]) -> Option<(u32, &[u8])>
    ensures { MatchOption result ((n : ℕ) (rest : List ℕ) → IsNumber n → words.now ≡ decimal n ++ 32 ∷ rest → ⊥) (λ x. IsNumber x.0 × (words.now ≡ decimal x.0 ++ 32 ∷ x.1.now)) }
{
    let (number, rest) = cut_at(b' ', words)?;
    let number = read_number(number)?;
    Some((number, rest))
}

/// The name of a block that the bytes are.
pub fn read_name(bytes: &[u8]) -> Option<Name>
    ensures { Reads (λ (name : List ℕ). name) (λ name. is_name name ≡ true) result bytes.now }
{
    if is_name(bytes) {
        Some(Name::from_slice(bytes))
    } else {
        None
    }
}

/// The word of a register that the bytes are: 1 to 16 letters, digits and points.
pub fn read_register(bytes: &[u8]) -> Option<Name>
    ensures { Reads (λ (reg : List ℕ). reg) (λ reg. is_register_word reg ≡ true) result bytes.now }
{
    if is_register_word(bytes) {
        Some(Name::from_slice(bytes))
    } else {
        None
    }
}

fn is_letter(byte: u8) -> bool
    ensures { result ≡ is_letter byte }
{
    b'a' <= byte && byte <= b'z'
}

fn is_letter_or_digit(byte: u8) -> bool
    ensures { result ≡ is_letter_or_digit byte }
{
    is_letter(byte) || b'0' <= byte && byte <= b'9'
}

fn is_name(bytes: &[u8]) -> bool
    ensures name { result ≡ is_name bytes.now }
    ensures short { result ≡ true → length bytes.now ≤ 16 }
{
    match bytes.split_first() {
        None => false,
        Some((first, more)) => is_letter(*first) && are_letters_or_digits(more) && more.len() <= 15,
    }
}

fn are_letters_or_digits(bytes: &[u8]) -> bool
    ensures { result ≡ list_all is_letter_or_digit bytes.now }
{
    bytes.iter().all(|b| is_letter_or_digit(*b))
}

fn is_register_byte(byte: u8) -> bool
    ensures { result ≡ is_register_byte byte }
{
    is_letter_or_digit(byte) || byte == b'.'
}

fn are_register_bytes(bytes: &[u8]) -> bool
    ensures { result ≡ list_all is_register_byte bytes.now }
{
    bytes.iter().all(|b| is_register_byte(*b))
}

fn is_register_word(bytes: &[u8]) -> bool
    ensures word { result ≡ is_register_word bytes.now }
    ensures short { result ≡ true → length bytes.now ≤ 16 }
{
    are_register_bytes(bytes) && 0 < bytes.len() && bytes.len() <= 16
}

/// The bytes that the text spells in lower-case hex, at least one: none of them where they are more than 64.
pub fn read_bytes(text: &[u8]) -> Option<Lane>
    ensures { ReadsAs encode_lower IsValue kept_bytes result text.now }
{
    if text.is_empty() || !is_hex_text(text) {
        return None;
    }
    if text.len() <= 128 {
        Some(decode(text))
    } else {
        Some(Lane::from_slice(b""))
    }
}

/// The byte that the text spells in lower-case hex.
pub fn read_byte(text: &[u8]) -> Option<u8>
    ensures { Reads (λ byte. encode_lower (byte ∷ [])) (λ byte. byte < 256) result text.now }
{
    if text.len() == 2 && is_hex_text(text) {
        Some(16 * digit_value(text[0]) + digit_value(text[1]))
    } else {
        None
    }
}

/// Whether the text is lower-case hex.
fn is_hex_text(text: &[u8]) -> bool
    ensures { result ≡ is_hex_text text.now }
{
    are_lower_digits(text) && text.len() % 2 == 0
}

fn is_lower_digit(byte: u8) -> bool
    ensures { result ≡ is_lower_digit byte }
{
    b'0' <= byte && byte <= b'9' || b'a' <= byte && byte <= b'f'
}

fn are_lower_digits(bytes: &[u8]) -> bool
    ensures { result ≡ list_all is_lower_digit bytes.now }
{
    let mut well = true;
    'bytes: for byte in bytes {
        well &= is_lower_digit(*byte);
    }
    well
}

/// The bytes, at most 64, that hex text spells.
fn decode(text: &[u8]) -> Lane
    requires digits { is_hex_text text.now ≡ true }
    requires short { length text.now ≤ 128 }
    ensures { IsSpelledBy result text.now }
{
    let mut bytes = [0u8; 64];
    let len = text.len() / 2;
    'bytes: for i in 0..len {
        bytes[i] = 16 * digit_value(text[2 * i]) + digit_value(text[2 * i + 1]);
    }
    Lane::from_slice(&bytes[..len])
}

/// The number that a digit of hex text stands for.
fn digit_value(digit: u8) -> u8
    requires { is_lower_digit digit ≡ true }
    ensures value { result ≡ digit_value digit }
    ensures small { result < 16 }
{
    if digit <= b'9' {
        digit - b'0'
    } else {
        digit - b'a' + 10
    }
}
