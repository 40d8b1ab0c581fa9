//! A reply, the last word of a line, read from the front of a text with the line feed that ends it.

ghost use Rattle.std.specs.Prelude.{◌≡◌, ℕ, ◌<◌, List, ◌∷◌, ◌++◌, codes, slice_index, MatchOption};
ghost use Rattle.hex.specs.Hex.{lower_digits, encode_lower};
ghost use Rattle.xs_model.specs.declared.event.Reply.TheVariants as replies;
ghost use Rattle.xs_text.specs.Text.{reply_word, IsReply};
ghost use Rattle.xs_text.specs.Reading.{IsRead, NoneRead, IsTold, with_byte};

use crate::word_reader::{after_byte, read_number};
use xs_base::{Lane, after};
use xs_model::Reply;

/// The reply that the bytes begin with. Its first byte says of which kind it can be.
pub(crate) fn read_reply(bytes: &[u8]) -> Option<(Reply, &[u8])>
    ensures { MatchOption result (NoneRead reply_word IsReply 10 bytes.now) (λ x. IsRead reply_word IsReply 10 bytes.now x.0 x.1.now) }
{
    if let Some(rest) = after(b"-\n", bytes) {
        return Some((Reply::Done, rest));
    }
    if let Some(digits) = after(b"=", bytes) {
        return match read_lane(digits) {
            Some((lane, rest)) => Some((Reply::Bytes(lane), rest)),
            None => None,
        };
    }
    if let Some(digits) = after(b"+", bytes) {
        let (number, rest) = read_number(b'\n', digits)?;
        return Some((Reply::Count(number), rest));
    }
    if let Some(digits) = after(b"!", bytes) {
        let (number, rest) = read_number(b'\n', digits)?;
        return Some((Reply::Error(number), rest));
    }
    read_reply_word(bytes)
}

/// A reply that is told by a word of letters.
fn read_reply_word(bytes: &[u8]) -> Option<(Reply, &[u8])>
    ensures { MatchOption result (NoneRead reply_word IsTold 10 bytes.now) (λ x. IsRead reply_word IsTold 10 bytes.now x.0 x.1.now) }
{
    if let Some(rest) = after(b"held\n", bytes) {
        return Some((Reply::Held, rest));
    }
    if let Some(rest) = after(b"blocked\n", bytes) {
        return Some((Reply::Blocked, rest));
    }
    if let Some(rest) = after(b"stopped\n", bytes) {
        return Some((Reply::Stopped, rest));
    }
    if let Some(rest) = after(b"ended\n", bytes) {
        return Some((Reply::Ended, rest));
    }
    if let Some(rest) = after(b"full\n", bytes) {
        return Some((Reply::Full, rest));
    }
    if let Some(rest) = after(b"legacy\n", bytes) {
        return Some((Reply::Legacy, rest));
    }
    None
}

/// The 1 to 64 bytes whose hex digits the bytes begin with, in lower case.
fn read_lane(bytes: &[u8]) -> Option<(Lane, &[u8])>
    ensures { MatchOption result (NoneRead encode_lower (λ lane. IsReply (replies.Bytes lane)) 10 bytes.now) (λ x. IsRead encode_lower (λ lane. IsReply (replies.Bytes lane)) 10 bytes.now x.0 x.1.now) }
{
    let mut values = [0u8; 64];
    let mut len = 0;
    let mut left = bytes;
    'bytes: while let Some((byte, rest)) = read_byte(left) {
        if len == 64 {
            return None;
        }
        values[len] = byte;
        len += 1;
        left = rest;
    }
    if len == 0 {
        return None;
    }
    let rest = after_byte(b'\n', left)?;
    Some((Lane::from_slice(&values[..len]), rest))
}

/// The byte whose two hex digits the bytes begin with.
#[inline(always)]
fn read_byte(bytes: &[u8]) -> Option<(u8, &[u8])>
    ensures { MatchOption result ((byte : ℕ) (rest : List ℕ) → byte < 256 → bytes.now ≡ with_byte byte rest → ⊥) (λ x. (x.0 < 256) × (bytes.now ≡ with_byte x.0 x.1.now)) }
{
    let (high, rest) = bytes.split_first()?;
    let (low, rest) = rest.split_first()?;
    let high = digit_value(*high)?;
    let low = digit_value(*low)?;
    Some((16 * high + low, rest))
}

/// The number below 16 that a hex digit in lower case stands for.
#[inline(always)]
fn digit_value(digit: u8) -> Option<u8>
    ensures { MatchOption result ((value : ℕ) → value < 16 → digit ≡ slice_index lower_digits value → ⊥) (λ value. (value < 16) × (digit ≡ slice_index lower_digits value)) }
{
    if b'0' <= digit && digit <= b'9' {
        return Some(digit - b'0');
    }
    if b'a' <= digit && digit <= b'f' {
        return Some(digit - b'a' + 10);
    }
    None
}
