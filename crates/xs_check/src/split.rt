//! The two parts of an input.

ghost use Rattle.std.specs.Prelude.{◌≡◌, ◌↔◌, ◌<◌, ℕ, length, IsTrue, MatchOption};
ghost use Rattle.xs_check.specs.Split.{BeginsLine, IsDivider, IsSplit};

/// How many bytes the line has that parts the script from the history.
const DIVIDER: usize = 3;

/// The text of the script and that of the history.
pub fn split(input: &[u8]) -> (&[u8], &[u8])
    ensures { IsSplit input.now result.0.now result.1.now }
{
    match find_divider(input) {
        Some(at) => (&input[..at], &input[at + DIVIDER..]),
        None => (input, &[]),
    }
}

/// Where the first line that is `%%` begins.
fn find_divider(input: &[u8]) -> Option<usize>
    ensures { MatchOption result ((i : ℕ) → IsDivider input.now i → ⊥) (λ at. IsDivider input.now at × ((i : ℕ) → i < at → IsDivider input.now i → ⊥)) }
{
    'places: for at in 0..input.len() {
        if is_divider(input, at) {
            return Some(at);
        }
    }
    None
}

/// Whether the line that begins at this byte is `%%`, with its line feed.
fn is_divider(input: &[u8], at: usize) -> bool
    requires { at < length input.now }
    ensures { IsTrue result ↔ IsDivider input.now at }
{
    input[at] == b'%'
        && begins_line(input, at)
        && input.get(at + 1) == Some(&b'%')
        && input.get(at + 2) == Some(&b'\n')
}

/// Whether a line begins at this byte.
fn begins_line(input: &[u8], at: usize) -> bool
    requires { at < length input.now }
    ensures { IsTrue result ↔ BeginsLine input.now at }
{
    at == 0 || input[at - 1] == b'\n'
}
