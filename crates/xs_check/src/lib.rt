//! The checker of histories: a script and a text in, and out whether the text is that of a whole history of the script, or the first
//! line that shows that it isn't. The crate stands on the readers of scripts in `xs_script` and of histories in `xs_text`, on the
//! machine of `xs_legal`, and on what `xs_outside` does with the world outside. Its contract is the definition of a verdict in
//! `specs/Verdict`.
#![tactic(auto)]

mod call;
mod following;
mod laws;
mod split;
mod verdict;

pub use call::check_call;
pub use laws::{no_refusal, one_verdict};
