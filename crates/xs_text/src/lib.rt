//! The text of a history: a line for each event, in its one spelling. It is written and read. The crate stands on the types of
//! events in `xs_model`. Its contract is the definition of the text in `specs/Text` and of its reading in `specs/Reading`.
#![tactic(auto)]

mod digits;
mod event_line;
mod event_reader;
mod history;
mod line;
mod reader;
mod reply_reader;
mod word_reader;

pub use event_line::write_event;
pub use history::{a_legal_history_has_a_text, one_history};
pub use line::Line;
pub use reader::{TextError, every_text, not_both, one_bad_line, read_history};
