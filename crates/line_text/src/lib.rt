//! Lines of text under any grammar: which line may stand where, how it is spelt, and which rule it breaks first.
#![tactic(auto)]

mod cut;
mod grammar;
mod reader;

pub use cut::split_at_byte;
pub use grammar::Grammar;
pub use reader::{BadLine, LineReader, Taken};
