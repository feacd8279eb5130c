//! The check of a text, line by line: for any grammar of lines and any rules on them.
#![tactic(auto)]

mod line_check;
mod rules;
mod text_check;
mod verdict;

pub use line_check::LineCheck;
pub use rules::LineRules;
pub use text_check::TextCheck;
pub use verdict::Verdict;
