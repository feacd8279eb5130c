//! The checks of flat texts, line by line and text by text: whoever wrote one, what a check accepts is what it claims to be.
//! A check owns its tables, and takes no memory once it is made.
#![tactic(auto)]

mod bracket_cells;
mod bracket_check;
mod bracket_entries;
mod bracket_lines;
mod bracket_text;

pub use bracket_check::BracketCheck;
pub use bracket_text::BracketTextCheck;
pub use line_check::Verdict;
