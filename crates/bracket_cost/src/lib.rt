//! The solver of brackets of an average cost: a lower and an upper bound with a pair, where a range of positions is too wide
//! for exact fractions.
#![tactic(auto)]

mod lower;
mod search;
mod solve;
mod span;
mod upper;

pub use solve::solve_bracket;
pub use span::bracket_span;
pub use value_cert::{BracketCell, BracketCells, BracketCert, write_bracket};
