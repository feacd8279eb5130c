//! The checker of certificates: whoever wrote one, what it accepts names a policy than which none costs less, and its
//! cost. It reads a certificate once, line by line, and works in tables that its caller hands in.
#![tactic(auto)]

mod average;
mod check;
mod finite;
mod kind_check;
mod kind_rules;
mod lots;
mod network;
mod news;
mod serial;
mod tables;
mod text_check;
mod whole;

pub use check::Check;
pub use line_check::Verdict;
pub use tables::{cells_of, sums_of};
pub use text_check::TextCheck;
pub use whole::verdict;
