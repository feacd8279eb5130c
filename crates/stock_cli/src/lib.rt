//! The command line of `stock`: from words, standard input and files to a text, a message and a
//! status.
#![tactic(auto)]

mod answers;
mod any_cert;
mod asked;
mod brackets;
mod certificates;
mod certify;
mod check;
mod commands;
mod demand;
mod inputs;
mod kinds;
mod names;
mod runs;
mod simulate;
mod solve;
mod status;
mod subject;
mod takes_text;
mod top;
mod trial;
mod words;

pub use names::{Act, Part, Verb};
pub use runs::{RunErr, run_rows};
pub use status::Status;
pub use top::stock;
pub use words::{Action, Command, WordErr, read_words};
