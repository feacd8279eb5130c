//! The six instances of a trial's number: one a kind, large, drawn from the number alone and valid whatever it is.
#![tactic(auto)]

mod average;
mod finite;
mod laws;
mod lots;
mod network;
mod news;
mod numbers;
mod serial;

pub use average::trial_average;
pub use finite::trial_finite;
pub use lots::trial_lots;
pub use network::trial_network;
pub use news::trial_news;
pub use serial::trial_serial;
