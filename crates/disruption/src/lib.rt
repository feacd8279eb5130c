//! Pauses: what is paused at a node in a period.
#![tactic(auto)]

mod calendar;
mod table;

pub use calendar::{Calendar, CalendarErr};
