//! Instances read from JSON text, with the first fault of a text that says none, and written as such text.
//!
//! A kind is one file, here, in the specs and in the proofs: its table of keys, its reading key by key, its rules over several
//! keys, and its writing.
#![tactic(auto)]

mod average;
mod fields;
mod finite;
mod kinds;
mod lots;
mod network;
mod news;
mod read;
mod rules;
mod serial;
mod wide;
mod write;

pub use json_forms::{FieldErr, FieldFault, InstanceErr, InstanceFault, Key, KeyList};
pub use read::read_instance;
pub use wide::read_wide;
pub use write::write_instance;
