//! The forms of JSON that instances are written in: objects by their tables of keys, numbers, lists, laws of demand and
//! names, each with the first fault of a value that hasn't its form; and the values that are written for them.
//!
//! A reader of a kind of instances needs nothing else: `json` gives the value of bytes, `has_keys` goes by a table of
//! keys, and `required`, `optional` and `given` read the value of a key by its form.
#![tactic(auto)]

pub mod discount;
pub mod fault;
pub mod form;
pub mod items;
pub mod json_text;
pub mod keys;
pub mod law_texts;
pub mod laws;
pub mod node_names;
pub mod numbers;
pub mod write_values;

pub use fault::{FieldErr, FieldFault, InstanceErr, InstanceFault, Key, KeyList};
pub use json_text::json;
