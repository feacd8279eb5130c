//! One node of a network: what it holds and what is on its way to it, and the rules by which it orders.
#![tactic(auto)]

mod house;
mod laws;
mod leg;
mod legs;
mod node;
mod ring;
mod rules;

pub use house::HouseRule;
pub use laws::{nodes_balance, orders_stay_within_peaks};
pub use node::Node;
pub use rules::{
    BaseStock, EchelonBase, Local, MinMax, NodeRule, OrderRule, ReorderLot, View, Whole,
};
