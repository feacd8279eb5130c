// What a simulator knows of a node from the start.
use crate::links::{Callers, Suppliers};
use network_model::{Demand, Items};
use node_state::NodeRule;

/// What a simulator knows of a node from the start.
#[derive(Drop)]
pub struct Station {
    pub rule: NodeRule,
    /// The costs of a unit in stock and of one that customers are owed, at the end of each period.
    pub holding: u64,
    pub stockout: u64,
    pub callers: Callers,
    pub suppliers: Suppliers,
    /// The initial stock of the node and of all nodes below it, and the places of these nodes.
    pub initial: u64,
    pub below: Items<usize>,
    /// What customers demand.
    pub demand: Demand,
}
