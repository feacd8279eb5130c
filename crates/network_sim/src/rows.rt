// The rows of a network's table: one line a node.
ghost use Rattle.std.specs.Prelude.{◌≡◌, ℕ, ◌+◌, ◌*◌, ◌^◌, ◌<◌, ◌≤◌, IfOk, length, slice_index, slice_index_or};
ghost use Rattle.node_state.specs.Table.{costs};
ghost use Rattle.network_sim.specs.Machine.{node as node_at, station as station_at, no_line, line_of};

use crate::station::Station;
use fraction128::Memory;
use network_model::Network;
use node_state::Node;
use std::alloc::Global;
use std::marker::Model;

/// What a node did in a period, in units, and what it cost.
#[derive(Clone, Copy, Debug, PartialEq, Eq)]
pub struct NodeLine {
    /// What customers and nodes asked for.
    pub seen: u64,
    pub order: u64,
    /// Finished units made.
    pub made: u64,
    /// At the end of the period.
    pub stock: u64,
    /// To customers.
    pub owed: u64,
    /// To the nodes that order from here.
    pub due: u64,
    pub cost: u128,
}

impl Model for NodeLine {
    ghost use Rattle.node_state.specs.Totals.{Line};

    ghost Value = { Line };

    ghost view = { λ l. record { units_seen = l.seen; order = l.order; units_made = l.made; stock = l.stock; owed = l.owed; due = l.due; cost = l.cost } };

    ghost inverse = { λ l. record { seen = l.units_seen; order = l.order; made = l.units_made; stock = l.stock; owed = l.owed; due = l.due; cost = l.cost } };
}

/// The lines of all nodes in a period.
#[derive(Drop)]
pub struct Row {
    pub lines: Vec<NodeLine>,
}

impl Row {
    ghost use Rattle.std.specs.Prelude.{IfOk, length};

    /// A row for the nodes of a network.
    pub fn new(alloc: Global, net: &Network) -> Result<Row, Memory>
        ensures { IfOk result (λ row. length row.lines.items ≡ length net.now.nodes) }
    {
        let nothing = NodeLine {
            seen: 0,
            order: 0,
            made: 0,
            stock: 0,
            owed: 0,
            due: 0,
            cost: 0,
        };
        let lines = vec![in alloc; nothing; net.nodes.as_slice().len()]?;
        Ok(Row { lines })
    }
}

/// Notes what each node has ordered so far.
pub fn note_ordered(nodes: &[Node], ordered: &mut [u64])
    requires { length ordered.old ≡ length nodes.now }
    ensures all { length ordered.new ≡ length ordered.old }
    ensures each { (k : ℕ) → k < length nodes.now → slice_index ordered.new k ≡ (node_at nodes.now k).ordered }
{
    for i in 0..nodes.len() {
        ordered[i] = nodes[i].ordered();
    }
}

/// Adds each node's demand to what its customers have demanded so far.
pub fn add_demands(demanded: &mut [u64], demands: &[u32])
    requires each { length demands.now ≡ length demanded.old }
    requires few { (k : ℕ) → k < length demanded.old → slice_index demanded.old k + slice_index demands.now k < 2 ^ 64 }
    ensures all { length demanded.new ≡ length demanded.old }
    ensures each { (k : ℕ) → k < length demanded.old → slice_index demanded.new k ≡ slice_index demanded.old k + slice_index demands.now k }
{
    for i in 0..demanded.len() {
        demanded[i] += demands[i] as u64;
    }
}

/// What the stock and the units owed cost.
fn cost(station: &Station, stock: u64, owed: u64) -> u128
    requires holding { station.now.holding ≤ 10 ^ 6 }
    requires stockout { station.now.stockout ≤ 10 ^ 6 }
    ensures value { result ≡ station.now.holding * stock + station.now.stockout * owed }
    ensures small { result ≤ 2 ^ 85 }
{
    station.holding as u128 * stock as u128 + station.stockout as u128 * owed as u128
}

/// The line of a node after a period, before which it had ordered so much.
fn line(node: &Node, station: &Station, ordered: u64) -> NodeLine
    requires holding { station.now.holding ≤ 10 ^ 6 }
    requires stockout { station.now.stockout ≤ 10 ^ 6 }
    requires ordered { ordered ≤ node.now.ordered }
    ensures value { result ≡ line_of station.now ordered node.now }
    ensures small { result.cost ≤ 2 ^ 85 }
{
    NodeLine {
        seen: node.seen(),
        order: node.ordered() - ordered,
        made: node.made(),
        stock: node.stock(),
        owed: node.owed(),
        due: node.due(),
        cost: cost(station, node.stock(), node.owed()),
    }
}

/// Writes the line of each node.
pub fn write_lines(nodes: &[Node], stations: &[Station], ordered: &[u64], lines: &mut [NodeLine])
    requires stations { length stations.now ≡ length nodes.now }
    requires ordered { length ordered.now ≡ length nodes.now }
    requires lines { length lines.old ≡ length nodes.now }
    requires rates { (k : ℕ) → k < length nodes.now → ((station_at stations.now k).holding ≤ 10 ^ 6) × ((station_at stations.now k).stockout ≤ 10 ^ 6) }
    requires rising { (k : ℕ) → k < length nodes.now → slice_index ordered.now k ≤ (node_at nodes.now k).ordered }
    ensures all { length lines.new ≡ length lines.old }
    ensures each { (k : ℕ) → k < length nodes.now → slice_index_or lines.new k no_line ≡ line_of (station_at stations.now k) (slice_index ordered.now k) (node_at nodes.now k) }
    ensures small { (k : ℕ) → k < length nodes.now → (slice_index_or lines.new k no_line).cost ≤ 2 ^ 85 }
{
    for i in 0..nodes.len() {
        lines[i] = line(&nodes[i], &stations[i], ordered[i]);
    }
}

/// The sum of the costs of a row.
pub fn sum_costs(lines: &[NodeLine]) -> u128
    requires few { length lines.now ≤ 64 }
    requires small { (k : ℕ) → k < length lines.now → (slice_index_or lines.now k no_line).cost ≤ 2 ^ 85 }
    ensures value { result ≡ costs lines.now }
    ensures small { result ≤ 2 ^ 92 }
{
    let mut sum: u128 = 0;
    for i in 0..lines.len() {
        let line = &lines[i];
        sum += line.cost;
    }
    sum
}
