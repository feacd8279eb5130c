// The load of a node: what it holds, what may reach it, and what it may order, in all periods.
ghost use Rattle.std.specs.Prelude.{◌≡◌, ℕ, suc, ◌+◌, ◌*◌, ◌<◌, ◌≤◌, length, All, None};
ghost use Rattle.network_model.specs.declared.network.NodeSpec.{NodeSpec};
ghost use Rattle.network_model.specs.Nodes.{node_at};
ghost use Rattle.network_model.specs.Shape.{misshapen_node};
ghost use Rattle.network_model.specs.Paths.{AreLaterBelow};
ghost use Rattle.network_model.specs.Load.{claimed, reaching, need_by, echelon_sum, own_load, order_most, overloaded_node};
ghost use Rattle.network_model.specs.Network.{IsReadableNetwork};

use crate::limits::{MOST_LOAD, MOST_NODES};
use crate::network::{Link, Network, NodeSpec, Rule};
use crate::shape::count_paths;

/// The first node, from 1, whose load passes the most that is allowed. A node's orders are known once those of all
/// earlier nodes are, since only they order from it.
pub fn overloaded_node(network: &Network) -> Option<u32>
    requires readable { IsReadableNetwork network.now }
    requires shaped { misshapen_node network.now ≡ None }
    ensures { result ≡ overloaded_node network.now }
{
    let nodes = network.nodes.as_slice();
    let mut orders = [0; MOST_NODES];
    for place in 0..nodes.len() {
        let need = need_by(network, &orders[..place], place);
        let order = order_most(network, need, place);
        if nodes[place].initial + need + order > MOST_LOAD {
            return Some(place as u32 + 1);
        }
        orders[place] = order;
    }
    None
}

// The most that may be demanded of a node, by its customers and by earlier nodes that may order so much.
fn need_by(network: &Network, orders: &[u64], place: usize) -> u64
    requires readable { IsReadableNetwork network.now }
    requires within { place < length network.now.nodes }
    requires listed { length orders.now ≤ length network.now.nodes }
    requires light { All (λ order. order ≤ 1000000000000) orders.now }
    ensures exact { result ≡ need_by network.now orders.now place }
    ensures small { result ≤ 600000000000000 }
{
    let nodes = network.nodes.as_slice();
    let demanded = in_all_periods(network.periods, u64::from(nodes[place].demand.top()));
    demanded + reaching(place as u32, orders, nodes)
}

// So many units in each period.
fn in_all_periods(periods: u32, units: u64) -> u64
    requires periods { periods ≤ 10000 }
    requires units { units ≤ 1000000 }
    ensures exact { result ≡ periods * units }
    ensures small { result ≤ 10000000000 }
{
    u64::from(periods) * units
}

// What reaches a node where the first nodes order so much from each of their sources.
fn reaching(place: u32, orders: &[u64], nodes: &[NodeSpec]) -> u64
    requires listed { length orders.now ≤ length nodes.now }
    requires few { length nodes.now ≤ 64 }
    requires light { All (λ order. order ≤ 1000000000000) orders.now }
    requires sources { All (λ (node : NodeSpec). length node.sources ≤ 8) nodes.now }
    ensures exact { result ≡ reaching place orders.now nodes.now }
    ensures small { result ≤ 512000000000000 }
{
    let mut total = 0;
    for node in 0..orders.len() {
        total += claimed(place, orders[node], nodes[node].sources.as_slice());
    }
    total
}

// An amount for each source that is this node.
fn claimed(place: u32, amount: u64, sources: &[Link]) -> u64
    requires amount { amount ≤ 1000000000000 }
    requires few { length sources.now ≤ 8 }
    ensures exact { result ≡ claimed place amount sources.now }
    ensures small { result ≤ 8000000000000 }
{
    let mut total = 0;
    for source in sources {
        if source.from == Some(place) {
            total += amount;
        }
    }
    total
}

// The most that the rule of a node may order: up to its peak, and what the position loses.
fn order_most(network: &Network, need: u64, place: usize) -> u64
    requires readable { IsReadableNetwork network.now }
    requires within { place < length network.now.nodes }
    requires earlier { AreLaterBelow network.now.nodes place }
    requires need { need ≤ 600000000000000 }
    ensures exact { result ≡ order_most (node_at network.now.nodes place).rule network.now.periods
        (need + (node_at network.now.nodes place).initial)
        (echelon_sum network.now.nodes place (own_load network.now) (suc place)) }
    ensures small { result ≤ 700000000000000 }
{
    let node = &network.nodes.as_slice()[place];
    match &node.rule {
        Rule::House { index: _, cap } => in_all_periods(network.periods, *cap),
        Rule::Echelon { level: _ } => echelon_sum(network, place) + node.rule.peak(),
        Rule::Base { .. } | Rule::MinMax { .. } | Rule::Lot { .. } => {
            need + node.initial + node.rule.peak()
        }
    }
}

// What a node and all nodes below it hold, and all that their customers may demand.
fn echelon_sum(network: &Network, place: usize) -> u64
    requires readable { IsReadableNetwork network.now }
    requires within { place < length network.now.nodes }
    requires earlier { AreLaterBelow network.now.nodes place }
    ensures exact { result ≡ echelon_sum network.now.nodes place (own_load network.now) (suc place) }
    ensures small { result ≤ 650065000000 }
{
    let counts = count_paths(network.nodes.as_slice(), place);
    let mut sum = 0;
    for node in 0..place + 1 {
        if counts[node] > 0 {
            sum += own_load(network, node);
        }
    }
    sum
}

// The initial stock of a node and all that its customers may demand.
fn own_load(network: &Network, place: usize) -> u64
    requires readable { IsReadableNetwork network.now }
    requires within { place < length network.now.nodes }
    ensures exact { result ≡ own_load network.now place }
    ensures small { result ≤ 10001000000 }
{
    let node = &network.nodes.as_slice()[place];
    in_all_periods(network.periods, u64::from(node.demand.top())) + node.initial
}
