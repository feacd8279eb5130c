// The first pass of a period: all nodes in listed order see what comes to them, and order.
ghost use Rattle.std.specs.Prelude.{◌≡◌, ℕ, ◌+◌, ◌*◌, ◌^◌, ◌<◌, ◌≤◌, All, true, length, map, cond, slice_set, slice_index, slice_index_or, ℤ, Some, None, OnOk, IfOk, IfErr};
ghost use Rattle.std.specs.Int.RustNames.{unsigned_abs};
ghost use Rattle.network_model.specs.Nodes.{is_echelon};
ghost use Rattle.node_state.specs.Holdings.{no_holding, no_leg, begun, with_claims, placed, total};
ghost use Rattle.network_sim.specs.Machine.{node as node_at, front, fronts, AreCallers, noted_node, ordered_node, CanOrder, order_with, order_at, ask_of, callers_at, flag_at, sum_at, position_of, IsInReach, station as station_at};
ghost use Rattle.network_sim.specs.Asks.{Pass, ordered_in, over_with, IsAsked, HasRule, HaveRules, HavePassed, IsCut};

use crate::errors::RuleOver;
use crate::house::ask_rule;
use crate::links::Caller;
use crate::station::Station;
use node_state::{HouseRule, Node};

/// The order that reaches a node now.
fn front_of(nodes: &[Node], caller: &Caller) -> u64
    requires node { caller.now.node < length nodes.now }
    requires source { caller.now.source < length (node_at nodes.now caller.now.node).legs }
    ensures { result ≡ front nodes.now caller.now }
{
    let node = &nodes[caller.node];
    node.reaching(caller.source)
}

/// Enters the orders that reach node `i`, one for each of its callers.
fn gather(nodes: &mut [Node], i: usize, callers: &[Caller])
    requires node { i < length nodes.old }
    requires callers { AreCallers nodes.old i callers.now }
    requires slots { length callers.now ≤ length (node_at nodes.old i).claims }
    requires room { (node_at nodes.old i).noted + total (fronts nodes.old callers.now) ≤ 10 ^ 12 }
    ensures { nodes.new ≡ slice_set nodes.old i (with_claims (node_at nodes.old i) (fronts nodes.old callers.now)) }
{
    for slot in 0..callers.len() {
        let units = front_of(nodes, &callers[slot]);
        let node = &mut nodes[i];
        node.claim(slot, units);
    }
}

/// The sum of the entries at some places.
fn sum_of(places: &[usize], amounts: &[u64]) -> u64
    requires places { All (λ k. k < length amounts.now) places.now }
    requires few { sum_at places.now amounts.now < 2 ^ 64 }
    ensures { result ≡ sum_at places.now amounts.now }
{
    let mut sum: u64 = 0;
    for i in 0..places.len() {
        sum += amounts[places[i]];
    }
    sum
}

/// The position that a node's rule looks at, by what customers have demanded of each node so far.
fn position(node: &Node, station: &Station, demanded: &[u64]) -> i64
    requires reach { IsInReach station.now demanded.now }
    requires ordered { node.now.ordered ≤ 10 ^ 12 }
    ensures value { result ≡ position_of station.now demanded.now node.now }
    ensures small { unsigned_abs result ≤ 10 ^ 13 }
{
    if !station.rule.is_echelon() {
        return node.position();
    }
    let gone = sum_of(station.below.as_slice(), demanded);
    (station.initial + node.ordered()) as i64 - gone as i64
}

/// What node `i` orders once it has seen what comes to it. A rule of the caller's own is asked; an answer above its cap is
/// no order.
fn order_by(
    node: &Node,
    i: usize,
    station: &Station,
    demanded: &[u64],
    rules: &mut [Box<dyn HouseRule>],
    caps: &[u64],
) -> Result<u64, RuleOver>
    requires reach { IsInReach station.now demanded.now }
    requires ordered { node.now.ordered ≤ 10 ^ 12 }
    requires seen { node.now.seen ≤ 10 ^ 12 }
    requires place { i < 64 }
    requires caps { length caps.now ≡ length rules.old }
    requires rule { HasRule (length rules.old) caps.now station.now.rule }
    ensures order { IfOk result (λ order. order ≡ order_with station.now demanded.now (map meaning rules.old) node.now) }
    ensures within { OnOk result (over_with i station.now.rule (map meaning rules.old) (ask_of station.now demanded.now node.now) caps.now ≡ None) }
    ensures over { IfErr result (λ over. over_with i station.now.rule (map meaning rules.old) (ask_of station.now demanded.now node.now) caps.now ≡ Some over) }
    ensures asked { IsAsked station.now.rule (map meaning rules.old) (map meaning rules.new) (ask_of station.now demanded.now node.now) }
{
    let position = position(node, station, demanded);
    let Some(index) = station.rule.house() else {
        return Ok(station.rule.order(position));
    };
    let index = index as usize;
    let answer = ask_rule(rules, index, position, node.seen());
    let cap = caps[index];
    if answer > cap {
        return Err(RuleOver {
            node: i as u32 + 1,
            answer,
            cap,
        });
    }
    Ok(answer)
}

// Nothing in a pause.
fn unless(paused: bool, order: u64) -> u64
    ensures { result ≡ cond paused 0 order }
{
    if paused { 0 } else { order }
}

/// Node `i` sees its customers' demand and the orders that reach it, and orders. In a pause of its orders its rule is asked
/// all the same.
fn order_node(
    nodes: &mut [Node],
    i: usize,
    station: &Station,
    demanded: &[u64],
    demand: u32,
    paused: bool,
    rules: &mut [Box<dyn HouseRule>],
    caps: &[u64],
) -> Result<(), RuleOver>
    requires room { CanOrder (order_with station.now demanded.now (map meaning rules.old)) nodes.old i station.now.callers demand paused }
    requires reach { IsInReach station.now demanded.now }
    requires place { i < 64 }
    requires caps { length caps.now ≡ length rules.old }
    requires rule { HasRule (length rules.old) caps.now station.now.rule }
    ensures done { OnOk result (nodes.new ≡ slice_set nodes.old i (ordered_node (order_with station.now demanded.now (map meaning rules.old)) nodes.old i station.now.callers demand paused)) }
    ensures within { OnOk result (over_with i station.now.rule (map meaning rules.old) (ask_of station.now demanded.now (noted_node nodes.old i station.now.callers demand)) caps.now ≡ None) }
    ensures over { IfErr result (λ over. over_with i station.now.rule (map meaning rules.old) (ask_of station.now demanded.now (noted_node nodes.old i station.now.callers demand)) caps.now ≡ Some over) }
    ensures asked { IsAsked station.now.rule (map meaning rules.old) (map meaning rules.new) (ask_of station.now demanded.now (noted_node nodes.old i station.now.callers demand)) }
{
    let node = &mut nodes[i];
    node.begin(demand);
    gather(nodes, i, station.callers.as_slice());
    let node = &mut nodes[i];
    let order = order_by(node, i, station, demanded, rules, caps)?;
    node.place(unless(paused, order));
    Ok(())
}

/// All nodes in listed order see what comes to them, and order. The first answer of a rule that passes its cap ends it.
pub fn order_pass(
    nodes: &mut [Node],
    stations: &[Station],
    demanded: &[u64],
    demands: &[u32],
    paused: &[bool],
    rules: &mut [Box<dyn HouseRule>],
    caps: &[u64],
) -> Result<(), RuleOver>
    requires stations { length stations.now ≡ length nodes.old }
    requires demands { length demands.now ≡ length nodes.old }
    requires paused { length paused.now ≡ length nodes.old }
    requires few { length nodes.old ≤ 64 }
    requires reach { (i : ℕ) → i < length nodes.old → IsInReach (station_at stations.now i) demanded.now }
    requires rules { HaveRules (record { nodes = nodes.old; stations = stations.now; demanded = demanded.now; demands = demands.now; paused = paused.now; handed = (map meaning rules.old); caps = caps.now }) (length nodes.old) }
    requires room { (i : ℕ) → i < length nodes.old → CanOrder (order_at stations.now demanded.now (map meaning rules.old) i) (ordered_in (record { nodes = nodes.old; stations = stations.now; demanded = demanded.now; demands = demands.now; paused = paused.now; handed = (map meaning rules.old); caps = caps.now }) i) i (callers_at stations.now i) (slice_index demands.now i) (flag_at paused.now i) }
    ensures kept { length rules.new ≡ length rules.old }
    ensures done { OnOk result (HavePassed (record { nodes = nodes.old; stations = stations.now; demanded = demanded.now; demands = demands.now; paused = paused.now; handed = (map meaning rules.old); caps = caps.now }) (length nodes.old) (length nodes.old) nodes.new (map meaning rules.new)) }
    ensures over { IfErr result (λ over. IsCut (record { nodes = nodes.old; stations = stations.now; demanded = demanded.now; demands = demands.now; paused = paused.now; handed = (map meaning rules.old); caps = caps.now }) (length nodes.old) over (map meaning rules.new)) }
{
    for i in 0..nodes.len() {
        order_node(
            nodes,
            i,
            &stations[i],
            demanded,
            demands[i],
            paused[i],
            rules,
            caps,
        )?;
    }
    Ok(())
}
