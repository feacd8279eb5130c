// Finds what a simulator knows of each node, and makes the nodes.
ghost use Rattle.std.specs.Prelude.{◌≡◌, ℕ, suc, ◌<◌, ◌≤◌, IfOk, length, map};
ghost use Rattle.network_model.specs.Network.{IsValidNetwork};
ghost use Rattle.network_model.specs.Nodes.{node_at};
ghost use Rattle.node_state.specs.Holdings.{new_holding, legs_of};
ghost use Rattle.network_sim.specs.Machine.{node as holding_at, station as station_at, AreCallersOf};
ghost use Rattle.network_sim.specs.Supply.{AreSuppliersOf};
ghost use Rattle.network_sim.specs.Simulated.{IsStationOf, AreStationsOf};
ghost use Rattle.network_sim.specs.Wiring.{IsWiring};

use crate::echelons::echelon_of;
use crate::links::{Callers, Suppliers};
use crate::station::Station;
use crate::wiring::Wiring;
use fraction128::Memory;
use network_model::{Items, Network};
use node_state::{Node, NodeRule};
use std::alloc::Global;
use std::mem;

// What a simulator knows of the node at a place.
fn station_of(
    alloc: Global,
    network: &Network,
    place: usize,
    callers: Callers,
    suppliers: Suppliers,
) -> Result<Station, Memory>
    requires valid { IsValidNetwork network.now }
    requires within { place < length network.now.nodes }
    requires callers { AreCallersOf network.now.nodes place callers }
    requires suppliers { AreSuppliersOf network.now.nodes place suppliers }
    ensures { IfOk result (λ s. IsStationOf network.now place s) }
{
    let node = &network.nodes.as_slice()[place];
    let echelon = echelon_of(alloc, network, place)?;
    let demand = node.demand.copy(alloc)?;
    Ok(Station {
        rule: NodeRule::of_rule(&node.rule),
        holding: node.holding,
        stockout: node.stockout,
        callers,
        suppliers,
        initial: echelon.initial,
        below: echelon.places,
        demand,
    })
}

/// Finds what there is to know of each node.
pub fn find_stations(
    alloc: Global,
    network: &Network,
    wiring: Wiring,
) -> Result<Vec<Station>, Memory>
    requires valid { IsValidNetwork network.now }
    requires wired { IsWiring network.now.nodes wiring.callers.items wiring.suppliers.items }
    ensures { IfOk result (λ v. AreStationsOf network.now v.items) }
{
    let mut wiring = wiring;
    let mut stations = Vec::new(alloc);
    for place in 0..network.nodes.as_slice().len() {
        let callers = mem::replace(&mut wiring.callers[place], Callers::new(alloc));
        let suppliers = mem::replace(&mut wiring.suppliers[place], Items::new(Vec::new(alloc)));
        stations.push(station_of(alloc, network, place, callers, suppliers)?)?;
    }
    Ok(stations)
}

/// Makes the nodes before the first period.
pub fn make_nodes(
    alloc: Global,
    network: &Network,
    stations: &[Station],
) -> Result<Vec<Node>, Memory>
    requires valid { IsValidNetwork network.now }
    requires stations { AreStationsOf network.now stations.now }
    ensures all { IfOk result (λ v. length v.items ≡ length network.now.nodes) }
    ensures each { IfOk result (λ v. (k : ℕ) → k < length network.now.nodes →
        holding_at v.items k ≡ new_holding (node_at network.now.nodes k).initial (legs_of (node_at network.now.nodes k).sources) (length (station_at stations.now k).callers)) }
{
    let specs = network.nodes.as_slice();
    let mut nodes = Vec::new(alloc);
    for place in 0..specs.len() {
        let spec = &specs[place];
        let callers = stations[place].callers.as_slice().len();
        let node = Node::new(alloc, spec.initial, spec.sources.as_slice(), callers)?;
        nodes.push(node)?;
    }
    Ok(nodes)
}
