// The second pass of a period: all nodes from the last to the first receive, make and serve.
ghost use Rattle.std.specs.Prelude.{◌≡◌, ℕ, ◌+◌, ◌*◌, ◌^◌, ◌<◌, ◌≤◌, length, slice_set, slice_index_or};
ghost use Rattle.node_state.specs.Holdings.{no_leg};
ghost use Rattle.network_sim.specs.Machine.{node as node_at, flag_at};
ghost use Rattle.network_sim.specs.Supply.{shipped_now, IsPlace, shipments, with_arrived, CanSupply, supplied_node, supply_down, CanSupplyDown, suppliers_at};

use crate::links::Supplier;
use crate::station::Station;
use node_state::Node;

/// What is shipped to one source of node `i` in this period. Outside ships what reaches it.
fn shipped_to(nodes: &[Node], i: usize, source: usize, supplier: &Supplier) -> u64
    requires node { i < length nodes.now }
    requires source { source < length (node_at nodes.now i).legs }
    requires place { IsPlace nodes.now i supplier.now.slot supplier.now.from }
    ensures { result ≡ shipped_now nodes.now i source supplier.now }
{
    match supplier.from {
        None => {
            let node = &nodes[i];
            node.reaching(source)
        }
        Some(k) => {
            let node = &nodes[k];
            node.shipped(supplier.slot)
        }
    }
}

/// Node `i` receives from each of its sources.
fn receive_all(nodes: &mut [Node], i: usize, suppliers: &[Supplier], paused: bool)
    requires { CanSupply nodes.old i suppliers.now }
    ensures { nodes.new ≡ slice_set nodes.old i (with_arrived paused (node_at nodes.old i) (shipments nodes.old i 0 suppliers.now)) }
{
    for source in 0..suppliers.len() {
        let units = shipped_to(nodes, i, source, &suppliers[source]);
        let node = &mut nodes[i];
        node.receive(source, units, paused);
    }
}

/// Node `i` receives, makes what it can, and serves.
fn supply_node(
    nodes: &mut [Node],
    i: usize,
    suppliers: &[Supplier],
    no_receipts: bool,
    no_shipments: bool,
)
    requires { CanSupply nodes.old i suppliers.now }
    ensures { nodes.new ≡ slice_set nodes.old i (supplied_node nodes.old i suppliers.now no_receipts no_shipments) }
{
    receive_all(nodes, i, suppliers, no_receipts);
    let node = &mut nodes[i];
    node.make();
    node.serve(no_shipments);
}

/// All nodes from the last to the first receive, make and serve.
pub fn supply_pass(
    nodes: &mut [Node],
    stations: &[Station],
    no_receipts: &[bool],
    no_shipments: &[bool],
)
    requires stations { length stations.now ≡ length nodes.old }
    requires receipts { length no_receipts.now ≡ length nodes.old }
    requires shipments { length no_shipments.now ≡ length nodes.old }
    requires room { CanSupplyDown (suppliers_at stations.now) (flag_at no_receipts.now) (flag_at no_shipments.now) nodes.old (length nodes.old) }
    ensures { nodes.new ≡ supply_down (suppliers_at stations.now) (flag_at no_receipts.now) (flag_at no_shipments.now) nodes.old (length nodes.old) }
{
    let mut i = nodes.len();
    while i > 0 {
        i -= 1;
        supply_node(
            nodes,
            i,
            stations[i].suppliers.as_slice(),
            no_receipts[i],
            no_shipments[i],
        );
    }
}
