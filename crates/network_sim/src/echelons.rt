// The echelon of a node: the node and all nodes below it.
ghost use Rattle.std.specs.Prelude.{◌≡◌, ℕ, ◌<◌, ◌≤◌, ◌*◌, length, None, IfOk};
ghost use Rattle.network_model.specs.Network.{IsReadableNetwork};
ghost use Rattle.network_model.specs.Shape.{misshapen_node};
ghost use Rattle.network_sim.specs.Machine.{IsEchelonOf};

use network_model::{Items, Network, count_paths};
use std::alloc::{AllocError, Global};

/// A node and all nodes below it.
#[derive(Drop)]
pub struct Echelon {
    /// The initial stock of all of them.
    pub initial: u64,
    /// Their places in the list of nodes.
    pub places: Items<usize>,
}

/// Finds the echelon of a node.
pub fn echelon_of(alloc: Global, network: &Network, place: usize) -> Result<Echelon, AllocError>
    requires readable { IsReadableNetwork network.now }
    requires shaped { misshapen_node network.now ≡ None }
    requires within { place < length network.now.nodes }
    ensures { IfOk result (λ e. IsEchelonOf network.now.nodes place e.initial e.places) }
{
    let nodes = network.nodes.as_slice();
    let counts = count_paths(nodes, place);
    let mut stock: u64 = 0;
    let mut places = Vec::new(alloc);
    for node in 0..place + 1 {
        if counts[node] > 0 {
            stock += nodes[node].initial;
            places.push(node)?;
        }
    }
    Ok(Echelon {
        initial: stock,
        places: Items::new(places),
    })
}
