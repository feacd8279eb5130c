// Finds who orders from each node and who supplies it.
ghost use Rattle.std.specs.Prelude.{◌≡◌, ℕ, ◌<◌, ◌≤◌, List, length, All, None, OnOk, IfOk, slice_index_or};
ghost use Rattle.network_model.specs.Shape.{misshapen_node};
ghost use Rattle.network_sim.specs.Wiring.{IsWiring, IsAmong, with_caller, with_callers, supplier_of, suppliers_among, callers_of, no_callers as callers_anew};

use crate::links::{Caller, Callers, Supplier, Suppliers};
use network_model::{Items, Link, Network};
use std::alloc::{AllocError, Global};

/// Who orders from each node, and who supplies it: a list each, one entry a node.
#[derive(Drop)]
pub struct Wiring {
    pub callers: Vec<Callers>,
    pub suppliers: Vec<Suppliers>,
}

/// Finds them in one go over nodes and links.
pub fn wire(alloc: Global, network: &Network) -> Result<Wiring, AllocError>
    requires { misshapen_node network.now ≡ None }
    ensures { IfOk result (λ w. IsWiring network.now.nodes w.callers.items w.suppliers.items) }
{
    let nodes = network.nodes.as_slice();
    let mut callers = no_callers(alloc, nodes.len())?;
    let mut suppliers = Vec::new(alloc);
    for node in 0..nodes.len() {
        let sources = nodes[node].sources.as_slice();
        suppliers.push(enter(alloc, node, sources, &mut callers)?)?;
    }
    Ok(Wiring { callers, suppliers })
}

fn no_callers(alloc: Global, count: usize) -> Result<Vec<Callers>, AllocError>
    ensures { IfOk result (λ v. v.items ≡ callers_anew count) }
{
    let mut lists = Vec::new(alloc);
    for held in 0..count {
        let _held = held;
        lists.push(Callers::new(alloc))?;
    }
    Ok(lists)
}

// Enters a node with each of its suppliers, and lists these.
fn enter(
    alloc: Global,
    node: usize,
    sources: &[Link],
    callers: &mut [Callers],
) -> Result<Suppliers, AllocError>
    requires { All (λ l. IsAmong (length callers.old) l.from) sources.now }
    ensures callers { OnOk result (callers.new ≡ with_callers node 0 sources.now callers.old) }
    ensures suppliers { IfOk result (λ s. s ≡ suppliers_among node 0 sources.now callers.old) }
{
    let mut suppliers = Vec::new(alloc);
    for source in 0..sources.len() {
        let caller = Caller { node, source };
        suppliers.push(enter_one(caller, &sources[source], callers)?)?;
    }
    Ok(Items::new(suppliers))
}

// Enters a caller with the supplier of its link.
fn enter_one(caller: Caller, link: &Link, callers: &mut [Callers]) -> Result<Supplier, AllocError>
    requires { IsAmong (length callers.old) link.now.from }
    ensures callers { OnOk result (callers.new ≡ with_caller caller link.now.from callers.old) }
    ensures supplier { IfOk result (λ s. s ≡ supplier_of (callers_of callers.old) link.now) }
    ensures length { length callers.new ≡ length callers.old }
{
    match link.from {
        None => Ok(Supplier {
            from: None,
            slot: 0,
        }),
        Some(place) => {
            let from = place as usize;
            let list = &mut callers[from];
            let slot = list.add(caller)?;
            Ok(Supplier {
                from: Some(from),
                slot,
            })
        }
    }
}
