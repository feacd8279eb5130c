// Who orders from a node, and who supplies it.
use network_model::Items;
use std::alloc::{AllocError, Global};
use std::marker::Model;

/// A node that orders, and the place among its sources of the one that it orders from.
#[derive(Clone, Copy, Debug, PartialEq, Eq)]
pub struct Caller {
    pub node: usize,
    pub source: usize,
}

/// Where the units of a source come from: outside, or a later node.
#[derive(Clone, Copy, Debug, PartialEq, Eq)]
pub struct Supplier {
    /// The supplier's place in the list of nodes.
    pub from: Option<usize>,
    /// The place of the claim among those on the supplier. Outside it means nothing.
    pub slot: usize,
}

/// The nodes that order from one node, in listed order.
#[derive(Drop)]
pub struct Callers {
    items: Vec<Caller>,
}

impl Model for Callers {
    ghost use Rattle.std.specs.Prelude.{List};
    ghost use Rattle.network_sim.specs.declared.links.Caller.{Caller as CallerOf};

    ghost Value = { List CallerOf };

    ghost view = { λ c. c.items.items };
}

impl Callers {
    ghost use Rattle.std.specs.Prelude.{◌≡◌, [], ◌∷◌, ◌++◌, length, OnOk, IfOk};

    pub fn new(alloc: Global) -> Callers
        ensures { result ≡ [] }
    {
        Callers {
            items: Vec::new(alloc),
        }
    }

    /// Enters a caller, and answers its place.
    pub fn add(&mut self, caller: Caller) -> Result<usize, AllocError>
        ensures added { OnOk result (self.new ≡ self.old ++ caller ∷ []) }
        ensures place { IfOk result (λ place. place ≡ length self.old) }
    {
        let place = self.items.len();
        self.items.push(caller)?;
        Ok(place)
    }

    pub fn as_slice(&self) -> &[Caller]
        ensures { result.now ≡ self.now }
    {
        &self.items
    }
}

/// The suppliers of one node, in the order of its sources.
pub type Suppliers = Items<Supplier>;
