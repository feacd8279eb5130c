// One node: its stock, what it owes, and what is on its way to it, all in units.
ghost use Rattle.std.specs.Prelude.{◌≡◌, ℕ, ◌+◌, ◌-◌, ◌*◌, ◌^◌, ◌<◌, ◌≤◌, List, length, slice_index, slice_index_or, IfOk, min, map, ℤ, pos, ◌-ℤ◌};
ghost use Rattle.std.specs.Int.RustNames.{unsigned_abs};
ghost use Rattle.node_state.specs.Holdings.{new_holding, legs_of, past_front, local_position, begun, claimed, placed, received, finished, served, total_due, no_leg, no_claim};

use crate::leg::{Claim, Leg};
use crate::legs::{
    least, make_all, new_claims, new_legs, place_all, send_nothing, serve_all, sum_due,
};
use fraction128::Memory;
use network_model::Link;
use std::alloc::Global;
use std::marker::Model;

/// A node: its stock, its sources and the nodes that order from it.
///
/// A period is these calls in turn: `begin`, a `claim` for each node that orders from this one, `place`, a `receive` for each
/// source, `make` and `serve`.
#[derive(Drop)]
pub struct Node {
    /// The stock before the first period.
    initial: u64,
    /// All units ordered so far, from each source.
    ordered: u64,
    /// All units seen so far.
    noted: u64,
    /// Units seen in this period.
    seen: u64,
    /// Finished units made in this period.
    made: u64,
    stock: u64,
    /// Units that customers are owed.
    owed: u64,
    claims: Vec<Claim>,
    legs: Vec<Leg>,
}

impl Model for Node {
    ghost use Rattle.node_state.specs.Holdings.{Holding, IsSound};

    ghost Value = { Holding };

    ghost view = { λ n. record { initial = n.initial; ordered = n.ordered; noted = n.noted; seen = n.seen; made = n.made; stock = n.stock; owed = n.owed; claims = n.claims.items; legs = n.legs.items } };

    ghost invariant = { λ n. IsSound (record { initial = n.initial; ordered = n.ordered; noted = n.noted; seen = n.seen; made = n.made; stock = n.stock; owed = n.owed; claims = n.claims.items; legs = n.legs.items }) };
}

impl Node {
    /// A node before the first period, with its sources and the number of nodes that order from it.
    pub fn new(alloc: Global, initial: u64, sources: &[Link], claims: usize) -> Result<Node, Memory>
        requires initial { initial ≤ 10 ^ 12 }
        requires some { 1 ≤ length sources.now }
        ensures { IfOk result (λ n. n ≡ new_holding initial (legs_of sources.now) claims) }
    {
        let legs = new_legs(alloc, sources)?;
        let claims = new_claims(alloc, claims)?;
        Ok(Node {
            initial,
            ordered: 0,
            noted: 0,
            seen: 0,
            made: 0,
            stock: initial,
            owed: 0,
            claims,
            legs,
        })
    }

    /// Enters the demand of the period's customers.
    pub fn begin(&mut self, customers: u32)
        requires { self.old.noted + customers ≤ 10 ^ 12 }
        ensures { self.new ≡ begun self.old customers }
    {
        self.noted += customers as u64;
        self.seen = customers as u64;
        self.owed += customers as u64;
    }

    /// Enters the order that reaches this node from the one with the slot.
    pub fn claim(&mut self, slot: usize, units: u64)
        requires slot { slot < length self.old.claims }
        requires total { self.old.noted + units ≤ 10 ^ 12 }
        ensures { self.new ≡ claimed self.old slot units }
    {
        self.noted += units;
        self.seen += units;
        let claim = &mut self.claims[slot];
        claim.add(units);
    }

    /// The initial stock and all orders so far, less all units seen so far.
    pub fn position(&self) -> i64
        ensures value { result ≡ local_position self.now }
        ensures small { unsigned_abs result ≤ 10 ^ 13 }
    {
        (self.initial + self.ordered) as i64 - self.noted as i64
    }

    /// Sends the node's order to each source, and enters there the order that reaches it.
    pub fn place(&mut self, order: u64)
        requires { self.old.ordered + order ≤ 10 ^ 12 }
        ensures { self.new ≡ placed self.old order }
    {
        self.ordered += order;
        place_all(&mut self.legs, order);
    }

    /// The order that reaches the source now.
    pub fn reaching(&self, source: usize) -> u64
        requires { source < length self.now.legs }
        ensures { (d : _) → result ≡ slice_index (slice_index_or self.now.legs source d).way 0 }
    {
        self.legs[source].reaching()
    }

    /// Sends on their way the units that the source ships, and takes in those that arrive unless receipts are paused.
    pub fn receive(&mut self, source: usize, shipped: u64, paused: bool)
        requires source { source < length self.old.legs }
        requires lacking { shipped ≤ (slice_index_or self.old.legs source no_leg).lacking }
        ensures { self.new ≡ received self.old source shipped paused }
    {
        let leg = &mut self.legs[source];
        leg.receive(shipped, paused);
    }

    /// Makes as many finished units as the sources' units allow, one of each, and answers how many.
    pub fn make(&mut self) -> u64
        ensures value { self.new ≡ finished self.old }
        ensures made { result ≡ self.new.made }
    {
        let units = least(&self.legs);
        self.made = units;
        self.stock += units;
        make_all(&mut self.legs, units);
        units
    }

    /// Serves the customers and then the nodes that order from this one, unless shipments are paused.
    pub fn serve(&mut self, paused: bool)
        ensures { self.new ≡ served self.old paused }
    {
        if paused {
            send_nothing(&mut self.claims);
        } else {
            let to_customers = if self.owed < self.stock {
                self.owed
            } else {
                self.stock
            };
            self.owed -= to_customers;
            self.stock = serve_all(&mut self.claims, self.stock - to_customers);
        }
    }

    /// All units ordered so far.
    pub fn ordered(&self) -> u64
        ensures { result ≡ self.now.ordered }
    {
        self.ordered
    }

    /// Units seen in this period.
    pub fn seen(&self) -> u64
        ensures { result ≡ self.now.seen }
    {
        self.seen
    }

    /// Finished units made in this period.
    pub fn made(&self) -> u64
        ensures { result ≡ self.now.made }
    {
        self.made
    }

    /// Units sent in this period to the node with the slot.
    pub fn shipped(&self, slot: usize) -> u64
        requires { slot < length self.now.claims }
        ensures { (d : _) → result ≡ (slice_index_or self.now.claims slot d).sent }
    {
        self.claims[slot].sent()
    }

    pub fn stock(&self) -> u64
        ensures { result ≡ self.now.stock }
    {
        self.stock
    }

    /// Units owed to customers.
    pub fn owed(&self) -> u64
        ensures { result ≡ self.now.owed }
    {
        self.owed
    }

    /// Units owed to all nodes that order from this one.
    pub fn due(&self) -> u64
        ensures { result ≡ total_due self.now.claims }
    {
        sum_due(&self.claims)
    }

    /// Orders that haven't reached the source.
    pub fn under_way(&self, source: usize) -> u64
        requires { source < length self.now.legs }
        ensures { (d : _) → result ≡ past_front (slice_index_or self.now.legs source d).way }
    {
        self.legs[source].under_way()
    }

    /// Units that the source owes.
    pub fn lacking(&self, source: usize) -> u64
        requires { source < length self.now.legs }
        ensures { (d : _) → result ≡ (slice_index_or self.now.legs source d).lacking }
    {
        self.legs[source].lacking()
    }

    /// Units that the source has shipped and that haven't arrived.
    pub fn transit(&self, source: usize) -> u64
        requires { source < length self.now.legs }
        ensures { (d : _) → result ≡ past_front (slice_index_or self.now.legs source d).moving }
    {
        self.legs[source].transit()
    }

    /// Units from the source that arrived during a pause of receipts.
    pub fn dock(&self, source: usize) -> u64
        requires { source < length self.now.legs }
        ensures { (d : _) → result ≡ (slice_index_or self.now.legs source d).dock }
    {
        self.legs[source].dock()
    }

    /// Units from the source that were taken in and aren't made into finished ones.
    pub fn raw(&self, source: usize) -> u64
        requires { source < length self.now.legs }
        ensures { (d : _) → result ≡ (slice_index_or self.now.legs source d).raw }
    {
        self.legs[source].raw()
    }
}
