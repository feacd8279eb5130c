// What a node keeps for one source, and for one node that orders from it, all in units.
ghost use Rattle.std.specs.Prelude.{◌≡◌, ℕ, ◌+◌, ◌-◌, ◌^◌, ◌<◌, ◌≤◌, slice_index, IfOk, min};
ghost use Rattle.node_state.specs.Holdings.{push_ring, past_front, leg_placed, leg_received, leg_made, new_leg, no_claim, more_due, unsent, claim_served};

use crate::ring::Ring;
use std::alloc::{AllocError, Global};
use std::marker::Model;

/// One source of a node.
#[derive(Drop)]
pub struct Leg {
    /// Orders on their way to the source.
    way: Ring,
    /// Units on their way to the node.
    moving: Ring,
    /// Units that have been ordered at the source and not shipped.
    lacking: u64,
    /// Units that have arrived during a pause of receipts.
    dock: u64,
    /// Units that were taken in and aren't made into finished ones.
    raw: u64,
}

impl Model for Leg {
    ghost use Rattle.node_state.specs.Holdings.{Leg as LegHolding};

    ghost Value = { LegHolding };

    ghost view = { λ l. record { way = l.way; moving = l.moving; lacking = l.lacking; dock = l.dock; raw = l.raw } };
}

impl Leg {
    /// One with nothing on the way, by its lead times in periods.
    pub fn new(alloc: Global, lead: u32, order_lead: u32) -> Result<Leg, AllocError>
        ensures { IfOk result (λ l. l ≡ new_leg lead order_lead) }
    {
        let way = Ring::new(alloc, order_lead)?;
        let moving = Ring::new(alloc, lead)?;
        Ok(Leg {
            way,
            moving,
            lacking: 0,
            dock: 0,
            raw: 0,
        })
    }

    /// Sends a new order on its way, and enters the one that reaches the source.
    pub fn place(&mut self, order: u64)
        requires { self.old.lacking + slice_index (push_ring self.old.way order) 0 < 2 ^ 64 }
        ensures { self.new ≡ leg_placed order self.old }
    {
        self.way.push(order);
        self.lacking += self.way.front();
    }

    /// The order that reaches the source now.
    pub fn reaching(&self) -> u64
        ensures { result ≡ slice_index self.now.way 0 }
    {
        self.way.front()
    }

    /// Sends on their way the units that the source ships, and takes in those that arrive unless receipts are paused.
    pub fn receive(&mut self, shipped: u64, paused: bool)
        requires lacking { shipped ≤ self.old.lacking }
        requires room { self.old.dock + slice_index (push_ring self.old.moving shipped) 0 + self.old.raw < 2 ^ 64 }
        ensures { self.new ≡ leg_received shipped paused self.old }
    {
        self.lacking -= shipped;
        self.moving.push(shipped);
        let dock = self.dock + self.moving.front();
        if paused {
            self.dock = dock;
        } else {
            self.dock = 0;
            self.raw += dock;
        }
    }

    /// Takes units out, to be made into finished ones.
    pub fn make(&mut self, units: u64)
        requires { units ≤ self.old.raw }
        ensures { self.new ≡ leg_made units self.old }
    {
        self.raw -= units;
    }

    /// Orders that haven't reached the source.
    pub fn under_way(&self) -> u64
        requires { past_front self.now.way < 2 ^ 64 }
        ensures { result ≡ past_front self.now.way }
    {
        self.way.past_front()
    }

    /// Units that were shipped and haven't arrived.
    pub fn transit(&self) -> u64
        requires { past_front self.now.moving < 2 ^ 64 }
        ensures { result ≡ past_front self.now.moving }
    {
        self.moving.past_front()
    }

    pub fn lacking(&self) -> u64
        ensures { result ≡ self.now.lacking }
    {
        self.lacking
    }

    pub fn raw(&self) -> u64
        ensures { result ≡ self.now.raw }
    {
        self.raw
    }

    pub fn dock(&self) -> u64
        ensures { result ≡ self.now.dock }
    {
        self.dock
    }
}

/// One node that orders from this one.
#[derive(Clone, Copy)]
pub struct Claim {
    /// Units that it is owed.
    due: u64,
    /// Units that it was sent in this period.
    sent: u64,
}

impl Model for Claim {
    ghost use Rattle.node_state.specs.Holdings.{Claim as ClaimHolding};

    ghost Value = { ClaimHolding };

    ghost view = { λ c. record { due = c.due; sent = c.sent } };

    ghost inverse = { λ c. record { due = c.due; sent = c.sent } };
}

impl Claim {
    /// One that is owed nothing.
    pub fn new() -> Claim
        ensures { result ≡ no_claim }
    {
        Claim { due: 0, sent: 0 }
    }

    /// Enters an order.
    pub fn add(&mut self, units: u64)
        requires { self.old.due + units < 2 ^ 64 }
        ensures { self.new ≡ more_due self.old units }
    {
        self.due += units;
    }

    /// Sends nothing in this period.
    pub fn send_nothing(&mut self)
        ensures { self.new ≡ unsent self.old }
    {
        self.sent = 0;
    }

    /// Sends what is due as far as `left` goes, and answers how much that is.
    pub fn serve(&mut self, left: u64) -> u64
        ensures claim { self.new ≡ claim_served self.old left }
        ensures sent { result ≡ min self.old.due left }
    {
        let sent = if self.due < left { self.due } else { left };
        self.due -= sent;
        self.sent = sent;
        sent
    }

    pub fn sent(&self) -> u64
        ensures { result ≡ self.now.sent }
    {
        self.sent
    }

    pub fn due(&self) -> u64
        ensures { result ≡ self.now.due }
    {
        self.due
    }
}
