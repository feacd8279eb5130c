// What pauses at each node in a period.
ghost use Rattle.std.specs.Prelude.{◌≡◌, ℕ, ◌<◌, ◌≤◌, ◌^◌, IfOk, length};
ghost use Rattle.network_model.specs.declared.network.Pause.TheVariants.{Orders, Receipts, Shipments};
ghost use Rattle.network_model.specs.Pauses.{is_paused};
ghost use Rattle.network_sim.specs.Machine.{flag_at};

use disruption::Calendar;
use std::alloc::{AllocError, Global};

/// What pauses in a period, one entry a node.
#[derive(Drop)]
pub struct Paused {
    pub orders: Vec<bool>,
    pub receipts: Vec<bool>,
    pub shipments: Vec<bool>,
}

/// Notes at which nodes orders pause in period `t`.
fn note_orders(calendar: &Calendar, t: u32, paused: &mut [bool])
    requires { length paused.old < 2 ^ 32 }
    ensures all { length paused.new ≡ length paused.old }
    ensures each { (k : ℕ) → k < length paused.old → flag_at paused.new k ≡ is_paused calendar.now Orders k t }
{
    for node in 0..paused.len() {
        paused[node] = calendar.orders_paused(node as u32, t);
    }
}

/// Notes at which nodes receipts pause in period `t`.
fn note_receipts(calendar: &Calendar, t: u32, paused: &mut [bool])
    requires { length paused.old < 2 ^ 32 }
    ensures all { length paused.new ≡ length paused.old }
    ensures each { (k : ℕ) → k < length paused.old → flag_at paused.new k ≡ is_paused calendar.now Receipts k t }
{
    for node in 0..paused.len() {
        paused[node] = calendar.receipts_paused(node as u32, t);
    }
}

/// Notes at which nodes shipments pause in period `t`.
fn note_shipments(calendar: &Calendar, t: u32, paused: &mut [bool])
    requires { length paused.old < 2 ^ 32 }
    ensures all { length paused.new ≡ length paused.old }
    ensures each { (k : ℕ) → k < length paused.old → flag_at paused.new k ≡ is_paused calendar.now Shipments k t }
{
    for node in 0..paused.len() {
        paused[node] = calendar.shipments_paused(node as u32, t);
    }
}

impl Paused {
    /// Room for so many nodes.
    pub fn new(alloc: Global, count: usize) -> Result<Paused, AllocError>
        ensures orders { IfOk result (λ paused. length paused.orders.items ≡ count) }
        ensures receipts { IfOk result (λ paused. length paused.receipts.items ≡ count) }
        ensures shipments { IfOk result (λ paused. length paused.shipments.items ≡ count) }
    {
        let orders = vec![in alloc; false; count]?;
        let receipts = vec![in alloc; false; count]?;
        let shipments = vec![in alloc; false; count]?;
        Ok(Paused {
            orders,
            receipts,
            shipments,
        })
    }

    /// Notes what pauses in period `t`.
    pub fn note(&mut self, calendar: &Calendar, t: u32)
        requires orders { length self.old.orders.items < 2 ^ 32 }
        requires receipts { length self.old.receipts.items < 2 ^ 32 }
        requires shipments { length self.old.shipments.items < 2 ^ 32 }
        ensures all_orders { length self.new.orders.items ≡ length self.old.orders.items }
        ensures all_receipts { length self.new.receipts.items ≡ length self.old.receipts.items }
        ensures all_shipments { length self.new.shipments.items ≡ length self.old.shipments.items }
        ensures orders { (k : ℕ) → k < length self.old.orders.items → flag_at self.new.orders.items k ≡ is_paused calendar.now Orders k t }
        ensures receipts { (k : ℕ) → k < length self.old.receipts.items → flag_at self.new.receipts.items k ≡ is_paused calendar.now Receipts k t }
        ensures shipments { (k : ℕ) → k < length self.old.shipments.items → flag_at self.new.shipments.items k ≡ is_paused calendar.now Shipments k t }
    {
        note_orders(calendar, t, &mut self.orders);
        note_receipts(calendar, t, &mut self.receipts);
        note_shipments(calendar, t, &mut self.shipments);
    }
}
