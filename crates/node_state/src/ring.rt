// The amounts of the last periods.
ghost use Rattle.std.specs.Prelude.{◌≡◌, ℕ, ◌+◌, ◌<◌, ◌≤◌, ◌^◌, length, slice_index, IfOk};
ghost use Rattle.node_state.specs.Holdings.{zeros, push_ring, past_front};

use circular_buffer::HeapCircularBuffer;
use std::alloc::{AllocError, Global};
use std::marker::Model;

/// Amounts, one a period, the oldest first. It is always full.
#[derive(Drop)]
pub struct Ring {
    amounts: HeapCircularBuffer<u64>,
}

impl Model for Ring {
    ghost use Rattle.std.specs.Prelude.{◌≡◌, ◌<◌, List, ℕ, length};

    ghost Value = { List ℕ };

    ghost view = { λ r. r.amounts.items };

    ghost invariant = { λ r. (length r.amounts.items ≡ r.amounts.capacity) × (0 < r.amounts.capacity) };
}

impl Ring {
    /// One that remembers the amounts of `lead` earlier periods, all 0.
    pub fn new(alloc: Global, lead: u32) -> Result<Ring, AllocError>
        ensures { IfOk result (λ r. r ≡ zeros (lead + 1)) }
    {
        let mut amounts = HeapCircularBuffer::with_capacity(alloc, lead as usize + 1)?;
        let mut held: usize = 0;
        while held < lead as usize + 1 {
            amounts.push_back(0);
            held += 1;
        }
        Ok(Ring { amounts })
    }

    /// Enters the amount of a new period in the place of the oldest one.
    pub fn push(&mut self, amount: u64)
        ensures { self.new ≡ push_ring self.old amount }
    {
        self.amounts.push_back(amount);
    }

    /// The oldest amount.
    pub fn front(&self) -> u64
        ensures { result ≡ slice_index self.now 0 }
    {
        match self.amounts.get(0) {
            Some(amount) => *amount,
            None => 0,
        }
    }

    /// The sum of all amounts but the oldest.
    #[tactic(auto, using(crate::proofs::Rings::sum_from, crate::proofs::Rings::sum_past))]
    pub fn past_front(&self) -> u64
        requires { past_front self.now < 2 ^ 64 }
        ensures { result ≡ past_front self.now }
    {
        let mut sum: u64 = 0;
        for place in 1..self.amounts.len() {
            sum += self.at(place);
        }
        sum
    }

    // The amount at a place from the oldest on.
    fn at(&self, place: usize) -> u64
        requires { place < length self.now }
        ensures { result ≡ slice_index self.now place }
    {
        match self.amounts.get(place) {
            Some(amount) => *amount,
            None => 0,
        }
    }
}
