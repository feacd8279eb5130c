// A law of demand, and what can be read of it.
ghost use Rattle.std.specs.Prelude.{◌≡◌, ◌^◌, ◌<◌, sum, length, slice_index, IfOk};
ghost use Rattle.demand_law.specs.Law.{running_sums};

use fraction128::Memory;
use std::alloc::{AllocError, Global};
use std::marker::Model;

/// The greatest demand that a law made of an instance may have.
pub const MOST_DEMAND: u32 = 10_000;

/// The greatest sum of weights that a law made of an instance may have.
pub const MOST_TOTAL: u128 = 1_000_000_000;

/// Why numbers make no law.
#[derive(Clone, Copy, Debug, PartialEq, Eq)]
pub enum LawFault {
    /// There are no points.
    Empty,
    /// The demand stands in two points.
    Repeated(u32),
    /// The demand is listed with weight 0.
    ZeroWeight(u32),
    /// A demand passes 10,000, or the weights add up to more than 1,000,000,000.
    TooLarge,
    /// The first number is above the second, or a probability is none.
    Disordered,
    /// The sum of the weights doesn't divide the stated total.
    NotMultiple,
}

/// Why no law was made.
#[derive(Clone, Copy, Debug, PartialEq, Eq)]
pub enum LawErr {
    /// The numbers make no law.
    Bad(LawFault),
    /// Memory was refused.
    Memory,
}

/// The whole weights of the demands from 0 to the greatest, which has a weight above 0. A demand's probability is its
/// weight over the sum of all weights.
#[derive(Drop)]
pub struct Law {
    weights: Vec<u128>,
    // The sums of the weights up to each demand.
    sums: Vec<u128>,
}

impl Model for Law {
    ghost use Rattle.std.specs.Prelude.{List, ℕ, ◌≡◌};

    ghost Value = { List ℕ };

    ghost use Rattle.demand_law.specs.Law.{IsLaw, running_sums};

    ghost view = { λ l. l.weights.items };

    ghost invariant = { λ l. IsLaw l.weights.items × (l.sums.items ≡ running_sums l.weights.items) };
}

// Makes each weight the sum of those up to its place.
fn add_up(weights: &mut [u128])
    requires { sum weights.old < 2 ^ 128 }
    ensures { weights.new ≡ running_sums weights.old }
{
    let mut sum = 0;
    for place in 0..weights.len() {
        sum += weights[place];
        weights[place] = sum;
    }
}

// The sums of the weights up to each place.
fn running_sums(alloc: Global, weights: &[u128]) -> Result<Vec<u128>, AllocError>
    requires { sum weights.now < 2 ^ 128 }
    ensures { IfOk result (λ sums. sums.items ≡ running_sums weights.now) }
{
    let mut sums = weights.to_vec(alloc)?;
    add_up(&mut sums);
    Ok(sums)
}

impl Law {
    ghost use Rattle.std.specs.Prelude.{ℕ, ◌*◌, ◌/◌, ◌≤◌};
    ghost use Rattle.demand_law.specs.Law.{IsLaw, greatest_of, upto_of};
    ghost use Rattle.demand_law.specs.Picked.{picked};

    /// The law of these weights.
    pub(crate) fn from_weights(alloc: Global, weights: Vec<u128>) -> Result<Law, AllocError>
        requires { IsLaw weights.items }
        ensures { IfOk result (λ law. law ≡ weights.items) }
    {
        let sums = running_sums(alloc, &weights)?;
        Ok(Law { weights, sums })
    }

    /// The same law once more.
    pub fn copy(&self, alloc: Global) -> Result<Law, Memory>
        ensures { IfOk result (λ law. law ≡ self.now) }
    {
        let weights = self.weights.to_vec(alloc)?;
        Ok(Law::from_weights(alloc, weights)?)
    }

    /// The weight of a demand, 0 above the greatest.
    pub fn weight(&self, d: u32) -> u128
        ensures { result ≡ slice_index self.now d }
    {
        self.weights.get(d as usize).copied().unwrap_or(0)
    }

    /// The sum of the weights.
    pub fn total(&self) -> u128
        ensures { result ≡ sum self.now }
    {
        self.upto(self.greatest())
    }

    /// The greatest demand.
    pub fn greatest(&self) -> u32
        ensures { result ≡ greatest_of self.now }
    {
        (self.weights.len() - 1) as u32
    }

    /// The sum of the weights up to a demand.
    pub fn upto(&self, d: u32) -> u128
        ensures { result ≡ upto_of self.now d }
    {
        self.sums[d.min(self.greatest()) as usize]
    }

    /// The demand that a word of 32 random bits picks: the words stand for the weights in order, and the demand is the
    /// least one up to which the weights add up to more than the word's share of their sum.
    ///
    /// It is a binary search, and takes no memory.
    pub fn pick(&self, word: u32) -> u32
        requires { sum self.now ≤ 1000000000 }
        ensures value { result ≡ picked self.now word }
        ensures above { word * sum self.now / 2 ^ 32 < upto_of self.now result }
        ensures least { (d : ℕ) → d < result → upto_of self.now d ≤ word * sum self.now / 2 ^ 32 }
    {
        let share = u128::from(word) * self.total() / (1 << 32);
        self.sums.partition_point(|sum| *sum <= share) as u32
    }

    /// The weights, from that of demand 0 on.
    pub fn weights(&self) -> &[u128]
        ensures weights { result.now ≡ self.now }
        ensures law { IsLaw self.now }
    {
        &self.weights
    }
}
