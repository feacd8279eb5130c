// The law that listed points make.
ghost use Rattle.std.specs.Prelude.{◌≡◌, ◌^◌, ◌<◌, ◌≤◌, sum, length, slice_index, IfOk, OnOk, IfErr, Some, None};
ghost use Rattle.demand_law.specs.Placed.{Reaches, Places, IsPlaceFault, MatchErr};

use crate::law::{Law, LawErr, LawFault, MOST_DEMAND, MOST_TOTAL};
use std::alloc::Global;

// Makes the list long enough for a place, with zeros.
fn reach(weights: &mut Vec<u128>, at: usize) -> Result<(), LawErr>
    requires { at < 2 ^ 32 }
    ensures ok { OnOk result (Reaches weights.old.items weights.new.items at) }
    ensures err { IfErr result (λ e. e ≡ LawErr.Memory) }
{
    if at < weights.len() {
        return Ok(());
    }
    match weights.resize(at + 1, 0) {
        Ok(()) => Ok(()),
        Err(_) => Err(LawErr::Memory),
    }
}

// Gives a demand its weight, if it has none yet.
fn place(weights: &mut Vec<u128>, demand: u32, weight: u32) -> Result<(), LawErr>
    ensures ok { OnOk result (Places weights.old.items weights.new.items demand weight) }
    ensures fits { OnOk result ((demand ≤ 10000) × (0 < weight) × (weight < 2 ^ 32) × (slice_index weights.old.items demand ≡ 0)) }
    ensures fault { IfErr result (λ e. IsPlaceFault weights.old.items demand weight e) }
{
    if demand > MOST_DEMAND {
        return Err(LawErr::Bad(LawFault::TooLarge));
    }
    if weight == 0 {
        return Err(LawErr::Bad(LawFault::ZeroWeight(demand)));
    }
    let at = demand as usize;
    reach(weights, at)?;
    if weights[at] != 0 {
        return Err(LawErr::Bad(LawFault::Repeated(demand)));
    }
    weights[at] = u128::from(weight);
    Ok(())
}

impl Law {
    ghost use Rattle.demand_law.specs.Points.{points_fault, points_law};

    /// The law of points, each of them a demand and its weight.
    ///
    /// An empty list is `Empty`. Then the points are taken in listed order, and the first that fails decides:
    /// `TooLarge` where its demand passes 10,000, `ZeroWeight` where its weight is 0, `Repeated` where an earlier point
    /// has its demand. At the end `TooLarge` comes where the weights add up to more than 1,000,000,000.
    pub fn from_points(alloc: Global, points: &[(u32, u32)]) -> Result<Law, LawErr>
        ensures ok { IfOk result (λ law. law ≡ points_law points.now) }
        ensures none { OnOk result (points_fault points.now ≡ None) }
        ensures bad { IfErr result (λ e. MatchErr e (λ f. points_fault points.now ≡ Some f)) }
        ensures total { IfOk result (λ law. sum law ≤ 1000000000) }
        ensures short { IfOk result (λ law. length law ≤ 10001) }
    {
        if points.is_empty() {
            return Err(LawErr::Bad(LawFault::Empty));
        }
        let mut weights = Vec::new(alloc);
        let mut total = 0u128;
        for (demand, weight) in points {
            place(&mut weights, *demand, *weight)?;
            total += u128::from(*weight);
        }
        if total > MOST_TOTAL {
            return Err(LawErr::Bad(LawFault::TooLarge));
        }
        Ok(Law::from_weights(alloc, weights)?)
    }
}
