// The laws of a trial.
ghost use Rattle.std.specs.Prelude.{◌≡◌, ◌+◌, ◌*◌, ◌^◌, ◌<◌, ◌≤◌, ◌∷◌, [], None, IfOk};
ghost use Rattle.demand_law.specs.Points.{points_fault, points_law};
ghost use Rattle.demand_law.specs.Named.{uniform_law};
ghost use Rattle.trial_instances.specs.Numbers.{numbers};

use crate::numbers::{number, push};
use decision_model::Laws;
use demand_law::{Law, LawErr};
use fraction128::Memory;
use std::alloc::Global;

/// The law of points that make one.
pub(crate) fn law_of(alloc: Global, points: &[(u32, u32)]) -> Result<Law, Memory>
    requires { points_fault points.now ≡ None }
    ensures { IfOk result (λ law. law ≡ points_law points.now) }
{
    match Law::from_points(alloc, points) {
        Ok(law) => Ok(law),
        Err(LawErr::Memory) => Err(Memory),
        Err(LawErr::Bad(_)) => unreachable!(),
    }
}

/// The law whose weights, of the demands from 0 on, are so many numbers from 1 to `most`.
#[tactic(auto, using(crate::proofs::PointLaws::points_none, crate::proofs::PointLaws::points_more, crate::proofs::PointLaws::law_of_points))]
pub(crate) fn drawn_law(
    alloc: Global,
    trial: u32,
    place: u64,
    count: u32,
    most: u64,
) -> Result<Law, Memory>
    requires some { 1 ≤ count }
    requires few { count ≤ 10001 }
    requires positive { 1 ≤ most }
    requires fits { count * most ≤ 1000000000 }
    requires within { place + count < 2 ^ 64 }
    ensures { IfOk result (λ law. law ≡ numbers trial place count 1 most) }
{
    let mut points = Vec::new(alloc);
    for demand in 0..count {
        let weight = number(trial, place + u64::from(demand), 1, most);
        push(&mut points, (demand, weight as u32))?;
    }
    law_of(alloc, &points)
}

/// The law of the demands from 0 to 9, each as likely as the others.
pub(crate) fn digits(alloc: Global) -> Result<Law, Memory>
    ensures { IfOk result (λ law. law ≡ uniform_law 0 9) }
{
    match Law::uniform(alloc, 0, 9) {
        Ok(law) => Ok(law),
        Err(LawErr::Memory) => Err(Memory),
        Err(LawErr::Bad(_)) => unreachable!(),
    }
}

/// One law, which serves every period.
pub(crate) fn one_law(alloc: Global, law: Law) -> Result<Laws, Memory>
    ensures { IfOk result (λ laws. laws ≡ law ∷ []) }
{
    let mut laws = Vec::new(alloc);
    push(&mut laws, law)?;
    Ok(Laws::new(laws))
}
