// Laws that are given by name, and a law at another sum of weights.
ghost use Rattle.std.specs.Prelude.{◌≡◌, ◌+◌, ◌*◌, ◌^◌, ◌<◌, ◌≤◌, ◌∷◌, [], sum, length, map, IfOk, OnOk, IfErr, IsTrue, ◌↔◌, Some, None};
ghost use Rattle.demand_law.specs.Placed.{MatchErr};
ghost use Rattle.demand_law.specs.Points.{points_law};
ghost use Rattle.demand_law.specs.Named.{binomial_law};

use crate::law::{Law, LawErr, LawFault, MOST_DEMAND, MOST_TOTAL};
use crate::sums::{SumErr, lead_sum};
use std::alloc::{AllocError, Global};

impl From<AllocError> for LawErr {
    ghost use Rattle.demand_law.specs.declared.law.LawErr.TheVariants.{Memory};

    ghost from_gives = { λ _ e. e ≡ Memory };

    fn from(_refused: AllocError) -> LawErr {
        LawErr::Memory
    }
}

// Whether a power is at most 1,000,000,000.
fn power_fits(base: u32, times: u32) -> bool
    ensures { IsTrue result ↔ (base ^ times ≤ 1000000000) }
{
    match base.checked_pow(times) {
        Some(power) => u128::from(power) <= MOST_TOTAL,
        None => false,
    }
}

// The law of one demand.
fn one_demand(alloc: Global, demand: u32, weight: u32) -> Result<Law, LawErr>
    requires demand { demand ≤ 10000 }
    requires some { 0 < weight }
    requires most { weight ≤ 1000000000 }
    ensures ok { IfOk result (λ law. law ≡ points_law ((demand, weight) ∷ [])) }
    ensures err { IfErr result (λ e. e ≡ LawErr.Memory) }
{
    Law::from_points(alloc, &[(demand, weight)])
}

// The law of the sum of n trials, each of them 1 with the weight a, else 0.
fn trials(alloc: Global, n: u32, a: u32, b: u32) -> Result<Law, LawErr>
    requires some { 0 < n }
    requires short { n ≤ 10000 }
    requires succeeds { 0 < a }
    requires fails { a < b }
    requires fits { b ^ n ≤ 1000000000 }
    ensures ok { IfOk result (λ law. law ≡ binomial_law n a b) }
    ensures err { IfErr result (λ e. e ≡ LawErr.Memory) }
{
    let trial = Law::from_points(alloc, &[(0, b - a), (1, a)])?;
    match lead_sum(alloc, &[trial], 0, n as usize) {
        Ok(law) => Ok(law),
        Err(SumErr::Memory) => Err(LawErr::Memory),
        Err(SumErr::Width) => unreachable!(),
    }
}

// The law of the number of successes, where its weights fit.
fn successes(alloc: Global, n: u32, a: u32, b: u32) -> Result<Law, LawErr>
    requires short { n ≤ 10000 }
    requires some { 0 < b }
    requires ordered { a ≤ b }
    requires fits { b ^ n ≤ 1000000000 }
    ensures ok { IfOk result (λ law. law ≡ binomial_law n a b) }
    ensures err { IfErr result (λ e. e ≡ LawErr.Memory) }
{
    let power = b.pow(n);

    // Without a trial, or one that may end in both ways, one demand has all the weight.
    if a == 0 {
        return one_demand(alloc, 0, power);
    }
    if n == 0 || a == b {
        return one_demand(alloc, n, power);
    }
    trials(alloc, n, a, b)
}

// The weights, each of them `factor` times.
fn multiplied(alloc: Global, weights: &[u128], factor: u128) -> Result<Vec<u128>, AllocError>
    requires { sum weights.now * factor < 2 ^ 128 }
    ensures { IfOk result (λ products. products.items ≡ map (λ w. w * factor) weights.now) }
{
    if factor == 1 {
        return weights.to_vec(alloc);
    }
    let mut products = Vec::with_capacity(alloc, weights.len())?;
    for weight in weights {
        products.push(weight * factor)?;
    }
    Ok(products)
}

impl Law {
    ghost use Rattle.demand_law.specs.Named.{uniform_fault, uniform_law, binomial_fault, binomial_law, rescale_fault, rescaled_law};

    /// The law that gives weight 1 to each demand from `lo` to `hi`.
    ///
    /// `Disordered` comes where `lo` is above `hi`, else `TooLarge` where `hi` passes 10,000.
    #[tactic(auto, unfolding(crate::specs::Named::uniform_law))]
    pub fn uniform(alloc: Global, lo: u32, hi: u32) -> Result<Law, LawErr>
        ensures ok { IfOk result (λ law. law ≡ uniform_law lo hi) }
        ensures none { OnOk result (uniform_fault lo hi ≡ None) }
        ensures bad { IfErr result (λ e. MatchErr e (λ f. uniform_fault lo hi ≡ Some f)) }
        ensures total { IfOk result (λ law. sum law ≤ 10001) }
        ensures short { IfOk result (λ law. length law ≤ 10001) }
    {
        if lo > hi {
            return Err(LawErr::Bad(LawFault::Disordered));
        }
        if hi > MOST_DEMAND {
            return Err(LawErr::Bad(LawFault::TooLarge));
        }
        let mut weights = vec![in alloc; 0; lo as usize]?;
        weights.resize(hi as usize + 1, 1)?;
        Ok(Law::from_weights(alloc, weights)?)
    }

    /// The law of the number of successes in `n` trials, each of which succeeds with probability `a`/`b`: demand k has
    /// the weight (n choose k)·a^k·(b−a)^(n−k), and the weights add up to b^n.
    ///
    /// `Disordered` comes where `b` is 0 or `a` is above `b`, else `TooLarge` where `n` passes 10,000 or b^n passes
    /// 1,000,000,000.
    #[tactic(auto, unfolding(crate::specs::Named::binomial_fault))]
    pub fn binomial(alloc: Global, n: u32, a: u32, b: u32) -> Result<Law, LawErr>
        ensures ok { IfOk result (λ law. law ≡ binomial_law n a b) }
        ensures none { OnOk result (binomial_fault n a b ≡ None) }
        ensures bad { IfErr result (λ e. MatchErr e (λ f. binomial_fault n a b ≡ Some f)) }
        ensures power { IfOk result (λ law. sum law ≡ b ^ n) }
        ensures total { IfOk result (λ law. sum law ≤ 1000000000) }
        ensures short { IfOk result (λ law. length law ≤ 10001) }
    {
        if b == 0 || a > b {
            return Err(LawErr::Bad(LawFault::Disordered));
        }
        if n > MOST_DEMAND || !power_fits(b, n) {
            return Err(LawErr::Bad(LawFault::TooLarge));
        }
        successes(alloc, n, a, b)
    }

    /// The multiple of a law whose weights add up to `total`. `NotMultiple` comes exactly where the law's own sum of
    /// weights doesn't divide `total`.
    pub fn rescale(alloc: Global, law: &Law, total: u32) -> Result<Law, LawErr>
        requires some { 1 ≤ total }
        requires most { total ≤ 1000000000 }
        ensures ok { IfOk result (λ multiple. multiple ≡ rescaled_law law.now total) }
        ensures none { OnOk result (rescale_fault law.now total ≡ None) }
        ensures bad { IfErr result (λ e. MatchErr e (λ f. rescale_fault law.now total ≡ Some f)) }
        ensures total { IfOk result (λ multiple. sum multiple ≡ total) }
        ensures short { IfOk result (λ multiple. length multiple ≡ length law.now) }
    {
        let weights = law.weights();
        let sum = law.total();
        let total = u128::from(total);
        if total % sum != 0 {
            return Err(LawErr::Bad(LawFault::NotMultiple));
        }
        let multiples = multiplied(alloc, weights, total / sum)?;
        Ok(Law::from_weights(alloc, multiples)?)
    }
}
