// All sources of a node, and all nodes that order from it.
ghost use Rattle.std.specs.Prelude.{◌≡◌, ℕ, ◌+◌, ◌-◌, ◌*◌, ◌^◌, ◌<◌, ◌≤◌, List, length, slice_index, IfOk, min, map};
ghost use Rattle.std.specs.List.{All};
ghost use Rattle.node_state.specs.Holdings.{legs_of, new_claims as claims_anew, push_ring, leg_placed, leg_made, least_raw, unsent, claims_served, left_over, total_due};

use crate::leg::{Claim, Leg};
use network_model::Link;
use std::alloc::{AllocError, Global};

/// Sends the order to each source.
pub fn place_all(legs: &mut [Leg], order: u64)
    requires { All (λ l. l.lacking + slice_index (push_ring l.way order) 0 < 2 ^ 64) legs.old }
    ensures { legs.new ≡ map (leg_placed order) legs.old }
{
    for i in 0..legs.len() {
        let leg = &mut legs[i];
        leg.place(order);
    }
}

/// Takes units of each source, to be made into finished ones.
pub fn make_all(legs: &mut [Leg], units: u64)
    requires { All (λ l. units ≤ l.raw) legs.old }
    ensures { legs.new ≡ map (leg_made units) legs.old }
{
    for i in 0..legs.len() {
        let leg = &mut legs[i];
        leg.make(units);
    }
}

/// How many units there are of the source that has fewest.
pub fn least(legs: &[Leg]) -> u64
    ensures { result ≡ least_raw legs.now }
{
    if legs.len() == 0 {
        return 0;
    }
    let mut least = legs[0].raw();
    for i in 1..legs.len() {
        let raw = legs[i].raw();
        least = if raw < least { raw } else { least };
    }
    least
}

/// Sends nothing to all.
pub fn send_nothing(claims: &mut [Claim])
    ensures { claims.new ≡ map unsent claims.old }
{
    for i in 0..claims.len() {
        let claim = &mut claims[i];
        claim.send_nothing();
    }
}

/// Serves the claims in turn, and answers what is left.
pub fn serve_all(claims: &mut [Claim], stock: u64) -> u64
    ensures claims { claims.new ≡ claims_served claims.old stock }
    ensures left { result ≡ left_over claims.old stock }
{
    let mut left = stock;
    for i in 0..claims.len() {
        let claim = &mut claims[i];
        left -= claim.serve(left);
    }
    left
}

/// What all are owed.
pub fn sum_due(claims: &[Claim]) -> u64
    requires { total_due claims.now < 2 ^ 64 }
    ensures { result ≡ total_due claims.now }
{
    let mut sum: u64 = 0;
    for i in 0..claims.len() {
        sum += claims[i].due();
    }
    sum
}

/// A leg for each source, with nothing on the way.
pub fn new_legs(alloc: Global, sources: &[Link]) -> Result<Vec<Leg>, AllocError>
    ensures { IfOk result (λ v. v.items ≡ legs_of sources.now) }
{
    let mut legs = Vec::new(alloc);
    for i in 0..sources.len() {
        let leg = Leg::new(alloc, sources[i].lead, sources[i].order_lead)?;
        legs.push(leg)?;
    }
    Ok(legs)
}

/// Claims that are owed nothing.
pub fn new_claims(alloc: Global, count: usize) -> Result<Vec<Claim>, AllocError>
    ensures { IfOk result (λ v. v.items ≡ claims_anew count) }
{
    let mut claims = Vec::new(alloc);
    for held in 0..count {
        let _held = held;
        claims.push(Claim::new())?;
    }
    Ok(claims)
}
