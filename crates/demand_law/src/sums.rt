// Laws of sums of independent demands.
ghost use Rattle.std.specs.Prelude.{◌≡◌, ℕ, pos, ◌+ℤ◌, ◌*ℤ◌, ◌≤ℤ◌, ◌+◌, ◌*◌, ◌^◌, ◌<◌, ◌≤◌, ◌↔◌, ◌∷◌, [], length, take, sum, slice_index, replicate, All, IsTrue, IfOk, OnOk, IsErrOf};
ghost use Rattle.demand_law.specs.Law.{IsLaw, greatest_of};
ghost use Rattle.demand_law.specs.Sequences.{weight_beyond, law_at, laws_at, Serves, totals_of, greatest_in, greatest_sum, IsSumOf};

use crate::copies::sum_copies;
use crate::law::Law;
use std::alloc::{AllocError, Global};
use thiserror::Error;

/// The greatest product of sums of weights that the law of a sum may have.
const MOST_PRODUCT: u128 = 1 << 120;

/// Why no law of a sum was made.
#[derive(Clone, Copy, Debug, PartialEq, Eq, Error)]
pub enum SumErr {
    /// The product of the sums of weights passes 2^120.
    #[error("the product of the sums of weights passes 2^120")]
    Width,
    /// Memory was refused.
    #[error("out of memory")]
    Memory,
}

impl From<AllocError> for SumErr {
    ghost use Rattle.demand_law.specs.declared.sums.SumErr.TheVariants.{Memory};

    ghost from_gives = { λ _ e. e ≡ Memory };

    fn from(_refused: AllocError) -> SumErr {
        SumErr::Memory
    }
}

// Whether a product is at most 2^120.
fn product_fits(a: u128, b: u128) -> bool
    ensures { IsTrue result ↔ (a * b ≤ 2 ^ 120) }
{
    match a.checked_mul(b) {
        Some(product) => product <= MOST_PRODUCT,
        None => false,
    }
}

// Adds the weights of a law, each of them `factor` times, from a place on.
#[tactic(auto, using(crate::proofs::Convolved::adds_nothing))]
pub(crate) fn add_scaled(sums: &mut [u128], at: usize, factor: u128, law: &[u128])
    requires room { at + length law.now ≤ length sums.old }
    requires fits { (e : ℕ) → (pos (slice_index sums.old e) +ℤ pos factor *ℤ weight_beyond at law.now e) ≤ℤ pos (2 ^ 120) }
    ensures { (e : ℕ) → pos (slice_index sums.new e) ≡ pos (slice_index sums.old e) +ℤ pos factor *ℤ weight_beyond at law.now e }
{
    if factor == 0 {
        return;
    }
    for (d, weight) in law.iter().enumerate() {
        sums[at + d] += factor * *weight;
    }
}

// Writes the weights of the sum of two laws.
fn convolve_into(first: &[u128], second: &[u128], sums: &mut [u128])
    requires first_some { 0 < length first.now }
    requires second_some { 0 < length second.now }
    requires width { length sums.old + 1 ≡ length first.now + length second.now }
    requires fits { sum first.now * sum second.now ≤ 2 ^ 120 }
    ensures { IsSumOf sums.new (first.now ∷ second.now ∷ []) }
{
    sums.fill(0);
    for (d, weight) in first.iter().enumerate() {
        add_scaled(sums, d, *weight, second);
    }
}

/// The law of the sum of two independent demands. `Width` where the product of the sums of weights passes 2^120.
///
/// It takes at most one multiplication for each pair of a demand of the one and a demand of the other.
pub fn convolve(alloc: Global, a: &Law, b: &Law) -> Result<Law, SumErr>
    requires { greatest_of a.now + greatest_of b.now ≤ 4000000000 }
    ensures is_sum { IfOk result (λ law. IsSumOf law (a.now ∷ b.now ∷ [])) }
    ensures fits { OnOk result (sum a.now * sum b.now ≤ 2 ^ 120) }

    // Where the product of the sums of weights fits, only memory can be wanting.
    ensures width { IsErrOf result SumErr.Width ↔ (2 ^ 120 < sum a.now * sum b.now) }
{
    if !product_fits(a.total(), b.total()) {
        return Err(SumErr::Width);
    }
    let first = a.weights();
    let second = b.weights();
    let mut weights = vec![in alloc; 0; first.len() + second.len() - 1]?;
    convolve_into(first, second, &mut weights);
    Ok(Law::from_weights(alloc, weights)?)
}

// The law of a place, counted from `from` on.
fn law_of(laws: &[Law], from: usize, place: usize) -> &Law
    requires { Serves laws.now from (place + 1) }
    ensures { result.now ≡ law_at laws.now (from + place) }
{
    if laws.len() == 1 {
        &laws[0]
    } else {
        &laws[from + place]
    }
}

// How many weights the law of the sum of the laws of some places has.
fn lead_width(laws: &[Law], from: usize, count: usize) -> usize
    requires serves { Serves laws.now from count }
    requires short { count * greatest_in laws.now ≤ 4000000000 }
    ensures width { result ≡ greatest_sum (laws_at laws.now from count) + 1 }
    ensures within { result ≤ count * greatest_in laws.now + 1 }
    ensures are_laws { All IsLaw (laws_at laws.now from count) }
{
    let mut width = 1;
    for place in 0..count {
        width += law_of(laws, from, place).weights().len() - 1;
    }
    width
}

// Whether the product of the sums of weights of the laws of some places is at most 2^120.
fn totals_fit(laws: &[Law], from: usize, count: usize) -> bool
    requires serves { Serves laws.now from count }
    requires are_laws { All IsLaw (laws_at laws.now from count) }
    ensures { IsTrue result ↔ (totals_of (laws_at laws.now from count) ≤ 2 ^ 120) }
{
    let mut product = 1;
    for place in 0..count {
        let total = law_of(laws, from, place).total();
        if !product_fits(product, total) {
            return false;
        }
        product *= total;
    }
    true
}

// Puts the law of the sum with one law more in place of the first `len` weights, and says how many it has.
pub(crate) fn add_law(sums: &mut [u128], len: usize, law: &[u128], next: &mut [u128]) -> usize
    requires sums_some { 0 < len }
    requires law_some { 0 < length law.now }
    requires room { len + length law.now ≤ length sums.old + 1 }
    requires room_to_work { length sums.old ≤ length next.old }
    requires fits { sum (take len sums.old) * sum law.now ≤ 2 ^ 120 }
    ensures width { result + 1 ≡ len + length law.now }
    ensures is_sum { IsSumOf (take result sums.new) (law.now ∷ take len sums.old ∷ []) }
    ensures same { length sums.new ≡ length sums.old }
    ensures same_next { length next.new ≡ length next.old }
{
    let end = len + law.len() - 1;
    let sum = &mut next[..end];
    convolve_into(law, &sums[..len], sum);
    sums[..end].copy_from_slice(sum);
    end
}

// Writes the weights of the sum of the laws of some places, one after another. `next` is room to work in.
fn sum_each(laws: &[Law], from: usize, count: usize, sums: &mut [u128], next: &mut [u128])
    requires some { 1 ≤ count }
    requires serves { Serves laws.now from count }
    requires are_laws { All IsLaw (laws_at laws.now from count) }
    requires fits { totals_of (laws_at laws.now from count) ≤ 2 ^ 120 }
    requires width { length sums.old ≡ greatest_sum (laws_at laws.now from count) + 1 }
    requires room_to_work { length sums.old ≤ length next.old }
    ensures { IsSumOf sums.new (laws_at laws.now from count) }
{
    let first = law_of(laws, from, 0).weights();
    let mut len = first.len();
    sums[..len].copy_from_slice(first);
    for place in 1..count {
        let law = law_of(laws, from, place).weights();
        len = add_law(sums, len, law, next);
    }
}

// Writes the weights of the sum of the laws of some places. `next` is room to work in.
fn sum_into(laws: &[Law], from: usize, count: usize, sums: &mut [u128], next: &mut [u128])
    requires some { 1 ≤ count }
    requires serves { Serves laws.now from count }
    requires are_laws { All IsLaw (laws_at laws.now from count) }
    requires fits { totals_of (laws_at laws.now from count) ≤ 2 ^ 120 }
    requires width { length sums.old ≡ greatest_sum (laws_at laws.now from count) + 1 }
    requires room_to_work { length sums.old ≤ length next.old }
    ensures { IsSumOf sums.new (laws_at laws.now from count) }
{
    match laws {
        [law] => {
            sum_copies(law.weights(), count, sums, next);
        }
        _ => sum_each(laws, from, count, sums, next),
    }
}

/// The law of the sum of independent demands, one for each of `count` places from `from` on. A list of one law has that
/// law at every place. `Width` where the product of the sums of weights passes 2^120.
///
/// The laws are convolved one after another, and where one law serves every place by doubling, with room for two laws
/// of the sum.
pub fn lead_sum(alloc: Global, laws: &[Law], from: usize, count: usize) -> Result<Law, SumErr>
    requires some { 1 ≤ count }
    requires serves { Serves laws.now from count }
    requires short { count * greatest_in laws.now ≤ 4000000000 }
    ensures is_sum { IfOk result (λ law. IsSumOf law (laws_at laws.now from count)) }
    ensures fits { OnOk result (totals_of (laws_at laws.now from count) ≤ 2 ^ 120) }

    // Where the product of the sums of weights fits, only memory can be wanting.
    ensures width { IsErrOf result SumErr.Width ↔ (2 ^ 120 < totals_of (laws_at laws.now from count)) }
{
    let width = lead_width(laws, from, count);
    if !totals_fit(laws, from, count) {
        return Err(SumErr::Width);
    }
    let mut sums = vec![in alloc; 0; width]?;
    let mut next = vec![in alloc; 0; width]?;
    sum_into(laws, from, count, &mut sums, &mut next);
    Ok(Law::from_weights(alloc, sums)?)
}

/// Writes the weights of the law that `lead_sum` gives into the first places of `sums`, and says how many they are. The
/// other places are room to work in, and what stands there afterwards is left open. It takes no memory.
pub fn lead_into(laws: &[Law], from: usize, count: usize, sums: &mut [u128]) -> usize
    requires some { 1 ≤ count }
    requires serves { Serves laws.now from count }
    requires short { count * greatest_in laws.now ≤ 4000000000 }
    requires fits { totals_of (laws_at laws.now from count) ≤ 2 ^ 120 }
    requires room { 2 * (count * greatest_in laws.now + 1) ≤ length sums.old }
    ensures width { result ≡ greatest_sum (laws_at laws.now from count) + 1 }
    ensures is_sum { IsSumOf (take result sums.new) (laws_at laws.now from count) }
    ensures is_law { IsLaw (take result sums.new) }
{
    let width = lead_width(laws, from, count);
    let (sums, next) = sums.split_at_mut(width);
    sum_into(laws, from, count, sums, next);
    width
}
