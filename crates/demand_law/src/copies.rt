// The sum of demands that have one law, by doubling.
ghost use Rattle.std.specs.Prelude.{◌≡◌, ◌+◌, ◌*◌, ◌^◌, ◌<◌, ◌≤◌, ◌∷◌, [], length, take, sum, replicate};
ghost use Rattle.demand_law.specs.Law.{greatest_of};
ghost use Rattle.demand_law.specs.Sequences.{IsSumOf};

use crate::sums::{add_law, add_scaled};

// Writes the weights of the sum of two demands of one law: each pair of two demands is taken once, and counts twice.
fn square_into(law: &[u128], sums: &mut [u128])
    requires some { 0 < length law.now }
    requires width { length sums.old + 1 ≡ length law.now + length law.now }
    requires fits { sum law.now * sum law.now ≤ 2 ^ 120 }
    ensures { IsSumOf sums.new (law.now ∷ law.now ∷ []) }
{
    sums.fill(0);
    for (d, weight) in law.iter().enumerate() {
        add_scaled(sums, d, 2 * *weight, &law[..d]);
        add_scaled(sums, 2 * d, *weight * *weight, &[1]);
    }
}

// Puts the law of the sum of two demands in place of the law that is the first `len` weights, and says how many it has.
fn double(sums: &mut [u128], len: usize, next: &mut [u128]) -> usize
    requires some { 0 < len }
    requires room { len + len ≤ length sums.old + 1 }
    requires room_to_work { length sums.old ≤ length next.old }
    requires fits { sum (take len sums.old) * sum (take len sums.old) ≤ 2 ^ 120 }
    ensures width { result + 1 ≡ len + len }
    ensures is_sum { IsSumOf (take result sums.new) (take len sums.old ∷ take len sums.old ∷ []) }
    ensures same { length sums.new ≡ length sums.old }
    ensures same_next { length next.new ≡ length next.old }
{
    let end = len + len - 1;
    let square = &mut next[..end];
    square_into(&sums[..len], square);
    sums[..end].copy_from_slice(square);
    end
}

// Writes the weights of the sum of `count` demands of one law into the first places, and says how many they are. `next`
// is room to work in.
pub(crate) fn sum_copies(law: &[u128], count: usize, sums: &mut [u128], next: &mut [u128]) -> usize
    requires some { 1 ≤ count }
    requires law_some { 0 < length law.now }
    requires weights_some { 0 < sum law.now }
    requires fits { sum law.now ^ count ≤ 2 ^ 120 }
    requires room { count * greatest_of law.now + 1 ≤ length sums.old }
    requires room_to_work { length sums.old ≤ length next.old }
    ensures width { result ≡ count * greatest_of law.now + 1 }
    ensures is_sum { IsSumOf (take result sums.new) (replicate count law.now) }
    ensures same { length sums.new ≡ length sums.old }
    ensures same_next { length next.new ≡ length next.old }
{
    if count == 1 {
        sums[..law.len()].copy_from_slice(law);
        return law.len();
    }
    let half = sum_copies(law, count / 2, sums, next);
    let len = double(sums, half, next);
    if count % 2 == 0 {
        return len;
    }
    add_law(sums, len, law, next)
}
