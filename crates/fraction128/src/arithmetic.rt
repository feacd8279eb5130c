// Exact sums, products and comparisons.
ghost use Rattle.std.specs.Prelude.{◌≡◌, ◌↔◌, ◌*◌, ◌^◌, ◌<◌, pos, ◌*ℤ◌, IsSome, IfSome, FitsSigned, unsigned_abs};
ghost use Rattle.std.specs.Int.{w128};
ghost use Rattle.std.specs.Option.{SomeIff};
ghost use Rattle.fraction128.specs.Divisors.{AreCoprime};
ghost use Rattle.fraction128.specs.Reduced.{lowest_den};
ghost use Rattle.fraction128.specs.Split.{IsSplit, IsAligned, den_with, least_common};
ghost use Rattle.fraction128.specs.Arithmetic.{order_of, IsQuotient, IsSum, IsDifference, IsProduct, NumsFit, SumFits, DifferenceFits, ProductFits, CrossFits};

use crate::divisor::gcd;
use crate::frac::Frac;
use std::cmp::Ordering;

// Two denominators, `first * shared` and `second * shared`, without what they share.
#[derive(Clone, Copy)]
struct Denominators {
    first: u128,
    second: u128,
    shared: u128,
}

fn split(x: &Frac, y: &Frac) -> Denominators
    ensures { IsSplit x.now y.now result }
{
    let shared = gcd(x.den, y.den);
    Denominators {
        first: x.den / shared,
        second: y.den / shared,
        shared,
    }
}

// `num` times `factor`, where that fits.
fn checked_scale(num: i128, factor: u128) -> Option<i128>
    ensures { SomeIff result (FitsSigned w128 (num *ℤ pos factor)) (num *ℤ pos factor) }
{
    let size = num.unsigned_abs().checked_mul(factor)?;
    if num < 0 {
        0i128.checked_sub_unsigned(size)
    } else {
        0i128.checked_add_unsigned(size)
    }
}

// Two numerators over the least common denominator.
#[derive(Clone, Copy)]
struct Aligned {
    first: i128,
    second: i128,
    parts: Denominators,
}

fn align(x: &Frac, y: &Frac) -> Option<Aligned>
    ensures fits { IsSome result ↔ NumsFit x.now y.now }
    ensures value { IfSome result (IsAligned x.now y.now) }
{
    let parts = split(x, y);
    let first = checked_scale(x.num, parts.second)?;
    let second = checked_scale(y.num, parts.first)?;
    Some(Aligned {
        first,
        second,
        parts,
    })
}

// The denominator whose shared part is `shared`, where that fits.
fn checked_den(shared: u128, parts: &Denominators) -> Option<u128>
    requires { 0 < parts.now.second }
    ensures { SomeIff result (den_with shared parts.now < 2 ^ 128) (den_with shared parts.now) }
{
    let den = shared.checked_mul(parts.first)?;
    den.checked_mul(parts.second)
}

// `total` over the least common denominator, in lowest terms. Only what the denominators share can
// cancel, since `total` shares no divisor with their other parts (Knuth, TAOCP, section 4.5.1).
fn over_common(total: i128, parts: &Denominators) -> Option<Frac>
    requires first { 0 < parts.now.first }
    requires second { 0 < parts.now.second }
    requires shared { 0 < parts.now.shared }
    requires apart { AreCoprime (unsigned_abs total) (parts.now.first * parts.now.second) }
    ensures fits { IsSome result ↔ (lowest_den total (least_common parts.now) < 2 ^ 128) }
    ensures value { IfSome result (IsQuotient total (least_common parts.now)) }
{
    let part = Frac::new(total, parts.shared);
    let den = checked_den(part.den, parts)?;
    Some(Frac { num: part.num, den })
}

impl Frac {
    /// The exact sum of a/b and c/e.
    ///
    /// With g = gcd(b, e) it is `None` exactly where a·(e/g), c·(b/g) or their sum leaves i128, or
    /// the denominator in lowest terms leaves u128.
    pub fn try_add(&self, other: &Frac) -> Option<Frac>
        ensures fits { IsSome result ↔ SumFits self.now other.now }
        ensures value { IfSome result (IsSum self.now other.now) }
    {
        let aligned = align(self, other)?;
        let total = aligned.first.checked_add(aligned.second)?;
        over_common(total, &aligned.parts)
    }

    /// The exact difference of a/b and c/e.
    ///
    /// With g = gcd(b, e) it is `None` exactly where a·(e/g), c·(b/g) or their difference leaves
    /// i128, or the denominator in lowest terms leaves u128.
    pub fn try_sub(&self, other: &Frac) -> Option<Frac>
        ensures fits { IsSome result ↔ DifferenceFits self.now other.now }
        ensures value { IfSome result (IsDifference self.now other.now) }
    {
        let aligned = align(self, other)?;
        let total = aligned.first.checked_sub(aligned.second)?;
        over_common(total, &aligned.parts)
    }

    /// The exact product. It is `None` exactly where it leaves i128 over u128 in lowest terms.
    pub fn try_mul(&self, other: &Frac) -> Option<Frac>
        ensures fits { IsSome result ↔ ProductFits self.now other.now }
        ensures value { IfSome result (IsProduct self.now other.now) }
    {
        let first = Frac::new(self.num, other.den);
        let second = Frac::new(other.num, self.den);
        let num = first.num.checked_mul(second.num)?;
        let den = first.den.checked_mul(second.den)?;
        Some(Frac { num, den })
    }

    /// The order of the two values, a/b and c/e. It is `None` exactly where a·e or c·b leaves i128.
    pub fn try_cmp(&self, other: &Frac) -> Option<Ordering>
        ensures { SomeIff result (CrossFits self.now other.now) (order_of self.now other.now) }
    {
        let first = checked_scale(self.num, other.den)?;
        let second = checked_scale(other.num, self.den)?;
        Some(first.cmp(&second))
    }
}
