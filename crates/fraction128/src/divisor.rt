// Common divisors.
ghost use Rattle.std.specs.Prelude.{◌≡◌, ℕ, ◌*◌, ◌/◌, ◌<◌, ◌≤◌};
ghost use Rattle.std.specs.Int.{IsGcd};
ghost use Rattle.fraction128.specs.Divisors.{AreCoprime};
ghost use Rattle.fraction128.specs.Reduced.{gcd_of};

/// The greatest common divisor; that of 0 and 0 is 0.
pub fn gcd(a: u128, b: u128) -> u128
    ensures { IsGcd a b result }
{
    let mut x = a;
    let mut y = b;
    while y != 0 {
        let rest = x % y;
        x = y;
        y = rest;
    }
    x
}

// The quotient by the greatest common divisor, of both.
pub(crate) fn lowest(size: u128, den: u128) -> (u128, u128)
    requires { 0 < den }
    ensures top { result.0 ≡ size / gcd_of size den }
    ensures bottom { result.1 ≡ den / gcd_of size den }
    ensures same { result.0 * den ≡ size * result.1 }
    ensures no_larger { result.0 ≤ size }
    ensures positive { 0 < result.1 }
    ensures lowest { AreCoprime result.0 result.1 }
{
    let common = gcd(size, den);
    (size / common, den / common)
}
