// Reduced fractions.
ghost use Rattle.std.specs.Prelude.{◌≡◌, ◌<◌, ◌≤◌, ◌^◌, ◌++◌, OnOk, OnErr, pos, ◌*ℤ◌};
ghost use Rattle.std.specs.Int.RustNames.{unsigned_abs};
ghost use lib.IntN.{neg_ℤ};
ghost use Rattle.fraction128.specs.Reduced.{IsReduced, lowest_num, lowest_den};
ghost use Rattle.fraction128.specs.Printed.{frac_text};

use crate::divisor::lowest;
use crate::text::{Memory, Text};

/// A fraction in lowest terms, with a denominator above 0; zero is 0/1.
///
/// Each value has one such fraction, so two are equal exactly where their values are.
#[derive(Clone, Copy, Debug, PartialEq, Eq)]
pub struct Frac {
    pub num: i128,
    pub den: u128,
    pub ghost reduced: { IsReduced num den },
}

// The number below 0 of this size.
fn below_zero(size: u128) -> i128
    requires { size ≤ 2 ^ 127 }
    ensures value { result ≡ neg_ℤ (pos size) }
    ensures size { unsigned_abs result ≡ size }
{
    0i128.wrapping_sub_unsigned(size)
}

impl Frac {
    /// `num`/`den` in lowest terms.
    pub fn new(num: i128, den: u128) -> Frac
        requires { 0 < den }
        ensures value { (result.num *ℤ pos den) ≡ (num *ℤ pos result.den) }
        ensures num { result.num ≡ lowest_num num den }
        ensures den { result.den ≡ lowest_den num den }
    {
        let (top, bottom) = lowest(num.unsigned_abs(), den);
        if num < 0 {
            let below = below_zero(top);
            return Frac {
                num: below,
                den: bottom,
            };
        }
        let above = top as i128;
        Frac {
            num: above,
            den: bottom,
        }
    }

    /// The whole number `num`, as `num`/1.
    pub fn whole(num: i128) -> Frac
        ensures num { result.num ≡ num }
        ensures den { result.den ≡ 1 }
    {
        Frac { num, den: 1 }
    }
}

impl Frac {
    /// Appends `num`, or `num/den` where `den` isn't 1, in decimal.
    /// Where memory is refused, the text is as before.
    pub fn text_into(&self, out: &mut Text) -> Result<(), Memory>
        ensures ok { OnOk result (out.new ≡ out.old ++ frac_text self.now.num self.now.den) }
        ensures err { OnErr result (out.new ≡ out.old) }
    {
        let num = self.num;
        let den = self.den;
        let alloc = out.allocator();
        let text = if den == 1 {
            format!(in alloc; "{num}")
        } else {
            format!(in alloc; "{num}/{den}")
        };
        out.push(text?.as_bytes())
    }
}
