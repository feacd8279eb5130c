// Powers and products that may pass 128 bits.
ghost use Rattle.std.specs.Prelude.{◌≡◌, ◌↔◌, ◌^◌, ◌<◌, ◌≤◌, All, IsTrue};
ghost use Rattle.std.specs.Option.{SomeIff};
ghost use Rattle.fraction128.specs.Product.{product};

/// `base` to the power of `times`, and `None` exactly where that passes u128.
/// 0 to the power of 0 is 1.
///
/// It ends at the first product that doesn't fit, so it takes at most 128 products.
pub fn checked_pow(base: u128, times: u32) -> Option<u128>
    ensures { SomeIff result (base ^ times < 2 ^ 128) (base ^ times) }
{
    base.checked_pow(times)
}

/// `base` to the power of `times`, where that is known to fit.
pub fn power(base: u128, times: u32) -> u128
    requires { base ^ times < 2 ^ 128 }
    ensures { result ≡ base ^ times }
{
    checked_pow(base, times).unwrap_or(0)
}

/// Whether the product of the factors, over whole numbers without limit, is at most 2^`bits`.
///
/// An empty product is 1.
pub fn within(factors: &[u128], bits: u32) -> bool
    requires { bits ≤ 127 }
    ensures { IsTrue result ↔ (product factors.now ≤ 2 ^ bits) }
{
    factors.contains(&0) || is_product_within(factors, 1 << bits)
}

// Without a factor of 0 a product never falls, so the first one past the limit decides.
fn is_product_within(factors: &[u128], limit: u128) -> bool
    requires positive { All (λ factor. 0 < factor) factors.now }
    requires one_fits { 1 ≤ limit }
    ensures { IsTrue result ↔ (product factors.now ≤ limit) }
{
    let mut product = 1u128;
    for factor in factors {
        let Some(next) = product.checked_mul(*factor) else {
            return false;
        };
        if next > limit {
            return false;
        }
        product = next;
    }
    true
}
