// The numbers of certificates.
ghost use Rattle.std.specs.Prelude.{◌≡◌};
ghost use Rattle.value_cert.specs.Numbers.{is_natural, is_whole, is_discount, is_one, is_no_discount};

/// The greatest size of a number of a certificate.
const GREATEST: u128 = 1 << 120;

pub(crate) fn is_natural_number(number: i128) -> bool
    ensures { result ≡ is_natural number }
{
    0 <= number && number <= GREATEST as i128
}

pub(crate) fn is_whole_number(number: i128) -> bool
    ensures { result ≡ is_whole number }
{
    number.unsigned_abs() <= GREATEST
}

/// A discount need not be in lowest terms.
pub(crate) fn is_discount_fraction(num: i128, den: i128) -> bool
    ensures { result ≡ is_discount num den }
{
    1 <= num && num <= den && den <= 1000
}

pub(crate) fn is_unit_fraction(num: i128, den: i128) -> bool
    ensures { result ≡ is_one num den }
{
    num == 1 && den == 1
}

/// What stands for no discount.
pub(crate) fn is_no_discount(num: i128, den: i128) -> bool
    ensures { result ≡ is_no_discount num den }
{
    is_discount_fraction(num, den) && is_unit_fraction(num, den)
}
