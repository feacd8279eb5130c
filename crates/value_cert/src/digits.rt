// Numbers of few digits, read in 64 bits.
ghost use Rattle.std.specs.Prelude.{◌≡◌, ◌+◌, ◌*◌, ◌^◌, ◌<◌, ◌≤◌, pos, ◌-ℤ◌, length, MatchOption, IfSome};
ghost use Rattle.std.specs.Char.{digit_value};
ghost use Rattle.value_cert.specs.Digits.{IsNumberOf};

// So many digits always fit in 64 bits, and twice as many in 120.
const FEW: usize = 18;

// The value of a digit; `None` where the byte is none.
fn value_of_digit(byte: u8) -> Option<u64>
    ensures { MatchOption result (10 ≤ digit_value byte) (λ value. (value ≡ digit_value byte) × (value < 10)) }
{
    if byte < b'0' || byte > b'9' {
        return None;
    }
    Some(u64::from(byte - b'0'))
}

// The number that a few digits spell; `None` where another byte stands among them.
#[inline]
fn short_number(digits: &[u8]) -> Option<u64>
    requires { length digits.now ≤ 18 }
    ensures number { IsNumberOf digits.now result }
    ensures small { IfSome result (λ number. number < 10 ^ 18) }
{
    let mut number = 0u64;
    for at in 0..digits.len() {
        let digit = value_of_digit(digits[at])?;
        number = number * 10 + digit;
    }
    Some(number)
}

// The number of some digits with a few behind them.
fn join(front: u64, end: u64) -> u128
    requires front { front < 10 ^ 18 }
    requires end { end < 10 ^ 18 }
    ensures number { result ≡ front * 10 ^ 18 + end }
    ensures small { result < 10 ^ 36 }
{
    u128::from(front) * 1_000_000_000_000_000_000 + u128::from(end)
}

// The number that some digits spell, in two parts.
#[inline(never)]
fn number_of_parts(digits: &[u8]) -> Option<u128>
    requires some { 18 ≤ length digits.now }
    requires most { length digits.now ≤ 36 }
    ensures number { IsNumberOf digits.now result }
    ensures small { IfSome result (λ number. number < 10 ^ 36) }
{
    let (front, end) = digits.split_at(digits.len() - FEW);
    let front = short_number(front)?;
    let end = short_number(end)?;
    Some(join(front, end))
}

/// The number that at most 36 digits spell; `None` where another byte stands among them.
#[inline]
pub(crate) fn number_of(digits: &[u8]) -> Option<u128>
    requires { length digits.now ≤ 36 }
    ensures number { IsNumberOf digits.now result }
    ensures small { IfSome result (λ number. number < 10 ^ 36) }
{
    if digits.len() <= FEW {
        let number = short_number(digits)?;
        return Some(u128::from(number));
    }
    number_of_parts(digits)
}

/// The number of this size below zero.
pub(crate) fn minus(size: u128) -> i128
    requires { size < 10 ^ 36 }
    ensures { result ≡ pos 0 -ℤ pos size }
{
    -(size as i128)
}

/// The number of this size.
pub(crate) fn plus(size: u128) -> i128
    requires { size < 10 ^ 36 }
    ensures { result ≡ pos size }
{
    size as i128
}
