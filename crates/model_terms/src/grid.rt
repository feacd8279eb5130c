// Grids of positions.
ghost use Rattle.std.specs.Prelude.{◌≡◌, ℕ, ◌+◌, ◌*◌, ◌^◌, ◌≤◌, unsigned_abs};
ghost use Rattle.model_terms.specs.Positions.{above_zero, low_after, positions_from};

/// A number, or 0 in place of one below 0.
pub fn above_zero(number: i64) -> u64
    ensures { result ≡ above_zero number }
{
    u64::try_from(number).unwrap_or(0)
}

/// The lower of a start and 0, less the greatest demand of each period that has passed.
pub fn low_after(start: i64, greatest: u32, passed: u32) -> i64
    requires start { unsigned_abs start ≤ 1000000 }
    requires greatest { greatest ≤ 10000 }
    requires passed { passed ≤ 104 }
    ensures low { result ≡ low_after start greatest passed }
    ensures small { unsigned_abs result ≤ 2040000 }
{
    start.min(0) - i64::from(passed * greatest)
}

/// How many positions there are from a low end to a cap.
pub fn positions_from(low: i64, cap: i64) -> u64
    requires low { unsigned_abs low ≤ 2040000 }
    requires cap { unsigned_abs cap ≤ 1000000 }
    ensures positions { result ≡ positions_from low cap }
    ensures small { result ≤ 3040001 }
{
    above_zero(cap - low + 1)
}
