// How much room the recursion works in.
ghost use Rattle.std.specs.Prelude.{◌≡◌, ◌≤◌};
ghost use Rattle.decision_model.specs.Finite.{IsValidFinite};
ghost use Rattle.finite_recursion.specs.Tables.{lead_sums, cells_needed, sums_needed};

use decision_model::Finite;

/// Two sums for each demand that a lead time's periods and one more can have together.
pub fn lead_sums(lead: u32, greatest: u32) -> usize
    requires lead { lead ≤ 8 }
    requires greatest { greatest ≤ 10000 }
    ensures { result ≡ lead_sums lead greatest }
{
    2 * ((lead as usize + 1) * greatest as usize + 1)
}

/// How many cells the recursion works in: two rows over the grid, and two cells for each position that an order of the
/// greatest size can pass, where orders have one.
pub fn cells_of(finite: &Finite) -> usize
    requires { IsValidFinite finite.now }
    ensures { result ≡ cells_needed finite.now }
{
    let positions = finite.positions() as usize;
    match finite.most {
        Some(most) => 2 * positions + 2 * (most as usize).min(positions),
        None => 2 * positions,
    }
}

/// How many sums of weights the recursion works in.
pub fn sums_of(finite: &Finite) -> usize
    requires { IsValidFinite finite.now }
    ensures { result ≡ sums_needed finite.now }
{
    lead_sums(finite.lead, finite.laws.greatest())
}
