// How much room the tables take.
ghost use Rattle.std.specs.Prelude.{◌≡◌};
ghost use Rattle.decision_model.specs.Average.{IsValidAverage};
ghost use Rattle.average_recursion.specs.Tables.{cells_needed, sums_needed};

use decision_model::Average;
use finite_recursion::lead_sums;

/// How many cells the tables of entries take: two for each position of the grid.
pub fn cells_of(average: &Average) -> usize
    requires { IsValidAverage average.now }
    ensures { result ≡ cells_needed average.now }
{
    2 * average.positions() as usize
}

/// How many sums of weights they are worked out in: two for each demand that a lead time's periods and one more can have
/// together.
pub fn sums_of(average: &Average) -> usize
    requires { IsValidAverage average.now }
    ensures { result ≡ sums_needed average.now }
{
    lead_sums(average.lead, average.law.greatest())
}
