// Ranges of laws of demand. That its greatest demand has a weight, each law keeps by its type.
ghost use Rattle.std.specs.Prelude.{◌≡◌, ◌↔◌, ◌≤◌, All, sum, IsTrue};
ghost use Rattle.decision_model.specs.DemandLaws.{IsDemandLaw, AreDemandLaws, common_total};

use decision_model::limits::{MOST_DEMAND, MOST_TOTAL};
use demand_law::Law;

pub(crate) fn is_demand_law(law: &Law) -> bool
    ensures { IsTrue result ↔ IsDemandLaw law.now }
{
    law.weights().len() <= MOST_DEMAND + 1 && law.total() <= u128::from(MOST_TOTAL)
}

fn are_in_range(laws: &[Law]) -> bool
    ensures { IsTrue result ↔ All IsDemandLaw laws.now }
{
    laws.iter().all(|law| is_demand_law(law))
}

// Whether the weights of each law add up to so much.
fn have_total(laws: &[Law], total: u128) -> bool
    ensures { IsTrue result ↔ All (λ law. sum law ≡ total) laws.now }
{
    laws.iter().all(|law| law.total() == total)
}

// Whether there is one law, which serves every place, or one a place, all with one sum of weights.
pub(crate) fn are_demand_laws(laws: &[Law], places: usize) -> bool
    requires { 1 ≤ places }
    ensures { IsTrue result ↔ AreDemandLaws laws.now places }
{
    if laws.is_empty() {
        return false;
    }
    (laws.len() == 1 || laws.len() == places)
        && are_in_range(laws)
        && have_total(laws, laws[0].total())
}
