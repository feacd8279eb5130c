// The laws of a row's period.
ghost use Rattle.std.specs.Prelude.{◌≡◌, true, ℕ, ◌+◌, ◌-◌, ◌*◌, ◌^◌, ◌<◌, ◌≤◌, List, length, take, drop};
ghost use Rattle.demand_law.specs.Law.{IsLaw};
ghost use Rattle.demand_law.specs.Sequences.{greatest_in};
ghost use Rattle.decision_model.specs.Finite.{IsValidFinite};
ghost use Rattle.decision_model.specs.FiniteProblem.{law_of_period};
ghost use Rattle.value_cert.specs.FiniteValues.{lead_law};
ghost use Rattle.finite_recursion.specs.Demands.{AreDemandsOf};
ghost use Rattle.finite_recursion.specs.Rows.{HoldsLaws};
ghost use Rattle.finite_recursion.specs.Tables.{sums_needed};

use decision_model::Finite;
use demand_law::lead_into;

// Where the sums hold the law of the lead time, from the first place on, and the demands of the period's own law.
#[derive(Clone, Copy, Debug)]
pub(crate) struct HeldLaws {
    // How many weights the law of the lead time has.
    pub(crate) lead: usize,
    // The place of the first demand.
    pub(crate) half: usize,
    // How many demands there are.
    pub(crate) listed: usize,
}

// The weights of the law of a period.
pub(crate) fn weights_of(finite: &Finite, period: u32) -> &[u128]
    requires valid { IsValidFinite finite.now }
    requires from_one { 1 ≤ period }
    requires within { period ≤ finite.now.periods }
    ensures weights { result.now ≡ law_of_period finite.now period }
    ensures law { IsLaw result.now }
{
    let laws = finite.laws.as_slice();
    if laws.len() == 1 {
        laws[0].weights()
    } else {
        laws[period as usize - 1].weights()
    }
}

/// Lists the demands that have a weight, from the least up, and says how many they are.
pub fn list_demands(weights: &[u128], listed: &mut [u128]) -> usize
    requires room { length weights.now ≤ length listed.old }
    ensures within { result ≤ length listed.new }
    ensures same { length listed.new ≡ length listed.old }
    ensures demands { AreDemandsOf weights.now (take result listed.new) }
{
    let mut count = 0;
    for (demand, weight) in weights.iter().enumerate() {
        if *weight != 0 {
            listed[count] = demand as u128;
            count += 1;
        }
    }
    count
}

// Puts the law of a period's lead time, and the demands of its own law, into the sums.
pub(crate) fn hold_laws(finite: &Finite, period: u32, sums: &mut [u128]) -> HeldLaws
    requires valid { IsValidFinite finite.now }
    requires from_one { 1 ≤ period }
    requires within { period ≤ finite.now.periods }
    requires room { length sums.old ≡ sums_needed finite.now }
    ensures same { length sums.new ≡ length sums.old }
    ensures holds { HoldsLaws finite.now period result sums.new }
{
    let count = finite.lead as usize + 1;
    let lead = lead_into(finite.laws.as_slice(), period as usize - 1, count, sums);
    let half = count * finite.laws.greatest() as usize + 1;
    let (_, demands) = sums.split_at_mut(half);
    let listed = list_demands(weights_of(finite, period), demands);
    HeldLaws { lead, half, listed }
}

// Puts the laws of a period into the sums, where they don't hold them: one law that serves every period stays.
pub(crate) fn renew_laws(
    finite: &Finite,
    period: u32,
    held: bool,
    laws: &mut HeldLaws,
    sums: &mut [u128],
)
    requires valid { IsValidFinite finite.now }
    requires from_one { 1 ≤ period }
    requires within { period ≤ finite.now.periods }
    requires room { length sums.old ≡ sums_needed finite.now }
    requires held { held ≡ true → (other : ℕ) × HoldsLaws finite.now other laws.old sums.old }
    ensures same { length sums.new ≡ length sums.old }
    ensures holds { HoldsLaws finite.now period laws.new sums.new }
{
    if held {
        if finite.laws.as_slice().len() == 1 {
            return;
        }
    }
    *laws = hold_laws(finite, period, sums);
}
