// Laws of decision problems.
ghost use Rattle.std.specs.Prelude.{◌≡◌, ℕ, ℤ, ◌+ℤ◌, ◌≤ℤ◌, List};
ghost use Rattle.decision_model.specs.Bounds.{rest_from, IsBelow, IsAboveFrom};
ghost use Rattle.decision_model.specs.Listed.{listed, listed_policy};
ghost use Rattle.decision_model.specs.Policies.{Policy, Problem, path_cost, expected, IsAllowed, Least};
ghost use Rattle.policy_bound.specs.PathSums.{path_sum};

use decision_model::Problem;

/// No allowed policy, however it looks at the demands so far, costs less than numbers that no step undercuts, but for what
/// they lack of the cost of the end; and one whose own choices reach the numbers costs no more.
pub fn policies_are_bounded<P: Problem>(problem: &P)
    requires { P.is_regular problem.now }
    ensures below { let m = P.meaning problem.now in (V : ℕ → List ℤ → ℤ) (choose : Policy (List ℤ)) → IsBelow m V → IsAllowed m choose
        → (V 1 m.start +ℤ rest_from m V m.horizon 1 m.start choose) ≤ℤ expected m choose }
    ensures above { let m = P.meaning problem.now in (V : ℕ → List ℤ → ℤ) (choose : Policy (List ℤ)) → IsAboveFrom m V m.horizon 1 m.start choose
        → expected m choose ≤ℤ (V 1 m.start +ℤ rest_from m V m.horizon 1 m.start choose) }
{}

/// A path costs the sum of its periods' costs and that of its end, each with a factor for each period that has passed and
/// one for each that is left.
pub fn path_costs_add_up<P: Problem>(problem: &P)
    ensures { let m = P.meaning problem.now in (choose : Policy (List ℤ)) (ds : List ℕ) → path_sum m 0 m.horizon 1 m.start choose ds ≡ path_cost m m.horizon 1 m.start choose ds }
{}

/// A policy over positions that costs least does so over states of one position each.
pub fn positions_are_states()
    ensures { (p : Problem ℤ) (choose : Policy ℤ) (v : ℤ) → Least p choose v → Least (listed p) (listed_policy choose) v }
{}
