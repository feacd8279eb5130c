// Decision problems over periods, as code.
ghost use Rattle.std.specs.Prelude.{◌≡◌, ℕ, suc, ◌+◌, ◌^◌, ◌≤◌, ℤ, pos, ◌-ℤ◌, ◌≤ℤ◌, ◌<ℤ◌, unsigned_abs, List, length, map, IsTrue};
ghost use Rattle.demand_law.specs.Sequences.{IsSequence, laws_from};
ghost use Rattle.decision_model.specs.Bounds.{IsOnGrid};
ghost use Rattle.decision_model.specs.Listed.{AreWithin};
ghost use Rattle.decision_model.specs.Policies.{Problem as Meaning};

use demand_law::Law;

/// A decision problem over periods from 1 to its horizon.
pub trait Problem {
    /// What it means: its states and choices are lists of positions.
    ghost meaning: { Self → Meaning (List ℤ) };

    /// The instance meets the rules, but for those on its size.
    ghost is_regular: { Self → Type 0 };

    /// The low end of the grid in a period.
    ghost low: { Self → ℕ → ℤ };

    /// The greatest position.
    ghost highest: { Self → ℤ };

    /// A number above the cost of each period.
    ghost cost_bound: { Self → ℕ };

    /// How many positions a state has.
    fn parts(&self) -> usize
        requires { is_regular self.now }
        ensures { result ≡ length (meaning self.now).start };

    fn horizon(&self) -> u32
        ensures { result ≡ (meaning self.now).horizon };

    /// How many demands after its own a period's cost looks at.
    fn lookahead(&self) -> u32
        ensures { result ≡ (meaning self.now).lookahead };

    /// The factor on the cost of each later period, as a fraction.
    fn discount(&self) -> (u32, u32)
        ensures num { result.0 ≡ (meaning self.now).discount_num }
        ensures den { result.1 ≡ (meaning self.now).discount_den };

    /// The low end of the grid in a period, from 1 to the one after the last.
    fn floor(&self, t: u32) -> i64
        requires regular { is_regular self.now }
        requires from_one { 1 ≤ t }
        requires within { t ≤ (meaning self.now).horizon + 1 }
        ensures { result ≡ low self.now t };

    /// The greatest position of the grid in each period.
    fn cap(&self) -> i64
        ensures { result ≡ highest self.now };

    /// The law of a period's demand.
    fn law(&self, t: u32) -> &Law
        requires regular { is_regular self.now }
        requires from_one { 1 ≤ t }
        requires within { t ≤ (meaning self.now).horizon + (meaning self.now).lookahead }
        ensures { result.now ≡ (meaning self.now).law t };

    /// The position after a choice and a demand.
    fn step(&self, y: i64, d: u32) -> i64
        requires { unsigned_abs y ≤ 10 ^ 13 }
        ensures { result ≡ y -ℤ pos d };

    /// A state of the grid has as many positions as the start, each from the low end to the cap.
    ghost within_grid: { (x : Self) → is_regular x → (t : ℕ) (state : List ℤ) → IsTrue ((meaning x).grid t state) → AreWithin (low x t) (highest x) (length (meaning x).start) state };

    /// An allowed choice leads to what the step of each of its positions is.
    ghost each_steps: { (x : Self) → is_regular x → (t : ℕ) (state choice : List ℤ) (d : ℕ) → IsTrue ((meaning x).allows t state choice) → (meaning x).next state choice d ≡ map (λ y. y -ℤ pos d) choice };

    /// The start is on the grid, and an allowed choice leads to the next period's grid.
    ghost on_grid: { (x : Self) → is_regular x → IsOnGrid (meaning x) };

    /// Some choice is allowed at each state of the grid.
    ghost some_choice: { (x : Self) → is_regular x → (t : ℕ) (state : List ℤ) → IsTrue ((meaning x).grid t state) → (choice : List ℤ) × IsTrue ((meaning x).allows t state choice) };

    /// No period costs less than 0, along any demands of its laws.
    ghost costs_nothing_less: { (x : Self) → is_regular x → (t : ℕ) (state choice : List ℤ) (ds : List ℕ) → t ≤ (meaning x).horizon → IsTrue ((meaning x).grid t state) → IsTrue ((meaning x).allows t state choice) → IsSequence (laws_from (meaning x).law t (suc (meaning x).lookahead)) ds → pos 0 ≤ℤ (meaning x).cost t state choice ds };

    /// Each period costs less than the bound, along any demands of its laws.
    ghost costs_less: { (x : Self) → is_regular x → (t : ℕ) (state choice : List ℤ) (ds : List ℕ) → t ≤ (meaning x).horizon → IsTrue ((meaning x).grid t state) → IsTrue ((meaning x).allows t state choice) → IsSequence (laws_from (meaning x).law t (suc (meaning x).lookahead)) ds → (meaning x).cost t state choice ds <ℤ pos (cost_bound x) };
}
