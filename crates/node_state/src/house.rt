// Order rules that a program hands in, beside those that an instance states.
ghost use Rattle.std.specs.Prelude.{◌≡◌, ℕ, ◌^◌, ◌≤◌, List, ◌∷◌};
ghost use Rattle.std.specs.Int.RustNames.{unsigned_abs};
ghost use Rattle.node_state.specs.Handed.{Ask, Handed};

/// An order rule of the caller's own. It is asked once in each period, also in one in which its node's orders pause, and
/// may remember what it was asked.
pub trait HouseRule: Drop {
    /// What the rule is from now on: the most that it may answer, and its answers to a list of asks.
    ghost meaning: { Self → Handed };

    /// The units to order at a position, with so many units seen in this period.
    fn ask(&mut self, position: i64, seen: u64) -> u64
        requires position { unsigned_abs position ≤ 10 ^ 13 }
        requires seen { seen ≤ 10 ^ 12 }
        ensures { (rest : List Ask) → (meaning self.old).replies (record { position = position; seen = seen } ∷ rest) ≡ result ∷ (meaning self.new).replies rest };

    /// The most that it may answer. An answer above it ends the run.
    fn cap(&self) -> u64
        ensures { result ≡ (meaning self.now).most };
}
