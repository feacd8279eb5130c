// The order rules that the program hands in: examples of rules that remember what they were asked.
ghost use Rattle.std.specs.Prelude.{◌≡◌, ◌≤◌, ◌*◌, ◌^◌};
ghost use Rattle.std.specs.Int.RustNames.{unsigned_abs};
ghost use Rattle.stock.specs.Rules.{short_of};

use node_state::HouseRule;

/// The most that each of these rules answers.
const MOST: u64 = 10_000;

// What a position lacks to a level, as far as a rule may answer.
fn short_of(level: u64, position: i64) -> u64
    requires level { level ≤ 8 * 10 ^ 12 }
    requires position { unsigned_abs position ≤ 10 ^ 13 }
    ensures { result ≡ short_of level position }
{
    let level = level as i64;
    if position < level {
        MOST.min((level - position) as u64)
    } else {
        0
    }
}

/// Orders up to twice the units seen in the last four periods, at most 10,000.
#[derive(Drop)]
pub struct WindowRule {
    // The units seen in each of the last four periods.
    last: u64,
    second: u64,
    third: u64,
    fourth: u64,
    ghost few: { (last ≤ 10 ^ 12) × (second ≤ 10 ^ 12) × (third ≤ 10 ^ 12) × (fourth ≤ 10 ^ 12) },
}

impl WindowRule {
    ghost use Rattle.std.specs.Prelude.{◌≡◌};

    /// The rule before it has seen anything.
    pub fn new() -> WindowRule
        ensures { (result.last ≡ 0) × (result.second ≡ 0) × (result.third ≡ 0) × (result.fourth ≡ 0) }
    {
        WindowRule {
            last: 0,
            second: 0,
            third: 0,
            fourth: 0,
        }
    }
}

impl HouseRule for WindowRule {
    ghost use Rattle.std.specs.Prelude.{[], ◌∷◌};
    ghost use Rattle.stock.specs.Rules.{window_rule};

    ghost meaning = { λ r. window_rule (r.last ∷ r.second ∷ r.third ∷ r.fourth ∷ []) };

    fn ask(&mut self, position: i64, seen: u64) -> u64 {
        self.fourth = self.third;
        self.third = self.second;
        self.second = self.last;
        self.last = seen;
        let total = self.last + self.second + self.third + self.fourth;
        short_of(2 * total, position)
    }

    fn cap(&self) -> u64 {
        MOST
    }
}

/// Orders up to a level that starts at 10 and rises to twice the units seen in a period where these are more, at most
/// 10,000.
#[derive(Drop)]
pub struct StepRule {
    level: u64,
    ghost small: { level ≤ 2 * 10 ^ 12 },
}

impl StepRule {
    pub fn new() -> StepRule
        ensures { result.level ≡ 10 }
    {
        StepRule { level: 10 }
    }
}

impl HouseRule for StepRule {
    ghost use Rattle.stock.specs.Rules.{step_rule};

    ghost meaning = { λ r. step_rule r.level };

    fn ask(&mut self, position: i64, seen: u64) -> u64 {
        self.level = self.level.max(2 * seen);
        short_of(self.level, position)
    }

    fn cap(&self) -> u64 {
        MOST
    }
}
