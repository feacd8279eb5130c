// The numbers that a search tries. Any number of the range that is left does.
ghost use Rattle.std.specs.Prelude.{◌<◌, ◌≤◌};

/// How a search goes on from a guess.
#[derive(Clone, Copy, Debug)]
pub(crate) enum Way {
    /// No number was tried yet.
    Start,
    /// Each number passed so far: some way up.
    Up(u128),
    /// None did: some way down.
    Down(u128),
    /// Some passed and some didn't: to the middle.
    Halve,
}

impl Way {
    /// How it goes on behind a number that passed, or one that didn't.
    pub(crate) fn after(self, passed: bool) -> Way {
        match (self, passed) {
            (Way::Start, true) => Way::Up(1),
            (Way::Start, false) => Way::Down(1),
            (Way::Up(step), true) => Way::Up(step.saturating_add(step)),
            (Way::Down(step), false) => Way::Down(step.saturating_add(step)),
            _ => Way::Halve,
        }
    }

    /// The next guess, above one number and up to another.
    pub(crate) fn guess(self, good: u128, top: u128) -> u128 {
        match self {
            Way::Up(step) => good.saturating_add(step),
            Way::Down(step) => top.saturating_sub(step).saturating_add(1),
            Way::Start | Way::Halve => good.midpoint(top),
        }
    }
}

/// A number of a range, the nearest to a guess.
pub(crate) fn between(bottom: u128, top: u128, guess: u128) -> u128
    requires { bottom < top }
    ensures from { bottom ≤ result }
    ensures below { result < top }
{
    guess.max(bottom).min(top - 1)
}
