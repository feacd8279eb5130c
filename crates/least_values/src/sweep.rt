// The least value of positions that come one by one.
ghost use Rattle.std.specs.Prelude.{◌≡◌, ℤ, List, [], ◌∷◌, ◌++◌, Some};
ghost use Rattle.least_values.specs.Sweeps.{IsLeastOf, IsSweepOf, better, better_of};

/// The least value of the positions so far, and of those that have it the least position.
#[derive(Clone, Copy, Debug)]
pub struct Sweep {
    best: Option<(i64, i128)>,
}

impl Sweep {
    /// A sweep that has seen no position.
    pub fn new() -> Sweep
        ensures { IsSweepOf result [] }
    {
        Sweep { best: None }
    }

    /// Takes one more position and its value.
    #[tactic(auto, using(crate::proofs::LeastPairs::least_of_more))]
    pub fn push(&mut self, at: i64, value: i128)
        ensures { (pairs : List (ℤ × ℤ)) → IsSweepOf self.old pairs → IsSweepOf self.new (pairs ++ (at, value) ∷ []) }
    {
        self.best = Some(better_of(self.best, (at, value)));
    }

    /// The least value, and of the positions that have it the least; none where no position was seen.
    pub fn least(&self) -> Option<(i64, i128)>
        ensures { (pairs : List (ℤ × ℤ)) → IsSweepOf self.now pairs → IsLeastOf pairs result }
    {
        self.best
    }
}

/// Of two positions with their values the one of lower value, and of equal values the lower one.
pub(crate) fn better(one: (i64, i128), other: (i64, i128)) -> (i64, i128)
    ensures { result ≡ better one other }
{
    if one.1 < other.1 {
        return one;
    }
    if other.1 < one.1 {
        return other;
    }
    if one.0 <= other.0 { one } else { other }
}

/// The better of the best pair so far, where there is one, and another one.
pub(crate) fn better_of(best: Option<(i64, i128)>, other: (i64, i128)) -> (i64, i128)
    ensures { result ≡ better_of best other }
{
    match best {
        Some(one) => better(one, other),
        None => other,
    }
}
