// The positions that an order can lead to.
ghost use Rattle.std.specs.Prelude.{◌≡◌, ℕ, ◌≤◌, ℤ, List, [], ◌∷◌, ◌++◌, length, Option, IfSome};
ghost use Rattle.decision_model.specs.Sweeps.{IsLeastOf};
ghost use Rattle.finite_recursion.specs.Tables.{capacity_cells};

use decision_model::{Sweep, Window};

// The least of the positions so far that an order can lead to: of all, or of the last so many where an order has a
// greatest size.
#[derive(Clone, Copy, Debug)]
pub(crate) enum Reach {
    All(Sweep),
    Last(Window),
}

impl Reach {
    ghost use Rattle.finite_recursion.specs.Rows.{reach_room, IsReachOf, reached};

    // A reach that has seen no position.
    pub(crate) fn new(most: Option<u64>, positions: usize) -> Reach
        requires most { IfSome most (λ size. 1 ≤ size) }
        requires some { 1 ≤ positions }
        requires small { positions ≤ 20000 }
        ensures room { reach_room result ≡ capacity_cells most positions }
        ensures none { (room : List ℤ) → length room ≡ capacity_cells most positions → IsReachOf most positions result room [] }
    {
        match most {
            None => Reach::All(Sweep::new()),
            Some(size) => Reach::Last(Window::new((size as usize).min(positions))),
        }
    }

    // Takes one more position and its cost.
    pub(crate) fn push(&mut self, room: &mut [i128], at: i64, cost: i128)
        requires room { length room.old ≡ reach_room self.old }
        ensures room { length room.new ≡ length room.old }
        ensures same { reach_room self.new ≡ reach_room self.old }
        ensures seen { (most : Option ℕ) (positions : ℕ) (pairs : List (ℤ × ℤ)) → IsReachOf most positions self.old room.old pairs →
            IsReachOf most positions self.new room.new (pairs ++ (at, cost) ∷ []) }
    {
        match self {
            Reach::All(sweep) => sweep.push(at, cost),
            Reach::Last(window) => window.push(room, at, cost),
        }
    }

    // The least cost of the positions that an order can lead to, and of those that have it the least position; none where
    // there is no position.
    pub(crate) fn least(&self, room: &[i128]) -> Option<(i64, i128)>
        requires room { length room.now ≡ reach_room self.now }
        ensures { (most : Option ℕ) (positions : ℕ) (pairs : List (ℤ × ℤ)) → IsReachOf most positions self.now room.now pairs →
            IsLeastOf (reached most positions pairs) result }
    {
        match self {
            Reach::All(sweep) => sweep.least(),
            Reach::Last(window) => window.least(room),
        }
    }
}
