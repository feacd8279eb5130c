// The least value of the last so many positions that come one by one.
ghost use Rattle.std.specs.Prelude.{◌≡◌, ℕ, ◌*◌, ◌<◌, ◌≤◌, ℤ, List, [], ◌∷◌, ◌++◌, length};
ghost use Rattle.least_values.specs.Sweeps.{IsLeastOf};

use crate::room::{pair_at, put, put_leasts};
use crate::sweep::{better, better_of};

/// The least value of the last `width` positions, and of those that have it the least position. It works in a room of
/// 2 · `width` cells that its caller keeps, and takes some steps a position: what it has seen stands in blocks of
/// `width` slots, each a position and its value. The slots of the block before the one that is filled hold the least
/// of what is left of that block.
#[derive(Clone, Copy, Debug)]
pub struct Window {
    width: usize,
    // The slots of the block that is filled.
    filled: usize,
    // Whether a whole block stands before it.
    whole: bool,
    // The least of the block that is filled.
    best: Option<(i64, i128)>,
    ghost some: { 1 ≤ width },
    ghost small: { width ≤ 20000 },
    ghost within: { filled ≤ width },
}

impl Window {
    ghost use Rattle.least_values.specs.Windows.{room_of, IsWindowOf, last_of};

    /// A window of this width that has seen no position. Its room may hold anything.
    pub fn new(width: usize) -> Window
        requires some { 1 ≤ width }
        requires small { width ≤ 20000 }
        ensures room { room_of result ≡ 2 * width }
        ensures none { (room : List ℤ) → length room ≡ 2 * width → IsWindowOf width result room [] }
    {
        Window {
            width,
            filled: 0,
            whole: false,
            best: None,
        }
    }

    /// Takes one more position and its value.
    pub fn push(&mut self, room: &mut [i128], at: i64, value: i128)
        requires room { length room.old ≡ room_of self.old }
        ensures room { length room.new ≡ room_of self.new }
        ensures same { room_of self.new ≡ room_of self.old }
        ensures seen { (width : ℕ) (pairs : List (ℤ × ℤ)) → IsWindowOf width self.old room.old pairs →
            IsWindowOf width self.new room.new (pairs ++ (at, value) ∷ []) }
    {
        if self.filled == self.width {
            self.start_block(room);
        }
        self.fill_slot(room, (at, value));
    }

    // Takes one more position into the block that is filled, which isn't whole.
    fn fill_slot(&mut self, room: &mut [i128], pair: (i64, i128))
        requires free { self.old.filled < self.old.width }
        requires room { length room.old ≡ room_of self.old }
        ensures room { length room.new ≡ room_of self.new }
        ensures same { self.new.width ≡ self.old.width }
        ensures seen { (width : ℕ) (pairs : List (ℤ × ℤ)) → IsWindowOf width self.old room.old pairs →
            IsWindowOf width self.new room.new (pairs ++ pair ∷ []) }
    {
        put(room, self.filled, pair);
        self.best = Some(better_of(self.best, pair));
        self.filled += 1;
    }

    // Starts the next block, where one is whole.
    fn start_block(&mut self, room: &mut [i128])
        requires whole { self.old.filled ≡ self.old.width }
        requires room { length room.old ≡ room_of self.old }
        ensures room { length room.new ≡ room_of self.new }
        ensures same { self.new.width ≡ self.old.width }
        ensures free { self.new.filled ≡ 0 }
        ensures seen { (width : ℕ) (pairs : List (ℤ × ℤ)) → IsWindowOf width self.old room.old pairs →
            IsWindowOf width self.new room.new pairs }
    {
        put_leasts(room, self.width);
        self.filled = 0;
        self.whole = true;
        self.best = None;
    }

    /// The least value of the last `width` positions, or of all where there are fewer, and of those that have it the
    /// least position; none where no position was seen.
    pub fn least(&self, room: &[i128]) -> Option<(i64, i128)>
        requires room { length room.now ≡ room_of self.now }
        ensures { (width : ℕ) (pairs : List (ℤ × ℤ)) → IsWindowOf width self.now room.now pairs →
            IsLeastOf (last_of width pairs) result }
    {
        if !self.whole {
            return self.best;
        }
        if self.filled == self.width {
            return self.best;
        }
        let earlier = pair_at(room, self.filled);
        match self.best {
            Some(best) => Some(better(earlier, best)),
            None => Some(earlier),
        }
    }
}
