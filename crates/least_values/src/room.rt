// A room of cells, two for each pair of a position and its value.
ghost use Rattle.std.specs.Prelude.{◌≡◌, ◌≢◌, ℕ, ◌+◌, ◌*◌, ◌<◌, ◌≤◌, ℤ, List, length};
ghost use Rattle.least_values.specs.Rooms.{kept_place, held, Holds, HoldsLeasts};

use crate::sweep::better;

// The position that a cell holds; 0 where it holds none.
fn kept_place(cell: i128) -> i64
    ensures { result ≡ kept_place cell }
{
    i64::try_from(cell).unwrap_or(0)
}

/// The position and the value that a slot holds.
pub(crate) fn pair_at(room: &[i128], slot: usize) -> (i64, i128)
    requires within { 2 * slot + 1 < length room.now }
    requires small { slot ≤ 20000 }
    ensures { result ≡ held room.now slot }
{
    (kept_place(room[2 * slot]), room[2 * slot + 1])
}

/// Puts a position and its value into a slot.
pub(crate) fn put(room: &mut [i128], slot: usize, pair: (i64, i128))
    requires within { 2 * slot + 1 < length room.old }
    requires small { slot ≤ 20000 }
    ensures length { length room.new ≡ length room.old }
    ensures here { held room.new slot ≡ pair }
    ensures others { (other : ℕ) → other ≢ slot → held room.new other ≡ held room.old other }
{
    room[2 * slot] = i128::from(pair.0);
    room[2 * slot + 1] = pair.1;
}

/// Puts into each slot of a block the least of what is left of the block from there on.
pub(crate) fn put_leasts(room: &mut [i128], width: usize)
    requires some { 1 ≤ width }
    requires small { width ≤ 20000 }
    requires room { length room.old ≡ 2 * width }
    ensures length { length room.new ≡ length room.old }
    ensures leasts { (block : List (ℤ × ℤ)) → length block ≡ width → Holds room.old block → HoldsLeasts room.new block 0 }
{
    for slot in (0..width - 1).rev() {
        let least = better(pair_at(room, slot), pair_at(room, slot + 1));
        put(room, slot, least);
    }
}
