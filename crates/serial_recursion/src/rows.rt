// Rows of cells.
ghost use Rattle.std.specs.Prelude.{◌≡◌, ℕ, ◌+◌, ◌<◌, ◌≤◌, pos, length};
ghost use Rattle.serial_recursion.specs.Rows.{value_at, row_at};

// Puts 0 into the first cells of a row.
pub(crate) fn clear(row: &mut [i128], count: usize)
    requires { count ≤ length row.old }
    ensures same { length row.new ≡ length row.old }
    ensures zeros { (k : ℕ) → k < count → value_at row.new k ≡ pos 0 }
{
    for place in 0..count {
        row[place] = 0;
    }
}

// Puts the first cells of a row into the values from a cell on.
pub(crate) fn store_row(row: &[i128], count: usize, values: &mut [i128], start: usize)
    requires row { count ≤ length row.now }
    requires values { start + count ≤ length values.old }
    ensures same { length values.new ≡ length values.old }
    ensures stored { (k : ℕ) → k < count → row_at values.new start k ≡ value_at row.now k }
    ensures below { (k : ℕ) → k < start → value_at values.new k ≡ value_at values.old k }
    ensures above { (k : ℕ) → start + count ≤ k → value_at values.new k ≡ value_at values.old k }
{
    for place in 0..count {
        values[start + place] = row[place];
    }
}
