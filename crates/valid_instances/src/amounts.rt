// Lists of amounts.
ghost use Rattle.std.specs.Prelude.{◌≡◌, ◌↔◌, ◌≤◌, length, All, IsTrue};

// Whether no amount is above the greatest.
fn are_at_most(amounts: &[u64], greatest: u64) -> bool
    ensures { IsTrue result ↔ All (λ amount. amount ≤ greatest) amounts.now }
{
    amounts.iter().all(|amount| *amount <= greatest)
}

// Whether there is one amount a place, none of them above the greatest.
pub(crate) fn are_one_a_place(amounts: &[u64], places: usize, greatest: u64) -> bool
    ensures { IsTrue result
        ↔ ((length amounts.now ≡ places) × All (λ amount. amount ≤ greatest) amounts.now) }
{
    amounts.len() == places && are_at_most(amounts, greatest)
}
