// What the shapes of the solver's certificate are.
ghost use Rattle.std.specs.Prelude.{◌≡◌, ℕ, ◌≤◌, ℤ, pos, ◌+ℤ◌, ◌≤ℤ◌, ◌<ℤ◌, List, length, None};
ghost use Rattle.decision_model.specs.declared.finite.Finite.{Finite};
ghost use Rattle.decision_model.specs.Finite.{IsReadableFinite, finite_low};
ghost use Rattle.value_cert.specs.FiniteRules.{solved_finite, cells_of, cell_choice, finite_choices, HasEachRow};
ghost use Rattle.value_cert.specs.declared.finite.FiniteCell.{FiniteCell};
ghost use Rattle.value_cert.specs.declared.finite.FiniteCert.{FiniteCert};
ghost use Rattle.finite_ss.specs.Shapes.{shape_of, HasOneRowOf, IsPairOrNever, shape_choice};
ghost use Rattle.finite_ss.specs.ToldChoices.{FallFrom, told_choice};

/// A certificate that has each row has just one of each period, and the solver's has each row.
pub fn periods_have_one_row()
    ensures each { (finite : Finite) (c : FiniteCert) (t : ℕ) → HasEachRow finite c → 1 ≤ t → t ≤ finite.periods → HasOneRowOf t c.rows }
    ensures solved { (finite : Finite) → HasEachRow finite (solved_finite finite) }
{}

/// Where orders have no greatest size, each period of the solver's certificate has a pair that orders up or never orders,
/// after Scarf (1960), and that tells what its choice is at each position.
pub fn solved_rows_are_pairs()
    ensures shapes { (finite : Finite) (t : ℕ) → IsReadableFinite finite → finite.most ≡ None → 1 ≤ t → t ≤ finite.periods
        → IsPairOrNever (shape_of (cells_of (solved_finite finite).rows t)) }
    ensures choices { (finite : Finite) (t : ℕ) (x : ℤ) → IsReadableFinite finite → finite.most ≡ None → 1 ≤ t → t ≤ finite.periods
        → finite_low finite t ≤ℤ x → x ≤ℤ finite.cap
        → finite_choices (solved_finite finite) t x ≡ shape_choice (shape_of (cells_of (solved_finite finite).rows t)) x }
{}

/// The shape of cells of positions that go down one by one, of which none orders down, tells with the cells that order
/// the choice at each of the positions, whoever made them: so a printed period tells each order.
#[tactic(auto, using(crate::specs::ToldChoices::told_is))]
pub fn shapes_tell_choices()
    ensures { (highest : ℤ) (cells : List FiniteCell) (x : ℤ) → FallFrom highest cells → x ≤ℤ highest → highest <ℤ (x +ℤ pos (length cells))
        → told_choice (shape_of cells) cells x ≡ cell_choice cells x }
{}
