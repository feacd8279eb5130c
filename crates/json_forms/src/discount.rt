// Discounts.
ghost use Rattle.std.specs.Prelude.{◌≡◌, ◌≤◌, IfOk};
ghost use Rattle.serde_json.specs.View.{view};
ghost use Rattle.serde_json.specs.Find.{at};
ghost use Rattle.model_terms.specs.Rates.{IsDiscount};
ghost use Rattle.json_forms.specs.Discounts.{part_of, discount_in};

use crate::fault::{FieldErr, FieldFault};
use crate::form::Form;
use crate::law_texts::{NumberTest, is_tuple};
use crate::numbers::count_of;
use model_terms::limits::MOST_DISCOUNT;
use serde_json::Value;
use std::alloc::Global;

fn part(value: &Value, place: usize, most: u32) -> Result<u32, FieldFault>
    ensures value { result ≡ part_of most (at place (view value.now)) }
    ensures least { IfOk result (λ number. 1 ≤ number) }
    ensures most { IfOk result (λ number. number ≤ most) }
{
    match value.get(place) {
        Some(number) => count_of(number, 1, most),
        None => Err(FieldFault::WrongType),
    }
}

// The numbers a and b of a discount a/b.
fn discount_of(value: &Value) -> Result<(u32, u32), FieldFault>
    ensures value { result ≡ discount_in (view value.now) }
    ensures range { IfOk result (λ ratio. IsDiscount ratio.0 ratio.1) }
{
    if !is_tuple(NumberTest::Whole, 2, value) {
        return Err(FieldFault::WrongType);
    }
    let den = part(value, 1, MOST_DISCOUNT)?;
    let num = part(value, 0, den)?;
    Ok((num, den))
}

/// A discount a/b, as the list of a and b.
#[derive(Clone, Copy)]
pub struct Discount;

impl Form for Discount {
    ghost use Rattle.std.specs.Prelude.{⊤};

    type Out = (u32, u32);

    ghost reading = { λ _. discount_in };

    ghost ready = { λ _. ⊤ };

    ghost holds = { λ _ ratio. IsDiscount ratio.0 ratio.1 };

    fn read(&self, _alloc: Global, value: &Value) -> Result<(u32, u32), FieldErr> {
        let ratio = discount_of(value)?;
        Ok(ratio)
    }
}
