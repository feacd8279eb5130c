// Laws of demand in JSON values: their shape, the range of their numbers, and the law itself.
ghost use Rattle.std.specs.Prelude.{◌≡◌, ◌≤◌, Some, None, Ok, Err, map, length, sum, option_map, IfOk, OnOk, IfErr, MatchResult};
ghost use Rattle.std.specs.List.{list_all};
ghost use Rattle.serde_json.specs.View.{view};
ghost use Rattle.serde_json.specs.Find.{at, as_object};
ghost use Rattle.json_forms.specs.Steps.{each};
ghost use Rattle.json_forms.specs.Faults.{GivesField};
ghost use Rattle.json_forms.specs.LawTexts.{passes, is_tuple, key_count, law_text, text_passes, is_law, number_of, point_in, points_made, uniform_made, binomial_made, text_made, law_of, made_answer};

use crate::fault::{FieldErr, FieldFault};
use crate::numbers::{amount_of, count_of, is_whole, items};
use demand_law::{Law, LawErr};
use serde_json::Value;
use std::alloc::Global;

/// The greatest number of a law's text.
pub const MOST_WORD: u32 = 4_294_967_295;

/// How a law is given.
#[derive(Clone, Copy)]
pub enum LawForm {
    /// Pairs of a demand and its weight.
    Points,
    /// The least and the greatest of demands of weight 1.
    Uniform,
    /// How many trials there are, and how many of how many succeed.
    Binomial,
}

/// Which numbers a value may have.
#[derive(Clone, Copy)]
pub enum NumberTest {
    /// Any whole number.
    Whole,
    /// A whole number from 0 to 4,294,967,295.
    Word,
}

/// The form of a law, and the value that stands under it.
#[derive(Clone, Copy)]
pub struct LawText<'a> {
    form: LawForm,
    value: &'a Value,
}

fn passes(test: NumberTest, value: &Value) -> bool
    ensures { result ≡ passes test (view value.now) }
{
    match test {
        NumberTest::Whole => is_whole(value),
        NumberTest::Word => amount_of(value, 0, u64::from(MOST_WORD)).is_ok(),
    }
}

fn all_pass(test: NumberTest, list: &[Value]) -> bool
    ensures { result ≡ list_all (passes test) (map view list.now) }
{
    for value in list {
        if !passes(test, value) {
            return false;
        }
    }
    true
}

/// Whether a value is a list of this many numbers.
pub fn is_tuple(test: NumberTest, places: usize, value: &Value) -> bool
    ensures { result ≡ is_tuple test places (view value.now) }
{
    let Some(list) = items(value) else {
        return false;
    };
    if list.len() != places {
        return false;
    }
    all_pass(test, list)
}

fn are_pairs(test: NumberTest, list: &[Value]) -> bool
    ensures { result ≡ list_all (is_tuple test 2) (map view list.now) }
{
    for value in list {
        if !is_tuple(test, 2, value) {
            return false;
        }
    }
    true
}

// How many keys an object has, 0 for any other value.
pub fn count_keys(value: &Value) -> usize
    ensures { result ≡ key_count (as_object (view value.now)) }
{
    match value.as_object() {
        Some(members) => members.len(),
        None => 0,
    }
}

// The form of a law, and the value under the only key.
fn law_text(value: &Value) -> Option<LawText<'_>>
    ensures { option_map (λ text. (text.form, view text.value.now)) result ≡ law_text (view value.now) }
{
    if count_keys(value) != 1 {
        return None;
    }
    if let Some(points) = value.get("points") {
        return Some(LawText {
            form: LawForm::Points,
            value: points,
        });
    }
    if let Some(ends) = value.get("uniform") {
        return Some(LawText {
            form: LawForm::Uniform,
            value: ends,
        });
    }
    if let Some(trials) = value.get("binomial") {
        return Some(LawText {
            form: LawForm::Binomial,
            value: trials,
        });
    }
    None
}

// Points are pairs of numbers, a uniform law has two numbers, a binomial law three.
fn text_passes(test: NumberTest, text: LawText<'_>) -> bool
    ensures { result ≡ text_passes test (Some (text.entry.form, view text.entry.value.now)) }
{
    match text.form {
        LawForm::Points => match items(text.value) {
            Some(list) => are_pairs(test, list),
            None => false,
        },
        LawForm::Uniform => is_tuple(test, 2, text.value),
        LawForm::Binomial => is_tuple(test, 3, text.value),
    }
}

/// Whether a value has the shape of a law whose numbers pass.
pub fn is_law(test: NumberTest, value: &Value) -> bool
    ensures { result ≡ is_law test (view value.now) }
{
    match law_text(value) {
        Some(text) => text_passes(test, text),
        None => false,
    }
}

// A number of a list.
fn number(value: &Value, place: usize) -> Result<u32, FieldFault>
    ensures { result ≡ number_of (at place (view value.now)) }
{
    match value.get(place) {
        Some(number) => count_of(number, 0, MOST_WORD),
        None => Err(FieldFault::WrongType),
    }
}

// A demand and its weight.
fn point(value: &Value) -> Result<(u32, u32), FieldFault>
    ensures { result ≡ point_in (view value.now) }
{
    let demand = number(value, 0)?;
    let weight = number(value, 1)?;
    Ok((demand, weight))
}

fn points(alloc: Global, list: &[Value]) -> Result<Vec<(u32, u32)>, FieldErr>
    ensures ok { IfOk result (λ points. each point_in (map view list.now) ≡ Ok points.items) }
    ensures err { IfErr result (λ e. GivesField (Err e) (each point_in (map view list.now))) }
{
    let mut points = Vec::new(alloc);
    for value in list {
        let each = point(value)?;
        points.push(each)?;
    }
    Ok(points)
}

// What a maker of laws answers, as the answer of a field's reader.
pub fn made(law: Result<Law, LawErr>) -> Result<Law, FieldErr>
    ensures { result ≡ made_answer law }
{
    match law {
        Ok(law) => Ok(law),
        Err(LawErr::Bad(fault)) => Err(FieldErr::Bad(FieldFault::BadLaw(fault))),
        Err(LawErr::Memory) => Err(FieldErr::Memory),
    }
}

fn law_of_points(alloc: Global, value: &Value) -> Result<Law, FieldErr>
    ensures value { GivesField result (points_made (view value.now)) }
    ensures total { IfOk result (λ law. sum law ≤ 1000000000) }
    ensures short { IfOk result (λ law. length law ≤ 10001) }
{
    let Some(list) = items(value) else {
        return Err(FieldErr::Bad(FieldFault::WrongType));
    };
    let points = points(alloc, list)?;
    made(Law::from_points(alloc, points.as_slice()))
}

fn uniform_law(alloc: Global, value: &Value) -> Result<Law, FieldErr>
    ensures value { GivesField result (uniform_made (view value.now)) }
    ensures total { IfOk result (λ law. sum law ≤ 1000000000) }
    ensures short { IfOk result (λ law. length law ≤ 10001) }
{
    let lo = number(value, 0)?;
    let hi = number(value, 1)?;
    made(Law::uniform(alloc, lo, hi))
}

fn binomial_law(alloc: Global, value: &Value) -> Result<Law, FieldErr>
    ensures value { GivesField result (binomial_made (view value.now)) }
    ensures total { IfOk result (λ law. sum law ≤ 1000000000) }
    ensures short { IfOk result (λ law. length law ≤ 10001) }
{
    let n = number(value, 0)?;
    let a = number(value, 1)?;
    let b = number(value, 2)?;
    made(Law::binomial(alloc, n, a, b))
}

// The law of a form and its value.
fn law_of_text(alloc: Global, text: LawText<'_>) -> Result<Law, FieldErr>
    ensures value { GivesField result (text_made (Some (text.entry.form, view text.entry.value.now))) }
    ensures total { IfOk result (λ law. sum law ≤ 1000000000) }
    ensures short { IfOk result (λ law. length law ≤ 10001) }
{
    match text.form {
        LawForm::Points => law_of_points(alloc, text.value),
        LawForm::Uniform => uniform_law(alloc, text.value),
        LawForm::Binomial => binomial_law(alloc, text.value),
    }
}

/// The law that a value of the right shape says.
pub fn law_of(alloc: Global, value: &Value) -> Result<Law, FieldErr>
    ensures value { GivesField result (law_of (view value.now)) }
    ensures total { IfOk result (λ law. sum law ≤ 1000000000) }
    ensures short { IfOk result (λ law. length law ≤ 10001) }
{
    match law_text(value) {
        Some(text) => law_of_text(alloc, text),
        None => Err(FieldErr::Bad(FieldFault::WrongType)),
    }
}
