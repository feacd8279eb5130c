// Laws of demand, read from values and brought to one sum of weights.
ghost use Rattle.std.specs.Prelude.{◌≡◌, ◌≤◌, All, Some, None, Ok, Err, map, length, sum, IfOk, IfSome, MatchResult};
ghost use Rattle.std.specs.List.{list_all};
ghost use Rattle.serde_json.specs.View.{view};
ghost use Rattle.demand_law.specs.Named.{rescale_fault, rescaled_law};
ghost use Rattle.model_terms.specs.Limits.{most_total};
ghost use Rattle.model_terms.specs.DemandLaws.{IsDemandLaw, AreDemandLaws, common_total};
ghost use Rattle.json_forms.specs.Faults.{GivesField};
ghost use Rattle.json_forms.specs.LawTexts.{is_law, all_laws, law_in, made as made_of, common_sum, scaled_law, scaled_laws, one_law, laws_each, laws_in};

use crate::fault::{FieldErr, FieldFault};
use crate::form::Form;
use crate::law_texts::{NumberTest, is_law, law_of, made};
use crate::numbers::items;
use demand_law::Law;
use model_terms::Laws;
use serde_json::Value;
use std::alloc::Global;
use std::slice;

fn are_laws(test: NumberTest, list: &[Value]) -> bool
    ensures { result ≡ list_all (is_law test) (map view list.now) }
{
    for value in list {
        if !is_law(test, value) {
            return false;
        }
    }
    true
}

// All values have the shape of laws, and then all their numbers are in range.
fn check_laws(list: &[Value]) -> Result<(), FieldFault>
    ensures { MatchResult result
        (λ _. all_laws (map view list.now) ≡ Ok (map view list.now))
        (λ fault. all_laws (map view list.now) ≡ Err fault) }
{
    if !are_laws(NumberTest::Whole, list) {
        return Err(FieldFault::WrongType);
    }
    if !are_laws(NumberTest::Word, list) {
        return Err(FieldFault::OutOfRange);
    }
    Ok(())
}

// The law that a value says.
pub fn law(alloc: Global, value: &Value) -> Result<Law, FieldErr>
    ensures value { GivesField result (law_in (view value.now)) }
    ensures demand { IfOk result IsDemandLaw }
{
    let one = slice::from_ref(value);
    check_laws(one)?;
    let law = law_of(alloc, value)?;
    prove!(!law.weights().is_empty());
    Ok(law)
}

// The sum that all laws get: the stated total, or the sum of the first law.
fn common_sum(total: Option<u32>, law: &Law) -> u32
    requires stated { IfSome total (λ n. 1 ≤ n) }
    requires within { IfSome total (λ n. n ≤ 1000000000) }
    requires fits { sum law.now ≤ 1000000000 }
    ensures value { result ≡ common_sum total law.now }
    ensures some { 1 ≤ result }
    ensures most { result ≤ 1000000000 }
    ensures keeps { IfSome total (λ n. result ≡ n) }
{
    match total {
        Some(total) => total,
        None => sum_of(law),
    }
}

// The sum of a law's weights.
fn sum_of(law: &Law) -> u32
    requires { sum law.now ≤ 1000000000 }
    ensures value { result ≡ sum law.now }
    ensures some { 1 ≤ result }
{
    let weights = law.weights();
    weights.iter().sum::<u128>() as u32
}

// A law at another sum of weights.
fn rescaled(alloc: Global, law: &Law, total: u32) -> Result<Law, FieldErr>
    requires some { 1 ≤ total }
    requires most { total ≤ 1000000000 }
    ensures value { GivesField result (made_of (rescale_fault law.now total) (rescaled_law law.now total)) }
    ensures total { IfOk result (λ multiple. sum multiple ≡ total) }
    ensures short { IfOk result (λ multiple. length multiple ≡ length law.now) }
{
    made(Law::rescale(alloc, law, total))
}

// A law at the common sum, and that sum.
fn scaled_law(alloc: Global, value: &Value, total: Option<u32>) -> Result<(Law, u32), FieldErr>
    requires stated { IfSome total (λ n. 1 ≤ n) }
    requires within { IfSome total (λ n. n ≤ 1000000000) }
    ensures value { GivesField result (scaled_law total (view value.now)) }
    ensures some { IfOk result (λ scaled. 1 ≤ scaled.1) }
    ensures most { IfOk result (λ scaled. scaled.1 ≤ 1000000000) }
    ensures keeps { IfOk result (λ scaled. IfSome total (λ n. scaled.1 ≡ n)) }
    ensures sum { IfOk result (λ scaled. sum scaled.0 ≡ scaled.1) }
    ensures demand { IfOk result (λ scaled. IsDemandLaw scaled.0) }
{
    let law = law_of(alloc, value)?;
    let sum = common_sum(total, &law);
    let scaled = rescaled(alloc, &law, sum)?;
    prove!(!scaled.weights().is_empty());
    Ok((scaled, sum))
}

// The laws from first to last, each at the common sum.
fn scaled_laws(alloc: Global, list: &[Value], total: Option<u32>) -> Result<Laws, FieldErr>
    requires stated { IfSome total (λ n. 1 ≤ n) }
    requires within { IfSome total (λ n. n ≤ 1000000000) }
    ensures value { GivesField result (scaled_laws total (map view list.now)) }
    ensures each { IfOk result (All IsDemandLaw) }
    ensures common { IfOk result (λ laws. All (λ law. sum law ≡ common_total laws) laws) }
    ensures places { IfOk result (λ laws. length laws ≡ length list.now) }
{
    let mut laws = Vec::new(alloc);
    let mut common = total;
    for value in list {
        let (law, sum) = scaled_law(alloc, value, common)?;
        laws.push(law)?;
        common = Some(sum);
    }
    Ok(Laws::new(laws))
}

// One law, which serves every place.
fn one_law(alloc: Global, value: &Value, total: Option<u32>) -> Result<Laws, FieldErr>
    requires stated { IfSome total (λ n. 1 ≤ n) }
    requires within { IfSome total (λ n. n ≤ 1000000000) }
    ensures value { GivesField result (one_law total (view value.now)) }
    ensures demand { IfOk result (λ laws. AreDemandLaws laws 1) }
{
    let one = slice::from_ref(value);
    check_laws(one)?;
    scaled_laws(alloc, one, total)
}

// One law a place.
fn law_each(
    alloc: Global,
    list: &[Value],
    places: usize,
    total: Option<u32>,
) -> Result<Laws, FieldErr>
    requires stated { IfSome total (λ n. 1 ≤ n) }
    requires within { IfSome total (λ n. n ≤ 1000000000) }
    ensures value { GivesField result (laws_each places total (map view list.now)) }
    ensures demand { IfOk result (λ laws. AreDemandLaws laws places) }
{
    check_laws(list)?;
    if list.len() != places {
        return Err(FieldErr::Bad(FieldFault::LengthMismatch));
    }
    scaled_laws(alloc, list, total)
}

fn laws(alloc: Global, value: &Value, places: usize, total: Option<u32>) -> Result<Laws, FieldErr>
    requires stated { IfSome total (λ n. 1 ≤ n) }
    requires within { IfSome total (λ n. n ≤ 1000000000) }
    ensures value { GivesField result (laws_in places total (view value.now)) }
    ensures demand { IfOk result (λ laws. AreDemandLaws laws places) }
{
    match items(value) {
        Some(list) => law_each(alloc, list, places, total),
        None => one_law(alloc, value, total),
    }
}

/// A law of demand.
#[derive(Clone, Copy)]
pub struct DemandLaw;

impl Form for DemandLaw {
    ghost use Rattle.std.specs.Prelude.{⊤};

    type Out = Law;

    ghost reading = { λ _. law_in };

    ghost ready = { λ _. ⊤ };

    ghost holds = { λ _. IsDemandLaw };

    fn read(&self, alloc: Global, value: &Value) -> Result<Law, FieldErr> {
        law(alloc, value)
    }
}

/// One law, which serves every place, or one a place, all at one sum of weights: the total, or that of the first law.
#[derive(Clone, Copy)]
pub struct DemandLaws {
    pub places: usize,
    pub total: Option<u32>,
}

impl Form for DemandLaws {
    type Out = Laws;

    ghost reading = { λ form. laws_in form.places form.total };

    ghost ready = { λ form. IfSome form.total (λ n. (1 ≤ n) × (n ≤ most_total)) };

    ghost holds = { λ form laws. AreDemandLaws laws form.places };

    fn read(&self, alloc: Global, value: &Value) -> Result<Laws, FieldErr> {
        laws(alloc, value, self.places, self.total)
    }
}
