// Whole numbers and lists of them.
ghost use Rattle.std.specs.Prelude.{◌≡◌, ◌≤◌, length, map, All, Ok, Err, IfOk, IfErr, MatchResult, option_map, replicate};
ghost use Rattle.std.specs.List.{list_all};
ghost use Rattle.serde_json.specs.View.{view};
ghost use Rattle.model_terms.specs.Positions.{IsPosition, IsCap};
ghost use Rattle.json_forms.specs.Steps.{each};
ghost use Rattle.json_forms.specs.Faults.{Gives, GivesField};
ghost use Rattle.json_forms.specs.Keys.{optional};
ghost use Rattle.json_forms.specs.Numbers.{is_whole, items_in, all_whole, amount_in, position_in, cap_in, amounts_in, positions_in, of_length_within, some_amounts_in, start_positions_in, rates_in};

use crate::fault::{FieldErr, FieldFault, InstanceErr};
use crate::form::{Form, given};
use model_terms::limits::{
    LEAST_POSITION, MOST_CAP, MOST_PERIODS, MOST_POSITION, MOST_RATE, MOST_TOTAL,
};
use model_terms::{Amounts, Positions};
use serde_json::Value;
use std::alloc::Global;

// A number without fraction or exponent that fits 64 bits.
pub fn is_whole(value: &Value) -> bool
    ensures { result ≡ is_whole (view value.now) }
{
    value.is_i64() || value.is_u64()
}

// A whole number from `least` to `most`.
pub fn amount_of(value: &Value, least: u64, most: u64) -> Result<u64, FieldFault>
    ensures value { result ≡ amount_in least most (view value.now) }
    ensures least { IfOk result (λ number. least ≤ number) }
    ensures most { IfOk result (λ number. number ≤ most) }
{
    if !is_whole(value) {
        return Err(FieldFault::WrongType);
    }
    let Some(number) = value.as_u64() else {
        return Err(FieldFault::OutOfRange);
    };
    if number < least {
        return Err(FieldFault::OutOfRange);
    }
    if number > most {
        return Err(FieldFault::OutOfRange);
    }
    Ok(number)
}

// A whole number from `least` to `most`.
pub fn count_of(value: &Value, least: u32, most: u32) -> Result<u32, FieldFault>
    ensures value { result ≡ amount_in least most (view value.now) }
    ensures least { IfOk result (λ number. least ≤ number) }
    ensures most { IfOk result (λ number. number ≤ most) }
{
    let number = amount_of(value, u64::from(least), u64::from(most))?;
    Ok(number as u32)
}

// A whole number from -1,000,000 to 1,000,000.
pub fn position_of(value: &Value) -> Result<i64, FieldFault>
    ensures value { result ≡ position_in (view value.now) }
    ensures range { IfOk result IsPosition }
{
    if !is_whole(value) {
        return Err(FieldFault::WrongType);
    }
    let Some(number) = value.as_i64() else {
        return Err(FieldFault::OutOfRange);
    };
    if number < LEAST_POSITION {
        return Err(FieldFault::OutOfRange);
    }
    if number > MOST_POSITION {
        return Err(FieldFault::OutOfRange);
    }
    Ok(number)
}

// A whole number from 0 to 1,000,000.
fn cap_of(value: &Value) -> Result<i64, FieldFault>
    ensures value { result ≡ cap_in (view value.now) }
    ensures range { IfOk result IsCap }
{
    let number = amount_of(value, 0, MOST_CAP)?;
    Ok(number as i64)
}

// Whether all items are whole numbers.
fn are_whole(list: &[Value]) -> bool
    ensures { result ≡ list_all is_whole (map view list.now) }
{
    for value in list {
        if !is_whole(value) {
            return false;
        }
    }
    true
}

fn listed_amounts(alloc: Global, list: &[Value], most: u64) -> Result<Amounts, FieldErr>
    ensures value { GivesField result (each (amount_in 0 most) (map view list.now)) }
    ensures range { IfOk result (All (λ number. number ≤ most)) }
{
    let mut numbers = Vec::new(alloc);
    for value in list {
        let number = amount_of(value, 0, most)?;
        numbers.push(number)?;
    }
    Ok(Amounts::new(numbers))
}

fn listed_positions(alloc: Global, list: &[Value]) -> Result<Positions, FieldErr>
    ensures value { GivesField result (each position_in (map view list.now)) }
    ensures range { IfOk result (All IsPosition) }
{
    let mut numbers = Vec::new(alloc);
    for value in list {
        let number = position_of(value)?;
        numbers.push(number)?;
    }
    Ok(Positions::new(numbers))
}

// The items of a list.
pub fn items(value: &Value) -> Option<&[Value]>
    ensures { option_map (λ list. map view list.now) result ≡ items_in (view value.now) }
{
    match value.as_array() {
        Some(list) => Some(list.as_slice()),
        None => None,
    }
}

// The items of a list of whole numbers.
pub fn whole_items(value: &Value) -> Result<&[Value], FieldFault>
    ensures { MatchResult result
        (λ list. all_whole (items_in (view value.now)) ≡ Ok (map view list.now))
        (λ fault. all_whole (items_in (view value.now)) ≡ Err fault) }
{
    let Some(list) = items(value) else {
        return Err(FieldFault::WrongType);
    };
    if !are_whole(list) {
        return Err(FieldFault::WrongType);
    }
    Ok(list)
}

// A list of whole numbers from 0 to `most`.
fn amounts(alloc: Global, value: &Value, most: u64) -> Result<Amounts, FieldErr>
    ensures value { GivesField result (amounts_in most (view value.now)) }
    ensures range { IfOk result (All (λ number. number ≤ most)) }
{
    let list = whole_items(value)?;
    listed_amounts(alloc, list, most)
}

// A list of positions.
fn positions(alloc: Global, value: &Value) -> Result<Positions, FieldErr>
    ensures value { GivesField result (positions_in (view value.now)) }
    ensures range { IfOk result (All IsPosition) }
{
    let list = whole_items(value)?;
    listed_positions(alloc, list)
}

// A list of amounts whose length is from `least` to `most`.
fn of_length_within(list: Amounts, least: usize, most: usize) -> Result<Amounts, FieldErr>
    ensures value { GivesField result (of_length_within least most list) }
    ensures same { IfOk result (λ kept. kept ≡ list) }
    ensures least { IfOk result (λ kept. least ≤ length kept) }
    ensures most { IfOk result (λ kept. length kept ≤ most) }
{
    let places = list.as_slice().len();
    if places < least {
        return Err(FieldErr::Bad(FieldFault::LengthMismatch));
    }
    if places > most {
        return Err(FieldErr::Bad(FieldFault::LengthMismatch));
    }
    Ok(list)
}

// A list of amounts from 0 to `most_each`, as many as from `least` to `most`.
fn some_amounts(
    alloc: Global,
    value: &Value,
    most_each: u64,
    least: usize,
    most: usize,
) -> Result<Amounts, FieldErr>
    ensures value { GivesField result (some_amounts_in most_each least most (view value.now)) }
    ensures range { IfOk result (All (λ number. number ≤ most_each)) }
    ensures least { IfOk result (λ list. least ≤ length list) }
    ensures most { IfOk result (λ list. length list ≤ most) }
{
    let list = amounts(alloc, value, most_each)?;
    of_length_within(list, least, most)
}

// One position a place.
fn start_positions(alloc: Global, value: &Value, places: usize) -> Result<Positions, FieldErr>
    ensures value { GivesField result (start_positions_in places (view value.now)) }
    ensures range { IfOk result (All IsPosition) }
    ensures places { IfOk result (λ list. length list ≡ places) }
{
    let list = positions(alloc, value)?;
    if list.as_slice().len() != places {
        return Err(FieldErr::Bad(FieldFault::LengthMismatch));
    }
    Ok(list)
}

// One rate from 0 to `most` a place, or one that serves every place.
fn rates_of(alloc: Global, value: &Value, most: u64, places: usize) -> Result<Amounts, FieldErr>
    ensures value { GivesField result (rates_in most places (view value.now)) }
    ensures range { IfOk result (All (λ rate. rate ≤ most)) }
    ensures places { IfOk result (λ list. length list ≡ places) }
{
    if value.is_array() {
        return some_amounts(alloc, value, most, places, places);
    }
    let rate = amount_of(value, 0, most)?;
    let items = vec![in alloc; rate; places]?;
    Ok(Amounts::new(items))
}

/// A whole number in a range.
#[derive(Clone, Copy)]
pub struct Amount {
    pub least: u64,
    pub most: u64,
}

impl Form for Amount {
    ghost use Rattle.std.specs.Prelude.{⊤};

    type Out = u64;

    ghost reading = { λ form. amount_in form.least form.most };

    ghost ready = { λ _. ⊤ };

    ghost holds = { λ form. (λ number. (form.least ≤ number) × (number ≤ form.most)) };

    fn read(&self, _alloc: Global, value: &Value) -> Result<u64, FieldErr> {
        let number = amount_of(value, self.least, self.most)?;
        Ok(number)
    }
}

/// A cost rate per unit.
pub const RATE: Amount = Amount {
    least: 0,
    most: MOST_RATE,
};

/// A small whole number in a range.
#[derive(Clone, Copy)]
pub struct Count {
    pub least: u32,
    pub most: u32,
}

impl Form for Count {
    ghost use Rattle.std.specs.Prelude.{⊤};

    type Out = u32;

    ghost reading = { λ form. amount_in form.least form.most };

    ghost ready = { λ _. ⊤ };

    ghost holds = { λ form. (λ number. (form.least ≤ number) × (number ≤ form.most)) };

    fn read(&self, _alloc: Global, value: &Value) -> Result<u32, FieldErr> {
        let number = count_of(value, self.least, self.most)?;
        Ok(number)
    }
}

/// The periods of a horizon of uncertain demand.
pub const PERIODS: Count = Count {
    least: 1,
    most: MOST_PERIODS,
};

/// The sum of weights that all laws get.
pub const TOTAL: Count = Count {
    least: 1,
    most: MOST_TOTAL,
};

/// A position.
#[derive(Clone, Copy)]
pub struct Position;

impl Form for Position {
    ghost use Rattle.std.specs.Prelude.{⊤};

    type Out = i64;

    ghost reading = { λ _. position_in };

    ghost ready = { λ _. ⊤ };

    ghost holds = { λ _. IsPosition };

    fn read(&self, _alloc: Global, value: &Value) -> Result<i64, FieldErr> {
        let number = position_of(value)?;
        Ok(number)
    }
}

/// A cap, from 0.
#[derive(Clone, Copy)]
pub struct Cap;

impl Form for Cap {
    ghost use Rattle.std.specs.Prelude.{⊤};

    type Out = i64;

    ghost reading = { λ _. cap_in };

    ghost ready = { λ _. ⊤ };

    ghost holds = { λ _. IsCap };

    fn read(&self, _alloc: Global, value: &Value) -> Result<i64, FieldErr> {
        let number = cap_of(value)?;
        Ok(number)
    }
}

/// A list of numbers from 0 to `most_each`, as many as from `least` to `most`.
#[derive(Clone, Copy)]
pub struct SomeAmounts {
    pub most_each: u64,
    pub least: usize,
    pub most: usize,
}

impl Form for SomeAmounts {
    ghost use Rattle.std.specs.Prelude.{⊤};

    type Out = Amounts;

    ghost reading = { λ form. some_amounts_in form.most_each form.least form.most };

    ghost ready = { λ _. ⊤ };

    ghost holds = { λ form. (λ list. All (λ number. number ≤ form.most_each) list × (form.least ≤ length list) × (length list ≤ form.most)) };

    fn read(&self, alloc: Global, value: &Value) -> Result<Amounts, FieldErr> {
        some_amounts(alloc, value, self.most_each, self.least, self.most)
    }
}

/// One position a place.
#[derive(Clone, Copy)]
pub struct StartPositions {
    pub places: usize,
}

impl Form for StartPositions {
    ghost use Rattle.std.specs.Prelude.{⊤};

    type Out = Positions;

    ghost reading = { λ form. start_positions_in form.places };

    ghost ready = { λ _. ⊤ };

    ghost holds = { λ form. (λ list. All IsPosition list × (length list ≡ form.places)) };

    fn read(&self, alloc: Global, value: &Value) -> Result<Positions, FieldErr> {
        start_positions(alloc, value, self.places)
    }
}

/// One rate from 0 to `most` a place, or one that serves every place.
#[derive(Clone, Copy)]
pub struct Rates {
    pub most: u64,
    pub places: usize,
}

impl Form for Rates {
    ghost use Rattle.std.specs.Prelude.{⊤};

    type Out = Amounts;

    ghost reading = { λ form. rates_in form.most form.places };

    ghost ready = { λ _. ⊤ };

    ghost holds = { λ form. (λ list. All (λ rate. rate ≤ form.most) list × (length list ≡ form.places)) };

    fn read(&self, alloc: Global, value: &Value) -> Result<Amounts, FieldErr> {
        rates_of(alloc, value, self.most, self.places)
    }
}

// A rate of 0 a place.
fn zeros(alloc: Global, places: usize) -> Result<Amounts, InstanceErr>
    ensures ok { IfOk result (λ rates. rates ≡ replicate places 0) }
    ensures err { IfErr result (λ e. e ≡ InstanceErr.Memory) }
{
    let rates = vec![in alloc; 0; places]?;
    Ok(Amounts::new(rates))
}

/// The rates under a key, or 0 a place where it is absent.
#[tactic(auto, using(crate::proofs::Chained::steps))]
pub fn rates_or_zero(
    alloc: Global,
    object: &Value,
    name: &str,
    form: Rates,
) -> Result<Amounts, InstanceErr>
    ensures value { Gives result (optional (rates_in form.most form.places) (replicate form.places 0) name.now (view object.now)) }
    ensures range { IfOk result (All (λ rate. rate ≤ form.most)) }
    ensures places { IfOk result (λ list. length list ≡ form.places) }
{
    match given(alloc, object, name, form)? {
        Some(rates) => Ok(rates),
        None => zeros(alloc, form.places),
    }
}
