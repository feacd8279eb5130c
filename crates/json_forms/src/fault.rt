// Why a text says no instance, and where.
ghost use Rattle.std.specs.Prelude.{◌≡◌, IfOk, IfErr};
ghost use Rattle.json_forms.specs.Faults.{top_key, fault_of_key, IsKeyErr, item_key, at_item, item_err};

use demand_law::LawFault;
use fraction128::{Memory, Text};
use std::alloc::{AllocError, AllocFailed, Global};

/// The list that a key's object stands in.
#[derive(Clone, Copy, Debug, PartialEq, Eq)]
pub enum KeyList {
    /// The instance itself.
    Top,
    /// The nodes of a network.
    Nodes,
    /// The pauses of a network.
    Pauses,
}

/// A key of an instance.
#[derive(Drop)]
pub struct Key {
    pub list: KeyList,
    /// The place of the key's object in its list, from 1, or 0 at the top.
    pub item: u32,
    /// The key as it stands in the text.
    pub name: Text,
}

/// Why a text says no instance.
#[derive(Drop)]
pub enum InstanceFault {
    /// The bytes are no JSON.
    NotJson,
    /// The value isn't an object with the name of a kind.
    UnknownKind,
    /// A required key is absent.
    Missing(Key),
    /// A key isn't one of the kind's.
    UnknownKey(Key),
    /// A key's value has another shape than it must have.
    WrongType(Key),
    /// A number or a word of a key's value isn't one of those allowed.
    OutOfRange(Key),
    /// A list has another length than it must have.
    LengthMismatch(Key),
    /// The numbers of a law make none.
    BadLaw(Key, LawFault),
    /// Ordering before this period, the first of the kind, is cheaper than ordering in it.
    Speculative(u32),
    /// All weight is on demand 0.
    NoDemand,
    /// A policy of lots is asked for a demand that isn't 0 or 1.
    NotUnitDemand,
    /// The grid of positions is too large.
    Grid,
    /// The first node, from 1, that breaks the shape of a network.
    NetworkShape(u32),
    /// The first pause, from 1, that shares a period with an earlier one.
    Overlap(u32),
    /// The first node, from 1, whose totals may grow too large.
    Load(u32),
    /// The exact numbers of a solution could be too wide.
    Width,
}

/// Why no instance was read.
#[derive(Drop)]
pub enum InstanceErr {
    /// The text says no instance.
    Bad(InstanceFault),
    /// Memory was refused.
    Memory,
}

/// What is wrong with the value of a key.
#[derive(Clone, Copy, Debug, PartialEq, Eq)]
pub enum FieldFault {
    /// It has another shape than it must have.
    WrongType,
    /// A number or a word of it isn't one of those allowed.
    OutOfRange,
    /// A list of it has another length than it must have.
    LengthMismatch,
    /// The numbers of a law make none.
    BadLaw(LawFault),
}

/// Why the value of a key wasn't read.
#[derive(Clone, Copy, Debug, PartialEq, Eq)]
pub enum FieldErr {
    /// Something is wrong with it.
    Bad(FieldFault),
    /// Memory was refused.
    Memory,
}

impl From<AllocError> for FieldErr {
    ghost use Rattle.json_forms.specs.declared.fault.FieldErr.TheVariants.{Memory};

    ghost from_gives = { λ _ e. e ≡ Memory };

    fn from(_refused: AllocError) -> FieldErr {
        FieldErr::Memory
    }
}

impl<T: Drop> From<AllocFailed<T>> for FieldErr {
    ghost use Rattle.json_forms.specs.declared.fault.FieldErr.TheVariants.{Memory};

    ghost from_gives = { λ _ e. e ≡ Memory };

    fn from(_refused: AllocFailed<T>) -> FieldErr {
        FieldErr::Memory
    }
}

impl From<FieldFault> for FieldErr {
    ghost use Rattle.json_forms.specs.declared.fault.FieldErr.TheVariants.{Bad};

    ghost from_gives = { λ fault e. e ≡ Bad fault };

    fn from(fault: FieldFault) -> FieldErr {
        FieldErr::Bad(fault)
    }
}

impl From<Memory> for FieldErr {
    ghost use Rattle.json_forms.specs.declared.fault.FieldErr.TheVariants.{Memory};

    ghost from_gives = { λ _ e. e ≡ Memory };

    fn from(_refused: Memory) -> FieldErr {
        FieldErr::Memory
    }
}

impl From<AllocError> for InstanceErr {
    ghost use Rattle.json_forms.specs.declared.fault.InstanceErr.TheVariants.{Memory};

    ghost from_gives = { λ _ e. e ≡ Memory };

    fn from(_refused: AllocError) -> InstanceErr {
        InstanceErr::Memory
    }
}

impl From<Memory> for InstanceErr {
    ghost use Rattle.json_forms.specs.declared.fault.InstanceErr.TheVariants.{Memory};

    ghost from_gives = { λ _ e. e ≡ Memory };

    fn from(_refused: Memory) -> InstanceErr {
        InstanceErr::Memory
    }
}

// A key of the instance itself.
pub fn top_key(alloc: Global, name: &str) -> Result<Key, InstanceErr>
    ensures ok { IfOk result (λ key. key ≡ top_key name.now) }
    ensures err { IfErr result (λ e. e ≡ InstanceErr.Memory) }
{
    let mut text = Text::new(alloc);
    text.push(name.as_bytes())?;
    Ok(Key {
        list: KeyList::Top,
        item: 0,
        name: text,
    })
}

// What is wrong with the value of a key, with the key.
fn fault_of_key(key: Key, fault: FieldFault) -> InstanceFault
    ensures { result ≡ fault_of_key key fault }
{
    match fault {
        FieldFault::WrongType => InstanceFault::WrongType(key),
        FieldFault::OutOfRange => InstanceFault::OutOfRange(key),
        FieldFault::LengthMismatch => InstanceFault::LengthMismatch(key),
        FieldFault::BadLaw(law_fault) => InstanceFault::BadLaw(key, law_fault),
    }
}

// The refusal for the value of a key.
pub fn key_err(alloc: Global, name: &str, error: FieldErr) -> InstanceErr
    ensures { IsKeyErr name.now error result }
{
    match error {
        FieldErr::Memory => InstanceErr::Memory,
        FieldErr::Bad(fault) => match top_key(alloc, name) {
            Ok(key) => InstanceErr::Bad(fault_of_key(key, fault)),
            Err(refused) => refused,
        },
    }
}

// The key of an item, whose place is from 1.
fn item_key(list: KeyList, place: u32, key: Key) -> Key
    ensures { result ≡ item_key list place key }
{
    Key {
        list,
        item: place,
        name: key.name,
    }
}

// A fault of a key, told of the item that has the key.
fn at_item(list: KeyList, place: u32, fault: InstanceFault) -> InstanceFault
    ensures { result ≡ at_item list place fault }
{
    match fault {
        InstanceFault::Missing(key) => InstanceFault::Missing(item_key(list, place, key)),
        InstanceFault::UnknownKey(key) => InstanceFault::UnknownKey(item_key(list, place, key)),
        InstanceFault::WrongType(key) => InstanceFault::WrongType(item_key(list, place, key)),
        InstanceFault::OutOfRange(key) => InstanceFault::OutOfRange(item_key(list, place, key)),
        InstanceFault::LengthMismatch(key) => {
            InstanceFault::LengthMismatch(item_key(list, place, key))
        }
        InstanceFault::BadLaw(key, law_fault) => {
            InstanceFault::BadLaw(item_key(list, place, key), law_fault)
        }
        fault => fault,
    }
}

// The refusal of an item.
pub fn item_err(list: KeyList, place: u32, error: InstanceErr) -> InstanceErr
    ensures { result ≡ item_err list place error }
{
    match error {
        InstanceErr::Bad(fault) => InstanceErr::Bad(at_item(list, place, fault)),
        InstanceErr::Memory => InstanceErr::Memory,
    }
}
