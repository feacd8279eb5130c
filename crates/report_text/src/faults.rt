// The messages of refusals.
ghost use Rattle.std.specs.Prelude.{◌≡◌, ◌++◌, OnOk, IfOk, decimal};
ghost use Rattle.report_text.specs.Messages.{instance_fault, fault_message, fault_words, instance_words, key_words, place_words, law_words, word_words, rule_words};

use crate::pieces::{push_both, push_number, push_numbered};
use decision_model::Kind;
use demand_law::LawFault;
use fraction128::{Memory, Text};
use json_forms::{InstanceErr, InstanceFault, Key, KeyList};
use network_sim::RuleOver;
use std::alloc::Global;

/// Why a run doesn't end with its text, as standard error tells it.
#[derive(Drop)]
pub enum Fault {
    /// There are no words.
    NoCommand,
    /// The first word is no command.
    UnknownCommand,
    /// The second word is no action of the part that the first word names.
    UnknownAction,
    /// The command needs a word at this place, from 1, where there is none.
    TooFew(u32),
    /// The command takes no word at this place.
    TooMany(u32),
    /// The word at this place is empty where a name is wanted.
    EmptyName(u32),
    /// The word at this place begins like an option.
    NoOption(u32),
    /// The word at this place is no number from 0 to 999,999.
    BadNumber(u32),
    /// The word at this place means standard input, as an earlier one does.
    TwoInputs(u32),
    /// There is no file of this name.
    MissingFile(Text),
    /// The instance has more bytes than an instance may have.
    TooLong,
    /// The input says no instance.
    Instance(InstanceFault),
    /// The command doesn't take instances of this kind.
    NotThisCommand(Kind),
    /// The input of this name failed; standard input's name is `-`.
    ReadFault(Text),
    /// The output failed.
    WriteFault,
    /// A node has the house rule of this index, which the caller didn't hand in.
    NoRule(u32),
    /// Two nodes have the house rule of this index.
    RuleShared(u32),
    /// The cap of the house rule of this index is larger than the cap that its node states.
    RuleCap(u32),
    /// A house rule answered more than its cap.
    RuleOver(RuleOver),
    /// Memory was refused.
    Memory,
}

// Appends the key of a fault, after its object's place where that isn't the instance itself.
fn push_key(out: &mut Text, key: &Key) -> Result<(), Memory>
    ensures { OnOk result (out.new ≡ out.old ++ key_words key.now) }
{
    push_place(out, key.list, key.item)?;
    out.push(key.name.bytes())
}

// Appends the place of an object in its list.
fn push_place(out: &mut Text, list: KeyList, item: u32) -> Result<(), Memory>
    ensures { OnOk result (out.new ≡ out.old ++ place_words list item) }
{
    match list {
        KeyList::Top => Ok(()),
        KeyList::Nodes => push_numbered(out, "nodes[", item, "]."),
        KeyList::Pauses => push_numbered(out, "pauses[", item, "]."),
    }
}

// Appends a key and what is wrong with it.
fn push_keyed(out: &mut Text, key: &Key, wrong: &str) -> Result<(), Memory>
    ensures { OnOk result (out.new ≡ out.old ++ (key_words key.now ++ wrong.now)) }
{
    push_key(out, key)?;
    out.push(wrong.as_bytes())
}

// Appends why numbers make no law.
fn push_law_fault(out: &mut Text, fault: LawFault) -> Result<(), Memory>
    ensures { OnOk result (out.new ≡ out.old ++ law_words fault) }
{
    match fault {
        LawFault::Empty => out.push(b"no points"),
        LawFault::Repeated(demand) => push_numbered(out, "demand ", demand, " twice"),
        LawFault::ZeroWeight(demand) => push_numbered(out, "demand ", demand, " has weight 0"),
        LawFault::TooLarge => out.push(b"too large"),
        LawFault::Disordered => out.push(b"out of order"),
        LawFault::NotMultiple => out.push(b"does not divide the total"),
    }
}

// Appends a key and why its numbers make no law.
fn push_bad_law(out: &mut Text, key: &Key, fault: LawFault) -> Result<(), Memory>
    ensures { OnOk result (out.new ≡ out.old ++ instance_words (InstanceFault.BadLaw key.now fault)) }
{
    push_keyed(out, key, ": law: ")?;
    push_law_fault(out, fault)
}

// Appends why a text says no instance.
fn push_instance_fault(out: &mut Text, fault: &InstanceFault) -> Result<(), Memory>
    ensures { OnOk result (out.new ≡ out.old ++ instance_words fault.now) }
{
    match fault {
        InstanceFault::NotJson => out.push(b"not JSON"),
        InstanceFault::UnknownKind => out.push(b"unknown kind"),
        InstanceFault::Missing(key) => push_keyed(out, key, ": missing"),
        InstanceFault::UnknownKey(key) => push_keyed(out, key, ": unknown key"),
        InstanceFault::WrongType(key) => push_keyed(out, key, ": wrong type"),
        InstanceFault::OutOfRange(key) => push_keyed(out, key, ": out of range"),
        InstanceFault::LengthMismatch(key) => push_keyed(out, key, ": wrong length"),
        InstanceFault::BadLaw(key, law_fault) => push_bad_law(out, key, *law_fault),
        InstanceFault::Speculative(period) => push_numbered(
            out,
            "period ",
            *period,
            ": speculative cost",
        ),
        InstanceFault::NoDemand => out.push(b"no demand"),
        InstanceFault::NotUnitDemand => out.push(b"demand is not 0 or 1"),
        InstanceFault::Grid => out.push(b"grid too large"),
        InstanceFault::NetworkShape(node) => push_numbered(out, "node ", *node, ": network shape"),
        InstanceFault::Overlap(pause) => push_numbered(out, "pause ", *pause, ": overlap"),
        InstanceFault::Load(node) => push_numbered(out, "node ", *node, ": load"),
        InstanceFault::Width => out.push(b"too wide"),
    }
}

// Appends that the command doesn't take the kind.
fn push_wrong_kind(out: &mut Text, kind: Kind) -> Result<(), Memory>
    ensures { OnOk result (out.new ≡ out.old ++ fault_words (Fault.NotThisCommand kind)) }
{
    push_both(
        out,
        "this command does not take kind ",
        kind.word().as_bytes(),
    )
}

// Appends what is wrong with the word at a place, from 1.
fn push_word(out: &mut Text, word: u32, wrong: &str) -> Result<(), Memory>
    ensures { OnOk result (out.new ≡ out.old ++ word_words word wrong.now) }
{
    push_numbered(out, "word ", word, wrong)
}

// Appends that there is no file of this name.
fn push_missing(out: &mut Text, name: &Text) -> Result<(), Memory>
    ensures { OnOk result (out.new ≡ out.old ++ fault_words (Fault.MissingFile name.now)) }
{
    push_both(out, "file not found: ", name.bytes())
}

// Appends that the input of this name failed.
fn push_unread(out: &mut Text, name: &Text) -> Result<(), Memory>
    ensures { OnOk result (out.new ≡ out.old ++ fault_words (Fault.ReadFault name.now)) }
{
    push_both(out, "cannot read ", name.bytes())
}

// Appends the house rule of an index and what is wrong with it.
fn push_house_rule(out: &mut Text, index: u32, wrong: &str) -> Result<(), Memory>
    ensures { OnOk result (out.new ≡ out.old ++ rule_words index wrong.now) }
{
    push_numbered(out, "house rule ", index, wrong)
}

// Appends two amounts with a word between them.
fn push_amounts(out: &mut Text, first: u64, word: &str, second: u64) -> Result<(), Memory>
    ensures { OnOk result (out.new ≡ out.old ++ (decimal first ++ word.now ++ decimal second)) }
{
    push_number(out, first)?;
    out.push(word.as_bytes())?;
    push_number(out, second)
}

// Appends that a house rule answered more than its cap.
fn push_over(out: &mut Text, over: &RuleOver) -> Result<(), Memory>
    ensures { OnOk result (out.new ≡ out.old ++ fault_words (Fault.RuleOver over.now)) }
{
    push_numbered(out, "node ", over.node, ": house rule answered ")?;
    push_amounts(out, over.answer, ", its cap is ", over.cap)
}

// Appends what the message says behind the program's name.
fn push_fault(out: &mut Text, fault: &Fault) -> Result<(), Memory>
    ensures { OnOk result (out.new ≡ out.old ++ fault_words fault.now) }
{
    match fault {
        Fault::NoCommand => out.push(b"no command"),
        Fault::UnknownCommand => push_word(out, 1, ": unknown command"),
        Fault::UnknownAction => push_word(out, 2, ": unknown action"),
        Fault::TooFew(word) => push_word(out, *word, ": missing"),
        Fault::TooMany(word) => push_word(out, *word, ": not expected"),
        Fault::EmptyName(word) => push_word(out, *word, ": empty name"),
        Fault::NoOption(word) => push_word(out, *word, ": no option is known"),
        Fault::BadNumber(word) => push_word(out, *word, ": not a number from 0 to 999999"),
        Fault::TwoInputs(word) => push_word(out, *word, ": standard input is already used"),
        Fault::MissingFile(name) => push_missing(out, name),
        Fault::TooLong => out.push(b"instance longer than 1048576 bytes"),
        Fault::Instance(wrong) => {
            out.push(b"instance: ")?;
            push_instance_fault(out, wrong)
        }
        Fault::NotThisCommand(kind) => push_wrong_kind(out, *kind),
        Fault::ReadFault(name) => push_unread(out, name),
        Fault::WriteFault => out.push(b"cannot write"),
        Fault::NoRule(index) => push_house_rule(out, *index, ": not given"),
        Fault::RuleShared(index) => push_house_rule(out, *index, ": named twice"),
        Fault::RuleCap(index) => {
            push_house_rule(out, *index, ": its cap is larger than the stated cap")
        }
        Fault::RuleOver(over) => push_over(out, over),
        Fault::Memory => out.push(b"out of memory"),
    }
}

impl From<Memory> for Fault {
    ghost use Rattle.report_text.specs.declared.faults.Fault.{Fault};

    ghost from_gives = { λ _ fault. fault ≡ Fault.Memory };

    fn from(_: Memory) -> Fault {
        Fault::Memory
    }
}

impl From<InstanceFault> for Fault {
    ghost use Rattle.report_text.specs.declared.faults.Fault.{Fault};

    ghost from_gives = { λ wrong fault. fault ≡ Fault.Instance wrong };

    fn from(wrong: InstanceFault) -> Fault {
        Fault::Instance(wrong)
    }
}

impl From<InstanceErr> for Fault {
    ghost from_gives = { λ wrong fault. fault ≡ instance_fault wrong };

    fn from(wrong: InstanceErr) -> Fault {
        match wrong {
            InstanceErr::Bad(fault) => Fault::Instance(fault),
            InstanceErr::Memory => Fault::Memory,
        }
    }
}

/// The line of standard error that tells a failed output. It takes no memory.
pub fn cannot_write_text() -> &'static str
    ensures { result.now ≡ fault_message Fault.WriteFault }
{
    "stock: cannot write\n"
}

/// The line of standard error that tells a fault: `stock: `, the message and a line feed.
pub fn fault_text(alloc: Global, fault: &Fault) -> Result<Text, Memory>
    ensures { IfOk result (λ text. text ≡ fault_message fault.now) }
{
    let mut text = Text::new(alloc);
    text.push(b"stock: ")?;
    push_fault(&mut text, fault)?;
    text.push(b"\n")?;
    Ok(text)
}
