// Reading what a command is asked about.
ghost use Rattle.std.specs.Prelude.{◌≡◌, ◌≢◌, ◌⊎◌, ℕ, ◌≤◌, codes, length, Ok, IfOk, IfErr, OnOk, IfSome, None};
ghost use Rattle.std.specs.Io.KnownBytes.{IsAtEnd};
ghost use Rattle.stock_edge.specs.Causes.{Rose};
ghost use Rattle.stock_cli.specs.Causes.{counts_of, FailedAt, NotRead, GivesNone};
ghost use Rattle.stock_cli.specs.Status.{IsOfInputs};
ghost use Rattle.stock_cli.specs.Inputs.{word_at, origin_of, input_at, input_name, standard_content, named_content, content_of};
ghost use Rattle.stock_cli.specs.Subjects.{SaysItem};

use crate::subject::Subject;
use fraction128::{Memory, Text};
use report_text::Fault;
use std::alloc::Global;
use stock_edge::{FileErr, Files, ReadErr, Source, read_all, read_file};

/// The greatest number of bytes of an instance.
const LONGEST: usize = 1_048_576;

/// What a command reads from.
#[derive(Clone, Copy, Debug, PartialEq, Eq)]
pub enum Input<'a> {
    /// Standard input.
    Standard,
    /// The file of this name.
    File(&'a str),
}

// The word at a place, from 0.
fn word(words: &[String], place: usize) -> &str
    ensures { result.now ≡ word_at words.now place }
{
    match words.get(place) {
        Some(word) => word.as_str(),
        None => "",
    }
}

impl<'a> Input<'a> {
    /// What a place among the words means, from 0, or none.
    pub fn named(words: &'a [String], place: Option<usize>) -> Input<'a>
        ensures { origin_of result ≡ input_at words.now place }
    {
        match place {
            None => Input::Standard,
            Some(place) => Input::File(word(words, place)),
        }
    }

    /// The name, as messages tell it.
    pub fn name(&self) -> &'a str
        ensures { result.now ≡ input_name (origin_of self.now) }
    {
        match self {
            Input::Standard => "-",
            Input::File(name) => name,
        }
    }
}

// A name as a fault tells it.
fn named(alloc: Global, name: &str) -> Result<Text, Memory>
    ensures { IfOk result (λ text. text ≡ name.now) }
{
    let mut text = Text::new(alloc);
    text.push(name.as_bytes())?;
    Ok(text)
}

// The fault of an input that failed.
pub fn read_fault(alloc: Global, name: &str) -> Fault
    ensures { (result ≡ Fault.Memory) ⊎ (result ≡ Fault.ReadFault name.now) }
{
    match named(alloc, name) {
        Ok(name) => Fault::ReadFault(name),
        Err(Memory) => Fault::Memory,
    }
}

// The fault of a name of which there is no file.
pub fn missing_fault(alloc: Global, name: &str) -> Fault
    ensures { (result ≡ Fault.Memory) ⊎ (result ≡ Fault.MissingFile name.now) }
{
    match named(alloc, name) {
        Ok(name) => Fault::MissingFile(name),
        Err(Memory) => Fault::Memory,
    }
}

// All bytes of standard input.
fn read_standard<I: Source>(alloc: Global, input: &mut I) -> Result<Vec<u8>, Fault>
    ensures told { IfOk result (λ bytes. IfSome (standard_content (I.left input.old)) (λ found. found ≡ Ok bytes.items)) }
    ensures fits { IfOk result (λ bytes. length bytes.items ≤ 1048576) }
    ensures end { OnOk result (IsAtEnd (I.left input.new)) }
    ensures none { IfErr result (NotRead
        (λ name. (name ≡ codes "-") × Rose (I.faults input.old) (I.faults input.new)) (standard_content (I.left input.old))) }
    ensures later { I.faults input.old ≤ I.faults input.new }
{
    match read_all(alloc, input, LONGEST) {
        Ok(bytes) => Ok(bytes),
        Err(ReadErr::Failed) => Err(read_fault(alloc, "-")),
        Err(ReadErr::TooLong) => Err(Fault::TooLong),
        Err(ReadErr::Memory) => Err(Fault::Memory),
    }
}

// All bytes of a file.
fn read_named<F: Files>(alloc: Global, files: &mut F, name: &str) -> Result<Vec<u8>, Fault>
    ensures told { IfOk result (λ bytes. IfSome (named_content (F.held files.old) name.now) (λ found. found ≡ Ok bytes.items)) }
    ensures fits { IfOk result (λ bytes. length bytes.items ≤ 1048576) }
    ensures none { IfErr result (NotRead
        (λ told. (told ≡ name.now) × Rose (F.faults files.old) (F.faults files.new)) (named_content (F.held files.old) name.now)) }
    ensures later { F.faults files.old ≤ F.faults files.new }
    ensures same_held { F.held files.new ≡ F.held files.old }
{
    match read_file(alloc, files, name, LONGEST) {
        Ok(bytes) => Ok(bytes),
        Err(FileErr::Missing) => Err(missing_fault(alloc, name)),
        Err(FileErr::Failed) => Err(read_fault(alloc, name)),
        Err(FileErr::TooLong) => Err(Fault::TooLong),
        Err(FileErr::Memory) => Err(Fault::Memory),
    }
}

// All bytes of an input.
fn read_input<I: Source, F: Files>(
    alloc: Global,
    from: &Input<'_>,
    input: &mut I,
    files: &mut F,
) -> Result<Vec<u8>, Fault>
    ensures told { IfOk result (λ bytes. IfSome (content_of (I.left input.old) (F.held files.old) (origin_of from.now)) (λ found. found ≡ Ok bytes.items)) }
    ensures fits { IfOk result (λ bytes. length bytes.items ≤ 1048576) }
    ensures end { OnOk result (origin_of from.now ≡ None → IsAtEnd (I.left input.new)) }
    ensures none { IfErr result (NotRead
        (FailedAt (counts_of (I.faults input.old) (I.faults input.new) (F.faults files.old) (F.faults files.new)) (origin_of from.now))
        (content_of (I.left input.old) (F.held files.old) (origin_of from.now))) }
    ensures later_input { I.faults input.old ≤ I.faults input.new }
    ensures later_files { F.faults files.old ≤ F.faults files.new }
    ensures same_held { F.held files.new ≡ F.held files.old }
    ensures same_input { origin_of from.now ≢ None → input.new ≡ input.old }
    ensures same_files { origin_of from.now ≡ None → files.new ≡ files.old }
{
    match from {
        Input::Standard => read_standard(alloc, input),
        Input::File(name) => read_named(alloc, files, name),
    }
}

/// The item of an input.
pub fn read_from<S: Subject, I: Source, F: Files>(
    alloc: Global,
    from: &Input<'_>,
    input: &mut I,
    files: &mut F,
) -> Result<S::Item, Fault>
    ensures said { IfOk result (λ item. IfSome (content_of (I.left input.old) (F.held files.old) (origin_of from.now)) (λ found. SaysItem S.subject found item)) }
    ensures valid { IfOk result S.subject.IsValid }
    ensures end { OnOk result (origin_of from.now ≡ None → IsAtEnd (I.left input.new)) }
    ensures none { IfErr result (GivesNone S.subject
        (FailedAt (counts_of (I.faults input.old) (I.faults input.new) (F.faults files.old) (F.faults files.new)) (origin_of from.now))
        (content_of (I.left input.old) (F.held files.old) (origin_of from.now))) }
    ensures later_input { I.faults input.old ≤ I.faults input.new }
    ensures later_files { F.faults files.old ≤ F.faults files.new }
    ensures of_inputs { IfErr result IsOfInputs }
    ensures same_held { F.held files.new ≡ F.held files.old }
    ensures same_input { origin_of from.now ≢ None → input.new ≡ input.old }
    ensures same_files { origin_of from.now ≡ None → files.new ≡ files.old }
{
    let bytes = read_input(alloc, from, input, files)?;
    let item = S::read(alloc, &bytes)?;
    Ok(item)
}
