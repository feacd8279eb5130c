// The words of a run.
ghost use Rattle.std.specs.Prelude.{◌≡◌, ◌+◌, ◌<◌, ◌≤◌, ◌^◌, map, string_bytes, IfOk, true};
ghost use Rattle.value_cert.specs.Parsing.{word_number};
ghost use Rattle.stock_cli.specs.Asks.{asked_of, AreApart, IsApart, CanRun};
ghost use Rattle.stock_cli.specs.Names.{is_built};
ghost use Rattle.stock_cli.specs.Status.{word_fault};
ghost use Rattle.stock_cli.specs.Words.{command_of, input_of, one_input, both_inputs, two_inputs, numbered, one_number, no_word, verb_command, act_action, part_action, part_command, of_part};

use crate::names::{Act, Part, Verb};
use report_text::Fault;
use value_cert::parse_number;

/// What a part is asked for. An input is as that of a command.
#[derive(Clone, Copy, Debug, PartialEq, Eq)]
pub enum Action {
    /// Print an optimal policy.
    Solve(Option<usize>),
    /// Print its certificate.
    Certify(Option<usize>),
    /// Check a certificate, the second input, against an instance, the first.
    Check(Option<usize>, Option<usize>),
}

/// What a run is asked for. An input is the place, from 0 among the words, of a file's name, or `None` for standard
/// input.
#[derive(Clone, Copy, Debug, PartialEq, Eq)]
pub enum Command {
    /// Print an optimal policy.
    Solve(Option<usize>),
    /// Print its certificate.
    Certify(Option<usize>),
    /// Print the laws of demand.
    Demand(Option<usize>),
    /// Run a network.
    Simulate(Option<usize>),
    /// Check a certificate, the second input, against an instance, the first.
    Check(Option<usize>, Option<usize>),
    /// Make, solve and check large instances.
    Trial(u32),
    /// Print what the commands are.
    Help,
    /// An action on average costs of a wide range.
    Bracket(Action),
    /// An action on serial links of longer lead time.
    Pipeline(Action),
    /// An action on service times of a tree.
    Service(Action),
    /// An action on certificates of pairs alone.
    Pairs(Action),
}

/// Why words name no command. Places of words count from 1.
#[derive(Clone, Copy, Debug, PartialEq, Eq)]
pub enum WordErr {
    /// There are no words.
    NoCommand,
    /// The first word is no command.
    UnknownCommand,
    /// The second word is no action of the part that the first word names.
    UnknownAction,
    /// A word is wanted at this place.
    TooFew(u32),
    /// No word is wanted at this place.
    TooMany(u32),
    /// The name at this place is empty.
    EmptyName(u32),
    /// The name at this place begins like an option.
    NoOption(u32),
    /// The word at this place is no number from 0 to 999,999.
    BadNumber(u32),
    /// Standard input, which this word means, is already used.
    TwoInputs(u32),
}

impl From<WordErr> for Fault {
    ghost from_gives = { λ wrong fault. fault ≡ word_fault wrong };

    fn from(wrong: WordErr) -> Fault {
        match wrong {
            WordErr::NoCommand => Fault::NoCommand,
            WordErr::UnknownCommand => Fault::UnknownCommand,
            WordErr::UnknownAction => Fault::UnknownAction,
            WordErr::TooFew(word) => Fault::TooFew(word),
            WordErr::TooMany(word) => Fault::TooMany(word),
            WordErr::EmptyName(word) => Fault::EmptyName(word),
            WordErr::NoOption(word) => Fault::NoOption(word),
            WordErr::BadNumber(word) => Fault::BadNumber(word),
            WordErr::TwoInputs(word) => Fault::TwoInputs(word),
        }
    }
}

/// The inputs of a check: an instance's, and a certificate's.
type BothInputs = (Option<usize>, Option<usize>);

// The input that the name at a place, from 0, means.
fn input(place: usize, name: &str) -> Result<Option<usize>, WordErr>
    requires { place < 4 }
    ensures { result ≡ input_of place name.now }
{
    let bytes = name.as_bytes();
    if bytes.is_empty() {
        return Err(WordErr::EmptyName(place as u32 + 1));
    }
    if bytes[0] == b'-' && bytes.len() >= 2 {
        return Err(WordErr::NoOption(place as u32 + 1));
    }
    if name == "-" {
        return Ok(None);
    }
    Ok(Some(place))
}

// The input that the words from a place on mean.
fn only_input(place: usize, words: &[String]) -> Result<Option<usize>, WordErr>
    requires { place < 3 }
    ensures { result ≡ one_input place (map string_bytes words.now) }
{
    match words {
        [] => Ok(None),
        [name] => input(place, name.as_str()),
        _ => Err(WordErr::TooMany(place as u32 + 2)),
    }
}

// Two inputs, the first named at a place, of which at most one is standard input.
fn both(place: usize, instance: Option<usize>, cert: Option<usize>) -> Result<BothInputs, WordErr>
    requires { place < 3 }
    ensures both { result ≡ both_inputs place instance cert }
    ensures apart { IfOk result (λ inputs. AreApart inputs.0 inputs.1) }
{
    match (instance, cert) {
        (None, None) => Err(WordErr::TwoInputs(place as u32 + 2)),
        _ => Ok((instance, cert)),
    }
}

// The two inputs that the words from a place on mean.
fn check_inputs(place: usize, words: &[String]) -> Result<BothInputs, WordErr>
    requires { place < 3 }
    ensures both { result ≡ two_inputs place (map string_bytes words.now) }
    ensures apart { IfOk result (λ inputs. AreApart inputs.0 inputs.1) }
{
    match words {
        [] => Err(WordErr::TooFew(place as u32 + 1)),
        [_] => Err(WordErr::TooFew(place as u32 + 2)),
        [instance, cert] => {
            let instance = input(place, instance.as_str())?;
            let cert = input(place + 1, cert.as_str())?;
            both(place, instance, cert)
        }
        _ => Err(WordErr::TooMany(place as u32 + 3)),
    }
}

// The trial of the number that a word spells.
fn trial(word: &str) -> Result<Command, WordErr>
    ensures is { result ≡ numbered (word_number word.now) }
    ensures runs { IfOk result (λ command. CanRun (asked_of command)) }
{
    match parse_number(word.as_bytes()) {
        Some(number) if number >= 0 && number <= 999_999 => Ok(Command::Trial(number as u32)),
        _ => Err(WordErr::BadNumber(2)),
    }
}

fn only_number(words: &[String]) -> Result<Command, WordErr>
    ensures is { result ≡ one_number (map string_bytes words.now) }
    ensures runs { IfOk result (λ command. CanRun (asked_of command)) }
{
    match words {
        [] => Err(WordErr::TooFew(2)),
        [word] => trial(word.as_str()),
        _ => Err(WordErr::TooMany(3)),
    }
}

fn help(words: &[String]) -> Result<Command, WordErr>
    ensures is { result ≡ no_word (map string_bytes words.now) }
    ensures runs { IfOk result (λ command. CanRun (asked_of command)) }
{
    match words {
        [] => Ok(Command::Help),
        _ => Err(WordErr::TooMany(2)),
    }
}

fn command_with(verb: Verb, words: &[String]) -> Result<Command, WordErr>
    ensures is { result ≡ verb_command verb (map string_bytes words.now) }
    ensures runs { IfOk result (λ command. CanRun (asked_of command)) }
{
    match verb {
        Verb::Solve => Ok(Command::Solve(only_input(1, words)?)),
        Verb::Certify => Ok(Command::Certify(only_input(1, words)?)),
        Verb::Check => {
            let (instance, cert) = check_inputs(1, words)?;
            Ok(Command::Check(instance, cert))
        }
        Verb::Demand => Ok(Command::Demand(only_input(1, words)?)),
        Verb::Simulate => Ok(Command::Simulate(only_input(1, words)?)),
        Verb::Trial => only_number(words),
        Verb::Help => help(words),
    }
}

fn action_with(act: Act, words: &[String]) -> Result<Action, WordErr>
    ensures is { result ≡ act_action act (map string_bytes words.now) }
    ensures apart { IfOk result IsApart }
{
    match act {
        Act::Solve => Ok(Action::Solve(only_input(2, words)?)),
        Act::Certify => Ok(Action::Certify(only_input(2, words)?)),
        Act::Check => {
            let (instance, cert) = check_inputs(2, words)?;
            Ok(Action::Check(instance, cert))
        }
    }
}

// The action of a part that the words behind its own name.
fn action_of(part: Part, words: &[String]) -> Result<Action, WordErr>
    ensures is { result ≡ part_action part (map string_bytes words.now) }
    ensures apart { IfOk result IsApart }
{
    let [word, words @ ..] = words else {
        return Err(WordErr::TooFew(2));
    };
    match Act::named(part, word.as_str()) {
        Some(act) => action_with(act, words),
        None => Err(WordErr::UnknownAction),
    }
}

impl Part {
    ghost use Rattle.std.specs.Prelude.{◌≡◌, true};
    ghost use Rattle.stock_cli.specs.Asks.{asked_of, CanRun, IsApart};
    ghost use Rattle.stock_cli.specs.Names.{is_built};
    ghost use Rattle.stock_cli.specs.Words.{part_command};

    // The part's command.
    fn command(self, action: Action) -> Command
        ensures is { result ≡ part_command self action }
        ensures runs { is_built self ≡ true → IsApart action → CanRun (asked_of result) }
    {
        match self {
            Part::Bracket => Command::Bracket(action),
            Part::Pipeline => Command::Pipeline(action),
            Part::Service => Command::Service(action),
            Part::Pairs => Command::Pairs(action),
        }
    }
}

fn part_with(part: Part, words: &[String]) -> Result<Command, WordErr>
    ensures is { result ≡ of_part part (part_action part (map string_bytes words.now)) }
    ensures runs { is_built part ≡ true → IfOk result (λ command. CanRun (asked_of command)) }
{
    let action = action_of(part, words)?;
    Ok(part.command(action))
}

/// The command that the words name, or the first thing that is wrong with them: no command, an unknown one, a part
/// without an action or with an unknown one, a word too few or too many, and then each word from left to right. The
/// words don't hold the program's name. What it gives can run: it is of a part that is built, and takes standard input
/// but once. It takes no memory.
pub fn read_words(words: &[String]) -> Result<Command, WordErr>
    ensures is { result ≡ command_of words.now }
    ensures runs { IfOk result (λ command. CanRun (asked_of command)) }
{
    let [word, words @ ..] = words else {
        return Err(WordErr::NoCommand);
    };
    if let Some(verb) = Verb::named(word.as_str()) {
        return command_with(verb, words);
    }
    match Part::named(word.as_str()) {
        Some(part) => part_with(part, words),
        None => Err(WordErr::UnknownCommand),
    }
}
