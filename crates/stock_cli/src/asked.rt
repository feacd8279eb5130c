// What a command asks for.
ghost use Rattle.std.specs.Prelude.{◌≡◌};
ghost use Rattle.stock_cli.specs.Asks.{asked_of};

use crate::names::Part;
use crate::words::{Action, Command};

/// What a command is about.
#[derive(Clone, Copy, Debug, PartialEq, Eq)]
pub enum About {
    /// The kinds of instance that `read_instance` reads.
    Kinds,
    /// What a part reads.
    Part(Part),
}

/// A question on one item of what a command is about.
#[derive(Clone, Copy, Debug, PartialEq, Eq)]
pub enum Question {
    Solve,
    Certify,
}

/// A further question, on an instance of a kind.
#[derive(Clone, Copy, Debug, PartialEq, Eq)]
pub enum KindQuestion {
    Demand,
    Simulate,
}

/// What a command asks for. An input is the place, from 0 among the words, of a file's name, or `None` for standard
/// input.
#[derive(Clone, Copy, Debug, PartialEq, Eq)]
pub enum Asked {
    /// An action on what the command is about.
    Action(About, Action),
    /// A further question on the instance of one input.
    Kind(KindQuestion, Option<usize>),
    /// The trial of a number.
    Number(u32),
    /// The help.
    Nothing,
}

/// What a command asks for.
pub fn asked_of(command: Command) -> Asked
    ensures { result ≡ asked_of command }
{
    match command {
        Command::Solve(place) => Asked::Action(About::Kinds, Action::Solve(place)),
        Command::Certify(place) => Asked::Action(About::Kinds, Action::Certify(place)),
        Command::Check(instance, cert) => {
            Asked::Action(About::Kinds, Action::Check(instance, cert))
        }
        Command::Demand(place) => Asked::Kind(KindQuestion::Demand, place),
        Command::Simulate(place) => Asked::Kind(KindQuestion::Simulate, place),
        Command::Trial(number) => Asked::Number(number),
        Command::Help => Asked::Nothing,
        Command::Bracket(action) => Asked::Action(About::Part(Part::Bracket), action),
        Command::Pipeline(action) => Asked::Action(About::Part(Part::Pipeline), action),
        Command::Service(action) => Asked::Action(About::Part(Part::Service), action),
        Command::Pairs(action) => Asked::Action(About::Part(Part::Pairs), action),
    }
}
