// Flat texts as lines of a grammar.
ghost use Rattle.value_cert.specs.FlatGrammar.{flat_grammar};

use crate::flat_line::{FlatLine, FlatName, FlatPlace};
use crate::flat_words::parse_flat_line;
use line_text::Grammar;

// A line that comes to this many bytes with no line feed among them is no line of a flat text.
const TOO_LONG: usize = 256;

/// The lines of flat texts of a name, and where they may stand.
#[derive(Clone, Copy)]
pub struct FlatGrammar {
    pub name: FlatName,
}

impl Grammar for FlatGrammar {
    type Line = FlatLine;

    type Place = FlatPlace;

    ghost grammar = { λ of. flat_grammar of.name };

    fn start(self) -> FlatPlace {
        FlatPlace::Start
    }

    fn after(self, place: FlatPlace, line: &FlatLine) -> Option<FlatPlace> {
        place.after(line)
    }

    fn has_ended(self, place: FlatPlace) -> bool {
        place.has_ended()
    }

    fn parse(self, bytes: &[u8]) -> Option<FlatLine> {
        parse_flat_line(self.name, bytes)
    }

    fn limit(self) -> usize {
        TOO_LONG
    }
}
