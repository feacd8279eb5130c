// Certificates as lines of a grammar.
ghost use Rattle.value_cert.specs.CertGrammar.{cert_grammar};

use crate::line::CertLine;
use crate::place::Place;
use crate::words::parse_line;
use line_text::Grammar;

// A line that comes to this many bytes with no line feed among them is no line of a certificate.
const TOO_LONG: usize = 128;

/// The lines of certificates, and where they may stand.
#[derive(Clone, Copy)]
pub struct CertGrammar;

impl Grammar for CertGrammar {
    type Line = CertLine;

    type Place = Place;

    ghost grammar = { λ _. cert_grammar };

    fn start(self) -> Place {
        Place::Start
    }

    fn after(self, place: Place, line: &CertLine) -> Option<Place> {
        place.after(line)
    }

    fn has_ended(self, place: Place) -> bool {
        place.has_ended()
    }

    fn parse(self, bytes: &[u8]) -> Option<CertLine> {
        parse_line(bytes)
    }

    fn limit(self) -> usize {
        TOO_LONG
    }
}
