//! Certificates: what they hold, their one text, and what a checker has to say of it.
#![tactic(auto)]

mod average;
mod bracket;
mod cert;
mod cert_grammar;
mod cost;
mod digits;
mod finite;
mod flat_grammar;
mod flat_line;
mod flat_reader;
mod flat_words;
mod flat_writing;
mod heading;
mod kinds;
mod laws;
mod line;
mod line_writing;
mod lots;
mod news;
mod numbers;
mod part;
mod piece;
mod place;
mod reader;
mod serial;
mod words;
mod write;

pub use average::{AverageCell, AverageCells, AverageCert};
pub use bracket::{BracketCell, BracketCells, BracketCert, write_bracket};
pub use cert::Cert;
pub use cert_grammar::CertGrammar;
pub use cost::cost_of;
pub use decision_model::Items;
pub use finite::{FiniteCell, FiniteCells, FiniteCert, FiniteRow, FiniteRows, scale_of};
pub use flat_grammar::FlatGrammar;
pub use flat_line::{FlatLine, FlatName, FlatPlace};
pub use flat_reader::{FlatProgress, FlatReader};
pub use flat_words::parse_flat_line;
pub use flat_writing::{FlatPart, write_flat};
pub use heading::Heading;
pub use laws::{
    flat_fronts_have_places, fronts_have_places, lines_tell_certificates, solutions_have_texts,
    texts_are_apart,
};
pub use line::{CertLine, Tag};
pub use lots::LotCert;
pub use place::Place;
pub use reader::{CertErr, CertReader, Progress};
pub use serial::{
    SerialCell, SerialCells, SerialCert, SerialPeriod, SerialPeriods, SerialRow, SerialRows,
};
pub use words::{parse_line, parse_number};
pub use write::write_cert;
