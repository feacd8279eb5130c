// A reader of flat texts, whose bytes come in any pieces.
ghost use Rattle.std.specs.Prelude.{◌≡◌, ◌++◌, List, ℕ, [], length, take, true, false, Err, IfOk, IfErr, OnErr, MatchResult, option_to_list};
ghost use Rattle.line_text.specs.Reading.{IsUnfinished, Reads, TakesSome, Refuses, HasRead, BeginsNoText, AreLinesOf};
ghost use Rattle.value_cert.specs.FlatGrammar.{flat_grammar};
ghost use Rattle.value_cert.specs.FlatReading.{FlatFails};
ghost use Rattle.value_cert.specs.declared.flat_line.FlatPlace.{FlatPlace};

use crate::flat_grammar::FlatGrammar;
use crate::flat_line::{FlatLine, FlatName};
use crate::reader::CertErr;
use line_text::LineReader;
use std::marker::Model;

/// How many bytes of a piece were taken, and the line that ended with them, if one did.
#[derive(Clone, Copy, Debug, PartialEq, Eq)]
pub struct FlatProgress {
    pub taken: usize,
    pub line: Option<FlatLine>,
}

/// Reads flat texts of a name line by line, in whatever pieces their bytes come. It takes no memory.
#[derive(Drop)]
pub struct FlatReader {
    reader: LineReader<FlatGrammar>,
}

impl Model for FlatReader {
    ghost use Rattle.value_cert.specs.FlatReading.{FlatState};

    ghost Value = { FlatState };

    ghost view = { λ inside. inside.reader };
}

impl FlatReader {
    /// A reader at the start of a flat text of this name.
    pub fn new(name: FlatName) -> FlatReader
        ensures state { result ≡ record {
          grammar = record { name = name };
          lines = record { place = FlatPlace.Start; number = 1; unfinished = []; failed = false };
        } }
        ensures read { HasRead (flat_grammar name) result.lines [] [] }
    {
        FlatReader {
            reader: LineReader::new(FlatGrammar { name }),
        }
    }

    /// The length of the unfinished line.
    pub fn rest(&self) -> usize
        ensures value { result ≡ length self.now.lines.unfinished }
        ensures unfinished { IsUnfinished 256 self.now.lines.unfinished }
    {
        self.reader.rest()
    }

    /// Takes bytes up to and with the first line feed and gives the line that ends there, or takes the whole piece.
    ///
    /// `BadLine` names the line that ended, or came to 256 bytes without a line feed, and made the lines so far the
    /// front of no flat text of this name. After it each later call answers the same.
    pub fn push(&mut self, piece: &[u8]) -> Result<FlatProgress, CertErr>
        ensures grammar { self.new.grammar ≡ self.old.grammar }
        ensures reads { IfOk result (λ progress.
            Reads (flat_grammar self.old.grammar.name) self.old.lines self.new.lines piece.now
            progress.taken progress.line) }
        ensures unfinished { IsUnfinished 256 self.new.lines.unfinished }
        ensures taken { IfOk result (λ progress. TakesSome piece.now progress.taken) }

        // It fails where the line under way ends, or grows too long, and may not stand there, and then ever after.
        ensures fails { IfErr result (FlatFails self.old self.new) }
        ensures refuses { OnErr result (self.old.lines.failed ≡ false →
            Refuses (flat_grammar self.old.grammar.name) self.old.lines piece.now) }
        ensures failed { self.old.lines.failed ≡ true →
            result ≡ Err (CertErr.BadLine self.old.lines.number) }

        // It stands for all bytes so far.
        ensures read { (bytes : List ℕ) (lines : List FlatLine) →
            HasRead (flat_grammar self.old.grammar.name) self.old.lines bytes lines → MatchResult result
            (λ progress. HasRead (flat_grammar self.old.grammar.name) self.new.lines
            (bytes ++ take progress.taken piece.now) (lines ++ option_to_list progress.line))
            (λ _. BeginsNoText (flat_grammar self.old.grammar.name) (bytes ++ piece.now)) }
        ensures lines { (bytes : List ℕ) (lines : List FlatLine) →
            HasRead (flat_grammar self.old.grammar.name) self.old.lines bytes lines → IfOk result
            (λ progress. AreLinesOf (flat_grammar self.old.grammar.name)
            (bytes ++ take progress.taken piece.now) (lines ++ option_to_list progress.line)) }
    {
        match self.reader.push(piece) {
            Ok(taken) => Ok(FlatProgress {
                taken: taken.count,
                line: taken.line,
            }),
            Err(bad) => Err(CertErr::BadLine(bad.number)),
        }
    }
}
