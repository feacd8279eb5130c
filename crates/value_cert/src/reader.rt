// A reader of certificates, whose bytes come in any pieces.
ghost use Rattle.std.specs.Prelude.{◌≡◌, ◌++◌, List, ℕ, [], length, take, true, false, Err, IfOk, OnErr, IfErr, MatchResult, option_to_list};
ghost use Rattle.line_text.specs.Reading.{TakesSome};
ghost use Rattle.value_cert.specs.Reading.{IsUnfinished, Fails, Reads, Refuses, HasRead, BeginsNoText, AreLinesOf};
ghost use Rattle.value_cert.specs.declared.line.CertLine.{CertLine};

use crate::cert_grammar::CertGrammar;
use crate::line::CertLine;
use crate::place::Place;
use line_text::LineReader;
use std::marker::Model;

/// How many bytes of a piece were taken, and the line that ended with them, if one did.
#[derive(Clone, Copy, Debug, PartialEq, Eq)]
pub struct Progress {
    pub taken: usize,
    pub line: Option<CertLine>,
}

/// Why bytes are no certificate.
#[derive(Clone, Copy, Debug, PartialEq, Eq)]
pub enum CertErr {
    /// The line of this number, from 1, can't stand where it does in any certificate.
    BadLine(u64),
}

/// Reads certificates line by line, in whatever pieces their bytes come. It takes no memory.
#[derive(Drop)]
pub struct CertReader {
    reader: LineReader<CertGrammar>,
}

impl Model for CertReader {
    ghost use Rattle.value_cert.specs.Reading.{ReaderState};

    ghost Value = { ReaderState };

    ghost view = { λ inside. inside.reader.lines };
}

impl CertReader {
    /// A reader at the start of a certificate.
    pub fn new() -> CertReader
        ensures state { result ≡ record { place = Place.Start; number = 1; unfinished = []; failed = false } }
        ensures read { HasRead result [] [] }
    {
        CertReader {
            reader: LineReader::new(CertGrammar),
        }
    }

    /// The length of the unfinished line.
    pub fn rest(&self) -> usize
        ensures value { result ≡ length self.now.unfinished }
        ensures unfinished { IsUnfinished self.now.unfinished }
    {
        self.reader.rest()
    }

    /// Takes bytes up to and with the first line feed and gives the line that ends there, or takes the whole piece.
    ///
    /// `BadLine` names the line that ended, or came to 128 bytes without a line feed, and made the lines so far the
    /// front of no certificate. After it each later call answers the same.
    pub fn push(&mut self, piece: &[u8]) -> Result<Progress, CertErr>
        ensures reads { IfOk result (Reads self.old self.new piece.now) }
        ensures unfinished { IsUnfinished self.new.unfinished }
        ensures taken { IfOk result (λ progress. TakesSome piece.now progress.taken) }

        // It fails where the line under way ends, or grows too long, and may not stand there, and then ever after.
        ensures fails { IfErr result (Fails self.old self.new) }
        ensures refuses { OnErr result (self.old.failed ≡ false → Refuses self.old piece.now) }
        ensures failed { self.old.failed ≡ true → result ≡ Err (CertErr.BadLine self.old.number) }

        // It stands for all bytes so far.
        ensures read { (bytes : List ℕ) (lines : List CertLine) → HasRead self.old bytes lines
            → MatchResult result
            (λ progress. HasRead self.new (bytes ++ take progress.taken piece.now) (lines ++ option_to_list progress.line))
            (λ _. BeginsNoText (bytes ++ piece.now)) }
        ensures lines { (bytes : List ℕ) (lines : List CertLine) → HasRead self.old bytes lines
            → IfOk result (λ progress. AreLinesOf (bytes ++ take progress.taken piece.now) (lines ++ option_to_list progress.line)) }
    {
        match self.reader.push(piece) {
            Ok(taken) => Ok(Progress {
                taken: taken.count,
                line: taken.line,
            }),
            Err(bad) => Err(CertErr::BadLine(bad.number)),
        }
    }
}
