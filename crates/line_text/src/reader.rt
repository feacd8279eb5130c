// A reader of lines under any grammar, whose bytes come in any pieces.
ghost use Rattle.std.specs.Prelude.{◌≡◌, ◌+◌, ◌<◌, ◌≤◌, ◌++◌, ◌∷◌, List, ℕ, [], length, take, true, false, Ok, Err, Some, None, IfOk, IfErr, OnErr, MatchResult, MatchOption, IsSomeAnd, option_to_list};
ghost use Rattle.line_text.specs.LineWords.{IsWithout};
ghost use Rattle.line_text.specs.Reading.{IsUnfinished, Fails, KeepsPiece, TooLong, NoLineIs, IsEnded, EndsWith, Misplaced, Reads, TakesSome, Refuses, HasRead, BeginsNoText, AreLinesOf};

use crate::cut::split_line;
use crate::grammar::Grammar;
use std::marker::Model;

// The greatest limit of a line.
const ROOM: usize = 256;

/// How many bytes of a piece were taken, and the line that ended with them, if one did.
#[derive(Clone, Copy)]
pub struct Taken<L> {
    pub count: usize,
    pub line: Option<L>,
}

/// The line of this number, from 1, can't stand where it does in any text.
#[derive(Clone, Copy, Debug, PartialEq, Eq)]
pub struct BadLine {
    pub number: u64,
}

/// Reads lines in whatever pieces their bytes come. It takes no memory.
#[derive(Drop)]
pub struct LineReader<G: Grammar> {
    grammar: G,
    // The unfinished line stands at the front.
    line: [u8; ROOM],
    len: usize,
    place: G::Place,
    number: u64,
    failed: bool,
}

// A line that ended, and the place behind it.
#[derive(Clone, Copy)]
struct EndedLine<L, P> {
    line: L,
    place: P,
}

impl<G: Grammar> Model for LineReader<G> {
    ghost use Rattle.line_text.specs.Reading.{ReaderOf};

    ghost Value = { ReaderOf G G.Place };

    ghost use Rattle.std.specs.Prelude.{◌≡◌, ◌<◌, ◌≤◌, length, take};
    ghost use Rattle.line_text.specs.Reading.{IsUnfinished};

    ghost view = { λ r. record {
      grammar = r.grammar;
      lines = record { place = r.place; number = r.number; unfinished = take r.len r.line; failed = r.failed };
    } };

    ghost invariant = { λ r. (length r.line ≡ 256) × (r.len < (G.grammar r.grammar).limit) ×
        ((G.grammar r.grammar).limit ≤ 256) × IsUnfinished (G.grammar r.grammar).limit (take r.len r.line) };
}

// Puts a piece behind the first bytes of a line.
fn fill(line: &mut [u8; ROOM], len: usize, piece: &[u8])
    requires { len + length piece.now ≤ 256 }
    ensures filled { take (len + length piece.now) line.new ≡ take len line.old ++ piece.now }
    ensures front { take len line.new ≡ take len line.old }
    ensures size { length line.new ≡ length line.old }
{
    line[len..len + piece.len()].copy_from_slice(piece);
}

impl<G: Grammar> LineReader<G> {
    /// A reader at the start of a text of this grammar.
    pub fn new(grammar: G) -> LineReader<G>
        ensures state { result ≡ record {
          grammar = grammar;
          lines = record { place = (G.grammar grammar).start; number = 1; unfinished = []; failed = false };
        } }
        ensures read { HasRead (G.grammar grammar) result.lines [] [] }
    {
        // The limit fits into the line.
        let _ = grammar.limit();
        LineReader {
            grammar,
            line: [0; ROOM],
            len: 0,
            place: grammar.start(),
            number: 1,
            failed: false,
        }
    }

    /// The length of the unfinished line.
    pub fn rest(&self) -> usize
        ensures value { result ≡ length self.now.lines.unfinished }
        ensures unfinished { IsUnfinished (G.grammar self.now.grammar).limit self.now.lines.unfinished }
    {
        self.len
    }

    /// The number of the line under way, from 1, as far as it can count.
    pub fn number(&self) -> u64
        ensures { result ≡ self.now.lines.number }
    {
        self.number
    }

    /// Whether the lines so far are a whole text.
    pub fn has_ended(&self) -> bool
        ensures { result ≡ (G.grammar self.now.grammar).ends self.now.lines.place }
    {
        self.grammar.has_ended(self.place)
    }

    // The line under way is refused, and so is whatever comes.
    fn refuse(&mut self) -> BadLine
        ensures fails { Fails self.old.lines self.new.lines result.number }
        ensures grammar { self.new.grammar ≡ self.old.grammar }
        ensures unfinished { IsUnfinished (G.grammar self.old.grammar).limit self.new.lines.unfinished }
    {
        self.failed = true;
        BadLine {
            number: self.number,
        }
    }

    // Takes a piece with no line feed in it.
    fn keep(&mut self, piece: &[u8]) -> Result<Taken<G::Line>, BadLine>
        requires live { self.old.lines.failed ≡ false }
        requires without { IsWithout 10 piece.now }
        ensures grammar { self.new.grammar ≡ self.old.grammar }
        ensures keeps { MatchResult result
            (λ taken. (taken.line ≡ None) × KeepsPiece self.old.lines self.new.lines piece.now taken.count)
            (λ bad. TooLong (G.grammar self.old.grammar).limit self.old.lines self.new.lines piece.now bad.number) }
        ensures unfinished { IsUnfinished (G.grammar self.old.grammar).limit self.new.lines.unfinished }
    {
        if piece.len() >= self.grammar.limit() - self.len {
            return Err(self.refuse());
        }
        fill(&mut self.line, self.len, piece);
        self.len += piece.len();
        Ok(Taken {
            count: piece.len(),
            line: None,
        })
    }

    // The line that the unfinished one and these bytes spell.
    fn line_with(&self, end: &[u8]) -> Option<G::Line>
        requires { length self.now.lines.unfinished + length end.now < (G.grammar self.now.grammar).limit }
        ensures { result ≡ (G.grammar self.now.grammar).spelt (self.now.lines.unfinished ++ end.now) }
    {
        if self.len == 0 {
            return self.grammar.parse(end);
        }
        let mut whole = self.line;
        fill(&mut whole, self.len, end);
        self.grammar.parse(&whole[..self.len + end.len()])
    }

    // The line that ends with these bytes, if it may stand where it does.
    fn ended_line(&self, end: &[u8]) -> Option<EndedLine<G::Line, G::Place>>
        requires { IsWithout 10 end.now }
        ensures { MatchOption result
            (NoLineIs (G.grammar self.now.grammar) self.now.lines.place (self.now.lines.unfinished ++ end.now))
            (λ ended. IsEnded (G.grammar self.now.grammar) self.now.lines end.now ended.line ended.place) }
    {
        if end.len() >= self.grammar.limit() - self.len {
            return None;
        }
        let line = self.line_with(end)?;
        let place = self.grammar.after(self.place, &line)?;
        Some(EndedLine { line, place })
    }

    // Takes the last bytes of a line, behind which its line feed stands.
    fn finish(&mut self, end: &[u8]) -> Result<Taken<G::Line>, BadLine>
        requires live { self.old.lines.failed ≡ false }
        requires without { IsWithout 10 end.now }
        ensures grammar { self.new.grammar ≡ self.old.grammar }
        ensures finishes { MatchResult result
            (λ taken. (taken.count ≡ length end.now + 1) ×
            IsSomeAnd taken.line (EndsWith (G.grammar self.old.grammar) self.old.lines self.new.lines end.now))
            (λ bad. Misplaced (G.grammar self.old.grammar) self.old.lines self.new.lines end.now bad.number) }
        ensures unfinished { IsUnfinished (G.grammar self.old.grammar).limit self.new.lines.unfinished }
    {
        let Some(ended) = self.ended_line(end) else {
            return Err(self.refuse());
        };
        self.len = 0;
        self.place = ended.place;
        self.number = self.number.saturating_add(1);
        Ok(Taken {
            count: end.len() + 1,
            line: Some(ended.line),
        })
    }

    /// Takes bytes up to and with the first line feed and gives the line that ends there, or takes the whole piece.
    ///
    /// `BadLine` names the line that ended, or came to the limit without a line feed, and made the lines so far the
    /// front of no text. After it each later call answers the same.
    pub fn push(&mut self, piece: &[u8]) -> Result<Taken<G::Line>, BadLine>
        ensures grammar { self.new.grammar ≡ self.old.grammar }
        ensures reads { IfOk result (λ taken.
            Reads (G.grammar self.old.grammar) self.old.lines self.new.lines piece.now taken.count taken.line) }
        ensures unfinished { IsUnfinished (G.grammar self.old.grammar).limit self.new.lines.unfinished }
        ensures taken { IfOk result (λ taken. TakesSome piece.now taken.count) }

        // It fails where the line under way ends, or grows too long, and may not stand there, and then ever after.
        ensures fails { IfErr result (λ bad. Fails self.old.lines self.new.lines bad.number) }
        ensures refuses { OnErr result (self.old.lines.failed ≡ false →
            Refuses (G.grammar self.old.grammar) self.old.lines piece.now) }
        ensures failed { self.old.lines.failed ≡ true → result ≡ Err (record { number = self.old.lines.number }) }

        // It stands for all bytes so far.
        ensures read { (bytes : List ℕ) (lines : List G.Line) →
            HasRead (G.grammar self.old.grammar) self.old.lines bytes lines → MatchResult result
            (λ taken. HasRead (G.grammar self.old.grammar) self.new.lines
            (bytes ++ take taken.count piece.now) (lines ++ option_to_list taken.line))
            (λ _. BeginsNoText (G.grammar self.old.grammar) (bytes ++ piece.now)) }
        ensures lines { (bytes : List ℕ) (lines : List G.Line) →
            HasRead (G.grammar self.old.grammar) self.old.lines bytes lines → IfOk result
            (λ taken. AreLinesOf (G.grammar self.old.grammar)
            (bytes ++ take taken.count piece.now) (lines ++ option_to_list taken.line)) }
    {
        if self.failed {
            return Err(BadLine {
                number: self.number,
            });
        }
        match split_line(piece) {
            None => self.keep(piece),
            Some((end, _)) => self.finish(end),
        }
    }
}
