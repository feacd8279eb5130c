// Which lines may stand behind one another, and how they are spelt.
ghost use Rattle.std.specs.Prelude.{◌≡◌, ◌≤◌};
ghost use Rattle.line_text.specs.Grammar.{GrammarOf};

/// A grammar of lines. Each value is one, so that a grammar may depend on what is known only when it is read.
pub trait Grammar: Copy {
    /// A line, without its line feed.
    type Line: Copy;
    /// What the lines so far say of the next one.
    type Place: Copy;

    ghost grammar: { Self → GrammarOf Self.Line Self.Place };

    /// Where the first line stands.
    fn start(self) -> Self::Place
        ensures { result ≡ (grammar self).start };

    /// The place behind a line, if it may stand at this one.
    fn after(self, place: Self::Place, line: &Self::Line) -> Option<Self::Place>
        ensures { result ≡ (grammar self).step place line.now };

    /// Whether a text may end at this place.
    fn has_ended(self, place: Self::Place) -> bool
        ensures { result ≡ (grammar self).ends place };

    /// The line that bytes spell, if they spell one.
    fn parse(self, bytes: &[u8]) -> Option<Self::Line>
        ensures { result ≡ (grammar self).spelt bytes.now };

    /// A line that comes to so many bytes is none.
    fn limit(self) -> usize
        ensures limit { result ≡ (grammar self).limit }
        ensures room { result ≤ 256 };
}
