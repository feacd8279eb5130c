// The lines of flat texts.
ghost use Rattle.std.specs.Prelude.{◌≡◌};
ghost use Rattle.value_cert.specs.FlatLines.{name_word, is_flat_end};

/// What a flat text is for.
#[derive(Clone, Copy, Debug, PartialEq, Eq)]
pub enum FlatName {
    Bracket,
    Pipeline,
    Service,
    Pairs,
}

/// A line of a flat text, with its numbers as they are written.
#[derive(Clone, Copy, Debug, PartialEq, Eq)]
pub enum FlatLine {
    /// The version and the name.
    Head,
    /// A lower-case letter and one to four numbers; the numbers past the count are 0.
    Row {
        tag: u8,
        count: u32,
        a: i128,
        b: i128,
        c: i128,
        e: i128,
    },
    /// The end.
    End,
}

/// What the lines so far say of the next one.
#[derive(Clone, Copy, Debug, PartialEq, Eq)]
pub enum FlatPlace {
    /// No line stands so far.
    Start,
    /// A head stands, and maybe rows.
    Body,
    /// The text has ended.
    Ended,
}

impl FlatName {
    /// The word of a head that names it.
    pub fn word(self) -> &'static str
        ensures { result.now ≡ name_word self }
    {
        match self {
            FlatName::Bracket => "bracket",
            FlatName::Pipeline => "pipeline",
            FlatName::Service => "service",
            FlatName::Pairs => "pairs",
        }
    }
}

impl FlatPlace {
    /// Whether the text has ended.
    pub fn has_ended(self) -> bool
        ensures { result ≡ is_flat_end self }
    {
        matches!(self, FlatPlace::Ended)
    }
}
