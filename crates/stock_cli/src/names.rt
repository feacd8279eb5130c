// The words of commands, each given once.
ghost use Rattle.std.specs.Prelude.{◌≡◌, ◌&&◌, IfSome, find, true};
ghost use Rattle.std.specs.Str.{bytes_eq};
ghost use Rattle.stock_cli.specs.Names.{verb_word, verb_named, part_word, part_named, is_built, has_solve, act_word, act_named, has_act};

/// The first word of a command that stands alone.
#[derive(Clone, Copy, Debug, PartialEq, Eq)]
pub enum Verb {
    Solve,
    Certify,
    Check,
    Demand,
    Simulate,
    Trial,
    Help,
}

impl Verb {
    /// All verbs, in the order of the help.
    pub const ALL: [Verb; 7] = [
        Verb::Solve,
        Verb::Certify,
        Verb::Check,
        Verb::Demand,
        Verb::Simulate,
        Verb::Trial,
        Verb::Help,
    ];

    /// The word as it is given.
    pub fn word(self) -> &'static str
        ensures { result.now ≡ verb_word self }
    {
        match self {
            Verb::Solve => "solve",
            Verb::Certify => "certify",
            Verb::Check => "check",
            Verb::Demand => "demand",
            Verb::Simulate => "simulate",
            Verb::Trial => "trial",
            Verb::Help => "help",
        }
    }

    /// The verb of this name, if there is one.
    pub fn named(name: &str) -> Option<Verb>
        ensures { result ≡ verb_named name.now }
    {
        first_verb(&Verb::ALL, name)
    }
}

// The first of some verbs that has this name.
fn first_verb(verbs: &[Verb], name: &str) -> Option<Verb>
    ensures { result ≡ find (λ verb. bytes_eq (verb_word verb) name.now) verbs.now }
{
    for verb in verbs {
        if verb.word() == name {
            return Some(*verb);
        }
    }
    None
}

/// A part of the program whose commands have two words: its own, and an act's.
#[derive(Clone, Copy, Debug, PartialEq, Eq)]
pub enum Part {
    /// The average cost on a wide range, bounded.
    Bracket,
    /// Serial links of longer lead time.
    Pipeline,
    /// Service times on a tree.
    Service,
    /// Certificates of pairs alone.
    Pairs,
}

impl Part {
    /// All parts, in the order of the help.
    pub const ALL: [Part; 4] = [Part::Bracket, Part::Pipeline, Part::Service, Part::Pairs];

    /// The first word of its commands.
    pub fn word(self) -> &'static str
        ensures { result.now ≡ part_word self }
    {
        match self {
            Part::Bracket => "bracket",
            Part::Pipeline => "pipeline",
            Part::Service => "service",
            Part::Pairs => "pairs",
        }
    }

    /// Whether it runs. The word of a part that doesn't is no command.
    pub fn is_built(self) -> bool
        ensures { result ≡ is_built self }
    {
        match self {
            Part::Bracket => true,
            Part::Pipeline => false,
            Part::Service => false,
            Part::Pairs => false,
        }
    }

    /// Whether it prints a policy.
    pub fn has_solve(self) -> bool
        ensures { result ≡ has_solve self }
    {
        self != Part::Pairs
    }

    /// The part of this name, if there is one that is built.
    pub fn named(name: &str) -> Option<Part>
        ensures named { result ≡ part_named name.now }
        ensures built { IfSome result (λ part. is_built part ≡ true) }
    {
        first_part(&Part::ALL, name)
    }
}

// The first of some parts that is built and has this name.
fn first_part(parts: &[Part], name: &str) -> Option<Part>
    ensures named { result ≡ find (λ part. is_built part && bytes_eq (part_word part) name.now) parts.now }
    ensures built { IfSome result (λ part. is_built part ≡ true) }
{
    for part in parts {
        if part.is_built() && part.word() == name {
            return Some(*part);
        }
    }
    None
}

/// The second word of a part's command.
#[derive(Clone, Copy, Debug, PartialEq, Eq)]
pub enum Act {
    Solve,
    Certify,
    Check,
}

impl Act {
    /// All acts, in the order of the help.
    pub const ALL: [Act; 3] = [Act::Solve, Act::Certify, Act::Check];

    /// The word as it is given.
    pub fn word(self) -> &'static str
        ensures { result.now ≡ act_word self }
    {
        match self {
            Act::Solve => "solve",
            Act::Certify => "certify",
            Act::Check => "check",
        }
    }

    /// Whether a part has it.
    fn is_of(self, part: Part) -> bool
        ensures { result ≡ has_act part self }
    {
        match self {
            Act::Solve => part.has_solve(),
            Act::Certify => true,
            Act::Check => true,
        }
    }

    /// The act of a part that has this name, if there is one.
    pub fn named(part: Part, name: &str) -> Option<Act>
        ensures { result ≡ act_named part name.now }
    {
        first_act(&Act::ALL, part, name)
    }
}

// The first of some acts that the part has and that has this name.
fn first_act(acts: &[Act], part: Part, name: &str) -> Option<Act>
    ensures { result ≡ find (λ act. has_act part act && bytes_eq (act_word act) name.now) acts.now }
{
    for act in acts {
        if act.is_of(part) && act.word() == name {
            return Some(*act);
        }
    }
    None
}
