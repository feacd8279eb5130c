// The line that bytes spell.
ghost use Rattle.std.specs.Prelude.{◌≡◌, ◌≤◌, ◌++◌, [], ◌∷◌, length, MatchOption, IsTrue, find};
ghost use Rattle.std.specs.List.{slice_split};
ghost use Rattle.std.specs.Str.{bytes_eq};
ghost use Rattle.decision_model.specs.Kind.{kind_word};
ghost use Rattle.value_cert.specs.Parsing.{word_number, word_kind, plain_head, discount_head, two_numbers, words_line, line_of};
ghost use Rattle.value_cert.specs.LineWords.{is_blank, is_plain};

use crate::digits::{minus, number_of, plus};
use crate::kinds::has_certificates;
use crate::line::CertLine;
use crate::numbers::{is_unit_fraction, is_whole_number};
use decision_model::Kind;
use line_text::split_at_byte;
use std::str;

// The number of a word of so many bytes is read in 64 bits.
const SHORT: usize = 36;

// The first word, and what stands behind the blank; `None` where there is one word.
pub(crate) fn split_word(bytes: &[u8]) -> Option<(&[u8], &[u8])>
    ensures { MatchOption result (slice_split is_blank bytes.now ≡ bytes.now ∷ []) (λ cut.
        slice_split is_blank bytes.now ≡ cut.0.now ∷ slice_split is_blank cut.1.now) }
{
    split_at_byte(bytes, b' ')
}

// Whether the bytes are those of a text.
pub(crate) fn is_word(word: &[u8], text: &str) -> bool
    ensures { result ≡ bytes_eq word.now text.now }
{
    word == text.as_bytes()
}

// Whether no plus stands before the digits, no zero before other digits, and no minus before a zero.
fn is_plain_number(word: &[u8]) -> bool
    ensures { result ≡ is_plain word.now }
{
    match word {
        [] => false,
        [digit] => *digit >= b'0' && *digit <= b'9',
        [b'-', digit, ..] => *digit > b'0' && *digit <= b'9',
        [digit, ..] => *digit > b'0' && *digit <= b'9',
    }
}

// The number that a word of any length spells.
#[inline(never)]
fn long_number(word: &[u8]) -> Option<i128>
    requires { IsTrue (is_plain word.now) }
    ensures { result ≡ word_number word.now }
{
    let Ok(text) = str::from_utf8(word) else {
        return None;
    };
    let Ok(number) = text.parse::<i128>() else {
        return None;
    };
    if is_whole_number(number) {
        Some(number)
    } else {
        None
    }
}

// The number that a word of at most 36 bytes spells.
#[inline]
fn short_number(word: &[u8]) -> Option<i128>
    requires plain { IsTrue (is_plain word.now) }
    requires short { length word.now ≤ 36 }
    ensures { result ≡ word_number word.now }
{
    if word[0] == b'-' {
        let size = number_of(&word[1..])?;
        return Some(minus(size));
    }
    let size = number_of(word)?;
    Some(plus(size))
}

/// The number that a word spells: a whole number of at most 2^120 in size, in decimal with no zero or plus before it.
pub fn parse_number(word: &[u8]) -> Option<i128>
    ensures { result ≡ word_number word.now }
{
    if !is_plain_number(word) {
        return None;
    }
    if word.len() <= SHORT {
        short_number(word)
    } else {
        long_number(word)
    }
}

// The first of some kinds that a word names.
fn first_named(kinds: &[Kind], word: &[u8]) -> Option<Kind>
    ensures { result ≡ find (λ kind. bytes_eq (kind_word kind) word.now) kinds.now }
{
    for kind in kinds {
        if kind.word().as_bytes() == word {
            return Some(*kind);
        }
    }
    None
}

// The kind with certificates that a word names.
#[tactic(auto, unfolding(crate::specs::Parsing::word_kind))]
fn kind_of(word: &[u8]) -> Option<Kind>
    ensures { result ≡ word_kind word.now }
{
    let kind = first_named(&Kind::ALL, word)?;
    if has_certificates(kind) {
        Some(kind)
    } else {
        None
    }
}

// The line of one word.
fn bare_line(tag: &[u8]) -> Option<CertLine>
    ensures { result ≡ words_line (tag.now ∷ []) }
{
    if is_word(tag, "end") {
        Some(CertLine::End)
    } else {
        None
    }
}

// The line of a tag and one number.
fn one_number_line(tag: &[u8], a: &[u8]) -> Option<CertLine>
    ensures { result ≡ words_line (tag.now ∷ a.now ∷ []) }
{
    let a = parse_number(a)?;
    if is_word(tag, "q") {
        Some(CertLine::Level(a))
    } else if is_word(tag, "cost") {
        Some(CertLine::Cost(a))
    } else if is_word(tag, "t") {
        Some(CertLine::Period(a))
    } else {
        None
    }
}

// The line of a tag and two numbers.
fn two_number_line(tag: &[u8], a: &[u8], b: &[u8]) -> Option<CertLine>
    ensures { result ≡ two_numbers tag.now (word_number a.now) (word_number b.now) }
{
    let a = parse_number(a)?;
    let b = parse_number(b)?;
    if is_word(tag, "o") {
        Some(CertLine::Order(a, b))
    } else if is_word(tag, "g") {
        Some(CertLine::Gain(a, b))
    } else if is_word(tag, "s") {
        Some(CertLine::Pair(a, b))
    } else if is_word(tag, "e") {
        Some(CertLine::Echelon(a, b))
    } else if is_word(tag, "f") {
        Some(CertLine::Part(a, b))
    } else {
        None
    }
}

// The head without a discount.
fn plain_head_line(version: &[u8], kind: &[u8]) -> Option<CertLine>
    ensures { result ≡ plain_head version.now (word_kind kind.now) }
{
    let kind = kind_of(kind)?;
    if is_word(version, "1") {
        Some(CertLine::Head(kind, 1, 1))
    } else {
        None
    }
}

// The line of three words.
fn line_of_three(tag: &[u8], a: &[u8], b: &[u8]) -> Option<CertLine>
    ensures { result ≡ words_line (tag.now ∷ a.now ∷ b.now ∷ []) }
{
    if is_word(tag, "certificate") {
        plain_head_line(a, b)
    } else {
        two_number_line(tag, a, b)
    }
}

// The line of a tag and three numbers.
fn three_number_line(tag: &[u8], a: &[u8], b: &[u8], c: &[u8]) -> Option<CertLine>
    ensures { result ≡ words_line (tag.now ∷ a.now ∷ b.now ∷ c.now ∷ []) }
{
    let a = parse_number(a)?;
    let b = parse_number(b)?;
    let c = parse_number(c)?;
    if is_word(tag, "v") {
        Some(CertLine::Value(a, b, c))
    } else if is_word(tag, "p") {
        Some(CertLine::Point(a, b, c))
    } else {
        None
    }
}

// The head with a discount.
fn discount_head_line(version: &[u8], kind: &[u8], num: &[u8], den: &[u8]) -> Option<CertLine>
    ensures { result ≡ discount_head version.now (word_kind kind.now) (word_number num.now) (word_number den.now) }
{
    let kind = kind_of(kind)?;
    let num = parse_number(num)?;
    let den = parse_number(den)?;
    if is_word(version, "2") && !is_unit_fraction(num, den) {
        Some(CertLine::Head(kind, num, den))
    } else {
        None
    }
}

// The line of five words.
fn line_of_five(tag: &[u8], version: &[u8], kind: &[u8], num: &[u8], den: &[u8]) -> Option<CertLine>
    ensures { result ≡ words_line (tag.now ∷ version.now ∷ kind.now ∷ num.now ∷ den.now ∷ []) }
{
    if is_word(tag, "certificate") {
        discount_head_line(version, kind, num, den)
    } else {
        None
    }
}

/// The line that bytes spell; the line feed behind them is not among them. It takes no memory.
pub fn parse_line(bytes: &[u8]) -> Option<CertLine>
    ensures { result ≡ line_of bytes.now }
{
    let Some((tag, rest)) = split_word(bytes) else {
        return bare_line(bytes);
    };
    let Some((first, rest)) = split_word(rest) else {
        return one_number_line(tag, rest);
    };
    let Some((second, rest)) = split_word(rest) else {
        return line_of_three(tag, first, rest);
    };
    let Some((third, rest)) = split_word(rest) else {
        return three_number_line(tag, first, second, rest);
    };
    match split_word(rest) {
        None => line_of_five(tag, first, second, third, rest),
        Some(_) => None,
    }
}
