// The line of a flat text that bytes spell.
ghost use Rattle.std.specs.Prelude.{◌≡◌, ◌&&◌, [], ◌∷◌, take, drop, nat_le, true};
ghost use Rattle.std.specs.List.{list_all, slice_split};
ghost use Rattle.value_cert.specs.FlatLines.{is_letter, is_zero, has_numbers, step_of, head_line, row_line, row_with, numbers_of, line_of};
ghost use Rattle.value_cert.specs.LineWords.{is_blank};
ghost use Rattle.value_cert.specs.Numbers.{is_whole};

use crate::flat_line::{FlatLine, FlatName, FlatPlace};
use crate::numbers::is_whole_number;
use crate::words::{is_word, parse_number, split_word};

fn is_lower_case(tag: u8) -> bool
    ensures { result ≡ is_letter tag }
{
    b'a' <= tag && tag <= b'z'
}

fn are_whole(numbers: &[i128]) -> bool
    ensures { result ≡ list_all is_whole numbers.now }
{
    numbers.iter().all(|number| is_whole_number(*number))
}

fn are_zero(numbers: &[i128]) -> bool
    ensures { result ≡ list_all is_zero numbers.now }
{
    numbers.iter().all(|number| *number == 0)
}

// Whether a row has a letter, one to four numbers, and 0 past them.
fn is_row(tag: u8, count: u32, numbers: &[i128; 4]) -> bool
    ensures { result ≡ (is_letter tag && nat_le 1 count && nat_le count 4 &&
        list_all is_whole (take count numbers.now) && list_all is_zero (drop count numbers.now)) }
{
    is_lower_case(tag)
        && 1 <= count
        && count <= 4
        && are_whole(&numbers[..count as usize])
        && are_zero(&numbers[count as usize..])
}

// Whether each number of a line may stand there.
fn has_valid_numbers(line: &FlatLine) -> bool
    ensures { result ≡ has_numbers line.now }
{
    match *line {
        FlatLine::Head | FlatLine::End => true,
        FlatLine::Row {
            tag,
            count,
            a,
            b,
            c,
            e,
        } => is_row(tag, count, &[a, b, c, e]),
    }
}

impl FlatPlace {
    /// The place behind a line that stands at this place, or `None` where it may not stand here or a number of it may not.
    pub fn after(self, line: &FlatLine) -> Option<FlatPlace>
        ensures { result ≡ step_of self line.now }
    {
        match (self, line) {
            (FlatPlace::Start, FlatLine::Head) => Some(FlatPlace::Body),
            (FlatPlace::Body, FlatLine::Row { .. }) if has_valid_numbers(line) => Some(
                FlatPlace::Body,
            ),
            (FlatPlace::Body, FlatLine::End) => Some(FlatPlace::Ended),
            _ => None,
        }
    }
}

// The head with this name.
fn head_of(name: FlatName, version: &[u8], word: &[u8]) -> Option<FlatLine>
    ensures { result ≡ head_line name (version.now ∷ word.now ∷ []) }
{
    if is_word(version, "1") && is_word(word, name.word()) {
        Some(FlatLine::Head)
    } else {
        None
    }
}

// The head that the words behind its tag spell.
fn parse_head(name: FlatName, bytes: &[u8]) -> Option<FlatLine>
    ensures { result ≡ head_line name (slice_split is_blank bytes.now) }
{
    let (version, word) = split_word(bytes)?;
    match split_word(word) {
        None => head_of(name, version, word),
        Some(_) => None,
    }
}

// The row of a letter and a fourth number.
fn row_of_four(tag: u8, a: i128, b: i128, c: i128, bytes: &[u8]) -> Option<FlatLine>
    requires { is_letter tag ≡ true }
    ensures { result ≡ row_with tag (a ∷ b ∷ c ∷ []) (numbers_of (slice_split is_blank bytes.now)) }
{
    match split_word(bytes) {
        None => {
            let e = parse_number(bytes)?;
            Some(FlatLine::Row {
                tag,
                count: 4,
                a,
                b,
                c,
                e,
            })
        }
        Some(_) => None,
    }
}

// The row of a letter, two numbers and those that bytes spell.
fn row_of_three(tag: u8, a: i128, b: i128, bytes: &[u8]) -> Option<FlatLine>
    requires { is_letter tag ≡ true }
    ensures { result ≡ row_with tag (a ∷ b ∷ []) (numbers_of (slice_split is_blank bytes.now)) }
{
    let Some((word, rest)) = split_word(bytes) else {
        let c = parse_number(bytes)?;
        return Some(FlatLine::Row {
            tag,
            count: 3,
            a,
            b,
            c,
            e: 0,
        });
    };
    let c = parse_number(word)?;
    row_of_four(tag, a, b, c, rest)
}

// The row of a letter, a number and those that bytes spell.
fn row_of_two(tag: u8, a: i128, bytes: &[u8]) -> Option<FlatLine>
    requires { is_letter tag ≡ true }
    ensures { result ≡ row_with tag (a ∷ []) (numbers_of (slice_split is_blank bytes.now)) }
{
    let Some((word, rest)) = split_word(bytes) else {
        let b = parse_number(bytes)?;
        return Some(FlatLine::Row {
            tag,
            count: 2,
            a,
            b,
            c: 0,
            e: 0,
        });
    };
    let b = parse_number(word)?;
    row_of_three(tag, a, b, rest)
}

// The row of a letter and the numbers that bytes spell.
fn row_of_one(tag: u8, bytes: &[u8]) -> Option<FlatLine>
    requires { is_letter tag ≡ true }
    ensures { result ≡ row_with tag [] (numbers_of (slice_split is_blank bytes.now)) }
{
    let Some((word, rest)) = split_word(bytes) else {
        let a = parse_number(bytes)?;
        return Some(FlatLine::Row {
            tag,
            count: 1,
            a,
            b: 0,
            c: 0,
            e: 0,
        });
    };
    let a = parse_number(word)?;
    row_of_two(tag, a, rest)
}

// The row that a tag and the words behind it spell.
fn parse_row(tag: &[u8], bytes: &[u8]) -> Option<FlatLine>
    ensures { result ≡ row_line tag.now (numbers_of (slice_split is_blank bytes.now)) }
{
    match tag {
        [letter] if is_lower_case(*letter) => row_of_one(*letter, bytes),
        _ => None,
    }
}

/// The line of a flat text that bytes spell; the line feed behind them is not among them. It takes no memory.
pub fn parse_flat_line(name: FlatName, bytes: &[u8]) -> Option<FlatLine>
    ensures { result ≡ line_of name bytes.now }
{
    let Some((tag, rest)) = split_word(bytes) else {
        return if is_word(bytes, "end") {
            Some(FlatLine::End)
        } else {
            None
        };
    };
    if is_word(tag, "certificate") {
        parse_head(name, rest)
    } else {
        parse_row(tag, rest)
    }
}
