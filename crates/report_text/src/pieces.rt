// Texts of several pieces.
ghost use Rattle.std.specs.Prelude.{◌≡◌, ◌++◌, OnOk, codes, decimal};
ghost use Rattle.std.specs.Fmt.{signed_decimal};

use fraction128::{Memory, Text};
use itoa::{Buffer, Integer};

/// Appends a number in decimal.
pub fn push_number<N: Integer>(out: &mut Text, number: N) -> Result<(), Memory>
    ensures { OnOk result (out.new ≡ out.old ++ N.text number) }
{
    let mut buffer = Buffer::new();
    out.push(buffer.format(number).as_bytes())
}

// Appends a number in decimal, with a word before it and one behind it.
pub fn push_numbered(out: &mut Text, before: &str, number: u32, after: &str) -> Result<(), Memory>
    ensures { OnOk result (out.new ≡ out.old ++ (before.now ++ decimal number ++ after.now)) }
{
    out.push(before.as_bytes())?;
    push_number(out, number)?;
    out.push(after.as_bytes())
}

// Appends a word and what stands behind it.
pub fn push_both(out: &mut Text, word: &str, behind: &[u8]) -> Result<(), Memory>
    ensures { OnOk result (out.new ≡ out.old ++ (word.now ++ behind.now)) }
{
    out.push(word.as_bytes())?;
    out.push(behind)
}

// Appends two positions, each behind its word, and ends the line.
pub fn push_positions(
    out: &mut Text,
    first_word: &str,
    first: i64,
    second_word: &str,
    second: i64,
) -> Result<(), Memory>
    ensures { OnOk result (out.new ≡ out.old ++ (first_word.now ++ signed_decimal first ++ second_word.now ++ signed_decimal second ++ codes "\n")) }
{
    out.push(first_word.as_bytes())?;
    push_number(out, first)?;
    out.push(second_word.as_bytes())?;
    push_number(out, second)?;
    out.push(b"\n")
}
