// Bytes cut at one of them.
ghost use Rattle.std.specs.Prelude.{◌≡◌, ◌++◌, ◌∷◌, MatchOption};
ghost use Rattle.line_text.specs.LineWords.{IsWithout};

use memchr::memchr;

/// What stands before the first such byte, and what stands behind it; `None` where there is none. It is fast where the
/// byte is near.
pub fn split_at_byte(bytes: &[u8], byte: u8) -> Option<(&[u8], &[u8])>
    ensures { MatchOption result (IsWithout byte bytes.now) (λ cut.
        IsWithout byte cut.0.now × (bytes.now ≡ cut.0.now ++ byte ∷ cut.1.now)) }
{
    let at = bytes.iter().position(|b| *b == byte)?;
    Some((&bytes[..at], &bytes[at + 1..]))
}

/// What stands before the first line feed, and what stands behind it; `None` where there is none.
pub(crate) fn split_line(bytes: &[u8]) -> Option<(&[u8], &[u8])>
    ensures { MatchOption result (IsWithout 10 bytes.now) (λ cut.
        IsWithout 10 cut.0.now × (bytes.now ≡ cut.0.now ++ 10 ∷ cut.1.now)) }
{
    let at = memchr(b'\n', bytes)?;
    Some((&bytes[..at], &bytes[at + 1..]))
}
