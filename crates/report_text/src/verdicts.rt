// What `check` prints.
ghost use Rattle.std.specs.Prelude.{◌≡◌, IfOk};
ghost use Rattle.report_text.specs.Verdicts.{accepted_text, rejection_text};

use fraction128::{Memory, Text};
use std::alloc::Global;

/// The text for a certificate that is accepted.
pub fn accepted_text(alloc: Global) -> Result<Text, Memory>
    ensures { IfOk result (λ text. text ≡ accepted_text) }
{
    let mut text = Text::new(alloc);
    text.push(b"accepted\n")?;
    Ok(text)
}

/// The text for a certificate that is rejected: its first line that breaks a rule, from 1, and the rule.
pub fn rejection_text(alloc: Global, line: u64, rule: u32) -> Result<Text, Memory>
    ensures { IfOk result (λ text. text ≡ rejection_text line rule) }
{
    let mut text = Text::new(alloc);
    let Ok(words) = format!(in alloc; "rejected line {line} rule {rule}\n") else {
        return Err(Memory);
    };
    text.push(words.as_bytes())?;
    Ok(text)
}
