//! The text that is being read, line by line.

ghost use Rattle.std.specs.Prelude.{◌≡◌, OnErr, OnOk};
ghost use Rattle.checking.specs.RecordTexts.{are_blank_lines, begins_record, is_left_out};
ghost use Rattle.checking.specs.inner.{held_with};

use engine_support::input::INPUT_BYTES;
use recorder::{RECORD_HEAD, has_head};
use std::alloc::AllocError;
use texts::cutting::is_all;
use texts::{Separators, first_line};

/// A record begins at each line that is [`RECORD_HEAD`], and at no other one.
pub fn begins_record(line: &[u8]) -> bool
    ensures { result ≡ begins_record line.now }
{
    has_head(RECORD_HEAD, line)
}

/// Whether each line of a text is blank. A CR that no LF follows is no blank.
#[tactic(auto, unfolding(crate::specs::RecordTexts::are_blank_lines))]
fn are_blank_lines(text: &[u8]) -> bool
    ensures { result ≡ are_blank_lines text.now }
{
    let mut rest = text;
    while let Some((line, after)) = first_line(rest) {
        if !is_all(Separators::Blanks, line) {
            return false;
        }
        rest = after;
    }
    true
}

/// Whether a text is left out that stands before the first record.
pub fn is_left_out(text: &[u8]) -> bool
    ensures { result ≡ is_left_out text.now }
{
    text.len() <= INPUT_BYTES && are_blank_lines(text)
}

/// Appends a line to a text. Of one that is too large already nothing more is kept.
pub fn hold(text: &mut Vec<u8>, line: &[u8]) -> Result<(), AllocError>
    ensures exact { OnOk result (text.new.items ≡ held_with text.old.items line.now) }
    ensures err { OnErr result (text.new.items ≡ text.old.items) }
{
    if text.len() > INPUT_BYTES {
        return Ok(());
    }
    text.extend_from_slice(line)
}
