//! Where a text is refused.

ghost use Rattle.std.specs.Prelude.{◌≡◌, ◌≤◌, length, position, Some};
ghost use Rattle.std.specs.List.{count_by};
ghost use Rattle.texts.specs.Cutting.{is_byte};
ghost use Rattle.texts.specs.declared.errors.TextError.TheVariants.{Refused};
ghost use Rattle.litmus_reader.specs.Faults.{fault_of, fault_in};
ghost use Rattle.litmus_reader.specs.Lines.{last_line, line_at, error_at, is_visible, left_of};

use crate::faults::{LitmusError, LitmusFault};
use texts::{Separators, TextError, first_line};

/// A fault that is met where `left` bytes of the text are left; none are left where a part is missing.
#[derive(Clone, Copy)]
pub struct AtLeft {
    pub fault: LitmusFault,
    pub left: usize,
}

/// Why a part of a text wasn't read.
pub type Refusal = TextError<AtLeft>;

impl LitmusFault {
    /// The refusal for this fault where `left` bytes of the text are left.
    pub(crate) fn at(self, left: usize) -> Refusal
        ensures fault { fault_in result ≡ Some self }
        ensures place { result ≡ Refused (record { fault = self; left = left }) }
    {
        Refusal::Refused(AtLeft { fault: self, left })
    }

    /// The refusal for this fault where a part of the text is missing.
    pub(crate) fn at_end(self) -> Refusal
        ensures fault { fault_in result ≡ Some self }
        ensures place { result ≡ Refused (record { fault = self; left = 0 }) }
    {
        self.at(0)
    }
}

/// The refusal of the whole text, with the fault's line.
pub fn error_of(refusal: Refusal, text: &[u8]) -> LitmusError
    ensures fault { fault_of result ≡ fault_in refusal }
    ensures line { result ≡ error_at text.now refusal }
{
    match refusal {
        Refusal::NoMemory => LitmusError::NoMemory,
        Refusal::Refused(AtLeft { fault, left }) => LitmusError::at_line(
            fault,
            line_at(text, left),
        ),
    }
}

/// The last line that isn't empty, counted from 1, or the first one where all are empty.
fn last_line(text: &[u8]) -> usize
    ensures { result ≡ last_line text.now }
{
    let mut last = 1;
    let mut seen = 0;
    let mut rest = text;
    while let Some((line, after)) = first_line(rest) {
        seen += 1;
        if !line.is_empty() {
            last = seen;
        }
        rest = after;
    }
    last
}

/// How many lines end in these bytes.
pub fn lines_in(bytes: &[u8]) -> usize
    ensures count { result ≡ count_by (is_byte 10) bytes.now }
    ensures few { result ≤ length bytes.now }
{
    bytes.iter().filter(|byte| **byte == b'\n').count()
}

/// The line, counted from 1, in which the last `left` bytes of the text begin. Where none are left, it
/// is the last line that isn't empty.
#[tactic(auto, unfolding(crate::specs::Lines::line_at))]
fn line_at(text: &[u8], left: usize) -> usize
    ensures { result ≡ line_at text.now left }
{
    if left == 0 {
        return last_line(text);
    }
    lines_in(&text[..text.len().saturating_sub(left)]) + 1
}

/// The place of the first byte that is no blank and no line end.
fn first_visible(text: &[u8]) -> Option<usize>
    ensures { result ≡ position is_visible text.now }
{
    text.iter()
        .position(|byte| !Separators::Gaps.contain(*byte))
}

/// How many bytes of the text are left where its first byte stands that is no blank and no line end.
/// It serves the lines of faults alone.
pub fn left_of(text: &[u8]) -> usize
    ensures { result ≡ left_of text.now }
{
    match first_visible(text) {
        Some(at) => text.len().saturating_sub(at),
        None => text.len(),
    }
}
