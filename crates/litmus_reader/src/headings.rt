//! A test's name and the text of its condition.

ghost use Rattle.std.specs.Prelude.{◌≡◌, IfOk, OnOk, Ok, [], List};
ghost use Rattle.std.specs.List.{slice_index_or};
ghost use Rattle.texts.specs.Results.{GivesUpToMemory};
ghost use Rattle.texts.specs.Cutting.{tokens};
ghost use Rattle.litmus_reader.specs.Faults.{fault_of, fault_in};
ghost use Rattle.litmus_reader.specs.declared.marks.Mark.TheVariants.{Visible};
ghost use Rattle.litmus_reader.specs.Marks.{from_line};
ghost use Rattle.litmus_reader.specs.Headings.{HeadingOf, IsHeading, in_one_line, with_word, first_line, name_in, heading_in, heading_at, heading_of};

use crate::faults::{LitmusError, LitmusFault};
use crate::header::{after_brace, after_header};
use crate::marks::{Mark, cut_at_line};
use crate::refusals::{Refusal, error_of};
use litmus_tokens::cleaned;
use std::alloc::{AllocError, Global};
use texts::Separators;
use texts::cutting::{cut_at, first_token};
use texts::pieces::first_piece;

/// What stands at the head and at the foot of a test's pictures.
#[derive(Drop)]
pub struct Heading {
    /// The second token of the header line, after `RISCV`.
    pub name: Vec<u8>,
    /// The condition with its quantifier, in one line: without comments, with one space between words.
    pub condition: Vec<u8>,
}

fn second_token(line: &[u8]) -> &[u8]
    ensures { result.now ≡ slice_index_or (tokens line.now) 1 [] }
{
    let Some((_, rest)) = first_token(line) else {
        return b"";
    };
    match first_token(rest) {
        Some((token, _)) => token,
        None => b"",
    }
}

/// The first line that isn't blank.
fn first_line(text: &[u8]) -> &[u8]
    ensures { result.now ≡ first_line (from_line Visible text.now) }
{
    match cut_at_line(Mark::Visible, text).1 {
        Some(headed) => cut_at(headed, b'\n').0,
        None => b"",
    }
}

/// The second token of the first line that isn't blank.
fn name_in(text: &[u8]) -> &[u8]
    ensures { result.now ≡ name_in text.now }
{
    second_token(first_line(text))
}

/// Appends a word, after a space where something stands already.
fn push_word(line: &mut Vec<u8>, word: &[u8]) -> Result<(), AllocError>
    ensures { OnOk result (line.new.items ≡ with_word line.old.items word.now) }
{
    if line.is_empty() || word.is_empty() {
        return line.extend_from_slice(word);
    }
    line.push(b' ')?;
    line.extend_from_slice(word)
}

/// The words of a text in one line.
#[tactic(auto, using(crate::proofs::HeadingLaws::carried_all))]
fn in_one_line(alloc: Global, text: &[u8]) -> Result<Vec<u8>, AllocError>
    ensures { IfOk result (λ line. line.items ≡ in_one_line text.now) }
{
    let mut line = Vec::new(alloc);
    let mut rest = Some(text);
    while let Some(bytes) = rest {
        let (piece, after) = first_piece(Separators::Gaps, bytes);
        push_word(&mut line, piece)?;
        rest = after;
    }
    Ok(line)
}

/// The heading in a text without comments.
#[tactic(auto, unfolding(crate::specs::Headings::heading_in))]
fn heading_in(alloc: Global, text: &[u8]) -> Result<Heading, Refusal>
    ensures { GivesUpToMemory fault_in heading_of result (heading_in text.now) }
{
    let inner = after_brace(after_header(text)?)?;
    let Some(rest) = cut_at(inner, b'}').1 else {
        return Err(LitmusFault::BadInit.at_end());
    };
    let Some(condition_text) = cut_at_line(Mark::Condition, rest).1 else {
        return Err(LitmusFault::BadCondition.at_end());
    };
    let mut name = Vec::new(alloc);
    name.extend_from_slice(name_in(text))?;
    let condition = in_one_line(alloc, condition_text)?;
    Ok(Heading { name, condition })
}

/// The heading in a text, as [`read_heading`] says.
#[tactic(auto, unfolding(crate::specs::Headings::heading_at))]
fn cleaned_heading(alloc: Global, text: &[u8]) -> Result<Heading, LitmusError>
    ensures { GivesUpToMemory fault_of heading_of result (heading_at text.now) }
{
    let clean = cleaned(alloc, text)?;
    match heading_in(alloc, &clean) {
        Ok(heading) => Ok(heading),
        Err(refusal) => Err(error_of(refusal, text)),
    }
}

/// The name of a test and the text of its condition. Each text that [`crate::read`] accepts has them;
/// of init part, table and condition no more is read here than where they begin.
///
/// The fault is `NoHeader` where there is no header line, `BadInit` where a brace is missing, and
/// `BadCondition` where no line begins a condition.
#[tactic(auto, using(crate::proofs::HeadingLaws::found_heading, crate::proofs::HeadingLaws::only_heading))]
pub fn read_heading(alloc: Global, text: &str) -> Result<Heading, LitmusError>
    ensures found { IfOk result (λ heading. IsHeading text.now (heading_of heading)) }
    ensures only { (heading : HeadingOf) → IsHeading text.now heading → GivesUpToMemory fault_of heading_of result (Ok heading) }
    ensures exact { GivesUpToMemory fault_of heading_of result (heading_at text.now) }
{
    cleaned_heading(alloc, text.as_bytes())
}
