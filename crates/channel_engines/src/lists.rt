//! Lists of words, a line each: the input of `channel`.

ghost use Rattle.std.specs.Prelude.{map};
ghost use Rattle.texts.specs.Results.{GivesUpToMemory, refusal_of};
ghost use Rattle.engine_support.specs.Faults.{Answers, at_line as line_at};
ghost use Rattle.channel_engines.specs.Lists.{list_of as list_parsed, list_texts, lists_at};
ghost use Rattle.engine_support.specs.Inputs.{Reads};
ghost use Rattle.engine_support.specs.inner.{FindsUpToReads};

use engine_support::fault::{BAD, Fault, LineFault, at_line};
use engine_support::input::read_text;
use std::alloc::Global;
use std::io::Read;
use texts::{Separators, first_line, first_piece, word};

/// The words of a line.
#[tactic(auto, unfolding(crate::specs::Lists::list_at, texts::specs::Formats::each))]
fn list_of(alloc: Global, line: &[u8]) -> Result<Vec<u32>, LineFault>
    ensures { GivesUpToMemory refusal_of (λ list. list.items) result (list_parsed line.now) }
{
    let mut list = Vec::new(alloc);
    let mut rest = Some(line);
    while let Some(bytes) = rest {
        let (digits, after) = first_piece(Separators::Spaces, bytes);
        if !digits.is_empty() {
            list.push(word(digits).ok_or(BAD)?)?;
        }
        rest = after;
    }
    Ok(list)
}

/// The words of the line of this number.
#[tactic(auto, using(engine_support::proofs::LineReading::refused_at_line))]
fn list_of_line(alloc: Global, line: &[u8], number: usize) -> Result<Vec<u32>, Fault>
    ensures { Answers (λ list. list.items) result (line_at number (list_parsed line.now)) }
{
    match list_of(alloc, line) {
        Ok(list) => Ok(list),
        Err(fault) => Err(at_line(fault, number)),
    }
}

/// A line each: an empty line is a list without words.
#[tactic(auto, unfolding(crate::specs::Lists::lists_at, crate::specs::Lists::lists_of_lines, texts::specs::Formats::each_at))]
fn lists_of_text(alloc: Global, text: &[u8]) -> Result<Vec<Vec<u32>>, Fault>
    ensures { Answers (λ lists. map (λ list. list.items) lists.items) result (lists_at text.now) }
{
    let mut lists = Vec::new(alloc);
    let mut rest = text;
    let mut number = 0;
    while let Some((line, after)) = first_line(rest) {
        number += 1;
        let list = list_of_line(alloc, line, number)?;
        lists.push(list)?;
        rest = after;
    }
    Ok(lists)
}

/// The lists of the input that a reader gives.
pub fn read_lists<R: Read>(alloc: Global, reader: &mut R) -> Result<Vec<Vec<u32>>, Fault>
    ensures { FindsUpToReads (Reads list_texts (R.remaining reader.old)) (λ lists. map (λ list. list.items) lists.items) result }
{
    let text = read_text(alloc, reader)?;
    lists_of_text(alloc, text.as_bytes())
}
