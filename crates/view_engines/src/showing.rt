//! The command `show`: a litmus text in, what its test is out.

ghost use Rattle.std.specs.Prelude.{◌≡◌, ◌≤◌, Some, length};
ghost use Rattle.std.specs.Str.{IsUtf8};
ghost use Rattle.litmus_reader.specs.Grammar.{IsTestOf};
ghost use Rattle.litmus_reader.specs.Headings.{IsHeading, heading_of};
ghost use Rattle.engine_support.specs.Engines.{Ends};
ghost use Rattle.engine_support.specs.Faults.{AnswersAs};
ghost use Rattle.engine_support.specs.inner.{FindsUpToReads, text_and_value};
ghost use Rattle.engine_support.specs.declared.input.TheConstants.{INPUT_BYTES};
ghost use Rattle.view_engines.specs.declared.showing.Form.TheVariants.{Table};
ghost use Rattle.view_engines.specs.Show.{IsShow, IsShowAnswer, IsSteps};

use crate::heading::headed_of_text;
use crate::openings::steps_text;
use crate::test_lines::test_lines;
use engine_support::fault::{Fault, Position, TOO_LARGE};
use engine_support::input::{INPUT_BYTES, read_text};
use engine_support::output::end_with;
use litmus::Test;
use litmus_reader::{Heading, LitmusError, read_listing};
use std::alloc::Global;
use std::io::{Read, Write};

/// How a test is shown.
#[derive(Clone, Copy, PartialEq, Eq)]
pub enum Form {
    /// What it is, one thing a line.
    Table,
    /// Its opening, as a steps text.
    Steps,
}

/// The lines of a text's test. A text with a test has a listing.
fn table_of(
    alloc: Global,
    text: &str,
    test: &Test,
    heading: &Heading,
) -> Result<(String, ()), Fault>
    requires test { IsTestOf text.now test.now }
    requires locations { length test.now.opening.words ≡ length test.now.names }
    requires heading { IsHeading text.now (heading_of heading.now) }
    ensures { AnswersAs (IsShow Table text.now test.now) text_and_value result }
{
    let rows = match read_listing(alloc, text) {
        Ok(rows) => rows,
        Err(LitmusError::NoMemory) => return Err(Fault::NoMemory),
        Err(LitmusError::Refused(_)) => unreachable!(),
    };
    let lines = test_lines(alloc, test, heading, &rows)?;
    Ok((lines, ()))
}

/// Where a test opens. A text that `steps` would refuse as too large is refused so.
fn steps_of(alloc: Global, test: &Test) -> Result<(String, ()), Fault>
    ensures { AnswersAs (IsSteps test.now) text_and_value result }
{
    let opening = test.opening(alloc)?;
    let text = steps_text(alloc, &opening)?;
    if text.len() > INPUT_BYTES {
        return Err(Fault::refused(TOO_LARGE, Position::Nowhere));
    }
    Ok((text, ()))
}

/// A text's test in this form.
fn shown(
    alloc: Global,
    form: Form,
    text: &str,
    test: &Test,
    heading: &Heading,
) -> Result<(String, ()), Fault>
    requires test { IsTestOf text.now test.now }
    requires locations { length test.now.opening.words ≡ length test.now.names }
    requires heading { IsHeading text.now (heading_of heading.now) }
    ensures { AnswersAs (IsShow form text.now test.now) text_and_value result }
{
    match form {
        Form::Table => table_of(alloc, text, test, heading),
        Form::Steps => steps_of(alloc, test),
    }
}

/// What is to be written for a text.
fn shown_of_text(alloc: Global, form: Form, text: &str) -> Result<(String, ()), Fault>
    ensures { length text.now ≤ INPUT_BYTES → IsUtf8 text.now → AnswersAs (IsShowAnswer form (Some text.now)) text_and_value result }
{
    let (test, heading) = headed_of_text(alloc, text)?;
    shown(alloc, form, text, &test, &heading)
}

/// What is to be written for the input that a reader gives.
fn made<R: Read>(alloc: Global, form: Form, reader: &mut R) -> Result<(String, ()), Fault>
    ensures { FindsUpToReads (IsShowAnswer form (R.remaining reader.old)) text_and_value result }
{
    let text = read_text(alloc, reader)?;
    shown_of_text(alloc, form, &text)
}

/// Reads a litmus text to its end, and writes what its test is: as a table, a line for each thing, or its
/// opening as a steps text. Neither the capacity of store buffers nor the size of memory is part of that.
///
/// An input is refused as too large ([`TOO_LARGE`]), else as no text
/// ([`engine_support::fault::NOT_TEXT`]), else as [`litmus_reader::read`] says, at the line. A steps text that is
/// longer than an input may be is refused as too large. Where there is a refusal nothing was written.
pub fn show_engine<R: Read, W: Write>(
    alloc: Global,
    form: Form,
    file: &mut R,
    writer: &mut W,
) -> Result<(), Fault>
    ensures { Ends (IsShowAnswer form (R.remaining file.old)) result W.contents writer.old writer.new }
{
    end_with(made(alloc, form, file), writer)
}
