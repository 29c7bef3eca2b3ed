//! What is written of a tally: the outcomes with their counts and schedules.

ghost use Rattle.std.specs.Prelude.{◌≡◌, OnOk};
ghost use Rattle.std.specs.Io.KnownBytes.{Appends};
ghost use Rattle.engine_support.specs.inner.{IsEndOf};
ghost use Rattle.sampling.specs.Outcomes.{last_line, shown_by};
ghost use Rattle.sampling.specs.inner.Tallies.{good_by, left_name, tally_text, text_and_good};

use crate::trials::tally::Tally;
use engine_support::fault::Fault;
use engine_support::outcomes::FirstRun;
use litmus::Test;
use std::io::{self, Write};

/// What the last line says of the runs that did not finish.
#[derive(Clone, Copy)]
pub enum Unfinished {
    /// How many they are.
    Counted,
    /// And then the schedule of the first one.
    Shown,
}

/// Whether the runs of a tally show what the test asks.
fn is_good<F>(test: &Test, tally: &Tally<F>) -> bool
    ensures { result ≡ good_by test.now.quantifier tally.now.some_hold tally.now.some_fail }
{
    if test.by_exists() {
        tally.some_hold
    } else {
        !tally.some_fail
    }
}

/// Writes what is asked of the first run that did not finish, if there is one.
fn write_left<F: FirstRun, W: Write>(
    writer: &mut W,
    left: Unfinished,
    first: Option<F>,
) -> io::Result<()>
    ensures { OnOk result (Appends (W.contents writer.old) (W.contents writer.new) (shown_by left (left_name F.name first))) }
{
    match (left, first) {
        (Unfinished::Shown, Some(first)) => {
            writer.write_all(b" ;")?;
            first.write_name(writer)
        }
        _ => Ok(()),
    }
}

/// Writes how many runs did not finish, and what is asked of the first.
fn write_last<F: FirstRun, W: Write>(
    writer: &mut W,
    left: Unfinished,
    count: u32,
    first: Option<F>,
) -> io::Result<()>
    ensures { OnOk result (Appends (W.contents writer.old) (W.contents writer.new) (last_line count (shown_by left (left_name F.name first)))) }
{
    write!(writer, "unfinished {count}")?;
    write_left(writer, left, first)?;
    writer.write_all(b"\n")
}

/// Writes the lines of all outcomes, and how many runs did not finish, with what is asked of the first.
fn write_tally<F: FirstRun, W: Write>(
    writer: &mut W,
    left: Unfinished,
    test: &Test,
    tally: Tally<F>,
) -> io::Result<()>
    ensures { OnOk result (Appends (W.contents writer.old) (W.contents writer.new) (tally_text F.name left test.now tally)) }
{
    tally.outcomes.write_lines(writer, test)?;
    write_last(writer, left, tally.unfinished, tally.first_unfinished)?;
    writer.flush()
}

/// Ends a command that made this tally of a test's runs: writes its text, line by line, and answers whether the runs
/// show what the test asks. Where the command made nothing, nothing is written.
pub fn end_with_tally<F: FirstRun, W: Write>(
    made: Result<(Test, Tally<F>), Fault>,
    left: Unfinished,
    writer: &mut W,
) -> Result<bool, Fault>
    ensures { IsEndOf (text_and_good F.name left) made result W.contents writer.old writer.new }
{
    let (test, tally) = made?;
    let good = is_good(&test, &tally);
    write_tally(writer, left, &test, tally).map_err(|_| Fault::WriteFailed)?;
    Ok(good)
}
