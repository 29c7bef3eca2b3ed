//! The command `chart`: a litmus text and a schedule in, a picture of the run out.

ghost use Rattle.std.specs.Prelude.{◌≡◌, ◌≤◌, IfOk, Ok, length};
ghost use Rattle.std.specs.String.{string_bytes};
ghost use Rattle.recorder.specs.Versions.{ScheduleValue, schedule_value};
ghost use Rattle.litmus_reader.specs.Headings.{heading_of};
ghost use Rattle.engine_support.specs.Engines.{Ends};
ghost use Rattle.engine_support.specs.Faults.{AnswersAs};
ghost use Rattle.engine_support.specs.Runs.{Runs};
ghost use Rattle.engine_support.specs.Inputs.{IsRefused, tests};
ghost use Rattle.engine_support.specs.inner.{FindsUpToReads, text_and_value};
ghost use Rattle.view_engines.specs.Chart.{IsChart, IsChartAnswer, drawing};
ghost use Rattle.litmus.specs.declared.litmus_test.TheConstants.{MAX_LOCATIONS};

use crate::about::about_run;
use crate::heading::read_headed;
pub use chart::charts::{Selection, Style};
use chart::charts::{About, chart_svg, chart_text};
use engine_support::fault::{Fault, Position, TOO_LARGE};
use engine_support::output::end_with;
use engine_support::running::machine_of_schedule;
use engine_support::schedule::read_schedule;
use litmus::Test;
use litmus_reader::Heading;
use recorder::Schedule;
use std::alloc::{AllocError, Global};
use std::io::{Read, Write};
use step_machine::{Entry, Machine};

/// The most entries of a run that is drawn.
pub const MAX_ROWS: usize = 10_000;

/// The picture of a run with these entries.
fn drawn(
    alloc: Global,
    style: Style,
    selection: Selection,
    about: About,
    entries: &[Entry],
) -> Result<String, AllocError>
    ensures { IfOk result (λ text. string_bytes text ≡ drawing style selection about entries.now) }
{
    match style {
        Style::Text => chart_text(alloc, selection, about, entries),
        Style::Svg => chart_svg(alloc, selection, about, entries),
    }
}

/// The picture of the run of a test that a machine has made. It runs the entries again from the opening, since each
/// row shows the instruction at its hart's pc then.
fn picture_of_run<const B: usize, const M: usize>(
    alloc: Global,
    style: Style,
    selection: Selection,
    test: &Test,
    heading: &Heading,
    machine: &mut Machine<B, M>,
) -> Result<(String, ()), Fault>
    requires size { M ≤ 65536 }
    requires opening { machine.old.history.opening ≡ test.now.opening }
    requires locations { length test.now.opening.words ≡ length test.now.names }
    requires names { length test.now.names ≤ M }
    ensures { (parsed : ScheduleValue) → Runs B M test.now.opening parsed (Ok machine.old.history)
        → AnswersAs (IsChart B M (drawing style selection) (heading_of heading.now) test.now parsed) text_and_value
        result }
{
    let entries = machine.entries().into_vec(alloc)?;
    if entries.len() > MAX_ROWS {
        return Err(Fault::refused(TOO_LARGE, Position::Nowhere));
    }
    let about = about_run(alloc, test, heading, machine, &entries)?;
    let text = drawn(alloc, style, selection, about, &entries)?;
    Ok((text, ()))
}

/// The picture of a test's run by a schedule.
fn picture<const B: usize, const M: usize>(
    alloc: Global,
    style: Style,
    selection: Selection,
    test: &Test,
    heading: &Heading,
    schedule: Schedule,
) -> Result<(String, ()), Fault>
    requires some_capacity { 1 ≤ B }
    requires capacity { B ≤ 64 }
    requires words { MAX_LOCATIONS ≤ M }
    requires size { M ≤ 65536 }
    requires locations { length test.now.opening.words ≡ length test.now.names }
    ensures { AnswersAs (IsChart B M (drawing style selection) (heading_of heading.now) test.now (schedule_value schedule)) text_and_value result }
{
    let mut machine = machine_of_schedule::<B, M>(alloc, test, schedule)?;
    picture_of_run(alloc, style, selection, test, heading, &mut machine)
}

/// What is to be written for the inputs that the readers give.
fn made<const B: usize, const M: usize, F: Read, S: Read>(
    alloc: Global,
    style: Style,
    selection: Selection,
    file: &mut F,
    schedule: &mut S,
) -> Result<(String, ()), Fault>
    requires some_capacity { 1 ≤ B }
    requires capacity { B ≤ 64 }
    requires words { MAX_LOCATIONS ≤ M }
    requires size { M ≤ 65536 }
    ensures made { FindsUpToReads (IsChartAnswer B M (drawing style selection) (F.remaining file.old) (S.remaining schedule.old))
        text_and_value result }
    ensures unread { IsRefused tests (F.remaining file.old) → schedule.new ≡ schedule.old }
{
    let (test, heading) = read_headed(alloc, file)?;
    let parsed = read_schedule(alloc, schedule)?;
    picture::<B, M>(alloc, style, selection, &test, &heading, parsed)
}

/// Reads a litmus text and then a schedule of either version, each to its end, runs the schedule from the
/// test's opening with store buffers of `B` pairs and `M` words of memory, and writes a picture of the run:
/// a row for each entry, or for each but inner ones, below the test's name and above the last values and the
/// verdict.
///
/// Inputs are refused as [`crate::shrinking::shrink_engine`] refuses them, except that a run needn't be
/// finished. A run of more than [`MAX_ROWS`] entries is refused as too large
/// ([`engine_support::fault::TOO_LARGE`]). Then nothing was written. A schedule after a refused litmus text
/// is not read. A memory of 1,024 words has room for each test's locations.
pub fn chart_engine<const B: usize, const M: usize, F: Read, S: Read, W: Write>(
    alloc: Global,
    style: Style,
    selection: Selection,
    file: &mut F,
    schedule: &mut S,
    writer: &mut W,
) -> Result<(), Fault>
    requires some_capacity { 1 ≤ B }
    requires capacity { B ≤ 64 }
    requires words { MAX_LOCATIONS ≤ M }
    requires size { M ≤ 65536 }
    ensures ends { Ends (IsChartAnswer B M (drawing style selection) (F.remaining file.old) (S.remaining schedule.old)) result
        W.contents writer.old writer.new }
    ensures unread { IsRefused tests (F.remaining file.old) → schedule.new ≡ schedule.old }
{
    end_with(
        made::<B, M, F, S>(alloc, style, selection, file, schedule),
        writer,
    )
}
