//! The command `run`: a litmus text and a schedule in, the state text of the run and the verdict out.

ghost use Rattle.std.specs.Prelude.{◌≡◌, ◌≤◌, ◌++◌, length, IfOk, OnOk};
ghost use Rattle.std.specs.String.{string_bytes};
ghost use Rattle.step_machine.specs.Standing.{ForEachHistory};
ghost use Rattle.engine_support.specs.Engines.{Ends};
ghost use Rattle.engine_support.specs.Histories.{AnswersRun};
ghost use Rattle.engine_support.specs.Inputs.{IsRefused, tests};
ghost use Rattle.run_engines.specs.Run.{verdict_line, IsJudged, IsRunAnswer};
ghost use Rattle.engine_support.specs.inner.{text_and_value};
ghost use Rattle.litmus.specs.declared.litmus_test.TheConstants.{MAX_LOCATIONS};

use engine_support::command::{ScheduleCommand, schedule_engine};
use engine_support::fault::Fault;
use engine_support::running::state_of_schedule;
use engine_support::state_text::state_text;
use litmus::{Test, Verdict};
use recorder::Schedule;
use std::alloc::{AllocError, Global};
use std::io::{Read, Write};
use step_machine::MachineState;

fn push_verdict(out: &mut String, verdict: Verdict) -> Result<(), AllocError>
    ensures { OnOk result (string_bytes out.new ≡ string_bytes out.old ++ verdict_line verdict) }
{
    match verdict {
        Verdict::Holds => writeln!(out, "Holds"),
        Verdict::Fails => writeln!(out, "Fails"),
        Verdict::Unfinished => writeln!(out, "Unfinished"),
    }
}

/// The state text of a test's machine, with the verdict on a line, and the verdict.
pub fn judged_text<const B: usize, const M: usize>(
    alloc: Global,
    test: &Test,
    machine: &MachineState<B, M>,
) -> Result<(String, Verdict), AllocError>
    requires harts { length machine.now.harts ≡ length test.now.opening.harts }
    requires names { length test.now.names ≤ M }
    requires size { M ≤ 65536 }
    ensures { IfOk result (λ answer. ForEachHistory B M machine.now (λ t. IsJudged M test.now t (text_and_value answer))) }
{
    let verdict = test.verdict(machine);
    let mut text = state_text(alloc, machine)?;
    push_verdict(&mut text, verdict)?;
    Ok((text, verdict))
}

struct Run;

impl<const B: usize, const M: usize> ScheduleCommand<B, M> for Run {
    type Value = Verdict;

    ghost is_answer = { AnswersRun B M (IsJudged M) };

    fn answer(alloc: Global, test: &Test, parsed: Schedule) -> Result<(String, Verdict), Fault> {
        let machine = state_of_schedule::<B, M>(alloc, test, parsed)?;
        let judged = judged_text(alloc, test, &machine)?;
        Ok(judged)
    }
}

/// Reads a litmus text and then a schedule of either version, each to its end, runs the schedule from the
/// test's opening with store buffers of `B` pairs and `M` words of memory, writes the state text and the
/// verdict on a line, and answers the verdict.
///
/// Each input is refused as too large ([`engine_support::fault::TOO_LARGE`]), else as no text
/// ([`engine_support::fault::NOT_TEXT`]), else as [`litmus_reader::read`] says, at the line, or as
/// [`recorder::read_either`] says, at the byte. A schedule of version 2 is refused last, by
/// [`engine_support::fault::DIFFERS`] at the first event whose outcome isn't the run's. Then nothing was
/// written. After a refused litmus text the schedule is not read. A memory of 1,024 words has room for each
/// test's locations.
pub fn run_engine<const B: usize, const M: usize, F: Read, S: Read, W: Write>(
    alloc: Global,
    file: &mut F,
    schedule: &mut S,
    writer: &mut W,
) -> Result<Verdict, Fault>
    requires some_capacity { 1 ≤ B }
    requires capacity { B ≤ 64 }
    requires words { MAX_LOCATIONS ≤ M }
    requires size { M ≤ 65536 }
    ensures ends { Ends (IsRunAnswer B M (F.remaining file.old) (S.remaining schedule.old)) result W.contents writer.old writer.new }
    ensures unread { IsRefused tests (F.remaining file.old) → schedule.new ≡ schedule.old }
{
    schedule_engine::<Run, B, M, F, S, W>(alloc, file, schedule, writer)
}
