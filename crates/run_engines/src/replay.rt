//! The command `replay`: a litmus text and a schedule in, what was done in the run out.

ghost use Rattle.std.specs.Prelude.{◌≡◌, ◌≤◌, IfOk};
ghost use Rattle.std.specs.List.{flat_map};
ghost use Rattle.std.specs.String.{string_bytes};
ghost use Rattle.engine_support.specs.Engines.{Ends};
ghost use Rattle.engine_support.specs.Histories.{AnswersRun};
ghost use Rattle.engine_support.specs.Inputs.{IsRefused, tests};
ghost use Rattle.recorder.specs.Outcomes.{entry_line};
ghost use Rattle.run_engines.specs.Run.{IsReplay, IsReplayAnswer};
ghost use Rattle.litmus.specs.declared.litmus_test.TheConstants.{MAX_LOCATIONS};

use engine_support::command::{ScheduleCommand, schedule_engine};
use engine_support::fault::Fault;
use engine_support::running::machine_of_schedule;
use litmus::Test;
use recorder::{Schedule, push_entry_line};
use std::alloc::{AllocError, Global};
use std::io::{Read, Write};
use step_machine::Entries;

/// The lines of all entries.
fn entries_text(alloc: Global, entries: Entries<'_>) -> Result<String, AllocError>
    ensures { IfOk result (λ text. string_bytes text ≡ flat_map entry_line entries.entry) }
{
    let mut text = String::new(alloc);
    for entry in entries {
        push_entry_line(&mut text, entry)?;
    }
    Ok(text)
}

struct Replay;

impl<const B: usize, const M: usize> ScheduleCommand<B, M> for Replay {
    type Value = ();

    ghost is_answer = { AnswersRun B M IsReplay };

    fn answer(alloc: Global, test: &Test, parsed: Schedule) -> Result<(String, ()), Fault> {
        let machine = machine_of_schedule::<B, M>(alloc, test, parsed)?;
        let text = entries_text(alloc, machine.entries())?;
        Ok((text, ()))
    }
}

/// Reads a litmus text and then a schedule of either version, each to its end, runs the schedule from the
/// test's opening with store buffers of `B` pairs and `M` words of memory, and writes each entry of the
/// history on a line. Events that did nothing have no line.
///
/// Inputs are refused as [`crate::run::run_engine`] refuses them, and then nothing was written. After a
/// refused litmus text the schedule is not read.
pub fn replay_engine<const B: usize, const M: usize, F: Read, S: Read, W: Write>(
    alloc: Global,
    file: &mut F,
    schedule: &mut S,
    writer: &mut W,
) -> Result<(), Fault>
    requires some_capacity { 1 ≤ B }
    requires capacity { B ≤ 64 }
    requires words { MAX_LOCATIONS ≤ M }
    requires size { M ≤ 65536 }
    ensures ends { Ends (IsReplayAnswer B M (F.remaining file.old) (S.remaining schedule.old)) result W.contents writer.old writer.new }
    ensures unread { IsRefused tests (F.remaining file.old) → schedule.new ≡ schedule.old }
{
    schedule_engine::<Replay, B, M, F, S, W>(alloc, file, schedule, writer)
}
