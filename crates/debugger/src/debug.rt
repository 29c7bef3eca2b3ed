//! The command `debug`: along a schedule's run of a litmus test, at a user's commands.

ghost use Rattle.std.specs.Prelude.{◌≡◌, ◌≤◌, ◌⊎◌, ℕ, List, [], Ok, OnOk};
ghost use Rattle.std.specs.Io.KnownBytes.{Appends};
ghost use Rattle.recorder.specs.Versions.{schedule_value};
ghost use Rattle.engine_support.specs.Inputs.{IsRefused, tests};
ghost use Rattle.engine_support.specs.Faults.{AnswersAs};
ghost use Rattle.engine_support.specs.Histories.{AnswersEvents, ByEvents};
ghost use Rattle.debugger.specs.Transcripts.{EndsInteractive, IsDebugAnswer, IsDebugFront, IsDebugSome, Leaves, OnRefused, OnStopped, OnUnwritten};
ghost use Rattle.engine_support.specs.inner.{FindsUpToReads};
ghost use Rattle.debugger.specs.inner.{IsAtStart};
ghost use Rattle.litmus.specs.declared.litmus_test.TheConstants.{MAX_LOCATIONS};

use crate::debug::conversation::converse;
use crate::debugger::Debugger;
use engine_support::fault::Fault;
use engine_support::running::read_both;
use litmus::Test;
use recorder::Schedule;
use std::alloc::Global;
use std::io::{BufRead, Read, Write};

mod answers;
mod breakpoints;
mod command;
mod conversation;
mod lines;
mod looking;

/// A debugger at a test's opening, along the events of a schedule.
fn debugger_along<const B: usize, const M: usize>(
    alloc: Global,
    test: &Test,
    given: Schedule,
) -> Result<Debugger<B, M>, Fault>
    requires some_capacity { 1 ≤ B }
    requires capacity { B ≤ 64 }
    requires words { MAX_LOCATIONS ≤ M }
    requires size { M ≤ 65536 }
    ensures { AnswersAs (AnswersEvents IsAtStart test.now (schedule_value given)) (λ debugger. debugger) result }
{
    let opening = test.opening(alloc)?;
    let events = given.into_events(alloc)?;
    Ok(Debugger::open(alloc, opening, events)?)
}

/// A debugger at the opening of the test that a litmus text stands for, along a schedule's events. The schedule
/// is read after an accepted test only.
fn open_debugger<const B: usize, const M: usize, F: Read, S: Read>(
    alloc: Global,
    file: &mut F,
    schedule: &mut S,
) -> Result<Debugger<B, M>, Fault>
    requires some_capacity { 1 ≤ B }
    requires capacity { B ≤ 64 }
    requires words { MAX_LOCATIONS ≤ M }
    requires size { M ≤ 65536 }
    ensures debugger { FindsUpToReads (ByEvents IsAtStart (F.remaining file.old) (S.remaining schedule.old)) (λ debugger. debugger) result }
    ensures unread { IsRefused tests (F.remaining file.old) → schedule.new ≡ schedule.old }
{
    let (test, given) = read_both(alloc, file, schedule)?;
    debugger_along(alloc, &test, given)
}

/// Reads a litmus text and then a schedule, each to its end, and then answers a user's commands, a line
/// each, each as soon as it is read: docs/formats.md has them. The machine has store buffers of `B`
/// pairs and `M` words of memory.
///
/// The debugger goes along the events of a schedule of either version. What a record says of their outcomes is
/// not checked: each step prints the run's.
///
/// The first two texts are refused as `run` refuses them, before the first command
/// is read and with nothing written. After a refused litmus text the schedule is not read. Commands are
/// never refused, and their number and length have no limit. After the line that quits nothing is read. After a
/// failed read or write, or where memory runs out, what was answered before stays written.
pub fn debug_engine<const B: usize, const M: usize, F: Read, S: Read, C: BufRead, W: Write>(
    alloc: Global,
    file: &mut F,
    schedule: &mut S,
    commands: &mut C,
    writer: &mut W,
) -> Result<(), Fault>
    requires some_capacity { 1 ≤ B }
    requires capacity { B ≤ 64 }
    requires words { MAX_LOCATIONS ≤ M }
    requires size { M ≤ 65536 }
    ensures ends { EndsInteractive (IsDebugAnswer B M (C.remaining commands.old) (F.remaining file.old) (S.remaining schedule.old)) result
        W.contents writer.old writer.new }
    ensures unread { IsRefused tests (F.remaining file.old) → schedule.new ≡ schedule.old }
    ensures unasked { OnRefused result (commands.new ≡ commands.old) }
    ensures rest { OnOk result (Leaves (C.remaining commands.old) (C.remaining commands.new)) }

    // where a read failed or memory ran out, what the first lines print was written, or nothing
    ensures left { OnStopped result ((out : List ℕ) × Appends (W.contents writer.old) (W.contents writer.new) out
        × ((out ≡ []) ⊎ IsDebugFront B M (C.remaining commands.old) (F.remaining file.old) (S.remaining schedule.old) (Ok (out, tt)))) }

    // where a write failed, both texts were accepted, and a line was answered
    ensures unwritten { OnUnwritten result ((out : List ℕ)
        × IsDebugSome B M (C.remaining commands.old) (F.remaining file.old) (S.remaining schedule.old) (Ok (out, tt))) }
{
    let debugger = open_debugger::<B, M, F, S>(alloc, file, schedule)?;
    converse(alloc, debugger, commands, writer)
}
