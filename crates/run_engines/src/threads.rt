//! The command `threads`: a litmus text in; out the schedule of a run that threads made, its state text
//! and its verdict.

ghost use Rattle.std.specs.Prelude.{ℕ, ◌≡◌, ◌<◌, ◌≤◌, ◌⊎◌, Err, IfErr, length};
ghost use Rattle.hart_threads.specs.GettingOn.{AllGetOn, AtMost};
ghost use Rattle.hart_threads.specs.Records.{IsRecord};
ghost use Rattle.engine_support.specs.Engines.{Ends};
ghost use Rattle.engine_support.specs.Faults.{AnswersAs, too_large};
ghost use Rattle.engine_support.specs.declared.fault.Fault.TheVariants.{NoMemory, Refused};
ghost use Rattle.run_engines.specs.Threads.{fault_of_threads, IsThreadsGiven, IsThreadsAnswer};
ghost use Rattle.engine_support.specs.inner.{FindsUpToReads, text_and_value};
ghost use Rattle.step_machine.specs.declared.opening.TheConstants.{MAX_HARTS};
ghost use Rattle.litmus.specs.declared.litmus_test.TheConstants.{MAX_LOCATIONS};
ghost use Rattle.recorder.specs.declared.reading.TheConstants.{MAX_EVENTS};

use crate::run::judged_text;
use engine_support::fault::{Fault, Position, TOO_LARGE};
use engine_support::input::INPUT_BYTES;
use engine_support::litmus_text::read_test;
use engine_support::output::end_with;
use hart_threads::{Open, Record, Shared, run_harts};
use litmus::{Test, Verdict};
use recorder::{MAX_EVENTS, write_schedule};
use std::alloc::Global;
use std::io::{Read, Write};
use std::sync::Wait;
use std::thread::Threads;
use step_machine::laws::laws_of_runs;

/// Why threads made no record, as a fault.
fn threads_fault(error: hart_threads::Fault) -> Fault
    ensures { result ≡ fault_of_threads error }
{
    match error {
        hart_threads::Fault::NoMemory => Fault::NoMemory,
        hart_threads::Fault::NoThread => Fault::refused(35, Position::Nowhere),
        hart_threads::Fault::Missing { .. } => Fault::refused(33, Position::Nowhere),
        hart_threads::Fault::Mismatch { .. } => Fault::refused(32, Position::Nowhere),
    }
}

/// The schedule of a record, and the state text and the verdict of a test after it. A schedule that would be refused as
/// an input isn't written.
fn record_text<const B: usize, const M: usize>(
    alloc: Global,
    test: &Test,
    made: &Record<B, M>,
) -> Result<(String, Verdict), Fault>
    requires size { M ≤ 65536 }
    requires harts { length test.now.opening.harts ≤ MAX_HARTS }
    requires names { length test.now.names ≤ M }
    requires runs { IsRecord B M test.now.opening made.now }
    ensures given { (n : ℕ) → AtMost n made.now.trace → AllGetOn n M made.now.trace → AnswersAs (IsThreadsGiven B M n test.now) text_and_value result }
    ensures refused { IfErr result (λ fault. (fault ≡ NoMemory) ⊎ (fault ≡ Refused too_large)) }
    ensures long { MAX_EVENTS < length made.now.events.items → result ≡ Err (Refused too_large) }
{
    if made.events.len() > MAX_EVENTS {
        return Err(Fault::refused(TOO_LARGE, Position::Nowhere));
    }
    laws_of_runs();
    let mut text = write_schedule(alloc, &made.events)?;
    if text.len() > INPUT_BYTES {
        return Err(Fault::refused(TOO_LARGE, Position::Nowhere));
    }
    let judged = judged_text(alloc, test, made.machine.machine_state())?;
    text.push_str(&judged.0)?;
    Ok((text, judged.1))
}

/// The texts of a run of a test that threads made.
fn answer<const B: usize, const M: usize, T: Threads + Wait + Sync>(
    rt: &T,
    alloc: Global,
    test: &Test,
    turns: u32,
) -> Result<(String, Verdict), Fault>
    requires some_capacity { 1 ≤ B }
    requires capacity { B ≤ 64 }
    requires words { MAX_LOCATIONS ≤ M }
    requires size { M ≤ 65536 }
    ensures { AnswersAs (IsThreadsGiven B M turns test.now) text_and_value result }
{
    let opening = test.opening(alloc)?;
    let (shared, seats) = Shared::<B, M>::open(alloc, opening)?;
    match run_harts(rt, alloc, shared, seats, &Open, turns) {
        Ok(record) => record_text(alloc, test, &record),
        Err(error) => Err(threads_fault(error)),
    }
}

/// What is to be written for the input that the reader gives, and the verdict.
fn made<const B: usize, const M: usize, R: Read, T: Threads + Wait + Sync>(
    rt: &T,
    alloc: Global,
    file: &mut R,
    turns: u32,
) -> Result<(String, Verdict), Fault>
    requires some_capacity { 1 ≤ B }
    requires capacity { B ≤ 64 }
    requires words { MAX_LOCATIONS ≤ M }
    requires size { M ≤ 65536 }
    ensures { FindsUpToReads (IsThreadsAnswer B M turns (R.remaining file.old)) text_and_value result }
{
    let test = read_test(alloc, file)?;
    answer::<B, M, T>(rt, alloc, &test, turns)
}

/// Reads a litmus text to its end, runs its harts and their landers on a thread each, with store
/// buffers of `B` pairs and `M` words of memory and for at most `turns` turns each, writes the schedule
/// of what they did, the state text and the verdict on a line, and answers the verdict. In that run each
/// hart gets on: it has ended or stopped, has made `turns` entries, or came to what may have to wait.
///
/// The input is refused as [`crate::run::run_engine`] refuses it. A run whose schedule no command could read is
/// refused as too large ([`TOO_LARGE`]): it has more than [`recorder::MAX_EVENTS`] events, or its text more than
/// [`INPUT_BYTES`] bytes. A fault of the threads is refused by its number. Where there is a refusal nothing was
/// written. It may wait, for the lock and for the threads.
pub fn threads_engine<const B: usize, const M: usize, R: Read, W: Write, T: Threads + Wait + Sync>(
    rt: &T,
    alloc: Global,
    file: &mut R,
    turns: u32,
    writer: &mut W,
) -> Result<Verdict, Fault>
    requires some_capacity { 1 ≤ B }
    requires capacity { B ≤ 64 }
    requires words { MAX_LOCATIONS ≤ M }
    requires size { M ≤ 65536 }
    ensures { Ends (IsThreadsAnswer B M turns (R.remaining file.old)) result W.contents writer.old writer.new }
{
    end_with(made::<B, M, R, T>(rt, alloc, file, turns), writer)
}
