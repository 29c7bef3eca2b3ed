//! The command `find`: a litmus text in, a schedule that shows what it asks about out.

ghost use Rattle.std.specs.Prelude.{◌≡◌, ◌≤◌, ◌↔◌, if◌then◌else◌, IsTrue, IfOk};
ghost use Rattle.engine_support.specs.Engines.{Ends};
ghost use Rattle.engine_support.specs.Faults.{AnswersAs};
ghost use Rattle.engine_support.specs.inner.{FindsUpToReads, text_and_value};
ghost use Rattle.finding.specs.declared.finds.Found.TheVariants.{AllSeen, Cut};
ghost use Rattle.finding.specs.Find.{IsFindAnswer, IsFindGiven};
ghost use Rattle.surveys.specs.Wanted.{Shows};
ghost use Rattle.litmus.specs.declared.litmus_test.TheConstants.{MAX_LOCATIONS};

use engine_support::fault::{Fault, Position, TOO_LARGE};
use engine_support::input::INPUT_BYTES;
use engine_support::litmus_text::read_test;
use engine_support::output::end_with;
use litmus::Test;
use recorder::write_schedule;
use std::alloc::{AllocError, Global};
use std::io::{Read, Write};
use step_machine::laws::laws_of_runs;
use step_machine::{Event, Machine};
use surveys::{SearchProgress, Searched, ends_as_wanted, survey};

/// What a search came to.
#[derive(Clone, Copy, PartialEq, Eq)]
pub enum Found {
    /// The schedule that was written shows what the test asks about.
    Shown,
    /// The search went on from each of this many distinct states, and came to no outcome that is looked for.
    AllSeen { states: u32 },
    /// It was cut after this many distinct states, since it may see no more or a path has no more events. None of them ends
    /// so.
    Cut { states: u32 },
}

/// Whether the run of these events from the test's opening shows what the test asks about.
fn is_shown_by<const B: usize, const M: usize>(
    alloc: Global,
    test: &Test,
    events: &[Event],
) -> Result<bool, AllocError>
    requires some_capacity { 1 ≤ B }
    requires capacity { B ≤ 64 }
    requires words { MAX_LOCATIONS ≤ M }
    requires size { M ≤ 65536 }
    ensures { IfOk result (λ shown. IsTrue shown ↔ Shows B M test.now events.now) }
{
    laws_of_runs();
    let opening = test.opening(alloc)?;
    let mut machine: Machine<B, M> = Machine::open(alloc, opening)?;
    match machine.run(events) {
        Ok(()) => Ok(ends_as_wanted(test, machine.machine_state())),
        Err((_, error)) => Err(error),
    }
}

/// The schedule of what a search hands over, if that shows what the test asks about, and nothing if there is none. A
/// schedule that would be refused as an input isn't written.
fn answer<const B: usize, const M: usize, P: SearchProgress>(
    alloc: Global,
    test: &Test,
    states: u32,
    progress: &mut P,
) -> Result<(String, Found), Fault>
    requires some_capacity { 1 ≤ B }
    requires capacity { B ≤ 64 }
    requires words { MAX_LOCATIONS ≤ M }
    requires size { M ≤ 65536 }
    requires some_states { 1 ≤ states }
    ensures { AnswersAs (IsFindGiven B M states test.now) text_and_value result }
{
    let searched = survey::<B, M, P>(alloc, test, states, progress);
    progress.end();
    let Searched {
        states,
        is_cut,
        path,
    } = searched?;
    if let Some(path) = path {
        if is_shown_by::<B, M>(alloc, test, &path)? {
            let text = write_schedule(alloc, &path)?;
            if text.len() > INPUT_BYTES {
                return Err(Fault::refused(TOO_LARGE, Position::Nowhere));
            }
            return Ok((text, Found::Shown));
        }
        // a search that is right hands over nothing else than what shows it
        return Err(Fault::NoMemory);
    }
    Ok((String::new(alloc), found_none(states, is_cut)))
}

/// What a search of this many states came to that found nothing.
fn found_none(states: u32, is_cut: bool) -> Found
    ensures { result ≡ (if is_cut then Cut states else AllSeen states) }
{
    if is_cut {
        Found::Cut { states }
    } else {
        Found::AllSeen { states }
    }
}

/// What is to be written for the input that the reader gives, and what the search came to.
fn made<const B: usize, const M: usize, R: Read, P: SearchProgress>(
    alloc: Global,
    file: &mut R,
    states: u32,
    progress: &mut P,
) -> Result<(String, Found), Fault>
    requires some_capacity { 1 ≤ B }
    requires capacity { B ≤ 64 }
    requires words { MAX_LOCATIONS ≤ M }
    requires size { M ≤ 65536 }
    requires some_states { 1 ≤ states }
    ensures { FindsUpToReads (IsFindAnswer B M states (R.remaining file.old)) text_and_value result }
{
    let test = read_test(alloc, file)?;
    answer::<B, M, P>(alloc, &test, states, progress)
}

/// Reads a litmus text to its end, and looks among the states that the test's machine reaches from its opening,
/// with store buffers of `B` pairs and `M` words of memory, for one in which a run is finished and the test's
/// condition true, or with `forall` false. It sees at most `states` distinct states.
///
/// If it finds one it writes the canonical schedule of events that lead there, and no schedule with fewer events does. Else
/// it writes nothing, and answers how many states it saw, and whether these are all or it was cut: that the outcome is
/// impossible isn't said.
/// The progress learns how far the search is, and that it ended; the answer doesn't depend on it.
///
/// The input is refused as `run` refuses it. A schedule that no command could read is refused as too large ([`TOO_LARGE`]):
/// its text has more than [`INPUT_BYTES`] bytes. Where there is a refusal nothing was written.
pub fn find_engine<const B: usize, const M: usize, R: Read, P: SearchProgress, W: Write>(
    alloc: Global,
    file: &mut R,
    states: u32,
    progress: &mut P,
    writer: &mut W,
) -> Result<Found, Fault>
    requires some_capacity { 1 ≤ B }
    requires capacity { B ≤ 64 }
    requires words { MAX_LOCATIONS ≤ M }
    requires size { M ≤ 65536 }
    requires some_states { 1 ≤ states }
    ensures { Ends (IsFindAnswer B M states (R.remaining file.old)) result W.contents writer.old writer.new }
{
    end_with(made::<B, M, R, P>(alloc, file, states, progress), writer)
}
