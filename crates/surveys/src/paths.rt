//! What a search hands over that came to a state that ends as wanted: the path there, if it is checked to be shortest.

ghost use Rattle.std.specs.Prelude.{◌≡◌, ◌≤◌, ◌+◌, IfOk, IfSome, length};
ghost use Rattle.step_machine.specs.History.{at_opening};
ghost use Rattle.step_machine.specs.Positions.{position_of};
ghost use Rattle.step_machine.specs.Standing.{RepresentsHistory};
ghost use Rattle.litmus.specs.LitmusTests.{IsTest};
ghost use Rattle.step_machine.specs.declared.opening.TheConstants.{MAX_HARTS};
ghost use Rattle.litmus.specs.declared.litmus_test.TheConstants.{MAX_LOCATIONS};
ghost use Rattle.recorder.specs.Schedule.{OfHarts};
ghost use Rattle.surveys.specs.inner.Levels.{AreFewestFor};
ghost use Rattle.surveys.specs.inner.Parts.{IsRight, tables_of};
ghost use Rattle.surveys.specs.Surveys.{AreShortest};

use crate::back::path_to;
use crate::fewest::are_fewest;
use crate::steps::Stepper;
use crate::tables::{Scratch, Tables};
use crate::transition_cache::TransitionCache;
use crate::visited::Visited;
use litmus::Test;
use states::laws::laws_of_ends;
use std::alloc::{AllocError, Global};
use step_machine::{Event, MachineState};

/// The events that lead to the last of the states that were met, if they are found and checked. Each of `ends` is the
/// number of the states to which as many events lead as stand before it, and one more.
fn checked_path<const B: usize, const M: usize, const N: usize>(
    alloc: Global,
    test: &Test,
    tables: &Tables<B, M>,
    cache: &mut TransitionCache<B, M>,
    visited: &Visited<N>,
    ends: &[usize],
) -> Result<Option<Vec<Event>>, AllocError>
    requires few { length tables.now.opening.harts ≤ MAX_HARTS }
    requires harts { length tables.now.opening.harts ≡ length test.now.opening.harts }
    requires names { length test.now.names ≤ M }
    requires right { IsRight B (tables_of B M tables.now) cache.old.machine cache.old.steps.items }
    ensures harts { IfOk result (λ found. IfSome found (λ path. OfHarts path.items)) }
    ensures count { IfOk result (λ found. IfSome found (λ path. length path.items ≡ length ends.now + 1)) }
    ensures fewest { IfOk result (λ found. IfSome found (λ path.
        AreFewestFor B test.now (position_of tables.now.opening) (length path.items))) }
{
    let Some(path) = path_to(alloc, tables, cache, visited, ends)? else {
        return Ok(None);
    };
    if are_fewest(alloc, test, tables, cache, visited, ends)? {
        Ok(Some(path))
    } else {
        Ok(None)
    }
}

/// A machine at the test's opening.
fn opened<const B: usize, const M: usize>(
    alloc: Global,
    test: &Test,
) -> Result<MachineState<B, M>, AllocError>
    requires capacity { B ≤ 64 }
    requires words { MAX_LOCATIONS ≤ M }
    requires size { M ≤ 65536 }
    ensures opened { IfOk result (RepresentsHistory B M (at_opening test.now.opening)) }
    ensures test { IsTest test.now }
{
    let opening = test.opening(alloc)?;
    MachineState::<B, M>::open(alloc, &opening)
}

/// What the numbers of the stepper's parts stand for.
fn numbered_tables<const B: usize, const M: usize>(
    alloc: Global,
    test: &Test,
    stepper: &mut Stepper,
) -> Result<Tables<B, M>, AllocError>
    requires capacity { B ≤ 64 }
    requires words { MAX_LOCATIONS ≤ M }
    requires size { M ≤ 65536 }
    ensures { IfOk result (λ tables. RepresentsHistory B M (at_opening test.now.opening) tables.opening) }
{
    let mut scratch = Scratch::new(alloc);
    let (harts, memories) = stepper.take_parts(alloc)?;
    Tables::new(opened(alloc, test)?, harts, memories, &mut scratch)
}

/// The events that lead to the last of the states that were met, whose parts the stepper numbered: no schedule with fewer
/// events shows what the test asks about. It is `None` where the check doesn't say so.
pub(crate) fn path_of<const B: usize, const M: usize, const N: usize>(
    alloc: Global,
    test: &Test,
    stepper: &mut Stepper,
    visited: &Visited<N>,
    ends: &[usize],
) -> Result<Option<Vec<Event>>, AllocError>
    requires capacity { B ≤ 64 }
    requires words { MAX_LOCATIONS ≤ M }
    requires size { M ≤ 65536 }
    ensures harts { IfOk result (λ found. IfSome found (λ path. OfHarts path.items)) }
    ensures count { IfOk result (λ found. IfSome found (λ path. length path.items ≡ length ends.now + 1)) }
    ensures shortest { IfOk result (AreShortest B M test.now) }
{
    laws_of_ends();
    let tables = numbered_tables::<B, M>(alloc, test, stepper)?;
    let mut cache = TransitionCache::new(alloc, &tables, opened(alloc, test)?, visited.len())?;
    checked_path(alloc, test, &tables, &mut cache, visited, ends)
}
