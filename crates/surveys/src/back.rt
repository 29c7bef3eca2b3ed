//! The path by which a survey came to its last state, found backwards over its levels.
//!
//! It is proved to be as long as the levels are many, and nothing else: who gets it runs it.

ghost use Rattle.std.specs.Prelude.{◌≡◌, ◌≤◌, ◌<◌, ◌+◌, IfOk, IfSome, OnOk, length};
ghost use Rattle.recorder.specs.Schedule.{OfHarts, hart_of_event};
ghost use Rattle.step_machine.specs.declared.opening.TheConstants.{MAX_HARTS};
ghost use Rattle.surveys.specs.inner.Parts.{IsRight, tables_of};

use crate::steps::{Step, number_at};
use crate::tables::Tables;
use crate::transition_cache::TransitionCache;
use crate::visited::Visited;
use std::alloc::{AllocError, Global};
use step_machine::Event;

/// Whether a step of a hart, if there is one, leads from the state of this row to that of the target.
fn leads_to(row: &[u32], hart: usize, step: Option<Step>, target: &[u32]) -> bool {
    let Some(step) = step else {
        return false;
    };
    let last = row.len().wrapping_sub(1);
    if step.part != number_at(target, hart) || step.memory != number_at(target, last) {
        return false;
    }
    for place in 0..last {
        if place != hart && number_at(row, place) != number_at(target, place) {
            return false;
        }
    }
    true
}

/// The first event, of the acts of all harts and then their landings, that leads from the state of this row to that of the
/// target.
fn event_to<const B: usize, const M: usize>(
    tables: &Tables<B, M>,
    cache: &mut TransitionCache<B, M>,
    row: &[u32],
    target: &[u32],
) -> Result<Option<Event>, AllocError>
    requires few { length tables.now.opening.harts ≤ MAX_HARTS }
    requires right { IsRight B (tables_of B M tables.now) cache.old.machine cache.old.steps.items }
    ensures right { OnOk result (IsRight B (tables_of B M tables.now) cache.new.machine cache.new.steps.items) }
    ensures hart { IfOk result (λ found. IfSome found (λ event. hart_of_event event < MAX_HARTS)) }
{
    let memory = number_at(row, tables.harts() as usize);
    let mut landing = None;
    for hart in 0..tables.harts() {
        let part = number_at(row, hart as usize);
        let Some(steps) = cache.steps(tables, hart, part, memory)? else {
            return Ok(None);
        };
        if leads_to(row, hart as usize, steps.act, target) {
            return Ok(Some(Event::Act(hart)));
        }
        if landing.is_none() && leads_to(row, hart as usize, steps.landing, target) {
            landing = Some(Event::Land(hart));
        }
    }
    Ok(landing)
}

/// The event by which the first of the states from `from` to before `end` leads to that of the target, whose row is then
/// that state's.
fn step_back<const B: usize, const M: usize, const N: usize>(
    tables: &Tables<B, M>,
    cache: &mut TransitionCache<B, M>,
    visited: &Visited<N>,
    from: usize,
    end: usize,
    target: &mut Vec<u32>,
    row: &mut Vec<u32>,
) -> Result<Option<Event>, AllocError>
    requires few { length tables.now.opening.harts ≤ MAX_HARTS }
    requires right { IsRight B (tables_of B M tables.now) cache.old.machine cache.old.steps.items }
    ensures right { OnOk result (IsRight B (tables_of B M tables.now) cache.new.machine cache.new.steps.items) }
    ensures hart { IfOk result (λ found. IfSome found (λ event. hart_of_event event < MAX_HARTS)) }
{
    for number in from..end.min(visited.len()) {
        visited.row_into(number, row)?;
        if let Some(event) = event_to(tables, cache, row, target)? {
            std::mem::swap(target, row);
            return Ok(Some(event));
        }
    }
    Ok(None)
}

/// The end of the states to which this many events lead at least, where `ends` has it for one event more.
fn level_end(ends: &[usize], depth: usize) -> usize {
    if depth == 0 {
        return 1;
    }
    ends.get(depth - 1).copied().unwrap_or(0)
}

/// The events that lead to the last state, oldest first. Each of `ends` is the number of the states to which as many events
/// lead as stand before it, and one more; the last state is behind them all.
pub(crate) fn path_to<const B: usize, const M: usize, const N: usize>(
    alloc: Global,
    tables: &Tables<B, M>,
    cache: &mut TransitionCache<B, M>,
    visited: &Visited<N>,
    ends: &[usize],
) -> Result<Option<Vec<Event>>, AllocError>
    requires few { length tables.now.opening.harts ≤ MAX_HARTS }
    requires right { IsRight B (tables_of B M tables.now) cache.old.machine cache.old.steps.items }
    ensures right { OnOk result (IsRight B (tables_of B M tables.now) cache.new.machine cache.new.steps.items) }
    ensures harts { IfOk result (λ found. IfSome found (λ path. OfHarts path.items)) }
    ensures count { IfOk result (λ found. IfSome found (λ path. length path.items ≡ length ends.now + 1)) }
{
    let count = visited.len();
    if count == 0 {
        return Ok(None);
    }
    let mut target = Vec::new(alloc);
    let mut row = Vec::new(alloc);
    let mut path = Vec::new(alloc);
    visited.row_into(count - 1, &mut target)?;
    for after in 0..ends.len() {
        let depth = ends.len() - after;
        let from = level_end(ends, depth - 1);
        let end = level_end(ends, depth);
        let Some(event) = step_back(tables, cache, visited, from, end, &mut target, &mut row)?
        else {
            return Ok(None);
        };
        path.push(event)?;
    }
    let Some(event) = step_back(tables, cache, visited, 0, 1, &mut target, &mut row)? else {
        return Ok(None);
    };
    path.push(event)?;
    path.reverse();
    Ok(Some(path))
}
