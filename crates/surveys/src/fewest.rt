//! The check of a survey: that fewer events than it took lead to no outcome that is looked for.
//!
//! It goes over the states that the survey met once more, level by level, and looks up where each event leads. Nothing here
//! rests on how the survey met them.

ghost use Rattle.std.specs.Prelude.{◌≡◌, ◌≤◌, ◌<◌, ◌+◌, IfOk, IsTrue, List, OnOk, Some, length, slice_get, ℕ};
ghost use Rattle.step_machine.specs.Positions.{AreOfOneOpening, Position, next_position, position_of};
ghost use Rattle.step_machine.specs.declared.opening.TheConstants.{MAX_HARTS};
ghost use Rattle.surveys.specs.Wanted.{IsWantedAt};
ghost use Rattle.surveys.specs.inner.Levels.{AreFewestFor, IsExpanded, IsAmong};
ghost use Rattle.surveys.specs.inner.Parts.{IsRight, RowLeads, position_by_row, positions_by, row_after, tables_of};

use crate::steps::{Step, number_at};
use crate::tables::Tables;
use crate::transition_cache::TransitionCache;
use crate::visited::{Rows, Visited};
use crate::wanted::ends_as_wanted;
use litmus::Test;
use std::alloc::{AllocError, Global};

/// Whether a step, if there is one, leads to one of the first `count` rows.
#[inline(always)]
fn leads<const B: usize, const M: usize, const N: usize>(
    tables: &Tables<B, M>,
    visited: &Visited<N>,
    number: usize,
    row: &[u32],
    hart: u32,
    step: Option<Step>,
    count: usize,
    rows: &mut Rows,
) -> Result<bool, AllocError>
    requires hart { hart < length tables.now.opening.harts }
    requires row { length row.now ≡ length tables.now.opening.harts + 1 }
    requires here { IsAmong count visited.now row.now }
    ensures { IfOk result (λ yes. IsTrue yes → IsAmong count visited.now (row_after (tables_of B M tables.now) hart row.now step)) }
{
    match step {
        Some(step) => visited.has_after(number, row, hart, step, count, rows),
        None => Ok(true),
    }
}

/// Whether each event leads from the state of this number, which has this row, to one of the first `count` states.
fn all_lead<const B: usize, const M: usize, const N: usize>(
    tables: &Tables<B, M>,
    cache: &mut TransitionCache<B, M>,
    visited: &Visited<N>,
    number: usize,
    row: &[u32],
    count: usize,
    rows: &mut Rows,
) -> Result<bool, AllocError>
    requires few { length tables.now.opening.harts ≤ MAX_HARTS }
    requires right { IsRight B (tables_of B M tables.now) cache.old.machine cache.old.steps.items }
    requires row { length row.now ≡ length tables.now.opening.harts + 1 }
    requires here { IsAmong count visited.now row.now }
    ensures right { OnOk result (IsRight B (tables_of B M tables.now) cache.new.machine cache.new.steps.items) }
    ensures leads { IfOk result (λ yes. IsTrue yes → RowLeads B (tables_of B M tables.now) count visited.now row.now) }
{
    let memory = number_at(row, tables.harts() as usize);
    for hart in 0..tables.harts() {
        let Some(steps) = cache.steps(tables, hart, number_at(row, hart as usize), memory)? else {
            return Ok(false);
        };
        if !leads(tables, visited, number, row, hart, steps.act, count, rows)? {
            return Ok(false);
        }
        if !leads(
            tables,
            visited,
            number,
            row,
            hart,
            steps.landing,
            count,
            rows,
        )? {
            return Ok(false);
        }
    }
    Ok(true)
}

/// Whether the state of this row isn't a finished one with an outcome that is looked for: an event does something there,
/// or the machine says so that is put there.
fn is_unwanted<const B: usize, const M: usize>(
    test: &Test,
    tables: &Tables<B, M>,
    cache: &mut TransitionCache<B, M>,
    row: &[u32],
) -> Result<bool, AllocError>
    requires few { length tables.now.opening.harts ≤ MAX_HARTS }
    requires harts { length tables.now.opening.harts ≡ length test.now.opening.harts }
    requires names { length test.now.names ≤ M }
    requires right { IsRight B (tables_of B M tables.now) cache.old.machine cache.old.steps.items }
    ensures right { OnOk result (IsRight B (tables_of B M tables.now) cache.new.machine cache.new.steps.items) }
    ensures unwanted { IfOk result (λ yes. IsTrue yes → IsWantedAt test.now (position_by_row (tables_of B M tables.now) row.now) → ⊥) }
{
    let memory = number_at(row, tables.harts() as usize);
    for hart in 0..tables.harts() {
        match cache.steps(tables, hart, number_at(row, hart as usize), memory)? {
            Some(steps) if steps.act.is_none() && steps.landing.is_none() => {}
            Some(_) => return Ok(true),
            None => return is_unwanted_there(test, tables, cache, row),
        }
    }
    is_unwanted_there(test, tables, cache, row)
}

/// The same by the machine.
fn is_unwanted_there<const B: usize, const M: usize>(
    test: &Test,
    tables: &Tables<B, M>,
    cache: &mut TransitionCache<B, M>,
    row: &[u32],
) -> Result<bool, AllocError>
    requires few { length tables.now.opening.harts ≤ MAX_HARTS }
    requires harts { length tables.now.opening.harts ≡ length test.now.opening.harts }
    requires names { length test.now.names ≤ M }
    requires right { IsRight B (tables_of B M tables.now) cache.old.machine cache.old.steps.items }
    ensures right { OnOk result (IsRight B (tables_of B M tables.now) cache.new.machine cache.new.steps.items) }
    ensures unwanted { IfOk result (λ yes. IsTrue yes → IsWantedAt test.now (position_by_row (tables_of B M tables.now) row.now) → ⊥) }
{
    tables.put(&mut cache.machine, row, &mut cache.scratch)?;
    if !tables.is_at(&cache.machine, row, &mut cache.scratch)? {
        return Ok(false);
    }
    Ok(!ends_as_wanted(test, &cache.machine))
}

/// Whether the state of this number isn't wanted, and each event leads from it to one of the first `count`.
fn goes_on<const B: usize, const M: usize, const N: usize>(
    test: &Test,
    tables: &Tables<B, M>,
    cache: &mut TransitionCache<B, M>,
    visited: &Visited<N>,
    number: usize,
    count: usize,
    row: &mut Vec<u32>,
    rows: &mut Rows,
) -> Result<bool, AllocError>
    requires few { length tables.now.opening.harts ≤ MAX_HARTS }
    requires harts { length tables.now.opening.harts ≡ length test.now.opening.harts }
    requires names { length test.now.names ≤ M }
    requires within { number < count }
    requires there { number < length visited.now }
    requires right { IsRight B (tables_of B M tables.now) cache.old.machine cache.old.steps.items }
    ensures right { OnOk result (IsRight B (tables_of B M tables.now) cache.new.machine cache.new.steps.items) }
    ensures goes { IfOk result (λ yes. IsTrue yes → (position : Position)
        → slice_get (positions_by (tables_of B M tables.now) visited.now) number ≡ Some position
        → IsExpanded (next_position B) (IsWantedAt test.now) count (positions_by (tables_of B M tables.now) visited.now) position) }
{
    visited.row_into(number, row)?;
    if row.len() != tables.harts() as usize + 1 {
        return Ok(false);
    }
    if !is_unwanted(test, tables, cache, row)? {
        return Ok(false);
    }
    all_lead(tables, cache, visited, number, row, count, rows)
}

/// Whether this is so of all states from `from` to before `end`.
fn all_go_on<const B: usize, const M: usize, const N: usize>(
    alloc: Global,
    test: &Test,
    tables: &Tables<B, M>,
    cache: &mut TransitionCache<B, M>,
    visited: &Visited<N>,
    from: usize,
    end: usize,
    count: usize,
) -> Result<bool, AllocError>
    requires few { length tables.now.opening.harts ≤ MAX_HARTS }
    requires harts { length tables.now.opening.harts ≡ length test.now.opening.harts }
    requires names { length test.now.names ≤ M }
    requires within { end ≤ count }
    requires there { end ≤ length visited.now }
    requires right { IsRight B (tables_of B M tables.now) cache.old.machine cache.old.steps.items }
    ensures right { OnOk result (IsRight B (tables_of B M tables.now) cache.new.machine cache.new.steps.items) }
    ensures go { IfOk result (λ yes. IsTrue yes → (number : ℕ) (position : Position) → from ≤ number → number < end
        → slice_get (positions_by (tables_of B M tables.now) visited.now) number ≡ Some position
        → IsExpanded (next_position B) (IsWantedAt test.now) count (positions_by (tables_of B M tables.now) visited.now) position) }
{
    let mut row = Vec::new(alloc);
    let mut rows = Rows::new(alloc);
    for number in from..end {
        if !goes_on(
            test, tables, cache, visited, number, count, &mut row, &mut rows,
        )? {
            return Ok(false);
        }
    }
    Ok(true)
}

/// Whether none of the states from `from` to before `end` is wanted.
fn none_wanted<const B: usize, const M: usize, const N: usize>(
    alloc: Global,
    test: &Test,
    tables: &Tables<B, M>,
    cache: &mut TransitionCache<B, M>,
    visited: &Visited<N>,
    from: usize,
    end: usize,
) -> Result<bool, AllocError>
    requires few { length tables.now.opening.harts ≤ MAX_HARTS }
    requires harts { length tables.now.opening.harts ≡ length test.now.opening.harts }
    requires names { length test.now.names ≤ M }
    requires there { end ≤ length visited.now }
    requires right { IsRight B (tables_of B M tables.now) cache.old.machine cache.old.steps.items }
    ensures { IfOk result (λ yes. IsTrue yes → (number : ℕ) (position : Position) → from ≤ number → number < end
        → slice_get (positions_by (tables_of B M tables.now) visited.now) number ≡ Some position → IsWantedAt test.now position → ⊥) }
{
    let mut row = Vec::new(alloc);
    for number in from..end {
        visited.row_into(number, &mut row)?;
        if !is_unwanted(test, tables, cache, &row)? {
            return Ok(false);
        }
    }
    Ok(true)
}

/// Whether the first state is the opening.
fn begins<const B: usize, const M: usize, const N: usize>(
    alloc: Global,
    tables: &Tables<B, M>,
    cache: &mut TransitionCache<B, M>,
    visited: &Visited<N>,
) -> Result<bool, AllocError>
    requires few { length tables.now.opening.harts ≤ MAX_HARTS }
    ensures cache { cache.new.machine ≡ cache.old.machine }
    ensures steps { cache.new.steps ≡ cache.old.steps }
    ensures begins { IfOk result (λ yes. IsTrue yes
        → slice_get (positions_by (tables_of B M tables.now) visited.now) 0 ≡ Some (position_of tables.now.opening)) }
{
    if visited.len() == 0 {
        return Ok(false);
    }
    let mut row = Vec::new(alloc);
    visited.row_into(0, &mut row)?;
    tables.is_at(tables.opening(), &row, &mut cache.scratch)
}

/// Whether fewer events than `ends` has numbers and one more lead to no outcome that is looked for. Each number is that of
/// the states to which as many events lead as stand before it, and one more.
pub(crate) fn are_fewest<const B: usize, const M: usize, const N: usize>(
    alloc: Global,
    test: &Test,
    tables: &Tables<B, M>,
    cache: &mut TransitionCache<B, M>,
    visited: &Visited<N>,
    ends: &[usize],
) -> Result<bool, AllocError>
    requires few { length tables.now.opening.harts ≤ MAX_HARTS }
    requires harts { length tables.now.opening.harts ≡ length test.now.opening.harts }
    requires names { length test.now.names ≤ M }
    requires right { IsRight B (tables_of B M tables.now) cache.old.machine cache.old.steps.items }
    ensures { IfOk result (λ yes. IsTrue yes
        → AreFewestFor B test.now (position_of tables.now.opening) (length ends.now + 1)) }
{
    if !begins(alloc, tables, cache, visited)? {
        return Ok(false);
    }
    let mut from = 0;
    let mut level = 1;
    for end in ends {
        if *end < level || *end > visited.len() {
            return Ok(false);
        }
        if !all_go_on(alloc, test, tables, cache, visited, from, level, *end)? {
            return Ok(false);
        }
        from = level;
        level = *end;
    }
    none_wanted(alloc, test, tables, cache, visited, from, level)
}
