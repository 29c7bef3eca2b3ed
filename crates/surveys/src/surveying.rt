//! The search: a survey, breadth first over the numbers of parts, of whether one of the states that a test's machine reaches
//! ends as wanted.
//!
//! How it goes is proved safe and to end. If it comes to a state that ends as wanted, the states that it met are checked:
//! what it hands over is proved to be as few events as lead to any such outcome.

ghost use Rattle.std.specs.Prelude.{◌≡◌, ◌≤◌, ◌↔◌, true, None, IfOk, IfSome, IsTrue, OnOk, length};
ghost use Rattle.step_machine.specs.History.{at_opening};
ghost use Rattle.step_machine.specs.Standing.{ForEachHistory};
ghost use Rattle.litmus.specs.declared.litmus_test.TheConstants.{MAX_LOCATIONS};
ghost use Rattle.recorder.specs.declared.reading.TheConstants.{MAX_EVENTS};
ghost use Rattle.surveys.specs.Surveys.{BeginsAt, IsAnswer, IsShortest, IsWalkedWithin, IsWithin};

use crate::paths::path_of;
use crate::progress::SearchProgress;
use crate::reports::Reports;
use crate::steps::Stepper;
use crate::walk::{Walk, Went};
use crate::wanted::ends_as_wanted;
use litmus::Test;
use recorder::MAX_EVENTS;
use std::alloc::{AllocError, Global};
use step_machine::{Event, MachineState};

/// What a search came to.
#[derive(Drop)]
pub struct Searched {
    /// How many distinct states it saw.
    pub states: u32,
    /// Whether it may see no more, or paths have no more events.
    pub is_cut: bool,
    /// The events by which it came to an outcome that is looked for, if it did.
    pub path: Option<Vec<Event>>,
}

/// What a walk by keys of some words came to.
#[derive(Drop)]
enum Walked {
    /// To its end.
    ToEnd(Searched),
    /// To a state that ends as wanted, by one event more than there are ends of levels.
    ToOne,
    /// Keys need more words.
    NoRoom,
}

/// What a search came to that saw this many states and may see `limit` of them.
fn searched_of(states: usize, limit: u32, path: Option<Vec<Event>>) -> Searched
    requires few { states ≤ limit }
    ensures states { result.states ≡ states }
    ensures cut { IsTrue result.is_cut ↔ (limit ≤ states) }
    ensures path { result.path ≡ path }
{
    let states = states as u32;
    Searched {
        states,
        is_cut: states >= limit,
        path,
    }
}

/// What it came to where paths have no more events.
fn cut_at(states: usize, limit: u32) -> Searched
    requires few { states ≤ limit }
    ensures states { result.states ≡ states }
    ensures cut { result.is_cut ≡ true }
    ensures path { result.path ≡ None }
{
    Searched {
        states: states as u32,
        is_cut: true,
        path: None,
    }
}

/// Goes on from each of the states in the order of their numbers, of which the opening alone is there, until one ends as
/// wanted, `limit` are seen, or none is left. Writes after how many states each level ends that is whole.
fn walk_from<const B: usize, const M: usize, const N: usize, P: SearchProgress>(
    alloc: Global,
    test: &Test,
    machine: &mut MachineState<B, M>,
    stepper: &mut Stepper,
    reports: &mut Reports,
    states: &mut Walk<N>,
    ends: &mut Vec<usize>,
    limit: u32,
    progress: &mut P,
) -> Result<Walked, AllocError>
    requires harts { length machine.old.harts ≡ length test.now.opening.harts }
    requires names { length test.now.names ≤ M }
    requires one { length states.old ≡ 1 }
    requires none { length ends.old.items ≡ 0 }
    requires some_states { 1 ≤ limit }
    ensures harts { length machine.new.harts ≡ length machine.old.harts }
    ensures some { OnOk result (1 ≤ length states.new) }
    ensures few { OnOk result (length states.new ≤ limit) }
    ensures within { IfOk result (IsWalkedWithin limit (length ends.new.items)) }
{
    // states from `level_end` on follow more than `depth` events
    let mut from = 0;
    let mut level_end = 1;
    for _ in 0..limit {
        let count = states.len();
        if from >= count {
            return Ok(Walked::ToEnd(searched_of(count, limit, None)));
        }
        if from == level_end {
            level_end = count;
            ends.push(count)?;
        }
        if ends.len() >= MAX_EVENTS {
            return Ok(Walked::ToEnd(cut_at(count, limit)));
        }
        reports.go_on(from, count, ends.len() as u32, progress);
        stepper.grow(count)?;
        let end = Walk::<N>::block_end(from, level_end);
        let most = limit as usize;
        let went = states.go_on(
            alloc, test, machine, stepper, reports, from, end, most, progress,
        )?;
        match went {
            Went::On => from = end,
            Went::Found => return Ok(Walked::ToOne),
            Went::NoRoom => return Ok(Walked::NoRoom),
        }
    }
    Ok(Walked::ToEnd(searched_of(states.len(), limit, None)))
}

/// The same from the opening, with keys of `N` words. It is `None` where keys need more.
fn walk<const B: usize, const M: usize, const N: usize, P: SearchProgress>(
    alloc: Global,
    test: &Test,
    machine: &mut MachineState<B, M>,
    stepper: &mut Stepper,
    reports: &mut Reports,
    limit: u32,
    progress: &mut P,
) -> Result<Option<Searched>, AllocError>
    requires capacity { B ≤ 64 }
    requires words { MAX_LOCATIONS ≤ M }
    requires size { M ≤ 65536 }
    requires harts { length machine.old.harts ≡ length test.now.opening.harts }
    requires names { length test.now.names ≤ M }
    requires some_states { 1 ≤ limit }
    requires small { N ≤ 64 }
    ensures harts { length machine.new.harts ≡ length machine.old.harts }
    ensures answers { IfOk result (λ searched. IfSome searched (IsAnswer B M limit test.now)) }
{
    let Some(mut states) = Walk::<N>::open(alloc, stepper)? else {
        return Ok(None);
    };
    let mut ends = Vec::new(alloc);
    states.is_wanted(test, machine, stepper, reports, false, progress)?;
    match walk_from(
        alloc,
        test,
        machine,
        stepper,
        reports,
        &mut states,
        &mut ends,
        limit,
        progress,
    )? {
        Walked::ToEnd(searched) => Ok(Some(searched)),
        Walked::ToOne => {
            let seen = states.len();
            let visited = states.into_visited();
            let Some(path) = path_of::<B, M, N>(alloc, test, stepper, &visited, &ends)? else {
                // not reached by a survey that is right: there is something, so "nothing found" would be wrong
                return Err(AllocError);
            };
            Ok(Some(searched_of(seen, limit, Some(path))))
        }
        Walked::NoRoom => Ok(None),
    }
}

/// With keys of as few words as are enough: where they aren't, a walk with more begins anew.
fn walk_all<const B: usize, const M: usize, P: SearchProgress>(
    alloc: Global,
    test: &Test,
    machine: &mut MachineState<B, M>,
    stepper: &mut Stepper,
    limit: u32,
    progress: &mut P,
) -> Result<Option<Searched>, AllocError>
    requires capacity { B ≤ 64 }
    requires words { MAX_LOCATIONS ≤ M }
    requires size { M ≤ 65536 }
    requires harts { length machine.old.harts ≡ length test.now.opening.harts }
    requires names { length test.now.names ≤ M }
    requires some_states { 1 ≤ limit }
    ensures { IfOk result (λ searched. IfSome searched (IsAnswer B M limit test.now)) }
{
    let mut reports = Reports::new();
    let one = walk::<B, M, 1, P>(alloc, test, machine, stepper, &mut reports, limit, progress)?;
    if one.is_some() {
        return Ok(one);
    }
    let two = walk::<B, M, 2, P>(alloc, test, machine, stepper, &mut reports, limit, progress)?;
    if two.is_some() {
        return Ok(two);
    }
    let three = walk::<B, M, 3, P>(alloc, test, machine, stepper, &mut reports, limit, progress)?;
    if three.is_some() {
        return Ok(three);
    }
    let four = walk::<B, M, 4, P>(alloc, test, machine, stepper, &mut reports, limit, progress)?;
    if four.is_some() {
        return Ok(four);
    }
    let eight = walk::<B, M, 8, P>(alloc, test, machine, stepper, &mut reports, limit, progress)?;
    if eight.is_some() {
        return Ok(eight);
    }
    // at most 64 harts and memory have fields of at most 32 bits
    walk::<B, M, 33, P>(alloc, test, machine, stepper, &mut reports, limit, progress)
}

/// Searches the states of the machine, which stands at its opening.
fn survey_machine<const B: usize, const M: usize, P: SearchProgress>(
    alloc: Global,
    test: &Test,
    machine: &mut MachineState<B, M>,
    limit: u32,
    progress: &mut P,
) -> Result<Searched, AllocError>
    requires capacity { B ≤ 64 }
    requires words { MAX_LOCATIONS ≤ M }
    requires size { M ≤ 65536 }
    requires harts { length machine.old.harts ≡ length test.now.opening.harts }
    requires names { length test.now.names ≤ M }
    requires some_states { 1 ≤ limit }
    ensures within { IfOk result (IsWithin limit) }
    ensures opening { IfOk result (λ searched. ForEachHistory B M machine.old (BeginsAt M test.now searched)) }
    ensures shortest { IfOk result (IsShortest B M test.now) }
{
    if ends_as_wanted(test, machine) {
        return Ok(searched_of(1, limit, Some(Vec::new(alloc))));
    }
    let mut stepper = Stepper::new(alloc, machine)?;
    match walk_all(alloc, test, machine, &mut stepper, limit, progress)? {
        Some(searched) => Ok(searched),
        // a key of 33 words has room for all
        None => Err(AllocError),
    }
}

/// Searches the states that the test's machine reaches from its opening, of which it sees at most `limit`. More states than
/// keys have numbers for are out of memory.
pub fn survey<const B: usize, const M: usize, P: SearchProgress>(
    alloc: Global,
    test: &Test,
    limit: u32,
    progress: &mut P,
) -> Result<Searched, AllocError>
    requires capacity { B ≤ 64 }
    requires words { MAX_LOCATIONS ≤ M }
    requires size { M ≤ 65536 }
    requires some_states { 1 ≤ limit }
    ensures within { IfOk result (IsWithin limit) }
    ensures opening { IfOk result (λ searched. BeginsAt M test.now searched (at_opening test.now.opening)) }
    ensures shortest { IfOk result (IsShortest B M test.now) }
{
    let opening = test.opening(alloc)?;
    let mut machine = MachineState::<B, M>::open(alloc, &opening)?;
    survey_machine(alloc, test, &mut machine, limit, progress)
}
