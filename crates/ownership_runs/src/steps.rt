//! What the entries of a run did, each with the pc of its hart before it, and what of them is recalled of a violation or a loss.

ghost use Rattle.std.specs.Prelude.{◌≡◌, ◌≤◌, ◌<◌, ◌+◌, ◌-◌, ◌^◌, ◌==◌, ℕ, IfOk, OnOk, length, map, take};
ghost use Rattle.step_machine.specs.Access.{access_of};
ghost use Rattle.step_machine.specs.History.{FitsIn};
ghost use Rattle.step_machine.specs.Paths.{IsPc};
ghost use Rattle.ownership_runs.specs.Steps.{AreSteps, handed_back, hands_back, is_look, is_own_place, loads, pc_at, recalled, recalled_more, stores};
ghost use Rattle.ownership_runs.specs.inner.Bounds.{ROOM, AreCountsWithin};
ghost use Rattle.ownership_runs.specs.inner.Stepping.{IsStepped};
ghost use Rattle.queue_layouts.specs.Sides.{the_party};

use crate::counts::{Counts, RunCounts, at_start};
use crate::protocols::after_entry;
use crate::{indexed_moves, tagged_moves};
use memory::writes::Write;
use queue_layouts::{AnyQueue, Party, other};
use std::alloc::{AllocError, Global};
use step_machine::{Entry, Event, Machine, Opening, Outcome};

/// An entry, and the pc at which its hart was before it.
#[derive(Clone, Copy)]
pub struct Step {
    pub entry: Entry,
    pub pc: u32,
}

/// What a step stored or loaded, and its pc.
#[derive(Clone, Copy, PartialEq, Eq)]
pub struct Done {
    pub value: u32,
    pub pc: u32,
}

/// What a party did last, if it did: a store to its own index, or to a tag, and a load of the other's index, or of a tag.
#[derive(Clone, Copy, PartialEq, Eq)]
pub struct Recalled {
    pub stored: Option<Done>,
    pub looked: Option<Done>,
}

/// The pc of a hart, if there is one of this number.
fn pc_of<const B: usize, const M: usize>(machine: &Machine<B, M>, hart: u32) -> u32
    ensures { hart < length machine.now.history.opening.harts → IsPc M machine.now.history hart result }
{
    if hart < machine.harts() {
        machine.pc(hart)
    } else {
        0
    }
}

/// Lets an event happen, and adds what it did.
fn add_step<const B: usize, const M: usize>(
    machine: &mut Machine<B, M>,
    event: Event,
    steps: &mut Vec<Step>,
) -> Result<(), AllocError>
    ensures stepped { OnOk result (IsStepped B M event machine.old.history steps.old.items machine.new.history steps.new.items) }
    ensures opening { machine.new.history.opening ≡ machine.old.history.opening }
{
    let hart = match event {
        Event::Act(hart) => hart,
        Event::Land(hart) => hart,
    };
    let pc = pc_of(machine, hart);
    match machine.step(event)? {
        Outcome::Did(entry) => steps.push(Step { entry, pc })?,
        Outcome::Waited => {}
        Outcome::NothingToLand => {}
        Outcome::Over => {}
        Outcome::NoHart => {}
    }
    Ok(())
}

/// What these events do after an opening, over buffers of `B` stores and `M` words of memory.
pub fn steps_of<const B: usize, const M: usize>(
    alloc: Global,
    opening: &Opening,
    events: &[Event],
) -> Result<Vec<Step>, AllocError>
    requires some_capacity { 1 ≤ B }
    requires capacity { B ≤ 64 }
    requires some_word { 1 ≤ M }
    requires size { M ≤ 65536 }
    requires fits { FitsIn M opening.now }
    ensures { IfOk result (λ steps. AreSteps B M opening.now events.now steps.items) }
{
    let mut machine: Machine<B, M> = Machine::open(alloc, opening.copy(alloc)?)?;
    let mut steps = Vec::new(alloc);
    for event in events {
        add_step(&mut machine, *event, &mut steps)?;
    }
    Ok(steps)
}

/// The entries of steps.
pub fn entries_of(alloc: Global, steps: &[Step]) -> Result<Vec<Entry>, AllocError>
    ensures { IfOk result (λ entries. entries.items ≡ map (λ s. s.entry) steps.now) }
{
    let mut entries = Vec::new(alloc);
    for step in steps {
        entries.push(step.entry)?;
    }
    Ok(entries)
}

/// The pc of the step before which `place` others come, and 0 where there are fewer.
pub fn pc_at(steps: &[Step], place: usize) -> u32
    ensures { result ≡ pc_at steps.now place }
{
    if place < steps.len() {
        steps[place].pc
    } else {
        0
    }
}

/// What an entry stores.
fn stores(entry: Entry) -> Option<Write>
    ensures { result ≡ stores (access_of entry) }
{
    match entry {
        Entry::Store {
            addr,
            width,
            value,
            ..
        } => Some(Write { addr, width, value }),
        Entry::Amo { addr, new, .. } => Some(Write {
            addr,
            width: 4,
            value: new,
        }),
        _ => None,
    }
}

/// What an entry loads, as if it were stored.
fn loads(entry: Entry) -> Option<Write>
    ensures { result ≡ loads (access_of entry) }
{
    match entry {
        Entry::Load {
            addr,
            width,
            value,
            ..
        } => Some(Write { addr, width, value }),
        Entry::Amo { addr, old, .. } => Some(Write {
            addr,
            width: 4,
            value: old,
        }),
        _ => None,
    }
}

/// Whether these bytes are the party's own index, or a tag.
fn is_own_place(queue: &AnyQueue, party: Party, write: Write) -> bool
    ensures { result ≡ is_own_place queue.now (the_party party) write }
{
    match queue {
        AnyQueue::Indexed(queue) => indexed_moves::is_index_store(queue, party, write),
        AnyQueue::Tagged(queue) => tagged_moves::is_tag(queue, write.addr, write.width),
    }
}

/// Whether they are the other's index, or the tag of a position.
fn is_look(queue: &AnyQueue, party: Party, position: u128, write: Write) -> bool
    ensures { result ≡ is_look queue.now (the_party party) position write }
{
    match queue {
        AnyQueue::Indexed(queue) => indexed_moves::is_index_store(queue, other(party), write),
        AnyQueue::Tagged(queue) => {
            tagged_moves::is_tag_of(queue, position, write.addr) && write.width == queue.tag_width
        }
    }
}

/// What is recalled after a step of a hart.
fn recalled_more(
    queue: &AnyQueue,
    hart: u32,
    party: Party,
    position: u128,
    before: Recalled,
    step: Step,
) -> Recalled
    ensures { result ≡ recalled_more queue.now hart (the_party party) position before step }
{
    if step.entry.hart() != hart {
        return before;
    }
    let stored = match stores(step.entry) {
        Some(write) if is_own_place(queue, party, write) => Some(Done {
            value: write.value,
            pc: step.pc,
        }),
        _ => before.stored,
    };
    let looked = match loads(step.entry) {
        Some(write) if is_look(queue, party, position, write) => Some(Done {
            value: write.value,
            pc: step.pc,
        }),
        _ => before.looked,
    };
    Recalled { stored, looked }
}

/// The steps before that of a place.
pub fn steps_before(steps: &[Step], place: usize) -> &[Step]
    ensures { result.now ≡ take place steps.now }
{
    &steps[..place.min(steps.len())]
}

/// What a hart that is this party did last in these steps: a store to its own index, or to a tag, and a load of the other's index, or of the
/// tag of a position.
pub fn recall(queue: &AnyQueue, hart: u32, party: Party, position: u128, steps: &[Step]) -> Recalled
    ensures { result ≡ recalled queue.now hart (the_party party) position steps.now }
{
    let mut found = Recalled {
        stored: None,
        looked: None,
    };
    for step in steps {
        found = recalled_more(queue, hart, party, position, found, *step);
    }
    found
}

/// Whether a position is handed back between these counts and those.
fn hands_back(counts: RunCounts, after: RunCounts, position: u128) -> bool
    ensures { result ≡ hands_back position counts after }
{
    counts.taken <= position && position < after.taken
}

/// The pc at which the receiver hands a position back, if it does so in these steps.
pub fn handed_back(queue: &AnyQueue, start: Counts, position: u128, steps: &[Step]) -> Option<u32>
    ensures { result ≡ handed_back queue.now position start steps.now }
{
    let mut counts = at_start(start);
    for step in steps {
        let after = after_entry(queue, counts, step.entry);
        if hands_back(counts, after, position) {
            return Some(step.pc);
        }
        counts = after;
    }
    None
}
