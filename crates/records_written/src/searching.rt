//! The most marks that the states of a party can have: all of them at first, and then without those that a leaf doesn't keep, until
//! nothing changes.

ghost use Rattle.std.specs.Prelude.{ℕ, ◌≡◌, ◌==◌, ◌&&◌, ◌||◌, ◌<◌, not, IfOk, OnOk, MatchOption, length, get_or, set, Some, [], true};
ghost use Rattle.records_written.specs.PartyLeaves.{marked_after};
ghost use Rattle.records_written.specs.PartyLeaves.{has_mark, marks_byte, marks_of, is_left, are_left, AreMost};

use crate::leaves::{Leaf, StateLeaves};
use crate::marking::{Mark, StateMarks, left_after, narrowed, unmarked};
use known_values::Lack;
use std::alloc::{AllocError, Global};

/// The states whose leaves aren't followed yet, or of which something changed since.
#[derive(Drop)]
pub(crate) struct Waiting {
    list: Vec<u32>,
    waits: Vec<bool>,
}

impl Waiting {
    /// All states, the first of them first.
    pub(crate) fn all(alloc: Global, states: u32) -> Result<Waiting, Lack> {
        let mut list = Vec::new(alloc);
        for n in (0..states).rev() {
            list.push(n)?;
        }
        Ok(Waiting {
            list,
            waits: vec![in alloc; true; states as usize]?,
        })
    }

    /// Puts a state on the list, if it isn't there.
    pub(crate) fn add(&mut self, n: u32) -> Result<(), Lack> {
        if let Some(waits) = self.waits.get_mut(n as usize) {
            if !*waits {
                *waits = true;
                self.list.push(n)?;
            }
        }
        Ok(())
    }

    /// The last state of the list, which leaves it.
    pub(crate) fn next(&mut self) -> Option<u32> {
        let n = self.list.pop()?;
        if let Some(waits) = self.waits.get_mut(n as usize) {
            *waits = false;
        }
        Some(n)
    }
}

/// The marks of each state.
#[derive(Drop)]
struct Search {
    marks: Vec<Option<StateMarks>>,
    waiting: Waiting,
}

/// The marks of a state. A state that isn't there has none.
pub(crate) fn marks_at(
    alloc: Global,
    all: &[Option<StateMarks>],
    n: u32,
) -> Result<Option<StateMarks>, AllocError>
    ensures { IfOk result (λ own. own ≡ get_or all.now n (Some [])) }
{
    match all.get(n as usize) {
        None => Ok(Some(unmarked(alloc))),
        Some(None) => Ok(None),
        Some(Some(own)) => {
            let marks = Vec::from_slice(alloc, &own.marks)?;
            Ok(Some(StateMarks { marks }))
        }
    }
}

/// The marks of a state that are left, where it may be reached with these only; `None`, if it keeps all that it has.
pub(crate) fn left_of(
    alloc: Global,
    own: &Option<StateMarks>,
    left: &[Mark],
) -> Result<Option<StateMarks>, AllocError>
    ensures { IfOk result (λ r. MatchOption r ((d b : ℕ) → marks_byte own.now d b ≡ true → has_mark left.now d b ≡ true)
        (λ kept. (d b : ℕ) → has_mark kept d b ≡ (marks_byte own.now d b && has_mark left.now d b))) }
{
    match own {
        None => {
            let marks = Vec::from_slice(alloc, left)?;
            Ok(Some(StateMarks { marks }))
        }
        Some(own) => match narrowed(alloc, &own.marks, left)? {
            None => Ok(None),
            Some(marks) => Ok(Some(StateMarks { marks })),
        },
    }
}

/// What is marked at first in a state: all, or nothing where the party opens.
fn opening_marks(alloc: Global, n: u32, first: u32) -> Option<StateMarks>
    ensures { (d b : ℕ) → marks_byte result d b ≡ not (n == first) }
{
    if n == first {
        Some(unmarked(alloc))
    } else {
        None
    }
}

fn opened(alloc: Global, states: u32, first: u32) -> Result<Vec<Option<StateMarks>>, AllocError>
    ensures { IfOk result (λ all. (n d b : ℕ) → n < states → marks_of all.items n d b ≡ not (n == first)) }
{
    let mut all = Vec::new(alloc);
    for n in 0..states {
        all.push(opening_marks(alloc, n, first))?;
    }
    Ok(all)
}

impl Search {
    fn put(&mut self, n: u32, left: StateMarks)
        ensures { self.new.marks.items ≡ set self.old.marks.items n (Some left) }
    {
        if (n as usize) < self.marks.len() {
            self.marks[n as usize] = Some(left);
        }
    }

    /// Takes from a state what isn't among these marks.
    fn narrow(&mut self, alloc: Global, to: u32, left: &[Mark]) -> Result<(), Lack>
        ensures { OnOk result ((m d b : ℕ) → marks_of self.new.marks.items m d b
            ≡ (marks_of self.old.marks.items m d b && (not (to == m) || has_mark left.now d b))) }
    {
        let Some(own) = self.marks.get(to as usize) else {
            return Ok(());
        };
        match left_of(alloc, own, left)? {
            None => Ok(()),
            Some(kept) => {
                self.put(to, kept);
                self.waiting.add(to)
            }
        }
    }

    fn follow_targets(&mut self, alloc: Global, left: &[Mark], targets: &[u32]) -> Result<(), Lack>
        ensures { OnOk result ((m d b : ℕ) → marks_of self.new.marks.items m d b
            ≡ (marks_of self.old.marks.items m d b && is_left targets.now (has_mark left.now d b) m)) }
    {
        for to in targets {
            self.narrow(alloc, *to, left)?;
        }
        Ok(())
    }

    fn follow_leaf(
        &mut self,
        alloc: Global,
        own: &Option<StateMarks>,
        leaf: &Leaf,
    ) -> Result<(), Lack>
        ensures { OnOk result ((m d b : ℕ) → marks_of self.new.marks.items m d b ≡ (marks_of self.old.marks.items m d b
            && is_left leaf.now.targets (marked_after leaf.now.effect (marks_byte own.now) d b) m)) }
    {
        match left_after(alloc, own, leaf.effect)? {
            None => Ok(()),
            Some(left) => self.follow_targets(alloc, &left.marks, &leaf.targets),
        }
    }

    fn follow_leaves(
        &mut self,
        alloc: Global,
        own: &Option<StateMarks>,
        leaves: &[Leaf],
    ) -> Result<(), Lack>
        ensures { OnOk result ((m d b : ℕ) → marks_of self.new.marks.items m d b
            ≡ (marks_of self.old.marks.items m d b && are_left leaves.now (marks_byte own.now) m d b)) }
    {
        for leaf in leaves {
            self.follow_leaf(alloc, own, leaf)?;
        }
        Ok(())
    }

    /// Takes from the states to which a state leads what isn't so after its leaves.
    fn follow(&mut self, alloc: Global, graph: &[StateLeaves], n: u32) -> Result<(), Lack>
        ensures { OnOk result ((m d b : ℕ) → marks_of self.new.marks.items m d b ≡ (marks_of self.old.marks.items m d b
            && are_left (get_or graph.now n []) (marks_of self.old.marks.items n) m d b)) }
    {
        let own = marks_at(alloc, &self.marks, n)?;
        match graph.get(n as usize) {
            None => Ok(()),
            Some(state) => self.follow_leaves(alloc, &own, &state.leaves),
        }
    }

    /// Follows leaves until no state is left on the list.
    fn settle(&mut self, alloc: Global, graph: &[StateLeaves]) -> Result<(), Lack>
        ensures { OnOk result ((first : ℕ) → AreMost graph.now first self.old.marks.items → AreMost graph.now first self.new.marks.items) }
    {
        // a state comes back only after it has lost a mark
        for _ in 0..u64::MAX {
            let Some(n) = self.waiting.next() else {
                break;
            };
            self.follow(alloc, graph, n)?;
        }
        Ok(())
    }
}

/// The most marks that states with these leaves can have, if the party opens in state `first`.
pub(crate) fn most_marks(
    alloc: Global,
    graph: &[StateLeaves],
    states: u32,
    first: u32,
) -> Result<Vec<Option<StateMarks>>, Lack>
    requires { states ≡ length graph.now }
    ensures { IfOk result (λ all. AreMost graph.now first all.items) }
{
    let mut search = Search {
        marks: opened(alloc, states, first)?,
        waiting: Waiting::all(alloc, states)?,
    };
    search.settle(alloc, graph)?;
    let Search {
        marks,
        waiting: _waiting,
    } = search;
    Ok(marks)
}
