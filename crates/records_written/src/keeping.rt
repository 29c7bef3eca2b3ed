//! Whether the leaves of a party's states keep marks.

ghost use Rattle.std.specs.Prelude.{ℕ, ◌≡◌, ◌||◌, not, IfOk, true, false, length};
ghost use Rattle.std.specs.List.{list_all};
ghost use Rattle.records_written.specs.PartyLeaves.{marked_after};
ghost use Rattle.records_written.specs.PartyLeaves.{keeps, AreKept};
ghost use Rattle.records_written.specs.PartyLeaves.{marks_byte, marks_of};

use crate::leaves::{Leaf, StateLeaves};
use crate::marking::{StateMarks, left_after};
use crate::searching::{left_of, marks_at};
use known_values::Lack;
use std::alloc::Global;

/// Whether a state has only such marks.
fn target_keeps(
    alloc: Global,
    all: &[Option<StateMarks>],
    to: u32,
    left: &Option<StateMarks>,
) -> Result<bool, Lack>
    ensures { IfOk result (λ keeps. keeps ≡ true → (d b : ℕ) → (not (marks_of all.now to d b) || marks_byte left.now d b) ≡ true) }
{
    let Some(left) = left else {
        return Ok(true);
    };
    match all.get(to as usize) {
        None => Ok(true),
        Some(own) => {
            let fewer = left_of(alloc, own, &left.marks)?;
            Ok(fewer.is_none())
        }
    }
}

/// Whether these states have.
fn targets_keep(
    alloc: Global,
    all: &[Option<StateMarks>],
    left: &Option<StateMarks>,
    targets: &[u32],
) -> Result<bool, Lack>
    ensures { IfOk result (λ k. k ≡ true → (d b : ℕ) → list_all (λ to. not (marks_of all.now to d b) || marks_byte left.now d b) targets.now ≡ true) }
{
    let mut all_keep = true;
    for to in targets {
        let keeps = target_keeps(alloc, all, *to, left)?;
        all_keep = all_keep && keeps;
    }
    Ok(all_keep)
}

/// Whether a leaf of a state with these marks keeps them.
fn leaf_keeps(
    alloc: Global,
    all: &[Option<StateMarks>],
    own: &Option<StateMarks>,
    leaf: &Leaf,
) -> Result<bool, Lack>
    ensures { IfOk result (λ k. k ≡ true → (d b : ℕ)
        → list_all (λ to. not (marks_of all.now to d b) || marked_after leaf.now.effect (marks_byte own.now) d b) leaf.now.targets ≡ true) }
{
    let left = left_after(alloc, own, leaf.effect)?;
    targets_keep(alloc, all, &left, &leaf.targets)
}

/// Whether each of these leaves does.
fn leaves_keep(
    alloc: Global,
    all: &[Option<StateMarks>],
    own: &Option<StateMarks>,
    leaves: &[Leaf],
) -> Result<bool, Lack>
    ensures { IfOk result (λ k. k ≡ true → (d b : ℕ) → list_all (λ s. list_all (λ to. not (marks_of all.now to d b)
        || marked_after s.effect (marks_byte own.now) d b) s.targets) leaves.now ≡ true) }
{
    let mut all_keep = true;
    for leaf in leaves {
        let keeps = leaf_keeps(alloc, all, own, leaf)?;
        all_keep = all_keep && keeps;
    }
    Ok(all_keep)
}

/// Whether each leaf of state `n` does.
fn state_keeps(
    alloc: Global,
    all: &[Option<StateMarks>],
    n: u32,
    state: &StateLeaves,
) -> Result<bool, Lack>
    ensures { IfOk result (λ k. k ≡ true → (d b : ℕ) → list_all (keeps (marks_of all.now) n d b) state.now ≡ true) }
{
    let own = marks_at(alloc, all, n)?;
    leaves_keep(alloc, all, &own, &state.leaves)
}

/// Whether nothing is marked where the party opens.
fn opens_unmarked(all: &[Option<StateMarks>], first: u32) -> bool
    ensures { result ≡ true → (d b : ℕ) → marks_of all.now first d b ≡ false }
{
    match all.get(first as usize) {
        None => true,
        Some(None) => false,
        Some(Some(own)) => own.marks.is_empty(),
    }
}

/// Whether all leaves keep these marks, and nothing is marked where the party opens.
pub(crate) fn are_kept(
    alloc: Global,
    graph: &[StateLeaves],
    states: u32,
    first: u32,
    all: &[Option<StateMarks>],
) -> Result<bool, Lack>
    requires { states ≡ length graph.now }
    ensures { IfOk result (λ k. k ≡ true → AreKept graph.now first (marks_of all.now)) }
{
    for n in 0..states {
        if !state_keeps(alloc, all, n, &graph[n as usize])? {
            return Ok(false);
        }
    }
    Ok(opens_unmarked(all, first))
}
