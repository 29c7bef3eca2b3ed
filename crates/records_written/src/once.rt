//! Whether a queue's receiver reads bytes of its records at most once, in order: the fewest positions that are closed in each of its states,
//! of one byte after another.

ghost use Rattle.std.specs.Prelude.{ℕ, ◌≡◌, ◌==◌, ◌&&◌, ◌||◌, ◌<◌, nat_le, IfOk, IfSome, OnOk, MatchOption, Bool, List, length, get_or, true, false, []};
ghost use Rattle.std.specs.List.{list_all, list_any};
ghost use Rattle.record_bytes.specs.Ranges.{has_byte};
ghost use Rattle.queue_certificates.specs.Certificates.{part_of};
ghost use Rattle.records_written.specs.Parties.{receiver_in};
ghost use Rattle.records_written.specs.PartyLeaves.{PartyLeaf, has_offset, closed_by, is_again, ends_at};
ghost use Rattle.records_written.specs.Marks.{IsShownOnce, IsFirstAgain};
ghost use Rattle.records_written.specs.PartyLeaves.{AreClosed, IsAnswer, IsUnder, leads_closed, raised, reads_again};

use crate::finding::Missing;
use crate::leaves::{Leaf, StateLeaves, graph_of};
use crate::parties::QueueNumber;
use crate::searching::Waiting;
use known_values::Lack;
use known_values::lack::sum;
use queue_certificates::Effect;
use queue_checker::QueueCertificate;
use queue_checker::sites::small;
use queue_layouts::Party;
use record_bytes::ByteRange;
use std::alloc::Global;
use step_machine::Opening;

fn has_offset(byte: u64, offset: u64, width: u64) -> bool
    ensures { result ≡ has_offset byte offset width }
{
    offset <= byte && byte - offset < width
}

/// Of how many positions from the count on a byte isn't to be read any more after an effect. It's of at most 2^64: a u128 has these numbers.
fn closed_by(all: bool, effect: Option<Effect>, byte: u64, closed: u128) -> u128
    ensures { result ≡ closed_by all effect byte closed }
{
    match effect {
        Some(Effect::Leaves) => closed,
        Some(
            Effect::Fills {
                position,
                offset,
                width,
            },
        ) => {
            let position = u128::from(position);
            if has_offset(byte, offset, width) {
                closed.max(position + 1)
            } else {
                closed.max(position)
            }
        }
        Some(Effect::Publishes(handed)) => {
            if all {
                0
            } else {
                closed.saturating_sub(u128::from(handed))
            }
        }
        None | Some(Effect::PublishesSome(_)) => 0,
    }
}

/// Whether an effect may read the byte of a closed position, or nobody knows how many positions it hands back.
fn is_again(effect: Option<Effect>, byte: u64, closed: u128) -> bool
    ensures { result ≡ is_again effect byte closed }
{
    match effect {
        Some(Effect::Leaves | Effect::Publishes(_)) => false,
        Some(
            Effect::Fills {
                position,
                offset,
                width,
            },
        ) => has_offset(byte, offset, width) && u128::from(position) < closed,
        None | Some(Effect::PublishesSome(_)) => true,
    }
}

fn closed_at(closed: &[u128], n: u32) -> u128
    ensures { result ≡ get_or closed.now n 0 }
{
    match closed.get(n as usize) {
        Some(number) => *number,
        None => 0,
    }
}

/// Of each state, how many positions are closed, of one byte.
#[derive(Drop)]
struct Closing {
    closed: Vec<u128>,
    waiting: Waiting,
}

impl Closing {
    /// Closes as many positions in a state.
    fn raise(&mut self, to: u32, left: u128) -> Result<(), Lack>
        ensures { OnOk result (self.new.closed.items ≡ raised self.old.closed.items to left) }
    {
        if closed_at(&self.closed, to) < left && (to as usize) < self.closed.len() {
            self.closed[to as usize] = left;
            return self.waiting.add(to);
        }
        Ok(())
    }

    /// Closes what is closed after a leaf in the states to which it leads.
    fn raise_all(&mut self, targets: &[u32], left: u128) -> Result<(), Lack>
        ensures { OnOk result ((f : ℕ → ℕ) → list_all (λ to. nat_le left (f to)) targets.now ≡ true
            → IsUnder self.old.closed.items f → IsUnder self.new.closed.items f) }
    {
        for to in targets {
            self.raise(*to, left)?;
        }
        Ok(())
    }

    /// Closes what is closed after the leaves of a state.
    fn follow(&mut self, leaves: &[Leaf], byte: u64, own: u128) -> Result<(), Lack>
        ensures { OnOk result ((f : ℕ → ℕ) → list_all (λ s. list_all (λ to. nat_le (closed_by s.all s.effect byte own) (f to)) s.targets) leaves.now ≡ true
            → IsUnder self.old.closed.items f → IsUnder self.new.closed.items f) }
    {
        for leaf in leaves {
            self.raise_all(&leaf.targets, closed_by(leaf.all, leaf.effect, byte, own))?;
        }
        Ok(())
    }

    fn follow_state(&mut self, graph: &[StateLeaves], byte: u64, n: u32) -> Result<(), Lack>
        ensures { OnOk result ((f : ℕ → ℕ) → AreClosed graph.now byte f → IsUnder self.old.closed.items f → IsUnder self.new.closed.items f) }
    {
        let own = closed_at(&self.closed, n);
        match graph.get(n as usize) {
            None => Ok(()),
            Some(state) => self.follow(&state.leaves, byte, own),
        }
    }

    /// Follows leaves until no state is left on the list.
    fn settle(&mut self, graph: &[StateLeaves], byte: u64) -> Result<(), Lack>
        ensures { OnOk result ((f : ℕ → ℕ) → AreClosed graph.now byte f → IsUnder self.old.closed.items f → IsUnder self.new.closed.items f) }
    {
        // a state comes back only after more was closed in it
        for _ in 0..u64::MAX {
            let Some(n) = self.waiting.next() else {
                break;
            };
            self.follow_state(graph, byte, n)?;
        }
        Ok(())
    }
}

/// The fewest positions that are closed in states with these leaves, of a byte.
fn fewest_closed(
    alloc: Global,
    graph: &[StateLeaves],
    states: u32,
    byte: u64,
) -> Result<Vec<u128>, Lack>
    requires { states ≡ length graph.now }
    ensures { IfOk result (λ closed. (f : ℕ → ℕ) → AreClosed graph.now byte f → IsUnder closed.items f) }
{
    let mut closing = Closing {
        closed: vec![in alloc; 0; states as usize]?,
        waiting: Waiting::all(alloc, states)?,
    };
    closing.settle(graph, byte)?;
    let Closing {
        closed,
        waiting: _waiting,
    } = closing;
    Ok(closed)
}

fn leads_closed(closed: &[u128], byte: u64, own: u128, leaf: &Leaf) -> bool
    ensures { result ≡ list_all (λ to. nat_le (closed_by leaf.now.all leaf.now.effect byte own) (get_or closed.now to 0)) leaf.now.targets }
{
    let left = closed_by(leaf.all, leaf.effect, byte, own);
    leaf.targets.iter().all(|to| left <= closed_at(closed, *to))
}

/// Whether the leaves of state `n` close no more.
fn is_closed(graph: &[StateLeaves], closed: &[u128], byte: u64, n: u32) -> bool
    ensures { result ≡ list_all (leads_closed (λ m. get_or closed.now m 0) n byte) (get_or graph.now n []) }
{
    let own = closed_at(closed, n);
    match graph.get(n as usize) {
        None => true,
        Some(state) => state
            .leaves
            .iter()
            .all(|leaf| leads_closed(closed, byte, own, leaf)),
    }
}

/// Whether a leaf of state `n` may read the byte of a closed position.
fn reads_again(graph: &[StateLeaves], closed: &[u128], byte: u64, n: u32) -> bool
    ensures { result ≡ reads_again (get_or graph.now n []) byte (get_or closed.now n 0) }
{
    let own = closed_at(closed, n);
    match graph.get(n as usize) {
        None => false,
        Some(state) => state
            .leaves
            .iter()
            .any(|leaf| is_again(leaf.effect, byte, own)),
    }
}

/// Whether that is so of all states.
fn all_closed(graph: &[StateLeaves], states: u32, closed: &[u128], byte: u64) -> bool
    requires { states ≡ length graph.now }
    ensures { result ≡ true → AreClosed graph.now byte (λ m. get_or closed.now m 0) }
{
    for n in 0..states {
        if !is_closed(graph, closed, byte, n) {
            return false;
        }
    }
    true
}

/// The first state that may read the byte of a closed position.
fn first_state(graph: &[StateLeaves], states: u32, closed: &[u128], byte: u64) -> Option<u32>
    requires { states ≡ length graph.now }
    ensures { MatchOption result ((n : ℕ) → reads_again (get_or graph.now n []) byte (get_or closed.now n 0) ≡ false)
        (λ n. (reads_again (get_or graph.now n []) byte (get_or closed.now n 0) ≡ true)
        × ((m : ℕ) → m < n → reads_again (get_or graph.now m []) byte (get_or closed.now m 0) ≡ false)) }
{
    for n in 0..states {
        if reads_again(graph, closed, byte, n) {
            return Some(n);
        }
    }
    None
}

/// The first state of which a byte may be read again.
fn first_of(
    alloc: Global,
    graph: &[StateLeaves],
    states: u32,
    byte: u64,
) -> Result<Option<Missing>, Lack>
    requires { states ≡ length graph.now }
    ensures { IfOk result (IsAnswer graph.now (λ b. b == byte)) }
{
    let closed = fewest_closed(alloc, graph, states, byte)?;
    if !all_closed(graph, states, &closed, byte) {
        // the search ends only when they are
        return Err(Lack::TooLarge);
    }
    match first_state(graph, states, &closed, byte) {
        None => Ok(None),
        Some(state) => Ok(Some(Missing { state, byte })),
    }
}

/// The first of two states and bytes: of states, then of bytes.
fn earlier(found: Option<Missing>, other: Option<Missing>) -> Option<Missing>
    ensures { (graph : List (List PartyLeaf)) (p q : ℕ → Bool) → IsAnswer graph p found → IsAnswer graph q other → IsAnswer graph (λ b. p b || q b) result }
{
    match (found, other) {
        (None, _) => other,
        (_, None) => found,
        (Some(one), Some(two)) => {
            if one.state < two.state || one.state == two.state && one.byte <= two.byte {
                Some(one)
            } else {
                Some(two)
            }
        }
    }
}

fn has_byte(mask: &[ByteRange], byte: u64) -> bool
    ensures { result ≡ has_byte mask.now byte }
{
    mask.iter()
        .any(|range| range.first <= byte && byte <= range.last)
}

/// What is found with one byte more, if it is one of the mask's.
fn with_byte(
    alloc: Global,
    graph: &[StateLeaves],
    states: u32,
    mask: &[ByteRange],
    found: Option<Missing>,
    byte: u64,
) -> Result<Option<Missing>, Lack>
    requires { states ≡ length graph.now }
    ensures { IfOk result (λ r. (p : ℕ → Bool) → IsAnswer graph.now p found → IsAnswer graph.now (λ b. p b || (has_byte mask.now b && (b == byte))) r) }
{
    if has_byte(mask, byte) {
        let other = first_of(alloc, graph, states, byte)?;
        Ok(earlier(found, other))
    } else {
        Ok(found)
    }
}

/// And with the first byte that a leaf reads, and the first after it.
fn with_leaf(
    alloc: Global,
    graph: &[StateLeaves],
    states: u32,
    mask: &[ByteRange],
    found: Option<Missing>,
    effect: Option<Effect>,
) -> Result<Option<Missing>, Lack>
    requires { states ≡ length graph.now }
    ensures { IfOk result (λ r. (p : ℕ → Bool) → IsAnswer graph.now p found → IsAnswer graph.now (λ b. p b || (has_byte mask.now b && ends_at effect b)) r) }
{
    match effect {
        Some(Effect::Fills { offset, width, .. }) => {
            let first = with_byte(alloc, graph, states, mask, found, offset)?;
            with_byte(alloc, graph, states, mask, first, sum(offset, width)?)
        }
        _ => Ok(found),
    }
}

/// And with those of each of these leaves.
fn with_leaves(
    alloc: Global,
    graph: &[StateLeaves],
    states: u32,
    mask: &[ByteRange],
    found: Option<Missing>,
    leaves: &[Leaf],
) -> Result<Option<Missing>, Lack>
    requires { states ≡ length graph.now }
    ensures { IfOk result (λ r. (p : ℕ → Bool) → IsAnswer graph.now p found
        → IsAnswer graph.now (λ b. p b || (has_byte mask.now b && list_any (λ s. ends_at s.effect b) leaves.now)) r) }
{
    let mut found = found;
    for leaf in leaves {
        found = with_leaf(alloc, graph, states, mask, found, leaf.effect)?;
    }
    Ok(found)
}

/// The first state of which a byte of the mask may be read again. What holds of one byte holds of the next, unless a load or a range of the
/// mask begins or ends between them, so only those bytes are asked about at which one does.
fn first_twice(
    alloc: Global,
    graph: &[StateLeaves],
    states: u32,
    mask: &[ByteRange],
) -> Result<Option<Missing>, Lack>
    requires { states ≡ length graph.now }
    ensures { IfOk result (IsAnswer graph.now (has_byte mask.now)) }
{
    let mut found = None;
    for range in mask {
        found = with_byte(alloc, graph, states, mask, found, range.first)?;
    }
    for state in graph {
        found = with_leaves(alloc, graph, states, mask, found, &state.leaves)?;
    }
    Ok(found)
}

/// Of which byte of the mask a queue's receiver isn't shown to read it at most once in each record, and of the records in order: between a
/// position's publication and its handing back it reads none twice, nor any after one of a later position. None: it is shown of all. Otherwise
/// the first: of the states that may read it again, or that hand back nobody knows how many positions, and then of bytes.
pub fn first_again(
    alloc: Global,
    opening: &Opening,
    certificate: &QueueCertificate,
    queue: QueueNumber,
    mask: &[ByteRange],
) -> Result<Option<Missing>, Lack>
    ensures exact { IfOk result (λ again. MatchOption again (IsShownOnce opening.now certificate.now queue (has_byte mask.now))
        (IsFirstAgain opening.now certificate.now queue (has_byte mask.now))) }
    ensures within { IfOk result (λ again. IfSome again (λ u. u.state < length (part_of certificate.now (receiver_in certificate.now queue)).states)) }
{
    let graph = graph_of(alloc, opening, certificate, queue, Party::Receiver)?;
    let states = small(graph.len())?;
    first_twice(alloc, &graph, states, mask)
}
