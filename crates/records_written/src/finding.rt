//! The first byte of records that isn't shown to be written, or read.

ghost use Rattle.std.specs.Prelude.{ℕ, ◌≡◌, ◌==◌, ◌&&◌, ◌<◌, IfOk, IfSome, MatchOption, length, true, false};
ghost use Rattle.record_bytes.specs.Ranges.{has_byte};
ghost use Rattle.queue_certificates.specs.Certificates.{part_of};
ghost use Rattle.queue_layouts.specs.Sides.{the_party};
ghost use Rattle.records_written.specs.Parties.{hart_by, sender_in, receiver_in};
ghost use Rattle.records_written.specs.Marks.{IsShownDone, IsFirstMissing, IsShownWritten, IsFirstUnwritten, IsShownRead, IsFirstUnread};
ghost use Rattle.records_written.specs.PartyLeaves.{may_hand_on};
ghost use Rattle.records_written.specs.PartyLeaves.{IsSure, IsFirstUnsure};
ghost use Rattle.records_written.specs.PartyLeaves.{has_mark, marks_of, IsBound, IsEnd, IsFirstOf, IsFirstOpen, IsLowestOpen};

use crate::keeping::are_kept;
use crate::leaves::{StateLeaves, graph_of};
use crate::marking::{Mark, StateMarks, end_of, lowest, minus};
use crate::parties::{QueueNumber, first_state};
use crate::searching::{marks_at, most_marks};
use known_values::Lack;
use known_values::lack::sum;
use queue_checker::QueueCertificate;
use queue_checker::effects::most_published;
use queue_checker::sites::small;
use queue_layouts::Party;
use record_bytes::ByteRange;
use std::alloc::{AllocError, Global};
use step_machine::Opening;

/// The first byte of the mask that isn't shown to be written, or read, in the records of a queue: at the party's state of this number,
/// which publishes, or takes.
#[derive(Clone, Copy)]
pub struct Missing {
    pub state: u32,
    pub byte: u64,
}

/// A byte of the mask that isn't marked, of a position.
#[derive(Clone, Copy)]
pub(crate) struct Open {
    position: u64,
    byte: u64,
}

/// The mask's bytes of a position.
fn asked_at(alloc: Global, mask: &[ByteRange], position: u64) -> Result<Vec<Mark>, AllocError>
    ensures { IfOk result (λ asked. (d b : ℕ) → has_mark asked.items d b ≡ ((position == d) && has_byte mask.now b)) }
{
    let mut asked = Vec::new(alloc);
    for range in mask {
        asked.push(Mark {
            position,
            bytes: *range,
        })?;
    }
    Ok(asked)
}

/// The lowest byte of the mask that isn't marked at a position.
fn lowest_open(
    alloc: Global,
    mask: &[ByteRange],
    own: &[Mark],
    position: u64,
) -> Result<Option<u64>, AllocError>
    ensures { IfOk result (IsLowestOpen mask.now (has_mark own.now) position) }
{
    let asked = asked_at(alloc, mask, position)?;
    let open = minus(alloc, &asked, own)?;
    Ok(lowest(&open))
}

/// The first position before the end that has such a byte.
fn first_open(
    alloc: Global,
    mask: &[ByteRange],
    own: &[Mark],
    end: u64,
) -> Result<Option<Open>, AllocError>
    ensures { IfOk result (IsFirstOpen mask.now (has_mark own.now) (λ d. d < end)) }
{
    for position in 0..end {
        if let Some(byte) = lowest_open(alloc, mask, own, position)? {
            return Ok(Some(Open { position, byte }));
        }
    }
    Ok(None)
}

/// How many positions a state's leaves may hand on; `None`, if any number.
fn handed_by(state: &StateLeaves) -> Option<u64>
    ensures { IsBound state.now result }
{
    let mut most = 0;
    for leaf in &state.leaves {
        match leaf.effect {
            None => return None,
            Some(effect) => most = most_published(effect).max(most),
        }
    }
    Some(most)
}

/// The end of the positions that are asked about at a state: of those that it may hand on, or one past all that have a mark.
fn end_at(own: &[Mark], state: &StateLeaves) -> Result<u64, Lack>
    ensures { IfOk result (IsEnd state.now (has_mark own.now)) }
{
    match handed_by(state) {
        Some(handed) => Ok(handed),
        None => sum(end_of(own)?, 1),
    }
}

/// The first byte at a state with these marks.
fn open_in(
    alloc: Global,
    mask: &[ByteRange],
    own: &[Mark],
    state: &StateLeaves,
) -> Result<Option<Open>, Lack>
    ensures { IfOk result (IsFirstOpen mask.now (has_mark own.now) (λ d. may_hand_on state.now d ≡ true)) }
{
    let end = end_at(own, state)?;
    let open = first_open(alloc, mask, own, end)?;
    Ok(open)
}

/// The first byte at a state.
fn open_at(
    alloc: Global,
    all: &[Option<StateMarks>],
    mask: &[ByteRange],
    state: &StateLeaves,
    n: u32,
) -> Result<Option<Open>, Lack>
    ensures { IfOk result (IsFirstOpen mask.now (marks_of all.now n) (λ d. may_hand_on state.now d ≡ true)) }
{
    match marks_at(alloc, all, n)? {
        None => Ok(None),
        Some(own) => open_in(alloc, mask, &own.marks, state),
    }
}

/// The first byte of all states.
fn first_unmarked(
    alloc: Global,
    graph: &[StateLeaves],
    states: u32,
    all: &[Option<StateMarks>],
    mask: &[ByteRange],
) -> Result<Option<Missing>, Lack>
    requires { states ≡ length graph.now }
    ensures { IfOk result (IsFirstOf graph.now mask.now (marks_of all.now) states) }
{
    for n in 0..states {
        if let Some(open) = open_at(alloc, all, mask, &graph[n as usize], n)? {
            return Ok(Some(Missing {
                state: n,
                byte: open.byte,
            }));
        }
    }
    Ok(None)
}

/// The first byte of the mask that isn't surely done, of the leaves of a party that opens in state `first`.
pub(crate) fn first_unsure(
    alloc: Global,
    graph: &[StateLeaves],
    states: u32,
    first: u32,
    mask: &[ByteRange],
) -> Result<Option<Missing>, Lack>
    requires { states ≡ length graph.now }
    ensures { IfOk result (λ r. MatchOption r (IsSure graph.now first (has_byte mask.now))
        (λ u. IsFirstUnsure graph.now first (has_byte mask.now) u.state u.byte)) }
{
    let all = most_marks(alloc, graph, states, first)?;
    if !are_kept(alloc, graph, states, first, &all)? {
        // the search ends only when they are
        return Err(Lack::TooLarge);
    }
    first_unmarked(alloc, graph, states, &all, mask)
}

/// Which byte of the mask a party isn't shown to write, or read, in each record, before it hands that on.
fn first_missing(
    alloc: Global,
    opening: &Opening,
    certificate: &QueueCertificate,
    queue: QueueNumber,
    party: Party,
    mask: &[ByteRange],
) -> Result<Option<Missing>, Lack>
    ensures exact { IfOk result (λ missing. MatchOption missing (IsShownDone opening.now certificate.now queue (the_party party) (has_byte mask.now))
        (IsFirstMissing opening.now certificate.now queue (the_party party) (has_byte mask.now))) }
    ensures within { IfOk result (λ missing. IfSome missing (λ u. u.state < length (part_of certificate.now (hart_by certificate.now queue (the_party
        party))).states)) }
{
    let graph = graph_of(alloc, opening, certificate, queue, party)?;
    let states = small(graph.len())?;
    first_unsure(
        alloc,
        &graph,
        states,
        first_state(certificate, queue, party),
        mask,
    )
}

/// Which byte of the mask a queue's sender isn't shown to write in each record, before it publishes it. None: it is shown of all. Otherwise
/// the first: of the states that may publish a position with a byte that isn't surely written there, in their order, then of the
/// positions, then of the bytes. A sender that writes it in a way that marks don't express is named too.
pub fn first_unwritten(
    alloc: Global,
    opening: &Opening,
    certificate: &QueueCertificate,
    queue: QueueNumber,
    mask: &[ByteRange],
) -> Result<Option<Missing>, Lack>
    ensures exact { IfOk result (λ unwritten. MatchOption unwritten (IsShownWritten opening.now certificate.now queue (has_byte mask.now))
        (IsFirstUnwritten opening.now certificate.now queue (has_byte mask.now))) }
    ensures within { IfOk result (λ unwritten. IfSome unwritten (λ u. u.state < length (part_of certificate.now (sender_in certificate.now queue)).states)) }
{
    first_missing(alloc, opening, certificate, queue, Party::Sender, mask)
}

/// Which byte of the mask a queue's receiver isn't shown to read in each record, before it hands its slot back: the first, in the same order.
/// A receiver that reads it only before it learns that it owns the record is named too.
pub fn first_unread(
    alloc: Global,
    opening: &Opening,
    certificate: &QueueCertificate,
    queue: QueueNumber,
    mask: &[ByteRange],
) -> Result<Option<Missing>, Lack>
    ensures exact { IfOk result (λ unread. MatchOption unread (IsShownRead opening.now certificate.now queue (has_byte mask.now))
        (IsFirstUnread opening.now certificate.now queue (has_byte mask.now))) }
    ensures within { IfOk result (λ unread. IfSome unread (λ u. u.state < length (part_of certificate.now (receiver_in certificate.now queue)).states)) }
{
    first_missing(alloc, opening, certificate, queue, Party::Receiver, mask)
}
