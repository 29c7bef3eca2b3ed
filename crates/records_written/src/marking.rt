//! Bytes of slots that are written, at a state of the sender, or read, at one of the receiver.

ghost use Rattle.std.specs.Prelude.{ℕ, ◌≡◌, ◌+◌, ◌==◌, ◌&&◌, ◌||◌, not, IfOk, IfSome, OnOk, MatchOption, is_some, true, false, Some, []};
ghost use Rattle.record_bytes.specs.Naming.{part_has};
ghost use Rattle.record_bytes.specs.Ranges.{has_byte, touch};
ghost use Rattle.records_written.specs.PartyLeaves.{is_filled, marked_after};
ghost use Rattle.records_written.specs.PartyLeaves.{is_mark, has_mark, marks_byte, lower, IsLowest};

use known_values::Lack;
use known_values::lack::sum;
use queue_certificates::Effect;
use record_bytes::{ByteRange, joined, part_after, part_before};
use std::alloc::{AllocError, Global};
use std::marker::Model;

/// Bytes of the slot of the position that is `position` further than the party's count.
#[derive(Clone, Copy)]
pub(crate) struct Mark {
    pub(crate) position: u64,
    pub(crate) bytes: ByteRange,
}

/// What is marked at a state.
#[derive(Drop)]
pub(crate) struct StateMarks {
    pub(crate) marks: Vec<Mark>,
}

impl Model for StateMarks {
    ghost use Rattle.std.specs.Prelude.{List};
    ghost use Rattle.records_written.specs.declared.marking.Mark.{Mark as MarkOf};

    ghost Value = { List MarkOf };

    ghost view = { λ s. s.marks.items };
}

fn push_part(
    marks: &mut Vec<Mark>,
    position: u64,
    part: Option<ByteRange>,
) -> Result<(), AllocError>
    ensures { OnOk result ((d b : ℕ) → has_mark marks.new.items d b ≡ (has_mark marks.old.items d b || ((position == d) && part_has b part))) }
{
    if let Some(bytes) = part {
        marks.push(Mark { position, bytes })?;
    }
    Ok(())
}

/// Adds what is left of a mark without another.
fn push_rest(marks: &mut Vec<Mark>, mark: Mark, cut: Mark) -> Result<(), AllocError>
    ensures { OnOk result ((d b : ℕ) → has_mark marks.new.items d b ≡ (has_mark marks.old.items d b || (is_mark mark d b && not (is_mark cut d b)))) }
{
    if mark.position == cut.position {
        push_part(marks, mark.position, part_before(mark.bytes, cut.bytes))?;
        push_part(marks, mark.position, part_after(mark.bytes, cut.bytes))
    } else {
        push_part(marks, mark.position, Some(mark.bytes))
    }
}

fn without(alloc: Global, marks: &[Mark], cut: Mark) -> Result<Vec<Mark>, AllocError>
    ensures { IfOk result (λ left. (d b : ℕ) → has_mark left.items d b ≡ (has_mark marks.now d b && not (is_mark cut d b))) }
{
    let mut left = Vec::new(alloc);
    for mark in marks {
        push_rest(&mut left, *mark, cut)?;
    }
    Ok(left)
}

/// Marks without others.
pub(crate) fn minus(alloc: Global, marks: &[Mark], others: &[Mark]) -> Result<Vec<Mark>, AllocError>
    ensures { IfOk result (λ left. (d b : ℕ) → has_mark left.items d b ≡ (has_mark marks.now d b && not (has_mark others.now d b))) }
{
    let mut left = Vec::from_slice(alloc, marks)?;
    for cut in others {
        left = without(alloc, &left, *cut)?;
    }
    Ok(left)
}

/// The lower of a byte and the first of a range, if that has one.
fn lower(found: Option<u64>, bytes: ByteRange) -> Option<u64>
    ensures { result ≡ lower found bytes }
{
    if bytes.last < bytes.first {
        return found;
    }
    match found {
        None => Some(bytes.first),
        Some(byte) => Some(byte.min(bytes.first)),
    }
}

/// The lowest byte that is marked, of any position.
pub(crate) fn lowest(marks: &[Mark]) -> Option<u64>
    ensures { IsLowest marks.now result }
{
    let mut found = None;
    for mark in marks {
        found = lower(found, mark.bytes);
    }
    found
}

fn is_same(mark: Mark, other: Mark) -> bool
    ensures { result ≡ true → (d b : ℕ) → is_mark mark d b ≡ is_mark other d b }
{
    mark.position == other.position
        && mark.bytes.first == other.bytes.first
        && mark.bytes.last == other.bytes.last
}

/// Whether each mark is the other of its place, so that all that is marked is marked in others too.
fn are_same(marks: &[Mark], others: &[Mark]) -> bool
    ensures { result ≡ true → (d b : ℕ) → has_mark marks.now d b ≡ true → has_mark others.now d b ≡ true }
{
    if marks.len() != others.len() {
        return false;
    }
    for i in 0..marks.len() {
        if !is_same(marks[i], others[i]) {
            return false;
        }
    }
    true
}

/// The marks that are marked in others too; `None`, if all are.
pub(crate) fn narrowed(
    alloc: Global,
    marks: &[Mark],
    others: &[Mark],
) -> Result<Option<Vec<Mark>>, AllocError>
    ensures { IfOk result (λ r. MatchOption r ((d b : ℕ) → has_mark marks.now d b ≡ true → has_mark others.now d b ≡ true)
        (λ kept. (d b : ℕ) → has_mark kept.items d b ≡ (has_mark marks.now d b && has_mark others.now d b))) }
{
    // mostly they are, and to take one list from the other takes long
    if are_same(marks, others) {
        return Ok(None);
    }
    let lost = minus(alloc, marks, others)?;
    if lowest(&lost).is_none() {
        return Ok(None);
    }
    let kept = minus(alloc, marks, &lost)?;
    Ok(Some(kept))
}

/// Two marks as one, if there is no byte between them.
fn with_neighbour(mark: Mark, other: Mark) -> Option<Mark>
    ensures one { IfSome result (λ both. (d b : ℕ) → is_mark both d b ≡ (is_mark mark d b || is_mark other d b)) }
    ensures touch { is_some result ≡ ((mark.position == other.position) && touch mark.bytes other.bytes) }
{
    if mark.position != other.position {
        return None;
    }
    let bytes = joined(mark.bytes, other.bytes)?;
    Some(Mark {
        position: mark.position,
        bytes,
    })
}

/// Marks after an access of `width` bytes of a position's slot. It joins those that it touches, so that what is accessed in a row is one mark.
fn with_filled(
    alloc: Global,
    marks: &[Mark],
    position: u64,
    offset: u64,
    width: u64,
) -> Result<Vec<Mark>, Lack>
    ensures { IfOk result (λ left. (d b : ℕ) → has_mark left.items d b ≡ (is_filled position offset width d b || has_mark marks.now d b)) }
{
    if width == 0 {
        let left = Vec::from_slice(alloc, marks)?;
        return Ok(left);
    }
    let mut filled = Mark {
        position,
        bytes: ByteRange {
            first: offset,
            last: sum(offset, width - 1)?,
        },
    };
    let mut left = Vec::new(alloc);
    for mark in marks {
        match with_neighbour(filled, *mark) {
            Some(both) => filled = both,
            None => left.push(*mark)?,
        }
    }
    left.push(filled)?;
    Ok(left)
}

/// Marks after `handed` positions were handed on.
fn moved_on(alloc: Global, marks: &[Mark], handed: u64) -> Result<Vec<Mark>, AllocError>
    ensures { IfOk result (λ left. (d b : ℕ) → has_mark left.items d b ≡ has_mark marks.now (d + handed) b) }
{
    let mut left = Vec::new(alloc);
    for mark in marks {
        if mark.position >= handed {
            left.push(Mark {
                position: mark.position - handed,
                bytes: mark.bytes,
            })?;
        }
    }
    Ok(left)
}

/// The marks that are so after an effect.
fn after_effect(alloc: Global, marks: &[Mark], effect: Effect) -> Result<Vec<Mark>, Lack>
    ensures { IfOk result (λ left. (d b : ℕ) → has_mark left.items d b ≡ marked_after (Some effect) (has_mark marks.now) d b) }
{
    match effect {
        Effect::Leaves => Ok(Vec::from_slice(alloc, marks)?),
        Effect::Fills {
            position,
            offset,
            width,
        } => with_filled(alloc, marks, position, offset, width),
        Effect::Publishes(handed) => {
            let left = moved_on(alloc, marks, handed)?;
            Ok(left)
        }
        Effect::PublishesSome(_) => Ok(Vec::new(alloc)),
    }
}

/// The marks that are so after a leaf; `None` is all.
pub(crate) fn left_after(
    alloc: Global,
    own: &Option<StateMarks>,
    effect: Option<Effect>,
) -> Result<Option<StateMarks>, Lack>
    ensures { IfOk result (λ left. (d b : ℕ) → marks_byte left d b ≡ marked_after effect (marks_byte own.now) d b) }
{
    match effect {
        None | Some(Effect::PublishesSome(_)) => Ok(Some(unmarked(alloc))),
        Some(effect) => match own {
            None => Ok(None),
            Some(own) => {
                let marks = after_effect(alloc, &own.marks, effect)?;
                Ok(Some(StateMarks { marks }))
            }
        },
    }
}

/// Nothing is marked.
pub(crate) fn unmarked(alloc: Global) -> StateMarks
    ensures { result ≡ [] }
{
    StateMarks {
        marks: Vec::new(alloc),
    }
}

/// One more than the greatest position that is marked.
pub(crate) fn end_of(marks: &[Mark]) -> Result<u64, Lack>
    ensures { IfOk result (λ end. (b : ℕ) → has_mark marks.now end b ≡ false) }
{
    let mut end = 0;
    for mark in marks {
        end = sum(mark.position, 1)?.max(end);
    }
    Ok(end)
}
