//! What is found of a party of a queue: how soon it goes on in this queue, or in all its queues with indices together.

ghost use Rattle.std.specs.Prelude.{◌≡◌, ◌++◌, IfOk, OnOk, length};
ghost use Rattle.std.specs.String.{string_bytes};
ghost use Rattle.queue_progress.specs.Harts.{sides};
ghost use Rattle.certifying.specs.Together.{are_several, both_in, bound_of, bound_together, few_positions_text, or_together};
ghost use Rattle.certifying.specs.Together.{pace_together, party_in, party_progress, party_told, positions_text, together_front, together_line, whatever_end};

use known_values::Lack;
use known_values::lack::{product, sum};
use queue_checker::QueueCertificate;
use queue_progress::{
    Pace, Progress, ToldProgress, hart_pace_of, progress_of, sides, told_progress_of,
};
use records_written::QueueNumber;
use std::alloc::{AllocError, Global};
use step_machine::Opening;

/// Of `within` instructions in a row of a party one moves its index, or its position, or is a load by which it finds at most `owned`
/// positions: free ones the sender, full ones the receiver.
#[derive(Clone, Copy)]
pub struct Bound {
    pub owned: u64,
    pub within: u64,
}

/// The bounds of both parties of a queue.
#[derive(Clone, Copy)]
pub struct Both {
    pub sends: Bound,
    pub receives: Bound,
}

/// What is found of a party of a queue.
#[derive(Clone, Copy)]
pub enum PartyProgress {
    /// It goes on in this queue.
    Alone(Bound),
    /// Not in this queue by itself, but in all its queues together: it moves on in one, or finds that it has to wait for one.
    Together(Bound),
    /// The first state of which the rank doesn't fall along instructions that don't move its index, or its position, at each of which it may own
    /// more positions than the certificate says.
    NoPace(u32),
    /// The first of which it doesn't along instructions that neither move its index nor load the other's.
    NoLook(u32),
    /// The certificate has no ranks for it.
    Unranked,
}

/// Of how many of a party's instructions in a row one moves its index, or finds few positions.
fn bound_of(pace: Pace) -> Result<u64, Lack>
    ensures { IfOk result (λ bound. bound ≡ bound_of pace) }
{
    sum(sum(pace.pace, pace.sight)?, 2)
}

/// Of how many of a hart's instructions in a row one moves one of its indices, or finds few positions of a queue.
fn bound_together(certificate: &QueueCertificate, hart: u32, pace: Pace) -> Result<u64, Lack>
    ensures { IfOk result (λ bound. bound ≡ bound_together certificate.now hart pace) }
{
    let looks = product(sides(certificate, hart)?, sum(pace.sight, 1)?)?;
    sum(sum(pace.pace, looks)?, 1)
}

/// Whether there are several queues, and not too many: what is found of a hart asks about each set of its queues.
fn are_several(queues: u64) -> bool
    ensures { result ≡ are_several queues }
{
    1 < queues && queues <= 6
}

/// How soon a hart goes on in one of its queues, or finds that it has to wait for one, if it has several and that is shown.
#[tactic(auto, unfolding(crate::specs::Together::pace_together))]
fn pace_together(
    alloc: Global,
    opening: &Opening,
    certificate: &QueueCertificate,
    hart: u32,
) -> Result<Option<Pace>, Lack>
    ensures { IfOk result (λ pace. pace ≡ pace_together opening.now certificate.now hart) }
{
    if are_several(sides(certificate, hart)?) {
        hart_pace_of(alloc, opening, certificate, hart)
    } else {
        Ok(None)
    }
}

/// What is shown of all its queues, or else this.
fn or_together(
    alloc: Global,
    opening: &Opening,
    certificate: &QueueCertificate,
    hart: u32,
    other: PartyProgress,
) -> Result<PartyProgress, Lack>
    ensures { IfOk result (λ found. found ≡ or_together certificate.now hart other (pace_together opening.now certificate.now hart)) }
{
    match pace_together(alloc, opening, certificate, hart)? {
        None => Ok(other),
        Some(pace) => Ok(PartyProgress::Together(Bound {
            owned: pace.owned,
            within: bound_together(certificate, hart, pace)?,
        })),
    }
}

/// What is found of a hart, a party of queue `index` with indices.
#[tactic(auto, unfolding(crate::specs::Together::party_progress))]
fn party_progress(
    alloc: Global,
    opening: &Opening,
    certificate: &QueueCertificate,
    hart: u32,
    index: u32,
) -> Result<PartyProgress, Lack>
    ensures { IfOk result (λ found. found ≡ party_progress opening.now certificate.now hart index) }
{
    match progress_of(alloc, opening, certificate, hart, index)? {
        Progress::GoesOn(pace) => Ok(PartyProgress::Alone(Bound {
            owned: pace.owned,
            within: bound_of(pace)?,
        })),
        Progress::NoPace(state) => {
            let other = PartyProgress::NoPace(state);
            or_together(alloc, opening, certificate, hart, other)
        }
        Progress::NoLook(state) => {
            let other = PartyProgress::NoLook(state);
            or_together(alloc, opening, certificate, hart, other)
        }
        Progress::Unranked => {
            or_together(alloc, opening, certificate, hart, PartyProgress::Unranked)
        }
    }
}

/// The same of a party of a queue with tags.
fn party_told(progress: ToldProgress) -> Result<PartyProgress, Lack>
    ensures { IfOk result (λ found. found ≡ party_told progress) }
{
    match progress {
        ToldProgress::Within(most) => Ok(PartyProgress::Alone(Bound {
            owned: 0,
            within: sum(most, 1)?,
        })),
        ToldProgress::Endless(state) => Ok(PartyProgress::NoPace(state)),
        ToldProgress::Unranked => Ok(PartyProgress::Unranked),
    }
}

/// What is found of a hart, a party of a queue of either kind.
pub fn party_in(
    alloc: Global,
    opening: &Opening,
    certificate: &QueueCertificate,
    queue: QueueNumber,
    hart: u32,
) -> Result<PartyProgress, Lack>
    ensures { IfOk result (λ found. found ≡ party_in opening.now certificate.now queue hart) }
{
    match queue {
        QueueNumber::Indexed(index) => party_progress(alloc, opening, certificate, hart, index),
        QueueNumber::Tagged(tagged) => {
            let found = told_progress_of(alloc, opening, certificate, hart, tagged)?;
            party_told(found)
        }
    }
}

/// The bounds of both parties, where both go on, and own fewer positions together than `capacity` while they wait.
pub fn both_in(
    capacity: u32,
    sender: PartyProgress,
    receiver: PartyProgress,
) -> Result<Option<Both>, Lack>
    ensures { IfOk result (λ both. both ≡ both_in capacity sender receiver) }
{
    match (sender, receiver) {
        (PartyProgress::Alone(sends), PartyProgress::Alone(receives)) => {
            if sum(sends.owned, receives.owned)? < u64::from(capacity) {
                Ok(Some(Both { sends, receives }))
            } else {
                Ok(None)
            }
        }
        _ => Ok(None),
    }
}

// ---- the line of one that goes on in all its queues together

#[tactic(auto, unfolding(crate::specs::Together::together_front))]
fn push_together_front(out: &mut String, index: u32, hart: u32) -> Result<(), AllocError>
    ensures { OnOk result (string_bytes out.new ≡ string_bytes out.old ++ together_front index hart) }
{
    write!(
        out,
        "queue {index}: hart {hart} moves on in this or another of its queues, or looks at one and finds "
    )
}

#[tactic(auto, unfolding(crate::specs::Together::positions_text))]
fn push_positions(out: &mut String, number: u64) -> Result<(), AllocError>
    ensures { OnOk result (string_bytes out.new ≡ string_bytes out.old ++ positions_text number) }
{
    write!(out, "at most {number} slots free, or {number} records")
}

fn push_few_positions(out: &mut String, number: u64) -> Result<(), AllocError>
    ensures { OnOk result (string_bytes out.new ≡ string_bytes out.old ++ few_positions_text number) }
{
    if number == 0 {
        out.push_str("that it has to wait for it")
    } else if number == 1 {
        out.push_str("at most 1 slot free, or 1 record")
    } else {
        push_positions(out, number)
    }
}

#[tactic(auto, unfolding(crate::specs::Together::whatever_end))]
fn push_whatever(out: &mut String, number: u64) -> Result<(), AllocError>
    ensures { OnOk result (string_bytes out.new ≡ string_bytes out.old ++ whatever_end number) }
{
    writeln!(
        out,
        ", within {number} of its instructions, whatever others do"
    )
}

/// Appends the line.
pub fn push_together(
    out: &mut String,
    index: u32,
    hart: u32,
    bound: Bound,
) -> Result<(), AllocError>
    ensures { OnOk result (string_bytes out.new ≡ string_bytes out.old ++ together_line index hart bound) }
{
    push_together_front(out, index, hart)?;
    push_few_positions(out, bound.owned)?;
    push_whatever(out, bound.within)
}
