//! What an instruction of a hart does for all queues of which the hart is a party, as its leaf says.

ghost use Rattle.std.specs.Prelude.{◌≡◌, ◌∷◌, ◌&&◌, nat_lt, if◌then◌else◌, None, Some, IfOk, length};
ghost use Rattle.queue_certificates.specs.Steps.{share_at, instruction_at};
ghost use Rattle.queue_progress.specs.Stays.{most_owned};
ghost use Rattle.queue_progress.specs.Harts.{is_side, sides, moves_some, lesser, fewest_owned, is_among, differs_at, differs, each_lacking};
ghost use Rattle.queue_progress.specs.Falling.{are_ranks, never_cut, not_hart_idle, not_hart_blind};
ghost use Rattle.queue_progress.specs.Progress.{goal_of, hart_keeps_going, hart_pace_by, hart_pace_of, is_few, lacking_ranks, place_in};
ghost use Rattle.queue_progress.specs.Progress.{sight_of, together_ranks};

use crate::goals::{goal_of, goals_width, lacking, lacking_ranks, ranks_after, ranks_at};
use crate::pace::{Pace, Placed};
use crate::rank_checks::{Kind, are_ranks};
use crate::row_bounds::{bound_of, greater};
use crate::stays::{follow_further, looks, most_owned};
use known_values::lack::sum;
use known_values::queues::queue_in;
use known_values::ranges::fits_in;
use known_values::{Form, Lack};
use queue_checker::closing::next_states;
use queue_checker::owning::code_of;
use queue_checker::sites::small;
use queue_checker::states::share_in;
use queue_checker::steps::instruction_at;
use queue_checker::{KnownState, QueueCertificate, Share};
use std::alloc::{AllocError, Global};
use step_machine::Opening;

/// A hart with its code, how many positions of a queue it may own while it waits, and the queues of which it owns no more.
#[derive(Clone, Copy)]
struct Waiting<'a> {
    certificate: &'a QueueCertificate,
    code: &'a [u32],
    hart: u32,
    owned: u64,
    lacks: &'a [u32],
}

pub(crate) fn is_side(certificate: &QueueCertificate, hart: u32, i: u32) -> bool
    ensures { result ≡ is_side certificate.now hart i }
{
    let queue = queue_in(&certificate.queues, i);
    hart == queue.sender || hart == queue.receiver
}

fn moves_some(
    alloc: Global,
    waiting: &Waiting<'_>,
    state: &KnownState,
    handed: &Form,
) -> Result<bool, Lack>
    ensures { IfOk result (λ goes. goes ≡ moves_some waiting.now.certificate.now waiting.now.hart waiting.now.code.now state.now handed.now) }
{
    let certificate = waiting.certificate;
    let next = next_states(
        alloc,
        certificate,
        waiting.hart,
        waiting.code,
        state,
        handed,
    )?;
    let mut some = false;
    for i in 0..small(certificate.queues.len())? {
        let further = follow_further(alloc, i, state, &next)?;
        some = (is_side(certificate, waiting.hart, i) && further) || some;
    }
    Ok(some)
}

fn lesser(left: Option<u64>, right: Option<u64>) -> Option<u64>
    ensures { result ≡ lesser left right }
{
    match (left, right) {
        (None, right) => right,
        (Some(a), None) => Some(a),
        (Some(a), Some(b)) => Some(if a <= b { a } else { b }),
    }
}

fn most_owned_as_side(
    alloc: Global,
    certificate: &QueueCertificate,
    hart: u32,
    i: u32,
    state: &KnownState,
) -> Result<Option<u64>, Lack>
    ensures { IfOk result (λ owned. owned ≡ (if is_side certificate.now hart i then most_owned i state.now else None)) }
{
    if is_side(certificate, hart, i) {
        most_owned(alloc, i, state)
    } else {
        Ok(None)
    }
}

/// The most positions that it may own of one of its queues: of the one of which that is the least.
fn fewest_owned(
    alloc: Global,
    certificate: &QueueCertificate,
    hart: u32,
    state: &KnownState,
) -> Result<Option<u64>, Lack>
    ensures { IfOk result (λ owned. owned ≡ fewest_owned certificate.now hart (length certificate.now.queues) state.now) }
{
    let mut fewest = None;
    for i in 0..small(certificate.queues.len())? {
        fewest = lesser(
            most_owned_as_side(alloc, certificate, hart, i, state)?,
            fewest,
        );
    }
    Ok(fewest)
}

fn one_if(is: bool) -> u64
    ensures { result ≡ (if is then 1 else 0) }
{
    if is { 1 } else { 0 }
}

/// Of how many queues with indices a hart is a party.
pub fn sides(certificate: &QueueCertificate, hart: u32) -> Result<u64, Lack>
    ensures { IfOk result (λ n. n ≡ sides certificate.now hart (length certificate.now.queues)) }
{
    let mut count = 0;
    for i in 0..small(certificate.queues.len())? {
        count = sum(one_if(is_side(certificate, hart, i)), count)?;
    }
    Ok(count)
}

fn is_among(lacks: &[u32], i: u32) -> bool
    ensures { result ≡ is_among lacks.now i }
{
    lacks.iter().any(|j| *j == i)
}

fn surely_owns_more(owned: u64, share: &Share) -> bool
    ensures { result ≡ nat_lt owned share.now.owned.constant }
{
    owned < share.owned.constant
}

/// Whether it surely owns more positions of queue `i`, or looks at it, if it lacks it; if it doesn't, whether it surely owns no more.
fn differs_at(
    alloc: Global,
    waiting: &Waiting<'_>,
    state: &KnownState,
    i: u32,
    lacks: bool,
) -> Result<bool, Lack>
    ensures { IfOk result (λ apart. apart ≡ differs_at waiting.now.certificate.now waiting.now.hart waiting.now.owned i lacks state.now
        (instruction_at waiting.now.code.now state.now.pc)) }
{
    if lacks {
        let share = share_in(alloc, &state.shares, i as usize)?;
        let instruction = instruction_at(waiting.code, state.pc);
        let (certificate, hart) = (waiting.certificate, waiting.hart);
        let sees = looks(alloc, certificate, hart, i, state, instruction)?;
        Ok(surely_owns_more(waiting.owned, &share) || sees)
    } else {
        Ok(fits_in(most_owned(alloc, i, state)?, Some(waiting.owned)))
    }
}

/// Whether that is so of a queue: then it doesn't lack just these, or looks at one of them.
fn differs(alloc: Global, waiting: &Waiting<'_>, state: &KnownState) -> Result<bool, Lack>
    ensures { IfOk result (λ apart. apart ≡ differs waiting.now.certificate.now waiting.now.hart waiting.now.owned waiting.now.lacks.now state.now
        (instruction_at waiting.now.code.now state.now.pc)) }
{
    let certificate = waiting.certificate;
    let mut some = false;
    for i in 0..small(certificate.queues.len())? {
        let lacks = is_among(waiting.lacks, i);
        let apart = differs_at(alloc, waiting, state, i, lacks)?;
        some = (is_side(certificate, waiting.hart, i) && apart) || some;
    }
    Ok(some)
}

/// The idle instructions of a hart, as far as all its queues go.
#[derive(Clone, Copy)]
struct HartIdle<'a> {
    waiting: Waiting<'a>,
}

impl Kind for HartIdle<'_> {
    ghost use Rattle.std.specs.Prelude.{◌||◌, Some, length};
    ghost use Rattle.queue_certificates.specs.Forms.{fits_in};
    ghost use Rattle.queue_progress.specs.Harts.{moves_some as moves_by, fewest_owned as fewest_by};
    ghost use Rattle.queue_progress.specs.Falling.{never_cut};

    ghost other = { λ s k d. moves_by s.waiting.certificate.now s.waiting.hart s.waiting.code.now k d
        || fits_in (fewest_by s.waiting.certificate.now s.waiting.hart (length s.waiting.certificate.now.queues) k) (Some s.waiting.owned) };

    ghost cut = { λ s. never_cut };

    fn is_other(&self, alloc: Global, state: &KnownState, handed: &Form) -> Result<bool, Lack> {
        let waiting = &self.waiting;
        let goes = moves_some(alloc, waiting, state, handed)?;
        let fewest = fewest_owned(alloc, waiting.certificate, waiting.hart, state)?;
        Ok(goes || fits_in(fewest, Some(waiting.owned)))
    }

    fn is_cut(&self, _: Global, _: &KnownState, _: &Form) -> Result<bool, Lack> {
        Ok(false)
    }
}

/// Those that are blind, where it lacks these of its queues.
#[derive(Clone, Copy)]
struct HartBlind<'a> {
    waiting: Waiting<'a>,
}

impl Kind for HartBlind<'_> {
    ghost use Rattle.std.specs.Prelude.{◌||◌};
    ghost use Rattle.queue_certificates.specs.Steps.{instruction_at as made_at};
    ghost use Rattle.queue_progress.specs.Harts.{moves_some as moves_by, differs as differs_by};
    ghost use Rattle.queue_progress.specs.Falling.{never_cut};

    ghost other = { λ s k d. moves_by s.waiting.certificate.now s.waiting.hart s.waiting.code.now k d
        || differs_by s.waiting.certificate.now s.waiting.hart s.waiting.owned s.waiting.lacks.now k (made_at s.waiting.code.now k.pc) };

    ghost cut = { λ s. never_cut };

    fn is_other(&self, alloc: Global, state: &KnownState, handed: &Form) -> Result<bool, Lack> {
        let waiting = &self.waiting;
        let goes = moves_some(alloc, waiting, state, handed)?;
        let apart = differs(alloc, waiting, state)?;
        Ok(goes || apart)
    }

    fn is_cut(&self, _: Global, _: &KnownState, _: &Form) -> Result<bool, Lack> {
        Ok(false)
    }
}

/// Whether at most `pace` instructions in a row of a hart move none of its counts while it owns more positions of each of its queues.
fn keeps_pace(
    alloc: Global,
    opening: &Opening,
    certificate: &QueueCertificate,
    hart: u32,
    pace: Pace,
    ranks: &[Form],
) -> Result<bool, Lack>
    ensures { IfOk result (λ keeps. keeps ≡ are_ranks opening.now certificate.now hart (not_hart_idle opening.now certificate.now hart pace.owned)
        never_cut ranks.now pace.pace) }
{
    let waiting = Waiting {
        certificate,
        code: code_of(opening, hart),
        hart,
        owned: pace.owned,
        lacks: &[],
    };
    are_ranks(
        alloc,
        &HartIdle { waiting },
        opening,
        certificate,
        hart,
        ranks,
        pace.pace,
    )
}

/// Whether at most `sight` do so and look at none of the queues that it lacks, where it lacks these.
fn keeps_looking(
    alloc: Global,
    opening: &Opening,
    certificate: &QueueCertificate,
    hart: u32,
    pace: Pace,
    lacks: &[u32],
) -> Result<bool, Lack>
    ensures { IfOk result (λ keeps. keeps ≡ are_ranks opening.now certificate.now hart (not_hart_blind opening.now certificate.now hart pace.owned lacks.now)
        never_cut (lacking_ranks certificate.now hart lacks.now) pace.sight) }
{
    let ranks = lacking_ranks(alloc, certificate, hart, lacks)?;
    let waiting = Waiting {
        certificate,
        code: code_of(opening, hart),
        hart,
        owned: pace.owned,
        lacks,
    };
    are_ranks(
        alloc,
        &HartBlind { waiting },
        opening,
        certificate,
        hart,
        &ranks,
        pace.sight,
    )
}

fn with_queue(alloc: Global, n: u32, lacks: &[u32]) -> Result<Vec<u32>, AllocError>
    ensures { IfOk result (λ all. all.items ≡ n ∷ lacks.now) }
{
    let mut all = Vec::new(alloc);
    all.push(n)?;
    all.extend_from_slice(lacks)?;
    Ok(all)
}

/// Whether that is so where it lacks these, if it lacks one.
fn keeps_lacking(
    alloc: Global,
    opening: &Opening,
    certificate: &QueueCertificate,
    hart: u32,
    pace: Pace,
    lacks: &[u32],
) -> Result<bool, Lack>
    ensures { IfOk result (λ all. all ≡ each_lacking certificate.now hart 0 lacks.now (λ lacks. are_ranks opening.now certificate.now hart
        (not_hart_blind opening.now certificate.now hart pace.owned lacks) never_cut (lacking_ranks certificate.now hart lacks) pace.sight)) }
{
    match lacks {
        [] => Ok(true),
        [_, ..] => keeps_looking(alloc, opening, certificate, hart, pace, lacks),
    }
}

fn both(one: bool, other: bool) -> bool
    ensures { result ≡ (one && other) }
{
    one && other
}

/// Whether that is so where it lacks these and some of the first `n` of its queues.
fn each_lacking(
    alloc: Global,
    opening: &Opening,
    certificate: &QueueCertificate,
    hart: u32,
    pace: Pace,
    n: u32,
    lacks: &[u32],
) -> Result<bool, Lack>
    ensures { IfOk result (λ all. all ≡ each_lacking certificate.now hart n lacks.now (λ lacks. are_ranks opening.now certificate.now hart
        (not_hart_blind opening.now certificate.now hart pace.owned lacks) never_cut (lacking_ranks certificate.now hart lacks) pace.sight)) }
{
    if n == 0 {
        return keeps_lacking(alloc, opening, certificate, hart, pace, lacks);
    }
    let i = n - 1;
    let without = each_lacking(alloc, opening, certificate, hart, pace, i, lacks)?;
    if !is_side(certificate, hart, i) {
        return Ok(both(without, true));
    }
    let more = with_queue(alloc, i, lacks)?;
    let with = each_lacking(alloc, opening, certificate, hart, pace, i, &more)?;
    Ok(both(without, with))
}

/// Whether ranks show that it goes on so, whichever of its queues it lacks.
fn hart_keeps_going(
    alloc: Global,
    opening: &Opening,
    certificate: &QueueCertificate,
    hart: u32,
    pace: Pace,
    ranks: &[Form],
) -> Result<bool, Lack>
    requires { ranks.now ≡ together_ranks certificate.now hart }
    ensures { IfOk result (λ keeps. keeps ≡ hart_keeps_going opening.now certificate.now hart pace) }
{
    let queues = small(certificate.queues.len())?;
    let paces = keeps_pace(alloc, opening, certificate, hart, pace, ranks)?;
    Ok(paces && each_lacking(alloc, opening, certificate, hart, pace, queues, &[])?)
}

/// Whether a hart may own fewer positions than each of its queues has.
fn is_few(certificate: &QueueCertificate, hart: u32, owned: u64) -> Result<bool, Lack>
    ensures { IfOk result (λ few. few ≡ is_few certificate.now hart owned) }
{
    let mut few = true;
    for i in 0..small(certificate.queues.len())? {
        let fewer = owned < u64::from(queue_in(&certificate.queues, i).capacity);
        few = (!is_side(certificate, hart, i) || fewer) && few;
    }
    Ok(few)
}

/// The greatest of the bounds by what it may lack.
fn sight_of(alloc: Global, certificate: &QueueCertificate, hart: u32) -> Result<u64, Lack>
    ensures { IfOk result (λ sight. sight ≡ sight_of certificate.now hart) }
{
    let width = goals_width(certificate, hart)?;
    let mut greatest = 0;
    for j in 0..lacking(certificate, hart).len() {
        let ranks = ranks_after(alloc, certificate, hart, width, j)?;
        greatest = greater(greatest, bound_of(alloc, certificate, hart, &ranks)?);
    }
    Ok(greatest)
}

fn pace_owning(
    alloc: Global,
    opening: &Opening,
    certificate: &QueueCertificate,
    hart: u32,
    goal: Placed,
) -> Result<Option<Pace>, Lack>
    requires { goal.place ≡ place_in (goal_of certificate.now hart None) }
    ensures { IfOk result (λ pace. pace ≡ hart_pace_by opening.now certificate.now hart (Some goal)) }
{
    let ranks = ranks_at(alloc, certificate, hart, goal.place)?;
    let pace = Pace {
        owned: goal.owned,
        pace: bound_of(alloc, certificate, hart, &ranks)?,
        sight: sight_of(alloc, certificate, hart)?,
    };
    let few = is_few(certificate, hart, goal.owned)?;
    if few && hart_keeps_going(alloc, opening, certificate, hart, pace, &ranks)? {
        Ok(Some(pace))
    } else {
        Ok(None)
    }
}

/// How soon a hart goes on in one of its queues with indices, or finds that it has to wait for one, if ranks show it (`hart_going` of
/// [`laws_of_queue_progress`](crate::laws_of_queue_progress) has the bound).
///
/// It asks about each set of these queues, so that each queue more doubles its time.
pub fn hart_pace_of(
    alloc: Global,
    opening: &Opening,
    certificate: &QueueCertificate,
    hart: u32,
) -> Result<Option<Pace>, Lack>
    ensures { IfOk result (λ pace. pace ≡ hart_pace_of opening.now certificate.now hart) }
{
    match goal_of(certificate, hart, None)? {
        None => Ok(None),
        Some(goal) => pace_owning(alloc, opening, certificate, hart, goal),
    }
}
