//! How many of a hart's instructions of a kind may follow on one another, by ranks.

ghost use Rattle.std.specs.Prelude.{◌≡◌, ◌<◌, ◌&&◌, IfOk, length};
ghost use Rattle.std.specs.Option.{is_some};
ghost use Rattle.queue_certificates.specs.Certificates.{part_of, state_at};
ghost use Rattle.queue_certificates.specs.Forms.{most};
ghost use Rattle.queue_checker.specs.Flaws.{first_of, first_below, unless};
ghost use Rattle.queue_progress.specs.Falling.{bound_of, each_ranked, first_level, greater, greatest_below, leaf_falls, most_rank, option_or_zero, rank_at};
ghost use Rattle.queue_progress.specs.Progress.{row_bound};

use crate::pace::ToldProgress;
use crate::rank_checks::{Hart, Kind, are_ranks, nth_falls, rank_at};
use known_values::lack::sum;
use known_values::ranges::most;
use known_values::{Form, Lack};
use queue_checker::owning::code_of;
use queue_checker::sites::{listed_states, small};
use queue_checker::{ListedState, QueueCertificate};
use std::alloc::Global;
use step_machine::Opening;

fn most_in(listed: &ListedState, rank: &Form) -> Result<Option<u64>, Lack>
    ensures { IfOk result (λ number. number ≡ most listed.now.known.ranges rank.now) }
{
    most(&listed.known.ranges, rank)
}

/// The greatest number that the rank of a state may be, if there is one.
fn most_rank(
    alloc: Global,
    certificate: &QueueCertificate,
    hart: u32,
    ranks: &[Form],
    n: u32,
) -> Result<Option<u64>, Lack>
    requires { n < length (part_of certificate.now hart).states }
    ensures { IfOk result (λ number. number ≡ most_rank certificate.now hart ranks.now n) }
{
    let rank = rank_at(alloc, ranks, n)?;
    let states = listed_states(certificate, hart);
    most_in(&states[n as usize], &rank)
}

pub(crate) fn greater(a: u64, b: u64) -> u64
    ensures { result ≡ greater a b }
{
    if a < b { b } else { a }
}

fn or_zero(number: Option<u64>) -> u64
    ensures { result ≡ option_or_zero number }
{
    number.unwrap_or(0)
}

fn state_or_first(state: Option<u32>) -> u32
    ensures { result ≡ option_or_zero state }
{
    state.unwrap_or(0)
}

/// One more than the greatest number that a rank may be.
pub(crate) fn bound_of(
    alloc: Global,
    certificate: &QueueCertificate,
    hart: u32,
    ranks: &[Form],
) -> Result<u64, Lack>
    ensures { IfOk result (λ bound. bound ≡ bound_of certificate.now hart ranks.now) }
{
    let mut greatest = 0;
    for n in 0..small(listed_states(certificate, hart).len())? {
        greatest = greater(
            greatest,
            or_zero(most_rank(alloc, certificate, hart, ranks, n)?),
        );
    }
    sum(greatest, 1)
}

/// Whether the rank of state `n` falls, and has a greatest number.
fn is_ranked<K: Kind>(
    alloc: Global,
    kind: &K,
    of: &Hart<'_>,
    ranks: &[Form],
    n: u32,
) -> Result<bool, Lack>
    requires { n < length (part_of of.now.certificate.now of.now.hart).states }
    ensures { IfOk result (λ ranked. ranked ≡ (each_ranked (leaf_falls of.now.certificate.now of.now.hart of.now.code.now
        (K.other kind.now) (K.cut kind.now) ranks.now) (rank_at ranks.now n) (state_at of.now.certificate.now of.now.hart n).known
        (state_at of.now.certificate.now of.now.hart n).cases && is_some (most_rank of.now.certificate.now of.now.hart ranks.now n))) }
{
    let falls = nth_falls(alloc, kind, of, ranks, n)?;
    let most = most_rank(alloc, of.certificate, of.hart, ranks, n)?;
    Ok(falls && most.is_some())
}

/// State `n`, if no state before it is, and it isn't ranked so.
fn level_after<K: Kind>(
    alloc: Global,
    kind: &K,
    of: &Hart<'_>,
    ranks: &[Form],
    first: Option<u32>,
    n: u32,
) -> Result<Option<u32>, Lack>
    requires { n < length (part_of of.now.certificate.now of.now.hart).states }
    ensures { IfOk result (λ found. found ≡ first_of first (unless (each_ranked (leaf_falls of.now.certificate.now of.now.hart of.now.code.now
        (K.other kind.now) (K.cut kind.now) ranks.now) (rank_at ranks.now n) (state_at of.now.certificate.now of.now.hart n).known
        (state_at of.now.certificate.now of.now.hart n).cases && is_some (most_rank of.now.certificate.now of.now.hart ranks.now n)) n)) }
{
    match first {
        Some(state) => Ok(Some(state)),
        None => {
            if is_ranked(alloc, kind, of, ranks, n)? {
                Ok(None)
            } else {
                Ok(Some(n))
            }
        }
    }
}

fn first_level_of<K: Kind>(
    alloc: Global,
    kind: &K,
    of: &Hart<'_>,
    ranks: &[Form],
) -> Result<Option<u32>, Lack>
    ensures { IfOk result (λ found. found ≡ first_below (length (part_of of.now.certificate.now of.now.hart).states) (λ n.
        unless (each_ranked (leaf_falls of.now.certificate.now of.now.hart of.now.code.now (K.other kind.now) (K.cut kind.now) ranks.now)
        (rank_at ranks.now n) (state_at of.now.certificate.now of.now.hart n).known (state_at of.now.certificate.now of.now.hart n).cases
        && is_some (most_rank of.now.certificate.now of.now.hart ranks.now n)) n)) }
{
    let mut first = None;
    for n in 0..small(listed_states(of.certificate, of.hart).len())? {
        first = level_after(alloc, kind, of, ranks, first, n)?;
    }
    Ok(first)
}

/// The first state of which the rank doesn't fall along instructions of the kind, or has no greatest number.
fn first_level<K: Kind>(
    alloc: Global,
    kind: &K,
    opening: &Opening,
    certificate: &QueueCertificate,
    hart: u32,
    ranks: &[Form],
) -> Result<Option<u32>, Lack>
    ensures { IfOk result (λ found. found ≡ first_level opening.now certificate.now hart (K.other kind.now) (K.cut kind.now) ranks.now) }
{
    let of = Hart {
        certificate,
        code: code_of(opening, hart),
        hart,
    };
    first_level_of(alloc, kind, &of, ranks)
}

/// What ranks show of a hart's instructions of the kind.
pub(crate) fn row_bound<K: Kind>(
    alloc: Global,
    kind: &K,
    opening: &Opening,
    certificate: &QueueCertificate,
    hart: u32,
    ranks: &[Form],
) -> Result<ToldProgress, Lack>
    ensures { IfOk result (λ row. row ≡ row_bound opening.now certificate.now hart (K.other kind.now) (K.cut kind.now) ranks.now) }
{
    let bound = bound_of(alloc, certificate, hart, ranks)?;
    if are_ranks(alloc, kind, opening, certificate, hart, ranks, bound)? {
        Ok(ToldProgress::Within(bound))
    } else {
        let level = first_level(alloc, kind, opening, certificate, hart, ranks)?;
        Ok(ToldProgress::Endless(state_or_first(level)))
    }
}
