//! Whether ranks fall along a hart's instructions of a kind.

ghost use Rattle.std.specs.Prelude.{◌≡◌, ◌<◌, if◌then◌else◌, IfOk, take, length};
ghost use Rattle.queue_certificates.specs.Forms.{number, lifted, substituted};
ghost use Rattle.queue_certificates.specs.Steps.{all_below};
ghost use Rattle.queue_certificates.specs.Certificates.{part_of, state_at};
ghost use Rattle.queue_progress.specs.Falling.{is_less, rank_at, each_ranked, all_fall, follow_fall, leaf_falls, are_ranks};

use known_values::forms::{lifted, minus, number, raised, substituted};
use known_values::lack::sum;
use known_values::ranges::{fits_in, most};
use known_values::{Form, Lack};
use queue_checker::closing::next_states;
use queue_checker::leaves::{goes_beyond, with_high, with_low};
use queue_checker::owning::code_of;
use queue_checker::sites::{listed_states, small};
use queue_checker::successors::Successors;
use queue_checker::{Arrow, CaseNode, Cases, KnownState, ListedState, QueueCertificate};
use std::alloc::Global;
use step_machine::Opening;

/// A kind of a hart's instructions; `other` and `cut` define it.
pub(crate) trait Kind {
    ghost use Rattle.std.specs.Prelude.{◌≡◌, Bool, IfOk};
    ghost use Rattle.queue_certificates.specs.Forms.{Form as FormOf};
    ghost use Rattle.queue_certificates.specs.States.{KnownState as StateOf};

    ghost other: { Self → StateOf → FormOf → Bool };

    ghost cut: { Self → StateOf → FormOf → Bool };

    /// Whether a leaf's instruction is of another kind.
    fn is_other(&self, alloc: Global, state: &KnownState, handed: &Form) -> Result<bool, Lack>
        ensures { IfOk result (λ is. is ≡ other self.now state.now handed.now) };

    /// Whether one of the kind goes on along the first arrow alone.
    fn is_cut(&self, alloc: Global, state: &KnownState, handed: &Form) -> Result<bool, Lack>
        ensures { IfOk result (λ is. is ≡ cut self.now state.now handed.now) };
}

/// A hart of a certificate, with its code.
#[derive(Clone, Copy)]
pub(crate) struct Hart<'a> {
    pub(crate) certificate: &'a QueueCertificate,
    pub(crate) code: &'a [u32],
    pub(crate) hart: u32,
}

/// Whether the first form is surely less than the second, where the variables lie in these ranges.
fn is_less(alloc: Global, ranges: &[Option<u64>], left: &Form, right: &Form) -> Result<bool, Lack>
    ensures { IfOk result (λ less. less ≡ is_less ranges.now left.now right.now) }
{
    let more = minus(alloc, left, right)?;
    let surplus = Form {
        constant: sum(left.constant, 1)?,
        factors: more.factors,
    };
    Ok(fits_in(most(ranges, &surplus)?, Some(right.constant)))
}

pub(crate) fn rank_at(alloc: Global, ranks: &[Form], n: u32) -> Result<Form, Lack>
    ensures { IfOk result (λ rank. rank ≡ rank_at ranks.now n) }
{
    match ranks.get(n as usize) {
        Some(rank) => rank.copy(alloc),
        None => Ok(number(alloc, 0)),
    }
}

/// Whether the rank falls from a state that may follow, to the one to which its arrow leads.
fn falls_along(
    alloc: Global,
    ranks: &[Form],
    rank: &Form,
    state: &KnownState,
    arrow: &Arrow,
) -> Result<bool, Lack>
    ensures { IfOk result (λ less. less ≡ is_less state.now.ranges (substituted (rank_at ranks.now arrow.now.to) arrow.now.forms) (lifted rank.now)) }
{
    let to = rank_at(alloc, ranks, arrow.to)?;
    let there = substituted(alloc, &to, &arrow.forms)?;
    let here = lifted(alloc, rank)?;
    is_less(alloc, &state.ranges, &there, &here)
}

fn all_fall(
    alloc: Global,
    ranks: &[Form],
    rank: &Form,
    mut states: &[KnownState],
    mut arrows: &[Arrow],
) -> Result<bool, Lack>
    ensures { IfOk result (λ fall. fall ≡ all_fall ranks.now rank.now states.now arrows.now) }
{
    'states: loop {
        match (states, arrows) {
            ([], _) => return Ok(true),
            ([_first, _others @ ..], []) => return Ok(false),
            ([state, more @ ..], [arrow, others @ ..]) => {
                if !falls_along(alloc, ranks, rank, state, arrow)? {
                    return Ok(false);
                }
                states = more;
                arrows = others;
            }
        }
    }
}

/// The states that may follow, or the first of them.
fn first_or_all(cut: bool, states: &[KnownState]) -> &[KnownState]
    ensures { result.now ≡ (if cut then take 1 states.now else states.now) }
{
    if cut && !states.is_empty() {
        &states[..1]
    } else {
        states
    }
}

fn follow_fall(
    alloc: Global,
    ranks: &[Form],
    rank: &Form,
    cut: bool,
    next: &Successors,
    arrows: &[Arrow],
) -> Result<bool, Lack>
    ensures { IfOk result (λ fall. fall ≡ follow_fall ranks.now rank.now cut next.now arrows.now) }
{
    if next.shown {
        all_fall(alloc, ranks, rank, first_or_all(cut, &next.states), arrows)
    } else {
        Ok(false)
    }
}

fn leaf_falls<K: Kind>(
    alloc: Global,
    kind: &K,
    of: &Hart<'_>,
    ranks: &[Form],
    rank: &Form,
    state: &KnownState,
    handed: &Form,
    arrows: &[Arrow],
) -> Result<bool, Lack>
    ensures { IfOk result (λ yes. yes ≡ leaf_falls of.now.certificate.now of.now.hart of.now.code.now (K.other kind.now) (K.cut kind.now) ranks.now rank.now
        state.now handed.now arrows.now) }
{
    let other = kind.is_other(alloc, state, handed)?;
    let cut = kind.is_cut(alloc, state, handed)?;
    let next = next_states(alloc, of.certificate, of.hart, of.code, state, handed)?;
    Ok(other || follow_fall(alloc, ranks, rank, cut, &next, arrows)?)
}

fn leaves_fall<K: Kind>(
    alloc: Global,
    kind: &K,
    of: &Hart<'_>,
    ranks: &[Form],
    rank: &Form,
    state: &KnownState,
    cases: &Cases,
) -> Result<bool, Lack>
    ensures { IfOk result (λ all. all ≡ each_ranked (leaf_falls of.now.certificate.now of.now.hart of.now.code.now (K.other kind.now)
        (K.cut kind.now) ranks.now)
        rank.now state.now cases.now) }
{
    match &cases.node {
        CaseNode::Leaf(handed, arrows) => {
            leaf_falls(alloc, kind, of, ranks, rank, state, handed, arrows)
        }
        CaseNode::Split(variable, most, low, high) => {
            let below = with_low(alloc, state, *variable, *most)?;
            let holds = leaves_fall(alloc, kind, of, ranks, rank, &below, low)?;
            if holds {
                if goes_beyond(state, *variable, *most) {
                    let above = with_high(alloc, state, *variable, *most)?;
                    let more = raised(alloc, *variable, sum(*most, 1)?, rank)?;
                    leaves_fall(alloc, kind, of, ranks, &more, &above, high)
                } else {
                    Ok(true)
                }
            } else {
                Ok(false)
            }
        }
    }
}

/// Whether the ranks fall at each leaf of a listed state that may be.
fn state_falls<K: Kind>(
    alloc: Global,
    kind: &K,
    of: &Hart<'_>,
    ranks: &[Form],
    n: u32,
    listed: &ListedState,
) -> Result<bool, Lack>
    ensures { IfOk result (λ all. all ≡ each_ranked (leaf_falls of.now.certificate.now of.now.hart of.now.code.now (K.other kind.now)
        (K.cut kind.now) ranks.now)
        (rank_at ranks.now n) listed.now.known listed.now.cases) }
{
    let rank = rank_at(alloc, ranks, n)?;
    leaves_fall(alloc, kind, of, ranks, &rank, &listed.known, &listed.cases)
}

pub(crate) fn nth_falls<K: Kind>(
    alloc: Global,
    kind: &K,
    of: &Hart<'_>,
    ranks: &[Form],
    n: u32,
) -> Result<bool, Lack>
    requires { n < length (part_of of.now.certificate.now of.now.hart).states }
    ensures { IfOk result (λ all. all ≡ each_ranked (leaf_falls of.now.certificate.now of.now.hart of.now.code.now (K.other kind.now)
        (K.cut kind.now) ranks.now)
        (rank_at ranks.now n) (state_at of.now.certificate.now of.now.hart n).known (state_at of.now.certificate.now of.now.hart n).cases) }
{
    let states = listed_states(of.certificate, of.hart);
    state_falls(alloc, kind, of, ranks, n, &states[n as usize])
}

fn all_states_fall<K: Kind>(
    alloc: Global,
    kind: &K,
    of: &Hart<'_>,
    ranks: &[Form],
) -> Result<bool, Lack>
    ensures { IfOk result (λ all. all ≡ all_below (length (part_of of.now.certificate.now of.now.hart).states) (λ n.
        each_ranked (leaf_falls of.now.certificate.now of.now.hart of.now.code.now (K.other kind.now) (K.cut kind.now) ranks.now)
        (rank_at ranks.now n) (state_at of.now.certificate.now of.now.hart n).known (state_at of.now.certificate.now of.now.hart n).cases)) }
{
    let mut all = true;
    for n in 0..small(listed_states(of.certificate, of.hart).len())? {
        all = nth_falls(alloc, kind, of, ranks, n)? && all;
    }
    Ok(all)
}

fn is_below(alloc: Global, of: &Hart<'_>, ranks: &[Form], most: u64, n: u32) -> Result<bool, Lack>
    requires { n < length (part_of of.now.certificate.now of.now.hart).states }
    ensures { IfOk result (λ low. low ≡ is_less (state_at of.now.certificate.now of.now.hart n).known.ranges (rank_at ranks.now n) (number most)) }
{
    let states = listed_states(of.certificate, of.hart);
    let rank = rank_at(alloc, ranks, n)?;
    let listed = &states[n as usize];
    let known = &listed.known;
    is_less(alloc, &known.ranges, &rank, &number(alloc, most))
}

fn all_ranks_below(alloc: Global, of: &Hart<'_>, ranks: &[Form], most: u64) -> Result<bool, Lack>
    ensures { IfOk result (λ all. all ≡ all_below (length (part_of of.now.certificate.now of.now.hart).states)
        (λ n. is_less (state_at of.now.certificate.now of.now.hart n).known.ranges (rank_at ranks.now n) (number most))) }
{
    let mut all = true;
    for n in 0..small(listed_states(of.certificate, of.hart).len())? {
        all = is_below(alloc, of, ranks, most, n)? && all;
    }
    Ok(all)
}

/// Whether the ranks of a hart's states fall along its instructions of a kind, and none comes to `most`.
pub(crate) fn are_ranks<K: Kind>(
    alloc: Global,
    kind: &K,
    opening: &Opening,
    certificate: &QueueCertificate,
    hart: u32,
    ranks: &[Form],
    most: u64,
) -> Result<bool, Lack>
    ensures { IfOk result (λ are. are ≡ are_ranks opening.now certificate.now hart (K.other kind.now) (K.cut kind.now) ranks.now most) }
{
    let of = Hart {
        certificate,
        code: code_of(opening, hart),
        hart,
    };
    let fall = all_states_fall(alloc, kind, &of, ranks)?;
    Ok(fall && all_ranks_below(alloc, &of, ranks, most)?)
}
