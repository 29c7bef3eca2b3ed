//! What a party does at each of its states: the leaves of the state's cases, with their effects.

ghost use Rattle.std.specs.Prelude.{◌≡◌, ◌++◌, IfOk, OnOk, map};
ghost use Rattle.queue_checker.specs.Flaws.{hart_at};
ghost use Rattle.queue_layouts.specs.Sides.{the_party};
ghost use Rattle.records_written.specs.Parties.{hart_by};
ghost use Rattle.records_written.specs.Marks.{is_all, leaf_by, leaves_in, graph_of};

use crate::parties::{QueueNumber, counts_for, effect_by, effect_counted, hart_by};
use known_values::forms::is_same;
use known_values::{Form, Lack};
use queue_certificates::Effect;
use queue_checker::leaves::{goes_beyond, with_high, with_low};
use queue_checker::owning::code_of;
use queue_checker::sites::listed_states;
use queue_checker::states::share_in;
use queue_checker::steps::instruction_at;
use queue_checker::{Arrow, CaseNode, Cases, KnownState, ListedState, QueueCertificate};
use queue_layouts::Party;
use std::alloc::Global;
use std::marker::Model;
use step_machine::Opening;

/// A leaf: its effect, or none where it isn't known how many positions it hands on; whether it would hand on all that the party owns; and
/// the states to which it leads.
#[derive(Drop)]
pub(crate) struct Leaf {
    pub(crate) effect: Option<Effect>,
    pub(crate) all: bool,
    pub(crate) targets: Vec<u32>,
}

impl Model for Leaf {
    ghost use Rattle.records_written.specs.PartyLeaves.{PartyLeaf};

    ghost Value = { PartyLeaf };

    ghost view = { λ s. record { effect = s.effect; all = s.all; targets = s.targets.items } };
}

/// The leaves of one state.
#[derive(Drop)]
pub(crate) struct StateLeaves {
    pub(crate) leaves: Vec<Leaf>,
}

impl Model for StateLeaves {
    ghost use Rattle.std.specs.Prelude.{List};
    ghost use Rattle.records_written.specs.PartyLeaves.{PartyLeaf};

    ghost Value = { List PartyLeaf };

    ghost view = { λ s. s.leaves.items };
}

fn targets_of(alloc: Global, arrows: &[Arrow]) -> Result<Vec<u32>, Lack>
    ensures { IfOk result (λ targets. targets.items ≡ map (λ arrow. arrow.to) arrows.now) }
{
    let targets = arrows.iter().map(|arrow| arrow.to).collect(alloc)?;
    Ok(targets)
}

/// Whether a form is as many positions as a party owns.
fn is_all(
    alloc: Global,
    certificate: &QueueCertificate,
    queue: QueueNumber,
    state: &KnownState,
    handed: &Form,
) -> Result<bool, Lack>
    ensures { IfOk result (λ all. all ≡ is_all certificate.now queue state.now handed.now) }
{
    match queue {
        QueueNumber::Tagged(_) => Ok(false),
        QueueNumber::Indexed(i) => {
            let share = share_in(alloc, &state.shares, i as usize)?;
            Ok(is_same(0, handed, &share.owned))
        }
    }
}

fn leaf_of(
    alloc: Global,
    certificate: &QueueCertificate,
    queue: QueueNumber,
    party: Party,
    code: &[u32],
    state: &KnownState,
    handed: &Form,
    arrows: &[Arrow],
) -> Result<Leaf, Lack>
    ensures { IfOk result (λ leaf. leaf ≡ leaf_by certificate.now queue (the_party party) code.now state.now handed.now arrows.now) }
{
    let instruction = instruction_at(code, state.pc);
    let by = effect_by(alloc, certificate, queue, party, state, handed, instruction)?;
    let effect = effect_counted(counts_for(party, instruction), by);
    let all = is_all(alloc, certificate, queue, state, handed)?;
    let targets = targets_of(alloc, arrows)?;
    Ok(Leaf {
        effect,
        all,
        targets,
    })
}

/// Adds the leaves of these cases of a state.
fn push_leaves(
    alloc: Global,
    certificate: &QueueCertificate,
    queue: QueueNumber,
    party: Party,
    code: &[u32],
    state: &KnownState,
    cases: &Cases,
    leaves: &mut Vec<Leaf>,
) -> Result<(), Lack>
    ensures { IfOk result (λ _. leaves.new.items ≡ leaves.old.items
        ++ leaves_in (leaf_by certificate.now queue (the_party party) code.now) state.now cases.now) }
{
    match &cases.node {
        CaseNode::Leaf(handed, arrows) => {
            let leaf = leaf_of(
                alloc,
                certificate,
                queue,
                party,
                code,
                state,
                handed,
                arrows,
            )?;
            leaves.push(leaf)?;
            Ok(())
        }
        CaseNode::Split(variable, most, low, high) => {
            let below = with_low(alloc, state, *variable, *most)?;
            push_leaves(alloc, certificate, queue, party, code, &below, low, leaves)?;
            if goes_beyond(state, *variable, *most) {
                let above = with_high(alloc, state, *variable, *most)?;
                push_leaves(alloc, certificate, queue, party, code, &above, high, leaves)
            } else {
                Ok(())
            }
        }
    }
}

fn leaves_of(
    alloc: Global,
    certificate: &QueueCertificate,
    queue: QueueNumber,
    party: Party,
    code: &[u32],
    listed: &ListedState,
) -> Result<StateLeaves, Lack>
    ensures { IfOk result (λ state. state ≡ leaves_in (leaf_by certificate.now queue (the_party party) code.now) listed.now.known listed.now.cases) }
{
    let mut leaves = Vec::new(alloc);
    push_leaves(
        alloc,
        certificate,
        queue,
        party,
        code,
        &listed.known,
        &listed.cases,
        &mut leaves,
    )?;
    Ok(StateLeaves { leaves })
}

fn graph_by(
    alloc: Global,
    certificate: &QueueCertificate,
    queue: QueueNumber,
    party: Party,
    code: &[u32],
    states: &[ListedState],
) -> Result<Vec<StateLeaves>, Lack>
    ensures { IfOk result (λ graph. graph.items ≡ map (λ t. leaves_in (leaf_by certificate.now queue (the_party party) code.now) t.known t.cases) states.now) }
{
    let mut graph = Vec::new(alloc);
    for listed in states {
        graph.push(leaves_of(alloc, certificate, queue, party, code, listed)?)?;
    }
    Ok(graph)
}

/// The leaves of each state of a queue's party.
pub(crate) fn graph_of(
    alloc: Global,
    opening: &Opening,
    certificate: &QueueCertificate,
    queue: QueueNumber,
    party: Party,
) -> Result<Vec<StateLeaves>, Lack>
    ensures { IfOk result (λ graph. graph.items ≡ graph_of opening.now certificate.now queue (the_party party)) }
{
    let hart = hart_by(certificate, queue, party);
    graph_by(
        alloc,
        certificate,
        queue,
        party,
        code_of(opening, hart),
        listed_states(certificate, hart),
    )
}
