//! A plan that finishes a channel, whatever ran.

ghost use Rattle.std.specs.Prelude.{◌≡◌, ◌≤◌, ◌<◌, ◌-◌, ℕ, Bool, List, [], true, length, IfOk, OnOk};
ghost use Rattle.hart.specs.declared.need.Report.{Report};
ghost use Rattle.step_machine.specs.declared.events.Event.{Event};
ghost use Rattle.step_machine.specs.Entries.{reported};
ghost use Rattle.step_machine.specs.Runs.{RunFrom};
ghost use Rattle.poll_close.specs.Delivery.{DeliversWholeOver, ForEachRun};
ghost use Rattle.poll_close.specs.Standing.{Stands};
ghost use Rattle.poll_close.specs.Rankings.{next_by, is_ready};
ghost use Rattle.poll_close.specs.Plans.{Finishes, is_closed, all_closed, ends_in_word, is_word, is_done};

use crate::kind::RingKind;
use hart::need::Report;
use std::alloc::{AllocError, Global};
use step_machine::{Event, Machine};

/// A ring of which every channel can be finished, from every state.
pub trait Finish<const B: usize, const M: usize>: RingKind {
    ghost use Rattle.std.specs.Prelude.{◌≡◌, ◌≤◌, ◌<◌, length};
    ghost use Rattle.poll_close.specs.Standing.{Stands};
    ghost use Rattle.poll_close.specs.Rankings.{Ranking, Decreases, rank_of, next_by, is_ready};

    /// How far its harts are from their ends, and when they wait, as a definition.
    ghost ranking: { Ranking };

    /// Whether this hart is a sender that runs and does not wait for the receiver.
    fn is_ready(machine: &Machine<B, M>, hart: u32) -> bool
        requires stands { Stands Self.ring Self.meaning B M machine.now.history }
        requires sender { 1 ≤ hart }
        requires hart { hart < length machine.now.history.opening.harts }
        ensures { result ≡ is_ready ranking M machine.now.history hart };

    /// The law: where nothing is pending and some sender is not reported closed, the hart that comes
    /// next can act, and less is left after its act and its store's landing. It does nothing.
    fn ranking_decreases()
        ensures { Decreases Self.ring Self.meaning (rank_of ranking) (next_by ranking) };
}

fn is_reported_closed(reports: &[Report], sender: usize) -> bool
    ensures { result ≡ is_closed reports.now sender }
{
    for report in reports {
        match report {
            Report::Closed { sender: closed } => {
                if *closed as usize == sender {
                    return true;
                }
            }
            Report::Took { .. } => {}
        }
    }
    false
}

/// Whether the first `senders` senders are reported closed.
#[tactic(auto, using(crate::proofs::Planning::open_one))]
fn are_closed(reports: &[Report], senders: usize) -> bool
    ensures { result ≡ all_closed reports.now senders }
{
    for sender in 0..senders {
        if !is_reported_closed(reports, sender) {
            return false;
        }
    }
    true
}

/// Whether the last report is of a word.
fn ends_in_word(reports: &[Report]) -> bool
    ensures { result ≡ ends_in_word reports.now }
{
    match reports.last().copied() {
        Some(last) => is_word(last),
        None => false,
    }
}

fn is_word(report: Report) -> bool
    ensures { result ≡ is_word report }
{
    match report {
        Report::Took { .. } => true,
        Report::Closed { .. } => false,
    }
}

/// Whether every sender is reported closed. After the last closing no word is reported; so most calls
/// look at the last report alone, and a plan's time is linear in its words.
fn is_finished<K: Finish<B, M>, const B: usize, const M: usize>(machine: &Machine<B, M>) -> bool
    requires stands { Stands K.RingKind.ring K.RingKind.meaning B M machine.now.history }
    ensures { result ≡ is_done machine.now.history }
{
    K::laws();
    let senders = machine.harts() as usize - 1;
    let reports = machine.reports(0);
    if ends_in_word(reports) {
        return false;
    }
    are_closed(reports, senders)
}

/// Which hart acts next, where nothing is pending: a sender that does not wait, or the receiver.
fn next_hart<K: Finish<B, M>, const B: usize, const M: usize>(machine: &Machine<B, M>) -> u32
    requires stands { Stands K.RingKind.ring K.RingKind.meaning B M machine.now.history }
    ensures { result ≡ next_by K.ranking M machine.now.history }
{
    let mut next = 0;
    for hart in 1..machine.harts() {
        if K::is_ready(machine, hart) {
            next = hart;
        }
    }
    next
}

/// The events of [`plan_of`]. The machine ends where they lead.
fn plan_in<K: Finish<B, M>, const B: usize, const M: usize>(
    alloc: Global,
    machine: &mut Machine<B, M>,
) -> Result<Vec<Event>, AllocError>
    requires some_capacity { 1 ≤ B }
    requires stands { Stands K.RingKind.ring K.RingKind.meaning B M machine.old.history }
    ensures finishes { IfOk result (λ plan. Finishes B M machine.old.history plan.items) }
    ensures none { IfOk result (λ plan. is_done machine.old.history ≡ true → plan.items ≡ []) }
    ensures ran { IfOk result (λ plan. RunFrom B M machine.old.history plan.items machine.new.history) }
    ensures stands { OnOk result (Stands K.RingKind.ring K.RingKind.meaning B M machine.new.history) }
{
    K::laws();
    K::ranking_decreases();
    let mut plan = Vec::new(alloc);
    if is_finished::<K, B, M>(machine) {
        return Ok(plan);
    }
    for hart in 0..machine.harts() {
        while !machine.pending(hart).is_empty() {
            machine.step(Event::Land(hart))?;
            plan.push(Event::Land(hart))?;
        }
    }
    while !is_finished::<K, B, M>(machine) {
        let next = next_hart::<K, B, M>(machine);
        machine.step(Event::Act(next))?;
        plan.push(Event::Act(next))?;
        if !machine.pending(next).is_empty() {
            machine.step(Event::Land(next))?;
            plan.push(Event::Land(next))?;
        }
    }
    Ok(plan)
}

/// Events that finish a channel from where the machine stands: after them every sender is reported
/// closed and its whole list is taken. There are none where that is so already. The machine is used up.
pub fn plan_of<K: Finish<B, M>, const B: usize, const M: usize>(
    alloc: Global,
    mut machine: Machine<B, M>,
) -> Result<Vec<Event>, AllocError>
    requires some_capacity { 1 ≤ B }
    requires stands { Stands K.RingKind.ring K.RingKind.meaning B M machine.history }
    ensures finishes { IfOk result (λ plan. Finishes B M machine.entry.history plan.items) }
    ensures none { IfOk result (λ plan. is_done machine.entry.history ≡ true → plan.items ≡ []) }
{
    plan_in::<K, B, M>(alloc, &mut machine)
}

/// All that the receiver has reported once a plan has run after the machine's history, whatever events and
/// lists made that. The machine ends where the plan leads.
pub fn whole_reports_of<K: Finish<B, M>, const B: usize, const M: usize>(
    alloc: Global,
    machine: &mut Machine<B, M>,
) -> Result<Vec<Report>, AllocError>
    requires some_capacity { 1 ≤ B }
    requires stands { Stands K.RingKind.ring K.RingKind.meaning B M machine.old.history }
    ensures whole { IfOk result (λ r. ForEachRun K.RingKind.ring B M machine.old.history
        (λ lists l events. DeliversWholeOver K.RingKind.ring B M lists l events r.items)) }
    ensures ran { OnOk result ((plan : List Event) × RunFrom B M machine.old.history plan machine.new.history) }
    ensures reports { IfOk result (λ r. r.items ≡ reported 0 machine.new.history.entries) }
{
    K::laws();
    plan_in::<K, B, M>(alloc, machine)?;
    Vec::from_slice(alloc, machine.reports(0))
}
