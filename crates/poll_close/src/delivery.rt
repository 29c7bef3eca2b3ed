//! Delivery.

ghost use Rattle.std.specs.Prelude.{◌≡◌, ◌≤◌, ℕ, List, IfOk, IfErr, OnOk, map, length};
ghost use Rattle.step_machine.specs.History.{History, FitsIn};
ghost use Rattle.step_machine.specs.Entries.{reported};
ghost use Rattle.step_machine.specs.Runs.{Run};
ghost use Rattle.step_machine.specs.Standing.{RepresentsHistory, ForEachHistory};
ghost use Rattle.step_machine.specs.declared.events.Event.{Event};
ghost use Rattle.poll_close.specs.Layout.{Layout, dense, layout_of, AllTouch};
ghost use Rattle.poll_close.specs.Laws.{Accepted, AcceptedAt, opening_of, opening_over, AllGoOn};
ghost use Rattle.poll_close.specs.Refusals.{Refuses, RefusesAt};
ghost use Rattle.poll_close.specs.Delivery.{Delivers, DeliversOver, DeliversWhole, DeliversWholeOver, ForEachRun};
ghost use Rattle.poll_close.specs.Reports.{Clean};
ghost use Rattle.poll_close.specs.Standing.{Stands};
ghost use Rattle.poll_close.specs.Plans.{CanFinish};

use crate::faults::{Refused, RefusedAt};
use crate::kind::RingKind;
use crate::openings::opening_at;
use crate::place::BlockPlace;
use crate::plans::{Finish, whole_reports_of};
use hart::need::Report;
use std::alloc::{AllocError, Global};
use step_machine::{Event, Machine, MachineState, Opening};

/// What the receiver has reported where a channel of this kind stands, whatever events and lists led there.
pub fn reports_of<K: RingKind, const B: usize, const M: usize>(
    alloc: Global,
    machine: &MachineState<B, M>,
) -> Result<Vec<Report>, AllocError>
    requires stands { (t : History) × RepresentsHistory B M t machine.now × Stands K.ring K.meaning B M t }
    ensures { IfOk result (λ r. ForEachHistory B M machine.now (λ t. ForEachRun K.ring B M t
        (λ lists l events. DeliversOver K.ring B M lists l events r.items))) }
{
    K::laws();
    Vec::from_slice(alloc, machine.reports(0))
}

/// What the receiver reports when these events run from this opening.
fn reports_after<K: RingKind, const B: usize, const M: usize>(
    alloc: Global,
    opening: &Opening,
    lists: &[Vec<u32>],
    events: &[Event],
) -> Result<Vec<Report>, AllocError>
    requires capacity { B ≤ 64 }
    requires memory { M ≤ 65536 }
    requires opens { (l : Layout) × AcceptedAt K.ring M (map (λ v. v.items) lists.now) l
        × (opening.now ≡ opening_over K.ring (map (λ v. v.items) lists.now) l) }
    ensures { IfOk result (λ r. Delivers B M opening.now (map (λ v. v.items) lists.now) events.now r.items) }
{
    K::laws();
    let mut machine = MachineState::<B, M>::open(alloc, opening)?;
    match machine.run(events) {
        Ok(()) => {}
        Err((_, error)) => return Err(error),
    }
    reports_of::<K, B, M>(alloc, &machine)
}

/// What the receiver of a channel of this kind at a place, over a memory that opens with these words, reports
/// when these events run from its opening over these lists: exactly the run's reports, and they are clean. Err
/// as [`opening_at`].
pub fn deliver_at<K: RingKind, const B: usize, const M: usize>(
    alloc: Global,
    lists: &[Vec<u32>],
    place: BlockPlace,
    words: &[u32],
    events: &[Event],
) -> Result<Vec<Report>, RefusedAt>
    requires some_capacity { 1 ≤ B }
    requires capacity { B ≤ 64 }
    requires some_word { 1 ≤ M }
    requires memory { M ≤ 65536 }
    ensures delivers { IfOk result (λ r. DeliversOver K.ring B M (map (λ v. v.items) lists.now) (layout_of place words.now) events.now r.items) }
    ensures accepted { OnOk result (AcceptedAt K.ring M (map (λ v. v.items) lists.now) (layout_of place words.now)) }
    ensures refused { IfErr result (λ e. RefusesAt K.ring M (map (λ v. v.items) lists.now) (layout_of place words.now) e) }
{
    let opening = opening_at::<K>(alloc, lists, place, words, M)?;
    Ok(reports_after::<K, B, M>(alloc, &opening, lists, events)?)
}

/// The same with rings of `ring` slots in the dense layout, where all memory is zero. Err as
/// [`opening`](crate::openings::opening).
#[tactic(auto, using(crate::proofs::Opened::dense_refusal))]
pub fn deliver<K: RingKind, const B: usize, const M: usize>(
    alloc: Global,
    lists: &[Vec<u32>],
    ring: u32,
    events: &[Event],
) -> Result<Vec<Report>, Refused>
    requires some_capacity { 1 ≤ B }
    requires capacity { B ≤ 64 }
    requires some_word { 1 ≤ M }
    requires memory { M ≤ 65536 }
    ensures delivers { IfOk result (λ r. DeliversOver K.ring B M (map (λ v. v.items) lists.now) (dense ring) events.now r.items) }
    ensures accepted { OnOk result (Accepted K.ring M (map (λ v. v.items) lists.now) ring) }
    ensures refused { IfErr result (λ e. Refuses K.ring M (map (λ v. v.items) lists.now) ring e) }
{
    match deliver_at::<K, B, M>(alloc, lists, BlockPlace::dense(ring), &[], events) {
        Ok(reports) => Ok(reports),
        Err(why) => Err(why.of_lists()),
    }
}

/// What the receiver reports when these events run from this opening, and then a plan.
fn whole_reports_after<K: Finish<B, M>, const B: usize, const M: usize>(
    alloc: Global,
    opening: Opening,
    lists: &[Vec<u32>],
    events: &[Event],
) -> Result<Vec<Report>, AllocError>
    requires some_capacity { 1 ≤ B }
    requires capacity { B ≤ 64 }
    requires some_word { 1 ≤ M }
    requires memory { M ≤ 65536 }
    requires opens { (l : Layout) × AcceptedAt K.RingKind.ring M (map (λ v. v.items) lists.now) l
        × (opening ≡ opening_over K.RingKind.ring (map (λ v. v.items) lists.now) l) }
    ensures { IfOk result (λ r. DeliversWhole B M opening (map (λ v. v.items) lists.now) events.now r.items) }
{
    laws_of_channels::<K>();
    let mut machine = Machine::<B, M>::open(alloc, opening)?;
    match machine.run(events) {
        Ok(()) => {}
        Err((_, error)) => return Err(error),
    }
    whole_reports_of::<K, B, M>(alloc, &mut machine)
}

/// What the receiver of such a channel at a place, over a memory that opens with these words, reports
/// when these events run from its opening and then its plan: clean reports of each list's whole words, and
/// of each sender that it is closed. Err as [`opening_at`].
pub fn deliver_whole_at<K: Finish<B, M>, const B: usize, const M: usize>(
    alloc: Global,
    lists: &[Vec<u32>],
    place: BlockPlace,
    words: &[u32],
    events: &[Event],
) -> Result<Vec<Report>, RefusedAt>
    requires some_capacity { 1 ≤ B }
    requires capacity { B ≤ 64 }
    requires some_word { 1 ≤ M }
    requires memory { M ≤ 65536 }
    ensures whole { IfOk result (λ r. DeliversWholeOver K.RingKind.ring B M (map (λ v. v.items) lists.now) (layout_of place words.now) events.now r.items) }
    ensures accepted { OnOk result (AcceptedAt K.RingKind.ring M (map (λ v. v.items) lists.now) (layout_of place words.now)) }
    ensures refused { IfErr result (λ e. RefusesAt K.RingKind.ring M (map (λ v. v.items) lists.now) (layout_of place words.now) e) }
{
    let opening = opening_at::<K>(alloc, lists, place, words, M)?;
    Ok(whole_reports_after::<K, B, M>(alloc, opening, lists, events)?)
}

/// The laws of channels of this kind, in any layout: each opening fits its memory, and in each run from it
/// what the receiver reports is clean, no hart is stopped, and each hart touches its blocks alone, whatever
/// made the events. It does nothing.
pub fn laws_of_channels<K: RingKind>()
    ensures fits { (M : ℕ) (lists : List (List ℕ)) (l : Layout) → AcceptedAt K.ring M lists l → FitsIn M (opening_over K.ring lists l) }
    ensures clean { (B M : ℕ) (lists : List (List ℕ)) (l : Layout) (events : List Event) (t : History)
        → AcceptedAt K.ring M lists l → Run B M (opening_over K.ring lists l) events t
        → Clean (reported 0 t.entries) lists }
    ensures stands { (B M : ℕ) (lists : List (List ℕ)) (l : Layout) (events : List Event) (t : History)
        → AcceptedAt K.ring M lists l → Run B M (opening_over K.ring lists l) events t → Stands K.ring K.meaning B M t }
    ensures goes { (B M : ℕ) (lists : List (List ℕ)) (l : Layout) (events : List Event) (t : History)
        → AcceptedAt K.ring M lists l → Run B M (opening_over K.ring lists l) events t → AllGoOn t.entries }
    ensures touches { (B M : ℕ) (lists : List (List ℕ)) (l : Layout) (events : List Event) (t : History)
        → AcceptedAt K.ring M lists l → Run B M (opening_over K.ring lists l) events t
        → AllTouch l (length lists) t.entries }
{
    K::laws();
}

/// The law of plans: from every state of a channel of this kind, and so from every one that events lead
/// to, further events finish it, where a buffer holds a store at least. It does nothing.
#[tactic(auto, using(crate::proofs::Planning::can_finish, crate::proofs::Planning::run_can_finish))]
pub fn laws_of_plans<K: Finish<B, M>, const B: usize, const M: usize>()
    ensures standing { (capacity memory : ℕ) (t : History) → 1 ≤ capacity
        → Stands K.RingKind.ring K.RingKind.meaning capacity memory t → CanFinish capacity memory t }
    ensures running { (capacity memory : ℕ) (lists : List (List ℕ)) (l : Layout) (events : List Event) (t : History)
        → 1 ≤ capacity → AcceptedAt K.RingKind.ring memory lists l
        → Run capacity memory (opening_over K.RingKind.ring lists l) events t → CanFinish capacity memory t }
{
    K::laws();
    K::ranking_decreases();
}
