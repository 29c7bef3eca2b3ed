//! A channel whose harts and landers are threads.

ghost use Rattle.std.specs.Prelude.{◌≡◌, ◌≤◌, IfOk, IfErr, OnOk, map, length};
ghost use Rattle.step_machine.specs.History.{FitsIn};
ghost use Rattle.step_machine.specs.Entries.{reported};
ghost use Rattle.poll_close.specs.Laws.{opening_of, opening_over, Accepted, AcceptedAt, AllGoOn};
ghost use Rattle.poll_close.specs.Layout.{dense, layout_of, AllTouch};
ghost use Rattle.poll_close.specs.Reports.{Clean};
ghost use Rattle.hart_threads.specs.Records.{IsRecord};
ghost use Rattle.hart_threads.specs.GettingOn.{AllGetOn, AtMost};
ghost use Rattle.hart_threads.specs.Returns.{RecordFails, ChannelFails, ChannelFailsAt};

use crate::fault::{ChannelFault, ChannelFaultAt};
use crate::gate::Gate;
use crate::harts::run_harts;
use crate::record::Record;
use crate::shared::Shared;
use hart::need::Report;
use poll_close::{BlockPlace, RingKind, laws_of_channels, opening_at};
use std::alloc::Global;
use std::sync::Wait;
use std::thread::Threads;
use step_machine::Opening;

/// The record of threads over this opening, one for each hart and each lander, with fresh seats, and what hart
/// 0 reports in it.
fn record_over<const B: usize, const M: usize, G: Gate + Sync, R: Threads + Wait + Sync>(
    rt: &R,
    alloc: Global,
    opening: Opening,
    gate: &G,
    turns: u32,
) -> Result<(Record<B, M>, Vec<Report>), ChannelFault>
    requires some_capacity { 1 ≤ B }
    requires capacity { B ≤ 64 }
    requires some_word { 1 ≤ M }
    requires memory { M ≤ 65536 }
    requires fits { FitsIn M opening }
    ensures record { IfOk result (λ r. IsRecord B M opening r.0) }
    ensures reports { IfOk result (λ r. r.1.items ≡ reported 0 r.0.trace.entries) }
    ensures few { IfOk result (λ r. AtMost turns r.0.trace) }
    ensures gets_on { G.is_open gate.now → IfOk result (λ r. AllGetOn turns M r.0.trace) }
    ensures fault { IfErr result (RecordFails B M turns opening) }
{
    let (shared, seats) = Shared::open(alloc, opening)?;
    let record = run_harts(rt, alloc, shared, seats, gate, turns)?;
    let reports = Vec::from_slice(alloc, record.machine.reports(0))?;
    Ok((record, reports))
}

/// Runs a channel of this kind over these lists at a place, over a memory that opens with these words, with a
/// thread for each hart and each lander: the record, and what the receiver reports in it. Whatever the threads
/// do, these reports are clean, no hart is stopped or touches memory outside its blocks, and each hart makes at
/// most `turns` entries, and each lander too. Under an open gate each hart gets on: it ends, makes `turns`
/// entries, or comes to what may have to wait.
///
/// Lists and places are refused as [`opening_at`] refuses them, and the threads run and fail as in
/// [`run_harts`], with fresh seats. It may wait, for the lock and for the threads.
pub fn deliver_threads_at<
    K: RingKind,
    const B: usize,
    const M: usize,
    G: Gate + Sync,
    R: Threads + Wait + Sync,
>(
    rt: &R,
    alloc: Global,
    lists: &[Vec<u32>],
    place: BlockPlace,
    words: &[u32],
    gate: &G,
    turns: u32,
) -> Result<(Record<B, M>, Vec<Report>), ChannelFaultAt>
    requires some_capacity { 1 ≤ B }
    requires capacity { B ≤ 64 }
    requires some_word { 1 ≤ M }
    requires memory { M ≤ 65536 }
    ensures accepted { OnOk result (AcceptedAt K.ring M (map (λ v. v.items) lists.now) (layout_of place words.now)) }
    ensures record { IfOk result (λ r. IsRecord B M (opening_over K.ring (map (λ v. v.items) lists.now) (layout_of place words.now)) r.0) }
    ensures reports { IfOk result (λ r. r.1.items ≡ reported 0 r.0.trace.entries) }
    ensures clean { IfOk result (λ r. Clean r.1.items (map (λ v. v.items) lists.now)) }
    ensures goes { IfOk result (λ r. AllGoOn r.0.trace.entries) }
    ensures touches { IfOk result (λ r. AllTouch (layout_of place words.now) (length lists.now) r.0.trace.entries) }
    ensures few { IfOk result (λ r. AtMost turns r.0.trace) }
    ensures gets_on { G.is_open gate.now → IfOk result (λ r. AllGetOn turns M r.0.trace) }
    ensures fault { IfErr result (ChannelFailsAt K.ring B M turns (map (λ v. v.items) lists.now) (layout_of place words.now)) }
{
    laws_of_channels::<K>();
    let opening = opening_at::<K>(alloc, lists, place, words, M)?;
    Ok(record_over(rt, alloc, opening, gate, turns)?)
}

/// The same through rings of `ring` slots in the dense layout, where all memory is zero. Lists are refused as
/// [`opening`](poll_close::opening) refuses them.
#[tactic(auto, using(poll_close::proofs::Opened::dense_refusal))]
pub fn deliver_threads<
    K: RingKind,
    const B: usize,
    const M: usize,
    G: Gate + Sync,
    R: Threads + Wait + Sync,
>(
    rt: &R,
    alloc: Global,
    lists: &[Vec<u32>],
    ring: u32,
    gate: &G,
    turns: u32,
) -> Result<(Record<B, M>, Vec<Report>), ChannelFault>
    requires some_capacity { 1 ≤ B }
    requires capacity { B ≤ 64 }
    requires some_word { 1 ≤ M }
    requires memory { M ≤ 65536 }
    ensures accepted { OnOk result (Accepted K.ring M (map (λ v. v.items) lists.now) ring) }
    ensures record { IfOk result (λ r. IsRecord B M (opening_of K.ring (map (λ v. v.items) lists.now) ring) r.0) }
    ensures reports { IfOk result (λ r. r.1.items ≡ reported 0 r.0.trace.entries) }
    ensures clean { IfOk result (λ r. Clean r.1.items (map (λ v. v.items) lists.now)) }
    ensures goes { IfOk result (λ r. AllGoOn r.0.trace.entries) }
    ensures touches { IfOk result (λ r. AllTouch (dense ring) (length lists.now) r.0.trace.entries) }
    ensures few { IfOk result (λ r. AtMost turns r.0.trace) }
    ensures gets_on { G.is_open gate.now → IfOk result (λ r. AllGetOn turns M r.0.trace) }
    ensures fault { IfErr result (ChannelFails K.ring B M turns (map (λ v. v.items) lists.now) ring) }
{
    match deliver_threads_at::<K, B, M, G, R>(
        rt,
        alloc,
        lists,
        BlockPlace::dense(ring),
        &[],
        gate,
        turns,
    ) {
        Ok(record) => Ok(record),
        Err(ChannelFaultAt::Place(why)) => Err(ChannelFault::Lists(why.of_lists())),
        Err(ChannelFaultAt::Threads(fault)) => Err(ChannelFault::Threads(fault)),
    }
}
