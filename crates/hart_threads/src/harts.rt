//! One thread for each seat.

ghost use Rattle.std.specs.Prelude.{◌≡◌, ◌≤◌, ◌<◌, ℕ, [], true, false, length, map, All, MatchBool, Err, IfOk, IfErr, vec_len, vec_capacity};
ghost use Rattle.std.specs.List.{AllZip, HoldsAt};
ghost use Rattle.hart_threads.specs.Missing.{is_missing, IsComplete, IsFirst};
ghost use Rattle.hart_threads.specs.Records.{IsRecord};
ghost use Rattle.hart_threads.specs.GettingOn.{SeatGetsOn, OpensAs};
ghost use Rattle.hart_threads.specs.Returns.{IsMerged, Fails};
ghost use Rattle.hart_threads.specs.inner.{Found};
ghost use Rattle.hart_threads.specs.inner.{Ran};
ghost use Rattle.hart_threads.specs.declared.turns.Ending.TheVariants as ending;

use crate::fault::Fault;
use crate::gate::Gate;
use crate::gather::spend;
use crate::held::{Held, hold, release_all};
use crate::missing::{first_missing, lesser};
use crate::record::Record;
use crate::seat::Seat;
use crate::shared::Shared;
use crate::turns::{Ending, Returned, turns_of};
use std::alloc::{AllocError, Global};
use std::snapshot::Snapshot;
use std::sync::Wait;
use std::thread;
use std::thread::{Promise, PromisedHandle, Scope, Threads};

/// Room for the threads' handles, for what they return, and for the seats that they bring back.
type Rooms<G, const M: usize> = (
    Vec<PromisedHandle<Returned<M>, Pledge<G, M>>>,
    Vec<Returned<M>>,
    Vec<Seat<M>>,
);

/// What a thread makes of the seat that it is given, with this gate and this many turns.
#[derive(Drop)]
struct Pledge<G: Gate, const M: usize> {
    given: Snapshot<Held<M>>,
    gate: Snapshot<G>,
    turns: u32,
}

impl<G: Gate, const M: usize> Promise<Returned<M>> for Pledge<G, M> {
    ghost use Rattle.hart_threads.specs.inner.{Ran};

    ghost kept_by = { λ p r. Ran (G.is_open p.gate.value) p.turns p.given.value.seat r.1 r.2 r.0.seat };
}

/// Starts a thread for each seat, up to one that the system refuses: whether it refused none.
fn start_all<'s, E, G: Gate + Sync, R: Wait + Sync, const B: usize, const M: usize>(
    scope: &Scope<'s, E>,
    rt: &'s R,
    shared: &'s Shared<B, M>,
    gate: &'s G,
    turns: u32,
    seats: Vec<Held<M>>,
    mut handles: Vec<PromisedHandle<Returned<M>, Pledge<G, M>>>,
) -> (Vec<PromisedHandle<Returned<M>, Pledge<G, M>>>, bool)
    requires room { vec_len seats ≤ vec_capacity handles }
    requires empty { handles.items ≡ [] }
    ensures few { vec_len result.0 ≤ vec_len seats.entry }
    ensures refused { result.1 ≡ false → vec_len result.0 < vec_len seats.entry }
    ensures same { result.1 ≡ true → map (λ h. h.promise.given.value.seat) result.0.items ≡ map (λ h. h.seat) seats.entry.items }
    ensures asked { All (λ h. (h.promise.gate.value ≡ gate.now) × (h.promise.turns ≡ turns)) result.0.items }
{
    for held in seats {
        let pledge = Pledge {
            given: Snapshot::of(&held),
            gate: Snapshot::of(gate),
            turns,
        };
        let run = move || -> Returned<M>
            ensures { Ran (G.is_open gate.entry.now) turns held.seat result.1 result.2 result.0.seat }
        { turns_of(rt, shared, held, gate, turns) };
        match scope.spawn_with(pledge, run) {
            Ok(handle) => handles.push_reserved(handle),
            Err(_) => return (handles, false),
        }
    }
    (handles, true)
}

/// Waits for all threads: what each returns.
fn join_all<G: Gate, R: Threads, const M: usize>(
    rt: &R,
    handles: Vec<PromisedHandle<Returned<M>, Pledge<G, M>>>,
    mut back: Vec<Returned<M>>,
) -> Vec<Returned<M>>
    requires room { vec_len handles ≤ vec_capacity back }
    requires empty { back.items ≡ [] }
    ensures few { vec_len result ≤ vec_len handles }
    ensures kept { AllZip (λ h r. Ran (G.is_open h.promise.gate.value) h.promise.turns h.promise.given.value.seat r.1 r.2 r.0.seat) handles.items result.items }
{
    for handle in handles {
        back.push_reserved(handle.join(rt));
    }
    back
}

/// Runs a thread for each seat to its end: what each returns, and whether all could start.
fn run_all<G: Gate + Sync, R: Threads + Wait + Sync, const B: usize, const M: usize>(
    rt: &R,
    shared: &Shared<B, M>,
    gate: &G,
    turns: u32,
    held: Vec<Held<M>>,
    handles: Vec<PromisedHandle<Returned<M>, Pledge<G, M>>>,
    back: Vec<Returned<M>>,
) -> (Vec<Returned<M>>, bool)
    requires none { handles.items ≡ [] }
    requires empty { back.items ≡ [] }
    requires room { vec_len held ≤ vec_capacity handles }
    requires space { vec_len held ≤ vec_capacity back }
    ensures few { vec_len result.0 ≤ vec_len held.entry }
    ensures refused { result.1 ≡ false → vec_len result.0 < vec_len held.entry }
    ensures ran { result.1 ≡ true → AllZip (λ s r. Ran (G.is_open gate.now) turns s r.1 r.2 r.0.seat) (map (λ h. h.seat) held.entry.items) result.0.items }
{
    thread::scope(
        thread::scope_env(),
        rt,
        |scope| -> (Vec<Returned<M>>, bool)
            requires { (handles.items ≡ []) × (back.items ≡ []) × (vec_len held ≤ vec_capacity handles) × (vec_len held ≤ vec_capacity back) }
            ensures few { vec_len result.0 ≤ vec_len held }
            ensures refused { result.1 ≡ false → vec_len result.0 < vec_len held }
            ensures ran { result.1 ≡ true → AllZip (λ s r. Ran (G.is_open gate.entry.now) turns s r.1 r.2 r.0.seat)
                (map (λ h. h.seat) held.items) result.0.items }
        {
            let (handles, started) = start_all(scope, rt, shared, gate, turns, held, handles);
            (join_all(rt, handles, back), started)
        },
    )
}

/// Whether a thread found no memory.
fn lacked_memory<const M: usize>(back: &[Returned<M>]) -> bool
    ensures { MatchBool result ((k : ℕ) × (k < length back.now) × HoldsAt (λ r. r.1 ≡ ending.NoMemory) back.now k)
        (All (λ r. r.1 ≡ ending.NoMemory → ⊥) back.now) }
{
    for one in back {
        if one.1 == Ending::NoMemory {
            return true;
        }
    }
    false
}

/// The least hart of which an act found no such hart.
#[tactic(auto, using(crate::proofs::Least::good_more, crate::proofs::Least::bad_more))]
fn least_lost<const M: usize>(back: &[Returned<M>]) -> Option<u32>
    ensures { Found (λ r. r.0.seat.hart) (λ r. r.0.seat.acts ≡ true → r.1 ≡ ending.NoHart → ⊥)
        (λ r. (r.0.seat.acts ≡ true) × (r.1 ≡ ending.NoHart)) back.now result }
{
    let mut least = None;
    for one in back {
        if one.1 == Ending::NoHart && one.0.seat.acts() {
            least = Some(lesser(least, one.0.seat.hart()));
        }
    }
    least
}

/// The rooms that threads for this many seats need: for their handles, for what they return, and for the seats.
fn make_rooms<G: Gate, const M: usize>(
    alloc: Global,
    count: usize,
) -> Result<Rooms<G, M>, AllocError>
    ensures handles { IfOk result (λ r. (r.0.items ≡ []) × (count ≤ vec_capacity r.0)) }
    ensures back { IfOk result (λ r. (r.1.items ≡ []) × (count ≤ vec_capacity r.1)) }
    ensures seats { IfOk result (λ r. (r.2.items ≡ []) × (count ≤ vec_capacity r.2)) }
{
    let handles = Vec::with_capacity(alloc, count)?;
    let back = Vec::with_capacity(alloc, count)?;
    let seats = Vec::with_capacity(alloc, count)?;
    Ok((handles, back, seats))
}

/// Runs a thread for each seat to its end, where the seats are all there: what each returns, and a vector with
/// room for their seats. All room is made before a thread starts, so that each seat that comes back has its place.
fn run_seats<G: Gate + Sync, R: Threads + Wait + Sync, const B: usize, const M: usize>(
    rt: &R,
    alloc: Global,
    shared: &Shared<B, M>,
    seats: Vec<Seat<M>>,
    gate: &G,
    turns: u32,
) -> Result<(Vec<Returned<M>>, Vec<Seat<M>>), Fault>
    ensures missing { (h : ℕ) → IsFirst (is_missing (length shared.now.harts) seats.entry.items) h → result ≡ Err (Fault.Missing h) }
    ensures fault { IfErr result (Fails B M turns shared.now seats.entry.items) }
    ensures complete { IfOk result (λ r. IsComplete (length shared.now.harts) seats.entry.items) }
    ensures ran { IfOk result (λ r. AllZip (λ s x. Ran (G.is_open gate.now) turns s x.1 x.2 x.0.seat) seats.entry.items r.0.items) }
    ensures found { IfOk result (λ r. All (λ x. x.1 ≡ ending.NoMemory → ⊥) r.0.items) }
    ensures room { IfOk result (λ r. (r.1.items ≡ []) × (vec_len r.0 ≤ vec_capacity r.1)) }
{
    if let Some(hart) = first_missing(shared.harts(), seats.as_slice()) {
        spend(seats);
        return Err(Fault::Missing { hart });
    }
    let held = hold(alloc, seats)?;
    let (handles, back, room) = make_rooms(alloc, held.len())?;
    let (back, started) = run_all(rt, shared, gate, turns, held, handles, back);
    if !started {
        room.destroy_empty();
        return Err(Fault::NoThread);
    }
    if lacked_memory(back.as_slice()) {
        room.destroy_empty();
        return Err(Fault::NoMemory);
    }
    Ok((back, room))
}

/// Runs each seat on a thread of its own, waits for all of them and gathers what they did.
///
/// A turn of a hart's thread is one question to the gate, by the turn's number from 1, and one instruction:
/// [`Seat::local`] and, where that leaves it, [`Shared::act`]. The thread ends where the gate answers `false`,
/// where its hart is over, or after `turns` turns. A lander's thread ends where its hart is over and has no
/// pending store, or after `turns` calls of [`Shared::land`]. A thread whose call finds no memory ends; the
/// others go on. Where an act found no such hart and the seats make a record, the least such hart is
/// missing; no run of this crate ever ends so, but a lock's type can't say it. No thread starts where a seat
/// is missing. Each error gives up the bank and the seats. It may wait, for the lock and for the threads.
pub fn run_harts<G: Gate + Sync, R: Threads + Wait + Sync, const B: usize, const M: usize>(
    rt: &R,
    alloc: Global,
    shared: Shared<B, M>,
    seats: Vec<Seat<M>>,
    gate: &G,
    turns: u32,
) -> Result<Record<B, M>, Fault>
    ensures missing { (h : ℕ) → IsFirst (is_missing (length shared.entry.harts) seats.entry.items) h → result ≡ Err (Fault.Missing h) }
    ensures fault { IfErr result (Fails B M turns shared.entry seats.entry.items) }
    ensures record { IfOk result (IsRecord B M shared.entry) }
    ensures merge { IfOk result (λ r. IsMerged turns shared.entry r.trace.entries seats.entry.items) }
    ensures gets_on { G.is_open gate.now → All (OpensAs M shared.entry) seats.entry.items
        → IfOk result (λ r. All (SeatGetsOn turns M r.trace) seats.entry.items) }
{
    let (back, room) = run_seats(rt, alloc, &shared, seats, gate, turns)?;
    let lost = least_lost(back.as_slice());
    let record = shared.gather(alloc, release_all(back, room))?;
    match lost {
        Some(hart) => Err(Fault::Missing { hart }),
        None => Ok(record),
    }
}
