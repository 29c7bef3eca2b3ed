//! The order in which a trace performed its operations.

ghost use Rattle.std.specs.Prelude.{◌≡◌, ℕ, ◌<◌, ◌↔◌, ◌==◌, ◌&&◌, ◌++◌, IsTrue, [], All, IfOk, OnOk, MatchOption, length, drop, slice_get};
ghost use Rattle.step_machine.specs.Entries.{hart_of, lands};
ghost use Rattle.step_machine.specs.Legal.{Legal};
ghost use Rattle.ztso_axioms.specs.Operations.{is_store};
ghost use Rattle.ztso_axioms.specs.Axioms.{Ztso};
ghost use Rattle.ztso_axioms.specs.Performed.{store_places, performed_after, left_places, left_below, hart_bound, order};
ghost use Rattle.ztso_axioms.specs.inner.Landings.{NamesLandings, AddsLandings, IsNextHart, nearer_of, performed_there};

use crate::operation::{Op, is_plain_store};
use std::alloc::{AllocError, Global};
use step_machine::{Entry, Trace};

/// Which store each landing performs, and the stores that none does.
#[derive(Drop)]
struct Landings {
    /// For each place of the trace, the store that is performed there if a landing stands there.
    landed: Vec<Option<Op>>,
    /// The stores without a landing, hart by hart, each hart's in program order.
    left: Vec<Op>,
}

/// The operations by the place where each is performed: a load and an AMO at its own, a hart's k-th
/// store at that of its k-th landing. Stores without such a landing come last, hart by hart. It goes over
/// the trace a few times for each hart that has an entry.
pub fn order_of(alloc: Global, trace: &Trace) -> Result<Vec<Op>, AllocError>
    ensures order { IfOk result (λ ops. ops.items ≡ order trace.now) }
    ensures allowed { (B : ℕ) → Legal B trace.now → IfOk result (λ ops. Ztso trace.now ops.items) }
{
    let landings = landings_of(alloc, &trace.entries)?;
    let mut order = performed(alloc, &trace.entries, &landings.landed)?;
    order.extend_from_slice(&landings.left)?;
    Ok(order)
}

/// Goes over the harts that have entries, from the least on.
fn landings_of(alloc: Global, entries: &[Entry]) -> Result<Landings, AllocError>
    ensures landed { IfOk result (λ l. NamesLandings entries.now (hart_bound entries.now) l.landed.items) }
    ensures len { IfOk result (λ l. length l.landed.items ≡ length entries.now) }
    ensures left { IfOk result (λ l. l.left.items ≡ left_below (hart_bound entries.now) entries.now) }
{
    let mut landed = vec![in alloc; None; entries.len()]?;
    let mut left = Vec::new(alloc);
    let mut from = 0usize;
    while let Some(hart) = next_hart(entries, from) {
        let places = stores_of(alloc, entries, hart)?;
        let count = name_landings(entries, hart, &places, &mut landed);
        add_rest(&mut left, &places, count)?;
        from = hart as usize + 1;
    }
    Ok(Landings { landed, left })
}

/// Adds the places from this number on.
fn add_rest(left: &mut Vec<Op>, places: &[Op], number: usize) -> Result<(), AllocError>
    ensures { OnOk result (left.new.items ≡ left.old.items ++ drop number places.now) }
{
    left.extend_from_slice(&places[number.min(places.len())..])
}

/// The least hart from this number on that has an entry.
fn next_hart(entries: &[Entry], from: usize) -> Option<u32>
    ensures { MatchOption result (All (λ e. hart_of e < from) entries.now) (λ h. IsNextHart entries.now from h) }
{
    let mut next: Option<u32> = None;
    for entry in entries {
        next = nearer(next, entry.hart(), from);
    }
    next
}

fn nearer(next: Option<u32>, hart: u32, from: usize) -> Option<u32>
    ensures { result ≡ nearer_of from next hart }
{
    match next {
        Some(best) if (hart as usize) < from || best <= hart => Some(best),
        None if (hart as usize) < from => None,
        _ => Some(hart),
    }
}

/// The places of a hart's stores.
fn stores_of(alloc: Global, entries: &[Entry], hart: u32) -> Result<Vec<Op>, AllocError>
    ensures { IfOk result (λ places. places.items ≡ store_places hart entries.now) }
{
    let mut places = Vec::new(alloc);
    for (place, entry) in entries.iter().enumerate() {
        if is_store_of(*entry, hart) {
            places.push(Op { place })?;
        }
    }
    Ok(places)
}

fn is_store_of(entry: Entry, hart: u32) -> bool
    ensures { result ≡ (is_store entry && (hart_of entry == hart)) }
{
    is_plain_store(entry) && entry.hart() == hart
}

/// Names what each landing of the hart performs, given its stores, and answers how many it has.
fn name_landings(entries: &[Entry], hart: u32, places: &[Op], landed: &mut [Option<Op>]) -> usize
    requires places { places.now ≡ store_places hart entries.now }
    requires len { length landed.old ≡ length entries.now }
    ensures landed { AddsLandings entries.now hart landed.old landed.new }
    ensures count { result ≡ lands hart entries.now }
{
    let mut count = 0;
    for (place, entry) in entries.iter().enumerate() {
        if is_landing(*entry, hart) {
            landed[place] = store_at(places, count);
            count += 1;
        }
    }
    count
}

fn store_at(places: &[Op], number: usize) -> Option<Op>
    ensures { result ≡ slice_get places.now number }
{
    places.get(number).copied()
}

fn is_landing(entry: Entry, of: u32) -> bool
    ensures { IsTrue result ↔ (entry ≡ Entry.Land of) }
{
    match entry {
        Entry::Land { hart } => hart == of,
        _ => false,
    }
}

/// What the entries perform, one after the other.
fn performed(alloc: Global, entries: &[Entry], landed: &[Option<Op>]) -> Result<Vec<Op>, AllocError>
    requires landed { NamesLandings entries.now (hart_bound entries.now) landed.now }
    requires len { length landed.now ≡ length entries.now }
    ensures { IfOk result (λ ops. ops.items ≡ performed_after entries.now [] entries.now) }
{
    let mut order = Vec::new(alloc);
    for (place, entry) in entries.iter().enumerate() {
        if let Some(op) = performed_at(*entry, place, landed[place]) {
            order.push(op)?;
        }
    }
    Ok(order)
}

/// What an entry at a place performs, where a landing performs this store.
fn performed_at(entry: Entry, place: usize, landed: Option<Op>) -> Option<Op>
    ensures { result ≡ performed_there entry place landed }
{
    match entry {
        Entry::Load { .. } => Some(Op { place }),
        Entry::Amo { .. } => Some(Op { place }),
        Entry::Land { .. } => landed,
        _ => None,
    }
}
