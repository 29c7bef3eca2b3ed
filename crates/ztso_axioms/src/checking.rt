//! Whether a list is a global memory order that the axioms allow.

ghost use Rattle.std.specs.Prelude.{◌≡◌, ℕ, ◌^◌, ◌<◌, ◌≤◌, ◌↔◌, IsTrue, true, false, nat_lt, if◌then◌else◌, [], All};
ghost use Rattle.std.specs.Prelude.{suc, drop, filter, length, slice_index, None};
ghost use Rattle.std.specs.List.{list_any};
ghost use Rattle.step_machine.specs.Entries.{hart_of, opening_byte};
ghost use Rattle.ztso_axioms.specs.Operations.{is_load, is_operation, is_at, written_at, hart_at};
ghost use Rattle.ztso_axioms.specs.Axioms.{times_named, is_barrier, is_fenced, is_preserved, in_program_order, is_seen};
ghost use Rattle.ztso_axioms.specs.Axioms.{byte_for, value_for, NamesEachOnce, KeepsProgramOrder, HasLoadValue, Ztso};

use crate::operation::{
    Op, byte_at, byte_named, entry_at, hart_named, is_memory_operation, is_operation_named,
    is_plain_load, is_plain_store, orders, value_read,
};
use step_machine::{Entry, Opening, Trace};

/// Whether the list is a global memory order that Ztso allows for the trace. A list that names a place
/// past the trace, or an entry that is no load, store or AMO, is none. It takes no memory, and time by the
/// square of the trace.
pub fn check(trace: &Trace, order: &[Op]) -> bool
    ensures { IsTrue result ↔ Ztso trace.now order.now }
{
    names_each_once(&trace.entries, order)
        && keeps_program_order(&trace.entries, order)
        && has_load_values(trace, order)
}

/// Whether each operation is named once and nothing else is.
fn names_each_once(entries: &[Entry], order: &[Op]) -> bool
    ensures { IsTrue result ↔ NamesEachOnce entries.now order.now }
{
    for (place, entry) in entries.iter().enumerate() {
        if is_memory_operation(*entry) && times(order, place) != 1 {
            return false;
        }
    }
    names_operations(entries, order)
}

/// Whether the list names nothing but operations.
fn names_operations(entries: &[Entry], order: &[Op]) -> bool
    ensures { IsTrue result ↔ All (λ p. IsTrue (is_at is_operation entries.now p)) order.now }
{
    order.iter().all(|op| is_operation_named(entries, *op))
}

/// How often the list names the place.
fn times(order: &[Op], place: usize) -> usize
    ensures { result ≡ times_named place order.now }
{
    let mut times = 0;
    for op in order {
        if op.place == place {
            times += 1;
        }
    }
    times
}

/// Whether the list keeps the preserved program order.
fn keeps_program_order(entries: &[Entry], order: &[Op]) -> bool
    requires { NamesEachOnce entries.now order.now }
    ensures { IsTrue result ↔ KeepsProgramOrder entries.now order.now }
{
    for (index, op) in order.iter().enumerate() {
        if !may_precede(entries, *op, &order[index..]) {
            return false;
        }
    }
    true
}

/// Whether the operation may stand before each of these others.
fn may_precede(entries: &[Entry], op: Op, others: &[Op]) -> bool
    ensures { IsTrue result ↔ All (λ p. is_preserved entries.now p op ≡ false) others.now }
{
    let place = op.place;
    let Some(entry) = entry_at(entries, op) else {
        return true;
    };
    let barrier = barrier_for(entry, &entries[..place]);
    for other in others {
        if is_kept(entries, *other, op, barrier) {
            return false;
        }
    }
    true
}

/// For a load the place of its hart's last AMO or full fence among the entries before it, and 0 where there
/// is none. No other operation passes a store, so for them the place does not matter.
fn barrier_for(entry: Entry, earlier: &[Entry]) -> usize
    ensures { IsTrue (is_load entry) → (p : ℕ) → list_any (is_barrier (hart_of entry)) (drop (suc p) earlier.now) ≡ nat_lt p result }
{
    if is_plain_load(entry) {
        last_barrier(earlier, entry.hart())
    } else {
        0
    }
}

/// The place of the last AMO or full fence of the hart, and 0 where there is none.
fn last_barrier(entries: &[Entry], hart: u32) -> usize
    ensures { (p : ℕ) → list_any (is_barrier hart) (drop (suc p) entries.now) ≡ nat_lt p result }
{
    let mut last = 0;
    for (place, entry) in entries.iter().enumerate() {
        if orders(*entry, hart) {
            last = place;
        }
    }
    last
}

/// Whether the preserved program order has `first` before `second`; if that is a load, its hart's last AMO
/// or full fence before it stands at `barrier`.
fn is_kept(entries: &[Entry], first: Op, second: Op, barrier: usize) -> bool
    requires { IsTrue (is_at is_load entries.now second) → is_fenced entries.now (hart_at entries.now second) first second ≡ nat_lt first barrier }
    ensures { result ≡ is_preserved entries.now first second }
{
    if !is_earlier(entries, first, second) {
        return false;
    }
    let (Some(earlier), Some(later)) = (entry_at(entries, first), entry_at(entries, second)) else {
        return false;
    };
    let passes = is_plain_store(earlier) && is_plain_load(later) && barrier <= first.place;
    is_memory_operation(earlier) && is_memory_operation(later) && !passes
}

/// Whether both are of one hart, the first before the second in program order.
fn is_earlier(entries: &[Entry], first: Op, second: Op) -> bool
    ensures { result ≡ in_program_order entries.now first second }
{
    first.place < second.place && hart_named(entries, first) == hart_named(entries, second)
}

/// Whether each load and AMO has the value that the order gives it.
fn has_load_values(trace: &Trace, order: &[Op]) -> bool
    requires { NamesEachOnce trace.now.entries order.now }
    ensures { IsTrue result ↔ ((q : ℕ) → HasLoadValue trace.now.opening trace.now.entries order.now q) }
{
    for index in 0..order.len() {
        if !has_load_value(trace, order, index) {
            return false;
        }
    }
    true
}

fn has_load_value(trace: &Trace, order: &[Op], index: usize) -> bool
    requires once { NamesEachOnce trace.now.entries order.now }
    requires within { index < length order.now }
    ensures { IsTrue result ↔ HasLoadValue trace.now.opening trace.now.entries order.now (slice_index order.now index) }
{
    let Some(entry) = entry_at(&trace.entries, order[index]) else {
        return true;
    };
    match value_read(entry) {
        Some((addr, width, value)) => has_bytes(trace, order, index, addr, width, value),
        None => true,
    }
}

/// Whether the order gives the operation at `index` this value from its read of `width` bytes.
fn has_bytes(trace: &Trace, order: &[Op], index: usize, addr: u32, width: u32, value: u32) -> bool
    requires once { NamesEachOnce trace.now.entries order.now }
    requires within { index < length order.now }
    ensures { IsTrue result ↔ (value ≡ value_for trace.now.opening trace.now.entries order.now (slice_index order.now index) addr width) }
{
    let end = end_of_seen(&trace.entries, order, index);
    for place in 0..width as usize {
        if latest_byte(trace, order, index, end, addr as usize + place) != byte_at(value, place) {
            return false;
        }
    }
    is_below(value, width)
}

/// Whether the number fits in `width` bytes.
#[tactic(auto, using(crate::proofs::Values::below_all))]
fn is_below(value: u32, width: u32) -> bool
    ensures { IsTrue result ↔ (value < 256 ^ width) }
{
    match width {
        0 => value == 0,
        1 => value < 256,
        2 => value < 65536,
        3 => value < 16777216,
        _ => true,
    }
}

/// How much of the order holds all stores that the operation at `index` can take its value from: each byte
/// of a read looks through that part alone.
fn end_of_seen(entries: &[Entry], order: &[Op], index: usize) -> usize
    requires once { NamesEachOnce entries.now order.now }
    requires within { index < length order.now }
    ensures within { result ≤ length order.now }
    ensures seen { filter (is_seen entries.now order.now (slice_index order.now index)) (drop result order.now) ≡ [] }
{
    for place in (0..order.len()).rev() {
        if sees(entries, order, index, place) {
            return place + 1;
        }
    }
    0
}

/// The byte that the order gives a read of the address by the operation at `index`, which sees nothing of
/// the order from `end` on.
fn latest_byte(trace: &Trace, order: &[Op], index: usize, end: usize, addr: usize) -> u8
    requires once { NamesEachOnce trace.now.entries order.now }
    requires within { index < length order.now }
    requires end { end ≤ length order.now }
    requires seen { filter (is_seen trace.now.entries order.now (slice_index order.now index)) (drop end order.now) ≡ [] }
    ensures { result ≡ byte_for trace.now.opening trace.now.entries order.now (slice_index order.now index) addr }
{
    for place in (0..end).rev() {
        if let Some(byte) = byte_seen(&trace.entries, order, index, place, addr) {
            return byte;
        }
    }
    first_byte(&trace.opening, addr)
}

/// The byte that the store at `place` of the order writes to the address, where the operation at `index`
/// can take its value from that store.
fn byte_seen(entries: &[Entry], order: &[Op], index: usize, place: usize, addr: usize) -> Option<u8>
    requires once { NamesEachOnce entries.now order.now }
    requires index { index < length order.now }
    requires place { place < length order.now }
    ensures { result
        ≡ (if is_seen entries.now order.now (slice_index order.now index) (slice_index order.now place)
        then written_at entries.now addr (slice_index order.now place) else None) }
{
    if sees(entries, order, index, place) {
        byte_named(entries, order[place], addr)
    } else {
        None
    }
}

/// Whether the operation at `index` can take its value from the store at `place` of the order.
fn sees(entries: &[Entry], order: &[Op], index: usize, place: usize) -> bool
    requires once { NamesEachOnce entries.now order.now }
    requires index { index < length order.now }
    requires place { place < length order.now }
    ensures { result ≡ is_seen entries.now order.now (slice_index order.now index) (slice_index order.now place) }
{
    place < index || is_earlier(entries, order[place], order[index])
}

fn first_byte(opening: &Opening, addr: usize) -> u8
    ensures { result ≡ opening_byte opening.now addr }
{
    let word = opening.words.get(addr / 4).copied().unwrap_or(0);
    word.to_le_bytes()[addr % 4]
}
