//! Orders worked out by hand, and every list over the operations of a small trace, as `check` and a plain
//! program of the axioms see it.

use crate::given::{ZEROS, amo, both_read_0, full_fence, land, load, opening_of, store};
use std::alloc::{AllocError, Global};
use std::process::Abort;
use step_machine::{Entry, Trace};
use ztso_axioms::{Op, check, order_of};

/// A trace of four harts, over words that open as 0.
fn trace_of(alloc: Global, entries: &[Entry]) -> Result<Trace, AllocError> {
    let opening = opening_of(alloc, &[], &[ZEROS; 4], &[])?;
    let entries = Vec::from_slice(alloc, entries)?;
    Ok(Trace { opening, entries })
}

/// Hart 0 reads its own newest store, before hart 1 sees any.
fn own_stores_early() -> [Entry; 6] {
    [
        store(0, 0, 1),
        store(0, 0, 2),
        load(0, 0, 2),
        load(1, 0, 0),
        land(0),
        load(1, 0, 1),
    ]
}

/// Store buffering with a full fence between each hart's store and load.
fn fenced() -> [Entry; 8] {
    [
        store(0, 0, 1),
        store(1, 4, 1),
        land(0),
        full_fence(0),
        load(0, 4, 0),
        land(1),
        full_fence(1),
        load(1, 0, 1),
    ]
}

fn listed(alloc: Global, places: &[usize]) -> Result<Vec<Op>, AllocError> {
    let mut order = Vec::new(alloc);
    for place in places {
        order.push(Op { place: *place })?;
    }
    Ok(order)
}

/// Whether `check` accepts the order of these places.
fn accepts(rt: &(impl Abort + AllocGlobal), trace: &Trace, places: &[usize]) -> bool {
    check(trace, &listed(rt.alloc(), places).expect(rt, "memory"))
}

/// The trace's order names these places, and is accepted.
fn expect_order(rt: &(impl Abort + AllocGlobal), entries: &[Entry], places: &[usize]) {
    let trace = trace_of(rt.alloc(), entries).expect(rt, "a trace");
    let order = order_of(rt.alloc(), &trace).expect(rt, "an order");
    let wanted = listed(rt.alloc(), places).expect(rt, "memory");
    assert_same!(rt; order.as_slice(), wanted.as_slice());
    assert_same!(rt; check(&trace, &order), true);
}

#[test]
fn pending_stores_come_behind_the_loads(rt: HostRuntime) {
    expect_order(&rt, &both_read_0(), &[2, 3, 0, 1]);
}

#[test]
fn an_own_store_is_seen_before_its_place(rt: HostRuntime) {
    expect_order(&rt, &own_stores_early(), &[2, 3, 0, 5, 1]);
}

#[test]
fn fenced_stores_come_before_the_loads(rt: HostRuntime) {
    expect_order(&rt, &fenced(), &[0, 4, 1, 7]);
}

#[test]
fn an_order_names_every_operation(rt: HostRuntime) {
    let trace = trace_of(rt.alloc(), &both_read_0()).expect(&rt, "a trace");
    assert_same!(rt; accepts(&rt, &trace, &[2, 3, 1, 0]), true);
    assert_same!(rt; accepts(&rt, &trace, &[2, 3, 0]), false);
    assert_same!(rt; accepts(&rt, &trace, &[2, 3, 0, 1, 4]), false);
}

/// What an operation does to memory.
#[derive(Clone, Copy)]
struct Access {
    hart: u32,
    addr: u32,
    read: Option<u32>,
    written: Option<u32>,
}

fn effect_of(entry: Entry) -> Option<Access> {
    let (hart, addr, read, written) = match entry {
        Entry::Load {
            hart,
            addr,
            value,
            ..
        } => (hart, addr, Some(value), None),
        Entry::Store {
            hart,
            addr,
            value,
            ..
        } => (hart, addr, None, Some(value)),
        Entry::Amo {
            hart,
            addr,
            old,
            new,
        } => (hart, addr, Some(old), Some(new)),
        _ => return None,
    };
    Some(Access {
        hart,
        addr,
        read,
        written,
    })
}

fn orders_hart(entry: Entry, of: u32) -> bool {
    match entry {
        Entry::Amo { hart, .. } => hart == of,
        Entry::Fence { hart, full } => full && hart == of,
        _ => false,
    }
}

fn is_ordered_between(entries: &[Entry], hart: u32, first: usize, second: usize) -> bool {
    for (place, entry) in entries.iter().enumerate() {
        if first < place && place < second && orders_hart(*entry, hart) {
            return true;
        }
    }
    false
}

fn position(order: &[Op], place: usize) -> usize {
    for (index, op) in order.iter().enumerate() {
        if op.place == place {
            return index;
        }
    }
    order.len()
}

fn is_named_right(order: &[Op], place: usize, entry: Entry) -> bool {
    let mut named = 0usize;
    for op in order {
        if op.place == place {
            named = named.saturating_add(1);
        }
    }
    named == if effect_of(entry).is_some() { 1 } else { 0 }
}

/// Whether the operation at `place` comes after all that it must.
fn is_placed_right(entries: &[Entry], order: &[Op], place: usize, later: Access) -> bool {
    for (first, entry) in entries.iter().enumerate() {
        let Some(earlier) = effect_of(*entry) else {
            continue;
        };
        let is_store = earlier.read.is_none();
        let is_load = later.written.is_none();
        let passes = is_store && is_load && !is_ordered_between(entries, later.hart, first, place);
        let kept = first < place && earlier.hart == later.hart && !passes;
        if kept && position(order, first) > position(order, place) {
            return false;
        }
    }
    true
}

/// The value of the latest store that the read at `place` can see; words open as 0.
fn value_for(entries: &[Entry], order: &[Op], place: usize, read: Access) -> u32 {
    let mut latest = 0;
    let mut value = 0;
    for (other, entry) in entries.iter().enumerate() {
        let Some(
            Access {
                hart,
                addr,
                written: Some(written),
                ..
            },
        ) = effect_of(*entry)
        else {
            continue;
        };
        let at = position(order, other);
        let seen = at < position(order, place) || (hart == read.hart && other < place);
        if addr == read.addr && seen && at >= latest {
            latest = at;
            value = written;
        }
    }
    value
}

fn allows(entries: &[Entry], order: &[Op]) -> bool {
    for (place, entry) in entries.iter().enumerate() {
        if !is_named_right(order, place, *entry) {
            return false;
        }
        let Some(here) = effect_of(*entry) else {
            continue;
        };
        if !is_placed_right(entries, order, place, here) {
            return false;
        }
        if let Some(value) = here.read {
            if value_for(entries, order, place, here) != value {
                return false;
            }
        }
    }
    order.iter().all(|op| op.place < entries.len())
}

/// The list of this number among all lists as long as `places` over them.
fn numbered_list(alloc: Global, places: &[usize], number: usize) -> Result<Vec<Op>, AllocError> {
    let base = places.len().max(1);
    let mut rest = number;
    let mut order = Vec::new(alloc);
    for _ in 0..places.len() {
        let place = places.get(rest % base).copied().unwrap_or(0);
        order.push(Op { place })?;
        rest /= base;
    }
    Ok(order)
}

/// How many lists over the operations `check` accepts; each as the plain program does.
fn expect_accepted(
    rt: &(impl Abort + AllocGlobal),
    entries: &[Entry],
    places: &[usize],
    wanted: usize,
) {
    let trace = trace_of(rt.alloc(), entries).expect(rt, "a trace");
    let mut lists = 1usize;
    for _ in 0..places.len() {
        lists = lists.saturating_mul(places.len());
    }
    let mut accepted = 0usize;
    for number in 0..lists {
        let order = numbered_list(rt.alloc(), places, number).expect(rt, "memory");
        let is_accepted = check(&trace, &order);
        assert_same!(rt; is_accepted, allows(entries, &order));
        accepted = accepted.saturating_add(usize::from(is_accepted));
    }
    assert_same!(rt; accepted, wanted);
}

/// Store buffering's loads come each before the other hart's store, in any of six ways.
#[test]
fn lists_of_store_buffering(rt: HostRuntime) {
    expect_accepted(&rt, &both_read_0(), &[0, 1, 2, 3], 6);
}

/// Hart 1's loads come before and between the stores; hart 0's load of its own store anywhere.
#[test]
fn lists_of_own_stores(rt: HostRuntime) {
    expect_accepted(&rt, &own_stores_early(), &[0, 1, 2, 3, 5], 5);
}

/// An AMO's halves are one operation: of two increments one sees the other.
#[test]
fn lists_of_increments(rt: HostRuntime) {
    let both = [amo(0, 0, 0, 1), amo(1, 0, 1, 2), load(0, 0, 1)];
    expect_accepted(&rt, &both, &[0, 1, 2], 1);
    let lost = [amo(0, 0, 0, 1), amo(1, 0, 0, 1)];
    expect_accepted(&rt, &lost, &[0, 1], 0);
}

#[test]
fn a_fence_tso_leaves_store_buffering_allowed(rt: HostRuntime) {
    let tso = Entry::Fence {
        hart: 0,
        full: false,
    };
    let open = [
        store(0, 0, 1),
        tso,
        load(0, 4, 0),
        store(1, 4, 1),
        load(1, 0, 0),
    ];
    expect_accepted(&rt, &open, &[0, 2, 3, 4], 6);
}

#[test]
fn an_amo_and_a_full_fence_forbid_store_buffering(rt: HostRuntime) {
    let closed = [
        store(0, 0, 1),
        amo(0, 8, 0, 1),
        load(0, 4, 0),
        store(1, 4, 1),
        full_fence(1),
        load(1, 0, 0),
    ];
    expect_accepted(&rt, &closed, &[0, 1, 2, 3, 5], 0);
}

#[test]
fn a_flag_does_not_pass_its_message(rt: HostRuntime) {
    let passing = [store(0, 0, 1), store(0, 4, 1), load(1, 4, 1), load(1, 0, 0)];
    expect_accepted(&rt, &passing, &[0, 1, 2, 3], 0);
}

#[test]
fn loads_see_no_later_store(rt: HostRuntime) {
    let buffering = [load(0, 0, 1), store(0, 4, 1), load(1, 4, 1), store(1, 0, 1)];
    expect_accepted(&rt, &buffering, &[0, 1, 2, 3], 0);
}

/// Two harts, whose stores each come last to the word that the other wrote first.
#[test]
fn stores_do_not_cross(rt: HostRuntime) {
    let crossed = [
        amo(0, 0, 2, 1),
        store(0, 4, 2),
        amo(1, 4, 2, 1),
        store(1, 0, 2),
    ];
    expect_accepted(&rt, &crossed, &[0, 1, 2, 3], 0);
}

#[test]
fn two_readers_agree(rt: HostRuntime) {
    let readers = [
        store(0, 0, 1),
        store(1, 4, 1),
        load(2, 0, 1),
        load(2, 4, 0),
        load(3, 4, 1),
        load(3, 0, 0),
    ];
    expect_accepted(&rt, &readers, &[0, 1, 2, 3, 4, 5], 0);
}
