//! The crate `ownership_runs`.

use crate::given::{NoProgress, amo, load, store};
use drawn_runs::{Draw, Runs, Sample};
use judged_runs::Told;
use litmus::Test;
use ownership_runs::{
    Counts, Loss, Moved, Owned, Violation, check_losses, check_runs, first_violation,
};
use queue_layouts::{AnyQueue, Codec, Queue, TaggedQueue};
use rand_core::SeedableRng;
use rand_pcg::Pcg32;
use std::alloc::{AllocError, Global};
use std::thread::Threads;
use step_machine::Entry;

/// Three of four slots may be in use at once, since an index is the number of a slot.
const RECORDS: Queue = Queue {
    sender: 0,
    receiver: 1,
    head: 0,
    tail: 64,
    index_width: 4,
    slots: 128,
    size: 4,
    width: 8,
    capacity: 3,
    base: 0,
    scale: 1,
    offset: 0,
    modulus: 4,
};

/// Of each slot the first word is the tag.
const NUMBERED: TaggedQueue = TaggedQueue {
    sender: 0,
    receiver: 1,
    slots: 128,
    size: 4,
    width: 8,
    tags: 128,
    tag_stride: 8,
    tag_offset: 0,
    tag_width: 4,
    codec: Codec::Number,
};

/// The tags lie in an array after the slots, each in the second word of an element of three.
const TAGS_APART: TaggedQueue = TaggedQueue {
    tags: 192,
    tag_stride: 12,
    tag_offset: 4,
    ..NUMBERED
};

fn counts(published: u64, taken: u64) -> Counts {
    Counts {
        published,
        taken,
        known_taken: taken,
        known_published: published,
    }
}

fn stored(hart: u32, addr: u32, width: u32, value: u32) -> Entry {
    Entry::Store {
        hart,
        addr,
        width,
        value,
    }
}

fn violation(
    place: usize,
    hart: u32,
    addr: u32,
    value: u32,
    owned: Option<(u128, u128)>,
    described: bool,
) -> Violation {
    Violation {
        place,
        hart,
        addr,
        width: 4,
        value,
        owned: owned.map(|(from, end)| Owned { from, end }),
        described,
    }
}

#[test]
fn runs_that_keep_ownership_have_no_violation(rt: HostRuntime) {
    let sent_and_taken = [
        store(0, 128, 7),
        stored(0, 132, 2, 8),
        store(0, 0, 1),
        load(1, 0, 1),
        load(1, 128, 7),
        stored(1, 135, 1, 9),
        store(1, 64, 1),
        store(2, 200, 1),
    ];
    // one position further, the fourth slot is owned and the first one isn't any more
    let round = [store(0, 152, 7), store(0, 0, 0)];
    let same_word = [amo(1, 0, 2, 2), store(1, 64, 2)];
    for (start, entries) in [
        (counts(0, 0), &sent_and_taken as &[Entry]),
        (counts(1, 1), &round as &[Entry]),
        (counts(0, 0), &same_word as &[Entry]),
    ] {
        let queue = AnyQueue::Indexed(RECORDS);
        assert_same!(rt; first_violation(&queue, start, entries) == None, true);
    }
}

#[test]
fn the_first_violation_says_what_was_owned(rt: HostRuntime) {
    let rows = [
        (
            [store(0, 128, 7), store(1, 64, 1)],
            violation(1, 1, 64, 1, Some((0, 0)), true),
        ),
        (
            [store(0, 152, 7), store(0, 152, 8)],
            violation(0, 0, 152, 7, Some((0, 3)), true),
        ),
        (
            [store(0, 0, 1), store(0, 128, 7)],
            violation(1, 0, 128, 7, Some((1, 3)), true),
        ),
        (
            [amo(1, 0, 2, 1), store(1, 64, 2)],
            violation(0, 1, 0, 1, Some((0, 2)), false),
        ),
        (
            [store(2, 200, 1), store(2, 156, 1)],
            violation(1, 2, 156, 1, None, false),
        ),
    ];
    for (entries, wanted) in rows {
        let queue = AnyQueue::Indexed(RECORDS);
        assert_same!(rt; first_violation(&queue, counts(0, 0), &entries) == Some(wanted), true);
    }
}

#[test]
fn slots_with_tags_are_stored_to_by_whom_they_tell(rt: HostRuntime) {
    let queue = AnyQueue::Tagged(NUMBERED);
    let sent_and_taken = [
        store(0, 132, 7),
        store(0, 128, 1),
        load(1, 128, 1),
        stored(1, 135, 1, 9),
        store(1, 128, 4),
        load(0, 128, 4),
        store(2, 200, 1),
    ];
    assert_same!(rt; first_violation(&queue, counts(0, 0), &sent_and_taken) == None, true);
    // the receiver hasn't looked at the tag, or hands nothing over by its AMO, which has
    let rows = [
        (
            [store(0, 128, 1), store(1, 128, 4)],
            violation(1, 1, 128, 4, Some((0, 0)), true),
        ),
        (
            [store(0, 128, 1), amo(1, 128, 1, 1)],
            violation(1, 1, 128, 1, Some((0, 1)), false),
        ),
    ];
    for (entries, wanted) in rows {
        assert_same!(rt; first_violation(&queue, counts(0, 0), &entries) == Some(wanted), true);
    }
}

#[test]
fn slots_whose_tags_lie_apart_are_filled_whole(rt: HostRuntime) {
    let queue = AnyQueue::Tagged(TAGS_APART);
    let sent_and_taken = [
        store(0, 128, 7),
        store(0, 132, 8),
        store(0, 196, 1),
        load(1, 196, 1),
        stored(1, 135, 1, 9),
        store(1, 196, 4),
        load(0, 196, 4),
        store(0, 136, 7),
        store(0, 208, 2),
        store(2, 188, 1),
        store(2, 240, 1),
    ];
    assert_same!(rt; first_violation(&queue, counts(0, 0), &sent_and_taken) == None, true);
    // the receiver hasn't looked at the tag, which a load of the slot doesn't show either; the rest of an element is no one's
    let rows = [
        (
            [store(0, 196, 1), store(1, 128, 9)],
            violation(1, 1, 128, 9, Some((0, 0)), true),
        ),
        (
            [load(1, 128, 1), store(1, 196, 4)],
            violation(1, 1, 196, 4, Some((0, 0)), true),
        ),
        (
            [store(0, 196, 1), store(0, 128, 7)],
            violation(1, 0, 128, 7, Some((1, 4)), true),
        ),
        (
            [store(0, 208, 2), store(0, 196, 1)],
            violation(0, 0, 208, 2, Some((0, 4)), false),
        ),
        (
            [store(0, 128, 7), store(0, 192, 1)],
            violation(1, 0, 192, 1, Some((0, 4)), false),
        ),
        (
            [store(2, 240, 1), store(2, 236, 1)],
            violation(1, 2, 236, 1, None, false),
        ),
    ];
    for (entries, wanted) in rows {
        assert_same!(rt; first_violation(&queue, counts(0, 0), &entries) == Some(wanted), true);
    }
}

/// Hart 0 fills the slot at 12 by its third instruction, or publishes it by its second one; hart 1 takes it once it is published.
const FILLED_FIRST: &str = "RISCV filled first
{
int none; int head; int tail; int slot;
}
 P0            | P1               ;
 addi x5,x0,1  | L0: lw x6,4(x0)  ;
 sw x5,12(x0)  | beq x6,x0,L0     ;
 sw x5,4(x0)   | sw x6,8(x0)      ;
exists (1:x6=1)
";

const PUBLISHED_FIRST: &str = "RISCV published first
{
int none; int head; int tail; int slot;
}
 P0            | P1               ;
 addi x5,x0,1  | L0: lw x6,4(x0)  ;
 sw x5,4(x0)   | beq x6,x0,L0     ;
 sw x5,12(x0)  | sw x6,8(x0)      ;
exists (1:x6=1)
";

const WORDS: Queue = Queue {
    head: 4,
    tail: 8,
    slots: 12,
    size: 1,
    width: 4,
    capacity: 1,
    modulus: 4_294_967_296,
    ..RECORDS
};

fn told<T: Threads + Sync>(
    rt: &T,
    alloc: Global,
    test: &Test,
    draw: Draw,
) -> Result<Told<Moved, Violation>, AllocError> {
    let generator = Pcg32::seed_from_u64(1);
    let sample = Sample {
        draw,
        generator: &generator,
        runs: Runs {
            skip: 3,
            number: 20,
            length: 400,
            jobs: 2,
        },
    };
    let opening = test.opening(alloc)?;
    check_runs::<4, 1024, _, _, _>(
        rt,
        alloc,
        &opening,
        &AnyQueue::Indexed(WORDS),
        counts(0, 0),
        &sample,
        &mut NoProgress,
    )
}

#[test]
fn drawn_runs_that_keep_ownership_are_counted(rt: HostRuntime) {
    let test = litmus_reader::read(rt.alloc(), FILLED_FIRST).expect(&rt, "a test");
    // drawn by itself, each event lets each hart act often enough; in bursts a run may not come to the second hart
    for (draw, least) in [(Draw::Uniform, 20), (Draw::Bursts, 1)] {
        match told(&rt, rt.alloc(), &test, draw).expect(&rt, "an answer") {
            Told::Good(moved) => {
                assert_same!(rt; least <= moved.taken, true);
                assert_same!(rt; moved.taken <= moved.published && moved.published <= 20, true);
            }
            Told::Flawed { .. } => assert_same!(rt; true, false),
        }
    }
}

#[test]
fn a_violation_is_shown_by_the_events_that_it_needs(rt: HostRuntime) {
    let test = litmus_reader::read(rt.alloc(), PUBLISHED_FIRST).expect(&rt, "a test");
    for draw in [Draw::Uniform, Draw::Bursts] {
        match told(&rt, rt.alloc(), &test, draw).expect(&rt, "an answer") {
            Told::Good(_) => assert_same!(rt; true, false),
            Told::Flawed { part, flaw } => {
                assert_same!(rt; part.len(), 3);
                assert_same!(rt; flaw == violation(2, 0, 12, 1, Some((1, 1)), true), true);
            }
        }
    }
}

/// As above, but hart 1 loads what it takes.
const LOADED: &str = "RISCV loaded
{
int none; int head; int tail; int slot;
}
 P0            | P1               ;
 addi x5,x0,1  | L0: lw x6,4(x0)  ;
 addi x7,x0,9  | beq x6,x0,L0     ;
 sw x7,12(x0)  | lw x8,12(x0)     ;
 sw x5,4(x0)   | sw x6,8(x0)      ;
exists (1:x6=1)
";

const LOADED_TOO_LATE: &str = "RISCV loaded too late
{
int none; int head; int tail; int slot;
}
 P0            | P1               ;
 addi x5,x0,1  | L0: lw x6,4(x0)  ;
 addi x7,x0,9  | beq x6,x0,L0     ;
 sw x5,4(x0)   | lw x8,12(x0)     ;
 sw x7,12(x0)  | sw x6,8(x0)      ;
exists (1:x6=1)
";

fn lost<T: Threads + Sync>(
    rt: &T,
    alloc: Global,
    test: &Test,
    draw: Draw,
) -> Result<Told<(), Loss>, AllocError> {
    let generator = Pcg32::seed_from_u64(1);
    let sample = Sample {
        draw,
        generator: &generator,
        runs: Runs {
            skip: 3,
            number: 20,
            length: 400,
            jobs: 2,
        },
    };
    let opening = test.opening(alloc)?;
    check_losses::<4, 1024, _, _, _>(
        rt,
        alloc,
        &opening,
        &AnyQueue::Indexed(WORDS),
        counts(0, 0),
        false,
        &sample,
        &mut NoProgress,
    )
}

#[test]
fn drawn_runs_that_deliver_lose_nothing(rt: HostRuntime) {
    let test = litmus_reader::read(rt.alloc(), LOADED).expect(&rt, "a test");
    for draw in [Draw::Uniform, Draw::Bursts] {
        match lost(&rt, rt.alloc(), &test, draw).expect(&rt, "an answer") {
            Told::Good(_) => {}
            Told::Flawed { .. } => assert_same!(rt; true, false),
        }
    }
}

/// Hart 0 publishes the slot before it fills it, and hart 1 loads what is filled in later.
#[test]
fn a_loss_is_shown_by_the_events_that_it_needs(rt: HostRuntime) {
    let test = litmus_reader::read(rt.alloc(), LOADED_TOO_LATE).expect(&rt, "a test");
    match lost(&rt, rt.alloc(), &test, Draw::Uniform).expect(&rt, "an answer") {
        Told::Good(_) => assert_same!(rt; true, false),
        Told::Flawed { part, flaw } => {
            let wanted = Loss {
                place: 8,
                hart: 1,
                addr: 12,
                width: 4,
                value: 9,
                position: 0,
                byte: 12,
                sent: 0,
            };
            assert_same!(rt; part.len(), 9);
            assert_same!(rt; flaw == wanted, true);
        }
    }
}
