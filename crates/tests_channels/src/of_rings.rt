//! Channels over the rings, with what they report worked out apart from the program.

use crate::of_hart_threads::{Thrice, status_of};
use fastforward::FastForward;
use hart::{Report, Status};
use hart_threads::{
    ChannelFault, ChannelFaultAt, Fault, Open, Record, deliver_threads, deliver_threads_at,
};
use lamport_cached::LamportCached;
use lamport_ring::Lamport;
use poll_close::{
    BlockPlace, Channel, Refused, RefusedAt, RingKind, deliver, deliver_at, deliver_whole_at,
    opening_at,
};
use std::alloc::{AllocError, Global};
use std::process::Abort;
use std::sync::Wait;
use std::test::Fail;
use std::thread::Threads;
use step_machine::{Entry, Event};

const A0: Event = Event::Act(0);

const A1: Event = Event::Act(1);

const L0: Event = Event::Land(0);

const L1: Event = Event::Land(1);

/// The events of `steps`, each so often.
fn events_of(alloc: Global, steps: &[(Event, u32)]) -> Result<Vec<Event>, AllocError> {
    let mut events = Vec::new(alloc);
    for (event, times) in steps {
        for _ in 0..*times {
            events.push(*event)?;
        }
    }
    Ok(events)
}

/// The one list of a channel with one sender.
fn one_list(alloc: Global, list: &[u32]) -> Result<Vec<Vec<u32>>, AllocError> {
    let mut lists = Vec::new(alloc);
    lists.push(Vec::from_slice(alloc, list)?)?;
    Ok(lists)
}

/// A channel over these lists.
fn channel_of<K: RingKind>(
    rt: &(impl Abort + AllocGlobal),
    lists: &[Vec<u32>],
    ring: u32,
) -> Channel<K, 4, 4096> {
    Channel::open(rt.alloc(), lists, ring).expect(rt, "a channel")
}

const TOOK: Report = Report::Took { sender: 0, word: 9 };

/// The slot lands before the head, so the receiver's first round finds the ring empty.
#[test]
fn run_and_deliver_report_the_same(rt: HostRuntime) {
    let steps = [(A1, 10), (L1, 1), (A0, 13), (L1, 1), (A0, 16)];
    let events = events_of(rt.alloc(), &steps).expect(&rt, "events");
    let lists = one_list(rt.alloc(), &[9, 9, 9]).expect(&rt, "a list");
    let mut channel = channel_of::<Lamport>(&rt, &lists, 2);
    channel.run(&events).expect(&rt, "memory");
    assert_same!(rt; channel.reports(), [TOOK].as_slice());
    let delivered = deliver::<Lamport, 4, 4096>(rt.alloc(), &lists, 2, &events);
    assert_same!(rt; delivered.expect(&rt, "reports").as_slice(), [TOOK].as_slice());
}

/// `count` words: 0 in the six of a block at word 256, and 7 elsewhere.
fn words_around(alloc: Global, count: u32) -> Result<Vec<u32>, AllocError> {
    let mut words = Vec::new(alloc);
    for index in 0..count {
        if index >= 256 && index < 262 {
            words.push(0)?;
        } else {
            words.push(7)?;
        }
    }
    Ok(words)
}

/// One sender's block is the six words from word 256 on.
const ELSEWHERE: BlockPlace = BlockPlace {
    slots: 2,
    base: 1024,
    stride: Some(64),
};

#[test]
fn a_channel_among_other_words_reports_the_same(rt: HostRuntime) {
    let steps = [(A1, 10), (L1, 1), (A0, 13), (L1, 1), (A0, 16)];
    let events = events_of(rt.alloc(), &steps).expect(&rt, "events");
    let lists = one_list(rt.alloc(), &[9, 9, 9]).expect(&rt, "a list");
    let words = words_around(rt.alloc(), 300).expect(&rt, "words");
    expect_run_among(&rt, &lists, &words, &events);
    let whole = deliver_whole_at::<Lamport, 2, 4096>(
        rt.alloc(),
        &lists,
        ELSEWHERE,
        &words,
        &events,
    );
    let took_all = [TOOK, TOOK, TOOK, Report::Closed { sender: 0 }];
    assert_same!(rt; whole.expect(&rt, "reports").as_slice(), took_all.as_slice());
}

/// A channel among these words that runs these events reports one word, and so does `deliver_at`.
fn expect_run_among(
    rt: &(impl Abort + AllocGlobal),
    lists: &[Vec<u32>],
    words: &[u32],
    events: &[Event],
) {
    let opened = Channel::<Lamport, 2, 4096>::open_at(rt.alloc(), lists, ELSEWHERE, words);
    let mut channel = opened.expect(rt, "a channel");
    channel.run(events).expect(rt, "memory");
    assert_same!(rt; channel.reports(), [TOOK].as_slice());
    let delivered = deliver_at::<Lamport, 2, 4096>(rt.alloc(), lists, ELSEWHERE, words, events);
    assert_same!(rt; delivered.expect(rt, "reports").as_slice(), [TOOK].as_slice());
}

/// The number by which one sender's place is refused over 262 words, or 0.
fn refused_at(rt: &(impl Abort + AllocGlobal), base: u32, stride: u32) -> Result<u8, AllocError> {
    let lists = one_list(rt.alloc(), &[9])?;
    let words = words_around(rt.alloc(), 262)?;
    let place = BlockPlace {
        slots: 2,
        base,
        stride: Some(stride),
    };
    match opening_at::<Lamport>(rt.alloc(), &lists, place, &words, 4096) {
        Ok(_opening) => Ok(0),
        Err(refused) => Ok(refused.number()),
    }
}

/// A block has 24 bytes, and memory 16,384.
#[test]
fn places_are_refused_by_number(rt: HostRuntime) -> Result<(), Fail> {
    let rows = [
        (1024, 24, 0),
        (1024, 15364, 0),
        (16360, 24, 0),
        (1026, 26, 41),
        (1024, 26, 42),
        (1024, 20, 43),
        (16364, 24, 20),
        (1020, 24, 44),
    ];
    for (base, stride, number) in rows {
        assert_same!(rt; refused_at(&rt, base, stride)?, number);
    }
    Ok(())
}

/// How many harts of a channel with one sender end where they act and land in turns.
fn ended_of<K: RingKind>(rt: &(impl Abort + AllocGlobal), list: &[u32], ring: u32) -> usize {
    let lists = one_list(rt.alloc(), list).expect(rt, "a list");
    let mut channel = channel_of::<K>(rt, &lists, ring);
    for _ in 0..400 {
        for event in [A0, A1, L0, L1] {
            channel.step(event).expect(rt, "memory");
        }
    }
    let trace = channel.trace(rt.alloc()).expect(rt, "a trace");
    let ended = trace
        .entries
        .iter()
        .filter(|entry| matches!(entry, Entry::Ended { .. }));
    ended.count()
}

#[test]
fn harts_that_act_and_land_in_turns_end(rt: HostRuntime) {
    assert_same!(rt; ended_of::<Lamport>(&rt, &[2, 3, 4], 3), 2);
    assert_same!(rt; ended_of::<FastForward>(&rt, &[2, 3, 4], 3), 2);
    assert_same!(rt; ended_of::<LamportCached>(&rt, &[2, 3, 4, 5, 6], 3), 2);
}

/// With two slots the sender reads the tail anew for each word except the first.
#[test]
fn a_plan_finishes_a_channel_with_a_cached_tail(rt: HostRuntime) {
    let lists = one_list(rt.alloc(), &[9, 9, 9]).expect(&rt, "a list");
    let words = words_around(rt.alloc(), 300).expect(&rt, "words");
    let whole = deliver_whole_at::<LamportCached, 2, 4096>(
        rt.alloc(),
        &lists,
        ELSEWHERE,
        &words,
        &[],
    );
    let took_all = [TOOK, TOOK, TOOK, Report::Closed { sender: 0 }];
    assert_same!(rt; whole.expect(&rt, "reports").as_slice(), took_all.as_slice());
}

/// What a ring of two slots does with a thread for each hart and each lander. `deliver` reports the same
/// of its events.
fn ran_on_threads<R: Threads + Wait + Sync + Abort + AllocGlobal>(
    rt: &R,
    lists: &[Vec<u32>],
    turns: u32,
) -> Record<4, 4096> {
    let answer = deliver_threads::<Lamport, 4, 4096, Open, R>(
        rt,
        rt.alloc(),
        lists,
        2,
        &Open,
        turns,
    );
    let (record, reports) = answer.expect(rt, "a record");
    let again = deliver::<Lamport, 4, 4096>(rt.alloc(), lists, 2, &record.events);
    assert_same!(rt; reports.as_slice(), again.expect(rt, "reports").as_slice());
    record
}

#[test]
fn threads_deliver_what_their_events_deliver(rt: HostRuntime) {
    let lists = one_list(rt.alloc(), &[5]).expect(&rt, "a list");
    let record = ran_on_threads(&rt, &lists, 1000);
    assert_same!(rt; record.machine.harts(), 2);
    assert_same!(rt; status_of(&rt, &record.machine, 1), Status::Ended);
}

/// The same of a channel that lies among other words.
#[test]
fn threads_deliver_among_other_words(rt: HostRuntime) {
    let lists = one_list(rt.alloc(), &[9]).expect(&rt, "a list");
    let words = words_around(rt.alloc(), 300).expect(&rt, "words");
    let answer = deliver_threads_at::<Lamport, 4, 4096, Open, HostRuntime>(
        &rt,
        rt.alloc(),
        &lists,
        ELSEWHERE,
        &words,
        &Open,
        1000,
    );
    let (record, reports) = answer.expect(&rt, "a record");
    assert_same!(rt; record.machine.harts(), 2);
    assert_same!(rt; status_of(&rt, &record.machine, 1), Status::Ended);
    let events = &record.events;
    let again = deliver_at::<Lamport, 4, 4096>(rt.alloc(), &lists, ELSEWHERE, &words, events);
    assert_same!(rt; reports.as_slice(), again.expect(&rt, "reports").as_slice());
}

/// 128 threads: the most that a channel has.
#[test]
fn sixty_three_senders_deliver_on_threads(rt: HostRuntime) -> Result<(), Fail> {
    let mut lists = Vec::new(rt.alloc());
    for word in 1..64 {
        lists.push(Vec::from_slice(rt.alloc(), &[word, 64, word])?)?;
    }
    assert_same!(rt; ran_on_threads(&rt, &lists, 10_000).machine.harts(), 64);
    Ok(())
}

#[test]
fn a_channels_gate_is_asked_before_each_turn(rt: HostRuntime) {
    let lists = one_list(rt.alloc(), &[5]).expect(&rt, "a list");
    let gate = Thrice::new();
    let answer = deliver_threads::<Lamport, 4, 4096, Thrice, HostRuntime>(
        &rt,
        rt.alloc(),
        &lists,
        2,
        &gate,
        1000,
    );
    let (record, _) = answer.expect(&rt, "a record");
    assert_same!(rt; gate.asked(), (3, 3, true));
    assert_same!(rt; record.trace.entries.len(), 4);
}

#[test]
fn threads_refuse_lists_by_number(rt: HostRuntime) {
    let answer = deliver_threads::<Lamport, 4, 4096, Open, HostRuntime>(
        &rt,
        rt.alloc(),
        &[],
        2,
        &Open,
        1,
    );
    assert_same!(rt; answer.err().map(|fault| fault.number()), Some(17));
}

#[test]
fn refusals_have_their_numbers_and_texts(rt: HostRuntime) -> Result<(), Fail> {
    let zero = Refused::ZeroWord {
        sender: 2,
        place: 5,
    };
    let rows = [
        (Refused::NoMemory, 0, "no memory"),
        (zero, 16, "zero word at sender 2 place 5"),
        (Refused::NoSenders, 17, "no senders"),
        (Refused::TooManySenders, 18, "too many senders"),
        (Refused::RingTooSmall, 19, "ring too small"),
        (Refused::DoesNotFit, 20, "does not fit"),
    ];
    for (refused, number, text) in rows {
        assert_same!(rt; refused.number(), number);
        assert_same!(rt; refused.to_string(rt.alloc())?.as_str(), text);
    }
    Ok(())
}

#[test]
fn refusals_of_places_have_their_numbers_and_texts(rt: HostRuntime) -> Result<(), Fail> {
    let filled = RefusedAt::FilledBlock { word: 5 };
    let rows = [
        (RefusedAt::Lists(Refused::NoMemory), 0, "no memory"),
        (RefusedAt::Lists(Refused::DoesNotFit), 20, "does not fit"),
        (RefusedAt::UnevenBase, 41, "uneven base"),
        (RefusedAt::UnevenStride, 42, "uneven stride"),
        (RefusedAt::BlocksMeet, 43, "blocks meet"),
        (filled, 44, "filled block at word 5"),
    ];
    for (refused, number, text) in rows {
        assert_same!(rt; refused.number(), number);
        assert_same!(rt; refused.to_string(rt.alloc())?.as_str(), text);
    }
    Ok(())
}

/// A channel at a place has the same faults as one without, and those of its place.
#[test]
fn faults_of_channels_on_threads_have_numbers_and_texts(rt: HostRuntime) -> Result<(), Fail> {
    let rows = [
        (ChannelFault::Lists(Refused::NoMemory), 0, "no memory"),
        (ChannelFault::Lists(Refused::NoSenders), 17, "no senders"),
        (ChannelFault::Threads(Fault::NoMemory), 0, "no memory"),
        (ChannelFault::Threads(Fault::NoThread), 35, "no thread"),
    ];
    for (fault, number, text) in rows {
        assert_same!(rt; fault.number(), number);
        assert_same!(rt; fault.to_string(rt.alloc())?.as_str(), text);
        let at_place = ChannelFaultAt::from(fault);
        assert_same!(rt; at_place.number(), number);
        assert_same!(rt; at_place.to_string(rt.alloc())?.as_str(), text);
    }
    let uneven = ChannelFaultAt::Place(RefusedAt::UnevenBase);
    assert_same!(rt; uneven.number(), 41);
    assert_same!(rt; uneven.to_string(rt.alloc())?.as_str(), "uneven base");
    Ok(())
}
