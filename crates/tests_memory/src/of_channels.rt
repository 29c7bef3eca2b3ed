//! Channels: `open`, `step`, `reserve`.

use crate::given::{A0, A1, L1};
use hart::Report;
use lamport_ring::Lamport;
use poll_close::{Channel, Refused};
use std::alloc::Global;
use std::process::Abort;
use step_machine::{Event, Outcome};

type Ring = Channel<Lamport, 2, 4096>;

/// A channel with one sender, who has the word 9.
fn open(alloc: Global) -> Result<Ring, Refused> {
    let mut lists = Vec::new(alloc);
    lists.push(Vec::from_slice(alloc, &[9])?)?;
    Channel::open(alloc, &lists, 2)
}

fn opened(rt: &(impl Abort + AllocGlobal)) -> Ring {
    again!(rt, open(rt.alloc()), Refused::NoMemory)
}

fn step(rt: &impl Abort, channel: &mut Ring, event: Event) -> Outcome {
    again!(rt, channel.step(event))
}

fn reserve(rt: &impl Abort, channel: &mut Ring, n: usize) {
    again!(rt, channel.reserve(n))
}

/// The sender puts its word and it lands, the receiver takes it, the place is free and it reports the word.
const TAKING: [(Event, u32); 5] = [(A1, 10), (L1, 1), (A0, 13), (L1, 1), (A0, 16)];

/// How many events that is.
const ALL: usize = 41;

fn take_all(rt: &impl Abort, channel: &mut Ring) {
    for (event, times) in &TAKING {
        for _ in 0..*times {
            step(rt, channel, *event);
        }
    }
}

/// The receiver reported the word, once.
fn took_it(rt: &impl Abort, channel: &Ring) {
    let took = [Report::Took { sender: 0, word: 9 }];
    assert!(rt; channel.reports() == took.as_slice());
}

#[test]
fn a_channel_steps(rt: HostRuntime) {
    let mut channel = opened(&rt);
    take_all(&rt, &mut channel);
    took_it(&rt, &channel);
}

/// No memory holds the first room.
#[test]
fn a_channel_reserves(rt: HostRuntime) {
    let mut channel = opened(&rt);
    assert!(rt; channel.reserve(usize::MAX).is_err());
    reserve(&rt, &mut channel, ALL);
    take_all(&rt, &mut channel);
    took_it(&rt, &channel);
}
