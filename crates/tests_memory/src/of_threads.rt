//! Threads of a machine's harts, and of a channel's. A refused run takes its machine and seats with it, so it is made
//! anew.

use crate::given::store_buffering;
use hart::{Report, Status};
use hart_threads::{ChannelFault, Fault, Gate, Open, Record, Shared, deliver_threads, run_harts};
use lamport_ring::Lamport;
use poll_close::Refused;
use recorder::replay;
use std::alloc::{AllocError, Global};
use std::process::Abort;
use std::sync::Wait;
use std::sync::atomic::{AtomicBool, Ordering};
use std::thread;
use std::thread::Threads;
use step_machine::{Event, Machine, Trace};

/// Opens at the second hart's first call for the first one, and the other way round.
#[derive(Drop)]
struct Meeting {
    first: AtomicBool,
    second: AtomicBool,
}

impl Gate for Meeting {
    ghost is_open = { λ _. ⊥ };

    fn pass(&self, hart: u32, call: u32) -> bool {
        if call > 1 {
            return true;
        }
        let (mine, theirs) = if hart == 0 {
            (&self.first, &self.second)
        } else {
            (&self.second, &self.first)
        };
        mine.store(true, Ordering::SeqCst);
        for _ in 0..1_000_000 {
            if theirs.load(Ordering::SeqCst) {
                return true;
            }
            thread::yield_now();
        }
        false
    }
}

/// What two harts do that meet at the gate.
fn met(rt: &(impl Threads + Wait + Sync + Abort + AllocGlobal)) -> Result<Record<4, 16>, Fault> {
    let opening = store_buffering(rt.alloc())?;
    assert!(rt; opening.fits(16));
    let (shared, seats) = Shared::open(rt.alloc(), opening)?;
    let gate = Meeting {
        first: AtomicBool::new(false),
        second: AtomicBool::new(false),
    };
    run_harts(rt, rt.alloc(), shared, seats, &gate, 10_000_000)
}

/// What another machine does by these events.
fn replayed(rt: &(impl Abort + AllocGlobal), events: &[Event]) -> Result<Trace, AllocError> {
    let opening = store_buffering(rt.alloc())?;
    assert!(rt; opening.fits(16));
    replay::<4, 16>(rt.alloc(), opening, events)?.trace(rt.alloc())
}

fn have_ended<const M: usize>(rt: &impl Abort, machine: &Machine<4, M>) {
    assert!(rt; machine.harts() == 2);
    assert!(rt; machine.status(0) == Status::Ended && machine.status(1) == Status::Ended);
}

#[test]
fn two_harts_pass_the_gate(rt: HostRuntime) {
    let record = again!(&rt, met(&rt), Fault::NoMemory | Fault::NoThread);
    have_ended(&rt, &record.machine);
    let again = again!(&rt, replayed(&rt, &record.events));
    assert!(rt; again.entries.as_slice() == record.trace.entries.as_slice());
}

/// One sender's list, of one word.
fn one_word(alloc: Global) -> Result<Vec<Vec<u32>>, AllocError> {
    let mut lists = Vec::new(alloc);
    lists.push(Vec::from_slice(alloc, &[5])?)?;
    Ok(lists)
}

/// What the threads of a channel make of that word.
fn delivered<R: Threads + Wait + Sync + Abort + AllocGlobal>(
    rt: &R,
) -> Result<(Record<4, 4096>, Vec<Report>), ChannelFault> {
    let lists = one_word(rt.alloc())?;
    deliver_threads::<Lamport, 4, 4096, Open, R>(rt, rt.alloc(), &lists, 2, &Open, 1000)
}

/// The sender ends. What the receiver reports depends on the threads.
#[test]
fn threads_deliver(rt: HostRuntime) {
    let (record, reports) = again!(
        &rt,
        delivered(&rt),
        ChannelFault::Lists(Refused::NoMemory)
            | ChannelFault::Threads(Fault::NoMemory | Fault::NoThread)
    );
    let machine = &record.machine;
    assert!(rt; machine.harts() == 2);
    assert!(rt; machine.status(1) == Status::Ended);
    let told = [
        Report::Took { sender: 0, word: 5 },
        Report::Closed { sender: 0 },
    ];
    assert!(rt; told.starts_with(&reports));
}
