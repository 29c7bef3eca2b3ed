//! Machines: `open`, `step`, `run`, `reserve`, `entries`.

use crate::given::{EVENTS, INNER, LAND, LOAD, OUTCOMES, STORE, count_and_store};
use std::alloc::AllocError;
use std::process::Abort;
use step_machine::{Entry, Event, Machine, Outcome};

fn open(rt: &(impl Abort + AllocGlobal)) -> Result<Machine<4, 16>, AllocError> {
    let opening = count_and_store(rt.alloc())?.copy(rt.alloc())?;
    assert!(rt; opening.fits(16));
    Machine::open(rt.alloc(), opening)
}

fn opened(rt: &(impl Abort + AllocGlobal)) -> Machine<4, 16> {
    again!(rt, open(rt))
}

fn step(rt: &impl Abort, machine: &mut Machine<4, 16>, event: Event) -> Outcome {
    again!(rt, machine.step(event))
}

fn reserve(rt: &impl Abort, machine: &mut Machine<4, 16>, n: usize) {
    again!(rt, machine.reserve(n))
}

/// Runs the rest where a run is refused memory in its midst.
fn run(rt: &impl Abort, machine: &mut Machine<4, 16>, events: &[Event]) {
    if let Err((done, _)) = machine.run(events) {
        machine
            .run(&events[done..])
            .expect(rt, "memory for the rest");
    }
}

fn entries(rt: &(impl Abort + AllocGlobal), machine: &Machine<4, 16>) -> Vec<Entry> {
    again!(rt, machine.entries().into_vec(rt.alloc()))
}

/// The machine did the whole run, each event once.
fn did_all(rt: &(impl Abort + AllocGlobal), machine: &Machine<4, 16>) {
    let entries = entries(rt, machine);
    assert!(rt; entries.as_slice() == [INNER, STORE, LAND, LOAD].as_slice());
}

#[test]
fn a_machine_steps(rt: HostRuntime) {
    let mut machine = opened(&rt);
    for (event, outcome) in EVENTS.iter().zip(&OUTCOMES) {
        assert!(rt; step(&rt, &mut machine, *event) == *outcome);
    }
    did_all(&rt, &machine);
}

#[test]
fn a_machine_goes_on_with_a_run(rt: HostRuntime) {
    let mut machine = opened(&rt);
    run(&rt, &mut machine, &EVENTS);
    did_all(&rt, &machine);
}

/// No memory holds the first room. Within the second one no event is refused.
#[test]
fn a_machine_reserves(rt: HostRuntime) {
    let mut machine = opened(&rt);
    assert!(rt; machine.reserve(usize::MAX).is_err());
    reserve(&rt, &mut machine, EVENTS.len());
    assert!(rt; machine.run(&EVENTS).is_ok());
    did_all(&rt, &machine);
}
