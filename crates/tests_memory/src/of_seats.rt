//! Seats, on a bank that is lent and on one behind the lock.

use crate::given::{INNER, LAND, LOAD, STORE, count_and_store};
use hart_threads::{Gather, Local, Record, Seat, Shared};
use std::alloc::AllocError;
use std::process::Abort;
use std::sync::Wait;
use step_machine::{Bank, Outcome};

type Opened = (Shared<4, 16>, Vec<Seat<16>>);

fn open(rt: &(impl Abort + AllocGlobal)) -> Result<Opened, AllocError> {
    let opening = count_and_store(rt.alloc())?;
    assert!(rt; opening.fits(16));
    Shared::open(rt.alloc(), opening)
}

/// The machine, and the acting and the landing seat of each hart.
fn opened(rt: &(impl Abort + AllocGlobal)) -> Opened {
    let (shared, seats) = again!(rt, open(rt));
    (shared, seats)
}

fn open_bank(rt: &(impl Abort + AllocGlobal)) -> Result<Bank<4, 16>, AllocError> {
    let opening = count_and_store(rt.alloc())?;
    assert!(rt; opening.fits(16));
    Bank::open(rt.alloc(), &opening)
}

fn local(rt: &impl Abort, seat: &mut Seat<16>) -> Local {
    assert!(rt; seat.acts());
    again!(rt, seat.local())
}

fn act_on(rt: &impl Abort, seat: &mut Seat<16>, bank: &mut Bank<4, 16>) -> Outcome {
    assert!(rt; seat.acts());
    again!(rt, seat.act_on(bank))
}

fn land_on(rt: &impl Abort, seat: &mut Seat<16>, bank: &mut Bank<4, 16>) -> Outcome {
    assert!(rt; !seat.acts());
    again!(rt, seat.land_on(bank))
}

fn act(rt: &(impl Abort + Wait), shared: &Shared<4, 16>, seat: &mut Seat<16>) -> Outcome {
    assert!(rt; seat.acts());
    again!(rt, shared.act(rt, seat))
}

fn land(rt: &(impl Abort + Wait), shared: &Shared<4, 16>, seat: &mut Seat<16>) -> Outcome {
    assert!(rt; !seat.acts());
    again!(rt, shared.land(rt, seat))
}

/// Gives all seats up.
fn give_up_all(rt: &impl Abort, mut seats: Vec<Seat<16>>) {
    for _ in 0..seats.len() {
        seats.pop().expect(rt, "a seat").give_up();
    }
    assert!(rt; seats.is_empty());
    seats.destroy_empty();
}

#[test]
fn seats_act_and_land_on_a_bank(rt: HostRuntime) {
    let mut bank = again!(&rt, open_bank(&rt));
    let (_shared, mut seats) = opened(&rt);
    assert!(rt; seats.len() == 4);
    assert!(rt; local(&rt, &mut seats[0]) == Local::Did(INNER));
    assert!(rt; act_on(&rt, &mut seats[0], &mut bank) == Outcome::Did(STORE));
    assert!(rt; land_on(&rt, &mut seats[1], &mut bank) == Outcome::Did(LAND));
    assert!(rt; act_on(&rt, &mut seats[2], &mut bank) == Outcome::Did(LOAD));
    assert!(rt; seats[0].diary() == [INNER, STORE].as_slice());
    give_up_all(&rt, seats);
}

/// What seats do behind the lock. A refused gathering takes them with it.
fn gathered(rt: &(impl Abort + Wait + AllocGlobal)) -> Result<Record<4, 16>, Gather> {
    let (shared, mut seats) = opened(rt);
    assert!(rt; seats.len() == 4);
    assert!(rt; act(rt, &shared, &mut seats[0]) == Outcome::Did(INNER));
    assert!(rt; act(rt, &shared, &mut seats[0]) == Outcome::Did(STORE));
    assert!(rt; land(rt, &shared, &mut seats[1]) == Outcome::Did(LAND));
    assert!(rt; act(rt, &shared, &mut seats[2]) == Outcome::Did(LOAD));
    shared.gather(rt.alloc(), seats)
}

#[test]
fn seats_act_and_land_behind_the_lock(rt: HostRuntime) {
    let record = again!(&rt, gathered(&rt), Gather::NoMemory);
    let wanted = [INNER, STORE, LAND, LOAD];
    assert!(rt; record.trace.entries.as_slice() == wanted.as_slice());
}

/// The hart of which a seat is missing.
fn missing(rt: &(impl Abort + AllocGlobal)) -> Result<u32, Gather> {
    let (shared, mut seats) = opened(rt);
    seats.pop().expect(rt, "a seat").give_up();
    match shared.gather(rt.alloc(), seats) {
        Err(Gather::Missing { hart }) => Ok(hart),
        Err(other) => Err(other),
        Ok(_) => panic!(rt; "no seat is missing"),
    }
}

/// The hart whose seats did something on another machine, and how many memory entries there are.
fn mismatched(rt: &(impl Abort + Wait + AllocGlobal)) -> Result<(u32, usize), Gather> {
    let (shared, own) = opened(rt);
    give_up_all(rt, own);
    let (other, mut seats) = opened(rt);
    assert!(rt; seats.len() == 4);
    assert!(rt; act(rt, &other, &mut seats[0]) == Outcome::Did(INNER));
    assert!(rt; act(rt, &other, &mut seats[0]) == Outcome::Did(STORE));
    match shared.gather(rt.alloc(), seats) {
        Err(Gather::Mismatch { hart, history }) => Ok((hart, history.len())),
        Err(other) => Err(other),
        Ok(_) => panic!(rt; "a record of two machines"),
    }
}

#[test]
fn seats_that_make_no_record_are_named(rt: HostRuntime) {
    assert!(rt; again!(&rt, missing(&rt), Gather::NoMemory) == 1);
    assert!(rt; again!(&rt, mismatched(&rt), Gather::NoMemory) == (0, 0));
}
