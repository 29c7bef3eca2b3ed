//! Runs on threads and off them, and what is refused.

use hart::Status;
use hart_threads::{Fault, Gate, Gather, Local, Open, Record, Seat, Shared, run_harts};
use std::alloc::{AllocError, Global};
use std::process::Abort;
use std::sync::Wait;
use std::sync::atomic::{AtomicBool, AtomicU32, Ordering};
use std::test::Fail;
use std::thread::Threads;
use step_machine::{Entry, HartOpening, Machine, Opening, Outcome};

/// Store buffering: each hart stores 1 to a word of its own and then loads the other's.
fn store_buffering(alloc: Global) -> Result<Opening, AllocError> {
    let mut harts = Vec::new(alloc);
    for (own, other) in [(0, 4), (4, 0)] {
        let mut registers = [0; 32];
        registers[5] = 1;
        registers[6] = own;
        registers[8] = other;
        harts.push(HartOpening {
            // sw x5,0(x6); lw x7,0(x8)
            code: Vec::from_slice(alloc, &[0x0053_2023, 0x0004_2383])?,
            registers,
            inbox: Vec::new(alloc),
        })?;
    }
    let words = Vec::new(alloc);
    Ok(Opening { harts, words })
}

type Seated = (Shared<4, 16>, Vec<Seat<16>>);

/// A machine at this opening, with its seats.
fn seated(rt: &(impl Abort + AllocGlobal), opening: Opening) -> Seated {
    assert!(rt; opening.fits(16));
    Shared::open(rt.alloc(), opening).expect(rt, "memory")
}

/// A machine for store buffering, with its seats.
fn shared(rt: &(impl Abort + AllocGlobal)) -> Seated {
    seated(rt, store_buffering(rt.alloc()).expect(rt, "memory"))
}

/// What threads make of a machine.
fn ran<G: Gate + Sync>(
    rt: &(impl Threads + Wait + Sync + Abort + AllocGlobal),
    (machine, seats): Seated,
    gate: &G,
    turns: u32,
) -> Result<Record<4, 16>, Fault> {
    run_harts(rt, rt.alloc(), machine, seats, gate, turns)
}

/// What seats did.
fn gathered(rt: &(impl Abort + AllocGlobal), (machine, seats): Seated) -> Record<4, 16> {
    machine.gather(rt.alloc(), seats).expect(rt, "a record")
}

/// The hart that is named where seats are missing.
fn missing(rt: &(impl Abort + AllocGlobal), (machine, seats): Seated) -> u32 {
    match machine.gather(rt.alloc(), seats) {
        Err(Gather::Missing { hart }) => hart,
        _ => panic!(rt; "no seat is missing"),
    }
}

/// The hart whose diary is no part of the history that is put together, and that history's length.
fn mismatch(rt: &(impl Abort + AllocGlobal), (machine, seats): Seated) -> (u32, usize) {
    match machine.gather(rt.alloc(), seats) {
        Err(Gather::Mismatch { hart, history }) => (hart, history.len()),
        _ => panic!(rt; "a record of two machines"),
    }
}

/// The status of a hart, which there is.
pub(crate) fn status_of<const B: usize, const M: usize>(
    rt: &impl Abort,
    machine: &Machine<B, M>,
    hart: u32,
) -> Status {
    assert!(rt; hart < machine.harts());
    machine.status(hart)
}

/// Gives all seats up.
fn give_up_all(rt: &impl Abort, mut seats: Vec<Seat<16>>) {
    for _ in 0..seats.len() {
        seats.pop().expect(rt, "a seat").give_up();
    }
    assert!(rt; seats.is_empty());
    seats.destroy_empty();
}

/// All seats but the last one.
fn without_last(rt: &impl Abort, mut seats: Vec<Seat<16>>) -> Vec<Seat<16>> {
    seats.pop().expect(rt, "a seat").give_up();
    seats
}

/// The seat at this place, without which the others stay.
fn taken(rt: &impl Abort, seats: &mut Vec<Seat<16>>, place: usize) -> Seat<16> {
    assert!(rt; place < seats.len());
    seats.remove(place)
}

/// Another machine that runs the record's events does what the record says.
fn is_replayed(rt: &(impl Abort + AllocGlobal), record: &Record<4, 16>) {
    let opening = store_buffering(rt.alloc()).expect(rt, "memory");
    assert!(rt; opening.fits(16));
    let mut machine = Machine::<4, 16>::open(rt.alloc(), opening).expect(rt, "memory");
    machine.run(&record.events).expect(rt, "memory");
    holds_trace(rt, &machine, record);
    holds_trace(rt, &record.machine, record);
}

/// The machine did what the record says.
fn holds_trace(rt: &(impl Abort + AllocGlobal), machine: &Machine<4, 16>, record: &Record<4, 16>) {
    let held = machine.trace(rt.alloc()).expect(rt, "memory");
    assert_same!(rt; held.entries.as_slice(), record.trace.entries.as_slice());
}

/// What the acting seat at this place does.
fn act_at(
    rt: &(impl Abort + Wait),
    machine: &Shared<4, 16>,
    seats: &mut Vec<Seat<16>>,
    place: usize,
) -> Outcome {
    assert!(rt; place < seats.len());
    let acting = &mut seats[place];
    assert!(rt; acting.acts());
    machine.act(rt, acting).expect(rt, "memory")
}

/// What the landing seat at this place does.
fn land_at(
    rt: &(impl Abort + Wait),
    machine: &Shared<4, 16>,
    seats: &mut Vec<Seat<16>>,
    place: usize,
) -> Outcome {
    assert!(rt; place < seats.len());
    let landing = &mut seats[place];
    assert!(rt; !landing.acts());
    machine.land(rt, landing).expect(rt, "memory")
}

/// What the acting seat at this place does without the lock.
fn local_at(rt: &impl Abort, seats: &mut Vec<Seat<16>>, place: usize) -> Local {
    assert!(rt; place < seats.len());
    let acting = &mut seats[place];
    assert!(rt; acting.acts());
    acting.local().expect(rt, "memory")
}

const INNER: Entry = Entry::Inner { hart: 0 };

const LAND: Entry = Entry::Land { hart: 0 };

/// The first hart's store, at address 0.
fn store(value: u32) -> Entry {
    Entry::Store {
        hart: 0,
        addr: 0,
        width: 4,
        value,
    }
}

/// A load at address 0.
fn load(hart: u32, value: u32) -> Entry {
    Entry::Load {
        hart,
        addr: 0,
        width: 4,
        value,
    }
}

#[test]
fn what_seats_do_is_gathered(rt: HostRuntime) {
    let (machine, mut seats) = shared(&rt);
    assert_same!(rt; seats.len(), 4);
    assert_same!(rt; act_at(&rt, &machine, &mut seats, 0), Outcome::Did(store(1)));
    assert_same!(rt; land_at(&rt, &machine, &mut seats, 1), Outcome::Did(LAND));
    let record = gathered(&rt, (machine, seats));
    assert_same!(rt; record.trace.entries.as_slice(), [store(1), LAND].as_slice());
    is_replayed(&rt, &record);
}

/// The first hart counts and stores, the second loads that word.
fn count_and_store(alloc: Global) -> Result<Opening, AllocError> {
    let mut harts = Vec::new(alloc);
    // addi x5,x0,1; sw x5,0(x6) and lw x7,0(x6)
    let first = Vec::from_slice(alloc, &[0x0010_0293, 0x0053_2023])?;
    let second = Vec::from_slice(alloc, &[0x0003_2383])?;
    for code in [first, second] {
        harts.push(HartOpening {
            code,
            registers: [0; 32],
            inbox: Vec::new(alloc),
        })?;
    }
    let words = Vec::new(alloc);
    Ok(Opening { harts, words })
}

#[test]
fn work_without_the_lock_is_put_back(rt: HostRuntime) {
    let opening = count_and_store(rt.alloc()).expect(&rt, "memory");
    let (shared, mut seats) = seated(&rt, opening);
    assert_same!(rt; seats.len(), 4);
    assert_same!(rt; local_at(&rt, &mut seats, 0), Local::Did(INNER));
    assert_same!(rt; local_at(&rt, &mut seats, 2), Local::NeedsMemory);
    assert_same!(rt; act_at(&rt, &shared, &mut seats, 2), Outcome::Did(load(1, 0)));
    assert_same!(rt; act_at(&rt, &shared, &mut seats, 0), Outcome::Did(store(1)));
    let record = gathered(&rt, (shared, seats));
    assert_same!(rt; record.trace.entries.as_slice(), [load(1, 0), INNER, store(1)].as_slice());
    holds_trace(&rt, &record.machine, &record);
}

/// One hart, with 7 in x5, the address 0 in x6 and this code.
fn one_hart(rt: &(impl Abort + AllocGlobal), code: &[u32]) -> Seated {
    let mut registers = [0; 32];
    registers[5] = 7;
    let mut harts = Vec::new(rt.alloc());
    let code = Vec::from_slice(rt.alloc(), code).expect(rt, "memory");
    let inbox = Vec::new(rt.alloc());
    let hart = HartOpening {
        code,
        registers,
        inbox,
    };
    harts.push(hart).expect(rt, "memory");
    let words = Vec::new(rt.alloc());
    seated(rt, Opening { harts, words })
}

#[test]
fn a_lander_is_over_once_its_hart_has_ended(rt: HostRuntime) {
    // sw x5,0(x6)
    let (shared, mut seats) = one_hart(&rt, &[0x0053_2023]);
    assert_same!(rt; seats.len(), 2);
    assert_same!(rt; act_at(&rt, &shared, &mut seats, 0), Outcome::Did(store(7)));
    assert_same!(rt; land_at(&rt, &shared, &mut seats, 1), Outcome::Did(LAND));
    assert_same!(rt; land_at(&rt, &shared, &mut seats, 1), Outcome::Over);
    let record = gathered(&rt, (shared, seats));
    assert_same!(rt; record.trace.entries.as_slice(), [store(7), LAND].as_slice());
    assert_same!(rt; record.machine.word(0), 7);
}

#[test]
fn a_hart_loads_what_it_stored(rt: HostRuntime) {
    // sw x5,0(x6); lw x7,0(x6)
    let code = [0x0053_2023, 0x0003_2383];
    let record = ran(&rt, one_hart(&rt, &code), &Open, 1000).expect(&rt, "a record");
    assert!(rt; record.machine.harts() == 1);
    assert_same!(rt;
        (record.machine.status(0), record.machine.register(0, 7)),
        (Status::Ended, 7)
    );
}

#[test]
fn a_fence_waits_for_the_landers_thread(rt: HostRuntime) {
    // sw x5,0(x6); fence rw,rw; lw x7,0(x6)
    let code = [0x0053_2023, 0x0330_000f, 0x0003_2383];
    let record = ran(&rt, one_hart(&rt, &code), &Open, 10_000_000).expect(&rt, "a record");
    let fence = Entry::Fence {
        hart: 0,
        full: true,
    };
    assert_same!(rt;
        record.trace.entries.as_slice(),
        [store(7), LAND, fence, load(0, 7)].as_slice()
    );
    assert_same!(rt; record.machine.harts(), 1);
    assert_same!(rt; status_of(&rt, &record.machine, 0), Status::Ended);
    assert_same!(rt; record.machine.word(0), 7);
}

/// Closes at each hart's third call, and says whether a call came out of turn.
#[derive(Drop)]
pub(crate) struct Thrice {
    first: AtomicU32,
    others: AtomicU32,
    out_of_turn: AtomicBool,
}

impl Thrice {
    pub(crate) fn new() -> Thrice {
        Thrice {
            first: AtomicU32::new(0),
            others: AtomicU32::new(0),
            out_of_turn: AtomicBool::new(false),
        }
    }

    /// How often the two harts asked, and whether each asked by 1, 2 and so on.
    pub(crate) fn asked(&self) -> (u32, u32, bool) {
        (
            self.first.load(Ordering::SeqCst),
            self.others.load(Ordering::SeqCst),
            !self.out_of_turn.load(Ordering::SeqCst),
        )
    }
}

impl Gate for Thrice {
    ghost is_open = { λ _. ⊥ };

    fn pass(&self, hart: u32, call: u32) -> bool {
        let calls = if hart == 0 { &self.first } else { &self.others };
        let before = calls.load(Ordering::SeqCst);
        if call != before.wrapping_add(1) {
            self.out_of_turn.store(true, Ordering::SeqCst);
        }
        calls.store(call, Ordering::SeqCst);
        call < 3
    }
}

#[test]
fn a_gate_is_asked_before_each_turn(rt: HostRuntime) {
    // here: jal x0,here
    let gate = Thrice::new();
    let record = ran(&rt, one_hart(&rt, &[0x0000_006f]), &gate, 10).expect(&rt, "a record");
    assert_same!(rt; record.trace.entries.as_slice(), [INNER, INNER].as_slice());
    assert_same!(rt; gate.asked(), (3, 0, true));
}

#[test]
fn a_seat_is_missing_where_there_is_none(rt: HostRuntime) {
    let (machine, seats) = shared(&rt);
    give_up_all(&rt, seats);
    assert_same!(rt; missing(&rt, (machine, Vec::new(rt.alloc()))), 0);
    let (machine, seats) = shared(&rt);
    let seats = without_last(&rt, without_last(&rt, seats));
    assert_same!(rt; missing(&rt, (machine, seats)), 1);
}

#[test]
fn a_missing_seat_is_named(rt: HostRuntime) {
    let (machine, seats) = shared(&rt);
    assert_same!(rt; missing(&rt, (machine, without_last(&rt, seats))), 1);
}

#[test]
fn a_seat_too_many_is_named(rt: HostRuntime) {
    let (machine, mut seats) = shared(&rt);
    let (_other, mut others) = shared(&rt);
    let stranger = others.pop().expect(&rt, "a seat");
    give_up_all(&rt, others);
    seats.push(stranger).expect(&rt, "memory");
    assert_same!(rt; missing(&rt, (machine, seats)), 1);
}

/// A hart's acting seat and its landing one stand side by side.
#[test]
fn of_two_missing_seats_the_least_hart_is_named(rt: HostRuntime) {
    for (first, second, least) in [
        (0, 1, 0),
        (0, 2, 0),
        (0, 3, 0),
        (1, 2, 0),
        (1, 3, 0),
        (2, 3, 1),
    ] {
        let (machine, mut seats) = shared(&rt);
        taken(&rt, &mut seats, second).give_up();
        taken(&rt, &mut seats, first).give_up();
        assert_same!(rt; missing(&rt, (machine, seats)), least);
    }
}

#[test]
fn two_acting_seats_of_a_hart_are_too_many(rt: HostRuntime) {
    let (machine, mut seats) = shared(&rt);
    let (_other, mut others) = shared(&rt);
    assert_same!(rt; (seats.len(), others.len()), (4, 4));
    let stranger = taken(&rt, &mut others, 2);
    assert_same!(rt; (stranger.acts(), stranger.hart()), (true, 1));
    give_up_all(&rt, others);
    taken(&rt, &mut seats, 3).give_up();
    seats.push(stranger).expect(&rt, "memory");
    assert_same!(rt; missing(&rt, (machine, seats)), 1);
}

#[test]
fn work_of_other_code_is_no_path(rt: HostRuntime) {
    let (machine, own) = shared(&rt);
    give_up_all(&rt, own);
    let opening = count_and_store(rt.alloc()).expect(&rt, "memory");
    let (_other, mut seats) = seated(&rt, opening);
    assert_same!(rt; seats.len(), 4);
    assert_same!(rt; local_at(&rt, &mut seats, 0), Local::Did(INNER));
    // no diary has a memory entry, and neither has the bank
    assert_same!(rt; mismatch(&rt, (machine, seats)), (0, 0));
}

#[test]
fn seats_that_did_nothing_serve_another_machine(rt: HostRuntime) {
    let (machine, own) = shared(&rt);
    give_up_all(&rt, own);
    let (_other, seats) = shared(&rt);
    let record = gathered(&rt, (machine, seats));
    assert_same!(rt; (record.events.len(), record.trace.entries.len()), (0, 0));
    assert_same!(rt; record.machine.harts(), 2);
    assert_same!(rt; status_of(&rt, &record.machine, 0), Status::Running);
    assert_same!(rt; status_of(&rt, &record.machine, 1), Status::Running);
}

#[test]
fn no_thread_starts_where_a_seat_is_missing(rt: HostRuntime) {
    let (machine, seats) = shared(&rt);
    let answer = ran(&rt, (machine, without_last(&rt, seats)), &Open, 10);
    assert!(rt; matches!(answer, Err(Fault::Missing { hart: 1 })));
}

#[test]
fn seats_of_another_machine_are_no_part(rt: HostRuntime) {
    let (machine, own) = shared(&rt);
    give_up_all(&rt, own);
    let (other, mut seats) = shared(&rt);
    act_at(&rt, &other, &mut seats, 0);
    land_at(&rt, &other, &mut seats, 1);
    assert_same!(rt; mismatch(&rt, (machine, seats)), (0, 0));
}

#[test]
fn faults_have_numbers_and_texts(rt: HostRuntime) -> Result<(), Fail> {
    let history = Vec::new(rt.alloc());
    let gathered = [
        (Gather::NoMemory, 0, "no memory"),
        (
            Gather::Mismatch { hart: 2, history },
            32,
            "a diary of hart 2 is not its part of the history",
        ),
        (
            Gather::Missing { hart: 1 },
            33,
            "the seats of hart 1 are missing, or there are too many",
        ),
    ];
    for (why, number, text) in gathered {
        assert_same!(rt; why.to_string(rt.alloc())?.as_str(), text);
        let fault = Fault::from(why);
        assert_same!(rt; fault.number(), number);
        assert_same!(rt; fault.to_string(rt.alloc())?.as_str(), text);
    }
    let fault = Fault::NoThread;
    assert_same!(rt; fault.number(), 35);
    assert_same!(rt; fault.to_string(rt.alloc())?.as_str(), "no thread");
    Ok(())
}
