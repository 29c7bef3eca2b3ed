//! Runs with entries and outcomes worked out by hand from the model.

ghost use Rattle.std.specs.Prelude.{◌≤◌};

use crate::given::{A0, A1, L0, L1, ZEROS, amo, land, opening_of, store, store_buffering};
use hart::status::Status;
use std::alloc::{AllocError, Global};
use std::process::Abort;
use step_machine::{Entry, Event, Machine, Opening, Outcome};

/// A machine of 4,096 words at this opening.
fn machine_at<const B: usize>(
    rt: &(impl Abort + AllocGlobal),
    opening: Result<Opening, AllocError>,
) -> Machine<B, 4096>
    requires some { 1 ≤ B }
    requires capacity { B ≤ 64 }
{
    let opening = opening.expect(rt, "an opening");
    assert!(rt; opening.fits(4096));
    Machine::open(rt.alloc(), opening).expect(rt, "a machine")
}

/// Each event has the outcome beside it.
fn expect_outcomes<const B: usize>(
    rt: &impl Abort,
    machine: &mut Machine<B, 4096>,
    steps: &[(Event, Outcome)],
) {
    for (event, outcome) in steps {
        let did = machine.step(*event).expect(rt, "memory");
        assert_same!(rt; (*event, did), (*event, *outcome));
    }
}

/// The machine did this.
fn expect_entries<const B: usize>(
    rt: &(impl Abort + AllocGlobal),
    machine: &Machine<B, 4096>,
    wanted: &[Entry],
) {
    let trace = machine.trace(rt.alloc()).expect(rt, "a trace");
    assert_same!(rt; trace.entries.as_slice(), wanted);
}

#[test]
fn outcomes_tell_why_nothing_is_done(rt: HostRuntime) {
    // sw x5,0(x6) twice
    let code = [0x0053_2023, 0x0053_2023];
    let opening = opening_of(rt.alloc(), &code, &[&[(5, 7)]], &[]);
    let mut machine = machine_at::<1>(&rt, opening);
    let stored = Outcome::Did(store(0, 0, 7));
    let landed = Outcome::Did(land(0));
    let steps = [
        (A0, stored),
        (A0, Outcome::Waited),
        (L0, landed),
        (L0, Outcome::NothingToLand),
        (A0, stored),
        (A0, Outcome::Over),
        (A1, Outcome::NoHart),
        (L1, Outcome::NoHart),
        (L0, landed),
        (L0, Outcome::Over),
    ];
    expect_outcomes(&rt, &mut machine, &steps);
}

#[test]
fn a_restarted_machine_runs_anew(rt: HostRuntime) {
    // sw x5,4(x6); amoadd.w x10,x11,(x6)
    let code = [0x0053_2223, 0x00b3_252f];
    let opening = opening_of(rt.alloc(), &code, &[&[(5, 1), (11, 1)]], &[6, 9]);
    let mut machine = machine_at::<4>(&rt, opening);
    let steps = [
        (A0, Outcome::Did(store(0, 4, 1))),
        (L0, Outcome::Did(land(0))),
        (A0, Outcome::Did(amo(0, 0, 6, 7))),
    ];
    for _ in 0..2 {
        expect_outcomes(&rt, &mut machine, &steps);
        assert_same!(rt; (machine.word(0), machine.word(4)), (7, 1));
        machine.restart();
        assert_same!(rt; (machine.word(0), machine.word(4)), (6, 9));
        expect_entries(&rt, &machine, &[]);
    }
}

#[test]
fn a_restart_drops_pending_stores(rt: HostRuntime) {
    let mut machine = machine_at::<4>(&rt, store_buffering(rt.alloc()));
    machine.step(A0).expect(&rt, "memory");
    assert!(rt; machine.harts() == 2);
    assert_same!(rt; machine.pending(0).len(), 1);
    machine.restart();
    assert_same!(rt; machine.pending(0).len(), 0);
    assert_same!(rt; (machine.pc(0), machine.status(0)), (0, Status::Running));
}

#[test]
fn an_entry_tells_its_event(rt: HostRuntime) {
    let stored = store(3, 0, 7);
    assert_same!(rt; (stored.hart(), stored.event()), (3, Event::Act(3)));
    let landed = land(3);
    assert_same!(rt; (landed.hart(), landed.event()), (3, Event::Land(3)));
    assert_same!(rt; (landed.is_land(), stored.is_land()), (true, false));
}

/// Whether harts with this code and these registers fit a memory of 2 words.
fn fits(
    rt: &(impl Abort + AllocGlobal),
    code: &[u32],
    harts: &[&[(u8, u32)]],
    words: &[u32],
) -> bool {
    let opening = opening_of(rt.alloc(), code, harts, words).expect(rt, "an opening");
    opening.copy(rt.alloc()).expect(rt, "a copy").fits(2)
}

#[test]
fn an_opening_past_the_limits_does_not_fit(rt: HostRuntime) {
    assert_same!(rt; fits(&rt, &[], &[ZEROS; 64], &[0; 2]), true);
    assert_same!(rt; fits(&rt, &[], &[ZEROS; 64], &[0; 3]), false);
    assert_same!(rt; fits(&rt, &[], &[ZEROS; 65], &[0; 2]), false);
    assert_same!(rt; fits(&rt, &[], &[], &[0; 2]), false);
    assert_same!(rt; fits(&rt, &[0; 4097], &[ZEROS; 1], &[0; 2]), false);
}
