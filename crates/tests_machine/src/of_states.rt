//! Positions by number, and machines put back to them; parts by number, and keys of their numbers.

use crate::given::{A0, A1, L0, L1, store_buffering};
use hart::status::Status;
use states::States;
use std::process::Abort;
use step_machine::{Event, MachineState};
use surveys::{Draft, Keys, Layout, Parts};

/// Store buffering at its opening.
fn machine(rt: &(impl Abort + AllocGlobal)) -> MachineState<4, 4096> {
    let opening = store_buffering(rt.alloc()).expect(rt, "an opening");
    assert!(rt; opening.fits(4096));
    MachineState::open(rt.alloc(), &opening).expect(rt, "a machine")
}

fn run(rt: &impl Abort, machine: &mut MachineState<4, 4096>, events: &[Event]) {
    for event in events {
        let _ = machine.step(*event).expect(rt, "memory");
    }
}

#[test]
fn a_position_keeps_its_number_whatever_led_there(rt: HostRuntime) {
    let mut machine = machine(&rt);
    let mut states = States::new(rt.alloc());
    assert_same!(rt; states.len(), 0);
    assert_same!(rt; states.number(&machine).expect(&rt, "memory"), 0);
    run(&rt, &mut machine, &[A0, A1]);
    assert_same!(rt; states.number(&machine).expect(&rt, "memory"), 1);
    machine.restart();
    assert_same!(rt; states.number(&machine).expect(&rt, "memory"), 0);
    run(&rt, &mut machine, &[A1, A0]);
    assert_same!(rt; states.number(&machine).expect(&rt, "memory"), 1);
    run(&rt, &mut machine, &[L0]);
    assert_same!(rt; states.number(&machine).expect(&rt, "memory"), 2);
    assert_same!(rt; states.len(), 3);
}

#[test]
fn a_machine_put_back_goes_on_from_there(rt: HostRuntime) {
    let mut machine = machine(&rt);
    let mut states = States::new(rt.alloc());
    run(&rt, &mut machine, &[A0, A1, L1]);
    let there = states.number(&machine).expect(&rt, "memory");
    let mut words = Vec::new(rt.alloc());
    machine.pack(&mut words).expect(&rt, "memory");
    run(&rt, &mut machine, &[A0, A1, L0]);
    let end = states.number(&machine).expect(&rt, "memory");
    machine.unpack(&words);
    assert_same!(rt; states.number(&machine).expect(&rt, "memory"), there);
    assert!(rt; machine.harts() == 2);
    assert_same!(rt; machine.status(0) == Status::Running, true);
    run(&rt, &mut machine, &[A1, A0, L0]);
    assert_same!(rt; states.number(&machine).expect(&rt, "memory"), end);
}

#[test]
fn words_are_found_by_their_number(rt: HostRuntime) {
    let mut parts = Parts::new(rt.alloc());
    let mut bytes = Vec::new(rt.alloc());
    assert_same!(rt; parts.number(&[7, 300]).expect(&rt, "memory"), 0);
    assert_same!(rt; parts.number(&[300]).expect(&rt, "memory"), 1);
    let known = parts.find(&[300], &mut bytes).expect(&rt, "memory");
    assert_same!(rt; known, Some(1));
    let unknown = parts.find(&[7], &mut bytes).expect(&rt, "memory");
    assert_same!(rt; unknown, None);
}

fn layout(rt: &(impl Abort + AllocGlobal), counts: &[usize]) -> Layout<1> {
    let made = Layout::of(rt.alloc(), counts).expect(rt, "memory");
    made.expect(rt, "room in a word")
}

#[test]
fn a_key_has_the_same_numbers_by_a_wider_layout(rt: HostRuntime) {
    let small = layout(&rt, &[5, 300]);
    let wide = layout(&rt, &[100, 70_000]);
    let mut key = [0];
    small.set(&mut key, 0, 4);
    small.set(&mut key, small.last(), 299);
    let mut keys = Keys::new(rt.alloc(), [0]).expect(&rt, "memory");
    assert_same!(rt; keys.insert(&Draft::new(key)).expect(&rt, "memory"), true);
    assert_same!(rt; keys.insert(&Draft::new(key)).expect(&rt, "memory"), false);
    assert_same!(rt; small.holds(&[100, 300]), false);
    keys.move_to(&small, &wide).expect(&rt, "memory");
    let moved = keys.key(1);
    assert_same!(rt; wide.number(&moved, 0), 4);
    assert_same!(rt; wide.number(&moved, 1), 299);
    assert_same!(rt; keys.find(&Draft::new(moved)), Some(1));
}

#[test]
fn counts_without_room_have_no_layout(rt: HostRuntime) {
    let made = Layout::<1>::of(rt.alloc(), &[1 << 31, 1 << 31, 2]).expect(&rt, "memory");
    assert_same!(rt; made.is_none(), true);
}
