use crate::given::{BOTH_READ_0, both_read_0, store_buffering};
use rand_core::Rng;
use rand_pcg::Pcg32;
use recorder::{
    AtByte, ScheduleError, ScheduleFault, push_tokens_of, read_schedule, read_tokens, replay,
    seeded, write_schedule,
};
use std::test::Fail;
use step_machine::Event;
use texts::Numbered;

/// The words are those that PCG's own demonstration prints.
#[test]
fn words_draw_events(rt: HostRuntime) {
    let mut generator = Pcg32::new(42, 54);
    // 0xa15c02b7, 0x7b47f409, 0xba1d3330, 0x83d2f293
    let events = seeded(rt.alloc(), &mut generator, 2, 4).expect(&rt, "events");
    let drawn = [Event::Land(1), Event::Act(1), Event::Act(0), Event::Land(1)];
    assert_same!(rt; events.as_slice(), drawn.as_slice());
    assert_same!(rt; generator.next_u32(), 0xbfa4784b);
}

#[test]
fn a_refused_token_leaves_the_events(rt: HostRuntime) {
    let mut events = Vec::new(rt.alloc());
    push_tokens_of(&mut events, b"a0*2").expect(&rt, "two events");
    let refused = ScheduleError::Refused(AtByte {
        fault: ScheduleFault::BadToken,
        place: 3,
    });
    assert_same!(rt; push_tokens_of(&mut events, b"l1 x"), Err(refused));
    assert_same!(rt; events.len(), 2);
}

#[test]
fn refusals_have_their_numbers_and_texts(rt: HostRuntime) -> Result<(), Fail> {
    let faults = [
        (ScheduleFault::BadHead, 27, "bad head line at byte 16"),
        (ScheduleFault::BadToken, 28, "bad token at byte 16"),
        (ScheduleFault::BadHart, 29, "bad hart at byte 16"),
        (ScheduleFault::BadCount, 30, "bad count at byte 16"),
        (ScheduleFault::Truncated, 31, "truncated at byte 16"),
        (ScheduleFault::BadOutcome, 39, "bad outcome at byte 16"),
    ];
    for (fault, number, text) in faults {
        let refused = ScheduleError::Refused(AtByte { fault, place: 16 });
        assert_same!(rt; fault.number(), number);
        assert_same!(rt; refused.to_string(rt.alloc())?.as_str(), text);
    }
    Ok(())
}

#[test]
fn schedules_are_written_in_longest_runs(rt: HostRuntime) {
    let events = read_tokens(rt.alloc(), "a0*2\ta0*1 l0*2 l0 a1 l01*1048000").expect(&rt, "events");
    let written = write_schedule(rt.alloc(), &events).expect(&rt, "a text");
    let wanted = "ztso-schedule 1\na0*3 l0*3 a1 l1*1048000\n";
    assert_same!(rt; written.as_str(), wanted);
    let again = read_schedule(rt.alloc(), &written).expect(&rt, "a schedule");
    assert_same!(rt; again.len(), events.len());
}

/// On a machine of two words, as few as the run needs.
#[test]
fn store_buffering_is_replayed(rt: HostRuntime) {
    let opening = store_buffering(rt.alloc()).expect(&rt, "an opening");
    assert!(rt; opening.fits(2));
    let machine = replay::<4, 2>(rt.alloc(), opening, &BOTH_READ_0).expect(&rt, "a run");
    let trace = machine.trace(rt.alloc()).expect(&rt, "a trace");
    assert_same!(rt; trace.entries.as_slice(), both_read_0().as_slice());
}
