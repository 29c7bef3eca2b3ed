use crate::given::{BOTH_READ_0, store_buffering};
use recorder::{
    CheckError, read_plain, read_record, read_schedule, record, replay_checked, write_record,
};
use std::alloc::AllocError;
use std::process::Abort;
use std::test::Fail;
use step_machine::{Event, Machine, Outcome};
use texts::Numbered;

const STORE_BUFFERING: &str =
    "ztso-schedule 2\na0 store 0 0 1\na1 store 1 4 1\na0 load 0 4 0\na1 load 1 0 0\nl0 land 0\nl1 land 1\n";

/// Store buffering that does the steps of a record.
fn replayed(
    rt: &(impl Abort + AllocGlobal),
    steps: &[(Event, Outcome)],
) -> Result<Machine<4, 2>, CheckError> {
    let opening = store_buffering(rt.alloc())?;
    assert!(rt; opening.fits(2));
    replay_checked(rt.alloc(), opening, steps)
}

/// The record of store buffering at these events.
fn recorded(
    rt: &(impl Abort + AllocGlobal),
    events: &[Event],
) -> Result<Vec<(Event, Outcome)>, AllocError> {
    let opening = store_buffering(rt.alloc())?;
    assert!(rt; opening.fits(2));
    record::<4, 2>(rt.alloc(), opening, events)
}

fn read(rt: &(impl Abort + AllocGlobal), text: &str) -> Vec<(Event, Outcome)> {
    read_record(rt.alloc(), text).expect(rt, "a record")
}

fn written(rt: &(impl Abort + AllocGlobal), steps: &[(Event, Outcome)]) -> String {
    write_record(rt.alloc(), steps).expect(rt, "a text")
}

#[test]
fn a_run_is_recorded_and_checked(rt: HostRuntime) {
    let steps = recorded(&rt, &BOTH_READ_0).expect(&rt, "a record");
    let text = written(&rt, &steps);
    assert_same!(rt; text.as_str(), STORE_BUFFERING);
    let again = read(&rt, &text);
    assert_same!(rt; again.as_slice(), steps.as_slice());
    let events = read_schedule(rt.alloc(), &text).expect(&rt, "a schedule");
    assert_same!(rt; events.as_slice(), BOTH_READ_0.as_slice());
    let machine = replayed(&rt, &again).expect(&rt, "a run");
    assert_same!(rt; machine.trace(rt.alloc()).expect(&rt, "a trace").entries.len(), 6);
}

/// Each line is read, and written again as it stands.
#[test]
fn each_outcome_has_its_text(rt: HostRuntime) {
    let text = "ztso-schedule 2
a0*3 inner 0
a1 load1 1 5 255
a1 load2 1 6 65535
a0 store1 0 0 1
a0 store2 0 2 1
a0 amo 0 4 1 2
a0 fence 0 full
a0 fence 0 part
a0 next 0 7
a0 next 0 end
a0 took 0 1 7
a0 closed 0 1
a0 waited 0
l0 nothing 0
a0 ended 0
a1 stopped 1 15
a0 over 0
l0 over 0
a2 nohart 2
";
    let steps = read(&rt, text);
    assert_same!(rt; steps.len(), 21);
    assert_same!(rt; written(&rt, &steps).as_str(), text);
}

#[test]
fn spellings_of_lines(rt: HostRuntime) {
    let text = "ztso-schedule 2\r\n\n \t\na00*02\tstore  0 0 01\r\na0 store 0 0 1";
    let again = written(&rt, &read(&rt, text));
    assert_same!(rt; again.as_str(), "ztso-schedule 2\na0*3 store 0 0 1\n");
    assert_same!(rt; read_plain(rt.alloc(), text).is_err(), true);
    let none = written(&rt, &read(&rt, "ztso-schedule 2"));
    assert_same!(rt; none.as_str(), "ztso-schedule 2\n");
}

#[test]
fn errors_of_checks_have_their_numbers_and_texts(rt: HostRuntime) -> Result<(), Fail> {
    let rows = [
        (CheckError::NoMemory, 0, "no memory"),
        (
            CheckError::Differs { event: 7 },
            38,
            "other outcome at event 7",
        ),
    ];
    for (error, number, text) in rows {
        assert_same!(rt; error.number(), number);
        assert_same!(rt; error.to_string(rt.alloc())?.as_str(), text);
    }
    Ok(())
}
