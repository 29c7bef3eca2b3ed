//! The crate `shrink`.

use crate::given::{A0, A1, BOTH_READ_0, L0, L1};
use litmus::Test;
use shrink::{ShrinkError, shrink};
use std::alloc::Global;
use std::test::Fail;
use step_machine::Event;

const STORE_BUFFERING: &str = "RISCV SB
{
0:x5=1; 0:x6=x; 0:x8=y;
1:x5=1; 1:x6=y; 1:x8=x;
}
 P0          | P1          ;
 sw x5,0(x6) | sw x5,0(x6) ;
 lw x7,0(x8) | lw x7,0(x8) ;
exists (0:x7=0 /\\ 1:x7=0)
";

fn shrunk(alloc: Global, test: &Test, events: &[Event]) -> Result<Vec<Event>, ShrinkError> {
    shrink::<8, 1024>(alloc, test, events)
}

#[test]
fn store_buffering_needs_six_events(rt: HostRuntime) {
    let test = litmus_reader::read(rt.alloc(), STORE_BUFFERING).expect(&rt, "a test");
    let longer = [L1, A0, L1, A1, A0, A0, L0, A1, A1, L0, L1, A0, L1];
    let events = shrunk(rt.alloc(), &test, &longer).expect(&rt, "events");
    assert_same!(rt; events.len(), 6);
    let again = shrunk(rt.alloc(), &test, &BOTH_READ_0).expect(&rt, "events");
    assert_same!(rt; again.as_slice(), BOTH_READ_0.as_slice());
    let unfinished = shrunk(rt.alloc(), &test, &BOTH_READ_0[..5]);
    assert!(rt; matches!(unfinished, Err(ShrinkError::NotFinished)));
}

#[test]
fn errors_have_their_numbers_and_texts(rt: HostRuntime) -> Result<(), Fail> {
    let rows = [
        (ShrinkError::NoMemory, 0, "no memory"),
        (ShrinkError::NotFinished, 40, "not finished"),
    ];
    for (error, number, text) in rows {
        assert_same!(rt; error.number(), number);
        assert_same!(rt; error.to_string(rt.alloc())?.as_str(), text);
    }
    Ok(())
}
