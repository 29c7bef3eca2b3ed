//! Lists that grow: a draft's lines, a schedule's events, drawn events.

use crate::given::{A0, A1, L0, L1};
use assembler::{AsmError, Draft};
use rand_core::Rng;
use rand_pcg::Pcg32;
use recorder::{ScheduleError, push_tokens_of, seeded};
use std::process::Abort;
use step_machine::Event;

fn line(rt: &impl Abort, draft: &mut Draft, line: &str) {
    again!(rt, draft.line(line), AsmError::NoMemory)
}

#[test]
fn a_draft_takes_lines(rt: HostRuntime) {
    let mut draft = Draft::new(rt.alloc());
    for text in ["li x5,0x12345FFF", "a: nop", "j a"] {
        line(&rt, &mut draft, text);
    }
    match draft.finish() {
        Ok(words) => {
            let wanted = [0x123462B7, 0xFFF28293, 0x00000013, 0xFFDFF06F];
            assert!(rt; words.as_slice() == wanted.as_slice());
        }
        Err(error) => assert!(rt; error == AsmError::NoMemory),
    }
}

fn push(rt: &impl Abort, events: &mut Vec<Event>, text: &[u8]) {
    again!(rt, push_tokens_of(events, text), ScheduleError::NoMemory)
}

#[test]
fn tokens_are_pushed(rt: HostRuntime) {
    let mut events = Vec::new(rt.alloc());
    push(&rt, &mut events, b"a0*2 l0");
    push(&rt, &mut events, b"a1");
    assert!(rt; events.as_slice() == [A0, A0, L0, A1].as_slice());
}

/// The words are those that PCG's own demonstration prints. After a refusal the generator gives them from the
/// first on.
#[test]
fn events_are_drawn(rt: HostRuntime) {
    let mut generator = Pcg32::new(42, 54);
    let events = again!(&rt, seeded(rt.alloc(), &mut generator, 2, 4));
    assert!(rt; events.as_slice() == [L1, A1, A0, L1].as_slice());
    assert!(rt; generator.next_u32() == 0xbfa4784b);
}
