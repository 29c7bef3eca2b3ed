//! What is held of each row's engine over each device.

use crate::devices::{Reader, SOUND, Trouble, Writer};
use crate::engines::{Inputs, answer};
use crate::rows::{ROWS, Row};
use engine_support::fault::Fault;
use std::process::Abort;
use std::sync::Wait;
use std::thread::Threads;

/// Whose calls have the trouble.
#[derive(Clone, Copy, PartialEq, Eq)]
enum Troubled {
    First,
    Second,
    Third,
    Fourth,
    Writes,
    Flushes,
}

const ALL: [Troubled; 6] = [
    Troubled::First,
    Troubled::Second,
    Troubled::Third,
    Troubled::Fourth,
    Troubled::Writes,
    Troubled::Flushes,
];

/// More than the calls of a device in any row.
const MOST_CALLS: usize = 4096;

/// Runs the engine of a row where one device has this trouble, and answers whether a call failed. Then the engine
/// ended with the fault of that call, and what it wrote before is a beginning of its answer. Else the answer was
/// written whole and passed on.
fn fails_over(
    rt: &(impl Abort + AllocGlobal + Threads + Wait + Sync),
    row: &Row,
    troubled: Troubled,
    trouble: Trouble,
) -> bool {
    let of = |device: Troubled| if device == troubled { trouble } else { SOUND };
    let mut inputs = Inputs {
        first: Reader::new(row.texts[0], of(Troubled::First)),
        second: Reader::new(row.texts[1], of(Troubled::Second)),
        third: Reader::new(row.texts[2], of(Troubled::Third)),
        fourth: Reader::new(row.texts[3], of(Troubled::Fourth)),
    };
    let mut writer = Writer::new(rt.alloc(), of(Troubled::Writes), of(Troubled::Flushes));
    let came = answer(rt, row.engine, &mut inputs, &mut writer);
    assert!(rt; row.wanted.starts_with(&writer.taken));
    if inputs.failed() {
        assert!(rt; came == Err(Fault::ReadFailed));
        assert!(rt; writer.passed == writer.taken.len());
        true
    } else if writer.failed() {
        assert!(rt; came == Err(Fault::WriteFailed));
        assert!(rt; writer.passed < row.wanted.len());
        true
    } else {
        assert!(rt; came == Ok(()));
        assert!(rt; writer.passed == row.wanted.len());
        false
    }
}

/// Each call of a device fails in turn.
fn hold_failing(
    rt: &(impl Abort + AllocGlobal + Threads + Wait + Sync),
    row: &Row,
    troubled: Troubled,
    size: usize,
) {
    for number in 1..MOST_CALLS {
        let failing = Trouble {
            size,
            interrupts: false,
            fails_at: Some(number),
        };
        if !fails_over(rt, row, troubled, failing) {
            return;
        }
    }
    panic!(rt; "too many calls");
}

#[test]
fn a_call_that_fails_ends_the_engine(rt: HostRuntime) {
    for row in &ROWS {
        for troubled in &ALL {
            for size in [1, 64] {
                hold_failing(&rt, row, *troubled, size);
            }
        }
    }
    assert!(rt; Fault::ReadFailed.status() == 3 && Fault::WriteFailed.status() == 3);
}

/// A flush moves no bytes, and one that is interrupted is a failed one.
#[test]
fn calls_that_move_few_bytes_make_no_difference(rt: HostRuntime) {
    for row in &ROWS {
        for troubled in &ALL[..5] {
            for size in [1, 3, 64] {
                for interrupts in [false, true] {
                    let slow = Trouble {
                        size,
                        interrupts,
                        fails_at: None,
                    };
                    assert!(rt; !fails_over(&rt, row, *troubled, slow));
                }
            }
        }
    }
}
