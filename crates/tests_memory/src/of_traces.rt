//! Traces, and the order of their operations.

use crate::given::{A0, A1, L0, L1, store_buffering};
use std::alloc::AllocError;
use std::process::Abort;
use step_machine::{Event, Machine, Trace};
use ztso_axioms::{check, order_of};

/// Both loads come before a store lands.
const BOTH_READ_0: [Event; 6] = [A0, A1, A0, A1, L0, L1];

fn trace(rt: &(impl Abort + AllocGlobal)) -> Result<Trace, AllocError> {
    let opening = store_buffering(rt.alloc())?;
    assert!(rt; opening.fits(16));
    let mut machine = Machine::<4, 16>::open(rt.alloc(), opening)?;
    machine.run(&BOTH_READ_0).map_err(|(_, error)| error)?;
    machine.trace(rt.alloc())
}

/// The loads come first, then the stores.
#[test]
fn a_trace_has_an_order(rt: HostRuntime) {
    let trace = again!(&rt, trace(&rt));
    let order = again!(&rt, order_of(rt.alloc(), &trace));
    assert!(rt; order.iter().map(|op| op.place).eq([2, 3, 0, 1]));
    assert!(rt; check(&trace, &order));
}
