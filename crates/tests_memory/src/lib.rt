//! Tests of calls that are refused memory and then have it: a refused call answers that there is no memory, nothing
//! that was there is lost, and the second call gives the answer of its row.
//!
//! By itself a run refuses only what no machine holds. `tests/hostile calls` runs the tests with each of their
//! allocations refused in turn. Without its tests this crate is empty: it promises nothing, and no crate uses it.

#![tactic(auto)]

/// What a call returns, or where it is refused memory what it returns the second time. An error that may be another
/// refusal is one of those that are named.
#[cfg(test)]
macro_rules! again {
    ($rt:expr, $call:expr) => {
        match $call {
            Ok(value) => value,
            Err(_) => $call.expect($rt, "memory at the second call"),
        }
    };
    ($rt:expr, $call:expr, $refusal:pat) => {
        match $call {
            Ok(value) => value,
            Err(refused) => {
                assert!($rt; matches!(refused, $refusal));
                $call.expect($rt, "memory at the second call")
            }
        }
    };
}

#[cfg(test)]
mod given;
#[cfg(test)]
mod of_channels;
#[cfg(test)]
mod of_lists;
#[cfg(test)]
mod of_machines;
#[cfg(test)]
mod of_seats;
#[cfg(test)]
mod of_threads;
#[cfg(test)]
mod of_traces;
