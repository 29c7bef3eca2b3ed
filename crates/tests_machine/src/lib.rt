//! Tests of the machine and of the crates that speak of its runs, a module for each; of the two litmus
//! crates above the machine in one. `given` has what several of them begin with.
//!
//! Without its tests this crate is empty: it promises nothing, and no crate uses it.

#![tactic(auto)]

/// As `assert_eq!`, but proved once, in `same`: a branch costs the proof of its test more than a call.
#[cfg(test)]
macro_rules! assert_same {
    ($rt:expr; $left:expr, $right:expr) => {
        $crate::given::same($left, $right).expect(&$rt, stringify!($left))
    };
}

#[cfg(test)]
mod given;
#[cfg(test)]
mod of_callers;
#[cfg(test)]
mod of_drawn_runs;
#[cfg(test)]
mod of_litmus;
#[cfg(test)]
mod of_ownership_runs;
#[cfg(test)]
mod of_recorder;
#[cfg(test)]
mod of_records;
#[cfg(test)]
mod of_shrink;
#[cfg(test)]
mod of_states;
#[cfg(test)]
mod of_step_machine;
#[cfg(test)]
mod of_ztso_axioms;
