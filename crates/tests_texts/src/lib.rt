//! Tests of the crates that read texts and words or keep what a machine is made of, in modules by what they test.
//!
//! Without its tests this crate is empty: it promises nothing, and no crate uses it.

#![tactic(auto)]

/// As `assert_eq!`, but proved once, in `same`: a branch costs the proof of its test more than a call.
#[cfg(test)]
macro_rules! assert_same {
    ($rt:expr; $left:expr, $right:expr) => {
        $crate::same($left, $right).expect(&$rt, stringify!($left))
    };
}

#[cfg(test)]
fn same<T: PartialEq + Drop>(left: T, right: T) -> Result<(), (T, T)> {
    (left == right).then_some(()).ok_or((left, right))
}

#[cfg(test)]
mod of_instructions;
#[cfg(test)]
mod of_memory;
#[cfg(test)]
mod of_queue_checker;
#[cfg(test)]
mod of_readers;
#[cfg(test)]
mod of_texts;
