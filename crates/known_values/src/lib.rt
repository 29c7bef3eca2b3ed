//! What a certificate of queues knows of words, as values that code computes with: sums of multiples of numbers that aren't known,
//! numbers in ranges, and what an instruction leaves of them.
//!
//! The contract: each function returns what the definition of its name in `queue_certificates` is of its arguments, or a [`Lack`],
//! which decides nothing. Numbers never wrap. This crate knows no certificate, no state and no memory.
//!
//! Called by `queue_checker`, `hart_safety`, `queue_progress`, `certificate_reader`, `records_written` and `certifying`.

#![tactic(auto)]

pub mod bits;
pub mod bounds;
pub mod comparisons;
pub mod facts;
pub mod fields;
pub mod forms;
pub mod lack;
pub mod numbers;
pub mod queues;
pub mod ranges;
pub mod rests;
pub mod results;
pub mod values;
mod words;

pub use bits::Bits;
pub use bounds::Bounds;
pub use facts::Fact;
pub use fields::Field;
pub use forms::Form;
pub use lack::Lack;
pub use queues::{OpenedQueue, Queue};
pub use results::Outcome;
pub use values::{Known, KnownValue};
