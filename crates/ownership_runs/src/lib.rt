//! Runs and a queue's protocol: whether the entries of a run keep it, and drawn runs that are asked.
//!
//! A queue is one with two indices, whose protocol is that of `slot_queue`, or one with tags, whose protocol is that of
//! `slots_that_tell`: `specs/Protocols.antt` defines what both have in common.
//!
//! The contract: [`first_violation`] returns `first_ownership_violation` of `specs/Violations.antt`, in one pass over the entries.
//! [`laws_of_violations`] states that there is none exactly where the entries keep the queue's protocol, and that otherwise it is
//! the first entry up to which they don't. [`check_runs`] states what it answers of the runs that the generator's words draw.
//!
//! `specs/Losses.antt` defines when a record was lost: of a position of which it was told, the receiver loads something else than what
//! the sender's hart read there just after it published that position. [`laws_of_losses`] states that the first loss of a run is one, and
//! that in a run that keeps the protocol the receiver has handed the position back already.
//!
//! This crate knows no certificate.
//!
//! Called by `certifying`.

#![tactic(auto)]

pub mod checking;
pub mod counts;
pub mod deciding;
mod indexed_moves;
mod judging;
mod judging_losses;
pub mod laws;
pub mod loss_runs;
pub mod losses;
mod numbers;
mod parties;
pub mod protocols;
pub mod runs;
mod sent;
pub mod steps;
pub mod stores;
mod tagged_moves;
pub mod violations;

pub use checking::{check_losses, check_runs};
pub use counts::Counts;
pub use deciding::first_violation;
pub use laws::{laws_of_judged_runs, laws_of_losses, laws_of_violations};
pub use losses::Loss;
pub use protocols::party_for;
pub use runs::Moved;
pub use steps::{
    Done, Recalled, Step, entries_of, handed_back, pc_at, recall, steps_before, steps_of,
};
pub use stores::slots_in;
pub use violations::{Owned, Violation};
