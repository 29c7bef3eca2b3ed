//! Harts and landers on threads of their own, above one bank behind a lock.
//!
//! The contract: [`Shared::open`] gives each hart two [`Seat`]s, the right to let it act and the right to land
//! its stores. An acting seat keeps its hart: what needs no memory it does without the lock, by
//! [`Seat::local`]. A seat keeps a diary of what its own calls did. [`Shared::gather`] takes all of them back
//! and answers a [`Record`]: a run of the opening, one event an entry, of which each diary is its seat's part
//! (`IsRecord` and `Merge` of `specs/`). [`run_harts`] does so with a thread for each seat: whatever the
//! threads do, a record is a run of the model, no thread makes more than its turns, and under an open gate
//! each hart gets on (`IsMerged`, `AllGetOn`). [`deliver_threads`] runs a channel so, over any ring, and
//! [`deliver_threads_at`] one anywhere in memory: what its receiver reports is clean.
//!
//! A call that may wait for a lock or a thread asks for `Wait`; of those nothing says that they return.
//! Nothing is claimed of fairness, of the order in which threads get the lock, or of time. This crate
//! reads and prints no text, and no crate below it asks for `Wait` or `Threads`.
//!
//! Called by `run_engines`.

#![tactic(auto)]

mod acting;
pub mod channels;
mod diary;
mod ended;
pub mod fault;
pub mod gate;
pub mod gather;
pub mod harts;
mod held;
pub mod local;
mod missing;
mod placing;
pub mod record;
mod rest;
pub mod seat;
pub mod shared;
mod turns;

pub use channels::{deliver_threads, deliver_threads_at};
pub use fault::{ChannelFault, ChannelFaultAt, Fault};
pub use gate::{Gate, Open};
pub use harts::run_harts;
pub use local::Local;
pub use record::{Gather, Record};
pub use seat::Seat;
pub use shared::Shared;
