//! The step machine: harts with store buffers over one word memory, one event at a time.
//!
//! The contract: a [`Machine`] is seen as its history, the opening and the list of entries so far, and
//! [`Machine::step`] adds the one entry that the store buffer model allows for the event, or none
//! (`Happens` of `specs/Runs.antt`); registers, pending stores and memory words are read off that
//! history by definitions that know no machine. This crate reads and prints no text, and nothing above
//! it names how the history is kept.
//!
//! Called by more than 6 crates, from `ztso_axioms` to `certifying`.

#![tactic(auto)]

pub mod bank;
pub mod events;
pub mod laws;
pub mod machine;
pub mod machine_state;
pub mod needs;
pub mod opening;
mod packed;
pub mod snapshot;
mod standing;
mod stores;
mod taking;

pub use bank::Bank;
pub use events::{Entry, Event, Outcome};
pub use machine::Machine;
pub use machine_state::MachineState;
pub use opening::{HartOpening, Opening, Trace};
pub use packed::Entries;
pub use snapshot::Snapshot;
