//! One hart by itself: what its next instruction wants of the machine, and the state that it leaves.
//!
//! The contract: [`Hart::next_need`] is `need_of` and [`Hart::advance`] is `advanced` of
//! `specs/Steps.antt`, which say by the manual's words what an instruction does to registers and pc.
//! This crate knows no memory word, no store buffer and no other hart.
//!
//! Called by more than 6 crates, from `step_machine` to `ztso`.

#![tactic(auto)]

pub mod code;
pub mod effects;
pub mod need;
pub mod saved;
mod state;
pub mod status;
mod wanted;

pub use code::Code;
pub use effects::amo;
pub use need::{Need, Report};
pub use saved::SavedHart;
pub use state::Hart;
pub use status::{Status, Stop};
