//! The engines of `channel`, `channel own` and `ring`: runs of a channel over a ring of the program's or of a user's own.
//!
//! The contract: each engine's clause says what it writes for what its readers tell, byte for byte, and
//! what each fault means (`Ends` of engine_support's `specs/Engines.antt`). This crate knows no command line, opens no
//! file and names no standard stream. It has no tests: the cases of the program run each engine.
//!
//! Called by `ztso`.

#![tactic(auto)]

pub mod channel;
pub mod laws;
mod lists;
pub mod programs;
pub mod ring;
pub mod user_channel;
