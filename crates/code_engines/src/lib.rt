//! The engines of `asm`, `dis` and `steps`: texts of code and of a run of it.
//!
//! The contract: each engine's clause says what it writes for what its reader tells, byte for byte, and
//! what each fault means (`Ends` of engine_support's `specs/Engines.antt`). This crate knows no command line, opens no
//! file and names no standard stream. It has no tests: the cases of the program run each engine.
//!
//! Called by `ztso`.

#![tactic(auto)]

pub mod asm;
mod code;
pub mod dis;
pub mod laws;
pub mod steps;
