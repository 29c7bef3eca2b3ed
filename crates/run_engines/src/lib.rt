//! The engines of `run`, `replay` and `move`, of what a schedule's run of a litmus test shows, and of `threads`, of a run that
//! threads made.
//!
//! The contract: each engine's clause says what it writes for what its readers tell, byte for byte, and
//! what each fault means (`Ends` of engine_support's `specs/Engines.antt`). What `threads_engine` writes is a schedule, and the
//! state text and the verdict of its run (`IsThreadsAnswer`); which run it is, no clause says. This crate knows no command line,
//! opens no file and names no standard stream. It has no tests: the cases of the program run each engine.
//!
//! Called by `ztso`.

#![tactic(auto)]

pub mod laws;
pub mod moving;
pub mod replay;
pub mod run;
pub mod threads;
