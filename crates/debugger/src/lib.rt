//! The debugger: a session that goes forward and back, a schedule that it goes along, and a user's
//! commands, each answered as it is read.
//!
//! The contract: what `debug_engine` writes is what a relation says of the commands that its reader gives,
//! byte for byte (`IsDebugAnswer` of `specs/Transcripts.antt`); a session's calls say what was done and what came of it.
//! It has no tests: the cases of the program talk to it.
//!
//! Called by `ztso`.

#![tactic(auto)]

pub mod debug;
pub mod debugger;
pub mod laws;
pub mod session;
