//! What the engines share: inputs that are read whole or by lines, a test's runs, the text of a state, and how a
//! command ends.
//!
//! The contract: what a function here makes of its inputs is a relation between the bytes that its
//! readers give and what it returns, a refusal with its number and place among it (`Ends` of
//! `specs/Engines.antt` says it of a whole command). It has no tests: the cases of the program run it.
//!
//! Called by more than 6 crates, from `debugger` to `ztso`.

#![tactic(auto)]

pub mod command;
pub mod fault;
pub mod input;
pub mod line_input;
pub mod litmus_text;
pub mod outcomes;
pub mod output;
pub mod places;
pub mod running;
pub mod schedule;
pub mod state_text;
pub mod words;
