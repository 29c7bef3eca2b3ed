//! Runs of a channel over two programs of a user's own, by drawn schedules, judged by the definition that a
//! ring's theorem has.
//!
//! The contract: [`run_trials`] states what it answers of the runs that the generator's words draw (`specs/Answers.antt`
//! and `specs/Trials.antt`), each judged as `poll_close` defines a first violation. This crate reads no text and knows no
//! ring.
//!
//! Called by `channel_engines`.

#![tactic(auto)]

mod answer_texts;
pub mod judging;
pub mod run_output;
pub mod runs;
pub mod user_channel;

pub use run_output::run_trials;
pub use user_channel::UserChannel;
