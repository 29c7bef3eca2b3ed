//! The texts of schedules: lists of events, written as tokens, and records, which say each event's
//! outcome too.
//!
//! The contract: [`read_either`], [`read_schedule`], [`read_plain`], [`read_record`] and [`read_tokens`] answer the one
//! value that a text stands for by the grammars of `specs/Schedule.antt`, `specs/Records.antt` and
//! `specs/Versions.antt`, or name the first fault from the left and its byte (`specs/Reading.antt` and
//! the readings of those files), which they do exactly where the text has no value
//! ([`refused_without_value`]); [`write_schedule`] and [`write_record`] write the one canonical text of a
//! list, which is read as this list again. [`push_outcome_line`] writes an outcome, and its text is read
//! as this outcome again ([`outcomes_are_read_again`]). [`seeded`] draws events by a generator's words
//! (`specs/Drawing.antt`). [`replay`] runs events from a machine's opening, [`record`] notes what came of
//! each, and [`replay_checked`] runs a record as long as each outcome is the run's
//! (`specs/Replaying.antt`).
//! This crate opens no file and judges no run: events of any harts below 64 are read and written,
//! whether a machine could follow them or not.
//!
//! Called by more than 6 crates, from `drawn_runs` to `certifying`.

#![tactic(auto)]

pub mod drawing;
pub mod faults;
mod heads;
pub mod laws;
pub mod outcomes;
pub mod reading;
pub mod records;
pub mod replaying;
pub mod running;
mod tokens;
pub mod versions;
pub mod writing;

pub use drawing::{draw, event_of, seeded};
pub use faults::{AtByte, ScheduleError, ScheduleFault};
pub use heads::{RECORD_HEAD, has_head};
pub use laws::{
    longest_runs, one_value, outcomes_are_read_again, records_are_runs, records_can_be_written,
    refused_without_value, tokens_are_read_again,
};
pub use outcomes::{push_entry_line, push_outcome, push_outcome_line};
pub use reading::{MAX_EVENTS, push_tokens_of, read_plain, read_tokens};
pub use records::{read_record, write_record};
pub use replaying::{CheckError, are_same_outcomes, replay, replay_checked};
pub use running::{check_record, record, replay_state};
pub use versions::{Schedule, read_either, read_schedule};
pub use writing::{push_tokens, schedule_text, write_schedule};
