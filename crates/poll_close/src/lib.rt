//! Channels over rings in memory: what a ring is ([`RingKind`]), how a channel opens ([`opening_at`]), and
//! what it delivers ([`deliver_at`]).
//!
//! The contract: [`deliver_at`] answers exactly the reports of the run of a channel's events, at any place for its blocks
//! that is accepted, and they are clean. [`deliver`] is its instance at the dense layout, as [`opening`] is that of
//! [`opening_at`]. The program opens by [`opening_at`], runs the events or the record itself, and takes the reports from
//! [`reports_of`] and [`whole_reports_of`], which promise the same of them. This crate never looks into a machine: it
//! stands on its histories.
//!
//! Called by more than 6 crates, from `hart_threads` to `ztso`.

#![tactic(auto)]

pub mod channel;
pub mod clean;
pub mod delivery;
pub mod faults;
pub mod kind;
pub mod listing;
pub mod openings;
pub mod place;
pub mod plans;
pub mod waiting;

pub use channel::Channel;
pub use clean::{Share, Violation, is_clean, laws_of_violations, no_shares, note_entry};
pub use delivery::{
    deliver, deliver_at, deliver_whole_at, laws_of_channels, laws_of_plans, reports_of,
};
pub use faults::{Refused, RefusedAt};
pub use kind::RingKind;
pub use openings::{MAX_SENDERS, opening, opening_at, opening_of_programs};
pub use place::BlockPlace;
pub use plans::{Finish, plan_of, whole_reports_of};
pub use waiting::is_ready_at;
