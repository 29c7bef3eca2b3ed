//! Checks certificates of queues: whether `queue_certificates` accepts one, for an opening.
//!
//! The contract: [`first_flaw`] returns the first part of a certificate that isn't accepted, and none exactly where `accepts` holds
//! ([`laws_of_flaws`]); [`first_unowned`] does the same for the loads of one hart, and [`first_unowned_rest`] for those of the slots of a
//! queue with tags. A [`Lack`](known_values::Lack) decides nothing. This crate finds no certificate, reads no text and runs no machine.
//!
//! Called by `hart_safety`, `queue_progress`, `certificate_reader`, `records_written` and `certifying`.

#![tactic(auto)]

pub mod accesses;
mod arrows;
pub mod certificate;
mod checking;
pub mod closing;
pub mod effects;
mod fields;
mod filled;
pub mod flaws;
pub mod leaves;
pub mod loads;
mod opening;
mod opening_tags;
pub mod owning;
mod owning_rest;
pub mod places;
mod queues;
mod sending;
pub mod sites;
pub mod slots;
pub mod states;
pub mod steps;
pub mod stores;
pub mod successors;
pub mod tag_effects;
mod tag_loads;
mod tag_places;
pub mod tag_stores;
mod tag_values;
pub mod tagged_queues;
mod tags;
pub mod targets;
mod words;

pub use accesses::{SlotAccess, slot_accesses, tagged_accesses};
pub use certificate::{
    Arrow, CaseNode, Cases, Filled, FilledSlot, HartPart, KnownState, Lacked, ListedState,
    QueueCertificate, Share,
};
pub use checking::first_flaw;
pub use flaws::{Flaw, QueueFlaw, TaggedFlaw, laws_of_flaws};
pub use leaves::{LeafCheck, each_leaf};
pub use owning::first_unowned;
pub use owning_rest::first_unowned_rest;
pub use queue_layouts::{Codec, OpenedTagged, TaggedQueue};
