//! Queues between two harts as numbers of the machine.
//!
//! The contract: a [`Queue`], of two indices and slots, is seen as the record of `slot_queue` with the same fields, and of a
//! [`TaggedQueue`], whose slots tell whose they are, `specs/Tagged.antt` has the record of `slots_that_tell`. [`party_among`] computes which [`Party`] a
//! hart is. What decides of a run and what decides of a program have one type of queue and of party. This crate decides neither.
//!
//! Called by `known_values`, `queue_checker`, `certificate_reader`, `records_written`, `ownership_runs` and `certifying`.

#![tactic(auto)]

mod parties;
mod tagged;

pub use parties::{Party, other, party_among};
use std::marker::Model;
pub use tagged::{Codec, OpenedTagged, TaggedQueue};

/// A queue: the harts that send and receive, where its indices and slots lie, and how an index stands for a count. Addresses and
/// widths are in bytes; whether they are those of a queue (`IsQueue`) the type leaves open.
#[derive(Clone, Copy, PartialEq, Eq)]
pub struct Queue {
    pub sender: u32,
    pub receiver: u32,
    /// Where the sender's index lies, and where the receiver's.
    pub head: u32,
    pub tail: u32,
    /// How many bytes either index has.
    pub index_width: u32,
    /// Where the slots begin, how many they are, and how many bytes one has.
    pub slots: u32,
    pub size: u32,
    pub width: u32,
    /// How many slots may be in use at once.
    pub capacity: u32,
    /// An index stands for count n by the number `base + scale * ((n + offset) % modulus)`.
    pub base: u32,
    pub scale: u64,
    pub offset: u64,
    pub modulus: u64,
}

impl Model for Queue {
    ghost use Rattle.slot_queue.specs.Queues.{Queue as SlotQueue};

    ghost Value = { SlotQueue };

    ghost view = { λ q. record {
      sender = q.sender;
      receiver = q.receiver;
      head = q.head;
      tail = q.tail;
      index_width = q.index_width;
      slots = q.slots;
      size = q.size;
      width = q.width;
      capacity = q.capacity;
      base = q.base;
      scale = q.scale;
      offset = q.offset;
      modulus = q.modulus;
    } };

    ghost inverse = { λ q. record {
      sender = q.sender;
      receiver = q.receiver;
      head = q.head;
      tail = q.tail;
      index_width = q.index_width;
      slots = q.slots;
      size = q.size;
      width = q.width;
      capacity = q.capacity;
      base = q.base;
      scale = q.scale;
      offset = q.offset;
      modulus = q.modulus;
    } };
}

/// A queue of either kind.
#[derive(Clone, Copy, PartialEq, Eq)]
pub enum AnyQueue {
    Indexed(Queue),
    Tagged(TaggedQueue),
}
