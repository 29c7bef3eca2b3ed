//! How far the two parties of a queue have come.

ghost use Rattle.std.specs.Prelude.{◌≡◌, ◌^◌, ◌-◌};
ghost use Rattle.ownership_runs.specs.inner.Bounds.{AreCountsWithin};

use std::marker::Model;

/// How many positions the sender published and the receiver took, and how many of either the other party knows of.
#[derive(Clone, Copy)]
pub struct Counts {
    pub published: u64,
    pub taken: u64,
    pub known_taken: u64,
    pub known_published: u64,
}

impl Model for Counts {
    ghost use Rattle.queue_parties.specs.Parties.{QueueCounts};

    ghost Value = { QueueCounts };

    ghost view = { λ c. record {
      published = c.published;
      taken = c.taken;
      known_taken = c.known_taken;
      known_published = c.known_published;
    } };

    ghost inverse = { λ c. record {
      published = c.published;
      taken = c.taken;
      known_taken = c.known_taken;
      known_published = c.known_published;
    } };
}

/// The same in the course of a run. An entry moves a count on by less than 2^64 - 1, and a run has fewer entries than that, so that
/// no count passes 2^128.
#[derive(Clone, Copy)]
pub(crate) struct RunCounts {
    pub(crate) published: u128,
    pub(crate) taken: u128,
    pub(crate) known_taken: u128,
    pub(crate) known_published: u128,
}

impl Model for RunCounts {
    ghost use Rattle.queue_parties.specs.Parties.{QueueCounts};

    ghost Value = { QueueCounts };

    ghost view = { λ c. record {
      published = c.published;
      taken = c.taken;
      known_taken = c.known_taken;
      known_published = c.known_published;
    } };

    ghost inverse = { λ c. record {
      published = c.published;
      taken = c.taken;
      known_taken = c.known_taken;
      known_published = c.known_published;
    } };
}

/// The counts with which a run begins.
pub(crate) fn at_start(start: Counts) -> RunCounts
    ensures same { result ≡ start }
    ensures within { AreCountsWithin (2 ^ 64 - 1) (2 ^ 64 - 1) result }
{
    RunCounts {
        published: u128::from(start.published),
        taken: u128::from(start.taken),
        known_taken: u128::from(start.known_taken),
        known_published: u128::from(start.known_published),
    }
}
