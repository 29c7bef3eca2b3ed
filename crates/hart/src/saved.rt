//! What of a hart goes on changing, by itself.

use crate::status::Status;
use std::marker::Model;

/// Where a hart stood: its registers and pc, how many words it had been given, its status, and how many
/// reports it had made. Its code, its inbox and the reports themselves aren't copied: the hart still has
/// them. [`Hart::save`](crate::Hart::save) alone makes one, so x0 is 0 in each.
#[derive(Drop)]
pub struct SavedHart {
    pub(crate) registers: [u32; 32],
    pub(crate) pc: u32,
    pub(crate) given: usize,
    pub(crate) status: Status,
    pub(crate) reports: usize,
}

impl Model for SavedHart {
    ghost use Rattle.hart.specs.Saved.{SavedView};
    ghost use Rattle.hart.specs.State.{HasZero};

    ghost Value = { SavedView };

    ghost view = { λ s. record { registers = s.registers; pc = s.pc; given = s.given; status = s.status; reports = s.reports } };

    ghost invariant = { λ s. HasZero s.registers };
}
