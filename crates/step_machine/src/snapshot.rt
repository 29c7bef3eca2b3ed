//! What a machine held at some place of its history, without the history.

ghost use Rattle.std.specs.Prelude.{◌≡◌};

use hart::SavedHart;
use memory::store_buffer::StoreBuffer;
use std::marker::Model;

/// Where each hart of a machine stood, what was pending, and the words of memory up to the last that
/// differed from the opening's. Its size depends on these, and neither on the memory nor on how much was done
/// before.
#[derive(Drop)]
pub struct Snapshot<const B: usize, const M: usize> {
    pub(crate) entries: u128,
    pub(crate) harts: Vec<SavedHart>,
    pub(crate) buffers: Vec<StoreBuffer<B>>,
    pub(crate) words: Vec<u32>,
}

impl<const B: usize, const M: usize> Model for Snapshot<B, M> {
    ghost use Rattle.step_machine.specs.Snapshots.{SnapshotView};

    ghost Value = { SnapshotView };

    ghost view = { λ s. record { count = s.entries; harts = s.harts.items; buffers = s.buffers.items; words = s.words.items } };
}

impl<const B: usize, const M: usize> Snapshot<B, M> {
    /// How many entries came before it.
    pub fn entries(&self) -> u128
        ensures { result ≡ self.now.count }
    {
        self.entries
    }
}
