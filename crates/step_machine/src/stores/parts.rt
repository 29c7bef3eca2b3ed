//! One hart's pending stores as words and put back, and memory so.

ghost use Rattle.std.specs.Prelude.{◌≡◌, ◌++◌, ◌<◌, length, slice_set, OnOk};
ghost use Rattle.memory.specs.Words.{written_since};
ghost use Rattle.step_machine.specs.inner.Stored.{FitStored, buffer_of};
ghost use Rattle.step_machine.specs.Positions.{packed_buffer, unpacked_buffer, with_words};

use crate::stores::Stores;
use crate::stores::packing::{push_buffer, take_buffer};
use std::alloc::AllocError;

impl<const B: usize, const M: usize> Stores<B, M> {
    /// Appends the hart's pending stores.
    pub fn pack_buffer(&self, hart: u32, out: &mut Vec<u32>) -> Result<(), AllocError>
        requires { hart < length self.now.buffers }
        ensures { OnOk result (out.new.items ≡ out.old.items ++ packed_buffer (buffer_of self.now hart)) }
    {
        push_buffer(out, &self.buffers[hart as usize])
    }

    /// Makes the hart's pending stores those that such words say. It takes no memory.
    pub fn unpack_buffer(&mut self, hart: u32, words: &[u32])
        requires { hart < length self.old.buffers }
        ensures value { self.new ≡ record self.old { buffers = slice_set self.old.buffers hart (unpacked_buffer B M words.now).0 } }
        ensures fit { FitStored M self.new }
        ensures count { length self.new.buffers ≡ length self.old.buffers }
    {
        take_buffer::<B, M>(&mut self.buffers[hart as usize], words);
    }

    /// Appends the words of memory up to the last that differs from the opening's.
    pub fn pack_memory(&self, out: &mut Vec<u32>) -> Result<(), AllocError>
        ensures { OnOk result (out.new.items ≡ out.old.items ++ written_since self.now.first self.now.words) }
    {
        out.extend_from_slice(self.memory.written())
    }

    /// Makes the words of memory these, and the opening's after them. It takes no memory.
    pub fn unpack_memory(&mut self, words: &[u32])
        ensures value { self.new ≡ record self.old { words = with_words M self.old.first words.now } }
        ensures fit { FitStored M self.new }
        ensures count { length self.new.buffers ≡ length self.old.buffers }
    {
        let size = M.min(words.len());
        self.memory.restore(&words[..size]);
    }
}
