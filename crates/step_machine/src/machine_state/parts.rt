//! A machine by parts: one hart with its pending stores as words and put there, and memory so.

ghost use Rattle.std.specs.Prelude.{◌≡◌, ◌++◌, ◌<◌, length, OnOk};
ghost use Rattle.memory.specs.Words.{written_since};
ghost use Rattle.step_machine.specs.Parts.{packed_part, hart_put_at, memory_put_at};
ghost use Rattle.step_machine.specs.Positions.{AreOfOneOpening};

use crate::machine_state::MachineState;
use crate::machine_state::packing::{push_hart, take_hart};
use std::alloc::AllocError;

impl<const B: usize, const M: usize> MachineState<B, M> {
    /// Appends where one hart stands, and its pending stores, as words. After an error some words may stand there.
    pub fn pack_hart(&self, hart: u32, out: &mut Vec<u32>) -> Result<(), AllocError>
        requires { hart < length self.now.harts }
        ensures { OnOk result (out.new.items ≡ out.old.items ++ packed_part self.now hart) }
    {
        push_hart(out, &self.harts[hart as usize])?;
        self.stores.pack_buffer(hart, out)
    }

    /// Puts one hart where such words say, with no report, and leaves the others and memory. It takes no memory.
    pub fn unpack_hart(&mut self, hart: u32, words: &[u32])
        requires { hart < length self.old.harts }
        ensures value { self.new ≡ hart_put_at B M self.old hart words.now }
        ensures opening { AreOfOneOpening self.old self.new }
        ensures harts { length self.new.harts ≡ length self.old.harts }
    {
        let rest = take_hart(&mut self.harts[hart as usize], words);
        self.stores.unpack_buffer(hart, rest);
    }

    /// Appends the words of memory up to the last that differs from the opening's.
    pub fn pack_memory(&self, out: &mut Vec<u32>) -> Result<(), AllocError>
        ensures { OnOk result (out.new.items ≡ out.old.items ++ written_since self.now.stored.first self.now.stored.words) }
    {
        self.stores.pack_memory(out)
    }

    /// Makes the words of memory these, and the opening's after them, and leaves the harts. It takes no memory.
    pub fn unpack_memory(&mut self, words: &[u32])
        ensures value { self.new ≡ memory_put_at M self.old words.now }
        ensures opening { AreOfOneOpening self.old self.new }
        ensures harts { length self.new.harts ≡ length self.old.harts }
    {
        self.stores.unpack_memory(words);
        // the proof knows from here on what holds of the fields (`invariant`)
        let _ = &self.harts;
    }
}
