//! Pending stores and the words of memory as a list of words, and back.

ghost use Rattle.std.specs.Prelude.{◌≡◌, ◌++◌, ◌≤◌, length, All, OnOk};
ghost use Rattle.std.specs.List.{flat_map};
ghost use Rattle.step_machine.specs.inner.Stored.{FitStored};
ghost use Rattle.step_machine.specs.Positions.{packed_buffer, packed_stored, store_words, with_store};
ghost use Rattle.step_machine.specs.Positions.{unpacked_stores, unpacked_buffer, unpacked_buffers, unpacked_stored};

use crate::stores::Stores;
use crate::taking::{first_word, words_after};
use memory::store_buffer::StoreBuffer;
use memory::writes::Write;
use std::alloc::AllocError;

fn push_stores(out: &mut Vec<u32>, stores: &[Write]) -> Result<(), AllocError>
    ensures { OnOk result (out.new.items ≡ out.old.items ++ flat_map store_words stores.now) }
{
    for store in stores {
        out.push(store.addr)?;
        out.push(store.width)?;
        out.push(store.value)?;
    }
    Ok(())
}

/// Appends how many stores are pending, and each of them.
pub(super) fn push_buffer<const B: usize>(
    out: &mut Vec<u32>,
    buffer: &StoreBuffer<B>,
) -> Result<(), AllocError>
    requires { B ≤ 64 }
    ensures words { OnOk result (out.new.items ≡ out.old.items ++ packed_buffer buffer.now) }
    ensures within { length buffer.now ≤ B }
{
    out.push(buffer.len() as u32)?;
    push_stores(out, buffer.as_slice())
}

fn push_buffers<const B: usize>(
    out: &mut Vec<u32>,
    buffers: &[StoreBuffer<B>],
) -> Result<(), AllocError>
    requires { B ≤ 64 }
    ensures words { OnOk result (out.new.items ≡ out.old.items ++ flat_map packed_buffer buffers.now) }
    ensures within { OnOk result (All (λ ps. length ps ≤ B) buffers.now) }
{
    for buffer in buffers {
        push_buffer(out, buffer)?;
    }
    Ok(())
}

/// Appends a store, where the buffer has room and the store is in one word of the memory.
fn push_fitting<const B: usize, const M: usize>(buffer: &mut StoreBuffer<B>, store: Write)
    ensures { buffer.new ≡ with_store B M buffer.old store }
{
    let is_in_word = store.width <= 4 - store.addr % 4;
    if buffer.len() < B && is_in_word && ((store.addr / 4) as usize) < M {
        buffer.push(store.addr, store.width, store.value);
    }
}

/// Appends `count` stores, and returns the words after theirs.
fn take_stores<'a, const B: usize, const M: usize>(
    buffer: &mut StoreBuffer<B>,
    count: u32,
    words: &'a [u32],
) -> &'a [u32]
    ensures stores { buffer.new ≡ (unpacked_stores B M count buffer.old words.now).0 }
    ensures rest { result.now ≡ (unpacked_stores B M count buffer.old words.now).1 }
{
    let mut rest = words;
    for _ in 0..count {
        let addr = first_word(rest);
        let width = first_word(words_after(rest, 1));
        let value = first_word(words_after(rest, 2));
        push_fitting::<B, M>(buffer, Write { addr, width, value });
        rest = words_after(rest, 3);
    }
    rest
}

pub(super) fn take_buffer<'a, const B: usize, const M: usize>(
    buffer: &mut StoreBuffer<B>,
    words: &'a [u32],
) -> &'a [u32]
    ensures stores { buffer.new ≡ (unpacked_buffer B M words.now).0 }
    ensures rest { result.now ≡ (unpacked_buffer B M words.now).1 }
{
    let count = first_word(words);
    buffer.clear();
    take_stores::<B, M>(buffer, count, words_after(words, 1))
}

fn take_buffers<'a, const B: usize, const M: usize>(
    buffers: &mut [StoreBuffer<B>],
    words: &'a [u32],
) -> &'a [u32]
    ensures buffers { buffers.new ≡ (unpacked_buffers B M buffers.old words.now).0 }
    ensures rest { result.now ≡ (unpacked_buffers B M buffers.old words.now).1 }
{
    let mut rest = words;
    for buffer in buffers.iter_mut() {
        rest = take_buffer::<B, M>(buffer, rest);
    }
    rest
}

impl<const B: usize, const M: usize> Stores<B, M> {
    /// Appends each hart's pending stores, and the words of memory up to the last that differs from the
    /// opening's.
    pub fn pack(&self, out: &mut Vec<u32>) -> Result<(), AllocError>
        ensures words { OnOk result (out.new.items ≡ out.old.items ++ packed_stored self.now) }
        ensures within { OnOk result (All (λ ps. length ps ≤ B) self.now.buffers) }
    {
        push_buffers(out, &self.buffers)?;
        out.extend_from_slice(self.memory.written())
    }

    /// Puts back what such words say. It takes no memory.
    pub fn unpack(&mut self, words: &[u32])
        ensures value { self.new ≡ unpacked_stored B M self.old words.now }
        ensures fit { FitStored M self.new }
        ensures count { length self.new.buffers ≡ length self.old.buffers }
    {
        let rest = take_buffers::<B, M>(&mut self.buffers, words);
        let size = M.min(rest.len());
        self.memory.restore(&rest[..size]);
    }
}
