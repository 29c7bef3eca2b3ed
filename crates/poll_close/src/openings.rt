//! The opening of a channel, and when there is none.

ghost use Rattle.std.specs.Prelude.{◌≡◌, ◌≤◌, ◌<◌, ◌*◌, ◌+◌, ◌^◌, ℕ, List, All, IfOk, IfErr, OnOk, IsOk, MatchOption, map, length, true, false, []};
ghost use Rattle.poll_close.specs.Layout.{senders_from, sender_registers, base_of, block_size, opening_at, layout_of, stride_or_dense};
ghost use Rattle.poll_close.specs.Laws.{Accepted, AcceptedAt, AreWords, IsInBlocks, OpensEmpty, opening_of, opening_over};
ghost use Rattle.poll_close.specs.Refusals.{Refuses, RefusesAt, FitsAt, IsBeyond, FilledAt, ZeroAt, ZeroWordAt};

use crate::faults::{Refused, RefusedAt};
use crate::kind::RingKind;
use crate::place::BlockPlace;
use std::alloc::{AllocError, Global};
use step_machine::{HartOpening, Opening};

/// The most senders that a channel may have: the receiver is a hart too.
pub const MAX_SENDERS: usize = 63;

/// The place of the first zero word, if there is one.
fn zero_place(list: &[u32]) -> Option<usize>
    ensures { MatchOption result (AreWords list.now) (λ place. ZeroAt list.now place) }
{
    for (place, word) in list.iter().enumerate() {
        if *word == 0 {
            return Some(place);
        }
    }
    None
}

/// The first zero word of all lists, if there is one: its sender and its place.
fn zero_word(lists: &[Vec<u32>]) -> Option<(usize, usize)>
    ensures { MatchOption result (All AreWords (map (λ v. v.items) lists.now)) (λ found. ZeroWordAt (map (λ v. v.items) lists.now) found.0 found.1) }
{
    for (sender, list) in lists.iter().enumerate() {
        match zero_place(list) {
            Some(place) => return Some((sender, place)),
            None => {}
        }
    }
    None
}

/// The registers with which sender `index` opens.
fn sender_registers(place: BlockPlace, index: u32) -> [u32; 32]
    requires begins { base_of (layout_of place []) index < 2 ^ 32 }
    requires slots { 4 * place.slots < 2 ^ 32 }
    ensures { result ≡ sender_registers (layout_of place []) index }
{
    let mut registers = [0; 32];
    registers[8] = (place.base as u64 + index as u64 * place.stride_or_dense()) as u32;
    registers[9] = 4 * place.slots;
    registers
}

/// Each sender's beginning.
fn sender_harts(
    alloc: Global,
    code: &[u32],
    lists: &[Vec<u32>],
    place: BlockPlace,
) -> Result<Vec<HartOpening>, AllocError>
    requires few { length lists.now < 2 ^ 32 }
    requires ends { base_of (layout_of place []) (length lists.now) < 2 ^ 32 }
    requires slots { 4 * place.slots < 2 ^ 32 }
    ensures { IfOk result (λ v. v.items ≡ senders_from code.now (layout_of place []) 0 (map (λ v. v.items) lists.now)) }
{
    let mut harts = Vec::with_capacity(alloc, lists.len())?;
    for (index, list) in lists.iter().enumerate() {
        let hart = HartOpening {
            code: Vec::from_slice(alloc, code)?,
            registers: sender_registers(place, index as u32),
            inbox: Vec::from_slice(alloc, list)?,
        };
        harts.push(hart)?;
    }
    Ok(harts)
}

/// The opening over lists that are accepted.
#[tactic(auto, using(crate::proofs::Opened::rows_before))]
fn lay_out(
    alloc: Global,
    sender: &[u32],
    receiver: &[u32],
    lists: &[Vec<u32>],
    place: BlockPlace,
    words: &[u32],
) -> Result<Opening, AllocError>
    requires some { 1 ≤ length lists.now }
    requires few { length lists.now < 2 ^ 32 }
    requires ends { base_of (layout_of place words.now) (length lists.now) < 2 ^ 32 }
    requires slots { 4 * place.slots < 2 ^ 32 }
    ensures { IfOk result (λ o. o ≡ opening_at sender.now receiver.now (map (λ v. v.items) lists.now) (layout_of place words.now)) }
{
    let stride = place.stride_or_dense();
    let mut registers = [0; 32];
    registers[9] = 4 * place.slots;
    registers[18] = stride as u32;
    registers[19] = (place.base as u64 + lists.len() as u64 * stride) as u32;
    registers[20] = lists.len() as u32;
    registers[21] = place.base;
    let receiver = HartOpening {
        code: Vec::from_slice(alloc, receiver)?,
        registers,
        inbox: Vec::new(alloc),
    };
    let mut harts = sender_harts(alloc, sender, lists, place)?;
    harts.insert(0, receiver)?;
    Ok(Opening {
        harts,
        words: Vec::from_slice(alloc, words)?,
    })
}

/// Whether this address is in one of the first `count` blocks.
#[tactic(auto, using(crate::proofs::Blocks::is_inside, crate::proofs::Blocks::inside_is))]
fn is_in_blocks(place: BlockPlace, count: usize, address: u64) -> bool
    requires room { block_size place.slots ≤ stride_or_dense place.slots place.stride }
    ensures inside { result ≡ true → IsInBlocks (layout_of place []) count address }
    ensures outside { IsInBlocks (layout_of place []) count address → result ≡ true }
{
    if address < place.base as u64 {
        return false;
    }
    let offset = address - place.base as u64;
    let stride = place.stride_or_dense();
    offset / stride < count as u64 && offset % stride < 16 + 4 * place.slots as u64
}

/// The first word that is in a block and not 0, if there is one.
fn filled_word(place: BlockPlace, count: usize, words: &[u32]) -> Option<usize>
    requires room { block_size place.slots ≤ stride_or_dense place.slots place.stride }
    requires memory { length words.now ≤ 65536 }
    ensures { MatchOption result (OpensEmpty (layout_of place words.now) count) (λ j. FilledAt (layout_of place words.now) count j) }
{
    for (j, word) in words.iter().enumerate() {
        if *word != 0 && is_in_blocks(place, count, 4 * j as u64) {
            return Some(j);
        }
    }
    None
}

/// Whether `count` blocks at a place, and the words with which memory opens, are within `m` words of memory.
#[tactic(auto, using(crate::proofs::Opened::rows_before))]
fn fits_at(place: BlockPlace, count: usize, words: &[u32], m: usize) -> bool
    requires some { 1 ≤ count }
    requires few { count ≤ 63 }
    requires memory { m ≤ 65536 }
    ensures fits { result ≡ true → FitsAt m count (layout_of place words.now) }
    ensures beyond { result ≡ false → IsBeyond m count (layout_of place words.now) }
{
    let stride = place.stride_or_dense();
    let last = place.base as u64 + (count as u64 - 1) * stride;
    last + stride < 1 << 32
        && last + 16 + 4 * place.slots as u64 <= 4 * m as u64
        && words.len() <= m
}

/// Whether a channel of these programs over these lists at a place, with rings of at least `least` slots, fits a memory of `m`
/// words that opens with these, and if not why.
fn judge_at(
    _sender: &[u32],
    _receiver: &[u32],
    least: u32,
    lists: &[Vec<u32>],
    place: BlockPlace,
    words: &[u32],
    m: usize,
) -> Result<(), RefusedAt>
    requires memory { m ≤ 65536 }
    ensures ok { OnOk result (AcceptedAt (record { sender = _sender.now; receiver = _receiver.now; least = least }) m (map (λ v. v.items) lists.now)
        (layout_of place words.now)) }
    ensures err { IfErr result (λ e. RefusesAt (record { sender = _sender.now; receiver = _receiver.now; least = least }) m (map
        (λ v. v.items) lists.now) (layout_of place words.now) e) }
    ensures accepts { AcceptedAt (record { sender = _sender.now; receiver = _receiver.now; least = least }) m (map (λ v. v.items) lists.now)
        (layout_of place words.now) → IsOk result }
{
    if lists.is_empty() {
        return Err(RefusedAt::Lists(Refused::NoSenders));
    }
    if lists.len() > MAX_SENDERS {
        return Err(RefusedAt::Lists(Refused::TooManySenders));
    }
    if place.slots < least {
        return Err(RefusedAt::Lists(Refused::RingTooSmall));
    }
    if place.base % 4 != 0 {
        return Err(RefusedAt::UnevenBase);
    }
    let stride = place.stride_or_dense();
    if stride % 4 != 0 {
        return Err(RefusedAt::UnevenStride);
    }
    if stride < 16 + 4 * place.slots as u64 {
        return Err(RefusedAt::BlocksMeet);
    }
    if !fits_at(place, lists.len(), words, m) {
        return Err(RefusedAt::Lists(Refused::DoesNotFit));
    }
    match filled_word(place, lists.len(), words) {
        Some(word) => return Err(RefusedAt::FilledBlock { word }),
        None => {}
    }
    match zero_word(lists) {
        Some((sender, place)) => Err(RefusedAt::Lists(Refused::ZeroWord { sender, place })),
        None => Ok(()),
    }
}

/// The opening of a channel of any two programs at a place, with rings of at least `least` slots, over a memory
/// of `m` words that opens with these: hart 0 receives, hart i + 1 sends list i through block i. Err with the
/// first refusal that applies, or that memory ran out where none does. Nothing is said of what these programs do.
pub fn opening_of_programs(
    alloc: Global,
    sender: &[u32],
    receiver: &[u32],
    least: u32,
    lists: &[Vec<u32>],
    place: BlockPlace,
    words: &[u32],
    m: usize,
) -> Result<Opening, RefusedAt>
    requires memory { m ≤ 65536 }
    ensures accepted { OnOk result (AcceptedAt (record { sender = sender.now; receiver = receiver.now; least = least }) m (map
        (λ v. v.items) lists.now) (layout_of place words.now)) }
    ensures value { IfOk result (λ o. o ≡ opening_at sender.now receiver.now (map (λ v. v.items) lists.now) (layout_of place words.now)) }
    ensures refused { IfErr result (λ e. RefusesAt (record { sender = sender.now; receiver = receiver.now; least = least }) m (map
        (λ v. v.items) lists.now) (layout_of place words.now) e) }
{
    judge_at(sender, receiver, least, lists, place, words, m)?;
    Ok(lay_out(alloc, sender, receiver, lists, place, words)?)
}

/// The opening of a channel of this kind at a place, as [`opening_of_programs`].
pub fn opening_at<K: RingKind>(
    alloc: Global,
    lists: &[Vec<u32>],
    place: BlockPlace,
    words: &[u32],
    m: usize,
) -> Result<Opening, RefusedAt>
    requires memory { m ≤ 65536 }
    ensures accepted { OnOk result (AcceptedAt K.ring m (map (λ v. v.items) lists.now) (layout_of place words.now)) }
    ensures value { IfOk result (λ o. o ≡ opening_over K.ring (map (λ v. v.items) lists.now) (layout_of place words.now)) }
    ensures refused { IfErr result (λ e. RefusesAt K.ring m (map (λ v. v.items) lists.now) (layout_of place words.now) e) }
{
    opening_of_programs(
        alloc,
        K::sender(),
        K::receiver(),
        K::least_size(),
        lists,
        place,
        words,
        m,
    )
}

/// The opening of a channel of this kind through rings of `ring` slots in the dense layout, where all memory
/// is zero. Err as [`opening_at`].
#[tactic(auto, using(crate::proofs::Opened::dense_refusal))]
pub fn opening<K: RingKind>(
    alloc: Global,
    lists: &[Vec<u32>],
    ring: u32,
    m: usize,
) -> Result<Opening, Refused>
    requires memory { m ≤ 65536 }
    ensures accepted { OnOk result (Accepted K.ring m (map (λ v. v.items) lists.now) ring) }
    ensures value { IfOk result (λ o. o ≡ opening_of K.ring (map (λ v. v.items) lists.now) ring) }
    ensures refused { IfErr result (λ e. Refuses K.ring m (map (λ v. v.items) lists.now) ring e) }
{
    match opening_at::<K>(alloc, lists, BlockPlace::dense(ring), &[], m) {
        Ok(opening) => Ok(opening),
        Err(why) => Err(why.of_lists()),
    }
}
