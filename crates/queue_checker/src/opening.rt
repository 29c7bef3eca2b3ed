//! Whether a hart opens in a state.

ghost use Rattle.std.specs.Prelude.{◌≡◌, ◌+◌, ◌*◌, ◌%◌, ◌^◌, IfOk, length, get_or, slice_index, slice_set, nat_lt, nat_le, ◌&&◌};
ghost use Rattle.memory.specs.Writes.{byte_of, joined};
ghost use Rattle.step_machine.specs.Entries.{opening_byte};
ghost use Rattle.slot_queue.specs.Queues.{index_word};
ghost use Rattle.slot_queue.specs.Ownership.{party_of};
ghost use Rattle.queue_certificates.specs.OwnedRuns.{number_seen};
ghost use Rattle.queue_certificates.specs.States.{any, no_share, own_at, own_number};
ghost use Rattle.queue_certificates.specs.Steps.{all_below};
ghost use Rattle.queue_certificates.specs.Certificates.{queue_at, start_at, own_of, part_of, state_at, no_queue};
ghost use Rattle.queue_certificates.specs.Certificates.{is_value, is_at_most, are_in_ranges, opens_share, opens_in, opens_unfilled, opens_all_told};
ghost use Rattle.known_values.specs.Queues.{queue_in};
ghost use Rattle.queue_checker.specs.Flaws.{hart_at, opening_holds};

use crate::certificate::{HartPart, KnownState, QueueCertificate, Share};
use crate::opening_tags::opens_all_told;
use crate::sending::opens_unfilled;
use crate::sites::{listed_states, own_words, queue_count};
use crate::states::{share_in, value_in};
use known_values::forms::form_value;
use known_values::lack::{product, remainder_by, sum};
use known_values::queues::queue_in;
use known_values::values::signed_word;
use known_values::{Known, KnownValue, Lack, OpenedQueue, Queue};
use queue_certificates::OwnWord;
use std::alloc::Global;
use step_machine::{HartOpening, Opening};

const WORDS: u64 = 1 << 32;

/// The word of a queue's index that stands for a count.
pub(crate) fn index_word(queue: Queue, count: u64) -> Result<u64, Lack>
    ensures { IfOk result (λ word. word ≡ index_word queue count) }
{
    let turn = remainder_by(sum(count, queue.offset)?, queue.modulus);
    sum(u64::from(queue.base), product(queue.scale, turn)?)
}

/// The byte at an address of these words; words that are missing are 0.
fn byte_of(words: &[u32], address: u64) -> u64
    ensures { result ≡ byte_of words.now address }
{
    let word = word_of(words, address / 4);
    let bytes = word.to_le_bytes();
    u64::from(bytes[(address % 4) as usize])
}

fn word_of(words: &[u32], i: u64) -> u32
    ensures { result ≡ slice_index words.now i }
{
    match usize::try_from(i) {
        Ok(i) if i < words.len() => words[i],
        _ => 0,
    }
}

/// The number of `width` bytes from `address` on, as a machine opens.
pub(crate) fn number_at(words: &[u32], address: u64, width: u32) -> Result<u64, Lack>
    ensures { IfOk result (λ n. n ≡ joined (λ i. byte_of words.now (address + i)) width) }
{
    let mut number = 0;
    let mut unit = 1;
    for i in 0..width {
        let byte = byte_of(words, sum(address, u64::from(i))?);
        number = sum(number, product(byte, unit)?)?;
        unit = product(unit, 256)?;
    }
    Ok(number)
}

/// Whether a word is what is known of it, where the variables are these numbers.
fn is_value(
    queues: &[OpenedQueue],
    numbers: &[u64],
    value: &KnownValue,
    word: u64,
) -> Result<bool, Lack>
    ensures { IfOk result (λ same. same ≡ is_value (queue_in queues.now) numbers.now value.now word) }
{
    match &value.known {
        Known::Any => Ok(true),
        Known::Linear(form) => Ok(word == form_value(form, numbers)? % WORDS),
        Known::IndexFor(i, form) => {
            Ok(word == index_word(queue_in(queues, *i), form_value(form, numbers)?)?)
        }
        Known::SignedFor(i, form) => {
            let queue = queue_in(queues, *i);
            let index = index_word(queue, form_value(form, numbers)?)?;
            Ok(word == signed_word(queue.index_width, index)?)
        }
        Known::EndsAs(_, _) => Ok(false),
        Known::HasBits(_, _) => Ok(false),
    }
}

fn is_at_most(range: Option<u64>, number: u64) -> bool
    ensures { result ≡ is_at_most range number }
{
    match range {
        None => true,
        Some(most) => number <= most,
    }
}

/// Whether these numbers lie in these ranges, as many as there are.
fn are_in_ranges(mut ranges: &[Option<u64>], mut numbers: &[u64]) -> bool
    ensures { result ≡ are_in_ranges ranges.now numbers.now }
{
    'pairs: loop {
        match (ranges, numbers) {
            ([], []) => return true,
            ([], [_first, _others @ ..]) => return false,
            ([_first, _others @ ..], []) => return false,
            ([range, more @ ..], [number, others @ ..]) => {
                if !is_at_most(*range, *number) {
                    return false;
                }
                ranges = more;
                numbers = others;
            }
        }
    }
}

/// Whether a queue opens with this share of the hart's, where it is a party.
fn opens_share(
    queue: Queue,
    hart: u32,
    start: u64,
    share: &Share,
    numbers: &[u64],
) -> Result<bool, Lack>
    ensures { IfOk result (λ opens. opens ≡ opens_share queue (party_of queue hart) start share.now numbers.now) }
{
    let own = form_value(&share.own, numbers)?;
    let upto = sum(own, form_value(&share.owned, numbers)?)?;
    let all_free = sum(start, u64::from(queue.capacity))?;
    if hart == queue.sender {
        Ok(start == own && all_free == upto)
    } else if hart == queue.receiver {
        Ok(start == own && start == upto)
    } else {
        Ok(true)
    }
}

/// What a register opens with; x0 with 0.
fn opening_word(registers: &[u32], i: usize) -> u32
    ensures { result ≡ slice_index (slice_set registers.now 0 0) i }
{
    if i == 0 {
        return 0;
    }
    match registers.get(i) {
        Some(word) => *word,
        None => 0,
    }
}

fn is_register(
    alloc: Global,
    queues: &[OpenedQueue],
    numbers: &[u64],
    values: &[KnownValue],
    registers: &[u32],
    i: usize,
) -> Result<bool, Lack>
    ensures { IfOk result (λ same. same ≡ is_value (queue_in queues.now) numbers.now (get_or values.now i any) (slice_index (slice_set registers.now
        0 0) i)) }
{
    let value = value_in(alloc, values, i)?;
    is_value(
        queues,
        numbers,
        &value,
        u64::from(opening_word(registers, i)),
    )
}

fn are_registers(
    alloc: Global,
    queues: &[OpenedQueue],
    numbers: &[u64],
    values: &[KnownValue],
    registers: &[u32],
) -> Result<bool, Lack>
    ensures { IfOk result (λ same. same ≡ all_below (length values.now) (λ j. is_value (queue_in queues.now) numbers.now (get_or values.now j any)
        (slice_index (slice_set registers.now 0 0) j))) }
{
    let mut all = true;
    for j in 0..values.len() {
        all = is_register(alloc, queues, numbers, values, registers, j)? && all;
    }
    Ok(all)
}

fn is_own_word(
    alloc: Global,
    queues: &[OpenedQueue],
    numbers: &[u64],
    values: &[KnownValue],
    words: &[u32],
    own: OwnWord,
    i: usize,
) -> Result<bool, Lack>
    ensures { IfOk result (λ same. same ≡ is_value (queue_in queues.now) numbers.now (get_or values.now i any) (number_seen (byte_of words.now)
        own.at own.width)) }
{
    let value = value_in(alloc, values, i)?;
    let number = number_at(words, u64::from(own.at), own.width)?;
    is_value(queues, numbers, &value, number)
}

fn are_own_words(
    alloc: Global,
    queues: &[OpenedQueue],
    numbers: &[u64],
    values: &[KnownValue],
    words: &[u32],
    own: &[OwnWord],
) -> Result<bool, Lack>
    ensures { IfOk result (λ same. same ≡ all_below (length own.now) (λ j. is_value (queue_in queues.now) numbers.now (get_or values.now j any)
        (number_seen (byte_of words.now) (own_at own.now j).at (own_at own.now j).width))) }
{
    let mut all = true;
    for j in 0..own.len() {
        all = is_own_word(alloc, queues, numbers, values, words, own[j], j)? && all;
    }
    Ok(all)
}

/// Whether the hart's own words open as a state says.
fn own_words_open(
    alloc: Global,
    opening: &Opening,
    certificate: &QueueCertificate,
    hart: u32,
    state: &KnownState,
    numbers: &[u64],
) -> Result<bool, Lack>
    ensures { IfOk result (λ same. same ≡ all_below (length (own_of certificate.now hart)) (λ j. is_value (queue_at certificate.now) numbers.now
        (get_or state.now.words j any) (own_number (opening_byte opening.now) (own_at (own_of certificate.now hart) j)))) }
{
    let own = own_words(certificate, hart);
    let queues: &[OpenedQueue] = &certificate.queues;
    let values: &[KnownValue] = &state.words;
    let words: &[u32] = &opening.words;
    are_own_words(alloc, queues, numbers, values, words, own)
}

/// The count at which queue `i` opens; 0, if there are fewer.
pub(crate) fn start_in(queues: &[OpenedQueue], i: u32) -> u64
    ensures { result ≡ (get_or queues.now i no_queue).start }
{
    match queues.get(i as usize) {
        Some(opened) => opened.start,
        None => 0,
    }
}

fn opens_share_at(
    alloc: Global,
    queues: &[OpenedQueue],
    hart: u32,
    shares: &[Share],
    numbers: &[u64],
    i: u32,
) -> Result<bool, Lack>
    ensures { IfOk result (λ opens. opens ≡ opens_share (queue_in queues.now i) (party_of (queue_in queues.now i) hart) (get_or queues.now i
        no_queue).start (get_or shares.now i no_share) numbers.now) }
{
    let share = share_in(alloc, shares, i as usize)?;
    opens_share(
        queue_in(queues, i),
        hart,
        start_in(queues, i),
        &share,
        numbers,
    )
}

fn open_shares(
    alloc: Global,
    certificate: &QueueCertificate,
    hart: u32,
    shares: &[Share],
    numbers: &[u64],
) -> Result<bool, Lack>
    ensures { IfOk result (λ opens. opens ≡ all_below (length certificate.now.queues) (λ i. opens_share (queue_at certificate.now i) (party_of
        (queue_at certificate.now i) hart) (start_at certificate.now i) (get_or shares.now i no_share) numbers.now)) }
{
    let mut all = true;
    for i in 0..queue_count(certificate)? {
        all = opens_share_at(alloc, &certificate.queues, hart, shares, numbers, i)? && all;
    }
    Ok(all)
}

/// Whether the hart opens in a state, where its variables are these numbers.
fn opens_in(
    alloc: Global,
    opening: &Opening,
    certificate: &QueueCertificate,
    hart: u32,
    its: &HartOpening,
    state: &KnownState,
    numbers: &[u64],
) -> Result<bool, Lack>
    ensures { IfOk result (λ opens. opens ≡ opens_in opening.now certificate.now hart its.now state.now numbers.now) }
{
    let queues = &certificate.queues;
    let in_ranges = are_in_ranges(&state.ranges, numbers);
    let at_start = state.pc == 0;
    let registers = are_registers(alloc, queues, numbers, &state.registers, &its.registers)?;
    let words = own_words_open(alloc, opening, certificate, hart, state, numbers)?;
    let shares = open_shares(alloc, certificate, hart, &state.shares, numbers)?;
    Ok(in_ranges && at_start && registers && words && shares)
}

fn opens_part(
    alloc: Global,
    opening: &Opening,
    certificate: &QueueCertificate,
    hart: u32,
    its: &HartOpening,
    part: &HartPart,
) -> Result<bool, Lack>
    requires { part.now ≡ part_of certificate.now hart }
    ensures { IfOk result (λ opens. opens ≡ (nat_lt part.now.first (length part.now.states) && opens_in opening.now certificate.now hart its.now
        (state_at certificate.now hart part.now.first).known part.now.numbers && opens_all_told certificate.now hart (state_at certificate.now hart
        part.now.first).known part.now.numbers && opens_unfilled certificate.now (state_at certificate.now hart
        part.now.first).filled)) }
{
    match part.states.get(part.first as usize) {
        None => Ok(false),
        Some(first) => {
            let opens = opens_in(
                alloc,
                opening,
                certificate,
                hart,
                its,
                &first.known,
                &part.numbers,
            )?;
            let numbers = &part.numbers;
            let told = opens_all_told(alloc, certificate, hart, &first.known.shares, numbers)?;
            let unfilled = opens_unfilled(certificate, &first.filled)?;
            Ok(opens && told && unfilled)
        }
    }
}

/// Whether the hart opens as its part of the certificate says.
pub(crate) fn opening_holds(
    alloc: Global,
    opening: &Opening,
    certificate: &QueueCertificate,
    hart: u32,
    its: &HartOpening,
) -> Result<bool, Lack>
    requires { its.now ≡ hart_at opening.now hart }
    ensures { IfOk result (λ holds. holds ≡ opening_holds opening.now certificate.now hart) }
{
    match certificate.harts.get(hart as usize) {
        None => Ok(false),
        Some(part) => {
            let registers: &[u32] = &its.registers;
            let enough = registers.len() >= 32;
            let opens = opens_part(alloc, opening, certificate, hart, its, part)?;
            Ok(enough && opens)
        }
    }
}
