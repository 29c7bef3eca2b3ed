//! A hart's own words: of which an access is, and what is known of them after a store.

ghost use Rattle.std.specs.Prelude.{◌≡◌, ◌^◌, ◌-◌, ◌&&◌, ◌==◌, if◌then◌else◌, IfOk, length, nat_lt, bit_and, bit_or, bit_xor};
ghost use Rattle.queue_certificates.specs.States.{own_at, any, index_for, has_bits, plain};
ghost use Rattle.queue_certificates.specs.Certificates.{queue_at, own_of};
ghost use Rattle.queue_certificates.specs.Steps.{all_below, last_below, is_one, is_apart, leaves_words, storable};
ghost use Rattle.queue_certificates.specs.Steps.{low_form, low_bytes, stored_value, word_then, words_then};
ghost use Rattle.known_values.specs.Queues.{queue_in};

use crate::certificate::{KnownState, QueueCertificate};
use crate::places::{is_apart, is_one};
use crate::sites::{Site, own_words, small};
use crate::states::push_copies;
use known_values::bits::known_beside;
use known_values::bounds::remainder_word;
use known_values::forms::{number, plus};
use known_values::lack::remainder_by;
use known_values::queues::{queue_in, words_of};
use known_values::rests::counting;
use known_values::values::{any, has_bits, index_for, linear, plain};
use known_values::{Bounds, Form, Known, KnownValue, Lack, OpenedQueue};
use queue_certificates::OwnWord;
use std::alloc::Global;

/// Whether an access is of an own word, whole.
fn is_word(word: OwnWord, bounds: Bounds, width: u64) -> bool
    ensures { result ≡ (is_one bounds && (bounds.low == word.at) && (width == word.width)) }
{
    let one = is_one(bounds);
    let there = bounds.low == u64::from(word.at);
    let whole = width == u64::from(word.width);
    one && there && whole
}

/// The last of these words that an access is of, whole.
pub(crate) fn last_own_word(own: &[OwnWord], bounds: Bounds, width: u64) -> Option<usize>
    ensures { result ≡ last_below (length own.now) (λ j. is_one bounds && (bounds.low == (own_at own.now j).at)
        && (width == (own_at own.now j).width)) }
{
    let mut last = None;
    for i in 0..own.len() {
        if is_word(own[i], bounds, width) {
            last = Some(i);
        }
    }
    last
}

/// Whether the bytes are none of an own word's.
fn is_beside(word: OwnWord, bounds: Bounds, width: u64) -> Result<bool, Lack>
    ensures { IfOk result (λ apart. apart ≡ is_apart bounds width word.at word.width) }
{
    is_apart(bounds, width, u64::from(word.at), u64::from(word.width))
}

/// Whether the bytes are none of these words'.
fn are_apart(own: &[OwnWord], bounds: Bounds, width: u64) -> Result<bool, Lack>
    ensures { IfOk result (λ apart. apart ≡ all_below (length own.now) (λ j. is_apart bounds width (own_at own.now j).at (own_at own.now j).width)) }
{
    let mut all = true;
    for j in 0..own.len() {
        all = is_beside(own[j], bounds, width)? && all;
    }
    Ok(all)
}

/// Whether the bytes are none of this hart's own words, if it is another.
fn leaves_words_of(
    certificate: &QueueCertificate,
    hart: u32,
    bounds: Bounds,
    width: u64,
    other: u32,
) -> Result<bool, Lack>
    ensures { IfOk result (λ leaves. leaves ≡ leaves_words (own_of certificate.now) hart bounds width other) }
{
    if other == hart {
        Ok(true)
    } else {
        are_apart(own_words(certificate, other), bounds, width)
    }
}

/// Whether the bytes are none of another hart's own words.
pub(crate) fn leaves_words(
    certificate: &QueueCertificate,
    hart: u32,
    bounds: Bounds,
    width: u64,
) -> Result<bool, Lack>
    ensures { IfOk result (λ leaves. leaves ≡ all_below (length certificate.now.harts) (leaves_words (own_of certificate.now) hart bounds width)) }
{
    let mut all = true;
    for other in 0..small(certificate.harts.len())? {
        all = leaves_words_of(certificate, hart, bounds, width, other)? && all;
    }
    Ok(all)
}

/// What a word is known as that holds a number of which this is known.
pub(crate) fn storable(
    alloc: Global,
    certificate: &QueueCertificate,
    value: &KnownValue,
) -> Result<KnownValue, Lack>
    ensures { IfOk result (λ v. v ≡ storable (length certificate.now.queues) value.now) }
{
    match &value.known {
        Known::IndexFor(i, _) if *i as usize >= certificate.queues.len() => Ok(any()),
        Known::SignedFor(i, _) if *i as usize >= certificate.queues.len() => Ok(any()),
        Known::EndsAs(_, _) => Ok(any()),
        _ => value.copy(alloc),
    }
}

/// How many numbers as many bytes have.
fn numbers_of(width: u64) -> Result<u64, Lack>
    ensures { IfOk result (λ n. n ≡ 256 ^ width) }
{
    match u32::try_from(width) {
        Ok(width) => words_of(width),
        Err(_) => Err(Lack::TooLarge),
    }
}

/// The remainder by `n` of the number that `form` is: `rest`, where that is one, or a word of the queue that counts on in `n` words.
fn low_form(
    alloc: Global,
    queues: &[OpenedQueue],
    n: u64,
    form: &Form,
    rest: Option<Form>,
    counting: Option<u32>,
) -> Result<KnownValue, Lack>
    ensures { IfOk result (λ v. v ≡ low_form (queue_in queues.now) n form.now rest counting) }
{
    match (rest, counting) {
        (Some(rest), _) => Ok(linear(rest)),
        (None, None) => Ok(any()),
        (None, Some(i)) => {
            let less = remainder_by(queue_in(queues, i).offset, n);
            let back = number(alloc, n.saturating_sub(less));
            Ok(index_for(i, plus(alloc, form, &back)?))
        }
    }
}

/// The number of the lowest bytes of a number that has these bits, where `n` numbers have as many bytes.
fn low_bits(n: u64, mask: u32, bits: u32) -> Result<KnownValue, Lack>
    ensures { IfOk result (λ v. v ≡ has_bits (bit_or mask (bit_xor (n - 1) (2 ^ 32 - 1))) (bit_and bits (n - 1))) }
{
    match u32::try_from(n.saturating_sub(1)) {
        Ok(low) => Ok(has_bits(known_beside(mask, low), bits & low)),
        Err(_) => Err(Lack::TooLarge),
    }
}

/// The word of queue `i`'s index, if there is that queue and `whole` says that all bytes of the index are there.
fn whole_index(
    alloc: Global,
    queues: &[OpenedQueue],
    i: u32,
    form: &Form,
    whole: bool,
) -> Result<KnownValue, Lack>
    ensures { IfOk result (λ v. v ≡ (if nat_lt i (length queues.now) && whole then index_for i form.now else any)) }
{
    if (i as usize) < queues.len() && whole {
        Ok(index_for(i, form.copy(alloc)?))
    } else {
        Ok(any())
    }
}

/// What is known of the number of a value's lowest bytes.
fn low_bytes(
    alloc: Global,
    queues: &[OpenedQueue],
    ranges: &[Option<u64>],
    width: u64,
    value: &KnownValue,
) -> Result<KnownValue, Lack>
    ensures { IfOk result (λ v. v ≡ low_bytes (queue_in queues.now) (length queues.now) ranges.now width value.now) }
{
    match &value.known {
        Known::Any => Ok(any()),
        Known::Linear(form) => {
            let n = numbers_of(width)?;
            let rest = remainder_word(alloc, ranges, form, n)?;
            low_form(alloc, queues, n, form, rest, counting(queues, n)?)
        }
        Known::IndexFor(i, form) => {
            let index_width = u64::from(queue_in(queues, *i).index_width);
            whole_index(alloc, queues, *i, form, index_width <= width)
        }
        Known::SignedFor(i, form) => {
            let index_width = u64::from(queue_in(queues, *i).index_width);
            whole_index(alloc, queues, *i, form, index_width == width)
        }
        Known::EndsAs(_, _) => Ok(any()),
        Known::HasBits(mask, bits) => low_bits(numbers_of(width)?, *mask, *bits),
    }
}

/// The same of a value that may be an index's word, in a state.
fn low_value(
    alloc: Global,
    certificate: &QueueCertificate,
    state: &KnownState,
    width: u64,
    value: &KnownValue,
) -> Result<KnownValue, Lack>
    ensures { IfOk result (λ v. v ≡ low_bytes (queue_at certificate.now) (length certificate.now.queues) state.now.ranges width
        (plain (queue_at certificate.now) state.now.ranges value.now)) }
{
    let queues: &[OpenedQueue] = &certificate.queues;
    let ranges: &[Option<u64>] = &state.ranges;
    let form = plain(alloc, queues, ranges, value)?;
    low_bytes(alloc, queues, ranges, width, &form)
}

/// What is known of the number of which a store of a value leaves as many bytes.
fn stored_value(
    alloc: Global,
    site: &Site<'_>,
    width: u64,
    value: &KnownValue,
) -> Result<KnownValue, Lack>
    ensures { IfOk result (λ v. v ≡ stored_value (queue_at site.now.certificate.now) (length site.now.certificate.now.queues)
        site.now.state.now.ranges width value.now) }
{
    let (certificate, state) = (site.certificate, site.state);
    if width == 4 {
        storable(alloc, certificate, value)
    } else {
        low_value(alloc, certificate, state, width, value)
    }
}

/// What is known of an own word after a store of a value, of which this was known.
fn word_then(
    alloc: Global,
    site: &Site<'_>,
    bounds: Bounds,
    width: u64,
    value: &KnownValue,
    own: OwnWord,
    word: &KnownValue,
) -> Result<KnownValue, Lack>
    ensures { IfOk result (λ v. v ≡ word_then (queue_at site.now.certificate.now) (length site.now.certificate.now.queues)
        site.now.state.now.ranges bounds width value.now own word.now) }
{
    if is_beside(own, bounds, width)? {
        word.copy(alloc)
    } else if is_word(own, bounds, width) {
        stored_value(alloc, site, width, value)
    } else {
        Ok(any())
    }
}

/// What is known of these own words after a store of a value.
fn these_words_then(
    alloc: Global,
    site: &Site<'_>,
    bounds: Bounds,
    width: u64,
    value: &KnownValue,
    mut own: &[OwnWord],
    mut words: &[KnownValue],
) -> Result<Vec<KnownValue>, Lack>
    ensures { IfOk result (λ ws. ws.items ≡ words_then (queue_at site.now.certificate.now) (length site.now.certificate.now.queues)
        site.now.state.now.ranges bounds width value.now own.now words.now) }
{
    let mut out = Vec::new(alloc);
    'words: loop {
        match (own, words) {
            ([], rest) => {
                push_copies(alloc, &mut out, rest)?;
                return Ok(out);
            }
            ([_first, _others @ ..], []) => return Ok(out),
            ([first, others @ ..], [word, more @ ..]) => {
                out.push(word_then(alloc, site, bounds, width, value, *first, word)?)?;
                own = others;
                words = more;
            }
        }
    }
}

/// What is known of the hart's own words after a store of a value.
pub(crate) fn words_then(
    alloc: Global,
    site: &Site<'_>,
    bounds: Bounds,
    width: u64,
    value: &KnownValue,
) -> Result<Vec<KnownValue>, Lack>
    ensures { IfOk result (λ ws. ws.items ≡ words_then (queue_at site.now.certificate.now) (length site.now.certificate.now.queues)
        site.now.state.now.ranges bounds width value.now (own_of site.now.certificate.now site.now.hart) site.now.state.now.words) }
{
    let state = site.state;
    let own = own_words(site.certificate, site.hart);
    these_words_then(alloc, site, bounds, width, value, own, &state.words)
}
