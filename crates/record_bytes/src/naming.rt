//! Texts that name bytes.

ghost use Rattle.std.specs.Prelude.{ℕ, ◌≡◌, ◌≤◌, ◌<◌, IfOk, false, true, codes};
ghost use Rattle.std.specs.List.{list_all, list_any};
ghost use Rattle.std.specs.Str.{bytes_eq};
ghost use Rattle.texts.specs.Pieces.{pieces};
ghost use Rattle.texts.specs.declared.pieces.Separators.TheVariants.{Byte};
ghost use Rattle.record_bytes.specs.Naming.{has_offset, is_bytes, is_range, names_byte, offset_of, offsets_below, range_of};
ghost use Rattle.record_bytes.specs.Ranges.{byte_ranges};

use crate::ranges::{ByteRange, add_offset};
use std::alloc::{AllocError, Global};
use texts::cutting::cut_at;
use texts::{Separators, first_piece, word};

/// What parts two items of a text.
const COMMA: Separators = Separators::Byte(b',');

/// The offset that one to four decimal digits say.
fn offset_of(digits: &[u8]) -> Option<u32>
    ensures { result ≡ offset_of digits.now }
{
    if digits.len() <= 4 {
        word(digits)
    } else {
        None
    }
}

/// The offsets of an item, as `8` or `0-3`.
#[tactic(auto, unfolding(crate::specs::Naming::range_of))]
fn range_of(item: &[u8]) -> Option<ByteRange>
    ensures { result ≡ range_of item.now }
{
    let (digits, rest) = cut_at(item, b'-');
    let first = offset_of(digits)?;
    let last = match rest {
        None => first,
        Some(digits) => offset_of(digits)?,
    };
    if first <= last {
        Some(ByteRange {
            first: u64::from(first),
            last: u64::from(last),
        })
    } else {
        None
    }
}

/// Whether each item of a text is one.
fn are_ranges(text: &[u8]) -> bool
    ensures { result ≡ list_all is_range (pieces (Byte 44) text.now) }
{
    let mut rest = Some(text);
    while let Some(items) = rest {
        let (item, after) = first_piece(COMMA, items);
        if range_of(item).is_none() {
            return false;
        }
        rest = after;
    }
    true
}

/// Whether an item has an offset.
fn has_offset(item: &[u8], offset: u64) -> bool
    ensures { result ≡ has_offset offset item.now }
{
    match range_of(item) {
        None => false,
        Some(range) => range.first <= offset && offset <= range.last,
    }
}

/// Whether an item of a text has an offset.
fn have_offset(text: &[u8], offset: u64) -> bool
    ensures { result ≡ list_any (has_offset offset) (pieces (Byte 44) text.now) }
{
    let mut rest = Some(text);
    while let Some(items) = rest {
        let (item, after) = first_piece(COMMA, items);
        if has_offset(item, offset) {
            return true;
        }
        rest = after;
    }
    false
}

/// Whether a text names bytes: it is `all`, or has items like `8` and `0-3` with commas between them, each offset of at most four digits.
pub fn is_bytes(text: &str) -> bool
    ensures { result ≡ is_bytes text.now }
{
    text == "all" || are_ranges(text.as_bytes())
}

/// Whether a text names the byte at an offset.
fn names_byte(text: &str, offset: u64) -> bool
    ensures { result ≡ names_byte text.now offset }
{
    text == "all" || have_offset(text.as_bytes(), offset)
}

/// The last of an item's offsets; 0, if it has none.
fn last_of(item: &[u8]) -> u64
    ensures { (b : ℕ) → result < b → has_offset b item.now ≡ false }
{
    match range_of(item) {
        None => 0,
        Some(range) => range.last,
    }
}

/// The greatest offset that a text with items has.
fn last_in(text: &[u8]) -> u64
    ensures { (b : ℕ) → result < b → list_any (has_offset b) (pieces (Byte 44) text.now) ≡ false }
{
    let mut last = 0;
    let mut rest = Some(text);
    while let Some(items) = rest {
        let (item, after) = first_piece(COMMA, items);
        last = last_of(item).max(last);
        rest = after;
    }
    last
}

/// The offsets below a width that a text with items names, as ranges.
fn named_ranges(alloc: Global, text: &str, width: u64) -> Result<Vec<ByteRange>, AllocError>
    requires { bytes_eq text.now (codes "all") ≡ false }
    ensures { IfOk result (λ ranges. ranges.items ≡ byte_ranges (offsets_below (names_byte text.now) width)) }
{
    let mut ranges = Vec::new(alloc);
    let end = width.min(last_in(text.as_bytes()).saturating_add(1));
    for offset in 0..end {
        if names_byte(text, offset) {
            add_offset(&mut ranges, offset)?;
        }
    }
    Ok(ranges)
}

/// All offsets below a width.
fn all_ranges(alloc: Global, width: u64) -> Result<Vec<ByteRange>, AllocError>
    ensures { IfOk result (λ ranges. ranges.items ≡ byte_ranges (offsets_below (λ b. true) width)) }
{
    let mut ranges = Vec::new(alloc);
    if width > 0 {
        ranges.push(ByteRange {
            first: 0,
            last: width - 1,
        })?;
    }
    Ok(ranges)
}

/// The bytes that a text names of a record of this width, as the shortest list of ranges. Its time and memory don't depend on the width.
pub fn ranges_in(alloc: Global, text: &str, width: u64) -> Result<Vec<ByteRange>, AllocError>
    ensures { IfOk result (λ ranges. ranges.items ≡ byte_ranges (offsets_below (names_byte text.now) width)) }
{
    if text == "all" {
        all_ranges(alloc, width)
    } else {
        named_ranges(alloc, text, width)
    }
}
