//! Offsets as ranges.

ghost use Rattle.std.specs.Prelude.{ℕ, ◌≡◌, ◌++◌, ◌∷◌, ◌&&◌, ◌||◌, not, nat_lt, [], IfOk, IfSome, OnOk, is_some, option_to_list};
ghost use Rattle.record_bytes.specs.Naming.{part_has};
ghost use Rattle.record_bytes.specs.Ranges.{range_has, has_byte, one_offset, with_offset, touch, part_before, part_after, parts_of, ranges_without};

use std::alloc::{AllocError, Global};

/// The offsets from `first` to `last`.
#[derive(Clone, Copy)]
pub struct ByteRange {
    pub first: u64,
    pub last: u64,
}

/// Adds a range of this one offset.
fn push_one(ranges: &mut Vec<ByteRange>, offset: u64) -> Result<(), AllocError>
    ensures { OnOk result (ranges.new.items ≡ ranges.old.items ++ one_offset offset ∷ []) }
{
    ranges.push(ByteRange {
        first: offset,
        last: offset,
    })?;
    Ok(())
}

/// Adds an offset after these ranges: to the last of them, if it follows that.
pub(crate) fn add_offset(ranges: &mut Vec<ByteRange>, offset: u64) -> Result<(), AllocError>
    ensures { OnOk result (ranges.new.items ≡ with_offset ranges.old.items offset) }
{
    match ranges.pop() {
        None => push_one(ranges, offset),
        Some(range) => {
            if range.last < offset && offset - range.last == 1 {
                ranges.push(ByteRange {
                    first: range.first,
                    last: offset,
                })?;
                return Ok(());
            }
            ranges.push(range)?;
            push_one(ranges, offset)
        }
    }
}

/// The bytes of two ranges as one; `None`, if there is a byte between them.
pub fn joined(range: ByteRange, other: ByteRange) -> Option<ByteRange>
    ensures one { IfSome result (λ both. (b : ℕ) → range_has both b ≡ (range_has range b || range_has other b)) }
    ensures touch { is_some result ≡ touch range other }
{
    if range.first.saturating_sub(1) <= other.last && other.first.saturating_sub(1) <= range.last {
        Some(ByteRange {
            first: range.first.min(other.first),
            last: range.last.max(other.last),
        })
    } else {
        None
    }
}

/// The bytes of a range that come before another one; `None`, or a range whose last byte comes before its first, where there is none.
pub fn part_before(range: ByteRange, cut: ByteRange) -> Option<ByteRange>
    ensures exact { result ≡ part_before range cut }
    ensures has { (b : ℕ) → part_has b result ≡ (range_has range b && nat_lt b cut.first) }
{
    if range.first < cut.first {
        Some(ByteRange {
            first: range.first,
            last: range.last.min(cut.first - 1),
        })
    } else {
        None
    }
}

/// The bytes of a range that come after another one.
pub fn part_after(range: ByteRange, cut: ByteRange) -> Option<ByteRange>
    ensures exact { result ≡ part_after range cut }
    ensures has { (b : ℕ) → part_has b result ≡ (range_has range b && nat_lt cut.last b) }
{
    if cut.last < range.last {
        Some(ByteRange {
            first: range.first.max(cut.last + 1),
            last: range.last,
        })
    } else {
        None
    }
}

fn push_part(ranges: &mut Vec<ByteRange>, part: Option<ByteRange>) -> Result<(), AllocError>
    ensures exact { OnOk result (ranges.new.items ≡ ranges.old.items ++ option_to_list part) }
    ensures has { OnOk result ((b : ℕ) → has_byte ranges.new.items b ≡ (has_byte ranges.old.items b || part_has b part)) }
{
    if let Some(range) = part {
        ranges.push(range)?;
    }
    Ok(())
}

/// Adds what is left of a range without another.
fn push_rest(
    ranges: &mut Vec<ByteRange>,
    range: ByteRange,
    cut: ByteRange,
) -> Result<(), AllocError>
    ensures exact { OnOk result (ranges.new.items ≡ ranges.old.items ++ parts_of cut range) }
    ensures has { OnOk result ((b : ℕ) → has_byte ranges.new.items b ≡ (has_byte ranges.old.items b || (range_has range b && not (range_has cut b)))) }
{
    if cut.last < cut.first {
        return push_part(ranges, Some(range));
    }
    push_part(ranges, part_before(range, cut))?;
    push_part(ranges, part_after(range, cut))
}

/// Ranges without the bytes of another.
pub fn ranges_without(
    alloc: Global,
    ranges: &[ByteRange],
    cut: ByteRange,
) -> Result<Vec<ByteRange>, AllocError>
    ensures exact { IfOk result (λ left. left.items ≡ ranges_without ranges.now cut) }
    ensures has { IfOk result (λ left. (b : ℕ) → has_byte left.items b ≡ (has_byte ranges.now b && not (range_has cut b))) }
{
    let mut left = Vec::new(alloc);
    for range in ranges {
        push_rest(&mut left, *range, cut)?;
    }
    Ok(left)
}
