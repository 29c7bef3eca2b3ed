//! Bytes, as lines name them.

ghost use Rattle.std.specs.Prelude.{◌≡◌, ◌++◌, OnOk};
ghost use Rattle.std.specs.String.{string_bytes};
ghost use Rattle.record_bytes.specs.declared.ranges.ByteRange.{ByteRange};
ghost use Rattle.certifying.specs.Descriptions.{bytes_text, bytes_word, gap_before, is_one_byte, range_text, ranges_text};

use record_bytes::ByteRange;
use std::alloc::AllocError;

fn push_range(out: &mut String, range: ByteRange) -> Result<(), AllocError>
    ensures { OnOk result (string_bytes out.new ≡ string_bytes out.old ++ range_text range) }
{
    let ByteRange { first, last } = range;
    if first == last {
        write!(out, "{first}")
    } else {
        write!(out, "{first}-{last}")
    }
}

/// What stands between a range and these after it.
fn push_gap(out: &mut String, others: &[ByteRange]) -> Result<(), AllocError>
    ensures { OnOk result (string_bytes out.new ≡ string_bytes out.old ++ gap_before others.now) }
{
    match others {
        [] => Ok(()),
        [_] => out.push_str(" and "),
        _ => out.push_str(", "),
    }
}

fn push_ranges(out: &mut String, ranges: &[ByteRange]) -> Result<(), AllocError>
    ensures { OnOk result (string_bytes out.new ≡ string_bytes out.old ++ ranges_text ranges.now) }
{
    let mut rest = ranges;
    while let [first, others @ ..] = rest {
        push_range(out, *first)?;
        push_gap(out, others)?;
        rest = others;
    }
    Ok(())
}

/// Whether these ranges are a single byte.
pub fn is_one_byte(ranges: &[ByteRange]) -> bool
    ensures { result ≡ is_one_byte ranges.now }
{
    match ranges {
        [range] => range.first == range.last,
        _ => false,
    }
}

fn push_word(out: &mut String, one: bool) -> Result<(), AllocError>
    ensures { OnOk result (string_bytes out.new ≡ string_bytes out.old ++ bytes_word one) }
{
    if one {
        out.push_str("byte ")
    } else {
        out.push_str("bytes ")
    }
}

/// Appends `byte 2`, or `bytes 0-3 and 8`.
pub fn push_bytes(out: &mut String, ranges: &[ByteRange]) -> Result<(), AllocError>
    ensures { OnOk result (string_bytes out.new ≡ string_bytes out.old ++ bytes_text ranges.now) }
{
    push_word(out, is_one_byte(ranges))?;
    push_ranges(out, ranges)
}
