//! Quotients and remainders by any number, ranges of bytes, and the positions that lie in a slot.

ghost use Rattle.std.specs.Prelude.{◌≡◌, ◌≤◌, ◌<◌, ◌+◌, ◌/◌, ◌%◌, ◌^◌};
ghost use Rattle.std.specs.Int.{byte_at};
ghost use Rattle.ownership_runs.specs.Keeping.{is_in_bytes, position_from};
ghost use Rattle.ownership_runs.specs.inner.Bounds.{STEP, ROOM};

/// n / m, and 0 where m is 0: of a queue it isn't known that its numbers divide.
pub(crate) fn quotient(n: u128, m: u128) -> u128
    ensures value { result ≡ n / m }
    ensures small { result ≤ n }
{
    if m == 0 { 0 } else { n / m }
}

/// n % m, and n where m is 0.
pub(crate) fn remainder(n: u128, m: u128) -> u128
    ensures value { result ≡ n % m }
    ensures small { result ≤ n }
    ensures below { 0 < m → result < m }
{
    if m == 0 { n } else { n % m }
}

/// Whether x is one of `count` bytes from `from` on.
pub(crate) fn is_in_bytes(from: u128, count: u64, x: u64) -> bool
    ensures { result ≡ is_in_bytes from count x }
{
    let x = u128::from(x);
    from <= x && x - from < u128::from(count)
}

/// The least position from `from` on that lies in slot number `slot` of `size`.
pub(crate) fn position_from(size: u32, from: u128, slot: u128) -> u128
    requires from { from ≤ ROOM + STEP }
    requires slot { slot < 2 ^ 64 }
    ensures value { result ≡ position_from size from slot }
    ensures near { result ≤ from + slot + size }
{
    let size = u128::from(size);
    from + remainder(slot + size.saturating_sub(remainder(from, size)), size)
}

/// Byte `place` of a number, and 0 past its last one.
pub(crate) fn byte_at(value: u32, place: u32) -> u8
    ensures { result ≡ byte_at place value }
{
    if place < 4 {
        value.to_le_bytes()[place as usize]
    } else {
        0
    }
}
