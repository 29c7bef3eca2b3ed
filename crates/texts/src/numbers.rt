//! Numbers in decimal and in hex, with a sign or without, and as they are written.

ghost use Rattle.std.specs.Prelude.{◌≡◌, ◌++◌, ◌≤◌, ◌<◌, ◌^◌, ℕ, pos, option_map, Some, IfSome, OnOk, OnErr};
ghost use Rattle.std.specs.String.{string_bytes};
ghost use Rattle.std.specs.Fmt.{decimal};
ghost use Rattle.texts.specs.Numbers.{capped_value, number_of, hex_number_of, below_cap_of, word_of, hex_word_of, SaysDecimal};
ghost use Rattle.texts.specs.Numbers.{IsHexWord};
ghost use Rattle.texts.specs.Grammars.{hex_magnitude, magnitude, negative, positive, integer};

use std::alloc::AllocError;

/// A number from here on counts as this one: it passes every limit of the texts, and so a number
/// of any length is read and none is refused for its size.
pub const NUMBER_CAP: u64 = 1 << 32;

/// The number that one or more digits of the radix say, capped at [`NUMBER_CAP`]; `None` for other bytes.
#[inline(always)]
#[tactic(auto, using(crate::proofs::NumberLaws::other_digit, crate::proofs::NumberLaws::read_digit, crate::proofs::NumberLaws::all_digits_more, crate::proofs::NumberLaws::value_more, crate::proofs::NumberLaws::capped_value_empty, crate::proofs::NumberLaws::capped_value_other))]
fn number_in(radix: u32, bytes: &[u8]) -> Option<u64>
    requires least { 2 ≤ radix }
    requires most { radix ≤ 36 }
    ensures { result ≡ capped_value radix bytes.now }
{
    if bytes.is_empty() {
        return None;
    }
    let mut value: u64 = 0;
    for byte in bytes {
        let digit = char::from(*byte).to_digit(radix)?;
        value = (value * u64::from(radix) + u64::from(digit)).min(NUMBER_CAP);
    }
    Some(value)
}

/// The number that one or more decimal digits say, capped at [`NUMBER_CAP`]; `None` for other bytes.
/// Leading zeros are digits like others, and there is no sign.
pub fn number(bytes: &[u8]) -> Option<u64>
    ensures { result ≡ number_of bytes.now }
{
    number_in(10, bytes)
}

/// The number that one or more hex digits of either case say, capped at [`NUMBER_CAP`]; `None` for
/// other bytes.
pub fn hex_number(bytes: &[u8]) -> Option<u64>
    ensures { result ≡ hex_number_of bytes.now }
{
    number_in(16, bytes)
}

/// The number as a word, where it is below the cap.
fn below_cap(number: Option<u64>) -> Option<u32>
    ensures { result ≡ below_cap_of number }
{
    match number {
        Some(value) if value < NUMBER_CAP => Some(value as u32),
        _ => None,
    }
}

/// The number below 2^32 that one or more decimal digits say; `None` for a larger one and for other
/// bytes.
pub fn word(bytes: &[u8]) -> Option<u32>
    ensures found { IfSome result (SaysDecimal bytes.now) }
    ensures only { (n : ℕ) → SaysDecimal bytes.now n → n < 2 ^ 32 → result ≡ Some n }
    ensures exact { result ≡ word_of bytes.now }
{
    below_cap(number(bytes))
}

/// The word that eight hex digits of either case say; `None` for other bytes.
pub fn hex_word(bytes: &[u8]) -> Option<u32>
    ensures found { IfSome result (IsHexWord bytes.now) }
    ensures only { (n : ℕ) → IsHexWord bytes.now n → result ≡ Some n }
    ensures exact { result ≡ hex_word_of bytes.now }
{
    if bytes.len() == 8 {
        below_cap(hex_number(bytes))
    } else {
        None
    }
}

/// `0x` and hex digits.
#[tactic(auto, using(crate::proofs::NumberLaws::small_number))]
fn hex_magnitude(text: &[u8]) -> Option<u64>
    ensures value { result ≡ hex_magnitude.reads text.now }
    ensures small { IfSome result (λ n. n ≤ 2 ^ 32) }
{
    match text {
        [b'0', b'x', digits @ ..] => hex_number(digits),
        _ => None,
    }
}

/// The number without its sign, capped at 2^32.
#[tactic(auto, using(crate::proofs::NumberLaws::small_number), unfolding(crate::specs::Grammars::magnitude))]
fn magnitude(text: &[u8]) -> Option<u64>
    ensures value { result ≡ magnitude.reads text.now }
    ensures small { IfSome result (λ n. n ≤ 2 ^ 32) }
{
    match hex_magnitude(text) {
        Some(number) => Some(number),
        None => number(text),
    }
}

fn negative(text: &[u8]) -> Option<i64>
    ensures { result ≡ negative.reads text.now }
{
    match text {
        [b'-', digits @ ..] => match magnitude(digits) {
            Some(number) => Some(-(number as i64)),
            None => None,
        },
        _ => None,
    }
}

fn positive(text: &[u8]) -> Option<i64>
    ensures { result ≡ positive.reads text.now }
{
    match magnitude(text) {
        Some(number) => Some(number as i64),
        None => None,
    }
}

/// The number that the text says: decimal digits, or `0x` and hex digits, with a `-` in front or
/// none. One from 2^32 on counts as 2^32, which is past every limit of the program.
#[tactic(auto, unfolding(crate::specs::Grammars::integer))]
pub fn integer(text: &[u8]) -> Option<i64>
    ensures { result ≡ integer.reads text.now }
{
    match negative(text) {
        Some(number) => Some(number),
        None => positive(text),
    }
}

/// Appends the number in decimal, without leading zeros. Where memory runs out, the text stays as it was.
pub fn push_decimal(out: &mut String, number: u64) -> Result<(), AllocError>
    ensures pushed { OnOk result (string_bytes out.new ≡ string_bytes out.old ++ decimal number) }
    ensures kept { OnErr result (string_bytes out.new ≡ string_bytes out.old) }
{
    // formatted apart, so that the text grows in one step or not at all
    let digits = format!(in *out.allocator(); "{number}")?;
    out.push_str(&digits)
}
