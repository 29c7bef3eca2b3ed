//! Bits of a word, of which some are known.

ghost use Rattle.std.specs.Prelude.{◌≡◌, ◌<◌, ◌+◌, ◌*◌, ◌/◌, ◌%◌, ◌^◌, ◌-◌, ◌==◌, ◌&&◌, nat_le, bit_and, bit_or, bit_xor, count_ones, IfOk};
ghost use Rattle.queue_certificates.specs.Results.{of_bits, number_bits, bits_of, either_bits, or_of, sign_or};

use crate::forms::number;
use crate::numbers::as_number;
use crate::values::{Known, KnownValue, any, has_bits, linear};
use std::alloc::Global;
use std::marker::Model;

/// The low bits that may be the number of a slot.
const SLOT_BITS: u32 = 0xffff;

/// Those under the mask are `bits`.
#[derive(Clone, Copy, PartialEq, Eq)]
pub struct Bits {
    pub mask: u32,
    pub bits: u32,
}

impl Model for Bits {
    ghost use Rattle.queue_certificates.specs.Results.{Bits as BitsOf};

    ghost Value = { BitsOf };

    ghost view = { λ b. record { mask = b.mask; bits = b.bits } };

    ghost inverse = { λ b. record { mask = b.mask; bits = b.bits } };
}

/// A word of these bits, or the number that they are, where the mask has all.
pub fn of_bits(alloc: Global, mask: u32, bits: u32) -> KnownValue
    ensures { result ≡ of_bits mask bits }
{
    if mask == u32::MAX {
        linear(number(alloc, u64::from(bits)))
    } else {
        has_bits(mask, bits)
    }
}

/// All bits of a number, and none of what isn't known to be one.
fn number_bits(number: Option<u32>) -> Bits
    ensures { result ≡ number_bits number }
{
    match number {
        None => Bits { mask: 0, bits: 0 },
        Some(n) => Bits {
            mask: u32::MAX,
            bits: n,
        },
    }
}

/// The bits that are known of a value, where it is a word.
pub fn bits_of(value: &KnownValue) -> Option<Bits>
    ensures { result ≡ bits_of value.now }
{
    match &value.known {
        Known::Any => None,
        Known::Linear(_) => Some(number_bits(as_number(value))),
        Known::IndexFor(_, _) => None,
        Known::SignedFor(_, _) => None,
        Known::EndsAs(_, _) => None,
        Known::HasBits(mask, bits) => Some(Bits {
            mask: *mask,
            bits: *bits,
        }),
    }
}

fn either_bits(alloc: Global, left: Option<Bits>, right: Option<Bits>) -> KnownValue
    ensures { result ≡ either_bits left right }
{
    match (left, right) {
        (Some(a), Some(b)) => {
            let bits = a.bits | b.bits;
            of_bits(alloc, (a.mask & b.mask) | bits, bits)
        }
        _ => any(),
    }
}

/// The `or` of two values.
pub fn or_of(alloc: Global, left: &KnownValue, right: &KnownValue) -> KnownValue
    ensures { result ≡ or_of left.now right.now }
{
    either_bits(alloc, bits_of(left), bits_of(right))
}

/// The bits that are known of a word of which a mask keeps some: all those beside it are 0.
pub fn known_beside(known: u32, mask: u32) -> u32
    ensures { result ≡ bit_or known (bit_xor mask (2 ^ 32 - 1)) }
{
    known | (mask ^ u32::MAX)
}

/// Whether the mask keeps low bits alone, few enough for the number of a slot, none of which is known.
pub(crate) fn keeps_unknown(known: u32, mask: u32) -> bool
    ensures { result ≡ (nat_le mask 65535 && (mask + 1 == 2 ^ count_ones mask) && (bit_and known mask == 0)) }
{
    let above = u64::from(mask) + 1;
    mask <= SLOT_BITS && above == 1 << mask.count_ones() && known & mask == 0
}

/// The mask, shifted left: the bits that come in are 0.
pub(crate) fn mask_left(mask: u32, amount: u32) -> u32
    requires { amount < 32 }
    ensures { result ≡ bit_or ((mask * 2 ^ amount) % 2 ^ 32) (2 ^ amount - 1) }
{
    (mask << amount) | ((1 << amount) - 1)
}

/// The mask, shifted right: the bits that come in are 0.
pub(crate) fn mask_right(mask: u32, amount: u32) -> u32
    requires { amount < 32 }
    ensures { result ≡ bit_or (mask / 2 ^ amount) (2 ^ 32 - 2 ^ (32 - amount)) }
{
    let above = (1u64 << 32) - (1 << (32 - amount));
    (mask >> amount) | (above as u32)
}

/// Whether a word is negative, where its sign is among its known bits and it is compared with 0; or the other.
pub(crate) fn sign_or(value: &KnownValue, number: Option<u32>, other: Option<bool>) -> Option<bool>
    ensures { result ≡ sign_or value.now number other }
{
    match (&value.known, number) {
        (Known::HasBits(mask, bits), Some(0)) if mask & SIGN == SIGN => Some(bits & SIGN == SIGN),
        _ => other,
    }
}

const SIGN: u32 = 1 << 31;
