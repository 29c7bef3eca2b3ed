//! The fields of a word, and the immediates that they make.
//!
//! A signed immediate is made at the top of a word and shifted down, which copies its sign.

ghost use Rattle.std.specs.Prelude.{◌≡◌, ◌<◌, ◌+◌, ◌*◌, ◌^◌};
ghost use Rattle.rv_decode.specs.Word.{field, imm_i, imm_s, imm_b, imm_u, imm_j};

use crate::instruction::Reg;

/// The number that the `width` bits of `word` from bit `low` up make.
#[tactic(auto, using(crate::proofs::Words::and_low_mask))]
pub(crate) const fn field(word: u32, low: u32, width: u32) -> u32
    requires low { low < 32 }
    requires width { width < 32 }
    ensures { result ≡ field word low width }
{
    (word >> low) & ((1 << width) - 1)
}

/// The bits of `high` with the `width` bits of `low` after them.
#[tactic(auto, using(crate::proofs::Words::or_after_shl))]
pub(crate) const fn join(high: u32, width: u32, low: u32) -> u32
    requires width { width < 32 }
    requires low { low < 2 ^ width }
    requires room { high * 2 ^ width + low < 2 ^ 32 }
    ensures { result ≡ high * 2 ^ width + low }
{
    (high << width) | low
}

/// The register that the five bits of `word` from bit `low` up name.
pub(crate) fn register(word: u32, low: u32) -> Reg
    requires { low < 32 }
    ensures { result.number ≡ field word low 5 }
{
    Reg {
        number: field(word, low, 5) as u8,
    }
}

pub(crate) fn imm_i(word: u32) -> i32
    ensures { result ≡ imm_i word }
{
    word.cast_signed() >> 20
}

pub(crate) fn imm_s(word: u32) -> i32
    ensures { result ≡ imm_s word }
{
    let raw = join(field(word, 25, 7), 5, field(word, 7, 5));
    (raw << 20).cast_signed() >> 20
}

pub(crate) fn imm_b(word: u32) -> i32
    ensures { result ≡ imm_b word }
{
    let high = join(field(word, 31, 1), 1, field(word, 7, 1));
    let raw = join(join(high, 6, field(word, 25, 6)), 4, field(word, 8, 4));
    (raw << 20).cast_signed() >> 19
}

pub(crate) fn imm_u(word: u32) -> u32
    ensures { result ≡ imm_u word }
{
    field(word, 12, 20)
}

pub(crate) fn imm_j(word: u32) -> i32
    ensures { result ≡ imm_j word }
{
    let high = join(field(word, 31, 1), 8, field(word, 12, 8));
    let raw = join(join(high, 1, field(word, 20, 1)), 10, field(word, 21, 10));
    (raw << 12).cast_signed() >> 11
}
