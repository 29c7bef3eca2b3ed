//! A number put into a register, by one instruction or two.

ghost use Rattle.std.specs.Prelude.{◌≡◌, ◌≤ℤ◌, ◌<ℤ◌, ◌<◌, pos, negsuc, ◌^◌, ◌-ℤ◌, unsigned_abs};
ghost use Rattle.std.specs.Int.{int_rem_euclid, int_div_euclid};
ghost use Rattle.rv_decode.specs.Fits.{IsSigned};
ghost use Rattle.assembler.specs.Statements.{made_of, MadeFits, loaded, is_short, low_of, high_of};

use crate::statement::Statement;
use rv_decode::registers::reg;
use rv_decode::{ImmediateOp, Instr, Reg};

fn is_short(number: i64) -> bool
    ensures { result ≡ is_short number }
{
    (-2048..2048).contains(&number)
}

/// The low 12 bits of the number, with their sign.
fn low_part(number: i64) -> i32
    requires low { negsuc 2147483647 ≤ℤ number }
    requires high { number <ℤ pos (2 ^ 31) }
    ensures value { result ≡ low_of number }
    ensures short { IsSigned 11 result }
{
    ((number + 2048).rem_euclid(4096) - 2048) as i32
}

/// How many times 2^12 the number without its low part is.
fn pages(number: i64, low: i32) -> i64
    requires low { negsuc 2147483647 ≤ℤ number }
    requires high { number <ℤ pos (2 ^ 31) }
    ensures { result ≡ int_div_euclid (number -ℤ low) (pos 4096) }
{
    (number - i64::from(low)).div_euclid(4096)
}

fn upper_bits(pages: i64) -> u32
    ensures value { result ≡ unsigned_abs (int_rem_euclid pages (pos 1048576)) }
    ensures small { result < 2 ^ 20 }
{
    pages.rem_euclid(0x10_0000).unsigned_abs() as u32
}

/// The upper 20 bits that are left of the number.
fn high_part(number: i64, low: i32) -> u32
    requires low { negsuc 2147483647 ≤ℤ number }
    requires high { number <ℤ pos (2 ^ 31) }
    requires same { low ≡ low_of number }
    ensures value { result ≡ high_of number }
    ensures small { result < 2 ^ 20 }
{
    upper_bits(pages(number, low))
}

/// What puts a number into a register.
pub fn loaded<'a>(rd: Reg, number: i64) -> Statement<'a>
    requires low { negsuc 2147483647 ≤ℤ number }
    requires high { number <ℤ pos (2 ^ 31) }
    ensures made { made_of result ≡ loaded rd number }
    ensures fits { MadeFits (made_of result) }
{
    let op = ImmediateOp::Add;
    if is_short(number) {
        let immediate = number as i32;
        return Statement::One(Instr::Immediate {
            op,
            rd,
            rs1: reg(0),
            immediate,
        });
    }
    let low = low_part(number);
    let lui = Instr::Lui {
        rd,
        upper: high_part(number, low),
    };
    if low.unsigned_abs() == 0 {
        return Statement::One(lui);
    }
    Statement::Two(
        lui,
        Instr::Immediate {
            op,
            rd,
            rs1: rd,
            immediate: low,
        },
    )
}
