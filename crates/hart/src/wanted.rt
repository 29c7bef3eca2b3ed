//! The needs of single instructions.

ghost use Rattle.std.specs.Prelude.{◌≡◌, ◌≤◌, ◌<◌, ◌%◌};
ghost use Rattle.hart.specs.Steps.{jump_need, access_need, call_need, is_full};

use crate::need::{Need, Report};
use crate::status::Stop;

// The registers by which an environment call goes, as the calling convention names them: its number
// in a7, its arguments in a0 and a1.
pub(crate) const A0: usize = 10;

pub(crate) const A1: usize = 11;

const A7: usize = 17;

/// What a jump to `target` wants.
#[inline(always)]
pub(crate) fn jump_need(target: u32) -> Need
    ensures { result ≡ jump_need target }
{
    if target % 4 == 0 {
        Need::Inner
    } else {
        Need::Stop(Stop::MisalignedJump)
    }
}

/// How far an address is past a multiple of `width`. No width that an access has costs a division.
#[inline(always)]
fn past_multiple(addr: u32, width: u32) -> u32
    requires { 0 < width }
    ensures { result ≡ addr % width }
{
    match width {
        1 => addr % 1,
        2 => addr % 2,
        4 => addr % 4,
        _ => addr % width,
    }
}

/// What an access to `width` bytes from `addr` on wants, in a memory of `words` words.
#[inline(always)]
pub(crate) fn access_need(words: usize, width: u32, addr: u32, wanted: Need) -> Need
    requires words { words ≤ 65536 }
    requires some { 0 < width }
    ensures { result ≡ access_need words width addr wanted }
{
    if past_multiple(addr, width) != 0 {
        Need::Stop(Stop::Misaligned)
    } else if (addr as usize) < 4 * words {
        wanted
    } else {
        Need::Stop(Stop::OutOfRange)
    }
}

/// Whether a fence orders earlier stores before later loads, of its two sets.
pub(crate) fn is_full(pred: u32, succ: u32) -> bool
    ensures { result ≡ is_full pred succ }
{
    pred % 2 == 1 && succ / 2 % 2 == 1
}

/// What an environment call wants, of the words that the inbox has left.
pub(crate) fn call_need(registers: &[u32; 32], inbox: &[u32]) -> Need
    ensures { result ≡ call_need registers.now inbox.now }
{
    match registers[A7] {
        1 => Need::Next {
            word: inbox.first().copied(),
        },
        2 => Need::Report(Report::Took {
            sender: registers[A0],
            word: registers[A1],
        }),
        3 => Need::Report(Report::Closed {
            sender: registers[A0],
        }),
        93 => Need::Exit,
        _ => Need::Stop(Stop::UnknownCall),
    }
}
