//! Where a machine stands, as a list of words, and a machine put there.

ghost use Rattle.std.specs.Prelude.{◌≡◌, ◌++◌, length, slice_set, All, OnOk};
ghost use Rattle.std.specs.List.{flat_map};
ghost use Rattle.step_machine.specs.Positions.{packed, put_at, changed, pair_words, IsSoundMachine, IsSoundHart, AreOfOneOpening, position_of};
ghost use Rattle.step_machine.specs.Positions.{packed_hart, status_number, status_named};
ghost use Rattle.step_machine.specs.Positions.{unpacked_changes, unpacked_hart, unpacked_harts};
ghost use Rattle.step_machine.specs.inner.Config.{Config};
ghost use Rattle.hart.specs.Saved.{IsOfItsOpening};

use crate::machine_state::MachineState;
use crate::taking::{first_word, words_after};
use hart::Hart;
use hart::status::{Status, Stop};
use std::alloc::AllocError;

fn status_number(status: Status) -> u32
    ensures { result ≡ status_number status }
{
    match status {
        Status::Running => 0,
        Status::Ended => 1,
        Status::Stopped(why) => u32::from(why.number()),
    }
}

fn status_named(number: u32) -> Status
    ensures { result ≡ status_named number }
{
    match number {
        0 => Status::Running,
        1 => Status::Ended,
        8 => Status::Stopped(Stop::Illegal),
        9 => Status::Stopped(Stop::Misaligned),
        10 => Status::Stopped(Stop::SubWord),
        11 => Status::Stopped(Stop::OutOfRange),
        12 => Status::Stopped(Stop::MisalignedJump),
        13 => Status::Stopped(Stop::NoCode),
        14 => Status::Stopped(Stop::UnknownCall),
        _ => Status::Stopped(Stop::Break),
    }
}

/// How many registers differ from those of the opening.
fn count_changed(first: &[u32; 32], now: &[u32; 32]) -> u32
    ensures value { result ≡ length (changed first.now now.now 32) }
    ensures first { length first.now ≡ 32 }
    ensures now { length now.now ≡ 32 }
{
    let mut count = 0;
    for number in 0..32usize {
        if first[number] != now[number] {
            count += 1;
        }
    }
    count
}

/// Appends the number and the word of each register that differs from the opening's.
fn push_changed(out: &mut Vec<u32>, first: &[u32; 32], now: &[u32; 32]) -> Result<(), AllocError>
    ensures { OnOk result (out.new.items ≡ out.old.items ++ flat_map pair_words (changed first.now now.now 32)) }
{
    for number in 0..32usize {
        if first[number] != now[number] {
            out.push(number as u32)?;
            out.push(now[number])?;
        }
    }
    Ok(())
}

/// Appends where a hart stands: pc, status, the words left of its inbox, and the registers that changed.
pub(super) fn push_hart(out: &mut Vec<u32>, hart: &Hart) -> Result<(), AllocError>
    ensures words { OnOk result (out.new.items ≡ out.old.items ++ packed_hart hart.now) }
    ensures sound { OnOk result (IsSoundHart hart.now) }
{
    let left = u32::try_from(hart.left()).map_err(|_| AllocError)?;
    out.push(hart.pc())?;
    out.push(status_number(hart.status()))?;
    out.push(left)?;
    out.push(count_changed(hart.first_registers(), hart.registers()))?;
    push_changed(out, hart.first_registers(), hart.registers())
}

fn push_harts(out: &mut Vec<u32>, harts: &[Hart]) -> Result<(), AllocError>
    ensures words { OnOk result (out.new.items ≡ out.old.items ++ flat_map packed_hart harts.now) }
    ensures sound { OnOk result (All IsSoundHart harts.now) }
{
    for hart in harts {
        push_hart(out, hart)?;
    }
    Ok(())
}

fn set_register(registers: &mut [u32; 32], number: usize, word: u32)
    ensures { registers.new ≡ slice_set registers.old number word }
{
    if number < 32 {
        registers[number] = word;
    }
}

/// Writes `count` changed registers over the opening's, and returns the words after theirs.
fn take_changes<'a>(registers: &mut [u32; 32], count: u32, words: &'a [u32]) -> &'a [u32]
    ensures registers { registers.new ≡ (unpacked_changes count registers.old words.now).0 }
    ensures rest { result.now ≡ (unpacked_changes count registers.old words.now).1 }
{
    let mut rest = words;
    for _ in 0..count {
        let number = first_word(rest) as usize;
        let word = first_word(words_after(rest, 1));
        set_register(registers, number, word);
        rest = words_after(rest, 2);
    }
    rest
}

/// Puts a hart where the words say, and returns those after its own.
pub(super) fn take_hart<'a>(hart: &mut Hart, words: &'a [u32]) -> &'a [u32]
    ensures hart { hart.new ≡ (unpacked_hart hart.old words.now).0 }
    ensures own { IsOfItsOpening hart.new }
    ensures rest { result.now ≡ (unpacked_hart hart.old words.now).1 }
{
    let pc = first_word(words);
    let status = status_named(first_word(words_after(words, 1)));
    let left = first_word(words_after(words, 2)) as usize;
    let count = first_word(words_after(words, 3));
    let mut registers = *hart.first_registers();
    let rest = take_changes(&mut registers, count, words_after(words, 4));
    hart.stand(registers, pc, left, status);
    rest
}

fn take_harts<'a>(harts: &mut [Hart], words: &'a [u32]) -> &'a [u32]
    ensures harts { harts.new ≡ (unpacked_harts harts.old words.now).0 }
    ensures own { All IsOfItsOpening harts.new }
    ensures rest { result.now ≡ (unpacked_harts harts.old words.now).1 }
{
    let mut rest = words;
    for hart in harts.iter_mut() {
        rest = take_hart(hart, rest);
    }
    rest
}

impl<const B: usize, const M: usize> MachineState<B, M> {
    /// Appends the machine's position as words: where each hart stands, what is pending, and the words of
    /// memory up to the last that differs from the opening's. Reports, room and history are no part of it.
    /// After an error some words may stand there. An inbox with 2^32 words left is an error too.
    pub fn pack(&self, out: &mut Vec<u32>) -> Result<(), AllocError>
        ensures words { OnOk result (out.new.items ≡ out.old.items ++ packed self.now) }
        ensures sound { OnOk result (IsSoundMachine B M self.now) }
    {
        push_harts(out, &self.harts)?;
        self.stores.pack(out)
    }

    /// Puts the machine at the position that the words say, with no report: where the machine of this opening
    /// stands that packed them, whatever led either there. It takes no memory. Words that no machine of this opening
    /// packed leave it at some position.
    pub fn unpack(&mut self, words: &[u32])
        ensures value { self.new ≡ put_at B M self.old words.now }
        ensures there { (d : Config) → AreOfOneOpening self.old d → IsSoundMachine B M d → words.now ≡ packed d
            → position_of self.new ≡ position_of d }
        ensures opening { AreOfOneOpening self.old self.new }
        ensures harts { length self.new.harts ≡ length self.old.harts }
    {
        let rest = take_harts(&mut self.harts, words);
        self.stores.unpack(rest);
    }
}
