//! What the numbers of a survey's parts stand for, once no more are to come.
//!
//! A machine is looked up here: which numbers its parts have is proved of what is found, and not of who put it there.

ghost use Rattle.std.specs.Prelude.{◌≡◌, ◌≤◌, ◌<◌, IfOk, IfSome, IsTrue, OnOk, length};
ghost use Rattle.step_machine.specs.Positions.{AreOfOneOpening, IsSoundMachine, position_of};
ghost use Rattle.step_machine.specs.declared.opening.TheConstants.{MAX_HARTS};
ghost use Rattle.surveys.specs.inner.Parts.{HasPart, position_by_row, tables_of};

use crate::parts::Parts;
use crate::steps::{Step, number_at};
use crate::trees::{Room, Trees};
use std::alloc::{AllocError, Global};
use std::marker::Model;
use step_machine::MachineState;

/// The words of each hart's parts by number, and those of memory that changed, of the states of an opening.
#[derive(Drop)]
pub(crate) struct Tables<const B: usize, const M: usize> {
    /// A machine at the opening.
    opening: MachineState<B, M>,
    harts: Vec<Parts>,
    memories: Trees,
}

impl<const B: usize, const M: usize> Model for Tables<B, M> {
    ghost use Rattle.surveys.specs.inner.Parts.{PartWords};
    ghost use Rattle.step_machine.specs.Positions.{IsSoundMachine};

    ghost Value = { PartWords };

    ghost view = { λ t. record { opening = t.opening; harts = t.harts.items; memories = t.memories } };

    ghost invariant = { λ t. IsSoundMachine B M t.opening };
}

/// Room for words.
#[derive(Drop)]
pub(crate) struct Scratch {
    words: Vec<u32>,
    bytes: Vec<u8>,
    room: Room,
}

impl Scratch {
    pub fn new(alloc: Global) -> Self {
        Scratch {
            words: Vec::new(alloc),
            bytes: Vec::new(alloc),
            room: Room::new(alloc),
        }
    }
}

/// Looks over a machine, which is an error only where its words are too many.
fn look_over<const B: usize, const M: usize>(
    machine: &MachineState<B, M>,
    words: &mut Vec<u32>,
) -> Result<(), AllocError>
    ensures { OnOk result (IsSoundMachine B M machine.now) }
{
    words.clear();
    machine.pack(words)
}

impl<const B: usize, const M: usize> Tables<B, M> {
    /// `opening` is a machine at its opening.
    pub fn new(
        opening: MachineState<B, M>,
        harts: Vec<Parts>,
        memories: Trees,
        scratch: &mut Scratch,
    ) -> Result<Self, AllocError>
        ensures { IfOk result (λ tables. tables.opening ≡ opening.entry) }
    {
        look_over(&opening, &mut scratch.words)?;
        Ok(Tables {
            opening,
            harts,
            memories,
        })
    }

    /// The machine at the opening.
    pub fn opening(&self) -> &MachineState<B, M>
        ensures { result.now ≡ self.now.opening }
    {
        &self.opening
    }

    /// How many harts there are.
    #[inline(always)]
    pub fn harts(&self) -> u32
        requires { length self.now.opening.harts ≤ MAX_HARTS }
        ensures { result ≡ length self.now.opening.harts }
    {
        self.opening.harts()
    }

    /// The number of the part that a hart has, if it has one.
    fn part_of(
        &self,
        machine: &MachineState<B, M>,
        hart: u32,
        scratch: &mut Scratch,
    ) -> Result<Option<u32>, AllocError>
        requires hart { hart < length machine.now.harts }
        requires opening { AreOfOneOpening self.now.opening machine.now }
        requires sound { IsSoundMachine B M machine.now }
        ensures { IfOk result (λ found. IfSome found (λ part. HasPart (position_of machine.now) hart ((tables_of B M self.now).parts hart part))) }
    {
        scratch.words.clear();
        machine.pack_hart(hart, &mut scratch.words)?;
        let Some(parts) = self.harts.get(hart as usize) else {
            return Ok(None);
        };
        match parts.find(&scratch.words, &mut scratch.bytes)? {
            Some(number) if number < u32::MAX as usize => Ok(Some(number as u32)),
            _ => Ok(None),
        }
    }

    /// The number of what memory holds, if it has one.
    fn memory_of(
        &self,
        machine: &MachineState<B, M>,
        scratch: &mut Scratch,
    ) -> Result<Option<u32>, AllocError>
        requires opening { AreOfOneOpening self.now.opening machine.now }
        requires sound { IsSoundMachine B M machine.now }
        ensures { IfOk result (λ found. IfSome found (λ memory. machine.now.stored.words ≡ (tables_of B M self.now).memories memory)) }
    {
        scratch.words.clear();
        machine.pack_memory(&mut scratch.words)?;
        match self.memories.find(&scratch.words, &mut scratch.room)? {
            Some(number) if number < u32::MAX as usize => Ok(Some(number as u32)),
            _ => Ok(None),
        }
    }

    /// The numbers of a hart's part and of memory, if they have some.
    pub fn numbers_of(
        &self,
        machine: &MachineState<B, M>,
        hart: u32,
        scratch: &mut Scratch,
    ) -> Result<Option<Step>, AllocError>
        requires hart { hart < length machine.now.harts }
        requires opening { AreOfOneOpening self.now.opening machine.now }
        ensures part { IfOk result (λ found. IfSome found (λ step. HasPart (position_of machine.now) hart ((tables_of B M self.now).parts hart step.part))) }
        ensures memory { IfOk result (λ found. IfSome found (λ step. machine.now.stored.words ≡ (tables_of B M self.now).memories step.memory)) }
    {
        look_over(machine, &mut scratch.words)?;
        let Some(part) = self.part_of(machine, hart, scratch)? else {
            return Ok(None);
        };
        let Some(memory) = self.memory_of(machine, scratch)? else {
            return Ok(None);
        };
        Ok(Some(Step { part, memory }))
    }

    /// Whether the machine stands where the parts of these numbers are: one of each hart, and then memory's.
    pub fn is_at(
        &self,
        machine: &MachineState<B, M>,
        row: &[u32],
        scratch: &mut Scratch,
    ) -> Result<bool, AllocError>
        requires few { length self.now.opening.harts ≤ MAX_HARTS }
        requires opening { AreOfOneOpening self.now.opening machine.now }
        ensures { IfOk result (λ yes. IsTrue yes → position_of machine.now ≡ position_by_row (tables_of B M self.now) row.now) }
    {
        look_over(machine, &mut scratch.words)?;
        for hart in 0..machine.harts() {
            match self.part_of(machine, hart, scratch)? {
                Some(part) if part == number_at(row, hart as usize) => {}
                _ => return Ok(false),
            }
        }
        match self.memory_of(machine, scratch)? {
            Some(memory) => Ok(memory == number_at(row, machine.harts() as usize)),
            None => Ok(false),
        }
    }

    /// Puts a hart of the machine at the part of a number.
    fn put_hart(
        &self,
        machine: &mut MachineState<B, M>,
        hart: u32,
        part: u32,
        words: &mut Vec<u32>,
    ) -> Result<(), AllocError>
        requires hart { hart < length machine.old.harts }
        ensures opening { AreOfOneOpening machine.old machine.new }
        ensures harts { length machine.new.harts ≡ length machine.old.harts }
    {
        if let Some(parts) = self.harts.get(hart as usize) {
            parts.words_into(part as usize, words)?;
        }
        machine.unpack_hart(hart, words);
        Ok(())
    }

    /// Makes the machine's memory the one of a number.
    fn put_memory(
        &self,
        machine: &mut MachineState<B, M>,
        memory: u32,
        scratch: &mut Scratch,
    ) -> Result<(), AllocError>
        ensures opening { AreOfOneOpening machine.old machine.new }
        ensures harts { length machine.new.harts ≡ length machine.old.harts }
    {
        self.memories
            .words_into(memory as usize, &mut scratch.words, &mut scratch.room)?;
        machine.unpack_memory(&scratch.words);
        Ok(())
    }

    /// Puts a hart of the machine and its memory there, and answers whether they stand there.
    pub fn put_there(
        &self,
        machine: &mut MachineState<B, M>,
        hart: u32,
        step: Step,
        scratch: &mut Scratch,
    ) -> Result<bool, AllocError>
        requires hart { hart < length machine.old.harts }
        requires opening { AreOfOneOpening self.now.opening machine.old }
        ensures opening { OnOk result (AreOfOneOpening self.now.opening machine.new) }
        ensures harts { length machine.new.harts ≡ length machine.old.harts }
        ensures part { IfOk result (λ yes. IsTrue yes → HasPart (position_of machine.new) hart ((tables_of B M self.now).parts hart step.part)) }
        ensures memory { IfOk result (λ yes. IsTrue yes → machine.new.stored.words ≡ (tables_of B M self.now).memories step.memory) }
    {
        self.put_hart(machine, hart, step.part, &mut scratch.words)?;
        self.put_memory(machine, step.memory, scratch)?;
        match self.numbers_of(machine, hart, scratch)? {
            Some(there) => Ok(there == step),
            None => Ok(false),
        }
    }

    /// Puts the machine at the state of these parts.
    pub fn put(
        &self,
        machine: &mut MachineState<B, M>,
        row: &[u32],
        scratch: &mut Scratch,
    ) -> Result<(), AllocError>
        requires opening { AreOfOneOpening self.now.opening machine.old }
        ensures opening { OnOk result (AreOfOneOpening self.now.opening machine.new) }
        ensures harts { length machine.new.harts ≡ length machine.old.harts }
    {
        for hart in 0..machine.harts() {
            let part = number_at(row, hart as usize);
            self.put_hart(machine, hart, part, &mut scratch.words)?;
        }
        let memory = number_at(row, machine.harts() as usize);
        self.put_memory(machine, memory, scratch)
    }
}
