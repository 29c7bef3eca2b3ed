//! Where a machine begins.

ghost use Rattle.std.specs.Prelude.{◌≡◌, ◌≤◌, ◌↔◌, IsTrue, IfOk, All, length, map};
ghost use Rattle.step_machine.specs.inner.Config.{opened_hart};
ghost use Rattle.rv_decode.specs.declared.instruction.TheConstants.{MAX_CODE};

use crate::events::Entry;
use hart::{Code, Hart};
use rv_decode::instruction::MAX_CODE;
use std::alloc::{AllocError, Global};
use std::marker::Model;

/// How many harts a machine may have. It has one at least.
pub const MAX_HARTS: usize = 64;

/// One hart's beginning: its instruction words, its registers and the words it will be given.
#[derive(Drop)]
pub struct HartOpening {
    pub code: Vec<u32>,
    /// x0 to x31; whatever stands for x0 is read as 0.
    pub registers: [u32; 32],
    pub inbox: Vec<u32>,
}

impl Model for HartOpening {
    ghost use Rattle.step_machine.specs.History.{HartOpeningValue};

    ghost Value = { HartOpeningValue };

    ghost view = { λ o. record { code = o.code.items; registers = o.registers; inbox = o.inbox.items } };
}

/// A machine's beginning: its harts and its first memory words; missing words are 0.
#[derive(Drop)]
pub struct Opening {
    pub harts: Vec<HartOpening>,
    pub words: Vec<u32>,
}

impl Model for Opening {
    ghost use Rattle.step_machine.specs.History.{OpeningValue};

    ghost Value = { OpeningValue };

    ghost view = { λ o. record { harts = o.harts.items; words = o.words.items } };
}

impl HartOpening {
    /// A copy, whose code and inbox take their memory from `alloc`.
    pub fn copy(&self, alloc: Global) -> Result<HartOpening, AllocError>
        ensures { IfOk result (λ o. o ≡ self.now) }
    {
        let code = Vec::from_slice(alloc, &self.code)?;
        let inbox = Vec::from_slice(alloc, &self.inbox)?;
        Ok(HartOpening {
            code,
            registers: self.registers,
            inbox,
        })
    }
}

impl Opening {
    ghost use Rattle.step_machine.specs.History.{FitsIn};

    /// Whether the opening is within the limits over a memory of `words` words: 1 to 64 harts, of at
    /// most 4,096 instructions each, and at most `words` words.
    pub fn fits(&self, words: usize) -> bool
        ensures { IsTrue result ↔ FitsIn words self.now }
    {
        let some = !self.harts.is_empty() && self.harts.len() <= MAX_HARTS;
        let short = self.harts.iter().all(|hart| hart.code.len() <= MAX_CODE);
        some && short && self.words.len() <= words
    }

    /// A copy, whose harts and words take their memory from `alloc`.
    pub fn copy(&self, alloc: Global) -> Result<Opening, AllocError>
        ensures { IfOk result (λ o. o ≡ self.now) }
    {
        let mut harts = Vec::with_capacity(alloc, self.harts.len())?;
        for hart in &self.harts {
            harts.push(hart.copy(alloc)?)?;
        }
        let words = Vec::from_slice(alloc, &self.words)?;
        Ok(Opening { harts, words })
    }
}

/// The harts at their openings, over a memory of `words` words.
pub fn open_harts(
    alloc: Global,
    openings: &[HartOpening],
    words: usize,
) -> Result<Vec<Hart>, AllocError>
    requires words { words ≤ 65536 }
    requires code { All (λ o. length o.code ≤ MAX_CODE) openings.now }
    ensures { IfOk result (λ harts. harts.items ≡ map (opened_hart words) openings.now) }
{
    let mut harts = Vec::with_capacity(alloc, openings.len())?;
    for opening in openings {
        let code = Code::decode(alloc, Vec::from_slice(alloc, &opening.code)?)?;
        let inbox = Vec::from_slice(alloc, &opening.inbox)?;
        harts.push(Hart::new(alloc, code, opening.registers, inbox, words))?;
    }
    Ok(harts)
}

/// A history by itself: where a machine began, and what was done since, oldest first.
#[derive(Drop)]
pub struct Trace {
    pub opening: Opening,
    pub entries: Vec<Entry>,
}

impl Model for Trace {
    ghost use Rattle.step_machine.specs.History.{History};

    ghost Value = { History };

    ghost view = { λ t. record { opening = t.opening; entries = t.entries.items } };
}
