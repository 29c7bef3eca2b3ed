//! Where the test's machine begins.

ghost use Rattle.std.specs.Prelude.{◌≡◌, ◌≤◌, ◌+◌, ◌++◌, length, map, replicate, vec_len, IfOk, OnOk};
ghost use Rattle.texts.specs.Results.{GivesUpToMemory};
ghost use Rattle.litmus_reader.specs.Faults.{fault_in};
ghost use Rattle.litmus_reader.specs.Init.{item_of};
ghost use Rattle.litmus_reader.specs.Values.{values_in, zeros, item_put, items_put, starts_of};
ghost use Rattle.step_machine.specs.declared.opening.TheConstants.{MAX_HARTS};
ghost use Rattle.litmus.specs.declared.litmus_test.TheConstants.{MAX_LOCATIONS};

use crate::faults::LitmusFault;
use crate::init::{Item, Target};
use crate::refusals::Refusal;
use std::alloc::{AllocError, Global};
use step_machine::HartOpening;

/// The first values of all registers and of the locations' words.
#[derive(Drop)]
pub struct Values {
    pub registers: Vec<[u32; 32]>,
    pub words: Vec<u32>,
}

impl Values {
    /// Zeros for `harts` harts and `locations` locations.
    fn new(alloc: Global, harts: usize, locations: usize) -> Result<Values, AllocError>
        ensures { IfOk result (λ values. values_in values ≡ zeros harts locations) }
    {
        let mut registers = Vec::new(alloc);
        registers.resize(harts, [0; 32])?;
        let mut words = Vec::new(alloc);
        words.resize(locations, 0)?;
        Ok(Values { registers, words })
    }

    /// Puts the item's value, but none in x0. A hart that isn't there is `BadInit`.
    #[tactic(auto, unfolding(crate::specs::Values::item_put))]
    fn put(&mut self, item: Item) -> Result<(), Refusal>
        requires { vec_len self.old.registers ≤ MAX_HARTS }
        ensures same_harts { vec_len self.new.registers ≡ vec_len self.old.registers }
        ensures same_words { vec_len self.new.words ≡ vec_len self.old.words }
        ensures exact { GivesUpToMemory fault_in (λ _. values_in self.new) result (item_put (values_in self.old) (item_of item)) }
    {
        match item.target {
            Target::Register { hart, register } => {
                let hart = usize::try_from(hart).unwrap_or(usize::MAX);
                if hart >= self.registers.len() {
                    return Err(LitmusFault::BadInit.at(item.left));
                }
                if register.number != 0 {
                    self.registers[hart][register.number as usize] = item.value;
                }
            }
            Target::Word { index } => {
                if let Some(word) = self.words.get_mut(index) {
                    *word = item.value;
                }
            }
        }
        Ok(())
    }
}

/// The first values of `harts` harts and `locations` locations, where a later item wins.
pub fn values_of(
    alloc: Global,
    harts: usize,
    locations: usize,
    items: &[Item],
) -> Result<Values, Refusal>
    requires { harts ≤ MAX_HARTS }
    ensures exact { GivesUpToMemory fault_in values_in result (items_put (zeros harts locations) (map item_of items.now)) }
    ensures harts { IfOk result (λ values. vec_len values.registers ≡ harts) }
    ensures words { IfOk result (λ values. vec_len values.words ≡ locations) }
{
    let mut values = Values::new(alloc, harts, locations)?;
    for item in items {
        values.put(*item)?;
    }
    Ok(values)
}

/// Appends `more` zeros, with which those locations open that the condition alone names.
pub fn pad(words: &mut Vec<u32>, more: usize) -> Result<(), AllocError>
    requires { vec_len words.old + more ≤ MAX_LOCATIONS }
    ensures padded { OnOk result (words.new.items ≡ words.old.items ++ replicate more 0) }
    ensures len { OnOk result (vec_len words.new ≡ vec_len words.old + more) }
{
    let len = words.len() + more;
    words.resize(len, 0)
}

/// The harts with this code and these registers, and with empty inboxes.
pub fn harts_of(
    alloc: Global,
    codes: Vec<Vec<u32>>,
    registers: &[[u32; 32]],
) -> Result<Vec<HartOpening>, AllocError>
    requires some { vec_len codes ≤ length registers.now }
    requires few { length registers.now ≤ MAX_HARTS }
    ensures { IfOk result (λ harts. harts.items ≡ starts_of codes.items registers.now) }
{
    let mut harts = Vec::new(alloc);
    for code in codes {
        let registers = registers[harts.len()];
        harts.push(HartOpening {
            code,
            registers,
            inbox: Vec::new(alloc),
        })?;
    }
    Ok(harts)
}
