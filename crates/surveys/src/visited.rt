//! The states that a survey met, as rows of the numbers of their parts: one of each hart, and then memory's.

ghost use Rattle.std.specs.Prelude.{◌≡◌, ◌≤◌, ◌<◌, ◌+◌, ◌-◌, IfOk, IsTrue, OnOk, Some, length, slice_get};
ghost use Rattle.surveys.specs.inner.Levels.{IsAmong};
ghost use Rattle.surveys.specs.inner.Parts.{row_with};

use crate::keys::{Draft, Keys};
use crate::layout::Layout;
use crate::steps::Step;
use std::alloc::{AllocError, Global};
use std::marker::Model;

/// Rows by number.
#[derive(Drop)]
pub(crate) struct Visited<const N: usize> {
    keys: Keys<N>,
    layout: Layout<N>,
    ghost small: { N ≤ 64 },
}

impl<const N: usize> Model for Visited<N> {
    ghost use Rattle.std.specs.Prelude.{ℕ, List, map};
    ghost use Rattle.surveys.specs.inner.Digits.{numbers_of_key};

    ghost Value = { List (List ℕ) };

    ghost view = { λ m. map (numbers_of_key m.layout) m.keys };
}

/// Room for two rows.
#[derive(Drop)]
pub(crate) struct Rows {
    target: Vec<u32>,
    found: Vec<u32>,
}

impl Rows {
    pub fn new(alloc: Global) -> Self {
        Rows {
            target: Vec::new(alloc),
            found: Vec::new(alloc),
        }
    }
}

/// Writes the row with the numbers that a step of a hart gave, in the place of what `target` holds.
fn row_after(row: &[u32], hart: u32, step: Step, target: &mut Vec<u32>) -> Result<(), AllocError>
    requires hart { hart + 1 < length row.now }
    ensures { OnOk result (target.new.items ≡ row_with (length row.now - 1) hart row.now step) }
{
    target.clear();
    target.extend_from_slice(row)?;
    let last = row.len() - 1;
    target[hart as usize] = step.part;
    target[last] = step.memory;
    Ok(())
}

impl<const N: usize> Visited<N> {
    pub fn new(keys: Keys<N>, layout: Layout<N>) -> Self
        requires { N ≤ 64 }
    {
        Visited { keys, layout }
    }

    /// How many there are.
    pub fn len(&self) -> usize
        ensures { result ≡ length self.now }
    {
        self.keys.len()
    }

    /// Writes the row of a number, in the place of what `row` holds.
    #[inline(always)]
    pub fn row_into(&self, number: usize, row: &mut Vec<u32>) -> Result<(), AllocError>
        requires { number < length self.now }
        ensures { OnOk result (slice_get self.now number ≡ Some row.new.items) }
    {
        self.layout.row_into(&self.keys.key(number), row)
    }

    /// Whether one of the first `count` rows has the numbers that a step of a hart gave, and those of a row that has this
    /// number at the other places.
    #[inline(always)]
    pub fn has_after(
        &self,
        from: usize,
        row: &[u32],
        hart: u32,
        step: Step,
        count: usize,
        rows: &mut Rows,
    ) -> Result<bool, AllocError>
        requires hart { hart + 1 < length row.now }
        ensures { IfOk result (λ yes. IsTrue yes → IsAmong count self.now (row_with (length row.now - 1) hart row.now step)) }
    {
        row_after(row, hart, step, &mut rows.target)?;
        let mut key = self.keys.key(from);
        self.layout.set(&mut key, hart as usize, step.part);
        self.layout.set(&mut key, self.layout.last(), step.memory);
        self.is_target(key, count, rows)
    }

    /// Whether one of the first `count` keys is this one, and has the target's row.
    #[inline(always)]
    fn is_target(&self, key: [u64; N], count: usize, rows: &mut Rows) -> Result<bool, AllocError>
        ensures { IfOk result (λ yes. IsTrue yes → IsAmong count self.now rows.old.target.items) }
    {
        let Some(number) = self.keys.find(&Draft::new(key)) else {
            return Ok(false);
        };
        let number = number as usize;
        if number >= count || number >= self.keys.len() {
            return Ok(false);
        }
        self.row_into(number, &mut rows.found)?;
        Ok(rows.found.as_slice() == rows.target.as_slice())
    }
}
