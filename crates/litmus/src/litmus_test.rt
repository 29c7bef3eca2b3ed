//! A litmus test: an opening, and a condition on where it leads.

ghost use Rattle.std.specs.Prelude.{◌≡◌, ◌<◌, ◌≤◌, ◌*◌, ◌/◌, ◌↔◌, [], All, IfOk, OnOk, IsTrue, length, map, slice_index_or};
ghost use Rattle.std.specs.String.{string_bytes};

use crate::condition::Condition;
use crate::judging::{is_finished, is_satisfied, is_true, values_into, values_of};
use crate::lefts::first_places;
use crate::symbols::Place;
use crate::verdict::{Quantifier, Verdict};
use std::alloc::{AllocError, Global};
use std::marker::Model;
use step_machine::laws::laws_of_positions;
use step_machine::{HartOpening, MachineState, Opening};

/// How many locations a test may have. A memory of as many words has room for every test.
pub const MAX_LOCATIONS: usize = 1024;

/// A litmus test. The word of location i stands at address 4 i.
#[derive(Drop)]
pub struct Test {
    opening: Opening,
    names: Vec<String>,
    quantifier: Quantifier,
    condition: Condition,
    lefts: Vec<Place>,
}

impl Model for Test {
    ghost use Rattle.std.specs.Prelude.{◌≡◌, map};
    ghost use Rattle.std.specs.String.{string_bytes};
    ghost use Rattle.litmus.specs.LitmusTests.{LitmusTest, IsTest, left_sides};
    ghost use Rattle.std.specs.Coded.{codes};
    ghost use Rattle.litmus.specs.inner.Codes.{formula_code};

    ghost Value = { LitmusTest };

    ghost coded = { Prim.hlevel (codes, formula_code) };

    ghost view = { λ t. record { opening = t.opening; names = map string_bytes t.names.items; quantifier = t.quantifier; condition = t.condition } };

    ghost invariant = { λ t. IsTest (record {
      opening = t.opening;
      names = map string_bytes t.names.items;
      quantifier = t.quantifier;
      condition = t.condition;
    }) × (t.lefts.items ≡ left_sides t.condition) };
}

impl Test {
    ghost use Rattle.hart.specs.State.{HartState};
    ghost use Rattle.step_machine.specs.History.{OpeningValue};
    ghost use Rattle.step_machine.specs.Standing.{ForEachHistory};
    ghost use Rattle.litmus.specs.Formulas.{places};
    ghost use Rattle.litmus.specs.LitmusTests.{IsTest, IsThere, litmus_test_of, left_sides, LitmusTest};
    ghost use Rattle.litmus.specs.Verdicts.{IsVerdict, IsVerdictAt, final_value};
    ghost use Rattle.step_machine.specs.Positions.{position_of};
    ghost use Rattle.litmus.specs.declared.verdict.Quantifier.TheVariants.{Exists};

    /// A test. The words are the memory's first ones, the names those of the locations.
    pub fn new(
        alloc: Global,
        harts: Vec<HartOpening>,
        words: Vec<u32>,
        names: Vec<String>,
        quantifier: Quantifier,
        condition: Condition,
    ) -> Result<Test, AllocError>
        requires { IsTest (litmus_test_of harts.items words.items (map string_bytes names.items) quantifier condition) }
        ensures { IfOk result (λ test. test ≡ litmus_test_of harts.items words.items (map string_bytes names.items) quantifier condition) }
    {
        let lefts = first_places(alloc, condition.steps())?;
        Ok(Test {
            opening: Opening { harts, words },
            names,
            quantifier,
            condition,
            lefts,
        })
    }

    /// A copy of where the test's machine begins. Each test is within the limits of its type.
    pub fn opening(&self, alloc: Global) -> Result<Opening, AllocError>
        ensures copy { IfOk result (λ opening. opening ≡ self.now.opening) }
        ensures fits { IsTest self.now }
    {
        self.opening.copy(alloc)
    }

    /// Whether the test asks by `exists`: one outcome that holds answers it then, and else one that fails.
    pub fn by_exists(&self) -> bool
        ensures { IsTrue result ↔ (self.now.quantifier ≡ Exists) }
    {
        matches!(self.quantifier, Quantifier::Exists)
    }

    /// The condition's observed locations, each once, in order of first appearance.
    pub fn lefts(&self) -> &[Place]
        ensures value { result.now ≡ left_sides self.now.condition }
        ensures there { All (IsThere (length self.now.opening.harts) (length self.now.names)) result.now }
    {
        &self.lefts
    }

    /// The name of the location in whose word the byte at this address is.
    pub fn name(&self, address: u32) -> &str
        requires { address < 4 * length self.now.names }
        ensures { result.now ≡ slice_index_or self.now.names (address / 4) [] }
    {
        self.names[address as usize / 4].as_str()
    }

    /// The last values of the observed locations, in their order.
    pub fn values<const B: usize, const M: usize>(
        &self,
        alloc: Global,
        machine: &MachineState<B, M>,
    ) -> Result<Vec<u32>, AllocError>
        requires harts { length machine.now.harts ≡ length self.now.opening.harts }
        requires words { length self.now.names ≤ M }
        ensures { IfOk result (λ values. ForEachHistory B M machine.now (λ t. values.items ≡ map (final_value M t) (left_sides self.now.condition))) }
    {
        laws_of_positions();
        values_of(alloc, &self.lefts, machine)
    }

    /// The same in the place of what a vector holds, so that the room that it has serves again.
    pub fn values_into<const B: usize, const M: usize>(
        &self,
        values: &mut Vec<u32>,
        machine: &MachineState<B, M>,
    ) -> Result<(), AllocError>
        requires harts { length machine.now.harts ≡ length self.now.opening.harts }
        requires words { length self.now.names ≤ M }
        ensures { OnOk result (ForEachHistory B M machine.now (λ t. values.new.items ≡ map (final_value M t) (left_sides self.now.condition))) }
    {
        laws_of_positions();
        values_into(values, &self.lefts, machine)
    }

    /// What the test says of a machine: of each history at whose end it stands, and of its position, whatever led
    /// there. It takes no memory.
    pub fn verdict<const B: usize, const M: usize>(&self, machine: &MachineState<B, M>) -> Verdict
        requires harts { length machine.now.harts ≡ length self.now.opening.harts }
        requires words { length self.now.names ≤ M }
        ensures history { ForEachHistory B M machine.now (λ t. IsVerdict M self.now t result) }
        ensures position { IsVerdictAt self.now (position_of machine.now) result }
    {
        laws_of_positions();
        self.verdict_there(machine)
    }

    #[tactic(auto, using(crate::proofs::TestLaws::condition_there))]
    fn verdict_there<const B: usize, const M: usize>(&self, machine: &MachineState<B, M>) -> Verdict
        requires harts { length machine.now.harts ≡ length self.now.opening.harts }
        requires words { length self.now.names ≤ M }
        ensures position { IsVerdictAt self.now (position_of machine.now) result }
        ensures there { All (IsThere (length machine.now.harts) M) (places self.now.condition) }
    {
        let quantifier = self.quantifier;
        if !is_finished(machine) {
            return Verdict::Unfinished;
        }
        if is_satisfied(quantifier, is_true(&self.condition, machine)) {
            Verdict::Holds
        } else {
            Verdict::Fails
        }
    }
}
