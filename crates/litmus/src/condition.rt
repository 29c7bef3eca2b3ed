//! A condition, as steps that are evaluated from the left.

ghost use Rattle.std.specs.Prelude.{◌≡◌};
ghost use Rattle.litmus.specs.Formulas.{steps_of, formula_of};

use crate::symbols::Step;
use std::marker::Model;

/// What a litmus test asks at the end. A contract sees it as a formula.
#[derive(Drop)]
pub struct Condition {
    steps: Vec<Step>,
}

impl Model for Condition {
    ghost use Rattle.std.specs.Prelude.{◌≡◌};
    ghost use Rattle.litmus.specs.Formulas.{Formula};
    ghost use Rattle.litmus.specs.Formulas.{steps_of, formula_of};
    ghost use Rattle.litmus.specs.inner.Codes.{formula_code};

    ghost Value = { Formula };

    ghost coded = { formula_code };

    ghost view = { λ c. formula_of c.steps.items };

    ghost invariant = { λ c. steps_of (formula_of c.steps.items) ≡ c.steps.items };
}

impl Condition {
    pub(crate) fn of_steps(steps: Vec<Step>) -> Condition
        requires { steps_of (formula_of steps.items) ≡ steps.items }
        ensures { result ≡ formula_of steps.items }
    {
        Condition { steps }
    }

    pub(crate) fn steps(&self) -> &[Step]
        ensures { result.now ≡ steps_of self.now }
    {
        &self.steps
    }
}
