//! The steps of a condition, built as its symbols come.

ghost use Rattle.std.specs.Prelude.{◌≡◌, ◌+◌, ◌<◌, ◌≤◌, ◌^◌, ◌++◌, ◌-◌, IfSome, IsSome, OnOk, OnErr, false, true, length, replicate, vec_len, vec_capacity};
ghost use Rattle.std.specs.List.{slice_get};
ghost use Rattle.texts.specs.Results.{GivesUpToMemory};
ghost use Rattle.litmus.specs.declared.symbols.Step.TheVariants.{Not};
ghost use Rattle.litmus.specs.inner.Building.{and_closed, or_closed, all_closed};

use crate::draft::ConditionError;
use crate::symbols::{Frame, Place, Step, Symbol};
use std::alloc::{AllocError, Global};
use std::marker::Model;

const EMPTY: Frame = Frame {
    or_at: None,
    and_at: None,
    negations: 0,
};

/// The steps so far, and what is open: the groups around (outermost first), this one, and whether its
/// operand is complete.
#[derive(Drop)]
pub(crate) struct Builder {
    steps: Vec<Step>,
    around: Vec<Frame>,
    here: Frame,
    has_operand: bool,
}

impl Model for Builder {
    ghost use Rattle.litmus.specs.inner.Building.{Build};

    ghost Value = { Build };

    ghost view = { λ b. record { steps = b.steps.items; around = b.around.items; here = b.here; has_operand = b.has_operand } };
}

/// The right side of the `And` at a place, if there is one, is complete: it ends where the steps do.
fn close_and(steps: &mut [Step], and_at: Option<usize>)
    requires { IfSome and_at (λ at. at < length steps.old) }
    ensures { steps.new ≡ and_closed and_at steps.old }
{
    if let Some(at) = and_at {
        let skip = steps.len() - at - 1;
        steps[at] = Step::And { skip };
    }
}

fn close_or(steps: &mut [Step], or_at: Option<usize>)
    requires { IfSome or_at (λ at. at < length steps.old) }
    ensures { steps.new ≡ or_closed or_at steps.old }
{
    if let Some(at) = or_at {
        let skip = steps.len() - at - 1;
        steps[at] = Step::Or { skip };
    }
}

/// The disjunction that is open in a group is complete.
fn close_all(steps: &mut [Step], mark: Frame)
    requires or_at { IfSome mark.or_at (λ at. at < length steps.old) }
    requires and_at { IfSome mark.and_at (λ at. at < length steps.old) }
    ensures { steps.new ≡ all_closed mark steps.old }
{
    close_and(steps, mark.and_at);
    close_or(steps, mark.or_at);
}

fn add_negations(steps: &mut Vec<Step>, negations: usize)
    requires { vec_len steps.old + negations ≤ vec_capacity steps.old }
    ensures { steps.new.items ≡ steps.old.items ++ replicate negations Not }
{
    for _ in 0..negations {
        steps.push_reserved(Step::Not);
    }
}

fn innermost(around: &[Frame]) -> Option<Frame>
    ensures value { result ≡ slice_get around.now (length around.now - 1) }
    ensures some { IsSome result → 0 < length around.now }
{
    around.last().copied()
}

impl Builder {
    ghost use Rattle.litmus.specs.inner.Building.{empty_build, built, with_group, with_and, with_or, with_close, with_operand, is_finished, IsWithin};
    ghost use Rattle.litmus.specs.Drafting.{or_misplaced, fault_of};
    ghost use Rattle.std.specs.Prelude.{◌∷◌, [], take};
    ghost use Rattle.litmus.specs.declared.symbols.Step.TheVariants as step;

    pub(crate) fn new(alloc: Global) -> Builder
        ensures { result ≡ empty_build }
    {
        Builder {
            steps: Vec::new(alloc),
            around: Vec::new(alloc),
            here: EMPTY,
            has_operand: false,
        }
    }

    /// Builds on by one symbol. An `Err` changes nothing.
    #[tactic(auto, unfolding(crate::specs::inner::Building::built))]
    pub(crate) fn take(&mut self, token: Symbol) -> Result<(), ConditionError>
        requires room { self.old.here.negations + 1 < 2 ^ 64 }
        requires within { IsWithin (length self.old.steps) self.old.here }
        ensures exact { GivesUpToMemory fault_of (λ _. self.new) result (or_misplaced (built self.old token)) }
        ensures kept { OnErr result (self.new ≡ self.old) }
    {
        if self.has_operand {
            self.take_after_operand(token)
        } else {
            self.take_before_operand(token)
        }
    }

    #[tactic(auto, unfolding(crate::specs::inner::Building::built))]
    fn take_before_operand(&mut self, token: Symbol) -> Result<(), ConditionError>
        requires room { self.old.here.negations + 1 < 2 ^ 64 }
        requires before { self.old.has_operand ≡ false }
        ensures exact { GivesUpToMemory fault_of (λ _. self.new) result (or_misplaced (built self.old token)) }
        ensures kept { OnErr result (self.new ≡ self.old) }
    {
        match token {
            Symbol::Is { place, value } => Ok(self.take_test(place, value)?),
            Symbol::Not => {
                self.here.negations += 1;
                Ok(())
            }
            Symbol::Open => Ok(self.open_group()?),
            Symbol::And => Err(ConditionError::Misplaced),
            Symbol::Or => Err(ConditionError::Misplaced),
            Symbol::Close => Err(ConditionError::Misplaced),
        }
    }

    #[tactic(auto, unfolding(crate::specs::inner::Building::built))]
    fn take_after_operand(&mut self, token: Symbol) -> Result<(), ConditionError>
        requires within { IsWithin (length self.old.steps) self.old.here }
        requires after { self.old.has_operand ≡ true }
        ensures exact { GivesUpToMemory fault_of (λ _. self.new) result (or_misplaced (built self.old token)) }
        ensures kept { OnErr result (self.new ≡ self.old) }
    {
        match token {
            Symbol::And => Ok(self.take_and()?),
            Symbol::Or => Ok(self.take_or()?),
            Symbol::Close => self.close_group(),
            Symbol::Is { .. } => Err(ConditionError::Misplaced),
            Symbol::Not => Err(ConditionError::Misplaced),
            Symbol::Open => Err(ConditionError::Misplaced),
        }
    }

    fn take_test(&mut self, place: Place, value: u32) -> Result<(), AllocError>
        requires { self.old.here.negations + 1 < 2 ^ 64 }
        ensures added { OnOk result (self.new ≡ with_operand (self.old.steps ++ step.Is place value ∷ []) self.old.around self.old.here) }
        ensures kept { OnErr result (self.new ≡ self.old) }
    {
        self.steps.reserve(self.here.negations + 1)?;
        self.steps.push_reserved(Step::Is { place, value });
        add_negations(&mut self.steps, self.here.negations);
        self.here.negations = 0;
        self.has_operand = true;
        Ok(())
    }

    fn open_group(&mut self) -> Result<(), AllocError>
        ensures opened { OnOk result (self.new ≡ with_group self.old) }
        ensures kept { OnErr result (self.new ≡ self.old) }
    {
        self.around.push(self.here)?;
        self.here = EMPTY;
        Ok(())
    }

    fn take_and(&mut self) -> Result<(), AllocError>
        requires { IsWithin (length self.old.steps) self.old.here }
        ensures joined { OnOk result (self.new ≡ with_and self.old) }
        ensures kept { OnErr result (self.new ≡ self.old) }
    {
        self.steps.reserve(1)?;
        close_and(&mut self.steps, self.here.and_at);
        self.here.and_at = Some(self.steps.len());
        self.steps.push_reserved(Step::And { skip: 0 });
        self.has_operand = false;
        Ok(())
    }

    fn take_or(&mut self) -> Result<(), AllocError>
        requires { IsWithin (length self.old.steps) self.old.here }
        ensures joined { OnOk result (self.new ≡ with_or self.old) }
        ensures kept { OnErr result (self.new ≡ self.old) }
    {
        self.steps.reserve(1)?;
        close_all(&mut self.steps, self.here);
        self.here = Frame {
            or_at: Some(self.steps.len()),
            and_at: None,
            negations: 0,
        };
        self.steps.push_reserved(Step::Or { skip: 0 });
        self.has_operand = false;
        Ok(())
    }

    fn close_group(&mut self) -> Result<(), ConditionError>
        requires within { IsWithin (length self.old.steps) self.old.here }
        requires after { self.old.has_operand ≡ true }
        ensures exact { GivesUpToMemory fault_of (λ _. self.new) result
            (or_misplaced (with_close self.old (slice_get self.old.around (length self.old.around - 1)))) }
        ensures kept { OnErr result (self.new ≡ self.old) }
    {
        match innermost(&self.around) {
            Some(outer) => Ok(self.close_into(outer)?),
            None => Err(ConditionError::Misplaced),
        }
    }

    /// What stands between the parentheses becomes an operand of the group around it.
    fn close_into(&mut self, outer: Frame) -> Result<(), AllocError>
        requires within { IsWithin (length self.old.steps) self.old.here }
        requires after { self.old.has_operand ≡ true }
        requires some { 0 < length self.old.around }
        ensures closed { OnOk result (self.new ≡ with_operand (all_closed self.old.here self.old.steps)
            (take (length self.old.around - 1) self.old.around) outer) }
        ensures kept { OnErr result (self.new ≡ self.old) }
    {
        self.steps.reserve(outer.negations)?;
        close_all(&mut self.steps, self.here);
        add_negations(&mut self.steps, outer.negations);
        self.around.truncate(self.around.len() - 1);
        self.here = Frame {
            negations: 0,
            ..outer
        };
        Ok(())
    }

    /// Whether an operand is complete in no parentheses, so that the symbols so far are a condition.
    pub(crate) fn is_complete(&self) -> bool
        ensures { result ≡ is_finished self.now }
    {
        self.has_operand && self.around.is_empty()
    }

    pub(crate) fn into_steps(self) -> Vec<Step>
        requires { IsWithin (length self.steps) self.here }
        ensures { result.items ≡ all_closed self.here self.steps }
    {
        let mut steps = self.steps;
        close_all(&mut steps, self.here);
        steps
    }
}
