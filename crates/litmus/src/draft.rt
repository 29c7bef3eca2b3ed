//! A condition, given symbol by symbol.

ghost use Rattle.std.specs.Prelude.{◌≡◌, ◌≢◌, ◌↔◌, [], ◌∷◌, ◌++◌, Ok, Err, IfOk, OnOk, OnErr};
ghost use Rattle.texts.specs.Results.{GivesUpToMemory};
ghost use Rattle.litmus.specs.declared.draft.ConditionError.TheVariants.{NoMemory, Misplaced};
ghost use Rattle.litmus.specs.Drafting.{symbol_added, formula_of_symbols};
ghost use Rattle.litmus.specs.Drafting.{fault_of};

use crate::builder::Builder;
use crate::condition::Condition;
use crate::symbols::Symbol;
use std::alloc::{AllocError, AllocFailed, Global};
use std::marker::Model;
use thiserror::Error;

/// Why a draft doesn't take a symbol, or why its symbols make no condition.
#[derive(Clone, Copy, Debug, PartialEq, Eq, Error)]
pub enum ConditionError {
    #[error("no memory")]
    NoMemory,
    /// The symbols are no condition: one may not stand where it does, or one is missing at the end.
    #[error("bad condition")]
    Misplaced,
}

impl From<AllocError> for ConditionError {
    ghost from_gives = { λ _ e. e ≡ NoMemory };

    fn from(_error: AllocError) -> ConditionError {
        ConditionError::NoMemory
    }
}

impl<T: Drop> From<AllocFailed<T>> for ConditionError {
    ghost from_gives = { λ _ e. e ≡ NoMemory };

    fn from(_error: AllocFailed<T>) -> ConditionError {
        ConditionError::NoMemory
    }
}

/// The symbols of a condition so far. A contract sees the list of them.
#[derive(Drop)]
pub struct ConditionDraft {
    tokens: Vec<Symbol>,
    builder: Builder,
}

impl Model for ConditionDraft {
    ghost use Rattle.std.specs.Prelude.{◌≡◌, List, Some};
    ghost use Rattle.litmus.specs.declared.symbols.Symbol.{Symbol};
    ghost use Rattle.litmus.specs.Drafting.{stage_after};
    ghost use Rattle.litmus.specs.inner.Building.{build_at};

    ghost Value = { List Symbol };

    ghost view = { λ draft. draft.tokens.items };

    ghost invariant = { λ draft. build_at (stage_after draft.tokens.items) ≡ Some draft.builder };
}

impl ConditionDraft {
    ghost use Rattle.litmus.specs.Grammar.{IsConditionOf, Begins};
    ghost use Rattle.litmus.specs.Formulas.{Formula};

    /// A draft of no symbol, which takes its memory from the allocator.
    #[tactic(auto, unfolding(crate::specs::Drafting::stage_after))]
    pub fn new(alloc: Global) -> ConditionDraft
        ensures { result ≡ [] }
    {
        ConditionDraft {
            tokens: Vec::new(alloc),
            builder: Builder::new(alloc),
        }
    }

    /// Takes one more symbol. `Misplaced` comes exactly where no condition begins with the symbols so far
    /// and this one. An `Err` changes nothing.
    pub fn push(&mut self, token: Symbol) -> Result<(), ConditionError>
        ensures exact { GivesUpToMemory fault_of (λ _. self.new) result (symbol_added self.old token) }
        ensures begins { OnOk result (Begins self.new) }
        ensures misplaced { result ≡ Err Misplaced → ¬ Begins (self.old ++ token ∷ []) }
        ensures kept { OnErr result (self.new ≡ self.old) }
    {
        self.tokens.reserve(1)?;
        match self.builder.take(token) {
            Ok(()) => {
                self.tokens.push_reserved(token);
                Ok(())
            }
            Err(error) => Err(error),
        }
    }

    /// The condition of the symbols. It is `Misplaced` exactly where they are none. It takes no memory,
    /// so there is no other `Err`.
    pub fn finish(self) -> Result<Condition, ConditionError>
        ensures exact { GivesUpToMemory fault_of (λ (f : Formula). f) result (formula_of_symbols self) }
        ensures found { IfOk result (IsConditionOf self) }
        ensures only { (f : Formula) → IsConditionOf self f → result ≡ Ok f }
        ensures misplaced { (result ≡ Err Misplaced) ↔ ((f : Formula) → ¬ IsConditionOf self f) }
        ensures free { result ≢ Err NoMemory }
    {
        if !self.builder.is_complete() {
            return Err(ConditionError::Misplaced);
        }
        Ok(Condition::of_steps(self.builder.into_steps()))
    }
}
