//! The states that may follow an instruction.

ghost use Rattle.std.specs.Prelude.{◌≡◌, [], ◌∷◌, Some, None, IfOk};

use crate::certificate::KnownState;
use known_values::Lack;
use std::alloc::Global;
use std::marker::Model;

/// The states that may follow, or that it isn't shown that the instruction may be executed.
#[derive(Drop)]
pub struct Successors {
    pub shown: bool,
    pub states: Vec<KnownState>,
}

impl Model for Successors {
    ghost use Rattle.std.specs.Prelude.{Option, Some, None, List, if◌then◌else◌};
    ghost use Rattle.queue_certificates.specs.States.{KnownState as KnownStateOf};

    ghost Value = { Option (List KnownStateOf) };

    ghost view = { λ s. if s.shown then Some s.states.items else None };
}

pub(crate) fn not_shown(alloc: Global) -> Successors
    ensures { result ≡ None }
{
    Successors {
        shown: false,
        states: Vec::new(alloc),
    }
}

pub(crate) fn none(alloc: Global) -> Successors
    ensures { result ≡ Some [] }
{
    Successors {
        shown: true,
        states: Vec::new(alloc),
    }
}

pub(crate) fn one(alloc: Global, state: KnownState) -> Result<Successors, Lack>
    ensures { IfOk result (λ next. next ≡ Some (state ∷ [])) }
{
    let mut states = Vec::new(alloc);
    states.push(state)?;
    Ok(Successors {
        shown: true,
        states,
    })
}

pub(crate) fn two(alloc: Global, first: KnownState, second: KnownState) -> Result<Successors, Lack>
    ensures { IfOk result (λ next. next ≡ Some (first ∷ second ∷ [])) }
{
    let mut states = Vec::new(alloc);
    states.push(first)?;
    states.push(second)?;
    Ok(Successors {
        shown: true,
        states,
    })
}
