//! The places that a condition asks for, each once.

ghost use Rattle.std.specs.Prelude.{◌≡◌, ◌+◌, ◌<◌, ◌++◌, IfOk, OnOk, All, true, false, length, replicate, slice_set};
ghost use Rattle.litmus.specs.LitmusTests.{IsThere, firsts};
ghost use Rattle.litmus.specs.inner.Running.{AsksThere, step_places};
ghost use Rattle.litmus.specs.inner.Seen.{index_of as place_index, unless_seen, after_place, after_seen};
ghost use Rattle.litmus.specs.declared.litmus_test.TheConstants.{MAX_LOCATIONS};
ghost use Rattle.step_machine.specs.declared.opening.TheConstants.{MAX_HARTS};

use crate::symbols::{Place, Step};
use std::alloc::{AllocError, Global};

/// 32 registers for each of 64 harts.
const REGISTERS: usize = 2048;

/// How many places there are: the registers, and the words of all locations.
const PLACES: usize = 3072;

fn index_of(place: Place) -> usize
    requires { IsThere MAX_HARTS MAX_LOCATIONS place }
    ensures index { result ≡ place_index place }
    ensures below { result < 3072 }
{
    match place {
        Place::Register { hart, number } => hart as usize * 32 + number as usize,
        Place::Word { address } => REGISTERS + address as usize / 4,
    }
}

/// Adds a place that wasn't seen before, and marks it as seen.
fn add_place(places: &mut Vec<Place>, seen: &mut Vec<bool>, place: Place) -> Result<(), AllocError>
    requires there { IsThere MAX_HARTS MAX_LOCATIONS place }
    requires len { length seen.old.items ≡ 3072 }
    ensures places { OnOk result (places.new.items ≡ places.old.items ++ unless_seen seen.old.items place) }
    ensures seen { OnOk result (seen.new.items ≡ slice_set seen.old.items (place_index place) true) }
{
    let index = index_of(place);
    if !seen[index] {
        places.push(place)?;
        seen[index] = true;
    }
    Ok(())
}

/// Adds the place that a step asks for, if it asks for one.
fn add_step(places: &mut Vec<Place>, seen: &mut Vec<bool>, step: Step) -> Result<(), AllocError>
    requires there { AsksThere MAX_HARTS MAX_LOCATIONS step }
    requires len { length seen.old.items ≡ 3072 }
    ensures places { OnOk result (places.new.items ≡ places.old.items ++ after_place seen.old.items step) }
    ensures seen { OnOk result (seen.new.items ≡ after_seen seen.old.items step) }
{
    match step {
        Step::Is { place, .. } => add_place(places, seen, place),
        Step::Not => Ok(()),
        Step::And { .. } => Ok(()),
        Step::Or { .. } => Ok(()),
    }
}

fn none_seen(alloc: Global) -> Result<Vec<bool>, AllocError>
    ensures { IfOk result (λ seen. seen.items ≡ replicate 3072 false) }
{
    vec![in alloc; false; PLACES]
}

/// The places that these steps ask for, each once, in order of first appearance.
pub(crate) fn first_places(alloc: Global, steps: &[Step]) -> Result<Vec<Place>, AllocError>
    requires { All (AsksThere MAX_HARTS MAX_LOCATIONS) steps.now }
    ensures { IfOk result (λ places. places.items ≡ firsts (step_places steps.now)) }
{
    let mut seen = none_seen(alloc)?;
    let mut places = Vec::new(alloc);
    for step in steps {
        add_step(&mut places, &mut seen, *step)?;
    }
    Ok(places)
}
