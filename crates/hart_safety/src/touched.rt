//! The bytes to which a hart may store, or which it may load.

ghost use Rattle.std.specs.Prelude.{◌≡◌, IfOk, None};
ghost use Rattle.queue_checker.specs.Flaws.{hart_at, first_of};
ghost use Rattle.hart_safety.specs.Leaves.{over_leaves, over_states};
ghost use Rattle.hart_safety.specs.Touched.{is_bounded, target_of, touched_at, touched_of, with_target};

use crate::regions::{Region, region_of, with_region};
use known_values::{Bounds, Lack};
use queue_checker::leaves::{goes_beyond, with_high, with_low};
use queue_checker::owning::code_of;
use queue_checker::sites::{listed_states, small};
use queue_checker::steps::instruction_at;
use queue_checker::targets::{Target, load_target, store_target};
use queue_checker::{CaseNode, Cases, KnownState, QueueCertificate};
use rv_decode::Instr;
use std::alloc::Global;
use std::marker::Model;
use step_machine::Opening;

/// The bytes to which a hart may store, or which it may load, in ascending regions with a byte between each and the next. They are all, where
/// there is no state with such an access that may go anywhere; else `unbounded` is the first such state.
#[derive(Drop)]
pub struct Touched {
    pub regions: Vec<Region>,
    pub unbounded: Option<u32>,
}

impl Model for Touched {
    ghost use Rattle.hart_safety.specs.Touched.{Touched as TouchedOf};

    ghost Value = { TouchedOf };

    ghost view = { λ w. record { regions = w.regions.items; unbounded = w.unbounded } };
}

/// Whether some address of a word is none of these.
fn is_bounded(bounds: Bounds) -> bool
    ensures { result ≡ is_bounded bounds }
{
    bounds.low > 0 || bounds.high < u64::from(u32::MAX)
}

/// The bytes to which an instruction stores, or which it loads, if there are any.
fn target_of(
    alloc: Global,
    certificate: &QueueCertificate,
    stores: bool,
    state: &KnownState,
    instruction: Option<Instr>,
) -> Result<Option<Target>, Lack>
    ensures { IfOk result (λ target. target ≡ target_of stores certificate.now state.now instruction) }
{
    if stores {
        store_target(alloc, certificate, state, instruction)
    } else {
        load_target(alloc, certificate, state, instruction)
    }
}

/// With an access of state `n`.
fn with_target(
    alloc: Global,
    n: u32,
    target: Option<Target>,
    touched: Touched,
) -> Result<Touched, Lack>
    ensures { IfOk result (λ all. all ≡ with_target n target touched) }
{
    match target {
        None => Ok(touched),
        Some(target) => {
            let Touched { regions, unbounded } = touched;
            if is_bounded(target.bounds) {
                let regions = with_region(alloc, region_of(&target)?, &regions)?;
                Ok(Touched { regions, unbounded })
            } else {
                let unbounded = unbounded.or(Some(n));
                Ok(Touched { regions, unbounded })
            }
        }
    }
}

/// With what a leaf of state `n` may touch.
fn touched_at(
    alloc: Global,
    certificate: &QueueCertificate,
    stores: bool,
    code: &[u32],
    n: u32,
    state: &KnownState,
    touched: Touched,
) -> Result<Touched, Lack>
    ensures { IfOk result (λ all. all ≡ touched_at stores certificate.now code.now n state.now touched) }
{
    let instruction = instruction_at(code, state.pc);
    let target = target_of(alloc, certificate, stores, state, instruction)?;
    with_target(alloc, n, target, touched)
}

/// The same with all leaves of state `n`, by its cases.
fn touched_in(
    alloc: Global,
    certificate: &QueueCertificate,
    stores: bool,
    code: &[u32],
    n: u32,
    state: &KnownState,
    cases: &Cases,
    touched: Touched,
) -> Result<Touched, Lack>
    ensures { IfOk result (λ all. all ≡ over_leaves (touched_at stores certificate.now code.now) n state.now cases.now touched) }
{
    match &cases.node {
        CaseNode::Leaf(_, _) => touched_at(alloc, certificate, stores, code, n, state, touched),
        CaseNode::Split(variable, most, low, high) => {
            let below = with_low(alloc, state, *variable, *most)?;
            let lower = touched_in(alloc, certificate, stores, code, n, &below, low, touched)?;
            if goes_beyond(state, *variable, *most) {
                let above = with_high(alloc, state, *variable, *most)?;
                touched_in(alloc, certificate, stores, code, n, &above, high, lower)
            } else {
                Ok(lower)
            }
        }
    }
}

/// The bytes to which the hart may store, or which it may load, by all leaves of its states.
pub fn touched_of(
    alloc: Global,
    opening: &Opening,
    certificate: &QueueCertificate,
    stores: bool,
    hart: u32,
) -> Result<Touched, Lack>
    ensures { IfOk result (λ touched. touched ≡ touched_of stores opening.now certificate.now hart) }
{
    let code = code_of(opening, hart);
    let mut touched = Touched {
        regions: Vec::new(alloc),
        unbounded: None,
    };
    for n in 0..small(listed_states(certificate, hart).len())? {
        let listed = &listed_states(certificate, hart)[n as usize];
        let state = &listed.known;
        touched = touched_in(
            alloc,
            certificate,
            stores,
            code,
            n,
            state,
            &listed.cases,
            touched,
        )?;
    }
    Ok(touched)
}
