//! The leaves of a state's cases: the state of each case, and the one walk over them.

ghost use Rattle.std.specs.Prelude.{◌≡◌, Bool, List, Some, IfOk, get_or, set};
ghost use Rattle.queue_certificates.specs.Cases.{at_most, beyond, may_exceed, range_changed, with_low, with_high, each_leaf};

use crate::certificate::{Arrow, CaseNode, Cases, KnownState};
use crate::states::{high_state, settled_state};
use known_values::lack::sum;
use known_values::{Form, Lack};
use std::alloc::Global;

fn at_most(most: u64, range: Option<u64>) -> Option<u64>
    ensures { result ≡ at_most most range }
{
    match range {
        None => Some(most),
        Some(n) => if n <= most { Some(n) } else { Some(most) },
    }
}

fn beyond(most: u64, range: Option<u64>) -> Result<Option<u64>, Lack>
    ensures { IfOk result (λ r. r ≡ beyond most range) }
{
    match range {
        None => Ok(None),
        Some(n) => Ok(Some(n.saturating_sub(sum(most, 1)?))),
    }
}

fn may_exceed(most: u64, range: Option<u64>) -> bool
    ensures { result ≡ may_exceed most range }
{
    match range {
        None => true,
        Some(n) => most < n,
    }
}

fn range_of(ranges: &[Option<u64>], variable: u32) -> Option<u64>
    ensures { result ≡ get_or ranges.now variable (Some 0) }
{
    match ranges.get(variable as usize) {
        Some(range) => *range,
        None => Some(0),
    }
}

/// The ranges where the variable is at most `most`.
#[tactic(auto, using(crate::proofs::Ranges::set_low))]
fn low_ranges(
    alloc: Global,
    ranges: &[Option<u64>],
    variable: u32,
    most: u64,
) -> Result<Vec<Option<u64>>, Lack>
    ensures { IfOk result (λ rs. rs.items ≡ range_changed ranges.now variable (at_most most)) }
{
    let mut out = Vec::from_slice(alloc, ranges)?;
    put_range(
        &mut out,
        variable as usize,
        at_most(most, range_of(ranges, variable)),
    );
    Ok(out)
}

/// The ranges where the variable is more, and counts from the next number on.
#[tactic(auto, using(crate::proofs::Ranges::set_high))]
fn high_ranges(
    alloc: Global,
    ranges: &[Option<u64>],
    variable: u32,
    most: u64,
) -> Result<Vec<Option<u64>>, Lack>
    ensures { IfOk result (λ rs. rs.items ≡ range_changed ranges.now variable (beyond most)) }
{
    let mut out = Vec::from_slice(alloc, ranges)?;
    put_range(
        &mut out,
        variable as usize,
        beyond(most, range_of(ranges, variable))?,
    );
    Ok(out)
}

fn put_range(ranges: &mut Vec<Option<u64>>, i: usize, range: Option<u64>)
    ensures { ranges.new.items ≡ set ranges.old.items i range }
{
    if i < ranges.len() {
        ranges[i] = range;
    }
}

/// The state where a variable is at most `most`.
pub fn with_low(
    alloc: Global,
    state: &KnownState,
    variable: u32,
    most: u64,
) -> Result<KnownState, Lack>
    ensures { IfOk result (λ s. s ≡ with_low state.now variable most) }
{
    let ranges = low_ranges(alloc, &state.ranges, variable, most)?;
    settled_state(alloc, state, ranges)
}

/// The state where a variable is more.
pub fn with_high(
    alloc: Global,
    state: &KnownState,
    variable: u32,
    most: u64,
) -> Result<KnownState, Lack>
    ensures { IfOk result (λ s. s ≡ with_high state.now variable most) }
{
    let ranges = high_ranges(alloc, &state.ranges, variable, most)?;
    high_state(alloc, state, variable, sum(most, 1)?, ranges)
}

/// Whether a variable of the state may be more than `most`.
pub fn goes_beyond(state: &KnownState, variable: u32, most: u64) -> bool
    ensures { result ≡ may_exceed most (get_or state.now.ranges variable (Some 0)) }
{
    may_exceed(most, range_of(&state.ranges, variable))
}

/// A question to a leaf of a state; `holds` is its definition, and computes it.
pub trait LeafCheck {
    ghost use Rattle.std.specs.Prelude.{◌≡◌, Bool, List, IfOk};
    ghost use Rattle.queue_certificates.specs.Forms.{Form as FormOf};
    ghost use Rattle.queue_certificates.specs.States.{KnownState as StateOf};
    ghost use Rattle.queue_certificates.specs.Cases.{Arrow as ArrowOf};

    ghost holds: { Self → StateOf → FormOf → List ArrowOf → Bool };

    /// Whether it holds at a leaf: where `state` is known, the instruction hands over `handed` positions, and goes on along `arrows`.
    fn holds(
        &self,
        alloc: Global,
        state: &KnownState,
        handed: &Form,
        arrows: &[Arrow],
    ) -> Result<bool, Lack>
        ensures { IfOk result (λ yes. yes ≡ holds self.now state.now handed.now arrows.now) };
}

/// Whether it holds at each leaf of the state that may be.
pub fn each_leaf<C: LeafCheck>(
    alloc: Global,
    check: &C,
    state: &KnownState,
    cases: &Cases,
) -> Result<bool, Lack>
    ensures { IfOk result (λ all. all ≡ each_leaf (C.holds check.now) state.now cases.now) }
{
    match &cases.node {
        CaseNode::Leaf(handed, arrows) => check.holds(alloc, state, handed, arrows),
        CaseNode::Split(variable, most, low, high) => {
            let below = with_low(alloc, state, *variable, *most)?;
            let holds = each_leaf(alloc, check, &below, low)?;
            if holds {
                if goes_beyond(state, *variable, *most) {
                    let above = with_high(alloc, state, *variable, *most)?;
                    each_leaf(alloc, check, &above, high)
                } else {
                    Ok(true)
                }
            } else {
                Ok(false)
            }
        }
    }
}
