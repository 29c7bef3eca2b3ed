//! The bytes of memory that harts share: those to which one may store, and which another may store to or load.

ghost use Rattle.std.specs.Prelude.{◌≡◌, ◌++◌, IfOk, OnOk};
ghost use Rattle.queue_checker.specs.Flaws.{first_of};
ghost use Rattle.hart_safety.specs.Shared.{all_joined, common, common_of, common_region, either_of, merged, shared_of, unbounded_by, with_hart};

use crate::regions::{Region, ends_before, joined_region};
use crate::touched::{Touched, touched_of};
use known_values::Lack;
use queue_checker::QueueCertificate;
use queue_checker::sites::small;
use std::alloc::{AllocError, Global};
use std::marker::Model;
use step_machine::Opening;

/// A state of a hart, by its number.
#[derive(Clone, Copy)]
pub struct Place {
    pub hart: u32,
    pub state: u32,
}

/// The bytes that two harts may share, in ascending regions with a byte between each and the next. They are all, where no hart has a state with
/// a store or a load that may go anywhere; else `unbounded` is the first such state.
#[derive(Drop)]
pub struct Shared {
    pub regions: Vec<Region>,
    pub unbounded: Option<Place>,
}

impl Model for Shared {
    ghost use Rattle.hart_safety.specs.Shared.{Shared as SharedOf};

    ghost Value = { SharedOf };

    ghost view = { λ s. record { regions = s.regions.items; unbounded = s.unbounded } };
}

/// What some harts store to, what they store to or load, and what they share.
#[derive(Drop)]
struct Shares {
    stored: Vec<Region>,
    touched: Vec<Region>,
    shared: Vec<Region>,
}

impl Model for Shares {
    ghost use Rattle.hart_safety.specs.Shared.{Shares as SharesOf};

    ghost Value = { SharesOf };

    ghost view = { λ s. record { stored = s.stored.items; touched = s.touched.items; shared = s.shared.items } };
}

fn common_region(first: Region, second: Region) -> Region
    ensures { result ≡ common_region first second }
{
    Region {
        from: if first.from <= second.from {
            second.from
        } else {
            first.from
        },
        to: if first.to <= second.to {
            first.to
        } else {
            second.to
        },
    }
}

/// Adds what is of both.
fn push_common(out: &mut Vec<Region>, first: Region, second: Region) -> Result<(), AllocError>
    ensures { OnOk result (out.new.items ≡ out.old.items ++ common_of first second) }
{
    let both = common_region(first, second);
    if both.from <= both.to {
        out.push(both)?;
    }
    Ok(())
}

/// What is of a region of the one and of one of the other, each in its order.
fn common(
    alloc: Global,
    mut first: &[Region],
    mut second: &[Region],
) -> Result<Vec<Region>, AllocError>
    ensures { IfOk result (λ both. both.items ≡ common first.now second.now) }
{
    let mut out = Vec::new(alloc);
    while let [mine, more @ ..] = first {
        let [its, others @ ..] = second else {
            return Ok(out);
        };
        push_common(&mut out, *mine, *its)?;
        if its.to < mine.to {
            second = others;
        } else {
            first = more;
        }
    }
    Ok(out)
}

/// All of both, by where they begin.
fn merged(
    alloc: Global,
    mut first: &[Region],
    mut second: &[Region],
) -> Result<Vec<Region>, AllocError>
    ensures { IfOk result (λ all. all.items ≡ merged first.now second.now) }
{
    let mut out = Vec::new(alloc);
    while let [mine, more @ ..] = first {
        let [its, others @ ..] = second else {
            out.extend_from_slice(first)?;
            return Ok(out);
        };
        if mine.from <= its.from {
            out.push(*mine)?;
            first = more;
        } else {
            out.push(*its)?;
            second = others;
        }
    }
    out.extend_from_slice(second)?;
    Ok(out)
}

/// Regions by where they begin, where those that meet or touch are one.
fn all_joined(alloc: Global, regions: &[Region]) -> Result<Vec<Region>, AllocError>
    ensures { IfOk result (λ all. all.items ≡ all_joined regions.now) }
{
    let mut out = Vec::new(alloc);
    let [first, others @ ..] = regions else {
        return Ok(out);
    };
    let mut region = *first;
    let mut rest = others;
    while let [next, later @ ..] = rest {
        if ends_before(region, *next) {
            out.push(region)?;
            region = *next;
        } else {
            region = joined_region(region, *next);
        }
        rest = later;
    }
    out.push(region)?;
    Ok(out)
}

/// The bytes of either, each in its order.
fn either_of(alloc: Global, first: &[Region], second: &[Region]) -> Result<Vec<Region>, AllocError>
    ensures { IfOk result (λ all. all.items ≡ either_of first.now second.now) }
{
    let all = merged(alloc, first, second)?;
    all_joined(alloc, &all)
}

/// With a hart that touches these.
fn with_hart(
    alloc: Global,
    before: Shares,
    stores: &Touched,
    loads: &Touched,
) -> Result<Shares, AllocError>
    ensures { IfOk result (λ all. all ≡ with_hart before stores.now.regions loads.now.regions) }
{
    let touches = either_of(alloc, &stores.regions, &loads.regions)?;
    let by_stores = common(alloc, &stores.regions, &before.touched)?;
    let by_others = common(alloc, &touches, &before.stored)?;
    let more = either_of(alloc, &by_stores, &by_others)?;
    Ok(Shares {
        stored: either_of(alloc, &before.stored, &stores.regions)?,
        touched: either_of(alloc, &before.touched, &touches)?,
        shared: either_of(alloc, &before.shared, &more)?,
    })
}

/// What was found at earlier harts, else the first state of this one with a store, else with a load, that may go anywhere.
fn first_place(before: Option<Place>, hart: u32, stores: &Touched, loads: &Touched) -> Option<Place>
    ensures { result ≡ first_of before (unbounded_by hart stores.now.unbounded loads.now.unbounded) }
{
    match (before, stores.unbounded, loads.unbounded) {
        (Some(place), _, _) => Some(place),
        (None, Some(state), _) => Some(Place { hart, state }),
        (None, None, Some(state)) => Some(Place { hart, state }),
        (None, None, None) => None,
    }
}

/// The bytes that two harts may share, by what each may store to and load.
pub fn shared_of(
    alloc: Global,
    opening: &Opening,
    certificate: &QueueCertificate,
) -> Result<Shared, Lack>
    ensures { IfOk result (λ shared. shared ≡ shared_of opening.now certificate.now) }
{
    let mut shares = Shares {
        stored: Vec::new(alloc),
        touched: Vec::new(alloc),
        shared: Vec::new(alloc),
    };
    let mut unbounded = None;
    for (place, _start) in opening.harts.iter().enumerate() {
        let hart = small(place)?;
        let stores = touched_of(alloc, opening, certificate, true, hart)?;
        let loads = touched_of(alloc, opening, certificate, false, hart)?;
        unbounded = first_place(unbounded, hart, &stores, &loads);
        shares = with_hart(alloc, shares, &stores, &loads)?;
    }
    Ok(Shared {
        regions: shares.shared,
        unbounded,
    })
}
