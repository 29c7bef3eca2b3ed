//! Regions of bytes, in their order, with a byte between each and the next.

ghost use Rattle.std.specs.Prelude.{◌≡◌, IfOk};
ghost use Rattle.hart_safety.specs.Regions.{region_of, ends_before, joined_region, with_region};

use known_values::Lack;
use known_values::lack::sum;
use queue_checker::targets::Target;
use std::alloc::Global;

/// The bytes at the addresses from `from` to `to`, both included.
#[derive(Clone, Copy)]
pub struct Region {
    pub from: u64,
    pub to: u64,
}

/// Where the bytes may lie.
pub(crate) fn region_of(target: &Target) -> Result<Region, Lack>
    ensures { IfOk result (λ region. region ≡ region_of target.now) }
{
    Ok(Region {
        from: target.bounds.low,
        to: sum(target.bounds.high, target.width.saturating_sub(1))?,
    })
}

/// Whether a byte lies between the first and the second.
pub(crate) fn ends_before(first: Region, second: Region) -> bool
    ensures { result ≡ ends_before first second }
{
    first.to.saturating_add(1) < second.from
}

pub(crate) fn joined_region(first: Region, second: Region) -> Region
    ensures { result ≡ joined_region first second }
{
    Region {
        from: if first.from <= second.from {
            first.from
        } else {
            second.from
        },
        to: if first.to <= second.to {
            second.to
        } else {
            first.to
        },
    }
}

/// The regions with one more, which those that it meets or touches become parts of.
pub(crate) fn with_region(
    alloc: Global,
    mut region: Region,
    mut regions: &[Region],
) -> Result<Vec<Region>, Lack>
    ensures { IfOk result (λ all. all.items ≡ with_region region regions.now) }
{
    let mut out = Vec::new(alloc);
    while let [next, others @ ..] = regions {
        if ends_before(region, *next) {
            out.push(region)?;
            out.extend_from_slice(regions)?;
            return Ok(out);
        }
        if ends_before(*next, region) {
            out.push(*next)?;
        } else {
            region = joined_region(region, *next);
        }
        regions = others;
    }
    out.push(region)?;
    Ok(out)
}
