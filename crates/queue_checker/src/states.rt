//! Known states, made anew: with each form over one variable more, settled, or with more for a variable.

ghost use Rattle.std.specs.Prelude.{◌≡◌, ◌∷◌, ◌++◌, ◌+◌, ℕ, Some, IfOk, map, set, get_or};
ghost use Rattle.queue_certificates.specs.Forms.{number, lifted, settled, raised};
ghost use Rattle.queue_certificates.specs.States.{no_share, any, value_by, share_by, state_by};
ghost use Rattle.queue_certificates.specs.Steps.{with_register, with_result, going_to, called};
ghost use Rattle.hart.specs.Effects.{next_pc};

use crate::certificate::{KnownState, Share};
use crate::sites::place_after;
use known_values::forms::{lifted, number, raised};
use known_values::ranges::settled;
use known_values::values::{any, lifted_value, raised_value, settled_value};
use known_values::{KnownValue, Lack, Outcome};
use std::alloc::Global;

/// Where the pc goes on after an instruction that doesn't jump.
pub(crate) fn next_pc(pc: u32) -> u32
    ensures { result ≡ next_pc pc }
{
    pc.wrapping_add(4)
}

/// The value at `i`; any, if there are fewer.
pub fn value_in(alloc: Global, values: &[KnownValue], i: usize) -> Result<KnownValue, Lack>
    ensures { IfOk result (λ v. v ≡ get_or values.now i any) }
{
    match values.get(i) {
        Some(value) => value.copy(alloc),
        None => Ok(any()),
    }
}

pub(crate) fn copied_share(alloc: Global, share: &Share) -> Result<Share, Lack>
    ensures { IfOk result (λ s. s ≡ share.now) }
{
    Ok(Share {
        own: share.own.copy(alloc)?,
        owned: share.owned.copy(alloc)?,
    })
}

/// The share of queue `i`; none, if there are fewer.
pub fn share_in(alloc: Global, shares: &[Share], i: usize) -> Result<Share, Lack>
    ensures { IfOk result (λ s. s ≡ get_or shares.now i no_share) }
{
    match shares.get(i) {
        Some(share) => copied_share(alloc, share),
        None => Ok(Share {
            own: number(alloc, 0),
            owned: number(alloc, 0),
        }),
    }
}

/// The share of a queue with tags, number `t` among these, whose shares come after those of `count` others.
pub fn share_after(alloc: Global, shares: &[Share], count: u32, t: u32) -> Result<Share, Lack>
    ensures { IfOk result (λ s. s ≡ get_or shares.now (count + t) no_share) }
{
    let i = place_after(count, t)?;
    share_in(alloc, shares, i as usize)
}

pub(crate) fn push_copies(
    alloc: Global,
    out: &mut Vec<KnownValue>,
    values: &[KnownValue],
) -> Result<(), Lack>
    ensures { IfOk result (λ _. out.new.items ≡ out.old.items ++ values.now) }
{
    for value in values {
        out.push(value.copy(alloc)?)?;
    }
    Ok(())
}

pub(crate) fn copied_values(alloc: Global, values: &[KnownValue]) -> Result<Vec<KnownValue>, Lack>
    ensures { IfOk result (λ vs. vs.items ≡ values.now) }
{
    let mut out = Vec::new(alloc);
    for value in values {
        out.push(value.copy(alloc)?)?;
    }
    Ok(out)
}

pub(crate) fn copied_shares(alloc: Global, shares: &[Share]) -> Result<Vec<Share>, Lack>
    ensures { IfOk result (λ ss. ss.items ≡ shares.now) }
{
    let mut out = Vec::new(alloc);
    for share in shares {
        out.push(copied_share(alloc, share)?)?;
    }
    Ok(out)
}

fn put_value(values: &mut Vec<KnownValue>, i: usize, value: KnownValue)
    ensures { values.new.items ≡ set values.old.items i value }
{
    if i < values.len() {
        values[i] = value;
    }
}

pub(crate) fn put_share(shares: &mut Vec<Share>, i: usize, share: Share)
    ensures { shares.new.items ≡ set shares.old.items i share }
{
    if i < shares.len() {
        shares[i] = share;
    }
}

pub(crate) fn lifted_values(alloc: Global, values: &[KnownValue]) -> Result<Vec<KnownValue>, Lack>
    ensures { IfOk result (λ vs. vs.items ≡ map (value_by lifted) values.now) }
{
    let mut out = Vec::new(alloc);
    for value in values {
        out.push(lifted_value(alloc, value)?)?;
    }
    Ok(out)
}

fn lifted_share(alloc: Global, share: &Share) -> Result<Share, Lack>
    ensures { IfOk result (λ s. s ≡ share_by lifted share.now) }
{
    Ok(Share {
        own: lifted(alloc, &share.own)?,
        owned: lifted(alloc, &share.owned)?,
    })
}

pub(crate) fn lifted_shares(alloc: Global, shares: &[Share]) -> Result<Vec<Share>, Lack>
    ensures { IfOk result (λ ss. ss.items ≡ map (share_by lifted) shares.now) }
{
    let mut out = Vec::new(alloc);
    for share in shares {
        out.push(lifted_share(alloc, share)?)?;
    }
    Ok(out)
}

/// The ranges, before which one new one stands.
pub(crate) fn with_range(
    alloc: Global,
    most: u64,
    ranges: &[Option<u64>],
) -> Result<Vec<Option<u64>>, Lack>
    ensures { IfOk result (λ rs. rs.items ≡ Some most ∷ ranges.now) }
{
    let mut out = Vec::new(alloc);
    out.push(Some(most))?;
    out.extend_from_slice(ranges)?;
    Ok(out)
}

/// The registers over one variable more, with a value for this one; x0 keeps its own.
pub(crate) fn with_register(
    alloc: Global,
    registers: &[KnownValue],
    rd: u8,
    value: KnownValue,
) -> Result<Vec<KnownValue>, Lack>
    ensures { IfOk result (λ vs. vs.items ≡ with_register (map (value_by lifted) registers.now) rd value) }
{
    let mut out = lifted_values(alloc, registers)?;
    if rd != 0 {
        put_value(&mut out, rd as usize, value);
    }
    Ok(out)
}

/// The state with a value for this register; x0 keeps its own.
pub(crate) fn with_value(
    alloc: Global,
    state: &KnownState,
    rd: u8,
    value: KnownValue,
) -> Result<KnownState, Lack>
    ensures { IfOk result (λ s. s ≡ record state.now { registers = with_register state.now.registers rd value }) }
{
    let ranges = Vec::from_slice(alloc, &state.ranges)?;
    let words = copied_values(alloc, &state.words)?;
    let shares = copied_shares(alloc, &state.shares)?;
    let mut registers = copied_values(alloc, &state.registers)?;
    if rd != 0 {
        put_value(&mut registers, rd as usize, value);
    }
    Ok(KnownState {
        pc: state.pc,
        ranges,
        registers,
        words,
        shares,
    })
}

pub fn copied_state(alloc: Global, state: &KnownState) -> Result<KnownState, Lack>
    ensures { IfOk result (λ s. s ≡ state.now) }
{
    let ranges = Vec::from_slice(alloc, &state.ranges)?;
    let words = copied_values(alloc, &state.words)?;
    let shares = copied_shares(alloc, &state.shares)?;
    let registers = copied_values(alloc, &state.registers)?;
    Ok(KnownState {
        pc: state.pc,
        ranges,
        registers,
        words,
        shares,
    })
}

/// The state after an instruction that leaves an outcome in a register and goes on at `pc`.
pub(crate) fn with_result(
    alloc: Global,
    state: &KnownState,
    rd: u8,
    pc: u32,
    outcome: Outcome,
) -> Result<KnownState, Lack>
    ensures { IfOk result (λ s. s ≡ with_result state.now rd pc outcome) }
{
    let ranges = with_range(alloc, outcome.most, &state.ranges)?;
    let words = lifted_values(alloc, &state.words)?;
    let shares = lifted_shares(alloc, &state.shares)?;
    let registers = with_register(alloc, &state.registers, rd, outcome.value)?;
    Ok(KnownState {
        pc,
        ranges,
        registers,
        words,
        shares,
    })
}

/// The state with these shares.
pub(crate) fn with_shares(state: KnownState, shares: Vec<Share>) -> KnownState
    ensures { result ≡ record state { shares = shares.items } }
{
    let mut state = state;
    state.shares = shares;
    state
}

/// The state with this share of queue `i`.
pub(crate) fn with_share(state: KnownState, i: u32, share: Share) -> KnownState
    ensures { result ≡ record state { shares = set state.shares i share } }
{
    let mut state = state;
    put_share(&mut state.shares, i as usize, share);
    state
}

/// The state after an instruction that leaves the registers and goes on at `pc`.
pub(crate) fn going_to(alloc: Global, state: &KnownState, pc: u32) -> Result<KnownState, Lack>
    ensures { IfOk result (λ s. s ≡ going_to state.now pc) }
{
    let ranges = with_range(alloc, 0, &state.ranges)?;
    let words = lifted_values(alloc, &state.words)?;
    let shares = lifted_shares(alloc, &state.shares)?;
    let registers = lifted_values(alloc, &state.registers)?;
    Ok(KnownState {
        pc,
        ranges,
        registers,
        words,
        shares,
    })
}

/// The state after an environment call, which may leave a word in x10 and a flag in x11.
pub(crate) fn called(alloc: Global, state: &KnownState) -> Result<KnownState, Lack>
    ensures { IfOk result (λ s. s ≡ called state.now) }
{
    let ranges = with_range(alloc, 0, &state.ranges)?;
    let words = lifted_values(alloc, &state.words)?;
    let shares = lifted_shares(alloc, &state.shares)?;
    let mut registers = lifted_values(alloc, &state.registers)?;
    put_value(&mut registers, 10, any());
    put_value(&mut registers, 11, any());
    Ok(KnownState {
        pc: next_pc(state.pc),
        ranges,
        registers,
        words,
        shares,
    })
}

fn settled_values(
    alloc: Global,
    ranges: &[Option<u64>],
    values: &[KnownValue],
) -> Result<Vec<KnownValue>, Lack>
    ensures { IfOk result (λ vs. vs.items ≡ map (value_by (settled ranges.now)) values.now) }
{
    let mut out = Vec::new(alloc);
    for value in values {
        out.push(settled_value(alloc, ranges, value)?)?;
    }
    Ok(out)
}

fn settled_share(alloc: Global, ranges: &[Option<u64>], share: &Share) -> Result<Share, Lack>
    ensures { IfOk result (λ s. s ≡ share_by (settled ranges.now) share.now) }
{
    Ok(Share {
        own: settled(alloc, ranges, &share.own)?,
        owned: settled(alloc, ranges, &share.owned)?,
    })
}

fn settled_shares(
    alloc: Global,
    ranges: &[Option<u64>],
    shares: &[Share],
) -> Result<Vec<Share>, Lack>
    ensures { IfOk result (λ ss. ss.items ≡ map (share_by (settled ranges.now)) shares.now) }
{
    let mut out = Vec::new(alloc);
    for share in shares {
        out.push(settled_share(alloc, ranges, share)?)?;
    }
    Ok(out)
}

/// The state in these ranges, without the variables that can only be 0.
pub(crate) fn settled_state(
    alloc: Global,
    state: &KnownState,
    ranges: Vec<Option<u64>>,
) -> Result<KnownState, Lack>
    ensures { IfOk result (λ s. s ≡ state_by (settled ranges.items) ranges.items state.now) }
{
    let registers = settled_values(alloc, &ranges, &state.registers)?;
    let words = settled_values(alloc, &ranges, &state.words)?;
    let shares = settled_shares(alloc, &ranges, &state.shares)?;
    Ok(KnownState {
        pc: state.pc,
        ranges,
        registers,
        words,
        shares,
    })
}

fn high_value(
    alloc: Global,
    ranges: &[Option<u64>],
    variable: u32,
    by: u64,
    value: &KnownValue,
) -> Result<KnownValue, Lack>
    ensures { IfOk result (λ v. v ≡ value_by (λ f. settled ranges.now (raised variable by f)) value.now) }
{
    let raised = raised_value(alloc, variable, by, value)?;
    settled_value(alloc, ranges, &raised)
}

fn high_values(
    alloc: Global,
    ranges: &[Option<u64>],
    variable: u32,
    by: u64,
    values: &[KnownValue],
) -> Result<Vec<KnownValue>, Lack>
    ensures { IfOk result (λ vs. vs.items ≡ map (value_by (λ f. settled ranges.now (raised variable by f))) values.now) }
{
    let mut out = Vec::new(alloc);
    for value in values {
        out.push(high_value(alloc, ranges, variable, by, value)?)?;
    }
    Ok(out)
}

fn high_share(
    alloc: Global,
    ranges: &[Option<u64>],
    variable: u32,
    by: u64,
    share: &Share,
) -> Result<Share, Lack>
    ensures { IfOk result (λ s. s ≡ share_by (λ f. settled ranges.now (raised variable by f)) share.now) }
{
    let own = raised(alloc, variable, by, &share.own)?;
    let owned = raised(alloc, variable, by, &share.owned)?;
    Ok(Share {
        own: settled(alloc, ranges, &own)?,
        owned: settled(alloc, ranges, &owned)?,
    })
}

fn high_shares(
    alloc: Global,
    ranges: &[Option<u64>],
    variable: u32,
    by: u64,
    shares: &[Share],
) -> Result<Vec<Share>, Lack>
    ensures { IfOk result (λ ss. ss.items ≡ map (share_by (λ f. settled ranges.now (raised variable by f))) shares.now) }
{
    let mut out = Vec::new(alloc);
    for share in shares {
        out.push(high_share(alloc, ranges, variable, by, share)?)?;
    }
    Ok(out)
}

/// The state in these ranges, with `by` more for a variable, and without those that can only be 0.
pub(crate) fn high_state(
    alloc: Global,
    state: &KnownState,
    variable: u32,
    by: u64,
    ranges: Vec<Option<u64>>,
) -> Result<KnownState, Lack>
    ensures { IfOk result (λ s. s ≡ state_by (λ f. settled ranges.items (raised variable by f)) ranges.items state.now) }
{
    let registers = high_values(alloc, &ranges, variable, by, &state.registers)?;
    let words = high_values(alloc, &ranges, variable, by, &state.words)?;
    let shares = high_shares(alloc, &ranges, variable, by, &state.shares)?;
    Ok(KnownState {
        pc: state.pc,
        ranges,
        registers,
        words,
        shares,
    })
}
