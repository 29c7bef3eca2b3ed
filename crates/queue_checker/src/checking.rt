//! Whether a certificate is accepted.

ghost use Rattle.std.specs.Prelude.{◌≡◌, ◌<◌, ◌&&◌, IfOk, length, get_or};
ghost use Rattle.queue_certificates.specs.Certificates.{part_of, is_closed, keeps_all_fields};
ghost use Rattle.queue_checker.specs.Flaws.{hart_at, flaw_of_queue, flaw_of_tagged, state_holds, first_of, first_below, unless, hart_flaw, first_flaw};
ghost use Rattle.queue_checker.specs.Flaws.{opening_holds};
ghost use Rattle.queue_checker.specs.declared.flaws.Flaw.TheVariants.{State};

use crate::certificate::{ListedState, QueueCertificate};
use crate::closing::is_closed;
use crate::flaws::Flaw;
use crate::opening::opening_holds;
use crate::queues::queue_flaw;
use crate::sending::keeps_all_fields;
use crate::sites::{listed_states, queue_count, small};
use crate::tagged_queues::{tagged_count, tagged_flaw};
use known_values::Lack;
use std::alloc::Global;
use step_machine::{HartOpening, Opening};

fn queue_flaw_after(
    opening: &Opening,
    certificate: &QueueCertificate,
    first: Option<Flaw>,
    i: u32,
) -> Result<Option<Flaw>, Lack>
    ensures { IfOk result (λ flaw. flaw ≡ first_of first (flaw_of_queue opening.now certificate.now i)) }
{
    match first {
        Some(flaw) => Ok(Some(flaw)),
        None => match queue_flaw(opening, certificate, i)? {
            Some(flaw) => Ok(Some(Flaw::Queue(i, flaw))),
            None => Ok(None),
        },
    }
}

fn first_queue_flaw(opening: &Opening, certificate: &QueueCertificate) -> Result<Option<Flaw>, Lack>
    ensures { IfOk result (λ flaw. flaw ≡ first_below (length certificate.now.queues) (flaw_of_queue opening.now certificate.now)) }
{
    let mut first = None;
    for i in 0..queue_count(certificate)? {
        first = queue_flaw_after(opening, certificate, first, i)?;
    }
    Ok(first)
}

fn tagged_flaw_after(
    opening: &Opening,
    certificate: &QueueCertificate,
    first: Option<Flaw>,
    t: u32,
) -> Result<Option<Flaw>, Lack>
    ensures { IfOk result (λ flaw. flaw ≡ first_of first (flaw_of_tagged opening.now certificate.now t)) }
{
    match first {
        Some(flaw) => Ok(Some(flaw)),
        None => match tagged_flaw(opening, certificate, t)? {
            Some(flaw) => Ok(Some(Flaw::Tagged(t, flaw))),
            None => Ok(None),
        },
    }
}

fn first_tagged_flaw(
    opening: &Opening,
    certificate: &QueueCertificate,
) -> Result<Option<Flaw>, Lack>
    ensures { IfOk result (λ flaw. flaw ≡ first_below (length certificate.now.tagged) (flaw_of_tagged opening.now certificate.now)) }
{
    let mut first = None;
    for t in 0..tagged_count(certificate)? {
        first = tagged_flaw_after(opening, certificate, first, t)?;
    }
    Ok(first)
}

/// Whether a listed state is closed under its hart's instruction, and keeps what is said of records.
fn state_holds(
    alloc: Global,
    certificate: &QueueCertificate,
    hart: u32,
    code: &[u32],
    listed: &ListedState,
) -> Result<bool, Lack>
    ensures { IfOk result (λ holds. holds ≡ (is_closed certificate.now hart code.now listed.now.known listed.now.cases && keeps_all_fields certificate.now
        hart code.now listed.now)) }
{
    if is_closed(alloc, certificate, hart, code, &listed.known, &listed.cases)? {
        keeps_all_fields(alloc, certificate, hart, code, listed)
    } else {
        Ok(false)
    }
}

fn state_flaw(
    alloc: Global,
    opening: &Opening,
    certificate: &QueueCertificate,
    hart: u32,
    its: &HartOpening,
    first: Option<Flaw>,
    n: u32,
) -> Result<Option<Flaw>, Lack>
    requires its { its.now ≡ hart_at opening.now hart }
    requires listed { n < length (part_of certificate.now hart).states }
    ensures { IfOk result (λ flaw. flaw ≡ first_of first (unless (state_holds opening.now certificate.now hart n) (State hart n))) }
{
    match first {
        Some(flaw) => Ok(Some(flaw)),
        None => {
            let listed = &listed_states(certificate, hart)[n as usize];
            if state_holds(alloc, certificate, hart, &its.code, listed)? {
                Ok(None)
            } else {
                Ok(Some(Flaw::State { hart, state: n }))
            }
        }
    }
}

fn first_state_flaw(
    alloc: Global,
    opening: &Opening,
    certificate: &QueueCertificate,
    hart: u32,
    its: &HartOpening,
) -> Result<Option<Flaw>, Lack>
    requires { its.now ≡ hart_at opening.now hart }
    ensures { IfOk result (λ flaw. flaw ≡ first_below (length (part_of certificate.now hart).states) (λ n. unless (state_holds opening.now
        certificate.now hart n) (State hart n))) }
{
    let mut first = None;
    for n in 0..small(listed_states(certificate, hart).len())? {
        first = state_flaw(alloc, opening, certificate, hart, its, first, n)?;
    }
    Ok(first)
}

fn hart_flaw(
    alloc: Global,
    opening: &Opening,
    certificate: &QueueCertificate,
    hart: u32,
) -> Result<Option<Flaw>, Lack>
    ensures { IfOk result (λ flaw. flaw ≡ hart_flaw opening.now certificate.now hart) }
{
    match opening.harts.get(hart as usize) {
        None => Ok(Some(Flaw::Opening(hart))),
        Some(its) => {
            if opening_holds(alloc, opening, certificate, hart, its)? {
                first_state_flaw(alloc, opening, certificate, hart, its)
            } else {
                Ok(Some(Flaw::Opening(hart)))
            }
        }
    }
}

fn hart_flaw_after(
    alloc: Global,
    opening: &Opening,
    certificate: &QueueCertificate,
    first: Option<Flaw>,
    hart: u32,
) -> Result<Option<Flaw>, Lack>
    ensures { IfOk result (λ flaw. flaw ≡ first_of first (hart_flaw opening.now certificate.now hart)) }
{
    match first {
        Some(flaw) => Ok(Some(flaw)),
        None => hart_flaw(alloc, opening, certificate, hart),
    }
}

fn first_hart_flaw(
    alloc: Global,
    opening: &Opening,
    certificate: &QueueCertificate,
) -> Result<Option<Flaw>, Lack>
    ensures { IfOk result (λ flaw. flaw ≡ first_below (length opening.now.harts) (hart_flaw opening.now certificate.now)) }
{
    let mut first = None;
    for hart in 0..small(opening.harts.len())? {
        first = hart_flaw_after(alloc, opening, certificate, first, hart)?;
    }
    Ok(first)
}

/// The first flaw of a certificate, of its queues first, those with tags last, and then of each hart how it opens and its states; none
/// exactly where it is accepted.
pub fn first_flaw(
    alloc: Global,
    opening: &Opening,
    certificate: &QueueCertificate,
) -> Result<Option<Flaw>, Lack>
    ensures { IfOk result (λ flaw. flaw ≡ first_flaw opening.now certificate.now) }
{
    if let Some(flaw) = first_queue_flaw(opening, certificate)? {
        return Ok(Some(flaw));
    }
    if let Some(flaw) = first_tagged_flaw(opening, certificate)? {
        return Ok(Some(flaw));
    }
    first_hart_flaw(alloc, opening, certificate)
}
