//! Whether a hart's loads of the slots of a queue with tags are of tags or of owned slots.

ghost use Rattle.std.specs.Prelude.{◌≡◌, ◌<◌, IfOk, length};
ghost use Rattle.queue_certificates.specs.Certificates.{queue_at, tagged_at, part_of};
ghost use Rattle.queue_certificates.specs.Steps.{instruction_at};
ghost use Rattle.queue_certificates.specs.Tags.{loads_rest};
ghost use Rattle.queue_checker.specs.Flaws.{rest_holds, first_of, first_below, unless, first_unowned_rest};

use crate::certificate::{Arrow, KnownState, QueueCertificate};
use crate::leaves::{LeafCheck, each_leaf};
use crate::owning::code_of;
use crate::sites::{listed_states, small};
use crate::steps::instruction_at;
use crate::tags::loads_rest;
use known_values::{Form, Lack};
use std::alloc::Global;
use step_machine::Opening;

/// Asks of a leaf whether its instruction loads of the queue's slots only tags and owned slots.
#[derive(Clone, Copy)]
struct OwningRest<'a> {
    certificate: &'a QueueCertificate,
    code: &'a [u32],
    tagged: u32,
}

impl LeafCheck for OwningRest<'_> {
    ghost holds = { λ o k d arrows. loads_rest (tagged_at o.certificate.now) (queue_at o.certificate.now) (length o.certificate.now.queues) k o.tagged
        (instruction_at o.code.now k.pc) };

    fn holds(
        &self,
        alloc: Global,
        state: &KnownState,
        _handed: &Form,
        _arrows: &[Arrow],
    ) -> Result<bool, Lack> {
        let instruction = instruction_at(self.code, state.pc);
        loads_rest(alloc, self.certificate, state, self.tagged, instruction)
    }
}

fn unowned_rest(
    alloc: Global,
    opening: &Opening,
    certificate: &QueueCertificate,
    tagged: u32,
    hart: u32,
    first: Option<u32>,
    n: u32,
) -> Result<Option<u32>, Lack>
    requires { n < length (part_of certificate.now hart).states }
    ensures { IfOk result (λ state. state ≡ first_of first (unless (rest_holds opening.now certificate.now tagged hart n) n)) }
{
    match first {
        Some(state) => Ok(Some(state)),
        None => {
            let listed = &listed_states(certificate, hart)[n as usize];
            let owning = OwningRest {
                certificate,
                code: code_of(opening, hart),
                tagged,
            };
            if each_leaf(alloc, &owning, &listed.known, &listed.cases)? {
                Ok(None)
            } else {
                Ok(Some(n))
            }
        }
    }
}

/// The first state of the hart with a load of the slots of a queue with tags that isn't shown to be of a tag or of an owned slot.
pub fn first_unowned_rest(
    alloc: Global,
    opening: &Opening,
    certificate: &QueueCertificate,
    tagged: u32,
    hart: u32,
) -> Result<Option<u32>, Lack>
    ensures { IfOk result (λ state. state ≡ first_unowned_rest opening.now certificate.now tagged hart) }
{
    let mut first = None;
    for n in 0..small(listed_states(certificate, hart).len())? {
        first = unowned_rest(alloc, opening, certificate, tagged, hart, first, n)?;
    }
    Ok(first)
}
