//! Whether a state is closed under its hart's instruction, by cases.

ghost use Rattle.std.specs.Prelude.{◌≡◌, IfOk};
ghost use Rattle.queue_certificates.specs.Certificates.{next_states, all_lead, is_closed};

use crate::arrows::all_lead;
use crate::certificate::{Arrow, Cases, KnownState, QueueCertificate};
use crate::fields::next_received;
use crate::leaves::{LeafCheck, each_leaf};
use crate::steps::{follow, instruction_at};
use crate::successors::Successors;
use crate::tags::next_told;
use known_values::{Form, Lack};
use std::alloc::Global;

/// The states that may follow the instruction at a leaf, which hands over `handed` positions.
pub fn next_states(
    alloc: Global,
    certificate: &QueueCertificate,
    hart: u32,
    code: &[u32],
    state: &KnownState,
    handed: &Form,
) -> Result<Successors, Lack>
    ensures { IfOk result (λ next. next ≡ next_states certificate.now hart code.now state.now handed.now) }
{
    let instruction = instruction_at(code, state.pc);
    let known = follow(alloc, certificate, hart, state, handed, instruction)?;
    let received = next_received(alloc, certificate, hart, state, instruction, known)?;
    next_told(alloc, certificate, hart, state, instruction, received)
}

/// Whether the instruction leads from a state along these arrows.
fn is_leaf_closed(
    alloc: Global,
    certificate: &QueueCertificate,
    hart: u32,
    code: &[u32],
    state: &KnownState,
    handed: &Form,
    arrows: &[Arrow],
) -> Result<bool, Lack>
    ensures { IfOk result (λ closed. closed ≡ all_lead certificate.now hart (next_states certificate.now hart code.now state.now handed.now) arrows.now) }
{
    let next = next_states(alloc, certificate, hart, code, state, handed)?;
    all_lead(alloc, certificate, hart, &next, arrows)
}

/// Asks of a leaf whether its instruction leads along its arrows.
#[derive(Clone, Copy)]
struct Closing<'a> {
    certificate: &'a QueueCertificate,
    hart: u32,
    code: &'a [u32],
}

impl LeafCheck for Closing<'_> {
    ghost holds = { λ c k d arrows. all_lead c.certificate.now c.hart (next_states c.certificate.now c.hart c.code.now k d) arrows };

    fn holds(
        &self,
        alloc: Global,
        state: &KnownState,
        handed: &Form,
        arrows: &[Arrow],
    ) -> Result<bool, Lack> {
        let (certificate, hart, code) = (self.certificate, self.hart, self.code);
        is_leaf_closed(alloc, certificate, hart, code, state, handed, arrows)
    }
}

/// Whether a state is closed under its hart's instruction, by these cases.
pub(crate) fn is_closed(
    alloc: Global,
    certificate: &QueueCertificate,
    hart: u32,
    code: &[u32],
    state: &KnownState,
    cases: &Cases,
) -> Result<bool, Lack>
    ensures { IfOk result (λ closed. closed ≡ is_closed certificate.now hart code.now state.now cases.now) }
{
    let closing = Closing {
        certificate,
        hart,
        code,
    };
    each_leaf(alloc, &closing, state, cases)
}
