//! Whether a hart's loads of a queue's slots are of owned ones.

ghost use Rattle.std.specs.Prelude.{◌≡◌, ◌<◌, ◌*◌, ◌||◌, ℕ, IfOk, length, get_or};
ghost use Rattle.queue_certificates.specs.Steps.{is_apart, is_owned, instruction_at, loads_owned};
ghost use Rattle.queue_certificates.specs.States.{no_share};
ghost use Rattle.queue_certificates.specs.Certificates.{queue_at, part_of};
ghost use Rattle.queue_checker.specs.Operands.{load_target};
ghost use Rattle.queue_checker.specs.Flaws.{hart_at, loads_hold, first_of, first_below, unless, first_unowned};

use crate::certificate::{Arrow, KnownState, QueueCertificate};
use crate::leaves::{LeafCheck, each_leaf};
use crate::places::misses_slots;
use crate::sites::{listed_states, small};
use crate::slots::is_owned;
use crate::states::share_in;
use crate::steps::instruction_at;
use crate::targets::{Target, load_target};
use known_values::queues::queue_in;
use known_values::{Form, Lack};
use rv_decode::Instr;
use std::alloc::Global;
use step_machine::Opening;

/// Whether each byte that a load reads of queue `i`'s slots is of an owned one.
fn reads_owned(
    alloc: Global,
    certificate: &QueueCertificate,
    state: &KnownState,
    i: u32,
    target: &Target,
) -> Result<bool, Lack>
    ensures { IfOk result (λ owned. owned ≡ (is_apart target.now.bounds target.now.width (queue_at certificate.now i).slots
        ((queue_at certificate.now i).size * (queue_at certificate.now i).width)
        || is_owned state.now.ranges (queue_at certificate.now i) (get_or state.now.shares i no_share) target.now.place target.now.width)) }
{
    let queue = queue_in(&certificate.queues, i);
    if misses_slots(queue, target.bounds, target.width)? {
        Ok(true)
    } else {
        let share = share_in(alloc, &state.shares, i as usize)?;
        is_owned(
            alloc,
            &state.ranges,
            queue,
            &share,
            &target.place,
            target.width,
        )
    }
}

/// Whether each byte that an instruction loads of queue `i`'s slots is of an owned one.
#[tactic(auto, using(crate::proofs::Accessed::owned_loads))]
fn loads_owned(
    alloc: Global,
    certificate: &QueueCertificate,
    state: &KnownState,
    i: u32,
    instruction: Option<Instr>,
) -> Result<bool, Lack>
    ensures { IfOk result (λ owned. owned ≡ loads_owned (queue_at certificate.now) state.now i instruction) }
{
    match load_target(alloc, certificate, state, instruction)? {
        Some(target) => reads_owned(alloc, certificate, state, i, &target),
        None => Ok(true),
    }
}

/// Asks of a leaf whether its instruction loads of the queue's slots only owned ones.
#[derive(Clone, Copy)]
struct Owning<'a> {
    certificate: &'a QueueCertificate,
    code: &'a [u32],
    queue: u32,
}

impl LeafCheck for Owning<'_> {
    ghost holds = { λ o k d arrows. loads_owned (queue_at o.certificate.now) k o.queue (instruction_at o.code.now k.pc) };

    fn holds(
        &self,
        alloc: Global,
        state: &KnownState,
        _handed: &Form,
        _arrows: &[Arrow],
    ) -> Result<bool, Lack> {
        let instruction = instruction_at(self.code, state.pc);
        loads_owned(alloc, self.certificate, state, self.queue, instruction)
    }
}

fn unowned_state(
    alloc: Global,
    opening: &Opening,
    certificate: &QueueCertificate,
    queue: u32,
    hart: u32,
    first: Option<u32>,
    n: u32,
) -> Result<Option<u32>, Lack>
    requires { n < length (part_of certificate.now hart).states }
    ensures { IfOk result (λ state. state ≡ first_of first (unless (loads_hold opening.now certificate.now queue hart n) n)) }
{
    match first {
        Some(state) => Ok(Some(state)),
        None => {
            let listed = &listed_states(certificate, hart)[n as usize];
            let owning = Owning {
                certificate,
                code: code_of(opening, hart),
                queue,
            };
            if each_leaf(alloc, &owning, &listed.known, &listed.cases)? {
                Ok(None)
            } else {
                Ok(Some(n))
            }
        }
    }
}

/// The hart's code; none, if there are fewer harts.
pub fn code_of(opening: &Opening, hart: u32) -> &[u32]
    ensures { result.now ≡ (hart_at opening.now hart).code }
{
    match opening.harts.get(hart as usize) {
        Some(its) => &its.code,
        None => &[],
    }
}

/// The first state of the hart with a load of the queue's slots that isn't shown to be of an owned one.
pub fn first_unowned(
    alloc: Global,
    opening: &Opening,
    certificate: &QueueCertificate,
    queue: u32,
    hart: u32,
) -> Result<Option<u32>, Lack>
    ensures { IfOk result (λ state. state ≡ first_unowned opening.now certificate.now queue hart) }
{
    let mut first = None;
    for n in 0..small(listed_states(certificate, hart).len())? {
        first = unowned_state(alloc, opening, certificate, queue, hart, first, n)?;
    }
    Ok(first)
}
