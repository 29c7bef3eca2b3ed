//! What a certificate says is known where something isn't shown.

ghost use Rattle.std.specs.Prelude.{◌≡◌, ◌++◌, OnOk};
ghost use Rattle.std.specs.String.{string_bytes};
ghost use Rattle.certificate_reader.specs.Known.{known_text, known_at};

use crate::known_texts::push_described;
use queue_checker::{Flaw, QueueCertificate};
use std::alloc::AllocError;

/// Appends what is known in a state of a hart, in lines of which each begins with `known: `; nothing, if there is no such state.
pub fn push_known_text(
    out: &mut String,
    certificate: &QueueCertificate,
    hart: u32,
    state: u32,
) -> Result<(), AllocError>
    ensures { OnOk result (string_bytes out.new ≡ string_bytes out.old ++ known_text certificate.now hart state) }
{
    match certificate.harts.get(hart as usize) {
        None => Ok(()),
        Some(part) => match part.states.get(state as usize) {
            None => Ok(()),
            Some(listed) => push_described(out, "known: ", listed),
        },
    }
}

/// Appends the same of the state that has this flaw; nothing, if a queue or an opening has it.
pub fn push_known_at(
    out: &mut String,
    certificate: &QueueCertificate,
    flaw: Flaw,
) -> Result<(), AllocError>
    ensures { OnOk result (string_bytes out.new ≡ string_bytes out.old ++ known_at certificate.now flaw) }
{
    match flaw {
        Flaw::State { hart, state } => push_known_text(out, certificate, hart, state),
        Flaw::Queue(..) | Flaw::Tagged(..) | Flaw::Opening(_) => Ok(()),
    }
}
