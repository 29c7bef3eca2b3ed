//! Inputs that are certificates.

ghost use Rattle.std.specs.Prelude.{◌≡◌, IfOk};
ghost use Rattle.certifying.specs.Questions.{certificate_of, certificates};
ghost use Rattle.engine_support.specs.Faults.{Answers};
ghost use Rattle.engine_support.specs.Inputs.{Reads};
ghost use Rattle.engine_support.specs.inner.{FindsUpToReads};

use certificate_reader::read_certificate as read;
use engine_support::fault::Fault;
use engine_support::input::read_text;
use queue_checker::QueueCertificate;
use std::alloc::Global;
use std::io::Read;

/// What a text says as a certificate.
#[tactic(auto, unfolding(crate::specs::Questions::certificate_of))]
fn certificate_of_text(alloc: Global, text: &str) -> Result<QueueCertificate, Fault>
    ensures { Answers (λ certificate. certificate) result (certificate_of text.now) }
{
    Ok(read(alloc, text.as_bytes())?)
}

/// The certificate that a reader gives.
pub fn read_certificate<R: Read>(alloc: Global, reader: &mut R) -> Result<QueueCertificate, Fault>
    ensures { FindsUpToReads (Reads certificates (R.remaining reader.old)) (λ certificate. certificate) result }
{
    let text = read_text(alloc, reader)?;
    certificate_of_text(alloc, &text)
}
