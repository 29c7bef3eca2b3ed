//! The reading of a whole text.

ghost use Rattle.std.specs.Prelude.{◌≡◌};
ghost use Rattle.std.specs.Str.Lines.{lines};
ghost use Rattle.texts.specs.Results.{GivesUpToMemory, refusal_of};
ghost use Rattle.texts.specs.Results.{map_err};
ghost use Rattle.certificate_reader.specs.Drafts.{after_line, finished};
ghost use Rattle.certificate_reader.specs.Reading.{on_line, error_at, after_lines, certificate_from, certificate_at};
ghost use Rattle.certificate_reader.specs.DraftValues.{draft_value};

use crate::draft::Draft;
use crate::faults::{CertificateError, LineError};
use queue_checker::QueueCertificate;
use std::alloc::Global;
use texts::first_line;

/// The error of a text whose line of this number has this fault.
fn at(error: LineError, line: usize) -> CertificateError
    ensures { result ≡ error_at line error }
{
    match error {
        LineError::NoMemory => CertificateError::NoMemory,
        LineError::Refused(fault) => CertificateError::at_line(fault, line),
    }
}

/// Takes the line of this number.
fn add_line(
    draft: &mut Draft,
    alloc: Global,
    line: &[u8],
    number: usize,
) -> Result<(), CertificateError>
    ensures { GivesUpToMemory refusal_of (λ x. draft_value draft.new) result (map_err (on_line number) (after_line (draft_value draft.old) line.now)) }
{
    draft
        .add_line(alloc, line)
        .map_err(|error| at(error, number))
}

/// Takes all lines, and returns the number of the line after them.
#[tactic(auto, unfolding(crate::specs::Reading::after_lines))]
fn add_lines(draft: &mut Draft, alloc: Global, text: &[u8]) -> Result<usize, CertificateError>
    ensures { GivesUpToMemory refusal_of (λ number. (draft_value draft.new, number)) result (after_lines (draft_value draft.old) 1 (lines text.now)) }
{
    let mut rest = text;
    let mut number = 1;
    while let Some((line, after)) = first_line(rest) {
        add_line(draft, alloc, line, number)?;
        number += 1;
        rest = after;
    }
    Ok(number)
}

fn finish(draft: Draft, alloc: Global, number: usize) -> Result<QueueCertificate, CertificateError>
    ensures { GivesUpToMemory refusal_of (λ c. c) result (map_err (on_line number) (finished (draft_value draft))) }
{
    draft.finish(alloc).map_err(|error| at(error, number))
}

#[tactic(auto, unfolding(crate::specs::Reading::certificate_from))]
fn read(mut draft: Draft, alloc: Global, text: &[u8]) -> Result<QueueCertificate, CertificateError>
    ensures { GivesUpToMemory refusal_of (λ c. c) result (certificate_from (draft_value draft) text.now) }
{
    let number = add_lines(&mut draft, alloc, text)?;
    finish(draft, alloc, number)
}

/// The certificate that a text stands for.
///
/// The lines are read from the top. The first that is wrong is refused, by its number: one that has another shape, that may not come
/// there or that passes a limit. A text that ends too early is refused at the line after its last one.
#[tactic(auto, unfolding(crate::specs::Reading::certificate_at))]
pub fn read_certificate(alloc: Global, text: &[u8]) -> Result<QueueCertificate, CertificateError>
    ensures exact { GivesUpToMemory refusal_of (λ c. c) result (certificate_at text.now) }
{
    read(Draft::new(alloc), alloc, text)
}
