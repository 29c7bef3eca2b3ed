//! Where the harts of a text may be stopped, and where they may end.

ghost use Rattle.std.specs.Prelude.{◌≡◌, IfOk, true};
ghost use Rattle.certifying.specs.Endings.{all_endings, always_runs, both_run, endings_at, endings_of, neither_stops, never_stops};

use crate::queues::number_of;
use hart_safety::{first_end, first_stop};
use known_values::Lack;
use queue_checker::QueueCertificate;
use std::alloc::Global;
use step_machine::Opening;

/// Where a hart may be stopped, and where it may end.
#[derive(Clone, Copy)]
pub struct Endings {
    /// Its first state whose instruction isn't shown to go on.
    pub stop: Option<u32>,
    /// Its first state where it may end.
    pub end: Option<u32>,
}

fn endings_of(
    alloc: Global,
    opening: &Opening,
    certificate: &QueueCertificate,
    words: u64,
    hart: u32,
) -> Result<Endings, Lack>
    ensures { IfOk result (λ endings. endings ≡ endings_of words opening.now certificate.now hart) }
{
    Ok(Endings {
        stop: first_stop(alloc, opening, certificate, words, hart)?,
        end: first_end(alloc, opening, certificate, hart)?,
    })
}

fn each_ending(
    alloc: Global,
    opening: &Opening,
    certificate: &QueueCertificate,
    words: u64,
) -> Result<Vec<Endings>, Lack>
    ensures { IfOk result (λ all. all.items ≡ all_endings words opening.now certificate.now true) }
{
    let mut all = Vec::new(alloc);
    for (place, _start) in opening.harts.iter().enumerate() {
        let hart = number_of(place)?;
        all.push(endings_of(alloc, opening, certificate, words, hart)?)?;
    }
    Ok(all)
}

/// Those of each of the opening's harts on machines with `words` words of memory, if they are asked for.
pub fn all_endings(
    alloc: Global,
    opening: &Opening,
    certificate: &QueueCertificate,
    words: u64,
    asked: bool,
) -> Result<Vec<Endings>, Lack>
    ensures { IfOk result (λ all. all.items ≡ all_endings words opening.now certificate.now asked) }
{
    if asked {
        each_ending(alloc, opening, certificate, words)
    } else {
        Ok(Vec::new(alloc))
    }
}

/// Those of a hart. Of one that isn't among these nothing is shown.
pub fn endings_at(endings: &[Endings], hart: u32) -> Endings
    ensures { result ≡ endings_at endings.now hart }
{
    match endings.get(hart as usize) {
        Some(found) => *found,
        None => Endings {
            stop: Some(0),
            end: Some(0),
        },
    }
}

/// Whether no state may stop the hart.
pub fn never_stops(endings: Endings) -> bool
    ensures { result ≡ never_stops endings }
{
    endings.stop.is_none()
}

/// Whether none may end it either.
pub fn always_runs(endings: Endings) -> bool
    ensures { result ≡ always_runs endings }
{
    never_stops(endings) && endings.end.is_none()
}

/// Whether no state may stop either of two harts.
pub fn neither_stops(sender: Endings, receiver: Endings) -> bool
    ensures { result ≡ neither_stops sender receiver }
{
    never_stops(sender) && never_stops(receiver)
}

/// Whether none may end either of them, either.
pub fn both_run(sender: Endings, receiver: Endings) -> bool
    ensures { result ≡ both_run sender receiver }
{
    always_runs(sender) && always_runs(receiver)
}
