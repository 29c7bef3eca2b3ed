//! The command `queue`: a litmus text and a certificate in, what is promised of each run out.

ghost use Rattle.std.specs.Prelude.{◌≡◌, ◌≤◌, ◌<◌, ◌++◌, ℕ, Bool, List, None, Some, IfOk, OnOk, length};
ghost use Rattle.std.specs.String.{string_bytes};
ghost use Rattle.engine_support.specs.Engines.{Ends};
ghost use Rattle.engine_support.specs.Faults.{AnswersAs};
ghost use Rattle.engine_support.specs.Inputs.{IsRefused, tests};
ghost use Rattle.engine_support.specs.inner.{FindsUpToReads, text_and_value};
ghost use Rattle.engine_support.specs.OpeningTexts.{numbered};
ghost use Rattle.litmus.specs.declared.litmus_test.TheConstants.{MAX_LOCATIONS};
ghost use Rattle.drawn_runs.specs.Samples.{runs_of};
ghost use Rattle.step_machine.specs.History.{FitsIn};
ghost use Rattle.ownership_runs.specs.Protocols.{HasSlot};
ghost use Rattle.certifying.specs.Queues.{any_queue, queue_count};
ghost use Rattle.queue_checker.specs.Flaws.{first_flaw};
ghost use Rattle.certifying.specs.Answers.{AreLinesAfter, AreLossLines, IsAcceptedAnswer, IsAnswerTo, IsCertificateAnswer, IsFlawAnswer, IsKeptAnswer};
ghost use Rattle.certifying.specs.Answers.{IsQueueAnswer, IsTrialAnswer, IsUseAnswer, fault_of, is_of_queue, judged_reads, kept_text, nothing_line};
ghost use Rattle.certifying.specs.Questions.{questions_by};
ghost use Rattle.certifying.specs.Broken.{runs_line};
ghost use Rattle.certifying.specs.NotShown.{flaw_line, likely_line};
ghost use Rattle.certifying.specs.Answers.{unused_text};
ghost use Rattle.certifying.specs.Lines.{asks_endings, first_line, judgement_of};
ghost use Rattle.certifying.specs.Unread.{first_unread};
ghost use Rattle.certifying.specs.Trials.{IsFirstBroken};
ghost use Rattle.certifying.specs.Unused.{first_unused};

use crate::answer_texts::{all_shown, flaw_text, kept_text, tried_text, unused_text};
use crate::breaking::{broken_text, other_text, push_lost_text, push_unlost};
use crate::endings::all_endings;
use crate::going::push_going;
use crate::harts::{HartsTold, harts_told};
use crate::input::read_certificate;
use crate::judgement::Judgement;
use crate::lost::{lost_of, violation_shown};
use crate::questions::Questions;
use crate::records::{QueueRecords, found_in};
use crate::trials::{Trial, trial_of};
use crate::unread::{Unread, first_unread};
use crate::unused::first_unused;
use drawn_runs::progress::Progress;
use drawn_runs::{Jump, Sample};
use engine_support::fault::{Fault, Position};
use engine_support::litmus_text::read_test;
use engine_support::output::end_with;
use known_values::Lack;
use litmus::Test;
use ownership_runs::{Step, Violation};
use queue_checker::{Flaw, QueueCertificate, first_flaw};
use std::alloc::Global;
use std::io::{Read, Write};
use std::thread::Threads;
use step_machine::{Event, Opening};

/// A certificate of whose check some number passes 2^64 - 1.
pub const UNDECIDED: u8 = 50;

/// The fault of a check that lacked this.
fn fault_of(lack: Lack) -> Fault
    ensures { result ≡ fault_of lack }
{
    match lack {
        Lack::Memory => Fault::NoMemory,
        Lack::TooLarge => Fault::refused(UNDECIDED, Position::Nowhere),
    }
}

/// What comes of an accepted certificate, where its queues are shown to go on, if that was asked, and all else that was, by the first load that
/// isn't shown to be of an owned slot.
fn kept_judgement(goes: bool, all: bool, unread: Option<Unread>) -> Judgement
    ensures { (progress : Bool) → result ≡ judgement_of (first_line progress goes all unread) }
{
    if unread.is_some() {
        Judgement::ReadsNotShown
    } else if !goes {
        Judgement::ProgressNotShown
    } else if !all {
        Judgement::AskedNotShown
    } else {
        Judgement::Kept
    }
}

/// What is answered where the certificate is accepted, and its queues are used, with the lines of whether they go on, what is found of
/// records and of harts, whether they are shown to go on, and the first load that isn't shown to be of an owned slot.
fn judged_reads(
    alloc: Global,
    opening: &Opening,
    certificate: &QueueCertificate,
    asked: Questions<'_>,
    going: &str,
    found: &[QueueRecords],
    told: &HartsTold,
    goes: bool,
    unread: Option<Unread>,
) -> Result<(String, Judgement), Lack>
    ensures { IfOk result (λ answer. text_and_value answer ≡ judged_reads opening.now certificate.now (questions_by asked.entry) going.now found.now
        (string_bytes told.now.lines) goes told.now.safe unread) }
{
    let all = all_shown(found, told.safe);
    let text = kept_text(
        alloc,
        opening,
        certificate,
        asked,
        going,
        found,
        told,
        goes,
        unread,
    )?;
    Ok((text, kept_judgement(goes, all, unread)))
}

/// Whether it is asked where harts may be stopped, and where they may end: of each queue that goes on, or of each hart.
fn asks_endings(asked: Questions<'_>) -> bool
    ensures { result ≡ asks_endings (questions_by asked.entry) }
{
    asked.progress || asked.harts
}

/// The same, on machines with `words` words of memory.
fn judged_asked(
    alloc: Global,
    opening: &Opening,
    certificate: &QueueCertificate,
    words: u64,
    asked: Questions<'_>,
) -> Result<(String, Judgement), Lack>
    ensures { IfOk result (λ answer. IsKeptAnswer words (questions_by asked.entry) opening.now certificate.now (text_and_value answer)) }
{
    let endings = all_endings(alloc, opening, certificate, words, asks_endings(asked))?;
    let mut going = String::new(alloc);
    let goes = push_going(
        alloc,
        &mut going,
        opening,
        certificate,
        &endings,
        asked.progress,
    )?;
    let unread = first_unread(alloc, opening, certificate)?;
    let found = found_in(alloc, opening, certificate, asked, unread.is_none())?;
    let told = harts_told(alloc, opening, certificate, &endings, asked.harts)?;
    judged_reads(
        alloc,
        opening,
        certificate,
        asked,
        going.as_str(),
        &found,
        &told,
        goes,
        unread,
    )
}

/// What is answered where the certificate is accepted.
fn judged_use(
    alloc: Global,
    opening: &Opening,
    certificate: &QueueCertificate,
    words: u64,
    asked: Questions<'_>,
) -> Result<(String, Judgement), Lack>
    ensures { IfOk result (λ answer. IsUseAnswer words (questions_by asked.entry) opening.now certificate.now
        (first_unused opening.now certificate.now) (text_and_value answer)) }
{
    match first_unused(alloc, opening, certificate)? {
        None => judged_asked(alloc, opening, certificate, words, asked),
        Some(unused) => Ok((unused_text(alloc, unused)?, Judgement::NotShown)),
    }
}

/// Appends what drawn runs lose of the queue of the first load that isn't shown to be of an owned slot, if there is one.
fn push_losses<
    const B: usize,
    const M: usize,
    G: Jump + Sync + Drop,
    T: Threads + Sync,
    P: Progress,
>(
    rt: &T,
    alloc: Global,
    out: &mut String,
    opening: &Opening,
    certificate: &QueueCertificate,
    sample: &Sample<'_, G>,
    progress: &mut P,
) -> Result<(), Lack>
    requires some_capacity { 1 ≤ B }
    requires capacity { B ≤ 64 }
    requires some_word { 1 ≤ M }
    requires size { M ≤ 65536 }
    requires fits { FitsIn M opening.now }
    requires accepted { first_flaw opening.now certificate.now ≡ None }
    ensures { OnOk result ((lines : List ℕ) × (string_bytes out.new ≡ string_bytes out.old ++ lines)
        × AreLossLines (runs_of B M G.Rng.stream sample.now) opening.now certificate.now (first_unread opening.now certificate.now) lines) }
{
    let Some(unread) = first_unread(alloc, opening, certificate)? else {
        return Ok(());
    };
    let queue = unread.queue;
    let lost = lost_of::<B, M, G, T, P>(
        rt,
        alloc,
        opening,
        certificate,
        queue,
        false,
        sample,
        progress,
    )?;
    match lost {
        None => push_unlost(out, sample.runs, queue)?,
        Some(lost) => push_lost_text(alloc, out, B, opening, certificate, queue, &lost)?,
    }
    Ok(())
}

/// Appends the lines that follow an answer of this judgement.
fn push_after<
    const B: usize,
    const M: usize,
    G: Jump + Sync + Drop,
    T: Threads + Sync,
    P: Progress,
>(
    rt: &T,
    alloc: Global,
    out: &mut String,
    judgement: Judgement,
    opening: &Opening,
    certificate: &QueueCertificate,
    sample: &Sample<'_, G>,
    progress: &mut P,
) -> Result<(), Lack>
    requires some_capacity { 1 ≤ B }
    requires capacity { B ≤ 64 }
    requires some_word { 1 ≤ M }
    requires size { M ≤ 65536 }
    requires fits { FitsIn M opening.now }
    requires accepted { first_flaw opening.now certificate.now ≡ None }
    ensures { OnOk result ((lines : List ℕ) × (string_bytes out.new ≡ string_bytes out.old ++ lines)
        × AreLinesAfter (runs_of B M G.Rng.stream sample.now) opening.now certificate.now judgement lines) }
{
    match judgement {
        Judgement::ReadsNotShown => push_losses::<B, M, G, T, P>(
            rt,
            alloc,
            out,
            opening,
            certificate,
            sample,
            progress,
        ),
        Judgement::Kept => Ok(()),
        Judgement::ProgressNotShown => Ok(()),
        Judgement::AskedNotShown => Ok(()),
        Judgement::NotShown => Ok(()),
        Judgement::Broken => Ok(()),
        Judgement::OtherProtocol => Ok(()),
    }
}

/// What is answered where the certificate is accepted: also what drawn runs lose of a queue whose reads aren't shown.
fn judged_accepted<
    const B: usize,
    const M: usize,
    G: Jump + Sync + Drop,
    T: Threads + Sync,
    P: Progress,
>(
    rt: &T,
    alloc: Global,
    opening: &Opening,
    certificate: &QueueCertificate,
    asked: Questions<'_>,
    sample: &Sample<'_, G>,
    progress: &mut P,
) -> Result<(String, Judgement), Lack>
    requires some_capacity { 1 ≤ B }
    requires capacity { B ≤ 64 }
    requires some_word { 1 ≤ M }
    requires size { M ≤ 65536 }
    requires fits { FitsIn M opening.now }
    requires accepted { first_flaw opening.now certificate.now ≡ None }
    ensures { IfOk result (λ answer. IsAcceptedAnswer (runs_of B M G.Rng.stream sample.now) (questions_by asked.entry) opening.now certificate.now
        (text_and_value answer)) }
{
    let (mut text, judgement) = judged_use(alloc, opening, certificate, M as u64, asked)?;
    push_after::<B, M, G, T, P>(
        rt,
        alloc,
        &mut text,
        judgement,
        opening,
        certificate,
        sample,
        progress,
    )?;
    Ok((text, judgement))
}

/// What is answered where a run of these events breaks the protocol of this queue: whether a record of it is lost after such a store.
fn judged_broken<
    const B: usize,
    const M: usize,
    G: Jump + Sync + Drop,
    T: Threads + Sync,
    P: Progress,
>(
    rt: &T,
    alloc: Global,
    opening: &Opening,
    certificate: &QueueCertificate,
    flaw: Flaw,
    queue: u32,
    part: &[Event],
    violation: Violation,
    steps: &[Step],
    sample: &Sample<'_, G>,
    progress: &mut P,
) -> Result<(String, Judgement), Lack>
    requires some_capacity { 1 ≤ B }
    requires capacity { B ≤ 64 }
    requires some_word { 1 ≤ M }
    requires size { M ≤ 65536 }
    requires fits { FitsIn M opening.now }
    requires some_slot { HasSlot (any_queue certificate.now queue) }
    requires first { IsFirstBroken (runs_of B M G.Rng.stream sample.now) opening.now certificate.now queue part.now violation steps.now }
    ensures { IfOk result (λ answer. IsTrialAnswer (runs_of B M G.Rng.stream sample.now) opening.now certificate.now flaw
        (text_and_value answer)) }
{
    if violation.described {
        let lost = lost_of::<B, M, G, T, P>(
            rt,
            alloc,
            opening,
            certificate,
            queue,
            true,
            sample,
            progress,
        )?;
        if let Some(lost) = lost {
            let shown = violation_shown::<B, M, G>(
                alloc,
                opening,
                certificate,
                queue,
                sample,
                &lost,
                violation,
            )?;
            let text = broken_text(alloc, B, opening, certificate, queue, shown, &lost)?;
            return Ok((text, Judgement::Broken));
        }
    }
    let text = other_text(
        alloc,
        B,
        opening,
        certificate,
        queue,
        part,
        violation,
        steps,
        sample.runs,
    )?;
    Ok((text, Judgement::OtherProtocol))
}

/// What is answered where a certificate of queues isn't accepted: what drawn runs show.
fn judged_by_runs<
    const B: usize,
    const M: usize,
    G: Jump + Sync + Drop,
    T: Threads + Sync,
    P: Progress,
>(
    rt: &T,
    alloc: Global,
    opening: &Opening,
    certificate: &QueueCertificate,
    flaw: Flaw,
    sample: &Sample<'_, G>,
    progress: &mut P,
) -> Result<(String, Judgement), Lack>
    requires some_capacity { 1 ≤ B }
    requires capacity { B ≤ 64 }
    requires some_word { 1 ≤ M }
    requires size { M ≤ 65536 }
    requires fits { FitsIn M opening.now }
    requires some_slot { (i : ℕ) → i < queue_count certificate.now → HasSlot (any_queue certificate.now i) }
    ensures { IfOk result (λ answer. IsTrialAnswer (runs_of B M G.Rng.stream sample.now) opening.now certificate.now flaw
        (text_and_value answer)) }
{
    match trial_of::<B, M, G, T, P>(rt, alloc, opening, certificate, sample, progress)? {
        Trial::Kept(kept) => Ok((
            tried_text(alloc, opening, certificate, flaw, sample.runs, &kept)?,
            Judgement::NotShown,
        )),
        Trial::Broken {
            queue,
            part,
            violation,
            steps,
        } => judged_broken::<B, M, G, T, P>(
            rt,
            alloc,
            opening,
            certificate,
            flaw,
            queue,
            &part,
            violation,
            &steps,
            sample,
            progress,
        ),
    }
}

/// Whether a flaw is that a queue isn't one, or doesn't open as it says.
fn is_of_queue(flaw: Flaw) -> bool
    ensures { result ≡ is_of_queue flaw }
{
    match flaw {
        Flaw::Queue(..) => true,
        Flaw::Tagged(..) => true,
        Flaw::Opening(_) => false,
        Flaw::State { .. } => false,
    }
}

/// What is answered where a certificate isn't accepted.
fn judged_flaw<
    const B: usize,
    const M: usize,
    G: Jump + Sync + Drop,
    T: Threads + Sync,
    P: Progress,
>(
    rt: &T,
    alloc: Global,
    opening: &Opening,
    certificate: &QueueCertificate,
    flaw: Flaw,
    sample: &Sample<'_, G>,
    progress: &mut P,
) -> Result<(String, Judgement), Lack>
    requires some_capacity { 1 ≤ B }
    requires capacity { B ≤ 64 }
    requires some_word { 1 ≤ M }
    requires size { M ≤ 65536 }
    requires fits { FitsIn M opening.now }
    requires first { first_flaw opening.now certificate.now ≡ Some flaw }
    ensures { IfOk result (λ answer. IsFlawAnswer (runs_of B M G.Rng.stream sample.now) opening.now certificate.now flaw
        (is_of_queue flaw) (text_and_value answer)) }
{
    if is_of_queue(flaw) {
        let text = flaw_text(alloc, opening, certificate, flaw)?;
        return Ok((text, Judgement::NotShown));
    }
    judged_by_runs::<B, M, G, T, P>(rt, alloc, opening, certificate, flaw, sample, progress)
}

/// The text and the judgement of an opening and a certificate.
fn judged<const B: usize, const M: usize, G: Jump + Sync + Drop, T: Threads + Sync, P: Progress>(
    rt: &T,
    alloc: Global,
    opening: &Opening,
    certificate: &QueueCertificate,
    asked: Questions<'_>,
    sample: &Sample<'_, G>,
    progress: &mut P,
) -> Result<(String, Judgement), Lack>
    requires some_capacity { 1 ≤ B }
    requires capacity { B ≤ 64 }
    requires some_word { 1 ≤ M }
    requires size { M ≤ 65536 }
    requires fits { FitsIn M opening.now }
    ensures { IfOk result (λ answer. IsAnswerTo (runs_of B M G.Rng.stream sample.now) (questions_by asked.entry) opening.now certificate.now
        (first_flaw opening.now certificate.now) (text_and_value answer)) }
{
    match first_flaw(alloc, opening, certificate)? {
        None => judged_accepted::<B, M, G, T, P>(
            rt,
            alloc,
            opening,
            certificate,
            asked,
            sample,
            progress,
        ),
        Some(flaw) => judged_flaw::<B, M, G, T, P>(
            rt,
            alloc,
            opening,
            certificate,
            flaw,
            sample,
            progress,
        ),
    }
}

/// The same of a test.
fn answer<const B: usize, const M: usize, G: Jump + Sync + Drop, T: Threads + Sync, P: Progress>(
    rt: &T,
    alloc: Global,
    test: &Test,
    certificate: &QueueCertificate,
    asked: Questions<'_>,
    sample: &Sample<'_, G>,
    progress: &mut P,
) -> Result<(String, Judgement), Fault>
    requires some_capacity { 1 ≤ B }
    requires capacity { B ≤ 64 }
    requires words { MAX_LOCATIONS ≤ M }
    requires size { M ≤ 65536 }
    ensures { AnswersAs (IsCertificateAnswer (runs_of B M G.Rng.stream sample.now) (questions_by asked.entry) test.now.opening certificate.now)
        text_and_value result }
{
    let opening = test.opening(alloc)?;
    match judged::<B, M, G, T, P>(rt, alloc, &opening, certificate, asked, sample, progress) {
        Ok(answer) => Ok(answer),
        Err(lack) => Err(fault_of(lack)),
    }
}

/// What is to be written for the inputs that the readers give.
fn made<
    const B: usize,
    const M: usize,
    F: Read,
    C: Read,
    G: Jump + Sync + Drop,
    T: Threads + Sync,
    P: Progress,
>(
    rt: &T,
    alloc: Global,
    asked: Questions<'_>,
    file: &mut F,
    certificate: &mut C,
    sample: &Sample<'_, G>,
    progress: &mut P,
) -> Result<(String, Judgement), Fault>
    requires some_capacity { 1 ≤ B }
    requires capacity { B ≤ 64 }
    requires words { MAX_LOCATIONS ≤ M }
    requires size { M ≤ 65536 }
    ensures made { FindsUpToReads
        (IsQueueAnswer (runs_of B M G.Rng.stream sample.now) (questions_by asked.entry) (F.remaining file.old) (C.remaining certificate.old))
        text_and_value result }
    ensures unread { IsRefused tests (F.remaining file.old) → certificate.new ≡ certificate.old }
{
    let test = read_test(alloc, file)?;
    let listed = read_certificate(alloc, certificate)?;
    answer::<B, M, G, T, P>(rt, alloc, &test, &listed, asked, sample, progress)
}

/// Reads a litmus text and then a certificate, each to its end, and writes whether the certificate shows that every run of the text
/// keeps the protocol of each of its queues, with what is promised then. It returns the judgement.
///
/// If the certificate isn't accepted, but its queues open as it says, the runs of the sample are made of the text for each queue,
/// with store buffers of `B` pairs and `M` words of memory: then it writes which store of the first run that breaks the protocol of the
/// first such queue does so, with a short schedule of the first run that loses a record of that queue, or else of that run; or that all
/// keep it. Where it is accepted, and the reads of a queue aren't shown, it writes what such runs lose of that queue. Neither depends on
/// the jobs or on the progress. Else `B` isn't part of the answer where the certificate is accepted, and `M` only of whether harts may be
/// stopped.
///
/// What is asked besides is answered only where the certificate is accepted.
///
/// Each input is refused as too large ([`engine_support::fault::TOO_LARGE`]), else as no text
/// ([`engine_support::fault::NOT_TEXT`]), else as [`litmus_reader::read`] or [`certificate_reader::read_certificate`] says, at the
/// line. A check in which a number passes 2^64 - 1 is refused by [`UNDECIDED`]. Then nothing was written. After a refused litmus text
/// the certificate is not read.
pub fn queue_engine<
    const B: usize,
    const M: usize,
    F: Read,
    C: Read,
    G: Jump + Sync + Drop,
    W: Write,
    T: Threads + Sync,
    P: Progress,
>(
    rt: &T,
    alloc: Global,
    asked: Questions<'_>,
    file: &mut F,
    certificate: &mut C,
    sample: &Sample<'_, G>,
    progress: &mut P,
    writer: &mut W,
) -> Result<Judgement, Fault>
    requires some_capacity { 1 ≤ B }
    requires capacity { B ≤ 64 }
    requires words { MAX_LOCATIONS ≤ M }
    requires size { M ≤ 65536 }
    ensures ends { Ends (IsQueueAnswer (runs_of B M G.Rng.stream sample.now) (questions_by asked.entry) (F.remaining file.old)
        (C.remaining certificate.old)) result W.contents writer.old writer.new }
    ensures unread { IsRefused tests (F.remaining file.old) → certificate.new ≡ certificate.old }
{
    end_with(
        made::<B, M, F, C, G, T, P>(rt, alloc, asked, file, certificate, sample, progress),
        writer,
    )
}
