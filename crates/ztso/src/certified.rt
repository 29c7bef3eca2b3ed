//! What is asked of a certificate of queues.

ghost use Rattle.std.specs.Prelude.{◌≡◌, ◌≤◌};
ghost use Rattle.engine_support.specs.Engines.{Ends};
ghost use Rattle.engine_support.specs.Inputs.{IsRefused, tests};
ghost use Rattle.certifying.specs.Answers.{IsQueueAnswer};
ghost use Rattle.certifying.specs.Questions.{questions_by};
ghost use Rattle.ztso.specs.Work.{runs_from};

use crate::work::WORDS;
use certifying::{Judgement, Questions, queue_engine};
use drawn_runs::progress::Progress;
use drawn_runs::{Draw, Runs, Sample};
use engine_support::fault::Fault;
use rand_core::SeedableRng;
use rand_pcg::Lcg64Xsh32;
use std::alloc::Global;
use std::io::{Read, Write};
use std::thread::Threads;

/// Judges a certificate and what is asked of it, and where it isn't accepted runs by schedules that are drawn from a generator of this seed.
pub fn judge_certificate<
    const B: usize,
    F: Read,
    C: Read,
    W: Write,
    T: Threads + Sync,
    P: Progress,
>(
    rt: &T,
    alloc: Global,
    seed: u64,
    draw: Draw,
    runs: Runs,
    asked: Questions<'_>,
    file: &mut F,
    certificate: &mut C,
    progress: &mut P,
    writer: &mut W,
) -> Result<Judgement, Fault>
    requires some_capacity { 1 ≤ B }
    requires capacity { B ≤ 64 }
    ensures ends { Ends (IsQueueAnswer (runs_from B seed draw runs) (questions_by asked.entry) (F.remaining file.old) (C.remaining certificate.old))
        result W.contents writer.old writer.new }
    ensures unread { IsRefused tests (F.remaining file.old) → certificate.new ≡ certificate.old }
{
    let generator = Lcg64Xsh32::seed_from_u64(seed);
    let sample = Sample {
        draw,
        generator: &generator,
        runs,
    };
    queue_engine::<B, WORDS, _, _, _, _, _, _>(
        rt,
        alloc,
        asked,
        file,
        certificate,
        &sample,
        progress,
        writer,
    )
}
