//! What is asked of the callers of a queue's functions.

ghost use Rattle.std.specs.Prelude.{◌≡◌, ◌≤◌};
ghost use Rattle.engine_support.specs.Engines.{Ends};
ghost use Rattle.callers.specs.Answers.{IsCallersAnswer};
ghost use Rattle.ztso.specs.Work.{queue_of, runs_from};

use crate::work::WORDS;
use callers::{Queue, QueueKind, callers_engine};
use command_line::job;
use command_line::job::CalledQueue;
use drawn_runs::progress::Progress;
use drawn_runs::{Draw, Runs, Sample};
use engine_support::fault::Fault;
use rand_core::SeedableRng;
use rand_pcg::Lcg64Xsh32;
use std::alloc::Global;
use std::io::{Read, Write};
use std::thread::Threads;

/// The queue, as its engine takes it.
fn queue_of(called: CalledQueue) -> Queue
    ensures { result ≡ queue_of called }
{
    let CalledQueue {
        kind,
        base,
        slots,
        sender,
        receiver,
    } = called;
    let kind = match kind {
        job::QueueKind::Lamport => QueueKind::Lamport,
        job::QueueKind::Cached => QueueKind::Cached,
        job::QueueKind::FastForward => QueueKind::FastForward,
    };
    Queue {
        kind,
        base,
        slots,
        sender,
        receiver,
    }
}

/// Runs a test, whose harts call this queue's functions, by schedules that are drawn from a generator of this seed.
pub fn call_drawn<const B: usize, F: Read, W: Write, T: Threads + Sync, P: Progress>(
    rt: &T,
    alloc: Global,
    seed: u64,
    draw: Draw,
    runs: Runs,
    called: CalledQueue,
    file: &mut F,
    progress: &mut P,
    writer: &mut W,
) -> Result<bool, Fault>
    requires some_capacity { 1 ≤ B }
    requires capacity { B ≤ 64 }
    ensures { Ends (IsCallersAnswer (runs_from B seed draw runs) (queue_of called) (F.remaining file.old)) result W.contents writer.old writer.new }
{
    let generator = Lcg64Xsh32::seed_from_u64(seed);
    let sample = Sample {
        draw,
        generator: &generator,
        runs,
    };
    callers_engine::<B, WORDS, _, _, _, _, _>(
        rt,
        alloc,
        file,
        queue_of(called),
        &sample,
        progress,
        writer,
    )
}
