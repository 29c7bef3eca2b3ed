//! Generators that can jump over words that nobody draws, the runs that they draw ([`Sample`]), and how these are spread.
//!
//! The contract: [`Jump::ahead`] returns a generator whose stream is what is left of this one's after so
//! many words of 32 bits, [`first_run`] shares runs among jobs, and [`parallel::in_rounds`] returns what
//! [`parallel::Trials`] knows of runs, however they were spread over rounds and jobs. [`draw_by`] draws the events of a run,
//! each by itself or in bursts of one hart, and [`draws::next_by`] one after the other. What is reported through
//! [`progress::Progress`] no clause says. This crate reads and writes no schedule.
//!
//! Called by more than 6 crates, from `judged_runs` to `ztso`.

#![tactic(auto)]

pub mod draws;
pub mod parallel;
pub mod progress;

ghost use Rattle.std.specs.Prelude.{◌≡◌, ◌≤◌, ◌*◌, IfOk};
ghost use Rattle.recorder.specs.Drawing.{left_after};
ghost use Rattle.drawn_runs.specs.Sharing.{first_of};

pub use draws::{Draw, draw_by};
use rand_core::Rng;
use rand_pcg::Lcg64Xsh32;
use std::alloc::AllocError;

/// Which runs a generator draws, and how they are spread.
#[derive(Clone, Copy)]
pub struct Runs {
    /// How many runs of the stream are passed over.
    pub skip: u64,
    /// How many runs after them are made.
    pub number: u32,
    /// How many events each run has, passed over or made.
    pub length: u32,
    /// How many threads share the runs, where 0 is one. The answer doesn't depend on it.
    pub jobs: u32,
}

/// Runs that a generator draws.
#[derive(Drop)]
pub struct Sample<'a, G> {
    /// How their events are drawn.
    pub draw: Draw,
    /// The generator before the runs that are passed over.
    pub generator: &'a G,
    /// Which runs they are.
    pub runs: Runs,
}

/// How many runs come before those of a job. No job has more than one run more than another.
pub fn first_run(runs: u32, jobs: usize, job: usize) -> u32
    requires some { 1 ≤ jobs }
    requires most { jobs ≤ 4294967295 }
    requires job { job ≤ jobs }
    ensures place { result ≡ first_of runs jobs job }
    ensures most { result ≤ runs }
{
    (u64::from(runs) * job as u64 / jobs as u64) as u32
}

/// A generator that can jump over words of 32 bits.
pub trait Jump: Rng + Sized {
    /// A generator that gives what this one gives after `blocks` blocks of `size` words of 32 bits. It is
    /// an `Err` where memory runs out.
    fn ahead(&self, blocks: u64, size: u32) -> Result<Self, AllocError>
        ensures { IfOk result (λ there. Self.Rng.stream there ≡ left_after (blocks * size) (Self.Rng.stream self.now)) };
}

impl Jump for Lcg64Xsh32 {
    fn ahead(&self, blocks: u64, size: u32) -> Result<Lcg64Xsh32, AllocError> {
        let mut there = self.clone()?;
        // not in one jump, since the product may pass 2^64
        for _ in 0..size {
            there.advance(blocks);
        }
        Ok(there)
    }
}
