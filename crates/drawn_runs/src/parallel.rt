//! Runs that are made in rounds, each spread over jobs, and each job in a thread of its own.

ghost use Rattle.std.specs.Prelude.{◌≡◌, ◌≤◌, ◌<◌, ◌+◌, ℕ, slice_index_or, IfOk, OnOk, vec_len};
ghost use Rattle.drawn_runs.specs.Sharing.{IsOfJob, first_run_of_job};

use crate::first_run;
use crate::progress::Progress;
use std::alloc::{AllocError, Global};
use std::thread::{Threads, map_indices};

/// What makes runs, and puts together what is known of them.
pub trait Trials {
    ghost use Rattle.std.specs.Prelude.{◌≤◌, ℕ, IsTrue, IfOk, OnOk};
    ghost use Rattle.drawn_runs.specs.Sharing.{Meet};

    /// What is known of some runs.
    type Part: Send + Drop;

    /// That this is known of the runs from `first` on and before `end`.
    ghost knows: { Self → (first end : ℕ) → Self.Part → Type 0 };

    /// What is known of no run.
    fn none(&self, alloc: Global) -> Result<Self::Part, AllocError>
        ensures { IfOk result (λ part. knows self.now 0 0 part) };

    /// Makes the runs from `first` on and before `end`.
    fn make(&self, alloc: Global, first: u32, end: u32) -> Result<Self::Part, AllocError>
        requires { first ≤ end }
        ensures { IfOk result (λ part. knows self.now first end part) };

    /// Takes in what is known of the runs after these.
    fn join(&self, whole: &mut Self::Part, later: Self::Part) -> Result<(), AllocError>
        requires { Meet (knows self.now) whole.old later }
        ensures { OnOk result ((middle end : ℕ) → middle ≤ end → knows self.now 0 middle whole.old → knows self.now middle end later
            → knows self.now 0 end whole.new) };

    /// Whether no further run adds to what is known.
    fn is_over(&self, whole: &Self::Part) -> bool
        ensures { IsTrue result → (end more : ℕ) → end ≤ more → knows self.now 0 end whole.now → knows self.now 0 more whole.now };

    /// How many outcomes the runs showed, where outcomes are counted.
    fn outcomes(&self, whole: &Self::Part) -> Option<usize>;
}

/// Where the runs of a job begin that shares those from `first` on and before `end`.
fn place(first: u32, end: u32, jobs: usize, job: usize) -> u32
    requires order { first ≤ end }
    requires some { 1 ≤ jobs }
    requires most { jobs ≤ 4294967295 }
    requires job { job ≤ jobs }
    ensures { result ≡ first_run_of_job first end jobs job }
{
    first + first_run(end - first, jobs, job)
}

/// What is known of one job's runs.
fn make_of_job<D: Trials>(
    alloc: Global,
    trials: &D,
    first: u32,
    end: u32,
    jobs: usize,
    job: usize,
) -> Result<D::Part, AllocError>
    requires order { first ≤ end }
    requires most { jobs ≤ 4294967295 }
    requires job { job < jobs }
    ensures { IfOk result (λ part. IsOfJob (D.knows trials.now) first end jobs job part) }
{
    let begin = place(first, end, jobs, job);
    let next = place(first, end, jobs, job + 1);
    trials.make(alloc, begin, next)
}

/// What is known of each job's runs, in order, each made in a thread of its own where there is one to be had.
fn parts_of<D: Trials + Sync, T: Threads + Sync>(
    rt: &T,
    alloc: Global,
    trials: &D,
    first: u32,
    end: u32,
    jobs: usize,
) -> Result<Vec<Result<D::Part, AllocError>>, AllocError>
    requires order { first ≤ end }
    requires most { jobs ≤ 4294967295 }
    ensures len { IfOk result (λ parts. vec_len parts ≡ jobs) }
    ensures each { IfOk result (λ parts. (job : ℕ) (d : _) → job < jobs → IfOk (slice_index_or parts.items job d)
        (λ part. IsOfJob (D.knows trials.now) first end jobs job part)) }
{
    map_indices(
        rt,
        alloc,
        jobs,
        &|job: usize| -> Result<D::Part, AllocError>
            requires { (first ≤ end) × (jobs ≤ 4294967295) × (job < jobs) }
            ensures { IfOk result (λ part. IsOfJob (D.knows trials.entry.now) first end jobs job part) }
        { make_of_job(alloc, trials, first, end, jobs, job) },
    )
}

/// Makes the runs from `first` on and before `end`, spread over `jobs` threads, and takes them in after those before
/// them.
fn add_by_jobs<D: Trials + Sync, T: Threads + Sync>(
    rt: &T,
    alloc: Global,
    trials: &D,
    whole: &mut D::Part,
    first: u32,
    end: u32,
    jobs: usize,
) -> Result<(), AllocError>
    requires order { first ≤ end }
    requires some { 1 ≤ jobs }
    requires most { jobs ≤ 4294967295 }
    requires known { D.knows trials.now 0 first whole.old }
    ensures { OnOk result (D.knows trials.now 0 end whole.new) }
{
    let parts = parts_of(rt, alloc, trials, first, end, jobs)?;
    for part in parts {
        trials.join(whole, part?)?;
    }
    Ok(())
}

/// What is known of `runs` runs. They are made in rounds of as many runs as the progress wants, which gets a report
/// after each, until all are made or no further one adds anything. Each round is spread over `jobs` threads; no job is
/// one. What is known depends neither on the rounds nor on the jobs.
pub fn in_rounds<D: Trials + Sync, T: Threads + Sync, P: Progress>(
    rt: &T,
    alloc: Global,
    trials: &D,
    runs: u32,
    jobs: u32,
    progress: &mut P,
) -> Result<D::Part, AllocError>
    ensures { IfOk result (λ whole. D.knows trials.now 0 runs whole) }
{
    let jobs = jobs.max(1) as usize;
    let mut whole = trials.none(alloc)?;
    let mut done = 0;
    while done < runs {
        let round = progress.next_round(runs - done).clamp(1, runs - done);
        add_by_jobs(rt, alloc, trials, &mut whole, done, done + round, jobs)?;
        done += round;
        progress.report(done, runs, trials.outcomes(&whole));
        if trials.is_over(&whole) {
            return Ok(whole);
        }
    }
    Ok(whole)
}
