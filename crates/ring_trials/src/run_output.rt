//! The answer of many runs: that all are clean, or the first one that isn't, made short.

ghost use Rattle.std.specs.Prelude.{◌≤◌, IfOk, IfErr, OnOk};
ghost use Rattle.std.specs.String.{string_bytes};
ghost use Rattle.drawn_runs.specs.Samples.{runs_of};
ghost use Rattle.poll_close.specs.Laws.{AcceptedAt, FitsHart};
ghost use Rattle.poll_close.specs.Refusals.{RefusesAt};
ghost use Rattle.ring_trials.specs.UserChannel.{ring_of, lists_of, layout_from, OpensOver};
ghost use Rattle.ring_trials.specs.Answers.{IsTrialsOutput};

use crate::answer_texts::{clean_text, unclean_text};
use crate::runs::ChannelJudge;
use crate::user_channel::{UserChannel, open_channel};
use drawn_runs::parallel::in_rounds;
use drawn_runs::progress::Progress;
use drawn_runs::{Jump, Sample};
use judged_runs::{JudgedRuns, Told, told_of_runs};
use poll_close::RefusedAt;
use std::alloc::{AllocError, Global};
use std::thread::Threads;
use step_machine::Opening;

/// The text for the runs of a channel with this opening, and whether all are clean.
fn output_of<const B: usize, const M: usize, G: Jump + Sync + Drop, T: Threads + Sync, P: Progress>(
    rt: &T,
    alloc: Global,
    channel: &UserChannel,
    opening: &Opening,
    sample: &Sample<'_, G>,
    progress: &mut P,
) -> Result<(String, bool), AllocError>
    requires capacity { B ≤ 64 }
    requires memory { M ≤ 65536 }
    requires opens { OpensOver M channel.now opening.now }
    ensures { IfOk result (λ t. IsTrialsOutput (runs_of B M G.Rng.stream sample.now) channel.now (string_bytes t.0, t.1)) }
{
    let judge = ChannelJudge::<B, M> { channel, opening };
    let runs = sample.runs;
    let start = sample.generator.ahead(runs.skip, runs.length)?;
    let drawn = JudgedRuns {
        judge: &judge,
        generator: &start,
        draw: sample.draw,
        size: runs.length,
    };
    let found = in_rounds(rt, alloc, &drawn, runs.number, runs.jobs, progress);
    progress.end();
    match told_of_runs(alloc, &drawn, runs.number, found?)? {
        Told::Good(totals) => {
            let text = clean_text(alloc, runs.number, &totals, &channel.lists)?;
            Ok((text, true))
        }
        Told::Flawed { part, flaw } => Ok((unclean_text(alloc, &part, flaw)?, false)),
    }
}

/// Makes the runs of a sample of a channel over two programs, with store buffers of `B` pairs and `M` words of memory. Gives the
/// text of what is found, and whether all runs are clean.
///
/// If all are clean, that is their number and a line for each sender. Otherwise it is a schedule and the line of the
/// first violation of its run: of the first run that isn't clean, from which events were left out until none could go.
/// The text depends neither on the jobs nor on the progress, which learns how far the runs are, and that they ended.
///
/// The channel is refused as [`open_channel`] refuses it.
pub fn run_trials<
    const B: usize,
    const M: usize,
    G: Jump + Sync + Drop,
    T: Threads + Sync,
    P: Progress,
>(
    rt: &T,
    alloc: Global,
    channel: &UserChannel,
    sample: &Sample<'_, G>,
    progress: &mut P,
) -> Result<(String, bool), RefusedAt>
    requires some_capacity { 1 ≤ B }
    requires capacity { B ≤ 64 }
    requires some_word { 1 ≤ M }
    requires memory { M ≤ 65536 }
    requires short { FitsHart (ring_of channel.now) }
    ensures accepted { OnOk result (AcceptedAt (ring_of channel.now) M (lists_of channel.now) (layout_from channel.now)) }
    ensures output { IfOk result (λ t. IsTrialsOutput (runs_of B M G.Rng.stream sample.now) channel.now (string_bytes t.0, t.1)) }
    ensures refused { IfErr result (λ e. RefusesAt (ring_of channel.now) M (lists_of channel.now) (layout_from channel.now) e) }
{
    let opening = open_channel(alloc, channel, M)?;
    Ok(output_of::<B, M, G, T, P>(rt, alloc, channel, &opening, sample, progress)?)
}
