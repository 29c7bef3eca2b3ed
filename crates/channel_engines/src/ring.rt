//! The command `ring`: two programs and the senders' lists in, totals of drawn runs of their channel or a short unclean one out.

ghost use Rattle.std.specs.Prelude.{◌≡◌, ◌≤◌, ◌⊎◌};
ghost use Rattle.drawn_runs.specs.Samples.{runs_of};
ghost use Rattle.engine_support.specs.declared.fault.Role.TheVariants.{Sender, Receiver};
ghost use Rattle.engine_support.specs.Engines.{Ends};
ghost use Rattle.engine_support.specs.inner.{FindsUpToReads, text_and_value};
ghost use Rattle.engine_support.specs.Inputs.{IsRefused};
ghost use Rattle.channel_engines.specs.UserChannels.{programs};
ghost use Rattle.channel_engines.specs.Rings.{IsRingAnswer};

use crate::channel::channel_fault;
use crate::lists::read_lists;
use crate::programs::read_program;
use drawn_runs::progress::Progress;
use drawn_runs::{Jump, Sample};
use engine_support::fault::{Fault, Role};
use engine_support::output::end_with;
use poll_close::BlockPlace;
use ring_trials::run_output::run_trials;
use ring_trials::user_channel::UserChannel;
use std::alloc::Global;
use std::io::{Read, Write};
use std::thread::Threads;

/// What is to be written for the inputs that the readers give, and whether all runs are clean.
fn made<
    const B: usize,
    const M: usize,
    S: Read,
    R: Read,
    L: Read,
    G: Jump + Sync + Drop,
    T: Threads + Sync,
    P: Progress,
>(
    rt: &T,
    alloc: Global,
    place: BlockPlace,
    sender: &mut S,
    receiver: &mut R,
    lists: &mut L,
    sample: &Sample<'_, G>,
    progress: &mut P,
) -> Result<(String, bool), Fault>
    requires some_capacity { 1 ≤ B }
    requires capacity { B ≤ 64 }
    requires some_word { 1 ≤ M }
    requires size { M ≤ 65536 }
    ensures made { FindsUpToReads (IsRingAnswer (runs_of B M G.Rng.stream sample.now) place
        (S.remaining sender.old) (R.remaining receiver.old) (L.remaining lists.old)) text_and_value result }
    ensures unread { IsRefused (programs Sender) (S.remaining sender.old) → receiver.new ≡ receiver.old }
    ensures unread_lists { IsRefused (programs Sender) (S.remaining sender.old) ⊎ IsRefused (programs Receiver) (R.remaining receiver.old)
        → lists.new ≡ lists.old }
{
    let sender = read_program(alloc, Role::Sender, sender)?;
    let receiver = read_program(alloc, Role::Receiver, receiver)?;
    let lists = read_lists(alloc, lists)?;
    let channel = UserChannel {
        sender,
        receiver,
        lists,
        place,
    };
    match run_trials::<B, M, G, T, P>(rt, alloc, &channel, sample, progress) {
        Ok(answered) => Ok(answered),
        Err(why) => Err(channel_fault(why)),
    }
}

/// Reads the assembly of the sender and that of the receiver, and then the senders' lists, each to its end: a line of
/// words in decimal, parted by spaces, for each sender. It makes the runs of the sample of the channel over these programs and
/// lists at a place, with store buffers of `B` pairs and `M` words of memory that open as 0.
///
/// Where all runs are clean it writes how many they are, and a line for each sender: how many of its words a run took
/// at most, and in how many runs it was reported closed. Else it writes a part of the first unclean run's events that is
/// unclean itself, and without any one of them isn't, and what that breaks first. It answers whether all runs are clean.
/// Neither depends on the jobs or on the progress, which learns how far the runs are, and that they ended.
///
/// A program is refused as too large ([`engine_support::fault::TOO_LARGE`]), else as no text
/// ([`engine_support::fault::NOT_TEXT`]), else as [`assembler::assemble`] says, at the line, as this program's. Lists are
/// refused as [`crate::channel::channel_engine`] refuses them, for a ring of one slot or more. What comes after a refused
/// input is not read, and nothing was written.
pub fn ring_engine<
    const B: usize,
    const M: usize,
    S: Read,
    R: Read,
    L: Read,
    G: Jump + Sync + Drop,
    W: Write,
    T: Threads + Sync,
    P: Progress,
>(
    rt: &T,
    alloc: Global,
    place: BlockPlace,
    sender: &mut S,
    receiver: &mut R,
    lists: &mut L,
    sample: &Sample<'_, G>,
    progress: &mut P,
    writer: &mut W,
) -> Result<bool, Fault>
    requires some_capacity { 1 ≤ B }
    requires capacity { B ≤ 64 }
    requires some_word { 1 ≤ M }
    requires size { M ≤ 65536 }
    ensures ends { Ends (IsRingAnswer (runs_of B M G.Rng.stream sample.now) place
        (S.remaining sender.old) (R.remaining receiver.old) (L.remaining lists.old)) result W.contents writer.old writer.new }
    ensures unread { IsRefused (programs Sender) (S.remaining sender.old) → receiver.new ≡ receiver.old }
    ensures unread_lists { IsRefused (programs Sender) (S.remaining sender.old) ⊎ IsRefused (programs Receiver) (R.remaining receiver.old)
        → lists.new ≡ lists.old }
{
    end_with(
        made::<B, M, S, R, L, G, T, P>(rt, alloc, place, sender, receiver, lists, sample, progress),
        writer,
    )
}
