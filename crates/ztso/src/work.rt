//! Which engine does a job.

ghost use Rattle.std.specs.Prelude.{◌≡◌, ◌⊎◌, ℕ, ◌≤◌, List, [], ◌∷◌, max, IfOk, Ok, Option, option_map};
ghost use Rattle.std.specs.Io.KnownBytes.{Appends};
ghost use Rattle.ztso.specs.declared.work.TheConstants.{WORDS};
ghost use Rattle.command_line.specs.declared.job.Command.TheVariants.{Code, Machine};
ghost use Rattle.ztso.specs.Work.{Does, LeavesCommands, LeavesUnread, form_of, greatest_status, left_of, runs_from};
ghost use Rattle.ztso.specs.Work.{refusals, stores_of, tables_of};
ghost use Rattle.poll_close.specs.Layout.{layout_of};
ghost use Rattle.channel_engines.specs.Channels.{IsChannelAnswer};
ghost use Rattle.engine_support.specs.Engines.{Ends};
ghost use Rattle.engine_support.specs.Inputs.{IsRefused, schedules, tests};
ghost use Rattle.checking.specs.Checking.{IsCheckAnswer, IsCheckFront};
ghost use Rattle.finding.specs.Find.{IsFindAnswer};
ghost use Rattle.debugger.specs.Transcripts.{EndsInteractive, IsDebugAnswer, IsDebugFront, IsDebugSome, OnRefused, OnStopped, OnUnwritten};
ghost use Rattle.sampling.specs.Outcomes.{IsTryAnswer};
ghost use Rattle.engine_support.specs.declared.fault.Role.TheVariants.{Sender, Receiver};
ghost use Rattle.channel_engines.specs.UserChannels.{programs};
ghost use Rattle.channel_engines.specs.Rings.{IsRingAnswer};

use crate::calling::call_drawn;
use crate::certified::judge_certificate;
use crate::failure::{Failure, after, after_judgement, after_run, after_runs, after_search};
use certifying::Questions;
use channel_engines::channel::channel_engine;
use channel_engines::ring::ring_engine;
use channel_engines::user_channel::user_channel_engine;
use checking::check_engine;
use code_engines::asm::asm_engine;
use code_engines::dis::dis_engine;
use code_engines::steps::steps_engine;
use command_line::job::{Capacity, CodeCommand, Command, MachineCommand, Ring};
use debugger::debug::debug_engine;
use drawn_runs::progress::Progress;
use drawn_runs::{Draw, Runs, Sample};
use engine_support::fault::Fault;
use fastforward::FastForward;
use finding::{Found, SearchProgress, find_engine};
use lamport_cached::LamportCached;
use lamport_ring::Lamport;
use poll_close::BlockPlace;
use rand_core::SeedableRng;
use rand_pcg::Lcg64Xsh32;
use run_engines::moving::move_engine;
use run_engines::replay::replay_engine;
use run_engines::run::run_engine;
use run_engines::threads::threads_engine;
use sampling::trials::{Unfinished, try_engine};
use std::alloc::Global;
use std::io::{BufReader, Read, Write};
use std::sync::Wait;
use std::thread::Threads;
use view_engines::charting::chart_engine;
use view_engines::showing::{Form, show_engine};
use view_engines::shrinking::shrink_engine;

/// The words of the program's memory.
pub const WORDS: usize = 4096;

/// What a job reads and writes: its inputs, in the order in which they are read, a user's commands, and the output.
#[derive(Drop)]
pub struct Streams<I, C, W> {
    pub first: I,
    pub second: I,
    pub third: I,
    pub fourth: I,
    pub commands: C,
    pub writer: W,
}

/// Walks along a schedule's run at a user's commands.
fn debug<const B: usize, F: Read, S: Read, C: Read, W: Write>(
    alloc: Global,
    file: &mut F,
    schedule: &mut S,
    commands: &mut C,
    writer: &mut W,
) -> Result<(), Fault>
    requires some_capacity { 1 ≤ B }
    requires capacity { B ≤ 64 }
    ensures ends { EndsInteractive (IsDebugAnswer B WORDS (C.remaining commands.old) (F.remaining file.old) (S.remaining schedule.old)) result
        W.contents writer.old writer.new }
    ensures unread { IsRefused tests (F.remaining file.old) → schedule.new ≡ schedule.old }
    ensures unasked { OnRefused result (commands.new ≡ commands.old) }
    ensures left { OnStopped result ((out : List ℕ) × Appends (W.contents writer.old) (W.contents writer.new) out
        × ((out ≡ []) ⊎ IsDebugFront B WORDS (C.remaining commands.old) (F.remaining file.old) (S.remaining schedule.old) (Ok (out, tt)))) }
    ensures unwritten { OnUnwritten result ((out : List ℕ)
        × IsDebugSome B WORDS (C.remaining commands.old) (F.remaining file.old) (S.remaining schedule.old) (Ok (out, tt))) }
{
    let Ok(mut commands) = BufReader::new(alloc, commands) else {
        return Err(Fault::NoMemory);
    };
    let ended = debug_engine::<B, WORDS, _, _, _, _>(alloc, file, schedule, &mut commands, writer);
    // a contract speaks of the reader inside
    commands.into_inner();
    ended
}

/// Judges records of a test's runs, each as soon as it is read.
fn check<const B: usize, F: Read, S: Read, W: Write>(
    alloc: Global,
    file: &mut F,
    records: &mut S,
    writer: &mut W,
) -> Result<bool, Fault>
    requires some_capacity { 1 ≤ B }
    requires capacity { B ≤ 64 }
    ensures ends { EndsInteractive (IsCheckAnswer B WORDS (S.remaining records.old) (F.remaining file.old)) result
        W.contents writer.old writer.new }
    ensures unread { OnRefused result (IsRefused tests (F.remaining file.old) → records.new ≡ records.old) }
    ensures left { OnStopped result ((out : List ℕ) × Appends (W.contents writer.old) (W.contents writer.new) out
        × ((out ≡ []) ⊎ IsCheckFront B WORDS (S.remaining records.old) (F.remaining file.old) (Ok out))) }
    ensures unwritten { OnUnwritten result ((out : List ℕ) × IsCheckFront B WORDS (S.remaining records.old) (F.remaining file.old) (Ok out)) }
{
    let Ok(mut records) = BufReader::new(alloc, records) else {
        return Err(Fault::NoMemory);
    };
    let ended = check_engine::<B, WORDS, _, _, _>(alloc, file, &mut records, writer);
    // a contract speaks of the reader inside
    records.into_inner();
    ended
}

/// Runs a test by schedules that are drawn from a generator of this seed.
fn try_drawn<const B: usize, F: Read, W: Write, T: Threads + Sync, P: Progress>(
    rt: &T,
    alloc: Global,
    seed: u64,
    draw: Draw,
    runs: Runs,
    unfinished: bool,
    file: &mut F,
    progress: &mut P,
    writer: &mut W,
) -> Result<bool, Fault>
    requires some_capacity { 1 ≤ B }
    requires capacity { B ≤ 64 }
    ensures { Ends (IsTryAnswer (runs_from B seed draw runs) (left_of unfinished) (F.remaining file.old)) result W.contents writer.old writer.new }
{
    let generator = Lcg64Xsh32::seed_from_u64(seed);
    let sample = Sample {
        draw,
        generator: &generator,
        runs,
    };
    let left = left_of(unfinished);
    try_engine::<B, WORDS, _, _, _, _, _>(rt, alloc, file, left, &sample, progress, writer)
}

/// Runs a channel over lists of words by a schedule, through rings of this kind at this place, and then by a
/// plan if it is to be finished.
fn run_rings<const B: usize, S: Read, L: Read, W: Write>(
    alloc: Global,
    kind: Ring,
    place: BlockPlace,
    finish: bool,
    schedule: &mut S,
    lists: &mut L,
    writer: &mut W,
) -> Result<(), Fault>
    requires some_capacity { 1 ≤ B }
    requires capacity { B ≤ 64 }
    ensures ends { Ends (IsChannelAnswer (tables_of kind) B WORDS (layout_of place []) finish
        (S.remaining schedule.old) (L.remaining lists.old)) result W.contents writer.old writer.new }
    ensures unread { IsRefused schedules (S.remaining schedule.old) → lists.new ≡ lists.old }
{
    match kind {
        Ring::Lamport => channel_engine::<Lamport, B, WORDS, _, _, _>(
            alloc, place, finish, schedule, lists, writer,
        ),
        Ring::FastForward => channel_engine::<FastForward, B, WORDS, _, _, _>(
            alloc, place, finish, schedule, lists, writer,
        ),
        Ring::LamportCached => channel_engine::<LamportCached, B, WORDS, _, _, _>(
            alloc, place, finish, schedule, lists, writer,
        ),
    }
}

/// In which form a test is shown.
fn form_of(steps: bool) -> Form
    ensures { result ≡ form_of steps }
{
    if steps { Form::Steps } else { Form::Table }
}

/// What is said of the runs that did not finish.
fn left_of(unfinished: bool) -> Unfinished
    ensures { result ≡ left_of unfinished }
{
    if unfinished {
        Unfinished::Shown
    } else {
        Unfinished::Counted
    }
}

/// Looks for a schedule that shows what a litmus test asks about, over buffers of `B` stores.
fn find<const B: usize, F: Read, W: Write, P: SearchProgress>(
    alloc: Global,
    states: u32,
    file: &mut F,
    progress: &mut P,
    writer: &mut W,
) -> Result<Found, Fault>
    requires some_capacity { 1 ≤ B }
    requires capacity { B ≤ 64 }
    ensures { Ends (IsFindAnswer B WORDS (max states 1) (F.remaining file.old)) result W.contents writer.old writer.new }
{
    find_engine::<B, WORDS, _, _, _>(alloc, file, states.max(1), progress, writer)
}

/// Runs a channel over two programs by schedules that are drawn from a generator of this seed, with buffers of `B`
/// stores. The jobs are threads; it has no leave to wait for anything else.
fn run_user_ring<
    const B: usize,
    S: Read,
    R: Read,
    L: Read,
    W: Write,
    T: Threads + Sync,
    P: Progress,
>(
    rt: &T,
    alloc: Global,
    seed: u64,
    draw: Draw,
    runs: Runs,
    place: BlockPlace,
    sender: &mut S,
    receiver: &mut R,
    lists: &mut L,
    progress: &mut P,
    writer: &mut W,
) -> Result<bool, Fault>
    requires some_capacity { 1 ≤ B }
    requires capacity { B ≤ 64 }
    ensures ends { Ends (IsRingAnswer (runs_from B seed draw runs) place (S.remaining sender.old) (R.remaining receiver.old) (L.remaining lists.old))
        result W.contents writer.old writer.new }
    ensures unread { IsRefused (programs Sender) (S.remaining sender.old) → receiver.new ≡ receiver.old }
    ensures unread_lists { IsRefused (programs Sender) (S.remaining sender.old) ⊎ IsRefused (programs Receiver) (R.remaining receiver.old)
        → lists.new ≡ lists.old }
{
    let generator = Lcg64Xsh32::seed_from_u64(seed);
    let sample = Sample {
        draw,
        generator: &generator,
        runs,
    };
    ring_engine::<B, WORDS, _, _, _, _, _, _, _>(
        rt, alloc, place, sender, receiver, lists, &sample, progress, writer,
    )
}

/// Does a command on code: reads its input, and then writes what it answers.
fn do_code<I: Read, C: Read, W: Write>(
    alloc: Global,
    command: CodeCommand,
    streams: &mut Streams<I, C, W>,
) -> Result<u8, Failure>
    ensures does { (B : ℕ) (written read once : Option (List ℕ)) → Does B (Code command) result (record {
      first = I.remaining streams.old.first;
      second = I.remaining streams.old.second;
      third = I.remaining streams.old.third;
      fourth = I.remaining streams.old.fourth;
      commands = C.remaining streams.old.commands;
      written = written;
      read = read;
      once = once;
    }) W.contents streams.old.writer streams.new.writer }
    ensures kept { (streams.new.second ≡ streams.old.second) × (streams.new.third ≡ streams.old.third) × (streams.new.fourth ≡ streams.old.fourth) }
    ensures unasked { streams.new.commands ≡ streams.old.commands }
    ensures status { IfOk result (λ status. status ≤ 1) }
{
    match command {
        CodeCommand::Asm => after(asm_engine(alloc, &mut streams.first, &mut streams.writer)),
        CodeCommand::Dis => after(dis_engine(alloc, &mut streams.first, &mut streams.writer)),
    }
}

/// Does a command on a machine whose harts' buffers hold `B` stores: reads its inputs, and then writes what it answers.
/// The debugger and `check` write as they read. `progress` gets the reports of runs that are tried. Their jobs are threads;
/// it has no leave to wait for anything else.
fn do_machine<const B: usize, T: Threads + Sync, I: Read, C: Read, W: Write, P: Progress>(
    rt: &T,
    alloc: Global,
    command: MachineCommand,
    streams: &mut Streams<I, C, W>,
    progress: &mut P,
) -> Result<u8, Failure>
    requires some_capacity { 1 ≤ B }
    requires capacity { B ≤ 64 }
    ensures does { (written read once : Option (List ℕ)) → Does B (Machine command) result (record {
      first = I.remaining streams.old.first;
      second = I.remaining streams.old.second;
      third = I.remaining streams.old.third;
      fourth = I.remaining streams.old.fourth;
      commands = C.remaining streams.old.commands;
      written = written;
      read = read;
      once = once;
    }) W.contents streams.old.writer streams.new.writer }
    ensures unread { LeavesUnread (refusals (Machine command) result) (I.remaining streams.old.first ∷ []) → streams.new.second ≡ streams.old.second }
    ensures kept { (streams.new.third ≡ streams.old.third) × (streams.new.fourth ≡ streams.old.fourth) }
    ensures unasked { LeavesCommands (Machine command) result → streams.new.commands ≡ streams.old.commands }
    ensures status { IfOk result (λ status. status ≤ 1) }
{
    let Streams {
        first,
        second,
        commands,
        writer,
        ..
    } = streams;
    match command {
        MachineCommand::Steps => after(steps_engine::<B, WORDS, _, _>(alloc, first, writer)),
        MachineCommand::Run => {
            after_run(run_engine::<B, WORDS, _, _, _>(alloc, first, second, writer))
        }
        MachineCommand::Replay => {
            after(replay_engine::<B, WORDS, _, _, _>(alloc, first, second, writer))
        }
        MachineCommand::Move => {
            after(move_engine::<B, WORDS, _, _, _>(alloc, first, second, writer))
        }
        MachineCommand::Shrink => {
            after(shrink_engine::<B, WORDS, _, _, _>(alloc, first, second, writer))
        }
        MachineCommand::Chart { style, selection } => {
            after(chart_engine::<B, WORDS, _, _, _>(alloc, style, selection, first, second, writer))
        }
        MachineCommand::Show { steps } => {
            after(show_engine(alloc, form_of(steps), first, writer))
        }
        MachineCommand::Check => after_runs(check::<B, _, _, _>(alloc, first, second, writer)),
        MachineCommand::Debug => {
            after(debug::<B, _, _, _, _>(alloc, first, second, commands, writer))
        }
        MachineCommand::Try {
            seed,
            draw,
            runs,
            unfinished,
        } => after_runs(try_drawn::<B, _, _, _, _>(
            rt, alloc, seed, draw, runs, unfinished, first, progress, writer,
        )),
        MachineCommand::Callers {
            seed,
            draw,
            runs,
            queue,
        } => after_runs(call_drawn::<B, _, _, _, _>(
            rt, alloc, seed, draw, runs, queue, first, progress, writer,
        )),
        MachineCommand::Channel {
            kind,
            place,
            finish,
        } => after(run_rings::<B, _, _, _>(alloc, kind, place, finish, first, second, writer)),
    }
}

/// Does a command, over buffers of `B` stores if there is a machine, and with these bytes of records if they are asked about. It may wait, for the
/// lock and for the threads of `threads`.
fn do_buffered<const B: usize, R, I: Read, C: Read, W: Write, P: Progress, Q: SearchProgress>(
    rt: &R,
    command: Command,
    written: Option<&str>,
    read: Option<&str>,
    once: Option<&str>,
    streams: &mut Streams<I, C, W>,
    progress: &mut P,
    search: &mut Q,
) -> Result<u8, Failure>
where
    R: AllocGlobal + Threads + Wait + Sync,
    requires some_capacity { 1 ≤ B }
    requires capacity { B ≤ 64 }
    ensures does { Does B command result (record {
      first = I.remaining streams.old.first;
      second = I.remaining streams.old.second;
      third = I.remaining streams.old.third;
      fourth = I.remaining streams.old.fourth;
      commands = C.remaining streams.old.commands;
      written = option_map (λ bytes. bytes.now) written.entry;
      read = option_map (λ bytes. bytes.now) read.entry;
      once = option_map (λ bytes. bytes.now) once.entry;
    }) W.contents streams.old.writer streams.new.writer }
    ensures unread { LeavesUnread (refusals command result) (I.remaining streams.old.first ∷ []) → streams.new.second ≡ streams.old.second }
    ensures unread_third { LeavesUnread (refusals command result) (I.remaining streams.old.first ∷ I.remaining streams.old.second ∷ [])
        → streams.new.third ≡ streams.old.third }
    ensures unread_fourth { LeavesUnread (refusals command result)
        (I.remaining streams.old.first ∷ I.remaining streams.old.second ∷ I.remaining streams.old.third ∷ []) → streams.new.fourth ≡ streams.old.fourth }
    ensures unasked { LeavesCommands command result → streams.new.commands ≡ streams.old.commands }
    ensures status { IfOk result (λ status. status ≤ greatest_status command) }
{
    let alloc = rt.alloc();
    match command {
        Command::Code(command) => do_code(alloc, command, streams),
        Command::Machine(command) => {
            do_machine::<B, _, _, _, _, _>(rt, alloc, command, streams, progress)
        }
        Command::Find { states } => after_search(find::<B, _, _, _>(
            alloc,
            states,
            &mut streams.first,
            search,
            &mut streams.writer,
        )),
        Command::Threads { turns } => after_run(threads_engine::<B, WORDS, _, _, _>(
            rt,
            alloc,
            &mut streams.first,
            turns,
            &mut streams.writer,
        )),
        Command::UserChannel { place } => after(user_channel_engine::<B, WORDS, _, _, _, _, _>(
            alloc,
            place,
            &mut streams.first,
            &mut streams.second,
            &mut streams.third,
            &mut streams.fourth,
            &mut streams.writer,
        )),
        Command::Ring {
            seed,
            draw,
            runs,
            place,
        } => after_runs(run_user_ring::<B, _, _, _, _, _, _>(
            rt,
            alloc,
            seed,
            draw,
            runs,
            place,
            &mut streams.first,
            &mut streams.second,
            &mut streams.third,
            progress,
            &mut streams.writer,
        )),
        Command::Queue {
            seed,
            draw,
            runs,
            harts,
            safety,
        } => after_judgement(judge_certificate::<B, _, _, _, _, _>(
            rt,
            alloc,
            seed,
            draw,
            runs,
            Questions {
                progress: !safety,
                written,
                read,
                once,
                harts,
            },
            &mut streams.first,
            &mut streams.second,
            progress,
            &mut streams.writer,
        )),
    }
}

/// Does a command on these streams, on a machine whose buffers have this capacity if it has a machine: reads its inputs in
/// their order, each after an accepted one before it, and a user's commands, and writes what it answers. It answers the exit
/// status: 0, but 1 where the verdict is that the test fails or is unfinished, the runs that were tried don't show what the
/// test asks, a record was refused, callers of a queue owe something, or a run of a channel isn't clean, and of a certificate 6
/// where its loads aren't shown, 10 where its queues aren't shown to go on, 9 where only what is asked besides isn't shown, 7 where nothing
/// is, or 8 where a run breaks the protocol.
/// `written`, `read` and `once` are which bytes of records are asked about. `progress` gets the reports of runs that are tried, and `search` those of a search.
pub fn do_command<R, I: Read, C: Read, W: Write, P: Progress, Q: SearchProgress>(
    rt: &R,
    command: Command,
    capacity: Capacity,
    written: Option<&str>,
    read: Option<&str>,
    once: Option<&str>,
    streams: &mut Streams<I, C, W>,
    progress: &mut P,
    search: &mut Q,
) -> Result<u8, Failure>
where
    R: AllocGlobal + Threads + Wait + Sync,
    ensures does { Does (stores_of capacity) command result (record {
      first = I.remaining streams.old.first;
      second = I.remaining streams.old.second;
      third = I.remaining streams.old.third;
      fourth = I.remaining streams.old.fourth;
      commands = C.remaining streams.old.commands;
      written = option_map (λ bytes. bytes.now) written.entry;
      read = option_map (λ bytes. bytes.now) read.entry;
      once = option_map (λ bytes. bytes.now) once.entry;
    }) W.contents streams.old.writer streams.new.writer }
    ensures unread { LeavesUnread (refusals command result) (I.remaining streams.old.first ∷ []) → streams.new.second ≡ streams.old.second }
    ensures unread_third { LeavesUnread (refusals command result) (I.remaining streams.old.first ∷ I.remaining streams.old.second ∷ [])
        → streams.new.third ≡ streams.old.third }
    ensures unread_fourth { LeavesUnread (refusals command result)
        (I.remaining streams.old.first ∷ I.remaining streams.old.second ∷ I.remaining streams.old.third ∷ []) → streams.new.fourth ≡ streams.old.fourth }
    ensures unasked { LeavesCommands command result → streams.new.commands ≡ streams.old.commands }
    ensures status { IfOk result (λ status. status ≤ greatest_status command) }
{
    match capacity {
        Capacity::One => do_buffered::<1, _, _, _, _, _, _>(
            rt, command, written, read, once, streams, progress, search,
        ),
        Capacity::Two => do_buffered::<2, _, _, _, _, _, _>(
            rt, command, written, read, once, streams, progress, search,
        ),
        Capacity::Four => do_buffered::<4, _, _, _, _, _, _>(
            rt, command, written, read, once, streams, progress, search,
        ),
        Capacity::Sixteen => do_buffered::<16, _, _, _, _, _, _>(
            rt, command, written, read, once, streams, progress, search,
        ),
    }
}
