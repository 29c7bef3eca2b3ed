//! The command line, read as a job.

ghost use Rattle.std.specs.Prelude.{◌≡◌, ◌∷◌, ℕ, List, IfOk, map, option_and_then, option_map, Some};
ghost use Rattle.clap.specs.Words.{FailsBy, fault_of, subcommand_of, subcommand_rows_of};
ghost use Rattle.command_line.specs.CommandLines.{GivesJob, found_by, job_by, capacity_given, capacity_in, job_at, channel_in, chart_in, find_in, flag_given};
ghost use Rattle.command_line.specs.CommandLines.{bytes_if_given, callers_in, certified_in, draw_given, queue_in, queue_kind_given, show_in, style_given};
ghost use Rattle.command_line.specs.CommandLines.{selection_given, job_given, number_if_given, number_at, own_in, on_file, on_file_and_schedule, on_channel};
ghost use Rattle.command_line.specs.CommandLines.{on_file_and_certificate, on_file_and_standard, on_own_channel, on_programs_and_standard};
ghost use Rattle.command_line.specs.CommandLines.{on_schedule_and_standard, on_standard, place_in, ring_in, ring_given, runs_in, scheduled_in, seed_in};
ghost use Rattle.command_line.specs.CommandLines.{threads_in, try_in, SayPlace, SayQueue, SayRuns};
ghost use Rattle.command_line.specs.Descriptions.{ztso_command};
ghost use Rattle.command_line.specs.Uses.{IsSpelling};
ghost use Rattle.command_line.specs.Jobs.{Wanted, wanted_by};

use crate::description::ztso_command;
use crate::fault::CommandLineError;
use crate::job::{
    CalledQueue, Capacity, CodeCommand, Command, Input, Job, MachineCommand, QueueKind, Ring,
};
use crate::numbers::{count_of, number_of};
use chart::charts::{Selection, Style};
use clap::ArgMatches;
use drawn_runs::{Draw, Runs};
use poll_close::BlockPlace;
use record_bytes::is_bytes;
use recorder::MAX_EVENTS;
use std::alloc::Global;
use std::convert::AsStr;

/// The most runs that `try`, `callers` and `ring` make.
const MOST_RUNS: u32 = 100_000;

/// The most threads that share them.
const MOST_JOBS: u32 = 64;

/// The greatest number of a hart.
const LAST_HART: u32 = 63;

/// The most states that `find` sees.
const MOST_STATES: u32 = 16_777_216;

/// The most calls that a thread of `threads` makes.
const MOST_TURNS: u32 = 10_000_000;

/// The job that the words ask for, the first of which is the program's name.
///
/// Any other words are a bad command line, and so is a request for help; as clap has it, a last `--`
/// is taken. The other failure is want of memory.
pub fn job_of<'a, S: AsStr>(alloc: Global, words: &'a [S]) -> Result<Job<'a>, CommandLineError>
    ensures asked { GivesJob (job_given (map S.text words.entry.now)) result }

    // Each way of writing a job is taken, whatever name the program is called by.
    ensures spelled { (name : List ℕ) (rest : List (List ℕ)) (wanted : Wanted)
        → map S.text words.entry.now ≡ name ∷ rest → IsSpelling wanted rest → GivesJob (Some wanted) result }
{
    let matches = matches_of(alloc, words)?;
    job_at(&matches).ok_or(CommandLineError::BadCommandLine)
}

fn matches_of<'a, S: AsStr>(alloc: Global, words: &'a [S]) -> Result<ArgMatches<'a>, clap::Error>
    ensures kinds { FailsBy (fault_of ztso_command (map S.text words.entry.now)) result }
    ensures subcommand { IfOk result (λ matches.
        subcommand_rows_of matches ≡ subcommand_of ztso_command (map S.text words.entry.now)) }
{
    let command = ztso_command(alloc)?;
    command.try_get_matches_from(words)
}

fn job_at<'a>(matches: &ArgMatches<'a>) -> Option<Job<'a>>
    ensures { option_map wanted_by result ≡ option_and_then job_at (subcommand_rows_of matches.now) }
{
    let (name, options) = matches.subcommand()?;
    job_by(name, options)
}

/// The table of commands: what each asks for.
fn job_by<'a>(name: &str, options: &ArgMatches<'a>) -> Option<Job<'a>>
    ensures { option_map wanted_by result ≡ job_by name.now (found_by options.now) }
{
    match name {
        "steps" => on_standard(options, Some(Command::Machine(MachineCommand::Steps))),
        "asm" => on_standard(options, Some(Command::Code(CodeCommand::Asm))),
        "dis" => on_standard(options, Some(Command::Code(CodeCommand::Dis))),
        "show" => on_file(options, show_in(options)),
        "check" => on_file_and_standard(options, Some(Command::Machine(MachineCommand::Check))),
        "find" => on_file(options, find_in(options)),
        "try" => on_file(options, try_in(options)),
        "callers" => on_file(options, callers_in(options)),
        "channel" => on_channel(options),
        "threads" => on_file(options, threads_in(options)),
        "ring" => on_programs_and_standard(options, ring_in(options)),
        "queue" => on_file_and_certificate(options, certified_in(options)),
        _ => { on_file_and_schedule(options, scheduled_in(name, options)) }
    }
}

/// The command of this name on a litmus text and a schedule, if there is one.
fn scheduled_in(name: &str, options: &ArgMatches<'_>) -> Option<Command>
    ensures { result ≡ scheduled_in name.now (found_by options.now) }
{
    match name {
        "run" => Some(Command::Machine(MachineCommand::Run)),
        "replay" => Some(Command::Machine(MachineCommand::Replay)),
        "move" => Some(Command::Machine(MachineCommand::Move)),
        "shrink" => Some(Command::Machine(MachineCommand::Shrink)),
        "chart" => chart_in(options),
        "debug" => Some(Command::Machine(MachineCommand::Debug)),
        _ => None,
    }
}

/// The command, if there is one, with its inputs in the order in which they are read: standard input alone.
fn on_standard<'a>(options: &ArgMatches<'a>, command: Option<Command>) -> Option<Job<'a>>
    ensures { option_map wanted_by result ≡ on_standard (found_by options.now) command }
{
    let command = command?;
    let capacity = capacity_in(options)?;
    Some(Job {
        command,
        capacity,
        first: Input::Standard,
        second: None,
        third: None,
        fourth: None,
        written: None,
        read: None,
        once: None,
    })
}

fn on_file<'a>(options: &ArgMatches<'a>, command: Option<Command>) -> Option<Job<'a>>
    ensures { option_map wanted_by result ≡ on_file (found_by options.now) command }
{
    let command = command?;
    let capacity = capacity_in(options)?;
    let file = word_in(options, "file")?;
    Some(Job {
        command,
        capacity,
        first: Input::File(file),
        second: None,
        third: None,
        fourth: None,
        written: None,
        read: None,
        once: None,
    })
}

fn on_file_and_schedule<'a>(options: &ArgMatches<'a>, command: Option<Command>) -> Option<Job<'a>>
    ensures { option_map wanted_by result ≡ on_file_and_schedule (found_by options.now) command }
{
    let command = command?;
    let capacity = capacity_in(options)?;
    let file = word_in(options, "file")?;
    let schedule = word_in(options, "schedule")?;
    Some(Job {
        command,
        capacity,
        first: Input::File(file),
        second: Some(Input::File(schedule)),
        third: None,
        fourth: None,
        written: None,
        read: None,
        once: None,
    })
}

fn on_file_and_standard<'a>(options: &ArgMatches<'a>, command: Option<Command>) -> Option<Job<'a>>
    ensures { option_map wanted_by result ≡ on_file_and_standard (found_by options.now) command }
{
    let command = command?;
    let capacity = capacity_in(options)?;
    let file = word_in(options, "file")?;
    Some(Job {
        command,
        capacity,
        first: Input::File(file),
        second: Some(Input::Standard),
        third: None,
        fourth: None,
        written: None,
        read: None,
        once: None,
    })
}

fn on_file_and_certificate<'a>(
    options: &ArgMatches<'a>,
    command: Option<Command>,
) -> Option<Job<'a>>
    ensures { option_map wanted_by result ≡ on_file_and_certificate (found_by options.now) command }
{
    let command = command?;
    let capacity = capacity_in(options)?;
    let file = word_in(options, "file")?;
    let certificate = word_in(options, "certificate")?;
    let written = bytes_if_given(word_in(options, "written"))?;
    let read = bytes_if_given(word_in(options, "read"))?;
    let once = bytes_if_given(word_in(options, "once"))?;
    Some(Job {
        command,
        capacity,
        first: Input::File(file),
        second: Some(Input::File(certificate)),
        third: None,
        fourth: None,
        written,
        read,
        once,
    })
}

fn on_schedule_and_standard<'a>(
    options: &ArgMatches<'a>,
    command: Option<Command>,
) -> Option<Job<'a>>
    ensures { option_map wanted_by result ≡ on_schedule_and_standard (found_by options.now) command }
{
    let command = command?;
    let capacity = capacity_in(options)?;
    let schedule = word_in(options, "schedule")?;
    Some(Job {
        command,
        capacity,
        first: Input::File(schedule),
        second: Some(Input::Standard),
        third: None,
        fourth: None,
        written: None,
        read: None,
        once: None,
    })
}

/// The command, if there is one, on the files `sender` and `receiver`, and then on standard input.
fn on_programs_and_standard<'a>(
    options: &ArgMatches<'a>,
    command: Option<Command>,
) -> Option<Job<'a>>
    ensures { option_map wanted_by result ≡ on_programs_and_standard (found_by options.now) command }
{
    let command = command?;
    let capacity = capacity_in(options)?;
    let sender = word_in(options, "sender")?;
    let receiver = word_in(options, "receiver")?;
    Some(Job {
        command,
        capacity,
        first: Input::File(sender),
        second: Some(Input::File(receiver)),
        third: Some(Input::Standard),
        fourth: None,
        written: None,
        read: None,
        once: None,
    })
}

/// What `channel` asks for: with KIND `own` a run over the user's programs, which have to be there; else one of a known
/// ring, without them.
fn on_channel<'a>(options: &ArgMatches<'a>) -> Option<Job<'a>>
    ensures { option_map wanted_by result ≡ on_channel (found_by options.now) }
{
    if word_in(options, "kind")? == "own" {
        return on_own_channel(options);
    }
    if word_in(options, "sender").is_some() || word_in(options, "receiver").is_some() {
        return None;
    }
    on_schedule_and_standard(options, channel_in(options))
}

/// `channel own`: the files `sender`, `receiver` and `schedule`, and then standard input.
fn on_own_channel<'a>(options: &ArgMatches<'a>) -> Option<Job<'a>>
    ensures { option_map wanted_by result ≡ on_own_channel (found_by options.now) }
{
    let sender = word_in(options, "sender")?;
    let receiver = word_in(options, "receiver")?;
    let command = own_in(options)?;
    let capacity = capacity_in(options)?;
    let schedule = word_in(options, "schedule")?;
    Some(Job {
        command,
        capacity,
        first: Input::File(sender),
        second: Some(Input::File(receiver)),
        third: Some(Input::File(schedule)),
        fourth: Some(Input::Standard),
        written: None,
        read: None,
        once: None,
    })
}

/// The capacity that the options ask for; a command without such an option has a usual capacity that nothing reads.
fn capacity_in(options: &ArgMatches<'_>) -> Option<Capacity>
    ensures { result ≡ capacity_in (found_by options.now) }
{
    match word_in(options, "buffer") {
        Some(text) => capacity_of(text),
        None => Some(Capacity::Four),
    }
}

/// The search that `find` is to make.
fn find_in(options: &ArgMatches<'_>) -> Option<Command>
    ensures { result ≡ find_in (found_by options.now) }
{
    let states = number_in(options, "states", 1, MOST_STATES)?;
    Some(Command::Find { states })
}

/// The run on threads that `threads` is to make.
fn threads_in(options: &ArgMatches<'_>) -> Option<Command>
    ensures { result ≡ threads_in (found_by options.now) }
{
    let turns = number_in(options, "turns", 0, MOST_TURNS)?;
    Some(Command::Threads { turns })
}

/// The seed of the generator that draws schedules.
fn seed_in(options: &ArgMatches<'_>) -> Option<u64>
    ensures { result ≡ seed_in (found_by options.now) }
{
    number_of(word_in(options, "seed")?)
}

/// Which runs are drawn.
fn runs_in(options: &ArgMatches<'_>) -> Option<Runs>
    ensures runs { result ≡ runs_in (found_by options.now) }
    ensures fields { (runs : Runs) → result ≡ Some runs → SayRuns (found_by options.now) runs }
{
    let skip = number_of(word_in(options, "skip")?)?;
    let number = number_in(options, "runs", 1, MOST_RUNS)?;
    let length = number_in(options, "length", 0, MAX_EVENTS as u32)?;
    let jobs = number_in(options, "jobs", 1, MOST_JOBS)?;
    Some(Runs {
        skip,
        number,
        length,
        jobs,
    })
}

/// The runs that `try` is to make.
fn try_in(options: &ArgMatches<'_>) -> Option<Command>
    ensures { result ≡ try_in (found_by options.now) }
{
    let seed = seed_in(options)?;
    let draw = draw_of(word_in(options, "draw")?)?;
    let runs = runs_in(options)?;
    let unfinished = flag_of(word_in(options, "unfinished")?);
    Some(Command::Machine(MachineCommand::Try {
        seed,
        draw,
        runs,
        unfinished,
    }))
}

/// The queue whose functions code calls.
fn queue_in(options: &ArgMatches<'_>) -> Option<CalledQueue>
    ensures queue { result ≡ queue_in (found_by options.now) }
    ensures fields { (queue : CalledQueue) → result ≡ Some queue → SayQueue (found_by options.now) queue }
{
    let kind = queue_kind_of(word_in(options, "kind")?)?;
    let base = number_in(options, "base", 0, u32::MAX)?;
    let slots = number_in(options, "slots", 0, u32::MAX)?;
    let sender = number_in(options, "sender", 0, LAST_HART)?;
    let receiver = number_in(options, "receiver", 0, LAST_HART)?;
    Some(CalledQueue {
        kind,
        base,
        slots,
        sender,
        receiver,
    })
}

/// The runs that `callers` is to make, and of which queue.
fn callers_in(options: &ArgMatches<'_>) -> Option<Command>
    ensures { result ≡ callers_in (found_by options.now) }
{
    let seed = seed_in(options)?;
    let draw = draw_of(word_in(options, "draw")?)?;
    let runs = runs_in(options)?;
    let queue = queue_in(options)?;
    Some(Command::Machine(MachineCommand::Callers {
        seed,
        draw,
        runs,
        queue,
    }))
}

/// The runs that `queue` is to make where a certificate isn't accepted, whether the harts are asked about, and whether progress isn't.
fn certified_in(options: &ArgMatches<'_>) -> Option<Command>
    ensures { result ≡ certified_in (found_by options.now) }
{
    let seed = seed_in(options)?;
    let draw = draw_of(word_in(options, "draw")?)?;
    let runs = runs_in(options)?;
    let harts = flag_of(word_in(options, "harts")?);
    let safety = flag_of(word_in(options, "safety")?);
    Some(Command::Queue {
        seed,
        draw,
        runs,
        harts,
        safety,
    })
}

/// The runs that `ring` is to make, and of which channel.
fn ring_in(options: &ArgMatches<'_>) -> Option<Command>
    ensures { result ≡ ring_in (found_by options.now) }
{
    let seed = seed_in(options)?;
    let draw = draw_of(word_in(options, "draw")?)?;
    let runs = runs_in(options)?;
    let place = place_in(options)?;
    Some(Command::Ring {
        seed,
        draw,
        runs,
        place,
    })
}

/// The picture that is to be drawn.
fn chart_in(options: &ArgMatches<'_>) -> Option<Command>
    ensures { result ≡ chart_in (found_by options.now) }
{
    let style = style_of(word_in(options, "svg")?);
    let selection = selection_of(word_in(options, "memory")?);
    Some(Command::Machine(MachineCommand::Chart { style, selection }))
}

/// Which rows are drawn.
fn selection_of(text: &str) -> Selection
    ensures { result ≡ selection_given text.now }
{
    if flag_of(text) {
        Selection::MemoryRows
    } else {
        Selection::EveryRow
    }
}

fn style_of(text: &str) -> Style
    ensures { result ≡ style_given text.now }
{
    if flag_of(text) {
        Style::Svg
    } else {
        Style::Text
    }
}

/// Whether a test is shown as a steps text.
fn show_in(options: &ArgMatches<'_>) -> Option<Command>
    ensures { result ≡ show_in (found_by options.now) }
{
    let steps = flag_of(word_in(options, "steps")?);
    Some(Command::Machine(MachineCommand::Show { steps }))
}

/// Where a channel's blocks lie.
fn place_in(options: &ArgMatches<'_>) -> Option<BlockPlace>
    ensures place { result ≡ place_in (found_by options.now) }
    ensures fields { (place : BlockPlace) → result ≡ Some place → SayPlace (found_by options.now) place }
{
    let slots = number_in(options, "ring", 0, u32::MAX)?;
    let base = number_in(options, "base", 0, u32::MAX)?;
    let stride = number_if_given(word_in(options, "stride"))?;
    Some(BlockPlace {
        slots,
        base,
        stride,
    })
}

/// The channel that is to run.
fn channel_in(options: &ArgMatches<'_>) -> Option<Command>
    ensures { result ≡ channel_in (found_by options.now) }
{
    let kind = ring_of(word_in(options, "kind")?)?;
    let place = place_in(options)?;
    let finish = flag_of(word_in(options, "finish")?);
    Some(Command::Machine(MachineCommand::Channel {
        kind,
        place,
        finish,
    }))
}

/// The channel of a user's programs that is to run. It isn't finished by a plan.
fn own_in(options: &ArgMatches<'_>) -> Option<Command>
    ensures { result ≡ own_in (found_by options.now) }
{
    let place = place_in(options)?;
    let finish = word_in(options, "finish")?;
    if flag_of(finish) {
        return None;
    }
    Some(Command::UserChannel { place })
}

/// The number of 32 bits, if one is said; none where that is no such number.
fn number_if_given(text: Option<&str>) -> Option<Option<u32>>
    ensures { result ≡ number_if_given (option_map (λ asked. asked.now) text.entry) }
{
    match text {
        Some(asked) => Some(Some(count_of(asked, 0, u32::MAX)?)),
        None => Some(None),
    }
}

/// The bytes that are asked about, if any are; none where the text names no bytes.
fn bytes_if_given(text: Option<&str>) -> Option<Option<&str>>
    ensures { option_map (option_map (λ bytes. bytes.now)) result ≡ bytes_if_given (option_map (λ asked. asked.now) text.entry) }
{
    match text {
        Some(asked) if is_bytes(asked) => Some(Some(asked)),
        Some(_) => None,
        None => Some(None),
    }
}

/// Whether a flag with this value is given.
fn flag_of(text: &str) -> bool
    ensures { result ≡ flag_given text.now }
{
    text == "true"
}

fn ring_of(text: &str) -> Option<Ring>
    ensures { result ≡ ring_given text.now }
{
    match text {
        "lamport" => Some(Ring::Lamport),
        "fastforward" => Some(Ring::FastForward),
        "cached" => Some(Ring::LamportCached),
        _ => None,
    }
}

fn draw_of(text: &str) -> Option<Draw>
    ensures { result ≡ draw_given text.now }
{
    match text {
        "uniform" => Some(Draw::Uniform),
        "bursts" => Some(Draw::Bursts),
        _ => None,
    }
}

fn queue_kind_of(text: &str) -> Option<QueueKind>
    ensures { result ≡ queue_kind_given text.now }
{
    match text {
        "lamport" => Some(QueueKind::Lamport),
        "cached" => Some(QueueKind::Cached),
        "fastforward" => Some(QueueKind::FastForward),
        _ => None,
    }
}

/// The word in this place, or after this option.
fn word_in<'a>(options: &ArgMatches<'a>, id: &str) -> Option<&'a str>
    ensures { option_map (λ word. word.now) result ≡ found_by options.now id.now }
{
    options.get_str(id)
}

/// The number from `least` to `most` in this place, or after this option.
fn number_in(options: &ArgMatches<'_>, name: &str, least: u32, most: u32) -> Option<u32>
    ensures { result ≡ number_at (found_by options.now) name.now least most }
{
    count_of(word_in(options, name)?, least, most)
}

fn capacity_of(text: &str) -> Option<Capacity>
    ensures { result ≡ capacity_given text.now }
{
    match text {
        "1" => Some(Capacity::One),
        "2" => Some(Capacity::Two),
        "4" => Some(Capacity::Four),
        "16" => Some(Capacity::Sixteen),
        _ => None,
    }
}
