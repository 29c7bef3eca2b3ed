//! What a command line can ask for.

use chart::charts::{Selection, Style};
use drawn_runs::{Draw, Runs};
use poll_close::BlockPlace;

/// How many stores a hart's buffer holds.
#[derive(Clone, Copy)]
pub enum Capacity {
    One,
    Two,
    Four,
    Sixteen,
}

/// Where an input comes from.
#[derive(Clone, Copy)]
pub enum Input<'a> {
    Standard,
    /// The file of this path.
    File(&'a str),
}

/// A ring that is proved. KIND `own` of `channel` is none of them, but takes a user's programs.
#[derive(Clone, Copy)]
pub enum Ring {
    Lamport,
    FastForward,
    /// Lamport's ring with a cached tail.
    LamportCached,
}

/// A kind of queue whose functions code calls.
#[derive(Clone, Copy)]
pub enum QueueKind {
    Lamport,
    /// Lamport's with a cached tail.
    Cached,
    FastForward,
}

/// A queue whose functions code calls: its kind, where its block lies, how many slots it has, and which harts send and
/// receive.
#[derive(Clone, Copy)]
pub struct CalledQueue {
    pub kind: QueueKind,
    pub base: u32,
    pub slots: u32,
    pub sender: u32,
    pub receiver: u32,
}

/// What is done with a machine.
#[derive(Clone, Copy)]
pub enum MachineCommand {
    /// To run the machine that a steps text describes.
    Steps,
    /// To run a litmus test by a schedule, and to judge it.
    Run,
    /// To tell each event's outcome in a run of a litmus test by a schedule.
    Replay,
    /// To write a schedule's text of version 2, with each event's outcome in a run of a litmus test.
    Move,
    /// To leave out of a schedule what its outcome of a litmus test doesn't need.
    Shrink,
    /// To draw these rows of a litmus test's run by a schedule, as text or as SVG.
    Chart {
        style: Style,
        selection: Selection,
    },
    /// To tell what a litmus test is, or to write its opening as a steps text.
    Show {
        steps: bool,
    },
    /// To judge records of runs of a litmus test, each as soon as it is read.
    Check,
    /// To walk along a schedule's run of a litmus test, at the commands on standard input.
    Debug,
    /// To make these runs of a litmus test, by schedules that are drawn from a generator of this seed, and to write the
    /// schedule of the first that is `unfinished`, if that is asked.
    Try {
        seed: u64,
        draw: Draw,
        runs: Runs,
        unfinished: bool,
    },
    /// To make these runs of a litmus test whose harts call this queue's functions, by schedules that are drawn from a
    /// generator of this seed, and to tell what its callers owe.
    Callers {
        seed: u64,
        draw: Draw,
        runs: Runs,
        queue: CalledQueue,
    },
    /// To run a channel over lists of words by a schedule, through rings of this kind at this place, and to
    /// `finish` it by a plan.
    Channel {
        kind: Ring,
        place: BlockPlace,
        finish: bool,
    },
}

/// What is done with code, without a machine.
#[derive(Clone, Copy)]
pub enum CodeCommand {
    /// To make words of assembly.
    Asm,
    /// To name the instructions of words.
    Dis,
}

/// What is to be done.
#[derive(Clone, Copy)]
pub enum Command {
    Code(CodeCommand),
    /// To do this on a machine. It waits for no other thread.
    Machine(MachineCommand),
    /// To look for a schedule that shows what a litmus test asks about, among at most `states` states.
    Find {
        states: u32,
    },
    /// To run a litmus test with a thread for each hart and each lander, each of which makes at most `turns` calls.
    Threads {
        turns: u32,
    },
    /// To run a channel over two programs at this place by a schedule, and to tell what its receiver reports.
    UserChannel {
        place: BlockPlace,
    },
    /// To make these runs of a channel over two programs at this place, by schedules that are drawn from a generator
    /// of this seed, and to judge each.
    Ring {
        seed: u64,
        draw: Draw,
        runs: Runs,
        place: BlockPlace,
    },
    /// To tell whether a certificate shows that every run of a litmus text keeps the protocol of the certificate's queues, then whether they
    /// go on, unless `safety` alone is asked about, and what is asked of their records and of the `harts`, and otherwise whether one of
    /// these runs breaks it, by schedules that are drawn from a generator of this seed.
    Queue {
        seed: u64,
        draw: Draw,
        runs: Runs,
        harts: bool,
        safety: bool,
    },
}

/// What a command line asks for: a command, the buffers of its machine, its inputs in the order in which they are read, and the bytes
/// that are asked about.
#[derive(Clone, Copy)]
pub struct Job<'a> {
    pub command: Command,
    /// How many stores a buffer of a hart holds. A command without `--buffer` has a usual capacity here, which
    /// nothing reads.
    pub capacity: Capacity,
    pub first: Input<'a>,
    /// `None` for a command with one input.
    pub second: Option<Input<'a>>,
    /// `None` for a command with at most two inputs.
    pub third: Option<Input<'a>>,
    /// `None` for a command with at most three.
    pub fourth: Option<Input<'a>>,
    /// Which bytes of each record the sender of a queue is to write, as [`record_bytes::is_bytes`] takes them; `None` where none is asked
    /// about.
    pub written: Option<&'a str>,
    /// The same of those that its receiver is to read.
    pub read: Option<&'a str>,
    /// The same of those that it is to read at most once, in order.
    pub once: Option<&'a str>,
}
