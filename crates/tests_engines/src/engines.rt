//! The engines under one call.

use crate::devices::{Reader, Writer};
use callers::{Queue, QueueKind, callers_engine};
use channel_engines::channel::channel_engine;
use channel_engines::ring::ring_engine;
use channel_engines::user_channel::user_channel_engine;
use checking::check_engine;
use code_engines::asm::asm_engine;
use code_engines::dis::dis_engine;
use code_engines::steps::steps_engine;
use debugger::debug::debug_engine;
use drawn_runs::progress::Progress;
use drawn_runs::{Draw, Runs, Sample};
use engine_support::fault::Fault;
use finding::{SearchProgress, find_engine};
use hart::Stop;
use lamport_ring::Lamport;
use poll_close::BlockPlace;
use rand_pcg::Pcg32;
use run_engines::moving::move_engine;
use run_engines::replay::replay_engine;
use run_engines::run::run_engine;
use run_engines::threads::threads_engine;
use sampling::trials::{Unfinished, try_engine};
use std::io::BufReader;
use std::sync::Wait;
use std::thread::Threads;
use view_engines::charting::{Selection, Style, chart_engine};
use view_engines::showing::{Form, show_engine};
use view_engines::shrinking::shrink_engine;

/// An engine, with buffers of 4 pairs and 4,096 words of memory.
#[derive(Clone, Copy)]
pub enum Engine {
    Asm,
    /// One run of Lamport's queue of 2 slots at 64, from hart 0 to hart 1.
    Callers,
    /// As text.
    Chart,
    /// A Lamport ring of 2 slots.
    Channel,
    Check,
    Debug,
    Dis,
    /// Among 1,000 states.
    Find,
    Move,
    /// A ring of 2 slots with a user's programs.
    UserChannel,
    Replay,
    Run,
    /// As a table.
    Show,
    Shrink,
    Steps,
    /// Threads of no turn.
    Threads,
    /// One run of four events, drawn by the generator of PCG's own demonstration.
    Try,
    /// The same run of a channel over rings of 2 slots.
    Ring,
}

/// What the engines read, in their order. Most read fewer than four.
#[derive(Drop)]
pub struct Inputs<'a> {
    pub first: Reader<'a>,
    pub second: Reader<'a>,
    pub third: Reader<'a>,
    pub fourth: Reader<'a>,
}

impl Inputs<'_> {
    /// Whether a call failed.
    pub fn failed(&self) -> bool {
        self.first.failed() || self.second.failed() || self.third.failed() || self.fourth.failed()
    }
}

const RING: BlockPlace = BlockPlace {
    slots: 2,
    base: 0,
    stride: None,
};

const QUEUE: Queue = Queue {
    kind: QueueKind::Lamport,
    base: 64,
    slots: 2,
    sender: 0,
    receiver: 1,
};

/// One run.
fn one_run(generator: &Pcg32) -> Sample<'_, Pcg32> {
    Sample {
        draw: Draw::Uniform,
        generator,
        runs: Runs {
            skip: 0,
            number: 1,
            length: 4,
            jobs: 1,
        },
    }
}

/// Nobody waits for the runs, or for the search.
#[derive(Drop)]
struct Nobody;

impl Progress for Nobody {
    fn next_round(&mut self, left: u32) -> u32 {
        left
    }

    fn report(&mut self, _done: u32, _runs: u32, _outcomes: Option<usize>) {}

    fn stopped(&mut self, _hart: u32, _why: Stop, _runs: u32) {}

    fn end(&mut self) {}
}

impl SearchProgress for Nobody {
    fn report(&mut self, _states: u32, _depth: u32) {}

    fn shows_stops(&self) -> bool {
        false
    }

    fn stopped(&mut self, _hart: u32, _why: Stop) {}

    fn end(&mut self) {}
}

/// How an engine ends.
pub fn answer(
    rt: &(impl AllocGlobal + Threads + Wait + Sync),
    engine: Engine,
    inputs: &mut Inputs,
    writer: &mut Writer,
) -> Result<(), Fault> {
    let alloc = rt.alloc();
    let Inputs {
        first,
        second,
        third,
        fourth,
    } = inputs;
    match engine {
        Engine::Asm => asm_engine(alloc, first, writer),
        Engine::Callers => {
            let generator = Pcg32::new(42, 54);
            callers_engine::<4, 4096, _, _, _, _, _>(
                rt,
                alloc,
                first,
                QUEUE,
                &one_run(&generator),
                &mut Nobody,
                writer,
            )
            .map(|_| ())
        }
        Engine::Chart => {
            chart_engine::<4, 4096, _, _, _>(
                alloc,
                Style::Text,
                Selection::EveryRow,
                first,
                second,
                writer,
            )
        }
        Engine::Channel => {
            channel_engine::<Lamport, 2, 4096, Reader, Reader, Writer>(
                alloc, RING, false, first, second, writer,
            )
        }
        Engine::Check => {
            let mut records = BufReader::with_capacity(alloc, 8, second).map_err(
                |_| Fault::NoMemory,
            )?;
            check_engine::<4, 4096, _, _, _>(alloc, first, &mut records, writer).map(|_| ())
        }
        Engine::Debug => {
            let mut commands = BufReader::with_capacity(alloc, 8, third).map_err(
                |_| Fault::NoMemory,
            )?;
            debug_engine::<4, 4096, _, _, _, _>(alloc, first, second, &mut commands, writer)
        }
        Engine::Dis => dis_engine(alloc, first, writer),
        Engine::Find => {
            find_engine::<4, 4096, _, _, _>(alloc, first, 1000, &mut Nobody, writer).map(|_| ())
        }
        Engine::Move => move_engine::<4, 4096, _, _, _>(alloc, first, second, writer),
        Engine::UserChannel => {
            user_channel_engine::<4, 4096, _, _, _, _, _>(
                alloc, RING, first, second, third, fourth, writer,
            )
        }
        Engine::Replay => replay_engine::<4, 4096, _, _, _>(alloc, first, second, writer),
        Engine::Run => run_engine::<4, 4096, _, _, _>(alloc, first, second, writer).map(|_| ()),
        Engine::Show => show_engine(alloc, Form::Table, first, writer),
        Engine::Shrink => shrink_engine::<4, 4096, _, _, _>(alloc, first, second, writer),
        Engine::Steps => steps_engine::<4, 4096, _, _>(alloc, first, writer),
        Engine::Threads => {
            threads_engine::<4, 4096, _, _, _>(rt, alloc, first, 0, writer).map(|_| ())
        }
        Engine::Try => {
            let generator = Pcg32::new(42, 54);
            try_engine::<4, 4096, _, _, _, _, _>(
                rt,
                alloc,
                first,
                Unfinished::Counted,
                &one_run(&generator),
                &mut Nobody,
                writer,
            )
            .map(|_| ())
        }
        Engine::Ring => {
            let generator = Pcg32::new(42, 54);
            ring_engine::<4, 4096, _, _, _, _, _, _, _>(
                rt,
                alloc,
                RING,
                first,
                second,
                third,
                &one_run(&generator),
                &mut Nobody,
                writer,
            )
            .map(|_| ())
        }
    }
}
