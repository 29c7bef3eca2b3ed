//! Openings, events and entries, and what compares.

use drawn_runs::progress::Progress;
use hart::Stop;
use std::alloc::{AllocError, Global};
use step_machine::{Entry, Event, HartOpening, Opening};

pub const A0: Event = Event::Act(0);

pub const A1: Event = Event::Act(1);

pub const L0: Event = Event::Land(0);

pub const L1: Event = Event::Land(1);

/// The registers of a hart that opens with 0 in all of them.
pub const ZEROS: &[(u8, u32)] = &[];

/// A hart with these words of code and these registers; all others are 0.
fn hart_opening(
    alloc: Global,
    code: &[u32],
    settings: &[(u8, u32)],
) -> Result<HartOpening, AllocError> {
    let mut registers = [0; 32];
    for (number, value) in settings {
        if let Some(register) = registers.get_mut(*number as usize) {
            *register = *value;
        }
    }
    Ok(HartOpening {
        code: Vec::from_slice(alloc, code)?,
        registers,
        inbox: Vec::new(alloc),
    })
}

/// A hart for each list of registers, all with this code, over these first words of memory.
pub fn opening_of(
    alloc: Global,
    code: &[u32],
    harts: &[&[(u8, u32)]],
    words: &[u32],
) -> Result<Opening, AllocError> {
    let mut openings = Vec::new(alloc);
    for settings in harts {
        openings.push(hart_opening(alloc, code, settings)?)?;
    }
    Ok(Opening {
        harts: openings,
        words: Vec::from_slice(alloc, words)?,
    })
}

/// Store buffering: each hart stores 1 to a word of its own and then loads the other's.
pub fn store_buffering(alloc: Global) -> Result<Opening, AllocError> {
    // sw x5,0(x6); lw x7,0(x8)
    let code = [0x0053_2023, 0x0004_2383];
    opening_of(alloc, &code, &[&[(5, 1), (8, 4)], &[(5, 1), (6, 4)]], &[])
}

/// Both harts of store buffering load before a store lands.
pub const BOTH_READ_0: [Event; 6] = [A0, A1, A0, A1, L0, L1];

/// What they do then.
pub fn both_read_0() -> [Entry; 6] {
    [
        store(0, 0, 1),
        store(1, 4, 1),
        load(0, 4, 0),
        load(1, 0, 0),
        land(0),
        land(1),
    ]
}

pub fn load(hart: u32, addr: u32, value: u32) -> Entry {
    Entry::Load {
        hart,
        addr,
        width: 4,
        value,
    }
}

pub fn store(hart: u32, addr: u32, value: u32) -> Entry {
    Entry::Store {
        hart,
        addr,
        width: 4,
        value,
    }
}

/// What `assert_same!` expects.
pub fn same<T: PartialEq + Drop>(left: T, right: T) -> Result<(), (T, T)> {
    (left == right).then_some(()).ok_or((left, right))
}

pub fn amo(hart: u32, addr: u32, old: u32, new: u32) -> Entry {
    Entry::Amo {
        hart,
        addr,
        old,
        new,
    }
}

pub fn full_fence(hart: u32) -> Entry {
    Entry::Fence { hart, full: true }
}

pub fn land(hart: u32) -> Entry {
    Entry::Land { hart }
}

/// Wants no report.
#[derive(Drop)]
pub struct NoProgress;

impl Progress for NoProgress {
    fn next_round(&mut self, left: u32) -> u32 {
        left
    }

    fn report(&mut self, _done: u32, _runs: u32, _outcomes: Option<usize>) {}

    fn stopped(&mut self, _hart: u32, _why: Stop, _runs: u32) {}

    fn end(&mut self) {}
}
