//! An opening, a run of it, and what each of its events does, worked out by hand.

use std::alloc::{AllocError, Global};
use step_machine::{Entry, Event, HartOpening, Opening, Outcome};

pub const A0: Event = Event::Act(0);

pub const A1: Event = Event::Act(1);

pub const L0: Event = Event::Land(0);

pub const L1: Event = Event::Land(1);

pub const INNER: Entry = Entry::Inner { hart: 0 };

pub const STORE: Entry = Entry::Store {
    hart: 0,
    addr: 0,
    width: 4,
    value: 1,
};

pub const LAND: Entry = Entry::Land { hart: 0 };

pub const LOAD: Entry = Entry::Load {
    hart: 1,
    addr: 0,
    width: 4,
    value: 1,
};

pub const EVENTS: [Event; 6] = [A0, A0, L0, A1, L1, A0];

pub const OUTCOMES: [Outcome; 6] = [
    Outcome::Did(INNER),
    Outcome::Did(STORE),
    Outcome::Did(LAND),
    Outcome::Did(LOAD),
    Outcome::Over,
    Outcome::Over,
];

/// A hart with this code.
fn hart_with(alloc: Global, code: &[u32]) -> Result<HartOpening, AllocError> {
    Ok(HartOpening {
        code: Vec::from_slice(alloc, code)?,
        registers: [0; 32],
        inbox: Vec::new(alloc),
    })
}

/// The first hart counts in x5 and stores it at word 0, the second loads that word.
pub fn count_and_store(alloc: Global) -> Result<Opening, AllocError> {
    let mut harts = Vec::new(alloc);
    // addi x5,x0,1; sw x5,0(x6)
    harts.push(hart_with(alloc, &[0x0010_0293, 0x0053_2023])?)?;
    // lw x7,0(x6)
    harts.push(hart_with(alloc, &[0x0003_2383])?)?;
    let words = Vec::new(alloc);
    Ok(Opening { harts, words })
}

/// Store buffering: each hart stores 1 to a word of its own and then loads the other's.
pub fn store_buffering(alloc: Global) -> Result<Opening, AllocError> {
    let mut harts = Vec::new(alloc);
    for (own, other) in [(0, 4), (4, 0)] {
        // sw x5,0(x6); lw x7,0(x8)
        let mut hart = hart_with(alloc, &[0x0053_2023, 0x0004_2383])?;
        hart.registers[5] = 1;
        hart.registers[6] = own;
        hart.registers[8] = other;
        harts.push(hart)?;
    }
    let words = Vec::new(alloc);
    Ok(Opening { harts, words })
}
