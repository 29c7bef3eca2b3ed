//! Which harts are stopped, for which reason, and how often.

ghost use Rattle.std.specs.Prelude.{◌≡◌, ◌+◌, ◌<◌, false, min, length, IfSome, None, OnOk, replicate, slice_index, slice_set};
ghost use Rattle.step_machine.specs.Positions.{position_of};
ghost use Rattle.sampling.specs.inner.Stops.{MOST_TIMES, NotesStops, TakesStops, first_stopped, stop_place};
ghost use Rattle.sampling.specs.declared.stops.TheConstants.{PLACES};

use drawn_runs::progress::Progress;
use hart::{Status, Stop};
use std::alloc::AllocError;
use std::marker::Model;
use step_machine::MachineState;

/// How many reasons there are.
const REASONS: usize = 8;

/// How many places a table has: one for each reason of each of 64 harts, which is how many a machine has at most.
pub const PLACES: usize = 64 * REASONS;

/// A hart that is stopped, and why.
#[derive(Clone, Copy, PartialEq, Eq)]
pub struct Stopped {
    pub hart: u32,
    pub why: Stop,
}

/// How often each hart is stopped for each reason. A time after the 4,294,967,295th isn't counted.
#[derive(Drop)]
pub struct Stops {
    /// Of hart 0 the times of each reason by the reasons' numbers, and then those of each further hart.
    times: [u32; PLACES],
}

impl Model for Stops {
    ghost use Rattle.std.specs.Prelude.{List, ℕ};

    ghost Value = { List ℕ };

    ghost view = { λ s. s.times };
}

/// Where a hart's reason stands.
fn place_of(stopped: Stopped) -> usize
    ensures { result ≡ stop_place stopped }
{
    let reason = match stopped.why {
        Stop::Illegal => 0,
        Stop::Misaligned => 1,
        Stop::SubWord => 2,
        Stop::OutOfRange => 3,
        Stop::MisalignedJump => 4,
        Stop::NoCode => 5,
        Stop::UnknownCall => 6,
        Stop::Break => 7,
    };
    stopped.hart as usize * REASONS + reason
}

/// The hart and the reason that stand at a place.
fn stopped_at(place: usize) -> Stopped
    requires { place < PLACES }
    ensures { stop_place result ≡ place }
{
    let why = match place % REASONS {
        0 => Stop::Illegal,
        1 => Stop::Misaligned,
        2 => Stop::SubWord,
        3 => Stop::OutOfRange,
        4 => Stop::MisalignedJump,
        5 => Stop::NoCode,
        6 => Stop::UnknownCall,
        _ => Stop::Break,
    };
    Stopped {
        hart: (place / REASONS) as u32,
        why,
    }
}

/// The time at a place, or 0 where there is none.
fn time_at(times: &[u32], place: usize) -> u32
    ensures { result ≡ slice_index times.now place }
{
    match times.get(place) {
        Some(time) => *time,
        None => 0,
    }
}

fn set_time(times: &mut [u32], place: usize, new: u32)
    ensures { times.new ≡ slice_set times.old place new }
{
    if place < times.len() {
        times[place] = new;
    }
}

impl Stops {
    /// None is stopped.
    pub fn new() -> Stops
        ensures { result ≡ replicate PLACES 0 }
    {
        Stops { times: [0; PLACES] }
    }

    /// Adds runs to those that end with the hart stopped.
    pub fn note(&mut self, stopped: Stopped, more: u32)
        ensures { self.new ≡ slice_set self.old (stop_place stopped) (min (slice_index self.old (stop_place stopped) + more) MOST_TIMES) }
    {
        let place = place_of(stopped);
        let times = time_at(&self.times, place).saturating_add(more);
        set_time(&mut self.times, place, times);
    }

    /// Counts that each of these harts is stopped once more.
    #[tactic(auto, using(crate::proofs::TransitionLaws::noted_more))]
    pub fn note_each(&mut self, stopped: &[Stopped])
        ensures count { length self.new ≡ length self.old }
        ensures times { NotesStops false stopped.now self.old self.new }
    {
        for one in stopped {
            self.note(*one, 1);
        }
    }

    /// Takes in what was counted elsewhere.
    pub fn take_in(&mut self, later: &Stops)
        ensures count { length self.new ≡ length self.old }
        ensures times { TakesStops later.now self.old self.new }
    {
        for place in 0..PLACES {
            if let Some((stopped, times)) = later.counted(place) {
                self.note(stopped, times);
            }
        }
    }

    /// The hart and the reason that stand at a place of [`PLACES`], and how often that hart is stopped for it, if it is.
    pub fn counted(&self, place: usize) -> Option<(Stopped, u32)>
        requires { place < PLACES }
        ensures some { IfSome result (λ counted. (stop_place counted.0 ≡ place) × (counted.1 ≡ slice_index self.now place)) }
        ensures none { result ≡ None → slice_index self.now place ≡ 0 }
    {
        let times = self.times[place];
        if times == 0 {
            return None;
        }
        Some((stopped_at(place), times))
    }

    /// Reports each hart that was stopped, with each reason and how often.
    pub fn tell<P: Progress>(&self, progress: &mut P) {
        for place in 0..PLACES {
            if let Some((Stopped { hart, why }, times)) = self.counted(place) {
                progress.stopped(hart, why, times);
            }
        }
    }
}

/// Which harts of the machine are stopped, in the order of their numbers.
#[tactic(auto, using(crate::proofs::TransitionLaws::first_more))]
pub fn stopped_into<const B: usize, const M: usize>(
    stopped: &mut Vec<Stopped>,
    machine: &MachineState<B, M>,
) -> Result<(), AllocError>
    ensures { OnOk result (stopped.new.items ≡ first_stopped (position_of machine.now) (min (length machine.now.harts) 64)) }
{
    stopped.clear();
    for hart in 0..machine.harts() {
        if let Status::Stopped(why) = machine.status(hart) {
            stopped.push(Stopped { hart, why })?;
        }
    }
    Ok(())
}
