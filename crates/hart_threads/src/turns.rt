//! What one thread does with its seat, and how it ends.
//!
//! A hart's thread asks its gate before each turn, and ends as [`Ending::HeldBack`] where the gate answers false. A
//! lander has no gate, so it never ends so: that is its clause `free`. Else a thread ends by what its last call
//! answered, or once its turns are done.
//!
//! The clauses' words are in `specs/inner.antt`. `IsEnding n e calls`: a thread with n turns ends as e after
//! these calls. `GotOn n s t`: from seat s to seat t the hart did n instructions, or is over, or came to one that may
//! have to wait. `WhereDone e P`: P holds unless e is for want of memory or of the hart in the bank. `ActsAlone`: what
//! needs no memory is done whatever the bank answers. `Ran` is what a whole thread makes of its seat.

ghost use Rattle.std.specs.Prelude.{◌≡◌, ◌<◌, ◌≤◌, ◌+◌, ◌-◌, ◌^◌, true, false, IfOk, IsSomeAnd};
ghost use Rattle.hart_threads.specs.Seats.{SeatView, AnswersAct, AsksBank, Continues, Notes, state_in};
ghost use Rattle.hart_threads.specs.inner.{ActsAlone, GotOn, IsEnding, Ran, WhereDone, ending_by, ending_of, last_answer, no_calls};
ghost use Rattle.hart_threads.specs.declared.turns.Ending.TheVariants.{HeldBack, NoHart};

use crate::gate::Gate;
use crate::held::Held;
use crate::local::Local;
use crate::seat::Seat;
use crate::shared::Shared;
use std::alloc::AllocError;
use std::sync::Wait;
use std::thread;
use step_machine::Outcome;

/// How many calls a lander makes under one lock once its hart's thread has ended.
const CALLS_AT_ONCE: u32 = 1024;

/// How often a lander yields at most after a call that found nothing to land.
const MOST_YIELDS: u32 = 16;

/// How a thread ended.
#[derive(Clone, Copy, PartialEq, Eq)]
pub(crate) enum Ending {
    /// The gate answered false before a turn.
    HeldBack,
    /// The last call answered that the hart is over.
    Over,
    /// It made as many calls as it had turns.
    TurnsDone,
    /// The last call found no such hart in the bank.
    NoHart,
    /// The last call found no memory.
    NoMemory,
}

/// A thread's seat as it comes back, how the thread ended, and its calls.
pub(crate) type Returned<const M: usize> = (Held<M>, Ending, Calls);

/// The calls that a thread has made: how many, and what the last one answered, if it found memory.
#[derive(Clone, Copy)]
pub(crate) struct Calls {
    made: u32,
    last: Option<Outcome>,
}

impl Calls {
    fn none() -> Calls
        ensures { result ≡ no_calls }
    {
        Calls {
            made: 0,
            last: None,
        }
    }

    /// Counts one call more. How the thread ends by its answer, if it does.
    fn count(&mut self, answer: Result<Outcome, AllocError>) -> Option<Ending>
        requires { self.old.made < 2 ^ 32 - 1 }
        ensures made { self.new.made ≡ self.old.made + 1 }
        ensures last { self.new.last ≡ last_answer answer }
        ensures ending { result ≡ ending_of answer }
    {
        self.made += 1;
        match answer {
            Ok(outcome) => self.last = Some(outcome),
            Err(_) => self.last = None,
        }
        match answer {
            Ok(Outcome::Over) => Some(Ending::Over),
            Ok(Outcome::NoHart) => Some(Ending::NoHart),
            Ok(_) => None,
            Err(_) => Some(Ending::NoMemory),
        }
    }
}

/// The turns of an acting or of a landing seat. It may wait for the lock.
pub(crate) fn turns_of<G: Gate, R: Wait, const B: usize, const M: usize>(
    rt: &R,
    shared: &Shared<B, M>,
    mut held: Held<M>,
    gate: &G,
    turns: u32,
) -> Returned<M>
    ensures { Ran (G.is_open gate.now) turns held.entry.seat result.1 result.2 result.0.seat }
{
    let (ending, calls) = if held.seat.acts() {
        let ended = acting_turns(rt, shared, &mut held.seat, gate, turns);
        shared.ended.note(held.seat.hart());
        ended
    } else {
        landing_turns(rt, shared, &mut held.seat, turns)
    };
    (held, ending, calls)
}

/// Lets the hart take turns until the gate holds it back, it is over or the turns are done. The gate is asked
/// before each turn, by the turn's number.
fn acting_turns<G: Gate, R: Wait, const B: usize, const M: usize>(
    rt: &R,
    shared: &Shared<B, M>,
    seat: &mut Seat<M>,
    gate: &G,
    turns: u32,
) -> (Ending, Calls)
    requires { seat.old.acts ≡ true }
    ensures on { Continues turns seat.old seat.new }
    ensures got_on { G.is_open gate.now → WhereDone result.0 (GotOn turns seat.old seat.new) }
    ensures asks { result.0 ≡ NoHart → IsSomeAnd (state_in seat.new) AsksBank }
    ensures ends { IsEnding turns result.0 result.1 }
{
    let mut calls = Calls::none();
    while calls.made < turns {
        if !gate.pass(seat.hart(), calls.made + 1) {
            return (Ending::HeldBack, calls);
        }
        let answer = turn(rt, shared, seat);
        if let Some(ending) = calls.count(answer) {
            return (ending, calls);
        }
    }
    (Ending::TurnsDone, calls)
}

/// One instruction, as [`Shared::act`] does it, but without the lock where it needs no memory. After a turn
/// that took the lock the thread yields, so that threads which wait for the lock get it.
fn turn<R: Wait, const B: usize, const M: usize>(
    rt: &R,
    shared: &Shared<B, M>,
    seat: &mut Seat<M>,
) -> Result<Outcome, AllocError>
    requires { seat.old.acts ≡ true }
    ensures diary { Notes seat.old result seat.new }
    ensures answers { IfOk result (λ o. IsSomeAnd (state_in seat.old) (λ s. AnswersAct s o)) }
    ensures alone { IfOk result (λ o. IsSomeAnd (state_in seat.old) (λ s. ActsAlone seat.old.hart s o)) }
{
    match seat.local()? {
        Local::Did(entry) => Ok(Outcome::Did(entry)),
        Local::NeedsMemory | Local::Over => {
            let answer = shared.act(rt, seat);
            thread::yield_now();
            answer
        }
    }
}

/// Lands the hart's stores until it is over and has none, or the turns are done. After a call that found
/// nothing the lander waits longer each time, so that it takes neither the lock nor its own turns from a hart
/// that goes on. Once the hart's thread has ended no store comes, and the lander no longer waits.
fn landing_turns<R: Wait, const B: usize, const M: usize>(
    rt: &R,
    shared: &Shared<B, M>,
    seat: &mut Seat<M>,
    turns: u32,
) -> (Ending, Calls)
    requires { seat.old.acts ≡ false }
    ensures on { Continues turns seat.old seat.new }
    ensures ends { IsEnding turns result.0 result.1 }
    ensures free { result.0 ≡ HeldBack → ⊥ }
{
    let mut calls = Calls::none();
    let mut yields: u32 = 1;
    while calls.made < turns {
        let ended = shared.ended.has(seat.hart());
        let most = if ended { CALLS_AT_ONCE } else { 1 };
        let left = most.min(turns - calls.made);
        if let Some(ending) = land_calls(rt, shared, seat, left, &mut calls) {
            return (ending, calls);
        }
        yields = match calls.last {
            Some(Outcome::NothingToLand) if !ended => MOST_YIELDS.min(2 * yields),
            _ => 1,
        };
        yield_times(yields);
    }
    (Ending::TurnsDone, calls)
}

/// Up to `most` calls as [`Shared::land`] does them, under one lock, until one lands a store. How the thread
/// ends by the last of them, if it does.
fn land_calls<R: Wait, const B: usize, const M: usize>(
    rt: &R,
    shared: &Shared<B, M>,
    seat: &mut Seat<M>,
    most: u32,
    calls: &mut Calls,
) -> Option<Ending>
    requires lands { seat.old.acts ≡ false }
    requires some { 0 < most }
    requires room { calls.old.made + most < 2 ^ 32 }
    ensures lands { seat.new.acts ≡ false }
    ensures some { calls.old.made < calls.new.made }
    ensures most { calls.new.made ≤ calls.old.made + most }
    ensures on { (s : SeatView) → Continues calls.old.made s seat.old → Continues calls.new.made s seat.new }
    ensures ends { result ≡ ending_by calls.new.last }
{
    let mut locked = shared.bank.lock(rt);
    let bank = &mut *locked;
    let end = calls.made + most;
    while calls.made < end {
        let answer = seat.land_on(bank);
        let ending = calls.count(answer);
        if ending.is_some() || calls.last != Some(Outcome::NothingToLand) {
            return ending;
        }
    }
    None
}

/// Lets other threads run.
fn yield_times(count: u32) {
    for _ in 0..count {
        thread::yield_now();
    }
}
