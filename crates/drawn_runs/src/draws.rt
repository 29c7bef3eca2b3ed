//! How the events of runs are drawn: each by itself, or in bursts of one hart.

ghost use Rattle.std.specs.Prelude.{◌≡◌, ◌≤◌, OnOk, OnErr};
ghost use Rattle.recorder.specs.Drawing.{drawn, drawn_words, left_after};
ghost use Rattle.step_machine.specs.declared.opening.TheConstants.{MAX_HARTS};
ghost use Rattle.drawn_runs.specs.Draws.{acted, burst_event, burst_after, burst_by, burst_of, event_by, events_by};

use rand_core::Rng;
use recorder::{draw, event_of};
use std::alloc::AllocError;
use step_machine::Event;

/// How the events of a run are drawn, each by one word of 32 bits.
#[derive(Clone, Copy)]
pub enum Draw {
    /// Each by itself: all acts and landings of all harts alike, so that the harts stay about level.
    Uniform,
    /// In bursts, in which one hart acts many times, so that it gets far ahead of the others.
    Bursts,
}

/// How many acts a burst has: one of these, all alike.
pub const ACTS: [u32; 7] = [1, 1, 2, 5, 20, 100, 400];

/// A burst under way.
#[derive(Clone, Copy)]
pub struct Burst {
    /// Whose it is.
    pub hart: u32,
    /// How many acts of it are left.
    pub left: u32,
    /// Whether one word of 2 draws a landing of the hart in place of an act, or one of 10.
    pub lands_often: bool,
}

/// The burst before the first word.
pub const NO_BURST: Burst = Burst {
    hart: 0,
    left: 0,
    lands_often: false,
};

/// The burst that a word begins.
fn burst_of(harts: u32, word: u32) -> Burst
    requires { 1 ≤ harts }
    ensures { result ≡ burst_of harts word }
{
    let rest = word / harts;
    Burst {
        hart: word % harts,
        left: ACTS[(rest % 7) as usize],
        lands_often: rest / 7 % 2 == 0,
    }
}

/// The burst after one act of it.
fn acted(burst: Burst) -> Burst
    ensures { result ≡ acted burst }
{
    Burst {
        left: burst.left.saturating_sub(1),
        ..burst
    }
}

/// The event that a word draws in a burst, and the burst after it.
fn next(harts: u32, burst: Burst, word: u32) -> (Event, Burst)
    requires { 1 ≤ harts }
    ensures { result ≡ (burst_event harts burst word, burst_after harts burst word) }
{
    if burst.left == 0 {
        let begun = burst_of(harts, word);
        return (Event::Act(begun.hart), acted(begun));
    }
    let once_in = if burst.lands_often { 2 } else { 10 };
    if word % once_in == 0 {
        (Event::Land(burst.hart), burst)
    } else {
        (Event::Act(burst.hart), acted(burst))
    }
}

/// The event that the next word of a run draws, and the burst after it: [`NO_BURST`] comes before the first word, and
/// stays where each event is drawn by itself.
pub fn next_by(by: Draw, harts: u32, burst: Burst, word: u32) -> (Event, Burst)
    requires some_hart { 1 ≤ harts }
    requires most_harts { harts ≤ MAX_HARTS }
    ensures { result ≡ (event_by by harts burst word, burst_by by harts burst word) }
{
    match by {
        Draw::Uniform => (event_of(harts, word), burst),
        Draw::Bursts => next(harts, burst, word),
    }
}

/// As [`draw`], in bursts.
fn draw_bursts<R: Rng>(
    events: &mut Vec<Event>,
    generator: &mut R,
    harts: u32,
    n: u32,
) -> Result<(), AllocError>
    requires some_hart { 1 ≤ harts }
    requires most_harts { harts ≤ MAX_HARTS }
    ensures drawn { OnOk result (events.new.items ≡ events_by Draw.Bursts harts (drawn_words n (R.stream generator.old))) }
    ensures rest { OnOk result (R.stream generator.new ≡ left_after n (R.stream generator.old)) }
    ensures err { OnErr result (generator.new ≡ generator.old) }
{
    events.clear();
    events.reserve(n as usize)?;
    let mut burst = NO_BURST;
    for _ in 0..n {
        let (event, after) = next(harts, burst, generator.next_u32());
        burst = after;
        events.push_reserved(event);
    }
    Ok(())
}

/// `n` events of `harts` harts, 1 to 64, in the place of what a vector holds, each drawn by one word of 32 bits. If the vector
/// can't take them, no word is drawn.
pub fn draw_by<R: Rng>(
    by: Draw,
    events: &mut Vec<Event>,
    generator: &mut R,
    harts: u32,
    n: u32,
) -> Result<(), AllocError>
    requires some_hart { 1 ≤ harts }
    requires most_harts { harts ≤ MAX_HARTS }
    ensures drawn { OnOk result (events.new.items ≡ events_by by harts (drawn_words n (R.stream generator.old))) }
    ensures rest { OnOk result (R.stream generator.new ≡ left_after n (R.stream generator.old)) }
    ensures err { OnErr result (generator.new ≡ generator.old) }
{
    match by {
        Draw::Uniform => draw(events, generator, harts, n),
        Draw::Bursts => draw_bursts(events, generator, harts, n),
    }
}
