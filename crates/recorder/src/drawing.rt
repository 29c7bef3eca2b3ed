//! Drawing schedules from a generator.

ghost use Rattle.std.specs.Prelude.{◌≡◌, ◌≤◌, length, map, IfOk, OnOk, OnErr};
ghost use Rattle.recorder.specs.Schedule.{OfHarts};
ghost use Rattle.recorder.specs.Drawing.{drawn, drawn_words, left_after};
ghost use Rattle.step_machine.specs.declared.opening.TheConstants.{MAX_HARTS};

use rand_core::Rng;
use std::alloc::{AllocError, Global};
use step_machine::events::Event;

/// The event of `harts` harts, 1 to 64, that a word draws.
#[inline(always)]
pub fn event_of(harts: u32, word: u32) -> Event
    requires some_hart { 1 ≤ harts }
    requires most_harts { harts ≤ MAX_HARTS }
    ensures { result ≡ drawn harts word }
{
    let number = word % (2 * harts);
    if number < harts {
        Event::Act(number)
    } else {
        Event::Land(number - harts)
    }
}

/// `n` events of `harts` harts, 1 to 64, each drawn by one word of 32 bits.
///
/// A word draws the event of the number that it leaves modulo twice the harts: the act of that hart,
/// or from `harts` on the landing of the hart that is `harts` less. Where memory runs out, the
/// generator is left as it was.
pub fn seeded<R: Rng>(
    alloc: Global,
    generator: &mut R,
    harts: u32,
    n: u32,
) -> Result<Vec<Event>, AllocError>
    requires some_hart { 1 ≤ harts }
    requires most_harts { harts ≤ MAX_HARTS }
    ensures drawn { IfOk result (λ events. events.items ≡ map (drawn harts) (drawn_words n (R.stream generator.old))) }
    ensures rest { OnOk result (R.stream generator.new ≡ left_after n (R.stream generator.old)) }
    ensures err { OnErr result (generator.new ≡ generator.old) }
    ensures harts { IfOk result (λ events. OfHarts events.items) }
    ensures len { IfOk result (λ events. length events.items ≡ n) }
{
    let mut events = Vec::new(alloc);
    draw(&mut events, generator, harts, n)?;
    Ok(events)
}

/// The same in the place of what a vector holds, so that the room that it has serves again.
pub fn draw<R: Rng>(
    events: &mut Vec<Event>,
    generator: &mut R,
    harts: u32,
    n: u32,
) -> Result<(), AllocError>
    requires some_hart { 1 ≤ harts }
    requires most_harts { harts ≤ MAX_HARTS }
    ensures drawn { OnOk result (events.new.items ≡ map (drawn harts) (drawn_words n (R.stream generator.old))) }
    ensures rest { OnOk result (R.stream generator.new ≡ left_after n (R.stream generator.old)) }
    ensures err { OnErr result (generator.new ≡ generator.old) }
    ensures harts { OnOk result (OfHarts events.new.items) }
    ensures len { OnOk result (length events.new.items ≡ n) }
{
    // each call is a loop of its own, in which a remainder by a constant costs no division
    match harts {
        1 => put(events, generator, 1, n),
        2 => put(events, generator, 2, n),
        3 => put(events, generator, 3, n),
        4 => put(events, generator, 4, n),
        _ => put(events, generator, harts, n),
    }
}

#[inline(always)]
#[tactic(auto, unfolding(crate::specs::Drawing::drawn_words, crate::specs::Drawing::left_after))]
fn put<R: Rng>(
    events: &mut Vec<Event>,
    generator: &mut R,
    harts: u32,
    n: u32,
) -> Result<(), AllocError>
    requires some_hart { 1 ≤ harts }
    requires most_harts { harts ≤ MAX_HARTS }
    ensures drawn { OnOk result (events.new.items ≡ map (drawn harts) (drawn_words n (R.stream generator.old))) }
    ensures rest { OnOk result (R.stream generator.new ≡ left_after n (R.stream generator.old)) }
    ensures err { OnErr result (generator.new ≡ generator.old) }
    ensures harts { OnOk result (OfHarts events.new.items) }
    ensures len { OnOk result (length events.new.items ≡ n) }
{
    // room comes first, so that no word is drawn in vain
    events.clear();
    events.reserve(n as usize)?;
    for _ in 0..n {
        events.push_reserved(event_of(harts, generator.next_u32()));
    }
    Ok(())
}
