//! Runs that are drawn once more when they are written.

ghost use Rattle.std.specs.Prelude.{◌≤◌, OnOk};
ghost use Rattle.std.specs.Io.KnownBytes.{Appends};
ghost use Rattle.recorder.specs.Drawing.{drawn_words};
ghost use Rattle.recorder.specs.Writing.{repetition_text};
ghost use Rattle.drawn_runs.specs.Draws.{events_by};
ghost use Rattle.step_machine.specs.declared.opening.TheConstants.{MAX_HARTS};
ghost use Rattle.sampling.specs.Outcomes.{schedule_text};
ghost use Rattle.sampling.specs.inner.Tallies.{name_of_run};

use crate::trials::drawn_run::DrawnRun;
use drawn_runs::Draw;
use drawn_runs::draws::{NO_BURST, next_by};
use engine_support::outcomes::FirstRun;
use rand_core::Rng;
use std::io::{self, Write};
use step_machine::Event;

impl<G: Rng + Drop> FirstRun for DrawnRun<G> {
    ghost name = { name_of_run G.Rng.stream };

    fn write_name<W: Write>(self, writer: &mut W) -> io::Result<()> {
        let mut generator = self.start;
        write_schedule(writer, self.draw, self.harts, &mut generator, self.size)
    }
}

/// Writes the token of a run of equal events.
fn write_token<W: Write>(writer: &mut W, event: Event, times: u32) -> io::Result<()>
    ensures { OnOk result (Appends (W.contents writer.old) (W.contents writer.new) (repetition_text (event, times))) }
{
    let (letter, hart) = match event {
        Event::Act(hart) => ("a", hart),
        Event::Land(hart) => ("l", hart),
    };
    if times > 1 {
        write!(writer, "{letter}{hart}*{times}")
    } else {
        write!(writer, "{letter}{hart}")
    }
}

/// Writes the tokens of the next `size` events that a generator draws so, each as it is drawn, after a space if there are any.
fn write_schedule<G: Rng, W: Write>(
    writer: &mut W,
    draw: Draw,
    harts: u32,
    generator: &mut G,
    size: u32,
) -> io::Result<()>
    requires some_hart { 1 ≤ harts }
    requires most_harts { harts ≤ MAX_HARTS }
    ensures { OnOk result (Appends (W.contents writer.old) (W.contents writer.new)
        (schedule_text (events_by draw harts (drawn_words size (G.stream generator.old))))) }
{
    if size == 0 {
        return Ok(());
    }
    writer.write_all(b" ")?;
    let (mut event, mut burst) = next_by(draw, harts, NO_BURST, generator.next_u32());
    let mut times = 1;
    for _ in 1..size {
        let (next, after) = next_by(draw, harts, burst, generator.next_u32());
        burst = after;
        if event == next {
            times += 1;
        } else {
            write_token(writer, event, times)?;
            writer.write_all(b" ")?;
            event = next;
            times = 1;
        }
    }
    write_token(writer, event, times)
}
