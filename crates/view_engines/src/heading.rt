//! Inputs that are litmus texts, read with their headings.

ghost use Rattle.std.specs.Prelude.{ℕ, IfOk, IsErr};
ghost use Rattle.litmus_reader.specs.Reading.{content_of};
ghost use Rattle.litmus_reader.specs.Grammar.{IsTestOf};
ghost use Rattle.litmus_reader.specs.Headings.{IsHeading, heading_of};
ghost use Rattle.engine_support.specs.Faults.{Answers};
ghost use Rattle.engine_support.specs.Inputs.{IsRefused, Reads, test_of, tests, tests_with};
ghost use Rattle.engine_support.specs.inner.{FindsUpToReads};

use engine_support::fault::Fault;
use engine_support::input::read_text;
use litmus::Test;
use litmus_reader::{Heading, read_heading};
use std::alloc::Global;
use std::io::Read;

/// The test of a text, and the text's heading. A text with a test has one, so that only memory can be
/// missing for it.
#[tactic(auto, unfolding(engine_support::specs::Inputs::test_of))]
pub fn headed_of_text(alloc: Global, text: &str) -> Result<(Test, Heading), Fault>
    ensures test { IfOk result (λ read. IsTestOf text.now read.0) }
    ensures heading { IfOk result (λ read. IsHeading text.now (heading_of read.1)) }
    ensures exact { (line : ℕ) × Answers (λ read. content_of read.0) result (test_of line text.now) }
{
    let test = litmus_reader::read(alloc, text)?;
    match read_heading(alloc, text) {
        Ok(heading) => Ok((test, heading)),
        Err(_) => Err(Fault::NoMemory),
    }
}

/// The test and the heading of the input that a reader gives.
pub fn read_headed<R: Read>(alloc: Global, reader: &mut R) -> Result<(Test, Heading), Fault>
    ensures read { FindsUpToReads (Reads (tests_with IsHeading) (R.remaining reader.old)) (λ read. (read.0, heading_of read.1)) result }
    ensures refused { IsRefused tests (R.remaining reader.old) → IsErr result }
{
    let text = read_text(alloc, reader)?;
    headed_of_text(alloc, &text)
}
