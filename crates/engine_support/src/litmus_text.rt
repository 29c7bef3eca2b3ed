//! Inputs that are litmus texts.

ghost use Rattle.std.specs.Prelude.{ℕ, IfOk, IsErr};
ghost use Rattle.std.specs.Io.KnownBytes.{IsAtEnd};
ghost use Rattle.litmus_reader.specs.Reading.{content_of};
ghost use Rattle.litmus_reader.specs.Grammar.{IsTestOf};
ghost use Rattle.engine_support.specs.Faults.{Answers};
ghost use Rattle.engine_support.specs.Inputs.{test_of, tests, TakesFew, IsRefused, Reads};
ghost use Rattle.engine_support.specs.inner.{FindsUpToReads};

use crate::fault::Fault;
use crate::input::read_text;
use litmus::Test;
use std::alloc::Global;
use std::io::Read;

/// A refusal has its line, which the clause leaves open.
#[tactic(auto, unfolding(crate::specs::Inputs::test_of))]
fn test_of_text(alloc: Global, text: &str) -> Result<Test, Fault>
    ensures found { IfOk result (λ test. IsTestOf text.now test) }
    ensures exact { (line : ℕ) × Answers content_of result (test_of line text.now) }
{
    Ok(litmus_reader::read(alloc, text)?)
}

/// The test of the input that a reader gives.
pub fn read_test<R: Read>(alloc: Global, reader: &mut R) -> Result<Test, Fault>
    ensures test { FindsUpToReads (Reads tests (R.remaining reader.old)) (λ test. test) result }
    ensures refused { IsRefused tests (R.remaining reader.old) → IsErr result }
    ensures taken { TakesFew (R.remaining reader.old) (R.remaining reader.new) }
    ensures end { IfOk result (λ test. IsAtEnd (R.remaining reader.new)) }
{
    let text = read_text(alloc, reader)?;
    test_of_text(alloc, &text)
}
