//! Whole litmus texts.

ghost use Rattle.std.specs.Prelude.{◌≡◌, ◌≤◌, length, vec_len, Ok, IfOk, All};
ghost use Rattle.std.specs.Option.{option_copied};
ghost use Rattle.texts.specs.Results.{GivesUpToMemory};
ghost use Rattle.litmus.specs.LitmusTests.{LitmusTest, IsThere, IsTest};
ghost use Rattle.litmus.specs.Formulas.{places};
ghost use Rattle.litmus_reader.specs.Faults.{fault_of, fault_in};
ghost use Rattle.litmus_reader.specs.Init.{items_of};
ghost use Rattle.litmus_reader.specs.Table.{instructions, ArePlain, AreShort};
ghost use Rattle.litmus_reader.specs.Values.{values_in};
ghost use Rattle.litmus_reader.specs.Condition.{condition_of};
ghost use Rattle.litmus_reader.specs.Reading.{content_of, content, content_below, content_after, content_at, test_at};
ghost use Rattle.litmus_reader.specs.Grammar.{HasPlainCode, IsTestOf};
ghost use Rattle.step_machine.specs.declared.opening.TheConstants.{MAX_HARTS};

use crate::condition::{FinalCondition, read_condition};
use crate::faults::{LitmusError, LitmusFault};
use crate::header::{after_brace, after_header};
use crate::init::{Init, read_items};
use crate::locations::Locations;
use crate::marks::{Mark, cut_at_line};
use crate::opening::{Values, harts_of, pad, values_of};
use crate::refusals::{Refusal, error_of};
use crate::table::read_table;
use litmus::Test;
use litmus_tokens::cleaned;
use std::alloc::{AllocError, Global};
use texts::cutting::cut_at;

fn assemble(
    alloc: Global,
    codes: Vec<Vec<u32>>,
    values: Values,
    locations: Locations,
    final_condition: FinalCondition,
) -> Result<Test, AllocError>
    requires some { 1 ≤ vec_len codes }
    requires few { vec_len codes ≤ MAX_HARTS }
    requires short { AreShort (instructions codes) }
    requires plain { ArePlain codes.items }
    requires harts { vec_len values.registers ≡ vec_len codes }
    requires words { vec_len values.words ≤ length locations }
    requires there { All (IsThere (vec_len codes) (length locations)) (places final_condition.condition) }
    ensures exact { IfOk result (λ test. content_of test ≡ content (instructions codes) (values_in values) (condition_of locations final_condition)) }
    ensures plain { IfOk result (λ test. All HasPlainCode test.opening.harts) }
{
    let Values {
        registers,
        mut words,
    } = values;
    let more = locations.count() - words.len();
    pad(&mut words, more)?;
    let harts = harts_of(alloc, codes, &registers)?;
    let FinalCondition {
        quantifier,
        condition,
    } = final_condition;
    let names = locations.into_names();
    Test::new(alloc, harts, words, names, quantifier, condition)
}

/// The test whose table has this code, with the condition from its first line on.
#[tactic(auto, unfolding(crate::specs::Reading::content_below, crate::specs::Values::values_at))]
fn test_below(
    alloc: Global,
    init: Init,
    codes: Vec<Vec<u32>>,
    condition: Option<&[u8]>,
) -> Result<Test, Refusal>
    requires some { 1 ≤ vec_len codes }
    requires few { vec_len codes ≤ MAX_HARTS }
    requires short { AreShort (instructions codes) }
    requires plain { ArePlain codes.items }
    ensures exact { GivesUpToMemory fault_in content_of result (content_below (items_of init) (instructions codes) (option_copied condition.entry)) }
    ensures plain { IfOk result (λ test. All HasPlainCode test.opening.harts) }
{
    let Init {
        items,
        mut locations,
    } = init;
    let harts = codes.len();
    let values = values_of(alloc, harts, locations.count(), &items)?;
    let Some(text) = condition else {
        return Err(LitmusFault::BadCondition.at_end());
    };
    let final_condition = read_condition(alloc, text, harts, &mut locations)?;
    Ok(assemble(alloc, codes, values, locations, final_condition)?)
}

/// The test with this init part, with what stands after it.
#[tactic(auto, unfolding(crate::specs::Reading::content_after))]
fn test_after(alloc: Global, init: Init, text: &[u8]) -> Result<Test, Refusal>
    ensures exact { GivesUpToMemory fault_in content_of result (content_after (items_of init) text.now) }
    ensures plain { IfOk result (λ test. All HasPlainCode test.opening.harts) }
{
    let (rows, condition) = cut_at_line(Mark::Condition, text);
    let following = text.len().saturating_sub(rows.len());
    let codes = read_table(alloc, rows, following)?.finish(alloc, rows, following)?;
    test_below(alloc, init, codes, condition)
}

/// The test in a text without comments.
#[tactic(auto, unfolding(crate::specs::Reading::content_at))]
fn test_in(alloc: Global, text: &[u8]) -> Result<Test, Refusal>
    ensures exact { GivesUpToMemory fault_in content_of result (content_at text.now) }
    ensures plain { IfOk result (λ test. All HasPlainCode test.opening.harts) }
{
    let inner = after_brace(after_header(text)?)?;
    let (items, rest) = cut_at(inner, b'}');
    let following = inner.len().saturating_sub(items.len());
    let init = read_items(alloc, items, following)?;
    match rest {
        Some(rest) => test_after(alloc, init, rest),
        None => Err(LitmusFault::BadInit.at_end()),
    }
}

/// The test in a text, as [`read`] says.
#[tactic(auto, unfolding(crate::specs::Reading::test_at))]
fn cleaned_test(alloc: Global, text: &[u8]) -> Result<Test, LitmusError>
    ensures exact { GivesUpToMemory fault_of content_of result (test_at text.now) }
    ensures plain { IfOk result (λ test. All HasPlainCode test.opening.harts) }
{
    let clean = cleaned(alloc, text)?;
    match test_in(alloc, &clean) {
        Ok(test) => Ok(test),
        Err(refusal) => Err(error_of(refusal, text)),
    }
}

/// The test that a litmus text stands for.
///
/// The fault is the first one in reading order, at the line where it is met, and at the text's last
/// line where a part is missing: those of the header, `NoHeader`; of the init part, `BadInit`; of the
/// table, `BadTable`, and `BadInstr` where a cell is no statement; `BadInstr` where a label has no
/// place; `BadInit` where an item names no hart of the table; and of the condition, `BadCondition`.
/// `TooMany` comes at what passes 64 harts, 4,096 words of a hart or 1,024 locations.
#[tactic(auto, using(crate::proofs::TestGrammar::found_test, crate::proofs::TestGrammar::only_test))]
pub fn read(alloc: Global, text: &str) -> Result<Test, LitmusError>
    ensures found { IfOk result (IsTestOf text.now) }
    ensures only { (test : LitmusTest) → IsTestOf text.now test → GivesUpToMemory fault_of (λ (test : LitmusTest). test) result (Ok test) }
    ensures exact { GivesUpToMemory fault_of content_of result (test_at text.now) }
    ensures fits { IfOk result IsTest }
{
    cleaned_test(alloc, text.as_bytes())
}
