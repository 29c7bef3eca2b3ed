//! The condition.

ghost use Rattle.std.specs.Prelude.{◌≡◌, ◌≤◌, List, [], length, All, IfOk};
ghost use Rattle.std.specs.Result.{IfErr};
ghost use Rattle.texts.specs.Results.{GivesUpToMemory};
ghost use Rattle.litmus.specs.Formulas.{Formula, places};
ghost use Rattle.litmus.specs.LitmusTests.{IsThere};
ghost use Rattle.litmus.specs.Drafting.{symbol_added, formula_of_symbols};
ghost use Rattle.litmus.specs.declared.symbols.Symbol.{Symbol};
ghost use Rattle.litmus_tokens.specs.Assignments.{place_of as named_place_of, assignment_of};
ghost use Rattle.litmus_tokens.specs.Tokens.{token_of as named_token_of, tokens_of};
ghost use Rattle.litmus_reader.specs.declared.faults.LitmusFault.TheVariants.{BadCondition};
ghost use Rattle.texts.specs.declared.errors.TextError.TheVariants.{Refused};
ghost use Rattle.litmus_reader.specs.Faults.{fault_in};
ghost use Rattle.litmus_reader.specs.Locations.{HasLocation, HasNames};
ghost use Rattle.litmus_reader.specs.Condition.{Quantified, quantified_of, quantifier_in, place_resolved};
ghost use Rattle.litmus_reader.specs.Condition.{atom_resolved, token_resolved, TokenHasNames, as_condition};
ghost use Rattle.litmus_reader.specs.Condition.{tokens_added, condition_in, condition_of};
ghost use Rattle.step_machine.specs.declared.opening.TheConstants.{MAX_HARTS};

use crate::assignments::{address_of, value_of};
use crate::faults::LitmusFault;
use crate::locations::Locations;
use crate::marks::{Mark, cut_at_line};
use crate::refusals::{Refusal, left_of};
use litmus::{Condition, ConditionDraft, ConditionError, Place, Quantifier, Symbol};
use litmus_tokens::{Assignment, Front, Location, Token, first_token};
use std::alloc::Global;
use texts::cutting::without_front;

/// A condition's quantifier. `tokens` is the text after it, of which nothing is read yet.
#[derive(Clone, Copy)]
pub struct Quantified<'a> {
    quantifier: Quantifier,
    tokens: &'a [u8],
}

fn quantified_by(quantifier: Quantifier, tokens: &[u8]) -> Option<Quantified<'_>>
    ensures { quantified_of result ≡ Some (quantifier, tokens.now) }
{
    Some(Quantified { quantifier, tokens })
}

/// The quantifier that the text's first letters are, and what follows them.
#[tactic(auto, using(std::proofs::lemmas::List::take_rest), unfolding(crate::specs::Condition::quantifier_in))]
fn quantifier_in(text: &[u8]) -> Option<Quantified<'_>>
    ensures { quantified_of result ≡ quantifier_in text.now }
{
    let line = without_front(text);
    if line.starts_with(b"exists") {
        quantified_by(Quantifier::Exists, &line[6..])
    } else if line.starts_with(b"~exists") {
        quantified_by(Quantifier::NotExists, &line[7..])
    } else if line.starts_with(b"forall") {
        quantified_by(Quantifier::ForAll, &line[6..])
    } else {
        None
    }
}

/// The place that an atom asks for, which has to be there. A new location joins the others.
#[tactic(auto, unfolding(crate::specs::Condition::place_resolved))]
fn place_of(
    locations: &mut Locations,
    location: Location<'_>,
    harts: usize,
    left: usize,
) -> Result<Place, Refusal>
    requires named { HasLocation (named_place_of location) }
    requires few { harts ≤ MAX_HARTS }
    ensures { GivesUpToMemory fault_in (λ place. (place, locations.new)) result (place_resolved harts locations.old (named_place_of location.entry)) }
{
    match location {
        Location::Register { hart, register } if hart < harts as u64 => Ok(Place::Register {
            hart: hart as u32,
            number: register.number,
        }),
        Location::Register { .. } => Err(LitmusFault::BadCondition.at(left)),
        Location::Memory(name) => {
            let index = locations.index_of(name, left)?;
            Ok(Place::Word {
                address: address_of(index),
            })
        }
    }
}

/// The atom with its place known.
#[tactic(auto, unfolding(crate::specs::Condition::atom_resolved))]
fn atom_of(
    locations: &mut Locations,
    assignment: Assignment<'_>,
    harts: usize,
    left: usize,
) -> Result<Symbol, Refusal>
    requires named { HasNames (assignment_of assignment) }
    requires few { harts ≤ MAX_HARTS }
    ensures { GivesUpToMemory fault_in (λ token. (token, locations.new)) result (atom_resolved harts locations.old (assignment_of assignment.entry)) }
{
    let place = place_of(locations, assignment.location, harts, left)?;
    let value = value_of(locations, assignment.value, left)?;
    Ok(Symbol::Is { place, value })
}

/// The token with its place known, a symbol.
#[tactic(auto, unfolding(crate::specs::Condition::token_resolved))]
fn token_of(
    locations: &mut Locations,
    token: Token<'_>,
    harts: usize,
    left: usize,
) -> Result<Symbol, Refusal>
    requires named { TokenHasNames (named_token_of token) }
    requires few { harts ≤ MAX_HARTS }
    ensures { GivesUpToMemory fault_in (λ symbol. (symbol, locations.new)) result (token_resolved harts locations.old (named_token_of token.entry)) }
{
    match token {
        Token::Is(assignment) => atom_of(locations, assignment, harts, left),
        Token::Not => Ok(Symbol::Not),
        Token::And => Ok(Symbol::And),
        Token::Or => Ok(Symbol::Or),
        Token::Open => Ok(Symbol::Open),
        Token::Close => Ok(Symbol::Close),
    }
}

/// Adds a symbol. Where it may not stand, `BadCondition` is met with `left` bytes left.
fn push(draft: &mut ConditionDraft, token: Symbol, left: usize) -> Result<(), Refusal>
    ensures { GivesUpToMemory fault_in (λ _. draft.new) result (as_condition (symbol_added draft.old token)) }
{
    match draft.push(token) {
        Ok(()) => Ok(()),
        Err(ConditionError::NoMemory) => Err(Refusal::NoMemory),
        Err(ConditionError::Misplaced) => Err(LitmusFault::BadCondition.at(left)),
    }
}

/// The tokens of a text, which `following` bytes follow.
#[tactic(auto, using(crate::proofs::NameLaws::token_named))]
fn read_tokens(
    alloc: Global,
    text: &[u8],
    harts: usize,
    locations: &mut Locations,
    following: usize,
) -> Result<ConditionDraft, Refusal>
    requires { harts ≤ MAX_HARTS }
    ensures { GivesUpToMemory fault_in (λ (symbols : List Symbol). (symbols, locations.new)) result
        (tokens_added harts ([], locations.old) (tokens_of text.now)) }
{
    let mut draft = ConditionDraft::new(alloc);
    let mut rest = text;
    loop {
        let left = left_of(rest).saturating_add(following);
        match first_token(rest) {
            Front::End => return Ok(draft),
            Front::NoToken => return Err(LitmusFault::BadCondition.at(left)),
            Front::Token(token, after) => {
                let symbol = token_of(locations, token, harts, left)?;
                push(&mut draft, symbol, left)?;
                rest = after;
            }
        }
    }
}

/// The condition of the symbols. Where one is missing, `BadCondition` is met at the text's end.
fn finish(draft: ConditionDraft) -> Result<Condition, Refusal>
    ensures place { IfErr result (λ refusal. refusal ≡ Refused (record { fault = BadCondition; left = 0 })) }
    ensures exact { GivesUpToMemory fault_in (λ (f : Formula). f) result (as_condition (formula_of_symbols draft)) }
{
    match draft.finish() {
        Ok(condition) => Ok(condition),
        Err(ConditionError::NoMemory) => Err(Refusal::NoMemory),
        Err(ConditionError::Misplaced) => Err(LitmusFault::BadCondition.at_end()),
    }
}

/// What a test asks at the end.
#[derive(Drop)]
pub struct FinalCondition {
    pub quantifier: Quantifier,
    pub condition: Condition,
}

/// The condition in this text, as [`read_condition`] says.
#[tactic(auto, unfolding(crate::specs::Condition::condition_in))]
fn final_condition_in(
    alloc: Global,
    text: &[u8],
    harts: usize,
    locations: &mut Locations,
) -> Result<FinalCondition, Refusal>
    requires { harts ≤ MAX_HARTS }
    ensures { GivesUpToMemory fault_in (condition_of locations.new) result (condition_in harts locations.old text.now) }
{
    let (read, unread) = cut_at_line(Mark::Unread, text);
    let Some(Quantified { quantifier, tokens }) = quantifier_in(read) else {
        return Err(LitmusFault::BadCondition.at(left_of(text)));
    };
    let following = text.len().saturating_sub(read.len());
    let draft = read_tokens(alloc, tokens, harts, locations, following)?;
    if let Some(rest) = unread {
        return Err(LitmusFault::BadCondition.at(left_of(rest)));
    }
    let condition = finish(draft)?;
    Ok(FinalCondition {
        quantifier,
        condition,
    })
}

/// The condition in this text, which goes to the end of the whole text. Its new locations join the
/// others, and it asks for places that are there.
#[tactic(auto, using(crate::proofs::ThereLaws::answered_there, crate::proofs::ThereLaws::answered_more))]
pub fn read_condition(
    alloc: Global,
    text: &[u8],
    harts: usize,
    locations: &mut Locations,
) -> Result<FinalCondition, Refusal>
    requires { harts ≤ MAX_HARTS }
    ensures exact { GivesUpToMemory fault_in (condition_of locations.new) result (condition_in harts locations.old text.now) }
    ensures there { IfOk result (λ final_condition. All (IsThere harts (length locations.new)) (places final_condition.condition)) }
    ensures more { IfOk result (λ final_condition. length locations.old ≤ length locations.new) }
{
    final_condition_in(alloc, text, harts, locations)
}
