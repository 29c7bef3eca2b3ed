//! The forms and values of a certificate.

ghost use Rattle.std.specs.Prelude.{◌≡◌, []};
ghost use Rattle.std.specs.Option.{option_copied};
ghost use Rattle.texts.specs.Results.{GivesUpToMemory, refusal_of};
ghost use Rattle.texts.specs.Pieces.{pieces_after};
ghost use Rattle.texts.specs.declared.pieces.Separators.TheVariants.{Byte};
ghost use Rattle.certificate_reader.specs.FormTexts.{multiple_of, with_factor, factors_after, form_of, marked_numbers, marked_of, marked_value};
ghost use Rattle.certificate_reader.specs.FormTexts.{linear_of, mask_and_bits, bits_value, known_value_in};

use crate::faults::{BAD, LineError};
use crate::numbers::count;
use known_values::values::{ends_as, has_bits, index_for, linear, signed_for};
use known_values::{Form, KnownValue};
use std::alloc::Global;
use texts::cutting::cut_at;
use texts::{Separators, first_piece, word};

const PLUS: Separators = Separators::Byte(b'+');

/// How often which variable is taken.
#[tactic(auto, unfolding(crate::specs::FormTexts::multiple_of))]
fn multiple(piece: &[u8]) -> Option<(u64, u32)>
    ensures { result ≡ multiple_of piece.now }
{
    match cut_at(piece, b'*') {
        (times, Some(variable)) => Some((count(times)?, word(variable)?)),
        _ => None,
    }
}

/// Adds the factor that the piece says, of one of the variables.
#[tactic(auto, unfolding(crate::specs::FormTexts::with_factor))]
fn add_factor(factors: &mut Vec<u64>, variables: usize, piece: &[u8]) -> Result<(), LineError>
    ensures { GivesUpToMemory refusal_of (λ x. factors.new.items) result (with_factor variables factors.old.items piece.now) }
{
    let (times, variable) = multiple(piece).ok_or(BAD)?;
    let variable = variable as usize;
    if variable < factors.len() || variable >= variables {
        return Err(BAD);
    }
    factors.resize(variable, 0)?;
    factors.push(times)?;
    Ok(())
}

/// The factors that the pieces of a text say, if there is a text.
#[tactic(auto, unfolding(crate::specs::FormTexts::factors_after))]
fn factors_of(alloc: Global, variables: usize, text: Option<&[u8]>) -> Result<Vec<u64>, LineError>
    ensures { GivesUpToMemory refusal_of (λ factors. factors.items) result (factors_after variables [] (pieces_after (Byte 43) (option_copied text.entry))) }
{
    let mut factors = Vec::new(alloc);
    let mut rest = text;
    while let Some(pieces) = rest {
        let (piece, after) = first_piece(PLUS, pieces);
        add_factor(&mut factors, variables, piece)?;
        rest = after;
    }
    Ok(factors)
}

/// The form of this number of variables that a text says.
#[tactic(auto, unfolding(crate::specs::FormTexts::form_of))]
pub fn form(alloc: Global, variables: usize, text: &[u8]) -> Result<Form, LineError>
    ensures { GivesUpToMemory refusal_of (λ form. form) result (form_of variables text.now) }
{
    let (first, others) = first_piece(PLUS, text);
    let (constant, others) = match count(first) {
        Some(constant) => (constant, others),
        None => (0, Some(text)),
    };
    let factors = factors_of(alloc, variables, others)?;
    Ok(Form { constant, factors })
}

/// What a value says before whose form a number stands: the byte that it begins with.
#[derive(Clone, Copy)]
enum Mark {
    /// `@`: the word of one of the queues that stands for a count.
    Index,
    /// `~`: what a signed load leaves of it.
    Signed,
    /// `^`: a number of bits that end in as many zeros as the form.
    Ends,
}

/// What follows a mark.
#[tactic(auto, unfolding(crate::specs::FormTexts::marked_of))]
fn marked(
    alloc: Global,
    mark: Mark,
    queues: usize,
    variables: usize,
    text: &[u8],
) -> Result<KnownValue, LineError>
    ensures { GivesUpToMemory refusal_of (λ value. value) result (marked_of mark queues variables text.now) }
{
    let (digits, after) = cut_at(text, b':');
    let number = word(digits).ok_or(BAD)?;
    let text = after.ok_or(BAD)?;
    if number as usize >= marked_numbers(mark, queues) {
        return Err(BAD);
    }
    let form = form(alloc, variables, text)?;
    Ok(marked_value(mark, number, form))
}

/// How many numbers may follow a mark, from 0 on.
fn marked_numbers(mark: Mark, queues: usize) -> usize
    ensures { result ≡ marked_numbers mark queues }
{
    match mark {
        Mark::Index | Mark::Signed => queues,
        Mark::Ends => 33,
    }
}

fn marked_value(mark: Mark, number: u32, form: Form) -> KnownValue
    ensures { result ≡ marked_value mark number form }
{
    match mark {
        Mark::Index => index_for(number, form),
        Mark::Signed => signed_for(number, form),
        Mark::Ends => ends_as(number, form),
    }
}

#[tactic(auto, unfolding(crate::specs::FormTexts::linear_of))]
fn number(alloc: Global, variables: usize, text: &[u8]) -> Result<KnownValue, LineError>
    ensures { GivesUpToMemory refusal_of (λ value. value) result (linear_of variables text.now) }
{
    Ok(linear(form(alloc, variables, text)?))
}

/// A mask, and the bits under it.
#[tactic(auto, unfolding(crate::specs::FormTexts::mask_and_bits))]
fn mask_and_bits(text: &[u8]) -> Option<(u32, u32)>
    ensures { result ≡ mask_and_bits text.now }
{
    match cut_at(text, b':') {
        (mask, Some(bits)) => Some((word(mask)?, word(bits)?)),
        _ => None,
    }
}

/// A word of which some bits are known.
#[tactic(auto, unfolding(crate::specs::FormTexts::bits_value))]
fn bits(text: &[u8]) -> Result<KnownValue, LineError>
    ensures { GivesUpToMemory refusal_of (λ value. value) result (bits_value text.now) }
{
    let (mask, bits) = mask_and_bits(text).ok_or(BAD)?;
    Ok(has_bits(mask, bits))
}

/// The value that a text says, where there are these numbers of queues and of variables.
#[tactic(auto, unfolding(crate::specs::FormTexts::known_value_in))]
pub fn value(
    alloc: Global,
    queues: usize,
    variables: usize,
    text: &[u8],
) -> Result<KnownValue, LineError>
    ensures { GivesUpToMemory refusal_of (λ value. value) result (known_value_in queues variables text.now) }
{
    match text {
        [] => Err(BAD),
        [b'@', text @ ..] => marked(alloc, Mark::Index, queues, variables, text),
        [b'~', text @ ..] => marked(alloc, Mark::Signed, queues, variables, text),
        [b'^', text @ ..] => marked(alloc, Mark::Ends, queues, variables, text),
        [b'&', text @ ..] => bits(text),
        _ => number(alloc, variables, text),
    }
}
