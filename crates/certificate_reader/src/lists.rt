//! Lists that the words of a line say, one element each.

ghost use Rattle.std.specs.Prelude.{◌≡◌};
ghost use Rattle.std.specs.Option.{option_copied};
ghost use Rattle.texts.specs.Results.{GivesUpToMemory, refusal_of};
ghost use Rattle.texts.specs.Cutting.{tokens};
ghost use Rattle.certificate_reader.specs.Lists.{as_own_width, own_width, own_word_of, own_words_in, counts_in, range_of, ranges_in, forms_in};

use crate::faults::{BAD, LineError};
use crate::forms::form;
use crate::numbers::count;
use known_values::Form;
use queue_certificates::OwnWord;
use std::alloc::Global;
use texts::cutting::cut_at;
use texts::{first_token, word};

/// The number, where it is the width of a byte, a half or a word.
fn as_own_width(number: u32) -> Option<u32>
    ensures { result ≡ as_own_width number }
{
    match number {
        1 | 2 | 4 => Some(number),
        _ => None,
    }
}

/// The width that these digits say, or four bytes where there are none.
fn own_width(digits: Option<&[u8]>) -> Option<u32>
    ensures { result ≡ own_width (option_copied digits.entry) }
{
    match digits {
        Some(digits) => as_own_width(word(digits)?),
        None => Some(4),
    }
}

/// Where an own word lies, and how many bytes it has.
#[tactic(auto, unfolding(crate::specs::Lists::own_word_of))]
fn own_word(text: &[u8]) -> Option<OwnWord>
    ensures { result ≡ own_word_of text.now }
{
    let (address, digits) = cut_at(text, b':');
    let at = word(address)?;
    let width = own_width(digits)?;
    Some(OwnWord { at, width })
}

/// The own words that the words say.
#[tactic(auto, unfolding(crate::specs::Lists::own_words_in, texts::specs::Formats::each))]
pub fn own_words(alloc: Global, text: &[u8]) -> Result<Vec<OwnWord>, LineError>
    ensures { GivesUpToMemory refusal_of (λ own. own.items) result (own_words_in (tokens text.now)) }
{
    let mut own = Vec::new(alloc);
    let mut rest = text;
    while let Some((word, after)) = first_token(rest) {
        own.push(own_word(word).ok_or(BAD)?)?;
        rest = after;
    }
    Ok(own)
}

/// The counts that the words say.
#[tactic(auto, unfolding(crate::specs::Lists::counts_in, texts::specs::Formats::each))]
pub fn counts(alloc: Global, text: &[u8]) -> Result<Vec<u64>, LineError>
    ensures { GivesUpToMemory refusal_of (λ numbers. numbers.items) result (counts_in (tokens text.now)) }
{
    let mut numbers = Vec::new(alloc);
    let mut rest = text;
    while let Some((digits, after)) = first_token(rest) {
        numbers.push(count(digits).ok_or(BAD)?)?;
        rest = after;
    }
    Ok(numbers)
}

/// The most that a variable may be, or no bound.
fn range(word: &[u8]) -> Option<Option<u64>>
    ensures { result ≡ range_of word.now }
{
    if word == b"-".as_slice() {
        return Some(None);
    }
    Some(Some(count(word)?))
}

/// The ranges that the words say.
#[tactic(auto, unfolding(crate::specs::Lists::ranges_in, texts::specs::Formats::each))]
pub fn ranges(alloc: Global, text: &[u8]) -> Result<Vec<Option<u64>>, LineError>
    ensures { GivesUpToMemory refusal_of (λ ranges. ranges.items) result (ranges_in (tokens text.now)) }
{
    let mut ranges = Vec::new(alloc);
    let mut rest = text;
    while let Some((word, after)) = first_token(rest) {
        ranges.push(range(word).ok_or(BAD)?)?;
        rest = after;
    }
    Ok(ranges)
}

/// The forms, of this number of variables, that the words say.
#[tactic(auto, unfolding(crate::specs::Lists::forms_in, texts::specs::Formats::each))]
pub fn forms(alloc: Global, variables: usize, text: &[u8]) -> Result<Vec<Form>, LineError>
    ensures { GivesUpToMemory refusal_of (λ forms. forms.items) result (forms_in variables (tokens text.now)) }
{
    let mut forms = Vec::new(alloc);
    let mut rest = text;
    while let Some((word, after)) = first_token(rest) {
        forms.push(form(alloc, variables, word)?)?;
        rest = after;
    }
    Ok(forms)
}
