//! The numbers of a certificate, and the words of a line that say them.

ghost use Rattle.std.specs.Prelude.{◌≡◌};
ghost use Rattle.texts.specs.Results.{GivesUpToMemory, refusal_of};
ghost use Rattle.texts.specs.Cutting.{tokens};
ghost use Rattle.certificate_reader.specs.Numbers.{round_of, count_of, first_word_in, first_count_in, ended, five_at, four_counts, only_word};

use crate::faults::{BAD, LineError};
use texts::{first_token, word};

/// 2^32, as it is written.
fn round(digits: &[u8]) -> Option<u64>
    ensures { result ≡ round_of digits.now }
{
    if digits == b"4294967296".as_slice() {
        Some(1 << 32)
    } else {
        None
    }
}

/// The number of at most 2^32 that decimal digits say. Leading zeros may stand before a number below it.
#[tactic(auto, unfolding(crate::specs::Numbers::count_of))]
pub fn count(digits: &[u8]) -> Option<u64>
    ensures { result ≡ count_of digits.now }
{
    match word(digits) {
        Some(number) => Some(u64::from(number)),
        None => round(digits),
    }
}

/// The number below 2^32 that the first word says, and what follows.
#[tactic(auto, unfolding(crate::specs::Numbers::first_word_in))]
pub fn first_word(text: &[u8]) -> Result<(u32, &[u8]), LineError>
    ensures { GivesUpToMemory refusal_of (λ cut. (cut.0, tokens cut.1.now)) result (first_word_in (tokens text.now)) }
{
    let (digits, rest) = first_token(text).ok_or(BAD)?;
    let number = word(digits).ok_or(BAD)?;
    Ok((number, rest))
}

/// The count that the first word says, and what follows.
#[tactic(auto, unfolding(crate::specs::Numbers::first_count_in))]
pub fn first_count(text: &[u8]) -> Result<(u64, &[u8]), LineError>
    ensures { GivesUpToMemory refusal_of (λ cut. (cut.0, tokens cut.1.now)) result (first_count_in (tokens text.now)) }
{
    let (digits, rest) = first_token(text).ok_or(BAD)?;
    let number = count(digits).ok_or(BAD)?;
    Ok((number, rest))
}

/// No word is left.
pub fn end(text: &[u8]) -> Result<(), LineError>
    ensures { GivesUpToMemory refusal_of (λ x. x) result (ended (tokens text.now)) }
{
    match first_token(text) {
        None => Ok(()),
        Some(_) => Err(BAD),
    }
}

/// Five numbers, in turn.
pub type Five = (u32, u32, u32, u32, u32);

/// The numbers of five words, and what follows.
#[tactic(auto, unfolding(crate::specs::Numbers::five_at))]
pub fn first_five(text: &[u8]) -> Result<(Five, &[u8]), LineError>
    ensures { GivesUpToMemory refusal_of (λ cut. (cut.0, tokens cut.1.now)) result (five_at (tokens text.now)) }
{
    let (a, rest) = first_word(text)?;
    let (b, rest) = first_word(rest)?;
    let (c, rest) = first_word(rest)?;
    let (d, rest) = first_word(rest)?;
    let (e, rest) = first_word(rest)?;
    Ok(((a, b, c, d, e), rest))
}

/// The counts that are all of the words, which are four.
#[tactic(auto, unfolding(crate::specs::Numbers::four_counts))]
pub fn four_counts(text: &[u8]) -> Result<(u64, u64, u64, u64), LineError>
    ensures { GivesUpToMemory refusal_of (λ x. x) result (four_counts (tokens text.now)) }
{
    let (a, rest) = first_count(text)?;
    let (b, rest) = first_count(rest)?;
    let (c, rest) = first_count(rest)?;
    let (d, rest) = first_count(rest)?;
    end(rest)?;
    Ok((a, b, c, d))
}

/// The number that is all of the words.
#[tactic(auto, unfolding(crate::specs::Numbers::only_word))]
pub fn only_word(text: &[u8]) -> Result<u32, LineError>
    ensures { GivesUpToMemory refusal_of (λ x. x) result (only_word (tokens text.now)) }
{
    let (number, rest) = first_word(text)?;
    end(rest)?;
    Ok(number)
}
