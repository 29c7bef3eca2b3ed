//! One line of a steps text.

ghost use Rattle.std.specs.Prelude.{◌≡◌, IfErr, OnErr};
ghost use Rattle.texts.specs.Results.{GivesUpToMemory, refusal_of};
ghost use Rattle.texts.specs.Cutting.{tokens};
ghost use Rattle.texts.specs.declared.errors.TextError.TheVariants.{Refused};
ghost use Rattle.engine_support.specs.Faults.{bad_line};
ghost use Rattle.code_engines.specs.StepsReading.{keyword_named, number_at, two_numbers, three_numbers, with_hart, with_register, with_word, with_steps};

use crate::code::code_of;
use engine_support::fault::{BAD, LineFault};
use recorder::{ScheduleError, push_tokens_of};
use rv_decode::instruction::MAX_CODE;
use std::alloc::Global;
use step_machine::opening::MAX_HARTS;
use step_machine::{Event, HartOpening};
use texts::{Numbered, first_token, word};

/// What a line begins with.
#[derive(Clone, Copy)]
pub enum Keyword {
    Hart,
    Register,
    Word,
    Steps,
}

pub fn keyword_of(word: &[u8]) -> Option<Keyword>
    ensures { result ≡ keyword_named word.now }
{
    match word {
        b"hart" => Some(Keyword::Hart),
        b"reg" => Some(Keyword::Register),
        b"word" => Some(Keyword::Word),
        b"steps" => Some(Keyword::Steps),
        _ => None,
    }
}

/// The number that the text's first word says, and what follows.
#[tactic(auto, unfolding(crate::specs::StepsReading::number_at))]
fn first_number(text: &[u8]) -> Result<(u32, &[u8]), LineFault>
    ensures exact { GivesUpToMemory refusal_of (λ cut. (cut.0, tokens cut.1.now)) result (number_at (tokens text.now)) }
    ensures bad { IfErr result (λ fault. fault ≡ Refused bad_line) }
{
    let (digits, rest) = first_token(text).ok_or(BAD)?;
    let number = word(digits).ok_or(BAD)?;
    Ok((number, rest))
}

/// The two numbers that are the words of the text.
#[tactic(auto, unfolding(crate::specs::StepsReading::two_numbers))]
fn two_numbers_of(text: &[u8]) -> Result<(u32, u32), LineFault>
    ensures exact { GivesUpToMemory refusal_of (λ numbers. numbers) result (two_numbers (tokens text.now)) }
    ensures bad { IfErr result (λ fault. fault ≡ Refused bad_line) }
{
    let (a, rest) = first_number(text)?;
    let (b, rest) = first_number(rest)?;
    match first_token(rest) {
        None => Ok((a, b)),
        Some(_) => Err(BAD),
    }
}

/// The three numbers that are the words of the text.
#[tactic(auto, unfolding(crate::specs::StepsReading::three_numbers))]
fn three_numbers_of(text: &[u8]) -> Result<(u32, u32, u32), LineFault>
    ensures exact { GivesUpToMemory refusal_of (λ numbers. numbers) result (three_numbers (tokens text.now)) }
    ensures bad { IfErr result (λ fault. fault ≡ Refused bad_line) }
{
    let (a, rest) = first_number(text)?;
    let (b, c) = two_numbers_of(rest)?;
    Ok((a, b, c))
}

/// Adds the hart of this code.
#[tactic(auto, unfolding(crate::specs::StepsReading::with_hart))]
pub fn add_hart(alloc: Global, harts: &mut Vec<HartOpening>, text: &[u8]) -> Result<(), LineFault>
    ensures exact { GivesUpToMemory refusal_of (λ x. harts.new.items) result (with_hart harts.old.items (tokens text.now)) }
    ensures err { OnErr result (harts.new.items ≡ harts.old.items) }
{
    let code = code_of(alloc, text)?;
    if harts.len() >= MAX_HARTS || code.len() > MAX_CODE {
        return Err(BAD);
    }
    harts.push(HartOpening {
        code,
        registers: [0; 32],
        inbox: Vec::new(alloc),
    })?;
    Ok(())
}

/// Sets a register of a hart above.
#[tactic(auto, unfolding(crate::specs::StepsReading::with_register))]
pub fn set_register(harts: &mut Vec<HartOpening>, text: &[u8]) -> Result<(), LineFault>
    ensures exact { GivesUpToMemory refusal_of (λ x. harts.new.items) result (with_register harts.old.items (tokens text.now)) }
    ensures err { OnErr result (harts.new.items ≡ harts.old.items) }
    ensures bad { IfErr result (λ fault. fault ≡ Refused bad_line) }
{
    let (hart, number, value) = three_numbers_of(text)?;
    let hart = hart as usize;
    if hart >= harts.len() || number == 0 || number >= 32 {
        return Err(BAD);
    }
    let hart = &mut harts[hart];
    hart.registers[number as usize] = value;
    Ok(())
}

/// Sets a word of memory.
#[tactic(auto, unfolding(crate::specs::StepsReading::with_word))]
pub fn set_word(words: &mut Vec<u32>, text: &[u8]) -> Result<(), LineFault>
    ensures exact { GivesUpToMemory refusal_of (λ x. words.new.items) result (with_word words.old.items (tokens text.now)) }
    ensures err { OnErr result (words.new.items ≡ words.old.items) }
    ensures bad { IfErr result (λ fault. fault ≡ Refused bad_line) }
{
    let (addr, value) = two_numbers_of(text)?;
    let place = (addr / 4) as usize;
    if addr % 4 != 0 || place >= words.len() {
        return Err(BAD);
    }
    words[place] = value;
    Ok(())
}

/// Appends the events of a text of tokens.
#[tactic(auto, unfolding(crate::specs::StepsReading::with_steps))]
pub fn add_steps(events: &mut Vec<Event>, text: &[u8]) -> Result<(), LineFault>
    ensures exact { GivesUpToMemory refusal_of (λ x. events.new.items) result (with_steps events.old.items text.now) }
    ensures err { OnErr result (events.new.items ≡ events.old.items) }
{
    match push_tokens_of(events, text) {
        Ok(()) => Ok(()),
        Err(ScheduleError::NoMemory) => Err(LineFault::NoMemory),
        Err(ScheduleError::Refused(refusal)) => Err(LineFault::Refused(refusal.fault.number())),
    }
}
