//! The words of statements, once all labels have places.

ghost use Rattle.std.specs.Prelude.{◌≡◌, ◌≤◌, ◌<◌, ℕ, pos, ◌<ℤ◌, ◌≤ℤ◌, ◌^◌, List, map, IfSome, IfOk, OnOk, vec_len, ◌+◌, Some};
ghost use Rattle.rv_decode.specs.Meaning.{meaning};
ghost use Rattle.texts.specs.Results.{GivesUpToMemory, refusal_of};
ghost use Rattle.assembler.specs.Drafts.{in_bytes, distance, placed_statement, onto, refused_at_line, all_placed};
ghost use Rattle.assembler.specs.Drafts.{line_over, word_count, size_of, AllFit, IsPlain, AllPlain};
ghost use Rattle.rv_decode.specs.Fits.{Fits};
ghost use Rattle.rv_decode.specs.declared.instruction.TheConstants.{MAX_CODE};
ghost use Rattle.assembler.specs.Statements.{MadeFits};
ghost use Rattle.assembler.specs.Operands.{IsInReach, bytes};
ghost use Rattle.assembler.specs.Kept.{place_in as found, kept_made, kept_line};

use crate::faults::{AsmError, AsmFault};
use crate::kept::{Kept, KeptLine, size};
use crate::operands::is_reached;
use crate::places::{Places, place_in};
use rv_decode::instruction::MAX_CODE;
use rv_decode::{Instr, encode};
use std::alloc::Global;

/// The first line whose words go past the limit.
pub fn first_over(lines: &[KeptLine]) -> usize
    ensures { result ≡ line_over 0 1 (map kept_line lines.now) }
{
    let mut words = 0;
    for (index, line) in lines.iter().enumerate() {
        words += size(&line.statement);
        if words > MAX_CODE {
            return index + 1;
        }
    }
    lines.len() + 1
}

/// How many bytes the place is after the word.
fn bytes_between(word: usize, place: usize) -> i64
    requires word { word ≤ MAX_CODE }
    requires place { place ≤ MAX_CODE }
    ensures { result ≡ in_bytes word place }
{
    4 * place as i64 - 4 * word as i64
}

/// How many bytes the label is after the word, within the bound.
fn distance_to(places: &Places, label: &[u8], word: usize, bound: i64) -> Result<i32, AsmFault>
    requires near { IfSome (found places.now label.now) (λ place. place ≤ MAX_CODE) }
    requires word { word ≤ MAX_CODE }
    requires low { pos 0 ≤ℤ bound }
    requires high { bound <ℤ pos (2 ^ 31) }
    ensures value { result ≡ distance bound word (found places.now label.now) }
    ensures reached { IfOk result (λ n. IsInReach bound (bytes n)) }
{
    let Some(place) = place_in(places, label) else {
        return Err(AsmFault::NoSuchLabel);
    };
    let distance = bytes_between(word, place);
    if is_reached(distance, bound) {
        Ok(distance as i32)
    } else {
        Err(AsmFault::OutOfRange)
    }
}

/// The word of the instruction, with zeros in the fields that decide nothing.
#[tactic(auto, using(crate::proofs::OneCode::plain_of))]
fn word_of(instr: &Instr) -> u32
    requires { Fits instr.now }
    ensures means { meaning result ≡ Some instr.now }
    ensures plain { IsPlain result }
{
    encode(instr)
}

#[tactic(auto, using(crate::proofs::OneCode::all_plain_more))]
fn push_words(
    words: &mut Vec<u32>,
    places: &Places,
    statement: &Kept,
    line: usize,
) -> Result<(), AsmError>
    requires near { (name : List ℕ) → IfSome (found places.now name) (λ place. place ≤ MAX_CODE) }
    requires word { vec_len words.old ≤ MAX_CODE }
    requires fits { MadeFits (kept_made statement.now) }
    ensures exact { GivesUpToMemory refusal_of (λ _. map meaning words.new.items) result
        (onto (map meaning words.old.items)
        (refused_at_line line (placed_statement (found places.now) (vec_len words.old) (Some (kept_made statement.now))))) }
    ensures plain { OnOk result (AllPlain words.old.items → AllPlain words.new.items) }
    ensures len { OnOk result (vec_len words.new ≡ vec_len words.old + size_of (Some (kept_made statement.now))) }
{
    let word = words.len();
    match statement {
        Kept::One(instr) => words.push(word_of(instr))?,
        Kept::Two(first, second) => {
            words.push(word_of(first))?;
            words.push(word_of(second))?;
        }
        Kept::Jump { rd, label } => match distance_to(places, label, word, 0x10_0000) {
            Ok(offset) => words.push(word_of(&Instr::Jal { rd: *rd, offset }))?,
            Err(fault) => return Err(AsmError::at_line(fault, line)),
        },
        Kept::Branch {
            op,
            rs1,
            rs2,
            label,
        } => match distance_to(places, label, word, 0x1000) {
            Ok(offset) => words.push(word_of(&Instr::Branch {
                op: *op,
                rs1: *rs1,
                rs2: *rs2,
                offset,
            }))?,
            Err(fault) => return Err(AsmError::at_line(fault, line)),
        },
    }
    Ok(())
}

/// The words of all lines.
pub fn place_all(alloc: Global, places: &Places, lines: &[KeptLine]) -> Result<Vec<u32>, AsmError>
    requires near { (name : List ℕ) → IfSome (found places.now name) (λ place. place ≤ MAX_CODE) }
    requires few { word_count (map kept_line lines.now) ≤ MAX_CODE }
    requires fits { AllFit (map kept_line lines.now) }
    ensures exact { GivesUpToMemory refusal_of (λ words. map meaning words.items) result (all_placed (found places.now) 0 1 (map kept_line lines.now)) }
    ensures plain { IfOk result (λ words. AllPlain words.items) }
{
    let mut words = Vec::new(alloc);
    for (index, line) in lines.iter().enumerate() {
        if let Some(statement) = &line.statement {
            push_words(&mut words, places, statement, index + 1)?;
        }
    }
    Ok(words)
}
