//! The header line, and where the init part begins.

ghost use Rattle.std.specs.Prelude.{◌≡◌, ◌≢◌, drop};
ghost use Rattle.std.specs.Result.{IfErr};
ghost use Rattle.texts.specs.Results.{GivesUpToMemory};
ghost use Rattle.litmus_reader.specs.declared.faults.LitmusFault.TheVariants.{BadInit};
ghost use Rattle.texts.specs.declared.errors.TextError.TheVariants.{NoMemory, Refused};
ghost use Rattle.litmus_reader.specs.Faults.{fault_in};
ghost use Rattle.litmus_reader.specs.Header.{has_name, is_header, after_header as header_at, after_brace as brace_at};

use crate::faults::LitmusFault;
use crate::marks::{Mark, cut_at_line};
use crate::refusals::{Refusal, left_of};
use texts::Separators;
use texts::cutting::{cut_at, without_front};

/// Whether blanks and then a byte that isn't blank follow.
fn has_name(rest: &[u8]) -> bool
    ensures { result ≡ has_name rest.now }
{
    match rest {
        [first, others @ ..] => {
            Separators::Blanks.contain(*first) && !without_front(others).is_empty()
        }
        [] => false,
    }
}

/// Whether the line is `RISCV`, blanks and a name; what follows the name isn't read.
#[tactic(auto, using(std::proofs::lemmas::List::take_rest), unfolding(crate::specs::Header::is_header))]
fn is_header(line: &[u8]) -> bool
    ensures { result ≡ is_header line.now }
{
    let line = without_front(line);
    line.starts_with(b"RISCV") && has_name(&line[5..])
}

/// What follows the header line. `NoHeader` comes where the first line that isn't blank is none, and at the end of
/// a text that is all blank.
#[tactic(auto, unfolding(crate::specs::Header::after_header))]
pub fn after_header(text: &[u8]) -> Result<&[u8], Refusal>
    ensures exact { GivesUpToMemory fault_in (λ rest. rest.now) result (header_at text.now) }
    ensures free { IfErr result (λ refusal. refusal ≢ NoMemory) }
{
    let Some(text) = cut_at_line(Mark::Visible, text).1 else {
        return Err(LitmusFault::NoHeader.at_end());
    };
    let (line, rest) = cut_at(text, b'\n');
    if !is_header(line) {
        return Err(LitmusFault::NoHeader.at(left_of(text)));
    }
    Ok(rest.unwrap_or(b""))
}

fn after_first(text: &[u8]) -> &[u8]
    ensures { result.now ≡ drop 1 text.now }
{
    match text {
        [_, rest @ ..] => rest,
        [] => text,
    }
}

/// What follows the `{` with which a line begins; the lines before it aren't read.
#[tactic(auto, unfolding(crate::specs::Header::after_brace))]
pub fn after_brace(text: &[u8]) -> Result<&[u8], Refusal>
    ensures exact { GivesUpToMemory fault_in (λ rest. rest.now) result (brace_at text.now) }
    ensures place { IfErr result (λ refusal. refusal ≡ Refused (record { fault = BadInit; left = 0 })) }
{
    match cut_at_line(Mark::Brace, text).1 {
        Some(text) => Ok(after_first(without_front(text))),
        None => Err(LitmusFault::BadInit.at_end()),
    }
}
