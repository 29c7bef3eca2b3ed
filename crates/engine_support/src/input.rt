//! Inputs that are whole texts, with their limit.

ghost use Rattle.std.specs.Prelude.{◌≤◌, IfOk, length};
ghost use Rattle.std.specs.String.{string_bytes};
ghost use Rattle.std.specs.Io.KnownBytes.{IsAtEnd};
ghost use Rattle.engine_support.specs.Engines.{OfInput};
ghost use Rattle.engine_support.specs.Inputs.{IsInput, TakesFew};
ghost use Rattle.engine_support.specs.inner.{ReadsText, FindsUpToReads};
ghost use Rattle.engine_support.specs.declared.input.TheConstants.{INPUT_BYTES};

use crate::fault::{Fault, NOT_TEXT, Position, TOO_LARGE};
use std::alloc::Global;
use std::io::{ErrorKind, Read};

/// The most bytes of an input.
pub const INPUT_BYTES: usize = 1_048_576;

/// The most bytes that one read takes.
pub const CHUNK_BYTES: usize = 4096;

/// All that the reader gives, where that is within the limit. A reader without end is refused soon
/// after the limit.
fn read_input<R: Read>(alloc: Global, reader: &mut R) -> Result<Vec<u8>, Fault>
    ensures input { OfInput (R.remaining reader.old) (λ bytes. IsInput bytes result) }
    ensures few { IfOk result (λ input. length input.items ≤ INPUT_BYTES) }
    ensures taken { TakesFew (R.remaining reader.old) (R.remaining reader.new) }
    ensures end { IfOk result (λ input. IsAtEnd (R.remaining reader.new)) }
{
    let mut input = Vec::new(alloc);
    let mut chunk = [0; CHUNK_BYTES];
    for _ in 0..u64::MAX {
        match reader.read(&mut chunk) {
            Ok(0) => return Ok(input),
            Ok(count) if count > INPUT_BYTES - input.len() => {
                return Err(Fault::refused(TOO_LARGE, Position::Nowhere));
            }
            Ok(count) => input.extend_from_slice(&chunk[..count])?,
            Err(error) if error.kind() == ErrorKind::Interrupted => {}
            Err(_) => return Err(Fault::ReadFailed),
        }
    }
    Err(Fault::ReadFailed)
}

/// All that the reader gives, where that is a text. No more than one chunk is taken past the limit.
pub fn read_text<R: Read>(alloc: Global, reader: &mut R) -> Result<String, Fault>
    ensures text { FindsUpToReads (ReadsText (R.remaining reader.old)) string_bytes result }
    ensures taken { TakesFew (R.remaining reader.old) (R.remaining reader.new) }
    ensures end { IfOk result (λ text. IsAtEnd (R.remaining reader.new)) }
{
    let input = read_input(alloc, reader)?;
    match String::from_utf8(input) {
        Ok(text) => Ok(text),
        Err(_) => Err(Fault::refused(NOT_TEXT, Position::Nowhere)),
    }
}
