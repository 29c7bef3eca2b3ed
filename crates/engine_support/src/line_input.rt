//! Inputs that are read line by line.

ghost use Rattle.std.specs.Prelude.{◌≡◌, ◌≢◌, ◌<◌, ◌≤◌, ◌+◌, ◌-◌, ◌++◌, ℕ, List, All, false, IfErr, IfOk, IfSome, OnErr, OnOk, length, take};
ghost use Rattle.std.specs.Io.BufRead.{take_through, DropsThrough};
ghost use Rattle.engine_support.specs.Inputs.{kept_of};
ghost use Rattle.engine_support.specs.inner.{IsReadFailure, IsPart};
ghost use Rattle.engine_support.specs.declared.input.TheConstants.{INPUT_BYTES};

use crate::fault::Fault;
use crate::input::INPUT_BYTES;
use std::alloc::AllocError;
use std::io::{BufRead, ErrorKind};

/// How many bytes there are up to the first LF, it among them; all of them where there is none.
fn len_through(bytes: &[u8]) -> usize
    ensures bound { result ≤ length bytes.now }
    ensures some { 0 < length bytes.now → 0 < result }
    ensures before { All (λ byte. byte ≢ 10) (take (result - 1) bytes.now) }
{
    for (place, byte) in bytes.iter().enumerate() {
        if *byte == b'\n' {
            return place + 1;
        }
    }
    bytes.len()
}

/// The first of these bytes, at most `most`.
#[tactic(auto, using(std::proofs::lemmas::List::take_min))]
fn front_of(bytes: &[u8], most: usize) -> &[u8]
    ensures { result.now ≡ take most bytes.now }
{
    &bytes[..most.min(bytes.len())]
}

/// Appends these bytes of a line to what is kept of it, as far as there is room.
fn keep(line: &mut Vec<u8>, bytes: &[u8]) -> Result<(), AllocError>
    requires { length line.old.items ≤ INPUT_BYTES + 1 }
    ensures kept { OnOk result (line.new.items ≡ kept_of (line.old.items ++ bytes.now)) }
    ensures err { OnErr result (line.new.items ≡ line.old.items) }
{
    let room = INPUT_BYTES + 1 - line.len();
    line.extend_from_slice(front_of(bytes, room))
}

/// What a read of this kind of error comes to: it is made again, or has failed.
fn after_error(kind: ErrorKind) -> Result<bool, Fault>
    ensures again { IfOk result (λ done. done ≡ false) }
    ensures err { IfErr result IsReadFailure }
{
    match kind {
        ErrorKind::Interrupted => Ok(false),
        ErrorKind::OutOfMemory => Err(Fault::NoMemory),
        _ => Err(Fault::ReadFailed),
    }
}

/// Takes what the reader has at hand of a line, its LF among it, and keeps of it what there is room for. Answers
/// whether the line is over: it ends with its LF, or with the input.
fn take_part<R: BufRead>(reader: &mut R, line: &mut Vec<u8>) -> Result<bool, Fault>
    requires { length line.old.items ≤ INPUT_BYTES + 1 }
    ensures part { IfOk result (λ done. (part : List ℕ) × IsPart part done (R.remaining reader.old) (R.remaining reader.new)
        × (line.new.items ≡ kept_of (line.old.items ++ part))) }
    ensures err { IfErr result IsReadFailure }
{
    let shown = match reader.fill_buf() {
        Ok(shown) => shown,
        Err(error) => return after_error(error.kind()),
    };
    let end = len_through(shown);
    let is_done = end == 0 || shown[end - 1] == b'\n';
    keep(line, &shown[..end])?;
    reader.consume(end);
    Ok(is_done)
}

/// The next line with its end, in the place of what the vector holds; nothing where no byte is left. Of a line that
/// is longer than an input may be, one byte more than such an input has is kept. The rest of it is taken from the
/// reader all the same, so what is left begins with the line after it.
pub fn read_line<R: BufRead>(reader: &mut R, line: &mut Vec<u8>) -> Result<(), Fault>
    ensures bytes { OnOk result (IfSome (R.remaining reader.old) (λ bytes. line.new.items ≡ kept_of (take_through 10 bytes))) }
    ensures rest { OnOk result (DropsThrough (R.remaining reader.old) (R.remaining reader.new) 10) }
    ensures few { OnOk result (length line.new.items ≤ INPUT_BYTES + 1) }
    ensures err { IfErr result IsReadFailure }
{
    line.clear();
    for _ in 0..u64::MAX {
        let is_done = take_part(reader, line)?;
        if is_done {
            return Ok(());
        }
    }
    Err(Fault::ReadFailed)
}
