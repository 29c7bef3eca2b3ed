//! How each command ends.

ghost use Rattle.engine_support.specs.inner.{IsEndOf, text_and_value};

use crate::fault::Fault;
use std::io::Write;

/// Ends a command that made this: writes the text, has the writer pass it on, and answers the value
/// beside the text. Where the command made nothing, nothing is written.
pub fn end_with<V: Copy, W: Write>(
    made: Result<(String, V), Fault>,
    writer: &mut W,
) -> Result<V, Fault>
    ensures { IsEndOf text_and_value made result W.contents writer.old writer.new }
{
    let (text, value) = made?;
    writer
        .write_all(text.as_bytes())
        .map_err(|_| Fault::WriteFailed)?;
    writer.flush().map_err(|_| Fault::WriteFailed)?;
    Ok(value)
}
