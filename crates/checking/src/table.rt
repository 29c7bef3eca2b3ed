//! The table after the last line.

ghost use Rattle.std.specs.Prelude.{◌≡◌, ◌==◌, IfErr, IfOk, OnOk};
ghost use Rattle.std.specs.Io.KnownBytes.{Appends};
ghost use Rattle.engine_support.specs.declared.fault.Fault.TheVariants.{WriteFailed};
ghost use Rattle.checking.specs.inner.{table_text};

use crate::tally::Tally;
use engine_support::fault::Fault;
use litmus::Test;
use std::io::{self, Write};

/// Writes the lines of all outcomes, and how many runs did not finish and how many texts were refused.
fn write_table<W: Write>(writer: &mut W, test: &Test, tally: Tally) -> io::Result<()>
    ensures { OnOk result (Appends (W.contents writer.old) (W.contents writer.new) (table_text test.now tally)) }
{
    tally.outcomes.write_lines(writer, test)?;
    writeln!(writer, "unfinished {}", tally.unfinished)?;
    writeln!(writer, "refused {}", tally.refused)?;
    writer.flush()
}

/// Ends the command: writes the table of what was judged, line by line, and answers whether no text was refused.
pub fn end_with_table<W: Write>(test: &Test, tally: Tally, writer: &mut W) -> Result<bool, Fault>
    ensures written { IfOk result (λ good. (good ≡ (tally.refused == 0))
        × Appends (W.contents writer.old) (W.contents writer.new) (table_text test.now tally)) }
    ensures err { IfErr result (λ fault. fault ≡ WriteFailed) }
{
    let good = tally.refused == 0;
    write_table(writer, test, tally).map_err(|_| Fault::WriteFailed)?;
    Ok(good)
}
