//! The places that a test asks for, as texts.

ghost use Rattle.std.specs.Prelude.{◌≡◌, ◌++◌, length, OnErr, OnOk};
ghost use Rattle.std.specs.String.{string_bytes};
ghost use Rattle.std.specs.Io.KnownBytes.{Appends};
ghost use Rattle.litmus.specs.LitmusTests.{IsThere};
ghost use Rattle.engine_support.specs.Outcomes.{place_text};

use litmus::{Place, Test};
use std::alloc::AllocError;
use std::io::{self, Write};

/// Appends a register as `H:xN`, or a word as the name of its location. Where memory runs out, the text stays as it was.
pub fn push_place(out: &mut String, test: &Test, place: Place) -> Result<(), AllocError>
    requires { IsThere (length test.now.opening.harts) (length test.now.names) place }
    ensures pushed { OnOk result (string_bytes out.new ≡ string_bytes out.old ++ place_text test.now.names place) }
    ensures kept { OnErr result (string_bytes out.new ≡ string_bytes out.old) }
{
    match place {
        Place::Register { hart, number } => {
            // formatted apart, so that the text grows in one step or not at all
            let register = format!(in *out.allocator(); "{hart}:x{number}")?;
            out.push_str(&register)
        }
        Place::Word { address } => out.push_str(test.name(address)),
    }
}

/// Writes the same, which takes no memory.
pub fn write_place<W: Write>(writer: &mut W, test: &Test, place: Place) -> io::Result<()>
    requires { IsThere (length test.now.opening.harts) (length test.now.names) place }
    ensures { OnOk result (Appends (W.contents writer.old) (W.contents writer.new) (place_text test.now.names place)) }
{
    match place {
        Place::Register { hart, number } => write!(writer, "{hart}:x{number}"),
        Place::Word { address } => writer.write_all(test.name(address).as_bytes()),
    }
}
