//! The lines that the debugger prints.

ghost use Rattle.std.specs.Prelude.{◌≡◌, ◌++◌, OnOk};
ghost use Rattle.std.specs.String.{string_bytes};
ghost use Rattle.debugger.specs.DebugText.{end_line, break_line, number_line, store_line, store_lines, unknown_line};

use memory::writes::Write;
use std::alloc::AllocError;

/// The schedule's end.
pub fn push_end_line(out: &mut String) -> Result<(), AllocError>
    ensures { OnOk result (string_bytes out.new ≡ string_bytes out.old ++ end_line) }
{
    writeln!(out, "end")
}

/// The breakpoint at which a hart stands.
pub fn push_break_line(out: &mut String, hart: u32, pc: u32) -> Result<(), AllocError>
    ensures { OnOk result (string_bytes out.new ≡ string_bytes out.old ++ break_line hart pc) }
{
    writeln!(out, "break {hart} {pc}")
}

/// A number by itself.
pub fn push_number_line(out: &mut String, number: usize) -> Result<(), AllocError>
    ensures { OnOk result (string_bytes out.new ≡ string_bytes out.old ++ number_line number) }
{
    writeln!(out, "{number}")
}

/// A pending store.
fn push_store_line(out: &mut String, store: Write) -> Result<(), AllocError>
    ensures { OnOk result (string_bytes out.new ≡ string_bytes out.old ++ store_line store) }
{
    let Write { addr, width, value } = store;
    if width == 4 {
        writeln!(out, "{addr} {value}")
    } else {
        writeln!(out, "{addr} {value} {width}")
    }
}

/// Pending stores, oldest first.
pub fn push_store_lines(out: &mut String, stores: &[Write]) -> Result<(), AllocError>
    ensures { OnOk result (string_bytes out.new ≡ string_bytes out.old ++ store_lines stores.now) }
{
    for store in stores {
        push_store_line(out, *store)?;
    }
    Ok(())
}

/// What answers a line that is no command of this machine's.
pub fn push_unknown_line(out: &mut String) -> Result<(), AllocError>
    ensures { OnOk result (string_bytes out.new ≡ string_bytes out.old ++ unknown_line) }
{
    writeln!(out, "?")
}
