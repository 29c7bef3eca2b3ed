//! What a picture says of an entry.

ghost use Rattle.std.specs.Prelude.{◌≡◌, ◌++◌, map, OnOk};
ghost use Rattle.std.specs.String.{string_bytes};
ghost use Rattle.chart.specs.Sayings.{stop_name, fence_text, next_text, holds_text, effect_text, landing_text, entry_at, memory_text};

use crate::naming::{push_part, push_word};
use hart::status::Stop;
use std::alloc::AllocError;
use step_machine::Entry;

fn stop_name(why: Stop) -> &'static str
    ensures { result.now ≡ stop_name why }
{
    match why {
        Stop::Illegal => " Illegal",
        Stop::Misaligned => " Misaligned",
        Stop::SubWord => "",
        Stop::OutOfRange => " OutOfRange",
        Stop::MisalignedJump => " MisalignedJump",
        Stop::NoCode => " NoCode",
        Stop::UnknownCall => " UnknownCall",
        Stop::Break => " Break",
    }
}

fn fence_text(full: bool) -> &'static str
    ensures { result.now ≡ fence_text full }
{
    if full { "full" } else { "not full" }
}

fn push_next(out: &mut String, word: Option<u32>) -> Result<(), AllocError>
    ensures { OnOk result (string_bytes out.new ≡ string_bytes out.old ++ next_text word) }
{
    match word {
        None => out.push_str("next end"),
        Some(word) => write!(out, "next {word}"),
    }
}

fn push_holds(
    out: &mut String,
    names: &[String],
    addr: u32,
    width: u32,
    value: u32,
) -> Result<(), AllocError>
    ensures { OnOk result (string_bytes out.new ≡ string_bytes out.old ++ holds_text (map string_bytes names.now) addr width value) }
{
    push_part(out, names, addr, width)?;
    write!(out, " = {value}")
}

/// Appends what an entry did, as its row says it: `x := 1`, `y = 0`, `z: 0 -> 1`. A landing says nothing
/// there.
pub fn push_effect(out: &mut String, names: &[String], entry: Entry) -> Result<(), AllocError>
    ensures { OnOk result (string_bytes out.new ≡ string_bytes out.old ++ effect_text (map string_bytes names.now) entry) }
{
    match entry {
        Entry::Inner { .. } | Entry::Land { .. } => Ok(()),
        Entry::Load {
            addr,
            width,
            value,
            ..
        } => push_holds(out, names, addr, width, value),
        Entry::Store {
            addr,
            width,
            value,
            ..
        } => {
            push_part(out, names, addr, width)?;
            write!(out, " := {value}")
        }
        Entry::Amo { addr, old, new, .. } => {
            push_word(out, names, addr)?;
            write!(out, ": {old} -> {new}")
        }
        Entry::Fence { full, .. } => out.push_str(fence_text(full)),
        Entry::Next { word, .. } => push_next(out, word),
        Entry::Took { sender, word, .. } => write!(out, "took {sender} {word}"),
        Entry::Closed { sender, .. } => write!(out, "closed {sender}"),
        Entry::Ended { .. } => out.push_str("ended"),
        Entry::Stopped { why, .. } => write!(out, "stopped {}{}", why.number(), stop_name(why)),
    }
}

fn entry_at(entries: &[Entry], row: Option<usize>) -> Option<Entry>
    ensures { result ≡ entry_at entries.now row }
{
    match row {
        Some(row) => entries.get(row).copied(),
        None => None,
    }
}

fn push_landing(out: &mut String, names: &[String], store: Option<Entry>) -> Result<(), AllocError>
    ensures { OnOk result (string_bytes out.new ≡ string_bytes out.old ++ landing_text (map string_bytes names.now) store) }
{
    match store {
        Some(
            Entry::Store {
                addr,
                width,
                value,
                ..
            },
        ) => push_holds(out, names, addr, width, value),
        _ => Ok(()),
    }
}

/// Appends what an entry of these writes to memory, `x = 1`, where a landing lands the store of the row
/// `landed`. What writes nothing says nothing there.
pub fn push_memory(
    out: &mut String,
    names: &[String],
    entries: &[Entry],
    landed: Option<usize>,
    entry: Entry,
) -> Result<(), AllocError>
    ensures { OnOk result (string_bytes out.new ≡ string_bytes out.old ++ memory_text (map string_bytes names.now) entries.now landed entry) }
{
    match entry {
        Entry::Amo { addr, new, .. } => push_holds(out, names, addr, 4, new),
        Entry::Land { .. } => push_landing(out, names, entry_at(entries, landed)),
        _ => Ok(()),
    }
}
