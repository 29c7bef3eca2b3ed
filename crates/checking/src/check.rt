//! The engine.

ghost use Rattle.std.specs.Prelude.{◌≡◌, ◌≤◌, ◌⊎◌, ℕ, List, [], length, IfErr, IfOk, OnOk, Ok};
ghost use Rattle.std.specs.Io.KnownBytes.{Appends};
ghost use Rattle.step_machine.specs.Standing.{RepresentsRunFrom};
ghost use Rattle.litmus.specs.declared.litmus_test.TheConstants.{MAX_LOCATIONS};
ghost use Rattle.engine_support.specs.Interactive.{EndsInteractive, OnStopped, OnUnwritten};
ghost use Rattle.engine_support.specs.Inputs.{IsRefused, tests};
ghost use Rattle.engine_support.specs.inner.{IsFailure};
ghost use Rattle.checking.specs.Checking.{IsCheckAnswer, IsChecked, IsCheckFront, IsFront, OfLines};
ghost use Rattle.checking.specs.inner.{AllWritten, Closes, OneWritten, SomeWritten, TakesLine, HasRoomForText};

use crate::judging::judge;
use crate::reading::{begins_record, hold, is_left_out};
use crate::reports::report;
use crate::table::end_with_table;
use crate::tally::Tally;
use engine_support::fault::Fault;
use engine_support::line_input::read_line;
use engine_support::litmus_text::read_test;
use engine_support::output::end_with;
use litmus::Test;
use std::alloc::Global;
use std::io::{BufRead, Read, Write};
use std::mem;
use step_machine::MachineState;

/// Judges a text, and writes its line.
fn judge_text<const B: usize, const M: usize, W: Write>(
    alloc: Global,
    test: &Test,
    machine: &mut MachineState<B, M>,
    text: &[u8],
    values: &mut Vec<u32>,
    tally: &mut Tally,
    writer: &mut W,
) -> Result<(), Fault>
    requires stands { RepresentsRunFrom B M test.now.opening machine.old }
    requires names { length test.now.names ≤ M }
    requires room { HasRoomForText tally.old }
    ensures written { OnOk result (OneWritten B M test.now text.now tally.old tally.new (W.contents writer.old) (W.contents writer.new)) }
    ensures stands { OnOk result (RepresentsRunFrom B M test.now.opening machine.new) }
    ensures err { IfErr result IsFailure }
    ensures left { OnStopped result (writer.new ≡ writer.old) }
{
    let judgement = judge(alloc, test, machine, text, values)?;
    tally.add(alloc, judgement, values)?;
    let line = report(alloc, tally.judged, judgement)?;
    end_with(Ok((line, ())), writer)
}

/// Judges a text that a record follows, and writes its line, unless it is left out.
fn close<const B: usize, const M: usize, W: Write>(
    alloc: Global,
    test: &Test,
    machine: &mut MachineState<B, M>,
    text: &[u8],
    values: &mut Vec<u32>,
    tally: &mut Tally,
    writer: &mut W,
) -> Result<(), Fault>
    requires stands { RepresentsRunFrom B M test.now.opening machine.old }
    requires names { length test.now.names ≤ M }
    requires room { HasRoomForText tally.old }
    ensures closed { OnOk result (Closes B M test.now text.now tally.old tally.new (W.contents writer.old) (W.contents writer.new)) }
    ensures stands { OnOk result (RepresentsRunFrom B M test.now.opening machine.new) }
    ensures err { IfErr result IsFailure }
    ensures left { OnStopped result (writer.new ≡ writer.old) }
{
    if is_left_out(text) {
        return Ok(());
    }
    judge_text(alloc, test, machine, text, values, tally, writer)
}

/// Takes a line after the text that is being read. Where a record begins at it, the text is judged, and the line
/// is the next one's first.
fn take_line<const B: usize, const M: usize, W: Write>(
    alloc: Global,
    test: &Test,
    machine: &mut MachineState<B, M>,
    text: &mut Vec<u8>,
    line: &mut Vec<u8>,
    values: &mut Vec<u32>,
    tally: &mut Tally,
    writer: &mut W,
) -> Result<(), Fault>
    requires stands { RepresentsRunFrom B M test.now.opening machine.old }
    requires names { length test.now.names ≤ M }
    requires room { HasRoomForText tally.old }
    ensures taken { OnOk result (TakesLine B M test.now line.old.items text.old.items text.new.items
        tally.old tally.new (W.contents writer.old) (W.contents writer.new)) }
    ensures stands { OnOk result (RepresentsRunFrom B M test.now.opening machine.new) }
    ensures err { IfErr result IsFailure }
    ensures left { OnStopped result (writer.new ≡ writer.old) }
{
    if !begins_record(line) {
        hold(text, line)?;
        return Ok(());
    }
    close(alloc, test, machine, text, values, tally, writer)?;
    // nothing is copied after a line was written, so that memory can't run out between
    mem::swap(text, line);
    Ok(())
}

/// Judges all texts that the reader gives.
fn judge_all<const B: usize, const M: usize, R: BufRead, W: Write>(
    alloc: Global,
    test: &Test,
    machine: &mut MachineState<B, M>,
    records: &mut R,
    writer: &mut W,
) -> Result<Tally, Fault>
    requires stands { RepresentsRunFrom B M test.now.opening machine.old }
    requires names { length test.now.names ≤ M }
    ensures judged { IfOk result (λ tally. OfLines (R.remaining records.old)
        (λ lines. AllWritten B M test.now lines tally (W.contents writer.old) (W.contents writer.new))) }
    ensures err { IfErr result IsFailure }
    ensures left { OnStopped result (SomeWritten B M test.now (R.remaining records.old) (W.contents writer.old) (W.contents writer.new)) }
    ensures unwritten { OnUnwritten result ((out : List ℕ) × OfLines (R.remaining records.old) (λ lines. IsFront B M lines test.now out)) }
{
    let mut tally = Tally::new(alloc);
    let mut text = Vec::new(alloc);
    let mut line = Vec::new(alloc);
    let mut values = Vec::new(alloc);
    for _ in 0..u64::MAX {
        read_line(records, &mut line)?;
        if line.is_empty() {
            // whatever it is: of an input without a record its one text is refused, also if it is blank
            judge_text(alloc, test, machine, &text, &mut values, &mut tally, writer)?;
            return Ok(tally);
        }
        take_line(
            alloc,
            test,
            machine,
            &mut text,
            &mut line,
            &mut values,
            &mut tally,
            writer,
        )?;
    }
    Err(Fault::ReadFailed)
}

/// Judges all texts and writes the table.
fn check_all<const B: usize, const M: usize, R: BufRead, W: Write>(
    alloc: Global,
    test: &Test,
    records: &mut R,
    writer: &mut W,
) -> Result<bool, Fault>
    requires some_capacity { 1 ≤ B }
    requires capacity { B ≤ 64 }
    requires words { MAX_LOCATIONS ≤ M }
    requires size { M ≤ 65536 }
    ensures checked { IfOk result (λ good. (out : List ℕ) × Appends (W.contents writer.old) (W.contents writer.new) out
        × OfLines (R.remaining records.old) (λ lines. IsChecked B M lines test.now (out, good))) }
    ensures err { IfErr result IsFailure }
    ensures left { OnStopped result (SomeWritten B M test.now (R.remaining records.old) (W.contents writer.old) (W.contents writer.new)) }
    ensures unwritten { OnUnwritten result ((out : List ℕ) × OfLines (R.remaining records.old) (λ lines. IsFront B M lines test.now out)) }
{
    let opening = test.opening(alloc)?;
    let mut machine = MachineState::<B, M>::open(alloc, &opening)?;
    let tally = judge_all(alloc, test, &mut machine, records, writer)?;
    tally.outcomes.has_lines(test);
    end_with_table(test, tally, writer)
}

/// Reads a litmus text to its end, and then records of its runs, one after the other. Each is judged once it
/// stands whole in the input, which is where the next one begins or the input ends, and its line is written
/// before anything further is read: whether its outcomes are those of its run on a machine with store buffers of
/// `B` stores and `M` words of memory, and whether the run finished; else the first event with another outcome,
/// with both, or why it is no record. After the last line comes the table of the outcomes. It answers whether no
/// record was refused: docs/formats.md has the lines. An input without a record is one text, also if it is empty, and
/// so is refused.
///
/// The litmus text is refused as `run` refuses it, before a record is read and with nothing written. The number
/// of records has no limit. Of a text and of a line no more is held than the largest record has and one byte, which is
/// enough to refuse it as too large. After a failed read or write, or where memory runs out, what was written before
/// stays written.
pub fn check_engine<const B: usize, const M: usize, F: Read, R: BufRead, W: Write>(
    alloc: Global,
    file: &mut F,
    records: &mut R,
    writer: &mut W,
) -> Result<bool, Fault>
    requires some_capacity { 1 ≤ B }
    requires capacity { B ≤ 64 }
    requires words { MAX_LOCATIONS ≤ M }
    requires size { M ≤ 65536 }
    ensures ends { EndsInteractive (IsCheckAnswer B M (R.remaining records.old) (F.remaining file.old)) result W.contents writer.old writer.new }
    ensures unread { IsRefused tests (F.remaining file.old) → records.new ≡ records.old }

    // where a read failed or memory ran out, the lines of the first texts were written, or nothing
    ensures left { OnStopped result ((out : List ℕ) × Appends (W.contents writer.old) (W.contents writer.new) out
        × ((out ≡ []) ⊎ IsCheckFront B M (R.remaining records.old) (F.remaining file.old) (Ok out))) }

    // where a write failed, the test was accepted, and the lines of the first texts were made
    ensures unwritten { OnUnwritten result ((out : List ℕ) × IsCheckFront B M (R.remaining records.old) (F.remaining file.old) (Ok out)) }
{
    let test = read_test(alloc, file)?;
    check_all::<B, M, R, W>(alloc, &test, records, writer)
}
