//! Reading the tokens of a schedule text.

ghost use Rattle.std.specs.Prelude.{◌≡◌, ◌+◌, ◌-◌, ◌≤◌, ◌<◌, ◌^◌, ◌++◌, List, length, replicate, false, Ok, Err, IfOk, IfErr, OnOk, OnErr, vec_len};
ghost use Rattle.step_machine.specs.declared.events.Event.{Event};
ghost use Rattle.texts.specs.Results.{GivesUpToMemory, refusal_of};
ghost use Rattle.texts.specs.declared.errors.TextError.TheVariants.{Refused};
ghost use Rattle.recorder.specs.declared.faults.ScheduleFault.TheVariants.{BadHead};
ghost use Rattle.recorder.specs.Schedule.{OfHarts, IsTokensOf, IsPlainOf};
ghost use Rattle.recorder.specs.Reading.{piece_at, tokens_from, tokens_at, tokens_after, head, has_head, plain_at, Pushes};

use crate::faults::{ScheduleError, ScheduleFault};
use crate::heads::{HEAD, has_head};
use crate::tokens::run_of;
use std::alloc::{AllocError, Global};
use step_machine::events::Event;
use texts::{Separators, first_piece};

/// The most events that a schedule has.
pub const MAX_EVENTS: usize = 1_048_576;

/// Appends the item `times` times, or nothing where memory runs out.
pub(crate) fn push_run<E: Copy>(items: &mut Vec<E>, item: E, times: usize) -> Result<(), AllocError>
    requires { vec_len items.old + times < 2 ^ 32 }
    ensures ok { OnOk result (items.new.items ≡ items.old.items ++ replicate times item) }
    ensures len { OnOk result (vec_len items.new ≡ vec_len items.old + times) }
    ensures err { OnErr result (items.new.items ≡ items.old.items) }
{
    let len = items.len() + times;
    items.resize(len, item)
}

/// Appends the events of one piece, where `room` events may stand in all.
#[tactic(auto, unfolding(crate::specs::Reading::piece_at))]
fn push_piece(
    events: &mut Vec<Event>,
    piece: &[u8],
    place: usize,
    end: usize,
    room: usize,
) -> Result<(), ScheduleError>
    requires within { place + length piece.now ≤ end }
    requires few { vec_len events.old ≤ room }
    requires most { room ≤ MAX_EVENTS }
    ensures exact { Pushes events.old.items events.new.items result (piece_at end place (room - vec_len events.old) piece.now) }
    ensures refused { IfErr (piece_at end place (room - vec_len events.old) piece.now) (λ refusal. result ≡ Err (Refused refusal)) }
    ensures few { OnOk result (vec_len events.new ≤ room) }
{
    if piece.is_empty() {
        return Ok(());
    }
    let (event, times) = run_of(piece, place, end, room - events.len())?;
    push_run(events, event, times)?;
    Ok(())
}

/// The events of the tokens that a text has from the byte `start` on, where `room` events may come.
pub(crate) fn tokens_within(
    alloc: Global,
    text: &[u8],
    start: usize,
    room: usize,
) -> Result<Vec<Event>, ScheduleError>
    requires start { start ≤ length text.now }
    requires room { room ≤ MAX_EVENTS }
    ensures { GivesUpToMemory refusal_of (λ events. events.items) result (tokens_from start room text.now) }
{
    let mut events = Vec::new(alloc);
    let mut place = start;
    let mut rest = Some(&text[start..]);
    while let Some(bytes) = rest {
        let (piece, after) = first_piece(Separators::BlanksAndLineEnds, bytes);
        push_piece(&mut events, piece, place, text.len(), room)?;
        place += piece.len() + 1;
        rest = after;
    }
    Ok(events)
}

/// The events for which the text's tokens stand.
///
/// The first fault from the left is answered: `Truncated`, at the text's length, where the text ends
/// right after a token's letter or its `*`; else, at the token's first byte, `BadToken` for another
/// wrong shape, `BadHart` for a hart from 64 on, and `BadCount` for a count of 0, for one over
/// [`MAX_EVENTS`] and where the events so far pass it.
#[tactic(auto, using(texts::proofs::FormatLaws::found_of, texts::proofs::FormatLaws::found_as, texts::proofs::FormatLaws::only_of, crate::proofs::TextLaws::tokens_settled, crate::proofs::TextLaws::found_harts, crate::proofs::TextLaws::tokens_few))]
pub fn read_tokens(alloc: Global, text: &str) -> Result<Vec<Event>, ScheduleError>
    ensures found { IfOk result (λ events. IsTokensOf text.now events.items) }
    ensures only { (events : List Event) → IsTokensOf text.now events → GivesUpToMemory refusal_of (λ read. read.items) result (Ok events) }
    ensures exact { GivesUpToMemory refusal_of (λ events. events.items) result (tokens_at MAX_EVENTS text.now) }
    ensures harts { IfOk result (λ events. OfHarts events.items) }
    ensures few { IfOk result (λ events. length events.items ≤ MAX_EVENTS) }
{
    tokens_within(alloc, text.as_bytes(), 0, MAX_EVENTS)
}

/// The events of the schedule of events alone that stands in these bytes.
#[tactic(auto, unfolding(crate::specs::Reading::plain_at))]
fn plain_in(alloc: Global, text: &[u8]) -> Result<Vec<Event>, ScheduleError>
    ensures exact { GivesUpToMemory refusal_of (λ events. events.items) result (plain_at text.now) }
    ensures headless { has_head head text.now ≡ false → result ≡ Err (Refused (record { fault = BadHead; place = 0 })) }
{
    if !has_head(HEAD, text) {
        return Err(ScheduleFault::BadHead.at(0));
    }
    tokens_within(alloc, text, HEAD.len(), MAX_EVENTS)
}

/// The events of a schedule that says no outcomes: its first line is `ztso-schedule 1`, ended by LF,
/// CR LF or the end of the text, and tokens follow.
///
/// Another first line is `BadHead` at byte 0, also that of a record; then the first faulty token is
/// answered as [`read_tokens`] answers it, its place counted from the schedule's first byte.
#[tactic(auto, using(texts::proofs::FormatLaws::found_of, texts::proofs::FormatLaws::found_as, texts::proofs::FormatLaws::only_of, crate::proofs::HeadLaws::plain_settles, crate::proofs::HeadLaws::plain_harts, crate::proofs::HeadLaws::plain_few))]
pub fn read_plain(alloc: Global, text: &str) -> Result<Vec<Event>, ScheduleError>
    ensures found { IfOk result (λ events. IsPlainOf text.now events.items) }
    ensures only { (events : List Event) → IsPlainOf text.now events → GivesUpToMemory refusal_of (λ read. read.items) result (Ok events) }
    ensures exact { GivesUpToMemory refusal_of (λ events. events.items) result (plain_at text.now) }
    ensures headless { has_head head text.now ≡ false → result ≡ Err (Refused (record { fault = BadHead; place = 0 })) }
    ensures harts { IfOk result (λ events. OfHarts events.items) }
    ensures few { IfOk result (λ events. length events.items ≤ MAX_EVENTS) }
{
    plain_in(alloc, text.as_bytes())
}

/// The events of a further text's tokens, where `before` events stand already.
fn tokens_after(alloc: Global, text: &[u8], before: usize) -> Result<Vec<Event>, ScheduleError>
    ensures { GivesUpToMemory refusal_of (λ events. events.items) result (tokens_after before text.now) }
{
    let events = tokens_within(alloc, text, 0, MAX_EVENTS)?;
    let room = MAX_EVENTS.saturating_sub(before);
    if events.len() <= room {
        return Ok(events);
    }
    tokens_within(alloc, text, 0, room)
}

/// Appends the events of a list, or nothing where memory runs out. The list isn't copied where no event
/// stands before it.
fn push_list(events: &mut Vec<Event>, list: Vec<Event>) -> Result<(), AllocError>
    ensures ok { OnOk result (events.new.items ≡ events.old.items ++ list.items) }
    ensures err { OnErr result (events.new.items ≡ events.old.items) }
{
    if events.is_empty() {
        *events = list;
        return Ok(());
    }
    events.extend_from_slice(&list)
}

/// Appends the events for which the tokens of a further text stand; at an `Err` the events stay as
/// they were.
///
/// The total may be [`MAX_EVENTS`]. A fault of the text by itself is answered as [`read_tokens`]
/// answers it; where it has none and the total passes the limit, it is `BadCount` at the token that
/// passes it.
pub fn push_tokens_of(events: &mut Vec<Event>, text: &[u8]) -> Result<(), ScheduleError>
    ensures found { OnOk result ((read : List Event) × IsTokensOf text.now read × (events.new.items ≡ events.old.items ++ read)) }
    ensures only { (read : List Event) → IsTokensOf text.now read → vec_len events.old + length read ≤ MAX_EVENTS
        → Pushes events.old.items events.new.items result (Ok read) }
    ensures exact { Pushes events.old.items events.new.items result (tokens_after (vec_len events.old) text.now) }
{
    let read = tokens_after(*events.allocator(), text, events.len())?;
    push_list(events, read)?;
    Ok(())
}
