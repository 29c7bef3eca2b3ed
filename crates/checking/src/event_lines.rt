//! On which line of a record an event stands.

ghost use Rattle.std.specs.Prelude.{◌≡◌};
ghost use Rattle.texts.specs.Cutting.{after, is_byte};
ghost use Rattle.checking.specs.EventLines.{events_on, line_of_event, times_after};

use texts::cutting::cut_at;
use texts::{first_line, first_token, number};

/// How often an event stands that a token names.
fn times_of(token: &[u8]) -> u64
    ensures { result ≡ times_after (after (is_byte 42) token.now) }
{
    match cut_at(token, b'*').1 {
        None => 1,
        Some(digits) => number(digits).unwrap_or(0),
    }
}

/// How many events a line has. It may be any line of a record after its head line.
fn events_on(line: &[u8]) -> u64
    ensures { result ≡ events_on line.now }
{
    match first_token(line) {
        None => 0,
        Some((token, _)) => times_of(token),
    }
}

/// The line on which an event stands, counted from 1.
#[tactic(auto, using(crate::proofs::TextLaws::stands_here, crate::proofs::TextLaws::stands_later, crate::proofs::TextLaws::stands_nowhere))]
pub fn line_of_event(text: &[u8], event: usize) -> usize
    ensures { result ≡ line_of_event text.now event }
{
    let mut left = event as u64;
    let mut line = 2;
    let mut rest = match first_line(text) {
        None => return line,
        Some((_, rest)) => rest,
    };
    while let Some((bytes, after)) = first_line(rest) {
        let events = events_on(bytes);
        if left < events {
            return line;
        }
        left -= events;
        line += 1;
        rest = after;
    }
    line
}
