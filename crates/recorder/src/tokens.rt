//! One token of a schedule text.

ghost use Rattle.std.specs.Prelude.{◌≡◌, ◌+◌, ◌≤◌, ◌||◌, ℕ, is_some, option_map, length, Err, IfOk, IfErr};
ghost use Rattle.step_machine.specs.declared.events.Event.{Event};
ghost use Rattle.recorder.specs.Schedule.{numbers as run_numbers, token};
ghost use Rattle.texts.specs.Results.{GivesUpToMemory, refusal_of};
ghost use Rattle.texts.specs.declared.errors.TextError.TheVariants.{Refused};
ghost use Rattle.recorder.specs.Reading.{is_cut, event_of_kind, run_of_token, run_at};

use crate::faults::{ScheduleError, ScheduleFault};
use step_machine::events::Event;
use step_machine::opening::MAX_HARTS;
use texts::cutting::cut_at;
use texts::number;

/// What a token's letter says.
#[derive(Clone, Copy)]
pub enum Kind {
    Act,
    Land,
}

/// What a token says, before its numbers are judged.
#[derive(Clone, Copy)]
pub struct Token {
    pub kind: Kind,
    pub hart: u64,
    pub times: u64,
}

impl Kind {
    /// The event of this kind.
    fn of_hart(self, hart: u32) -> Event
        ensures { result ≡ event_of_kind self hart }
    {
        match self {
            Kind::Act => Event::Act(hart),
            Kind::Land => Event::Land(hart),
        }
    }
}

/// The hart and the count after a token's letter; no count is once.
#[tactic(auto, unfolding(crate::specs::Schedule::numbers))]
fn numbers_in(numbers: &[u8]) -> Option<(u64, u64)>
    ensures { result ≡ run_numbers.reads numbers.now }
{
    match cut_at(numbers, b'*') {
        (hart, None) => Some((number(hart)?, 1)),
        (hart, Some(times)) => Some((number(hart)?, number(times)?)),
    }
}

/// What the word says as a token; `None` where its shape is another one.
#[tactic(auto, unfolding(crate::specs::Schedule::token))]
fn token_in(word: &[u8]) -> Option<Token>
    ensures { option_map run_of_token result ≡ token.reads word.now }
{
    let (kind, numbers) = match word {
        [b'a', numbers @ ..] => (Kind::Act, numbers),
        [b'l', numbers @ ..] => (Kind::Land, numbers),
        _ => return None,
    };
    let (hart, times) = numbers_in(numbers)?;
    Some(Token { kind, hart, times })
}

/// Whether the word is a token that ends too early: a letter alone, or a letter, a hart and a `*`.
#[tactic(auto, unfolding(crate::specs::Reading::is_cut))]
fn is_cut_short(word: &[u8]) -> bool
    ensures { result ≡ is_cut word.now }
{
    match word {
        [b'a' | b'l', numbers @ ..] => match cut_at(numbers, b'*') {
            (hart, None) => hart.is_empty(),
            (hart, Some(times)) => times.is_empty() && number(hart).is_some(),
        },
        _ => false,
    }
}

/// Whether the word is a token, or one that ends too early.
pub fn may_begin(word: &[u8]) -> bool
    ensures { result ≡ (is_cut word.now || is_some (token.reads word.now)) }
{
    is_cut_short(word) || token_in(word).is_some()
}

/// The event for which the word stands, and how often, where the word begins at `place` in a text of
/// `end` bytes and `room` more events may come.
#[tactic(auto, unfolding(crate::specs::Reading::run_at))]
pub fn run_of(
    word: &[u8],
    place: usize,
    end: usize,
    room: usize,
) -> Result<(Event, usize), ScheduleError>
    requires { place + length word.now ≤ end }
    ensures exact { GivesUpToMemory refusal_of (λ (run : Event × ℕ). run) result (run_at end place room word.now) }
    ensures refused { IfErr (run_at end place room word.now) (λ refusal. result ≡ Err (Refused refusal)) }
    ensures few { IfOk result (λ run. run.1 ≤ room) }
{
    let Some(token) = token_in(word) else {
        return Err(if is_cut_short(word) && place + word.len() == end {
            ScheduleFault::Truncated.at(end)
        } else {
            ScheduleFault::BadToken.at(place)
        });
    };
    if token.hart >= MAX_HARTS as u64 {
        return Err(ScheduleFault::BadHart.at(place));
    }
    let times = usize::try_from(token.times).unwrap_or(usize::MAX);
    if times == 0 || times > room {
        return Err(ScheduleFault::BadCount.at(place));
    }
    Ok((token.kind.of_hart(token.hart as u32), times))
}
