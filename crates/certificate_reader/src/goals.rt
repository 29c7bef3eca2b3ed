//! What a line says of what the ranks of a hart's states are for, after its first word.

ghost use Rattle.std.specs.Prelude.{◌≡◌};
ghost use Rattle.texts.specs.Results.{GivesUpToMemory, refusal_of};
ghost use Rattle.texts.specs.Cutting.{tokens};
ghost use Rattle.certificate_reader.specs.Goals.{goal_for, goal_in, goal_of_queue, goal_together, only_count, with_goal, with_lacking, words_in};

use crate::faults::{BAD, LineError, TOO_MANY};
use crate::limits::MAX_GOALS;
use crate::numbers::{end, first_count, first_word};
use queue_certificates::Goal;
use queue_checker::Lacked;
use std::alloc::Global;
use texts::{first_token, word};

/// The count that is all of the words.
#[tactic(auto, unfolding(crate::specs::Goals::only_count))]
fn only_count(text: &[u8]) -> Result<u64, LineError>
    ensures { GivesUpToMemory refusal_of (λ x. x) result (only_count (tokens text.now)) }
{
    let (count, rest) = first_count(text)?;
    end(rest)?;
    Ok(count)
}

fn goal_for(queue: u32, text: &[u8]) -> Result<Goal, LineError>
    ensures { GivesUpToMemory refusal_of (λ goal. goal) result (goal_for queue (tokens text.now)) }
{
    if first_token(text).is_none() {
        return Ok(Goal::Tags(queue));
    }
    Ok(Goal::Queue(queue, only_count(text)?))
}

#[tactic(auto, unfolding(crate::specs::Goals::goal_of_queue))]
fn goal_of_queue(text: &[u8]) -> Result<Goal, LineError>
    ensures { GivesUpToMemory refusal_of (λ goal. goal) result (goal_of_queue (tokens text.now)) }
{
    let (queue, rest) = first_word(text)?;
    goal_for(queue, rest)
}

#[tactic(auto, unfolding(crate::specs::Goals::goal_together))]
fn goal_together(text: &[u8]) -> Result<Goal, LineError>
    ensures { GivesUpToMemory refusal_of (λ goal. goal) result (goal_together (tokens text.now)) }
{
    Ok(Goal::Together(only_count(text)?))
}

/// The goal that the words say: of a queue, or of all queues with indices together.
fn goal(text: &[u8]) -> Result<Goal, LineError>
    ensures { GivesUpToMemory refusal_of (λ goal. goal) result (goal_in (tokens text.now)) }
{
    let (word, rest) = first_token(text).ok_or(BAD)?;
    if word == b"-".as_slice() {
        return goal_together(rest);
    }
    goal_of_queue(text)
}

/// Adds the goal that the words say.
#[tactic(auto, unfolding(crate::specs::Goals::with_goal))]
pub fn add_goal(goals: &mut Vec<Goal>, text: &[u8]) -> Result<(), LineError>
    ensures { GivesUpToMemory refusal_of (λ x. goals.new.items) result (with_goal goals.old.items (tokens text.now)) }
{
    let goal = goal(text)?;
    if goals.len() >= MAX_GOALS {
        return Err(TOO_MANY);
    }
    goals.push(goal)?;
    Ok(())
}

/// The numbers below 2^32 that the words say.
#[tactic(auto, unfolding(crate::specs::Goals::words_in, texts::specs::Formats::each))]
fn words(alloc: Global, text: &[u8]) -> Result<Vec<u32>, LineError>
    ensures { GivesUpToMemory refusal_of (λ numbers. numbers.items) result (words_in (tokens text.now)) }
{
    let mut numbers = Vec::new(alloc);
    let mut rest = text;
    while let Some((digits, after)) = first_token(rest) {
        numbers.push(word(digits).ok_or(BAD)?)?;
        rest = after;
    }
    Ok(numbers)
}

/// Adds the set of queues, which a hart may lack, that the words say.
#[tactic(auto, unfolding(crate::specs::Goals::with_lacking))]
pub fn add_lacking(alloc: Global, lacking: &mut Vec<Lacked>, text: &[u8]) -> Result<(), LineError>
    ensures { GivesUpToMemory refusal_of (λ x. lacking.new.items) result (with_lacking lacking.old.items (tokens text.now)) }
{
    let queues = words(alloc, text)?;
    if lacking.len() >= MAX_GOALS {
        return Err(TOO_MANY);
    }
    lacking.push(Lacked { queues })?;
    Ok(())
}
