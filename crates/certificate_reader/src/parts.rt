//! What a line says of a queue or of what is known in a state, after its first word.

ghost use Rattle.std.specs.Prelude.{◌≡◌, IfOk, replicate};
ghost use Rattle.texts.specs.Results.{GivesUpToMemory, refusal_of};
ghost use Rattle.texts.specs.Cutting.{tokens};
ghost use Rattle.queue_certificates.specs.States.{any, no_share};
ghost use Rattle.certificate_reader.specs.Drafts.{queue_of, with_queue, only_value, with_value, form_at, share_of, with_share};

use crate::faults::{BAD, LineError, TOO_MANY};
use crate::forms::{form, value};
use crate::limits::MAX_QUEUES;
use crate::numbers::{end, first_five, first_word, four_counts};
use known_values::forms::number;
use known_values::{Form, KnownValue, OpenedQueue, Queue};
use queue_checker::Share;
use std::alloc::{AllocError, Global};
use texts::first_token;

/// The queue that the words say, and the count at which it opens.
#[tactic(auto, unfolding(crate::specs::Drafts::queue_of))]
fn queue(alloc: Global, text: &[u8]) -> Result<OpenedQueue, LineError>
    ensures { GivesUpToMemory refusal_of (λ queue. queue) result (queue_of (tokens text.now)) }
{
    let ((sender, receiver, head, tail, index_width), rest) = first_five(text)?;
    let ((slots, size, width, capacity, base), rest) = first_five(rest)?;
    let (scale, offset, modulus, start) = four_counts(rest)?;
    Ok(OpenedQueue {
        queue: Queue {
            sender,
            receiver,
            head,
            tail,
            index_width,
            slots,
            size,
            width,
            capacity,
            base,
            scale,
            offset,
            modulus,
        },
        start,
        fields: Vec::new(alloc),
    })
}

/// Adds the queue that the words say.
#[tactic(auto, unfolding(crate::specs::Drafts::with_queue))]
pub fn add_queue(alloc: Global, queues: &mut Vec<OpenedQueue>, text: &[u8]) -> Result<(), LineError>
    ensures { GivesUpToMemory refusal_of (λ x. queues.new.items) result (with_queue queues.old.items (tokens text.now)) }
{
    let queue = queue(alloc, text)?;
    if queues.len() >= MAX_QUEUES {
        return Err(TOO_MANY);
    }
    queues.push(queue)?;
    Ok(())
}

fn only_value(
    alloc: Global,
    queues: usize,
    variables: usize,
    text: &[u8],
) -> Result<KnownValue, LineError>
    ensures { GivesUpToMemory refusal_of (λ value. value) result (only_value queues variables (tokens text.now)) }
{
    let (word, rest) = first_token(text).ok_or(BAD)?;
    end(rest)?;
    value(alloc, queues, variables, word)
}

/// Takes what the words say is known at one of the places from `least` on.
#[tactic(auto, unfolding(crate::specs::Drafts::with_value))]
pub fn set_value(
    alloc: Global,
    least: usize,
    queues: usize,
    variables: usize,
    values: &mut Vec<KnownValue>,
    text: &[u8],
) -> Result<(), LineError>
    ensures { GivesUpToMemory refusal_of (λ x. values.new.items) result (with_value least queues variables values.old.items (tokens text.now)) }
{
    let (place, rest) = first_word(text)?;
    let value = only_value(alloc, queues, variables, rest)?;
    let place = place as usize;
    if place < least || place >= values.len() {
        return Err(BAD);
    }
    values[place] = value;
    Ok(())
}

/// The form that the first word says, and what follows.
pub fn first_form(alloc: Global, variables: usize, text: &[u8]) -> Result<(Form, &[u8]), LineError>
    ensures { GivesUpToMemory refusal_of (λ cut. (cut.0, tokens cut.1.now)) result (form_at variables (tokens text.now)) }
{
    let (word, rest) = first_token(text).ok_or(BAD)?;
    let form = form(alloc, variables, word)?;
    Ok((form, rest))
}

#[tactic(auto, unfolding(crate::specs::Drafts::share_of))]
fn share(alloc: Global, variables: usize, text: &[u8]) -> Result<Share, LineError>
    ensures { GivesUpToMemory refusal_of (λ share. share) result (share_of variables (tokens text.now)) }
{
    let (own, rest) = first_form(alloc, variables, text)?;
    let (owned, rest) = first_form(alloc, variables, rest)?;
    end(rest)?;
    Ok(Share { own, owned })
}

/// Takes what the words say of the hart's share of a queue.
#[tactic(auto, unfolding(crate::specs::Drafts::with_share))]
pub fn set_share(
    alloc: Global,
    variables: usize,
    shares: &mut Vec<Share>,
    text: &[u8],
) -> Result<(), LineError>
    ensures { GivesUpToMemory refusal_of (λ x. shares.new.items) result (with_share variables shares.old.items (tokens text.now)) }
{
    let (place, rest) = first_word(text)?;
    let share = share(alloc, variables, rest)?;
    let place = place as usize;
    if place >= shares.len() {
        return Err(BAD);
    }
    shares[place] = share;
    Ok(())
}

/// Of this number of registers or words nothing is known.
pub fn unknown(alloc: Global, count: usize) -> Result<Vec<KnownValue>, AllocError>
    ensures { IfOk result (λ values. values.items ≡ replicate count any) }
{
    let mut values = Vec::new(alloc);
    for _ in 0..count {
        values.push(known_values::values::any())?;
    }
    Ok(values)
}

/// Of this number of queues the hart has no share.
pub fn no_shares(alloc: Global, count: usize) -> Result<Vec<Share>, AllocError>
    ensures { IfOk result (λ shares. shares.items ≡ replicate count no_share) }
{
    let mut shares = Vec::new(alloc);
    for _ in 0..count {
        shares.push(Share {
            own: number(alloc, 0),
            owned: number(alloc, 0),
        })?;
    }
    Ok(shares)
}
