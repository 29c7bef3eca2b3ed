//! A queue with tags, after the first word of its line.

ghost use Rattle.std.specs.Prelude.{◌≡◌};
ghost use Rattle.texts.specs.Results.{GivesUpToMemory, refusal_of};
ghost use Rattle.texts.specs.Cutting.{tokens};
ghost use Rattle.certificate_reader.specs.Tags.{codec_of, bits_in, phases_in, first_codec_in, elements_in, tagged_of, with_tagged};

use crate::faults::{BAD, LineError, TOO_MANY};
use crate::limits::{MAX_SLOTS, MAX_TAGGED};
use crate::numbers::{end, first_count, first_five, first_word};
use queue_layouts::{Codec, OpenedTagged, TaggedQueue};
use texts::first_token;

/// How a tag tells, where one word says it.
fn codec(word: &[u8]) -> Option<Codec>
    ensures { result ≡ codec_of word.now }
{
    if word == b"zero".as_slice() {
        Some(Codec::Zero)
    } else if word == b"number".as_slice() {
        Some(Codec::Number)
    } else {
        None
    }
}

/// The bits of a tag that tell, and what follows: a mask, and what is under it in a free slot and in a full one.
#[tactic(auto, unfolding(crate::specs::Tags::bits_in))]
fn bits(text: &[u8]) -> Result<(Codec, &[u8]), LineError>
    ensures { GivesUpToMemory refusal_of (λ cut. (cut.0, tokens cut.1.now)) result (bits_in (tokens text.now)) }
{
    let (mask, rest) = first_word(text)?;
    let (free, rest) = first_word(rest)?;
    let (full, rest) = first_word(rest)?;
    Ok((Codec::Bit { mask, free, full }, rest))
}

/// The same of bits that turn with the rounds: a mask, what is under it in a free slot and in a full one in even rounds, and what in odd ones.
#[tactic(auto, unfolding(crate::specs::Tags::phases_in))]
fn phases(text: &[u8]) -> Result<(Codec, &[u8]), LineError>
    ensures { GivesUpToMemory refusal_of (λ cut. (cut.0, tokens cut.1.now)) result (phases_in (tokens text.now)) }
{
    let ((mask, free, full, odd_free, odd_full), rest) = first_five(text)?;
    Ok((
        Codec::Phases {
            mask,
            free,
            full,
            odd_free,
            odd_full,
        },
        rest,
    ))
}

/// How a tag tells as the first words say it, and what follows.
#[tactic(auto, unfolding(crate::specs::Tags::first_codec_in, crate::specs::Tags::codec_by))]
fn first_codec(text: &[u8]) -> Result<(Codec, &[u8]), LineError>
    ensures { GivesUpToMemory refusal_of (λ cut. (cut.0, tokens cut.1.now)) result (first_codec_in (tokens text.now)) }
{
    let (word, rest) = first_token(text).ok_or(BAD)?;
    if word == b"bits".as_slice() {
        return bits(rest);
    }
    if word == b"phases".as_slice() {
        return phases(rest);
    }
    let codec = codec(word).ok_or(BAD)?;
    Ok((codec, rest))
}

/// Where the elements with the tags begin, and how many bytes one has, and what follows. Without more words they are the slots.
fn elements(slots: u32, width: u32, text: &[u8]) -> Result<((u32, u32), &[u8]), LineError>
    ensures { GivesUpToMemory refusal_of (λ cut. (cut.0, tokens cut.1.now)) result (elements_in slots width (tokens text.now)) }
{
    if first_token(text).is_none() {
        return Ok(((slots, width), text));
    }
    let (tags, rest) = first_word(text)?;
    let (stride, rest) = first_word(rest)?;
    Ok(((tags, stride), rest))
}

/// The queue that the words say, and the position with which it opens.
#[tactic(auto, unfolding(crate::specs::Tags::tagged_of))]
fn opened_tagged(text: &[u8]) -> Result<OpenedTagged, LineError>
    ensures { GivesUpToMemory refusal_of (λ opened. opened) result (tagged_of (tokens text.now)) }
{
    let ((sender, receiver, slots, size, width), rest) = first_five(text)?;
    let (tag_offset, rest) = first_word(rest)?;
    let (tag_width, rest) = first_word(rest)?;
    let (codec, rest) = first_codec(rest)?;
    let (start, rest) = first_count(rest)?;
    let ((tags, tag_stride), rest) = elements(slots, width, rest)?;
    end(rest)?;
    Ok(OpenedTagged {
        queue: TaggedQueue {
            sender,
            receiver,
            slots,
            size,
            width,
            tags,
            tag_stride,
            tag_offset,
            tag_width,
            codec,
        },
        start,
    })
}

/// Adds the queue that the words say.
#[tactic(auto, unfolding(crate::specs::Tags::with_tagged))]
pub fn add_tagged(tagged: &mut Vec<OpenedTagged>, text: &[u8]) -> Result<(), LineError>
    ensures { GivesUpToMemory refusal_of (λ x. tagged.new.items) result (with_tagged tagged.old.items (tokens text.now)) }
{
    let opened = opened_tagged(text)?;
    if opened.queue.size > MAX_SLOTS {
        return Err(TOO_MANY);
    }
    if tagged.len() >= MAX_TAGGED {
        return Err(TOO_MANY);
    }
    tagged.push(opened)?;
    Ok(())
}
