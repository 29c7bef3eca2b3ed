//! Writing certificates.

ghost use Rattle.std.specs.Prelude.{◌≡◌, ◌++◌, ◌∷◌, [], codes, map, IfOk, OnOk, Ok};
ghost use Rattle.std.specs.List.{flat_map};
ghost use Rattle.std.specs.String.{string_bytes};
ghost use Rattle.std.specs.Fmt.{decimal};
ghost use Rattle.certificate_reader.specs.CaseTexts.{arrow_lines, case_lines};
ghost use Rattle.certificate_reader.specs.declared.cases.Node.TheVariants as node;
ghost use Rattle.certificate_reader.specs.Reading.{certificate_at};
ghost use Rattle.certificate_reader.specs.Written.{CanBeWritten};
ghost use Rattle.certificate_reader.specs.Writing.{lines_text, line_if, form_text, own_word_text, node_line, tree_lines, state_lines, part_lines};
ghost use Rattle.certificate_reader.specs.Writing.{aim_lines, described_lines, front_lines, goal_line, goal_words, lacks_line, rank_lines, queue_line};
ghost use Rattle.certificate_reader.specs.Writing.{field_line, queue_lines, spaced, codec_words, telling_line, tagged_line, certificate_text};

use crate::form_texts::{push_form, push_forms, push_numbers, push_own_words};
use crate::known_texts::push_described;
use known_values::{Field, Form, OpenedQueue};
use queue_certificates::{Goal, OwnWord};
use queue_checker::{Arrow, CaseNode, Cases, HartPart, Lacked, ListedState, QueueCertificate};
use queue_layouts::{Codec, OpenedTagged};
use std::alloc::{AllocError, Global};
use texts::push_decimal;

/// Appends the line of this name and these numbers.
fn push_line(out: &mut String, name: &str, numbers: &[u64]) -> Result<(), AllocError>
    ensures { OnOk result (string_bytes out.new ≡ string_bytes out.old ++ lines_text [] ((name.now, map decimal numbers.now) ∷ [])) }
{
    out.push_str(name)?;
    push_numbers(out, numbers)?;
    out.push_str("\n")
}

/// Appends the line of where a leaf leads: to this state, with these forms for its variables.
fn push_to(out: &mut String, to: u32, forms: &[Form]) -> Result<(), AllocError>
    ensures { OnOk result (string_bytes out.new ≡ string_bytes out.old ++ lines_text [] ((codes "to", decimal to ∷ map form_text forms.now) ∷ [])) }
{
    out.push_str("to ")?;
    push_decimal(out, u64::from(to))?;
    push_forms(out, forms)?;
    out.push_str("\n")
}

/// Appends the line of a leaf, and those of where it leads.
fn push_leaf(out: &mut String, handed: &Form, arrows: &[Arrow]) -> Result<(), AllocError>
    ensures { OnOk result (string_bytes out.new ≡ string_bytes out.old ++ lines_text [] (tree_lines (node.Leaf handed.now ∷ arrow_lines arrows.now))) }
{
    out.push_str("leaf ")?;
    push_form(out, handed)?;
    out.push_str("\n")?;
    for arrow in arrows {
        push_to(out, arrow.to, &arrow.forms)?;
    }
    Ok(())
}

fn push_split(out: &mut String, variable: u32, most: u64) -> Result<(), AllocError>
    ensures { OnOk result (string_bytes out.new ≡ string_bytes out.old ++ lines_text [] (node_line (node.Split variable most) ∷ [])) }
{
    push_line(out, "split", &[u64::from(variable), most])
}

/// Appends the lines of a state's cases, a split before what its two sides have.
fn push_cases(out: &mut String, cases: &Cases) -> Result<(), AllocError>
    ensures { OnOk result (string_bytes out.new ≡ string_bytes out.old ++ lines_text [] (tree_lines (case_lines cases.now))) }
{
    match &cases.node {
        CaseNode::Leaf(handed, arrows) => push_leaf(out, handed, arrows),
        CaseNode::Split(variable, most, low, high) => {
            push_split(out, *variable, *most)?;
            push_cases(out, low)?;
            push_cases(out, high)
        }
    }
}

/// Appends the line of a state's ranks, if it has any.
fn push_ranks(out: &mut String, ranks: &[Form]) -> Result<(), AllocError>
    ensures { OnOk result (string_bytes out.new ≡ string_bytes out.old ++ lines_text [] (rank_lines ranks.now)) }
{
    match ranks {
        [] => Ok(()),
        [_, ..] => {
            out.push_str("rank")?;
            push_forms(out, ranks)?;
            out.push_str("\n")
        }
    }
}

/// Appends what is known in a state and which fields are right, and its ranks.
fn push_said(out: &mut String, state: &ListedState) -> Result<(), AllocError>
    ensures { OnOk result (string_bytes out.new ≡ string_bytes out.old ++ lines_text [] (described_lines state.now ++ rank_lines state.now.ranks)) }
{
    push_described(out, "", state)?;
    push_ranks(out, &state.ranks)
}

/// Appends the lines of a state: its pc, what is known and which fields are right, its ranks, and its cases.
pub fn push_state(out: &mut String, state: &ListedState) -> Result<(), AllocError>
    ensures { OnOk result (string_bytes out.new ≡ string_bytes out.old ++ lines_text [] (state_lines state.now)) }
{
    push_line(out, "state", &[u64::from(state.known.pc)])?;
    push_said(out, state)?;
    push_cases(out, &state.cases)
}

/// Appends the line of a hart's own words, if it has any.
fn push_own(out: &mut String, own: &[OwnWord]) -> Result<(), AllocError>
    ensures { OnOk result (string_bytes out.new ≡ string_bytes out.old ++ lines_text [] (line_if (codes "own") (map own_word_text own.now))) }
{
    match own {
        [] => Ok(()),
        [_, ..] => {
            out.push_str("own")?;
            push_own_words(out, own)?;
            out.push_str("\n")
        }
    }
}

/// Appends the line of how a hart opens.
fn push_opening(out: &mut String, first: u32, numbers: &[u64]) -> Result<(), AllocError>
    ensures { OnOk result (string_bytes out.new ≡ string_bytes out.old ++ lines_text [] ((codes "open", map decimal (first ∷ numbers.now)) ∷ [])) }
{
    out.push_str("open ")?;
    push_decimal(out, u64::from(first))?;
    push_numbers(out, numbers)?;
    out.push_str("\n")
}

/// Appends what ranks are for, each word after a space.
fn push_goal_words(out: &mut String, goal: Goal) -> Result<(), AllocError>
    ensures { OnOk result (string_bytes out.new ≡ string_bytes out.old ++ spaced (goal_words goal)) }
{
    match goal {
        Goal::Queue(queue, owned) => push_numbers(out, &[u64::from(queue), owned]),
        Goal::Tags(queue) => push_numbers(out, &[u64::from(queue)]),
        Goal::Together(owned) => {
            out.push_str(" -")?;
            push_numbers(out, &[owned])
        }
    }
}

fn push_goal(out: &mut String, goal: Goal) -> Result<(), AllocError>
    ensures { OnOk result (string_bytes out.new ≡ string_bytes out.old ++ lines_text [] (goal_line goal ∷ [])) }
{
    out.push_str("goes")?;
    push_goal_words(out, goal)?;
    out.push_str("\n")
}

fn push_goals(out: &mut String, goals: &[Goal]) -> Result<(), AllocError>
    ensures { OnOk result (string_bytes out.new ≡ string_bytes out.old ++ lines_text [] (map goal_line goals.now)) }
{
    for goal in goals {
        push_goal(out, *goal)?;
    }
    Ok(())
}

/// Appends numbers, each after a space.
fn push_words(out: &mut String, numbers: &[u32]) -> Result<(), AllocError>
    ensures { OnOk result (string_bytes out.new ≡ string_bytes out.old ++ spaced (map decimal numbers.now)) }
{
    for number in numbers {
        out.push_str(" ")?;
        push_decimal(out, u64::from(*number))?;
    }
    Ok(())
}

fn push_lacks(out: &mut String, queues: &[u32]) -> Result<(), AllocError>
    ensures { OnOk result (string_bytes out.new ≡ string_bytes out.old ++ lines_text [] (lacks_line queues.now ∷ [])) }
{
    out.push_str("lacks")?;
    push_words(out, queues)?;
    out.push_str("\n")
}

fn push_lacking(out: &mut String, lacking: &[Lacked]) -> Result<(), AllocError>
    ensures { OnOk result (string_bytes out.new ≡ string_bytes out.old ++ lines_text [] (map lacks_line lacking.now)) }
{
    for lacks in lacking {
        push_lacks(out, &lacks.queues)?;
    }
    Ok(())
}

/// Appends the hart's own words and how it opens.
fn push_front(out: &mut String, part: &HartPart) -> Result<(), AllocError>
    ensures { OnOk result (string_bytes out.new ≡ string_bytes out.old ++ lines_text [] (front_lines part.now)) }
{
    out.push_str("hart\n")?;
    push_own(out, &part.own)?;
    push_opening(out, part.first, &part.numbers)
}

/// Appends these, and what its ranks are for.
fn push_aims(out: &mut String, part: &HartPart) -> Result<(), AllocError>
    ensures { OnOk result (string_bytes out.new ≡ string_bytes out.old ++ lines_text [] (aim_lines part.now)) }
{
    push_front(out, part)?;
    push_goals(out, &part.goals)?;
    push_lacking(out, &part.lacking)
}

/// Appends a hart's part.
fn push_part(out: &mut String, part: &HartPart) -> Result<(), AllocError>
    ensures { OnOk result (string_bytes out.new ≡ string_bytes out.old ++ lines_text [] (part_lines part.now)) }
{
    push_aims(out, part)?;
    for state in &part.states {
        push_state(out, state)?;
    }
    Ok(())
}

fn push_parts(out: &mut String, parts: &[HartPart]) -> Result<(), AllocError>
    ensures { OnOk result (string_bytes out.new ≡ string_bytes out.old ++ lines_text [] (flat_map part_lines parts.now)) }
{
    for part in parts {
        push_part(out, part)?;
    }
    Ok(())
}

/// Appends the line of a queue without its fields.
fn push_opened(out: &mut String, opened: &OpenedQueue) -> Result<(), AllocError>
    ensures { OnOk result (string_bytes out.new ≡ string_bytes out.old ++ lines_text [] (queue_line opened.now ∷ [])) }
{
    let queue = opened.queue;
    let numbers = [
        u64::from(queue.sender),
        u64::from(queue.receiver),
        u64::from(queue.head),
        u64::from(queue.tail),
        u64::from(queue.index_width),
        u64::from(queue.slots),
        u64::from(queue.size),
        u64::from(queue.width),
        u64::from(queue.capacity),
        u64::from(queue.base),
        queue.scale,
        queue.offset,
        queue.modulus,
        opened.start,
    ];
    push_line(out, "queue", &numbers)
}

fn push_field(out: &mut String, field: Field) -> Result<(), AllocError>
    ensures { OnOk result (string_bytes out.new ≡ string_bytes out.old ++ lines_text [] (field_line field ∷ [])) }
{
    let numbers = [
        u64::from(field.at),
        u64::from(field.width),
        field.low,
        field.step,
        field.count,
    ];
    push_line(out, "field", &numbers)
}

/// Appends the lines of a queue.
fn push_queue(out: &mut String, opened: &OpenedQueue) -> Result<(), AllocError>
    ensures { OnOk result (string_bytes out.new ≡ string_bytes out.old ++ lines_text [] (queue_lines opened.now)) }
{
    push_opened(out, opened)?;
    for field in &opened.fields {
        push_field(out, *field)?;
    }
    Ok(())
}

fn push_queues(out: &mut String, queues: &[OpenedQueue]) -> Result<(), AllocError>
    ensures { OnOk result (string_bytes out.new ≡ string_bytes out.old ++ lines_text [] (flat_map queue_lines queues.now)) }
{
    for opened in queues {
        push_queue(out, opened)?;
    }
    Ok(())
}

/// Appends how tags tell, each word after a space.
fn push_codec(out: &mut String, codec: Codec) -> Result<(), AllocError>
    ensures { OnOk result (string_bytes out.new ≡ string_bytes out.old ++ spaced (codec_words codec)) }
{
    match codec {
        Codec::Zero => out.push_str(" zero"),
        Codec::Number => out.push_str(" number"),
        Codec::Bit { mask, free, full } => {
            out.push_str(" bits")?;
            push_numbers(out, &[u64::from(mask), u64::from(free), u64::from(full)])
        }
        Codec::Phases {
            mask,
            free,
            full,
            odd_free,
            odd_full,
        } => {
            out.push_str(" phases")?;
            let numbers = [
                u64::from(mask),
                u64::from(free),
                u64::from(full),
                u64::from(odd_free),
                u64::from(odd_full),
            ];
            push_numbers(out, &numbers)
        }
    }
}

/// Appends the line of a queue with tags: these numbers, how its tags tell, and more numbers.
fn push_telling(
    out: &mut String,
    before: &[u64],
    codec: Codec,
    after: &[u64],
) -> Result<(), AllocError>
    ensures { OnOk result (string_bytes out.new ≡ string_bytes out.old ++ lines_text [] (telling_line before.now codec after.now ∷ [])) }
{
    out.push_str("tagged")?;
    push_numbers(out, before)?;
    push_codec(out, codec)?;
    push_numbers(out, after)?;
    out.push_str("\n")
}

fn push_tagged(out: &mut String, opened: OpenedTagged) -> Result<(), AllocError>
    ensures { OnOk result (string_bytes out.new ≡ string_bytes out.old ++ lines_text [] (tagged_line opened ∷ [])) }
{
    let queue = opened.queue;
    let numbers = [
        u64::from(queue.sender),
        u64::from(queue.receiver),
        u64::from(queue.slots),
        u64::from(queue.size),
        u64::from(queue.width),
        u64::from(queue.tag_offset),
        u64::from(queue.tag_width),
    ];
    let start = opened.start;
    if queue.tags == queue.slots && queue.tag_stride == queue.width {
        return push_telling(out, &numbers, queue.codec, &[start]);
    }
    let tags = u64::from(queue.tags);
    let stride = u64::from(queue.tag_stride);
    push_telling(out, &numbers, queue.codec, &[start, tags, stride])
}

fn push_all_tagged(out: &mut String, tagged: &[OpenedTagged]) -> Result<(), AllocError>
    ensures { OnOk result (string_bytes out.new ≡ string_bytes out.old ++ lines_text [] (map tagged_line tagged.now)) }
{
    for opened in tagged {
        push_tagged(out, *opened)?;
    }
    Ok(())
}

#[tactic(auto, unfolding(crate::specs::Writing::certificate_text))]
fn text_of(alloc: Global, certificate: &QueueCertificate) -> Result<String, AllocError>
    ensures { IfOk result (λ text. string_bytes text ≡ certificate_text certificate.now) }
{
    let mut text = String::from_str(alloc, "ztso-queues 1\n")?;
    push_queues(&mut text, &certificate.queues)?;
    push_all_tagged(&mut text, &certificate.tagged)?;
    push_parts(&mut text, &certificate.harts)?;
    Ok(text)
}

/// The text of the certificate, which is read as this certificate again where that is within the limits. A text has own words of 1, 2
/// or 4 bytes alone: a certificate with one of another width is written, but its text isn't read.
#[tactic(auto, using(crate::proofs::CertificateAgain::written_again))]
pub fn write_certificate(
    alloc: Global,
    certificate: &QueueCertificate,
) -> Result<String, AllocError>
    ensures canonical { IfOk result (λ text. string_bytes text ≡ certificate_text certificate.now) }
    ensures again { CanBeWritten certificate.now → IfOk result (λ text. certificate_at (string_bytes text) ≡ Ok certificate.now) }
{
    let text = text_of(alloc, certificate)?;
    Ok(text)
}
