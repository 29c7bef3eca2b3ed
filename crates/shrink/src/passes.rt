//! Passes over a list of events that leave out what it needn't have: pieces without which it is still wanted.

ghost use Rattle.std.specs.Prelude.{◌≡◌, ◌≤◌, ◌<◌, ◌+◌, ◌*◌, ℕ, true, false, IfOk, Ok, OnOk, OnErr, length};
ghost use Rattle.shrink.specs.Shrinking.{IsPartOf, without as events_without};

use std::alloc::{AllocError, Global};
use step_machine::Event;

/// A question about lists of events, and what it takes to answer it.
pub trait Question {
    ghost use Rattle.std.specs.Prelude.{◌↔◌, List, IsTrue, IfOk, OnOk};
    ghost use Rattle.step_machine.specs.declared.events.Event.{Event};

    /// What lists of events are tried on, as a machine.
    type Bench;

    /// What a bench must meet before an answer, and meets after it.
    ghost stands: { Self → Self.Bench → Type 0 };

    /// That a list is one that is wanted.
    ghost holds: { Self → List Event → Type 0 };

    /// Whether the list is one that is wanted.
    fn holds_of(
        &self,
        alloc: Global,
        bench: &mut Self::Bench,
        events: &[Event],
    ) -> Result<bool, AllocError>
        requires { stands self.now bench.old }
        ensures holds { IfOk result (λ b. IsTrue b ↔ holds self.now events.now) }
        ensures stands { OnOk result (stands self.now bench.new) };
}

/// The events without `count` of them, from `from` on.
fn without(
    alloc: Global,
    events: &[Event],
    from: usize,
    count: usize,
) -> Result<Vec<Event>, AllocError>
    requires { from + count ≤ length events.now }
    ensures { IfOk result (λ left. left.items ≡ events_without from count events.now) }
{
    let mut left = Vec::new(alloc);
    left.extend_from_slice(&events[..from])?;
    left.extend_from_slice(&events[from + count..])?;
    Ok(left)
}

/// Leaves out each piece of `size` events without which the list is still wanted, the first piece first,
/// and answers whether one went. An error leaves a part that is wanted.
fn leave_out_pieces<Q: Question>(
    alloc: Global,
    question: &Q,
    bench: &mut Q::Bench,
    events: &mut Vec<Event>,
    size: usize,
) -> Result<bool, AllocError>
    requires stands { Q.stands question.now bench.old }
    requires holds { Q.holds question.now events.old.items }
    requires some { 1 ≤ size }
    ensures stands { OnOk result (Q.stands question.now bench.new) }
    ensures holds { Q.holds question.now events.new.items }
    ensures part { IsPartOf events.new.items events.old.items }
    ensures went { result ≡ Ok true → length events.new.items < length events.old.items }
    ensures stayed { result ≡ Ok false → events.new.items ≡ events.old.items }
    ensures none_can { result ≡ Ok false → (k : ℕ) → k * size < length events.new.items
        → Q.holds question.now (events_without (k * size) size events.new.items) → ⊥ }
{
    let mut went = false;
    let mut from = 0;
    while from < events.len() {
        let count = size.min(events.len() - from);
        let left = without(alloc, events, from, count)?;
        if question.holds_of(alloc, bench, &left)? {
            *events = left;
            went = true;
        } else {
            from += count;
        }
    }
    Ok(went)
}

/// Leaves out pieces of half the events, of half that size and so on, while a piece has two events or more.
/// Sizes are rounded down: the last one is 2 or 3, and of fewer than four events no piece is tried.
#[tactic(auto, using(crate::proofs::PartLaws::part_whole, crate::proofs::PartLaws::part_of_part))]
fn halve_pieces<Q: Question>(
    alloc: Global,
    question: &Q,
    bench: &mut Q::Bench,
    events: &mut Vec<Event>,
) -> Result<(), AllocError>
    requires stands { Q.stands question.now bench.old }
    requires holds { Q.holds question.now events.old.items }
    ensures stands { OnOk result (Q.stands question.now bench.new) }
    ensures holds { Q.holds question.now events.new.items }
    ensures part { IsPartOf events.new.items events.old.items }
{
    let mut size = events.len() / 2;
    while size > 1 {
        leave_out_pieces(alloc, question, bench, events, size)?;
        size /= 2;
    }
    Ok(())
}

/// Leaves out pieces of halving size, and then single events until none can go. Err where memory runs out, or as
/// the question is answered, and leaves a part that is wanted too.
#[tactic(auto, using(crate::proofs::PartLaws::part_of_part))]
pub fn leave_out<Q: Question>(
    alloc: Global,
    question: &Q,
    bench: &mut Q::Bench,
    events: &mut Vec<Event>,
) -> Result<(), AllocError>
    requires stands { Q.stands question.now bench.old }
    requires holds { Q.holds question.now events.old.items }
    ensures stands { OnOk result (Q.stands question.now bench.new) }
    ensures holds { Q.holds question.now events.new.items }
    ensures part { IsPartOf events.new.items events.old.items }
    ensures minimal { OnOk result ((i : ℕ) → i < length events.new.items → Q.holds question.now (events_without i 1 events.new.items) → ⊥) }
{
    halve_pieces(alloc, question, bench, events)?;
    let mut went = true;
    while went {
        went = leave_out_pieces(alloc, question, bench, events, 1)?;
    }
    Ok(())
}
