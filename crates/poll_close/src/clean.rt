//! Whether a channel's run keeps what a ring must: what breaks it, entry by entry.

ghost use Rattle.std.specs.Prelude.{◌≡◌, ◌≢◌, ◌≤◌, ◌<◌, ◌*◌, ◌^◌, ◌↔◌, ◌++◌, ◌∷◌, ℕ, IsTrue, IfOk, IsSome, List, Some, None, if◌then◌else◌, [], length, map};
ghost use Rattle.hart.specs.declared.need.Report.{Report};
ghost use Rattle.hart.specs.declared.need.Report.TheVariants.{Took, Closed};
ghost use Rattle.step_machine.specs.declared.events.Entry.{Entry};
ghost use Rattle.step_machine.specs.Entries.{reported};
ghost use Rattle.poll_close.specs.Layout.{Layout, base_of, layout_of};
ghost use Rattle.poll_close.specs.Reports.{Clean};
ghost use Rattle.poll_close.specs.Violations.{AreNotes, violation_of, report_violation, stays_within, first_violation, IsKept};

use crate::place::BlockPlace;
use hart::need::Report;
use hart::status::Stop;
use std::alloc::{AllocError, Global};
use step_machine::Entry;

/// What an entry breaks. Harts, senders and words are as in the entry.
#[derive(Clone, Copy, PartialEq, Eq)]
pub enum Violation {
    /// The receiver reports a word where its sender's list has another one next.
    Another {
        sender: u32,
        word: u32,
        next: u32,
    },
    /// It reports a word after the sender's whole list.
    AfterWhole {
        sender: u32,
        word: u32,
    },
    /// It reports a word after it reported the sender closed.
    AfterClosed {
        sender: u32,
        word: u32,
    },
    /// It reports a sender closed of which it has taken too few words.
    ClosedEarly {
        sender: u32,
        taken: usize,
        all: usize,
    },
    /// It reports a sender closed again.
    ClosedAgain {
        sender: u32,
    },
    /// It reports a word of no sender.
    TookOfNone {
        sender: u32,
        word: u32,
    },
    /// It reports what is no sender closed.
    ClosedNone {
        sender: u32,
    },
    /// A hart is stopped.
    Stopped {
        hart: u32,
        why: Stop,
    },
    /// A hart loads from memory outside its blocks.
    LoadedOutside {
        hart: u32,
        addr: u32,
    },
    /// A hart stores there.
    StoredOutside {
        hart: u32,
        addr: u32,
    },
    /// A hart exchanges a word there.
    ExchangedOutside {
        hart: u32,
        addr: u32,
    },
}

/// What is noted of a sender.
#[derive(Clone, Copy, PartialEq, Eq)]
pub struct Share {
    /// How many of its words were reported.
    pub taken: usize,
    /// Whether it was reported closed.
    pub closed: bool,
}

/// What is noted of this number of senders before any report.
pub fn no_shares(alloc: Global, senders: usize) -> Result<Vec<Share>, AllocError>
    ensures notes { IfOk result (λ shares. AreNotes [] shares.items) }
    ensures count { IfOk result (λ shares. length shares.items ≡ senders) }
{
    let none = Share {
        taken: 0,
        closed: false,
    };
    vec![in alloc; none; senders]
}

/// What the report of a word breaks; where it breaks nothing it is noted.
#[tactic(auto, using(crate::proofs::Notes::notes_word))]
fn note_word(shares: &mut [Share], lists: &[Vec<u32>], sender: u32, word: u32) -> Option<Violation>
    requires { length shares.old ≡ length lists.now }
    ensures violation { (rs : List Report) → AreNotes rs shares.old → result ≡ report_violation (map (λ v. v.items) lists.now) rs (Took sender word) }
    ensures notes { (rs : List Report) → AreNotes rs shares.old → result ≡ None → AreNotes (rs ++ Took sender word ∷ []) shares.new }
    ensures kept { IsSome result → shares.new ≡ shares.old }
    ensures count { length shares.new ≡ length shares.old }
{
    let index = sender as usize;
    if index >= lists.len() {
        return Some(Violation::TookOfNone { sender, word });
    }
    let share = shares[index];
    if share.closed {
        return Some(Violation::AfterClosed { sender, word });
    }
    let list = &lists[index];
    if share.taken >= list.len() {
        return Some(Violation::AfterWhole { sender, word });
    }
    let next = list[share.taken];
    if word != next {
        return Some(Violation::Another { sender, word, next });
    }
    shares[index] = Share {
        taken: share.taken + 1,
        closed: false,
    };
    None
}

/// What the report of an end breaks; where it breaks nothing it is noted.
#[tactic(auto, using(crate::proofs::Notes::notes_end))]
fn note_end(shares: &mut [Share], lists: &[Vec<u32>], sender: u32) -> Option<Violation>
    requires { length shares.old ≡ length lists.now }
    ensures violation { (rs : List Report) → AreNotes rs shares.old → result ≡ report_violation (map (λ v. v.items) lists.now) rs (Closed sender) }
    ensures notes { (rs : List Report) → AreNotes rs shares.old → result ≡ None → AreNotes (rs ++ Closed sender ∷ []) shares.new }
    ensures kept { IsSome result → shares.new ≡ shares.old }
    ensures count { length shares.new ≡ length shares.old }
{
    let index = sender as usize;
    if index >= lists.len() {
        return Some(Violation::ClosedNone { sender });
    }
    let share = shares[index];
    if share.closed {
        return Some(Violation::ClosedAgain { sender });
    }
    let all = lists[index].len();
    if share.taken < all {
        return Some(Violation::ClosedEarly {
            sender,
            taken: share.taken,
            all,
        });
    }
    shares[index] = Share {
        taken: share.taken,
        closed: true,
    };
    None
}

/// What a report breaks, given what is noted of the reports before; where it breaks nothing it is noted too.
pub fn note_report(shares: &mut [Share], lists: &[Vec<u32>], report: Report) -> Option<Violation>
    requires { length shares.old ≡ length lists.now }
    ensures violation { (rs : List Report) → AreNotes rs shares.old → result ≡ report_violation (map (λ v. v.items) lists.now) rs report }
    ensures notes { (rs : List Report) → AreNotes rs shares.old → result ≡ None → AreNotes (rs ++ report ∷ []) shares.new }
    ensures kept { IsSome result → shares.new ≡ shares.old }
    ensures count { length shares.new ≡ length shares.old }
{
    match report {
        Report::Took { sender, word } => note_word(shares, lists, sender, word),
        Report::Closed { sender } => note_end(shares, lists, sender),
    }
}

/// Whether these reports are clean, where the lists are those of senders 0, 1 and on. What comes after the first
/// violation isn't read.
#[tactic(auto, using(crate::proofs::Notes::unclean, crate::proofs::Notes::noted_more, crate::proofs::Notes::noted_none))]
pub fn is_clean(alloc: Global, reports: &[Report], lists: &[Vec<u32>]) -> Result<bool, AllocError>
    ensures { IfOk result (λ clean. IsTrue clean ↔ Clean reports.now (map (λ v. v.items) lists.now)) }
{
    let mut shares = no_shares(alloc, lists.len())?;
    for report in reports {
        match note_report(&mut shares, lists, *report) {
            None => {}
            Some(_) => return Ok(false),
        }
    }
    Ok(true)
}

/// Whether the bytes from an address on are within a block of the hart's.
#[tactic(auto, using(crate::proofs::Opened::rows_before, crate::proofs::ViolationLaws::stays_more))]
fn stays_within(place: BlockPlace, count: usize, hart: u32, addr: u32, width: u32) -> bool
    requires ends { base_of (layout_of place []) count < 2 ^ 32 }
    ensures { result ≡ stays_within (layout_of place []) count hart addr width }
{
    let stride = place.stride_or_dense();
    let size = 16 + 4 * place.slots as u64;
    let end = addr as u64 + width as u64;
    let mut begin = place.base as u64;
    for block in 0..count {
        let own = hart == 0 || hart as u64 == block as u64 + 1;
        if own && begin <= addr as u64 && end <= begin + size {
            return true;
        }
        begin += stride;
    }
    false
}

/// What an access of these bytes breaks.
fn outside(
    place: BlockPlace,
    count: usize,
    hart: u32,
    addr: u32,
    width: u32,
    found: Violation,
) -> Option<Violation>
    requires ends { base_of (layout_of place []) count < 2 ^ 32 }
    ensures { result ≡ (if stays_within (layout_of place []) count hart addr width then None else Some found) }
{
    if stays_within(place, count, hart, addr, width) {
        None
    } else {
        Some(found)
    }
}

/// What an entry breaks in a channel at a place, given what is noted of the entries before; where it breaks
/// nothing it is noted too.
#[tactic(auto, using(crate::proofs::Notes::entry_report, crate::proofs::Notes::entry_quiet))]
pub fn note_entry(
    shares: &mut [Share],
    lists: &[Vec<u32>],
    place: BlockPlace,
    entry: Entry,
) -> Option<Violation>
    requires count { length shares.old ≡ length lists.now }
    requires ends { base_of (layout_of place []) (length lists.now) < 2 ^ 32 }
    ensures violation { (before : List Entry) → AreNotes (reported 0 before) shares.old → result ≡ violation_of (layout_of place []) (map
        (λ v. v.items) lists.now) before entry }
    ensures notes { (before : List Entry) → AreNotes (reported 0 before) shares.old → result ≡ None → AreNotes (reported 0 (before ++ entry ∷ [])) shares.new }
    ensures kept { IsSome result → shares.new ≡ shares.old }
    ensures count { length shares.new ≡ length shares.old }
{
    let count = lists.len();
    match entry {
        Entry::Took {
            hart: 0,
            sender,
            word,
        } => note_word(shares, lists, sender, word),
        Entry::Closed { hart: 0, sender } => note_end(shares, lists, sender),
        Entry::Stopped { hart, why } => Some(Violation::Stopped { hart, why }),
        Entry::Load {
            hart,
            addr,
            width,
            ..
        } => outside(
            place,
            count,
            hart,
            addr,
            width,
            Violation::LoadedOutside { hart, addr },
        ),
        Entry::Store {
            hart,
            addr,
            width,
            ..
        } => outside(
            place,
            count,
            hart,
            addr,
            width,
            Violation::StoredOutside { hart, addr },
        ),
        Entry::Amo { hart, addr, .. } => {
            outside(
                place,
                count,
                hart,
                addr,
                4,
                Violation::ExchangedOutside { hart, addr },
            )
        }
        _ => None,
    }
}

/// The law of violations: a run has none exactly where its reports are clean, no hart is stopped and each touches
/// its blocks alone. It does nothing.
#[tactic(auto, using(crate::proofs::ViolationLaws::first_law))]
pub fn laws_of_violations()
    ensures { (l : Layout) (lists : List (List ℕ)) (es : List Entry) → (first_violation l lists es ≡ None) ↔ IsKept l lists es }
{}
