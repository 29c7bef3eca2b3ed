//! What else an accepted certificate of queues shows of a party of a queue with indices: that it goes on.
//!
//! The contract: [`progress_of`] returns how soon a party goes on, or the first state of which the rank doesn't fall, and
//! [`laws_of_queue_progress`] states what that means in every run. The certificate has ranking functions: each of a hart's states has a rank,
//! a form over its variables, that falls along each instruction which leaves the party's index. So as many follow on one another as the
//! greatest rank allows. This crate finds no ranks, checks no certificate, reads no text and runs no machine.
//!
//! Called by `certifying`.

#![tactic(auto)]

mod goals;
mod harts;
mod judging;
mod pace;
mod rank_checks;
mod row_bounds;
mod stays;
mod told;

ghost use Rattle.std.specs.Prelude.{ℕ, ◌≡◌, ◌<◌, ◌≤◌, List, ◌++◌, length, Some, true};
ghost use Rattle.step_machine.specs.declared.events.Entry.{Entry};
ghost use Rattle.step_machine.specs.History.{OpeningValue, history_of};
ghost use Rattle.step_machine.specs.Legal.{WellFormed};
ghost use Rattle.queue_parties.specs.Parties.{Party};
ghost use Rattle.slot_queue.specs.Ownership.{hart};
ghost use Rattle.queue_certificates.specs.Certificates.{QueueCertificate, queue_at, accepts};
ghost use Rattle.queue_progress.specs.Rows.{executed, counts_at, IsIdleStep, IsBlindStep, EachOwn};
ghost use Rattle.queue_certificates.specs.Forms.{Form};
ghost use Rattle.queue_progress.specs.declared.pace.Pace.{Pace as PaceOf};
ghost use Rattle.queue_progress.specs.declared.pace.Progress.TheVariants.{GoesOn};
ghost use Rattle.queue_progress.specs.declared.pace.ToldProgress.TheVariants.{Within};
ghost use Rattle.queue_progress.specs.Falling.{keeps_pace, keeps_looking};
ghost use Rattle.queue_progress.specs.Laws.{HartsGo, PartiesGo, QueuesArrive, QueuesMove, TellersArrive, TellersGo, TellersMove};
ghost use Rattle.queue_progress.specs.Progress.{progress_of, hart_pace_of, told_progress_of, keeps_going, hart_keeps_going, told_within};

pub use harts::{hart_pace_of, sides};
pub use judging::progress_of;
pub use pace::{Pace, Progress, ToldProgress};
pub use told::told_progress_of;

/// Where a certificate is accepted for an opening, in every legal run from it, of any length and with store buffers of any size, for a
/// party of a queue with indices. It does nothing.
///
/// - `shown`, `hart_shown`: where [`progress_of`] returns that a party goes on, or [`hart_pace_of`] that a hart does, its states' ranks keep it
///   going with these numbers.
/// - `pace`: wherever in the run, at most N of its instructions in a row are idle: at each the party owns more than K positions, as far
///   as it knows, and doesn't move its index.
/// - `looking`: at most L of its instructions in a row neither move its index nor load the other's.
/// - `going`: of any N + L + 2 of its instructions in a row one moves its index, or is a load of the other's by which it finds that it
///   owns at most K positions. So a party stands still only where the other does, and finds out what the other does.
/// - `hart_going`: of a hart that is a party of several queues, for all of them together: of any N + m * (L + 1) + 1 of its instructions in
///   a row, where m is how many queues it has, one moves one of its indices, or is a load of the other's index of a queue of which it
///   finds that it owns at most K positions. So it goes on in one of its queues, or finds that it has to wait for one.
/// - `stands`: where both parties go on, and while they wait own fewer positions together than the queue has: in every run in which both
///   indices have landed, and then each party executes its N + L + 2 instructions, in any order and beside other harts, more is
///   published or taken.
/// - `told_shown`: the same of what [`told_progress_of`] returns of a party of a queue with tags.
/// - `told_going`: of any N + 1 instructions in a row of such a party one moves its position, or is a load of that position's tag by which
///   it isn't told that the slot is its own. So it stands still only where the other does, and finds out what the other does.
/// - `told_stands`: where both parties have such a bound: in every run in which no store to a tag is pending, and then each party executes
///   its N + 1 instructions, in any order and beside other harts, one position more is published or taken.
/// - `arrives`, `told_arrives`: where `stands`, or `told_stands`, holds, and a store buffer has room for a store: if both harts run in every run,
///   there are entries from every run on after which more was published or taken. So no run comes to a standstill. If each of them runs or has ended in
///   every run, there are entries after which that is so, or one of the two has ended.
pub fn laws_of_queue_progress()
    ensures shown { (o : OpeningValue) (c : QueueCertificate) (h i : ℕ) (g : PaceOf) → progress_of o c h i ≡ GoesOn g → keeps_going o c h i g ≡ true }
    ensures hart_shown { (o : OpeningValue) (c : QueueCertificate) (h : ℕ) (g : PaceOf) → hart_pace_of o c h ≡ Some g → hart_keeps_going o c h g ≡ true }
    ensures told_shown { (o : OpeningValue) (c : QueueCertificate) (h t N : ℕ) → told_progress_of o c h t ≡ Within N → told_within o c h t N ≡ true }
    ensures pace { (B M : ℕ) (o : OpeningValue) (c : QueueCertificate) → accepts o c ≡ true → (i : ℕ) (p : Party) → i < length c.queues
        → (K : ℕ) (ranks : List Form) (N : ℕ) → keeps_pace o c (hart (queue_at c i) p) i K ranks N ≡ true → (es row : List Entry)
        → WellFormed B M (history_of o (es ++ row))
        → EachOwn (queue_at c i) p (IsIdleStep (queue_at c i) p K) (counts_at c i es) row → executed (hart (queue_at c i) p) row ≤ N }
    ensures looking { (B M : ℕ) (o : OpeningValue) (c : QueueCertificate) → accepts o c ≡ true → (i : ℕ) (p : Party) → i < length c.queues
        → (ranks : List Form) (L : ℕ) → keeps_looking o c (hart (queue_at c i) p) i ranks L ≡ true → (es row : List Entry)
        → WellFormed B M (history_of o (es ++ row))
        → EachOwn (queue_at c i) p (IsBlindStep (queue_at c i) p) (counts_at c i es) row → executed (hart (queue_at c i) p) row ≤ L }
    ensures going { PartiesGo }
    ensures stands { QueuesMove }
    ensures arrives { QueuesArrive }
    ensures hart_going { HartsGo }
    ensures told_going { TellersGo }
    ensures told_stands { TellersMove }
    ensures told_arrives { TellersArrive }
{}
