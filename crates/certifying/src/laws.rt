//! Laws of what the command answers.

ghost use Rattle.std.specs.Prelude.{ℕ, ◌≡◌, ◌<◌, List, Option, Result, Ok, None, Some, false};
ghost use Rattle.step_machine.specs.declared.events.Event.{Event};
ghost use Rattle.step_machine.specs.History.{OpeningValue};
ghost use Rattle.queue_certificates.specs.Certificates.{QueueCertificate};
ghost use Rattle.queue_checker.specs.Flaws.{first_flaw};
ghost use Rattle.ownership_runs.specs.declared.losses.Loss.{Loss};
ghost use Rattle.ownership_runs.specs.declared.steps.Step.{Step};
ghost use Rattle.engine_support.specs.declared.fault.Refusal.{Refusal};
ghost use Rattle.certifying.specs.Answers.{IsQueueAnswer};
ghost use Rattle.certifying.specs.Questions.{Questions};
ghost use Rattle.certifying.specs.Kept.{AreJudged, AreQueueAnswers, IsPromised, LosesRecord};
ghost use Rattle.certifying.specs.Lost.{IsRecordLost};
ghost use Rattle.certifying.specs.Queues.{queue_count};
ghost use Rattle.drawn_runs.specs.Samples.{DrawnRuns};
ghost use Rattle.certifying.specs.declared.judgement.Judgement.{Judgement};

use hart_safety::laws_of_hart_safety;
use ownership_runs::laws::{laws_of_judged_runs, laws_of_losses, laws_of_violations};
use queue_certificates::laws_of_queue_certificates;
use queue_checker::flaws::laws_of_flaws;
use queue_progress::laws_of_queue_progress;
use records_written::{laws_of_read_records, laws_of_written_records};

/// What the command promises. It does nothing.
///
/// - `promised`: where its answer is that the protocol is kept, every legal run of the text, of any length and schedule and with store
///   buffers of any size, keeps the protocol of ownership of each queue with indices, so that all that `slot_queue::laws_of_ownership`
///   promises holds of it, and that of slots that tell of each queue with tags, so that all that `slots_that_tell::laws_of_telling`
///   promises does; and what a receiver owns has the numbers of the fields that the answer lists. Where its reads are shown too, no party
///   loads a byte of a slot that it doesn't own, except of tags. Where it was asked if the queues go on, and that is shown too, in each
///   such run, of as many instructions in a row of a party as its line says, one moves its index, or is a load of the other's by which it
///   finds as few positions as the line says; and if no store to an index of a queue is pending, more is published or taken once each of
///   its parties has executed that many. Where all else that was asked is shown too, and bytes of records were asked about, in each such
///   run the sender of each queue has written each of these bytes, except those of a tag, of each record that it publishes, since the
///   record before in that slot was published, and its receiver has read each of those that are asked of it, except those of a tag, of each
///   record that it hands back, while it owned that record, as it had learned; and if the harts were asked about, none is ever stopped on a
///   machine of this memory, and each writes only bytes of its regions. Where not all of that is shown, or not the reads, the same holds of
///   each queue and of each hart whose line says that it is shown; and where a line says that a hart moves on in one of several queues, or
///   has to wait for one, of as many of its instructions in a row one moves one of its indices, or is such a load of the other's index of
///   one of its queues. Where its answer is that the protocol is broken, some legal run of the text doesn't keep that of some queue, first
///   by a store that is described, and then loses a record of that queue (`ownership_runs::laws_of_losses`, clause `lost`); and
///   where it is that the protocol described isn't kept, some legal run doesn't keep it, by a store that isn't described, which the protocol
///   doesn't have then (`ownership_runs::laws_of_violations`, clause `foreign`), or by one that is where no drawn run loses a record after such a store.
/// - `lost`: where drawn runs lose a record of a queue whose reads aren't shown, some legal run does.
/// - `one`: two answers to one input by the same drawn runs have one judgement, and are one text unless it may have a schedule; or they are
///   refusals of one number, except that a check may be given up where a number in it passes 2^64 - 1. Of a refused litmus text it isn't said
///   on which line its first fault stands.
pub fn laws_of_answers()
    ensures promised { (d : DrawnRuns) (asked : Questions) (file certificate : Option (List ℕ)) (text : List ℕ) (judgement : Judgement)
        → IsQueueAnswer d asked file certificate (Ok (text, judgement)) → AreJudged file certificate (IsPromised d.M asked (text, judgement)) }
    ensures lost { (d : DrawnRuns) (o : OpeningValue) (c : QueueCertificate) (i : ℕ) (part : List Event) (l : Loss) (steps : List Step)
        → first_flaw o c ≡ None → i < queue_count c → IsRecordLost d o c i false part l steps → LosesRecord o c i }
    ensures one { (d : DrawnRuns) (asked : Questions) (file certificate : List ℕ) (a b : Result (List ℕ × Judgement) Refusal)
        → IsQueueAnswer d asked (Some file) (Some certificate) a → IsQueueAnswer d asked (Some file) (Some certificate) b
        → AreQueueAnswers a b }
{
    laws_of_flaws();
    laws_of_written_records();
    laws_of_read_records();
    laws_of_hart_safety();
    laws_of_queue_progress();
    laws_of_queue_certificates();
    laws_of_violations();
    laws_of_losses();
    laws_of_judged_runs();
}
