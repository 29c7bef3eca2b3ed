//! Laws of runs, which hold of every machine.

ghost use Rattle.std.specs.Prelude.{◌≡◌, ◌<◌, ◌%◌, ◌↔◌, ℕ, Bool, IsTrue, List, All, length};
ghost use Rattle.std.specs.List.{slice_get};
ghost use Rattle.step_machine.specs.History.{OpeningValue, History, history_of, at_opening};
ghost use Rattle.step_machine.specs.Entries.{landed, landed_by_count, memory_word, own, pending, read};
ghost use Rattle.step_machine.specs.Legal.{IsOfHarts, WellFormed, Legal};
ghost use Rattle.step_machine.specs.Paths.{PathOf};
ghost use Rattle.step_machine.specs.Access.{memory_of};
ghost use Rattle.step_machine.specs.Placing.{diary_of, placed, IsMemoryEntry, Parts};
ghost use Rattle.step_machine.specs.Positions.{IsSoundMachine, AreOfOneOpening, IsPositionOf, position_of, outcome_at, next_position, packed, put_at};
ghost use Rattle.step_machine.specs.Standing.{RepresentsHistory};
ghost use Rattle.step_machine.specs.inner.Config.{Config, outcome_of, after_outcome};
ghost use Rattle.step_machine.specs.Runs.{Happens, Run, IsOwnRun};
ghost use Rattle.step_machine.specs.WordReads.{AllWriteWords, OpensWithWords, word_in_memory, word_read};
ghost use Rattle.step_machine.specs.declared.events.Entry.{Entry};
ghost use Rattle.step_machine.specs.declared.events.Event.{Event};
ghost use Rattle.step_machine.specs.declared.events.Outcome.{Outcome};

/// The laws of runs. Each list of events makes one history of an opening, and only one; that history
/// begins at the opening, is legal, has a path for each hart and no other hart's entries. Each such
/// history is the run of its own entries' events. A test that the opening passes and each event keeps,
/// each run passes. In a legal history the k-th landing of a hart writes its k-th store. Where all stores
/// and AMOs are of whole words, reads of words are stated without bytes. It does nothing.
pub fn laws_of_runs()
    ensures exists { (B M : ℕ) (o : OpeningValue) (evs : List Event) → (t : History) × Run B M o evs t }
    ensures one { (B M : ℕ) (o : OpeningValue) (evs : List Event) (t u : History) → Run B M o evs t → Run B M o evs u → t ≡ u }
    ensures kept { (B M : ℕ) (o : OpeningValue) (evs : List Event) (t : History) → Run B M o evs t → WellFormed B M t }
    ensures opening { (B M : ℕ) (o : OpeningValue) (evs : List Event) (t : History) → Run B M o evs t → t.opening ≡ o }
    ensures harts { (B M : ℕ) (o : OpeningValue) (evs : List Event) (t : History) → Run B M o evs t → All (IsOfHarts o) t.entries }
    ensures own { (B M : ℕ) (t : History) → WellFormed B M t → IsOwnRun B M t }
    ensures induction { (B M : ℕ) (holds : History → Bool) (o : OpeningValue) → IsTrue (holds (at_opening o))
        → ((t : History) (ev : Event) (out : Outcome) (new : History) → IsTrue (holds t) → Happens B M t ev out new
        → IsTrue (holds new)) → (evs : List Event) (t : History) → Run B M o evs t → IsTrue (holds t) }
    ensures landings { (B : ℕ) (t : History) → Legal B t → landed t.entries ≡ landed_by_count t.entries }
    ensures word_reads { (o : OpeningValue) (es : List Entry) (h a : ℕ) → OpensWithWords o → AllWriteWords es
        → a % 4 ≡ 0 → read o es h a 4 ≡ word_read o es h a }
    ensures words_of_memory { (o : OpeningValue) (es : List Entry) (a : ℕ) → OpensWithWords o → AllWriteWords es
        → a % 4 ≡ 0 → memory_word o es a ≡ word_in_memory o es a }
{}

/// The laws of memory entries. What is pending, what landed, what is read and what is legal depends on the
/// memory entries alone. So other entries can be put back among them: where legal memory entries over an
/// opening stand beside a diary for each hart, which is its path and whose memory entries are its own
/// among these, the whole holds each diary as its hart's own entries and no other memory entry, and is
/// kept; so it is the run of its own entries' events. It does nothing.
pub fn laws_of_placing()
    ensures pending { (h : ℕ) (es : List Entry) → pending h (memory_of es) ≡ pending h es }
    ensures landed { (es : List Entry) → landed (memory_of es) ≡ landed es }
    ensures reads { (o : OpeningValue) (es : List Entry) (h a width : ℕ) → read o (memory_of es) h a width ≡ read o es h a width }
    ensures legal { (B : ℕ) (o : OpeningValue) (es : List Entry) → Legal B (history_of o (memory_of es)) ↔ Legal B (history_of o es) }
    ensures words { (B : ℕ) (o p : OpeningValue) (es : List Entry) → o.words ≡ p.words → Legal B (history_of o es) → Legal B (history_of p es) }
    ensures own { (ds : List (List Entry)) (us : List Entry) → Parts ds us → (h : ℕ) → own h (placed ds us) ≡ diary_of ds h }
    ensures memory { (ds : List (List Entry)) (us : List Entry) → All IsMemoryEntry us → Parts ds us → memory_of (placed ds us) ≡ us }
    ensures kept { (B M : ℕ) (o : OpeningValue) (ds : List (List Entry)) (us : List Entry)
        → length ds ≡ length o.harts → All IsMemoryEntry us → Legal B (history_of o us) → Parts ds us
        → ((h : ℕ) → h < length o.harts → PathOf M (slice_get o.harts h) (diary_of ds h))
        → WellFormed B M (history_of o (placed ds us)) }
{}

/// The laws of positions. What an event answers, and the position after it, depend on the position alone. The
/// words of a machine's position say where it stands: a machine of the same opening that is put at them stands
/// there, and two machines of one opening with the same words stand at the same position. A machine that stands
/// at a history's end stands at the position where that ends. It does nothing.
pub fn laws_of_positions()
    ensures outcome { (B : ℕ) (c : Config) (ev : Event) → outcome_of B c ev ≡ outcome_at B (position_of c) ev }
    ensures next { (B : ℕ) (c : Config) (ev : Event) → position_of (after_outcome c (outcome_of B c ev)) ≡ next_position B (position_of c) ev }
    ensures back { (B M : ℕ) (c d : Config) → AreOfOneOpening c d → IsSoundMachine B M c → IsSoundMachine B M d
        → position_of (put_at B M c (packed d)) ≡ position_of d }
    ensures one { (B M : ℕ) (c d : Config) → AreOfOneOpening c d → IsSoundMachine B M c → IsSoundMachine B M d
        → packed c ≡ packed d → position_of c ≡ position_of d }
    ensures ends { (B M : ℕ) (t : History) (c : Config) → RepresentsHistory B M t c → IsPositionOf M t (position_of c) }
{}
