//! Laws of texts of lists, and of what the commands answer.

ghost use Rattle.std.specs.Prelude.{◌≡◌, ◌↔◌, ℕ, Bool, true, false, List, Ok, Result, Some};
ghost use Rattle.poll_close.specs.Layout.{Layout};
ghost use Rattle.poll_close.specs.Laws.{Ring};
ghost use Rattle.poll_close.specs.declared.place.BlockPlace.{BlockPlace};
ghost use Rattle.drawn_runs.specs.Samples.{DrawnRuns};
ghost use Rattle.engine_support.specs.declared.fault.Refusal.{Refusal};
ghost use Rattle.engine_support.specs.Engines.{Output, AcceptedInput, AreAlike, decoded};
ghost use Rattle.channel_engines.specs.Lists.{SaysLists, lists_at};
ghost use Rattle.channel_engines.specs.Channels.{IsChannelAnswer};
ghost use Rattle.channel_engines.specs.UserChannels.{IsUserAnswer};
ghost use Rattle.channel_engines.specs.Rings.{AreAlikeRuns, IsRingAnswer};

/// A text of lists says one list of lists at most, and reading it from the top finds that; an input is
/// not refused exactly where it is a text within the limit that says lists. It does nothing.
pub fn laws_of_list_texts()
    ensures read { (text : List ℕ) (lists : List (List ℕ)) → (lists_at text ≡ Ok lists) ↔ SaysLists text lists }
    ensures judged { (input : List ℕ) (lists : List (List ℕ)) → (decoded lists_at input ≡ Ok lists) ↔ AcceptedInput SaysLists input lists }
    ensures one { (text : List ℕ) (a b : List (List ℕ)) → SaysLists text a → SaysLists text b → a ≡ b }
{}

/// What a command answers is one function of what it reads: the output with the exit status's value, or a
/// refusal with its place. Of `channel --finish` it isn't said which plan runs: there both answers are outputs, or one
/// refusal. Where a run of `ring` isn't clean, it isn't said which schedule is written of it: there both answers tell of
/// such a run. It does nothing.
pub fn one_answer()
    ensures channel { (ring : Ring) (B M : ℕ) (l : Layout) (schedule input : List ℕ) (a b : Result Output Refusal)
        → IsChannelAnswer ring B M l false (Some schedule) (Some input) a → IsChannelAnswer ring B M l false (Some schedule) (Some input) b
        → a ≡ b }
    ensures own { (B M : ℕ) (l : Layout) (sender receiver schedule input : List ℕ) (a b : Result Output Refusal)
        → IsUserAnswer B M l (Some sender) (Some receiver) (Some schedule) (Some input) a
        → IsUserAnswer B M l (Some sender) (Some receiver) (Some schedule) (Some input) b → a ≡ b }
    ensures ring { (d : DrawnRuns) (place : BlockPlace) (sender receiver input : List ℕ) (a b : Result (List ℕ × Bool) Refusal)
        → IsRingAnswer d place (Some sender) (Some receiver) (Some input) a → IsRingAnswer d place (Some sender) (Some receiver) (Some input) b
        → AreAlikeRuns a b }
    ensures finished { (ring : Ring) (B M : ℕ) (l : Layout) (schedule input : List ℕ)
        (a b : Result Output Refusal) → IsChannelAnswer ring B M l true (Some schedule) (Some input) a
        → IsChannelAnswer ring B M l true (Some schedule) (Some input) b → AreAlike a b }
{}
