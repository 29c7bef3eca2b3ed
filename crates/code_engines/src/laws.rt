//! Laws of texts of code, and of what the commands answer.

ghost use Rattle.std.specs.Prelude.{◌≡◌, ◌<◌, ◌≤◌, ◌^◌, ◌↔◌, ◌++◌, [], length, ℕ, List, Ok, Result, Some};
ghost use Rattle.std.specs.List.{All, flat_map};
ghost use Rattle.step_machine.specs.declared.events.Event.{Event};
ghost use Rattle.recorder.specs.declared.reading.TheConstants.{MAX_EVENTS};
ghost use Rattle.litmus.specs.LitmusTests.{LitmusTest};
ghost use Rattle.litmus_reader.specs.Grammar.{IsTestOf};
ghost use Rattle.engine_support.specs.declared.fault.Refusal.{Refusal};
ghost use Rattle.engine_support.specs.Engines.{Output, AcceptedInput, decoded};
ghost use Rattle.engine_support.specs.OpeningTexts.{steps_text};
ghost use Rattle.code_engines.specs.ScriptValue.{ScriptValue, script_from};
ghost use Rattle.code_engines.specs.StepsText.{Describes, IsStepsLine};
ghost use Rattle.code_engines.specs.StepsReading.{script_at};
ghost use Rattle.code_engines.specs.Steps.{IsStepsAnswer};
ghost use Rattle.code_engines.specs.Asm.{hex_line, IsAsmAnswer};
ghost use Rattle.code_engines.specs.Dis.{SaysCode, dis_at, IsDisAnswer};

/// A steps text stands for at most one script, and reading it from the top finds that; an input is not
/// refused exactly where it is a text within the limit that describes one. It does nothing.
pub fn laws_of_steps_texts()
    ensures read { (M : ℕ) (text : List ℕ) (script : ScriptValue) → (script_at M text ≡ Ok script) ↔ Describes M text script }
    ensures judged { (M : ℕ) (input : List ℕ) (script : ScriptValue) → (decoded (script_at M) input ≡ Ok script) ↔ AcceptedInput (Describes M) input script }
    ensures one { (M : ℕ) (text : List ℕ) (a b : ScriptValue) → Describes M text a → Describes M text b → a ≡ b }
{}

/// What `show --steps` writes of a text's test is a steps text that opens as the test does, without events; with a
/// line of events after it, it tells these events from there. It does nothing.
pub fn shown_steps_open_alike()
    ensures opens { (M : ℕ) (file : List ℕ) (test : LitmusTest) → IsTestOf file test
        → length test.opening.words ≤ M → Describes M (steps_text test.opening) (script_from M test.opening []) }
    ensures steps { (M : ℕ) (file : List ℕ) (test : LitmusTest) (more : List ℕ) (events : List Event)
        → IsTestOf file test → length test.opening.words ≤ M → IsStepsLine more events → length events ≤ MAX_EVENTS
        → Describes M (steps_text test.opening ++ more) (script_from M test.opening events) }
{}

/// A text of words in hex says one code at most, and reading it from the top finds that; an input is
/// not refused exactly where it is a text within the limit that says a code. The lines of words, as an
/// assembled text's, say those words again. It does nothing.
pub fn laws_of_code_texts()
    ensures read { (text code : List ℕ) → (dis_at text ≡ Ok code) ↔ SaysCode text code }
    ensures judged { (input code : List ℕ) → (decoded dis_at input ≡ Ok code) ↔ AcceptedInput SaysCode input code }
    ensures one { (text a b : List ℕ) → SaysCode text a → SaysCode text b → a ≡ b }
    ensures again { (code : List ℕ) → All (λ word. word < 2 ^ 32) code → SaysCode (flat_map hex_line code) code }
{}

/// What `steps`, `asm` and `dis` answer is one function of what they read: the output, or a refusal with its place. It
/// does nothing.
pub fn one_answer()
    ensures steps { (B M : ℕ) (input : List ℕ) (a b : Result Output Refusal) → IsStepsAnswer B M (Some input) a → IsStepsAnswer B M (Some input) b → a ≡ b }
    ensures asm { (input : List ℕ) (a b : Result Output Refusal) → IsAsmAnswer (Some input) a → IsAsmAnswer (Some input) b → a ≡ b }
    ensures dis { (input : List ℕ) (a b : Result Output Refusal) → IsDisAnswer (Some input) a → IsDisAnswer (Some input) b → a ≡ b }
{}
