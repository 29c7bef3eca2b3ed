//! The steps text: harts, registers, words and events, a line each.

ghost use Rattle.std.specs.Prelude.{◌≡◌, Ok, IfOk, OnErr};
ghost use Rattle.std.specs.Str.Lines.{lines};
ghost use Rattle.texts.specs.Results.{GivesUpToMemory, refusal_of};
ghost use Rattle.step_machine.specs.History.{FitsIn};
ghost use Rattle.engine_support.specs.Faults.{Answers, at_line as line_at};
ghost use Rattle.code_engines.specs.ScriptValue.{ScriptValue, script_value, no_script, opening_of_script};
ghost use Rattle.code_engines.specs.StepsText.{Describes};
ghost use Rattle.code_engines.specs.StepsReading.{after_line, after_lines, script_at};

use crate::steps::line::{Keyword, add_hart, add_steps, keyword_of, set_register, set_word};
use engine_support::fault::{BAD, BAD_LINE, Fault, LineFault, Position, at_line};
use std::alloc::{AllocError, Global};
use step_machine::{Event, HartOpening};
use texts::{first_line, first_token};

/// What a steps text tells.
#[derive(Drop)]
pub struct Script {
    pub harts: Vec<HartOpening>,
    /// All words of memory.
    pub words: Vec<u32>,
    pub events: Vec<Event>,
}

impl Script {
    /// Nothing is said yet of a machine with M words.
    fn new<const M: usize>(alloc: Global) -> Result<Script, AllocError>
        ensures { IfOk result (λ script. script_value script ≡ no_script M) }
    {
        Ok(Script {
            harts: Vec::new(alloc),
            words: vec![in alloc; 0; M]?,
            events: Vec::new(alloc),
        })
    }

    /// Follows one more line.
    #[tactic(auto, unfolding(crate::specs::StepsReading::after_line))]
    fn add_line(&mut self, alloc: Global, line: &[u8]) -> Result<(), LineFault>
        ensures exact { GivesUpToMemory refusal_of (λ x. script_value self.new) result (after_line (script_value self.old) line.now) }
        ensures err { OnErr result (script_value self.new ≡ script_value self.old) }
    {
        let Some((name, rest)) = first_token(line) else {
            return Ok(());
        };
        match keyword_of(name).ok_or(BAD)? {
            Keyword::Hart => add_hart(alloc, &mut self.harts, rest),
            Keyword::Register => set_register(&mut self.harts, rest),
            Keyword::Word => set_word(&mut self.words, rest),
            Keyword::Steps => add_steps(&mut self.events, rest),
        }
    }

    /// Follows the line of this number.
    #[tactic(auto, using(engine_support::proofs::LineReading::refused_at_line))]
    fn add_line_at(&mut self, alloc: Global, line: &[u8], number: usize) -> Result<(), Fault>
        ensures exact { Answers (λ x. script_value self.new) result (line_at number (after_line (script_value self.old) line.now)) }
        ensures err { OnErr result (script_value self.new ≡ script_value self.old) }
    {
        match self.add_line(alloc, line) {
            Ok(()) => Ok(()),
            Err(fault) => Err(at_line(fault, number)),
        }
    }

    /// Follows all lines of a text.
    #[tactic(auto, unfolding(crate::specs::StepsReading::after_lines))]
    fn add_lines(&mut self, alloc: Global, text: &[u8]) -> Result<(), Fault>
        ensures { Answers (λ x. script_value self.new) result (after_lines (script_value self.old) 1 (lines text.now)) }
    {
        let mut rest = text;
        let mut number = 0;
        while let Some((line, after)) = first_line(rest) {
            number += 1;
            self.add_line_at(alloc, line, number)?;
            rest = after;
        }
        Ok(())
    }
}

#[tactic(auto, unfolding(crate::specs::StepsReading::script_at))]
fn script_of<const M: usize>(alloc: Global, text: &[u8]) -> Result<Script, Fault>
    ensures { Answers script_value result (script_at M text.now) }
{
    let mut script = Script::new::<M>(alloc)?;
    script.add_lines(alloc, text)?;
    if script.harts.is_empty() {
        return Err(Fault::refused(BAD_LINE, Position::Nowhere));
    }
    Ok(script)
}

/// What a steps text tells of a machine with M words.
///
/// A line that says nothing that may come there is [`BAD_LINE`] at the line, and so is a text without
/// a hart, at no line; tokens after `steps` are refused as [`recorder::push_tokens_of`] refuses them, at the
/// line. The first faulty line is answered.
pub fn read_script<const M: usize>(alloc: Global, text: &[u8]) -> Result<Script, Fault>
    ensures found { IfOk result (λ script. Describes M text.now (script_value script)) }
    ensures only { (script : ScriptValue) → Describes M text.now script → Answers script_value result (Ok script) }
    ensures exact { Answers script_value result (script_at M text.now) }
    ensures fits { IfOk result (λ script. FitsIn M (opening_of_script (script_value script))) }
{
    script_of::<M>(alloc, text)
}
