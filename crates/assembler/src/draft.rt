//! A text, given line by line.

ghost use Rattle.std.specs.Prelude.{◌≡◌, List, [], ◌∷◌, ◌++◌, ◌<◌, ◌^◌, false, length, map, vec_len, vec_capacity, Ok, Err, Some, IfOk, IfErr, OnOk, OnErr};
ghost use Rattle.rv_decode.specs.Meaning.{meaning};
ghost use Rattle.texts.specs.Results.{GivesUpToMemory, refusal_of};
ghost use Rattle.assembler.specs.declared.faults.AsmFault.TheVariants.{TooLong};
ghost use Rattle.texts.specs.declared.errors.TextError.TheVariants.{Refused};
ghost use Rattle.rv_decode.specs.declared.instruction.Instr.{Instr};
ghost use Rattle.rv_decode.specs.declared.instruction.TheConstants.{MAX_CODE};
ghost use Rattle.assembler.specs.Grammar.{IsLine};
ghost use Rattle.assembler.specs.Program.{IsFresh, AreInstrs, AreWordsOf};
ghost use Rattle.assembler.specs.Drafts.{Line as TextLine, Fitting, is_twice, word_count, drafted, line_over, all_instructions, AllPlain};
ghost use Rattle.assembler.specs.Lines.{made_by};
ghost use Rattle.std.specs.Option.{option_copied};
ghost use Rattle.assembler.specs.Kept.{place_in as found, kept_line, AreKeptLines};

use crate::faults::{AsmError, AsmFault};
use crate::kept::{KeptLine, keep_name, keep_statement, size};
use crate::line::{Line, parts, statement_in};
use crate::places::{Places, define_label, no_places, place_in};
use crate::placing::{first_over, place_all};
use crate::statement::Statement;
use rv_decode::instruction::MAX_CODE;
use std::alloc::{AllocError, Global};
use std::marker::Model;

fn append(lines: &mut Vec<KeptLine>, line: KeptLine)
    requires { vec_len lines.old < vec_capacity lines.old }
    ensures { lines.new.items ≡ lines.old.items ++ line ∷ [] }
{
    lines.push(line).unwrap();
}

/// The lines of an assembly text so far.
#[derive(Drop)]
pub struct Draft {
    lines: Vec<KeptLine>,
    places: Places,
    words: usize,
}

impl Model for Draft {
    ghost Value = { List TextLine };

    ghost view = { λ draft. map kept_line draft.lines.items };

    ghost invariant = { λ draft. AreKeptLines (found draft.places) draft.words (map kept_line draft.lines.items) };
}

impl Draft {
    /// A draft of no line, which takes its memory from the allocator.
    #[tactic(auto, unfolding(crate::specs::Drafts::label_place))]
    pub fn new(alloc: Global) -> Draft
        ensures { result ≡ [] }
    {
        Draft {
            lines: Vec::new(alloc),
            places: no_places(alloc),
            words: 0,
        }
    }

    /// How many words the statements so far make.
    pub fn words(&self) -> usize
        ensures { result ≡ word_count self.now }
    {
        self.words
    }

    /// Reads one more line, given without its line end.
    ///
    /// An `Err` changes nothing: it is the line's first fault, in the order `LabelTwice`, then
    /// `UnknownName` of the mnemonic, then the operands from the left; for a line without a fault it is
    /// `NoMemory`.
    pub fn line(&mut self, line: &str) -> Result<(), AsmError>
        ensures found { OnOk result ((more : TextLine) × IsLine line.now more × IsFresh self.old more × (self.new ≡ self.old ++ more ∷ [])) }
        ensures only { (more : TextLine) → IsLine line.now more → IsFresh self.old more
            → GivesUpToMemory refusal_of (λ _. self.new) result (Ok (self.old ++ more ∷ [])) }
        ensures exact { GivesUpToMemory refusal_of (λ _. self.new) result (drafted self.old line.now) }
        ensures refused { IfErr (drafted self.old line.now) (λ refusal. result ≡ Err (Refused refusal)) }
        ensures kept { OnErr result (self.new ≡ self.old) }
    {
        self.read(line.as_bytes())
    }

    /// [`Draft::line`] of a line's bytes.
    pub fn read(&mut self, line: &[u8]) -> Result<(), AsmError>
        ensures found { OnOk result ((more : TextLine) × IsLine line.now more × IsFresh self.old more × (self.new ≡ self.old ++ more ∷ [])) }
        ensures only { (more : TextLine) → IsLine line.now more → IsFresh self.old more
            → GivesUpToMemory refusal_of (λ _. self.new) result (Ok (self.old ++ more ∷ [])) }
        ensures exact { GivesUpToMemory refusal_of (λ _. self.new) result (drafted self.old line.now) }
        ensures refused { IfErr (drafted self.old line.now) (λ refusal. result ≡ Err (Refused refusal)) }
        ensures kept { OnErr result (self.new ≡ self.old) }
    {
        self.tell(line)
    }

    #[tactic(auto, using(crate::proofs::DraftLaws::drafted_twice, crate::proofs::DraftLaws::drafted_added, crate::proofs::DraftLaws::drafted_faulty))]
    fn tell(&mut self, line: &[u8]) -> Result<(), AsmError>
        ensures exact { GivesUpToMemory refusal_of (λ _. self.new) result (drafted self.old line.now) }
        ensures refused { IfErr (drafted self.old line.now) (λ refusal. result ≡ Err (Refused refusal)) }
        ensures kept { OnErr result (self.new ≡ self.old) }
    {
        let line_number = self.count() + 1;
        let Line { label, statement } = parts(line);
        if self.defines(label) {
            return Err(AsmError::at_line(AsmFault::LabelTwice, line_number));
        }
        match statement_in(statement) {
            Ok(statement) => Ok(self.add(label, statement)?),
            Err(fault) => Err(AsmError::at_line(fault, line_number)),
        }
    }

    /// How many lines there are so far.
    fn count(&self) -> usize
        ensures count { result ≡ length self.now }
        ensures room { result < 2 ^ 63 }
    {
        self.lines.len()
    }

    #[tactic(auto, unfolding(crate::specs::Drafts::label_place))]
    fn defines(&self, label: Option<&[u8]>) -> bool
        ensures { result ≡ is_twice self.now (option_copied label.entry) }
    {
        match label {
            Some(name) => place_in(&self.places, name).is_some(),
            None => false,
        }
    }

    fn add(
        &mut self,
        label: Option<&[u8]>,
        statement: Option<Statement<'_>>,
    ) -> Result<(), AllocError>
        requires fresh { is_twice self.old (option_copied label) ≡ false }
        requires fits { Fitting (made_by statement) }
        ensures added { OnOk result (self.new ≡ self.old ++ (record { label = option_copied label.entry; made = made_by statement.entry }) ∷ []) }
        ensures kept { OnErr result (self.new ≡ self.old) }
    {
        let alloc = *self.lines.allocator();
        let line = KeptLine {
            label: keep_name(alloc, label)?,
            statement: keep_statement(alloc, statement)?,
        };
        self.lines.reserve(1)?;
        let words = self.words + size(&line.statement);
        define_label(&mut self.places, alloc, label, self.words)?;
        self.words = words;
        append(&mut self.lines, line);
        Ok(())
    }

    /// The words of all statements.
    ///
    /// The faults that are left are `TooLong`, at the first line whose words go past 4,096, and then
    /// line by line from the top `NoSuchLabel`, and `OutOfRange` where a label is too far away.
    #[tactic(auto, using(crate::proofs::ProgramGrammar::found_instrs, crate::proofs::ProgramGrammar::only_instrs))]
    pub fn finish(self) -> Result<Vec<u32>, AsmError>
        ensures found { IfOk result (λ words. (instrs : List Instr) × AreInstrs self instrs × AreWordsOf words.items instrs) }
        ensures only { (instrs : List Instr) → AreInstrs self instrs
            → GivesUpToMemory refusal_of (λ words. map meaning words.items) result (Ok (map (λ i. Some i) instrs)) }
        ensures exact { GivesUpToMemory refusal_of (λ words. map meaning words.items) result (all_instructions self) }
        ensures too_long { MAX_CODE < word_count self → result ≡ Err (Refused (record { fault = TooLong; line = line_over 0 1 self })) }
        ensures plain { IfOk result (λ words. AllPlain words.items) }
    {
        let _lines = &self.lines;
        self.all_words()
    }

    fn all_words(self) -> Result<Vec<u32>, AsmError>
        ensures exact { GivesUpToMemory refusal_of (λ words. map meaning words.items) result (all_instructions self) }
        ensures too_long { MAX_CODE < word_count self → result ≡ Err (Refused (record { fault = TooLong; line = line_over 0 1 self })) }
        ensures plain { IfOk result (λ words. AllPlain words.items) }
    {
        if self.words > MAX_CODE {
            return Err(AsmError::at_line(AsmFault::TooLong, first_over(&self.lines)));
        }
        place_all(*self.lines.allocator(), &self.places, &self.lines)
    }
}
