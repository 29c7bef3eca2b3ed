//! What a text says, line by line.

ghost use Rattle.std.specs.Prelude.{◌≡◌, ◌<◌, ◌^◌, IfOk};
ghost use Rattle.texts.specs.Results.{GivesUpToMemory, refusal_of};
ghost use Rattle.texts.specs.Cutting.{tokens};
ghost use Rattle.certificate_reader.specs.declared.stages.Keyword.TheVariants as keyword;
ghost use Rattle.certificate_reader.specs.declared.stages.Stage.TheVariants as stage;
ghost use Rattle.certificate_reader.specs.Drafts.{no_draft, known_of, known_taken, state_listed, state_closed, hart_listed, hart_closed};
ghost use Rattle.certificate_reader.specs.Drafts.{with_hart, with_pc, with_state};
ghost use Rattle.certificate_reader.specs.Drafts.{with_split, by_keyword, by_named, is_head, by_stage, by_words, after_line};
ghost use Rattle.certificate_reader.specs.Drafts.{certificate_of, finished};

use crate::cases::{Node, tree};
use crate::faults::{BAD, CertificateFault, LineError, MISPLACED, TOO_MANY};
use crate::fields::{add_field, set_filled};
use crate::goals::{add_goal, add_lacking};
use crate::limits::{MAX_HARTS, MAX_STATES, MAX_VARIABLES, MAX_WORDS};
use crate::lists::{counts, forms, own_words, ranges};
use crate::numbers::{end, first_count, first_word, only_word};
use crate::parts::{add_queue, first_form, no_shares, set_share, set_value, unknown};
use crate::stages::{Keyword, MAX_SPLITS, Stage, keyword_of};
use crate::tagged::add_tagged;
use known_values::{Form, KnownValue, OpenedQueue};
use queue_certificates::{Goal, OwnWord};
use queue_checker::{
    Arrow, Filled, HartPart, KnownState, Lacked, ListedState, QueueCertificate, Share,
};
use queue_layouts::OpenedTagged;
use std::alloc::{AllocError, Global};
use std::mem;
use texts::first_token;

/// What the lines so far say.
#[derive(Drop)]
pub struct Draft {
    pub stage: Stage,
    pub queues: Vec<OpenedQueue>,
    pub tagged: Vec<OpenedTagged>,
    /// Those whose parts are over.
    pub harts: Vec<HartPart>,
    /// Of the hart at hand: its own words, how it opens, what its ranks are for, and its states that are over.
    pub own: Vec<OwnWord>,
    pub first: u32,
    pub numbers: Vec<u64>,
    pub goals: Vec<Goal>,
    pub lacking: Vec<Lacked>,
    pub states: Vec<ListedState>,
    /// All states.
    pub listed: usize,
    /// What is known in the state at hand, which fields are right, its ranks, its lines of cases, and how many of these are splits.
    pub pc: u32,
    pub ranges: Vec<Option<u64>>,
    pub registers: Vec<KnownValue>,
    pub words: Vec<KnownValue>,
    pub shares: Vec<Share>,
    pub filled: Vec<Filled>,
    pub ranks: Vec<Form>,
    pub nodes: Vec<Node>,
    pub splits: usize,
}

/// Whether the words are the head of a certificate.
fn is_head(first: &[u8], rest: &[u8]) -> bool
    ensures { result ≡ is_head first.now (tokens rest.now) }
{
    match first_token(rest) {
        Some((second, rest)) => {
            first == b"ztso-queues".as_slice()
                && second == b"1".as_slice()
                && first_token(rest).is_none()
        }
        None => false,
    }
}

impl Draft {
    ghost use Rattle.certificate_reader.specs.DraftValues.{draft_value};

    pub fn new(alloc: Global) -> Draft
        ensures { draft_value result ≡ no_draft }
    {
        Draft {
            stage: Stage::Head,
            queues: Vec::new(alloc),
            tagged: Vec::new(alloc),
            harts: Vec::new(alloc),
            own: Vec::new(alloc),
            first: 0,
            numbers: Vec::new(alloc),
            goals: Vec::new(alloc),
            lacking: Vec::new(alloc),
            states: Vec::new(alloc),
            listed: 0,
            pc: 0,
            ranges: Vec::new(alloc),
            registers: Vec::new(alloc),
            words: Vec::new(alloc),
            shares: Vec::new(alloc),
            filled: Vec::new(alloc),
            ranks: Vec::new(alloc),
            nodes: Vec::new(alloc),
            splits: 0,
        }
    }

    /// What is known in the state at hand, which is forgotten.
    fn take_known(&mut self, alloc: Global) -> KnownState
        ensures known { result ≡ known_of (draft_value self.old) }
        ensures left { draft_value self.new ≡ known_taken (draft_value self.old) }
    {
        KnownState {
            pc: self.pc,
            ranges: mem::replace(&mut self.ranges, Vec::new(alloc)),
            registers: mem::replace(&mut self.registers, Vec::new(alloc)),
            words: mem::replace(&mut self.words, Vec::new(alloc)),
            shares: mem::replace(&mut self.shares, Vec::new(alloc)),
        }
    }

    /// Lists the state at hand.
    fn list_state(&mut self, alloc: Global) -> Result<(), AllocError>
        ensures { IfOk result (λ x. draft_value self.new ≡ state_listed (draft_value self.old)) }
    {
        let nodes = mem::replace(&mut self.nodes, Vec::new(alloc));
        let cases = tree(alloc, nodes)?;
        let known = self.take_known(alloc);
        let filled = mem::replace(&mut self.filled, Vec::new(alloc));
        let ranks = mem::replace(&mut self.ranks, Vec::new(alloc));
        self.states.push(ListedState {
            known,
            ranks,
            filled,
            cases,
        })?;
        self.stage = Stage::Opened;
        Ok(())
    }

    /// Lists the state at hand, if there is one.
    #[tactic(auto, unfolding(crate::specs::Drafts::state_closed))]
    fn close_state(&mut self, alloc: Global) -> Result<(), AllocError>
        ensures { IfOk result (λ x. draft_value self.new ≡ state_closed (draft_value self.old)) }
    {
        match self.stage {
            Stage::Leaf(_) => self.list_state(alloc),
            _ => Ok(()),
        }
    }

    /// Lists the part of the hart at hand.
    fn list_hart(&mut self, alloc: Global) -> Result<(), AllocError>
        ensures { IfOk result (λ x. draft_value self.new ≡ hart_listed (draft_value self.old)) }
    {
        let part = HartPart {
            own: mem::replace(&mut self.own, Vec::new(alloc)),
            first: self.first,
            numbers: mem::replace(&mut self.numbers, Vec::new(alloc)),
            goals: mem::replace(&mut self.goals, Vec::new(alloc)),
            lacking: mem::replace(&mut self.lacking, Vec::new(alloc)),
            states: mem::replace(&mut self.states, Vec::new(alloc)),
        };
        self.harts.push(part)?;
        self.stage = Stage::Queues;
        Ok(())
    }

    /// Lists the part of the hart at hand, if there is one and no state of it is at hand.
    #[tactic(auto, unfolding(crate::specs::Drafts::hart_closed))]
    fn close_hart(&mut self, alloc: Global) -> Result<(), AllocError>
        ensures { IfOk result (λ x. draft_value self.new ≡ hart_closed (draft_value self.old)) }
    {
        match self.stage {
            Stage::Opened => self.list_hart(alloc),
            _ => Ok(()),
        }
    }

    #[tactic(auto, unfolding(crate::specs::Drafts::with_hart))]
    fn begin_hart(&mut self, alloc: Global, rest: &[u8]) -> Result<(), LineError>
        ensures { GivesUpToMemory refusal_of (λ x. draft_value self.new) result (with_hart (draft_value self.old) (tokens rest.now)) }
    {
        end(rest)?;
        self.close_state(alloc)?;
        self.close_hart(alloc)?;
        if self.harts.len() >= MAX_HARTS {
            return Err(TOO_MANY);
        }
        Ok(())
    }

    /// Begins a state of which nothing is known but the pc.
    fn set_pc(&mut self, alloc: Global, pc: u32) -> Result<(), AllocError>
        requires { (draft_value self.old).listed < 2 ^ 32 }
        ensures { IfOk result (λ x. draft_value self.new ≡ with_pc (draft_value self.old) pc) }
    {
        self.registers = unknown(alloc, 32)?;
        self.words = unknown(alloc, self.own.len())?;
        self.shares = no_shares(alloc, self.queues.len() + self.tagged.len())?;
        self.ranges = Vec::new(alloc);
        self.filled = Vec::new(alloc);
        self.ranks = Vec::new(alloc);
        self.nodes = Vec::new(alloc);
        self.splits = 0;
        self.listed += 1;
        self.pc = pc;
        Ok(())
    }

    #[tactic(auto, unfolding(crate::specs::Drafts::with_state))]
    fn begin_state(&mut self, alloc: Global, rest: &[u8]) -> Result<(), LineError>
        ensures { GivesUpToMemory refusal_of (λ x. draft_value self.new) result (with_state (draft_value self.old) (tokens rest.now)) }
    {
        let pc = only_word(rest)?;
        self.close_state(alloc)?;
        if self.listed >= MAX_STATES {
            return Err(TOO_MANY);
        }
        self.set_pc(alloc, pc)?;
        Ok(())
    }

    #[tactic(auto, unfolding(crate::specs::Drafts::with_split, crate::specs::Drafts::split_of))]
    fn add_split(&mut self, rest: &[u8]) -> Result<(), LineError>
        ensures { GivesUpToMemory refusal_of (λ x. draft_value self.new) result (with_split (draft_value self.old) (tokens rest.now)) }
    {
        let (variable, rest) = first_word(rest)?;
        let (most, rest) = first_count(rest)?;
        end(rest)?;
        if variable as usize >= self.ranges.len() {
            return Err(BAD);
        }
        if self.splits >= MAX_SPLITS {
            return Err(TOO_MANY);
        }
        self.nodes.push(Node::Split(variable, most))?;
        self.splits += 1;
        Ok(())
    }

    /// The state in which the hart opens, and the numbers of its variables.
    #[tactic(auto, unfolding(crate::specs::Drafts::hart_opening))]
    fn set_opening(&mut self, alloc: Global, rest: &[u8]) -> Result<(), LineError>
        ensures { GivesUpToMemory refusal_of (λ x. draft_value self.new) result (by_keyword (draft_value self.old) keyword.Open (tokens rest.now)) }
    {
        let (first, rest) = first_word(rest)?;
        let numbers = counts(alloc, rest)?;
        if numbers.len() > MAX_VARIABLES {
            return Err(TOO_MANY);
        }
        self.first = first;
        self.numbers = numbers;
        Ok(())
    }

    fn set_register(&mut self, alloc: Global, rest: &[u8]) -> Result<(), LineError>
        ensures { GivesUpToMemory refusal_of (λ x. draft_value self.new) result (by_keyword (draft_value self.old) keyword.Register (tokens rest.now)) }
    {
        let queues = self.queues.len();
        let count = self.ranges.len();
        set_value(alloc, 1, queues, count, &mut self.registers, rest)
    }

    fn set_word(&mut self, alloc: Global, rest: &[u8]) -> Result<(), LineError>
        ensures { GivesUpToMemory refusal_of (λ x. draft_value self.new) result (by_keyword (draft_value self.old) keyword.Word (tokens rest.now)) }
    {
        let queues = self.queues.len();
        let count = self.ranges.len();
        set_value(alloc, 0, queues, count, &mut self.words, rest)
    }

    #[tactic(auto, unfolding(crate::specs::Drafts::leaf_of))]
    fn add_leaf(&mut self, alloc: Global, rest: &[u8]) -> Result<(), LineError>
        ensures { GivesUpToMemory refusal_of (λ x. draft_value self.new) result (by_keyword (draft_value self.old) keyword.Leaf (tokens rest.now)) }
    {
        let (handed, rest) = first_form(alloc, self.ranges.len(), rest)?;
        end(rest)?;
        self.nodes.push(Node::Leaf(handed))?;
        Ok(())
    }

    #[tactic(auto, unfolding(crate::specs::Drafts::arrow_of))]
    fn add_arrow(&mut self, alloc: Global, rest: &[u8]) -> Result<(), LineError>
        ensures { GivesUpToMemory refusal_of (λ x. draft_value self.new) result (by_keyword (draft_value self.old) keyword.To (tokens rest.now)) }
    {
        let (to, rest) = first_word(rest)?;
        let forms = forms(alloc, self.ranges.len() + 1, rest)?;
        if forms.len() > MAX_VARIABLES {
            return Err(TOO_MANY);
        }
        self.nodes.push(Node::To(Arrow { to, forms }))?;
        Ok(())
    }

    #[tactic(auto, unfolding(crate::specs::Drafts::own_of))]
    fn set_own(&mut self, alloc: Global, rest: &[u8]) -> Result<(), LineError>
        ensures { GivesUpToMemory refusal_of (λ x. draft_value self.new) result (by_keyword (draft_value self.old) keyword.Own (tokens rest.now)) }
    {
        let own = own_words(alloc, rest)?;
        if own.len() > MAX_WORDS {
            return Err(TOO_MANY);
        }
        self.own = own;
        Ok(())
    }

    #[tactic(auto, unfolding(crate::specs::Drafts::ranges_of))]
    fn set_ranges(&mut self, alloc: Global, rest: &[u8]) -> Result<(), LineError>
        ensures { GivesUpToMemory refusal_of (λ x. draft_value self.new) result (by_keyword (draft_value self.old) keyword.Most (tokens rest.now)) }
    {
        let ranges = ranges(alloc, rest)?;
        if ranges.len() > MAX_VARIABLES {
            return Err(TOO_MANY);
        }
        self.ranges = ranges;
        Ok(())
    }

    fn set_ranks(&mut self, alloc: Global, rest: &[u8]) -> Result<(), LineError>
        ensures { GivesUpToMemory refusal_of (λ x. draft_value self.new) result (by_keyword (draft_value self.old) keyword.Rank (tokens rest.now)) }
    {
        self.ranks = forms(alloc, self.ranges.len(), rest)?;
        Ok(())
    }

    /// Takes what follows the first word of a line.
    fn follow(&mut self, alloc: Global, keyword: Keyword, rest: &[u8]) -> Result<(), LineError>
        ensures { GivesUpToMemory refusal_of (λ x. draft_value self.new) result (by_keyword (draft_value self.old) keyword (tokens rest.now)) }
    {
        match keyword {
            Keyword::Queue => add_queue(alloc, &mut self.queues, rest),
            Keyword::Field => add_field(&mut self.queues, rest),
            Keyword::Tagged => add_tagged(&mut self.tagged, rest),
            Keyword::Hart => self.begin_hart(alloc, rest),
            Keyword::Own => self.set_own(alloc, rest),
            Keyword::Open => self.set_opening(alloc, rest),
            Keyword::Goes => add_goal(&mut self.goals, rest),
            Keyword::Lacks => add_lacking(alloc, &mut self.lacking, rest),
            Keyword::State => self.begin_state(alloc, rest),
            Keyword::Most => self.set_ranges(alloc, rest),
            Keyword::Register => self.set_register(alloc, rest),
            Keyword::Word => self.set_word(alloc, rest),
            Keyword::Share => set_share(alloc, self.ranges.len(), &mut self.shares, rest),
            Keyword::Filled => set_filled(alloc, &self.queues, &mut self.filled, rest),
            Keyword::Rank => self.set_ranks(alloc, rest),
            Keyword::Split => self.add_split(rest),
            Keyword::Leaf => self.add_leaf(alloc, rest),
            Keyword::To => self.add_arrow(alloc, rest),
        }
    }

    /// Takes a line that begins so, where it may come.
    #[tactic(auto, unfolding(crate::specs::Drafts::by_named))]
    fn follow_named(
        &mut self,
        alloc: Global,
        keyword: Keyword,
        rest: &[u8],
    ) -> Result<(), LineError>
        ensures { GivesUpToMemory refusal_of (λ x. draft_value self.new) result (by_named (draft_value self.old) keyword (tokens rest.now)) }
    {
        let after = self.stage.after(keyword).ok_or(MISPLACED)?;
        self.follow(alloc, keyword, rest)?;
        self.stage = after;
        Ok(())
    }

    /// Takes the head.
    fn begin(&mut self, first: &[u8], rest: &[u8]) -> Result<(), LineError>
        ensures { GivesUpToMemory refusal_of (λ x. draft_value self.new) result (by_stage stage.Head (draft_value self.old) first.now (tokens rest.now)) }
    {
        if !is_head(first, rest) {
            return Err(LineError::Refused(CertificateFault::BadHead));
        }
        self.stage = Stage::Queues;
        Ok(())
    }

    fn add_words(&mut self, alloc: Global, first: &[u8], rest: &[u8]) -> Result<(), LineError>
        ensures { GivesUpToMemory refusal_of (λ x. draft_value self.new) result (by_words (draft_value self.old) first.now (tokens rest.now)) }
    {
        match self.stage {
            Stage::Head => self.begin(first, rest),
            _ => {
                let keyword = keyword_of(first).ok_or(BAD)?;
                self.follow_named(alloc, keyword, rest)
            }
        }
    }

    /// Takes one line more.
    #[tactic(auto, unfolding(crate::specs::Drafts::after_line))]
    pub fn add_line(&mut self, alloc: Global, line: &[u8]) -> Result<(), LineError>
        ensures { GivesUpToMemory refusal_of (λ x. draft_value self.new) result (after_line (draft_value self.old) line.now) }
    {
        match first_token(line) {
            None => Ok(()),
            Some((first, rest)) => self.add_words(alloc, first, rest),
        }
    }

    fn into_certificate(self) -> QueueCertificate
        ensures { result ≡ certificate_of (draft_value self) }
    {
        QueueCertificate {
            queues: self.queues,
            tagged: self.tagged,
            harts: self.harts,
        }
    }

    /// The certificate, where the text may end here.
    #[tactic(auto, unfolding(crate::specs::Drafts::finished))]
    pub fn finish(mut self, alloc: Global) -> Result<QueueCertificate, LineError>
        ensures { GivesUpToMemory refusal_of (λ c. c) result (finished (draft_value self)) }
    {
        if !self.stage.may_end() {
            return Err(LineError::Refused(self.stage.unfinished()));
        }
        self.close_state(alloc)?;
        self.close_hart(alloc)?;
        Ok(self.into_certificate())
    }
}
