//! What a line begins with, and which lines may come.

ghost use Rattle.std.specs.Prelude.{◌≡◌};
ghost use Rattle.certificate_reader.specs.Stages.{part_keyword, rank_keyword, state_keyword, case_keyword, queue_keyword, keyword_named};
ghost use Rattle.certificate_reader.specs.Stages.{is_queues, lists_queues, is_hart, is_owned, is_opened, may_end};
ghost use Rattle.certificate_reader.specs.Stages.{is_state, is_described, wanted, after_split, after_leaf, after_arrow, stage_after};
ghost use Rattle.certificate_reader.specs.Drafts.{unfinished};

use crate::faults::CertificateFault;

/// The most splits that a state may have.
pub const MAX_SPLITS: usize = 1024;

/// What a line begins with.
#[derive(Clone, Copy)]
pub enum Keyword {
    Queue,
    Field,
    Tagged,
    Hart,
    Own,
    Open,
    Goes,
    Lacks,
    State,
    Most,
    Register,
    Word,
    Share,
    Filled,
    Rank,
    Split,
    Leaf,
    To,
}

/// How far a text has come.
#[derive(Clone, Copy)]
pub enum Stage {
    /// Nothing has come.
    Head,
    /// The head, and queues with indices and their fields.
    Queues,
    /// Queues with tags.
    Tagged,
    /// `hart`.
    Hart,
    /// The hart's own words.
    Owned,
    /// How the hart opens and what its ranks are for, and no state of it.
    Opened,
    /// `state`.
    State,
    /// What is known in the state.
    Known,
    /// A split, after which this number of cases is wanted.
    Split(usize),
    /// A leaf or where it leads, after which this number of cases is wanted.
    Leaf(usize),
}

fn part_keyword(word: &[u8]) -> Option<Keyword>
    ensures { result ≡ part_keyword word.now }
{
    match word {
        b"hart" => Some(Keyword::Hart),
        b"own" => Some(Keyword::Own),
        b"open" => Some(Keyword::Open),
        _ => None,
    }
}

fn rank_keyword(word: &[u8]) -> Option<Keyword>
    ensures { result ≡ rank_keyword word.now }
{
    match word {
        b"goes" => Some(Keyword::Goes),
        b"lacks" => Some(Keyword::Lacks),
        b"rank" => Some(Keyword::Rank),
        _ => None,
    }
}

fn state_keyword(word: &[u8]) -> Option<Keyword>
    ensures { result ≡ state_keyword word.now }
{
    match word {
        b"state" => Some(Keyword::State),
        b"most" => Some(Keyword::Most),
        b"reg" => Some(Keyword::Register),
        b"word" => Some(Keyword::Word),
        _ => None,
    }
}

fn case_keyword(word: &[u8]) -> Option<Keyword>
    ensures { result ≡ case_keyword word.now }
{
    match word {
        b"share" => Some(Keyword::Share),
        b"split" => Some(Keyword::Split),
        b"leaf" => Some(Keyword::Leaf),
        b"to" => Some(Keyword::To),
        _ => None,
    }
}

fn queue_keyword(word: &[u8]) -> Option<Keyword>
    ensures { result ≡ queue_keyword word.now }
{
    if word == b"queue".as_slice() {
        Some(Keyword::Queue)
    } else if word == b"field".as_slice() {
        Some(Keyword::Field)
    } else if word == b"tagged".as_slice() {
        Some(Keyword::Tagged)
    } else if word == b"filled".as_slice() {
        Some(Keyword::Filled)
    } else {
        None
    }
}

#[tactic(auto, unfolding(crate::specs::Stages::keyword_named))]
pub fn keyword_of(word: &[u8]) -> Option<Keyword>
    ensures { result ≡ keyword_named word.now }
{
    part_keyword(word)
        .or_else(|| state_keyword(word))
        .or_else(|| case_keyword(word))
        .or_else(|| queue_keyword(word))
        .or_else(|| rank_keyword(word))
}

impl Stage {
    fn is_queues(self) -> bool
        ensures { result ≡ is_queues self }
    {
        matches!(self, Stage::Queues)
    }

    /// Whether no hart has come, and a queue with tags may come.
    fn lists_queues(self) -> bool
        ensures { result ≡ lists_queues self }
    {
        matches!(self, Stage::Queues | Stage::Tagged)
    }

    fn is_hart(self) -> bool
        ensures { result ≡ is_hart self }
    {
        matches!(self, Stage::Hart)
    }

    fn is_owned(self) -> bool
        ensures { result ≡ is_owned self }
    {
        matches!(self, Stage::Owned)
    }

    fn is_opened(self) -> bool
        ensures { result ≡ is_opened self }
    {
        matches!(self, Stage::Opened)
    }

    /// Whether a hart's part may end here, and a state begin.
    pub fn may_end(self) -> bool
        ensures { result ≡ may_end self }
    {
        match self {
            Stage::Opened => true,
            Stage::Leaf(wanted) => wanted == 0,
            _ => false,
        }
    }

    /// The fault of a text that ends here, where it may not.
    pub fn unfinished(self) -> CertificateFault
        ensures { result ≡ unfinished self }
    {
        match self {
            Stage::Head => CertificateFault::BadHead,
            _ => CertificateFault::Unfinished,
        }
    }

    fn is_state(self) -> bool
        ensures { result ≡ is_state self }
    {
        matches!(self, Stage::State)
    }

    fn is_described(self) -> bool
        ensures { result ≡ is_described self }
    {
        matches!(self, Stage::State | Stage::Known)
    }

    /// How many cases the state wants.
    fn wanted(self) -> usize
        ensures { result ≡ wanted self }
    {
        match self {
            Stage::State | Stage::Known => 1,
            Stage::Split(wanted) | Stage::Leaf(wanted) => wanted,
            _ => 0,
        }
    }

    /// A state wants at most one case more than it has splits, so the limit on these is met first.
    fn after_split(self) -> Option<Stage>
        ensures { result ≡ after_split self }
    {
        let wanted = self.wanted();
        if wanted == 0 || wanted - 1 > MAX_SPLITS {
            return None;
        }
        Some(Stage::Split(wanted + 1))
    }

    fn after_leaf(self) -> Option<Stage>
        ensures { result ≡ after_leaf self }
    {
        let wanted = self.wanted();
        if wanted == 0 {
            return None;
        }
        Some(Stage::Leaf(wanted - 1))
    }

    fn after_arrow(self) -> Option<Stage>
        ensures { result ≡ after_arrow self }
    {
        match self {
            Stage::Leaf(wanted) => Some(Stage::Leaf(wanted)),
            _ => None,
        }
    }

    /// How far it has come after a line that begins so; `None` where such a line may not come.
    #[tactic(auto, unfolding(crate::specs::Stages::stage_after))]
    pub fn after(self, keyword: Keyword) -> Option<Stage>
        ensures { result ≡ stage_after self keyword }
    {
        match keyword {
            Keyword::Queue | Keyword::Field => self.is_queues().then_some(Stage::Queues),
            Keyword::Tagged => self.lists_queues().then_some(Stage::Tagged),
            Keyword::Hart => (self.lists_queues() || self.may_end()).then_some(Stage::Hart),
            Keyword::Own => self.is_hart().then_some(Stage::Owned),
            Keyword::Open => (self.is_hart() || self.is_owned()).then_some(Stage::Opened),
            Keyword::Goes | Keyword::Lacks => self.is_opened().then_some(Stage::Opened),
            Keyword::State => self.may_end().then_some(Stage::State),
            Keyword::Most => self.is_state().then_some(Stage::Known),
            Keyword::Register | Keyword::Word | Keyword::Share | Keyword::Filled | Keyword::Rank =>
                { self.is_described().then_some(Stage::Known) }
            Keyword::Split => self.after_split(),
            Keyword::Leaf => self.after_leaf(),
            Keyword::To => self.after_arrow(),
        }
    }
}
