//! Certificates of queues, as `queue_certificates` defines them.

use known_values::{Form, KnownValue, OpenedQueue};
use queue_certificates::{Goal, OwnWord};
use queue_layouts::OpenedTagged;
use std::marker::Model;

/// Of a queue of which the hart is a party: its own count, and how many positions it owns.
#[derive(Drop)]
pub struct Share {
    pub own: Form,
    pub owned: Form,
}

impl Model for Share {
    ghost use Rattle.queue_certificates.specs.States.{Share};

    ghost Value = { Share };

    ghost view = { λ s. record { own = s.own; owned = s.owned } };
}

/// What is known of a hart at one pc. Variable j is at most `ranges[j]`, or any where that is `None`; what `registers` and `words`
/// don't reach is any number, and a queue that `shares` don't reach has no share.
#[derive(Drop)]
pub struct KnownState {
    pub pc: u32,
    pub ranges: Vec<Option<u64>>,
    pub registers: Vec<KnownValue>,
    pub words: Vec<KnownValue>,
    pub shares: Vec<Share>,
}

impl Model for KnownState {
    ghost use Rattle.queue_certificates.specs.States.{KnownState};

    ghost Value = { KnownState };

    ghost view = { λ s. record {
      pc = s.pc;
      ranges = s.ranges.items;
      registers = s.registers.items;
      words = s.words.items;
      shares = s.shares.items;
    } };
}

/// Where a state goes on: to this state, whose variables are these forms over those of the leaf, before which one new variable stands.
#[derive(Drop)]
pub struct Arrow {
    pub to: u32,
    pub forms: Vec<Form>,
}

impl Model for Arrow {
    ghost use Rattle.queue_certificates.specs.Cases.{Arrow};

    ghost Value = { Arrow };

    ghost view = { λ a. record { to = a.to; forms = a.forms.items } };
}

/// A state by cases. A contract sees it as a tree.
#[derive(Drop)]
#[cycle(cases)]
pub struct Cases {
    pub node: CaseNode,
}

/// One case, or two: variable `variable` is at most `most`, or it is `most + 1` more than a variable. A leaf takes the instruction:
/// how many positions it hands over, and where each state that may follow is found.
#[derive(Drop)]
#[cycle(cases)]
pub enum CaseNode {
    Leaf(Form, Vec<Arrow>),
    Split(u32, u64, Box<Cases>, Box<Cases>),
}

impl Model for Cases {
    ghost use Rattle.queue_certificates.specs.Cases.{Cases};
    ghost use Rattle.queue_checker.specs.Codes.{cases_code};

    ghost Value = { Cases };

    ghost coded = { cases_code };

    ghost use Rattle.queue_checker.specs.Trees.{tree_of, height};

    ghost view = { λ c. tree_of c.node };

    ghost size = { height };

    ghost use Rattle.std.proofs.Common.{arith};

    ghost size_decreases = { λ a h. Prim.grind arith };
}

/// The fields that are right in one slot, by their numbers.
#[derive(Drop)]
pub struct FilledSlot {
    pub fields: Vec<u64>,
}

impl Model for FilledSlot {
    ghost use Rattle.std.specs.Prelude.{ℕ, List};

    ghost Value = { List ℕ };

    ghost view = { λ s. s.fields.items };
}

/// Of each position of a queue from the sender's count on, the fields that are right in its slot.
#[derive(Drop)]
pub struct Filled {
    pub slots: Vec<FilledSlot>,
}

impl Model for Filled {
    ghost use Rattle.queue_certificates.specs.Filled.{Filled as FilledOf};

    ghost Value = { FilledOf };

    ghost view = { λ f. f.slots.items };
}

/// Queues with indices that a hart may lack.
#[derive(Drop)]
pub struct Lacked {
    pub queues: Vec<u32>,
}

impl Model for Lacked {
    ghost use Rattle.std.specs.Prelude.{ℕ, List};

    ghost Value = { List ℕ };

    ghost view = { λ l. l.queues.items };
}

/// One state of a hart, its ranks, and of each queue to which it sends records with fields, which of them are right ahead of its count.
#[derive(Drop)]
pub struct ListedState {
    pub known: KnownState,
    pub ranks: Vec<Form>,
    pub filled: Vec<Filled>,
    pub cases: Cases,
}

impl Model for ListedState {
    ghost use Rattle.queue_certificates.specs.Certificates.{ListedState};
    ghost use Rattle.std.specs.Coded.{codes};
    ghost use Rattle.queue_checker.specs.Codes.{cases_code};

    ghost Value = { ListedState };

    ghost coded = { Prim.hlevel (codes, cases_code) };

    ghost view = { λ s. record { known = s.known; ranks = s.ranks.items; filled = s.filled.items; cases = s.cases } };
}

/// A hart's part: the words, halves and bytes that it alone writes, the state in which it opens with the numbers of its variables, what
/// its states have ranks for, then sets of queues that it may lack, for each of which they have one rank more, and all its states.
#[derive(Drop)]
pub struct HartPart {
    pub own: Vec<OwnWord>,
    pub first: u32,
    pub numbers: Vec<u64>,
    pub goals: Vec<Goal>,
    pub lacking: Vec<Lacked>,
    pub states: Vec<ListedState>,
}

impl Model for HartPart {
    ghost use Rattle.queue_certificates.specs.Certificates.{HartPart};
    ghost use Rattle.std.specs.Coded.{codes};
    ghost use Rattle.queue_checker.specs.Codes.{cases_code};

    ghost Value = { HartPart };

    ghost coded = { Prim.hlevel (codes, cases_code) };

    ghost view = { λ p. record {
      own = p.own.items;
      first = p.first;
      numbers = p.numbers.items;
      goals = p.goals.items;
      lacking = p.lacking.items;
      states = p.states.items;
    } };
}

/// Of each queue of a text how it opens, of those with indices and of those with tags, and of each hart its part. The shares of a
/// state are first those of the queues with indices, and then those of the queues with tags.
#[derive(Drop)]
pub struct QueueCertificate {
    pub queues: Vec<OpenedQueue>,
    pub tagged: Vec<OpenedTagged>,
    pub harts: Vec<HartPart>,
}

impl Model for QueueCertificate {
    ghost use Rattle.queue_certificates.specs.Certificates.{QueueCertificate};
    ghost use Rattle.std.specs.Coded.{codes};
    ghost use Rattle.queue_checker.specs.Codes.{cases_code};

    ghost Value = { QueueCertificate };

    ghost coded = { Prim.hlevel (codes, cases_code) };

    ghost view = { λ c. record { queues = c.queues.items; tagged = c.tagged.items; harts = c.harts.items } };
}
