//! What the definitions say of one another.

ghost use Rattle.std.specs.Prelude.{◌≡◌, ◌↔◌, ℕ, List, Ok};
ghost use Rattle.std.specs.Result.{IsErr};
ghost use Rattle.litmus.specs.LitmusTests.{LitmusTest};
ghost use Rattle.litmus_reader.specs.Reading.{Content, test_at};
ghost use Rattle.litmus_reader.specs.Grammar.{IsContent, IsTestOf};
ghost use Rattle.litmus_reader.specs.Headings.{HeadingOf, IsHeading, heading_at};
ghost use Rattle.litmus_reader.specs.Listings.{ListedRowOf, listing_at};
ghost use Rattle.litmus_reader.specs.Openings.{IsPlainOpening};

/// A text stands for one test at most, the words of its code among it. It does nothing.
pub fn one_test()
    ensures contents { (text : List ℕ) (a b : Content) → IsContent text a → IsContent text b → a ≡ b }
    ensures tests { (text : List ℕ) (a b : LitmusTest) → IsTestOf text a → IsTestOf text b → a ≡ b }
{}

/// Reading a text from the top answers what it stands for, and names a fault exactly where it stands
/// for nothing. It does nothing.
pub fn refused_without_value()
    ensures read { (text : List ℕ) (content : Content) → (test_at text ≡ Ok content) ↔ IsContent text content }
    ensures refused { (text : List ℕ) → IsErr (test_at text) ↔ ((content : Content) → ¬ IsContent text content) }
{}

/// A text has one name and one condition at most, reading it from the top answers these, and each text
/// that stands for a test has them. It does nothing.
pub fn one_heading()
    ensures one { (text : List ℕ) (a b : HeadingOf) → IsHeading text a → IsHeading text b → a ≡ b }
    ensures read { (text : List ℕ) (heading : HeadingOf) → (heading_at text ≡ Ok heading) ↔ IsHeading text heading }
    ensures test { (text : List ℕ) (content : Content) → IsContent text content → (heading : HeadingOf) × IsHeading text heading }
{}

/// Each text that stands for a test has a listing. It does nothing.
pub fn tests_are_listed()
    ensures { (text : List ℕ) (content : Content) → IsContent text content → (rows : List ListedRowOf) × (listing_at text ≡ Ok rows) }
{}

/// Each test of a text keeps the limits of an opening: words of 32 bits, x0 that is 0, and empty inboxes. It
/// does nothing.
#[tactic(auto, using(crate::proofs::PlainOpenings::plain_opening))]
pub fn tests_open_plainly()
    ensures { (text : List ℕ) (test : LitmusTest) → IsTestOf text test → IsPlainOpening test.opening }
{}
