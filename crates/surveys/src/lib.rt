//! A search of the states that a test's machine reaches, for one that ends as the test asks.
//!
//! The contract: no schedule with fewer events than those that [`survey`] hands over shows such an outcome (`IsShortest` of
//! `specs/Surveys.antt`), and it sees no more states than it may. That these events show one, who gets them sees by running
//! them. That there is none where it hands over none, no clause says.
//!
//! A state is a row of numbers, one of each hart's part and then memory's. [`Parts`] numbers the parts, and `trees` memory's
//! words; [`Keys`] has the rows, each number in the bits of a key that a [`Layout`] gives it. `walk` goes from state to state
//! breadth first; `fewest` goes over those that it met once more, and rests on nothing of how they were met. This crate reads
//! and writes no text; its tests are in `tests_machine`.
//!
//! Called by `finding`.

#![tactic(auto)]

mod back;
mod compact;
mod fewest;
mod keys;
mod layout;
mod moves;
mod parts;
mod paths;
mod progress;
mod reports;
mod steps;
mod surveying;
mod tables;
mod transition_cache;
mod trees;
mod visited;
mod walk;
mod wanted;

pub use keys::{Draft, Keys};
pub use layout::Layout;
pub use parts::Parts;
pub use progress::SearchProgress;
pub use surveying::{Searched, survey};
pub use wanted::ends_as_wanted;
