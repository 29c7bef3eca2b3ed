//! The locations of a test.

ghost use Rattle.std.specs.Prelude.{◌≡◌, true, ◌<◌, ◌≤◌, ℕ, List, [], length, map, vec_len, IfOk, IfSome, IsTrue};
ghost use Rattle.std.specs.List.{list_all};
ghost use Rattle.std.specs.String.{string_bytes};
ghost use Rattle.texts.specs.Results.{GivesUpToMemory};
ghost use Rattle.litmus_reader.specs.Faults.{fault_in};
ghost use Rattle.litmus_tokens.specs.Names.{is_name, goes_on_name};
ghost use Rattle.litmus_reader.specs.Locations.{index_from, resolved};
ghost use Rattle.litmus.specs.declared.litmus_test.TheConstants.{MAX_LOCATIONS};

use crate::faults::LitmusFault;
use crate::refusals::Refusal;
use litmus::MAX_LOCATIONS;
use std::alloc::{AllocError, Global};
use std::marker::Model;

/// A name as a text. Its bytes are letters, digits and `_`.
fn text_of(alloc: Global, name: &[u8]) -> Result<String, AllocError>
    requires { list_all goes_on_name name.now ≡ true }
    ensures { IfOk result (λ text. string_bytes text ≡ name.now) }
{
    let mut text = String::new(alloc);
    for byte in name {
        text.push(char::from(*byte))?;
    }
    Ok(text)
}

/// The names of the locations so far, in order of first appearance. The word of each has the address
/// of 4 times its index.
#[derive(Drop)]
pub struct Locations {
    names: Vec<String>,
}

impl Model for Locations {
    ghost Value = { List (List ℕ) };

    ghost view = { λ locations. map string_bytes locations.names.items };

    ghost invariant = { λ locations. vec_len locations.names ≤ MAX_LOCATIONS };
}

impl Locations {
    /// Begins with no location. The names will take their memory from `alloc`.
    pub fn new(alloc: Global) -> Locations
        ensures { result ≡ [] }
    {
        Locations {
            names: Vec::new(alloc),
        }
    }

    /// How many there are so far, which is the index of the next new one.
    pub fn count(&self) -> usize
        ensures count { result ≡ length self.now }
        ensures few { result ≤ MAX_LOCATIONS }
    {
        self.names.len()
    }

    fn find(&self, name: &[u8]) -> Option<usize>
        ensures found { result ≡ index_from 0 self.now name.now }
        ensures small { IfSome result (λ index. index < MAX_LOCATIONS) }
    {
        for (index, other) in self.names.iter().enumerate() {
            if other.as_bytes() == name {
                return Some(index);
            }
        }
        None
    }

    /// The index of this location, which joins the others where it is new. `TooMany` is met where so
    /// many bytes of the text are left.
    #[tactic(auto, using(litmus_tokens::proofs::Bytes::name_bytes), unfolding(crate::specs::Locations::resolved))]
    pub fn index_of(&mut self, name: &[u8], left: usize) -> Result<usize, Refusal>
        requires { IsTrue (is_name name.now) }
        ensures exact { GivesUpToMemory fault_in (λ index. (index, self.new)) result (resolved self.old name.now) }
        ensures small { IfOk result (λ index. index < MAX_LOCATIONS) }
    {
        if let Some(index) = self.find(name) {
            return Ok(index);
        }
        let index = self.names.len();
        if index >= MAX_LOCATIONS {
            return Err(LitmusFault::TooMany.at(left));
        }
        let name = text_of(*self.names.allocator(), name)?;
        self.names.push(name)?;
        Ok(index)
    }

    /// The names, each at the index that `index_of` gave it.
    pub fn into_names(self) -> Vec<String>
        ensures { map string_bytes result.items ≡ self }
    {
        self.names
    }
}
