//! The init part.

ghost use Rattle.std.specs.Prelude.{◌≡◌};
ghost use Rattle.texts.specs.Results.{GivesUpToMemory};
ghost use Rattle.litmus_tokens.specs.Assignments.{place_of};
ghost use Rattle.litmus_reader.specs.Faults.{fault_in};
ghost use Rattle.litmus_reader.specs.Locations.{HasLocation};
ghost use Rattle.litmus_reader.specs.Init.{no_items, target_resolved, piece_added, items_at, items_of};

use crate::assignments::value_of;
use crate::faults::LitmusFault;
use crate::locations::Locations;
use crate::refusals::{Refusal, left_of};
use litmus_tokens::{Location, item_in};
use rv_decode::Reg;
use std::alloc::Global;
use texts::cutting::is_all;
use texts::{Separators, first_piece};

/// Where an item puts its value.
#[derive(Clone, Copy)]
pub enum Target {
    /// A register of a hart, which may be no hart of the test.
    Register { hart: u64, register: Reg },
    /// The word of the location with this index.
    Word { index: usize },
}

/// An item of the init part. Whether its hart is there is judged when the table is read.
#[derive(Clone, Copy)]
pub struct Item {
    pub target: Target,
    pub value: u32,
    /// How many bytes of the text are left where it stands.
    pub left: usize,
}

/// What the items so far say.
#[derive(Drop)]
pub struct Init {
    pub items: Vec<Item>,
    pub locations: Locations,
}

/// Where the item puts its value. A new location joins the others.
#[tactic(auto, unfolding(crate::specs::Init::target_resolved))]
fn target_of(
    locations: &mut Locations,
    location: Location<'_>,
    left: usize,
) -> Result<Target, Refusal>
    requires { HasLocation (place_of location) }
    ensures { GivesUpToMemory fault_in (λ target. (target, locations.new)) result (target_resolved locations.old (place_of location.entry)) }
{
    match location {
        Location::Register { hart, register } => Ok(Target::Register { hart, register }),
        Location::Memory(name) => {
            let index = locations.index_of(name, left)?;
            Ok(Target::Word { index })
        }
    }
}

impl Init {
    fn new(alloc: Global) -> Init
        ensures { items_of result ≡ no_items }
    {
        Init {
            items: Vec::new(alloc),
            locations: Locations::new(alloc),
        }
    }

    /// Reads what stands between two semicolons, which is an item or nothing.
    #[tactic(auto, using(crate::proofs::NameLaws::item_names), unfolding(crate::specs::Init::piece_added, crate::specs::Init::item_added, crate::specs::Init::item_resolved))]
    fn read(&mut self, piece: &[u8], left: usize) -> Result<(), Refusal>
        ensures { GivesUpToMemory fault_in (λ _. items_of self.new) result (piece_added (items_of self.old) piece.now) }
    {
        if is_all(Separators::Gaps, piece) {
            return Ok(());
        }
        let Some(assignment) = item_in(piece) else {
            return Err(LitmusFault::BadInit.at(left));
        };
        let target = target_of(&mut self.locations, assignment.location, left)?;
        let value = value_of(&mut self.locations, assignment.value, left)?;
        self.items.push(Item {
            target,
            value,
            left,
        })?;
        Ok(())
    }
}

/// The items that stand in this text, which `following` bytes follow.
#[tactic(auto, unfolding(crate::specs::Init::items_at))]
pub fn read_items(alloc: Global, text: &[u8], following: usize) -> Result<Init, Refusal>
    ensures { GivesUpToMemory fault_in items_of result (items_at text.now) }
{
    let mut init = Init::new(alloc);
    let mut rest = Some(text);
    while let Some(bytes) = rest {
        let (piece, after) = first_piece(Separators::Byte(b';'), bytes);
        init.read(piece, left_of(bytes).saturating_add(following))?;
        rest = after;
    }
    Ok(init)
}
