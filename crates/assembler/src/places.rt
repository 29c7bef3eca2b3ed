//! The places of labels by their names.

ghost use Rattle.std.specs.Prelude.{◌≡◌, ℕ, List, cond, Some, None, OnOk, OnErr};
ghost use Rattle.std.specs.Str.{bytes_eq};
ghost use Rattle.std.specs.Option.{option_copied};
ghost use Rattle.assembler.specs.Drafts.{is_label};
ghost use Rattle.assembler.specs.Kept.{place_in};

use std::alloc::{AllocError, Global};
use std::collections::HashMap;

/// How many words stand before each label.
pub type Places = HashMap<Vec<u8>, usize>;

pub fn no_places(alloc: Global) -> Places
    ensures { (name : List ℕ) → place_in result name ≡ None }
{
    HashMap::new(alloc)
}

/// The place of the label of this name.
pub fn place_in(places: &Places, name: &[u8]) -> Option<usize>
    ensures { result ≡ place_in places.now name.now }
{
    places.get(name).copied()
}

/// Gives the name a place. Where memory runs out, no name's place changes.
#[tactic(auto, using(crate::proofs::DraftLaws::place_after))]
fn define(places: &mut Places, name: Vec<u8>, place: usize) -> Result<(), AllocError>
    ensures defined { OnOk result ((other : List ℕ) → place_in places.new other ≡ cond (bytes_eq name.items other) (Some place) (place_in places.old other)) }
    ensures kept { OnErr result ((other : List ℕ) → place_in places.new other ≡ place_in places.old other) }
{
    places.insert(name, place)?;
    Ok(())
}

/// Gives the label a place, if there is a label. Where memory runs out, no name's place changes.
pub fn define_label(
    places: &mut Places,
    alloc: Global,
    label: Option<&[u8]>,
    place: usize,
) -> Result<(), AllocError>
    ensures defined { OnOk result ((name : List ℕ) → place_in places.new name
        ≡ cond (is_label name (option_copied label.entry)) (Some place) (place_in places.old name)) }
    ensures kept { OnErr result ((name : List ℕ) → place_in places.new name ≡ place_in places.old name) }
{
    match label {
        Some(name) => define(places, Vec::from_slice(alloc, name)?, place),
        None => Ok(()),
    }
}
