//! What an assignment puts, with the addresses of its locations.

ghost use Rattle.std.specs.Prelude.{◌≡◌, ◌*◌, ◌<◌};
ghost use Rattle.texts.specs.Results.{GivesUpToMemory};
ghost use Rattle.litmus_tokens.specs.Assignments.{value_of as named_value_of};
ghost use Rattle.litmus_reader.specs.Faults.{fault_in};
ghost use Rattle.litmus_reader.specs.Locations.{HasName, value_resolved};
ghost use Rattle.litmus.specs.declared.litmus_test.TheConstants.{MAX_LOCATIONS};

use crate::locations::Locations;
use crate::refusals::Refusal;
use litmus_tokens::Value;

/// The address of the location's word in bytes, which is 4 times the index.
pub fn address_of(index: usize) -> u32
    requires { index < MAX_LOCATIONS }
    ensures { result ≡ 4 * index }
{
    4 * index as u32
}

/// The value that is put. A new location joins the others; one too many is met where `left` bytes of
/// the text are left.
#[tactic(auto, unfolding(crate::specs::Locations::value_resolved))]
pub fn value_of(locations: &mut Locations, value: Value<'_>, left: usize) -> Result<u32, Refusal>
    requires { HasName (named_value_of value) }
    ensures { GivesUpToMemory fault_in (λ value. (value, locations.new)) result (value_resolved locations.old (named_value_of value.entry)) }
{
    match value {
        Value::Number(number) => Ok(number),
        Value::Address(name) => {
            let index = locations.index_of(name, left)?;
            Ok(address_of(index))
        }
    }
}
