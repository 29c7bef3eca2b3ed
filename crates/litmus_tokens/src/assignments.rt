//! Assignments: which value is put where.

ghost use Rattle.std.specs.Prelude.{◌≡◌, Some, IfSome, option_map};
ghost use Rattle.std.specs.Option.{option_copied, option_zip};
ghost use Rattle.litmus_tokens.specs.Names.{core};
ghost use Rattle.litmus_tokens.specs.Assignments.{AssignmentValue, begins_with_gap, after_int, a_name, value, bracketed, location, register_at, place};
ghost use Rattle.litmus_tokens.specs.Assignments.{declared, an_assignment, item_place, item, place_of, value_of, assignment_of};
ghost use Rattle.litmus_tokens.specs.Assignments.NamedLocation.{at_location};

use crate::names::{is_name, word_in};
use rv_decode::{Reg, register_named};
use texts::cutting::{cut_at, stripped};
use texts::{Separators, number};

/// Where a value is put.
#[derive(Clone, Copy, Debug, PartialEq, Eq)]
pub enum Location<'a> {
    /// A register of a hart. A hart's number from 2^32 on counts as 2^32, which no hart has.
    Register { hart: u64, register: Reg },
    /// The word at the location of this name.
    Memory(&'a [u8]),
}

/// What is put there.
#[derive(Clone, Copy, Debug, PartialEq, Eq)]
pub enum Value<'a> {
    /// This number, taken modulo 2^32.
    Number(u32),
    /// The address of the location of this name.
    Address(&'a [u8]),
}

/// A value, and where init puts it or a condition asks for it.
#[derive(Clone, Copy, Debug, PartialEq, Eq)]
pub struct Assignment<'a> {
    pub location: Location<'a>,
    pub value: Value<'a>,
}

/// The text without the blanks and LFs round it.
fn core(text: &[u8]) -> &[u8]
    ensures { result.now ≡ core text.now }
{
    stripped(Separators::Gaps, text)
}

/// A name, or a number.
#[tactic(auto, unfolding(crate::specs::Assignments::value))]
fn value_in(text: &[u8]) -> Option<Value<'_>>
    ensures { option_map value_of result ≡ value.reads text.now }
{
    let text = core(text);
    if is_name(text) {
        return Some(Value::Address(text));
    }
    Some(Value::Number(word_in(text)?))
}

fn location_named(name: &[u8]) -> Option<Location<'_>>
    ensures { option_map place_of result ≡ option_map at_location (a_name.reads name.now) }
{
    if is_name(name) {
        Some(Location::Memory(name))
    } else {
        None
    }
}

fn bracketed_in(text: &[u8]) -> Option<Location<'_>>
    ensures { option_map place_of result ≡ option_map at_location (bracketed.reads text.now) }
{
    match text {
        [b'[', rest @ ..] => match cut_at(rest, b']') {
            (name, Some([])) => location_named(core(name)),
            _ => None,
        },
        _ => None,
    }
}

/// A location, in brackets or without.
fn location_in(text: &[u8]) -> Option<Location<'_>>
    ensures { option_map place_of result ≡ option_map at_location (location.reads text.now) }
{
    match bracketed_in(text) {
        Some(location) => Some(location),
        None => location_named(text),
    }
}

fn register_of<'a>(hart: Option<u64>, register: Option<Reg>) -> Option<Location<'a>>
    ensures { option_map place_of result ≡ option_map register_at (option_zip hart register) }
{
    Some(Location::Register {
        hart: hart?,
        register: register?,
    })
}

/// A register of a hart, or a location.
#[tactic(auto, unfolding(crate::specs::Assignments::place))]
fn place_in(text: &[u8]) -> Option<Location<'_>>
    ensures { option_map place_of result ≡ place.reads text.now }
{
    let (front, name) = cut_at(text, b':');
    match name {
        Some(name) => register_of(number(core(front)), register_named(core(name))),
        None => location_in(core(front)),
    }
}

fn put<'a>(location: Option<Location<'a>>, value: Option<Value<'a>>) -> Option<Assignment<'a>>
    ensures { option_map assignment_of result ≡ option_zip (option_map place_of location.entry) (option_map value_of value.entry) }
{
    Some(Assignment {
        location: location?,
        value: value?,
    })
}

#[tactic(auto, unfolding(crate::specs::Assignments::an_assignment))]
fn assignment_said(text: &[u8]) -> Option<Assignment<'_>>
    ensures { option_map assignment_of result ≡ an_assignment.reads text.now }
{
    let (left, right) = cut_at(text, b'=');
    put(place_in(left), value_in(right?))
}

/// The assignment that the text says: `H:reg=value`, `name=value` or `[name]=value`, where a value is a
/// number or a name; `None` for other texts.
///
/// Blanks and LFs may stand round the whole and round `:`, `=` and a name in brackets. The text is a
/// cleaned one: a CR is no blank.
pub fn assignment_in(text: &[u8]) -> Option<Assignment<'_>>
    ensures found { IfSome (option_map assignment_of result) (an_assignment.Says text.now) }
    ensures only { (assignment : AssignmentValue) → an_assignment.Says text.now assignment → option_map assignment_of result ≡ Some assignment }
    ensures exact { option_map assignment_of result ≡ an_assignment.reads text.now }
{
    assignment_said(text)
}

fn begins_with_gap(text: &[u8]) -> bool
    ensures { result ≡ begins_with_gap text.now }
{
    match text.first() {
        Some(first) => Separators::Gaps.contain(*first),
        None => false,
    }
}

/// What follows `int`, where that begins with a gap.
#[tactic(auto, unfolding(crate::specs::Assignments::after_int))]
fn after_int(text: &[u8]) -> Option<&[u8]>
    ensures { option_copied result ≡ after_int text.now }
{
    if text.starts_with(b"int") && begins_with_gap(&text[3..]) {
        Some(&text[3..])
    } else {
        None
    }
}

/// The location that a declaration `int name` names.
#[tactic(auto, unfolding(crate::specs::Assignments::declared))]
fn declared_in(text: &[u8]) -> Option<Location<'_>>
    ensures { option_map place_of result ≡ declared.reads text.now }
{
    location_named(core(after_int(core(text))?))
}

#[tactic(auto, unfolding(crate::specs::Assignments::item_place))]
fn item_place_in(text: &[u8]) -> Option<Location<'_>>
    ensures { option_map place_of result ≡ item_place.reads text.now }
{
    match declared_in(text) {
        Some(location) => Some(location),
        None => place_in(text),
    }
}

#[tactic(auto, unfolding(crate::specs::Assignments::item))]
fn item_of(text: &[u8]) -> Option<Assignment<'_>>
    ensures { option_map assignment_of result ≡ item.reads text.now }
{
    let (left, right) = cut_at(text, b'=');
    match right {
        Some(right) => put(item_place_in(left), value_in(right)),
        None => put(declared_in(left), Some(Value::Number(0))),
    }
}

/// The assignment that an item of init says: one of [`assignment_in`], or `int name=value`, or `int name`,
/// which is the same as `int name=0`; `None` for other texts.
///
/// A blank or LF follows the `int` there, so `int=5` puts 5 at the location `int`.
pub fn item_in(text: &[u8]) -> Option<Assignment<'_>>
    ensures found { IfSome (option_map assignment_of result) (item.Says text.now) }
    ensures only { (assignment : AssignmentValue) → item.Says text.now assignment → option_map assignment_of result ≡ Some assignment }
    ensures exact { option_map assignment_of result ≡ item.reads text.now }
{
    item_of(text)
}
