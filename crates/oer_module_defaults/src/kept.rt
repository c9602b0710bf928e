//! Tokens that a tree keeps.
ghost use Rattle.std.specs.Prelude.{◌≡◌, map};
ghost use Rattle.oer_module_lexer.specs.Token.{spots_of};
ghost use Rattle.oer_module_syntax.specs.State.{state_of};
ghost use Rattle.oer_module_terms.specs.Trees.{member_of, parts_from, value_of};
ghost use Rattle.oer_module_text.specs.Errors.{Gives};
ghost use Rattle.oer_module_text.specs.declared.error.Why.TheVariants.{Unresolved};
ghost use Rattle.oer_module_values.specs.Kept.{kept};
ghost use Rattle.oer_module_values.specs.Numbers.{place_of_first};
ghost use Rattle.oer_module_values.specs.declared.error.Why.TheVariants.{Unread};
ghost use Rattle.oer_module_defaults.specs.Values.{begin_of, member_place, value_in, value_place};

use oer_module_lexer::Spot;
use oer_module_names::Place;
use oer_module_syntax::{Cursor, Fault};
use oer_module_terms::{Member, Value, read_value};
use oer_module_text::{Error, Part, Why};
use std::alloc::Global;

/// How many levels of values may nest in a value.
const LEVELS: u8 = 64;

/// Before the first of some tokens that a tree keeps. A fault behind the last has the place of the first.
pub fn over_kept<'s, 't>(spots: &'s [Spot<'t>]) -> Cursor<'s, 't>
    ensures { state_of result ≡ kept (spots_of spots.now) }
{
    let end = match spots.first() {
        Some(spot) => spot.at,
        None => 0,
    };
    Cursor {
        spots,
        end,
        complete: true,
    }
}

/// Where the first of some tokens stands.
pub fn place_of_first(module: usize, spots: &[Spot<'_>]) -> Place
    ensures { result ≡ place_of_first «module» (spots_of spots.now) }
{
    Place {
        module,
        at: over_kept(spots).place(),
    }
}

/// The fault of tokens of this module.
pub fn unread<'n>(module: usize, fault: Fault) -> Error<'n>
    ensures place { result.place ≡ record { «module» = «module»; at = fault.at } }
    ensures why { result.why ≡ Unresolved (Unread fault.why) }
{
    Error {
        place: Place {
            module,
            at: fault.at,
        },
        why: Why::Unresolved(oer_module_values::Why::Unread(fault.why)),
    }
}

/// The value that tokens of a module are, and nothing else.
#[tactic(auto, unfolding(crate::specs::Values::value_in))]
pub fn value_in<'s, 't>(
    alloc: Global,
    module: usize,
    spots: &'s [Spot<'t>],
) -> Result<Value<'s, 't>, Error<'t>>
    ensures { Gives value_of result (value_in «module» (spots_of spots.now)) }
{
    let mut cursor = over_kept(spots);
    match read_value(alloc, &mut cursor, LEVELS) {
        Err(fault) => Err(unread(module, fault)),
        Ok(value) => {
            if !cursor.spots.is_empty() {
                return Err(Error {
                    place: place_of_first(module, spots),
                    why: Why::NotTaken(Part::Value),
                });
            }
            Ok(value)
        }
    }
}

/// The byte at which a value begins.
#[tactic(auto, using(oer_module_terms::proofs::Views::views))]
pub fn begin_of(value: &Value<'_, '_>) -> usize
    ensures { result ≡ begin_of (value_of value.now) }
{
    match value {
        Value::Atom { at, .. }
        | Value::Numbered { at, .. }
        | Value::Choice { at, .. }
        | Value::Braces { at, .. } => *at,
    }
}

/// Where a value in a module stands.
pub fn value_place(module: usize, value: &Value<'_, '_>) -> Place
    ensures { result ≡ value_place «module» (value_of value.now) }
{
    Place {
        module,
        at: begin_of(value),
    }
}

/// Where the first of some parts of a member stands; the place of the braces, if there are none.
fn parts_place(place: Place, parts: &[Value<'_, '_>]) -> Place
    ensures { result ≡ member_place place (parts_from (map value_of parts.now)) }
{
    match parts {
        [] => place,
        [first, ..] => value_place(place.module, first),
    }
}

/// Where a member of braces at a place stands.
#[tactic(auto, using(crate::proofs::Members::levels))]
pub fn member_place(place: Place, member: &Member<'_, '_>) -> Place
    ensures { result ≡ member_place place (member_of member.now) }
{
    parts_place(place, &member.parts)
}
