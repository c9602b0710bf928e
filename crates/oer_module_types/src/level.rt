//! Where types nest too deep, and what stands where one would stand in itself too often.
ghost use Rattle.std.specs.Prelude.{◌≡◌, ◌≤◌, length};
ghost use Rattle.oer_module_text.specs.Errors.{Gives};
ghost use Rattle.oer_module_text.specs.Room.{room_of};
ghost use Rattle.oer_values.specs.ShapeView.{type_of};
ghost use Rattle.oer_module_types.specs.Levels.{end_at, is_full, is_same, times};

use crate::shape::end_shape;
use oer_module_names::Place;
use oer_module_text::{Error, Room, Why};
use oer_values::Shape;
use std::alloc::Global;

fn is_same(one: Place, other: Place) -> bool
    ensures { result ≡ is_same one other }
{
    one.module == other.module && one.at == other.at
}

/// How often a place stands on a path.
fn times(path: &[Place], place: Place) -> usize
    ensures is { result ≡ times place path.now }
    ensures most { result ≤ length path.now }
{
    let mut count = 0;
    for step in path {
        if is_same(place, *step) {
            count += 1;
        }
    }
    count
}

/// Whether a place stands on a path as often as types may nest.
pub fn is_full(nesting: u8, path: &[Place], place: Place) -> bool
    ensures { result ≡ is_full nesting place path.now }
{
    usize::from(nesting) <= times(path, place)
}

/// What stands in place of a type that would stand in itself too often: a CHOICE with a NULL in it, which takes a level
/// and a part more.
///
/// # Errors
/// TooDeep, if no level is left; TooManyParts, TooLong, or Unresolved, with Memory.
#[tactic(auto, unfolding(crate::specs::Levels::end_at))]
pub fn write_end<'t>(
    alloc: Global,
    levels: u8,
    place: Place,
    room: &mut Room,
) -> Result<Shape, Error<'t>>
    ensures { Gives (λ s. (type_of s, room_of room.new)) result (end_at levels place (room_of room.old)) }
{
    if levels == 0 {
        return Err(Error {
            place,
            why: Why::TooDeep,
        });
    }
    room.take_part(place)?;
    room.put("CHOICE {too-deep [PRIVATE 4294967295] NULL} /* nesting ends */")?;
    let shape = end_shape(alloc)?;
    Ok(shape)
}
