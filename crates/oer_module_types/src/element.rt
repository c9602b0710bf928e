//! What stands between the commas of a SEQUENCE or CHOICE, without the types.
ghost use Rattle.std.specs.Prelude.{◌≡◌, ◌<◌, OnOk, length};
ghost use Rattle.oer_module_names.specs.Views.{modules_in};
ghost use Rattle.oer_module_syntax.specs.Tree.{need_of, tree_of};
ghost use Rattle.oer_module_text.specs.Errors.{Gives};
ghost use Rattle.oer_module_text.specs.Room.{room_of};
ghost use Rattle.oer_values.specs.ShapeView.{need_of as need_seen};
ghost use Rattle.oer_module_types.specs.Types.{added_at, after, closed, first, index_of, marker_at, name_at, need_at, needed_at, put_comma, tag_at, tag_if};

use oer_module_defaults::write_default;
use oer_module_leaves::is_implied;
use oer_module_names::{Names, Place};
use oer_module_syntax::Need;
use oer_module_tags::write_tag;
use oer_module_text::{Error, Part, Room, refused};
use oer_module_values::TypeIn;
use oer_units::Tag;
use std::alloc::{AllocError, Global};

/// How many elements of a type stand before one, whether the text has some by then, and whether the marker is among them.
#[derive(Clone, Copy)]
pub struct Before {
    pub elements: usize,
    pub any: bool,
    pub marked: bool,
}

/// Behind an element: whether the text has some by then, and whether the marker is among them.
#[derive(Clone, Copy)]
pub struct After {
    pub any: bool,
    pub marked: bool,
}

impl After {
    /// Whether the text has elements by then, and whether the marker is among them.
    pub fn new(any: bool, marked: bool) -> After
        ensures { result ≡ after any marked }
    {
        After { any, marked }
    }
}

impl Before {
    /// Before the first element of a type, where the text has some of another or not.
    pub fn first(any: bool) -> Before
        ensures { result ≡ first any }
    {
        Before {
            elements: 0,
            any,
            marked: false,
        }
    }

    /// Which of the components one is: all that stand before it are such but the marker.
    fn index(self) -> usize
        ensures { result ≡ index_of self }
    {
        if self.marked {
            return self.elements.saturating_sub(1);
        }
        self.elements
    }
}

fn put_comma(before: Before, room: &mut Room) -> Result<(), AllocError>
    ensures { OnOk result (room_of room.new ≡ put_comma before (room_of room.old)) }
{
    if !before.any {
        return Ok(());
    }
    room.put(", ")
}

/// The tag of an alternative behind others, if there are tags.
pub fn tag_at(tags: &[Tag], before: Before) -> Option<Tag>
    ensures { result ≡ tag_at tags.now before }
{
    match tags.get(before.index()) {
        Some(tag) => Some(*tag),
        None => None,
    }
}

fn put_tag(tag: Option<Tag>, room: &mut Room) -> Result<(), AllocError>
    ensures { OnOk result (room_of room.new ≡ tag_if tag (room_of room.old)) }
{
    match tag {
        Some(tag) => {
            write_tag(room, tag)?;
            room.put(" ")
        }
        None => Ok(()),
    }
}

/// The name of a component or an alternative, behind others, and its tag, if it has one.
#[tactic(auto, unfolding(crate::specs::Types::name_at))]
pub fn write_name(
    tag: Option<Tag>,
    before: Before,
    name: &str,
    room: &mut Room,
) -> Result<(), AllocError>
    ensures { OnOk result (room_of room.new ≡ name_at tag before name.now (room_of room.old)) }
{
    put_comma(before, room)?;
    room.put(name)?;
    room.put(" ")?;
    put_tag(tag, room)
}

/// The marker, behind others.
///
/// # Errors
/// NotTaken, if there is one before; or Unresolved, with Memory.
pub fn write_marker<'t>(place: Place, before: Before, room: &mut Room) -> Result<(), Error<'t>>
    ensures { Gives (λ _. room_of room.new) result (marker_at place.«module» place.at before (room_of room.old)) }
{
    if before.marked {
        return Err(refused(place.module, place.at, Part::SecondMarker));
    }
    put_comma(before, room)?;
    room.put("...")?;
    Ok(())
}

/// What makes an addition optional: nothing, since each may be absent.
fn check_added<'t>(
    place: Place,
    need: Need<'_, 't>,
    room: &mut Room,
) -> Result<oer_values::Need, Error<'t>>
    ensures { Gives (λ n. (need_seen n, room_of room.new)) result (added_at place.«module» place.at (need_of need.entry) (room_of room.old)) }
{
    match need {
        Need::Default(_) => Err(refused(place.module, place.at, Part::AddedDefault)),
        _ => Ok(oer_values::Need::May),
    }
}

/// What makes a component of the root optional.
fn write_root_need<'m, 's, 't>(
    alloc: Global,
    names: &Names<'m, 's, 't>,
    of: TypeIn<'m, 's, 't>,
    need: Need<'s, 't>,
    room: &mut Room,
) -> Result<oer_values::Need, Error<'t>>
    requires { of.«module» < length (modules_in names.now) }
    ensures { Gives (λ n. (need_seen n, room_of room.new)) result (needed_at (modules_in names.now) of.entry.«module» (tree_of of.entry.syntax.now) (need_of need.entry) (room_of room.old)) }
{
    match need {
        Need::Must => Ok(oer_values::Need::Must),
        Need::May => {
            room.put(" OPTIONAL")?;
            Ok(oer_values::Need::May)
        }
        Need::Default(value) => {
            room.put(" DEFAULT ")?;
            let value = write_default(alloc, names, of, of.module, value, room)?;
            Ok(oer_values::Need::Default(value))
        }
    }
}

/// What makes a component at a place optional, behind its type.
#[tactic(auto, unfolding(crate::specs::Types::need_at))]
pub fn write_need<'m, 's, 't>(
    alloc: Global,
    names: &Names<'m, 's, 't>,
    added: bool,
    at: usize,
    of: TypeIn<'m, 's, 't>,
    need: Need<'s, 't>,
    room: &mut Room,
) -> Result<oer_values::Need, Error<'t>>
    requires { of.«module» < length (modules_in names.now) }
    ensures { Gives (λ n. (need_seen n, room_of room.new)) result (need_at (modules_in names.now) added of.entry.«module» at (tree_of of.entry.syntax.now) (need_of need.entry) (room_of room.old)) }
{
    if added {
        let module = of.module;
        return check_added(Place { module, at }, need, room);
    }
    write_root_need(alloc, names, of, need, room)
}

/// The closing brace of a type at a place, which has a marker or not.
///
/// # Errors
/// NotTaken, if it has none and the module's header gives it one; or Unresolved, with Memory.
#[tactic(auto, unfolding(crate::specs::Types::closed))]
pub fn close<'t>(
    names: &Names<'_, '_, 't>,
    place: Place,
    marked: bool,
    room: &mut Room,
) -> Result<(), Error<'t>>
    requires { place.«module» < length (modules_in names.now) }
    ensures { Gives (λ _. room_of room.new) result (closed (modules_in names.now) place marked (room_of room.old)) }
{
    if !marked && is_implied(names, place.module) {
        return Err(refused(place.module, place.at, Part::Implied));
    }
    room.put("}")?;
    Ok(())
}
