//! The alternative of a CHOICE that a value names, and its tag.
ghost use Rattle.std.specs.Prelude.{◌≡◌, ◌<◌, List, IfOk, IfSome, length, map, option_map, slice_get};
ghost use Rattle.std.specs.List.{All};
ghost use Rattle.oer_module_syntax.specs.Tree.{Module};
ghost use Rattle.oer_module_text.specs.Errors.{Gives, seen};
ghost use Rattle.oer_module_text.specs.Room.{room_of};
ghost use Rattle.oer_module_defaults.specs.Alternatives.{alternative_at, alternative_by, index_of};
ghost use Rattle.oer_module_defaults.specs.Governors.{governor_of};
ghost use Rattle.oer_module_defaults.specs.Views.{IsComponentWithin, alternative_of, component_of, modules_of};

use crate::atoms::none_such;
use crate::component::{Component, elements_of, list_components};
use crate::governor::Governor;
use crate::scope::Scope;
use oer_module_names::Place;
use oer_module_tags::alternative_tags;
use oer_module_text::{Error, Room};
use oer_module_values::TypeIn;
use oer_units::Tag;

/// The type of an alternative, and its tag.
#[derive(Clone, Copy)]
pub struct Alternative<'m, 's, 't> {
    pub of: TypeIn<'m, 's, 't>,
    pub tag: Tag,
}

/// Which of the components has that name.
fn index_of(components: &[Component<'_, '_, '_>], name: &str) -> Option<usize>
    ensures { result ≡ index_of 0 name.now (map component_of components.now) }
{
    for (index, component) in components.iter().enumerate() {
        if component.name == name {
            return Some(index);
        }
    }
    None
}

/// The component of that index.
fn component_from<'m, 's, 't>(
    components: &[Component<'m, 's, 't>],
    index: usize,
) -> Option<Component<'m, 's, 't>>
    ensures is { option_map component_of result ≡ slice_get (map component_of components.now) index }
    ensures within { (ms : List Module) → All (IsComponentWithin ms) components.now → IfSome result (IsComponentWithin ms) }
{
    match components.get(index) {
        Some(component) => Some(*component),
        None => None,
    }
}

/// The tag of that index.
fn tag_from(tags: &[Tag], index: usize) -> Option<Tag>
    ensures { result ≡ slice_get tags.now index }
{
    match tags.get(index) {
        Some(tag) => Some(*tag),
        None => None,
    }
}

/// The type and the tag of that index, which is an alternative's.
fn alternative_by<'m, 's, 't>(
    place: Place,
    component: Option<Component<'m, 's, 't>>,
    tag: Option<Tag>,
) -> Result<Alternative<'m, 's, 't>, Error<'t>>
    ensures is { seen alternative_of result ≡ alternative_by place (option_map component_of component.entry) tag }
    ensures within { (ms : List Module) → IfSome component.entry (IsComponentWithin ms)
        → IfOk result (λ a. a.of.«module» < length ms) }
{
    let (Some(component), Some(tag)) = (component, tag) else {
        return Err(none_such(place));
    };
    Ok(Alternative {
        of: TypeIn {
            module: component.module,
            syntax: component.from,
        },
        tag,
    })
}

/// The alternative of a CHOICE that governs a value at a place, by its name (X.680, 29), in the root or behind the marker.
///
/// # Errors
/// Those of `alternative_tags` and `list_components`. Then NoSuchValue, at the place, where there is none of that name.
#[tactic(auto, unfolding(crate::specs::Alternatives::alternative_at))]
pub fn alternative_at<'m, 's, 't>(
    scope: Scope<'_, 'm, 's, 't>,
    place: Place,
    governor: Governor<'m, 's, 't>,
    name: &str,
    room: &mut Room,
) -> Result<Alternative<'m, 's, 't>, Error<'t>>
    requires { governor.«module» < length (modules_of scope) }
    ensures is { Gives (λ a. (alternative_of a, room_of room.new)) result
        (alternative_at (modules_of scope.entry) place (governor_of governor.entry) name.now (room_of room.old)) }
    ensures within { IfOk result (λ a. a.of.«module» < length (modules_of scope.entry)) }
{
    let elements = elements_of(place, governor.syntax)?;
    let tags = alternative_tags(scope.alloc, scope.names, governor.module, elements)?;
    let components = list_components(scope, governor.module, elements, room)?;
    match index_of(&components, name) {
        Some(index) => alternative_by(
            place,
            component_from(&components, index),
            tag_from(&tags, index),
        ),
        None => Err(none_such(place)),
    }
}
