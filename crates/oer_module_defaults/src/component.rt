//! The components of a SEQUENCE, with those for which COMPONENTS OF stands, and the alternatives of a CHOICE.
ghost use Rattle.std.specs.Prelude.{◌≡◌, ◌<◌, IfOk, OnOk, length, map, option_map};
ghost use Rattle.std.specs.List.{All};
ghost use Rattle.oer_module_syntax.specs.Tree.{element_of, elements_from, need_of, tree_of};
ghost use Rattle.oer_module_text.specs.Errors.{Gives, seen};
ghost use Rattle.oer_module_text.specs.Room.{room_of};
ghost use Rattle.oer_module_defaults.specs.Components.{behind, component_in, components_at, element_at, elements_at, elements_of};
ghost use Rattle.oer_module_defaults.specs.Components.{included_at, inner_at, is_marker, is_optional, item_in, meant_at, root_of, sequence_of, whole};
ghost use Rattle.oer_module_defaults.specs.Views.{IsComponentWithin, component_of, modules_of, roots_of};

use crate::atoms::none_such;
use crate::scope::Scope;
use oer_module_names::Place;
use oer_module_syntax::{Builtin, Element, Need, TypeSyntax};
use oer_module_text::{Error, Part, Room, Why, refused};
use oer_module_values::{TypeIn, resolve};

/// How many levels of COMPONENTS OF may nest.
const MOST_LEVELS: u8 = 32;

/// A component or an alternative: its name and type, and which of the modules they stand in.
#[derive(Clone, Copy)]
pub struct Component<'m, 's, 't> {
    pub module: usize,
    pub name: &'t str,
    pub from: &'m TypeSyntax<'s, 't>,
    /// Whether a value may be without it.
    pub optional: bool,
    /// Whether it stands behind the marker.
    pub added: bool,
}

/// What is listed: the elements of a type in a module, or those of its root alone; and whether the marker stands before.
#[derive(Clone, Copy)]
pub struct Listing {
    pub module: usize,
    pub root: bool,
    pub marked: bool,
}

impl Listing {
    fn whole(module: usize) -> Listing
        ensures { result ≡ whole «module» }
    {
        Listing {
            module,
            root: false,
            marked: false,
        }
    }

    fn root_of(module: usize) -> Listing
        ensures { result ≡ root_of «module» }
    {
        Listing {
            module,
            root: true,
            marked: false,
        }
    }

    /// Behind an element.
    fn behind(self, element: &Element<'_, '_>) -> Listing
        ensures { result ≡ behind self (element_of element.now) }
    {
        Listing {
            module: self.module,
            root: self.root,
            marked: self.marked || is_marker(element),
        }
    }

    /// The component of that name.
    fn component_in<'m, 's, 't>(
        self,
        name: &'t str,
        from: &'m TypeSyntax<'s, 't>,
        need: Need<'s, 't>,
    ) -> Component<'m, 's, 't>
        ensures { component_of result ≡ component_in self name.now (tree_of from.now) (need_of need.entry) }
    {
        Component {
            module: self.module,
            name,
            from,
            optional: self.marked || is_optional(need),
            added: self.marked,
        }
    }
}

#[tactic(auto, using(oer_module_syntax::proofs::Trees::trees))]
fn is_marker(element: &Element<'_, '_>) -> bool
    ensures { result ≡ is_marker (element_of element.now) }
{
    match element {
        Element::Marker { .. } => true,
        Element::Group { .. } | Element::ComponentsOf { .. } | Element::Component { .. } => false,
    }
}

fn is_optional(need: Need<'_, '_>) -> bool
    ensures { result ≡ is_optional (need_of need.entry) }
{
    match need {
        Need::Must => false,
        Need::May | Need::Default(_) => true,
    }
}

/// The elements of a SEQUENCE or CHOICE that governs a value at a place.
#[tactic(auto, using(oer_module_syntax::proofs::Trees::trees))]
pub fn elements_of<'m, 's, 't>(
    place: Place,
    of: &'m TypeSyntax<'s, 't>,
) -> Result<&'m [Element<'s, 't>], Error<'t>>
    ensures { seen (λ es. elements_from (map element_of es.now)) result ≡ elements_of place (tree_of of.now) }
{
    match of {
        TypeSyntax::Structure { elements, .. } => Ok(elements),
        _ => Err(none_such(place)),
    }
}

/// The elements of a SEQUENCE.
#[tactic(auto, using(oer_module_syntax::proofs::Trees::trees))]
pub fn sequence_of<'m, 's, 't>(of: &'m TypeSyntax<'s, 't>) -> Option<&'m [Element<'s, 't>]>
    ensures { option_map (λ es. elements_from (map element_of es.now)) result ≡ sequence_of (tree_of of.now) }
{
    match of {
        TypeSyntax::Structure {
            builtin: Builtin::Sequence,
            elements,
            ..
        } => Some(elements),
        _ => None,
    }
}

/// The type of the items of a SEQUENCE OF.
#[tactic(auto, using(oer_module_syntax::proofs::Trees::trees))]
pub fn item_in<'m, 's, 't>(of: &'m TypeSyntax<'s, 't>) -> Option<&'m TypeSyntax<'s, 't>>
    ensures { option_map (λ t. tree_of t.now) result ≡ item_in (tree_of of.now) }
{
    match of {
        TypeSyntax::ListOf { item, .. } => Some(item),
        _ => None,
    }
}

/// Adds the components that elements are, in their order.
#[cycle(listing)]
fn list_elements<'m, 's, 't>(
    scope: Scope<'_, 'm, 's, 't>,
    levels: u8,
    listing: Listing,
    elements: &'m [Element<'s, 't>],
    found: &mut Vec<Component<'m, 's, 't>>,
    room: &mut Room,
) -> Result<(), Error<'t>>
    requires listing { listing.«module» < length (modules_of scope) }
    requires found { All (IsComponentWithin (modules_of scope)) found.old.items }
    ensures list { Gives (λ _. (map component_of found.new.items, room_of room.new)) result
        (elements_at (roots_of scope.entry levels) listing (elements_from (map element_of elements.now))
        (map component_of found.old.items) (room_of room.old)) }
    ensures within { OnOk result (All (IsComponentWithin (modules_of scope.entry)) found.new.items) }
{
    let mut here = listing;
    for element in elements.iter() {
        list_element(scope, levels, here, element, found, room)?;
        here = here.behind(element);
    }
    Ok(())
}

/// Adds the components that an element is. Of a root, what stands behind the marker is left out (X.680, 25.5).
#[cycle(listing)]
#[tactic(auto, using(oer_module_syntax::proofs::Trees::trees))]
fn list_element<'m, 's, 't>(
    scope: Scope<'_, 'm, 's, 't>,
    levels: u8,
    listing: Listing,
    element: &'m Element<'s, 't>,
    found: &mut Vec<Component<'m, 's, 't>>,
    room: &mut Room,
) -> Result<(), Error<'t>>
    requires listing { listing.«module» < length (modules_of scope) }
    requires found { All (IsComponentWithin (modules_of scope)) found.old.items }
    ensures list { Gives (λ _. (map component_of found.new.items, room_of room.new)) result
        (element_at (roots_of scope.entry levels) listing (element_of element.now) (map component_of found.old.items) (room_of room.old)) }
    ensures within { OnOk result (All (IsComponentWithin (modules_of scope.entry)) found.new.items) }
{
    match element {
        Element::Marker { at, .. } if listing.marked => {
            Err(refused(listing.module, *at, Part::SecondMarker))
        }
        Element::Marker { .. } => Ok(()),
        _ if listing.root && listing.marked => Ok(()),
        _ => list_inner(scope, levels, listing, element, found, room),
    }
}

/// Adds the components that an element is, which is no marker. Each takes the room of one part.
#[cycle(listing)]
#[tactic(auto, using(oer_module_syntax::proofs::Trees::trees))]
fn list_inner<'m, 's, 't>(
    scope: Scope<'_, 'm, 's, 't>,
    levels: u8,
    listing: Listing,
    element: &'m Element<'s, 't>,
    found: &mut Vec<Component<'m, 's, 't>>,
    room: &mut Room,
) -> Result<(), Error<'t>>
    requires listing { listing.«module» < length (modules_of scope) }
    requires found { All (IsComponentWithin (modules_of scope)) found.old.items }
    ensures list { Gives (λ _. (map component_of found.new.items, room_of room.new)) result
        (inner_at (roots_of scope.entry levels) listing (element_of element.now) (map component_of found.old.items) (room_of room.old)) }
    ensures within { OnOk result (All (IsComponentWithin (modules_of scope.entry)) found.new.items) }
{
    let module = listing.module;
    match element {
        Element::Marker { .. } => Ok(()),
        Element::Group { at, .. } => Err(refused(module, *at, Part::Group)),
        Element::ComponentsOf { at, from } => {
            let place = Place { module, at: *at };
            list_included(scope, levels, listing, place, from, found, room)
        }
        Element::Component {
            at,
            name,
            from,
            need,
        } => {
            room.take_part(Place { module, at: *at })?;
            found.push(listing.component_in(name, from, *need))?;
            Ok(())
        }
    }
}

/// Adds the components for which COMPONENTS OF at a place stands. It isn't taken among additions.
#[cycle(listing)]
fn list_included<'m, 's, 't>(
    scope: Scope<'_, 'm, 's, 't>,
    levels: u8,
    listing: Listing,
    place: Place,
    from: &'m TypeSyntax<'s, 't>,
    found: &mut Vec<Component<'m, 's, 't>>,
    room: &mut Room,
) -> Result<(), Error<'t>>
    requires place { place.«module» < length (modules_of scope) }
    requires found { All (IsComponentWithin (modules_of scope)) found.old.items }
    ensures list { Gives (λ _. (map component_of found.new.items, room_of room.new)) result
        (included_at (roots_of scope.entry levels) listing place (tree_of from.now) (map component_of found.old.items) (room_of room.old)) }
    ensures within { OnOk result (All (IsComponentWithin (modules_of scope.entry)) found.new.items) }
{
    if listing.marked {
        return Err(refused(place.module, place.at, Part::ComponentsOf));
    }
    list_root(scope, levels, place, from, found, room)
}

/// Adds the components of the root of a SEQUENCE, in which so many levels of COMPONENTS OF may nest.
#[cycle(listing)]
#[tactic(auto, unfolding(crate::specs::Components::roots_at))]
fn list_root<'m, 's, 't>(
    scope: Scope<'_, 'm, 's, 't>,
    levels: u8,
    place: Place,
    from: &'m TypeSyntax<'s, 't>,
    found: &mut Vec<Component<'m, 's, 't>>,
    room: &mut Room,
) -> Result<(), Error<'t>>
    requires place { place.«module» < length (modules_of scope) }
    requires found { All (IsComponentWithin (modules_of scope)) found.old.items }
    ensures list { Gives (λ _. (map component_of found.new.items, room_of room.new)) result
        (roots_of scope.entry levels place (tree_of from.now) (map component_of found.old.items) (room_of room.old)) }
    ensures within { OnOk result (All (IsComponentWithin (modules_of scope.entry)) found.new.items) }
{
    if levels == 0 {
        return Err(Error {
            place,
            why: Why::TooDeep,
        });
    }
    list_meant(scope, levels - 1, place, from, found, room)
}

/// Adds the components of the root of the SEQUENCE that a type stands for, each of the module where that stands. It takes
/// the room of one part.
#[cycle(listing)]
fn list_meant<'m, 's, 't>(
    scope: Scope<'_, 'm, 's, 't>,
    levels: u8,
    place: Place,
    from: &'m TypeSyntax<'s, 't>,
    found: &mut Vec<Component<'m, 's, 't>>,
    room: &mut Room,
) -> Result<(), Error<'t>>
    requires place { place.«module» < length (modules_of scope) }
    requires found { All (IsComponentWithin (modules_of scope)) found.old.items }
    ensures list { Gives (λ _. (map component_of found.new.items, room_of room.new)) result
        (meant_at (modules_of scope.entry) (roots_of scope.entry levels) place (tree_of from.now)
        (map component_of found.old.items) (room_of room.old)) }
    ensures within { OnOk result (All (IsComponentWithin (modules_of scope.entry)) found.new.items) }
{
    let of = TypeIn {
        module: place.module,
        syntax: from,
    };
    let meaning = resolve(scope.alloc, scope.names, of)?;
    room.take_part(place)?;
    let Some(elements) = sequence_of(meaning.of.syntax) else {
        return Err(refused(place.module, place.at, Part::ComponentsOf));
    };
    let listing = Listing::root_of(meaning.of.module);
    list_elements(scope, levels, listing, elements, found, room)
}

/// The components that the elements of a SEQUENCE in a module are, with those for which COMPONENTS OF stands; or the
/// alternatives of a CHOICE. Each takes the room of one part, and so does COMPONENTS OF.
///
/// # Errors
/// NotTaken, with SecondMarker, Group, and ComponentsOf of what is no SEQUENCE and behind the marker. TooManyParts and
/// TooLong. Of COMPONENTS OF a type, those of `resolve`; TooDeep, where more than 32 nest. Or Unresolved, with Memory.
#[tactic(auto, unfolding(crate::specs::Components::components_at))]
pub fn list_components<'m, 's, 't>(
    scope: Scope<'_, 'm, 's, 't>,
    module: usize,
    elements: &'m [Element<'s, 't>],
    room: &mut Room,
) -> Result<Vec<Component<'m, 's, 't>>, Error<'t>>
    requires { «module» < length (modules_of scope) }
    ensures list { Gives (λ v. (map component_of v.items, room_of room.new)) result
        (components_at (modules_of scope.entry) «module» (elements_from (map element_of elements.now)) (room_of room.old)) }
    ensures within { IfOk result (λ v. All (IsComponentWithin (modules_of scope.entry)) v.items) }
{
    let mut found = Vec::new(scope.alloc);
    let listing = Listing::whole(module);
    list_elements(scope, MOST_LEVELS, listing, elements, &mut found, room)?;
    Ok(found)
}
