//! A type and its text, with the types in it.
ghost use Rattle.std.specs.Prelude.{◌≡◌, ◌<◌, IfOk, OnOk, length, map};
ghost use Rattle.oer_module_limits.specs.Views.{IsWithin, written_of};
ghost use Rattle.oer_module_syntax.specs.Tree.{element_of, elements_from, need_of, tree_of};
ghost use Rattle.oer_module_text.specs.Errors.{Gives};
ghost use Rattle.oer_module_text.specs.Room.{room_of};
ghost use Rattle.oer_module_values.specs.Types.{IsFinal};
ghost use Rattle.oer_module_values.specs.Views.{meaning_of, type_in};
ghost use Rattle.oer_values.specs.ShapeView.{type_of};
ghost use Rattle.oer_module_types.specs.Gathered.{gathered_of};
ghost use Rattle.oer_module_types.specs.Types.{IsSingle, braces_at, component_at, components_of_at, element_at, elements_at, inside_at, list_at, meant_by, nested_at, root_at, root_element_at, single_at, stands_for, structure_at, type_place};
ghost use Rattle.oer_module_types.specs.Views.{modules_of, roots_of, types_of};

use crate::element::{After, Before, close, tag_at, write_marker, write_name, write_need};
use crate::field::{Field, write_field};
use crate::gathered::Gathered;
use crate::level::{is_full, write_end};
use crate::shape::list_shape;
use oer_module_defaults::sequence_of;
use oer_module_leaves::{Checked, put_unchecked, write_leaf};
use oer_module_limits::Written;
use oer_module_names::{Names, Place};
use oer_module_syntax::{Builtin, Element, Need, TypeSyntax};
use oer_module_tags::alternative_tags;
use oer_module_text::{Error, Part, Room, Why, refused};
use oer_module_values::{Given, Meaning, TypeIn, place_of, resolve};
use oer_units::Tag;
use oer_values::Shape;
use std::alloc::Global;

/// How many levels may nest, of types and of COMPONENTS OF.
pub const MOST_LEVELS: u8 = 32;

/// A type, and its text in our notation.
#[derive(Drop)]
pub struct Typed {
    pub text: String,
    pub shape: Shape,
}

/// What goes along while a type is written: the modules, and how often a type may stand in itself, itself included.
#[derive(Clone, Copy)]
pub struct Scope<'n, 'm, 's, 't> {
    pub alloc: Global,
    pub names: &'n Names<'m, 's, 't>,
    pub nesting: u8,
}

/// The type whose elements are written, the tags of these, if it is a CHOICE, and what stands before them.
#[derive(Clone, Copy)]
struct Frame<'a> {
    place: Place,
    tags: &'a [Tag],
    before: Before,
}

/// A component or an alternative at a byte.
#[derive(Clone, Copy)]
struct Component<'m, 's, 't> {
    at: usize,
    name: &'t str,
    from: &'m TypeSyntax<'s, 't>,
    need: Need<'s, 't>,
}

/// COMPONENTS OF a type at a place, and what stands before it.
#[derive(Clone, Copy)]
struct Included<'m, 's, 't> {
    place: Place,
    before: Before,
    from: &'m TypeSyntax<'s, 't>,
}

/// A SEQUENCE, SET or CHOICE at a place, with its constraints.
#[derive(Clone, Copy)]
struct Structure<'g, 'm, 's, 't> {
    place: Place,
    builtin: Builtin,
    elements: &'m [Element<'s, 't>],
    written: Written<'g, 's, 't>,
}

/// A SEQUENCE OF or SET OF at a place, with its constraints. Whether the word SIZE stands before the first of these.
#[derive(Clone, Copy)]
struct ListOf<'g, 'm, 's, 't> {
    place: Place,
    builtin: Builtin,
    sized: bool,
    item: &'m TypeSyntax<'s, 't>,
    written: Written<'g, 's, 't>,
}

fn type_place(of: TypeIn<'_, '_, '_>) -> Place
    ensures { result ≡ type_place (type_in of.entry) }
{
    Place {
        module: of.module,
        at: place_of(of.syntax),
    }
}

/// What a type stands for, through references and tags.
#[tactic(auto, unfolding(crate::specs::Types::stands_for))]
fn stands_for<'m, 's, 't>(
    scope: Scope<'_, 'm, 's, 't>,
    of: TypeIn<'m, 's, 't>,
) -> Result<Meaning<'m, 's, 't>, Error<'t>>
    requires { of.«module» < length (modules_of scope) }
    ensures value { Gives meaning_of result (stands_for (modules_of scope.entry) (type_in of.entry)) }
    ensures within { IfOk result (IsWithin (modules_of scope.entry)) }
    ensures settled { IfOk result (λ m. IsFinal (tree_of m.of.syntax.now)) }
{
    let meaning = resolve(scope.alloc, scope.names, of)?;
    Ok(meaning)
}

/// A type, whose text is added. So many levels of types may nest. The path has the places of the SEQUENCEs, CHOICEs and
/// SEQUENCE OFs that the type stands in. Where one would stand on it more often than the scope's nesting, there is
/// `CHOICE {too-deep [PRIVATE 4294967295] NULL} /* nesting ends */` in its place.
///
/// # Errors
/// The first on the way, at the place of the type or the element that it is. Unresolved, where a name stands for nothing,
/// tokens can't be read, or an allocation failed. TooDeep, where a level of types or of COMPONENTS OF is one too many;
/// TooManyParts and TooLong. NotTaken at a part of ASN.1 that isn't taken. The errors of leaves, tags and defaults.
#[cycle(types)]
#[tactic(auto, unfolding(crate::specs::Types::type_at))]
pub fn write_type<'m, 's, 't>(
    scope: Scope<'_, 'm, 's, 't>,
    levels: u8,
    path: &mut Vec<Place>,
    of: TypeIn<'m, 's, 't>,
    room: &mut Room,
) -> Result<Shape, Error<'t>>
    requires { of.«module» < length (modules_of scope) }
    ensures text { Gives (λ s. (type_of s, room_of room.new)) result (types_of scope.entry levels path.old.items (type_in of.entry) (room_of room.old)) }
    ensures path { OnOk result (path.new.items ≡ path.old.items) }
{
    if levels == 0 {
        return Err(Error {
            place: type_place(of),
            why: Why::TooDeep,
        });
    }
    let meaning = stands_for(scope, of)?;
    room.take_part(type_place(meaning.of))?;
    write_meant(scope, levels - 1, path, type_place(of), &meaning, room)
}

/// What a type at `of` stands for, in which so many levels may nest.
#[cycle(types)]
#[tactic(auto, using(oer_module_syntax::proofs::Trees::trees))]
fn write_meant<'m, 's, 't>(
    scope: Scope<'_, 'm, 's, 't>,
    levels: u8,
    path: &mut Vec<Place>,
    of: Place,
    meaning: &Meaning<'m, 's, 't>,
    room: &mut Room,
) -> Result<Shape, Error<'t>>
    requires within { IsWithin (modules_of scope) meaning.now }
    requires settled { IsFinal (tree_of meaning.now.of.syntax.now) }
    ensures text { Gives (λ s. (type_of s, room_of room.new)) result (meant_by (modules_of scope.entry) scope.entry.nesting levels (types_of scope.entry levels) (roots_of scope.entry levels) path.old.items of (meaning_of meaning.now) (room_of room.old)) }
    ensures path { OnOk result (path.new.items ≡ path.old.items) }
{
    let is = meaning.of;
    let module = is.module;
    let given: &[Given<'s, 't>] = &meaning.given;
    match is.syntax {
        TypeSyntax::Structure {
            at,
            builtin,
            elements,
            constraints: own,
        } => {
            let structure = Structure {
                place: Place { module, at: *at },
                builtin: *builtin,
                elements,
                written: Written { module, own, given },
            };
            write_structure(scope, levels, path, structure, room)
        }
        TypeSyntax::ListOf {
            at,
            builtin,
            sized,
            size: own,
            item,
            ..
        } => {
            let list = ListOf {
                place: Place { module, at: *at },
                builtin: *builtin,
                sized: *sized,
                item,
                written: Written { module, own, given },
            };
            write_list(scope, levels, path, list, room)
        }
        _ => write_single(scope, of, meaning, room),
    }
}

/// A type that holds no other, or that isn't taken.
#[tactic(auto, unfolding(crate::specs::Types::single_at), using(oer_module_syntax::proofs::Trees::trees))]
fn write_single<'m, 's, 't>(
    scope: Scope<'_, 'm, 's, 't>,
    of: Place,
    meaning: &Meaning<'m, 's, 't>,
    room: &mut Room,
) -> Result<Shape, Error<'t>>
    requires within { IsWithin (modules_of scope) meaning.now }
    requires single { IsSingle (tree_of meaning.now.of.syntax.now) }
    ensures { Gives (λ s. (type_of s, room_of room.new)) result (single_at (modules_of scope.entry) of (meaning_of meaning.now) (room_of room.old)) }
{
    let is = meaning.of;
    let module = is.module;
    match is.syntax {
        TypeSyntax::Plain { .. } => write_leaf(scope.alloc, scope.names, of, meaning, room),
        TypeSyntax::Named {
            at,
            name,
            path: steps,
            parameters,
            constraints: own,
        } => {
            let field = Field {
                place: Place { module, at: *at },
                name,
                steps,
                parameters,
                written: Written {
                    module,
                    own,
                    given: &meaning.given,
                },
            };
            write_field(scope.alloc, scope.names, field, room)
        }
        TypeSyntax::Selection { at, .. } => Err(refused(module, *at, Part::Selection)),
        TypeSyntax::InstanceOf { at, .. } => Err(refused(module, *at, Part::InstanceOf)),
        TypeSyntax::AnyDefinedBy { at, .. } => Err(refused(module, *at, Part::AnyDefinedBy)),
        TypeSyntax::Structure { .. } | TypeSyntax::ListOf { .. } | TypeSyntax::Tagged { .. } =>
            unreachable!(),
    }
}

/// A SEQUENCE, SET or CHOICE, or the end of nesting.
#[cycle(types)]
#[tactic(auto, unfolding(crate::specs::Types::nested_at))]
fn write_structure<'m, 's, 't>(
    scope: Scope<'_, 'm, 's, 't>,
    levels: u8,
    path: &mut Vec<Place>,
    structure: Structure<'_, 'm, 's, 't>,
    room: &mut Room,
) -> Result<Shape, Error<'t>>
    requires { structure.place.«module» < length (modules_of scope) }
    ensures text { Gives (λ s. (type_of s, room_of room.new)) result (nested_at scope.entry.nesting levels (structure_at (modules_of scope.entry) (types_of scope.entry levels) (roots_of scope.entry levels) structure.entry.place structure.entry.builtin (elements_from (map element_of structure.entry.elements.now)) (written_of structure.entry.written)) structure.entry.place path.old.items (room_of room.old)) }
    ensures path { OnOk result (path.new.items ≡ path.old.items) }
{
    let place = structure.place;
    if is_full(scope.nesting, path, place) {
        return write_end(scope.alloc, levels, place, room);
    }
    path.push(place)?;
    let shape = write_narrowed(scope, levels, path, structure, room)?;
    path.pop();
    Ok(shape)
}

/// A SEQUENCE, SET or CHOICE, and a comment on its constraints.
#[cycle(types)]
#[tactic(auto, unfolding(crate::specs::Types::structure_at))]
fn write_narrowed<'m, 's, 't>(
    scope: Scope<'_, 'm, 's, 't>,
    levels: u8,
    path: &mut Vec<Place>,
    structure: Structure<'_, 'm, 's, 't>,
    room: &mut Room,
) -> Result<Shape, Error<'t>>
    requires { structure.place.«module» < length (modules_of scope) }
    ensures text { Gives (λ s. (type_of s, room_of room.new)) result (structure_at (modules_of scope.entry) (types_of scope.entry levels) (roots_of scope.entry levels) structure.entry.place structure.entry.builtin (elements_from (map element_of structure.entry.elements.now)) (written_of structure.entry.written) path.old.items (room_of room.old)) }
    ensures path { OnOk result (path.new.items ≡ path.old.items) }
{
    let shape = write_inside(
        scope,
        levels,
        path,
        structure.place,
        structure.builtin,
        structure.elements,
        room,
    )?;
    put_unchecked(
        scope.alloc,
        structure.written,
        Checked::Nothing,
        false,
        room,
    )?;
    Ok(shape)
}

/// A SEQUENCE, SET or CHOICE at a place.
#[cycle(types)]
fn write_inside<'m, 's, 't>(
    scope: Scope<'_, 'm, 's, 't>,
    levels: u8,
    path: &mut Vec<Place>,
    place: Place,
    builtin: Builtin,
    elements: &'m [Element<'s, 't>],
    room: &mut Room,
) -> Result<Shape, Error<'t>>
    requires { place.«module» < length (modules_of scope) }
    ensures text { Gives (λ s. (type_of s, room_of room.new)) result (inside_at (modules_of scope.entry) (types_of scope.entry levels) (roots_of scope.entry levels) place builtin (elements_from (map element_of elements.now)) path.old.items (room_of room.old)) }
    ensures path { OnOk result (path.new.items ≡ path.old.items) }
{
    match builtin {
        Builtin::Sequence => {
            room.put("SEQUENCE {")?;
            let gathered = write_braces(scope, levels, path, place, &[], elements, room)?;
            Ok(gathered.sequence())
        }
        Builtin::Choice => {
            let tags = alternative_tags(scope.alloc, scope.names, place.module, elements)?;
            room.put("CHOICE {")?;
            let gathered = write_braces(scope, levels, path, place, &tags, elements, room)?;
            Ok(gathered.choice())
        }
        _ => Err(refused(place.module, place.at, Part::Set)),
    }
}

/// What stands in braces at a place, where alternatives have these tags, and the closing one.
#[cycle(types)]
#[tactic(auto, unfolding(crate::specs::Types::braces_at))]
fn write_braces<'m, 's, 't>(
    scope: Scope<'_, 'm, 's, 't>,
    levels: u8,
    path: &mut Vec<Place>,
    place: Place,
    tags: &[Tag],
    elements: &'m [Element<'s, 't>],
    room: &mut Room,
) -> Result<Gathered, Error<'t>>
    requires { place.«module» < length (modules_of scope) }
    ensures text { Gives (λ g. (gathered_of g, room_of room.new)) result (braces_at (modules_of scope.entry) (types_of scope.entry levels) (roots_of scope.entry levels) place tags.now path.old.items (elements_from (map element_of elements.now)) (room_of room.old)) }
    ensures path { OnOk result (path.new.items ≡ path.old.items) }
{
    let frame = Frame {
        place,
        tags,
        before: Before::first(false),
    };
    let mut gathered = Gathered::new(scope.alloc);
    let behind = write_elements(scope, levels, path, frame, elements, &mut gathered, room)?;
    close(scope.names, place, behind.marked, room)?;
    Ok(gathered)
}

/// The elements, joined by commas; the first of them stands before all others of its type.
#[cycle(types)]
fn write_elements<'m, 's, 't>(
    scope: Scope<'_, 'm, 's, 't>,
    levels: u8,
    path: &mut Vec<Place>,
    frame: Frame<'_>,
    elements: &'m [Element<'s, 't>],
    gathered: &mut Gathered,
    room: &mut Room,
) -> Result<After, Error<'t>>
    requires within { frame.place.«module» < length (modules_of scope) }
    requires first { frame.before.elements ≡ 0 }
    ensures text { Gives (λ a. (a, gathered_of gathered.new, room_of room.new)) result (elements_at (modules_of scope.entry) (types_of scope.entry levels) (roots_of scope.entry levels) frame.entry.place.«module» frame.entry.tags.now path.old.items frame.entry.before (elements_from (map element_of elements.now)) (gathered_of gathered.old) (room_of room.old)) }
    ensures path { OnOk result (path.new.items ≡ path.old.items) }
{
    let mut before = frame.before;
    for element in elements.iter() {
        let next = Frame { before, ..frame };
        let behind = write_element(scope, levels, path, next, element, gathered, room)?;
        before = Before {
            elements: before.elements + 1,
            any: behind.any,
            marked: behind.marked,
        };
    }
    Ok(After::new(before.any, before.marked))
}

/// The elements of a SEQUENCE that stand in its root, joined by commas; the first of them stands before all others of its
/// type. Whether the text has some by then.
#[cycle(types)]
fn write_root<'m, 's, 't>(
    scope: Scope<'_, 'm, 's, 't>,
    levels: u8,
    path: &mut Vec<Place>,
    frame: Frame<'_>,
    elements: &'m [Element<'s, 't>],
    gathered: &mut Gathered,
    room: &mut Room,
) -> Result<bool, Error<'t>>
    requires within { frame.place.«module» < length (modules_of scope) }
    requires first { frame.before.elements ≡ 0 }
    ensures text { Gives (λ any. (any, gathered_of gathered.new, room_of room.new)) result (root_at (modules_of scope.entry) (types_of scope.entry levels) (roots_of scope.entry levels) frame.entry.place.«module» frame.entry.tags.now path.old.items frame.entry.before (elements_from (map element_of elements.now)) (gathered_of gathered.old) (room_of room.old)) }
    ensures path { OnOk result (path.new.items ≡ path.old.items) }
{
    let mut before = frame.before;
    for element in elements.iter() {
        let next = Frame { before, ..frame };
        let behind = write_root_element(scope, levels, path, next, element, gathered, room)?;
        before = Before {
            elements: before.elements + 1,
            any: behind.any,
            marked: behind.marked,
        };
    }
    Ok(before.any)
}

/// An element of a SEQUENCE behind others, if it stands in its root.
#[cycle(types)]
#[tactic(auto, using(oer_module_syntax::proofs::Trees::trees))]
fn write_root_element<'m, 's, 't>(
    scope: Scope<'_, 'm, 's, 't>,
    levels: u8,
    path: &mut Vec<Place>,
    frame: Frame<'_>,
    element: &'m Element<'s, 't>,
    gathered: &mut Gathered,
    room: &mut Room,
) -> Result<After, Error<'t>>
    requires { frame.place.«module» < length (modules_of scope) }
    ensures text { Gives (λ a. (a, gathered_of gathered.new, room_of room.new)) result (root_element_at (modules_of scope.entry) (types_of scope.entry levels) (roots_of scope.entry levels) frame.entry.place.«module» frame.entry.tags.now path.old.items frame.entry.before (element_of element.now) (gathered_of gathered.old) (room_of room.old)) }
    ensures path { OnOk result (path.new.items ≡ path.old.items) }
{
    let before = frame.before;
    match element {
        Element::Marker { at, .. } if before.marked => {
            Err(refused(frame.place.module, *at, Part::SecondMarker))
        }
        Element::Marker { .. } => Ok(After::new(before.any, true)),
        _ if before.marked => Ok(After::new(before.any, true)),
        _ => write_element(scope, levels, path, frame, element, gathered, room),
    }
}

/// COMPONENTS OF a type: the components of the root of the SEQUENCE that it stands for (X.680, 25.5), each of the module
/// where that stands. Whether the text has elements by then. It takes the room of one part, and a level.
#[cycle(types)]
#[tactic(auto, unfolding(crate::specs::Types::roots_at))]
fn write_included<'m, 's, 't>(
    scope: Scope<'_, 'm, 's, 't>,
    levels: u8,
    path: &mut Vec<Place>,
    included: Included<'m, 's, 't>,
    gathered: &mut Gathered,
    room: &mut Room,
) -> Result<bool, Error<'t>>
    requires { included.place.«module» < length (modules_of scope) }
    ensures text { Gives (λ any. (any, gathered_of gathered.new, room_of room.new)) result (roots_of scope.entry levels path.old.items included.entry.before.any included.entry.place (tree_of included.entry.from.now) (gathered_of gathered.old) (room_of room.old)) }
    ensures path { OnOk result (path.new.items ≡ path.old.items) }
{
    let place = included.place;
    if levels == 0 {
        return Err(Error {
            place,
            why: Why::TooDeep,
        });
    }
    let of = TypeIn {
        module: place.module,
        syntax: included.from,
    };
    let meaning = stands_for(scope, of)?;
    let is = type_place(meaning.of);
    room.take_part(is)?;
    let Some(elements) = sequence_of(meaning.of.syntax) else {
        return Err(refused(place.module, place.at, Part::ComponentsOf));
    };
    let frame = Frame {
        place: is,
        tags: &[],
        before: Before::first(included.before.any),
    };
    write_root(scope, levels - 1, path, frame, elements, gathered, room)
}

/// COMPONENTS OF behind others. It isn't taken among additions.
#[cycle(types)]
fn write_components_of<'m, 's, 't>(
    scope: Scope<'_, 'm, 's, 't>,
    levels: u8,
    path: &mut Vec<Place>,
    included: Included<'m, 's, 't>,
    gathered: &mut Gathered,
    room: &mut Room,
) -> Result<After, Error<'t>>
    requires { included.place.«module» < length (modules_of scope) }
    ensures text { Gives (λ a. (a, gathered_of gathered.new, room_of room.new)) result (components_of_at (roots_of scope.entry levels) included.entry.place path.old.items included.entry.before (tree_of included.entry.from.now) (gathered_of gathered.old) (room_of room.old)) }
    ensures path { OnOk result (path.new.items ≡ path.old.items) }
{
    if included.before.marked {
        let place = included.place;
        return Err(refused(place.module, place.at, Part::ComponentsOf));
    }
    let any = write_included(scope, levels, path, included, gathered, room)?;
    Ok(After::new(any, false))
}

/// An element behind others.
#[cycle(types)]
#[tactic(auto, using(oer_module_syntax::proofs::Trees::trees))]
fn write_element<'m, 's, 't>(
    scope: Scope<'_, 'm, 's, 't>,
    levels: u8,
    path: &mut Vec<Place>,
    frame: Frame<'_>,
    element: &'m Element<'s, 't>,
    gathered: &mut Gathered,
    room: &mut Room,
) -> Result<After, Error<'t>>
    requires { frame.place.«module» < length (modules_of scope) }
    ensures text { Gives (λ a. (a, gathered_of gathered.new, room_of room.new)) result (element_at (modules_of scope.entry) (types_of scope.entry levels) (roots_of scope.entry levels) frame.entry.place.«module» frame.entry.tags.now path.old.items frame.entry.before (element_of element.now) (gathered_of gathered.old) (room_of room.old)) }
    ensures path { OnOk result (path.new.items ≡ path.old.items) }
{
    let module = frame.place.module;
    match element {
        Element::Marker { at, .. } => {
            write_marker(Place { module, at: *at }, frame.before, room)?;
            gathered.mark();
            Ok(After::new(true, true))
        }
        Element::Group { at, .. } => Err(refused(module, *at, Part::Group)),
        Element::ComponentsOf { at, from } => {
            let included = Included {
                place: Place { module, at: *at },
                before: frame.before,
                from,
            };
            write_components_of(scope, levels, path, included, gathered, room)
        }
        Element::Component {
            at,
            name,
            from,
            need,
        } => {
            let component = Component {
                at: *at,
                name,
                from,
                need: *need,
            };
            write_component(scope, levels, path, frame, component, gathered, room)
        }
    }
}

/// A component or an alternative behind others.
#[cycle(types)]
fn write_component<'m, 's, 't>(
    scope: Scope<'_, 'm, 's, 't>,
    levels: u8,
    path: &mut Vec<Place>,
    frame: Frame<'_>,
    component: Component<'m, 's, 't>,
    gathered: &mut Gathered,
    room: &mut Room,
) -> Result<After, Error<'t>>
    requires { frame.place.«module» < length (modules_of scope) }
    ensures text { Gives (λ a. (a, gathered_of gathered.new, room_of room.new)) result (component_at (modules_of scope.entry) (types_of scope.entry levels) frame.entry.place.«module» frame.entry.tags.now path.old.items frame.entry.before component.entry.at component.entry.name.now (tree_of component.entry.from.now) (need_of component.entry.need) (gathered_of gathered.old) (room_of room.old)) }
    ensures path { OnOk result (path.new.items ≡ path.old.items) }
{
    let of = TypeIn {
        module: frame.place.module,
        syntax: component.from,
    };
    let before = frame.before;
    let tag = tag_at(frame.tags, before);
    write_name(tag, before, component.name, room)?;
    let shape = write_type(scope, levels, path, of, room)?;
    let need = write_need(
        scope.alloc,
        scope.names,
        before.marked,
        component.at,
        of,
        component.need,
        room,
    )?;
    let name = String::from_str(scope.alloc, component.name)?;
    gathered.add(tag, name, need, shape)?;
    Ok(After::new(true, before.marked))
}

/// A SEQUENCE OF or SET OF, or the end of nesting.
#[cycle(types)]
#[tactic(auto, unfolding(crate::specs::Types::nested_at))]
fn write_list<'m, 's, 't>(
    scope: Scope<'_, 'm, 's, 't>,
    levels: u8,
    path: &mut Vec<Place>,
    list: ListOf<'_, 'm, 's, 't>,
    room: &mut Room,
) -> Result<Shape, Error<'t>>
    requires { list.place.«module» < length (modules_of scope) }
    ensures text { Gives (λ s. (type_of s, room_of room.new)) result (nested_at scope.entry.nesting levels (list_at (modules_of scope.entry) (types_of scope.entry levels) list.entry.place list.entry.builtin list.entry.sized (tree_of list.entry.item.now) (written_of list.entry.written)) list.entry.place path.old.items (room_of room.old)) }
    ensures path { OnOk result (path.new.items ≡ path.old.items) }
{
    let place = list.place;
    if is_full(scope.nesting, path, place) {
        return write_end(scope.alloc, levels, place, room);
    }
    path.push(place)?;
    let shape = write_items(scope, levels, path, list, room)?;
    path.pop();
    Ok(shape)
}

/// A SEQUENCE OF or SET OF. Its sizes are no part of the type, and of the text but for a comment: OER doesn't see them.
#[cycle(types)]
fn write_items<'m, 's, 't>(
    scope: Scope<'_, 'm, 's, 't>,
    levels: u8,
    path: &mut Vec<Place>,
    list: ListOf<'_, 'm, 's, 't>,
    room: &mut Room,
) -> Result<Shape, Error<'t>>
    requires { list.place.«module» < length (modules_of scope) }
    ensures text { Gives (λ s. (type_of s, room_of room.new)) result (list_at (modules_of scope.entry) (types_of scope.entry levels) list.entry.place list.entry.builtin list.entry.sized (tree_of list.entry.item.now) (written_of list.entry.written) path.old.items (room_of room.old)) }
    ensures path { OnOk result (path.new.items ≡ path.old.items) }
{
    let module = list.place.module;
    match list.builtin {
        Builtin::Sequence => {
            room.put("SEQUENCE")?;
            put_unchecked(
                scope.alloc,
                list.written,
                Checked::Nothing,
                list.sized,
                room,
            )?;
            room.put(" OF ")?;
            let syntax = list.item;
            let item = write_type(scope, levels, path, TypeIn { module, syntax }, room)?;
            let shape = list_shape(scope.alloc, item)?;
            Ok(shape)
        }
        _ => Err(refused(module, list.place.at, Part::SetOf)),
    }
}
