//! Which value each component of a SEQUENCE is given.
ghost use Rattle.std.specs.Prelude.{◌≡◌, ◌+◌, ◌<◌, ◌≤◌, [], IfOk, map, option_map, slice_get};
ghost use Rattle.std.specs.List.{All};
ghost use Rattle.oer_module_terms.specs.Trees.{members_from, member_of, parts_from, value_of};
ghost use Rattle.oer_module_text.specs.Errors.{Gives, seen};
ghost use Rattle.oer_module_defaults.specs.Bits.{own_name};
ghost use Rattle.oer_module_defaults.specs.Slots.{entries_at, entry_at, entry_by, entry_in, entry_place, slot_at, slot_by, slots_at, slots_in};
ghost use Rattle.oer_module_defaults.specs.Slots.{taken_by, value_for};
ghost use Rattle.oer_module_defaults.specs.Values.{begin_of};
ghost use Rattle.oer_module_defaults.specs.Views.{IsComponentWithin, IsSlotWithin, component_of, entry_of, modules_of, slot_of};
ghost use Rattle.oer_module_defaults.specs.Walks.{name_in};

use crate::atoms::none_such;
use crate::bits::own_name;
use crate::component::Component;
use crate::kept::{begin_of, member_place};
use crate::scope::Scope;
use crate::step::name_in;
use oer_module_names::Place;
use oer_module_terms::{Member, Value};
use oer_module_text::Error;
use std::alloc::Global;

/// A value behind a name, and the byte at which the name stands.
#[derive(Clone, Copy)]
pub struct Entry<'v, 's, 't> {
    pub at: usize,
    pub name: &'t str,
    pub value: &'v Value<'s, 't>,
}

/// A component and its value, if that is there.
#[derive(Clone, Copy)]
pub struct Slot<'v, 'm, 's, 't> {
    pub component: Component<'m, 's, 't>,
    pub value: Option<&'v Value<'s, 't>>,
}

/// The value of two parts, the first of which is a name.
fn entry_of_two<'v, 's, 't>(
    first: &'v Value<'s, 't>,
    value: &'v Value<'s, 't>,
) -> Option<Entry<'v, 's, 't>>
    ensures { option_map entry_of result
        ≡ entry_by (begin_of (value_of first.now)) (own_name (name_in (value_of first.now))) (value_of value.now) }
{
    match own_name(name_in(first)) {
        Some(name) => Some(Entry {
            at: begin_of(first),
            name,
            value,
        }),
        None => None,
    }
}

/// The name and the value that parts are.
fn entry_of_parts<'v, 's, 't>(parts: &'v [Value<'s, 't>]) -> Option<Entry<'v, 's, 't>>
    ensures { option_map entry_of result ≡ entry_in (parts_from (map value_of parts.now)) }
{
    match parts {
        [] => None,
        [_] => None,
        [first, value] => entry_of_two(first, value),
        _ => None,
    }
}

/// The name and the value that a member of braces is.
#[tactic(auto, using(crate::proofs::Members::levels))]
fn entry_in<'v, 's, 't>(member: &'v Member<'s, 't>) -> Option<Entry<'v, 's, 't>>
    ensures { option_map entry_of result ≡ entry_in (member_of member.now) }
{
    entry_of_parts(&member.parts)
}

/// The same of braces at a place.
fn entry_at<'v, 's, 't>(
    place: Place,
    member: &'v Member<'s, 't>,
) -> Result<Entry<'v, 's, 't>, Error<'t>>
    ensures { seen entry_of result ≡ entry_at place (member_of member.now) }
{
    match entry_in(member) {
        Some(entry) => Ok(entry),
        None => Err(none_such(member_place(place, member))),
    }
}

/// The names and the values that the members of braces at a place are.
fn entries_in<'v, 's, 't>(
    alloc: Global,
    place: Place,
    members: &'v [Member<'s, 't>],
) -> Result<Vec<Entry<'v, 's, 't>>, Error<'t>>
    ensures { Gives (λ v. map entry_of v.items) result (entries_at place (members_from (map member_of members.now)) []) }
{
    let mut entries = Vec::new(alloc);
    for member in members {
        let entry = entry_at(place, member)?;
        entries.push(entry)?;
    }
    Ok(entries)
}

/// The value in the next entry, if that is the component's.
fn value_for<'v, 's, 't>(
    component: Component<'_, 's, 't>,
    entry: Option<Entry<'v, 's, 't>>,
) -> Option<&'v Value<'s, 't>>
    ensures { option_map (λ v. value_of v.now) result ≡ value_for (component_of component.entry) (option_map entry_of entry.entry) }
{
    match entry {
        Some(entry) if entry.name == component.name => Some(entry.value),
        _ => None,
    }
}

/// Where the next entry stands; the braces, where none is left.
fn entry_place(place: Place, entry: Option<Entry<'_, '_, '_>>) -> Place
    ensures { result ≡ entry_place place (option_map entry_of entry.entry) }
{
    match entry {
        Some(entry) => Place {
            module: place.module,
            at: entry.at,
        },
        None => place,
    }
}

/// A component and its value; the place is where that is missing, if it has to be there.
fn slot_by<'v, 'm, 's, 't>(
    place: Place,
    component: Component<'m, 's, 't>,
    value: Option<&'v Value<'s, 't>>,
) -> Result<Slot<'v, 'm, 's, 't>, Error<'t>>
    ensures slot { seen slot_of result ≡ slot_by place (component_of component.entry) (option_map (λ v. value_of v.now) value.entry) }
    ensures component { IfOk result (λ s. s.component.«module» ≡ component.entry.«module») }
{
    if value.is_none() && !component.optional {
        return Err(none_such(place));
    }
    Ok(Slot { component, value })
}

/// A component and its value, which may stand in the next entry.
fn slot_at<'v, 'm, 's, 't>(
    place: Place,
    component: Component<'m, 's, 't>,
    entry: Option<Entry<'v, 's, 't>>,
) -> Result<Slot<'v, 'm, 's, 't>, Error<'t>>
    ensures slot { seen slot_of result ≡ slot_at place (component_of component.entry) (option_map entry_of entry.entry) }
    ensures component { IfOk result (λ s. s.component.«module» ≡ component.entry.«module») }
{
    slot_by(
        entry_place(place, entry),
        component,
        value_for(component, entry),
    )
}

/// How many entries are taken, behind a component.
fn taken_by(taken: usize, slot: Slot<'_, '_, '_, '_>) -> usize
    requires { taken < usize.MAX }
    ensures is { result ≡ taken_by taken (slot_of slot.entry) }
    ensures most { result ≤ taken + 1 }
{
    match slot.value {
        Some(_) => taken + 1,
        None => taken,
    }
}

/// The entry of that index, if there is one.
fn entry_from<'v, 's, 't>(entries: &[Entry<'v, 's, 't>], index: usize) -> Option<Entry<'v, 's, 't>>
    ensures { option_map entry_of result ≡ slice_get (map entry_of entries.now) index }
{
    match entries.get(index) {
        Some(entry) => Some(*entry),
        None => None,
    }
}

/// Each of these components, with the value that it is given. Entries stand in the order of the components.
fn slots_at<'v, 'm, 's, 't>(
    scope: Scope<'_, 'm, 's, 't>,
    place: Place,
    components: &[Component<'m, 's, 't>],
    entries: &[Entry<'v, 's, 't>],
) -> Result<Vec<Slot<'v, 'm, 's, 't>>, Error<'t>>
    requires { All (IsComponentWithin (modules_of scope)) components.now }
    ensures slots { Gives (λ v. map slot_of v.items) result (slots_at place (map entry_of entries.now) 0 (map component_of components.now) []) }
    ensures within { IfOk result (λ v. All (IsSlotWithin (modules_of scope.entry)) v.items) }
{
    let mut slots = Vec::new(scope.alloc);
    let mut taken = 0;
    for component in components {
        let slot = slot_at(place, *component, entry_from(entries, taken))?;
        slots.push(slot)?;
        taken = taken_by(taken, slot);
    }
    let left = entry_from(entries, taken);
    if left.is_some() {
        return Err(none_such(entry_place(place, left)));
    }
    Ok(slots)
}

/// Each of these components, with the value that the members of braces at a place give it (X.680, 25).
///
/// # Errors
/// NoSuchValue: at a member that isn't a name and a value; at the first that isn't of the next component that a value has to
/// have, or of one before that; at the braces, where such a component is missing behind all members. Or Unresolved, with
/// Memory.
pub fn slots_in<'v, 'm, 's, 't>(
    scope: Scope<'_, 'm, 's, 't>,
    place: Place,
    components: &[Component<'m, 's, 't>],
    members: &'v [Member<'s, 't>],
) -> Result<Vec<Slot<'v, 'm, 's, 't>>, Error<'t>>
    requires { All (IsComponentWithin (modules_of scope)) components.now }
    ensures slots { Gives (λ v. map slot_of v.items) result
        (slots_in place (map component_of components.now) (members_from (map member_of members.now))) }
    ensures within { IfOk result (λ v. All (IsSlotWithin (modules_of scope.entry)) v.items) }
{
    let entries = entries_in(scope.alloc, place, members)?;
    slots_at(scope, place, components, &entries)
}
