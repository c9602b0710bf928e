//! The items of an ENUMERATED and their numbers, and the named bits of a BIT STRING.
ghost use Rattle.std.specs.Prelude.{◌≡◌, ◌<◌, length, map, option_map};
ghost use Rattle.oer_module_leaves.specs.Numbered.{item_of as numbered_item_of};
ghost use Rattle.oer_module_lexer.specs.Token.{spots_of};
ghost use Rattle.oer_module_names.specs.Views.{modules_in};
ghost use Rattle.oer_module_terms.specs.Trees.{enumeration_of, item_of};
ghost use Rattle.oer_module_text.specs.Errors.{Gives};
ghost use Rattle.oer_module_values.specs.Looks.{path_seen};
ghost use Rattle.oer_module_values.specs.Numbers.{item_named};
ghost use Rattle.oer_module_defaults.specs.Governors.{governor_of};
ghost use Rattle.oer_module_defaults.specs.Items.{bits_of, has_item, is_among, is_own, item_number, number_in_both, number_named};

use crate::atoms::none_such;
use crate::governor::{Governor, Kind};
use crate::kept::{over_kept, unread};
use oer_module_leaves::{NumberedItem, in_64_bits, numbered_items};
use oer_module_lexer::Spot;
use oer_module_names::{Names, Place};
use oer_module_terms::{Enumeration, Item, Numbering, read_enumeration, read_items};
use oer_module_text::Error;
use oer_module_values::{Path, TypeIn};
use std::alloc::Global;

/// The first item of that name.
pub fn item_named<'s, 't>(items: &[Item<'s, 't>], name: &str) -> Option<Item<'s, 't>>
    ensures { option_map item_of result ≡ item_named name.now (map item_of items.now) }
{
    for item in items {
        if item.name == name {
            return Some(*item);
        }
    }
    None
}

/// Whether an item in the root, or behind the marker, has the name.
fn is_among(enumeration: &Enumeration<'_, '_>, name: &str) -> bool
    ensures { result ≡ is_among name.now (enumeration_of enumeration.now) }
{
    if item_named(&enumeration.root, name).is_some() {
        return true;
    }
    match &enumeration.more {
        Some(more) => item_named(&more.items, name).is_some(),
        None => false,
    }
}

/// Whether an item of an ENUMERATED has the name.
#[tactic(auto, unfolding(crate::specs::Items::has_item))]
fn has_item<'t>(
    alloc: Global,
    module: usize,
    spots: &[Spot<'t>],
    name: &str,
) -> Result<bool, Error<'t>>
    ensures { Gives (λ b. b) result (has_item «module» (spots_of spots.now) name.now) }
{
    let mut cursor = over_kept(spots);
    match read_enumeration(alloc, &mut cursor) {
        Ok(enumeration) => Ok(is_among(&enumeration, name)),
        Err(fault) => Err(unread(module, fault)),
    }
}

/// Whether a name and the path behind it are told by the type itself: the item of an ENUMERATED, and each of an INTEGER.
pub fn is_own<'t>(
    alloc: Global,
    governor: Governor<'_, '_, 't>,
    name: &str,
    path: Path<'t>,
) -> Result<bool, Error<'t>>
    ensures { Gives (λ b. b) result (is_own (governor_of governor.entry) name.now (path_seen path.entry)) }
{
    match (governor.kind, path) {
        (Kind::Integer, _) => Ok(true),
        (Kind::Enumerated, Path::Own) => has_item(alloc, governor.module, governor.items, name),
        _ => Ok(false),
    }
}

/// The named bits of a BIT STRING.
#[tactic(auto, unfolding(crate::specs::Items::bits_of))]
pub fn bits_of<'s, 't>(
    alloc: Global,
    governor: Governor<'_, 's, 't>,
) -> Result<Vec<Item<'s, 't>>, Error<'t>>
    ensures { Gives (λ v. map item_of v.items) result (bits_of (governor_of governor.entry)) }
{
    let mut cursor = over_kept(governor.items);
    match read_items(alloc, &mut cursor, Numbering::Unsigned) {
        Ok(items) => Ok(items),
        Err(fault) => Err(unread(governor.module, fault)),
    }
}

/// The number of the first item of that name.
fn number_named(items: &[NumberedItem<'_>], name: &str) -> Option<i128>
    ensures { result ≡ number_named name.now (map numbered_item_of items.now) }
{
    for item in items {
        if item.name == name {
            return Some(item.number);
        }
    }
    None
}

/// The number of the item of that name, of an ENUMERATED (X.680, 20). The name stands at a place.
#[tactic(auto, unfolding(crate::specs::Items::item_number))]
fn item_number<'m, 's, 't>(
    alloc: Global,
    names: &Names<'m, 's, 't>,
    governor: Governor<'m, 's, 't>,
    place: Place,
    name: &str,
) -> Result<i64, Error<'t>>
    requires { governor.«module» < length (modules_in names.now) }
    ensures { Gives (λ z. z) result (item_number (modules_in names.now) (governor_of governor.entry) place name.now) }
{
    let of = TypeIn {
        module: governor.module,
        syntax: governor.syntax,
    };
    let items = numbered_items(alloc, names, of)?;
    match number_named(&items, name) {
        Some(number) => in_64_bits(place, number),
        None => Err(none_such(place)),
    }
}

/// The number of an item that the second type governs, as a value of the first: this has to give the name the same number.
#[tactic(auto, unfolding(crate::specs::Items::number_in_both))]
pub fn number_in_both<'m, 's, 't>(
    alloc: Global,
    names: &Names<'m, 's, 't>,
    of: Governor<'m, 's, 't>,
    governor: Governor<'m, 's, 't>,
    place: Place,
    name: &str,
) -> Result<i64, Error<'t>>
    requires of { of.«module» < length (modules_in names.now) }
    requires governor { governor.«module» < length (modules_in names.now) }
    ensures { Gives (λ z. z) result
        (number_in_both (modules_in names.now) (governor_of of.entry) (governor_of governor.entry) place name.now) }
{
    let own = item_number(alloc, names, governor, place, name)?;
    let number = item_number(alloc, names, of, place, name)?;
    if own != number {
        return Err(none_such(place));
    }
    Ok(number)
}
