//! The items of an ENUMERATED with their numbers.
ghost use Rattle.std.specs.Prelude.{◌≡◌, ◌+◌, ◌<◌, IfOk, length, map, option_map};
ghost use Rattle.oer_module_lexer.specs.Token.{spots_of};
ghost use Rattle.oer_module_names.specs.Views.{modules_in};
ghost use Rattle.oer_module_terms.specs.Trees.{enumeration_of, item_of as written_of, more_of};
ghost use Rattle.oer_module_text.specs.Errors.{Gives};
ghost use Rattle.oer_module_text.specs.declared.error.Why.TheVariants.{Misnumbered};
ghost use Rattle.oer_module_values.specs.Numbers.{more_items};
ghost use Rattle.oer_module_values.specs.Views.{type_in};
ghost use Rattle.oer_module_leaves.specs.Numbered.{enumeration_in, enumeration_numbers, item_of, item_place, marker_of, numbered_at, numbered_items, numbered_of, numbers_of, with_numbers};

use oer_module_lexer::Spot;
use oer_module_names::{Names, Place};
use oer_module_parts::{NumberFault, number_items, over_kept};
use oer_module_syntax::{Builtin, TypeSyntax};
use oer_module_terms::{Enumeration, Item, More, read_enumeration};
use oer_module_text::{Error, Part, Why, refused};
use oer_module_values::{TypeIn, given_numbers, place_of, unread};
use std::alloc::{AllocError, Global};

/// An item of an ENUMERATED, with its number. It begins at a byte of the module's text.
#[derive(Clone, Copy)]
pub struct NumberedItem<'t> {
    pub at: usize,
    pub name: &'t str,
    pub number: i128,
}

/// The items of an ENUMERATED in the order written, those behind `...` included, and how many of them stand before it;
/// none where it isn't there.
#[derive(Drop)]
pub struct Numbered<'t> {
    pub items: Vec<NumberedItem<'t>>,
    pub marker: Option<usize>,
}

/// The items in braces, of a type at a place.
fn read_kept<'s, 't>(
    alloc: Global,
    place: Place,
    spots: &'s [Spot<'t>],
) -> Result<Enumeration<'s, 't>, Error<'t>>
    ensures { Gives enumeration_of result (enumeration_in place (spots_of spots.now)) }
{
    let mut cursor = over_kept(spots, place.at);
    match read_enumeration(alloc, &mut cursor) {
        Ok(enumeration) => Ok(enumeration),
        Err(fault) => Err(Error::from(unread(place.module, fault))),
    }
}

/// How many items stand before the marker, if it is there.
fn marker_of(enumeration: &Enumeration<'_, '_>) -> Option<usize>
    ensures { result ≡ marker_of (enumeration_of enumeration.now) }
{
    match enumeration.more {
        Some(_) => Some(enumeration.root.len()),
        None => None,
    }
}

/// The items behind the marker, if it is there.
fn later_items<'s, 't>(alloc: Global, more: Option<More<'s, 't>>) -> Vec<Item<'s, 't>>
    ensures { map written_of result.items ≡ more_items (option_map more_of more.entry) }
{
    match more {
        Some(more) => more.items,
        None => Vec::new(alloc),
    }
}

/// The fault of the number of an item.
fn misnumbered<'t>(module: usize, items: &[Item<'_, 't>], index: usize) -> Error<'t>
    requires { index < length items.now }
    ensures place { result.place ≡ item_place «module» (map written_of items.now) index }
    ensures why { result.why ≡ Misnumbered }
{
    Error {
        place: Place {
            module,
            at: items[index].at,
        },
        why: Why::Misnumbered,
    }
}

/// The number of each item, where these are given in the root and behind the marker.
fn numbers_of<'t>(
    alloc: Global,
    module: usize,
    items: &[Item<'_, 't>],
    root: &[Option<i128>],
    more: &[Option<i128>],
) -> Result<Vec<i128>, Error<'t>>
    requires { length items.now ≡ length root.now + length more.now }
    ensures value { Gives (λ v. v.items) result (numbers_of «module» (map written_of items.now) root.now more.now) }
    ensures each { IfOk result (λ v. length v.items ≡ length items.now) }
{
    match number_items(alloc, root, more) {
        Ok(numbers) => Ok(numbers),
        Err(NumberFault::Memory) => Err(Error::from(AllocError)),
        Err(NumberFault::Repeated(index)) => Err(misnumbered(module, items, index)),
        Err(NumberFault::NotAscending(index)) => Err(misnumbered(module, items, index)),
        Err(NumberFault::TooLarge(index)) => Err(misnumbered(module, items, index)),
    }
}

/// Each item with its number.
fn with_numbers<'t>(
    alloc: Global,
    items: &[Item<'_, 't>],
    numbers: &[i128],
) -> Result<Vec<NumberedItem<'t>>, AllocError>
    requires { length numbers.now ≡ length items.now }
    ensures { IfOk result (λ v. map item_of v.items ≡ with_numbers (map written_of items.now) numbers.now) }
{
    let mut numbered = Vec::new(alloc);
    for (index, item) in items.iter().enumerate() {
        numbered.push(NumberedItem {
            at: item.at,
            name: item.name,
            number: numbers[index],
        })?;
    }
    Ok(numbered)
}

/// The items in braces, of a type at a place.
#[tactic(auto, unfolding(crate::specs::Numbered::numbered_at))]
pub fn numbered_at<'m, 's, 't>(
    alloc: Global,
    names: &Names<'m, 's, 't>,
    place: Place,
    spots: &'s [Spot<'t>],
) -> Result<Numbered<'t>, Error<'t>>
    requires { place.«module» < length (modules_in names.now) }
    ensures { Gives numbered_of result (numbered_at (modules_in names.now) place (spots_of spots.now)) }
{
    let enumeration = read_kept(alloc, place, spots)?;
    let marker = marker_of(&enumeration);
    let Enumeration {
        root: mut items,
        more,
    } = enumeration;
    let root = given_numbers(alloc, names, place.module, &items)?;
    let mut later = later_items(alloc, more);
    let more = given_numbers(alloc, names, place.module, &later)?;
    items.append(&mut later)?;
    let numbers = numbers_of(alloc, place.module, &items, &root, &more)?;
    let items = with_numbers(alloc, &items, &numbers)?;
    Ok(Numbered { items, marker })
}

/// The items of an ENUMERATED with their numbers, in the order written, and where the marker stands (X.680, 20).
///
/// # Errors
/// NotTaken, with Word, if the type is no ENUMERATED; a reference is none. Then Unresolved: where the items can't be read,
/// or the number of one, in the root and then behind the marker, can't be told. Then Misnumbered, at the item: where two
/// items of the root are given one number; where an item behind the marker is given the number of an item of the root, or
/// none above that of the item before it; or where it would get a number past 128 bits.
#[tactic(auto, using(oer_module_syntax::proofs::Trees::trees))]
pub fn enumeration_numbers<'m, 's, 't>(
    alloc: Global,
    names: &Names<'m, 's, 't>,
    is: TypeIn<'m, 's, 't>,
) -> Result<Numbered<'t>, Error<'t>>
    requires { is.«module» < length (modules_in names.now) }
    ensures { Gives numbered_of result (enumeration_numbers (modules_in names.now) (type_in is.entry)) }
{
    match is.syntax {
        TypeSyntax::Plain {
            at,
            builtin: Builtin::Enumerated,
            items,
            ..
        } => {
            let place = Place {
                module: is.module,
                at: *at,
            };
            numbered_at(alloc, names, place, items)
        }
        _ => Err(refused(is.module, place_of(is.syntax), Part::Word)),
    }
}

/// The items of an ENUMERATED with their numbers, in the order written, those behind the marker included (X.680, 20).
///
/// # Errors
/// Those of `enumeration_numbers`.
pub fn numbered_items<'m, 's, 't>(
    alloc: Global,
    names: &Names<'m, 's, 't>,
    is: TypeIn<'m, 's, 't>,
) -> Result<Vec<NumberedItem<'t>>, Error<'t>>
    requires { is.«module» < length (modules_in names.now) }
    ensures { Gives (λ v. map item_of v.items) result (numbered_items (modules_in names.now) (type_in is.entry)) }
{
    let numbered = enumeration_numbers(alloc, names, is)?;
    Ok(numbered.items)
}
