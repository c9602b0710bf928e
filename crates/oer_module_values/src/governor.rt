//! What governs a number.
ghost use Rattle.std.specs.Prelude.{◌≡◌, ◌<◌, IfOk, length, map, option_map};
ghost use Rattle.oer_module_lexer.specs.Token.{spots_of};
ghost use Rattle.oer_module_names.specs.Views.{modules_in};
ghost use Rattle.oer_module_terms.specs.Trees.{enumeration_of, item_of};
ghost use Rattle.oer_module_syntax.specs.Tree.{tree_of};
ghost use Rattle.oer_module_values.specs.Errors.{Gives, seen};
ghost use Rattle.oer_module_values.specs.Numbers.{all_items, bare, enumeration_item, governor, governor_by, item_named, named_number, own_item};
ghost use Rattle.oer_module_values.specs.Views.{governor_of, type_in};

use crate::error::{Error, Why, unread};
use crate::kept::{no_spots, over_kept};
use crate::look::place_of;
use crate::types::{TypeIn, resolve};
use oer_module_lexer::Spot;
use oer_module_names::{Names, Place};
use oer_module_syntax::{Builtin, TypeSyntax};
use oer_module_terms::{Enumeration, Item, Numbering, read_enumeration, read_items};
use std::alloc::Global;

/// What governs a number (X.680, 3.8): an INTEGER or an ENUMERATED, its items in braces, and which of the modules they
/// stand in.
#[derive(Clone, Copy)]
pub struct Governor<'s, 't> {
    pub module: usize,
    pub enumerated: bool,
    pub items: &'s [Spot<'t>],
}

/// An INTEGER without items.
pub fn bare<'s, 't>(module: usize) -> Governor<'s, 't>
    ensures { governor_of result ≡ bare «module» }
{
    Governor {
        module,
        enumerated: false,
        items: no_spots(),
    }
}

/// What a type that is no reference governs.
#[tactic(auto, using(oer_module_syntax::proofs::Trees::trees))]
fn governor_by<'s, 't>(of: TypeIn<'_, 's, 't>) -> Result<Governor<'s, 't>, Error<'t>>
    ensures { seen governor_of result ≡ governor_by of.entry.«module» (tree_of of.entry.syntax.now) }
{
    let module = of.module;
    let at = place_of(of.syntax);
    match of.syntax {
        TypeSyntax::Plain {
            builtin: Builtin::Integer,
            items,
            ..
        } => Ok(Governor {
            module,
            enumerated: false,
            items,
        }),
        TypeSyntax::Plain {
            builtin: Builtin::Enumerated,
            items,
            ..
        } => Ok(Governor {
            module,
            enumerated: true,
            items,
        }),
        TypeSyntax::Named { .. } => Err(Error {
            place: Place { module, at },
            why: Why::Unsettled,
        }),
        _ => Err(Error {
            place: Place { module, at },
            why: Why::NotANumber,
        }),
    }
}

/// What a type governs, or what it stands for.
#[tactic(auto, unfolding(crate::specs::Numbers::governor))]
pub fn governing<'m, 's, 't>(
    alloc: Global,
    names: &Names<'m, 's, 't>,
    of: TypeIn<'m, 's, 't>,
) -> Result<Governor<'s, 't>, Error<'t>>
    requires { of.«module» < length (modules_in names.now) }
    ensures value { Gives governor_of result (governor (modules_in names.now) (type_in of.entry)) }
    ensures within { IfOk result (λ g. g.«module» < length (modules_in names.now)) }
{
    let meaning = resolve(alloc, names, of)?;
    governor_by(meaning.of)
}

/// The first item of that name.
pub fn item_named<'s, 't>(items: &[Item<'s, 't>], name: &str) -> Option<Item<'s, 't>>
    ensures { option_map item_of result ≡ item_named name.now (map item_of items.now) }
{
    for item in items {
        if item.name == name {
            return Some(*item);
        }
    }
    None
}

/// The item of that name of an INTEGER.
fn named_number<'s, 't>(
    alloc: Global,
    governor: Governor<'s, 't>,
    name: &str,
) -> Result<Option<Item<'s, 't>>, Error<'t>>
    ensures { Gives (option_map item_of) result (named_number (governor_of governor.entry) name.now) }
{
    let mut cursor = over_kept(governor.items);
    match read_items(alloc, &mut cursor, Numbering::Signed) {
        Ok(items) => Ok(item_named(&items, name)),
        Err(fault) => Err(unread(governor.module, fault)),
    }
}

/// The item of that name of an ENUMERATED.
fn enumeration_item<'s, 't>(
    alloc: Global,
    governor: Governor<'s, 't>,
    name: &str,
) -> Result<Option<Item<'s, 't>>, Error<'t>>
    ensures { Gives (option_map item_of) result (enumeration_item (governor_of governor.entry) name.now) }
{
    let mut cursor = over_kept(governor.items);
    match read_enumeration(alloc, &mut cursor) {
        Ok(enumeration) => Ok(item_among(&enumeration, name)),
        Err(fault) => Err(unread(governor.module, fault)),
    }
}

/// The item of that name in the root, or behind the marker.
fn item_among<'s, 't>(enumeration: &Enumeration<'s, 't>, name: &str) -> Option<Item<'s, 't>>
    ensures { option_map item_of result ≡ item_named name.now (all_items (enumeration_of enumeration.now)) }
{
    match item_named(&enumeration.root, name) {
        Some(item) => Some(item),
        None => match &enumeration.more {
            Some(more) => item_named(&more.items, name),
            None => None,
        },
    }
}

/// The item of that name.
#[tactic(auto, unfolding(crate::specs::Numbers::own_item))]
pub fn own_item<'s, 't>(
    alloc: Global,
    governor: Governor<'s, 't>,
    name: &str,
) -> Result<Option<Item<'s, 't>>, Error<'t>>
    ensures { Gives (option_map item_of) result (own_item (governor_of governor.entry) name.now) }
{
    if governor.items.is_empty() {
        return Ok(None);
    }
    if governor.enumerated {
        return enumeration_item(alloc, governor, name);
    }
    named_number(alloc, governor, name)
}
