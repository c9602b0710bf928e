//! Names of a type, and one that a mistyped name is near to.
ghost use Rattle.std.specs.Prelude.{◌≡◌, ◌++◌, IfOk, OnOk, map, option_map, string_bytes};
ghost use Rattle.oer_model.specs.AsnType.{Alternatives};
ghost use Rattle.oer_model.specs.WellFormed.{addition_names, alternative_names, field_names, item_names, names};
ghost use Rattle.oer_values.specs.ShapeView.{additions_of, choice_with, fields_of, later_of, named_number, root_of, sequence_with, type_of};
ghost use Rattle.oer_explain.specs.JsonNames.{behind_commas, first_near, hint_by, is_near, listed, names_shown, near, near_hint, texts_behind};

use oer_places::count_of;
use oer_types::{Addition, Alt, Field, Item, Shape};
use std::alloc::{AllocError, Global};
use strsim::levenshtein;

// How many names are printed.
const MOST_NAMES: usize = 8;

fn item_names<'a>(alloc: Global, items: &'a [Item]) -> Result<Vec<&'a str>, AllocError>
    ensures { IfOk result (λ names. texts_behind names.items ≡ item_names (map named_number items.now)) }
{
    let mut names = Vec::new(alloc);
    for item in items {
        names.push(item.name.as_str())?;
    }
    Ok(names)
}

fn push_fields<'a>(names: &mut Vec<&'a str>, fields: &'a [Field]) -> Result<(), AllocError>
    ensures { OnOk result (texts_behind names.new.items ≡ texts_behind names.old.items ++ field_names (fields_of fields.now)) }
{
    for field in fields {
        names.push(field.name.as_str())?;
    }
    Ok(())
}

fn push_additions<'a>(names: &mut Vec<&'a str>, additions: &'a [Addition]) -> Result<(), AllocError>
    ensures { OnOk result (texts_behind names.new.items
        ≡ texts_behind names.old.items ++ addition_names (additions_of additions.now)) }
{
    for addition in additions {
        names.push(addition.name.as_str())?;
    }
    Ok(())
}

fn push_alternatives<'a>(
    names: &mut Vec<&'a str>,
    alternatives: &'a [Alt],
) -> Result<(), AllocError>
    ensures root { OnOk result ((after : Alternatives) → texts_behind names.new.items ++ alternative_names after
        ≡ texts_behind names.old.items ++ alternative_names (root_of alternatives.now after)) }
    ensures later { OnOk result (texts_behind names.new.items
        ≡ texts_behind names.old.items ++ alternative_names (later_of alternatives.now)) }
{
    for alternative in alternatives {
        names.push(alternative.name.as_str())?;
    }
    Ok(())
}

fn sequence_names<'a>(
    alloc: Global,
    root: &'a [Field],
    additions: &'a Option<Vec<Addition>>,
) -> Result<Vec<&'a str>, AllocError>
    ensures { IfOk result (λ found. texts_behind found.items ≡ names (sequence_with root.now additions.now)) }
{
    let mut names = Vec::new(alloc);
    push_fields(&mut names, root)?;
    if let Some(additions) = additions {
        push_additions(&mut names, additions)?;
    }
    Ok(names)
}

fn choice_names<'a>(
    alloc: Global,
    root: &'a [Alt],
    additions: &'a Option<Vec<Alt>>,
) -> Result<Vec<&'a str>, AllocError>
    ensures { IfOk result (λ found. texts_behind found.items ≡ names (choice_with root.now additions.now)) }
{
    let mut names = Vec::new(alloc);
    push_alternatives(&mut names, root)?;
    if let Some(additions) = additions {
        push_alternatives(&mut names, additions)?;
    }
    Ok(names)
}

/// The names of a type's items, components or alternatives. It fails where an allocation does.
pub(crate) fn names_of(alloc: Global, shape: &Shape) -> Result<Vec<&str>, AllocError>
    ensures { IfOk result (λ found. texts_behind found.items ≡ names (type_of shape.now)) }
{
    match shape {
        Shape::Enumerated { items, .. } => item_names(alloc, items),
        Shape::Sequence { root, additions } => sequence_names(alloc, root, additions),
        Shape::Choice { root, additions } => choice_names(alloc, root, additions),
        _ => Ok(Vec::new(alloc)),
    }
}

// Appends each name behind a comma.
fn push_behind_commas(text: &mut String, names: &[&str]) -> Result<(), AllocError>
    ensures { OnOk result (string_bytes text.new ≡ string_bytes text.old ++ behind_commas (texts_behind names.now)) }
{
    for name in names {
        text.push_str(", ")?;
        text.push_str(name)?;
    }
    Ok(())
}

fn listed(alloc: Global, names: &[&str]) -> Result<String, AllocError>
    ensures { IfOk result (λ text. string_bytes text ≡ listed (texts_behind names.now)) }
{
    let mut text = String::new(alloc);
    if let Some((first, rest)) = names.split_first() {
        text.push_str(first)?;
        push_behind_commas(&mut text, rest)?;
    }
    Ok(text)
}

/// The names with commas between them; of more than eight the first, and a mark. It fails where an allocation does.
pub(crate) fn names_shown(alloc: Global, names: &[&str]) -> Result<String, AllocError>
    ensures { IfOk result (λ text. string_bytes text ≡ names_shown (texts_behind names.now)) }
{
    if names.len() <= MOST_NAMES {
        return listed(alloc, names);
    }
    let mut text = listed(alloc, &names[..MOST_NAMES])?;
    text.push_str(", ..")?;
    Ok(text)
}

// Whether a few edits make the name of the key.
fn is_near(alloc: Global, most: usize, key: &str, name: &str) -> Result<bool, AllocError>
    ensures { IfOk result (λ is. is ≡ is_near most key.now name.now) }
{
    let count = count_of(name);
    if count_of(key) > 40 || count > 40 {
        return Ok(false);
    }
    let edits = levenshtein(alloc, key, name)?;
    Ok(edits <= most && edits < count.saturating_sub(edits))
}

fn first_near<'a>(
    alloc: Global,
    most: usize,
    key: &str,
    names: &[&'a str],
) -> Result<Option<&'a str>, AllocError>
    ensures { IfOk result (λ found. option_map (λ s. s.now) found ≡ first_near most key.now (texts_behind names.now)) }
{
    for name in names {
        if is_near(alloc, most, key, name)? {
            return Ok(Some(name));
        }
    }
    Ok(None)
}

fn near<'a>(alloc: Global, key: &str, names: &[&'a str]) -> Result<Option<&'a str>, AllocError>
    ensures { IfOk result (λ found. option_map (λ s. s.now) found ≡ near key.now (texts_behind names.now)) }
{
    match first_near(alloc, 1, key, names)? {
        Some(name) => Ok(Some(name)),
        None => first_near(alloc, 2, key, names),
    }
}

/// What a mistyped name may mean, in a line; or nothing. It fails where an allocation does.
pub(crate) fn near_hint(alloc: Global, key: &str, names: &[&str]) -> Result<String, AllocError>
    ensures { IfOk result (λ hint. string_bytes hint ≡ near_hint key.now (texts_behind names.now)) }
{
    match near(alloc, key, names)? {
        Some(name) => format!(in alloc; "  Did you mean {name}?\n"),
        None => Ok(String::new(alloc)),
    }
}
