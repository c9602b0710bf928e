//! Names of components, alternatives and items.
ghost use Rattle.std.specs.Prelude.{◌≡◌, ◌≤◌, ◌++◌, false, length, map, string_bytes, true};
ghost use Rattle.std.specs.Str.{bytes_eq};
ghost use Rattle.oer_model.specs.AsnType.{no_alternatives};
ghost use Rattle.oer_model.specs.FaultTest.{any_bad_name, contains_name, names_repeat, rest_after};
ghost use Rattle.oer_values.specs.ShapeView.{additions_of, fields_of, named_number, root_of};
ghost use Rattle.oer_types.specs.NameOrder.{names_in};
ghost use Rattle.oer_model.specs.WellFormed.{addition_names, alternative_names, field_names, is_alphanumeric as spec_is_alphanumeric, is_identifier as spec_is_identifier, item_names};

use crate::order::{MOST, Names, names_repeat_in_order};
use oer_values::{Addition, Alt, Field, Item};

/// From so many names on they are put in order, which costs more than to compare few with each other.
const MANY: usize = 32;

fn is_alphanumeric(octet: u8) -> bool
    ensures { result ≡ spec_is_alphanumeric octet }
{
    octet >= 97 && octet <= 122 || octet >= 65 && octet <= 90 || octet >= 48 && octet <= 57
}

/// Letters, digits and hyphens, no hyphen last and no two together.
fn is_name_rest(text: &[u8]) -> bool
    ensures { result ≡ rest_after false text.now }
{
    let mut after_hyphen = false;
    for octet in text {
        if is_alphanumeric(*octet) {
            after_hyphen = false;
        } else if *octet == 45 && !after_hyphen {
            after_hyphen = true;
        } else {
            return false;
        }
    }
    !after_hyphen
}

/// A letter a to z, then letters, digits and hyphens, no hyphen last and no two together.
fn is_identifier(name: &[u8]) -> bool
    ensures { result ≡ spec_is_identifier name.now }
{
    match name.split_first() {
        None => false,
        Some((first, rest)) => *first >= 97 && *first <= 122 && is_name_rest(rest),
    }
}

fn same_name(one: &String, other: &String) -> bool
    ensures { result ≡ bytes_eq (string_bytes one.now) (string_bytes other.now) }
{
    one == other
}

pub(crate) fn has_bad_item_name(items: &[Item]) -> bool
    ensures { result ≡ any_bad_name (item_names (map named_number items.now)) }
{
    for item in items {
        if !is_identifier(item.name.as_str().as_bytes()) {
            return true;
        }
    }
    false
}

pub(crate) fn has_bad_field_name(fields: &[Field]) -> bool
    ensures { result ≡ any_bad_name (field_names (fields_of fields.now)) }
{
    for field in fields {
        if !is_identifier(field.name.as_str().as_bytes()) {
            return true;
        }
    }
    false
}

pub(crate) fn has_bad_addition_name(additions: &[Addition]) -> bool
    ensures { result ≡ any_bad_name (addition_names (additions_of additions.now)) }
{
    for addition in additions {
        if !is_identifier(addition.name.as_str().as_bytes()) {
            return true;
        }
    }
    false
}

pub(crate) fn has_bad_alternative_name(alts: &[Alt]) -> bool
    ensures { result ≡ any_bad_name (alternative_names (root_of alts.now no_alternatives)) }
{
    for alt in alts {
        if !is_identifier(alt.name.as_str().as_bytes()) {
            return true;
        }
    }
    false
}

fn is_item_name(items: &[Item], name: &String) -> bool
    ensures { result ≡ contains_name (string_bytes name.now) (item_names (map named_number items.now)) }
{
    for item in items {
        if same_name(&item.name, name) {
            return true;
        }
    }
    false
}

fn is_field_name(fields: &[Field], name: &String) -> bool
    ensures { result ≡ contains_name (string_bytes name.now) (field_names (fields_of fields.now)) }
{
    for field in fields {
        if same_name(&field.name, name) {
            return true;
        }
    }
    false
}

fn is_addition_name(additions: &[Addition], name: &String) -> bool
    ensures { result ≡ contains_name (string_bytes name.now) (addition_names (additions_of additions.now)) }
{
    for addition in additions {
        if same_name(&addition.name, name) {
            return true;
        }
    }
    false
}

fn is_alternative_name(alts: &[Alt], name: &String) -> bool
    ensures { result
        ≡ contains_name (string_bytes name.now) (alternative_names (root_of alts.now no_alternatives)) }
{
    for alt in alts {
        if same_name(&alt.name, name) {
            return true;
        }
    }
    false
}

/// Whether there are names enough that it takes less to put them in order, and no more than can be.
fn are_many(names: Names<'_>) -> bool
    ensures { result ≡ true → length (names_in names.entry) ≤ 4096 }
{
    let count = names.count();
    MANY <= count && count <= MOST
}

pub(crate) fn item_names_repeat(items: &[Item]) -> bool
    ensures { result ≡ names_repeat (item_names (map named_number items.now)) }
{
    let names = Names::Items(items);
    if are_many(names) {
        return names_repeat_in_order(names);
    }
    few_item_names_repeat(items)
}

fn few_item_names_repeat(items: &[Item]) -> bool
    ensures { result ≡ names_repeat (item_names (map named_number items.now)) }
{
    let mut rest = items;
    while let Some((item, more)) = rest.split_first() {
        if is_item_name(more, &item.name) {
            return true;
        }
        rest = more;
    }
    false
}

/// Whether one name stands twice, in the root or after it.
pub(crate) fn field_names_repeat(fields: &[Field], additions: &[Addition]) -> bool
    ensures { result
        ≡ names_repeat (field_names (fields_of fields.now) ++ addition_names (additions_of additions.now)) }
{
    let names = Names::Components(fields, additions);
    if are_many(names) {
        return names_repeat_in_order(names);
    }
    few_field_names_repeat(fields, additions)
}

#[tactic(auto, using(crate::proofs::Alternatives::in_both))]
fn few_field_names_repeat(fields: &[Field], additions: &[Addition]) -> bool
    ensures { result
        ≡ names_repeat (field_names (fields_of fields.now) ++ addition_names (additions_of additions.now)) }
{
    let mut rest = fields;
    while let Some((field, more)) = rest.split_first() {
        if is_field_name(more, &field.name) || is_addition_name(additions, &field.name) {
            return true;
        }
        rest = more;
    }
    addition_names_repeat(additions)
}

fn addition_names_repeat(additions: &[Addition]) -> bool
    ensures { result ≡ names_repeat (addition_names (additions_of additions.now)) }
{
    let mut rest = additions;
    while let Some((addition, more)) = rest.split_first() {
        if is_addition_name(more, &addition.name) {
            return true;
        }
        rest = more;
    }
    false
}

/// Whether one name stands twice among the alternatives, or in both lists.
pub(crate) fn alternative_names_repeat(alts: &[Alt], later: &[Alt]) -> bool
    ensures { result ≡ names_repeat (alternative_names (root_of alts.now no_alternatives)
        ++ alternative_names (root_of later.now no_alternatives)) }
{
    let names = Names::Alternatives(alts, later);
    if are_many(names) {
        return names_repeat_in_order(names);
    }
    few_alternative_names_repeat(alts, later)
}

#[tactic(auto, using(crate::proofs::Alternatives::in_both))]
fn few_alternative_names_repeat(alts: &[Alt], later: &[Alt]) -> bool
    ensures { result ≡ names_repeat (alternative_names (root_of alts.now no_alternatives)
        ++ alternative_names (root_of later.now no_alternatives)) }
{
    let mut rest = alts;
    while let Some((alt, more)) = rest.split_first() {
        if is_alternative_name(more, &alt.name) || is_alternative_name(later, &alt.name) {
            return true;
        }
        rest = more;
    }
    one_list_repeats(later)
}

fn one_list_repeats(alts: &[Alt]) -> bool
    ensures { result ≡ names_repeat (alternative_names (root_of alts.now no_alternatives)) }
{
    let mut rest = alts;
    while let Some((alt, more)) = rest.split_first() {
        if is_alternative_name(more, &alt.name) {
            return true;
        }
        rest = more;
    }
    false
}
