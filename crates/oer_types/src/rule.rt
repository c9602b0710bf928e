//! Faults that a type has of itself or in a type in it.
ghost use Rattle.std.specs.Prelude.{◌≡◌, ◌==◌, ◌||◌, false, map, true};
ghost use Rattle.oer_model.specs.AsnType.{no_alternatives};
ghost use Rattle.oer_model.specs.Constraints.{fixed, is_zero as spec_is_zero, may_all_be_empty as spec_may_all_be_empty, may_be_empty as spec_may_be_empty, optional};
ghost use Rattle.oer_model.specs.FaultTest.{any_bad_name, any_misfit as spec_any_misfit, has_crossed_bounds as spec_has_crossed_bounds, has_crossed_size as spec_has_crossed_size, has_empty_element as spec_has_empty_element, has_fault_here as spec_has_fault_here, has_misfit as spec_has_misfit, has_no_items as spec_has_no_items, has_repeated_number as spec_has_repeated_number, has_repeated_tag as spec_has_repeated_tag, in_additions, in_alternatives, in_fields, is_crossed as spec_is_crossed, names_repeat, numbers_repeat as spec_numbers_repeat, somewhere, tags_repeat as spec_tags_repeat};
ghost use Rattle.oer_values.specs.ShapeView.{additions_of, choice_with, fields_of, later_of, named_number, root_of, sequence_with, type_of};
ghost use Rattle.oer_model.specs.WellFormed.{names};
ghost use Rattle.oer_types.specs.Ascending.{ascend, next_tag as spec_next_tag};
ghost use Rattle.oer_types.specs.AnyFault.{any_fault_here, any_here, is_sought, repeat_faults, spelling_faults, value_faults};

use crate::name;
use oer_model::{SchemaFault, Size};
use oer_values::{
    Addition, Alt, Field, Item, Need, Shape, contains_number, contains_tag, fits_shape,
    known_additions, known_later,
};

#[tactic(auto, using(oer_values::proofs::Shapes::shapes))]
fn has_crossed_bounds(shape: &Shape) -> bool
    ensures { result ≡ spec_has_crossed_bounds (type_of shape.now) }
{
    match shape {
        Shape::Integer {
            low: Some(low),
            high: Some(high),
        } => *high < *low,
        _ => false,
    }
}

fn is_crossed(size: Size) -> bool
    ensures { result ≡ spec_is_crossed size }
{
    match size.high {
        Some(high) => high < size.low,
        None => false,
    }
}

/// Whether 0 is the one size.
fn is_zero(size: Size) -> bool
    ensures { result ≡ spec_is_zero (fixed size) }
{
    match size.high {
        Some(high) => size.low == 0 && high == 0,
        None => false,
    }
}

#[tactic(auto, using(oer_values::proofs::Shapes::shapes))]
fn has_crossed_size(shape: &Shape) -> bool
    ensures { result ≡ spec_has_crossed_size (type_of shape.now) }
{
    match shape {
        Shape::BitString(size) => is_crossed(*size),
        Shape::OctetString(size) => is_crossed(*size),
        Shape::Ia5(size) => is_crossed(*size),
        Shape::Visible(size) => is_crossed(*size),
        Shape::Numeric(size) => is_crossed(*size),
        Shape::Printable(size) => is_crossed(*size),
        Shape::Utf8(size) => is_crossed(*size),
        Shape::SequenceOf { size, .. } => is_crossed(*size),
        Shape::Boolean | Shape::Null | Shape::ObjectId => false,
        Shape::Integer { .. } | Shape::Enumerated { .. } => false,
        Shape::Sequence { .. } | Shape::Choice { .. } => false,
    }
}

#[tactic(auto, using(crate::proofs::NameSteps::names_of))]
fn has_bad_name(shape: &Shape) -> bool
    ensures { result ≡ any_bad_name (names (type_of shape.now)) }
{
    match shape {
        Shape::Enumerated { items, .. } => name::has_bad_item_name(items),
        Shape::Sequence { root, additions } => {
            if name::has_bad_field_name(root) {
                return true;
            }
            name::has_bad_addition_name(known_additions(additions))
        }
        Shape::Choice { root, additions } => {
            if name::has_bad_alternative_name(root) {
                return true;
            }
            name::has_bad_alternative_name(known_later(additions))
        }
        _ => false,
    }
}

#[tactic(auto, using(crate::proofs::NameSteps::names_of))]
fn has_repeated_name(shape: &Shape) -> bool
    ensures { result ≡ names_repeat (names (type_of shape.now)) }
{
    match shape {
        Shape::Enumerated { items, .. } => name::item_names_repeat(items),
        Shape::Sequence { root, additions } => {
            name::field_names_repeat(root, known_additions(additions))
        }
        Shape::Choice { root, additions } => {
            name::alternative_names_repeat(root, known_later(additions))
        }
        _ => false,
    }
}

#[tactic(auto, using(crate::proofs::NameSteps::items_of))]
fn has_no_items(shape: &Shape) -> bool
    ensures { result ≡ spec_has_no_items (type_of shape.now) }
{
    match shape {
        Shape::Enumerated { items, .. } => items.is_empty(),
        Shape::Choice { root, .. } => root.is_empty(),
        _ => false,
    }
}

/// Whether each number is greater than the one before.
fn numbers_ascend(items: &[Item]) -> bool
    ensures { result ≡ ascend (map named_number items.now) }
{
    let Some((first, more)) = items.split_first() else {
        return true;
    };
    let mut last = first.number;
    for item in more {
        if item.number <= last {
            return false;
        }
        last = item.number;
    }
    true
}

/// Whether a number stands twice, which it doesn't where the numbers ascend.
#[tactic(auto, using(crate::proofs::Ascending::apart))]
fn numbers_repeat(items: &[Item]) -> bool
    ensures { result ≡ spec_numbers_repeat (map named_number items.now) }
{
    if numbers_ascend(items) {
        return false;
    }
    any_number_repeats(items)
}

fn any_number_repeats(items: &[Item]) -> bool
    ensures { result ≡ spec_numbers_repeat (map named_number items.now) }
{
    let mut rest = items;
    while let Some((item, more)) = rest.split_first() {
        if contains_number(more, item.number) {
            return true;
        }
        rest = more;
    }
    false
}

#[tactic(auto, using(oer_values::proofs::Shapes::shapes))]
fn has_repeated_number(shape: &Shape) -> bool
    ensures { result ≡ spec_has_repeated_number (type_of shape.now) }
{
    match shape {
        Shape::Enumerated { items, .. } => numbers_repeat(items),
        _ => false,
    }
}

/// Where the numbers of the tags ascend from this one on, the number after the last of them.
fn next_tag(alts: &[Alt], first: u64) -> Option<u64>
    ensures { result ≡ spec_next_tag first alts.now }
{
    let mut next = first;
    for alt in alts {
        let number = u64::from(alt.tag.number);
        if number < next {
            return None;
        }
        next = number + 1;
    }
    Some(next)
}

/// Whether the numbers of all tags ascend.
#[tactic(auto, using(crate::proofs::Ascending::tags_apart))]
fn tags_ascend(alts: &[Alt], later: &[Alt]) -> bool
    ensures { result ≡ true → spec_tags_repeat (root_of alts.now (later_of later.now)) ≡ false }
{
    match next_tag(alts, 0) {
        Some(next) => match next_tag(later, next) {
            Some(_) => true,
            None => false,
        },
        None => false,
    }
}

/// Whether one tag stands twice among the alternatives, or in both lists; it doesn't where the numbers ascend.
fn tags_repeat(alts: &[Alt], later: &[Alt]) -> bool
    ensures { result ≡ spec_tags_repeat (root_of alts.now (later_of later.now)) }
{
    if tags_ascend(alts, later) {
        return false;
    }
    any_tag_repeats(alts, later)
}

#[tactic(auto, using(oer_values::proofs::FitSteps::tag_in_root))]
fn any_tag_repeats(alts: &[Alt], later: &[Alt]) -> bool
    ensures { result ≡ spec_tags_repeat (root_of alts.now (later_of later.now)) }
{
    let mut rest = alts;
    while let Some((alt, more)) = rest.split_first() {
        if contains_tag(more, alt.tag) || contains_tag(later, alt.tag) {
            return true;
        }
        rest = more;
    }
    later_tags_repeat(later)
}

#[tactic(auto, using(crate::proofs::Alternatives::later_tag))]
fn later_tags_repeat(alts: &[Alt]) -> bool
    ensures { result ≡ spec_tags_repeat (later_of alts.now) }
{
    let mut rest = alts;
    while let Some((alt, more)) = rest.split_first() {
        if contains_tag(more, alt.tag) {
            return true;
        }
        rest = more;
    }
    false
}

#[tactic(auto, using(crate::proofs::NameSteps::tags_of))]
fn has_repeated_tag(shape: &Shape) -> bool
    ensures { result ≡ spec_has_repeated_tag (type_of shape.now) }
{
    match shape {
        Shape::Choice { root, additions } => tags_repeat(root, known_later(additions)),
        _ => false,
    }
}

/// Whether a default doesn't fit its component's type.
fn any_misfit(fields: &[Field]) -> bool
    ensures { result ≡ spec_any_misfit (fields_of fields.now) }
{
    for field in fields {
        if let Need::Default(value) = &field.need {
            if !fits_shape(&field.shape, value) {
                return true;
            }
        }
    }
    false
}

#[tactic(auto, using(crate::proofs::NameSteps::defaults_of))]
fn has_misfit(shape: &Shape) -> bool
    ensures { result ≡ spec_has_misfit (type_of shape.now) }
{
    match shape {
        Shape::Sequence { root, .. } => any_misfit(root),
        _ => false,
    }
}

/// Whether no component may be absent.
fn are_all_needed(fields: &[Field]) -> bool
    ensures { result ≡ (optional (fields_of fields.now) == 0) }
{
    for field in fields {
        if !matches!(field.need, Need::Must) {
            return false;
        }
    }
    true
}

/// Whether the type may take no octets: a NULL, a string of the one size 0, or a SEQUENCE without
/// extension marker and optional components whose components all may.
#[cycle(empty)]
#[tactic(auto, using(oer_values::proofs::Shapes::shapes))]
fn may_be_empty(shape: &Shape) -> bool
    ensures { result ≡ spec_may_be_empty (type_of shape.now) }
{
    match shape {
        Shape::Null => true,
        Shape::BitString(size) => is_zero(*size),
        Shape::OctetString(size) => is_zero(*size),
        Shape::Ia5(size) => is_zero(*size),
        Shape::Visible(size) => is_zero(*size),
        Shape::Numeric(size) => is_zero(*size),
        Shape::Printable(size) => is_zero(*size),
        Shape::Sequence {
            root,
            additions: None,
        } => {
            if !are_all_needed(root) {
                return false;
            }
            may_all_be_empty(root)
        }
        _ => false,
    }
}

#[cycle(empty)]
fn may_all_be_empty(fields: &[Field]) -> bool
    ensures { result ≡ spec_may_all_be_empty (fields_of fields.now) }
{
    for field in fields {
        if !may_be_empty(&field.shape) {
            return false;
        }
    }
    true
}

#[tactic(auto, using(oer_values::proofs::Shapes::shapes))]
fn has_empty_element(shape: &Shape) -> bool
    ensures { result ≡ spec_has_empty_element (type_of shape.now) }
{
    match shape {
        Shape::SequenceOf { item, .. } => may_be_empty(item),
        _ => false,
    }
}

/// What a walk looks for: one fault, or any of those that are told from the same parts of a type.
#[derive(Clone, Copy)]
pub(crate) enum Sought {
    /// The fault.
    One(SchemaFault),
    /// Bounds, sizes and letters: `BoundOrder`, `SizeOrder`, `BadName`.
    Spelling,
    /// What stands twice, or not at all: `RepeatedName`, `NoItems`, `RepeatedNumber`, `RepeatedTag`.
    Repeats,
    /// What doesn't go with values: `DefaultMisfit`, `EmptyElement`.
    Values,
}

/// Whether the type itself has one of the faults that are told from each number and name alone.
#[tactic(auto, using(crate::proofs::AnyFault::here))]
fn is_misspelt(shape: &Shape) -> bool
    ensures { result ≡ any_here spelling_faults (type_of shape.now) }
{
    match shape {
        Shape::Boolean => false,
        Shape::Null => false,
        Shape::ObjectId => false,
        Shape::Integer { .. } => has_crossed_bounds(shape),
        Shape::Enumerated { .. } => has_bad_name(shape),
        Shape::Sequence { .. } => has_bad_name(shape),
        Shape::Choice { .. } => has_bad_name(shape),
        _ => has_crossed_size(shape),
    }
}

/// Whether the type itself has one of the faults of what stands twice, or not at all.
#[tactic(auto, using(crate::proofs::AnyFault::here))]
fn has_repeats(shape: &Shape) -> bool
    ensures { result ≡ any_here repeat_faults (type_of shape.now) }
{
    match shape {
        Shape::Enumerated { .. } => {
            has_repeated_name(shape) || has_no_items(shape) || has_repeated_number(shape)
        }
        Shape::Sequence { .. } => has_repeated_name(shape),
        Shape::Choice { .. } => {
            has_repeated_name(shape) || has_no_items(shape) || has_repeated_tag(shape)
        }
        _ => false,
    }
}

/// Whether the type itself has one of the faults that are told from values.
#[tactic(auto, using(crate::proofs::AnyFault::here))]
fn has_wrong_values(shape: &Shape) -> bool
    ensures { result ≡ any_here value_faults (type_of shape.now) }
{
    match shape {
        Shape::Sequence { .. } => has_misfit(shape),
        Shape::SequenceOf { .. } => has_empty_element(shape),
        _ => false,
    }
}

/// Whether the type itself has any of the faults after the first two, whatever the types in it have. Up to
/// 4,096 names of its own take n log n comparisons; more, which no `Schema` has, are compared each with each.
#[tactic(auto, using(crate::proofs::AnyFault::of_three))]
pub fn has_any_fault_here(shape: &Shape) -> bool
    ensures { result ≡ any_fault_here (type_of shape.now) }
{
    is_misspelt(shape) || has_repeats(shape) || has_wrong_values(shape)
}

/// Whether the type itself has the fault, whatever the types in it have.
fn has_one_fault_here(fault: SchemaFault, shape: &Shape) -> bool
    ensures { result ≡ spec_has_fault_here fault (type_of shape.now) }
{
    match fault {
        SchemaFault::TooDeep => false,
        SchemaFault::TooManyParts => false,
        SchemaFault::BoundOrder => has_crossed_bounds(shape),
        SchemaFault::SizeOrder => has_crossed_size(shape),
        SchemaFault::BadName => has_bad_name(shape),
        SchemaFault::RepeatedName => has_repeated_name(shape),
        SchemaFault::NoItems => has_no_items(shape),
        SchemaFault::RepeatedNumber => has_repeated_number(shape),
        SchemaFault::RepeatedTag => has_repeated_tag(shape),
        SchemaFault::DefaultMisfit => has_misfit(shape),
        SchemaFault::EmptyElement => has_empty_element(shape),
    }
}

/// Whether the type itself has a fault that is looked for.
fn has_fault_here(sought: Sought, shape: &Shape) -> bool
    ensures { result ≡ is_sought sought (type_of shape.now) }
{
    match sought {
        Sought::One(fault) => has_one_fault_here(fault, shape),
        Sought::Spelling => is_misspelt(shape),
        Sought::Repeats => has_repeats(shape),
        Sought::Values => has_wrong_values(shape),
    }
}

/// Whether the type or a type in it has a fault that is looked for. The walk stops at the first one.
#[cycle(somewhere)]
#[tactic(auto, using(oer_values::proofs::Shapes::shapes))]
pub(crate) fn is_somewhere(sought: Sought, shape: &Shape) -> bool
    ensures { result ≡ somewhere (is_sought sought) (type_of shape.now) }
{
    if has_fault_here(sought, shape) {
        return true;
    }
    match shape {
        Shape::Sequence { root, additions } => {
            if is_in_fields(sought, root) {
                return true;
            }
            match additions {
                None => false,
                Some(additions) => is_in_additions(sought, additions),
            }
        }
        Shape::SequenceOf { item, .. } => is_somewhere(sought, item),
        Shape::Choice { root, additions } => {
            if is_in_alternatives(sought, root) {
                return true;
            }
            match additions {
                None => false,
                Some(additions) => is_in_alternatives(sought, additions),
            }
        }
        _ => false,
    }
}

#[cycle(somewhere)]
fn is_in_fields(sought: Sought, fields: &[Field]) -> bool
    ensures { result ≡ in_fields (is_sought sought) (fields_of fields.now) }
{
    for field in fields {
        if is_somewhere(sought, &field.shape) {
            return true;
        }
    }
    false
}

#[cycle(somewhere)]
fn is_in_additions(sought: Sought, additions: &[Addition]) -> bool
    ensures { result ≡ in_additions (is_sought sought) (additions_of additions.now) }
{
    for addition in additions {
        if is_somewhere(sought, &addition.shape) {
            return true;
        }
    }
    false
}

#[cycle(somewhere)]
fn is_in_alternatives(sought: Sought, alts: &[Alt]) -> bool
    ensures { result ≡ in_alternatives (is_sought sought) (root_of alts.now no_alternatives) }
{
    for alt in alts {
        if is_somewhere(sought, &alt.shape) {
            return true;
        }
    }
    false
}
