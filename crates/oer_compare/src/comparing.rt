//! What differs first between two types.
ghost use Rattle.std.specs.Prelude.{◌≡◌, ◌↔◌, IfOk, None, option_map};
ghost use Rattle.oer_compare.specs.Difference.{additions_differ as spec_additions_differ, differ, fields_differ as spec_fields_differ};
ghost use Rattle.oer_compare.specs.Extends.{Extends};
ghost use Rattle.oer_compare.specs.Views.{additions_differ_at, alts_differ as spec_alts_differ, alts_differ_at, fields_differ_at, seen};
ghost use Rattle.oer_values.specs.ShapeView.{additions_of, fields_of, type_of};

use crate::difference::{Aspect, Difference, Part, at, here, inside};
use crate::own::own_aspect;
use crate::same::{is_same_name, is_same_need};
use oer_values::{Addition, Alt, Field, Shape, is_same_tag, known_additions, known_later};
use std::alloc::{AllocError, Global};

/// What differs first between the types, by which `new` doesn't only add to `old` after extension
/// markers; none where it only adds. Fails if an allocation fails.
pub fn compare<'a>(
    alloc: Global,
    old: &'a Shape,
    new: &'a Shape,
) -> Result<Option<Difference<'a>>, AllocError>
    ensures first { IfOk result (λ found. option_map seen found ≡ differ (type_of old.now) (type_of new.now)) }
    ensures extends { IfOk result (λ found. found ≡ None ↔ Extends (type_of old.now) (type_of new.now)) }
{
    types(alloc, old, new)
}

#[cycle(compare)]
#[tactic(auto, using(oer_values::proofs::Shapes::shapes))]
fn types<'a>(
    alloc: Global,
    old: &'a Shape,
    new: &'a Shape,
) -> Result<Option<Difference<'a>>, AllocError>
    ensures { IfOk result (λ found. option_map seen found ≡ differ (type_of old.now) (type_of new.now)) }
{
    if let Some(aspect) = own_aspect(old, new) {
        return Ok(here(alloc, aspect));
    }
    match (old, new) {
        (
            Shape::Sequence { root, additions },
            Shape::Sequence {
                root: others,
                additions: added,
            },
        ) => {
            if let Some(found) = fields(alloc, root, others)? {
                return Ok(Some(found));
            }
            known(alloc, known_additions(additions), known_additions(added))
        }
        (Shape::SequenceOf { item: one, .. }, Shape::SequenceOf { item: other, .. }) => {
            inside(Part::Element, types(alloc, one, other)?)
        }
        (
            Shape::Choice { root, additions },
            Shape::Choice {
                root: others,
                additions: added,
            },
        ) => {
            if let Some(found) = alternatives(alloc, root, others, false)? {
                return Ok(Some(found));
            }
            alternatives(alloc, known_later(additions), known_later(added), true)
        }
        _ => Ok(None),
    }
}

#[cycle(compare)]
fn fields<'a>(
    alloc: Global,
    ones: &'a [Field],
    others: &'a [Field],
) -> Result<Option<Difference<'a>>, AllocError>
    ensures { IfOk result (λ found. option_map seen found ≡ spec_fields_differ 0 (fields_of ones.now) (fields_of others.now)) }
{
    let mut rest = others;
    for (index, one) in ones.iter().enumerate() {
        let Some((other, more)) = rest.split_first() else {
            return at(
                alloc,
                Part::Component {
                    index,
                    name: one.name.as_str(),
                },
                Aspect::Missing,
            );
        };
        if let Some(found) = inside(
            Part::Component {
                index,
                name: one.name.as_str(),
            },
            component(alloc, one, other)?,
        )? {
            return Ok(Some(found));
        }
        rest = more;
    }
    match rest {
        [] => Ok(None),
        [next, ..] => at(
            alloc,
            Part::Component {
                index: ones.len(),
                name: next.name.as_str(),
            },
            Aspect::Extra,
        ),
    }
}

#[cycle(compare)]
fn component<'a>(
    alloc: Global,
    one: &'a Field,
    other: &'a Field,
) -> Result<Option<Difference<'a>>, AllocError>
    ensures { IfOk result (λ found. option_map seen found ≡ fields_differ_at one.now other.now) }
{
    if !is_same_name(one.name.as_str(), other.name.as_str()) {
        return Ok(here(alloc, Aspect::Name));
    }
    if let Some(found) = types(alloc, &one.shape, &other.shape)? {
        return Ok(Some(found));
    }
    if !is_same_need(&one.need, &other.need) {
        return Ok(here(alloc, Aspect::Presence));
    }
    Ok(None)
}

#[cycle(compare)]
fn known<'a>(
    alloc: Global,
    ones: &'a [Addition],
    others: &'a [Addition],
) -> Result<Option<Difference<'a>>, AllocError>
    ensures { IfOk result (λ found. option_map seen found ≡ spec_additions_differ 0 (additions_of ones.now) (additions_of others.now)) }
{
    let mut rest = others;
    for (index, one) in ones.iter().enumerate() {
        let Some((other, more)) = rest.split_first() else {
            return at(
                alloc,
                Part::Addition {
                    index,
                    name: one.name.as_str(),
                },
                Aspect::Missing,
            );
        };
        if let Some(found) = inside(
            Part::Addition {
                index,
                name: one.name.as_str(),
            },
            addition(alloc, one, other)?,
        )? {
            return Ok(Some(found));
        }
        rest = more;
    }
    Ok(None)
}

#[cycle(compare)]
fn addition<'a>(
    alloc: Global,
    one: &'a Addition,
    other: &'a Addition,
) -> Result<Option<Difference<'a>>, AllocError>
    ensures { IfOk result (λ found. option_map seen found ≡ additions_differ_at one.now other.now) }
{
    if !is_same_name(one.name.as_str(), other.name.as_str()) {
        return Ok(here(alloc, Aspect::Name));
    }
    types(alloc, &one.shape, &other.shape)
}

/// `grows`: further alternatives may follow.
#[cycle(compare)]
fn alternatives<'a>(
    alloc: Global,
    ones: &'a [Alt],
    others: &'a [Alt],
    grows: bool,
) -> Result<Option<Difference<'a>>, AllocError>
    ensures { IfOk result (λ found. option_map seen found ≡ spec_alts_differ grows ones.now others.now) }
{
    let mut rest = others;
    for one in ones {
        let Some((other, more)) = rest.split_first() else {
            return at(
                alloc,
                Part::Alternative {
                    name: one.name.as_str(),
                },
                Aspect::Missing,
            );
        };
        if let Some(found) = inside(
            Part::Alternative {
                name: one.name.as_str(),
            },
            alternative(alloc, one, other)?,
        )? {
            return Ok(Some(found));
        }
        rest = more;
    }
    match rest {
        [next, ..] if !grows => at(
            alloc,
            Part::Alternative {
                name: next.name.as_str(),
            },
            Aspect::Extra,
        ),
        _ => Ok(None),
    }
}

#[cycle(compare)]
fn alternative<'a>(
    alloc: Global,
    one: &'a Alt,
    other: &'a Alt,
) -> Result<Option<Difference<'a>>, AllocError>
    ensures { IfOk result (λ found. option_map seen found ≡ alts_differ_at one.now other.now) }
{
    if !is_same_name(one.name.as_str(), other.name.as_str()) {
        return Ok(here(alloc, Aspect::Name));
    }
    if !is_same_tag(one.tag, other.tag) {
        return Ok(here(alloc, Aspect::Tagging));
    }
    types(alloc, &one.shape, &other.shape)
}
