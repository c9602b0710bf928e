//! The tags of the alternatives of a CHOICE.
ghost use Rattle.std.specs.Prelude.{◌≡◌, ◌<◌, length, map, option_map};
ghost use Rattle.oer_module_names.specs.Views.{modules_in};
ghost use Rattle.oer_module_syntax.specs.Tree.{element_of, elements_from, tree_of};
ghost use Rattle.oer_module_text.specs.Errors.{Gives, seen};
ghost use Rattle.oer_module_tags.specs.Alternatives.{alternative_tags, automatic_tags, checked, context_tag, context_tags, own_tag, own_tags, type_at};

use crate::header::{module_place, tags_automatically};
use crate::outermost::{fitting, outermost_tag};
use oer_module_names::{Names, Place};
use oer_module_parts::{Mark, are_tagged_automatically, automatic_numbers, marks_of, places_of};
use oer_module_syntax::{Element, TypeSyntax};
use oer_module_text::{Error, Part, refused};
use oer_module_values::TypeIn;
use oer_units::{Class, Tag};
use std::alloc::Global;

/// The type of an alternative; none of a marker.
#[tactic(auto, using(oer_module_syntax::proofs::Trees::trees))]
fn type_at<'m, 's, 't>(
    module: usize,
    element: &'m Element<'s, 't>,
) -> Result<Option<&'m TypeSyntax<'s, 't>>, Error<'t>>
    ensures { seen (option_map (λ t. tree_of t.now)) result ≡ type_at «module» (element_of element.now) }
{
    match element {
        Element::Marker { .. } => Ok(None),
        Element::Group { at, .. } => Err(refused(module, *at, Part::Group)),
        Element::ComponentsOf { at, .. } => Err(refused(module, *at, Part::ComponentsOf)),
        Element::Component { from, .. } => Ok(Some(from)),
    }
}

/// Refuses what is neither an alternative nor a marker.
fn check_each<'t>(module: usize, elements: &[Element<'_, 't>]) -> Result<(), Error<'t>>
    ensures { seen (λ _. tt) result ≡ checked «module» (elements_from (map element_of elements.now)) }
{
    for element in elements {
        type_at(module, element)?;
    }
    Ok(())
}

fn context_tag<'n>(place: Place, number: usize) -> Result<Tag, Error<'n>>
    ensures { seen (λ t. t) result ≡ context_tag place number }
{
    let number = fitting(place, number as i128)?;
    Ok(Tag {
        class: Class::Context,
        number,
    })
}

/// The tags of the context with these numbers.
fn context_tags<'n>(alloc: Global, place: Place, numbers: &[usize]) -> Result<Vec<Tag>, Error<'n>>
    ensures { Gives (λ v. v.items) result (context_tags place numbers.now) }
{
    let mut tags = Vec::new(alloc);
    for number in numbers {
        let tag = context_tag(place, *number)?;
        tags.push(tag)?;
    }
    Ok(tags)
}

/// The automatic tags of alternatives with these marks (X.680, 29.3 and 29.4).
fn automatic_tags<'n>(alloc: Global, place: Place, marks: &[Mark]) -> Result<Vec<Tag>, Error<'n>>
    ensures { Gives (λ v. v.items) result (automatic_tags place marks.now) }
{
    let places = places_of(alloc, marks)?;
    let numbers = automatic_numbers(alloc, &places)?;
    context_tags(alloc, place, &numbers)
}

/// The outermost tag of an alternative's type; none of a marker.
fn own_tag<'m, 's, 't>(
    alloc: Global,
    names: &Names<'m, 's, 't>,
    module: usize,
    element: &'m Element<'s, 't>,
) -> Result<Option<Tag>, Error<'t>>
    requires { «module» < length (modules_in names.now) }
    ensures { Gives (λ o. o) result (own_tag (modules_in names.now) «module» (element_of element.now)) }
{
    let Some(syntax) = type_at(module, element)? else {
        return Ok(None);
    };
    let tag = outermost_tag(alloc, names, TypeIn { module, syntax })?;
    Ok(Some(tag))
}

/// The outermost tag of the type of each alternative.
fn own_tags<'m, 's, 't>(
    alloc: Global,
    names: &Names<'m, 's, 't>,
    module: usize,
    elements: &'m [Element<'s, 't>],
) -> Result<Vec<Tag>, Error<'t>>
    requires { «module» < length (modules_in names.now) }
    ensures { Gives (λ v. v.items) result (own_tags (modules_in names.now) «module» (elements_from (map element_of elements.now))) }
{
    let mut tags = Vec::new(alloc);
    for element in elements {
        if let Some(tag) = own_tag(alloc, names, module, element)? {
            tags.push(tag)?;
        }
    }
    Ok(tags)
}

/// The tag of each alternative of a CHOICE, in the order written; markers are passed. Where the module's header says
/// AUTOMATIC TAGS and no alternative has a tag, they are automatic (X.680, 29.2 to 29.5). Else each is the outermost tag of
/// the alternative's type, by which X.696 tells it apart.
///
/// # Errors
/// The first between the commas: NotTaken with Group or ComponentsOf, at one of these; or those of `outermost_tag`, where
/// the tags aren't automatic. Of automatic tags TagNumber comes last, at the module, if there are more than 2^32. Or
/// Unresolved with Unread and Memory, where an allocation failed.
#[tactic(auto, unfolding(crate::specs::Alternatives::alternative_tags))]
pub fn alternative_tags<'m, 's, 't>(
    alloc: Global,
    names: &Names<'m, 's, 't>,
    module: usize,
    elements: &'m [Element<'s, 't>],
) -> Result<Vec<Tag>, Error<'t>>
    requires { «module» < length (modules_in names.now) }
    ensures { Gives (λ v. v.items) result (alternative_tags (modules_in names.now) «module» (elements_from (map element_of elements.now))) }
{
    let marks = marks_of(alloc, elements)?;
    if tags_automatically(names, module) && are_tagged_automatically(&marks) {
        check_each(module, elements)?;
        return automatic_tags(alloc, module_place(names, module), &marks);
    }
    own_tags(alloc, names, module, elements)
}
