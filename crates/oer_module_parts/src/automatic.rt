//! Automatic tags (X.680, 25.3, 25.7 to 25.9, 29.2 and 29.3).
ghost use Rattle.std.specs.Prelude.{◌≡◌, ◌++◌, ◌≤◌, IfOk, OnOk, length, map};
ghost use Rattle.oer_module_parts.specs.Automatic.{are_untagged, automatic_numbers, has_tag, is_tagged, marks_in, marks_of, place_behind, places_of, root_count};
ghost use Rattle.oer_module_syntax.specs.Tree.{element_of, elements_from, tree_of};

use oer_module_syntax::{Element, TypeSyntax};
use std::alloc::{AllocError, Global};

/// What stands between the commas of a SEQUENCE, SET or CHOICE, as far as tags depend on it. What stands in a group, `[[ ]]`,
/// stands in its place.
#[derive(Clone, Copy, Debug, PartialEq, Eq)]
pub enum Mark {
    /// A component or an alternative, and whether its type has a tag where it is written.
    Component { tagged: bool },
    /// COMPONENTS OF, which isn't written out yet.
    ComponentsOf,
    /// `...`
    Marker,
}

/// Where a component or an alternative stands.
#[derive(Clone, Copy, Debug, PartialEq, Eq)]
pub enum Place {
    /// Before the first marker or after the second.
    Root,
    /// After the first marker, up to the second.
    Addition,
}

fn is_tagged(of: &TypeSyntax<'_, '_>) -> bool
    ensures { result ≡ is_tagged (tree_of of.now) }
{
    match of {
        TypeSyntax::Tagged { .. } => true,
        _ => false,
    }
}

#[cycle(marks)]
#[tactic(auto, using(oer_module_syntax::proofs::Trees::trees))]
fn add_mark(element: &Element<'_, '_>, marks: &mut Vec<Mark>) -> Result<(), AllocError>
    ensures { OnOk result (marks.new.items ≡ marks.old.items ++ marks_in (element_of element.now)) }
{
    match element {
        Element::Marker { .. } => marks.push(Mark::Marker)?,
        Element::Group { elements, .. } => add_marks(elements, marks)?,
        Element::ComponentsOf { .. } => marks.push(Mark::ComponentsOf)?,
        Element::Component { from, .. } => {
            marks.push(Mark::Component {
                tagged: is_tagged(from),
            })?
        }
    }
    Ok(())
}

#[cycle(marks)]
fn add_marks(elements: &[Element<'_, '_>], marks: &mut Vec<Mark>) -> Result<(), AllocError>
    ensures { OnOk result (marks.new.items ≡ marks.old.items ++ marks_of (elements_from (map element_of elements.now))) }
{
    for element in elements {
        add_mark(element, marks)?;
    }
    Ok(())
}

/// The marks of what was written, with what stands in groups in its place.
///
/// # Errors
/// An allocation failed.
pub fn marks_of(alloc: Global, elements: &[Element<'_, '_>]) -> Result<Vec<Mark>, AllocError>
    ensures { IfOk result (λ v. v.items ≡ marks_of (elements_from (map element_of elements.now))) }
{
    let mut marks = Vec::new(alloc);
    add_marks(elements, &mut marks)?;
    Ok(marks)
}

fn has_tag(mark: Mark) -> bool
    ensures { result ≡ has_tag mark }
{
    match mark {
        Mark::Component { tagged } => tagged,
        _ => false,
    }
}

/// Whether these get automatic tags in a module with AUTOMATIC TAGS: none of them has a tag where it is written (X.680, 25.3
/// and 29.2). What COMPONENTS OF stands for isn't looked at, so this is asked before it is written out (X.680, 25.4).
pub fn are_tagged_automatically(marks: &[Mark]) -> bool
    ensures { result ≡ are_untagged marks.now }
{
    for mark in marks {
        if has_tag(*mark) {
            return false;
        }
    }
    true
}

fn place_behind(markers: usize) -> Place
    ensures { result ≡ place_behind markers }
{
    if markers == 1 {
        return Place::Addition;
    }
    Place::Root
}

/// Where each component stands, in the order written: in the root, before the first marker and after the second, or
/// else among the additions (X.680, 25.1 and 29.1). COMPONENTS OF is no component: the marks of what it stands for are to
/// be in its place.
///
/// # Errors
/// An allocation failed.
pub fn places_of(alloc: Global, marks: &[Mark]) -> Result<Vec<Place>, AllocError>
    ensures { IfOk result (λ v. v.items ≡ places_of 0 marks.now) }
{
    let mut markers = 0;
    let mut places = Vec::new(alloc);
    for mark in marks {
        match mark {
            Mark::Component { .. } => places.push(place_behind(markers))?,
            Mark::ComponentsOf => {}
            Mark::Marker => markers += 1,
        }
    }
    Ok(places)
}

/// How many stand in the root.
fn count_root(places: &[Place]) -> usize
    ensures is { result ≡ root_count places.now }
    ensures most { result ≤ length places.now }
{
    let mut count = 0;
    for place in places {
        count += match place {
            Place::Root => 1,
            Place::Addition => 0,
        };
    }
    count
}

/// The number of each component's automatic tag, in the order written, if they are tagged automatically: those of the root
/// get 0, 1, 2 and so on in order, and the additions go on from there (X.680, 25.7 to 25.9 and 29.3).
///
/// # Errors
/// An allocation failed.
pub fn automatic_numbers(alloc: Global, places: &[Place]) -> Result<Vec<usize>, AllocError>
    ensures { IfOk result (λ v. v.items ≡ automatic_numbers places.now) }
{
    let mut root = 0;
    let mut addition = count_root(places);
    let mut numbers = Vec::new(alloc);
    for place in places {
        match place {
            Place::Root => {
                numbers.push(root)?;
                root += 1;
            }
            Place::Addition => {
                numbers.push(addition)?;
                addition += 1;
            }
        }
    }
    Ok(numbers)
}
