//! What differs between two types, and where.
ghost use Rattle.std.specs.Prelude.{◌≡◌, IfOk, Some, option_map};
ghost use Rattle.oer_compare.specs.Difference.{at as spec_at, here as spec_here, inside as spec_inside};
ghost use Rattle.oer_compare.specs.Views.{part_of, seen};

use std::alloc::{AllocError, Global};

/// A part of a type.
#[derive(Clone, Copy)]
pub enum Part<'a> {
    /// The component of a SEQUENCE's root with this number, counted from 0, and this name.
    Component { index: usize, name: &'a str },
    /// The addition after a SEQUENCE's extension marker with this number, counted from 0, and this name.
    Addition { index: usize, name: &'a str },
    /// The element of a SEQUENCE OF.
    Element,
    /// The alternative of a CHOICE with this name.
    Alternative { name: &'a str },
}

/// What differs.
#[derive(Clone, Copy, Debug, PartialEq, Eq)]
pub enum Aspect {
    /// The kind of type.
    Kind,
    /// Only one of the types has an extension marker.
    Marker,
    /// The bounds of an INTEGER.
    Bounds,
    /// The size of a string or of a SEQUENCE OF.
    Size,
    /// The items of an ENUMERATED: one is missing or is another, or one follows without an extension
    /// marker.
    Items,
    /// The name of a component, an addition or an alternative.
    Name,
    /// The tag of an alternative.
    Tagging,
    /// Whether a component is OPTIONAL, or has a DEFAULT, or the value of that.
    Presence,
    /// The part isn't in the second type.
    Missing,
    /// The part is in the second type alone, and not after an extension marker.
    Extra,
}

/// What differs first between two types.
#[derive(Drop)]
pub struct Difference<'a> {
    /// The parts of the first type that lead to it, the outermost first. Where `aspect` is Extra the last
    /// of them is one of the second type.
    pub path: Vec<Part<'a>>,
    pub aspect: Aspect,
}

/// The difference of the types themselves.
pub(crate) fn here<'a>(alloc: Global, aspect: Aspect) -> Option<Difference<'a>>
    ensures { option_map seen result ≡ spec_here (Some aspect) }
{
    Some(Difference {
        path: Vec::new(alloc),
        aspect,
    })
}

/// The difference at a part.
pub(crate) fn at<'a>(
    alloc: Global,
    part: Part<'a>,
    aspect: Aspect,
) -> Result<Option<Difference<'a>>, AllocError>
    ensures { IfOk result (λ found. option_map seen found ≡ spec_at (part_of part.entry) aspect) }
{
    let path = vec![in alloc; part];
    Ok(Some(Difference {
        path: path?,
        aspect,
    }))
}

/// The difference inside a part, if there is one.
pub(crate) fn inside<'a>(
    part: Part<'a>,
    found: Option<Difference<'a>>,
) -> Result<Option<Difference<'a>>, AllocError>
    ensures { IfOk result (λ at. option_map seen at ≡ spec_inside (part_of part.entry) (option_map seen found.entry)) }
{
    match found {
        None => Ok(None),
        Some(difference) => {
            let mut path = difference.path;
            path.insert(0, part)?;
            Ok(Some(Difference {
                path,
                aspect: difference.aspect,
            }))
        }
    }
}
