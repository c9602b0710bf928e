//! Types that stand for what modules write otherwise.
ghost use Rattle.std.specs.Prelude.{◌≡◌, IfOk};
ghost use Rattle.oer_model.specs.AsnType.{octet_string, sequence_of};
ghost use Rattle.oer_model.specs.Constraints.{any_size};
ghost use Rattle.oer_values.specs.ShapeView.{type_of};
ghost use Rattle.oer_module_types.specs.Levels.{end_type};

use oer_model::Size;
use oer_units::{Class, Tag};
use oer_values::{Alt, Shape};
use std::alloc::{AllocError, Global};

/// The octets of an open type, of which there may be any number.
pub fn open_shape() -> Shape
    ensures { type_of result ≡ octet_string any_size }
{
    Shape::OctetString(Size::any())
}

/// A list of any number of items.
pub fn list_shape(alloc: Global, item: Shape) -> Result<Shape, AllocError>
    ensures { IfOk result (λ s. type_of s ≡ sequence_of any_size (type_of item)) }
{
    Ok(Shape::SequenceOf {
        size: Size::any(),
        item: Box::new(alloc, item)?,
    })
}

/// The CHOICE that stands where nesting ends.
pub fn end_shape(alloc: Global) -> Result<Shape, AllocError>
    ensures { IfOk result (λ s. type_of s ≡ end_type) }
{
    let name = String::from_str(alloc, "too-deep")?;
    let tag = Tag {
        class: Class::Private,
        number: 4_294_967_295,
    };
    let mut root = Vec::new(alloc);
    root.push(Alt {
        name,
        tag,
        shape: Shape::Null,
    })?;
    Ok(Shape::Choice {
        root,
        additions: None,
    })
}
