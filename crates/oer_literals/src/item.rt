//! Items of an ENUMERATED, by name and by number.
ghost use Rattle.std.specs.Prelude.{◌≡◌, map, option_map};
ghost use Rattle.oer_values.specs.ShapeView.{named_number, type_of};
ghost use Rattle.oer_literals.specs.Items.{items_of, name_of, number_named};

use oer_types::{Item, Shape};

/// The items of an ENUMERATED; other types have none.
pub fn items_of(shape: &Shape) -> &[Item]
    ensures { map named_number result.now ≡ items_of (type_of shape.now) }
{
    match shape {
        Shape::Enumerated { items, .. } => items,
        Shape::Sequence { additions, .. } => match additions {
            Some(_) => &[],
            None => &[],
        },
        Shape::Choice { additions, .. } => match additions {
            Some(_) => &[],
            None => &[],
        },
        _ => &[],
    }
}

/// The number of the first item with the name.
pub fn number_named(items: &[Item], name: &str) -> Option<i64>
    ensures { result ≡ number_named (map named_number items.now) name.now }
{
    for item in items {
        if item.name.as_str() == name {
            return Some(item.number);
        }
    }
    None
}

/// The name of the first item with the number.
pub fn name_of(items: &[Item], number: i64) -> Option<&str>
    ensures { option_map (λ s. s.now) result ≡ name_of (map named_number items.now) number }
{
    for item in items {
        if item.number == number {
            return Some(item.name.as_str());
        }
    }
    None
}
