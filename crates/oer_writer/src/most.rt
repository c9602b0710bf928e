//! At most how many octets the values of a type have. None where the type sets no bound, or where it isn't
//! looked for.
ghost use Rattle.std.specs.Prelude.{◌≡◌, ◌+◌, ◌*◌, IfSome};
ghost use Rattle.oer_model.specs.AsnType.{sequence};
ghost use Rattle.oer_values.specs.ShapeView.{fields_of, type_of};
ghost use Rattle.oer_writer.specs.TypeBounds.{FieldsHaveMost, HasMost, StringsHaveMost};

use oer_types::{Field, Shape, Size};

// So many more.
pub(crate) fn plus(done: u64, count: u64) -> Option<u64>
    ensures { IfSome result (λ n. n ≡ done + count) }
{
    done.checked_add(count)
}

// So many, each of them so often.
pub(crate) fn times(count: u64, each: u64) -> Option<u64>
    ensures { IfSome result (λ n. n ≡ count * each) }
{
    count.checked_mul(each)
}

// Of an OCTET STRING.
fn most_of_string(size: Size) -> Option<u64>
    ensures { StringsHaveMost size result }
{
    plus(size.high?, 9)
}

// Of any type.
#[cycle(most)]
#[tactic(auto, using(oer_leaves::proofs::Views::views))]
pub(crate) fn most(shape: &Shape) -> Option<u64>
    ensures { HasMost (type_of shape.now) result }
{
    match shape {
        Shape::Boolean => Some(1),
        Shape::Null => Some(0),
        Shape::Integer { .. } => Some(17),
        Shape::Enumerated { .. } => Some(17),
        Shape::OctetString(size) => most_of_string(*size),
        Shape::Sequence {
            root,
            additions: None,
        } => most_of_root(root),
        _ => None,
    }
}

// Of a SEQUENCE without an extension marker.
#[cycle(most)]
fn most_of_root(fields: &[Field]) -> Option<u64>
    ensures { HasMost (sequence (fields_of fields.now)) result }
{
    plus(most_of_fields(fields)?, fields.len() as u64 / 8 + 1)
}

// Of its components.
#[cycle(most)]
fn most_of_fields(fields: &[Field]) -> Option<u64>
    ensures { FieldsHaveMost (fields_of fields.now) result }
{
    let mut sum = 0;
    for field in fields {
        sum = plus(sum, most(&field.shape)?)?;
    }
    Some(sum)
}
