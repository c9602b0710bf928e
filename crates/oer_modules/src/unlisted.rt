//! Whether the text of a type stands for it.
ghost use Rattle.std.specs.Prelude.{◌≡◌, IfOk, option_map, string_bytes};
ghost use Rattle.oer_notation.specs.Parsing.{parse};
ghost use Rattle.oer_printer.specs.Printing.{printed};
ghost use Rattle.oer_types.specs.Schema.{the_type};
ghost use Rattle.oer_values.specs.ShapeView.{type_of};
ghost use Rattle.oer_modules.specs.Unlisted.{are_alike, unlisted_in};

use oer_text::{PrintFault, TextWhy, parse_type, print_type};
use oer_types::Schema;
use oer_types::laws::first_fault;
use oer_values::Shape;
use std::alloc::{AllocError, Global};

/// Why a definition has no line, though its type has a text.
#[derive(Clone, Copy)]
pub enum Unlisted {
    /// The type isn't well-formed.
    Rejected(TextWhy),
    /// `parse_type` rejects the text, or reads it as another type.
    Unspelled,
}

/// What is printed of a type, if the notation has it.
fn printed(alloc: Global, schema: &Schema) -> Result<Option<String>, AllocError>
    ensures { IfOk result (λ found. option_map string_bytes found ≡ printed (the_type schema.now)) }
{
    match print_type(alloc, schema) {
        Ok(text) => Ok(Some(text)),
        Err(PrintFault::NoNotation) => Ok(None),
        Err(PrintFault::Memory) => Err(AllocError),
    }
}

/// Whether both types are printed, and alike.
fn are_alike(alloc: Global, one: &Schema, other: &Schema) -> Result<bool, AllocError>
    ensures { IfOk result (λ alike. alike ≡ are_alike (printed (the_type one.now)) (printed (the_type other.now))) }
{
    let Some(one) = printed(alloc, one)? else {
        return Ok(false);
    };
    let Some(other) = printed(alloc, other)? else {
        return Ok(false);
    };
    Ok(one == other)
}

/// Why a definition of this type and this text has no line, if it has none.
pub fn unlisted_in(alloc: Global, shape: Shape, text: &str) -> Result<Option<Unlisted>, AllocError>
    ensures { IfOk result (λ found. found ≡ unlisted_in (type_of shape) (parse text.now)) }
{
    first_fault();
    let schema = match Schema::new(shape) {
        Ok(schema) => schema,
        Err((fault, _)) => return Ok(Some(Unlisted::Rejected(TextWhy::Schema(fault)))),
    };
    let read = match parse_type(alloc, text) {
        Ok(read) => read,
        Err(fault) => match fault.why {
            TextWhy::Memory => return Err(AllocError),
            _ => return Ok(Some(Unlisted::Unspelled)),
        },
    };
    if are_alike(alloc, &schema, &read)? {
        return Ok(None);
    }
    Ok(Some(Unlisted::Unspelled))
}
