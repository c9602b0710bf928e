//! The text of a type, and that it is read as the same type.
ghost use Rattle.std.specs.Prelude.{◌≡◌, ◌↔◌, IfOk, Ok, Err, Some, None, string_bytes};
ghost use Rattle.oer_types.specs.Schema.{the_type};
ghost use Rattle.oer_notation.specs.Parsing.{parse};
ghost use Rattle.oer_printer.specs.Printing.{printed};
ghost use Rattle.oer_printer.specs.declared.fault.PrintFault.TheVariants.{NoNotation};

use crate::laws;
use oer_printer::PrintFault;
use oer_types::Schema;
use std::alloc::Global;

/// The text of a type in the notation, on one line: every number of an item and every tag is in it, and
/// no Name. It fails with `NoNotation` if a default is of constructed type, is an enumeration number that
/// no item has, or is a text with a character below U+0020; nothing was allocated then. It fails with
/// `Memory` if an allocation fails. `parse_type` reads what was printed as the same type.
pub fn print_type(alloc: Global, schema: &Schema) -> Result<String, PrintFault>
    ensures text { IfOk result (λ s. printed (the_type schema.now) ≡ Some (string_bytes s)) }
    ensures again { IfOk result (λ s. parse (string_bytes s) ≡ Ok (the_type schema.now)) }
    ensures none { result ≡ Err NoNotation ↔ printed (the_type schema.now) ≡ None }
{
    laws::printing();
    // The law of the type that a `Schema` has: it is well-formed.
    let _shape = schema.shape();
    oer_printer::print_type(alloc, schema)
}
