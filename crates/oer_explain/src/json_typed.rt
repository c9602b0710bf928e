//! What is added to the error of JSON, by the text of its type.
ghost use Rattle.std.specs.Prelude.{◌≡◌, ℕ, IfOk, string_bytes};
ghost use Rattle.oer_notation.specs.Parsing.{parse_all};
ghost use Rattle.oer_explain.specs.Json.{notes_named, type_json_notes, types_json_notes};

use crate::json::json_notes;
use oer_notation::{TextWhy, parse_type, parse_types};
use std::alloc::{AllocError, Global};

/// What `json_notes` says by the type that a text spells; nothing where that text is rejected. It fails where an allocation does.
pub fn type_json_notes(alloc: Global, types: &str, octets: &[u8]) -> Result<String, AllocError>
    ensures { IfOk result (λ notes. (at : ℕ) × (string_bytes notes ≡ type_json_notes at types.now octets.now)) }
{
    match parse_type(alloc, types) {
        Ok(schema) => json_notes(alloc, &schema, octets),
        Err(fault) if fault.why == TextWhy::Memory => Err(AllocError),
        Err(_) => Ok(String::new(alloc)),
    }
}

// The same by the type that the Name has among definitions that are UTF-8.
fn notes_named(alloc: Global, types: &str, name: &str, octets: &[u8]) -> Result<String, AllocError>
    ensures { IfOk result (λ notes. (at : ℕ) × (string_bytes notes ≡ notes_named at (parse_all types.now) name.now octets.now)) }
{
    let types = match parse_types(alloc, types) {
        Ok(types) => types,
        Err(fault) if fault.why == TextWhy::Memory => return Err(AllocError),
        Err(_) => return Ok(String::new(alloc)),
    };
    match types.get(name) {
        Some(schema) => json_notes(alloc, schema, octets),
        None => Ok(String::new(alloc)),
    }
}

/// The same by the type that the Name has among the definitions of a text; nothing where that text is rejected or doesn't have the Name.
pub fn types_json_notes(
    alloc: Global,
    types: &[u8],
    name: &str,
    octets: &[u8],
) -> Result<String, AllocError>
    ensures { IfOk result (λ notes. (at : ℕ) × (string_bytes notes ≡ types_json_notes at types.now name.now octets.now)) }
{
    match str::from_utf8(types) {
        Ok(types) => notes_named(alloc, types, name, octets),
        Err(_) => Ok(String::new(alloc)),
    }
}
