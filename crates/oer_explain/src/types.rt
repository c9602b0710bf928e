//! What is added to the error of a text of types.
ghost use Rattle.std.specs.Prelude.{◌≡◌, IfOk, string_bytes};
ghost use Rattle.oer_notation.specs.Parsing.{parse_all};
ghost use Rattle.oer_explain.specs.Types.{defines, definitions_notes, fault_notes, have, is_type, type_notes, types_notes};

use crate::hints::hint_of;
use crate::place::notes_at;
use crate::reasons::text_sentence;
use oer_notation::{TextFault, TextWhy, parse_type, parse_types};
use std::alloc::{AllocError, Global};

// What is added where this error is that of the text: its place, the line of it, what the reason means there, and what may help.
fn fault_notes(alloc: Global, fault: TextFault, text: &[u8]) -> Result<String, AllocError>
    ensures { IfOk result (λ notes. string_bytes notes ≡ fault_notes fault text.now) }
{
    let at = fault.at.min(text.len());
    let hint = hint_of(alloc, fault.why, text, at)?;
    notes_at(alloc, text, at, text_sentence(fault.why), hint.as_str())
}

/// What is added where the text of one type is rejected; nothing where it isn't. It fails where an allocation does.
pub fn type_notes(alloc: Global, text: &str) -> Result<String, AllocError>
    ensures { IfOk result (λ notes. string_bytes notes ≡ type_notes text.now) }
{
    match parse_type(alloc, text) {
        Ok(_) => Ok(String::new(alloc)),
        Err(fault) if fault.why == TextWhy::Memory => Err(AllocError),
        Err(fault) => fault_notes(alloc, fault, text.as_bytes()),
    }
}

// The same of definitions that are UTF-8.
fn definitions_notes(alloc: Global, text: &str) -> Result<String, AllocError>
    ensures { IfOk result (λ notes. string_bytes notes ≡ definitions_notes text.now) }
{
    match parse_types(alloc, text) {
        Ok(_) => Ok(String::new(alloc)),
        Err(fault) if fault.why == TextWhy::Memory => Err(AllocError),
        Err(fault) => fault_notes(alloc, fault, text.as_bytes()),
    }
}

/// What is added where the text of definitions is rejected; nothing where it isn't. Octets that are no UTF-8 are rejected where they cease to
/// be. It fails where an allocation does.
pub fn types_notes(alloc: Global, octets: &[u8]) -> Result<String, AllocError>
    ensures { IfOk result (λ notes. string_bytes notes ≡ types_notes octets.now) }
{
    match str::from_utf8(octets) {
        Ok(text) => definitions_notes(alloc, text),
        Err(error) => fault_notes(
            alloc,
            TextFault {
                at: error.valid_up_to(),
                why: TextWhy::Token,
            },
            octets,
        ),
    }
}

/// Whether the text of one type is accepted. It fails where an allocation does.
pub fn is_type(alloc: Global, text: &str) -> Result<bool, AllocError>
    ensures { IfOk result (λ found. found ≡ is_type text.now) }
{
    let Err(fault) = parse_type(alloc, text) else {
        return Ok(true);
    };
    if fault.why == TextWhy::Memory {
        return Err(AllocError);
    }
    Ok(false)
}

// Whether definitions that are UTF-8 are accepted and have the Name.
fn definitions_have(alloc: Global, text: &str, name: &str) -> Result<bool, AllocError>
    ensures { IfOk result (λ found. found ≡ have (parse_all text.now) name.now) }
{
    match parse_types(alloc, text) {
        Ok(types) => Ok(types.get(name).is_some()),
        Err(fault) if fault.why == TextWhy::Memory => Err(AllocError),
        Err(_) => Ok(false),
    }
}

/// Whether the text of definitions is accepted, and one of them has the Name. It fails where an allocation does.
pub fn defines(alloc: Global, octets: &[u8], name: &str) -> Result<bool, AllocError>
    ensures { IfOk result (λ found. found ≡ defines octets.now name.now) }
{
    match str::from_utf8(octets) {
        Ok(text) => definitions_have(alloc, text, name),
        Err(_) => Ok(false),
    }
}
