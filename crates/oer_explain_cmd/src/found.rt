//! The type that the options name.
ghost use Rattle.std.specs.Prelude.{◌≡◌, IfOk, None, option_map};
ghost use Rattle.oer_types.specs.Schema.{the_type};
ghost use Rattle.oer_notation.specs.Parsing.{parse, parse_all};
ghost use Rattle.oer_options.specs.Words.{texts_of};
ghost use Rattle.oer_explain_cmd.specs.Adding.{items_behind};
ghost use Rattle.oer_explain_cmd.specs.Found.{found_in, named_in, ok_in, type_by, type_in};

use oer_notation::{TextWhy, Types, parse_type, parse_types};
use oer_options::Options;
use oer_types::Schema;
use std::alloc::{AllocError, Global};

/// What the texts of the options name.
#[derive(Drop)]
pub enum Found<'a> {
    /// No type, or one that is rejected.
    Nothing,
    /// A type by itself.
    One(Schema),
    /// The type of a Name among definitions, if they have it.
    Named(Types, &'a str),
}

impl Found<'_> {
    /// The type, if there is one.
    pub fn schema(&self) -> Option<&Schema>
        ensures { option_map (λ s. the_type s.now) result ≡ found_in self.now }
    {
        match self {
            Found::Nothing => None,
            Found::One(schema) => Some(schema),
            Found::Named(types, name) => types.get(name),
        }
    }
}

// The type that a text spells.
fn one_found<'a>(alloc: Global, text: &str) -> Result<Found<'a>, AllocError>
    ensures { IfOk result (λ found. found_in found ≡ ok_in (parse text.now)) }
{
    match parse_type(alloc, text) {
        Ok(schema) => Ok(Found::One(schema)),
        Err(fault) if fault.why == TextWhy::Memory => Err(AllocError),
        Err(_) => Ok(Found::Nothing),
    }
}

// The type that the Name has among definitions that are UTF-8.
fn named_found<'a>(alloc: Global, text: &str, name: &'a str) -> Result<Found<'a>, AllocError>
    ensures { IfOk result (λ found. found_in found ≡ named_in (parse_all text.now) name.entry.now) }
{
    match parse_types(alloc, text) {
        Ok(types) => Ok(Found::Named(types, name)),
        Err(fault) if fault.why == TextWhy::Memory => Err(AllocError),
        Err(_) => Ok(Found::Nothing),
    }
}

// The type that the Name has among the definitions of a text.
fn types_found<'a>(alloc: Global, types: &[u8], name: &'a str) -> Result<Found<'a>, AllocError>
    ensures { IfOk result (λ found. found_in found ≡ type_in types.now name.entry.now) }
{
    match str::from_utf8(types) {
        Ok(text) => named_found(alloc, text, name),
        Err(_) => Ok(Found::Nothing),
    }
}

/// The type that the options name, where this text of definitions was held. It fails where an allocation does.
pub fn found_by<'a>(
    alloc: Global,
    options: Options<'a>,
    held: Option<&[u8]>,
) -> Result<Found<'a>, AllocError>
    ensures { IfOk result (λ found. found_in found ≡ type_by (texts_of options.entry) (items_behind held.entry)) }
{
    match (options.type_text, options.types, options.name) {
        (Some(text), None, None) => one_found(alloc, text),
        (None, Some(types), Some(name)) => match held {
            Some(text) => types_found(alloc, text, name),
            None => types_found(alloc, types.as_bytes(), name),
        },
        _ => Ok(Found::Nothing),
    }
}
