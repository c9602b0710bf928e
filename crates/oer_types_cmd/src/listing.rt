//! The text that `oer types` prints.
ghost use Rattle.std.specs.Prelude.{◌≡◌, ◌∷◌, ◌++◌, [], IfErr, IfOk, false, true, map, string_bytes};
ghost use Rattle.oer_module_cmd.specs.Input.{reads_input, text_or, with_input};
ghost use Rattle.oer_module_options.specs.Asked.{listing_of};
ghost use Rattle.oer_module_options.specs.Scan.{text_of};
ghost use Rattle.oer_printer.specs.Printing.{printed};
ghost use Rattle.oer_types.specs.Schema.{the_type};
ghost use Rattle.oer_types_cmd.specs.Answer.{Meets, all_lines, defined_line, defined_text, given_for, given_modules, given_types, one_line, printed_of, text_if};
ghost use Rattle.oer_types_cmd.specs.Asking.{texts_of};
ghost use Rattle.oer_types_cmd.specs.Ending.{GivesText, IsGiven, status_after};
ghost use Rattle.oer_types_cmd.specs.Stops.{stop_of};

use crate::names::name_lines;
use crate::stop::Stop;
use oer_cmd::Fault;
use oer_cmd::type_text::{definitions, named_type, types_on_input};
use oer_module_cmd::{Error, input_for, type_text, with_input};
use oer_module_options::{Listing, TypeAsked, is_input};
use oer_modules::definitions_of_modules;
use oer_text::{PrintFault, print_type};
use oer_types::Schema;
use std::alloc::Global;
use std::io::Read;

// All that the input has left, where the text of definitions is `-`, and else no text.
fn given_types<'a, R: Read>(alloc: Global, types: &str, input: &mut R) -> Result<String, Stop<'a>>
    ensures exact { Meets string_bytes (given_types types.now (R.remaining input.old)) result }
    ensures given { IfOk result (λ s. IsGiven (R.remaining input.old) (types.now ∷ []) (string_bytes s)) }
    ensures untouched { reads_input (types.now ∷ []) ≡ false → input.new ≡ input.old }
    ensures takes { reads_input (types.now ∷ []) ≡ true
        → GivesText (status_after result) (R.remaining input.old) (R.remaining input.new) }
{
    if !is_input(types) {
        return Ok(String::new(alloc));
    }
    match types_on_input(alloc, Some(types), input) {
        Ok(given) => Ok(given),
        Err(fault) => Err(Stop::Types(fault)),
    }
}

// The same of texts of modules.
fn given_modules<'a, R: Read>(
    alloc: Global,
    texts: &[&str],
    input: &mut R,
) -> Result<String, Stop<'a>>
    ensures exact { Meets string_bytes (given_modules (map text_of texts.now) (R.remaining input.old)) result }
    ensures given { IfOk result (λ s. IsGiven (R.remaining input.old) (map text_of texts.now) (string_bytes s)) }
    ensures untouched { reads_input (map text_of texts.now) ≡ false → input.new ≡ input.old }
    ensures takes { reads_input (map text_of texts.now) ≡ true
        → GivesText (status_after result) (R.remaining input.old) (R.remaining input.new) }
{
    match input_for(alloc, texts, input) {
        Ok(given) => Ok(given),
        Err(error) => Err(Stop::Modules(error)),
    }
}

/// All that the input has left, where a text that is asked for is `-`, and else no text. `texts` are those of modules.
///
/// # Errors
/// The text isn't UTF-8, a read fails, or an allocation; of definitions too, if there are 2^64 octets or more.
pub fn given_text<'a, R: Read>(
    alloc: Global,
    texts: &[&str],
    listing: Listing<'_>,
    input: &mut R,
) -> Result<String, Stop<'a>>
    ensures exact { Meets string_bytes (given_for (listing_of listing.entry) (map text_of texts.now) (R.remaining input.old)) result }
    ensures given { IfOk result (λ s. IsGiven (R.remaining input.old) (texts_of (listing_of listing.entry) (map text_of texts.now))
        (string_bytes s)) }
    ensures untouched { reads_input (texts_of (listing_of listing.entry) (map text_of texts.now)) ≡ false → input.new ≡ input.old }
    ensures takes { reads_input (texts_of (listing_of listing.entry) (map text_of texts.now)) ≡ true
        → GivesText (status_after result) (R.remaining input.old) (R.remaining input.new) }
{
    match listing {
        Listing::Defined { types, .. } => given_types(alloc, types, input),
        Listing::One { .. } => given_modules(alloc, texts, input),
        Listing::All { .. } => given_modules(alloc, texts, input),
        Listing::Names { .. } => given_modules(alloc, texts, input),
    }
}

// The text of definitions, which for `-` is the given one.
fn text_or<'a>(given: &'a str, types: &'a str) -> &'a str
    ensures { result.now ≡ text_or given.entry.now types.entry.now }
{
    if is_input(types) { given } else { types }
}

// The text of a type.
fn printed_text<'a>(alloc: Global, schema: &Schema) -> Result<String, Stop<'a>>
    ensures { Meets string_bytes (text_if (printed (the_type schema.now))) result }
{
    match print_type(alloc, schema) {
        Ok(text) => Ok(text),
        Err(PrintFault::Memory) => Err(Stop::Types(Fault::Memory)),
        Err(PrintFault::NoNotation) => Err(Stop::NoNotation),
    }
}

// The text of the type that a Name has among definitions.
fn defined_text<'a>(alloc: Global, types: &str, name: &'a str) -> Result<String, Stop<'a>>
    ensures { Meets string_bytes (defined_text types.now name.now) result }
{
    let types = match definitions(alloc, types) {
        Ok(types) => types,
        Err(fault) => return Err(Stop::Types(fault)),
    };
    let schema = match named_type(&types, name) {
        Ok(schema) => schema,
        Err(fault) => return Err(Stop::Types(fault)),
    };
    printed_text(alloc, schema)
}

// A line feed behind the text of one type.
fn line<'a>(text: String) -> Result<String, Stop<'a>>
    ensures made { IfOk result (λ s. string_bytes s ≡ string_bytes text ++ 10 ∷ []) }
    ensures failed { IfErr result (λ stop. (stop_of stop).status ≡ 3) }
{
    let mut line = text;
    match line.push('\n') {
        Ok(()) => Ok(line),
        Err(_) => Err(Stop::Modules(Error::Memory)),
    }
}

// A line with the type that a Name has among definitions.
fn defined_line<'a>(alloc: Global, types: &str, name: &'a str) -> Result<String, Stop<'a>>
    ensures { Meets string_bytes (defined_line types.now name.now) result }
{
    match defined_text(alloc, types, name) {
        Ok(text) => line(text),
        Err(stop) => Err(stop),
    }
}

// A line with the type that a Name has in modules.
fn one_line<'a>(
    alloc: Global,
    texts: &[&'a str],
    given: &'a str,
    asked: TypeAsked<'a>,
) -> Result<String, Stop<'a>>
    ensures { Meets string_bytes (one_line (with_input given.entry.now (map text_of texts.now)) asked.entry.name.now asked.entry.nesting)
        result }
{
    match type_text(alloc, texts, given, asked) {
        Ok(text) => line(text),
        Err(error) => Err(Stop::Modules(error)),
    }
}

// The definitions of all types of modules.
fn all_lines<'a>(
    alloc: Global,
    texts: &[&'a str],
    given: &'a str,
    nesting: u8,
) -> Result<String, Stop<'a>>
    ensures { Meets string_bytes (all_lines (with_input given.entry.now (map text_of texts.now)) nesting) result }
{
    let Ok(texts) = with_input(alloc, given, texts) else {
        return Err(Stop::Modules(Error::Memory));
    };
    match definitions_of_modules(alloc, &texts, nesting) {
        Ok(text) => Ok(text),
        Err(refusal) => Err(Stop::Modules(Error::from(refusal))),
    }
}

/// The text that is printed, where `texts` are those of modules and `given` is the text on standard input: of one type on a
/// line, or of all types of modules, a line for each, or their Names.
///
/// # Errors
/// Types, if the definitions are rejected or none has the Name; Modules, if the modules give no text, or if an allocation
/// fails; NoNotation, if a default has no text.
pub fn listing_text<'a>(
    alloc: Global,
    texts: &[&'a str],
    given: &'a str,
    listing: Listing<'a>,
) -> Result<String, Stop<'a>>
    ensures { Meets string_bytes (printed_of (listing_of listing.entry) (map text_of texts.now) given.entry.now) result }
{
    match listing {
        Listing::Defined { types, name } => defined_line(alloc, text_or(given, types), name),
        Listing::One { name, nesting } => {
            one_line(alloc, texts, given, TypeAsked { name, nesting })
        }
        Listing::All { nesting } => all_lines(alloc, texts, given, nesting),
        Listing::Names { nesting } => name_lines(alloc, texts, given, nesting),
    }
}
