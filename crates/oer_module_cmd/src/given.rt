//! The type that the options of modules ask for, and the words without these.
ghost use Rattle.std.specs.Prelude.{◌≡◌, ◌∷◌, List, ℕ, IfOk, false, map, option_map, string_bytes};
ghost use Rattle.oer_module_options.specs.Asked.{asked_of};
ghost use Rattle.oer_module_options.specs.Scan.{item_of, scan_of, text_of};
ghost use Rattle.oer_modules.specs.Modules.{type_of_modules};
ghost use Rattle.oer_modules.specs.Schemas.{schema_of_modules};
ghost use Rattle.oer_types.specs.Schema.{the_type};
ghost use Rattle.oer_module_cmd.specs.Errors.{Gives};
ghost use Rattle.oer_module_cmd.specs.Given.{Ends, asks_input, by_modules, by_types, given, given_by, given_of, kept_words, reads_by, words_of};
ghost use Rattle.oer_module_cmd.specs.Input.{MayBeLeft, with_input};

use crate::error::{Error, report};
use crate::input::{input_for, with_input};
use oer_module_options::{Command, Item, Scan, TypeAsked, asked, scanned};
use oer_modules::{schema_of_modules, type_of_modules};
use oer_types::Schema;
use std::alloc::{AllocError, Global};
use std::io::{Read, Write};

/// The text of the type that is asked for, where `given` is the text on standard input.
pub fn type_text<'a>(
    alloc: Global,
    texts: &[&'a str],
    given: &'a str,
    asked: TypeAsked<'a>,
) -> Result<String, Error<'a>>
    ensures { Gives string_bytes result (by_modules (type_of_modules (with_input given.entry.now (map text_of texts.now))
        (asked_of asked.entry).name asked.entry.nesting)) }
{
    let texts = with_input(alloc, given, texts)?;
    match type_of_modules(alloc, &texts, asked.name, asked.nesting) {
        Ok(text) => Ok(text),
        Err(refusal) => Err(Error::from(refusal)),
    }
}

// The type that is asked for, where `given` is the text on standard input.
fn type_asked<'a>(
    alloc: Global,
    texts: &[&'a str],
    given: &'a str,
    asked: TypeAsked<'a>,
) -> Result<Schema, Error<'a>>
    ensures { Gives the_type result (by_types (schema_of_modules (with_input given.entry.now (map text_of texts.now))
        (asked_of asked.entry).name asked.entry.nesting)) }
{
    let texts = with_input(alloc, given, texts)?;
    match schema_of_modules(alloc, &texts, asked.name, asked.nesting) {
        Ok(schema) => Ok(schema),
        Err(none) => Err(Error::from(none)),
    }
}

/// A type, and the words that stay, the program's name first.
#[derive(Drop)]
pub struct TypeAndWords {
    pub schema: Schema,
    pub words: Vec<String>,
}

// The program's name, and the words that stay.
fn kept_words(alloc: Global, program: &str, kept: &[Item<'_>]) -> Result<Vec<String>, AllocError>
    ensures { IfOk result (λ words. words_of words ≡ program.now ∷ kept_words (map item_of kept.now)) }
{
    let mut words = Vec::new(alloc);
    words.push(String::from_str(alloc, program)?)?;
    for item in kept {
        if let Item::Word(word) = item {
            words.push(String::from_str(alloc, word)?)?;
        }
    }
    Ok(words)
}

// The same of a scan that has modules.
fn given_by<R: Read, E: Write>(
    alloc: Global,
    program: &str,
    scan: &Scan<'_>,
    input: &mut R,
    errors: &mut E,
) -> Result<TypeAndWords, u8>
    ensures exact { (xs : List ℕ) × MayBeLeft (R.remaining input.old) xs
        × Ends given_of result (given_by program.now (scan_of scan.now) xs) (E.contents errors.old) (E.contents errors.new) }
    ensures untouched { reads_by (scan_of scan.now) ≡ false → input.new ≡ input.old }
{
    let asked = match asked(scan) {
        Ok(asked) => asked,
        Err(error) => return Err(report(alloc, Error::Options(error), errors)),
    };
    let given = match input_for(alloc, &scan.modules, input) {
        Ok(given) => given,
        Err(error) => return Err(report(alloc, error, errors)),
    };
    let schema = match type_asked(alloc, &scan.modules, given.as_str(), asked) {
        Ok(schema) => schema,
        Err(error) => return Err(report(alloc, error, errors)),
    };
    match kept_words(alloc, program, &scan.kept) {
        Ok(words) => Ok(TypeAndWords { schema, words }),
        Err(_) => Err(report(alloc, Error::Memory, errors)),
    }
}

/// The type that the options of modules among the words ask for, and the words without these, the program's name first; none
/// where there is no `--modules`. The type is what `--name` stands for in the texts of `--modules`; `-` is the text that the
/// input has left.
///
/// # Errors
/// An error is told of in one line on `errors`, and its status is returned: 2 where the options are at fault, or where the
/// modules give no type; 3 where a read or an allocation failed.
pub fn type_given<R: Read, E: Write>(
    alloc: Global,
    command: Command,
    words: &[String],
    input: &mut R,
    errors: &mut E,
) -> Result<Option<TypeAndWords>, u8>
    ensures exact { (xs : List ℕ) × MayBeLeft (R.remaining input.old) xs
        × Ends (option_map given_of) result (given command (map string_bytes words.now) xs)
        (E.contents errors.old) (E.contents errors.new) }
    ensures untouched { asks_input command (map string_bytes words.now) ≡ false → input.new ≡ input.old }
{
    let Some((program, rest)) = words.split_first() else {
        return Ok(None);
    };
    let Ok(scan) = scanned(alloc, command, rest) else {
        return Err(report(alloc, Error::Memory, errors));
    };
    if !scan.has_modules {
        return Ok(None);
    }
    match given_by(alloc, program.as_str(), &scan, input, errors) {
        Ok(given) => Ok(Some(given)),
        Err(status) => Err(status),
    }
}
