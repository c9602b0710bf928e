//! The Names of the types of modules.
ghost use Rattle.std.specs.Prelude.{◌≡◌, IfOk, map, string_bytes};
ghost use Rattle.oer_module_cmd.specs.Input.{with_input};
ghost use Rattle.oer_module_options.specs.Scan.{text_of};
ghost use Rattle.oer_notation.specs.Defining.{known_of};
ghost use Rattle.oer_types_cmd.specs.Answer.{Meets, name_lines};
ghost use Rattle.oer_types_cmd.specs.Names.{names_text};

use crate::stop::Stop;
use oer_module_cmd::{Error, with_input};
use oer_modules::types_of_modules;
use oer_notation::Definition;
use std::alloc::{AllocError, Global};

// A line for each definition, with its Name.
fn names_text(alloc: Global, definitions: &[Definition]) -> Result<String, AllocError>
    ensures { IfOk result (λ s. string_bytes s ≡ names_text (map known_of definitions.now)) }
{
    let mut text = String::new(alloc);
    for definition in definitions {
        text.push_str(definition.name.as_str())?;
        text.push('\n')?;
    }
    Ok(text)
}

/// A line for each Name to which the modules give a well-formed type, where `given` is the text on standard input: in the order
/// written, with types that contain themselves written out as `nesting` says.
///
/// # Errors
/// Modules, if a text can't be read, or if an allocation fails.
pub fn name_lines<'a>(
    alloc: Global,
    texts: &[&'a str],
    given: &'a str,
    nesting: u8,
) -> Result<String, Stop<'a>>
    ensures { Meets string_bytes (name_lines (with_input given.entry.now (map text_of texts.now)) nesting) result }
{
    let Ok(texts) = with_input(alloc, given, texts) else {
        return Err(Stop::Modules(Error::Memory));
    };
    let definitions = match types_of_modules(alloc, &texts, nesting) {
        Ok(definitions) => definitions,
        Err(refusal) => return Err(Stop::Modules(Error::from(refusal))),
    };
    match names_text(alloc, &definitions) {
        Ok(text) => Ok(text),
        Err(_) => Err(Stop::Modules(Error::Memory)),
    }
}
