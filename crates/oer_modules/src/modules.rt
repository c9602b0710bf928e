//! The text of a type of modules, and of all their definitions.
ghost use Rattle.std.specs.Prelude.{map, string_bytes};
ghost use Rattle.oer_modules.specs.Modules.{IsListed, definitions_of_modules, type_of_modules};
ghost use Rattle.oer_modules.specs.Refusals.{Gives};

use crate::listing::{Listing, Sources, named_text};
use crate::marks::mark_each;
use crate::refusal::{Refusal, refuse, unreadable};
use crate::texts::{lex_each, read_each};
use oer_module_names::Names;
use std::alloc::Global;

/// The text, in our notation, of the type that the name has in these texts of modules (X.680). `Module.Name` is what the
/// Name stands for in that module; a Name alone is the one assignment of it in all modules. Each text is read by itself,
/// and holds one module or more.
///
/// A type that contains itself is written out so often, one in the other, as `nesting` says; where it would stand once
/// more, there is `CHOICE {too-deep [PRIVATE 4294967295] NULL}`. 0 stands for the largest number from 8 down to 1 by
/// which the text has no more than 32 levels, 4,096 parts and 1,048,576 octets.
///
/// # Errors
/// The first fault of the first text that can't be read; else why the Name stands for no type; else the first part of
/// the type that has no text. Memory, if an allocation fails: the reason is then Unresolved, Unread, Memory.
pub fn type_of_modules<'t>(
    alloc: Global,
    texts: &[&'t str],
    name: &'t str,
    nesting: u8,
) -> Result<String, Refusal<'t>>
    ensures { Gives string_bytes result (type_of_modules (map (λ t. t.now) texts.now) name.now nesting) }
{
    let tokens = lex_each(alloc, texts)?;
    let library = match read_each(alloc, &tokens) {
        Ok(library) => library,
        Err(error) => return Err(unreadable(texts, &tokens, error)),
    };
    let names = Names::new(alloc, &library.modules)?;
    match named_text(alloc, &names, name, nesting) {
        Ok(text) => Ok(text),
        Err(cause) => Err(refuse(texts, &tokens, &[], &library, cause)),
    }
}

/// The text of all definitions of these modules that are well-formed types and have a text, `Name ::= type` on a line
/// each, in the order written, by what `type_of_modules` gives for the Name alone. Behind them stand the others, as
/// comments on a line each: `-- Name: text 1, line 12, column 5: SET isn't taken`. Where `parse_type` rejects the text,
/// the place is that of the Name, and the reason ends with the name of the `TextWhy`:
/// `-- Name: text 1, line 12, column 5: the type is rejected: EmptyElement`.
///
/// # Errors
/// The first fault of the first text that can't be read; Memory, if an allocation fails.
pub fn definitions_of_modules<'t>(
    alloc: Global,
    texts: &[&'t str],
    nesting: u8,
) -> Result<String, Refusal<'t>>
    ensures { IsListed result (definitions_of_modules (map (λ t. t.now) texts.now) nesting) }
{
    let tokens = lex_each(alloc, texts)?;
    let library = match read_each(alloc, &tokens) {
        Ok(library) => library,
        Err(error) => return Err(unreadable(texts, &tokens, error)),
    };
    let names = Names::new(alloc, &library.modules)?;
    let marks = mark_each(alloc, texts)?;
    let read = tokens.as_slice();
    let marked = marks.as_slice();
    let sources = Sources {
        texts,
        tokens: read,
        marks: marked,
        library: &library,
        names: &names,
        nesting,
    };
    let mut listing = Listing::new(alloc);
    let modules = names.modules();
    listing.add_modules(alloc, sources, modules)?;
    let text = listing.end()?;
    Ok(text)
}
