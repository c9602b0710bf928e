//! The well-formed types that modules give their Names.
ghost use Rattle.std.specs.Prelude.{◌≡◌, [], IfOk, OnOk, map};
ghost use Rattle.oer_model.specs.FaultTest.{first_fault as spec_first_fault};
ghost use Rattle.oer_module_names.specs.Views.{modules_in};
ghost use Rattle.oer_module_syntax.specs.Tree.{assignment_of, module_of};
ghost use Rattle.oer_notation.specs.Defining.{known_of};
ghost use Rattle.oer_values.specs.ShapeView.{type_of};
ghost use Rattle.oer_modules.specs.Defined.{types_of_modules, with_definition, with_definitions, with_each, with_sound};
ghost use Rattle.oer_modules.specs.Refusals.{Gives};

use crate::listing::{is_memory, named_type};
use crate::refusal::{Refusal, unreadable};
use crate::texts::{lex_each, read_each};
use oer_module_names::Names;
use oer_module_syntax::{Assignment, Body, Module};
use oer_notation::Definition;
use oer_types::Schema;
use oer_types::laws::first_fault;
use oer_values::Shape;
use std::alloc::{AllocError, Global};

/// A definition more, if its type is well-formed.
fn add_sound(
    alloc: Global,
    found: &mut Vec<Definition>,
    name: &str,
    shape: Shape,
) -> Result<(), AllocError>
    ensures { OnOk result (map known_of found.new.items ≡ with_sound (map known_of found.old.items) name.now (type_of shape)
        (spec_first_fault (type_of shape))) }
{
    first_fault();
    let Ok(schema) = Schema::new(shape) else {
        return Ok(());
    };
    let name = String::from_str(alloc, name)?;
    found.push(Definition { name, schema })?;
    Ok(())
}

/// A definition more, if this is one of a well-formed type.
fn add<'t>(
    alloc: Global,
    found: &mut Vec<Definition>,
    names: &Names<'_, '_, 't>,
    nesting: u8,
    assignment: &Assignment<'_, 't>,
) -> Result<(), AllocError>
    ensures { OnOk result (map known_of found.new.items
        ≡ with_definition (modules_in names.now) nesting (map known_of found.old.items) (assignment_of «assignment».now)) }
{
    let Body::Type(_) = &assignment.body else {
        return Ok(());
    };
    match named_type(alloc, names, assignment.name, nesting) {
        Ok(typed) => add_sound(alloc, found, assignment.name, typed.shape),
        Err(cause) if is_memory(cause.why) => Err(AllocError),
        Err(_) => Ok(()),
    }
}

/// The definitions of a module.
fn add_module<'t>(
    alloc: Global,
    found: &mut Vec<Definition>,
    names: &Names<'_, '_, 't>,
    nesting: u8,
    module: &Module<'_, 't>,
) -> Result<(), AllocError>
    ensures { OnOk result (map known_of found.new.items
        ≡ with_definitions (modules_in names.now) nesting (map known_of found.old.items) (module_of «module».now).assignments) }
{
    for assignment in module.assignments.iter() {
        add(alloc, found, names, nesting, assignment)?;
    }
    Ok(())
}

/// The definitions of all modules.
fn of_each<'t>(
    alloc: Global,
    names: &Names<'_, '_, 't>,
    nesting: u8,
    modules: &[Module<'_, 't>],
) -> Result<Vec<Definition>, AllocError>
    ensures { IfOk result (λ found. map known_of found.items ≡ with_each (modules_in names.now) nesting [] (map module_of modules.now)) }
{
    let mut found = Vec::new(alloc);
    for module in modules {
        add_module(alloc, &mut found, names, nesting, module)?;
    }
    Ok(found)
}

/// The well-formed types that these texts of modules (X.680) give their Names, in the order written: by what
/// `schema_of_modules` gives for the Name alone. A definition for which it gives none is left out.
///
/// # Errors
/// The first fault of the first text that can't be read; Memory, if an allocation fails.
pub fn types_of_modules<'t>(
    alloc: Global,
    texts: &[&'t str],
    nesting: u8,
) -> Result<Vec<Definition>, Refusal<'t>>
    ensures { Gives (λ found. map known_of found.items) result (types_of_modules (map (λ t. t.now) texts.now) nesting) }
{
    let tokens = lex_each(alloc, texts)?;
    let library = match read_each(alloc, &tokens) {
        Ok(library) => library,
        Err(error) => return Err(unreadable(texts, &tokens, error)),
    };
    let names = Names::new(alloc, &library.modules)?;
    let modules = names.modules();
    let found = of_each(alloc, &names, nesting, modules)?;
    Ok(found)
}
