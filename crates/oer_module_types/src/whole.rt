//! A type that stands in no other.
ghost use Rattle.std.specs.Prelude.{◌<◌, length};
ghost use Rattle.oer_module_names.specs.Views.{modules_in};
ghost use Rattle.oer_module_text.specs.Errors.{Gives};
ghost use Rattle.oer_module_values.specs.Views.{type_in};
ghost use Rattle.oer_module_types.specs.Types.{typed};
ghost use Rattle.oer_module_types.specs.Views.{typed_of};

use crate::types::{MOST_LEVELS, Scope, Typed, write_type};
use oer_module_names::Names;
use oer_module_text::{Error, Room};
use oer_module_values::TypeIn;
use std::alloc::Global;

/// A type and its text, with the types in it, up to a nesting: how often a SEQUENCE, CHOICE or SEQUENCE OF may stand in
/// itself, itself included.
///
/// # Errors
/// Those of `write_type`, with 32 levels and 4,096 parts.
#[tactic(auto, unfolding(crate::specs::Types::typed))]
pub fn typed<'m, 's, 't>(
    alloc: Global,
    names: &Names<'m, 's, 't>,
    nesting: u8,
    of: TypeIn<'m, 's, 't>,
) -> Result<Typed, Error<'t>>
    requires { of.«module» < length (modules_in names.now) }
    ensures { Gives typed_of result (typed (modules_in names.now) nesting (type_in of.entry)) }
{
    let scope = Scope {
        alloc,
        names,
        nesting,
    };
    let mut path = Vec::new(alloc);
    let mut room = Room::new(alloc);
    let shape = write_type(scope, MOST_LEVELS, &mut path, of, &mut room)?;
    Ok(Typed {
        text: room.text,
        shape,
    })
}
