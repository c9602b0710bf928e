//! How often a type that contains itself is written out.
ghost use Rattle.std.specs.Prelude.{◌≡◌, ◌<◌, length};
ghost use Rattle.oer_module_names.specs.Views.{modules_in};
ghost use Rattle.oer_module_text.specs.Errors.{Gives, why_of};
ghost use Rattle.oer_module_types.specs.Views.{typed_of};
ghost use Rattle.oer_module_values.specs.Views.{type_in};
ghost use Rattle.oer_modules.specs.Nesting.{is_over, typed_by, usual};

use oer_module_names::Names;
use oer_module_text::{Error, Why};
use oer_module_types::{Typed, typed};
use oer_module_values::TypeIn;
use std::alloc::Global;

/// How often at most, where the caller doesn't say.
const MOST: u8 = 8;

/// Whether the text of a type is larger than it may be.
fn is_over(why: Why<'_>) -> bool
    ensures { result ≡ is_over (why_of why.entry) }
{
    match why {
        Why::TooDeep | Why::TooManyParts | Why::TooLong => true,
        _ => false,
    }
}

/// A type and its text, written out as often as it may be, from 8 times down to once.
#[tactic(auto, unfolding(crate::specs::Nesting::usual))]
fn usual<'m, 's, 't>(
    alloc: Global,
    names: &Names<'m, 's, 't>,
    of: TypeIn<'m, 's, 't>,
) -> Result<Typed, Error<'t>>
    requires { of.«module» < length (modules_in names.now) }
    ensures { Gives typed_of result (usual (modules_in names.now) (type_in of.entry)) }
{
    let mut nesting = MOST;
    while nesting > 1 {
        match typed(alloc, names, nesting, of) {
            Ok(found) => return Ok(found),
            Err(error) if is_over(error.why) => nesting -= 1,
            Err(error) => return Err(error),
        }
    }
    typed(alloc, names, 1, of)
}

/// A type and its text, written out so often where it contains itself; 0 stands for as often as it may be, from 8
/// times down to once.
pub fn typed_by<'m, 's, 't>(
    alloc: Global,
    names: &Names<'m, 's, 't>,
    nesting: u8,
    of: TypeIn<'m, 's, 't>,
) -> Result<Typed, Error<'t>>
    requires { of.«module» < length (modules_in names.now) }
    ensures { Gives typed_of result (typed_by (modules_in names.now) nesting (type_in of.entry)) }
{
    if nesting == 0 {
        return usual(alloc, names, of);
    }
    typed(alloc, names, nesting, of)
}
