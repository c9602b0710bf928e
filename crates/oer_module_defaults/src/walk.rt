//! From the name of a value to the value.
ghost use Rattle.std.specs.Prelude.{◌<◌, IfOk, length};
ghost use Rattle.oer_module_names.specs.Views.{modules_in};
ghost use Rattle.oer_module_text.specs.Errors.{Gives};
ghost use Rattle.oer_module_defaults.specs.Walks.{walk};
ghost use Rattle.oer_module_defaults.specs.Views.{IsLiteralWithin, IsSourceWithin, literal_of, source_of};

use crate::governor::Governor;
use crate::step::{Outcome, Source, source_place, step};
use oer_module_names::{Names, Place};
use oer_module_terms::Value;
use oer_module_text::{Error, Why};
use oer_module_values::MOST_STEPS;
use std::alloc::Global;

/// A value that is no reference, where it stands, and what governs it there.
#[derive(Drop)]
pub struct Literal<'m, 's, 't> {
    pub place: Place,
    pub governor: Governor<'m, 's, 't>,
    pub value: Value<'s, 't>,
}

/// The value to which tokens come, in so many steps as a way may have.
pub fn literal_in<'m, 's, 't>(
    alloc: Global,
    names: &Names<'m, 's, 't>,
    source: Source<'m, 's, 't>,
) -> Result<Literal<'m, 's, 't>, Error<'t>>
    requires { IsSourceWithin (modules_in names.now) source }
    ensures value { Gives literal_of result (walk (modules_in names.now) 255 (source_of source.entry)) }
    ensures within { IfOk result (IsLiteralWithin (modules_in names.now)) }
{
    let mut here = source;
    'steps: for turn in 0..MOST_STEPS {
        match step(alloc, names, here)? {
            Outcome::Reached(value) => {
                return Ok(Literal {
                    place: source_place(here),
                    governor: here.governor,
                    value,
                });
            }
            Outcome::Goes(next) => here = next,
        }
    }
    Err(Error {
        place: source_place(here),
        why: Why::Unresolved(oer_module_values::Why::Circular),
    })
}
