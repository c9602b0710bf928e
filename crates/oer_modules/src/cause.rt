//! Why there is no text, and where in the modules that shows.
ghost use Rattle.std.specs.Prelude.{◌≡◌, Some};
ghost use Rattle.oer_module_syntax.specs.declared.fault.Why.TheVariants as fault;
ghost use Rattle.oer_module_values.specs.declared.error.Why.TheVariants as told;
ghost use Rattle.oer_module_text.specs.declared.error.Why.TheVariants.{Unresolved};

use oer_module_names::{NameError, Place};
use oer_module_text::{Error, Why};
use std::alloc::AllocError;

/// The reason that an allocation failed.
pub const MEMORY: Why<'static> = Why::Unresolved(oer_module_values::Why::Unread(
    oer_module_syntax::Why::Memory,
));

/// Why there is no text, and where in the modules that shows, unless it is all that was asked for.
#[derive(Clone, Copy)]
pub struct Cause<'n> {
    pub why: Why<'n>,
    pub place: Option<Place>,
}

impl<'n> From<NameError<'n>> for Cause<'n> {
    ghost from_gives = { λ e c. c ≡ record { why = Unresolved (told.Unnamed e); place = e.place } };

    fn from(error: NameError<'n>) -> Cause<'n> {
        Cause {
            why: Why::Unresolved(oer_module_values::Why::Unnamed(error)),
            place: error.place,
        }
    }
}

impl<'n> From<Error<'n>> for Cause<'n> {
    ghost from_gives = { λ e c. c ≡ record { why = e.why; place = Some e.place } };

    fn from(error: Error<'n>) -> Cause<'n> {
        Cause {
            why: error.why,
            place: Some(error.place),
        }
    }
}

impl<'n> From<AllocError> for Cause<'n> {
    ghost from_gives = { λ _ c. c.why ≡ Unresolved (told.Unread fault.Memory) };

    fn from(_: AllocError) -> Cause<'n> {
        Cause {
            why: MEMORY,
            place: None,
        }
    }
}
