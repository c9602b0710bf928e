//! Each function does nothing but cite other laws; its contract is the law.
ghost use Rattle.oer_meant_types.specs.Laws.{TypesAreSole, TypesAreSound};

use oer_meant_leaves::laws::{leaves_are_sole, leaves_are_sound};
use oer_meant_values::laws::{defaults_are_sound, values_are_sole};
use oer_module_tags::laws::{alternatives_are_sound, tags_are_sole};
use oer_module_values::laws::{types_are_sole, types_are_sound};

/// The type that is found for a type of a module is the one that it is by X.680, without the sizes of lists, which change no octet.
pub fn what_is_found_is_meant()
    ensures { TypesAreSound }
{
    leaves_are_sound();
    defaults_are_sound();
    types_are_sound();
    alternatives_are_sound();
}

/// A type of a module is one type by X.680, where types stand in themselves so often.
pub fn types_are_one()
    ensures { TypesAreSole }
{
    types_are_sole();
    leaves_are_sole();
    values_are_sole();
    tags_are_sole();
}
