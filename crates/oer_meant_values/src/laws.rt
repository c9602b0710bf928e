//! Each function does nothing but cite other laws; its contract is the law.
ghost use Rattle.oer_meant_values.specs.Laws.{DefaultsAreSound, ValuesAreSole};

use oer_meant_leaves::laws::{
    enumerations_are_sole, enumerations_are_sound, ranges_are_effective, ranges_are_sole,
};
use oer_module_tags::laws::tags_are_sole;
use oer_module_values::laws::types_are_sole;

/// The value found for tokens behind DEFAULT is the one that they are, by X.680, of the type before it.
pub fn defaults_are_sound()
    ensures { DefaultsAreSound }
{
    enumerations_are_sound();
    ranges_are_effective();
}

/// Tokens are one value of a type.
pub fn values_are_sole()
    ensures { ValuesAreSole }
{
    enumerations_are_sole();
    ranges_are_sole();
    tags_are_sole();
    types_are_sole();
}
