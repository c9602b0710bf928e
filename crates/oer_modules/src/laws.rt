//! What holds of texts of modules. Each function does nothing; its contract is the law.
ghost use Rattle.oer_modules.specs.Defined.{GivesTypes};
ghost use Rattle.oer_modules.specs.Laws.{PrintsDefinitions};

use oer_module_names::laws::finds_the_only_assignment;
use oer_text::laws::{printing, what_is_parsed_is_spelled};

/// Each line that `definitions_of_modules` writes before the comments is `Name ::= type`, by what `type_of_modules` gives
/// for the Name, and `parse_type` reads it as the type that `schema_of_modules` gives.
pub fn prints_definitions()
    ensures { PrintsDefinitions }
{
    printing();
    what_is_parsed_is_spelled();
}

/// What `types_of_modules` gives has a type for a Name without a point exactly where `schema_of_modules` gives one, and it is
/// that type.
pub fn gives_types()
    ensures { GivesTypes }
{
    finds_the_only_assignment();
}
