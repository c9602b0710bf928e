//! Each function does nothing but cite other laws; its contract is the law.
ghost use Rattle.oer_meant_modules.specs.Laws.{NamesAreMeant, NamesAreSole};

use oer_meant_types::laws::{types_are_one, what_is_found_is_meant};
use oer_module_names::laws::{
    finds_the_only_assignment, finds_the_only_module, finds_what_stands, stands_for_one,
};

/// The type that is found for a Name in texts of modules is well-formed, and the one that the Name has by X.680, without the sizes of
/// lists, which change no octet.
pub fn names_have_the_types_that_they_mean()
    ensures { NamesAreMeant }
{
    finds_the_only_assignment();
    finds_the_only_module();
    finds_what_stands();
    what_is_found_is_meant();
}

/// A Name in modules has one type by X.680, where types stand in themselves so often.
pub fn names_have_one_type()
    ensures { NamesAreSole }
{
    stands_for_one();
    types_are_one();
}
