//! Types by their Names.
ghost use Rattle.std.specs.Prelude.{◌≡◌, None, option_map};
ghost use Rattle.std.specs.Str.{IsUtf8};
ghost use Rattle.oer_types.specs.Schema.{the_type};
ghost use Rattle.oer_notation.specs.Reading.{find};
ghost use Rattle.oer_notation.specs.Views.{knowns};

use oer_notation::Types;
use oer_types::Schema;

/// The type that the Name has, or `None` where no definition has it or it is not UTF-8.
pub(crate) fn find_type<'a>(types: &'a Types, name: &[u8]) -> Option<&'a Schema>
    ensures found { IsUtf8 name.now → option_map (λ s. the_type s.now) result ≡ find (knowns types.now) name.now }
    ensures no_text { (IsUtf8 name.now → ⊥) → result ≡ None }
{
    match std::str::from_utf8(name) {
        Ok(name) => types.get(name),
        Err(_) => None,
    }
}
