//! Tags in the notation.
ghost use Rattle.std.specs.Prelude.{◌≡◌, IfOk, string_bytes};
ghost use Rattle.oer_layout.specs.Array.{tag_text};

use oer_units::{Class, Tag};
use std::alloc::{AllocError, Global};

/// A tag in the notation.
pub(crate) fn tag_text(alloc: Global, tag: Tag) -> Result<String, AllocError>
    ensures { IfOk result (λ text. string_bytes text ≡ tag_text tag) }
{
    let number = tag.number;
    match tag.class {
        Class::Universal => format!(in alloc; "[UNIVERSAL {number}]"),
        Class::Application => format!(in alloc; "[APPLICATION {number}]"),
        Class::Context => format!(in alloc; "[{number}]"),
        Class::Private => format!(in alloc; "[PRIVATE {number}]"),
    }
}
