//! Tokens that a tree keeps.
ghost use Rattle.std.specs.Prelude.{◌≡◌, []};
ghost use Rattle.oer_module_lexer.specs.Token.{spots_of};
ghost use Rattle.oer_module_syntax.specs.State.{state_of};
ghost use Rattle.oer_module_values.specs.Kept.{kept};

use oer_module_lexer::Spot;
use oer_module_syntax::Cursor;

/// Before the first of some tokens that a tree keeps. A fault behind the last has the place of the first.
pub fn over_kept<'s, 't>(spots: &'s [Spot<'t>]) -> Cursor<'s, 't>
    ensures { state_of result ≡ kept (spots_of spots.now) }
{
    let end = match spots.first() {
        Some(spot) => spot.at,
        None => 0,
    };
    Cursor {
        spots,
        end,
        complete: true,
    }
}

pub fn no_spots<'s, 't>() -> &'s [Spot<'t>]
    ensures { spots_of result.now ≡ [] }
{
    &[]
}
