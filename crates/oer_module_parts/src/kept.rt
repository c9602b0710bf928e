//! Reading tokens that a tree keeps.
ghost use Rattle.std.specs.Prelude.{◌≡◌};
ghost use Rattle.oer_module_lexer.specs.Token.{spots_of};
ghost use Rattle.oer_module_parts.specs.Kept.{kept, last_place};
ghost use Rattle.oer_module_syntax.specs.State.{state_of};

use oer_module_lexer::Spot;
use oer_module_syntax::Cursor;

/// Where the last of the tokens begins; the place that is given, if there are none.
fn last_place(spots: &[Spot<'_>], at: usize) -> usize
    ensures { result ≡ last_place (spots_of spots.now) at }
{
    match spots.last() {
        Some(spot) => spot.at,
        None => at,
    }
}

/// Before the first of some tokens that a tree keeps. They end where the last of them begins, or at `at` if there are none:
/// a fault at their end has that place.
pub fn over_kept<'s, 't>(spots: &'s [Spot<'t>], at: usize) -> Cursor<'s, 't>
    ensures { state_of result ≡ kept (spots_of spots.now) at }
{
    Cursor {
        spots,
        end: last_place(spots, at),
        complete: true,
    }
}
