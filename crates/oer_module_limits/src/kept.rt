//! Constraints that a tree keeps as tokens.
ghost use Rattle.std.specs.Prelude.{map};
ghost use Rattle.oer_module_lexer.specs.Token.{spots_of};
ghost use Rattle.oer_module_terms.specs.Trees.{constraint_of};
ghost use Rattle.oer_module_limits.specs.Errors.{Gives};
ghost use Rattle.oer_module_limits.specs.Sets.{row_read};

use crate::error::{Error, Why};
use oer_module_lexer::Spot;
use oer_module_names::Place;
use oer_module_terms::{Constraint, read_constraints};
use oer_module_values::over_kept;
use std::alloc::Global;

/// How many levels may nest in a constraint.
const LEVELS: u8 = 64;

/// The constraints that stand in a row, from tokens of a module.
#[tactic(auto, unfolding(crate::specs::Sets::row_read))]
pub fn read_row<'s, 't>(
    alloc: Global,
    module: usize,
    spots: &'s [Spot<'t>],
) -> Result<Vec<Constraint<'s, 't>>, Error<'t>>
    ensures { Gives (λ v. map constraint_of v.items) result (row_read «module» (spots_of spots.now)) }
{
    let mut cursor = over_kept(spots);
    match read_constraints(alloc, &mut cursor, LEVELS) {
        Ok(constraints) => Ok(constraints),
        Err(fault) => Err(Error {
            place: Place {
                module,
                at: fault.at,
            },
            why: Why::Unresolved(oer_module_values::Why::Unread(fault.why)),
        }),
    }
}
