//! From tokens to actual parameters.
ghost use Rattle.std.specs.Prelude.{◌≡◌, suc, length, map};
ghost use Rattle.oer_module_lexer.specs.Token.{spots_of};
ghost use Rattle.oer_module_syntax.specs.Modules.{many};
ghost use Rattle.oer_module_syntax.specs.State.{IsReading, bump, state_of};
ghost use Rattle.oer_module_terms.specs.Looks.{no_comma};
ghost use Rattle.oer_module_terms.specs.Parameters.{at_end, parameter_at, parameters_at};

use oer_module_lexer::{Sign, Spot};
use oer_module_syntax::{Cursor, Fault, Sought, Why, ends_span, take_span};
use std::alloc::Global;

/// Whether nothing stands before the next comma or closing sign.
fn is_at_end(cursor: &Cursor<'_, '_>) -> bool
    ensures { result ≡ at_end (state_of cursor.now) }
{
    cursor.spots.is_empty() || ends_span(cursor.spots)
}

/// An actual parameter, at least one token.
#[tactic(auto, unfolding(crate::specs::Parameters::parameter_at))]
fn take_parameter<'s, 't>(
    alloc: Global,
    cursor: &mut Cursor<'s, 't>,
) -> Result<&'s [Spot<'t>], Fault>
    ensures { IsReading (λ r. (spots_of r.now, state_of cursor.new)) result (parameter_at (state_of cursor.old)) }
{
    if is_at_end(cursor) {
        return Err(cursor.fault(Why::Expected(Sought::Type)));
    }
    take_span(alloc, cursor)
}

/// Further parameters, beside those found.
fn read_more<'s, 't>(
    alloc: Global,
    cursor: &mut Cursor<'s, 't>,
    found: &mut Vec<&'s [Spot<'t>]>,
) -> Result<(), Fault>
    ensures { IsReading (λ x. (map (λ r. spots_of r.now) found.new.items, state_of cursor.new)) result (many no_comma (λ s. parameter_at (bump s)) (suc (length (state_of cursor.old).left)) (map (λ r. spots_of r.now) found.old.items) (state_of cursor.old)) }
{
    'more: for turn in 0..cursor.spots.len() + 1 {
        if !cursor.is_at(Sign::Comma) {
            return Ok(());
        }
        cursor.bump();
        let parameter = take_parameter(alloc, cursor)?;
        found.push(parameter)?;
    }
    unreachable!()
}

/// Actual parameters, at the opening brace: each is at least one token, up to the comma or the closing brace that stands
/// in no other brackets. Whether it is a type, a value or a set depends on what the parameter is for (X.683, 9.5).
///
/// # Errors
/// The first fault from the left: `Expected` at a token that can't go on (a type, where a parameter has no token; the
/// sign that closes what is open, where another closes), and `Memory`. Where the tokens end before the closing brace, the
/// fault is that of their end.
#[tactic(auto, unfolding(crate::specs::Parameters::parameters_at))]
pub fn read_parameters<'s, 't>(
    alloc: Global,
    cursor: &mut Cursor<'s, 't>,
) -> Result<Vec<&'s [Spot<'t>]>, Fault>
    ensures { IsReading (λ v. (map (λ r. spots_of r.now) v.items, state_of cursor.new)) result (parameters_at (state_of cursor.old)) }
{
    let mut found = Vec::new(alloc);
    cursor.expect(Sign::OpenBrace)?;
    let first = take_parameter(alloc, cursor)?;
    found.push(first)?;
    read_more(alloc, cursor, &mut found)?;
    cursor.expect(Sign::CloseBrace)?;
    Ok(found)
}
