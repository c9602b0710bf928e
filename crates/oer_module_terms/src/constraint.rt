//! From tokens to constraints.
ghost use Rattle.std.specs.Prelude.{◌≡◌, suc, length, map, not, Ok};
ghost use Rattle.std.specs.Option.{option_map};
ghost use Rattle.oer_module_lexer.specs.Token.{spots_of};
ghost use Rattle.oer_module_syntax.specs.Modules.{many};
ghost use Rattle.oer_module_syntax.specs.State.{IsReading, bump, state_of};
ghost use Rattle.oer_module_terms.specs.Constraints.{at_mark, between_at, constraint_at, constraints_at, contained_at, element_at, everything_but_at, excluding_at, extension_at, general_at, general_of, inner_at, joined_at, joined_by, limit_at, limited_at, nested_at, range_at, set_at, simple_at, specified_by, subtype_at};
ghost use Rattle.oer_module_terms.specs.Trees.{constraint_of, elements_of, except, extension_of, sets_from, simple_of, value_of};

use crate::look::{is_at_type, take_bracketed};
use crate::tree::{Bound, Constraint, Elements, Extension, General, Narrowing, Simple, Value};
use crate::value::read_value;
use oer_module_lexer::{Sign, Spot};
use oer_module_syntax::{
    Cursor, Fault, Keyword, Why, after, read_type, take_exception, take_span, take_value,
};
use std::alloc::Global;

/// What joins sets.
#[derive(Clone, Copy)]
pub enum Mark {
    /// `|` or UNION
    Union,
    /// `^` or INTERSECTION
    Intersection,
}

/// A value, or none where the word MIN or MAX stands.
#[tactic(auto, unfolding(crate::specs::Constraints::limit_at))]
fn read_limit<'s, 't>(
    alloc: Global,
    cursor: &mut Cursor<'s, 't>,
    levels: u8,
    unbounded: Keyword,
) -> Result<Option<Value<'s, 't>>, Fault>
    ensures { IsReading (λ v. (option_map value_of v, state_of cursor.new)) result (limit_at levels unbounded (state_of cursor.old)) }
{
    if cursor.take_keyword(unbounded) {
        return Ok(None);
    }
    let value = read_value(alloc, cursor, levels)?;
    Ok(Some(value))
}

/// A range, after its lower end.
#[tactic(auto, unfolding(crate::specs::Constraints::range_at))]
fn read_range<'s, 't>(
    alloc: Global,
    cursor: &mut Cursor<'s, 't>,
    levels: u8,
    at: usize,
    lowest: Option<Value<'s, 't>>,
) -> Result<Simple<'s, 't>, Fault>
    ensures { IsReading (λ e. (simple_of e, state_of cursor.new)) result (range_at levels at (option_map value_of lowest.entry) (state_of cursor.old)) }
{
    let above = cursor.take(Sign::Less);
    cursor.expect(Sign::Range)?;
    let below = cursor.take(Sign::Less);
    let highest = read_limit(alloc, cursor, levels, Keyword::Max)?;
    Ok(Simple::Range {
        at,
        lower: Bound {
            limit: lowest,
            excluded: above,
        },
        upper: Bound {
            limit: highest,
            excluded: below,
        },
    })
}

/// A value, or a range.
#[tactic(auto, unfolding(crate::specs::Constraints::limited_at))]
fn read_limited<'s, 't>(
    alloc: Global,
    cursor: &mut Cursor<'s, 't>,
    levels: u8,
) -> Result<Simple<'s, 't>, Fault>
    ensures { IsReading (λ e. (simple_of e, state_of cursor.new)) result (limited_at levels (state_of cursor.old)) }
{
    let at = cursor.place();
    let Some(value) = read_limit(alloc, cursor, levels, Keyword::Min)? else {
        return read_range(alloc, cursor, levels, at, None);
    };
    if cursor.is_at(Sign::Less) || cursor.is_at(Sign::Range) {
        return read_range(alloc, cursor, levels, at, Some(value));
    }
    Ok(Simple::Value(value))
}

/// The values of a type.
#[tactic(auto, unfolding(crate::specs::Constraints::contained_at))]
fn read_contained<'s, 't>(
    alloc: Global,
    cursor: &mut Cursor<'s, 't>,
    levels: u8,
) -> Result<Simple<'s, 't>, Fault>
    ensures { IsReading (λ e. (simple_of e, state_of cursor.new)) result (contained_at levels (state_of cursor.old)) }
{
    let contained = read_type(alloc, cursor, levels)?;
    Ok(Simple::Type(contained))
}

/// What follows WITH: COMPONENTS and braces, or COMPONENT and a constraint.
#[tactic(auto, unfolding(crate::specs::Constraints::inner_at))]
fn take_inner<'s, 't>(alloc: Global, cursor: &mut Cursor<'s, 't>) -> Result<&'s [Spot<'t>], Fault>
    ensures { IsReading (λ r. (spots_of r.now, state_of cursor.new)) result (inner_at (state_of cursor.old)) }
{
    if cursor.take_keyword(Keyword::Components) {
        return take_bracketed(alloc, cursor, Sign::OpenBrace);
    }
    cursor.expect_keyword(Keyword::Component)?;
    take_bracketed(alloc, cursor, Sign::OpenParenthesis)
}

/// Elements that hold no other set.
#[tactic(auto, unfolding(crate::specs::Constraints::simple_at))]
fn read_simple<'s, 't>(
    alloc: Global,
    cursor: &mut Cursor<'s, 't>,
    levels: u8,
) -> Result<Simple<'s, 't>, Fault>
    ensures { IsReading (λ e. (simple_of e, state_of cursor.new)) result (simple_at levels (state_of cursor.old)) }
{
    let at = cursor.place();
    if cursor.take_keyword(Keyword::With) {
        let spots = take_inner(alloc, cursor)?;
        return Ok(Simple::Narrowing {
            at,
            kind: Narrowing::Inner,
            spots,
        });
    }
    if cursor.take_keyword(Keyword::Pattern) {
        let spots = take_value(alloc, cursor)?;
        return Ok(Simple::Narrowing {
            at,
            kind: Narrowing::Pattern,
            spots,
        });
    }
    if cursor.take_keyword(Keyword::Settings) {
        let spots = take_value(alloc, cursor)?;
        return Ok(Simple::Narrowing {
            at,
            kind: Narrowing::Settings,
            spots,
        });
    }
    if cursor.take_keyword(Keyword::Includes) || is_at_type(cursor) {
        return read_contained(alloc, cursor, levels);
    }
    read_limited(alloc, cursor, levels)
}

/// The general constraint that is next, if one is.
fn general_of(cursor: &Cursor<'_, '_>) -> Option<General>
    ensures { result ≡ general_of (state_of cursor.now) }
{
    if cursor.is_at_keyword(Keyword::Constrained) {
        return Some(General::UserDefined);
    }
    if cursor.is_at_keyword(Keyword::Containing) || cursor.is_at_keyword(Keyword::Encoded) {
        return Some(General::Contents);
    }
    if cursor.is_at(Sign::OpenBrace) && is_at_type(&after(cursor)) {
        return Some(General::Table);
    }
    None
}

/// The tokens of a general constraint.
#[tactic(auto, unfolding(crate::specs::Constraints::general_at), using(crate::proofs::Views::sets))]
fn read_general<'s, 't>(
    alloc: Global,
    cursor: &mut Cursor<'s, 't>,
    at: usize,
    kind: General,
) -> Result<Constraint<'s, 't>, Fault>
    ensures { IsReading (λ c. (constraint_of c, state_of cursor.new)) result (general_at at kind (state_of cursor.old)) }
{
    let spots = take_span(alloc, cursor)?;
    Ok(Constraint::General { at, kind, spots })
}

fn is_at_mark(cursor: &Cursor<'_, '_>, mark: Mark) -> bool
    ensures { result ≡ at_mark mark (state_of cursor.now) }
{
    match mark {
        Mark::Union => cursor.is_at(Sign::Bar) || cursor.is_at_keyword(Keyword::Union),
        Mark::Intersection => cursor.is_at(Sign::Caret)
            || cursor.is_at_keyword(Keyword::Intersection),
    }
}

/// The elements of the first that aren't in the second.
#[tactic(auto, using(crate::proofs::Views::sets))]
fn except<'s, 't>(
    alloc: Global,
    from: Elements<'s, 't>,
    excluded: Elements<'s, 't>,
) -> Result<Elements<'s, 't>, Fault>
    ensures { IsReading elements_of result (Ok (except (elements_of from.entry) (elements_of excluded.entry))) }
{
    let from = Box::new(alloc, from)?;
    let excluded = Box::new(alloc, excluded)?;
    Ok(Elements::Except(from, excluded))
}

/// A set of values.
#[cycle(reading)]
#[tactic(auto, unfolding(crate::specs::Constraints::set_at, crate::specs::Constraints::any_set_at), using(crate::proofs::Views::sets))]
fn read_set<'s, 't>(
    alloc: Global,
    cursor: &mut Cursor<'s, 't>,
    levels: u8,
) -> Result<Elements<'s, 't>, Fault>
    ensures { IsReading (λ e. (elements_of e, state_of cursor.new)) result (set_at levels (state_of cursor.old)) }
{
    if levels == 0 {
        return Err(cursor.fault(Why::TooDeep));
    }
    if cursor.take_keyword(Keyword::All) {
        return read_all_except(alloc, cursor, levels - 1);
    }
    read_joined(alloc, cursor, levels - 1, Mark::Union)
}

/// All but some, after ALL.
#[cycle(reading)]
#[tactic(auto, unfolding(crate::specs::Constraints::everything_but_at), using(crate::proofs::Views::sets))]
fn read_all_except<'s, 't>(
    alloc: Global,
    cursor: &mut Cursor<'s, 't>,
    levels: u8,
) -> Result<Elements<'s, 't>, Fault>
    ensures { IsReading (λ e. (elements_of e, state_of cursor.new)) result (everything_but_at levels (set_at levels) (state_of cursor.old)) }
{
    cursor.expect_keyword(Keyword::Except)?;
    let excluded = read_element(alloc, cursor, levels)?;
    Ok(Elements::AllExcept(Box::new(alloc, excluded)?))
}

/// Several, joined by a mark.
#[tactic(auto, using(crate::proofs::Views::sets))]
fn joined<'s, 't>(mark: Mark, sets: Vec<Elements<'s, 't>>) -> Elements<'s, 't>
    ensures { elements_of result ≡ joined_by mark (sets_from (map elements_of sets.entry.items)) }
{
    match mark {
        Mark::Union => Elements::Union(sets),
        Mark::Intersection => Elements::Intersection(sets),
    }
}

/// Elements, or several joined by a mark.
#[cycle(reading)]
#[tactic(auto, unfolding(crate::specs::Constraints::joined_at))]
fn read_joined<'s, 't>(
    alloc: Global,
    cursor: &mut Cursor<'s, 't>,
    levels: u8,
    mark: Mark,
) -> Result<Elements<'s, 't>, Fault>
    ensures { IsReading (λ e. (elements_of e, state_of cursor.new)) result (joined_at levels (set_at levels) mark (state_of cursor.old)) }
{
    let first = read_between(alloc, cursor, levels, mark)?;
    if !is_at_mark(cursor, mark) {
        return Ok(first);
    }
    let mut found = Vec::new(alloc);
    found.push(first)?;
    read_more(alloc, cursor, levels, mark, &mut found)?;
    Ok(joined(mark, found))
}

/// Those behind marks, beside those found.
#[cycle(reading)]
fn read_more<'s, 't>(
    alloc: Global,
    cursor: &mut Cursor<'s, 't>,
    levels: u8,
    mark: Mark,
    found: &mut Vec<Elements<'s, 't>>,
) -> Result<(), Fault>
    ensures { IsReading (λ x. (map elements_of found.new.items, state_of cursor.new)) result (many (λ s. not (at_mark mark s)) (λ s. between_at levels (set_at levels) mark (bump s)) (suc (length (state_of cursor.old).left)) (map elements_of found.old.items) (state_of cursor.old)) }
{
    'more: for turn in 0..cursor.spots.len() + 1 {
        if !is_at_mark(cursor, mark) {
            return Ok(());
        }
        cursor.bump();
        let set = read_between(alloc, cursor, levels, mark)?;
        found.push(set)?;
    }
    unreachable!()
}

/// What stands between marks.
#[cycle(reading)]
#[tactic(auto, unfolding(crate::specs::Constraints::between_at, crate::specs::Constraints::intersection_at, crate::specs::Constraints::joined_at), using(crate::proofs::Views::sets))]
fn read_between<'s, 't>(
    alloc: Global,
    cursor: &mut Cursor<'s, 't>,
    levels: u8,
    mark: Mark,
) -> Result<Elements<'s, 't>, Fault>
    ensures { IsReading (λ e. (elements_of e, state_of cursor.new)) result (between_at levels (set_at levels) mark (state_of cursor.old)) }
{
    match mark {
        Mark::Union => read_joined(alloc, cursor, levels, Mark::Intersection),
        Mark::Intersection => read_excluding(alloc, cursor, levels),
    }
}

/// Elements, and perhaps others that are left out.
#[cycle(reading)]
#[tactic(auto, unfolding(crate::specs::Constraints::excluding_at), using(crate::proofs::Views::sets))]
fn read_excluding<'s, 't>(
    alloc: Global,
    cursor: &mut Cursor<'s, 't>,
    levels: u8,
) -> Result<Elements<'s, 't>, Fault>
    ensures { IsReading (λ e. (elements_of e, state_of cursor.new)) result (excluding_at levels (set_at levels) (state_of cursor.old)) }
{
    let from = read_element(alloc, cursor, levels)?;
    if !cursor.take_keyword(Keyword::Except) {
        return Ok(from);
    }
    let excluded = read_element(alloc, cursor, levels)?;
    except(alloc, from, excluded)
}

/// Elements.
#[cycle(reading)]
#[tactic(auto, unfolding(crate::specs::Constraints::element_at), using(crate::proofs::Views::sets))]
fn read_element<'s, 't>(
    alloc: Global,
    cursor: &mut Cursor<'s, 't>,
    levels: u8,
) -> Result<Elements<'s, 't>, Fault>
    ensures { IsReading (λ e. (elements_of e, state_of cursor.new)) result (element_at levels (set_at levels) (state_of cursor.old)) }
{
    let at = cursor.place();
    if cursor.take(Sign::OpenParenthesis) {
        return read_nested(alloc, cursor, levels);
    }
    if cursor.take_keyword(Keyword::Size) {
        let size = read_constraint(alloc, cursor, levels)?;
        return Ok(Elements::Size {
            at,
            size: Box::new(alloc, size)?,
        });
    }
    if cursor.take_keyword(Keyword::From) {
        let alphabet = read_constraint(alloc, cursor, levels)?;
        return Ok(Elements::Alphabet {
            at,
            alphabet: Box::new(alloc, alphabet)?,
        });
    }
    let simple = read_simple(alloc, cursor, levels)?;
    Ok(Elements::Simple(Box::new(alloc, simple)?))
}

/// A set in parentheses, after the opening one.
#[cycle(reading)]
#[tactic(auto, unfolding(crate::specs::Constraints::nested_at))]
fn read_nested<'s, 't>(
    alloc: Global,
    cursor: &mut Cursor<'s, 't>,
    levels: u8,
) -> Result<Elements<'s, 't>, Fault>
    ensures { IsReading (λ e. (elements_of e, state_of cursor.new)) result (nested_at levels (set_at levels) (state_of cursor.old)) }
{
    let set = read_set(alloc, cursor, levels)?;
    cursor.expect(Sign::CloseParenthesis)?;
    Ok(set)
}

/// A constraint in its parentheses, in which so many levels of sets may nest, and of values and types in these
/// (X.680, 49.6).
///
/// # Errors
/// The first fault from the left: `TooDeep` where a level is one too many, `Expected` at a token that can't go on, and
/// `Memory`. Where the tokens end before the constraint does, the fault is that of their end.
#[cycle(reading)]
#[tactic(auto, unfolding(crate::specs::Constraints::constraint_with))]
pub fn read_constraint<'s, 't>(
    alloc: Global,
    cursor: &mut Cursor<'s, 't>,
    levels: u8,
) -> Result<Constraint<'s, 't>, Fault>
    ensures { IsReading (λ c. (constraint_of c, state_of cursor.new)) result (constraint_at levels (state_of cursor.old)) }
{
    let at = cursor.place();
    cursor.expect(Sign::OpenParenthesis)?;
    let constraint = read_specified(alloc, cursor, levels, at)?;
    cursor.expect(Sign::CloseParenthesis)?;
    Ok(constraint)
}

/// What stands in the parentheses of a constraint.
#[cycle(reading)]
#[tactic(auto, unfolding(crate::specs::Constraints::specified_by))]
fn read_specified<'s, 't>(
    alloc: Global,
    cursor: &mut Cursor<'s, 't>,
    levels: u8,
    at: usize,
) -> Result<Constraint<'s, 't>, Fault>
    ensures { IsReading (λ c. (constraint_of c, state_of cursor.new)) result (specified_by levels (set_at levels) at (general_of (state_of cursor.old)) (state_of cursor.old)) }
{
    match general_of(cursor) {
        Some(kind) => read_general(alloc, cursor, at, kind),
        None => read_subtype(alloc, cursor, levels, at),
    }
}

/// A root, its extension and an exception.
#[cycle(reading)]
#[tactic(auto, unfolding(crate::specs::Constraints::subtype_at), using(crate::proofs::Views::sets))]
fn read_subtype<'s, 't>(
    alloc: Global,
    cursor: &mut Cursor<'s, 't>,
    levels: u8,
    at: usize,
) -> Result<Constraint<'s, 't>, Fault>
    ensures { IsReading (λ c. (constraint_of c, state_of cursor.new)) result (subtype_at levels (set_at levels) at (state_of cursor.old)) }
{
    let root = read_set(alloc, cursor, levels)?;
    let extension = read_extension(alloc, cursor, levels)?;
    let exception = take_exception(alloc, cursor)?;
    Ok(Constraint::Subtype {
        at,
        root,
        extension,
        exception,
    })
}

/// What follows the root.
#[cycle(reading)]
#[tactic(auto, unfolding(crate::specs::Constraints::extension_at, crate::specs::Constraints::marked_at), using(crate::proofs::Views::sets))]
fn read_extension<'s, 't>(
    alloc: Global,
    cursor: &mut Cursor<'s, 't>,
    levels: u8,
) -> Result<Extension<'s, 't>, Fault>
    ensures { IsReading (λ e. (extension_of e, state_of cursor.new)) result (extension_at levels (set_at levels) (state_of cursor.old)) }
{
    if !cursor.take(Sign::Comma) {
        return Ok(Extension::Closed);
    }
    cursor.expect(Sign::Ellipsis)?;
    if !cursor.take(Sign::Comma) {
        return Ok(Extension::Open);
    }
    let more = read_set(alloc, cursor, levels)?;
    Ok(Extension::Extended(Box::new(alloc, more)?))
}

/// Constraints, one after another, as many as begin: up to a token that is no opening parenthesis. So many levels may
/// nest in each.
///
/// # Errors
/// Those of `read_constraint`.
pub fn read_constraints<'s, 't>(
    alloc: Global,
    cursor: &mut Cursor<'s, 't>,
    levels: u8,
) -> Result<Vec<Constraint<'s, 't>>, Fault>
    ensures { IsReading (λ v. (map constraint_of v.items, state_of cursor.new)) result (constraints_at levels (state_of cursor.old)) }
{
    let mut found = Vec::new(alloc);
    'more: for turn in 0..cursor.spots.len() + 1 {
        if !cursor.is_at(Sign::OpenParenthesis) {
            return Ok(found);
        }
        let constraint = read_constraint(alloc, cursor, levels)?;
        found.push(constraint)?;
    }
    unreachable!()
}
