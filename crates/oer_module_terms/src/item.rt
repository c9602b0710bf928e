//! From tokens to items.
ghost use Rattle.std.specs.Prelude.{◌≡◌, suc, length, map};
ghost use Rattle.std.specs.Option.{option_map};
ghost use Rattle.oer_module_syntax.specs.Modules.{many};
ghost use Rattle.oer_module_syntax.specs.State.{IsReading, bump, state_of};
ghost use Rattle.oer_module_terms.specs.Items.{enumeration_at, item_at, items_at, items_end, later_items_at, more_at, number_at, some_items_at, some_number_at};
ghost use Rattle.oer_module_terms.specs.Trees.{amount_of, enumeration_of, item_of, more_of};

use crate::tree::{Amount, Enumeration, Item, More};
use crate::value::read_enclosed;
use oer_module_lexer::Sign;
use oer_module_syntax::{Cursor, Fault, after, take_exception};
use std::alloc::Global;

/// How items are numbered.
#[derive(Clone, Copy)]
pub enum Numbering {
    /// Each has a number, which may be negative: INTEGER (X.680, 19.1).
    Signed,
    /// Each has a number without a sign: BIT STRING (X.680, 22.1).
    Unsigned,
    /// Each may have a number, which may be negative: ENUMERATED (X.680, 20.1).
    Optional,
}

/// The number of an item, in its parentheses.
fn read_number<'s, 't>(
    cursor: &mut Cursor<'s, 't>,
    numbering: Numbering,
) -> Result<Option<Amount<'s, 't>>, Fault>
    ensures { IsReading (λ n. (option_map amount_of n, state_of cursor.new)) result (number_at numbering (state_of cursor.old)) }
{
    match numbering {
        Numbering::Signed => some_number(cursor, true),
        Numbering::Unsigned => some_number(cursor, false),
        Numbering::Optional => {
            if !cursor.is_at(Sign::OpenParenthesis) {
                return Ok(None);
            }
            some_number(cursor, true)
        }
    }
}

fn some_number<'s, 't>(
    cursor: &mut Cursor<'s, 't>,
    signed: bool,
) -> Result<Option<Amount<'s, 't>>, Fault>
    ensures { IsReading (λ n. (option_map amount_of n, state_of cursor.new)) result (some_number_at signed (state_of cursor.old)) }
{
    let number = read_enclosed(cursor, signed)?;
    Ok(Some(number))
}

#[tactic(auto, unfolding(crate::specs::Items::item_at))]
fn read_item<'s, 't>(
    cursor: &mut Cursor<'s, 't>,
    numbering: Numbering,
) -> Result<Item<'s, 't>, Fault>
    ensures { IsReading (λ i. (item_of i, state_of cursor.new)) result (item_at numbering (state_of cursor.old)) }
{
    let at = cursor.place();
    let name = cursor.identifier()?;
    let number = read_number(cursor, numbering)?;
    Ok(Item { at, name, number })
}

/// Whether no comma follows, or in a root the marker stands behind it.
fn is_at_end(cursor: &Cursor<'_, '_>, root: bool) -> bool
    ensures { result ≡ items_end root (state_of cursor.now) }
{
    !cursor.is_at(Sign::Comma) || root && after(cursor).is_at(Sign::Ellipsis)
}

/// Items joined by commas; root: up to the marker.
fn read_some<'s, 't>(
    alloc: Global,
    cursor: &mut Cursor<'s, 't>,
    numbering: Numbering,
    root: bool,
) -> Result<Vec<Item<'s, 't>>, Fault>
    ensures { IsReading (λ v. (map item_of v.items, state_of cursor.new)) result (some_items_at numbering root (state_of cursor.old)) }
{
    let mut found = Vec::new(alloc);
    let first = read_item(cursor, numbering)?;
    found.push(first)?;
    read_more(cursor, numbering, root, &mut found)?;
    Ok(found)
}

/// Further items, beside those found.
fn read_more<'s, 't>(
    cursor: &mut Cursor<'s, 't>,
    numbering: Numbering,
    root: bool,
    found: &mut Vec<Item<'s, 't>>,
) -> Result<(), Fault>
    ensures { IsReading (λ x. (map item_of found.new.items, state_of cursor.new)) result (many (items_end root) (λ s. item_at numbering (bump s)) (suc (length (state_of cursor.old).left)) (map item_of found.old.items) (state_of cursor.old)) }
{
    'more: for turn in 0..cursor.spots.len() + 1 {
        if is_at_end(cursor, root) {
            return Ok(());
        }
        cursor.bump();
        let item = read_item(cursor, numbering)?;
        found.push(item)?;
    }
    unreachable!()
}

/// The items of an INTEGER or a BIT STRING, at the opening brace: one or more (X.680, 19.1 and 22.1).
///
/// # Errors
/// The first fault from the left: `Expected` at a token that can't go on, and `Memory`. Where the tokens end before the
/// closing brace, the fault is that of their end.
#[tactic(auto, unfolding(crate::specs::Items::items_at))]
pub fn read_items<'s, 't>(
    alloc: Global,
    cursor: &mut Cursor<'s, 't>,
    numbering: Numbering,
) -> Result<Vec<Item<'s, 't>>, Fault>
    ensures { IsReading (λ v. (map item_of v.items, state_of cursor.new)) result (items_at numbering (state_of cursor.old)) }
{
    cursor.expect(Sign::OpenBrace)?;
    let items = read_some(alloc, cursor, numbering, false)?;
    cursor.expect(Sign::CloseBrace)?;
    Ok(items)
}

/// The items after the marker and the exception.
fn read_later<'s, 't>(
    alloc: Global,
    cursor: &mut Cursor<'s, 't>,
) -> Result<Vec<Item<'s, 't>>, Fault>
    ensures { IsReading (λ v. (map item_of v.items, state_of cursor.new)) result (later_items_at (state_of cursor.old)) }
{
    if !cursor.take(Sign::Comma) {
        return Ok(Vec::new(alloc));
    }
    read_some(alloc, cursor, Numbering::Optional, false)
}

/// What follows the root of an enumeration.
#[tactic(auto, unfolding(crate::specs::Items::more_at))]
fn read_extension<'s, 't>(
    alloc: Global,
    cursor: &mut Cursor<'s, 't>,
) -> Result<Option<More<'s, 't>>, Fault>
    ensures { IsReading (λ m. (option_map more_of m, state_of cursor.new)) result (more_at (state_of cursor.old)) }
{
    if !cursor.take(Sign::Comma) {
        return Ok(None);
    }
    cursor.expect(Sign::Ellipsis)?;
    let exception = take_exception(alloc, cursor)?;
    let items = read_later(alloc, cursor)?;
    Ok(Some(More { exception, items }))
}

/// The items of an ENUMERATED, at the opening brace (X.680, 20.1).
///
/// # Errors
/// Those of `read_items`.
#[tactic(auto, unfolding(crate::specs::Items::enumeration_at))]
pub fn read_enumeration<'s, 't>(
    alloc: Global,
    cursor: &mut Cursor<'s, 't>,
) -> Result<Enumeration<'s, 't>, Fault>
    ensures { IsReading (λ e. (enumeration_of e, state_of cursor.new)) result (enumeration_at (state_of cursor.old)) }
{
    cursor.expect(Sign::OpenBrace)?;
    let root = read_some(alloc, cursor, Numbering::Optional, true)?;
    let more = read_extension(alloc, cursor)?;
    cursor.expect(Sign::CloseBrace)?;
    Ok(Enumeration { root, more })
}
