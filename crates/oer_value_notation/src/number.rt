//! Numbers, bounds and sizes.
ghost use Rattle.std.specs.Prelude.{codes};
ghost use Rattle.oer_value_notation.specs.State.{IsReading, state_of};
ghost use Rattle.oer_literals.specs.Numbers.{arc_of, integer_of, item_number_of, size_of, tag_number_of};
ghost use Rattle.oer_value_notation.specs.Numbers.{bounds_at, bracketed_size_at, end_at, high_at, list_size_at, number_at, size_at, size_high_at};

use crate::cursor::Cursor;
use crate::fault::{TextFault, TextWhy};
use oer_lexer::Sign;
use oer_literals::{arc_of, integer_of, item_number_of, size_of, tag_number_of};
use oer_types::Size;

/// The bounds of an INTEGER.
#[derive(Clone, Copy)]
pub struct Bounds {
    pub low: Option<i128>,
    pub high: Option<i128>,
}

/// A bound or a value of an INTEGER.
#[tactic(auto, unfolding(crate::specs::Numbers::number_at))]
pub fn read_bound(cursor: &mut Cursor<'_, '_>) -> Result<i128, TextFault>
    ensures { IsReading (λ n. (n, state_of cursor.new)) result (number_at integer_of (state_of cursor.old)) }
{
    let fault = cursor.fault(TextWhy::Number);
    let digits = cursor.number()?;
    let Some(number) = integer_of(digits) else {
        return Err(fault);
    };
    Ok(number)
}

/// The number of an item.
#[tactic(auto, unfolding(crate::specs::Numbers::number_at))]
pub fn read_item_number(cursor: &mut Cursor<'_, '_>) -> Result<i64, TextFault>
    ensures { IsReading (λ n. (n, state_of cursor.new)) result (number_at item_number_of (state_of cursor.old)) }
{
    let fault = cursor.fault(TextWhy::Number);
    let digits = cursor.number()?;
    let Some(number) = item_number_of(digits) else {
        return Err(fault);
    };
    Ok(number)
}

#[tactic(auto, unfolding(crate::specs::Numbers::number_at))]
fn read_size_number(cursor: &mut Cursor<'_, '_>) -> Result<u64, TextFault>
    ensures { IsReading (λ n. (n, state_of cursor.new)) result (number_at size_of (state_of cursor.old)) }
{
    let fault = cursor.fault(TextWhy::Number);
    let digits = cursor.number()?;
    let Some(number) = size_of(digits) else {
        return Err(fault);
    };
    Ok(number)
}

/// The number of a tag.
#[tactic(auto, unfolding(crate::specs::Numbers::number_at))]
pub fn read_tag_number(cursor: &mut Cursor<'_, '_>) -> Result<u32, TextFault>
    ensures { IsReading (λ n. (n, state_of cursor.new)) result (number_at tag_number_of (state_of cursor.old)) }
{
    let fault = cursor.fault(TextWhy::Number);
    let digits = cursor.number()?;
    let Some(number) = tag_number_of(digits) else {
        return Err(fault);
    };
    Ok(number)
}

/// An arc of an object identifier.
#[tactic(auto, unfolding(crate::specs::Numbers::number_at))]
pub fn read_arc(cursor: &mut Cursor<'_, '_>) -> Result<u128, TextFault>
    ensures { IsReading (λ n. (n, state_of cursor.new)) result (number_at arc_of (state_of cursor.old)) }
{
    let fault = cursor.fault(TextWhy::Number);
    let digits = cursor.number()?;
    let Some(number) = arc_of(digits) else {
        return Err(fault);
    };
    Ok(number)
}

#[tactic(auto, unfolding(crate::specs::Numbers::end_at))]
fn read_low(cursor: &mut Cursor<'_, '_>) -> Result<Option<i128>, TextFault>
    ensures { IsReading (λ n. (n, state_of cursor.new)) result (end_at integer_of (codes "MIN") (state_of cursor.old)) }
{
    if cursor.take_word("MIN") {
        return Ok(None);
    }
    Ok(Some(read_bound(cursor)?))
}

#[tactic(auto, unfolding(crate::specs::Numbers::end_at))]
fn read_upper(cursor: &mut Cursor<'_, '_>) -> Result<Option<i128>, TextFault>
    ensures { IsReading (λ n. (n, state_of cursor.new)) result (end_at integer_of (codes "MAX") (state_of cursor.old)) }
{
    if cursor.take_word("MAX") {
        return Ok(None);
    }
    Ok(Some(read_bound(cursor)?))
}

#[tactic(auto, unfolding(crate::specs::Numbers::high_at))]
fn read_high(cursor: &mut Cursor<'_, '_>, low: Option<i128>) -> Result<Option<i128>, TextFault>
    ensures { IsReading (λ n. (n, state_of cursor.new)) result (high_at low (state_of cursor.old)) }
{
    if low.is_some() && !cursor.is_at(Sign::Range) {
        return Ok(low);
    }
    cursor.expect(Sign::Range)?;
    read_upper(cursor)
}

/// The bounds of an INTEGER, in brackets, or none.
#[tactic(auto, unfolding(crate::specs::Numbers::bounds_at))]
pub fn read_bounds(cursor: &mut Cursor<'_, '_>) -> Result<Bounds, TextFault>
    ensures { IsReading (λ b. ((b.low, b.high), state_of cursor.new)) result (bounds_at (state_of cursor.old)) }
{
    if !cursor.take(Sign::OpenParenthesis) {
        return Ok(Bounds {
            low: None,
            high: None,
        });
    }
    let low = read_low(cursor)?;
    let high = read_high(cursor, low)?;
    cursor.expect(Sign::CloseParenthesis)?;
    Ok(Bounds { low, high })
}

#[tactic(auto, unfolding(crate::specs::Numbers::end_at))]
fn read_size_end(cursor: &mut Cursor<'_, '_>) -> Result<Option<u64>, TextFault>
    ensures { IsReading (λ n. (n, state_of cursor.new)) result (end_at size_of (codes "MAX") (state_of cursor.old)) }
{
    if cursor.take_word("MAX") {
        return Ok(None);
    }
    Ok(Some(read_size_number(cursor)?))
}

#[tactic(auto, unfolding(crate::specs::Numbers::size_high_at))]
fn read_size_high(cursor: &mut Cursor<'_, '_>, low: u64) -> Result<Option<u64>, TextFault>
    ensures { IsReading (λ n. (n, state_of cursor.new)) result (size_high_at low (state_of cursor.old)) }
{
    if !cursor.take(Sign::Range) {
        return Ok(Some(low));
    }
    read_size_end(cursor)
}

#[tactic(auto, unfolding(crate::specs::Numbers::size_at))]
fn read_size(cursor: &mut Cursor<'_, '_>) -> Result<Size, TextFault>
    ensures { IsReading (λ n. (n, state_of cursor.new)) result (size_at (state_of cursor.old)) }
{
    cursor.expect_word("SIZE")?;
    cursor.expect(Sign::OpenParenthesis)?;
    let low = read_size_number(cursor)?;
    let high = read_size_high(cursor, low)?;
    cursor.expect(Sign::CloseParenthesis)?;
    Ok(Size { low, high })
}

/// A size in brackets; without one every size is allowed.
#[tactic(auto, unfolding(crate::specs::Numbers::bracketed_size_at))]
pub fn read_bracketed_size(cursor: &mut Cursor<'_, '_>) -> Result<Size, TextFault>
    ensures { IsReading (λ n. (n, state_of cursor.new)) result (bracketed_size_at (state_of cursor.old)) }
{
    if !cursor.take(Sign::OpenParenthesis) {
        return Ok(Size { low: 0, high: None });
    }
    let size = read_size(cursor)?;
    cursor.expect(Sign::CloseParenthesis)?;
    Ok(size)
}

/// The size of a SEQUENCE OF, in brackets or not.
#[tactic(auto, unfolding(crate::specs::Numbers::list_size_at))]
pub fn read_list_size(cursor: &mut Cursor<'_, '_>) -> Result<Size, TextFault>
    ensures { IsReading (λ n. (n, state_of cursor.new)) result (list_size_at (state_of cursor.old)) }
{
    if cursor.is_at_word("SIZE") {
        return read_size(cursor);
    }
    read_bracketed_size(cursor)
}
