//! The text of bounds, sizes, items and tags.
ghost use Rattle.std.specs.Prelude.{[], ◌∷◌, map};
ghost use Rattle.std.specs.Ordering.{int_eq};
ghost use Rattle.oer_values.specs.ShapeView.{named_number};
ghost use Rattle.oer_printer.specs.Printer.{Puts};
ghost use Rattle.oer_printer.specs.Printing.{bounds_tokens, class_tokens, ends_tokens, in_brackets, integer_token, item_tokens, natural_token, size_tokens, sized, tag_tokens};
ghost use Rattle.oer_lexer.specs.Token.{sign, word};
ghost use Rattle.oer_lexer.specs.declared.token.Sign.TheVariants.{CloseParenthesis, OpenParenthesis};
ghost use Rattle.std.specs.Prelude.{None, Some, codes};

use crate::printer::Printer;
use oer_lexer::Sign;
use oer_types::{Item, Size};
use oer_units::{Class, Tag};
use std::alloc::{AllocError, Global};

/// The bounds of an INTEGER in parentheses, or nothing where it has none.
pub fn put_bounds(
    alloc: Global,
    printer: &mut Printer,
    low: Option<i128>,
    high: Option<i128>,
) -> Result<(), AllocError>
    ensures { Puts (bounds_tokens low high) printer.old result printer.new }
{
    match (low, high) {
        (None, None) => Ok(()),
        (None, Some(high)) => put_up_to(alloc, printer, high),
        (Some(low), None) => put_from(alloc, printer, low),
        (Some(low), Some(high)) => put_between(alloc, printer, low, high),
    }
}

fn put_up_to(alloc: Global, printer: &mut Printer, high: i128) -> Result<(), AllocError>
    ensures { Puts (bounds_tokens None (Some high)) printer.old result printer.new }
{
    printer.sign(Sign::OpenParenthesis)?;
    printer.word("MIN")?;
    printer.sign(Sign::Range)?;
    printer.integer(alloc, high)?;
    printer.sign(Sign::CloseParenthesis)
}

fn put_from(alloc: Global, printer: &mut Printer, low: i128) -> Result<(), AllocError>
    ensures { Puts (bounds_tokens (Some low) None) printer.old result printer.new }
{
    printer.sign(Sign::OpenParenthesis)?;
    printer.integer(alloc, low)?;
    printer.sign(Sign::Range)?;
    printer.word("MAX")?;
    printer.sign(Sign::CloseParenthesis)
}

fn put_between(
    alloc: Global,
    printer: &mut Printer,
    low: i128,
    high: i128,
) -> Result<(), AllocError>
    ensures { Puts (bounds_tokens (Some low) (Some high)) printer.old result printer.new }
{
    printer.sign(Sign::OpenParenthesis)?;
    printer.integer(alloc, low)?;
    if low == high {
        return printer.sign(Sign::CloseParenthesis);
    }
    printer.sign(Sign::Range)?;
    printer.integer(alloc, high)?;
    printer.sign(Sign::CloseParenthesis)
}

/// A size in parentheses, or nothing where every size is allowed.
pub fn put_size(alloc: Global, printer: &mut Printer, size: Size) -> Result<(), AllocError>
    ensures { Puts (size_tokens size) printer.old result printer.new }
{
    match size.high {
        None => put_size_from(alloc, printer, size.low),
        Some(high) => put_size_between(alloc, printer, size.low, high),
    }
}

fn open_size(printer: &mut Printer) -> Result<(), AllocError>
    ensures { Puts (sign OpenParenthesis ∷ word (codes "SIZE") ∷ sign OpenParenthesis ∷ []) printer.old result printer.new }
{
    printer.sign(Sign::OpenParenthesis)?;
    printer.word("SIZE")?;
    printer.sign(Sign::OpenParenthesis)
}

fn close_size(printer: &mut Printer) -> Result<(), AllocError>
    ensures { Puts (sign CloseParenthesis ∷ sign CloseParenthesis ∷ []) printer.old result printer.new }
{
    printer.sign(Sign::CloseParenthesis)?;
    printer.sign(Sign::CloseParenthesis)
}

fn put_size_from(alloc: Global, printer: &mut Printer, low: u64) -> Result<(), AllocError>
    ensures { Puts (ends_tokens low None) printer.old result printer.new }
{
    if low == 0 {
        return Ok(());
    }
    open_size(printer)?;
    printer.natural(alloc, low as u128)?;
    printer.sign(Sign::Range)?;
    printer.word("MAX")?;
    close_size(printer)
}

fn put_size_between(
    alloc: Global,
    printer: &mut Printer,
    low: u64,
    high: u64,
) -> Result<(), AllocError>
    ensures { Puts (ends_tokens low (Some high)) printer.old result printer.new }
{
    open_size(printer)?;
    printer.natural(alloc, low as u128)?;
    if low == high {
        return close_size(printer);
    }
    printer.sign(Sign::Range)?;
    printer.natural(alloc, high as u128)?;
    close_size(printer)
}

/// An item of an ENUMERATED, with its number.
pub fn put_item(alloc: Global, printer: &mut Printer, item: &Item) -> Result<(), AllocError>
    ensures { Puts (item_tokens (named_number item.now)) printer.old result printer.new }
{
    printer.word(item.name.as_str())?;
    printer.sign(Sign::OpenParenthesis)?;
    printer.integer(alloc, item.number as i128)?;
    printer.sign(Sign::CloseParenthesis)
}

/// The word of a tag's class; context has none.
fn put_class(printer: &mut Printer, class: Class) -> Result<(), AllocError>
    ensures { Puts (class_tokens class) printer.old result printer.new }
{
    match class {
        Class::Universal => printer.word("UNIVERSAL"),
        Class::Application => printer.word("APPLICATION"),
        Class::Context => Ok(()),
        Class::Private => printer.word("PRIVATE"),
    }
}

/// A tag in brackets.
#[tactic(auto, using(crate::proofs::Printed::run_append))]
pub fn put_tag(alloc: Global, printer: &mut Printer, tag: Tag) -> Result<(), AllocError>
    ensures { Puts (tag_tokens tag) printer.old result printer.new }
{
    printer.sign(Sign::OpenBracket)?;
    put_class(printer, tag.class)?;
    printer.natural(alloc, tag.number as u128)?;
    printer.sign(Sign::CloseBracket)
}
