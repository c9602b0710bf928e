//! The text of a type.
ghost use Rattle.std.specs.Prelude.{◌≡◌, ◌↔◌, [], ◌∷◌, IfOk, map, Ok, Err, Some, None, string_bytes};
ghost use Rattle.oer_model.specs.AsnType.{enumerated, integer, no_alternatives, sequence_of};
ghost use Rattle.oer_lexer.specs.LeafWords.{with_words};
ghost use Rattle.oer_lexer.specs.Token.{sign, word};
ghost use Rattle.oer_lexer.specs.declared.token.Sign.TheVariants.{OpenBrace};
ghost use Rattle.oer_types.specs.Schema.{the_type};
ghost use Rattle.oer_values.specs.ShapeView.{additions_of, fields_of, named_number, need_of, root_of, seen_alternative, seen_field, type_of};
ghost use Rattle.oer_printer.specs.Printer.{Puts, alternative_part, comma_unless, field_part, joined_from, marker_behind};
ghost use Rattle.oer_literals.specs.Items.{items_of};
ghost use Rattle.oer_printer.specs.Printing.{addition_parts, after_commas, field_parts, item_tokens, joined, need_tokens, printed, root_parts, size_tokens, type_tokens};
ghost use Rattle.oer_printer.specs.Shapes.{IsChoice, IsSequence};
ghost use Rattle.oer_printer.specs.declared.fault.PrintFault.TheVariants.{NoNotation};

use crate::constraint::{put_bounds, put_item, put_size, put_tag};
use crate::fault::PrintFault;
use crate::literal::put_value;
use crate::printable::has_notation;
use crate::printer::{Edge, Printer};
use oer_lexer::{LeafWord, Sign};
use oer_types::{Addition, Alt, Field, Item, Need, Schema, Shape, Size};
use std::alloc::{AllocError, Global};

/// The text of a type in the notation, on one line: every number of an item and every tag is in it, and
/// no Name. It fails with `NoNotation` if a default is of constructed type, is an enumeration number that
/// no item has, or is a text with a character below U+0020; nothing was allocated then. It fails with
/// `Memory` if an allocation fails.
pub fn print_type(alloc: Global, schema: &Schema) -> Result<String, PrintFault>
    ensures text { IfOk result (λ s. printed (the_type schema.now) ≡ Some (string_bytes s)) }
    ensures none { result ≡ Err NoNotation ↔ printed (the_type schema.now) ≡ None }
{
    if !has_notation(schema.shape()) {
        return Err(PrintFault::NoNotation);
    }
    let mut printer = Printer {
        out: String::new(alloc),
        last: Edge::Other,
    };
    put_type(alloc, schema.shape(), &mut printer)?;
    Ok(printer.out)
}

#[cycle(put)]
#[tactic(auto, using(crate::proofs::Levels::levels))]
fn put_type(alloc: Global, shape: &Shape, printer: &mut Printer) -> Result<(), AllocError>
    ensures { Puts (type_tokens (type_of shape.now)) printer.old result printer.new }
{
    match shape {
        Shape::Boolean => put_words(printer, LeafWord::Boolean),
        Shape::Null => put_words(printer, LeafWord::Null),
        Shape::Integer { low, high } => put_integer(alloc, printer, *low, *high),
        Shape::Enumerated { items, extensible } => {
            put_enumerated(alloc, printer, items, *extensible)
        }
        Shape::BitString(size) => put_sized(alloc, printer, LeafWord::BitString, *size),
        Shape::OctetString(size) => put_sized(alloc, printer, LeafWord::OctetString, *size),
        Shape::ObjectId => put_words(printer, LeafWord::ObjectIdentifier),
        Shape::Ia5(size) => put_sized(alloc, printer, LeafWord::Ia5String, *size),
        Shape::Visible(size) => put_sized(alloc, printer, LeafWord::VisibleString, *size),
        Shape::Numeric(size) => put_sized(alloc, printer, LeafWord::NumericString, *size),
        Shape::Printable(size) => put_sized(alloc, printer, LeafWord::PrintableString, *size),
        Shape::Utf8(size) => put_sized(alloc, printer, LeafWord::Utf8String, *size),
        Shape::Sequence { .. } => put_sequence(alloc, shape, printer),
        Shape::SequenceOf { size, item } => put_list(alloc, item, *size, printer),
        Shape::Choice { .. } => put_choice(alloc, shape, printer),
    }
}

fn put_integer(
    alloc: Global,
    printer: &mut Printer,
    low: Option<i128>,
    high: Option<i128>,
) -> Result<(), AllocError>
    ensures { Puts (type_tokens (integer low high)) printer.old result printer.new }
{
    put_words(printer, LeafWord::Integer)?;
    put_bounds(alloc, printer, low, high)
}

/// The words of a type that holds no other.
fn put_words(printer: &mut Printer, leaf: LeafWord) -> Result<(), AllocError>
    ensures { Puts (with_words leaf []) printer.old result printer.new }
{
    let words = leaf.words();
    printer.word(words.first)?;
    match words.second {
        Some(second) => printer.word(second),
        None => Ok(()),
    }
}

/// The words of a type, and a size where there is one.
#[tactic(auto, using(crate::proofs::Printed::words_first))]
fn put_sized(
    alloc: Global,
    printer: &mut Printer,
    leaf: LeafWord,
    size: Size,
) -> Result<(), AllocError>
    ensures { Puts (with_words leaf (size_tokens size)) printer.old result printer.new }
{
    put_words(printer, leaf)?;
    put_size(alloc, printer, size)
}

/// The words of a type that holds no other, and an opening brace.
#[tactic(auto, using(crate::proofs::Printed::words_first))]
fn open_leaf(printer: &mut Printer, leaf: LeafWord) -> Result<(), AllocError>
    ensures { Puts (with_words leaf (sign OpenBrace ∷ [])) printer.old result printer.new }
{
    put_words(printer, leaf)?;
    printer.sign(Sign::OpenBrace)
}

/// A word and an opening brace.
fn open(printer: &mut Printer, name: &str) -> Result<(), AllocError>
    ensures { Puts (word name.now ∷ sign OpenBrace ∷ []) printer.old result printer.new }
{
    printer.word(name)?;
    printer.sign(Sign::OpenBrace)
}

/// The extension marker, after a comma unless it stands first.
fn put_marker(printer: &mut Printer, first: bool) -> Result<(), AllocError>
    ensures { Puts (marker_behind first) printer.old result printer.new }
{
    put_comma(printer, first)?;
    printer.sign(Sign::Ellipsis)
}

#[tactic(auto, using(crate::proofs::Printed::run_append))]
fn put_enumerated(
    alloc: Global,
    printer: &mut Printer,
    items: &[Item],
    extensible: bool,
) -> Result<(), AllocError>
    ensures { Puts (type_tokens (enumerated (map named_number items.now) extensible)) printer.old result printer.new }
{
    open_leaf(printer, LeafWord::Enumerated)?;
    put_items(alloc, printer, items)?;
    if !extensible {
        return printer.sign(Sign::CloseBrace);
    }
    put_marker(printer, items.is_empty())?;
    printer.sign(Sign::CloseBrace)
}

/// A comma, unless the part after it is the first.
fn put_comma(printer: &mut Printer, first: bool) -> Result<(), AllocError>
    ensures { Puts (comma_unless first) printer.old result printer.new }
{
    if first {
        return Ok(());
    }
    printer.sign(Sign::Comma)
}

#[tactic(auto, using(crate::proofs::Printed::run_append))]
fn put_items(alloc: Global, printer: &mut Printer, items: &[Item]) -> Result<(), AllocError>
    ensures { Puts (joined (map item_tokens (map named_number items.now))) printer.old result printer.new }
{
    let mut first = true;
    for item in items {
        put_comma(printer, first)?;
        first = false;
        put_item(alloc, printer, item)?;
    }
    Ok(())
}

#[cycle(put)]
fn put_sequence(alloc: Global, shape: &Shape, printer: &mut Printer) -> Result<(), AllocError>
    requires { IsSequence shape.now }
    ensures { Puts (type_tokens (type_of shape.now)) printer.old result printer.new }
{
    let Shape::Sequence { root, additions } = shape else {
        unreachable!()
    };
    open(printer, "SEQUENCE")?;
    put_fields(alloc, root, printer)?;
    match additions {
        None => printer.sign(Sign::CloseBrace),
        Some(additions) => {
            put_marker(printer, root.is_empty())?;
            put_additions(alloc, additions, printer)?;
            printer.sign(Sign::CloseBrace)
        }
    }
}

#[cycle(put)]
#[tactic(auto, using(crate::proofs::Printed::run_append))]
fn put_list(
    alloc: Global,
    item: &Shape,
    size: Size,
    printer: &mut Printer,
) -> Result<(), AllocError>
    ensures { Puts (type_tokens (sequence_of size (type_of item.now))) printer.old result printer.new }
{
    printer.word("SEQUENCE")?;
    put_size(alloc, printer, size)?;
    printer.word("OF")?;
    put_type(alloc, item, printer)
}

#[cycle(put)]
fn put_choice(alloc: Global, shape: &Shape, printer: &mut Printer) -> Result<(), AllocError>
    requires { IsChoice shape.now }
    ensures { Puts (type_tokens (type_of shape.now)) printer.old result printer.new }
{
    let Shape::Choice { root, additions } = shape else {
        unreachable!()
    };
    open(printer, "CHOICE")?;
    put_alternatives(alloc, root, printer, true)?;
    match additions {
        None => printer.sign(Sign::CloseBrace),
        Some(additions) => {
            put_marker(printer, root.is_empty())?;
            put_alternatives(alloc, additions, printer, false)?;
            printer.sign(Sign::CloseBrace)
        }
    }
}

#[cycle(put)]
#[tactic(auto, using(crate::proofs::Printed::run_append))]
fn put_fields(alloc: Global, fields: &[Field], printer: &mut Printer) -> Result<(), AllocError>
    ensures { Puts (joined (field_parts (fields_of fields.now))) printer.old result printer.new }
{
    let mut first = true;
    for field in fields {
        put_comma(printer, first)?;
        first = false;
        put_field(alloc, field, printer)?;
    }
    Ok(())
}

#[cycle(put)]
#[tactic(auto, using(crate::proofs::Printed::run_append))]
fn put_field(alloc: Global, field: &Field, printer: &mut Printer) -> Result<(), AllocError>
    ensures { Puts (field_part (seen_field field.now)) printer.old result printer.new }
{
    printer.word(field.name.as_str())?;
    put_type(alloc, &field.shape, printer)?;
    put_need(alloc, printer, &field.need, &field.shape)
}

/// What makes a component of the type optional.
fn put_need(
    alloc: Global,
    printer: &mut Printer,
    need: &Need,
    shape: &Shape,
) -> Result<(), AllocError>
    ensures { Puts (need_tokens (items_of (type_of shape.now)) (need_of need.now)) printer.old result printer.new }
{
    match need {
        Need::Must => Ok(()),
        Need::May => printer.word("OPTIONAL"),
        Need::Default(value) => {
            printer.word("DEFAULT")?;
            put_value(alloc, printer, value, shape)
        }
    }
}

/// Additions, each after a comma.
#[cycle(put)]
#[tactic(auto, using(crate::proofs::Printed::run_append))]
fn put_additions(
    alloc: Global,
    additions: &[Addition],
    printer: &mut Printer,
) -> Result<(), AllocError>
    ensures { Puts (after_commas (addition_parts (additions_of additions.now))) printer.old result printer.new }
{
    for addition in additions {
        printer.sign(Sign::Comma)?;
        printer.word(addition.name.as_str())?;
        put_type(alloc, &addition.shape, printer)?;
    }
    Ok(())
}

/// Alternatives, with commas between them, and with one before them unless they stand first.
#[cycle(put)]
#[tactic(auto, using(crate::proofs::Printed::run_append))]
fn put_alternatives(
    alloc: Global,
    alts: &[Alt],
    printer: &mut Printer,
    first: bool,
) -> Result<(), AllocError>
    ensures { Puts (joined_from first (root_parts (root_of alts.now no_alternatives))) printer.old result printer.new }
{
    let mut first = first;
    for alt in alts {
        put_comma(printer, first)?;
        first = false;
        put_alternative(alloc, alt, printer)?;
    }
    Ok(())
}

#[cycle(put)]
#[tactic(auto, using(crate::proofs::Printed::run_append))]
fn put_alternative(alloc: Global, alt: &Alt, printer: &mut Printer) -> Result<(), AllocError>
    ensures { Puts (alternative_part (seen_alternative alt.now)) printer.old result printer.new }
{
    printer.word(alt.name.as_str())?;
    put_tag(alloc, printer, alt.tag)?;
    put_type(alloc, &alt.shape, printer)
}
