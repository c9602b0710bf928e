//! From tokens to a type.
ghost use Rattle.std.specs.Prelude.{◌≡◌, [], option_map, IfOk, OnOk, Some, false};
ghost use Rattle.oer_values.specs.ShapeView.{named_number, seen_addition, seen_alternative, seen_field, type_of};
ghost use Rattle.oer_value_notation.specs.State.{IsReading, state_of};
ghost use Rattle.oer_notation.specs.Reading.{addition_at, alternative_at, alternatives_more, body_at, choice_at, choice_of_choices, class_at, component_at, components_more, field_at, find, is_start, item_at, item_number_at, items_at, items_more, leaf_at, leaf_type_at, list_at, missing_number, missing_tag, most, named_at, no_choices, no_components, numbered_at, past_marker, sequence_at, sequence_of_components, skip_second, start_at, structure_at, tag_at, tagged_at, type_at, with_alternative, word_type};
ghost use Rattle.oer_lexer.specs.LeafWords.{words_of};
ghost use Rattle.oer_value_notation.specs.Leaves.{leaf_form};
ghost use Rattle.oer_types.specs.AnyFault.{any_fault, any_fault_here, inside};
ghost use Rattle.oer_notation.specs.Soundness.{Tells, TellsMore, choices_have_fault, components_have_fault};
ghost use Rattle.oer_notation.specs.Views.{choices, components, known_by, named, start_of};

use crate::known::{Definitions, find};
use oer_lexer::{LeafWord, Sign, Token};
use oer_types::{
    Addition, Alt, Field, Item, SchemaFault, Shape, has_any_fault_here, is_within_depth, parts_left,
};
use oer_units::{Class, Tag};
use oer_value_notation::{
    Cursor, TextFault, TextWhy, TypeWord, is_name, read_bounds, read_bracketed_size,
    read_item_number, read_list_size, read_need, read_tag_number, type_word,
};
use std::alloc::{AllocFailed, Global};

/// With what a type begins.
#[derive(Clone, Copy)]
pub enum Start<'t> {
    Nothing,
    Word(TypeWord),
    Name(&'t str),
}

/// The items of an enumeration, and whether there is an extension marker.
#[derive(Drop)]
pub struct Items {
    pub items: Vec<Item>,
    pub extensible: bool,
}

/// What stands in the braces of a SEQUENCE, and whether there is an extension marker.
#[derive(Drop)]
pub struct Body {
    pub root: Vec<Field>,
    pub added: Vec<Addition>,
    pub extensible: bool,
}

/// The alternatives of a CHOICE, before the extension marker and after it, and whether there is one.
#[derive(Drop)]
pub struct Alternatives {
    pub root: Vec<Alt>,
    pub added: Vec<Alt>,
    pub extensible: bool,
}

/// With what the type at the next token begins.
#[tactic(auto, unfolding(crate::specs::Reading::start_at))]
pub fn begin<'t>(cursor: &Cursor<'_, 't>) -> Start<'t>
    ensures { start_of result ≡ start_at (state_of cursor.now) }
{
    let Some(Token::Word(word)) = cursor.peek() else {
        return Start::Nothing;
    };
    if let Some(found) = type_word(word) {
        return Start::Word(found);
    }
    if is_name(word) {
        return Start::Name(word);
    }
    Start::Nothing
}

fn is_at_start(cursor: &Cursor<'_, '_>) -> bool
    ensures { result ≡ is_start (start_at (state_of cursor.now)) }
{
    match begin(cursor) {
        Start::Nothing => false,
        _ => true,
    }
}

/// Whether the extension marker was seen before or stands after a comma here; then it is taken.
fn past_marker(cursor: &mut Cursor<'_, '_>, seen: bool) -> bool
    ensures { past_marker seen (state_of cursor.old) ≡ (result, state_of cursor.new) }
{
    if seen || !cursor.is_at(Sign::Comma) || !cursor.is_before(Sign::Ellipsis) {
        return seen;
    }
    cursor.bump();
    cursor.bump();
    true
}

/// Mixed where the other items have numbers and this one has none.
fn missing_number(cursor: &Cursor<'_, '_>) -> TextFault
    ensures { result ≡ missing_number (state_of cursor.now) }
{
    if cursor.is_at(Sign::Comma) || cursor.is_at(Sign::CloseBrace) {
        return cursor.fault(TextWhy::Mixed);
    }
    cursor.fault(TextWhy::Syntax)
}

#[tactic(auto, unfolding(crate::specs::Reading::item_number_at))]
fn read_number_in_brackets(cursor: &mut Cursor<'_, '_>) -> Result<i64, TextFault>
    ensures { IsReading (λ n. (n, state_of cursor.new)) result (item_number_at (state_of cursor.old)) }
{
    if !cursor.take(Sign::OpenParenthesis) {
        return Err(missing_number(cursor));
    }
    let number = read_item_number(cursor)?;
    cursor.expect(Sign::CloseParenthesis)?;
    Ok(number)
}

#[tactic(auto, unfolding(crate::specs::Reading::numbered_at))]
fn read_numbered(cursor: &mut Cursor<'_, '_>, numbered: bool, place: u16) -> Result<i64, TextFault>
    ensures { IsReading (λ n. (n, state_of cursor.new)) result (numbered_at numbered place (state_of cursor.old)) }
{
    if numbered {
        return read_number_in_brackets(cursor);
    }
    if cursor.is_at(Sign::OpenParenthesis) {
        return Err(cursor.fault(TextWhy::Mixed));
    }
    Ok(i64::from(place))
}

#[tactic(auto, unfolding(crate::specs::Reading::item_at))]
fn read_item(
    alloc: Global,
    cursor: &mut Cursor<'_, '_>,
    numbered: bool,
    place: u16,
) -> Result<Item, TextFault>
    ensures { IsReading (λ i. (named_number i, state_of cursor.new)) result (item_at numbered place (state_of cursor.old)) }
{
    let full = cursor.full();
    let name = cursor.id()?;
    cursor.part(full)?;
    let number = read_numbered(cursor, numbered, place)?;
    let name = String::from_str(alloc, name)?;
    Ok(Item { name, number })
}

fn read_items(
    alloc: Global,
    cursor: &mut Cursor<'_, '_>,
    numbered: bool,
) -> Result<Items, TextFault>
    ensures { IsReading (λ i. (named i, state_of cursor.new)) result (items_more numbered most 0 ([], false) (state_of cursor.old)) }
{
    let mut found = Items {
        items: Vec::new(alloc),
        extensible: false,
    };
    'items: for place in 0..u16::MAX {
        let item = read_item(alloc, cursor, numbered, place)?;
        found.items.push(item)?;
        found.extensible = past_marker(cursor, found.extensible);
        if !cursor.take(Sign::Comma) {
            return Ok(found);
        }
    }
    Err(cursor.stop)
}

#[tactic(auto, unfolding(crate::specs::Reading::items_at))]
fn read_enumerated(alloc: Global, cursor: &mut Cursor<'_, '_>) -> Result<Items, TextFault>
    ensures { IsReading (λ i. (named i, state_of cursor.new)) result (items_at (state_of cursor.old)) }
{
    cursor.expect(Sign::OpenBrace)?;
    let numbered = cursor.is_before(Sign::OpenParenthesis);
    let found = read_items(alloc, cursor, numbered)?;
    cursor.expect(Sign::CloseBrace)?;
    Ok(found)
}

/// The class word of a tag; without one the class is context.
fn read_class(cursor: &mut Cursor<'_, '_>) -> Class
    ensures { class_at (state_of cursor.old) ≡ (result, state_of cursor.new) }
{
    if cursor.take_word("UNIVERSAL") {
        return Class::Universal;
    }
    if cursor.take_word("APPLICATION") {
        return Class::Application;
    }
    if cursor.take_word("PRIVATE") {
        return Class::Private;
    }
    Class::Context
}

/// A tag, after its opening bracket.
#[tactic(auto, unfolding(crate::specs::Reading::tag_at))]
fn read_tag(cursor: &mut Cursor<'_, '_>) -> Result<Tag, TextFault>
    ensures { IsReading (λ t. (t, state_of cursor.new)) result (tag_at (state_of cursor.old)) }
{
    let class = read_class(cursor);
    let number = read_tag_number(cursor)?;
    cursor.expect(Sign::CloseBracket)?;
    Ok(Tag { class, number })
}

/// Mixed where the other alternatives have tags and this one has none.
fn missing_tag(cursor: &Cursor<'_, '_>) -> TextFault
    ensures { result ≡ missing_tag (state_of cursor.now) }
{
    if is_at_start(cursor) {
        return cursor.fault(TextWhy::Mixed);
    }
    cursor.fault(TextWhy::Syntax)
}

#[tactic(auto, unfolding(crate::specs::Reading::tagged_at))]
fn read_tagged(cursor: &mut Cursor<'_, '_>, tagged: bool, place: u16) -> Result<Tag, TextFault>
    ensures { IsReading (λ t. (t, state_of cursor.new)) result (tagged_at tagged place (state_of cursor.old)) }
{
    if !tagged {
        if cursor.is_at(Sign::OpenBracket) {
            return Err(cursor.fault(TextWhy::Mixed));
        }
        return Ok(Tag {
            class: Class::Context,
            number: u32::from(place),
        });
    }
    if !cursor.take(Sign::OpenBracket) {
        return Err(missing_tag(cursor));
    }
    read_tag(cursor)
}

/// The type that a definition gave a Name, as if it were written out.
#[tactic(auto, unfolding(crate::specs::Reading::named_at))]
fn read_named(
    alloc: Global,
    types: &Definitions,
    cursor: &mut Cursor<'_, '_>,
    levels: u8,
    name: &str,
) -> Result<Shape, TextFault>
    ensures read { IsReading (λ s. (type_of s, state_of cursor.new)) result (named_at levels (find (known_by types.now) name.now) (state_of cursor.old)) }
    ensures sound { IfOk result (λ s. any_fault (type_of s) ≡ false) }
{
    let Some(schema) = find(types, name) else {
        return Err(cursor.fault(TextWhy::Name));
    };
    read_known(alloc, schema.shape(), cursor, levels)
}

#[tactic(auto, using(crate::proofs::Definitions::named_none, crate::proofs::Definitions::named_deep, crate::proofs::Definitions::named_full, crate::proofs::Definitions::named_taken))]
fn read_known(
    alloc: Global,
    shape: &Shape,
    cursor: &mut Cursor<'_, '_>,
    levels: u8,
) -> Result<Shape, TextFault>
    ensures read { IsReading (λ s. (type_of s, state_of cursor.new)) result (named_at levels (Some (type_of shape.now)) (state_of cursor.old)) }
    ensures same { IfOk result (λ s. type_of s ≡ type_of shape.now) }
{
    let deep = cursor.fault(TextWhy::Schema(SchemaFault::TooDeep));
    if levels == 0 {
        return Err(deep);
    }
    if !is_within_depth(shape, levels) {
        return Err(deep);
    }
    let Some(left) = parts_left(shape, cursor.parts) else {
        return Err(cursor.full());
    };
    let shape = shape.clone_in(alloc)?;
    cursor.parts = left;
    cursor.bump();
    Ok(shape)
}

/// Clears `sound` if the type has a fault of its own.
#[inline(never)]
fn note_fault(shape: &Shape, sound: &mut bool)
    ensures { Tells sound.old sound.new (any_fault_here (type_of shape.now)) }
{
    if *sound && has_any_fault_here(shape) {
        *sound = false;
    }
}

/// A type, in which so many levels of types may nest. Each type that it reads is asked once for faults of
/// its own; one that a Name stands for was asked in its definition. It stays `sound` only where none was found.
#[cycle(types)]
#[tactic(auto, unfolding(crate::specs::Reading::type_at))]
pub fn read_type(
    alloc: Global,
    types: &Definitions,
    cursor: &mut Cursor<'_, '_>,
    levels: u8,
    sound: &mut bool,
) -> Result<Shape, TextFault>
    ensures read { IsReading (λ s. (type_of s, state_of cursor.new)) result (type_at (known_by types.now) levels (state_of cursor.old)) }
    ensures sound { IfOk result (λ s. Tells sound.old sound.new (any_fault (type_of s))) }
{
    match begin(cursor) {
        Start::Nothing => Err(cursor.fault(TextWhy::Syntax)),
        Start::Name(name) => read_named(alloc, types, cursor, levels, name),
        Start::Word(word) => {
            if levels == 0 {
                return Err(cursor.fault(TextWhy::Schema(SchemaFault::TooDeep)));
            }
            let full = cursor.full();
            cursor.part(full)?;
            cursor.bump();
            let shape = read_word_type(alloc, types, cursor, levels - 1, sound, word)?;
            note_fault(&shape, sound);
            Ok(shape)
        }
    }
}

/// What follows the word with which a type begins.
#[cycle(types)]
#[tactic(auto, unfolding(crate::specs::Reading::word_type))]
fn read_word_type(
    alloc: Global,
    types: &Definitions,
    cursor: &mut Cursor<'_, '_>,
    levels: u8,
    sound: &mut bool,
    word: TypeWord,
) -> Result<Shape, TextFault>
    ensures read { IsReading (λ s. (type_of s, state_of cursor.new)) result (word_type (type_at (known_by types.now) levels) word (state_of cursor.old)) }
    ensures sound { IfOk result (λ s. Tells sound.old sound.new (inside any_fault_here (type_of s))) }
{
    match word {
        TypeWord::Sequence => read_sequence(alloc, types, cursor, levels, sound),
        TypeWord::Choice => read_choice(alloc, types, cursor, levels, sound),
        TypeWord::Leaf(leaf) => read_leaf(alloc, cursor, leaf),
    }
}

/// A type that holds no other, after its first word.
#[tactic(auto, unfolding(crate::specs::Reading::leaf_type_at))]
fn read_leaf(alloc: Global, cursor: &mut Cursor<'_, '_>, leaf: LeafWord) -> Result<Shape, TextFault>
    ensures { IsReading (λ s. (type_of s, state_of cursor.new)) result (leaf_type_at leaf (state_of cursor.old)) }
{
    skip_second(cursor, leaf)?;
    read_constraint(alloc, cursor, leaf)
}

/// The second word of a type, if it has one.
fn skip_second(cursor: &mut Cursor<'_, '_>, leaf: LeafWord) -> Result<(), TextFault>
    ensures { IsReading (λ x. (x, state_of cursor.new)) result (skip_second (words_of leaf).1 (state_of cursor.old)) }
{
    match leaf.words().second {
        Some(word) => cursor.expect_word(word),
        None => Ok(()),
    }
}

/// What stands after the words of a type that holds no other.
#[tactic(auto, unfolding(crate::specs::Reading::leaf_at))]
fn read_constraint(
    alloc: Global,
    cursor: &mut Cursor<'_, '_>,
    leaf: LeafWord,
) -> Result<Shape, TextFault>
    ensures { IsReading (λ s. (type_of s, state_of cursor.new)) result (leaf_at (leaf_form leaf) (state_of cursor.old)) }
{
    match leaf {
        LeafWord::Boolean => Ok(Shape::Boolean),
        LeafWord::Null => Ok(Shape::Null),
        LeafWord::ObjectIdentifier => Ok(Shape::ObjectId),
        LeafWord::Integer => {
            let bounds = read_bounds(cursor)?;
            Ok(Shape::Integer {
                low: bounds.low,
                high: bounds.high,
            })
        }
        LeafWord::Enumerated => {
            let found = read_enumerated(alloc, cursor)?;
            Ok(Shape::Enumerated {
                items: found.items,
                extensible: found.extensible,
            })
        }
        LeafWord::OctetString => Ok(Shape::OctetString(read_bracketed_size(cursor)?)),
        LeafWord::BitString => Ok(Shape::BitString(read_bracketed_size(cursor)?)),
        LeafWord::Ia5String => Ok(Shape::Ia5(read_bracketed_size(cursor)?)),
        LeafWord::VisibleString => Ok(Shape::Visible(read_bracketed_size(cursor)?)),
        LeafWord::NumericString => Ok(Shape::Numeric(read_bracketed_size(cursor)?)),
        LeafWord::PrintableString => Ok(Shape::Printable(read_bracketed_size(cursor)?)),
        LeafWord::Utf8String => Ok(Shape::Utf8(read_bracketed_size(cursor)?)),
    }
}

#[cycle(types)]
#[tactic(auto, unfolding(crate::specs::Reading::sequence_at))]
fn read_sequence(
    alloc: Global,
    types: &Definitions,
    cursor: &mut Cursor<'_, '_>,
    levels: u8,
    sound: &mut bool,
) -> Result<Shape, TextFault>
    ensures read { IsReading (λ s. (type_of s, state_of cursor.new)) result (sequence_at (type_at (known_by types.now) levels) (state_of cursor.old)) }
    ensures sound { IfOk result (λ s. Tells sound.old sound.new (inside any_fault_here (type_of s))) }
{
    if cursor.take(Sign::OpenBrace) {
        return read_structure(alloc, types, cursor, levels, sound);
    }
    read_list(alloc, types, cursor, levels, sound)
}

#[cycle(types)]
#[tactic(auto, unfolding(crate::specs::Reading::list_at))]
fn read_list(
    alloc: Global,
    types: &Definitions,
    cursor: &mut Cursor<'_, '_>,
    levels: u8,
    sound: &mut bool,
) -> Result<Shape, TextFault>
    ensures read { IsReading (λ s. (type_of s, state_of cursor.new)) result (list_at (type_at (known_by types.now) levels) (state_of cursor.old)) }
    ensures sound { IfOk result (λ s. Tells sound.old sound.new (inside any_fault_here (type_of s))) }
{
    let size = read_list_size(cursor)?;
    cursor.expect_word("OF")?;
    let item = read_type(alloc, types, cursor, levels, sound)?;
    Ok(Shape::SequenceOf {
        size,
        item: Box::new(alloc, item)?,
    })
}

#[cycle(types)]
#[tactic(auto, unfolding(crate::specs::Reading::structure_at))]
fn read_structure(
    alloc: Global,
    types: &Definitions,
    cursor: &mut Cursor<'_, '_>,
    levels: u8,
    sound: &mut bool,
) -> Result<Shape, TextFault>
    ensures read { IsReading (λ s. (type_of s, state_of cursor.new)) result (structure_at (type_at (known_by types.now) levels) (state_of cursor.old)) }
    ensures sound { IfOk result (λ s. Tells sound.old sound.new (inside any_fault_here (type_of s))) }
{
    let mut body = Body {
        root: Vec::new(alloc),
        added: Vec::new(alloc),
        extensible: false,
    };
    read_body(alloc, types, cursor, levels, sound, &mut body)?;
    cursor.expect(Sign::CloseBrace)?;
    Ok(sequence(body))
}

fn sequence(body: Body) -> Shape
    ensures { type_of result ≡ sequence_of_components (components body) }
{
    if body.extensible {
        return Shape::Sequence {
            root: body.root,
            additions: Some(body.added),
        };
    }
    Shape::Sequence {
        root: body.root,
        additions: None,
    }
}

#[cycle(types)]
#[tactic(auto, unfolding(crate::specs::Reading::body_at))]
fn read_body(
    alloc: Global,
    types: &Definitions,
    cursor: &mut Cursor<'_, '_>,
    levels: u8,
    sound: &mut bool,
    body: &mut Body,
) -> Result<(), TextFault>
    requires { components body.old ≡ no_components false }
    ensures read { IsReading (λ x. (components body.new, state_of cursor.new)) result (body_at (type_at (known_by types.now) levels) (state_of cursor.old)) }
    ensures sound { OnOk result (TellsMore sound.old sound.new (components_have_fault (components body.old)) (components_have_fault (components body.new))) }
{
    if cursor.is_at(Sign::CloseBrace) {
        return Ok(());
    }
    if !cursor.take(Sign::Ellipsis) {
        return read_components(alloc, types, cursor, levels, sound, body);
    }
    body.extensible = true;
    if !cursor.take(Sign::Comma) {
        return Ok(());
    }
    read_components(alloc, types, cursor, levels, sound, body)
}

#[cycle(types)]
fn read_components(
    alloc: Global,
    types: &Definitions,
    cursor: &mut Cursor<'_, '_>,
    levels: u8,
    sound: &mut bool,
    body: &mut Body,
) -> Result<(), TextFault>
    ensures read { IsReading (λ x. (components body.new, state_of cursor.new)) result (components_more (type_at (known_by types.now) levels) most (components body.old) (state_of cursor.old)) }
    ensures sound { OnOk result (TellsMore sound.old sound.new (components_have_fault (components body.old)) (components_have_fault (components body.new))) }
{
    'components: for turn in 0..u16::MAX {
        read_component(alloc, types, cursor, levels, sound, body)?;
        body.extensible = past_marker(cursor, body.extensible);
        if !cursor.take(Sign::Comma) {
            return Ok(());
        }
    }
    Err(cursor.stop)
}

/// A component, or after the extension marker an addition, beside those before it.
#[cycle(types)]
#[tactic(auto, unfolding(crate::specs::Reading::component_at))]
fn read_component(
    alloc: Global,
    types: &Definitions,
    cursor: &mut Cursor<'_, '_>,
    levels: u8,
    sound: &mut bool,
    body: &mut Body,
) -> Result<(), TextFault>
    ensures read { IsReading (λ x. (components body.new, state_of cursor.new)) result (component_at (type_at (known_by types.now) levels) (components body.old) (state_of cursor.old)) }
    ensures sound { OnOk result (TellsMore sound.old sound.new (components_have_fault (components body.old)) (components_have_fault (components body.new))) }
{
    if body.extensible {
        let addition = read_addition(alloc, types, cursor, levels, sound)?;
        body.added.push(addition)?;
        return Ok(());
    }
    let field = read_field(alloc, types, cursor, levels, sound)?;
    body.root.push(field)?;
    Ok(())
}

#[cycle(types)]
#[tactic(auto, unfolding(crate::specs::Reading::field_at))]
fn read_field(
    alloc: Global,
    types: &Definitions,
    cursor: &mut Cursor<'_, '_>,
    levels: u8,
    sound: &mut bool,
) -> Result<Field, TextFault>
    ensures read { IsReading (λ f. (seen_field f, state_of cursor.new)) result (field_at (type_at (known_by types.now) levels) (state_of cursor.old)) }
    ensures sound { IfOk result (λ f. Tells sound.old sound.new (any_fault (seen_field f).type)) }
{
    let name = cursor.id()?;
    let name = String::from_str(alloc, name)?;
    let shape = read_type(alloc, types, cursor, levels, sound)?;
    let need = read_need(alloc, cursor, &shape)?;
    Ok(Field { name, shape, need })
}

#[cycle(types)]
#[tactic(auto, unfolding(crate::specs::Reading::addition_at))]
fn read_addition(
    alloc: Global,
    types: &Definitions,
    cursor: &mut Cursor<'_, '_>,
    levels: u8,
    sound: &mut bool,
) -> Result<Addition, TextFault>
    ensures read { IsReading (λ a. (seen_addition a, state_of cursor.new)) result (addition_at (type_at (known_by types.now) levels) (state_of cursor.old)) }
    ensures sound { IfOk result (λ a. Tells sound.old sound.new (any_fault (seen_addition a).type)) }
{
    let name = cursor.id()?;
    let name = String::from_str(alloc, name)?;
    let shape = read_type(alloc, types, cursor, levels, sound)?;
    let _ = cursor.take_word("OPTIONAL");
    Ok(Addition { name, shape })
}

#[cycle(types)]
#[tactic(auto, unfolding(crate::specs::Reading::choice_at))]
fn read_choice(
    alloc: Global,
    types: &Definitions,
    cursor: &mut Cursor<'_, '_>,
    levels: u8,
    sound: &mut bool,
) -> Result<Shape, TextFault>
    ensures read { IsReading (λ s. (type_of s, state_of cursor.new)) result (choice_at (type_at (known_by types.now) levels) (state_of cursor.old)) }
    ensures sound { IfOk result (λ s. Tells sound.old sound.new (inside any_fault_here (type_of s))) }
{
    cursor.expect(Sign::OpenBrace)?;
    let tagged = cursor.is_before(Sign::OpenBracket);
    let found = read_alternatives(alloc, types, cursor, levels, sound, tagged)?;
    cursor.expect(Sign::CloseBrace)?;
    Ok(choice(found))
}

fn choice(found: Alternatives) -> Shape
    ensures { type_of result ≡ choice_of_choices (choices found) }
{
    if found.extensible {
        return Shape::Choice {
            root: found.root,
            additions: Some(found.added),
        };
    }
    Shape::Choice {
        root: found.root,
        additions: None,
    }
}

#[cycle(types)]
fn read_alternatives(
    alloc: Global,
    types: &Definitions,
    cursor: &mut Cursor<'_, '_>,
    levels: u8,
    sound: &mut bool,
    tagged: bool,
) -> Result<Alternatives, TextFault>
    ensures read { IsReading (λ a. (choices a, state_of cursor.new)) result (alternatives_more (type_at (known_by types.now) levels) tagged most 0 no_choices (state_of cursor.old)) }
    ensures sound { IfOk result (λ a. Tells sound.old sound.new (choices_have_fault (choices a))) }
{
    let mut found = Alternatives {
        root: Vec::new(alloc),
        added: Vec::new(alloc),
        extensible: false,
    };
    'alternatives: for place in 0..u16::MAX {
        let alternative = read_alternative(alloc, types, cursor, levels, sound, tagged, place)?;
        add_alternative(&mut found, alternative)?;
        found.extensible = past_marker(cursor, found.extensible);
        if !cursor.take(Sign::Comma) {
            return Ok(found);
        }
    }
    Err(cursor.stop)
}

fn add_alternative(found: &mut Alternatives, alternative: Alt) -> Result<(), AllocFailed<Alt>>
    ensures { OnOk result (choices found.new ≡ with_alternative (seen_alternative alternative) (choices found.old)) }
{
    if found.extensible {
        return found.added.push(alternative);
    }
    found.root.push(alternative)
}

#[cycle(types)]
#[tactic(auto, unfolding(crate::specs::Reading::alternative_at))]
fn read_alternative(
    alloc: Global,
    types: &Definitions,
    cursor: &mut Cursor<'_, '_>,
    levels: u8,
    sound: &mut bool,
    tagged: bool,
    place: u16,
) -> Result<Alt, TextFault>
    ensures read { IsReading (λ a. (seen_alternative a, state_of cursor.new)) result (alternative_at (type_at (known_by types.now) levels) tagged place (state_of cursor.old)) }
    ensures sound { IfOk result (λ a. Tells sound.old sound.new (any_fault (seen_alternative a).type)) }
{
    let name = cursor.id()?;
    let tag = read_tagged(cursor, tagged, place)?;
    let name = String::from_str(alloc, name)?;
    let shape = read_type(alloc, types, cursor, levels, sound)?;
    Ok(Alt { name, tag, shape })
}
