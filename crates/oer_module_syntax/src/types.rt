//! From tokens to a type.
ghost use Rattle.std.specs.Prelude.{◌≡◌, suc, length, map, option_map, Ok};
ghost use Rattle.oer_module_lexer.specs.Token.{spots_of};
ghost use Rattle.oer_module_syntax.specs.Ranges.{front_of, pairs_len};
ghost use Rattle.oer_module_syntax.specs.declared.range.Pair.TheVariants.{Step};
ghost use Rattle.oer_module_syntax.specs.State.{IsReading, first, state_of};
ghost use Rattle.oer_module_syntax.specs.Tree.{element_of, need_of, tree_of};
ghost use Rattle.oer_module_syntax.specs.Types.{any_defined_at, any_type_at, begun_at, braces_at, choice_at, class_at, component_at, components_of_at, element_at, form_of, formed_at, instance_at, is_class, is_number, item_name_at, items_at, list_at, listed, marker_at, member_at, members_at, mode_at, more_listed, named_at, need_at, one_at, plain_at, selection_at, sequence_at, size_at, skip_second, small_at, structure_at, tagged_at, type_at, unbuilt_at, version_at, worded_at};
ghost use Rattle.oer_module_syntax.specs.Words.{builtin_of, builtin_second};

use crate::cursor::Cursor;
use crate::fault::{Fault, Sought, Why};
use crate::look::{after, begins_type, is_at_any_defined, is_at_field_step};
use crate::range::{
    Pair, no_spots, pairs_len, take_constraints, take_exception, take_group, take_value,
};
use crate::tree::{Element, Mode, Need, TypeSyntax};
use crate::word::{Builtin, Keyword, builtin_of, is_identifier, is_reference, is_useful_class};
use oer_module_lexer::{Sign, Spot, Token};
use std::alloc::Global;

/// What may follow the words of a type.
#[derive(Clone, Copy)]
pub enum Form {
    Nothing,
    /// Items in braces.
    Items,
    /// Items in braces, or nothing.
    MaybeItems,
    /// Components in braces, or OF and a type.
    Components,
    /// Alternatives in braces.
    Alternatives,
}

fn form_of(builtin: Builtin) -> Form
    ensures { result ≡ form_of builtin }
{
    match builtin {
        Builtin::Sequence | Builtin::Set => Form::Components,
        Builtin::Choice => Form::Alternatives,
        Builtin::Enumerated => Form::Items,
        Builtin::Integer | Builtin::BitString => Form::MaybeItems,
        _ => Form::Nothing,
    }
}

/// The second word of a type, if it has one.
fn skip_second(cursor: &mut Cursor<'_, '_>, builtin: Builtin) -> Result<(), Fault>
    ensures { IsReading (λ x. (x, state_of cursor.new)) result (skip_second (builtin_second builtin) (state_of cursor.old)) }
{
    match builtin.second() {
        Some(word) => cursor.expect_keyword(word),
        None => Ok(()),
    }
}

fn take_items<'s, 't>(
    alloc: Global,
    cursor: &mut Cursor<'s, 't>,
    form: Form,
) -> Result<&'s [Spot<'t>], Fault>
    ensures { IsReading (λ r. (spots_of r.now, state_of cursor.new)) result (items_at form (state_of cursor.old)) }
{
    match form {
        Form::Items => {
            if !cursor.is_at(Sign::OpenBrace) {
                return Err(cursor.fault(Why::Expected(Sought::Sign(Sign::OpenBrace))));
            }
            take_group(alloc, cursor, Sign::OpenBrace)
        }
        Form::MaybeItems => take_group(alloc, cursor, Sign::OpenBrace),
        _ => Ok(no_spots()),
    }
}

/// A type that holds no other, after its first word.
#[tactic(auto, unfolding(crate::specs::Types::plain_at), using(crate::proofs::Trees::trees))]
fn read_plain<'s, 't>(
    alloc: Global,
    cursor: &mut Cursor<'s, 't>,
    at: usize,
    builtin: Builtin,
) -> Result<TypeSyntax<'s, 't>, Fault>
    ensures { IsReading (λ t. (tree_of t, state_of cursor.new)) result (plain_at at builtin (state_of cursor.old)) }
{
    skip_second(cursor, builtin)?;
    let items = take_items(alloc, cursor, form_of(builtin))?;
    let constraints = take_constraints(alloc, cursor)?;
    Ok(TypeSyntax::Plain {
        at,
        builtin,
        items,
        constraints,
    })
}

/// The steps behind a name.
fn take_path<'s, 't>(cursor: &mut Cursor<'s, 't>) -> &'s [Spot<'t>]
    ensures { front_of (pairs_len Step (state_of cursor.old).left) (state_of cursor.old) ≡ Ok (spots_of result.now, state_of cursor.new) }
{
    let count = pairs_len(Pair::Step, cursor.spots);
    cursor.take_front(count)
}

/// A type by its name, at the name.
#[tactic(auto, unfolding(crate::specs::Types::named_at), using(crate::proofs::Trees::trees))]
fn read_named<'s, 't>(
    alloc: Global,
    cursor: &mut Cursor<'s, 't>,
    name: &'t str,
) -> Result<TypeSyntax<'s, 't>, Fault>
    ensures { IsReading (λ t. (tree_of t, state_of cursor.new)) result (named_at name.now (state_of cursor.old)) }
{
    let at = cursor.place();
    cursor.bump();
    let path = take_path(cursor);
    let parameters = take_group(alloc, cursor, Sign::OpenBrace)?;
    let constraints = take_constraints(alloc, cursor)?;
    Ok(TypeSyntax::Named {
        at,
        name,
        path,
        parameters,
        constraints,
    })
}

/// The name of a class, or of its module.
#[tactic(auto, unfolding(crate::specs::Types::class_at))]
fn read_class_name<'s, 't>(cursor: &mut Cursor<'s, 't>) -> Result<&'t str, Fault>
    ensures { IsReading (λ w. (w.now, state_of cursor.new)) result (class_at (state_of cursor.old)) }
{
    let Some(Token::Word(word)) = cursor.peek() else {
        return Err(cursor.fault(Why::Expected(Sought::Reference)));
    };
    if !is_class(word) {
        return Err(cursor.fault(Why::Expected(Sought::Reference)));
    }
    cursor.bump();
    Ok(word)
}

fn is_class(word: &str) -> bool
    ensures { result ≡ is_class word.now }
{
    is_reference(word) || is_useful_class(word)
}

/// INSTANCE OF, at the first word.
#[tactic(auto, unfolding(crate::specs::Types::instance_at), using(crate::proofs::Trees::trees))]
fn read_instance<'s, 't>(
    alloc: Global,
    cursor: &mut Cursor<'s, 't>,
) -> Result<TypeSyntax<'s, 't>, Fault>
    ensures { IsReading (λ t. (tree_of t, state_of cursor.new)) result (instance_at (state_of cursor.old)) }
{
    let at = cursor.place();
    cursor.bump();
    cursor.expect_keyword(Keyword::Of)?;
    let class = read_class_name(cursor)?;
    let path = take_path(cursor);
    let constraints = take_constraints(alloc, cursor)?;
    Ok(TypeSyntax::InstanceOf {
        at,
        class,
        path,
        constraints,
    })
}

/// ANY DEFINED BY, at the first word.
#[tactic(auto, unfolding(crate::specs::Types::any_defined_at), using(crate::proofs::Trees::trees))]
fn read_any_defined<'s, 't>(cursor: &mut Cursor<'s, 't>) -> Result<TypeSyntax<'s, 't>, Fault>
    ensures { IsReading (λ t. (tree_of t, state_of cursor.new)) result (any_defined_at (state_of cursor.old)) }
{
    let at = cursor.place();
    cursor.bump();
    cursor.bump();
    cursor.bump();
    let by = cursor.identifier()?;
    Ok(TypeSyntax::AnyDefinedBy { at, by })
}

/// How a tag is applied.
fn read_mode(cursor: &mut Cursor<'_, '_>) -> Mode
    ensures { mode_at (state_of cursor.old) ≡ (result, state_of cursor.new) }
{
    if cursor.take_keyword(Keyword::Implicit) {
        return Mode::Implicit;
    }
    if cursor.take_keyword(Keyword::Explicit) {
        return Mode::Explicit;
    }
    Mode::Unsaid
}

/// What makes a component optional.
#[tactic(auto, unfolding(crate::specs::Types::need_at))]
fn read_need<'s, 't>(
    alloc: Global,
    cursor: &mut Cursor<'s, 't>,
    alternatives: bool,
) -> Result<Need<'s, 't>, Fault>
    ensures { IsReading (λ n. (need_of n, state_of cursor.new)) result (need_at alternatives (state_of cursor.old)) }
{
    if alternatives {
        return Ok(Need::Must);
    }
    if cursor.take_keyword(Keyword::Optional) {
        return Ok(Need::May);
    }
    if !cursor.take_keyword(Keyword::Default) {
        return Ok(Need::Must);
    }
    let value = take_value(alloc, cursor)?;
    Ok(Need::Default(value))
}

fn is_at_number(cursor: &Cursor<'_, '_>) -> bool
    ensures { result ≡ is_number (first (state_of cursor.now)) }
{
    match cursor.peek() {
        Some(Token::Number(_)) => true,
        _ => false,
    }
}

/// The number of a group, if it has one.
#[tactic(auto, unfolding(crate::specs::Types::version_at))]
fn skip_version(cursor: &mut Cursor<'_, '_>) -> Result<(), Fault>
    ensures { IsReading (λ x. (x, state_of cursor.new)) result (version_at (state_of cursor.old)) }
{
    if !is_at_number(cursor) {
        return Ok(());
    }
    cursor.bump();
    cursor.expect(Sign::Colon)
}

/// The constraint before OF.
#[tactic(auto, unfolding(crate::specs::Types::size_at))]
fn take_size<'s, 't>(
    alloc: Global,
    cursor: &mut Cursor<'s, 't>,
    sized: bool,
) -> Result<&'s [Spot<'t>], Fault>
    ensures { IsReading (λ r. (spots_of r.now, state_of cursor.new)) result (size_at sized (state_of cursor.old)) }
{
    if sized && !cursor.is_at(Sign::OpenParenthesis) {
        return Err(cursor.fault(Why::Expected(Sought::Sign(Sign::OpenParenthesis))));
    }
    take_constraints(alloc, cursor)
}

/// The name of the elements of a list, if they have one.
fn take_item_name<'s, 't>(cursor: &mut Cursor<'s, 't>) -> Option<&'t str>
    ensures { item_name_at (state_of cursor.old) ≡ (option_map (λ w. w.now) result, state_of cursor.new) }
{
    let Some(Token::Word(word)) = cursor.peek() else {
        return None;
    };
    if !is_identifier(word) || begins_type(cursor) {
        return None;
    }
    cursor.bump();
    Some(word)
}

/// The marker and its exception.
#[tactic(auto, unfolding(crate::specs::Types::marker_at), using(crate::proofs::Trees::trees))]
fn read_marker<'s, 't>(alloc: Global, cursor: &mut Cursor<'s, 't>) -> Result<Element<'s, 't>, Fault>
    ensures { IsReading (λ e. (element_of e, state_of cursor.new)) result (marker_at (state_of cursor.old)) }
{
    let at = cursor.place();
    cursor.bump();
    let exception = take_exception(alloc, cursor)?;
    Ok(Element::Marker { at, exception })
}

/// A type, in which so many levels of types may nest (X.680, 17.1). Types, values and braces that are
/// kept as tokens only have to be closed.
///
/// # Errors
/// The first fault from the left: `Token` where no token begins or a token has no end, `TooDeep` where a
/// level is one too many, `Expected` at a token that the grammar doesn't have there, and `Memory`.
#[cycle(types)]
#[tactic(auto, unfolding(crate::specs::Types::type_at, crate::specs::Types::any_type_at))]
pub fn read_type<'s, 't>(
    alloc: Global,
    cursor: &mut Cursor<'s, 't>,
    levels: u8,
) -> Result<TypeSyntax<'s, 't>, Fault>
    ensures { IsReading (λ t. (tree_of t, state_of cursor.new)) result (type_at levels (state_of cursor.old)) }
{
    if levels == 0 {
        return Err(cursor.fault(Why::TooDeep));
    }
    if cursor.is_at(Sign::OpenBracket) {
        return read_tagged(alloc, cursor, levels - 1);
    }
    read_begun(alloc, cursor, levels - 1)
}

/// A type without a tag.
#[cycle(types)]
fn read_begun<'s, 't>(
    alloc: Global,
    cursor: &mut Cursor<'s, 't>,
    levels: u8,
) -> Result<TypeSyntax<'s, 't>, Fault>
    ensures { IsReading (λ t. (tree_of t, state_of cursor.new)) result (begun_at (type_at levels) (first (state_of cursor.old)) (state_of cursor.old)) }
{
    let Some(Token::Word(word)) = cursor.peek() else {
        return Err(cursor.fault(Why::Expected(Sought::Type)));
    };
    let Some(builtin) = builtin_of(word) else {
        return read_unbuilt(alloc, cursor, levels, word);
    };
    let at = cursor.place();
    cursor.bump();
    read_formed(alloc, cursor, levels, at, builtin)
}

/// A type that begins with a word of none that is built in.
#[cycle(types)]
#[tactic(auto, unfolding(crate::specs::Types::unbuilt_at))]
fn read_unbuilt<'s, 't>(
    alloc: Global,
    cursor: &mut Cursor<'s, 't>,
    levels: u8,
    word: &'t str,
) -> Result<TypeSyntax<'s, 't>, Fault>
    ensures { IsReading (λ t. (tree_of t, state_of cursor.new)) result (unbuilt_at (type_at levels) word.now (state_of cursor.old)) }
{
    if cursor.is_at_keyword(Keyword::Instance) {
        return read_instance(alloc, cursor);
    }
    if is_at_any_defined(cursor) {
        return read_any_defined(cursor);
    }
    if is_identifier(word) {
        return read_small(alloc, cursor, levels, word);
    }
    if !is_class(word) {
        return Err(cursor.fault(Why::Expected(Sought::Type)));
    }
    read_named(alloc, cursor, word)
}

/// A type that begins with a small letter: a selection, or a field of an object.
#[cycle(types)]
#[tactic(auto, unfolding(crate::specs::Types::small_at))]
fn read_small<'s, 't>(
    alloc: Global,
    cursor: &mut Cursor<'s, 't>,
    levels: u8,
    word: &'t str,
) -> Result<TypeSyntax<'s, 't>, Fault>
    ensures { IsReading (λ t. (tree_of t, state_of cursor.new)) result (small_at (type_at levels) word.now (state_of cursor.old)) }
{
    if after(cursor).is_at(Sign::Less) {
        return read_selection(alloc, cursor, levels, word);
    }
    if !is_at_field_step(cursor) {
        return Err(cursor.fault(Why::Expected(Sought::Type)));
    }
    read_named(alloc, cursor, word)
}

/// A name, `<` and a type, at the name.
#[cycle(types)]
#[tactic(auto, unfolding(crate::specs::Types::selection_at), using(crate::proofs::Trees::trees))]
fn read_selection<'s, 't>(
    alloc: Global,
    cursor: &mut Cursor<'s, 't>,
    levels: u8,
    name: &'t str,
) -> Result<TypeSyntax<'s, 't>, Fault>
    ensures { IsReading (λ t. (tree_of t, state_of cursor.new)) result (selection_at (type_at levels) name.now (state_of cursor.old)) }
{
    let at = cursor.place();
    cursor.bump();
    cursor.bump();
    let from = read_type(alloc, cursor, levels)?;
    Ok(TypeSyntax::Selection {
        at,
        name,
        from: Box::new(alloc, from)?,
    })
}

/// A type with words of its own, after the first.
#[cycle(types)]
fn read_formed<'s, 't>(
    alloc: Global,
    cursor: &mut Cursor<'s, 't>,
    levels: u8,
    at: usize,
    builtin: Builtin,
) -> Result<TypeSyntax<'s, 't>, Fault>
    ensures { IsReading (λ t. (tree_of t, state_of cursor.new)) result (formed_at (type_at levels) (form_of builtin) at builtin (state_of cursor.old)) }
{
    match form_of(builtin) {
        Form::Components => read_sequence(alloc, cursor, levels, at, builtin),
        Form::Alternatives => read_choice(alloc, cursor, levels, at, builtin),
        Form::Items => read_plain(alloc, cursor, at, builtin),
        Form::MaybeItems => read_plain(alloc, cursor, at, builtin),
        Form::Nothing => read_plain(alloc, cursor, at, builtin),
    }
}

/// A type with a tag.
#[cycle(types)]
#[tactic(auto, unfolding(crate::specs::Types::tagged_at), using(crate::proofs::Trees::trees))]
fn read_tagged<'s, 't>(
    alloc: Global,
    cursor: &mut Cursor<'s, 't>,
    levels: u8,
) -> Result<TypeSyntax<'s, 't>, Fault>
    ensures { IsReading (λ t. (tree_of t, state_of cursor.new)) result (tagged_at (type_at levels) (state_of cursor.old)) }
{
    let at = cursor.place();
    let tag = take_group(alloc, cursor, Sign::OpenBracket)?;
    let mode = read_mode(cursor);
    let inner = read_type(alloc, cursor, levels)?;
    Ok(TypeSyntax::Tagged {
        at,
        tag,
        mode,
        inner: Box::new(alloc, inner)?,
    })
}

/// What follows the word SEQUENCE or SET.
#[cycle(types)]
#[tactic(auto, unfolding(crate::specs::Types::sequence_at))]
fn read_sequence<'s, 't>(
    alloc: Global,
    cursor: &mut Cursor<'s, 't>,
    levels: u8,
    at: usize,
    builtin: Builtin,
) -> Result<TypeSyntax<'s, 't>, Fault>
    ensures { IsReading (λ t. (tree_of t, state_of cursor.new)) result (sequence_at (type_at levels) at builtin (state_of cursor.old)) }
{
    if cursor.take(Sign::OpenBrace) {
        return read_structure(alloc, cursor, levels, at, builtin, false);
    }
    if cursor.take_keyword(Keyword::Size) {
        return read_list(alloc, cursor, levels, at, builtin, true);
    }
    read_list(alloc, cursor, levels, at, builtin, false)
}

/// What follows the word CHOICE.
#[cycle(types)]
#[tactic(auto, unfolding(crate::specs::Types::choice_at))]
fn read_choice<'s, 't>(
    alloc: Global,
    cursor: &mut Cursor<'s, 't>,
    levels: u8,
    at: usize,
    builtin: Builtin,
) -> Result<TypeSyntax<'s, 't>, Fault>
    ensures { IsReading (λ t. (tree_of t, state_of cursor.new)) result (choice_at (type_at levels) at builtin (state_of cursor.old)) }
{
    cursor.expect(Sign::OpenBrace)?;
    read_structure(alloc, cursor, levels, at, builtin, true)
}

/// A SEQUENCE OF or SET OF, after its first word and after SIZE.
#[cycle(types)]
#[tactic(auto, unfolding(crate::specs::Types::list_at), using(crate::proofs::Trees::trees))]
fn read_list<'s, 't>(
    alloc: Global,
    cursor: &mut Cursor<'s, 't>,
    levels: u8,
    at: usize,
    builtin: Builtin,
    sized: bool,
) -> Result<TypeSyntax<'s, 't>, Fault>
    ensures { IsReading (λ t. (tree_of t, state_of cursor.new)) result (list_at (type_at levels) at builtin sized (state_of cursor.old)) }
{
    let size = take_size(alloc, cursor, sized)?;
    cursor.expect_keyword(Keyword::Of)?;
    let name = take_item_name(cursor);
    let item = read_type(alloc, cursor, levels)?;
    Ok(TypeSyntax::ListOf {
        at,
        builtin,
        sized,
        size,
        name,
        item: Box::new(alloc, item)?,
    })
}

/// A SEQUENCE, SET or CHOICE, after the opening brace.
#[cycle(types)]
#[tactic(auto, unfolding(crate::specs::Types::structure_at), using(crate::proofs::Trees::trees))]
fn read_structure<'s, 't>(
    alloc: Global,
    cursor: &mut Cursor<'s, 't>,
    levels: u8,
    at: usize,
    builtin: Builtin,
    alternatives: bool,
) -> Result<TypeSyntax<'s, 't>, Fault>
    ensures { IsReading (λ t. (tree_of t, state_of cursor.new)) result (structure_at (type_at levels) at builtin alternatives (state_of cursor.old)) }
{
    let elements = read_braces(alloc, cursor, levels, alternatives)?;
    cursor.expect(Sign::CloseBrace)?;
    let constraints = take_constraints(alloc, cursor)?;
    Ok(TypeSyntax::Structure {
        at,
        builtin,
        elements,
        constraints,
    })
}

/// What stands in braces, up to the closing one.
#[cycle(types)]
#[tactic(auto, unfolding(crate::specs::Types::braces_at))]
fn read_braces<'s, 't>(
    alloc: Global,
    cursor: &mut Cursor<'s, 't>,
    levels: u8,
    alternatives: bool,
) -> Result<Vec<Element<'s, 't>>, Fault>
    ensures { IsReading (λ v. (map element_of v.items, state_of cursor.new)) result (braces_at (type_at levels) alternatives (state_of cursor.old)) }
{
    if cursor.is_at(Sign::CloseBrace) {
        return Ok(Vec::new(alloc));
    }
    read_elements(alloc, cursor, levels, false, alternatives)
}

/// One or more, joined by commas.
#[cycle(types)]
fn read_elements<'s, 't>(
    alloc: Global,
    cursor: &mut Cursor<'s, 't>,
    levels: u8,
    grouped: bool,
    alternatives: bool,
) -> Result<Vec<Element<'s, 't>>, Fault>
    ensures { IsReading (λ v. (map element_of v.items, state_of cursor.new)) result (listed (one_at (type_at levels) grouped alternatives) (state_of cursor.old)) }
{
    let mut found = Vec::new(alloc);
    let first = read_one(alloc, cursor, levels, grouped, alternatives)?;
    found.push(first)?;
    read_more(alloc, cursor, levels, grouped, alternatives, &mut found)?;
    Ok(found)
}

/// Those behind commas, beside those found.
#[cycle(types)]
fn read_more<'s, 't>(
    alloc: Global,
    cursor: &mut Cursor<'s, 't>,
    levels: u8,
    grouped: bool,
    alternatives: bool,
    found: &mut Vec<Element<'s, 't>>,
) -> Result<(), Fault>
    ensures { IsReading (λ x. (map element_of found.new.items, state_of cursor.new)) result (more_listed (one_at (type_at levels) grouped alternatives) (suc (length (state_of cursor.old).left)) (map element_of found.old.items) (state_of cursor.old)) }
{
    'more: for turn in 0..cursor.spots.len() + 1 {
        if !cursor.take(Sign::Comma) {
            return Ok(());
        }
        let element = read_one(alloc, cursor, levels, grouped, alternatives)?;
        found.push(element)?;
    }
    unreachable!()
}

/// One of what stands between commas.
#[cycle(types)]
fn read_one<'s, 't>(
    alloc: Global,
    cursor: &mut Cursor<'s, 't>,
    levels: u8,
    grouped: bool,
    alternatives: bool,
) -> Result<Element<'s, 't>, Fault>
    ensures { IsReading (λ e. (element_of e, state_of cursor.new)) result (one_at (type_at levels) grouped alternatives (state_of cursor.old)) }
{
    if grouped {
        return read_member(alloc, cursor, levels, alternatives);
    }
    read_element(alloc, cursor, levels, alternatives)
}

/// A marker, a group or a component.
#[cycle(types)]
#[tactic(auto, unfolding(crate::specs::Types::element_at), using(crate::proofs::Trees::trees))]
fn read_element<'s, 't>(
    alloc: Global,
    cursor: &mut Cursor<'s, 't>,
    levels: u8,
    alternatives: bool,
) -> Result<Element<'s, 't>, Fault>
    ensures { IsReading (λ e. (element_of e, state_of cursor.new)) result (element_at (type_at levels) alternatives (state_of cursor.old)) }
{
    if cursor.is_at(Sign::Ellipsis) {
        return read_marker(alloc, cursor);
    }
    let at = cursor.place();
    if cursor.take(Sign::OpenGroup) {
        return read_group(alloc, cursor, levels, at, alternatives);
    }
    read_member(alloc, cursor, levels, alternatives)
}

/// A group, after `[[`.
#[cycle(types)]
#[tactic(auto, unfolding(crate::specs::Types::members_at), using(crate::proofs::Trees::trees))]
fn read_group<'s, 't>(
    alloc: Global,
    cursor: &mut Cursor<'s, 't>,
    levels: u8,
    at: usize,
    alternatives: bool,
) -> Result<Element<'s, 't>, Fault>
    ensures { IsReading (λ e. (element_of e, state_of cursor.new)) result (members_at (type_at levels) at alternatives (state_of cursor.old)) }
{
    skip_version(cursor)?;
    let elements = read_elements(alloc, cursor, levels, true, alternatives)?;
    cursor.expect(Sign::CloseGroup)?;
    Ok(Element::Group { at, elements })
}

/// COMPONENTS OF, or a component.
#[cycle(types)]
#[tactic(auto, unfolding(crate::specs::Types::member_at))]
fn read_member<'s, 't>(
    alloc: Global,
    cursor: &mut Cursor<'s, 't>,
    levels: u8,
    alternatives: bool,
) -> Result<Element<'s, 't>, Fault>
    ensures { IsReading (λ e. (element_of e, state_of cursor.new)) result (member_at (type_at levels) alternatives (state_of cursor.old)) }
{
    if !alternatives && cursor.is_at_keyword(Keyword::Components) {
        return read_components_of(alloc, cursor, levels);
    }
    read_component(alloc, cursor, levels, alternatives)
}

/// COMPONENTS OF, at the first word.
#[cycle(types)]
#[tactic(auto, unfolding(crate::specs::Types::components_of_at), using(crate::proofs::Trees::trees))]
fn read_components_of<'s, 't>(
    alloc: Global,
    cursor: &mut Cursor<'s, 't>,
    levels: u8,
) -> Result<Element<'s, 't>, Fault>
    ensures { IsReading (λ e. (element_of e, state_of cursor.new)) result (components_of_at (type_at levels) (state_of cursor.old)) }
{
    let at = cursor.place();
    cursor.bump();
    cursor.expect_keyword(Keyword::Of)?;
    let from = read_type(alloc, cursor, levels)?;
    Ok(Element::ComponentsOf {
        at,
        from: Box::new(alloc, from)?,
    })
}

/// A component or an alternative.
#[cycle(types)]
#[tactic(auto, unfolding(crate::specs::Types::component_at), using(crate::proofs::Trees::trees))]
fn read_component<'s, 't>(
    alloc: Global,
    cursor: &mut Cursor<'s, 't>,
    levels: u8,
    alternatives: bool,
) -> Result<Element<'s, 't>, Fault>
    ensures { IsReading (λ e. (element_of e, state_of cursor.new)) result (component_at (type_at levels) alternatives (state_of cursor.old)) }
{
    let at = cursor.place();
    let name = cursor.identifier()?;
    let from = read_type(alloc, cursor, levels)?;
    let need = read_need(alloc, cursor, alternatives)?;
    Ok(Element::Component {
        at,
        name,
        from: Box::new(alloc, from)?,
        need,
    })
}
