//! From tokens to modules.
ghost use Rattle.std.specs.Prelude.{◌≡◌, ◌≤◌, [], Ok, suc, length, map, option_map};
ghost use Rattle.oer_module_lexer.specs.Token.{spots_of, token_of};
ghost use Rattle.oer_module_syntax.specs.Modules.{all_of, assigned_at, assignment_at, body_at, braced_at, class_at, content_at, control_len, defined_at, ended, ends_assignments, exported_at, exports_at, extensible_at, goes_on_symbols, id_at, id_name_at, import_at, imports_at, instructions_at, is_end, is_last, is_text, many, module_at, modules_of, past_text, set_at, symbol_at, syntax_at, tags_at, tags_behind, valued_at, versions_at, versions_behind};
ghost use Rattle.oer_module_syntax.specs.Ranges.{front_of};
ghost use Rattle.oer_module_syntax.specs.State.{IsReading, at_sign, first, state_of};
ghost use Rattle.oer_module_syntax.specs.Tree.{assignment_of, body_of, exports_of, import_of, module_of, symbol_of};
ghost use Rattle.oer_module_syntax.specs.Types.{listed, more_listed};
ghost use Rattle.oer_module_lexer.specs.declared.token.Sign.TheVariants.{Semicolon};

use crate::cursor::Cursor;
use crate::fault::{Fault, Sought, Why};
use crate::look::{after, names_value};
use crate::range::{Pair, no_spots, pairs_len, take_group, take_value};
use crate::tree::{Assignment, Body, Exports, Import, Module, Symbol, Tags, Versions};
use crate::types::read_type;
use crate::word::{Keyword, is_identifier, is_reserved};
use oer_module_lexer::{Sign, Spot, Token, Tokens};
use std::alloc::Global;

fn is_at_text(cursor: &Cursor<'_, '_>) -> bool
    ensures { result ≡ is_text (first (state_of cursor.now)) }
{
    match cursor.peek() {
        Some(Token::Text(_)) => true,
        _ => false,
    }
}

/// Goes past the name of a module in the tree of the world, if it is there.
fn skip_text(cursor: &mut Cursor<'_, '_>)
    ensures { state_of cursor.new ≡ past_text (state_of cursor.old) }
{
    if is_at_text(cursor) {
        cursor.bump();
    }
}

/// What instructions in brackets are for, if the header says so.
fn take_instructions<'s, 't>(cursor: &mut Cursor<'s, 't>) -> Option<&'t str>
    ensures { instructions_at (state_of cursor.old) ≡ (option_map (λ w. w.now) result, state_of cursor.new) }
{
    let Some(Token::Word(word)) = cursor.peek() else {
        return None;
    };
    if !after(cursor).is_at_keyword(Keyword::Instructions) {
        return None;
    }
    cursor.bump();
    cursor.bump();
    Some(word)
}

#[tactic(auto, unfolding(crate::specs::Modules::tags_behind))]
fn tags_behind(cursor: &mut Cursor<'_, '_>, tags: Tags) -> Result<Tags, Fault>
    ensures { IsReading (λ t. (t, state_of cursor.new)) result (tags_behind tags (state_of cursor.old)) }
{
    cursor.expect_keyword(Keyword::Tags)?;
    Ok(tags)
}

/// How tags are applied.
#[tactic(auto, unfolding(crate::specs::Modules::tags_at))]
fn read_tags(cursor: &mut Cursor<'_, '_>) -> Result<Tags, Fault>
    ensures { IsReading (λ t. (t, state_of cursor.new)) result (tags_at (state_of cursor.old)) }
{
    if cursor.take_keyword(Keyword::Explicit) {
        return tags_behind(cursor, Tags::Explicit);
    }
    if cursor.take_keyword(Keyword::Implicit) {
        return tags_behind(cursor, Tags::Implicit);
    }
    if cursor.take_keyword(Keyword::Automatic) {
        return tags_behind(cursor, Tags::Automatic);
    }
    Ok(Tags::Explicit)
}

/// Whether extensibility is implied.
#[tactic(auto, unfolding(crate::specs::Modules::extensible_at))]
fn read_extensible(cursor: &mut Cursor<'_, '_>) -> Result<bool, Fault>
    ensures { IsReading (λ b. (b, state_of cursor.new)) result (extensible_at (state_of cursor.old)) }
{
    if !cursor.take_keyword(Keyword::Extensibility) {
        return Ok(false);
    }
    cursor.expect_keyword(Keyword::Implied)?;
    Ok(true)
}

/// A name in EXPORTS or IMPORTS; braces may follow it.
#[tactic(auto, unfolding(crate::specs::Modules::symbol_at))]
fn read_symbol<'s, 't>(alloc: Global, cursor: &mut Cursor<'s, 't>) -> Result<Symbol<'t>, Fault>
    ensures { IsReading (λ x. (symbol_of x, state_of cursor.new)) result (symbol_at (state_of cursor.old)) }
{
    let Some(Token::Word(name)) = cursor.peek() else {
        return Err(cursor.fault(Why::Expected(Sought::Symbol)));
    };
    if is_reserved(name) {
        return Err(cursor.fault(Why::Expected(Sought::Symbol)));
    }
    let at = cursor.place();
    cursor.bump();
    let _braces = take_group(alloc, cursor, Sign::OpenBrace)?;
    Ok(Symbol { at, name })
}

/// Names joined by commas.
fn read_symbols<'s, 't>(
    alloc: Global,
    cursor: &mut Cursor<'s, 't>,
) -> Result<Vec<Symbol<'t>>, Fault>
    ensures { IsReading (λ v. (map symbol_of v.items, state_of cursor.new)) result (listed symbol_at (state_of cursor.old)) }
{
    let mut found = Vec::new(alloc);
    let first = read_symbol(alloc, cursor)?;
    found.push(first)?;
    read_more_symbols(alloc, cursor, &mut found)?;
    Ok(found)
}

fn read_more_symbols<'s, 't>(
    alloc: Global,
    cursor: &mut Cursor<'s, 't>,
    found: &mut Vec<Symbol<'t>>,
) -> Result<(), Fault>
    ensures { IsReading (λ x. (map symbol_of found.new.items, state_of cursor.new)) result (more_listed symbol_at (suc (length (state_of cursor.old).left)) (map symbol_of found.old.items) (state_of cursor.old)) }
{
    'more: for turn in 0..cursor.spots.len() + 1 {
        if !cursor.take(Sign::Comma) {
            return Ok(());
        }
        let symbol = read_symbol(alloc, cursor)?;
        found.push(symbol)?;
    }
    unreachable!()
}

/// What follows EXPORTS, up to the semicolon.
#[tactic(auto, unfolding(crate::specs::Modules::exported_at))]
fn read_exported<'s, 't>(alloc: Global, cursor: &mut Cursor<'s, 't>) -> Result<Exports<'t>, Fault>
    ensures { IsReading (λ x. (exports_of x, state_of cursor.new)) result (exported_at (state_of cursor.old)) }
{
    if cursor.is_at(Sign::Semicolon) {
        return Ok(Exports::These(Vec::new(alloc)));
    }
    if cursor.take_keyword(Keyword::All) {
        return Ok(Exports::All);
    }
    let symbols = read_symbols(alloc, cursor)?;
    Ok(Exports::These(symbols))
}

#[tactic(auto, unfolding(crate::specs::Modules::exports_at))]
fn read_exports<'s, 't>(alloc: Global, cursor: &mut Cursor<'s, 't>) -> Result<Exports<'t>, Fault>
    ensures { IsReading (λ x. (exports_of x, state_of cursor.new)) result (exports_at (state_of cursor.old)) }
{
    if !cursor.take_keyword(Keyword::Exports) {
        return Ok(Exports::All);
    }
    let exports = read_exported(alloc, cursor)?;
    cursor.expect(Sign::Semicolon)?;
    Ok(exports)
}

/// Whether a list of symbols goes on here behind its first, or that has braces.
fn goes_on_symbols(cursor: &Cursor<'_, '_>) -> bool
    ensures { result ≡ goes_on_symbols (state_of cursor.now) }
{
    cursor.is_at(Sign::Comma)
        || cursor.is_at_keyword(Keyword::From)
        || cursor.is_at(Sign::OpenBrace)
}

/// The name of a value, if it is next and what stands behind it belongs to no list of symbols.
fn take_id_name<'s, 't>(cursor: &mut Cursor<'s, 't>) -> Option<&'s [Spot<'t>]>
    ensures { id_name_at (state_of cursor.old) ≡ (option_map (λ r. spots_of r.now) result, state_of cursor.new) }
{
    let Some((first, rest)) = cursor.spots.split_first() else {
        return None;
    };
    let Token::Word(word) = first.token else {
        return None;
    };
    if !names_value(word, cursor) {
        return None;
    }
    let count = 1 + pairs_len(Pair::Step, rest);
    let mut behind = Cursor {
        spots: cursor.spots,
        end: cursor.end,
        complete: cursor.complete,
    };
    let name = behind.take_front(count);
    if goes_on_symbols(&behind) {
        return None;
    }
    let _name = cursor.take_front(count);
    Some(name)
}

/// The identifier of a module, if it is there.
#[tactic(auto, unfolding(crate::specs::Modules::id_at))]
fn take_id<'s, 't>(alloc: Global, cursor: &mut Cursor<'s, 't>) -> Result<&'s [Spot<'t>], Fault>
    ensures { IsReading (λ r. (spots_of r.now, state_of cursor.new)) result (id_at (state_of cursor.old)) }
{
    match take_id_name(cursor) {
        Some(name) => Ok(name),
        None => take_group(alloc, cursor, Sign::OpenBrace),
    }
}

/// What follows WITH.
#[tactic(auto, unfolding(crate::specs::Modules::versions_behind))]
fn versions_behind(cursor: &mut Cursor<'_, '_>) -> Result<Versions, Fault>
    ensures { IsReading (λ v. (v, state_of cursor.new)) result (versions_behind (state_of cursor.old)) }
{
    if cursor.take_keyword(Keyword::Successors) {
        return Ok(Versions::Successors);
    }
    cursor.expect_keyword(Keyword::Descendants)?;
    Ok(Versions::Descendants)
}

/// Which versions of a module names may come from.
#[tactic(auto, unfolding(crate::specs::Modules::versions_at))]
fn read_versions(cursor: &mut Cursor<'_, '_>) -> Result<Versions, Fault>
    ensures { IsReading (λ v. (v, state_of cursor.new)) result (versions_at (state_of cursor.old)) }
{
    if !cursor.take_keyword(Keyword::With) {
        return Ok(Versions::Same);
    }
    versions_behind(cursor)
}

/// Names from one module.
#[tactic(auto, unfolding(crate::specs::Modules::import_at))]
fn read_import<'s, 't>(alloc: Global, cursor: &mut Cursor<'s, 't>) -> Result<Import<'s, 't>, Fault>
    ensures { IsReading (λ i. (import_of i, state_of cursor.new)) result (import_at (state_of cursor.old)) }
{
    let symbols = read_symbols(alloc, cursor)?;
    cursor.expect_keyword(Keyword::From)?;
    let at = cursor.place();
    let from = cursor.reference(Sought::Reference)?;
    let id = take_id(alloc, cursor)?;
    let versions = read_versions(cursor)?;
    Ok(Import {
        symbols,
        at,
        from,
        id,
        versions,
    })
}

/// Imports, up to the semicolon.
fn read_import_list<'s, 't>(
    alloc: Global,
    cursor: &mut Cursor<'s, 't>,
) -> Result<Vec<Import<'s, 't>>, Fault>
    ensures { IsReading (λ v. (map import_of v.items, state_of cursor.new)) result (all_of (at_sign Semicolon) import_at (state_of cursor.old)) }
{
    let mut found = Vec::new(alloc);
    'more: for turn in 0..cursor.spots.len() + 1 {
        if cursor.is_at(Sign::Semicolon) {
            return Ok(found);
        }
        let import = read_import(alloc, cursor)?;
        found.push(import)?;
    }
    unreachable!()
}

#[tactic(auto, unfolding(crate::specs::Modules::imports_at))]
fn read_imports<'s, 't>(
    alloc: Global,
    cursor: &mut Cursor<'s, 't>,
) -> Result<Vec<Import<'s, 't>>, Fault>
    ensures { IsReading (λ v. (map import_of v.items, state_of cursor.new)) result (imports_at (state_of cursor.old)) }
{
    if !cursor.take_keyword(Keyword::Imports) {
        return Ok(Vec::new(alloc));
    }
    let imports = read_import_list(alloc, cursor)?;
    cursor.bump();
    Ok(imports)
}

/// What stands in braces, with these.
fn take_braces<'s, 't>(alloc: Global, cursor: &mut Cursor<'s, 't>) -> Result<&'s [Spot<'t>], Fault>
    ensures { IsReading (λ r. (spots_of r.now, state_of cursor.new)) result (braced_at (state_of cursor.old)) }
{
    if !cursor.is_at(Sign::OpenBrace) {
        return Err(cursor.fault(Why::Expected(Sought::Sign(Sign::OpenBrace))));
    }
    take_group(alloc, cursor, Sign::OpenBrace)
}

/// The syntax of a class, if it has one.
#[tactic(auto, unfolding(crate::specs::Modules::syntax_at))]
fn take_syntax<'s, 't>(alloc: Global, cursor: &mut Cursor<'s, 't>) -> Result<&'s [Spot<'t>], Fault>
    ensures { IsReading (λ r. (spots_of r.now, state_of cursor.new)) result (syntax_at (state_of cursor.old)) }
{
    if !cursor.take_keyword(Keyword::With) {
        return Ok(no_spots());
    }
    cursor.expect_keyword(Keyword::Syntax)?;
    take_braces(alloc, cursor)
}

/// What follows CLASS.
#[tactic(auto, unfolding(crate::specs::Modules::class_at))]
fn read_class<'s, 't>(alloc: Global, cursor: &mut Cursor<'s, 't>) -> Result<Body<'s, 't>, Fault>
    ensures { IsReading (λ b. (body_of b, state_of cursor.new)) result (class_at (state_of cursor.old)) }
{
    let fields = take_braces(alloc, cursor)?;
    let syntax = take_syntax(alloc, cursor)?;
    Ok(Body::Class { fields, syntax })
}

/// A class or a type, after `::=`.
#[tactic(auto, unfolding(crate::specs::Modules::defined_at))]
fn read_defined<'s, 't>(
    alloc: Global,
    cursor: &mut Cursor<'s, 't>,
    levels: u8,
) -> Result<Body<'s, 't>, Fault>
    ensures { IsReading (λ b. (body_of b, state_of cursor.new)) result (defined_at levels (state_of cursor.old)) }
{
    if cursor.take_keyword(Keyword::Class) {
        return read_class(alloc, cursor);
    }
    let definition = read_type(alloc, cursor, levels)?;
    Ok(Body::Type(definition))
}

/// A governor and a set.
#[tactic(auto, unfolding(crate::specs::Modules::set_at))]
fn read_set<'s, 't>(
    alloc: Global,
    cursor: &mut Cursor<'s, 't>,
    levels: u8,
) -> Result<Body<'s, 't>, Fault>
    ensures { IsReading (λ b. (body_of b, state_of cursor.new)) result (set_at levels (state_of cursor.old)) }
{
    let governor = read_type(alloc, cursor, levels)?;
    cursor.expect(Sign::Assign)?;
    let set = take_braces(alloc, cursor)?;
    Ok(Body::Set { governor, set })
}

/// A governor and a value.
#[tactic(auto, unfolding(crate::specs::Modules::valued_at))]
fn read_valued<'s, 't>(
    alloc: Global,
    cursor: &mut Cursor<'s, 't>,
    levels: u8,
) -> Result<Body<'s, 't>, Fault>
    ensures { IsReading (λ b. (body_of b, state_of cursor.new)) result (valued_at levels (state_of cursor.old)) }
{
    let governor = read_type(alloc, cursor, levels)?;
    cursor.expect(Sign::Assign)?;
    let value = take_value(alloc, cursor)?;
    Ok(Body::Value { governor, value })
}

/// What a name stands for, after its parameters.
#[tactic(auto, unfolding(crate::specs::Modules::body_at))]
fn read_body<'s, 't>(
    alloc: Global,
    cursor: &mut Cursor<'s, 't>,
    levels: u8,
    small: bool,
) -> Result<Body<'s, 't>, Fault>
    ensures { IsReading (λ b. (body_of b, state_of cursor.new)) result (body_at levels small (state_of cursor.old)) }
{
    if small {
        return read_valued(alloc, cursor, levels);
    }
    if cursor.take(Sign::Assign) {
        return read_defined(alloc, cursor, levels);
    }
    read_set(alloc, cursor, levels)
}

/// An assignment, after its name.
#[tactic(auto, unfolding(crate::specs::Modules::assigned_at))]
fn read_assigned<'s, 't>(
    alloc: Global,
    cursor: &mut Cursor<'s, 't>,
    levels: u8,
    at: usize,
    name: &'t str,
) -> Result<Assignment<'s, 't>, Fault>
    ensures { IsReading (λ a. (assignment_of a, state_of cursor.new)) result (assigned_at levels at name.now (state_of cursor.old)) }
{
    let parameters = take_group(alloc, cursor, Sign::OpenBrace)?;
    let body = read_body(alloc, cursor, levels, is_identifier(name))?;
    Ok(Assignment {
        at,
        name,
        parameters,
        body,
    })
}

/// A name and what it stands for.
#[tactic(auto, unfolding(crate::specs::Modules::assignment_at))]
fn read_assignment<'s, 't>(
    alloc: Global,
    cursor: &mut Cursor<'s, 't>,
    levels: u8,
) -> Result<Assignment<'s, 't>, Fault>
    ensures { IsReading (λ a. (assignment_of a, state_of cursor.new)) result (assignment_at levels (state_of cursor.old)) }
{
    let Some(Token::Word(name)) = cursor.peek() else {
        return Err(cursor.fault(Why::Expected(Sought::Symbol)));
    };
    if is_reserved(name) {
        return Err(cursor.fault(Why::Expected(Sought::Symbol)));
    }
    let at = cursor.place();
    cursor.bump();
    read_assigned(alloc, cursor, levels, at, name)
}

/// Whether the assignments end here.
fn ends_assignments(cursor: &Cursor<'_, '_>) -> bool
    ensures { result ≡ ends_assignments (state_of cursor.now) }
{
    cursor.is_at_keyword(Keyword::End) || cursor.is_at_keyword(Keyword::EncodingControl)
}

/// Assignments, up to END or the sections for encodings.
fn read_assignments<'s, 't>(
    alloc: Global,
    cursor: &mut Cursor<'s, 't>,
    levels: u8,
) -> Result<Vec<Assignment<'s, 't>>, Fault>
    ensures { IsReading (λ v. (map assignment_of v.items, state_of cursor.new)) result (all_of ends_assignments (assignment_at levels) (state_of cursor.old)) }
{
    let mut found = Vec::new(alloc);
    'more: for turn in 0..cursor.spots.len() + 1 {
        if ends_assignments(cursor) {
            return Ok(found);
        }
        let assignment = read_assignment(alloc, cursor, levels)?;
        found.push(assignment)?;
    }
    unreachable!()
}

fn is_end(token: Token<'_>) -> bool
    ensures { result ≡ is_end (token_of token.entry) }
{
    match token {
        Token::Word(word) => word == Keyword::End.text(),
        _ => false,
    }
}

/// How many tokens stand before END.
fn control_len(spots: &[Spot<'_>]) -> usize
    ensures value { result ≡ control_len (spots_of spots.now) }
    ensures within { result ≤ length spots.now }
{
    for (n, spot) in spots.iter().enumerate() {
        if is_end(spot.token) {
            return n;
        }
    }
    spots.len()
}

/// The sections for encodings, up to END.
fn take_control<'s, 't>(cursor: &mut Cursor<'s, 't>) -> &'s [Spot<'t>]
    ensures { front_of (control_len (state_of cursor.old).left) (state_of cursor.old) ≡ Ok (spots_of result.now, state_of cursor.new) }
{
    let count = control_len(cursor.spots);
    cursor.take_front(count)
}

/// What the header of a module says.
#[derive(Clone, Copy)]
pub struct Header<'s, 't> {
    pub at: usize,
    pub name: &'t str,
    pub id: &'s [Spot<'t>],
    pub instructions: Option<&'t str>,
    pub tags: Tags,
    pub extensible: bool,
}

/// What follows BEGIN.
#[tactic(auto, unfolding(crate::specs::Modules::content_at))]
fn read_content<'s, 't>(
    alloc: Global,
    cursor: &mut Cursor<'s, 't>,
    levels: u8,
    header: Header<'s, 't>,
) -> Result<Module<'s, 't>, Fault>
    ensures { IsReading (λ m. (module_of m, state_of cursor.new)) result (content_at levels header.entry.at header.entry.name.now (spots_of header.entry.id.now) (option_map (λ w. w.now) header.entry.instructions) header.entry.tags header.entry.extensible (state_of cursor.old)) }
{
    let exports = read_exports(alloc, cursor)?;
    let imports = read_imports(alloc, cursor)?;
    let assignments = read_assignments(alloc, cursor, levels)?;
    let control = take_control(cursor);
    cursor.expect_keyword(Keyword::End)?;
    Ok(Module {
        at: header.at,
        name: header.name,
        id: header.id,
        instructions: header.instructions,
        tags: header.tags,
        extensible: header.extensible,
        exports,
        imports,
        assignments,
        control,
    })
}

/// A module.
#[tactic(auto, unfolding(crate::specs::Modules::module_at))]
fn read_module<'s, 't>(
    alloc: Global,
    cursor: &mut Cursor<'s, 't>,
    levels: u8,
) -> Result<Module<'s, 't>, Fault>
    ensures { IsReading (λ m. (module_of m, state_of cursor.new)) result (module_at levels (state_of cursor.old)) }
{
    let at = cursor.place();
    let name = cursor.reference(Sought::Reference)?;
    let id = take_group(alloc, cursor, Sign::OpenBrace)?;
    skip_text(cursor);
    cursor.expect_keyword(Keyword::Definitions)?;
    let instructions = take_instructions(cursor);
    let tags = read_tags(cursor)?;
    let extensible = read_extensible(cursor)?;
    cursor.expect(Sign::Assign)?;
    cursor.expect_keyword(Keyword::Begin)?;
    let header = Header {
        at,
        name,
        id,
        instructions,
        tags,
        extensible,
    };
    read_content(alloc, cursor, levels, header)
}

/// More modules beside those found, up to where the tokens end.
fn read_more_modules<'s, 't>(
    alloc: Global,
    cursor: &mut Cursor<'s, 't>,
    levels: u8,
    found: &mut Vec<Module<'s, 't>>,
) -> Result<(), Fault>
    ensures { IsReading (λ x. (map module_of found.new.items, state_of cursor.new)) result (many is_last (module_at levels) (suc (length (state_of cursor.old).left)) (map module_of found.old.items) (state_of cursor.old)) }
{
    'more: for turn in 0..cursor.spots.len() + 1 {
        if is_last(cursor) {
            return Ok(());
        }
        let made = read_module(alloc, cursor, levels)?;
        found.push(made)?;
    }
    unreachable!()
}

fn is_last(cursor: &Cursor<'_, '_>) -> bool
    ensures { result ≡ is_last (state_of cursor.now) }
{
    match cursor.spots.first() {
        Some(_) => false,
        None => true,
    }
}

/// The modules of a text, one after another, from its tokens; so many levels of types may nest. What is
/// kept as tokens (constraints, values, items, parameters, classes, sets) is only known to close what it opens.
///
/// # Errors
/// The first fault from the left: `Token` where no token begins or a token has no end, `TooDeep` where a
/// level is one too many, `Expected` at a token that the grammar doesn't have there, and `Memory`.
#[tactic(auto, unfolding(crate::specs::Modules::modules_of))]
pub fn read_modules<'s, 't>(
    alloc: Global,
    cursor: &mut Cursor<'s, 't>,
    levels: u8,
) -> Result<Vec<Module<'s, 't>>, Fault>
    ensures { IsReading (λ v. map module_of v.items) result (modules_of levels (state_of cursor.old)) }
{
    let mut found = Vec::new(alloc);
    let first = read_module(alloc, cursor, levels)?;
    found.push(first)?;
    read_more_modules(alloc, cursor, levels, &mut found)?;
    if !cursor.complete {
        return Err(cursor.end_fault(Why::Token));
    }
    Ok(found)
}
