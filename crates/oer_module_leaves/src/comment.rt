//! Comments on constraints that aren't checked.
ghost use Rattle.std.specs.Prelude.{◌≡◌, false, map, option_map, IfOk, OnOk};
ghost use Rattle.oer_module_limits.specs.Views.{written_of};
ghost use Rattle.oer_module_limits.specs.Written.{constraints_in};
ghost use Rattle.oer_module_terms.specs.Trees.{constraint_of};
ghost use Rattle.oer_module_text.specs.Room.{room_of};
ghost use Rattle.oer_module_leaves.specs.Comments.{checked_of, found_of, is_checked, is_memory, is_quiet, is_unchecked, kind_text, kinds_at, open_at, opening_text, terms_in, unchecked_at, words_from};

use oer_module_limits::{
    Kind, Why, Written, are_none, are_plain, constraints_in, has_set, narrows,
};
use oer_module_syntax::Builtin;
use oer_module_terms::Constraint;
use oer_module_text::Room;
use std::alloc::{AllocError, Global};

/// All kinds of constraints.
const KINDS: [Kind; 9] = [
    Kind::Size,
    Kind::Alphabet,
    Kind::Pattern,
    Kind::Settings,
    Kind::Inner,
    Kind::Values,
    Kind::UserDefined,
    Kind::Contents,
    Kind::Table,
];

/// Which constraints the text of a type says.
#[derive(Clone, Copy)]
pub enum Checked {
    Nothing,
    /// The sizes of a string.
    Sizes,
    /// The numbers of an INTEGER.
    Numbers,
}

/// The constraints of a type, which of them its text says, whether the word SIZE stands before the first, and whether it
/// has a set of values besides.
#[derive(Clone, Copy)]
struct Found<'c, 's, 't> {
    checked: Checked,
    sized: bool,
    valued: bool,
    constraints: &'c [Constraint<'s, 't>],
}

/// Which constraints the text of a type with words of its own says.
pub fn checked_of(builtin: Builtin) -> Checked
    ensures { result ≡ checked_of builtin }
{
    match builtin {
        Builtin::Integer => Checked::Numbers,
        Builtin::BitString
        | Builtin::OctetString
        | Builtin::Ia5String
        | Builtin::VisibleString
        | Builtin::Iso646String
        | Builtin::NumericString
        | Builtin::PrintableString
        | Builtin::Utf8String => Checked::Sizes,
        _ => Checked::Nothing,
    }
}

/// Whether the text of a type says constraints of this kind.
fn is_checked(checked: Checked, kind: Kind) -> bool
    ensures { result ≡ is_checked checked kind }
{
    match checked {
        Checked::Nothing => false,
        Checked::Sizes => kind == Kind::Size,
        Checked::Numbers => kind == Kind::Values,
    }
}

fn kind_text(kind: Kind) -> &'static str
    ensures { result.now ≡ kind_text kind }
{
    match kind {
        Kind::Size => "SIZE",
        Kind::Alphabet => "FROM",
        Kind::Pattern => "PATTERN",
        Kind::Settings => "SETTINGS",
        Kind::Inner => "WITH COMPONENTS",
        Kind::Values => "values",
        Kind::UserDefined => "CONSTRAINED BY",
        Kind::Contents => "contents",
        Kind::Table => "table",
    }
}

/// Whether some constraints are of this kind, narrow the values and aren't in the text.
fn is_unchecked(found: Found<'_, '_, '_>, kind: Kind) -> bool
    ensures { result ≡ is_unchecked (found_of found.entry) kind }
{
    if is_checked(found.checked, kind) {
        return false;
    }
    if found.valued && kind == Kind::Values {
        return true;
    }
    narrows(kind, found.sized, found.constraints)
}

/// What stands before the first of some words, or before another.
fn opening_text(some: bool, opening: &str) -> &str
    ensures { result.now ≡ opening_text some opening.now }
{
    if some {
        return ", ";
    }
    opening
}

/// Adds a word for each of these kinds that isn't checked, joined by commas. Whether there is one.
#[tactic(auto, unfolding(crate::specs::Comments::words_from))]
fn put_words(
    found: Found<'_, '_, '_>,
    kinds: &[Kind],
    opening: &str,
    room: &mut Room,
) -> Result<bool, AllocError>
    ensures { IfOk result (λ some. words_from (found_of found.entry) opening.now false kinds.now (room_of room.old) ≡ (some, room_of room.new)) }
{
    let mut some = false;
    for kind in kinds {
        if is_unchecked(found, *kind) {
            room.put(opening_text(some, opening))?;
            room.put(kind_text(*kind))?;
            some = true;
        }
    }
    Ok(some)
}

fn is_memory(why: Why<'_>) -> bool
    ensures { result ≡ is_memory why.entry }
{
    matches!(
        why,
        Why::Unresolved(oer_module_values::Why::Unread(oer_module_syntax::Why::Memory))
    )
}

/// The constraints of a type as terms, if their tokens can be read.
fn terms_in<'s, 't>(
    alloc: Global,
    written: Written<'_, 's, 't>,
) -> Result<Option<Vec<Constraint<'s, 't>>>, AllocError>
    ensures { IfOk result (λ o. option_map (λ v. map constraint_of v.items) o ≡ terms_in (constraints_in (written_of written.entry))) }
{
    match constraints_in(alloc, written) {
        Ok(constraints) => Ok(Some(constraints)),
        Err(error) if is_memory(error.why) => Err(AllocError),
        Err(_) => Ok(None),
    }
}

/// The same of all kinds, by the constraints of a type as they are written. Where their tokens can't be read, the word
/// "constraints" alone.
#[tactic(auto, unfolding(crate::specs::Comments::kinds_at))]
fn put_kinds(
    alloc: Global,
    written: Written<'_, '_, '_>,
    checked: Checked,
    sized: bool,
    opening: &str,
    room: &mut Room,
) -> Result<bool, AllocError>
    ensures { IfOk result (λ some. kinds_at checked sized (written_of written.entry) opening.now (room_of room.old) ≡ (some, room_of room.new)) }
{
    let Some(constraints) = terms_in(alloc, written)? else {
        room.put(opening)?;
        room.put("constraints")?;
        return Ok(true);
    };
    let found = Found {
        checked,
        sized,
        valued: has_set(written.given),
        constraints: &constraints,
    };
    let kinds: [Kind; 9] = KINDS;
    put_words(found, kinds.as_slice(), opening, room)
}

/// Whether nothing has to be said, by the tokens alone.
fn is_quiet(checked: Checked, written: Written<'_, '_, '_>) -> bool
    ensures { result ≡ is_quiet checked (written_of written.entry) }
{
    match checked {
        Checked::Nothing => are_none(written),
        Checked::Sizes | Checked::Numbers => are_plain(written),
    }
}

/// Adds `/* not checked: .. */` behind a space, with a word for each kind of constraints that narrows the values of a type
/// and isn't in its text, or with the word "constraints" where their tokens can't be read; or nothing, where there is none.
/// `sized`: whether the word SIZE stands before its own.
#[tactic(auto, unfolding(crate::specs::Comments::unchecked_at))]
pub fn put_unchecked(
    alloc: Global,
    written: Written<'_, '_, '_>,
    checked: Checked,
    sized: bool,
    room: &mut Room,
) -> Result<(), AllocError>
    ensures { OnOk result (room_of room.new ≡ unchecked_at checked sized (written_of written.entry) (room_of room.old)) }
{
    if is_quiet(checked, written) {
        return Ok(());
    }
    let some = put_kinds(alloc, written, checked, sized, " /* not checked: ", room)?;
    if some {
        room.put(" */")?;
    }
    Ok(())
}

/// Adds an open type (X.696, 30), and in its comment the same of its constraints.
#[tactic(auto, unfolding(crate::specs::Comments::open_at))]
pub fn put_open(
    alloc: Global,
    written: Written<'_, '_, '_>,
    room: &mut Room,
) -> Result<(), AllocError>
    ensures { OnOk result (room_of room.new ≡ open_at (written_of written.entry) (room_of room.old)) }
{
    room.put("OCTET STRING /* open type")?;
    let _some = put_kinds(
        alloc,
        written,
        Checked::Nothing,
        false,
        "; not checked: ",
        room,
    )?;
    room.put(" */")
}
