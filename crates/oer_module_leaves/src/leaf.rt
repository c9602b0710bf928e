//! The type and the text of types that hold no other.
ghost use Rattle.std.specs.Prelude.{◌≡◌, ◌<◌, length, OnOk};
ghost use Rattle.oer_module_lexer.specs.Token.{spots_of};
ghost use Rattle.oer_module_limits.specs.Views.{IsWithin};
ghost use Rattle.oer_module_names.specs.Views.{modules_in};
ghost use Rattle.oer_module_text.specs.Errors.{Gives};
ghost use Rattle.oer_module_text.specs.Room.{put, room_of};
ghost use Rattle.oer_module_values.specs.Views.{meaning_of};
ghost use Rattle.oer_values.specs.ShapeView.{type_of};
ghost use Rattle.oer_module_leaves.specs.Leaves.{bits_at, counted_at, enumerated_at, integer_at, is_implied, lacks_marker, leaf_at, listed_at, plain_at, put_sized, sized_at, sizes_at};
ghost use Rattle.oer_module_leaves.specs.Numbered.{numbered_of};
ghost use Rattle.oer_module_leaves.specs.Texts.{sizes_of};

use crate::comment::{checked_of, put_unchecked};
use crate::numbered::{Numbered, numbered_at};
use crate::shape::Counted::{Ia5, Numeric, Octets, Printable, Utf8, Visible};
use crate::shape::{Counted, enumerated_shape, size_at};
use crate::text::{Sizes, put_numbered, put_range, put_size};
use oer_module_lexer::Spot;
use oer_module_limits::{Written, integer_range, size_range};
use oer_module_names::{Names, Place};
use oer_module_syntax::{Builtin, TypeSyntax};
use oer_module_text::{Error, Part, Room, refused};
use oer_module_values::{Meaning, place_of};
use oer_values::Shape;
use std::alloc::{AllocError, Global};

/// Whether the module's header has EXTENSIBILITY IMPLIED (X.680, 13.4).
pub fn is_implied(names: &Names<'_, '_, '_>, module: usize) -> bool
    requires { «module» < length (modules_in names.now) }
    ensures { result ≡ is_implied (modules_in names.now) «module» }
{
    names.modules()[module].extensible
}

/// The sizes of what a type at `of` stands for (X.680, 51.5).
///
/// # Errors
/// Those of `size_range` of oer_module_limits.
fn sizes_of<'m, 's, 't>(
    alloc: Global,
    names: &Names<'m, 's, 't>,
    of: Place,
    meaning: &Meaning<'m, 's, 't>,
) -> Result<Sizes, Error<'t>>
    requires { IsWithin (modules_in names.now) meaning.now }
    ensures { Gives sizes_of result (sizes_at (modules_in names.now) of (meaning_of meaning.now)) }
{
    let range = size_range(alloc, names, of, meaning)?;
    Ok(Sizes::within(range))
}

/// Adds the words of a type and its sizes.
fn put_sized(words: &str, sizes: Sizes, room: &mut Room) -> Result<(), AllocError>
    ensures { OnOk result (room_of room.new ≡ put_sized words.now (sizes_of sizes) (room_of room.old)) }
{
    room.put(words)?;
    put_size(sizes, room)
}

/// A type at a place whose values SIZE counts, with these sizes.
fn write_counted<'t>(
    place: Place,
    counted: Counted,
    sizes: Sizes,
    room: &mut Room,
) -> Result<Shape, Error<'t>>
    ensures { Gives (λ s. (type_of s, room_of room.new)) result (counted_at place counted (room_of room.old) (sizes_of sizes)) }
{
    let size = size_at(place, sizes)?;
    put_sized(counted.words(), sizes, room)?;
    Ok(counted.shape(size))
}

/// A type at a place whose values SIZE counts.
fn write_sized<'m, 's, 't>(
    alloc: Global,
    names: &Names<'m, 's, 't>,
    of: Place,
    meaning: &Meaning<'m, 's, 't>,
    place: Place,
    counted: Counted,
    room: &mut Room,
) -> Result<Shape, Error<'t>>
    requires { IsWithin (modules_in names.now) meaning.now }
    ensures { Gives (λ s. (type_of s, room_of room.new)) result (sized_at (modules_in names.now) counted of (meaning_of meaning.now) place (room_of room.old)) }
{
    let sizes = sizes_of(alloc, names, of, meaning)?;
    write_counted(place, counted, sizes, room)
}

/// A BIT STRING at a place, with these tokens for its named bits. Where it has some, the size must be
/// fixed.
fn write_bits<'m, 's, 't>(
    alloc: Global,
    names: &Names<'m, 's, 't>,
    of: Place,
    meaning: &Meaning<'m, 's, 't>,
    place: Place,
    items: &[Spot<'t>],
    room: &mut Room,
) -> Result<Shape, Error<'t>>
    requires { IsWithin (modules_in names.now) meaning.now }
    ensures { Gives (λ s. (type_of s, room_of room.new)) result (bits_at (modules_in names.now) of (meaning_of meaning.now) place (spots_of items.now) (room_of room.old)) }
{
    let sizes = sizes_of(alloc, names, of, meaning)?;
    if !items.is_empty() && sizes.fixed().is_none() {
        return Err(refused(place.module, place.at, Part::NamedBits));
    }
    write_counted(place, Counted::Bits, sizes, room)
}

/// An INTEGER, with its range.
fn write_integer<'m, 's, 't>(
    alloc: Global,
    names: &Names<'m, 's, 't>,
    of: Place,
    meaning: &Meaning<'m, 's, 't>,
    room: &mut Room,
) -> Result<Shape, Error<'t>>
    requires { IsWithin (modules_in names.now) meaning.now }
    ensures { Gives (λ s. (type_of s, room_of room.new)) result (integer_at (modules_in names.now) of (meaning_of meaning.now) (room_of room.old)) }
{
    let range = integer_range(alloc, names, of, meaning)?;
    room.put("INTEGER")?;
    put_range(range, room)?;
    Ok(Shape::Integer {
        low: range.low(),
        high: range.high(),
    })
}

/// The items of an ENUMERATED in a module. That there are too many parts comes before a number that is too wide.
#[tactic(auto, unfolding(crate::specs::Leaves::listed_at))]
fn write_items<'t>(
    alloc: Global,
    module: usize,
    numbered: &Numbered<'t>,
    room: &mut Room,
) -> Result<Shape, Error<'t>>
    ensures { Gives (λ s. (type_of s, room_of room.new)) result (listed_at «module» (numbered_of numbered.now) (room_of room.old)) }
{
    put_numbered(module, numbered, room)?;
    let shape = enumerated_shape(alloc, module, numbered)?;
    Ok(shape)
}

/// Whether these items have no marker where the module's header implies one.
fn lacks_marker(names: &Names<'_, '_, '_>, module: usize, numbered: &Numbered<'_>) -> bool
    requires { «module» < length (modules_in names.now) }
    ensures { result ≡ lacks_marker (modules_in names.now) «module» (numbered_of numbered.now) }
{
    numbered.marker.is_none() && is_implied(names, module)
}

/// An ENUMERATED at a place, with these tokens for its items.
fn write_enumerated<'m, 's, 't>(
    alloc: Global,
    names: &Names<'m, 's, 't>,
    place: Place,
    items: &'s [Spot<'t>],
    room: &mut Room,
) -> Result<Shape, Error<'t>>
    requires { place.«module» < length (modules_in names.now) }
    ensures { Gives (λ s. (type_of s, room_of room.new)) result (enumerated_at (modules_in names.now) place (spots_of items.now) (room_of room.old)) }
{
    let numbered = numbered_at(alloc, names, place, items)?;
    if lacks_marker(names, place.module, &numbered) {
        return Err(refused(place.module, place.at, Part::Implied));
    }
    room.put("ENUMERATED {")?;
    write_items(alloc, place.module, &numbered, room)
}

/// A type with words of its own, at a place, for which the type at `of` stands.
fn write_plain<'m, 's, 't>(
    alloc: Global,
    names: &Names<'m, 's, 't>,
    of: Place,
    meaning: &Meaning<'m, 's, 't>,
    place: Place,
    builtin: Builtin,
    items: &'s [Spot<'t>],
    room: &mut Room,
) -> Result<Shape, Error<'t>>
    requires meaning { IsWithin (modules_in names.now) meaning.now }
    requires place { place.«module» < length (modules_in names.now) }
    ensures { Gives (λ s. (type_of s, room_of room.new)) result (plain_at (modules_in names.now) of (meaning_of meaning.now) place builtin (spots_of items.now) (room_of room.old)) }
{
    match builtin {
        Builtin::Boolean => {
            room.put("BOOLEAN")?;
            Ok(Shape::Boolean)
        }
        Builtin::Null => {
            room.put("NULL")?;
            Ok(Shape::Null)
        }
        Builtin::ObjectIdentifier => {
            room.put("OBJECT IDENTIFIER")?;
            Ok(Shape::ObjectId)
        }
        Builtin::Integer => write_integer(alloc, names, of, meaning, room),
        Builtin::Enumerated => write_enumerated(alloc, names, place, items, room),
        Builtin::BitString => write_bits(alloc, names, of, meaning, place, items, room),
        Builtin::OctetString => write_sized(alloc, names, of, meaning, place, Octets, room),
        Builtin::Ia5String => write_sized(alloc, names, of, meaning, place, Ia5, room),
        Builtin::VisibleString => write_sized(alloc, names, of, meaning, place, Visible, room),
        Builtin::Iso646String => write_sized(alloc, names, of, meaning, place, Visible, room),
        Builtin::NumericString => write_sized(alloc, names, of, meaning, place, Numeric, room),
        Builtin::PrintableString => write_sized(alloc, names, of, meaning, place, Printable, room),
        Builtin::Utf8String => write_sized(alloc, names, of, meaning, place, Utf8, room),
        _ => Err(refused(place.module, place.at, Part::Word)),
    }
}

/// A type that holds no other. Its text is added: its words, with the range of an INTEGER, the sizes of a string, or the
/// items of an ENUMERATED and their numbers behind them, as `print_type` of oer_printer has them, and a comment on
/// constraints that aren't in it. `of` is where the type stands that is used, and `meaning` what `resolve` says that it stands
/// for. Each item of an ENUMERATED takes the room of one part, at the item; the
/// room of the type itself isn't taken.
///
/// # Errors
/// NotTaken, with Word, at a type with other words than BOOLEAN, NULL, OBJECT IDENTIFIER, INTEGER, ENUMERATED, BIT STRING,
/// OCTET STRING, IA5String, VisibleString, ISO646String, NumericString, PrintableString and UTF8String, and at one that
/// holds others or is a reference. Of an INTEGER, those of `integer_range`; of strings, those of `size_range`. NotTaken,
/// with NamedBits, at a BIT STRING with named bits whose size isn't fixed: canonical octets leave out its last bits that
/// are 0 (X.680, 22.7; X.696, 13). Then TooWide, at the type, where 64 bits don't hold an end of its sizes. Of an
/// ENUMERATED, those of `enumeration_numbers`; then NotTaken, with Implied, where it has no marker and the module's header
/// has EXTENSIBILITY IMPLIED; then TooManyParts and TooLong, at an item; then TooWide, at an item whose number 64 bits with
/// a sign don't hold. What was added by then stays.
#[tactic(auto, unfolding(crate::specs::Leaves::leaf_at), using(oer_module_syntax::proofs::Trees::trees))]
pub fn write_leaf<'m, 's, 't>(
    alloc: Global,
    names: &Names<'m, 's, 't>,
    of: Place,
    meaning: &Meaning<'m, 's, 't>,
    room: &mut Room,
) -> Result<Shape, Error<'t>>
    requires { IsWithin (modules_in names.now) meaning.now }
    ensures { Gives (λ s. (type_of s, room_of room.new)) result (leaf_at (modules_in names.now) of (meaning_of meaning.now) (room_of room.old)) }
{
    let is = meaning.of;
    let module = is.module;
    match is.syntax {
        TypeSyntax::Plain {
            at,
            builtin,
            items,
            constraints: own,
        } => {
            let place = Place { module, at: *at };
            let shape = write_plain(alloc, names, of, meaning, place, *builtin, items, room)?;
            let written = Written {
                module,
                own,
                given: &meaning.given,
            };
            put_unchecked(alloc, written, checked_of(*builtin), false, room)?;
            Ok(shape)
        }
        _ => Err(refused(module, place_of(is.syntax), Part::Word)),
    }
}
