//! Tags in our notation.
ghost use Rattle.std.specs.Prelude.{◌≡◌, OnOk};
ghost use Rattle.oer_module_text.specs.Room.{room_of};
ghost use Rattle.oer_module_tags.specs.Written.{class_word, put_tag};

use oer_module_text::Room;
use oer_units::{Class, Tag};
use std::alloc::AllocError;

/// The word of a class, and a space behind it; context has none.
fn class_word(class: Class) -> &'static str
    ensures { result.now ≡ class_word class }
{
    match class {
        Class::Universal => "UNIVERSAL ",
        Class::Application => "APPLICATION ",
        Class::Context => "",
        Class::Private => "PRIVATE ",
    }
}

/// Adds a tag to the text of a type, as `[5]` or `[APPLICATION 2]`.
pub fn write_tag(room: &mut Room, tag: Tag) -> Result<(), AllocError>
    ensures { OnOk result (room_of room.new ≡ put_tag tag (room_of room.old)) }
{
    room.put("[")?;
    room.put(class_word(tag.class))?;
    room.put_number(tag.number as i128)?;
    room.put("]")
}
