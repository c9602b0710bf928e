//! Checking many messages in one call.
ghost use Rattle.std.specs.Prelude.{◌≡◌, ◌≤◌, ◌<◌, Some, length, MatchOption};
ghost use Rattle.std.specs.List.{between};
ghost use Rattle.oer_types.specs.Schema.{the_type};
ghost use Rattle.oer_c.specs.Messages.{AnswersAll, AreAnswered, AreUnanswered, IsAnswered, end};
ghost use Rattle.oer_c.specs.Naming.{ByName};
ghost use Rattle.oer_c.specs.Sharing.{types_of};

use crate::check::{Checked, judged, only};
use crate::handle::Handle;
use crate::naming::find_type;
use crate::status::{NO_TYPES, OK, OUTSIDE, ROOM, UNNAMED};
use oer_notation::Types;
use oer_types::Schema;
use std::alloc::Global;

/// Where a message is in octets. It takes 16 octets: `at` at 0 and `length` at 8.
#[repr(C)]
#[derive(Clone, Copy)]
pub struct Message {
    /// The place of its first octet.
    pub at: usize,
    /// How many octets it has.
    pub length: usize,
}

const _: () = prove!(size_of::<Message>() == 16);

/// The octets of the message, if all of them are there.
pub(crate) fn cut(octets: &[u8], message: Message) -> Option<&[u8]>
    ensures { MatchOption result (length octets.now < end message) (λ s. (end message ≤ length octets.now) × (s.now ≡ between message.at (end message) octets.now)) }
{
    let end = message.at.checked_add(message.length)?;
    if octets.len() < end {
        return None;
    }
    Some(&octets[message.at..end])
}

fn answer_of(schema: &Schema, octets: &[u8], message: Message) -> Checked
    ensures { IsAnswered (the_type schema.now) octets.now message result }
{
    match cut(octets, message) {
        Some(found) => judged(schema, found),
        None => only(OUTSIDE),
    }
}

// The answer of each message, at its place.
fn answer_each(schema: &Schema, octets: &[u8], messages: &[Message], answers: &mut [Checked])
    requires { length messages.now ≤ length answers.old }
    ensures { AreAnswered (the_type schema.now) octets.now messages.now answers.old answers.new }
{
    for (at, message) in messages.iter().enumerate() {
        answers[at] = answer_of(schema, octets, *message);
    }
}

fn answer_all(schema: &Schema, octets: &[u8], messages: &[Message], answers: &mut [Checked]) -> u32
    ensures { AnswersAll (the_type schema.now) octets.now messages.now answers.old answers.new result }
{
    if answers.len() < messages.len() {
        return ROOM;
    }
    answer_each(schema, octets, messages, answers);
    OK
}

// The messages are checked by the type that the Name has.
fn named(
    types: &Types,
    name: &[u8],
    octets: &[u8],
    messages: &[Message],
    answers: &mut [Checked],
) -> u32
    ensures { ByName (Some types.now) name.now (λ T. AnswersAll T octets.now messages.now answers.old answers.new result) (AreUnanswered answers.old answers.new result) }
{
    match find_type(types, name) {
        Some(schema) => answer_all(schema, octets, messages, answers),
        None => UNNAMED,
    }
}

/// Checks each message as `oer_check` does, by the type that the Name has. A message is a part of the
/// octets, and its answer has its place among the answers. No memory is allocated. The status is
///
/// - `OK`: each message has its answer. Its status is that of `oer_check`, or `OUTSIDE` where the
///   message isn't all in the octets;
/// - `ROOM`: there are fewer answers than messages;
/// - `NO_TYPES`: the handle has no types;
/// - `UNNAMED`: no definition has the Name, or it is not UTF-8.
///
/// The answers past the messages are as before, and unless it is `OK` all are.
#[unsafe(no_mangle)]
pub extern "C" fn oer_check_many(
    alloc: Global,
    types: &mut Handle,
    name: &[u8],
    octets: &[u8],
    messages: &[Message],
    answers: &mut [Checked],
) -> u32
    // Each message has its answer, or the answers are as before.
    ensures checks { ByName (types_of types.old.held.shared) name.now (λ T. AnswersAll T octets.now messages.now answers.old answers.new result) (AreUnanswered answers.old answers.new result) }
    // The types are those from before.
    ensures kept { types_of types.new.held.shared ≡ types_of types.old.held.shared }
{
    let Some(found) = types.take(alloc) else {
        return NO_TYPES;
    };
    let status = named(found.get(), name, octets, messages, answers);
    *types = Handle::of(found);
    status
}
