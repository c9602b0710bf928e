//! Messages as JSON, and back.
use crate::digest::Digest;
use crate::messages::put_message;
use crate::random::Random;
use oer_reader::read;
use oer_text::{from_json, to_json};
use oer_types::{Schema, fits};
use oer_units::Metered;
use oer_writer::write;
use serde_json::Value as Json;
use std::alloc::Global;

/// The text of the JSON of a message.
fn text_of(alloc: Global, schema: &Schema, octets: &[u8]) -> Option<String> {
    let value = read(alloc, schema, &mut Metered::new(octets), u64::MAX).ok()?;
    if !fits(schema, &value) {
        return None;
    }
    let json = to_json(alloc, schema, &value).ok()?;
    json.to_string(alloc).ok()
}

/// The canonical octets of the message that a text of JSON says.
fn octets_of(alloc: Global, schema: &Schema, text: &str) -> Option<Vec<u8>> {
    let json = Json::from_str(alloc, text).ok()?;
    let value = from_json(alloc, schema, &json).ok()?;
    let mut sink = Metered::new(Vec::new(alloc));
    write(schema, &value, &mut sink).ok()?;
    Some(sink.into_inner())
}

/// The digest of the texts and the octets of so many messages.
pub(crate) fn shown(
    alloc: Global,
    schema: &Schema,
    count: u32,
    random: &mut Random,
) -> Option<Digest> {
    let mut digest = Digest::new();
    let mut message = Vec::new(alloc);
    for _ in 0..count {
        message.clear();
        put_message(random, &mut message).ok()?;
        let text = text_of(alloc, schema, message.as_slice())?;
        digest.add(text.as_bytes());
        digest.add(octets_of(alloc, schema, text.as_str())?.as_slice());
    }
    Some(digest)
}
