//! What a relay does with messages: it checks each, takes the part that is signed, and sends on its
//! canonical octets.
use crate::digest::Digest;
use crate::messages::put_message;
use crate::random::Random;
use oer_reader::{Step, check, part, rewrite};
use oer_types::Schema;
use oer_units::Metered;
use std::alloc::Global;

/// The part that is signed.
const SIGNED: [Step; 3] = [Step::Component(1), Step::Chosen, Step::Component(1)];

/// Adds what becomes of a message.
fn relay(alloc: Global, schema: &Schema, octets: &[u8], digest: &mut Digest) -> Option<()> {
    let verdict = check(schema, octets).ok()?;
    digest.add_number(verdict.octets as u64);
    digest.add_number(u64::from(verdict.canonical));
    digest.add(part(schema, octets, &SIGNED).ok()?);
    let mut reader = Metered::new(octets);
    let mut sink = Metered::new(Vec::new(alloc));
    rewrite(alloc, schema, &mut reader, u64::MAX, &mut sink).ok()?;
    digest.add(sink.into_inner().as_slice());
    Some(())
}

/// The digest of what becomes of so many messages.
pub(crate) fn relayed(
    alloc: Global,
    schema: &Schema,
    count: u32,
    random: &mut Random,
) -> Option<Digest> {
    let mut digest = Digest::new();
    let mut message = Vec::new(alloc);
    for _ in 0..count {
        message.clear();
        put_message(random, &mut message).ok()?;
        relay(alloc, schema, message.as_slice(), &mut digest)?;
    }
    Some(digest)
}
