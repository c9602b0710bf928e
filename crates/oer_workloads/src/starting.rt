//! The program `oer`, started for a message with a text of types, as in a loop of a shell.
use crate::digest::Digest;
use crate::module_text::ModuleText;
use crate::random::Random;
use oer_cmd::run;
use std::alloc::Global;

/// How many definitions a text has beside that of the message.
const DEFINITIONS: u32 = 120;

/// A text of types, the last of which is that of a message.
fn text_of(alloc: Global, random: &mut Random) -> Option<String> {
    let mut module = ModuleText::new(alloc);
    for _ in 0..DEFINITIONS {
        module.put_definition(random).ok()?;
    }
    module.put_message(random).ok()?;
    Some(module.into_text())
}

/// The arguments of the program.
fn words_of(alloc: Global, random: &mut Random) -> Option<Vec<String>> {
    let text = text_of(alloc, random)?;
    let mut octets = Vec::new(alloc);
    octets.extend_from_slice(&[0x00, 0x03, 0x81, 0x10]).ok()?;
    random.put(16, &mut octets).ok()?;
    let digits = hex::encode(alloc, octets.as_slice()).ok()?;
    let mut words = Vec::new(alloc);
    words.push(String::from_str(alloc, "oer").ok()?).ok()?;
    words.push(String::from_str(alloc, "canon").ok()?).ok()?;
    words.push(format!(in alloc; "--types={text}").ok()?).ok()?;
    words
        .push(String::from_str(alloc, "--name=Message").ok()?)
        .ok()?;
    words.push(format!(in alloc; "--hex={digits}").ok()?).ok()?;
    Some(words)
}

/// The digest of the texts of so many starts, and of what the program prints.
pub(crate) fn started(alloc: Global, count: u32, random: &mut Random) -> Option<Digest> {
    let mut digest = Digest::new();
    for _ in 0..count {
        let words = words_of(alloc, random)?;
        let mut errors = Digest::new();
        let mut input: &[u8] = &[];
        let status = run(
            alloc,
            words.as_slice(),
            &mut input,
            &mut digest,
            &mut errors,
        );
        digest.add_number(u64::from(status));
        digest.add_number(errors.sum());
    }
    Some(digest)
}
