//! The lines of a log of messages, and the array with `--json`, as the program `oer-dump` prints them.
use crate::digest::Digest;
use crate::messages::put_message;
use crate::random::Random;
use oer_dump_cmd::run;
use std::alloc::Global;

/// The octets of a log: how many messages it has, and each of them.
fn log(alloc: Global, count: u32, random: &mut Random) -> Option<Vec<u8>> {
    let mut octets = Vec::new(alloc);
    octets.push(4).ok()?;
    octets.extend_from_slice(&count.to_be_bytes()).ok()?;
    for _ in 0..count {
        put_message(random, &mut octets).ok()?;
    }
    Some(octets)
}

/// The arguments of the program.
fn words_of(alloc: Global, text: &str, message: &str, form: &str) -> Option<Vec<String>> {
    let mut words = Vec::new(alloc);
    words.push(String::from_str(alloc, "oer-dump").ok()?).ok()?;
    words
        .push(format!(in alloc; "--types={text}\nLog ::= SEQUENCE OF {message}\n").ok()?)
        .ok()?;
    words
        .push(String::from_str(alloc, "--name=Log").ok()?)
        .ok()?;
    words
        .push(String::from_str(alloc, "--limit=100000000").ok()?)
        .ok()?;
    words.push(String::from_str(alloc, form).ok()?).ok()?;
    Some(words)
}

/// Adds what the program prints of the octets, and its status.
fn dump(alloc: Global, words: &[String], octets: &[u8], digest: &mut Digest) {
    let mut input = octets;
    let mut errors = Digest::new();
    let status = run(alloc, words, 100, &mut input, digest, &mut errors);
    digest.add_number(u64::from(status));
    digest.add_number(errors.sum());
}

/// The digest of what is printed of two logs of so many messages, of one as lines, of one as an array.
pub(crate) fn dumped(
    alloc: Global,
    text: &str,
    message: &str,
    count: u32,
    random: &mut Random,
) -> Option<Digest> {
    let mut digest = Digest::new();
    for form in ["--width=120", "--json"] {
        let words = words_of(alloc, text, message, form)?;
        let octets = log(alloc, count, random)?;
        dump(alloc, words.as_slice(), octets.as_slice(), &mut digest);
    }
    Some(digest)
}
