//! A text of types that is large and awkward, as a generator of types may write it: an enumeration, a SEQUENCE
//! and a CHOICE with very many parts that have several Names, and thousands of small definitions.
use crate::digest::Digest;
use crate::module_text::ModuleText;
use crate::random::Random;
use oer_text::{Types, parse_types, print_type};
use std::alloc::{AllocError, Global};

/// How many parts the wide types have.
const PARTS: usize = 2000;

/// How many more Names each of them has.
const ALIASES: usize = 8;

/// How many small definitions there are.
const DEFINITIONS: u32 = 12_000;

/// A text.
fn text_of(alloc: Global, random: &mut Random) -> Result<String, AllocError> {
    let mut module = ModuleText::new(alloc);
    let parts = PARTS - random.below(32);
    module.put_wide(parts, ALIASES)?;
    for _ in 0..DEFINITIONS {
        module.put_small(random)?;
    }
    Ok(module.into_text())
}

/// Adds the type of a Name, as it is printed.
fn add(alloc: Global, types: &Types, name: &str, digest: &mut Digest) -> Option<()> {
    let schema = types.get(name)?;
    digest.add(print_type(alloc, schema).ok()?.as_bytes());
    Some(())
}

/// The digest of some types of so many texts.
pub(crate) fn parsed(alloc: Global, count: u32, random: &mut Random) -> Option<Digest> {
    let mut digest = Digest::new();
    for _ in 0..count {
        let text = text_of(alloc, random).ok()?;
        let types = parse_types(alloc, text.as_str()).ok()?;
        for name in ["OtherWide3", "OtherBroad5", "OtherMany7", "Region11992"] {
            add(alloc, &types, name, &mut digest)?;
        }
    }
    Some(digest)
}
