//! Bits of octets that are there.

/// The bits of some octets, from one to another, the most significant of an octet first.
#[derive(Clone, Copy)]
pub struct Bits<'a> {
    pub octets: &'a [u8],
    pub from: u64,
    pub to: u64,
}
