//! Units of the encoding, many of each.
use oer_units::{
    Metered, Window, length, octets, put_length, signed_counted, tag, unsigned_counted,
};
use std::alloc::Global;

/// How many units a turn has.
const UNITS: u64 = 1000;

/// How many octets `octets` reads in a turn.
const MEBIBYTE: u64 = 1_048_576;

/// The octets of a unit, as often as a turn has units, and octets after them.
fn units(alloc: Global, unit: &[u8]) -> Option<Vec<u8>> {
    let mut list = Vec::new(alloc);
    for _ in 0..UNITS {
        list.extend_from_slice(unit).ok()?;
    }
    for _ in 0..UNITS {
        list.push(0).ok()?;
    }
    Some(list)
}

/// The sum of the lengths of a turn.
fn lengths(list: &[u8]) -> u64 {
    let mut reader = Metered::new(list);
    let mut w = Window::new(&mut reader, u64::MAX);
    let mut sum = 0u64;
    for _ in 0..UNITS {
        if let Ok(n) = length(&mut w) {
            sum = sum.wrapping_add(n);
        }
    }
    sum
}

/// The sum of the unsigned numbers of a turn.
fn unsigned(list: &[u8]) -> u64 {
    let mut reader = Metered::new(list);
    let mut w = Window::new(&mut reader, u64::MAX);
    let mut sum = 0i128;
    for _ in 0..UNITS {
        if let Ok(n) = unsigned_counted(&mut w) {
            sum = sum.wrapping_add(n);
        }
    }
    (sum % 1_000_000).unsigned_abs() as u64
}

/// The sum of the signed numbers of a turn.
fn signed(list: &[u8]) -> u64 {
    let mut reader = Metered::new(list);
    let mut w = Window::new(&mut reader, u64::MAX);
    let mut sum = 0i128;
    for _ in 0..UNITS {
        if let Ok(n) = signed_counted(&mut w) {
            sum = sum.wrapping_add(n);
        }
    }
    (sum % 1_000_000).unsigned_abs() as u64
}

/// The sum of the tag numbers of a turn.
fn tags(list: &[u8]) -> u64 {
    let mut reader = Metered::new(list);
    let mut w = Window::new(&mut reader, u64::MAX);
    let mut sum = 0u64;
    for _ in 0..UNITS {
        if let Ok(t) = tag(&mut w) {
            sum = sum.wrapping_add(u64::from(t.number));
        }
    }
    sum
}

/// How many octets a turn of lengths has when it is written.
fn written(alloc: Global) -> u64 {
    let mut sink = Metered::new(Vec::new(alloc));
    for n in 0..UNITS {
        if put_length(n, &mut sink).is_err() {
            return 0;
        }
    }
    sink.into_inner().len() as u64
}

/// How many octets were read at once.
fn many(alloc: Global, list: &[u8]) -> u64 {
    let mut reader = Metered::new(list);
    let mut w = Window::new(&mut reader, u64::MAX);
    match octets(alloc, &mut w, MEBIBYTE) {
        Ok(read) => read.len() as u64,
        Err(_) => 0,
    }
}

/// What a turn reads.
pub(crate) fn list_of(alloc: Global, task: &str) -> Option<Vec<u8>> {
    match task {
        "length" => units(alloc, &[0x81, 0x85]),
        "unsigned" => units(alloc, &[0x02, 0x01, 0x05]),
        "signed" => units(alloc, &[0x02, 0xff, 0x05]),
        "tag" => units(alloc, &[0xbf, 0x81, 0x48]),
        "octets" => {
            let mut list = Vec::new(alloc);
            list.resize(MEBIBYTE as usize, 7).ok()?;
            Some(list)
        }
        _ => Some(Vec::new(alloc)),
    }
}

/// One turn.
pub(crate) fn turn(alloc: Global, task: &str, list: &[u8]) -> u64 {
    match task {
        "length" => lengths(list),
        "unsigned" => unsigned(list),
        "signed" => signed(list),
        "tag" => tags(list),
        "octets" => many(alloc, list),
        _ => written(alloc),
    }
}
