//! Signed messages of IEEE 1609.2, in octets, as vehicles send them many times a second: most of them
//! canonical, the signer of one in four given by its certificate.
use crate::certificate::put_certificate;
use crate::random::Random;
use std::alloc::AllocError;

/// Adds the payload, whose length now and then is spelt in a longer form.
fn put_payload(random: &mut Random, to: &mut Vec<u8>) -> Result<(), AllocError> {
    let count = (random.number() % 80) as u8 + 40;
    if random.is_one_of(16) {
        to.push(0x81)?;
    }
    to.push(count)?;
    random.put(usize::from(count), to)
}

/// Adds a latitude, a longitude and an elevation.
fn put_place(random: &mut Random, to: &mut Vec<u8>) -> Result<(), AllocError> {
    for _ in 0..2 {
        to.push((random.number() % 53) as u8)?;
        random.put(3, to)?;
    }
    random.put(2, to)
}

/// Adds what says which application the message is for, and when it was sent, until when it is of use and
/// where it was sent. The application's number now and then has a surplus zero.
fn put_header(random: &mut Random, to: &mut Vec<u8>) -> Result<(), AllocError> {
    let has_place = random.is_one_of(3);
    to.push(if has_place { 0x70 } else { 0x40 })?;
    match random.below(16) {
        0 => to.extend_from_slice(&[0x02, 0x00, 0x24])?,
        1 => to.extend_from_slice(&[0x02, 0x80, 0x03])?,
        _ => to.extend_from_slice(&[0x01, 0x24])?,
    }
    random.put(8, to)?;
    if has_place {
        random.put(8, to)?;
        put_place(random, to)?;
    }
    Ok(())
}

/// Adds who signed.
fn put_signer(random: &mut Random, to: &mut Vec<u8>) -> Result<(), AllocError> {
    if random.is_one_of(4) {
        to.extend_from_slice(&[0x81, 0x01, 0x01])?;
        return put_certificate(random, to);
    }
    to.push(0x80)?;
    random.put(8, to)
}

/// Adds a message.
pub(crate) fn put_message(random: &mut Random, to: &mut Vec<u8>) -> Result<(), AllocError> {
    to.extend_from_slice(&[0x03, 0x81, 0x00, 0x40, 0x03, 0x80])?;
    put_payload(random, to)?;
    put_header(random, to)?;
    put_signer(random, to)?;
    to.extend_from_slice(&[0x80, 0x80])?;
    random.put(64, to)
}
