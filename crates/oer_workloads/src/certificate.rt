//! Certificates of IEEE 1609.2, in octets: those of the example in the documents, with other contents.
use crate::random::Random;
use std::alloc::AllocError;

/// Adds a number of regions, each a country or a country with regions.
fn put_regions(random: &mut Random, to: &mut Vec<u8>) -> Result<(), AllocError> {
    let count = (random.number() % 5) as u8 + 1;
    to.extend_from_slice(&[0x83, 0x01, count])?;
    for _ in 0..count {
        if random.is_one_of(2) {
            to.push(0x80)?;
            random.put(2, to)?;
        } else {
            let regions = (random.number() % 6) as u8;
            to.push(0x81)?;
            random.put(2, to)?;
            to.extend_from_slice(&[0x01, regions])?;
            random.put(usize::from(regions), to)?;
        }
    }
    Ok(())
}

/// Adds a number of permissions: applications, with what each of them is allowed to send.
fn put_permissions(random: &mut Random, to: &mut Vec<u8>) -> Result<(), AllocError> {
    let count = (random.number() % 5) as u8 + 1;
    to.extend_from_slice(&[0x01, count])?;
    for _ in 0..count {
        match random.below(3) {
            0 => {
                to.extend_from_slice(&[0x80, 0x01, 0x24, 0x80, 0x03])?;
                random.put(3, to)?;
            }
            1 => {
                to.extend_from_slice(&[0x80, 0x02, 0x80, 0x03, 0x81, 0x05, 0x04])?;
                random.put(4, to)?;
            }
            _ => to.extend_from_slice(&[0x00, 0x04, 0x10, 0x20, 0x40, 0x81])?,
        }
    }
    Ok(())
}

/// Adds the part that is signed.
fn put_signed(random: &mut Random, to: &mut Vec<u8>) -> Result<(), AllocError> {
    let name = (random.number() % 20) as u8 + 6;
    to.extend_from_slice(&[0x71, 0x81, name])?;
    random.put_letters(usize::from(name), to)?;
    random.put(9, to)?;
    to.push(0x84)?;
    random.put(2, to)?;
    put_regions(random, to)?;
    random.put(1, to)?;
    put_permissions(random, to)?;
    to.extend_from_slice(&[0x00, 0x80, 0x82])?;
    random.put(32, to)?;
    to.extend_from_slice(&[0x80, 0x80, 0x83])?;
    random.put(32, to)
}

/// Adds a certificate.
pub(crate) fn put_certificate(random: &mut Random, to: &mut Vec<u8>) -> Result<(), AllocError> {
    to.extend_from_slice(&[0x80, 0x03, 0x00, 0x80])?;
    random.put(8, to)?;
    put_signed(random, to)?;
    to.extend_from_slice(&[0x80, 0x80])?;
    random.put(64, to)
}
