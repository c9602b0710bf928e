//! Units that no type has for itself: numbers of a width; and what a reader answers after it failed.
use crate::devices::SlowReader;
use crate::shared::is_well;
use oer_units::{
    Metered, ReadFault, Source, Why, Width, Window, octets, put_signed_fixed, put_unsigned_fixed,
    signed_counted,
};
use std::alloc::Global;
use std::test::Fail;

// The octets of 255 by each unsigned width, and those of -128 and -129 by the least signed one.
fn fixed(at: Global) -> Result<Vec<u8>, Fail> {
    let mut sink = Metered::new(Vec::new(at));
    put_unsigned_fixed(255, Width::One, &mut sink)?;
    put_unsigned_fixed(255, Width::Two, &mut sink)?;
    put_unsigned_fixed(255, Width::Four, &mut sink)?;
    put_unsigned_fixed(255, Width::Eight, &mut sink)?;
    put_signed_fixed(-128, Width::One, &mut sink)?;
    put_signed_fixed(-129, Width::Two, &mut sink)?;
    Ok(sink.into_inner())
}

#[test]
fn octets_of_fixed_size(rt: HostRuntime) -> Result<(), Fail> {
    let want = hex::decode(rt.alloc(), "ff00ff000000ff00000000000000ff80ff7f")?;
    is_well("fixed size", fixed(rt.alloc())? == want)
}

// The device is asked again after it failed, and fails at the same octet.
#[test]
fn the_device_fails(rt: HostRuntime) -> Result<(), Fail> {
    let mut reader = Metered::new(SlowReader::new(&[0x05, 0x01, 0x00], 3));
    let mut w = Window::new(&mut reader, 9);
    let number = signed_counted(&mut w);
    let rest = octets(rt.alloc(), &mut w, 4);
    let fault = ReadFault {
        taken: 3,
        why: Why::Device,
    };
    is_well("a number", number == Err(fault))?;
    is_well("octets", rest.err() == Some(fault))?;
    is_well("two failures", reader.failures() == 2)
}
