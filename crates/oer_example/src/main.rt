//! An example of a program that stands on these crates: `oer_example TYPES SERIES < DIGITS`.
//!
//! It takes a certificate of IEEE 1609.2 in hexadecimal digits, and prints the octets to sign for a
//! certificate that differs in its `crlSeries` alone. TYPES is a file with the types Certificate and
//! ToBeSignedCertificate. docs/LIBRARY.md goes through the code.
#![tactic(auto)]

mod fault;
mod renewed;
mod value;

use crate::fault::Fault;
use crate::renewed::renewed_digits;
use oer_text::parse_types;
use std::alloc::Global;
use std::process::ExitCode;
use std::{fs, io};

/// The line for a certificate in digits, by the types of a text; none if the text hasn't both types.
fn line_of(alloc: Global, types: &str, digits: &str, series: u16) -> Option<Result<String, Fault>> {
    let types = parse_types(alloc, types).ok()?;
    let certificate = types.get("Certificate")?;
    let to_be_signed = types.get("ToBeSignedCertificate")?;
    Some(renewed_digits(alloc, certificate, to_be_signed, digits, series))
}

/// What the arguments ask for; none if they are not understood, or what they need can't be read.
fn asked(rt: &HostRuntime) -> Option<Result<String, Fault>> {
    let alloc = rt.alloc();
    let words = std::env::args(rt).ok()?.collect::<Vec<String>>(alloc).ok()?;
    let [_, types, series] = words.as_slice() else {
        return None;
    };
    let series = series.parse::<u16>().ok()?;
    let types = fs::read_to_string(rt, types.as_str()).ok()?;
    let digits = io::read_to_string(alloc, rt.reader()).ok()?;
    line_of(alloc, types.as_str(), digits.trim(), series)
}

fn main(rt: HostRuntime) -> ExitCode {
    let printed = match asked(&rt) {
        Some(Ok(line)) => println!(&rt; "{line}"),
        Some(Err(fault)) => {
            let _said = eprintln!(&rt; "oer_example: {fault}");
            return ExitCode::from(1);
        }
        None => return ExitCode::from(2),
    };
    match printed {
        Ok(()) => ExitCode::from(0),
        Err(_) => ExitCode::from(3),
    }
}
