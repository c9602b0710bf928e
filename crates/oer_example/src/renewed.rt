//! The part of a certificate that is signed, taken, changed and written again.
ghost use Rattle.std.specs.Prelude.{◌≡◌, ◌≢◌, ℕ, List, Ok, IfErr, IfOk, string_bytes};
ghost use Rattle.hex.specs.Hex.{decode_of};
ghost use Rattle.oer_types.specs.Schema.{the_type};
ghost use Rattle.oer_parts.specs.Encoding.{octets_in, type_of_encoding};
ghost use Rattle.oer_parts.specs.Walk.{path_of};
ghost use Rattle.oer_example.specs.Renewed.{IsEncoding, IsNoFront, IsPart, IsRenewed, IsRenewedLine};

use crate::fault::Fault;
use crate::value::{canonical, integer, value_in, with_component};
use hex::FromHexError;
use oer_reader::{Encoding, PartFault, Step};
use oer_types::{Schema, fits};
use std::alloc::Global;

/// The encoding that the octets are, all of them. Returns `Read` if they begin with no encoding, and
/// `Follows` if an octet follows it.
fn whole<'s, 'a>(schema: &'s Schema, octets: &'a [u8]) -> Result<Encoding<'s, 'a>, Fault>
    ensures kind { IfOk result (λ found. type_of_encoding found ≡ the_type schema.now) }
    ensures octets { IfOk result (λ found. octets_in found ≡ octets.now) }
    ensures whole { IfOk result (λ found. IsEncoding (the_type schema.now) octets.now) }
    ensures only { IfOk result (λ found. IsNoFront (the_type schema.now) octets.now) }
    ensures none { IfErr result (λ fault. IsEncoding (the_type schema.now) octets.now → ⊥) }
{
    let encoding = match Encoding::at_front(schema, octets) {
        Ok(encoding) => encoding,
        Err(fault) => return Err(Fault::Read(fault)),
    };
    let verdict = encoding.verdict;
    if verdict.octets != octets.len() {
        return Err(Fault::Follows(verdict.octets as u64));
    }
    Ok(encoding)
}

/// The part of the octets to which the steps lead, where it stands: no octet is copied. Returns `Read`
/// or `Follows` if the octets are not all of one encoding, and `NoPart`.
fn part_of<'a>(schema: &Schema, octets: &'a [u8], path: &[Step]) -> Result<&'a [u8], Fault>
    ensures whole { IfOk result (λ part. IsEncoding (the_type schema.now) octets.now) }
    ensures part { IfOk result (λ part. IsPart (the_type schema.now) octets.now (path_of path.now) part.now) }
    ensures only { IfOk result (λ part. (s : List ℕ) → IsPart (the_type schema.now) octets.now (path_of path.now) s → part.now ≡ s) }
    ensures none { IfErr result (λ fault. (s : List ℕ) → IsEncoding (the_type schema.now) octets.now
        → IsPart (the_type schema.now) octets.now (path_of path.now) s → ⊥) }
{
    let encoding = whole(schema, octets)?;
    match encoding.part(path) {
        Ok(part) => Ok(part),
        Err(PartFault::Read(fault)) => Err(Fault::Read(fault)),
        Err(PartFault::NoSuchStep) => Err(Fault::NoPart),
        Err(PartFault::Absent) => Err(Fault::NoPart),
    }
}

/// The octets to sign for a certificate like this one with another `crlSeries`: its `toBeSigned`,
/// taken out of the octets, read, changed and written. Returns `Read`, `Follows` or `NoPart` if the
/// octets are no certificate; `Read` or `Follows` if `toBeSigned` is of another type than the one given
/// for it; `Misfit` if that type has no such component; and `Memory`.
pub fn renewed(
    alloc: Global,
    certificate: &Schema,
    to_be_signed: &Schema,
    octets: &[u8],
    series: u16,
) -> Result<Vec<u8>, Fault>
    ensures renewed { IfOk result (λ new. IsRenewed (the_type certificate.now) (the_type to_be_signed.now) octets.now series new.items) }
    ensures none { IfErr result (λ fault. fault ≢ Fault.Memory
        → (new : List ℕ) → IsRenewed (the_type certificate.now) (the_type to_be_signed.now) octets.now series new → ⊥) }
{
    let signed = part_of(certificate, octets, &[Step::Component(3)])?;
    let value = value_in(alloc, to_be_signed, signed)?;
    let Some(changed) = with_component(value, 2, integer(series)) else {
        return Err(Fault::Misfit);
    };
    if !fits(to_be_signed, &changed) {
        return Err(Fault::Misfit);
    }
    canonical(alloc, to_be_signed, &changed)
}

/// The octets that the digits spell. Returns `Hex` if they spell none, and `Memory`.
fn decoded(alloc: Global, digits: &str) -> Result<Vec<u8>, Fault>
    ensures octets { IfOk result (λ octets. decode_of digits.now ≡ Ok octets.items) }
    ensures none { IfErr result (λ fault. fault ≢ Fault.Memory → (b : List ℕ) → decode_of digits.now ≡ Ok b → ⊥) }
{
    match hex::decode(alloc, digits) {
        Ok(octets) => Ok(octets),
        Err(FromHexError::OutOfMemory) => Err(Fault::Memory),
        Err(_) => Err(Fault::Hex),
    }
}

/// The same in hexadecimal digits. Returns the errors of `renewed`, and `Hex` if the digits spell no
/// octets.
pub fn renewed_digits(
    alloc: Global,
    certificate: &Schema,
    to_be_signed: &Schema,
    digits: &str,
    series: u16,
) -> Result<String, Fault>
    ensures line { IfOk result (λ line. IsRenewedLine (the_type certificate.now) (the_type to_be_signed.now) digits.now series (string_bytes line)) }
    ensures none { IfErr result (λ fault. fault ≢ Fault.Memory
        → (line : List ℕ) → IsRenewedLine (the_type certificate.now) (the_type to_be_signed.now) digits.now series line → ⊥) }
{
    let octets = decoded(alloc, digits)?;
    let new = renewed(alloc, certificate, to_be_signed, octets.as_slice(), series)?;
    match hex::encode(alloc, new) {
        Ok(line) => Ok(line),
        Err(_) => Err(Fault::Memory),
    }
}
