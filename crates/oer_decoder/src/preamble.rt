//! The preamble of a SEQUENCE.
ghost use Rattle.std.specs.Prelude.{◌≡◌, ◌≤◌, ◌<◌, ◌+◌, ◌∷◌, ◌++◌, [], Bool, IfErr, IfOk, List, take};
ghost use Rattle.oer_units.specs.declared.fault.Why.TheVariants.{Memory};
ghost use Rattle.oer_units.specs.Reads.{state};
ghost use Rattle.oer_model.specs.Reading.{preamble as preamble_at};
ghost use Rattle.oer_decoder.specs.MarksView.{IsFew, bits_in};
ghost use Rattle.oer_decoder.specs.Recoding.{Grows};
ghost use Rattle.oer_decoder.specs.Stops.{ReadsAs};

use crate::bit_strings::{are_false_from, bits_of, bits_of_octet};
use crate::stop::Stop;
use oer_types::{are_last_zero, octets_needed};
use oer_units::{Source, Why, Window, octets, octets_into};
use std::alloc::Global;

/// The bits of a preamble: the first so many of eight, without memory, or any number of them.
#[derive(Drop)]
pub(crate) enum Marks {
    Few([bool; 8], usize),
    Many(Vec<bool>),
}

impl Marks {
    /// The bits.
    #[inline(always)]
    pub(crate) fn as_slice(&self) -> &[bool]
        ensures { result.now ≡ bits_in self.now }
    {
        match self {
            Marks::Few(bits, count) => &bits[..(*count).min(8)],
            Marks::Many(bits) => bits,
        }
    }

    /// None so far.
    pub(crate) fn none() -> Self
        ensures { bits_in result ≡ [] }
    {
        Marks::Few([false; 8], 0)
    }

    /// One more. The ninth takes memory.
    pub(crate) fn push(&mut self, alloc: Global, bit: bool) -> Result<(), Stop>
        ensures { Grows (bit ∷ []) (bits_in self.old) result (bits_in self.new) }
    {
        if let Marks::Many(bits) = self {
            return one_more(bits, bit);
        }
        let grown = self.grown(alloc, bit)?;
        *self = grown;
        Ok(())
    }

    // Up to eight bits and one more.
    fn grown(&self, alloc: Global, bit: bool) -> Result<Marks, Stop>
        requires { IsFew self.now }
        ensures value { IfOk result (λ marks. bits_in marks ≡ bits_in self.now ++ bit ∷ []) }
        ensures memory { IfErr result (λ e. e.why ≡ Memory) }
    {
        match self {
            Marks::Few(bits, count) if *count < 8 => Ok(Marks::Few(
                with_bit(*bits, *count, bit),
                *count + 1,
            )),
            Marks::Few(bits, _) => Ok(Marks::Many(many(alloc, bits, bit)?)),
            Marks::Many(_) => unreachable!(),
        }
    }

    /// Puts another bit in place of the first.
    pub(crate) fn set_first(&mut self, bit: bool)
        ensures { (x : Bool) (s : List Bool) → bits_in self.old ≡ x ∷ s → bits_in self.new ≡ bit ∷ s }
    {
        match self {
            Marks::Few(bits, _) => bits[0] = bit,
            Marks::Many(bits) => {
                if let Some(first) = bits.first_mut() {
                    *first = bit;
                }
            }
        }
    }
}

// The bits with this one at that index.
fn with_bit(bits: [bool; 8], index: usize, bit: bool) -> [bool; 8]
    requires { index < 8 }
    ensures { take (index + 1) result ≡ take index bits ++ bit ∷ [] }
{
    let mut bits = bits;
    bits[index] = bit;
    bits
}

// Eight bits and one more.
fn many(alloc: Global, bits: &[bool], bit: bool) -> Result<Vec<bool>, Stop>
    ensures value { IfOk result (λ v. v.items ≡ bits.now ++ bit ∷ []) }
    ensures memory { IfErr result (λ e. e.why ≡ Memory) }
{
    let mut all = Vec::new(alloc);
    if all.extend_from_slice(bits).is_err() {
        return Err(Stop { why: Why::Memory });
    }
    one_more(&mut all, bit)?;
    Ok(all)
}

// One bit more.
fn one_more(bits: &mut Vec<bool>, bit: bool) -> Result<(), Stop>
    ensures { Grows (bit ∷ []) bits.old.items result bits.new.items }
{
    if bits.push(bit).is_err() {
        return Err(Stop { why: Why::Memory });
    }
    Ok(())
}

/// The preamble of a SEQUENCE (X.696, 16.2): so many bits, and zeros to the octet's end. Up to
/// eight bits take no memory.
#[inline(always)]
pub(crate) fn preamble<R: Source>(
    alloc: Global,
    count: u64,
    w: &mut Window<R>,
) -> Result<Marks, Stop>
    ensures { ReadsAs (preamble_at count) (state R.loan R.remaining R.failed w.old) bits_in result
        (state R.loan R.remaining R.failed w.new) }
{
    if count == 0 {
        return Ok(Marks::Few([false; 8], 0));
    }
    if count <= 8 {
        return short_preamble(count as usize, w);
    }
    long_preamble(alloc, count, w)
}

// A preamble of one octet.
#[inline(always)]
fn short_preamble<R: Source>(count: usize, w: &mut Window<R>) -> Result<Marks, Stop>
    requires some { 1 ≤ count }
    requires most { count ≤ 8 }
    ensures { ReadsAs (preamble_at count) (state R.loan R.remaining R.failed w.old) bits_in result
        (state R.loan R.remaining R.failed w.new) }
{
    let mut octet = [0u8; 1];
    octets_into(w, &mut octet)?;
    if !are_last_zero(octet[0], 8 - count as u8) {
        return Err(Stop {
            why: Why::PreamblePadding,
        });
    }
    Ok(Marks::Few(bits_of_octet(octet[0]), count))
}

// A preamble of any number of octets.
#[inline(always)]
fn long_preamble<R: Source>(alloc: Global, count: u64, w: &mut Window<R>) -> Result<Marks, Stop>
    ensures { ReadsAs (preamble_at count) (state R.loan R.remaining R.failed w.old) bits_in result
        (state R.loan R.remaining R.failed w.new) }
{
    let octets = octets(alloc, w, octets_needed(count))?;
    let Ok(bits) = bits_of(alloc, &octets) else {
        return Err(Stop { why: Why::Memory });
    };
    let mut bits = bits;
    if !are_false_from(&bits, count as usize) {
        return Err(Stop {
            why: Why::PreamblePadding,
        });
    }
    bits.truncate(count as usize);
    Ok(Marks::Many(bits))
}
