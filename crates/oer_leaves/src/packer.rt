//! Bits, eight to an octet.
ghost use Rattle.std.specs.Prelude.{◌≡◌, ◌+◌, ◌*◌, ◌≤◌, ◌∷◌, [], List, Bool, MatchOption};
ghost use Rattle.oer_model.specs.Bits.{bit_value};
ghost use Rattle.oer_leaves.specs.Packing.{pending, IsReady, Packs};
ghost use Rattle.oer_leaves.specs.Wrote.{Wrote};

use crate::slice::put_slice;
use oer_units::{Sink, SinkFault};

// The octet that is begun, and what its next bit is worth.
#[derive(Drop)]
pub(crate) struct Packer {
    octet: u8,
    weight: u8,
}

impl Packer {
    // With no bit so far.
    pub(crate) fn new() -> Packer
        ensures octet { result.octet ≡ 0 }
        ensures weight { result.weight ≡ 128 }
    {
        Packer {
            octet: 0,
            weight: 128,
        }
    }

    // The octet with one bit more.
    fn with(&self, bit: bool) -> u8
        requires { IsReady self.now }
        ensures { result ≡ self.now.octet + self.now.weight * bit_value bit }
    {
        if bit {
            self.octet + self.weight
        } else {
            self.octet
        }
    }

    // Takes a bit, and hands out the octet where it is the last one.
    fn take(&mut self, bit: bool) -> Option<u8>
        requires { IsReady self.old }
        ensures ready { IsReady self.new }
        ensures same { (s : List Bool) → MatchOption result (pending self.old (bit ∷ s) ≡ pending self.new s) (λ x. pending self.old (bit ∷ s) ≡ x ∷ pending self.new s) }
    {
        let octet = self.with(bit);
        if self.weight > 1 {
            self.octet = octet;
            self.weight /= 2;
            return None;
        }
        self.octet = 0;
        self.weight = 128;
        Some(octet)
    }

    // Takes a bit. A whole octet goes to the sink.
    pub(crate) fn put<W: Sink>(
        &mut self,
        bit: bool,
        done: u64,
        sink: &mut W,
    ) -> Result<u64, SinkFault>
        requires { IsReady self.old }
        ensures { Packs (bit ∷ []) self.old self.new done (W.contents sink.old) (W.failed sink.old) result (W.contents sink.new) (W.failed sink.new) }
    {
        match self.take(bit) {
            None => Ok(done),
            Some(octet) => put_slice(&[octet], done, sink),
        }
    }

    // Writes the octet that is begun, with zeros at its end.
    pub(crate) fn finish<W: Sink>(self, done: u64, sink: &mut W) -> Result<u64, SinkFault>
        requires { IsReady self }
        ensures { Wrote done (pending self []) (W.contents sink.old) (W.failed sink.old) result (W.contents sink.new) (W.failed sink.new) }
    {
        if self.weight < 128 {
            return put_slice(&[self.octet], done, sink);
        }
        Ok(done)
    }
}
