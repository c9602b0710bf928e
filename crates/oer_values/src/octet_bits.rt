//! Bits of octets, the most significant first: the rules that lists of bits, reader and checker share.
ghost use Rattle.std.specs.Prelude.{◌≡◌, ◌<◌, ◌≤◌, ◌-◌, ◌∷◌, [], drop};
ghost use Rattle.oer_model.specs.Bits.{all_false, bit, bits_of, octets_for, spare_bits as spare};
ghost use Rattle.oer_model.specs.SharedSteps.{unused_fits};

/// The bit of the octet with this index, from 0 to 7; bit 7 is the most significant.
pub fn bit_of(octet: u8, index: u8) -> bool
    requires { index < 8 }
    ensures { result ≡ bit octet index }
{
    (octet >> index) % 2 == 1
}

/// How many octets hold so many bits.
pub fn octets_needed(count: u64) -> u64
    ensures value { result ≡ octets_for count }
    ensures most { result ≤ 2305843009213693952 }
{
    if count % 8 == 0 {
        count / 8
    } else {
        count / 8 + 1
    }
}

/// How many bits are missing to whole octets where there are so many: from 0 to 7.
pub fn spare_bits(count: u64) -> u8
    ensures value { result ≡ spare count }
    ensures most { result ≤ 7 }
{
    ((8 - count % 8) % 8) as u8
}

/// Whether the last `count` bits of the octet, at most 7, are zero.
pub fn are_last_zero(octet: u8, count: u8) -> bool
    requires { count ≤ 7 }
    ensures { result ≡ all_false (drop (8 - count) (bits_of (octet ∷ []))) }
{
    octet % (1 << count) == 0
}

/// Whether a BIT STRING may have so many unused bits where its length counts the initial octet (X.696,
/// 13.3): at most 7, and none where no octet follows.
pub fn may_be_unused(unused: u8, length: u64) -> bool
    ensures { result ≡ unused_fits length unused }
{
    unused <= 7 && (length >= 2 || unused == 0)
}
