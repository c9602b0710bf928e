//! Laws of units, over the definitions alone.
ghost use Rattle.std.specs.Prelude.{⊤, ℕ};
ghost use Rattle.oer_units.specs.Spelling.{IsLength, IsEnumerated, IsBase128, IsTag, IsCounted, IsObjectId};
ghost use Rattle.oer_units.specs.Least.{big_endian, fixed_signed_octets, length_octets, counted, unsigned_octets, signed_octets, enumerated_octets, base128_octets, tag_octets};
ghost use Rattle.oer_units.specs.Fixed.{unsigned_fixed_at, signed_fixed_at};
ghost use Rattle.oer_units.specs.Lawful.{Lawful};
ghost use Rattle.oer_units.specs.declared.width.Width.{Width};
ghost use Rattle.oer_units.specs.Width.{octets_of_width, FitsUnsignedWidth, FitsSignedWidth};
ghost use Rattle.oer_units.specs.Numbers.{natural, unsigned, signed};
ghost use Rattle.oer_units.specs.Reader.{group};
ghost use Rattle.oer_units.specs.Reading.{octet, determinant, number, counted_number, counted_octets, is_int128, enumerated, tag, subidentifier, object_identifier};
ghost use Rattle.oer_units.specs.declared.fault.Why.TheVariants.{IntegerRange};
ghost use Rattle.oer_units.specs.Laws.{NoneBeginsAnother, EachSpellsOne, HasOneShortest, IsUnsignedCounted, IsSignedCounted, Is127Octets, Is128Bits, Is64Bits, HasTagNumber, ReadsLengths, IsOctet, IsGroup, IsText, IsFixed, IsOfWidth, IsUnsignedRead, IsSignedRead, IsEnumeratedRead, IsSubidentifierRead};

/// Of two lists of one kind neither is a proper front of the other.
pub fn no_unit_begins_another()
    ensures lengths { NoneBeginsAnother IsLength }
    ensures unsigned_numbers { NoneBeginsAnother IsUnsignedCounted }
    ensures signed_numbers { NoneBeginsAnother IsSignedCounted }
    ensures enumerations { NoneBeginsAnother IsEnumerated }
    ensures base128 { NoneBeginsAnother IsBase128 }
    ensures tags { NoneBeginsAnother IsTag }
    ensures unsigned_widths { (width : Width) → NoneBeginsAnother (IsOfWidth unsigned width) }
    ensures signed_widths { (width : Width) → NoneBeginsAnother (IsOfWidth signed width) }
{}

/// A list spells one number or tag.
pub fn a_list_has_one_number()
    ensures lengths { EachSpellsOne IsLength }
    ensures unsigned_numbers { EachSpellsOne IsUnsignedCounted }
    ensures signed_numbers { EachSpellsOne IsSignedCounted }
    ensures enumerations { EachSpellsOne IsEnumerated }
    ensures base128 { EachSpellsOne IsBase128 }
    ensures tags { EachSpellsOne IsTag }
    ensures unsigned_widths { (width : Width) → EachSpellsOne (IsOfWidth unsigned width) }
    ensures signed_widths { (width : Width) → EachSpellsOne (IsOfWidth signed width) }
{}

/// Each number and tag has one shortest list, which is what the writers append. A number that fits
/// a width has one list of that many octets, which is what the writers of fixed width append.
pub fn a_number_has_one_shortest_list()
    ensures lengths { HasOneShortest IsLength Is127Octets length_octets }
    ensures unsigned_numbers { HasOneShortest IsUnsignedCounted Is127Octets
        (λ n. counted (unsigned_octets n)) }
    ensures signed_numbers { HasOneShortest IsSignedCounted Is128Bits
        (λ z. counted (signed_octets z)) }
    ensures enumerations { HasOneShortest IsEnumerated Is64Bits enumerated_octets }
    ensures base128 { HasOneShortest IsBase128 (λ n. ⊤) base128_octets }
    ensures tags { HasOneShortest IsTag HasTagNumber tag_octets }
    ensures unsigned_widths { (width : Width) → HasOneShortest (IsOfWidth unsigned width)
        (FitsUnsignedWidth width) (λ n. big_endian (octets_of_width width) n) }
    ensures signed_widths { (width : Width) → HasOneShortest (IsOfWidth signed width)
        (FitsSignedWidth width) (λ z. fixed_signed_octets (octets_of_width width) z) }
{}

/// What a reader of a unit reads is a spelling, a spelling that comes next is read, and an error
/// says that there is none.
pub fn readers_read_the_spellings()
    ensures octet { Lawful octet IsOctet }
    ensures groups { (n : ℕ) → Lawful (group n) (IsGroup n) }
    ensures determinants { Lawful determinant IsLength }
    ensures lengths { ReadsLengths }
    ensures unsigned_fixed { (n : ℕ) → Lawful (number IntegerRange natural is_int128 n)
        (IsFixed natural is_int128 n) }
    ensures signed_fixed { (n : ℕ) → Lawful (number IntegerRange signed is_int128 n)
        (IsFixed signed is_int128 n) }
    ensures unsigned_widths { (width : Width) → Lawful (unsigned_fixed_at width)
        (IsOfWidth unsigned width) }
    ensures signed_widths { (width : Width) → Lawful (signed_fixed_at width)
        (IsOfWidth signed width) }
    ensures unsigned_numbers { Lawful (counted_number natural is_int128) IsUnsignedRead }
    ensures signed_numbers { Lawful (counted_number signed is_int128) IsSignedRead }
    ensures octets { Lawful counted_octets (IsCounted IsText) }
    ensures enumerations { Lawful enumerated IsEnumeratedRead }
    ensures tags { Lawful tag IsTag }
    ensures subidentifiers { (k : ℕ) → Lawful (subidentifier k) (IsSubidentifierRead k) }
    ensures object_identifiers { Lawful object_identifier (IsCounted IsObjectId) }
{}
