//! Numbers in decimal.
ghost use Rattle.std.specs.Prelude.{◌≡◌};
ghost use Rattle.oer_literals.specs.Numbers.{arc_of, integer_of, item_number_of, place_of, size_of, tag_number_of};

/// The number of 128 bits, with a sign or without: a value or a bound of an INTEGER.
pub fn integer_of(digits: &str) -> Option<i128>
    ensures { result ≡ integer_of digits.now }
{
    match digits.parse::<i128>() {
        Ok(number) => Some(number),
        Err(_) => None,
    }
}

/// The number of an item, of 64 bits, with a sign or without.
pub fn item_number_of(digits: &str) -> Option<i64>
    ensures { result ≡ item_number_of digits.now }
{
    match digits.parse::<i64>() {
        Ok(number) => Some(number),
        Err(_) => None,
    }
}

/// A size, of 64 bits.
pub fn size_of(digits: &str) -> Option<u64>
    ensures { result ≡ size_of digits.now }
{
    match digits.parse::<u64>() {
        Ok(number) => Some(number),
        Err(_) => None,
    }
}

/// The number of a tag, of 32 bits.
pub fn tag_number_of(digits: &str) -> Option<u32>
    ensures { result ≡ tag_number_of digits.now }
{
    match digits.parse::<u32>() {
        Ok(number) => Some(number),
        Err(_) => None,
    }
}

/// An arc of an object identifier, of 128 bits.
pub fn arc_of(digits: &str) -> Option<u128>
    ensures { result ≡ arc_of digits.now }
{
    match digits.parse::<u128>() {
        Ok(number) => Some(number),
        Err(_) => None,
    }
}

/// The place of an addition, of 16 bits.
pub fn place_of(digits: &str) -> Option<u16>
    ensures { result ≡ place_of digits.now }
{
    match digits.parse::<u16>() {
        Ok(number) => Some(number),
        Err(_) => None,
    }
}
