//! What a text looks like.
ghost use Rattle.std.specs.Prelude.{◌≡◌, ◌≤◌, IfSome, length};
ghost use Rattle.oer_places.specs.Looks.{are_digits, defines, definition_behind, has_slash, has_white, is_digit, is_file_name, is_of_words, is_white, occurs, past_white, seems_digits, word_length};

// Whether the octet is a space, a tab, a line feed or a carriage return.
fn is_white(octet: u8) -> bool
    ensures { result ≡ is_white octet }
{
    octet == b' ' || octet == b'\t' || octet == b'\n' || octet == b'\r'
}

fn has_white(text: &[u8]) -> bool
    ensures { result ≡ has_white text.now }
{
    for octet in text {
        if is_white(*octet) {
            return true;
        }
    }
    false
}

fn has_slash(text: &[u8]) -> bool
    ensures { result ≡ has_slash text.now }
{
    for octet in text {
        if *octet == b'/' {
            return true;
        }
    }
    false
}

/// Whether the octet is a hexadecimal digit.
pub fn is_digit(octet: u8) -> bool
    ensures { result ≡ is_digit octet }
{
    matches!(octet, b'0'..=b'9' | b'A'..=b'F' | b'a'..=b'f')
}

// Whether there are only hexadecimal digits and white space.
fn are_digits(text: &[u8]) -> bool
    ensures { result ≡ are_digits text.now }
{
    for octet in text {
        if !is_digit(*octet) && !is_white(*octet) {
            return false;
        }
    }
    true
}

/// Whether octets look like hexadecimal digits: two of these, and then only digits and white space.
pub fn seems_digits(octets: &[u8]) -> bool
    ensures { result ≡ seems_digits octets.now }
{
    match octets {
        [first, second, rest @ ..] => is_digit(*first) && is_digit(*second) && are_digits(rest),
        _ => false,
    }
}

/// Whether a text looks like the name of a file of text: it has no white space, and a `/` or an end like `.asn`.
pub fn is_file_name(text: &[u8]) -> bool
    ensures { result ≡ is_file_name text.now }
{
    !has_white(text)
        && (has_slash(text)
            || text.ends_with(b".asn")
            || text.ends_with(b".asn1")
            || text.ends_with(b".txt"))
}

/// Whether the word stands somewhere in the text.
pub fn occurs(word: &[u8], text: &[u8]) -> bool
    ensures { result ≡ occurs word.now text.now }
{
    let mut rest = text;
    while let Some((_, tail)) = rest.split_first() {
        if rest.starts_with(word) {
            return true;
        }
        rest = tail;
    }
    false
}

// Whether the octet is a letter, a digit or a hyphen.
fn is_of_words(octet: u8) -> bool
    ensures { result ≡ is_of_words octet }
{
    matches!(octet, b'a'..=b'z' | b'A'..=b'Z' | b'0'..=b'9' | b'-')
}

/// How many letters, digits and hyphens a text begins with.
pub fn word_length(text: &[u8]) -> usize
    ensures length { result ≡ word_length text.now }
    ensures most { result ≤ length text.now }
{
    let mut count = 0;
    for octet in text {
        if !is_of_words(*octet) {
            return count;
        }
        count += 1;
    }
    count
}

// What stands behind white space.
fn past_white(text: &[u8]) -> &[u8]
    ensures { result.now ≡ past_white text.now }
{
    let mut rest = text;
    while let Some((octet, tail)) = rest.split_first() {
        if !is_white(*octet) {
            return rest;
        }
        rest = tail;
    }
    rest
}

// Whether the text begins with the name, and `::=` follows.
fn defines(name: &[u8], text: &[u8]) -> bool
    ensures { result ≡ defines name.now text.now }
{
    text.starts_with(name) && past_white(&text[name.len()..]).starts_with(b"::=")
}

/// How many octets of a text are before the first definition of the name, which doesn't begin inside a word.
pub fn definition_behind(name: &[u8], text: &[u8]) -> Option<usize>
    ensures first { result ≡ definition_behind name.now text.now }
    ensures most { IfSome result (λ n. n ≤ length text.now) }
{
    let mut inside = false;
    let mut count = 0;
    let mut rest = text;
    while let Some((octet, tail)) = rest.split_first() {
        if !inside && defines(name, rest) {
            return Some(count);
        }
        inside = is_of_words(*octet);
        count += 1;
        rest = tail;
    }
    None
}
