//! Words that stand for themselves, ids and Names.
ghost use Rattle.std.specs.Prelude.{◌≡◌};
ghost use Rattle.std.specs.Char.{is_ascii_uppercase};
ghost use Rattle.std.specs.List.{list_any};
ghost use Rattle.std.specs.Str.{bytes_eq};
ghost use Rattle.oer_value_notation.specs.Words.{begins, is_id, is_name, is_reserved, other_words, type_word};

use oer_lexer::{LeafWord, is_leaf_word, leaf_word};

/// Words that are no Names, beside those of the types that hold no other.
const OTHERS: [&str; 15] = [
    "SEQUENCE",
    "OF",
    "CHOICE",
    "OPTIONAL",
    "DEFAULT",
    "SIZE",
    "MIN",
    "MAX",
    "TRUE",
    "FALSE",
    "UNIVERSAL",
    "APPLICATION",
    "PRIVATE",
    "REAL",
    "SET",
];

/// The types that are no Names, by the word with which they begin.
#[derive(Clone, Copy)]
pub enum TypeWord {
    /// A type that holds no other.
    Leaf(LeafWord),
    Sequence,
    Choice,
}

/// Whether the word begins with a small letter.
pub fn is_id(word: &str) -> bool
    ensures { result ≡ is_id word.now }
{
    match word.as_bytes().first() {
        Some(c) => c.is_ascii_lowercase(),
        None => false,
    }
}

fn begins_with_capital(word: &str) -> bool
    ensures { result ≡ begins is_ascii_uppercase word.now }
{
    match word.as_bytes().first() {
        Some(c) => c.is_ascii_uppercase(),
        None => false,
    }
}

/// Whether the word begins with a capital and stands for nothing else.
pub fn is_name(word: &str) -> bool
    ensures { result ≡ is_name word.now }
{
    begins_with_capital(word) && !is_reserved(word)
}

/// Whether it is one of the words that are no Names.
#[tactic(auto, using(crate::proofs::Reserved::reserved_test))]
fn is_reserved(word: &str) -> bool
    ensures { result ≡ is_reserved word.now }
{
    is_leaf_word(word) || is_other(word)
}

// Whether it is one of them, but none of the words of a type that holds no other.
fn is_other(word: &str) -> bool
    ensures { result ≡ list_any (bytes_eq word.now) other_words }
{
    let others: [&str; 15] = OTHERS;
    is_among(word, others.as_slice())
}

// Whether it is one of these words.
fn is_among(word: &str, words: &[&str]) -> bool
    ensures { result ≡ list_any (λ v. bytes_eq word.now v.now) words.now }
{
    for other in words {
        if word == *other {
            return true;
        }
    }
    false
}

/// The type that begins with this word.
#[tactic(auto, unfolding(crate::specs::Words::type_word))]
pub fn type_word(word: &str) -> Option<TypeWord>
    ensures { result ≡ type_word word.now }
{
    match word {
        "SEQUENCE" => Some(TypeWord::Sequence),
        "CHOICE" => Some(TypeWord::Choice),
        _ => Some(TypeWord::Leaf(leaf_word(word)?)),
    }
}
