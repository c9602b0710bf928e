//! The words of the types that hold no other.
ghost use Rattle.std.specs.Prelude.{◌≡◌};
ghost use Rattle.std.specs.List.{list_any};
ghost use Rattle.oer_lexer.specs.LeafWords.{is_leaf_word, is_word_of, leaf_among, leaf_word, seen_words, words_of};

/// The types that hold no other, by their words.
#[derive(Clone, Copy)]
pub enum LeafWord {
    Boolean,
    Null,
    Integer,
    Enumerated,
    BitString,
    OctetString,
    ObjectIdentifier,
    Ia5String,
    VisibleString,
    NumericString,
    PrintableString,
    Utf8String,
}

/// All of them.
const LEAVES: [LeafWord; 12] = [
    LeafWord::Boolean,
    LeafWord::Null,
    LeafWord::Integer,
    LeafWord::Enumerated,
    LeafWord::BitString,
    LeafWord::OctetString,
    LeafWord::ObjectIdentifier,
    LeafWord::Ia5String,
    LeafWord::VisibleString,
    LeafWord::NumericString,
    LeafWord::PrintableString,
    LeafWord::Utf8String,
];

/// The word with which a type begins, and the one behind it, if there is one.
#[derive(Clone, Copy)]
pub struct Words {
    pub first: &'static str,
    pub second: Option<&'static str>,
}

impl LeafWord {
    /// The words of the type.
    pub fn words(self) -> Words
        ensures { seen_words result ≡ words_of self }
    {
        let (first, second) = match self {
            LeafWord::Boolean => ("BOOLEAN", None),
            LeafWord::Null => ("NULL", None),
            LeafWord::Integer => ("INTEGER", None),
            LeafWord::Enumerated => ("ENUMERATED", None),
            LeafWord::BitString => ("BIT", Some("STRING")),
            LeafWord::OctetString => ("OCTET", Some("STRING")),
            LeafWord::ObjectIdentifier => ("OBJECT", Some("IDENTIFIER")),
            LeafWord::Ia5String => ("IA5String", None),
            LeafWord::VisibleString => ("VisibleString", None),
            LeafWord::NumericString => ("NumericString", None),
            LeafWord::PrintableString => ("PrintableString", None),
            LeafWord::Utf8String => ("UTF8String", None),
        };
        Words { first, second }
    }
}

/// The type that begins with this word.
#[tactic(auto, unfolding(crate::specs::LeafWords::leaf_word))]
pub fn leaf_word(word: &str) -> Option<LeafWord>
    ensures { result ≡ leaf_word word.now }
{
    let leaves: [LeafWord; 12] = LEAVES;
    leaf_among(word, leaves.as_slice())
}

/// Whether the word is one of those of a type that holds no other.
#[tactic(auto, unfolding(crate::specs::LeafWords::is_leaf_word))]
pub fn is_leaf_word(word: &str) -> bool
    ensures { result ≡ is_leaf_word word.now }
{
    let leaves: [LeafWord; 12] = LEAVES;
    is_among(word, leaves.as_slice())
}

// The first of the types that begins with this word.
fn leaf_among(word: &str, leaves: &[LeafWord]) -> Option<LeafWord>
    ensures { result ≡ leaf_among word.now leaves.now }
{
    for leaf in leaves {
        if word == leaf.words().first {
            return Some(*leaf);
        }
    }
    None
}

fn is_word_of(word: &str, leaf: LeafWord) -> bool
    ensures { result ≡ is_word_of word.now leaf }
{
    let words = leaf.words();
    if word == words.first {
        return true;
    }
    match words.second {
        Some(second) => word == second,
        None => false,
    }
}

fn is_among(word: &str, leaves: &[LeafWord]) -> bool
    ensures { result ≡ list_any (is_word_of word.now) leaves.now }
{
    for leaf in leaves {
        if is_word_of(word, *leaf) {
            return true;
        }
    }
    false
}
