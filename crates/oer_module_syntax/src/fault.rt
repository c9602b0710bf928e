//! What is wrong with a text of modules.
ghost use Rattle.std.specs.Prelude.{◌≡◌};
ghost use Rattle.oer_module_syntax.specs.declared.fault.Why.TheVariants.{Memory};

use crate::word::Keyword;
use oer_module_lexer::Sign;
use std::alloc::{AllocError, AllocFailed};

/// What the grammar has in place of a token.
#[derive(Clone, Copy, PartialEq, Eq)]
pub enum Sought {
    Sign(Sign),
    Keyword(Keyword),
    /// A type.
    Type,
    /// A value.
    Value,
    /// A name that begins with a small letter.
    Identifier,
    /// A name that begins with a capital letter and isn't reserved.
    Reference,
    /// The name of something that a module defines.
    Symbol,
    /// The sign that closes what a bracket, brace or parenthesis opened.
    Closing,
}

/// Why a text is rejected.
#[derive(Clone, Copy, PartialEq, Eq)]
pub enum Why {
    /// An allocation failed.
    Memory,
    /// No token begins here, or it has no end.
    Token,
    /// Types nest deeper than was allowed.
    TooDeep,
    /// A token that the grammar doesn't have here.
    Expected(Sought),
}

/// What is wrong with a text, and the byte at which the token begins that shows it; at the text's end
/// it is the text's length.
#[derive(Clone, Copy, PartialEq, Eq)]
pub struct Fault {
    pub at: usize,
    pub why: Why,
}

impl From<AllocError> for Fault {
    ghost from_gives = { λ _ e. e.why ≡ Memory };

    fn from(_: AllocError) -> Fault {
        Fault {
            at: 0,
            why: Why::Memory,
        }
    }
}

impl<T: Drop> From<AllocFailed<T>> for Fault {
    ghost from_gives = { λ _ e. e.why ≡ Memory };

    fn from(_: AllocFailed<T>) -> Fault {
        Fault {
            at: 0,
            why: Why::Memory,
        }
    }
}
