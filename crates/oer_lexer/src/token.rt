//! Tokens.

/// The signs of the notation.
#[derive(Clone, Copy, PartialEq, Eq)]
pub enum Sign {
    OpenBrace,
    CloseBrace,
    OpenParenthesis,
    CloseParenthesis,
    OpenBracket,
    CloseBracket,
    Comma,
    /// `..`
    Range,
    /// `...`
    Ellipsis,
    /// `::=`
    Assign,
}

/// The kinds of token that stand for themselves.
#[derive(Clone, Copy)]
pub enum Kind {
    Word,
    Number,
    Bits,
    Digits,
    Text,
}

/// A token. All but a sign have the text that they are, quotes included.
#[derive(Clone, Copy)]
pub enum Token<'t> {
    /// A letter, then letters, digits and single hyphens.
    Word(&'t str),
    /// A decimal number without leading zeros.
    Number(&'t str),
    /// As `'0101'B`.
    Bits(&'t str),
    /// As `'0AFF'H`.
    Digits(&'t str),
    /// As `"a ""quoted"" word"`.
    Text(&'t str),
    Sign(Sign),
}

/// A token, and the byte of the text at which it begins.
#[derive(Clone, Copy)]
pub struct Spot<'t> {
    pub at: usize,
    pub token: Token<'t>,
}
