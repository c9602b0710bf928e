//! Tokens.

/// The signs of the notation (X.680, 12.20 to 12.24 and 12.37).
#[derive(Clone, Copy, PartialEq, Eq)]
pub enum Sign {
    OpenBrace,
    CloseBrace,
    OpenParenthesis,
    CloseParenthesis,
    OpenBracket,
    CloseBracket,
    /// `[[`
    OpenGroup,
    /// `]]`
    CloseGroup,
    Less,
    Greater,
    Comma,
    Semicolon,
    /// `.`
    Point,
    /// `..`
    Range,
    /// `...`
    Ellipsis,
    Colon,
    /// `::=`
    Assign,
    Equals,
    Hyphen,
    At,
    Bar,
    Exclamation,
    Caret,
}

/// The kinds of token that have a text of their own.
#[derive(Clone, Copy)]
pub enum Kind {
    Word,
    Field,
    Number,
    Real,
    Bits,
    Digits,
    Text,
}

/// A token. All but a sign have the text that they are, quotes included.
#[derive(Clone, Copy)]
pub enum Token<'t> {
    /// A letter, then letters, digits and single hyphens: a reference, an identifier or a reserved
    /// word (X.680, 12.2 to 12.5 and 12.38).
    Word(&'t str),
    /// `&` and a word: a field of a class (X.681, 7.4 to 7.8).
    Field(&'t str),
    /// Digits, the first of which is 0 only in `0` (X.680, 12.8).
    Number(&'t str),
    /// Digits with a decimal point or an exponent (X.680, 12.9).
    Real(&'t str),
    /// As `'0101'B`; white space may stand in it (X.680, 12.10).
    Bits(&'t str),
    /// As `'0AFF'H`; white space may stand in it (X.680, 12.12).
    Digits(&'t str),
    /// As `"a ""quoted"" word"`; it may go over lines (X.680, 12.14).
    Text(&'t str),
    Sign(Sign),
}

/// A token, and the byte of the text at which it begins.
#[derive(Clone, Copy)]
pub struct Spot<'t> {
    pub at: usize,
    pub token: Token<'t>,
}
