//! Constraints, values, items and actual parameters as trees. Places are the bytes of the text at which
//! tokens begin. The steps behind a name are `.` and a word or a field, any number of times.
use oer_module_lexer::Spot;
use oer_module_syntax::TypeSyntax;

/// A number, or the name of a value (X.680, 19.1).
#[derive(Clone, Copy)]
pub enum Amount<'s, 't> {
    /// Digits; negative: with a hyphen before them.
    Number { negative: bool, digits: &'t str },
    /// A name, and the steps from there.
    Named { name: &'t str, path: &'s [Spot<'t>] },
}

/// The reserved words that are values (X.680, 18.3, 21.6 and 24.3).
#[derive(Clone, Copy)]
pub enum Fixed {
    True,
    False,
    Null,
    PlusInfinity,
    MinusInfinity,
    NotANumber,
}

/// A value that holds no other. Texts stand as they are written, quotes included.
#[derive(Clone, Copy)]
pub enum Atom<'s, 't> {
    Amount(Amount<'s, 't>),
    /// Digits with a decimal point or an exponent (X.680, 21.6).
    Real { negative: bool, digits: &'t str },
    Fixed(Fixed),
    /// As `'0101'B`.
    Bits(&'t str),
    /// As `'0AFF'H`.
    Digits(&'t str),
    /// As `"text"`.
    Text(&'t str),
}

/// A value, as it is written (X.680, 17.7). What braces mean depends on the type.
#[cycle(values)]
#[derive(Drop)]
pub enum Value<'s, 't> {
    Atom {
        at: usize,
        atom: Atom<'s, 't>,
    },
    /// A name and its number in parentheses. Only a part of a member is one (X.680, 32.3).
    Numbered {
        at: usize,
        name: &'t str,
        number: Amount<'s, 't>,
    },
    /// A word, `:` and a value (X.680, 29; X.681, 14).
    Choice {
        at: usize,
        name: &'t str,
        value: Box<Value<'s, 't>>,
    },
    /// What stands in braces, joined by commas.
    Braces {
        at: usize,
        members: Vec<Member<'s, 't>>,
    },
}

/// What stands between the commas of braces: one part or more. One is a value in a list; two can be a name and its
/// value; any number can be the components of an object identifier.
#[cycle(values)]
#[derive(Drop)]
pub struct Member<'s, 't> {
    pub parts: Vec<Value<'s, 't>>,
}

/// A constraint, what stands in one pair of parentheses (X.680, 49.6).
#[cycle(sets)]
#[derive(Drop)]
pub enum Constraint<'s, 't> {
    /// A set of values, its extension, and the tokens after `!` (X.680, 50.1 and 53).
    Subtype {
        at: usize,
        root: Elements<'s, 't>,
        extension: Extension<'s, 't>,
        exception: &'s [Spot<'t>],
    },
    /// One that changes no octet, as its tokens (X.682, 8).
    General {
        at: usize,
        kind: General,
        spots: &'s [Spot<'t>],
    },
}

/// The general constraints.
#[derive(Clone, Copy)]
pub enum General {
    /// CONSTRAINED BY (X.682, 9)
    UserDefined,
    /// A set of objects in braces, which `@` may follow in further braces (X.682, 10).
    Table,
    /// CONTAINING or ENCODED BY (X.682, 11)
    Contents,
}

/// What follows the root of a constraint (X.680, 50.1).
#[cycle(sets)]
#[derive(Drop)]
pub enum Extension<'s, 't> {
    Closed,
    /// `...`
    Open,
    /// `...` and further values.
    Extended(Box<Elements<'s, 't>>),
}

/// A set of values (X.680, 50.1 and 50.5).
#[cycle(sets)]
#[derive(Drop)]
pub enum Elements<'s, 't> {
    /// Two or more, joined by `|` or UNION.
    Union(Vec<Elements<'s, 't>>),
    /// Two or more, joined by `^` or INTERSECTION.
    Intersection(Vec<Elements<'s, 't>>),
    /// The values of the first that aren't in the second.
    Except(Box<Elements<'s, 't>>, Box<Elements<'s, 't>>),
    /// All values that aren't in these.
    AllExcept(Box<Elements<'s, 't>>),
    /// SIZE (X.680, 51.5)
    Size {
        at: usize,
        size: Box<Constraint<'s, 't>>,
    },
    /// FROM (X.680, 51.7)
    Alphabet {
        at: usize,
        alphabet: Box<Constraint<'s, 't>>,
    },
    /// Those that hold no other set.
    Simple(Box<Simple<'s, 't>>),
}

/// Elements that hold no other set (X.680, 51).
#[derive(Drop)]
pub enum Simple<'s, 't> {
    /// A single value (X.680, 51.2).
    Value(Value<'s, 't>),
    /// (X.680, 51.4)
    Range {
        at: usize,
        lower: Bound<'s, 't>,
        upper: Bound<'s, 't>,
    },
    /// The values of a type, with INCLUDES before it or not (X.680, 51.3 and 51.6).
    Type(TypeSyntax<'s, 't>),
    /// One that narrows values alone, as the tokens after its words.
    Narrowing {
        at: usize,
        kind: Narrowing,
        spots: &'s [Spot<'t>],
    },
}

/// Sets of values that are kept as tokens. They change no octet, except that WITH COMPONENTS changes those of a
/// REAL and SETTINGS those of a TIME, neither of which has an encoding here.
#[derive(Clone, Copy)]
pub enum Narrowing {
    /// WITH COMPONENT or WITH COMPONENTS (X.680, 51.8)
    Inner,
    /// PATTERN (X.680, 51.9)
    Pattern,
    /// SETTINGS (X.680, 51.10)
    Settings,
}

/// An end of a range: a value, or none for MIN or MAX (X.680, 51.4).
#[derive(Drop)]
pub struct Bound<'s, 't> {
    pub limit: Option<Value<'s, 't>>,
    /// Whether `<` stands at it, so that the value isn't in the range.
    pub excluded: bool,
}

/// A named number, a named bit or an item of an enumeration (X.680, 19.1, 20.1 and 22.1).
#[derive(Clone, Copy)]
pub struct Item<'s, 't> {
    pub at: usize,
    pub name: &'t str,
    /// None where an item of an enumeration has no number.
    pub number: Option<Amount<'s, 't>>,
}

/// The items of an ENUMERATED (X.680, 20.1).
#[derive(Drop)]
pub struct Enumeration<'s, 't> {
    pub root: Vec<Item<'s, 't>>,
    /// None without `...`
    pub more: Option<More<'s, 't>>,
}

/// What stands after `...` in an ENUMERATED.
#[derive(Drop)]
pub struct More<'s, 't> {
    /// The tokens after `!`, if it is there.
    pub exception: &'s [Spot<'t>],
    pub items: Vec<Item<'s, 't>>,
}
