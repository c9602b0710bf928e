//! Modules as a tree. Each part that a later layer reads by itself (constraints, values, items, actual
//! parameters) stands in it as the tokens that it consists of.
use crate::word::Builtin;
use oer_module_lexer::Spot;

/// A type (X.680, 17.1). Each has the place at which it begins, and those that can have constraints have
/// these, parentheses included, one after another.
#[cycle(tree)]
#[derive(Drop)]
pub enum TypeSyntax<'s, 't> {
    /// A type with words of its own that holds no other. The items are those of INTEGER, BIT STRING and
    /// ENUMERATED, braces included.
    Plain {
        at: usize,
        builtin: Builtin,
        items: &'s [Spot<'t>],
        constraints: &'s [Spot<'t>],
    },
    /// The name of a type, or of a module, a class or an object, with the steps from there (`.` and a word
    /// or a field), and the actual parameters, braces included (X.680, 14.1; X.681, 14 and 15; X.683, 9).
    Named {
        at: usize,
        name: &'t str,
        path: &'s [Spot<'t>],
        parameters: &'s [Spot<'t>],
        constraints: &'s [Spot<'t>],
    },
    /// A tag, brackets included, and how it is applied (X.680, 31.2).
    Tagged {
        at: usize,
        tag: &'s [Spot<'t>],
        mode: Mode,
        inner: Box<TypeSyntax<'s, 't>>,
    },
    /// A SEQUENCE, SET or CHOICE (X.680, 25, 27 and 29).
    Structure {
        at: usize,
        builtin: Builtin,
        elements: Vec<Element<'s, 't>>,
        constraints: &'s [Spot<'t>],
    },
    /// A SEQUENCE OF or SET OF, with the constraint before OF (X.680, 26, 28 and 49).
    ListOf {
        at: usize,
        builtin: Builtin,
        /// Whether the word SIZE stands before the constraint.
        sized: bool,
        size: &'s [Spot<'t>],
        /// The name of the elements, if they have one.
        name: Option<&'t str>,
        item: Box<TypeSyntax<'s, 't>>,
    },
    /// A name, `<` and a CHOICE: the type of its alternative of that name (X.680, 30).
    Selection {
        at: usize,
        name: &'t str,
        from: Box<TypeSyntax<'s, 't>>,
    },
    /// INSTANCE OF and a class, or its module with the steps from there (X.681, annex C).
    InstanceOf {
        at: usize,
        class: &'t str,
        path: &'s [Spot<'t>],
        constraints: &'s [Spot<'t>],
    },
    /// ANY DEFINED BY and the name of a component (X.208, 28).
    AnyDefinedBy {
        at: usize,
        by: &'t str,
    },
}

/// What stands between the commas of a SEQUENCE, SET or CHOICE.
#[cycle(tree)]
#[derive(Drop)]
pub enum Element<'s, 't> {
    /// `...`, and the tokens after `!`, if that stands behind it (X.680, 25.1 and 53).
    Marker {
        at: usize,
        exception: &'s [Spot<'t>],
    },
    /// What stands between `[[` and `]]`: no marker and no group (X.680, 25.1).
    Group {
        at: usize,
        elements: Vec<Element<'s, 't>>,
    },
    /// COMPONENTS OF (X.680, 25.1).
    ComponentsOf {
        at: usize,
        from: Box<TypeSyntax<'s, 't>>,
    },
    /// A component or an alternative.
    Component {
        at: usize,
        name: &'t str,
        from: Box<TypeSyntax<'s, 't>>,
        need: Need<'s, 't>,
    },
}

/// Whether a component may be absent (X.680, 25.1).
#[derive(Clone, Copy)]
pub enum Need<'s, 't> {
    Must,
    /// OPTIONAL
    May,
    /// DEFAULT and a value, which is the tokens that it consists of.
    Default(&'s [Spot<'t>]),
}

/// How a tag is applied (X.680, 31.2).
#[derive(Clone, Copy, Debug, PartialEq, Eq)]
pub enum Mode {
    /// As the module's header says.
    Unsaid,
    Implicit,
    Explicit,
}

/// A module (X.680, 13.1).
#[derive(Drop)]
pub struct Module<'s, 't> {
    pub at: usize,
    pub name: &'t str,
    /// The object identifier, braces included.
    pub id: &'s [Spot<'t>],
    /// What instructions in brackets are for, if the header says so (X.680, 13.1: INSTRUCTIONS).
    pub instructions: Option<&'t str>,
    pub tags: Tags,
    /// Whether EXTENSIBILITY IMPLIED stands in the header (X.680, 13.4).
    pub extensible: bool,
    pub exports: Exports<'t>,
    pub imports: Vec<Import<'s, 't>>,
    pub assignments: Vec<Assignment<'s, 't>>,
    /// The sections of instructions for encodings, from ENCODING-CONTROL up to END (X.680, 54).
    pub control: &'s [Spot<'t>],
}

/// How tags are applied in a module (X.680, 13.2).
#[derive(Clone, Copy, Debug, PartialEq, Eq)]
pub enum Tags {
    /// Also where the header says nothing.
    Explicit,
    Implicit,
    Automatic,
}

/// What other modules may import (X.680, 13.13).
#[derive(Drop)]
pub enum Exports<'t> {
    /// Also where nothing is said.
    All,
    These(Vec<Symbol<'t>>),
}

/// A name in EXPORTS or IMPORTS.
#[derive(Clone, Copy)]
pub struct Symbol<'t> {
    pub at: usize,
    pub name: &'t str,
}

/// Names from one module (X.680, 13.15).
#[derive(Drop)]
pub struct Import<'s, 't> {
    pub symbols: Vec<Symbol<'t>>,
    /// The place of the module's name.
    pub at: usize,
    pub from: &'t str,
    /// The object identifier: in braces, these included, or the name of a value.
    pub id: &'s [Spot<'t>],
    pub versions: Versions,
}

/// Which versions of a module names may come from (X.680, 13.1).
#[derive(Clone, Copy, Debug, PartialEq, Eq)]
pub enum Versions {
    /// The one that is named.
    Same,
    /// It or a later one: WITH SUCCESSORS.
    Successors,
    /// It, or one that adds to it: WITH DESCENDANTS.
    Descendants,
}

/// What a module gives a name (X.680, 13.1; X.681, 9.1, 11.1 and 12.1; X.683, 8.1).
#[derive(Drop)]
pub struct Assignment<'s, 't> {
    pub at: usize,
    pub name: &'t str,
    /// The list of parameters, braces included.
    pub parameters: &'s [Spot<'t>],
    pub body: Body<'s, 't>,
}

/// What a name stands for.
#[derive(Drop)]
pub enum Body<'s, 't> {
    /// A type; also a class that is given by its name.
    Type(TypeSyntax<'s, 't>),
    /// CLASS with its fields, and the syntax after WITH SYNTAX, braces included.
    Class {
        fields: &'s [Spot<'t>],
        syntax: &'s [Spot<'t>],
    },
    /// A value of a type, or an object of a class.
    Value {
        governor: TypeSyntax<'s, 't>,
        value: &'s [Spot<'t>],
    },
    /// A set of values of a type, or of objects of a class, braces included.
    Set {
        governor: TypeSyntax<'s, 't>,
        set: &'s [Spot<'t>],
    },
}
