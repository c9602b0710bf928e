//! What a Name stands for, or why it stands for nothing.

/// An assignment: which module has it, and which of that module's assignments it is. Both count from 0.
#[derive(Clone, Copy, Debug, PartialEq, Eq)]
pub struct Found {
    pub module: usize,
    pub assignment: usize,
}

/// A place in a module's text.
#[derive(Clone, Copy, Debug, PartialEq, Eq)]
pub struct Place {
    /// Which of the modules it is; they count from 0.
    pub module: usize,
    /// The byte, as the tokens of that module have it.
    pub at: usize,
}

/// Why a Name stands for nothing. Where two are named, these are the first two, in their order.
#[derive(Clone, Copy, Debug, PartialEq, Eq)]
pub enum Why {
    /// The module neither assigns the Name nor imports it.
    Missing,
    /// None of the modules has this name.
    NoModule,
    /// `Module.Name`, where the module that says so imports nothing from Module (X.680, 14.1).
    NotImported,
    /// The module of this name isn't of the version that the import asks for (X.680, 13.1).
    OtherVersion,
    /// The module that it is imported from doesn't export it (X.680, 13.13).
    NotExported,
    /// The Name is imported from one module to the next, and no module assigns it.
    Circular,
    /// The module assigns the Name twice: two of its assignments.
    AssignedTwice { first: usize, second: usize },
    /// The module imports the Name from two modules: two of its imports.
    ImportedTwice { first: usize, second: usize },
    /// Two modules have this name: two of the modules.
    ModuleTwice { first: usize, second: usize },
    /// Two modules assign the Name: two of the modules.
    InTwoModules { first: usize, second: usize },
}

/// A Name, or the name of a module, that stands for nothing.
#[derive(Clone, Copy, Debug, PartialEq, Eq)]
pub struct NameError<'n> {
    pub why: Why,
    /// The Name; that of a module in NoModule, NotImported, OtherVersion and ModuleTwice.
    pub name: &'n str,
    /// Where this shows, unless it is all that was asked for.
    pub place: Option<Place>,
}
