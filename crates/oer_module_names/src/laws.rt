//! What holds of finding. Each function does nothing; its contract is the law.
ghost use Rattle.oer_module_names.specs.Identifiers.{ArcsTold};
ghost use Rattle.oer_module_names.specs.Laws.{FindsTheOnlyAssignment, FindsTheOnlyModule, FindsTheVersion, FindsWhatStands, FindsWhatStandsIn, StandsForOne};
ghost use Rattle.oer_module_names.specs.Versions.{FitsAreTested};

/// An assignment is found for a Name in a module exactly where the Name stands for it there.
pub fn finds_what_stands()
    ensures { FindsWhatStands }
{}

/// A Name stands for one assignment.
pub fn stands_for_one()
    ensures { StandsForOne }
{}

/// The same as the first of a Name behind that of a module.
pub fn finds_what_stands_in()
    ensures { FindsWhatStandsIn }
{}

/// An assignment is found for a Name in all modules exactly where no other assigns the Name.
pub fn finds_the_only_assignment()
    ensures { FindsTheOnlyAssignment }
{}

/// A module is found exactly where no other has its name.
pub fn finds_the_only_module()
    ensures { FindsTheOnlyModule }
{}

/// What is found for a Name that a module imports, and doesn't assign itself, stands in a module that fits
/// each import which has the Name: where both have an object identifier whose arcs are told, it is of a
/// version that the import asks for.
pub fn finds_the_version()
    ensures { FindsTheVersion }
{}

/// A module is held to fit an import exactly where it does.
pub fn fits_are_tested()
    ensures { FitsAreTested }
{}

/// The arcs that are read of an object identifier are those that its tokens spell.
pub fn arcs_are_told()
    ensures { ArcsTold }
{}
