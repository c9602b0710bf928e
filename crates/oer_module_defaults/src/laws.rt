//! What holds of the components of a SEQUENCE and what they are given. Each function does nothing; its contract is the law.
ghost use Rattle.oer_module_defaults.specs.Laws.{SlotsAreSound};

/// What components are given are the members of braces, in their order; none is left, and those that are given nothing may be
/// absent.
pub fn slots_are_sound()
    ensures { SlotsAreSound }
{}
