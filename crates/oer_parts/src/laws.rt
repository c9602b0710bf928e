//! Laws over the definitions. Each function does nothing; its contract is the law.
ghost use Rattle.oer_parts.specs.Path.{OnePath};

/// A text spells one path at most.
pub fn one_path()
    ensures { OnePath }
{}
