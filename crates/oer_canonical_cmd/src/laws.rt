//! Each function does nothing; its contract is the law.
ghost use Rattle.oer_canonical_cmd.specs.Strict.{TellsCanonical};

/// With `--canonical` there is a line exactly for canonical octets.
pub fn canonical_octets_have_a_line()
    ensures { TellsCanonical }
{}
