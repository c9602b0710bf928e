//! What the arguments of some command lines ask for.
ghost use Rattle.oer_options.specs.Laws.{CheckHex, MakeJson, PartWithPath, ShowHex, StoredRun, WithEqualSigns, WithName, WithoutDigits};

/// Options with their values after an equal sign, whatever these are.
pub fn with_equal_signs()
    ensures { WithEqualSigns }
{}

/// Definitions and a Name, whatever these are.
pub fn with_name()
    ensures { WithName }
{}

/// The octets come from the input, and the limit is given.
pub fn without_digits()
    ensures { WithoutDigits }
{}

/// The stored run.
pub fn stored_run()
    ensures { StoredRun }
{}

/// Octets to show, whatever they are.
pub fn show_hex()
    ensures { ShowHex }
{}

/// Octets to check, whatever they are.
pub fn check_hex()
    ensures { CheckHex }
{}

/// A text of JSON, whatever it is.
pub fn make_json()
    ensures { MakeJson }
{}

/// A path, whatever it is.
pub fn part_with_path()
    ensures { PartWithPath }
{}
