//! Why nothing is printed.
ghost use Rattle.std.specs.Prelude.{◌≡◌, ◌≤◌};
ghost use Rattle.oer_types_cmd.specs.Stops.{Tells, TellsMachine, stop_of};

use oer_cmd::{Fault, put_all};
use oer_module_cmd::Error;
use std::alloc::Global;
use std::io::Write;

/// Why nothing is printed.
#[derive(Clone, Copy)]
pub enum Stop<'a> {
    /// The options or the modules are at fault, or the machine failed.
    Modules(Error<'a>),
    /// The definitions are at fault, or the machine failed.
    Types(Fault<'a>),
    /// A default has no text in the notation.
    NoNotation,
}

/// Writes the line of an error in one call, and returns the status of the program. If memory for the line is refused, the
/// line says so, and the status is 3. A failure to write it is ignored.
pub fn tell<E: Write>(alloc: Global, stop: Stop<'_>, errors: &mut E) -> u8
    ensures status { result ≤ 2 → result ≡ (stop_of stop.entry).status }
    ensures line { result ≤ 2 → Tells (stop_of stop.entry) (E.contents errors.old) (E.contents errors.new) }
    ensures machine { result ≡ 3 → TellsMachine (E.contents errors.old) (E.contents errors.new) }
    ensures least { 1 ≤ result }
    ensures most { result ≤ 3 }
{
    match stop {
        Stop::Modules(error) => oer_module_cmd::report(alloc, error, errors),
        Stop::Types(fault) => oer_cmd::report(alloc, fault, errors),
        Stop::NoNotation => {
            put_all(b"oer: type: NoNotation\n", errors);
            2
        }
    }
}
