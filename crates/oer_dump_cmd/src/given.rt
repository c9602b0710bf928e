//! The command for a type of modules.
ghost use Rattle.std.specs.Prelude.{◌≡◌, ◌≤◌, map, string_bytes, true};
ghost use Rattle.std.specs.Io.KnownBytes.{Keeps};
ghost use Rattle.clap.specs.Words.{takes};
ghost use Rattle.oer_types.specs.Schema.{the_type};
ghost use Rattle.oer_dump_cmd.specs.Ending.{AcceptsFor, EndsFor, streams};
ghost use Rattle.oer_dump_cmd.specs.Words.{oer_dump};

use crate::options::parsed;
use crate::program::{print_value, tell};
use oer_cmd::{refused, report};
use oer_ends_cmd::Origin;
use oer_types::Schema;
use std::alloc::Global;
use std::io::{Read, Write};

/// Runs the command for values of this type of modules, as `run` does for the type that the words name: `words` are the arguments, the
/// program's name first, without any on types; those that there are count for nothing. Octets that nest deeper than the type is written
/// out are rejected as `Nesting`. `width` is how many characters a line
/// may have if the words don't say. Returns the status of the program.
pub fn run_for<R: Read, W: Write, E: Write>(
    alloc: Global,
    schema: &Schema,
    words: &[String],
    width: u64,
    input: &mut R,
    output: &mut W,
    errors: &mut E,
) -> u8
    ensures statuses { result ≤ 3 }
    ensures quiet { result ≡ 2 → Keeps (W.contents output.old) (W.contents output.new) }
    // On status 0 the octets that the words give are one encoding of the type.
    ensures accepts { takes oer_dump (map string_bytes words.now) ≡ true → result ≡ 0
        → AcceptsFor (the_type schema.now) (map string_bytes words.now) (R.remaining input.old) }
    // The status, the reason on the errors and the output are what plain functions of the type, the words and the octets say,
    // unless memory ran out or a device failed. Input that isn't needed is untouched.
    ensures exact { EndsFor (the_type schema.now) (map string_bytes words.now) width (R.remaining input.old) (input.new ≡ input.old) result
        (streams (W.contents output.old) (W.contents output.new) (E.contents errors.old) (E.contents errors.new)) }
{
    let options = match parsed(alloc, words, width) {
        Ok(options) => options,
        Err(error) => return refused(alloc, &error, output, errors),
    };
    match print_value(alloc, schema, Origin::Modules, options, input, output) {
        Ok(rejection) => tell(&rejection, errors),
        Err(fault) => report(alloc, fault, errors),
    }
}
