//! The command for a type that is given.
ghost use Rattle.std.specs.Prelude.{◌≡◌, ◌≤◌, map, string_bytes, true};
ghost use Rattle.std.specs.Io.KnownBytes.{Keeps};
ghost use Rattle.clap.specs.Words.{takes};
ghost use Rattle.oer_types.specs.Schema.{the_type};
ghost use Rattle.oer_options.specs.Words.{oer};
ghost use Rattle.oer_cmd.specs.Ending.{EndsFor};
ghost use Rattle.oer_cmd.specs.Run.{NoLineAskedFor, PrintsFor};
ghost use Rattle.oer_cmd.specs.Taking.{TakesFrom};

use crate::program::{conclude, line_of, refused};
use oer_options::parsed;
use oer_types::Schema;
use std::alloc::Global;
use std::io::{Read, Write};

/// Runs the command for values of this type, as `run` does for the type that the words name: `words` are the arguments, the
/// program's name first, without any on types; those that there are count for nothing. Returns the status of the program.
pub fn run_for<R: Read, W: Write, E: Write>(
    alloc: Global,
    schema: &Schema,
    words: &[String],
    input: &mut R,
    output: &mut W,
    errors: &mut E,
) -> u8
    ensures quiet { 1 ≤ result → result ≤ 2
        → Keeps (W.contents output.old) (W.contents output.new) }
    ensures prints { takes oer (map string_bytes words.now) ≡ true → result ≡ 0
        → PrintsFor (the_type schema.now) (map string_bytes words.now) (R.remaining input.old)
        (W.contents output.old) (W.contents output.new) (E.contents errors.old) (E.contents errors.new) }
    // It refuses only where there is no answer.
    ensures refuses { takes oer (map string_bytes words.now) ≡ true → 1 ≤ result → result ≤ 2
        → NoLineAskedFor (the_type schema.now) (map string_bytes words.now) (R.remaining input.old) }
    ensures statuses { result ≤ 3 }
    // The status, and what stands on the output and the errors, is what plain functions of the type, the words and the octets
    // say, unless memory ran out or a device failed. Input that isn't needed is untouched.
    ensures exact { EndsFor (the_type schema.now) (map string_bytes words.now) (R.remaining input.old) (input.new ≡ input.old) result
        (W.contents output.old) (W.contents output.new) (E.contents errors.old) (E.contents errors.new) }
    // How much of the input is taken. Where an error comes before the octets, or these are given, it is untouched.
    ensures takes { TakesFrom (the_type schema.now) (map string_bytes words.now) (input.new ≡ input.old) result
        (R.remaining input.old) (R.remaining input.new) }
{
    let options = match parsed(alloc, words) {
        Ok(options) => options,
        Err(error) => return refused(alloc, &error, output, errors),
    };
    let answer = line_of(alloc, schema, options, input);
    conclude(alloc, answer, output, errors)
}
