//! The command with `--lines`, `--framed` or `--stream`.
ghost use Rattle.std.specs.Prelude.{◌≡◌, ◌≤◌, false, map, string_bytes};
ghost use Rattle.oer_types.specs.Schema.{the_type};
ghost use Rattle.oer_cmd.specs.Answer.{expected_type};
ghost use Rattle.oer_ends.specs.Ends.{has_end};
ghost use Rattle.oer_cmd.specs.Types.{texts_at};
ghost use Rattle.oer_lines_cmd.specs.Ending.{Ends, EndsFor, RunsBy, lines_type};

use crate::loop_over::run_all;
use crate::misuse::tell;
use crate::task::Asked;
use crate::way::Way;
use oer_cmd::type_text::{TypeText, definitions, named_type, one_type, type_text};
use oer_cmd::{Fault, refused, report};
use oer_ends::has_end;
use oer_options::parsed;
use oer_types::Schema;
use std::alloc::Global;
use std::io::{BufRead, Write};

// Whether it is told that octets nest deeper than the type is written out: it has an end.
fn tells_nesting(schema: &Schema) -> bool
    ensures { result ≡ has_end (the_type schema.now) }
{
    has_end(schema.shape())
}

/// Runs the command for many messages of this type: `words` are the arguments without `--lines`, `--stream`, or `--framed` and its value,
/// the program's name first; those on types count for nothing. The way says how the messages stand on the input: each line is one in
/// hexadecimal digits, but for empty ones, and those that begin with `#`; or each is raw, behind its length, or right behind the one
/// before it, up to where none begins. Where the type has an end, since it is written out to a nesting, octets that nest deeper are
/// rejected as `Nesting`. Returns the status of the program.
pub fn run_many_for<R: BufRead, W: Write, E: Write>(
    alloc: Global,
    way: Way,
    schema: &Schema,
    words: &[String],
    input: &mut R,
    output: &mut W,
    errors: &mut E,
) -> u8
    ensures exact { EndsFor way (the_type schema.now) (map string_bytes words.now) (R.remaining input.old) (input.new ≡ input.old) result
        (W.contents output.old) (W.contents output.new) (E.contents errors.old) (E.contents errors.new) }
    ensures statuses { result ≤ 3 }
{
    let options = match parsed(alloc, words) {
        Ok(options) => options,
        Err(error) => return refused(alloc, &error, output, errors),
    };
    match Asked::of(way, options, tells_nesting(schema)) {
        Ok(asked) => run_all(alloc, schema, asked, input, output, errors),
        Err(misuse) => tell(misuse, errors),
    }
}

// Does what is asked for with messages of the type that the text spells. The status.
fn run_one<R: BufRead, W: Write, E: Write>(
    alloc: Global,
    text: &str,
    asked: Asked<'_>,
    input: &mut R,
    output: &mut W,
    errors: &mut E,
) -> u8
    requires { asked.tells_nesting ≡ false }
    ensures runs { RunsBy asked.entry.way (expected_type (texts_at (TypeText.One text.entry))) asked.entry.task asked.entry.limit (R.remaining input.old)
        (input.new ≡ input.old) result
        record { output = W.contents output.old; output' = W.contents output.new; errors = E.contents errors.old; errors' = E.contents errors.new } }
    ensures statuses { result ≤ 3 }
{
    match one_type(alloc, text) {
        Ok(schema) => run_all(alloc, &schema, asked, input, output, errors),
        Err(fault) => report(alloc, fault, errors),
    }
}

// Does what is asked for with messages of the type that the Name has among the definitions. The status.
fn run_named<R: BufRead, W: Write, E: Write>(
    alloc: Global,
    types: &str,
    name: &str,
    asked: Asked<'_>,
    input: &mut R,
    output: &mut W,
    errors: &mut E,
) -> u8
    requires { asked.tells_nesting ≡ false }
    ensures runs { RunsBy asked.entry.way (expected_type (texts_at (TypeText.Named types.entry name.entry))) asked.entry.task asked.entry.limit (R.remaining input.old)
        (input.new ≡ input.old) result
        record { output = W.contents output.old; output' = W.contents output.new; errors = E.contents errors.old; errors' = E.contents errors.new } }
    ensures statuses { result ≤ 3 }
{
    let types = match definitions(alloc, types) {
        Ok(types) => types,
        Err(fault) => return report(alloc, fault, errors),
    };
    match named_type(&types, name) {
        Ok(schema) => run_all(alloc, schema, asked, input, output, errors),
        Err(fault) => report(alloc, fault, errors),
    }
}

// Does what is asked for with messages of that type. The input, which has them, has no text of definitions. The status.
fn run_of<R: BufRead, W: Write, E: Write>(
    alloc: Global,
    text: TypeText<'_>,
    asked: Asked<'_>,
    input: &mut R,
    output: &mut W,
    errors: &mut E,
) -> u8
    requires { asked.tells_nesting ≡ false }
    ensures runs { RunsBy asked.entry.way (lines_type (texts_at text.entry)) asked.entry.task asked.entry.limit (R.remaining input.old)
        (input.new ≡ input.old) result
        record { output = W.contents output.old; output' = W.contents output.new; errors = E.contents errors.old; errors' = E.contents errors.new } }
    ensures statuses { result ≤ 3 }
{
    match text {
        TypeText::One(text) => run_one(alloc, text, asked, input, output, errors),
        TypeText::Named { types, .. } if types == "-" => report(alloc, Fault::NoSource, errors),
        TypeText::Named { types, name } => run_named(
            alloc, types, name, asked, input, output, errors,
        ),
    }
}

/// Runs the command for many messages of the type that the words name, as `run_many_for` does for a type that is given. Where they name
/// none, nothing is read.
pub fn run_many<R: BufRead, W: Write, E: Write>(
    alloc: Global,
    way: Way,
    words: &[String],
    input: &mut R,
    output: &mut W,
    errors: &mut E,
) -> u8
    ensures exact { Ends way (map string_bytes words.now) (R.remaining input.old) (input.new ≡ input.old) result
        (W.contents output.old) (W.contents output.new) (E.contents errors.old) (E.contents errors.new) }
    ensures statuses { result ≤ 3 }
{
    let options = match parsed(alloc, words) {
        Ok(options) => options,
        Err(error) => return refused(alloc, &error, output, errors),
    };
    let asked = match Asked::of(way, options, false) {
        Ok(asked) => asked,
        Err(misuse) => return tell(misuse, errors),
    };
    match type_text(options) {
        Ok(text) => run_of(alloc, text, asked, input, output, errors),
        Err(fault) => report(alloc, fault, errors),
    }
}
