//! The command with `--at`.
ghost use Rattle.std.specs.Prelude.{◌≡◌, ◌≢◌, ◌≤◌, None, false, map, string_bytes};
ghost use Rattle.oer_types.specs.Schema.{the_type};
ghost use Rattle.oer_options.specs.Words.{behind};
ghost use Rattle.clap.specs.Words.{Text};
ghost use Rattle.oer_cmd.specs.Expected.{Expected, Meets};
ghost use Rattle.oer_cmd.specs.Types.{reads_types, texts_at};
ghost use Rattle.oer_cmd.specs.declared.type_text.TypeText.TheVariants.{Named, One};
ghost use Rattle.oer_at_cmd.specs.Answer.{at_answer, at_of, named_answer, texts_answer};
ghost use Rattle.oer_at_cmd.specs.Ending.{Ends, EndsFor, EndsIn};

use crate::asked::hex_of;
use crate::line::line_at;
use crate::misuse::tell;
use crate::name::tell_name;
use oer_at::{HopsFault, hops, names_in};
use oer_cmd::type_text::{TypeText, definitions, named_type, one_type, type_text, types_on_input};
use oer_cmd::{Fault, print_line, refused, report, spelt};
use oer_ends_cmd::Origin;
use oer_options::parsed;
use oer_types::Schema;
use std::alloc::Global;
use std::io::{Read, Write};

/// What is asked for: the part at these names, in octets of `--hex` or of standard input, within a limit.
#[derive(Clone, Copy)]
pub struct At<'a> {
    pub names: &'a str,
    pub hex: Option<&'a str>,
    pub limit: u64,
}

// Prints the line, or tells of the fault. The status.
fn finish<W: Write, E: Write>(
    alloc: Global,
    line: Result<String, Fault<'_>>,
    output: &mut W,
    errors: &mut E,
) -> u8
    ensures ended { (expected : Expected Text) → Meets string_bytes expected line.entry → EndsIn expected result
        (W.contents output.old) (W.contents output.new) (E.contents errors.old) (E.contents errors.new) }
    ensures most { result ≤ 3 }
{
    match line {
        Ok(line) => match print_line(line, output) {
            Ok(()) => 0,
            Err(fault) => report(alloc, fault, errors),
        },
        Err(fault) => report(alloc, fault, errors),
    }
}

// Prints the part for the type, which is from there. The status.
fn run_type<R: Read, W: Write, E: Write>(
    alloc: Global,
    schema: &Schema,
    origin: Origin,
    at: At<'_>,
    input: &mut R,
    output: &mut W,
    errors: &mut E,
) -> u8
    ensures ends { EndsIn (at_answer origin (at_of at.entry) (R.remaining input.old) (the_type schema.now)) result
        (W.contents output.old) (W.contents output.new) (E.contents errors.old) (E.contents errors.new) }
    ensures untouched { behind at.entry.hex ≢ None → input.new ≡ input.old }
    ensures most { result ≤ 3 }
{
    let spelt = match spelt(alloc, at.hex) {
        Ok(spelt) => spelt,
        Err(fault) => return report(alloc, fault, errors),
    };
    let Ok(names) = names_in(alloc, at.names) else {
        return report(alloc, Fault::Memory, errors);
    };
    let hops = match hops(alloc, schema, &names) {
        Ok(hops) => hops,
        Err(HopsFault::Memory) => return report(alloc, Fault::Memory, errors),
        Err(HopsFault::Name(fault)) => return tell_name(alloc, &names, fault, errors),
    };
    let line = line_at(alloc, schema, origin, &hops, spelt, at.limit, input);
    finish(alloc, line, output, errors)
}

// The same for the type that the text spells.
fn run_one<R: Read, W: Write, E: Write>(
    alloc: Global,
    text: &str,
    at: At<'_>,
    input: &mut R,
    output: &mut W,
    errors: &mut E,
) -> u8
    ensures ends { EndsIn (named_answer (at_of at.entry) (R.remaining input.old) (texts_at (One text.entry))) result
        (W.contents output.old) (W.contents output.new) (E.contents errors.old) (E.contents errors.new) }
    ensures untouched { behind at.entry.hex ≢ None → input.new ≡ input.old }
    ensures most { result ≤ 3 }
{
    match one_type(alloc, text) {
        Ok(schema) => run_type(alloc, &schema, Origin::Notation, at, input, output, errors),
        Err(fault) => report(alloc, fault, errors),
    }
}

// The same for the type that the Name has among the definitions.
fn run_named<R: Read, W: Write, E: Write>(
    alloc: Global,
    types: &str,
    name: &str,
    at: At<'_>,
    input: &mut R,
    output: &mut W,
    errors: &mut E,
) -> u8
    ensures ends { EndsIn (named_answer (at_of at.entry) (R.remaining input.old) (texts_at (Named types.entry name.entry))) result
        (W.contents output.old) (W.contents output.new) (E.contents errors.old) (E.contents errors.new) }
    ensures untouched { behind at.entry.hex ≢ None → input.new ≡ input.old }
    ensures most { result ≤ 3 }
{
    let types = match definitions(alloc, types) {
        Ok(types) => types,
        Err(fault) => return report(alloc, fault, errors),
    };
    match named_type(&types, name) {
        Ok(schema) => run_type(alloc, schema, Origin::Notation, at, input, output, errors),
        Err(fault) => report(alloc, fault, errors),
    }
}

// The same where the text of the definitions may be that on the input.
fn run_types<R: Read, W: Write, E: Write>(
    alloc: Global,
    types: &str,
    name: &str,
    at: At<'_>,
    input: &mut R,
    output: &mut W,
    errors: &mut E,
) -> u8
    ensures ends { EndsIn (texts_answer (at_of at.entry) (R.remaining input.old) (texts_at (Named types.entry name.entry))) result
        (W.contents output.old) (W.contents output.new) (E.contents errors.old) (E.contents errors.new) }
    ensures untouched { behind at.entry.hex ≢ None → reads_types (texts_at (Named types.entry name.entry)) ≡ false → input.new ≡ input.old }
    ensures most { result ≤ 3 }
{
    if types != "-" {
        return run_named(alloc, types, name, at, input, output, errors);
    }
    match types_on_input(alloc, at.hex, input) {
        Ok(text) => run_named(alloc, text.as_str(), name, at, input, output, errors),
        Err(fault) => report(alloc, fault, errors),
    }
}

// The same where the words say where the type stands.
fn run_of<R: Read, W: Write, E: Write>(
    alloc: Global,
    text: TypeText<'_>,
    at: At<'_>,
    input: &mut R,
    output: &mut W,
    errors: &mut E,
) -> u8
    ensures ends { EndsIn (texts_answer (at_of at.entry) (R.remaining input.old) (texts_at text.entry)) result
        (W.contents output.old) (W.contents output.new) (E.contents errors.old) (E.contents errors.new) }
    ensures untouched { behind at.entry.hex ≢ None → reads_types (texts_at text.entry) ≡ false → input.new ≡ input.old }
    ensures most { result ≤ 3 }
{
    match text {
        TypeText::One(text) => run_one(alloc, text, at, input, output, errors),
        TypeText::Named { types, name } => run_types(alloc, types, name, at, input, output, errors),
    }
}

/// Runs `part --at` for the type that the words name: `names` is the value of `--at`, and `words` are the arguments without it, the
/// program's name first. Returns the status of the program.
pub fn run_at<R: Read, W: Write, E: Write>(
    alloc: Global,
    names: &str,
    words: &[String],
    input: &mut R,
    output: &mut W,
    errors: &mut E,
) -> u8
    ensures exact { Ends names.now (map string_bytes words.now) (R.remaining input.old) (input.new ≡ input.old) result
        (W.contents output.old) (W.contents output.new) (E.contents errors.old) (E.contents errors.new) }
    ensures statuses { result ≤ 3 }
{
    let options = match parsed(alloc, words) {
        Ok(options) => options,
        Err(error) => return refused(alloc, &error, output, errors),
    };
    let hex = match hex_of(options.task) {
        Ok(hex) => hex,
        Err(misuse) => return tell(misuse, errors),
    };
    let at = At {
        names,
        hex,
        limit: options.limit,
    };
    match type_text(options) {
        Ok(text) => run_of(alloc, text, at, input, output, errors),
        Err(fault) => report(alloc, fault, errors),
    }
}

/// Runs `part --at` for a type of modules, as `run_at` does for the type that the words name; those on types count for nothing. Where
/// octets nest deeper than the type is written out, that is told.
pub fn run_at_for<R: Read, W: Write, E: Write>(
    alloc: Global,
    schema: &Schema,
    names: &str,
    words: &[String],
    input: &mut R,
    output: &mut W,
    errors: &mut E,
) -> u8
    ensures exact { EndsFor (the_type schema.now) names.now (map string_bytes words.now) (R.remaining input.old) (input.new ≡ input.old) result
        (W.contents output.old) (W.contents output.new) (E.contents errors.old) (E.contents errors.new) }
    ensures statuses { result ≤ 3 }
{
    let options = match parsed(alloc, words) {
        Ok(options) => options,
        Err(error) => return refused(alloc, &error, output, errors),
    };
    let hex = match hex_of(options.task) {
        Ok(hex) => hex,
        Err(misuse) => return tell(misuse, errors),
    };
    let at = At {
        names,
        hex,
        limit: options.limit,
    };
    run_type(alloc, schema, Origin::Modules, at, input, output, errors)
}
