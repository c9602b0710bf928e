//! The command.
ghost use Rattle.std.specs.Prelude.{◌≡◌, ◌≢◌, ◌≤◌, [], ◌∷◌, ◌++◌, codes, IfErr, IfOk, None, false, map, string_bytes, true};
ghost use Rattle.std.specs.Io.KnownBytes.{Keeps};
ghost use Rattle.clap.specs.Words.{takes};
ghost use Rattle.oer_types.specs.Schema.{the_type};
ghost use Rattle.oer_options.specs.Words.{behind};
ghost use Rattle.oer_cmd.specs.Expected.{value};
ghost use Rattle.oer_cmd.specs.Faults.{status_of, text_of};
ghost use Rattle.oer_cmd.specs.Run.{IsEncoding};
ghost use Rattle.oer_cmd.specs.Types.{reads_types, texts_at};
ghost use Rattle.oer_cmd.specs.declared.type_text.TypeText.TheVariants.{Named, One};
ghost use Rattle.oer_dump_cmd.specs.Ending.{Accepts, Ends, Tells, streams};
ghost use Rattle.oer_dump_cmd.specs.Showing.{AreOne, AreOneFor, AreOneWith, Displays, IsReasonLine, PrintsPage, Shows, by_texts, judged_as, judged_for, judged_octets, octets_as, octets_at, octets_for};
ghost use Rattle.oer_dump_cmd.specs.Telling.{judged_by, judged_octets_by};
ghost use Rattle.oer_dump_cmd.specs.Words.{oer_dump, texts_asked};

use crate::options::{Form, Options, parsed};
use oer_cmd::type_text::{TypeText, definitions, named_type, one_type, type_text, types_on_input};
use oer_cmd::{Fault, all_octets, judged, put_all, refused, report, spelt};
use oer_ends_cmd::{Origin, told_by};
use oer_entries::{Place, Stopped};
use oer_layout::{print_array, print_lines};
use oer_types::Schema;
use std::alloc::{AllocError, Global};
use std::io::{Read, Write};

// What stands behind the reason: the part that was being read.
fn part_text(alloc: Global, place: Option<Place<'_>>) -> Result<String, AllocError> {
    let Some(place) = place else {
        return Ok(String::new(alloc));
    };
    let Place { path, names, .. } = place;
    if path.is_empty() {
        return String::from_str(alloc, ", in the whole");
    }
    format!(in alloc; ", in {path}, {names}")
}

// The line with the reason, and this text behind it.
fn line_with(alloc: Global, fault: Fault<'_>, part: &str) -> Result<String, AllocError>
    ensures { IfOk result (λ line. string_bytes line ≡ codes "oer: " ++ text_of fault.entry ++ part.now ++ 10 ∷ []) }
{
    let mut line = format!(in alloc; "oer: {fault}")?;
    line.push_str(part)?;
    line.push('\n')?;
    Ok(line)
}

// The line on the errors of octets that are rejected.
fn reason_line(
    alloc: Global,
    fault: Fault<'_>,
    place: Option<Place<'_>>,
) -> Result<String, AllocError>
    ensures { IfOk result (λ line. IsReasonLine (text_of fault.entry) (string_bytes line)) }
{
    let part = part_text(alloc, place)?;
    line_with(alloc, fault, part.as_str())
}

// Prints the entries of octets as lines, or as an array. Returns the part that was being read when they were
// rejected, if they were.
fn print_entries<'s, W: Write>(
    alloc: Global,
    schema: &'s Schema,
    octets: &'s [u8],
    form: Form,
    output: &mut W,
) -> Result<Option<Place<'s>>, Stopped>
    ensures { IfOk result (λ _. PrintsPage form (the_type schema.now) octets.now (W.contents output.old) (W.contents output.new)) }
{
    match form {
        Form::Text { width } => print_lines(alloc, schema, octets, width, output),
        Form::Json => print_array(alloc, schema, octets, output),
    }
}

// The same, with the fault where it fails.
fn print<'s, 'a, W: Write>(
    alloc: Global,
    schema: &'s Schema,
    octets: &'s [u8],
    form: Form,
    output: &mut W,
) -> Result<Option<Place<'s>>, Fault<'a>>
    ensures printed { IfOk result (λ _. PrintsPage form (the_type schema.now) octets.now (W.contents output.old) (W.contents output.new)) }
    ensures fails { IfErr result (λ fault. status_of fault ≡ 3) }
{
    match print_entries(alloc, schema, octets, form, output) {
        Ok(place) => Ok(place),
        Err(Stopped::Memory) => Err(Fault::Memory),
        Err(Stopped::Output) => Err(Fault::Output),
    }
}

// Prints octets, and returns the line on the errors if they are rejected.
fn print_octets<'a, W: Write>(
    alloc: Global,
    schema: &Schema,
    origin: Origin,
    options: Options<'a>,
    octets: &[u8],
    output: &mut W,
) -> Result<Option<String>, Fault<'a>>
    ensures shown { Shows (judged_by origin options.entry.limit (the_type schema.now) octets.now) result }
    ensures accepted { IfOk result (λ rejection. rejection ≡ None → IsEncoding (the_type schema.now) octets.now) }
    ensures displayed { Displays options.entry.form (value (the_type schema.now, octets.now)) result (W.contents output.old) (W.contents output.new) }
    ensures silent { IfErr result (λ fault. status_of fault ≤ 2 → output.new ≡ output.old) }
{
    let fault = match judged(schema, octets) {
        Ok(_) => {
            print(alloc, schema, octets, options.form, output)?;
            return Ok(None);
        }
        Err(fault) => told_by(alloc, schema, origin, options.limit, octets, fault),
    };
    if fault.status() != 1 {
        return Err(fault);
    }
    let place = print(alloc, schema, octets, options.form, output)?;
    match reason_line(alloc, fault, place) {
        Ok(line) => Ok(Some(line)),
        Err(_) => Err(Fault::Memory),
    }
}

// Prints a value of the type.
pub(crate) fn print_value<'a, R: Read, W: Write>(
    alloc: Global,
    schema: &Schema,
    origin: Origin,
    options: Options<'a>,
    input: &mut R,
    output: &mut W,
) -> Result<Option<String>, Fault<'a>>
    ensures shown { Shows (judged_octets_by origin (behind options.entry.hex) options.entry.limit (R.remaining input.old) (the_type schema.now)) result }
    ensures accepted { IfOk result (λ rejection. rejection ≡ None
        → AreOne (the_type schema.now) (behind options.entry.hex) options.entry.limit (R.remaining input.old)) }
    ensures displayed { Displays options.entry.form
        (octets_at (behind options.entry.hex) options.entry.limit (R.remaining input.old) (the_type schema.now)) result
        (W.contents output.old) (W.contents output.new) }
    ensures silent { IfErr result (λ fault. status_of fault ≤ 2 → output.new ≡ output.old) }
    ensures untouched { behind options.entry.hex ≢ None → input.new ≡ input.old }
{
    let spelt = spelt(alloc, options.hex)?;
    let octets = all_octets(alloc, spelt, input, options.limit)?;
    print_octets(alloc, schema, origin, options, octets.as_slice(), output)
}

// The same for the type that the text spells.
fn print_one<'a, R: Read, W: Write>(
    alloc: Global,
    text: &'a str,
    options: Options<'a>,
    input: &mut R,
    output: &mut W,
) -> Result<Option<String>, Fault<'a>>
    ensures shown { Shows (judged_for (texts_at (One text.entry)) (behind options.entry.hex) options.entry.limit (R.remaining input.old)) result }
    ensures accepted { IfOk result (λ rejection. rejection ≡ None
        → AreOneFor (texts_at (One text.entry)) (behind options.entry.hex) options.entry.limit (R.remaining input.old)) }
    ensures displayed { Displays options.entry.form
        (octets_for (texts_at (One text.entry)) (behind options.entry.hex) options.entry.limit (R.remaining input.old)) result
        (W.contents output.old) (W.contents output.new) }
    ensures silent { IfErr result (λ fault. status_of fault ≤ 2 → output.new ≡ output.old) }
    ensures untouched { behind options.entry.hex ≢ None → input.new ≡ input.old }
{
    let schema = one_type(alloc, text)?;
    print_value(alloc, &schema, Origin::Notation, options, input, output)
}

// The same for the type that the Name has among the definitions that the text spells.
fn print_named<'a, R: Read, W: Write>(
    alloc: Global,
    types: &str,
    name: &'a str,
    options: Options<'a>,
    input: &mut R,
    output: &mut W,
) -> Result<Option<String>, Fault<'a>>
    ensures shown { Shows (judged_for (texts_at (Named types.entry name.entry)) (behind options.entry.hex) options.entry.limit (R.remaining input.old)) result }
    ensures accepted { IfOk result (λ rejection. rejection ≡ None
        → AreOneFor (texts_at (Named types.entry name.entry)) (behind options.entry.hex) options.entry.limit (R.remaining input.old)) }
    ensures displayed { Displays options.entry.form
        (octets_for (texts_at (Named types.entry name.entry)) (behind options.entry.hex) options.entry.limit (R.remaining input.old)) result
        (W.contents output.old) (W.contents output.new) }
    ensures silent { IfErr result (λ fault. status_of fault ≤ 2 → output.new ≡ output.old) }
    ensures untouched { behind options.entry.hex ≢ None → input.new ≡ input.old }
{
    let types = definitions(alloc, types)?;
    let schema = named_type(&types, name)?;
    print_value(alloc, schema, Origin::Notation, options, input, output)
}

// The same for the type that the Name has among the definitions of `--types`, of which `-` says that the input
// has them.
fn print_types<'a, R: Read, W: Write>(
    alloc: Global,
    types: &'a str,
    name: &'a str,
    options: Options<'a>,
    input: &mut R,
    output: &mut W,
) -> Result<Option<String>, Fault<'a>>
    ensures shown { Shows (by_texts (judged_octets (behind options.entry.hex) options.entry.limit (R.remaining input.old))
        (texts_at (Named types.entry name.entry)) (behind options.entry.hex) (R.remaining input.old)) result }
    ensures accepted { IfOk result (λ rejection. rejection ≡ None
        → AreOneWith (texts_at (Named types.entry name.entry)) (behind options.entry.hex) options.entry.limit (R.remaining input.old)) }
    ensures displayed { Displays options.entry.form
        (by_texts (octets_at (behind options.entry.hex) options.entry.limit (R.remaining input.old))
        (texts_at (Named types.entry name.entry)) (behind options.entry.hex) (R.remaining input.old)) result
        (W.contents output.old) (W.contents output.new) }
    ensures silent { IfErr result (λ fault. status_of fault ≤ 2 → output.new ≡ output.old) }
    ensures untouched { behind options.entry.hex ≢ None → reads_types (texts_at (Named types.entry name.entry)) ≡ false
        → input.new ≡ input.old }
{
    if types != "-" {
        return print_named(alloc, types, name, options, input, output);
    }
    let text = types_on_input(alloc, options.hex, input)?;
    print_named(alloc, text.as_str(), name, options, input, output)
}

// Prints what the options ask for.
fn print_asked<'a, R: Read, W: Write>(
    alloc: Global,
    options: Options<'a>,
    input: &mut R,
    output: &mut W,
) -> Result<Option<String>, Fault<'a>>
    ensures shown { Shows (judged_as options.entry (R.remaining input.old)) result }
    ensures accepted { IfOk result (λ rejection. rejection ≡ None
        → AreOneWith (texts_asked options.entry) (behind options.entry.hex) options.entry.limit (R.remaining input.old)) }
    ensures displayed { Displays options.entry.form
        (octets_as options.entry (R.remaining input.old)) result
        (W.contents output.old) (W.contents output.new) }
    ensures silent { IfErr result (λ fault. status_of fault ≤ 2 → output.new ≡ output.old) }
    ensures untouched { behind options.entry.hex ≢ None → reads_types (texts_asked options.entry) ≡ false → input.new ≡ input.old }
{
    match type_text(options.of_check())? {
        TypeText::One(text) => print_one(alloc, text, options, input, output),
        TypeText::Named { types, name } => {
            print_types(alloc, types, name, options, input, output)
        }
    }
}

// Says why the octets are rejected, if they are. The status.
pub(crate) fn tell<E: Write>(rejection: &Option<String>, errors: &mut E) -> u8
    ensures { Tells rejection.now result (E.contents errors.old) (E.contents errors.new) }
{
    let Some(line) = rejection else {
        return 0;
    };
    put_all(line.as_bytes(), errors);
    1
}

/// Runs the command: `words` are the arguments, the program's name first, and `width` is how many
/// characters a line may have if they don't say. Returns the status of the program: 0 if the octets are
/// one encoding of the type and all is printed, or help is; 1 if they are rejected; 2 if the arguments
/// are; 3 if the machine fails.
pub fn run<R: Read, W: Write, E: Write>(
    alloc: Global,
    words: &[String],
    width: u64,
    input: &mut R,
    output: &mut W,
    errors: &mut E,
) -> u8
    ensures statuses { result ≤ 3 }
    ensures quiet { result ≡ 2 → Keeps (W.contents output.old) (W.contents output.new) }
    // On status 0 the octets that the words give are one encoding of the type that they name.
    ensures accepts { takes oer_dump (map string_bytes words.now) ≡ true → result ≡ 0
        → Accepts (map string_bytes words.now) (R.remaining input.old) }
    // The status, and the reason on the errors, are those that plain functions of the words and the octets
    // say, the same as of `oer check`, unless memory ran out or a device failed. The output has the text of
    // the entries of the octets, in lines as wide as the words or `width` say, and nothing where there are no octets or no type. Input that isn't needed
    // is untouched.
    ensures exact { Ends (map string_bytes words.now) width (R.remaining input.old) (input.new ≡ input.old) result
        (streams (W.contents output.old) (W.contents output.new) (E.contents errors.old) (E.contents errors.new)) }
{
    let options = match parsed(alloc, words, width) {
        Ok(options) => options,
        Err(error) => return refused(alloc, &error, output, errors),
    };
    match print_asked(alloc, options, input, output) {
        Ok(rejection) => tell(&rejection, errors),
        Err(fault) => report(alloc, fault, errors),
    }
}
