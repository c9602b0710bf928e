//! The subcommand `types`.
ghost use Rattle.std.specs.Prelude.{◌≡◌, ◌≤◌, ◌⊎◌, IfSome, None, false, true, is_some, map, string_bytes};
ghost use Rattle.std.specs.Io.KnownBytes.{Appends, Keeps};
ghost use Rattle.oer_cmd.specs.Faults.{AppendsFront};
ghost use Rattle.oer_module_cmd.specs.Input.{reads_input};
ghost use Rattle.oer_module_options.specs.Asked.{listing_of};
ghost use Rattle.oer_module_options.specs.Scan.{item_of, scan_of};
ghost use Rattle.oer_types_cmd.specs.Answer.{answer, listing_answer, scan_answer};
ghost use Rattle.oer_types_cmd.specs.Asking.{asks_for_help, asks_types, is_help, reads_by, reads_words, texts_of, words_behind};
ghost use Rattle.oer_types_cmd.specs.Ending.{Ends, GivesText, Prints, PrintsBy, PrintsFor};
ghost use Rattle.oer_types_cmd.specs.Stops.{TellsMachine};
ghost use Rattle.oer_types_cmd.specs.declared.help.TheConstants.{HELP as the_help};

use crate::help::HELP;
use crate::listing::{given_text, listing_text};
use crate::stop::{Stop, tell};
use oer_cmd::{Fault, put_all};
use oer_module_cmd::Error;
use oer_module_options::{Command, Item, Listing, Scan, listing_asked, scanned};
use std::alloc::Global;
use std::io::{Read, Write};

// Whether the word asks for help.
fn is_help(word: &str) -> bool
    ensures { result ≡ is_help word.now }
{
    word == "--help" || word == "-h"
}

// Whether the first word that no option takes asks for help.
fn asks_for_help(kept: &[Item<'_>]) -> bool
    ensures { result ≡ asks_for_help (map item_of kept.now) }
{
    for item in kept {
        if let Item::Word(word) = item {
            return is_help(word);
        }
    }
    false
}

// Writes the text in one call, and flushes. Whether the output took it.
fn put_out<W: Write>(text: &str, output: &mut W) -> bool
    ensures whole { result ≡ true → Appends (W.contents output.old) (W.contents output.new) text.now }
    ensures front { AppendsFront (W.contents output.old) (W.contents output.new) text.now }
{
    if !put_all(text.as_bytes(), output) {
        return false;
    }
    if output.flush().is_err() {
        return false;
    }
    true
}

// Prints the text. The status.
fn print<W: Write, E: Write>(alloc: Global, text: &str, output: &mut W, errors: &mut E) -> u8
    ensures printed { result ≡ 0 → Appends (W.contents output.old) (W.contents output.new) text.now }
    ensures alone { result ≡ 0 → Keeps (E.contents errors.old) (E.contents errors.new) }
    ensures failed { (result ≡ 0) ⊎ (result ≡ 3) }
    ensures front { AppendsFront (W.contents output.old) (W.contents output.new) text.now }
    ensures machine { result ≡ 3 → TellsMachine (E.contents errors.old) (E.contents errors.new) }
{
    if put_out(text, output) {
        return 0;
    }
    tell(alloc, Stop::Types(Fault::Output), errors)
}

// Prints what is asked for. The status.
fn print_listing<R: Read, W: Write, E: Write>(
    alloc: Global,
    scan: &Scan<'_>,
    listing: Listing<'_>,
    input: &mut R,
    output: &mut W,
    errors: &mut E,
) -> u8
    ensures statuses { result ≤ 3 }
    ensures quiet { 1 ≤ result → result ≤ 2 → Keeps (W.contents output.old) (W.contents output.new) }
    ensures alone { result ≡ 0 → Keeps (E.contents errors.old) (E.contents errors.new) }
    ensures printed { result ≡ 0 → Prints (R.remaining input.old) (listing_of listing.entry) (scan_of scan.now).modules
        (W.contents output.old) (W.contents output.new) }
    ensures exact { Ends (listing_answer (listing_of listing.entry) (scan_of scan.now).modules (R.remaining input.old)) result
        (W.contents output.old) (W.contents output.new) (E.contents errors.old) (E.contents errors.new) }
    ensures untouched { reads_input (texts_of (listing_of listing.entry) (scan_of scan.now).modules) ≡ false → input.new ≡ input.old }
    ensures takes { reads_input (texts_of (listing_of listing.entry) (scan_of scan.now).modules) ≡ true
        → GivesText result (R.remaining input.old) (R.remaining input.new) }
{
    let given = match given_text(alloc, &scan.modules, listing, input) {
        Ok(given) => given,
        Err(stop) => return tell(alloc, stop, errors),
    };
    match listing_text(alloc, &scan.modules, given.as_str(), listing) {
        Ok(text) => print(alloc, text.as_str(), output, errors),
        Err(stop) => tell(alloc, stop, errors),
    }
}

// Does what a scan of the words behind `types` asks for. The status.
fn run_scanned<R: Read, W: Write, E: Write>(
    alloc: Global,
    scan: &Scan<'_>,
    input: &mut R,
    output: &mut W,
    errors: &mut E,
) -> u8
    ensures statuses { result ≤ 3 }
    ensures quiet { 1 ≤ result → result ≤ 2 → Keeps (W.contents output.old) (W.contents output.new) }
    ensures alone { result ≡ 0 → Keeps (E.contents errors.old) (E.contents errors.new) }
    ensures printed { result ≡ 0 → PrintsBy the_help.now (R.remaining input.old) (scan_of scan.now)
        (W.contents output.old) (W.contents output.new) }
    ensures exact { Ends (scan_answer the_help.now (scan_of scan.now) (R.remaining input.old)) result
        (W.contents output.old) (W.contents output.new) (E.contents errors.old) (E.contents errors.new) }
    ensures untouched { reads_by (scan_of scan.now) ≡ false → input.new ≡ input.old }
    ensures takes { reads_by (scan_of scan.now) ≡ true → GivesText result (R.remaining input.old) (R.remaining input.new) }
{
    if asks_for_help(&scan.kept) {
        return print(alloc, HELP, output, errors);
    }
    match listing_asked(scan) {
        Ok(listing) => print_listing(alloc, scan, listing, input, output, errors),
        Err(error) => tell(alloc, Stop::Modules(Error::Options(error)), errors),
    }
}

// Does what the words behind `types` say. The status.
fn run_words<R: Read, W: Write, E: Write>(
    alloc: Global,
    words: &[String],
    input: &mut R,
    output: &mut W,
    errors: &mut E,
) -> u8
    ensures statuses { result ≤ 3 }
    ensures quiet { 1 ≤ result → result ≤ 2 → Keeps (W.contents output.old) (W.contents output.new) }
    ensures alone { result ≡ 0 → Keeps (E.contents errors.old) (E.contents errors.new) }
    ensures printed { result ≡ 0 → PrintsFor the_help.now (R.remaining input.old) (map string_bytes words.now)
        (W.contents output.old) (W.contents output.new) }
    ensures exact { Ends (answer the_help.now (map string_bytes words.now) (R.remaining input.old)) result
        (W.contents output.old) (W.contents output.new) (E.contents errors.old) (E.contents errors.new) }
    ensures untouched { reads_words (map string_bytes words.now) ≡ false → input.new ≡ input.old }
    ensures takes { reads_words (map string_bytes words.now) ≡ true → GivesText result (R.remaining input.old) (R.remaining input.new) }
{
    match scanned(alloc, Command::Types, words) {
        Ok(scan) => run_scanned(alloc, &scan, input, output, errors),
        Err(_) => tell(alloc, Stop::Modules(Error::Memory), errors),
    }
}

/// Runs the subcommand `types`, if the words ask for it: they are the arguments, the program's name first. Returns the
/// status of the program then, and none where they ask for something else: nothing is read or written there.
pub fn run_types<R: Read, W: Write, E: Write>(
    alloc: Global,
    words: &[String],
    input: &mut R,
    output: &mut W,
    errors: &mut E,
) -> Option<u8>
    ensures asks { is_some result ≡ asks_types (map string_bytes words.now) }
    ensures passes { result ≡ None → (input.new ≡ input.old)
        × Keeps (W.contents output.old) (W.contents output.new) × Keeps (E.contents errors.old) (E.contents errors.new) }
    ensures statuses { IfSome result (λ status. status ≤ 3) }
    ensures quiet { IfSome result (λ status. 1 ≤ status → status ≤ 2 → Keeps (W.contents output.old) (W.contents output.new)) }
    ensures alone { IfSome result (λ status. status ≡ 0 → Keeps (E.contents errors.old) (E.contents errors.new)) }
    // What is printed, also where it isn't known what the input had left.
    ensures printed { IfSome result (λ status. status ≡ 0
        → PrintsFor the_help.now (R.remaining input.old) (words_behind (map string_bytes words.now))
        (W.contents output.old) (W.contents output.new)) }
    // The status, and what stands on the output and the errors, is what plain functions of the words and the octets say,
    // unless memory ran out or a device failed.
    ensures exact { IfSome result (λ status.
        Ends (answer the_help.now (words_behind (map string_bytes words.now)) (R.remaining input.old)) status
        (W.contents output.old) (W.contents output.new) (E.contents errors.old) (E.contents errors.new)) }
    // How much of the input is taken.
    ensures untouched { reads_words (words_behind (map string_bytes words.now)) ≡ false → input.new ≡ input.old }
    ensures takes { IfSome result (λ status. reads_words (words_behind (map string_bytes words.now)) ≡ true
        → GivesText status (R.remaining input.old) (R.remaining input.new)) }
{
    let (_, rest) = words.split_first()?;
    let (word, rest) = rest.split_first()?;
    if word.as_str() != "types" {
        return None;
    }
    Some(run_words(alloc, rest, input, output, errors))
}
