//! Reading published ASN.1 modules.
ghost use Rattle.std.specs.Prelude.{◌≡◌, [], IfErr, IfOk, MatchResult, Ok, OnOk, map, option_map, string_bytes};
ghost use Rattle.std.specs.List.{All, before_first};
ghost use Rattle.oer_modules.specs.Defined.{types_of_modules as types_given};
ghost use Rattle.oer_modules.specs.Named.{is_memory};
ghost use Rattle.oer_modules.specs.Places.{point_of};
ghost use Rattle.oer_c.specs.Modules.{AreRead, AreUnderstood, IsNoText, IsSaid, IsStopBy, IsStopped, IsText, IsTextless, IsTypeless, Tells, Understands, at_place, at_text, first_words, is_line_feed, not_utf8_words, only, refused, rejected, texts_of, with_words};
ghost use Rattle.oer_c.specs.Sharing.{types_in, types_of};

use crate::buffer::put_front;
use crate::definitions::{boxed, keep};
use crate::handle::Handle;
use crate::many::{Message, cut};
use crate::reason;
use crate::shared::Shared;
use crate::status::{MEMORY, OK, OUTSIDE, REJECTED};
use oer_module_text::Why;
use oer_modules::{Point, Refusal, definitions_of_modules, types_of_modules};
use oer_notation::Types;
use std::alloc::{AllocError, Global};

/// What reading modules answers. It takes 48 octets: `status` at 0, `why` at 4, `text` at 8, `place` at 16,
/// `line` at 24, `column` at 32 and `words` at 40.
#[repr(C)]
#[derive(Clone, Copy)]
pub struct Understood {
    /// `OK`, `REJECTED`, `OUTSIDE` or `MEMORY`.
    pub status: u32,
    /// At `REJECTED` the number of the reason, 0 where a text is not UTF-8; else 0.
    pub why: u32,
    /// At `REJECTED` and `OUTSIDE` which of the texts it is, from 1; 0 where it is none of them, and else 0.
    pub text: u64,
    /// At `REJECTED` the byte of that text at which the fault shows, or before which its longest front ends
    /// that is UTF-8; else 0.
    pub place: u64,
    /// The line of that byte, from 1; 0 where the text is not UTF-8, and where there is no text.
    pub line: u64,
    /// Its column in characters, from 1; 0 where there is no line.
    pub column: u64,
    /// At `REJECTED` how many octets of words are in the buffer; else 0.
    pub words: u64,
}

const _: () = prove!(size_of::<Understood>() == 48);

/// Why modules give no types. Texts count from 1.
#[derive(Drop)]
pub enum Stop<'t> {
    /// An allocation failed.
    Memory,
    /// The text of this number is not all in the octets.
    Outside(usize),
    /// A text is not UTF-8.
    NotUtf8 {
        /// Its number.
        text: usize,
        /// Its longest front that is UTF-8 ends before this byte.
        at: usize,
    },
    /// A text can't be read.
    Refused(Refusal<'t>),
    /// None of the definitions is understood, as this listing says.
    NoTypes(String),
}

fn only(status: u32) -> Understood
    ensures { result ≡ only status }
{
    Understood {
        status,
        why: 0,
        text: 0,
        place: 0,
        line: 0,
        column: 0,
        words: 0,
    }
}

// A place in the text of this number.
fn at_text(status: u32, text: usize, place: usize) -> Understood
    ensures { result ≡ at_text status text place }
{
    Understood {
        status,
        why: 0,
        text: text as u64,
        place: place as u64,
        line: 0,
        column: 0,
        words: 0,
    }
}

// A rejection that has no place.
fn rejected(why: u32) -> Understood
    ensures { result ≡ rejected why }
{
    Understood {
        status: REJECTED,
        why,
        text: 0,
        place: 0,
        line: 0,
        column: 0,
        words: 0,
    }
}

// A text that can't be read for this reason, and where that shows.
fn refused(why: u32, point: Option<Point<'_>>) -> Understood
    ensures { result ≡ refused why (option_map point_of point.entry) }
{
    match point {
        Some(point) => Understood {
            status: REJECTED,
            why,
            text: point.text as u64,
            place: point.at as u64,
            line: point.line as u64,
            column: point.column as u64,
            words: 0,
        },
        None => rejected(why),
    }
}

fn with_words(answer: Understood, words: usize) -> Understood
    ensures { result ≡ with_words answer words }
{
    Understood {
        words: words as u64,
        ..answer
    }
}

fn is_memory(why: Why<'_>) -> bool
    ensures { result ≡ is_memory why.entry }
{
    matches!(
        why,
        Why::Unresolved(oer_module_values::Why::Unread(oer_module_syntax::Why::Memory))
    )
}

// What a refusal comes to.
fn stop_of(refusal: Refusal<'_>) -> Stop<'_>
    ensures { IsStopBy refusal.entry result }
{
    if is_memory(refusal.why) {
        Stop::Memory
    } else {
        Stop::Refused(refusal)
    }
}

// The text at the place, which has this number.
fn text_at<'a>(octets: &'a [u8], place: Message, number: usize) -> Result<&'a str, Stop<'a>>
    ensures same { IfOk result (λ s. s.now ≡ at_place octets.now place) }
    ensures is { OnOk result (IsText octets.now place) }
    ensures stopped { IfErr result (IsNoText octets.now place number) }
{
    let Some(text) = cut(octets, place) else {
        return Err(Stop::Outside(number));
    };
    match std::str::from_utf8(text) {
        Ok(text) => Ok(text),
        Err(fault) => Err(Stop::NotUtf8 {
            text: number,
            at: fault.valid_up_to(),
        }),
    }
}

// The texts at the places.
fn texts_in<'a>(
    alloc: Global,
    octets: &'a [u8],
    places: &[Message],
) -> Result<Vec<&'a str>, Stop<'a>>
    ensures texts { IfOk result (λ v. map (λ t. t.now) v.items ≡ texts_of octets.now places.now) }
    ensures within { OnOk result (All (IsText octets.now) places.now) }
    ensures stopped { IfErr result (IsTextless octets.now places.now) }
{
    let mut found = Vec::new(alloc);
    for (number, place) in places.iter().enumerate() {
        let text = match text_at(octets, *place, number + 1) {
            Ok(text) => text,
            Err(stop) => return Err(stop),
        };
        let Ok(()) = found.push(text) else {
            return Err(Stop::Memory);
        };
    }
    Ok(found)
}

// Why texts that can be read give no types.
fn no_types<'a>(alloc: Global, texts: &[&'a str], nesting: u8) -> Stop<'a>
    requires { types_given (map (λ t. t.now) texts.now) nesting ≡ Ok [] }
    ensures { IsTypeless (map (λ t. t.now) texts.now) nesting result }
{
    match definitions_of_modules(alloc, texts, nesting) {
        Ok(printed) => Stop::NoTypes(printed),
        Err(refusal) => stop_of(refusal),
    }
}

// The types that are understood of the texts, on the heap.
fn read_texts<'a>(alloc: Global, texts: &[&'a str], nesting: u8) -> Result<Box<Shared>, Stop<'a>>
    ensures given { IfOk result (λ shared. AreUnderstood (map (λ t. t.now) texts.now) nesting (types_in shared.value)) }
    ensures stopped { IfErr result (IsTypeless (map (λ t. t.now) texts.now) nesting) }
{
    let found = match types_of_modules(alloc, texts, nesting) {
        Ok(found) => found,
        Err(refusal) => return Err(stop_of(refusal)),
    };
    if found.is_empty() {
        return Err(no_types(alloc, texts, nesting));
    }
    let Ok(types) = Types::of(alloc, found) else {
        return Err(Stop::Memory);
    };
    match boxed(alloc, types) {
        Ok(found) => Ok(found),
        Err(_) => Err(Stop::Memory),
    }
}

// The types that are understood of the texts at the places, on the heap.
fn read_modules<'a>(
    alloc: Global,
    octets: &'a [u8],
    places: &[Message],
    nesting: u8,
) -> Result<Box<Shared>, Stop<'a>>
    ensures given { IfOk result (λ shared. Understands octets.now places.now nesting (types_in shared.value)) }
    ensures stopped { IfErr result (IsStopped octets.now places.now nesting) }
{
    let texts = match texts_in(alloc, octets, places) {
        Ok(texts) => texts,
        Err(stop) => return Err(stop),
    };
    read_texts(alloc, &texts, nesting)
}

fn is_line_feed(byte: u8) -> bool
    ensures { result ≡ is_line_feed byte }
{
    byte == b'\n'
}

// The first line of a listing.
fn first_line(printed: &[u8]) -> &[u8]
    ensures { result.now ≡ before_first is_line_feed printed.now }
{
    match printed.iter().position(|byte| is_line_feed(*byte)) {
        Some(end) => &printed[..end],
        None => printed,
    }
}

// Why there are no types: what the listing's first comment says, behind `-- `, of a definition that is refused.
fn first_words(printed: &[u8]) -> &[u8]
    ensures { result.now ≡ first_words printed.now }
{
    if printed.is_empty() {
        return b"the modules give no types";
    }
    let line = first_line(printed);
    if line.len() < 3 {
        return &[];
    }
    &line[3..]
}

// The answer, and as much of the words as the buffer has room for.
fn say(answer: Understood, said: &[u8], words: &mut [u8]) -> Understood
    ensures { IsSaid said.now answer words.old words.new result }
{
    with_words(answer, put_front(words, said))
}

// The same of words for which memory may be refused.
fn say_text(answer: Understood, said: Result<String, AllocError>, words: &mut [u8]) -> Understood
    ensures { MatchResult said (λ text. IsSaid (string_bytes text) answer words.old words.new result)
        (λ _. (result ≡ only 4) × (words.new ≡ words.old)) }
{
    match said {
        Ok(text) => say(answer, text.as_bytes(), words),
        Err(_) => only(MEMORY),
    }
}

fn not_utf8_words(alloc: Global, text: usize) -> Result<String, AllocError>
    ensures { IfOk result (λ said. string_bytes said ≡ not_utf8_words text) }
{
    format!(in alloc; "text {text}: not UTF-8")
}

// What is answered where there are no types.
fn tell(alloc: Global, stop: Stop<'_>, words: &mut [u8]) -> Understood
    ensures { Tells stop.entry words.old words.new result }
{
    match stop {
        Stop::Memory => only(MEMORY),
        Stop::Outside(text) => at_text(OUTSIDE, text, 0),
        Stop::NotUtf8 { text, at } => {
            let said = not_utf8_words(alloc, text);
            say_text(at_text(REJECTED, text, at), said, words)
        }
        Stop::Refused(refusal) => {
            let said = format!(in alloc; "{refusal}");
            let why = reason::of_modules(refusal.why);
            say_text(refused(why, refusal.point), said, words)
        }
        Stop::NoTypes(printed) => say(
            rejected(reason::MODULES_NO_TYPES),
            first_words(printed.as_bytes()),
            words,
        ),
    }
}

/// Reads the texts of ASN.1 modules (X.680) as `types_of_modules` of `oer_modules` does (MODULES.md), and puts the types of
/// all definitions that it understands into the handle, in place of those that this had, as if it were freed before. A text
/// is the part of `texts` at its place, and holds one module or more. A type that contains itself is written out so often
/// as `nesting` says; 0 stands for the most that fits, up to 8. The status is
///
/// - `OK`: the handle has the types of all definitions that are understood, one at least;
/// - `REJECTED`: a text is not UTF-8, for the reason 0, and `place` octets are its longest front that is; or a text can't be
///   read, and its first fault is at `place`: no token begins there or it has no end, for the reason 1; the grammar doesn't
///   have the token there, or the text ends, for the reason 2; types or values nest too deep there, for the reason 3; or
///   no definition is understood, for the reason 4, as where each is refused. The first `words` octets of the buffer say so
///   in words: all that there are, or as many as it has room for;
/// - `OUTSIDE`: the place with the number `text` is not all in `texts`;
/// - `MEMORY`: an allocation failed.
///
/// Unless it is `OK` the handle has the types from before. Unless it is `REJECTED` the buffer is as before.
#[unsafe(no_mangle)]
pub extern "C" fn oer_types_read_modules(
    alloc: Global,
    types: &mut Handle,
    texts: &[u8],
    places: &[Message],
    nesting: u8,
    words: &mut [u8],
) -> Understood
    ensures { AreRead texts.now places.now nesting (types_of types.old.held.shared) (types_of types.new.held.shared) words.old words.new result }
{
    match read_modules(alloc, texts, places, nesting) {
        Ok(found) => {
            keep(alloc, types, found);
            only(OK)
        }
        Err(stop) => tell(alloc, stop, words),
    }
}
