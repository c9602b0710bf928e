//! What the options of modules ask for.
ghost use Rattle.std.specs.Prelude.{◌≡◌, map};
ghost use Rattle.oer_module_options.specs.Asked.{all_taken, asked, asked_of, flagged, free_input, inputs, is_input, name_in, nesting_by, nesting_in, no_type, of_modules, of_name, of_types, one_of_both, one_value, listing_asked, listing_of, whole};
ghost use Rattle.oer_module_options.specs.Errors.{seen};
ghost use Rattle.oer_module_options.specs.Scan.{item_of, scan_of, text_of};
ghost use Rattle.oer_module_options.specs.Words.{behind};

use crate::error::Error;
use crate::nesting::nesting_of;
use crate::scan::{Flag, Item, Next, Scan};
use crate::words::Taken;

/// The type that is asked for.
#[derive(Clone, Copy, Debug, PartialEq, Eq)]
pub struct TypeAsked<'a> {
    pub name: &'a str,
    /// How often a type that contains itself is written out; 0 for the usual.
    pub nesting: u8,
}

// Whether the last option that is taken out has its value.
fn whole<'a>(next: Next) -> Result<(), Error<'a>>
    ensures { seen (λ u. u) result ≡ whole next }
{
    match next {
        Next::Value(taken) => Err(Error::NoValue(taken)),
        Next::Option | Next::KeptValue | Next::Rest => Ok(()),
    }
}

// The value of an option, if it is given.
fn one_value<'a>(taken: Taken, values: &[&'a str]) -> Result<Option<&'a str>, Error<'a>>
    ensures { seen behind result ≡ one_value taken (map text_of values.now) }
{
    if values.len() > 1 {
        return Err(Error::Twice(taken));
    }
    match values.first() {
        Some(value) => Ok(Some(*value)),
        None => Ok(None),
    }
}

fn nesting_by<'a>(text: Option<&str>) -> Result<u8, Error<'a>>
    ensures { seen (λ n. n) result ≡ nesting_by (behind text.entry) }
{
    let Some(text) = text else {
        return Ok(0);
    };
    match nesting_of(text) {
        Some(nesting) => Ok(nesting),
        None => Err(Error::Nesting),
    }
}

fn nesting_in<'a>(nestings: &[&'a str]) -> Result<u8, Error<'a>>
    ensures { seen (λ n. n) result ≡ nesting_in (map text_of nestings.now) }
{
    nesting_by(one_value(Taken::Nesting, nestings)?)
}

/// Whether the text is that on standard input, for which `-` stands.
pub fn is_input(text: &str) -> bool
    ensures { result ≡ is_input text.now }
{
    text == "-"
}

// How many of the texts are that on standard input.
fn inputs(texts: &[&str]) -> usize
    ensures { result ≡ inputs (map text_of texts.now) }
{
    let mut count: usize = 0;
    for text in texts {
        if is_input(text) {
            count += 1;
        }
    }
    count
}

// At most one text is that on standard input, and that only where the octets or the JSON are not.
fn free_input<'a>(has_source: bool, texts: &[&str]) -> Result<(), Error<'a>>
    ensures { seen (λ u. u) result ≡ free_input has_source (map text_of texts.now) }
{
    let count = inputs(texts);
    if count > 1 {
        return Err(Error::TwoInputs);
    }
    if count > 0 && !has_source {
        return Err(Error::NoSource);
    }
    Ok(())
}

fn no_type<'a>(has_type: bool) -> Result<(), Error<'a>>
    ensures { seen (λ u. u) result ≡ no_type has_type }
{
    if has_type {
        return Err(Error::OneType);
    }
    Ok(())
}

fn name_in<'a>(names: &[&'a str]) -> Result<&'a str, Error<'a>>
    ensures { seen text_of result ≡ name_in (map text_of names.now) }
{
    match one_value(Taken::Name, names)? {
        Some(name) => Ok(name),
        None => Err(Error::NoName),
    }
}

/// What the options ask for, where `--modules` is among them.
///
/// # Errors
/// The first of: NoValue, if the last word is an option without its value; OneType, if `--type` or `--types` is there;
/// Twice or NoName at `--name`; Twice or Nesting at `--nesting`; TwoInputs, if two of the texts are `-`; NoSource, if one is and
/// neither `--hex` nor `--json` is there.
#[tactic(auto, unfolding(crate::specs::Asked::asked))]
pub fn asked<'a>(scan: &Scan<'a>) -> Result<TypeAsked<'a>, Error<'a>>
    ensures { seen asked_of result ≡ asked (scan_of scan.now) }
{
    whole(scan.next)?;
    no_type(scan.has_type)?;
    let name = name_in(&scan.names)?;
    let nesting = nesting_in(&scan.nestings)?;
    free_input(scan.has_source, &scan.modules)?;
    Ok(TypeAsked { name, nesting })
}

/// What `oer types` is asked for.
#[derive(Clone, Copy, Debug, PartialEq, Eq)]
pub enum Listing<'a> {
    /// The type that a Name has among definitions in our notation.
    Defined { types: &'a str, name: &'a str },
    /// The type that a Name has in modules, and how often a type that contains itself is written out; 0 for the usual.
    One { name: &'a str, nesting: u8 },
    /// All types of modules.
    All { nesting: u8 },
    /// The Names of all types of modules.
    Names { nesting: u8 },
}

// No word stays.
fn all_taken<'a>(kept: &[Item<'a>]) -> Result<(), Error<'a>>
    ensures { seen (λ u. u) result ≡ all_taken (map item_of kept.now) }
{
    for item in kept {
        if let Item::Word(word) = item {
            return Err(Error::Stray(word));
        }
    }
    Ok(())
}

fn one_of_both<'a>(has_modules: bool, types: Option<&str>) -> Result<(), Error<'a>>
    ensures { seen (λ u. u) result ≡ one_of_both has_modules (behind types.entry) }
{
    if has_modules == types.is_some() {
        return Err(Error::OneText);
    }
    Ok(())
}

// Whether the flag is given.
fn flagged<'a>(flag: Flag) -> Result<bool, Error<'a>>
    ensures { seen (λ b. b) result ≡ flagged flag }
{
    match flag {
        Flag::Missing => Ok(false),
        Flag::Once => Ok(true),
        Flag::Twice => Err(Error::TwoNames),
    }
}

fn of_types<'a>(
    scan: &Scan<'a>,
    types: &'a str,
    flagged: bool,
    name: Option<&'a str>,
) -> Result<Listing<'a>, Error<'a>>
    ensures { seen listing_of result ≡ of_types (scan_of scan.now) types.entry.now flagged (behind name.entry) }
{
    if flagged {
        return Err(Error::NoNames);
    }
    let Some(name) = name else {
        return Err(Error::NoNameOfTypes);
    };
    if !scan.nestings.is_empty() {
        return Err(Error::NoNesting);
    }
    Ok(Listing::Defined { types, name })
}

fn of_name<'a>(flagged: bool, name: Option<&'a str>, nesting: u8) -> Result<Listing<'a>, Error<'a>>
    ensures { seen listing_of result ≡ of_name flagged (behind name.entry) nesting }
{
    match name {
        Some(_) if flagged => Err(Error::OneName),
        Some(name) => Ok(Listing::One { name, nesting }),
        None if flagged => Ok(Listing::Names { nesting }),
        None => Ok(Listing::All { nesting }),
    }
}

fn of_modules<'a>(
    scan: &Scan<'a>,
    flagged: bool,
    name: Option<&'a str>,
    nesting: u8,
) -> Result<Listing<'a>, Error<'a>>
    ensures { seen listing_of result ≡ of_modules (scan_of scan.now) flagged (behind name.entry) nesting }
{
    free_input(true, &scan.modules)?;
    of_name(flagged, name, nesting)
}

/// What the options of `oer types` ask for.
///
/// # Errors
/// The first of: Stray, if a word is no option or a value of one; NoValue, if the last word is an option without its value;
/// Twice at `--types`; OneText, if there are neither modules nor definitions, or both; Twice at `--name`; Twice or Nesting at
/// `--nesting`; TwoNames. Then beside `--types` NoNames, NoNameOfTypes and NoNesting; else TwoInputs, if two modules are `-`,
/// and OneName.
#[tactic(auto, unfolding(crate::specs::Asked::listing_asked))]
pub fn listing_asked<'a>(scan: &Scan<'a>) -> Result<Listing<'a>, Error<'a>>
    ensures { seen listing_of result ≡ listing_asked (scan_of scan.now) }
{
    all_taken(&scan.kept)?;
    whole(scan.next)?;
    let types = one_value(Taken::Types, &scan.types)?;
    one_of_both(scan.has_modules, types)?;
    let name = one_value(Taken::Name, &scan.names)?;
    let nesting = nesting_in(&scan.nestings)?;
    let flagged = flagged(scan.flag)?;
    match types {
        Some(types) => of_types(scan, types, flagged, name),
        None => of_modules(scan, flagged, name, nesting),
    }
}
