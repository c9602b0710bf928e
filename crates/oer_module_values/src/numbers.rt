//! Which whole number a value is.
ghost use Rattle.std.specs.Prelude.{◌≡◌, ◌<◌, IfOk, length, map, option_map};
ghost use Rattle.oer_module_lexer.specs.Token.{spots_of};
ghost use Rattle.oer_module_names.specs.Views.{modules_in};
ghost use Rattle.oer_module_syntax.specs.Tree.{tree_of};
ghost use Rattle.oer_module_terms.specs.Trees.{amount_of, item_of, value_of};
ghost use Rattle.oer_module_values.specs.Errors.{Gives, seen};
ghost use Rattle.oer_module_values.specs.Looks.{path_seen};
ghost use Rattle.oer_module_values.specs.Numbers.{amount_by, amount_in, count, defined, given_number, given_numbers, integer_at, item_by, number_at, numbered, numeral, same_kind, step, value_in, valued, whole, written};
ghost use Rattle.oer_module_values.specs.Views.{IsOutcomeWithin, IsWantedWithin, governor_of, numeral_of, referent_of, outcome_of, type_in, wanted_of};

use crate::digits::whole_of;
use crate::error::{Error, Why, unread};
use crate::governor::{Governor, bare, governing, own_item};
use crate::kept::over_kept;
use crate::look::{Path, path_of};
use crate::types::{MOST_STEPS, Referent, TypeIn, referred};
use oer_module_lexer::Spot;
use oer_module_names::{Names, Place};
use oer_module_syntax::{Body, TypeSyntax};
use oer_module_terms::{Amount, Atom, Item, Value, read_value};
use std::alloc::Global;

/// How many levels of values may nest in the value of an assignment.
const LEVELS: u8 = 64;

/// An amount, where it stands, and what governs it.
#[derive(Clone, Copy)]
pub struct Wanted<'s, 't> {
    pub place: Place,
    pub governor: Governor<'s, 't>,
    pub amount: Amount<'s, 't>,
}

/// Digits, where they stand, and whether a hyphen stands before them.
#[derive(Clone, Copy)]
pub struct Numeral<'t> {
    pub place: Place,
    pub negative: bool,
    pub digits: &'t str,
}

/// What an amount is: digits, or what another amount is.
#[derive(Clone, Copy)]
pub enum Outcome<'s, 't> {
    Reached(Numeral<'t>),
    Wants(Wanted<'s, 't>),
}

/// Digits, which are no item of an enumeration.
fn written<'s, 't>(
    place: Place,
    enumerated: bool,
    negative: bool,
    digits: &'t str,
) -> Result<Outcome<'s, 't>, Error<'t>>
    ensures { seen outcome_of result ≡ written place enumerated negative digits.now }
{
    if enumerated {
        return Err(Error {
            place,
            why: Why::NotANumber,
        });
    }
    Ok(Outcome::Reached(Numeral {
        place,
        negative,
        digits,
    }))
}

/// The item of that name; a path behind it is none of an item.
fn item_by<'s, 't>(
    alloc: Global,
    governor: Governor<'s, 't>,
    name: &str,
    path: Path<'t>,
) -> Result<Option<Item<'s, 't>>, Error<'t>>
    ensures { Gives (option_map item_of) result (item_by (governor_of governor.entry) name.now (path_seen path.entry)) }
{
    match path {
        Path::Own => own_item(alloc, governor, name),
        _ => Ok(None),
    }
}

/// The number in the parentheses of an item.
fn numbered<'s, 't>(module: usize, item: Item<'s, 't>) -> Result<Outcome<'s, 't>, Error<'t>>
    ensures { seen outcome_of result ≡ numbered «module» item.entry.at (option_map amount_of item.entry.number) }
{
    let place = Place {
        module,
        at: item.at,
    };
    match item.number {
        Some(amount) => Ok(Outcome::Wants(Wanted {
            place,
            governor: bare(module),
            amount,
        })),
        None => Err(Error {
            place,
            why: Why::Unnumbered,
        }),
    }
}

/// The amount that a value is.
fn amount_by<'s, 't>(place: Place, value: Value<'s, 't>) -> Result<Amount<'s, 't>, Error<'t>>
    ensures { seen amount_of result ≡ amount_by place (value_of value.entry) }
{
    match value {
        Value::Atom {
            atom: Atom::Amount(amount),
            ..
        } => Ok(amount),
        _ => Err(Error {
            place,
            why: Why::NotANumber,
        }),
    }
}

/// The amount that tokens are, and nothing else; and where they begin.
#[tactic(auto, unfolding(crate::specs::Numbers::amount_in))]
fn amount_in<'s, 't>(
    alloc: Global,
    module: usize,
    spots: &'s [Spot<'t>],
) -> Result<Amount<'s, 't>, Error<'t>>
    ensures { Gives amount_of result (amount_in «module» (spots_of spots.now)) }
{
    let mut cursor = over_kept(spots);
    let place = Place {
        module,
        at: cursor.place(),
    };
    match read_value(alloc, &mut cursor, LEVELS) {
        Err(fault) => Err(unread(module, fault)),
        Ok(value) => {
            if !cursor.spots.is_empty() {
                return Err(Error {
                    place: Place {
                        module,
                        at: cursor.place(),
                    },
                    why: Why::Unsettled,
                });
            }
            amount_by(place, value)
        }
    }
}

/// The value of an assignment in a module.
#[tactic(auto, unfolding(crate::specs::Numbers::value_in))]
fn value_in<'m, 's, 't>(
    alloc: Global,
    names: &Names<'m, 's, 't>,
    of: TypeIn<'m, 's, 't>,
    spots: &'s [Spot<'t>],
) -> Result<Wanted<'s, 't>, Error<'t>>
    requires { of.«module» < length (modules_in names.now) }
    ensures value { Gives wanted_of result (value_in (modules_in names.now) of.entry.«module» (tree_of of.entry.syntax.now) (spots_of spots.now)) }
    ensures within { IfOk result (IsWantedWithin (modules_in names.now)) }
{
    let module = of.module;
    let place = Place {
        module,
        at: over_kept(spots).place(),
    };
    let governor = governing(alloc, names, of)?;
    let amount = amount_in(alloc, module, spots)?;
    Ok(Wanted {
        place,
        governor,
        amount,
    })
}

/// The value that a name refers to, at a place.
fn defined<'m, 's, 't>(
    alloc: Global,
    names: &Names<'m, 's, 't>,
    place: Place,
    referent: Referent<'m, 's, 't>,
) -> Result<Wanted<'s, 't>, Error<'t>>
    requires { referent.«module» < length (modules_in names.now) }
    ensures value { Gives wanted_of result (defined (modules_in names.now) place (referent_of referent.entry)) }
    ensures within { IfOk result (IsWantedWithin (modules_in names.now)) }
{
    let module = referent.module;
    if !referent.assignment.parameters.is_empty() {
        return Err(Error {
            place,
            why: Why::Unsettled,
        });
    }
    match &referent.assignment.body {
        Body::Value { governor, value } => {
            let of = TypeIn {
                module,
                syntax: governor,
            };
            value_in(alloc, names, of, value)
        }
        _ => Err(Error {
            place,
            why: Why::NotAValue,
        }),
    }
}

/// What is wanted, if its governor is of this kind.
fn same_kind<'s, 't>(
    place: Place,
    enumerated: bool,
    wanted: Wanted<'s, 't>,
) -> Result<Outcome<'s, 't>, Error<'t>>
    ensures { seen outcome_of result ≡ same_kind place enumerated (wanted_of wanted.entry) }
{
    if wanted.governor.enumerated != enumerated {
        return Err(Error {
            place,
            why: Why::NotANumber,
        });
    }
    Ok(Outcome::Wants(wanted))
}

/// The value that a name and the path behind it stand for.
#[tactic(auto, unfolding(crate::specs::Numbers::valued))]
fn valued<'m, 's, 't>(
    alloc: Global,
    names: &Names<'m, 's, 't>,
    place: Place,
    enumerated: bool,
    name: &'t str,
    path: Path<'t>,
) -> Result<Outcome<'s, 't>, Error<'t>>
    requires { place.«module» < length (modules_in names.now) }
    ensures value { Gives outcome_of result (valued (modules_in names.now) place enumerated name.now (path_seen path.entry)) }
    ensures within { IfOk result (IsOutcomeWithin (modules_in names.now)) }
{
    let Some(referent) = referred(names, place, name, path)? else {
        return Err(Error {
            place,
            why: Why::Unsettled,
        });
    };
    let wanted = defined(alloc, names, place, referent)?;
    same_kind(place, enumerated, wanted)
}

/// One step from an amount to its number.
#[tactic(auto, unfolding(crate::specs::Numbers::step))]
fn step<'m, 's, 't>(
    alloc: Global,
    names: &Names<'m, 's, 't>,
    wanted: Wanted<'s, 't>,
) -> Result<Outcome<'s, 't>, Error<'t>>
    requires { IsWantedWithin (modules_in names.now) wanted }
    ensures value { Gives outcome_of result (step (modules_in names.now) (wanted_of wanted.entry)) }
    ensures within { IfOk result (IsOutcomeWithin (modules_in names.now)) }
{
    let governor = wanted.governor;
    let place = wanted.place;
    match wanted.amount {
        Amount::Number { negative, digits } => written(
            place,
            governor.enumerated,
            negative,
            digits,
        ),
        Amount::Named { name, path } => {
            let path = path_of(path);
            match item_by(alloc, governor, name, path)? {
                Some(item) => numbered(governor.module, item),
                None => valued(alloc, names, place, governor.enumerated, name, path),
            }
        }
    }
}

/// The digits to which what is wanted comes, in so many steps as a way may have.
fn digits_of<'m, 's, 't>(
    alloc: Global,
    names: &Names<'m, 's, 't>,
    wanted: Wanted<'s, 't>,
) -> Result<Numeral<'t>, Error<'t>>
    requires { IsWantedWithin (modules_in names.now) wanted }
    ensures { Gives numeral_of result (numeral (modules_in names.now) 255 (wanted_of wanted.entry)) }
{
    let mut here = wanted;
    'steps: for turn in 0..MOST_STEPS {
        match step(alloc, names, here)? {
            Outcome::Reached(numeral) => return Ok(numeral),
            Outcome::Wants(next) => here = next,
        }
    }
    Err(Error {
        place: here.place,
        why: Why::Circular,
    })
}

/// The number of digits and a sign, if it fits.
fn whole<'t>(numeral: Numeral<'t>) -> Result<i128, Error<'t>>
    ensures { seen (λ z. z) result ≡ whole (numeral_of numeral.entry) }
{
    match whole_of(numeral.negative, numeral.digits) {
        Some(number) => Ok(number),
        None => Err(Error {
            place: numeral.place,
            why: Why::TooLarge,
        }),
    }
}

/// The number that is wanted.
#[tactic(auto, unfolding(crate::specs::Numbers::count))]
fn count<'m, 's, 't>(
    alloc: Global,
    names: &Names<'m, 's, 't>,
    wanted: Wanted<'s, 't>,
) -> Result<i128, Error<'t>>
    requires { IsWantedWithin (modules_in names.now) wanted }
    ensures { Gives (λ z. z) result (count (modules_in names.now) (wanted_of wanted.entry)) }
{
    let numeral = digits_of(alloc, names, wanted)?;
    whole(numeral)
}

/// The whole number that an amount at a place is: that of its digits, or of the value for which its name stands. It is a
/// size, the number of a tag, or another where no items have names (X.680, 14.1 and 19.9).
///
/// # Errors
/// Those of `number`, of an INTEGER without items.
pub fn integer<'m, 's, 't>(
    alloc: Global,
    names: &Names<'m, 's, 't>,
    place: Place,
    amount: Amount<'s, 't>,
) -> Result<i128, Error<'t>>
    requires { place.«module» < length (modules_in names.now) }
    ensures { Gives (λ z. z) result (integer_at (modules_in names.now) place (amount_of amount.entry)) }
{
    count(
        alloc,
        names,
        Wanted {
            place,
            governor: bare(place.module),
            amount,
        },
    )
}

/// The whole number that an amount at a place is, where a type governs it (X.680, 19.9 to 19.12): that of its digits; of
/// the item of that name, of an INTEGER or an ENUMERATED; or else of the value for which its name stands, whose type must
/// be of the same kind. It is looked up where it stands. A name in the parentheses of an item is that of a value.
///
/// # Errors
/// First those of the type: what `resolve` returns; Unsettled and NotANumber, at the type that it stands for. Then from
/// step to step the first of these: NotANumber, at digits of an ENUMERATED; Unread, of the items; Unnumbered, at the item;
/// Unsettled, at a name with the field of an object; Unnamed; Unsettled, at the name of an assignment with parameters;
/// NotAValue; the errors of the value's type; Unread, Unsettled (where more follows, as parameters) and NotANumber, of the
/// value; NotANumber, at the name of a value of the other kind. Circular comes after 255 steps, and TooLarge last.
#[tactic(auto, unfolding(crate::specs::Numbers::number_at))]
pub fn number<'m, 's, 't>(
    alloc: Global,
    names: &Names<'m, 's, 't>,
    of: TypeIn<'m, 's, 't>,
    place: Place,
    amount: Amount<'s, 't>,
) -> Result<i128, Error<'t>>
    requires governor { of.«module» < length (modules_in names.now) }
    requires amount { place.«module» < length (modules_in names.now) }
    ensures { Gives (λ z. z) result (number_at (modules_in names.now) (type_in of.entry) place (amount_of amount.entry)) }
{
    let governor = governing(alloc, names, of)?;
    count(
        alloc,
        names,
        Wanted {
            place,
            governor,
            amount,
        },
    )
}

/// The number in the parentheses of an item, if it has one.
fn given_number<'m, 's, 't>(
    alloc: Global,
    names: &Names<'m, 's, 't>,
    module: usize,
    item: &Item<'s, 't>,
) -> Result<Option<i128>, Error<'t>>
    requires { «module» < length (modules_in names.now) }
    ensures { Gives (λ o. o) result (given_number (modules_in names.now) «module» (item_of item.now)) }
{
    let Some(amount) = item.number else {
        return Ok(None);
    };
    let place = Place {
        module,
        at: item.at,
    };
    let whole = integer(alloc, names, place, amount)?;
    Ok(Some(whole))
}

/// The number that each item of an ENUMERATED is given in parentheses, in the order written; none where it is given none
/// (X.680, 20.1). The items are those of the root, or those after `...`.
///
/// # Errors
/// The first from the left of those of `integer`.
pub fn given_numbers<'m, 's, 't>(
    alloc: Global,
    names: &Names<'m, 's, 't>,
    module: usize,
    items: &[Item<'s, 't>],
) -> Result<Vec<Option<i128>>, Error<'t>>
    requires { «module» < length (modules_in names.now) }
    ensures { Gives (λ v. v.items) result (given_numbers (modules_in names.now) «module» (map item_of items.now)) }
{
    let mut numbers = Vec::new(alloc);
    for item in items {
        let number = given_number(alloc, names, module, item)?;
        numbers.push(number)?;
    }
    Ok(numbers)
}
