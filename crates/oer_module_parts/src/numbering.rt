//! The numbers of the items of an ENUMERATED (X.680, 20).
ghost use Rattle.std.specs.Prelude.{◌≡◌, ◌^◌, ◌+ℤ◌, ◌<ℤ◌, pos, [], None, Ok, OnOk, not};
ghost use Rattle.oer_module_parts.specs.Numbering.{IsAnswer, first_free, free_later, given_from, given_later, is_above, is_among, least_after, later_number, later_numbers, number_items, representable, root_numbers, set_of, with_number};
ghost use Rattle.oer_module_parts.specs.declared.numbering.NumberFault.TheVariants.{Memory};

use std::alloc::{AllocError, AllocFailed, Global};
use std::collections::BTreeSet;

/// Why the items of an ENUMERATED can't be numbered. An item has an index in the order written, which goes on behind the
/// extension marker.
#[derive(Clone, Copy, Debug, PartialEq, Eq)]
pub enum NumberFault {
    /// An allocation failed.
    Memory,
    /// The item's number is that of an item before it (X.680, 20.2 and 20.5).
    Repeated(usize),
    /// The additional item's number isn't above that of each additional item before it (X.680, 20.4).
    NotAscending(usize),
    /// The additional item has no number, and those below 2^127 leave it none.
    TooLarge(usize),
}

impl From<AllocError> for NumberFault {
    ghost from_gives = { λ _ e. e ≡ Memory };

    fn from(_: AllocError) -> NumberFault {
        NumberFault::Memory
    }
}

impl<T: Drop> From<AllocFailed<T>> for NumberFault {
    ghost from_gives = { λ _ e. e ≡ Memory };

    fn from(_: AllocFailed<T>) -> NumberFault {
        NumberFault::Memory
    }
}

#[tactic(auto, unfolding(crate::specs::Numbering::is_among))]
fn is_among(number: i128, numbers: &BTreeSet<i128>) -> bool
    ensures { result ≡ is_among number numbers.now.keys }
{
    numbers.contains(&number)
}

/// Adds the number; whether it wasn't among them before.
#[tactic(auto, unfolding(crate::specs::Numbering::is_among, crate::specs::Numbering::with_number))]
fn add_number(numbers: &mut BTreeSet<i128>, number: i128) -> Result<bool, NumberFault>
    ensures added { IsAnswer (λ added. added) result (Ok (not (is_among number numbers.old.keys))) }
    ensures after { OnOk result (numbers.new.keys ≡ with_number numbers.old.keys number) }
{
    let added = numbers.insert(number)?;
    Ok(added)
}

/// The numbers that are given, each of them once.
fn given_numbers(alloc: Global, items: &[Option<i128>]) -> Result<BTreeSet<i128>, NumberFault>
    ensures { IsAnswer (λ s. s.keys) result (given_from 0 items.now []) }
{
    let mut given = BTreeSet::new(alloc);
    for (index, item) in items.iter().enumerate() {
        if let Some(number) = *item {
            if !add_number(&mut given, number)? {
                return Err(NumberFault::Repeated(index));
            }
        }
    }
    Ok(given)
}

/// The least number from this one on that isn't taken; none if it is 2^127 or more. Fewer than 2^63 are taken.
fn first_free(taken: &BTreeSet<i128>, from: i128) -> Option<i128>
    ensures is { result ≡ representable (first_free taken.now.keys from) }
    ensures near { first_free taken.now.keys from <ℤ (from +ℤ pos (2 ^ 63)) }
{
    let mut number = from;
    for _ in 0..taken.len() {
        if !is_among(number, taken) {
            return Some(number);
        }
        number = number.checked_add(1)?;
    }
    Some(number)
}

/// The numbers of the root, where these are given.
fn root_numbers(
    alloc: Global,
    given: &BTreeSet<i128>,
    items: &[Option<i128>],
) -> Result<Vec<i128>, NumberFault>
    ensures { IsAnswer (λ v. v.items) result (Ok (root_numbers given.now.keys (pos 0) items.now)) }
{
    let mut next = 0;
    let mut numbers = Vec::new(alloc);
    for item in items {
        match *item {
            Some(number) => numbers.push(number)?,
            None => {
                let Some(number) = first_free(given, next) else {
                    unreachable!()
                };
                numbers.push(number)?;
                next = number + 1;
            }
        }
    }
    Ok(numbers)
}

fn set_of(alloc: Global, numbers: &[i128]) -> Result<BTreeSet<i128>, NumberFault>
    ensures { IsAnswer (λ s. s.keys) result (Ok (set_of [] numbers.now)) }
{
    let mut set = BTreeSet::new(alloc);
    for number in numbers {
        add_number(&mut set, *number)?;
    }
    Ok(set)
}

/// The least number that an additional item without a number may have; none if it is 2^127.
fn least_after(last: Option<i128>) -> Option<i128>
    ensures { result ≡ representable (least_after last) }
{
    match last {
        Some(number) if number >= 0 => number.checked_add(1),
        _ => Some(0),
    }
}

/// Whether the number is above the last one, if there is one.
fn is_above(last: Option<i128>, number: i128) -> bool
    ensures { result ≡ is_above last number }
{
    match last {
        Some(last) => last < number,
        None => true,
    }
}

/// The number that is given to an additional item.
fn given_later(
    taken: &BTreeSet<i128>,
    last: Option<i128>,
    index: usize,
    number: i128,
) -> Result<i128, NumberFault>
    ensures { result ≡ given_later taken.now.keys last index number }
{
    if is_among(number, taken) {
        return Err(NumberFault::Repeated(index));
    }
    if !is_above(last, number) {
        return Err(NumberFault::NotAscending(index));
    }
    Ok(number)
}

/// The number that an additional item gets which is given none; none if it is 2^127 or more.
fn free_later(taken: &BTreeSet<i128>, last: Option<i128>) -> Option<i128>
    ensures { result ≡ free_later taken.now.keys last }
{
    let least = least_after(last)?;
    first_free(taken, least)
}

/// The number of an additional item, where the root has those taken and the last additional item has that one.
fn later_number(
    taken: &BTreeSet<i128>,
    last: Option<i128>,
    index: usize,
    item: Option<i128>,
) -> Result<i128, NumberFault>
    ensures { result ≡ later_number taken.now.keys last index item }
{
    match item {
        Some(number) => given_later(taken, last, index, number),
        None => match free_later(taken, last) {
            Some(number) => Ok(number),
            None => Err(NumberFault::TooLarge(index)),
        },
    }
}

/// Adds the numbers of the additional items.
fn add_later(
    taken: &BTreeSet<i128>,
    items: &[Option<i128>],
    numbers: &mut Vec<i128>,
) -> Result<(), NumberFault>
    ensures { IsAnswer (λ x. numbers.new.items) result (later_numbers taken.now.keys None items.now numbers.old.items) }
{
    let mut last = None;
    for item in items {
        let number = later_number(taken, last, numbers.len(), *item)?;
        numbers.push(number)?;
        last = Some(number);
    }
    Ok(())
}

/// The number of each item of an ENUMERATED, in the order written, of those in the root and of those after `...`; each
/// comes with its number, if it is given one. In the root, items without a number get the least numbers from 0 on that
/// no item of the root is given, in order; an additional item without one gets the least number from 0 on that no item of
/// the root has and that is above those of the additional items before it (X.680, 20.3 to 20.8).
///
/// # Errors
/// The first from the left in the root, and then from the left after `...`: `Repeated`, `NotAscending` and `TooLarge`; and
/// `Memory`.
#[tactic(auto, unfolding(crate::specs::Numbering::number_items))]
pub fn number_items(
    alloc: Global,
    root: &[Option<i128>],
    more: &[Option<i128>],
) -> Result<Vec<i128>, NumberFault>
    ensures { IsAnswer (λ v. v.items) result (number_items root.now more.now) }
{
    let given = given_numbers(alloc, root)?;
    let mut numbers = root_numbers(alloc, &given, root)?;
    let taken = set_of(alloc, &numbers)?;
    add_later(&taken, more, &mut numbers)?;
    Ok(numbers)
}
