//! The names of one type in an order in which equal names are neighbours.
ghost use Rattle.std.specs.Prelude.{◌≡◌, ◌≤◌, [], IsPermutation, length, map, slice_index_or};
ghost use Rattle.std.specs.List.Sorted.{IsSortedBy};
ghost use Rattle.oer_model.specs.AsnType.{no_alternatives};
ghost use Rattle.oer_model.specs.FaultTest.{names_repeat};
ghost use Rattle.oer_model.specs.WellFormed.{addition_names, alternative_names, field_names, item_names};
ghost use Rattle.oer_types.specs.NameOrder.{AreNumbered, ascend, name_at, name_cmp, names_in, stands_before};
ghost use Rattle.oer_values.specs.ShapeView.{additions_of, fields_of, named_number, root_of};

use oer_values::{Addition, Alt, Field, Item};
use std::cmp::Ordering;

/// How many names can be put in order. No type of `MAX_PARTS` parts has more.
pub(crate) const MOST: usize = 4096;

/// Where the names of one type stand: in one list, or in that of a root and that of what was added to it.
#[derive(Clone, Copy)]
pub(crate) enum Names<'a> {
    /// Those of an ENUMERATED.
    Items(&'a [Item]),
    /// Those of a SEQUENCE.
    Components(&'a [Field], &'a [Addition]),
    /// Those of a CHOICE.
    Alternatives(&'a [Alt], &'a [Alt]),
}

impl<'a> Names<'a> {
    /// How many there are.
    #[tactic(auto, using(crate::proofs::NameOrder::places))]
    pub(crate) fn count(self) -> usize
        ensures { result ≡ length (names_in self.entry) }
    {
        match self {
            Names::Items(items) => items.len(),
            Names::Components(fields, additions) => fields.len() + additions.len(),
            Names::Alternatives(alts, later) => alts.len() + later.len(),
        }
    }

    /// The name of this number, from 0 on; an empty one where there are no more.
    #[tactic(auto, using(crate::proofs::NameOrder::places))]
    fn at(self, index: u16) -> &'a str
        ensures { result.now ≡ name_at self.entry index }
    {
        let index = usize::from(index);
        match self {
            Names::Items(items) => item_name(items, index),
            Names::Components(fields, additions) => {
                if index < fields.len() {
                    return field_name(fields, index);
                }
                addition_name(additions, index - fields.len())
            }
            Names::Alternatives(alts, later) => {
                if index < alts.len() {
                    return alternative_name(alts, index);
                }
                alternative_name(later, index - alts.len())
            }
        }
    }
}

#[tactic(auto, using(crate::proofs::NameOrder::names_at))]
fn item_name(items: &[Item], index: usize) -> &str
    ensures { result.now ≡ slice_index_or (item_names (map named_number items.now)) index [] }
{
    if index < items.len() {
        return items[index].name.as_str();
    }
    ""
}

#[tactic(auto, using(crate::proofs::NameOrder::names_at))]
fn field_name(fields: &[Field], index: usize) -> &str
    ensures { result.now ≡ slice_index_or (field_names (fields_of fields.now)) index [] }
{
    if index < fields.len() {
        return fields[index].name.as_str();
    }
    ""
}

#[tactic(auto, using(crate::proofs::NameOrder::names_at))]
fn addition_name(additions: &[Addition], index: usize) -> &str
    ensures { result.now ≡ slice_index_or (addition_names (additions_of additions.now)) index [] }
{
    if index < additions.len() {
        return additions[index].name.as_str();
    }
    ""
}

#[tactic(auto, using(crate::proofs::NameOrder::names_at))]
fn alternative_name(alts: &[Alt], index: usize) -> &str
    ensures { result.now ≡ slice_index_or (alternative_names (root_of alts.now no_alternatives)) index [] }
{
    if index < alts.len() {
        return alts[index].name.as_str();
    }
    ""
}

/// A shorter name stands first, so that names with a number at the end ascend by it.
fn compare(one: &str, other: &str) -> Ordering
    ensures { result ≡ name_cmp one.now other.now }
{
    match one.len().cmp(&other.len()) {
        Ordering::Equal => one.cmp(other),
        order => order,
    }
}

/// Each place gets its own number.
fn number(order: &mut [u16])
    requires { length order.old ≤ 4096 }
    ensures length { length order.new ≡ length order.old }
    ensures numbered { AreNumbered order.new (length order.new) }
{
    for index in 0..order.len() {
        order[index] = index as u16;
    }
}

/// Whether each name stands before the next.
fn is_ascending(names: Names<'_>, order: &[u16]) -> bool
    ensures { result ≡ ascend names.entry order.now }
{
    let Some((first, rest)) = order.split_first() else {
        return true;
    };
    let mut last = names.at(*first);
    for index in rest {
        let name = names.at(*index);
        if !compare(last, name).is_lt() {
            return false;
        }
        last = name;
    }
    true
}

/// Puts the names in order.
fn sort(names: Names<'_>, order: &mut [u16])
    ensures moved { IsPermutation order.old order.new }
    ensures sorted { IsSortedBy (stands_before names.entry) order.new }
{
    order.sort_unstable_by(|one, other| compare(names.at(*one), names.at(*other)));
}

/// Whether one of the names stands twice, where there is a place for the number of each.
fn repeat_in_order(names: Names<'_>, order: &mut [u16]) -> bool
    requires count { length order.old ≡ length (names_in names) }
    requires most { length order.old ≤ 4096 }
    ensures { result ≡ names_repeat (names_in names.entry) }
{
    number(order);
    if is_ascending(names, order) {
        return false;
    }
    sort(names, order);
    !is_ascending(names, order)
}

/// Whether one of the names stands twice. It takes 8 KiB of the stack, and isn't inlined, since these would stand
/// there once for each level of a type.
#[inline(never)]
pub(crate) fn names_repeat_in_order(names: Names<'_>) -> bool
    requires { length (names_in names) ≤ 4096 }
    ensures { result ≡ names_repeat (names_in names.entry) }
{
    let mut places = [0; MOST];
    repeat_in_order(names, &mut places[..names.count()])
}
