//! The kinds of constraints, and which of them narrow the values of a type.
ghost use Rattle.std.specs.Prelude.{◌≡◌, ◌<◌, ◌&&◌, suc, drop, length, map};
ghost use Rattle.oer_module_terms.specs.Trees.{constraint_of, elements_of, sets_from, simple_of};
ghost use Rattle.oer_module_limits.specs.Kinds.{bounds, general_kind, narrowing_kind, narrows, same_kind, simple_kind, stands_behind, stands_in, stands_in_one, stands_in_some};

use crate::marks::is_extensible;
use oer_module_terms::{Constraint, Elements, General, Narrowing, Simple};

/// What a part of a constraint narrows values by.
#[derive(Clone, Copy, Debug, PartialEq, Eq)]
pub enum Kind {
    /// SIZE (X.680, 51.5).
    Size,
    /// FROM (X.680, 51.7).
    Alphabet,
    /// PATTERN (X.680, 51.9).
    Pattern,
    /// SETTINGS (X.680, 51.10).
    Settings,
    /// WITH COMPONENT or WITH COMPONENTS (X.680, 51.8).
    Inner,
    /// A value, a range, or the values of a type (X.680, 51.2 to 51.4).
    Values,
    /// CONSTRAINED BY (X.682, 9).
    UserDefined,
    /// CONTAINING or ENCODED BY (X.682, 11).
    Contents,
    /// A set of objects (X.682, 10).
    Table,
}

fn same_kind(one: Kind, other: Kind) -> bool
    ensures { result ≡ same_kind one other }
{
    one == other
}

fn general_kind(general: General) -> Kind
    ensures { result ≡ general_kind general }
{
    match general {
        General::UserDefined => Kind::UserDefined,
        General::Table => Kind::Table,
        General::Contents => Kind::Contents,
    }
}

fn narrowing_kind(narrowing: Narrowing) -> Kind
    ensures { result ≡ narrowing_kind narrowing }
{
    match narrowing {
        Narrowing::Inner => Kind::Inner,
        Narrowing::Pattern => Kind::Pattern,
        Narrowing::Settings => Kind::Settings,
    }
}

fn simple_kind(simple: &Simple<'_, '_>) -> Kind
    ensures { result ≡ simple_kind (simple_of simple.now) }
{
    match simple {
        Simple::Value(_) | Simple::Range { .. } | Simple::Type(_) => Kind::Values,
        Simple::Narrowing { kind, .. } => narrowing_kind(*kind),
    }
}

/// Whether elements of this kind stand in a set.
#[cycle(kinds)]
#[tactic(auto, using(crate::proofs::Views::levels))]
fn stands_in(kind: Kind, elements: &Elements<'_, '_>) -> bool
    ensures { result ≡ stands_in kind (elements_of elements.now) }
{
    match elements {
        Elements::Union(members) => stands_in_some(kind, members),
        Elements::Intersection(members) => stands_in_some(kind, members),
        Elements::Except(from, excluded) => stands_in(kind, from) || stands_in(kind, excluded),
        Elements::AllExcept(excluded) => stands_in(kind, excluded),
        Elements::Size { .. } => same_kind(kind, Kind::Size),
        Elements::Alphabet { .. } => same_kind(kind, Kind::Alphabet),
        Elements::Simple(simple) => same_kind(kind, simple_kind(simple)),
    }
}

/// The same of one of several sets.
#[cycle(kinds)]
fn stands_in_some(kind: Kind, members: &[Elements<'_, '_>]) -> bool
    ensures { result ≡ stands_in_some kind (sets_from (map elements_of members.now)) }
{
    for member in members {
        if stands_in(kind, member) {
            return true;
        }
    }
    false
}

/// Whether a constraint is of this kind, or elements of its set are.
#[tactic(auto, using(crate::proofs::Views::written))]
fn stands_in_one(kind: Kind, constraint: &Constraint<'_, '_>) -> bool
    ensures { result ≡ stands_in_one kind (constraint_of constraint.now) }
{
    match constraint {
        Constraint::Subtype { root, .. } => stands_in(kind, root),
        Constraint::General { kind: general, .. } => same_kind(kind, general_kind(*general)),
    }
}

/// The same of a constraint that may stand behind the word SIZE.
fn stands_behind(kind: Kind, sized: bool, constraint: &Constraint<'_, '_>) -> bool
    ensures { result ≡ stands_behind kind sized (constraint_of constraint.now) }
{
    if sized {
        return same_kind(kind, Kind::Size);
    }
    stands_in_one(kind, constraint)
}

/// Whether the constraint of that index bounds values: the last doesn't if it has an extension marker (X.696, 8.2); one that
/// another follows loses its marker (X.680, 50.8).
#[tactic(auto, using(crate::proofs::Bounding::bounds_followed, crate::proofs::Bounding::bounds_last))]
fn bounds(constraints: &[Constraint<'_, '_>], index: usize, constraint: &Constraint<'_, '_>) -> bool
    requires { index < length constraints.now }
    ensures { result ≡ bounds (constraint_of constraint.now) (map constraint_of (drop (suc index) constraints.now)) }
{
    if index + 1 < constraints.len() {
        return true;
    }
    !is_extensible(constraint)
}

/// Whether the constraint of that index narrows values by this kind. Before it the word SIZE may stand.
fn narrows_at(
    kind: Kind,
    sized: bool,
    constraints: &[Constraint<'_, '_>],
    index: usize,
    constraint: &Constraint<'_, '_>,
) -> bool
    requires { index < length constraints.now }
    ensures { result ≡ (bounds (constraint_of constraint.now) (map constraint_of (drop (suc index) constraints.now)) && stands_behind kind sized (constraint_of constraint.now)) }
{
    bounds(constraints, index, constraint) && stands_behind(kind, sized, constraint)
}

/// Whether constraints in a row, the nearest last, narrow values by this kind. Before the first the word SIZE may stand.
pub fn narrows(kind: Kind, sized: bool, constraints: &[Constraint<'_, '_>]) -> bool
    ensures { result ≡ narrows kind sized (map constraint_of constraints.now) }
{
    let mut behind_size = sized;
    for (index, constraint) in constraints.iter().enumerate() {
        if narrows_at(kind, behind_size, constraints, index, constraint) {
            return true;
        }
        behind_size = false;
    }
    false
}
