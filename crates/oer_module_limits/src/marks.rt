//! Extension markers of constraints.
ghost use Rattle.std.specs.Prelude.{◌≡◌, map};
ghost use Rattle.oer_module_terms.specs.Trees.{constraint_of, elements_of, extension_of, sets_from};
ghost use Rattle.oer_module_limits.specs.Marks.{are_marked, are_mixed, has_marker, is_extensible, is_marked, is_mixed};

use oer_module_terms::{Constraint, Elements, Extension};

fn has_marker(extension: &Extension<'_, '_>) -> bool
    ensures { result ≡ has_marker (extension_of extension.now) }
{
    match extension {
        Extension::Closed => false,
        Extension::Open | Extension::Extended(_) => true,
    }
}

/// Whether a constraint has an extension marker, or SIZE in its set has one.
#[cycle(marks)]
#[tactic(auto, using(crate::proofs::Views::written))]
pub fn is_extensible(constraint: &Constraint<'_, '_>) -> bool
    ensures { result ≡ is_extensible (constraint_of constraint.now) }
{
    match constraint {
        Constraint::Subtype {
            root,
            extension,
            ..
        } => has_marker(extension) || is_marked(root),
        Constraint::General { .. } => false,
    }
}

/// Whether SIZE in a set has an extension marker.
#[cycle(marks)]
#[tactic(auto, using(crate::proofs::Views::levels))]
fn is_marked(elements: &Elements<'_, '_>) -> bool
    ensures { result ≡ is_marked (elements_of elements.now) }
{
    match elements {
        Elements::Union(members) => are_marked(members),
        Elements::Intersection(members) => are_marked(members),
        Elements::Except(from, excluded) => is_marked(from) || is_marked(excluded),
        Elements::AllExcept(excluded) => is_marked(excluded),
        Elements::Size { size, .. } => is_extensible(size),
        Elements::Alphabet { .. } | Elements::Simple(_) => false,
    }
}

/// Whether SIZE with an extension marker stands beside other elements.
#[cycle(mixed)]
#[tactic(auto, using(crate::proofs::Views::levels))]
pub fn is_mixed(elements: &Elements<'_, '_>) -> bool
    ensures { result ≡ is_mixed (elements_of elements.now) }
{
    match elements {
        Elements::Union(members) | Elements::Intersection(members) => are_mixed(members),
        Elements::Except(from, excluded) => is_marked(from) || is_marked(excluded),
        Elements::AllExcept(excluded) => is_marked(excluded),
        Elements::Size { .. } | Elements::Alphabet { .. } | Elements::Simple(_) => false,
    }
}

/// Whether one of several elements is SIZE with an extension marker, or the only one mixes it with others.
#[cycle(mixed)]
fn are_mixed(members: &[Elements<'_, '_>]) -> bool
    ensures { result ≡ are_mixed (sets_from (map elements_of members.now)) }
{
    match members {
        [] => false,
        [only] => is_mixed(only),
        _ => are_marked(members),
    }
}

/// The same of some of several sets.
#[cycle(marks)]
fn are_marked(members: &[Elements<'_, '_>]) -> bool
    ensures { result ≡ are_marked (sets_from (map elements_of members.now)) }
{
    for member in members {
        if is_marked(member) {
            return true;
        }
    }
    false
}
