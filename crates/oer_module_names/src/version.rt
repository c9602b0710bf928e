//! Which imports ask for another version of a module than the one that is there.
ghost use Rattle.std.specs.Prelude.{◌≡◌, ◌≤◌, IfOk, OnOk, drop, length, map, not, option_map, slice_get};
ghost use Rattle.oer_module_syntax.specs.Tree.{import_of, module_of};
ghost use Rattle.oer_module_names.specs.Identifiers.{arcs};
ghost use Rattle.oer_module_names.specs.Indexed.{AreOthersOf, Extends, IsIndexOf, held};
ghost use Rattle.oer_module_names.specs.Tables.{identifiers, is_other, other_by, other_entries, others_from};
ghost use Rattle.oer_module_names.specs.Versions.{allows, apart, fits, is_allowed, is_later, is_over, is_one_above};

use crate::identifier::arcs_of;
use crate::index::{Index, Sole};
use oer_module_syntax::{Import, Module, Versions};
use std::alloc::{AllocError, Global};

/// How many arcs at the front are the same.
fn shared_len(asked: &[u128], has: &[u128]) -> usize
    ensures value { apart asked.now has.now ≡ (drop result asked.now, drop result has.now) }
    ensures asked { result ≤ length asked.now }
    ensures has { result ≤ length has.now }
{
    let mut shared = 0;
    while shared < asked.len() && shared < has.len() && asked[shared] == has[shared] {
        shared += 1;
    }
    shared
}

fn is_one_above(arc: u128, has: &[u128]) -> bool
    ensures { result ≡ is_one_above arc has.now }
{
    match has {
        [later] => arc < *later,
        _ => false,
    }
}

/// Whether what is left of both is nothing, or one arc and a greater one.
fn is_later(asked: &[u128], has: &[u128]) -> bool
    ensures { result ≡ is_later asked.now has.now }
{
    match asked {
        [] => is_over(has),
        [arc] => is_one_above(*arc, has),
        _ => false,
    }
}

fn is_over(arcs: &[u128]) -> bool
    ensures { result ≡ is_over arcs.now }
{
    match arcs {
        [] => true,
        _ => false,
    }
}

/// Whether what is left of both, behind the arcs that they share, is allowed.
fn is_allowed(versions: Versions, asked: &[u128], has: &[u128]) -> bool
    ensures { result ≡ is_allowed versions asked.now has.now }
{
    match versions {
        Versions::Same => is_over(asked) && is_over(has),
        Versions::Successors => is_later(asked, has),
        Versions::Descendants => is_over(asked),
    }
}

#[tactic(auto, unfolding(crate::specs::Versions::allows))]
/// Whether an import that has the first arcs may take its names from a module that has the second.
fn allows(versions: Versions, asked: &[u128], has: &[u128]) -> bool
    ensures { result ≡ allows versions asked.now has.now }
{
    let shared = shared_len(asked, has);
    is_allowed(versions, &asked[shared..], &has[shared..])
}

/// The same where one of both may tell no arcs: then the name alone decides.
fn fits(versions: Versions, asked: &Option<Vec<u128>>, has: &Option<Vec<u128>>) -> bool
    ensures { result ≡ fits versions (option_map (λ v. v.items) asked.now) (option_map (λ v. v.items) has.now) }
{
    match asked {
        None => true,
        Some(asked) => match has {
            None => true,
            Some(has) => allows(versions, asked, has),
        },
    }
}

/// The arcs of each module's identifier.
fn identifiers_of(
    alloc: Global,
    modules: &[Module<'_, '_>],
) -> Result<Vec<Option<Vec<u128>>>, AllocError>
    ensures { IfOk result (λ v. map (option_map (λ a. a.items)) v.items ≡ identifiers (map module_of modules.now)) }
{
    let mut found = Vec::new(alloc);
    for module in modules {
        let arcs = arcs_of(alloc, module.id)?;
        found.push(arcs)?;
    }
    Ok(found)
}

/// Whether an import asks for another version of a module than this one.
fn is_other_than(
    alloc: Global,
    has: &Option<Vec<u128>>,
    import: &Import<'_, '_>,
) -> Result<bool, AllocError>
    ensures { IfOk result (λ b. b ≡ not (fits import.now.versions (arcs (import_of import.now).id) (option_map (λ v. v.items) has.now))) }
{
    let asked = arcs_of(alloc, import.id)?;
    Ok(!fits(import.versions, &asked, has))
}

/// Whether an import asks for another version than that of the module of this number.
fn is_other_at(
    alloc: Global,
    found: &[Option<Vec<u128>>],
    module: usize,
    import: &Import<'_, '_>,
) -> Result<bool, AllocError>
    ensures { IfOk result (λ b. b ≡ other_by (import_of import.now) (slice_get (map (option_map (λ v. v.items)) found.now) «module»)) }
{
    if module >= found.len() {
        return Ok(false);
    }
    is_other_than(alloc, &found[module], import)
}

/// Whether an import asks for another version than that of the module of its name, if there is one such.
fn is_other(
    alloc: Global,
    by_name: &Index<'_>,
    found: &[Option<Vec<u128>>],
    import: &Import<'_, '_>,
) -> Result<bool, AllocError>
    ensures { IfOk result (λ b. b ≡ is_other (held by_name.now) (map (option_map (λ v. v.items)) found.now) (import_of import.now)) }
{
    match by_name.get(import.from) {
        Sole::One(module) => is_other_at(alloc, found, module, import),
        Sole::Nothing => Ok(false),
        Sole::Two(_, _) => Ok(false),
    }
}

/// Gives the name of its module the place of an import, if that asks for another version.
fn add_other<'t>(
    index: &mut Index<'t>,
    name: &'t str,
    place: usize,
    other: bool,
) -> Result<(), AllocError>
    ensures { OnOk result (Extends index.old (other_entries other name.now place) index.new) }
{
    if other {
        index.add(name, place)?;
    }
    Ok(())
}

/// The names of modules, with the imports that ask for another version than is there.
fn others_in<'t>(
    alloc: Global,
    by_name: &Index<'t>,
    found: &[Option<Vec<u128>>],
    imports: &[Import<'_, 't>],
) -> Result<Index<'t>, AllocError>
    ensures { IfOk result (λ x. IsIndexOf x (others_from (held by_name.now) (map (option_map (λ v. v.items)) found.now) 0 (map import_of imports.now))) }
{
    let mut index = Index::new(alloc);
    for (place, import) in imports.iter().enumerate() {
        let other = is_other(alloc, by_name, found, import)?;
        add_other(&mut index, import.from, place, other)?;
    }
    Ok(index)
}

/// The same of each module. Each identifier is read once.
pub fn others_of<'t>(
    alloc: Global,
    by_name: &Index<'t>,
    modules: &[Module<'_, 't>],
) -> Result<Vec<Index<'t>>, AllocError>
    ensures { IfOk result (λ v. AreOthersOf (held by_name.now) (identifiers (map module_of modules.now)) v.items (map module_of modules.now)) }
{
    let found = identifiers_of(alloc, modules)?;
    others_by(alloc, by_name, &found, modules)
}

fn others_by<'t>(
    alloc: Global,
    by_name: &Index<'t>,
    found: &[Option<Vec<u128>>],
    modules: &[Module<'_, 't>],
) -> Result<Vec<Index<'t>>, AllocError>
    ensures { IfOk result (λ v. AreOthersOf (held by_name.now) (map (option_map (λ a. a.items)) found.now) v.items (map module_of modules.now)) }
{
    let mut others = Vec::new(alloc);
    for module in modules {
        let index = others_in(alloc, by_name, found, &module.imports)?;
        others.push(index)?;
    }
    Ok(others)
}
