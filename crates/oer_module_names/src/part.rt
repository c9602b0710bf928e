//! The indexes of one module, and those of all.
ghost use Rattle.std.specs.Prelude.{◌≡◌, Ok, IfOk, MatchOption, map};
ghost use Rattle.oer_module_syntax.specs.Tree.{assignment_of, import_of, exports_of, module_of, symbol_of};
ghost use Rattle.oer_module_names.specs.Sole.{numbered};
ghost use Rattle.oer_module_names.specs.Tables.{assigners_from, imports_from, module_names, source_names, symbol_names, assignment_names};
ghost use Rattle.oer_module_names.specs.Indexed.{ArePartsOf, IsExportsOf, IsIndexOf, IsPartOf, held, leaves};

use crate::index::Index;
use oer_module_syntax::{Assignment, Exports, Import, Module, Symbol};
use std::alloc::{AllocError, Global};

/// What a module assigns, imports and exports.
#[derive(Drop)]
pub struct Part<'t> {
    /// Names and their assignments.
    pub assigned: Index<'t>,
    /// The names of modules and the imports from them.
    pub sources: Index<'t>,
    /// Names and the imports that have them: the first from the same module.
    pub imported: Index<'t>,
    /// The Names that other modules may import, unless these are all.
    pub exported: Option<Index<'t>>,
}

impl<'t> Part<'t> {
    /// Whether other modules may import the Name.
    pub fn exports(&self, name: &str) -> bool
        ensures { result ≡ leaves self.now.exported name.now }
    {
        match &self.exported {
            None => true,
            Some(names) => names.get(name).is_there(),
        }
    }
}

fn assignment_names<'t>(
    alloc: Global,
    assignments: &[Assignment<'_, 't>],
) -> Result<Vec<&'t str>, AllocError>
    ensures { IfOk result (λ v. map (λ w. w.now) v.items ≡ assignment_names (map assignment_of assignments.now)) }
{
    let mut names = Vec::new(alloc);
    for assignment in assignments {
        names.push(assignment.name)?;
    }
    Ok(names)
}

fn symbol_names<'t>(alloc: Global, symbols: &[Symbol<'t>]) -> Result<Vec<&'t str>, AllocError>
    ensures { IfOk result (λ v. map (λ w. w.now) v.items ≡ symbol_names (map symbol_of symbols.now)) }
{
    let mut names = Vec::new(alloc);
    for symbol in symbols {
        names.push(symbol.name)?;
    }
    Ok(names)
}

fn source_names<'t>(alloc: Global, imports: &[Import<'_, 't>]) -> Result<Vec<&'t str>, AllocError>
    ensures { IfOk result (λ v. map (λ w. w.now) v.items ≡ source_names (map import_of imports.now)) }
{
    let mut names = Vec::new(alloc);
    for import in imports {
        names.push(import.from)?;
    }
    Ok(names)
}

fn module_names<'t>(alloc: Global, modules: &[Module<'_, 't>]) -> Result<Vec<&'t str>, AllocError>
    ensures { IfOk result (λ v. map (λ w. w.now) v.items ≡ module_names (map module_of modules.now)) }
{
    let mut names = Vec::new(alloc);
    for module in modules {
        names.push(module.name)?;
    }
    Ok(names)
}

/// Names with the imports that have them.
fn imported_names<'t>(
    alloc: Global,
    sources: &Index<'t>,
    imports: &[Import<'_, 't>],
) -> Result<Index<'t>, AllocError>
    ensures { IfOk result (λ x. IsIndexOf x (imports_from (held sources.now) 0 (map import_of imports.now))) }
{
    let mut index = Index::new(alloc);
    for (place, import) in imports.iter().enumerate() {
        let source = sources.get(import.from).first_of(place);
        let symbols = symbol_names(alloc, &import.symbols)?;
        index.add_each(&symbols, source)?;
    }
    Ok(index)
}

fn exported_names<'t>(alloc: Global, exports: &Exports<'t>) -> Result<Option<Index<'t>>, AllocError>
    ensures { IfOk result (λ x. IsExportsOf x (exports_of exports.now)) }
{
    match exports {
        Exports::All => Ok(None),
        Exports::These(symbols) => {
            let names = symbol_names(alloc, symbols)?;
            let index = Index::numbered(alloc, &names)?;
            Ok(Some(index))
        }
    }
}

/// The indexes of one module.
fn part_of<'t>(alloc: Global, module: &Module<'_, 't>) -> Result<Part<'t>, AllocError>
    ensures { IfOk result (λ p. IsPartOf p (module_of «module».now)) }
{
    let assignments = assignment_names(alloc, &module.assignments)?;
    let assigned = Index::numbered(alloc, &assignments)?;
    let names = source_names(alloc, &module.imports)?;
    let sources = Index::numbered(alloc, &names)?;
    let imported = imported_names(alloc, &sources, &module.imports)?;
    let exported = exported_names(alloc, &module.exports)?;
    Ok(Part {
        assigned,
        sources,
        imported,
        exported,
    })
}

/// The indexes of each module.
pub fn parts_of<'t>(alloc: Global, modules: &[Module<'_, 't>]) -> Result<Vec<Part<'t>>, AllocError>
    ensures { IfOk result (λ v. ArePartsOf v.items (map module_of modules.now)) }
{
    let mut parts = Vec::new(alloc);
    for module in modules {
        let part = part_of(alloc, module)?;
        parts.push(part)?;
    }
    Ok(parts)
}

/// The names of modules, with their places.
pub fn named_modules<'t>(alloc: Global, modules: &[Module<'_, 't>]) -> Result<Index<'t>, AllocError>
    ensures { IfOk result (λ x. IsIndexOf x (numbered 0 (module_names (map module_of modules.now)))) }
{
    let names = module_names(alloc, modules)?;
    Index::numbered(alloc, &names)
}

/// The Names that modules assign, with the places of these modules.
pub fn assigners_of<'t>(alloc: Global, modules: &[Module<'_, 't>]) -> Result<Index<'t>, AllocError>
    ensures { IfOk result (λ x. IsIndexOf x (assigners_from 0 (map module_of modules.now))) }
{
    let mut index = Index::new(alloc);
    for (place, module) in modules.iter().enumerate() {
        let names = assignment_names(alloc, &module.assignments)?;
        index.add_each(&names, place)?;
    }
    Ok(index)
}
