//! What Names stand for.
ghost use Rattle.std.proofs.Props.{props};
ghost use Rattle.oer_module_syntax.specs.Tree.{module_of};
ghost use Rattle.std.specs.Prelude.{map};
ghost use Rattle.oer_module_names.specs.Indexed.{IsIndexed};

use crate::error::{Found, NameError, Place, Why};
use crate::index::{Index, Sole};
use crate::part::{Part, assigners_of, named_modules, parts_of};
use crate::version::others_of;
use crate::way::{Step, Way};
use oer_module_syntax::{Assignment, Import, Module};
use std::alloc::{AllocError, Global};

/// The Names of modules, so kept that each is found at once.
#[derive(Drop)]
pub struct Names<'m, 's, 't> {
    modules: &'m [Module<'s, 't>],
    by_name: Index<'t>,
    parts: Vec<Part<'t>>,
    assigners: Index<'t>,
    /// Of each module: the names of those from which it imports another version than is there.
    others: Vec<Index<'t>>,
    ghost indexed: { IsIndexed (map module_of modules.now) by_name parts.items assigners others.items } by { Prim.hlevel props },
}

impl<'m, 's, 't> Names<'m, 's, 't> {
    ghost use Rattle.std.specs.Prelude.{◌≡◌, ◌<◌, IfOk, IfSome, Some, length, map, slice_get};
    ghost use Rattle.oer_module_syntax.specs.Tree.{assignment_of, import_of, module_of};
    ghost use Rattle.oer_module_names.specs.Finding.{assignment_place, find, find_anywhere, find_in, find_module, follow, from_name, from_place, import_of_name, module_at, module_place, own, own_name, step, through, version_at};
    ghost use Rattle.oer_module_names.specs.Tables.{assigned_in, assigner, assignments_in, imported_in, imports_in, is_exported_in, named, other_in, source_in};
    ghost use Rattle.oer_module_names.specs.Views.{IsSoleBelow, IsStepWithin, IsWithin, answer_of, modules_in};

    /// Looks through the modules once. They are in any order, of one text or several. What is wrong with
    /// a Name, as that two assignments have it, shows when that Name is looked for, and not here.
    ///
    /// A module is found by its name. Where an import gives it an object identifier, and its header has
    /// one too, the module has to be of the version that the import asks for (X.680, 13.1): the arcs are
    /// the same; by WITH SUCCESSORS the last arc of the module may also be greater; by WITH DESCENDANTS it
    /// may also have more arcs behind those of the import. Only identifiers in braces are compared of which
    /// each arc is told: by a number below 2^128, or by one of the names that need none (X.680, 32.3),
    /// which are `itu-t`, `iso` and `joint-iso-itu-t`, those below `itu-t` and `iso`, and the letters below
    /// `recommendation`.
    pub fn new(
        alloc: Global,
        modules: &'m [Module<'s, 't>],
    ) -> Result<Names<'m, 's, 't>, AllocError>
        ensures { IfOk result (λ n. modules_in n ≡ map module_of modules.now) }
    {
        let by_name = named_modules(alloc, modules)?;
        let parts = parts_of(alloc, modules)?;
        let assigners = assigners_of(alloc, modules)?;
        let others = others_of(alloc, &by_name, modules)?;
        Ok(Names {
            modules,
            by_name,
            parts,
            assigners,
            others,
        })
    }

    #[tactic(auto, unfolding(crate::specs::Views::modules_in), using(crate::proofs::Readings::modules_count))]
    /// The modules, in the order in which they were given.
    pub fn modules(&self) -> &'m [Module<'s, 't>]
        ensures value { map module_of result.now ≡ modules_in self.now }
        ensures len { length result.now ≡ length (modules_in self.now) }
    {
        self.modules
    }

    /// The assignment that was found.
    pub fn assignment(&self, found: Found) -> &'m Assignment<'s, 't>
        requires { IsWithin (modules_in self.now) found }
        ensures { slice_get (assignments_in (modules_in self.now) found.«module») found.assignment ≡ Some (assignment_of result.now) }
    {
        &self.the_module(found.module).assignments[found.assignment]
    }

    #[tactic(auto, using(crate::proofs::Readings::modules_count))]
    fn the_module(&self, module: usize) -> &'m Module<'s, 't>
        requires { «module» < length (modules_in self.now) }
        ensures { slice_get (modules_in self.now) «module» ≡ Some (module_of result.now) }
    {
        &self.modules[module]
    }

    fn the_import(&self, module: usize, import: usize) -> &'m Import<'s, 't>
        requires known { «module» < length (modules_in self.now) }
        requires import { import < length (imports_in (modules_in self.now) «module») }
        ensures { slice_get (imports_in (modules_in self.now) «module») import ≡ Some (import_of result.now) }
    {
        &self.the_module(module).imports[import]
    }

    /// The indexes of a module.
    fn part(&self, module: usize) -> &Part<'t>
        requires { «module» < length (modules_in self.now) }
        ensures { slice_get self.now.parts.items «module» ≡ Some result.now }
    {
        &self.parts[module]
    }

    #[tactic(auto, unfolding(crate::specs::Finding::find_module))]
    /// The module of this name. NoModule, if none has it; ModuleTwice.
    pub fn find_module<'n>(&self, name: &'n str) -> Result<usize, NameError<'n>>
        ensures answer { answer_of result ≡ find_module (modules_in self.now) name.now }
        ensures within { IfOk result (λ k. k < length (modules_in self.now)) }
    {
        self.module_at(None, name)
    }

    #[tactic(auto, unfolding(crate::specs::Finding::find))]
    /// What the Name stands for in this module (X.680, 13.12 to 13.17): the assignment of the module
    /// itself, or else of the module that it imports the Name from, if that module exports it; what a
    /// module imports it may export.
    ///
    /// In each module on the way, the first of these that holds is the error: AssignedTwice, if two
    /// assignments have the Name; Missing, if none has it and it isn't imported; ImportedTwice, if it
    /// is imported from two modules; NoModule or ModuleTwice, if not one module has the name behind
    /// FROM; OtherVersion, if that module isn't of the version that is asked for, by the first import
    /// from it of which this is so; NotExported, by the EXPORTS of that module. Circular, if no end is
    /// found within as many modules as there are.
    pub fn find<'n>(&self, module: usize, name: &'n str) -> Result<Found, NameError<'n>>
    where
        't: 'n,
        requires { «module» < length (modules_in self.now) }
        ensures answer { answer_of result ≡ find (modules_in self.now) «module» name.now }
        ensures within { IfOk result (IsWithin (modules_in self.now)) }
    {
        let place = self.module_place(module);
        self.follow(Way { module, place }, name)
    }

    #[tactic(auto, unfolding(crate::specs::Finding::find_in))]
    /// What `of.name` stands for in this module (X.680, 14.1): the same as the Name alone, where `of`
    /// is the module itself; else what the Name stands for in the module `of`, from which something
    /// must be imported, and which must export the Name. NotImported, and then the errors of `find`.
    pub fn find_in<'n>(
        &self,
        module: usize,
        of: &'n str,
        name: &'n str,
    ) -> Result<Found, NameError<'n>>
    where
        't: 'n,
        requires { «module» < length (modules_in self.now) }
        ensures answer { answer_of result ≡ find_in (modules_in self.now) «module» of.now name.now }
        ensures within { IfOk result (IsWithin (modules_in self.now)) }
    {
        if of == self.own_name(module) {
            return self.find(module, name);
        }
        match self.source(module, of) {
            Sole::Nothing => Err(NameError {
                why: Why::NotImported,
                name: of,
                place: Some(self.module_place(module)),
            }),
            Sole::One(import) | Sole::Two(import, _) => {
                let way = self.through(module, import, name)?;
                self.follow(way, name)
            }
        }
    }

    #[tactic(auto, unfolding(crate::specs::Finding::find_anywhere))]
    /// The assignment of the Name in all modules. Missing, if none assigns it; InTwoModules;
    /// AssignedTwice, if one module assigns it twice.
    pub fn find_anywhere<'n>(&self, name: &'n str) -> Result<Found, NameError<'n>>
    where
        't: 'n,
        ensures answer { answer_of result ≡ find_anywhere (modules_in self.now) name.now }
        ensures within { IfOk result (IsWithin (modules_in self.now)) }
    {
        match self.assigner(name) {
            Sole::Nothing => Err(NameError {
                why: Why::Missing,
                name,
                place: None,
            }),
            Sole::One(module) => self.find(module, name),
            Sole::Two(first, second) => Err(NameError {
                why: Why::InTwoModules { first, second },
                name,
                place: None,
            }),
        }
    }

    #[tactic(auto, unfolding(crate::specs::Finding::module_place))]
    /// Where a module begins.
    fn module_place(&self, module: usize) -> Place
        requires { «module» < length (modules_in self.now) }
        ensures { result ≡ module_place (modules_in self.now) «module» }
    {
        Place {
            module,
            at: self.the_module(module).at,
        }
    }

    #[tactic(auto, unfolding(crate::specs::Finding::assignment_place))]
    fn assignment_place(&self, module: usize, assignment: usize) -> Place
        requires known { «module» < length (modules_in self.now) }
        requires assignment { assignment < length (assignments_in (modules_in self.now) «module») }
        ensures { result ≡ assignment_place (modules_in self.now) «module» assignment }
    {
        Place {
            module,
            at: self.assignment(Found { module, assignment }).at,
        }
    }

    #[tactic(auto, unfolding(crate::specs::Finding::from_place))]
    /// Where an import names its module.
    fn from_place(&self, module: usize, import: usize) -> Place
        requires known { «module» < length (modules_in self.now) }
        requires import { import < length (imports_in (modules_in self.now) «module») }
        ensures { result ≡ from_place (modules_in self.now) «module» import }
    {
        Place {
            module,
            at: self.the_import(module, import).at,
        }
    }

    #[tactic(auto, unfolding(crate::specs::Finding::from_name))]
    /// The name of that module.
    fn from_name(&self, module: usize, import: usize) -> &'t str
        requires known { «module» < length (modules_in self.now) }
        requires import { import < length (imports_in (modules_in self.now) «module») }
        ensures { result.now ≡ from_name (modules_in self.now) «module» import }
    {
        self.the_import(module, import).from
    }

    #[tactic(auto, unfolding(crate::specs::Finding::own_name))]
    fn own_name(&self, module: usize) -> &'t str
        requires { «module» < length (modules_in self.now) }
        ensures { result.now ≡ own_name (modules_in self.now) «module» }
    {
        self.the_module(module).name
    }

    /// Which module has the name.
    fn named(&self, name: &str) -> Sole
        ensures value { result ≡ named (modules_in self.now) name.now }
        ensures below { IsSoleBelow (length (modules_in self.now)) result }
    {
        self.by_name.get(name)
    }

    /// Which module assigns the Name.
    fn assigner(&self, name: &str) -> Sole
        ensures value { result ≡ assigner (modules_in self.now) name.now }
        ensures below { IsSoleBelow (length (modules_in self.now)) result }
    {
        self.assigners.get(name)
    }

    /// Which assignment of a module has the Name.
    fn assigned(&self, module: usize, name: &str) -> Sole
        requires { «module» < length (modules_in self.now) }
        ensures value { result ≡ assigned_in (modules_in self.now) «module» name.now }
        ensures below { IsSoleBelow (length (assignments_in (modules_in self.now) «module»)) result }
    {
        self.part(module).assigned.get(name)
    }

    /// Which import of a module has the Name.
    fn imported(&self, module: usize, name: &str) -> Sole
        requires { «module» < length (modules_in self.now) }
        ensures value { result ≡ imported_in (modules_in self.now) «module» name.now }
        ensures below { IsSoleBelow (length (imports_in (modules_in self.now) «module»)) result }
    {
        self.part(module).imported.get(name)
    }

    /// Which import of a module is from the module of this name.
    fn source(&self, module: usize, from: &str) -> Sole
        requires { «module» < length (modules_in self.now) }
        ensures value { result ≡ source_in (modules_in self.now) «module» from.now }
        ensures below { IsSoleBelow (length (imports_in (modules_in self.now) «module»)) result }
    {
        self.part(module).sources.get(from)
    }

    /// Which import of a module from the module of this name asks for another version than is there.
    fn other(&self, module: usize, from: &str) -> Sole
        requires { «module» < length (modules_in self.now) }
        ensures value { result ≡ other_in (modules_in self.now) «module» from.now }
        ensures below { IsSoleBelow (length (imports_in (modules_in self.now) «module»)) result }
    {
        self.others[module].get(from)
    }

    /// Whether a module exports the Name.
    fn is_exported(&self, module: usize, name: &str) -> bool
        requires { «module» < length (modules_in self.now) }
        ensures { result ≡ is_exported_in (modules_in self.now) «module» name.now }
    {
        self.part(module).exports(name)
    }

    #[tactic(auto, unfolding(crate::specs::Finding::module_at))]
    /// The module of a name that stands at a place.
    fn module_at<'n>(&self, place: Option<Place>, name: &'n str) -> Result<usize, NameError<'n>>
        ensures answer { answer_of result ≡ module_at (modules_in self.now) place name.now }
        ensures within { IfOk result (λ k. k < length (modules_in self.now)) }
    {
        match self.named(name) {
            Sole::Nothing => Err(NameError {
                why: Why::NoModule,
                name,
                place,
            }),
            Sole::One(module) => Ok(module),
            Sole::Two(first, second) => Err(NameError {
                why: Why::ModuleTwice { first, second },
                name,
                place,
            }),
        }
    }

    #[tactic(auto, unfolding(crate::specs::Finding::version_at))]
    /// Each import of a module from the module of this name asks for the version that is there.
    fn version_at<'n>(&self, module: usize, from: &'n str) -> Result<(), NameError<'n>>
        requires { «module» < length (modules_in self.now) }
        ensures { answer_of result ≡ version_at (modules_in self.now) «module» from.now }
    {
        match self.other(module, from) {
            Sole::Nothing => Ok(()),
            Sole::One(import) | Sole::Two(import, _) => Err(NameError {
                why: Why::OtherVersion,
                name: from,
                place: Some(self.from_place(module, import)),
            }),
        }
    }

    #[tactic(auto, unfolding(crate::specs::Finding::own))]
    /// Which of a module's own assignments has the Name, if one has.
    fn own<'n>(&self, module: usize, name: &'n str) -> Result<Option<usize>, NameError<'n>>
        requires { «module» < length (modules_in self.now) }
        ensures answer { answer_of result ≡ own (modules_in self.now) name.now «module» }
        ensures within { IfOk result (λ o. IfSome o (λ n. n < length (assignments_in (modules_in self.now) «module»))) }
    {
        match self.assigned(module, name) {
            Sole::Nothing => Ok(None),
            Sole::One(assignment) => Ok(Some(assignment)),
            Sole::Two(first, second) => Err(NameError {
                why: Why::AssignedTwice { first, second },
                name,
                place: Some(self.assignment_place(module, second)),
            }),
        }
    }

    #[tactic(auto, unfolding(crate::specs::Finding::import_of_name))]
    /// Which import of a module has the Name.
    fn import_of_name<'n>(&self, way: Way, name: &'n str) -> Result<usize, NameError<'n>>
        requires { way.«module» < length (modules_in self.now) }
        ensures answer { answer_of result ≡ import_of_name (modules_in self.now) name.now way }
        ensures within { IfOk result (λ i. i < length (imports_in (modules_in self.now) way.«module»)) }
    {
        match self.imported(way.module, name) {
            Sole::Nothing => Err(NameError {
                why: Why::Missing,
                name,
                place: Some(way.place),
            }),
            Sole::One(import) => Ok(import),
            Sole::Two(first, second) => Err(NameError {
                why: Why::ImportedTwice { first, second },
                name,
                place: Some(self.from_place(way.module, second)),
            }),
        }
    }

    #[tactic(auto, unfolding(crate::specs::Finding::through))]
    /// Through an import to the module that it names, which must be of the version that is asked for, and
    /// export the Name.
    fn through<'n>(&self, module: usize, import: usize, name: &'n str) -> Result<Way, NameError<'n>>
    where
        't: 'n,
        requires known { «module» < length (modules_in self.now) }
        requires import { import < length (imports_in (modules_in self.now) «module») }
        ensures answer { answer_of result ≡ through (modules_in self.now) name.now «module» import }
        ensures within { IfOk result (λ way. way.«module» < length (modules_in self.now)) }
    {
        let place = self.from_place(module, import);
        let from = self.from_name(module, import);
        let next = self.module_at(Some(place), from)?;
        self.version_at(module, from)?;
        if !self.is_exported(next, name) {
            return Err(NameError {
                why: Why::NotExported,
                name,
                place: Some(place),
            });
        }
        Ok(Way {
            module: next,
            place,
        })
    }

    #[tactic(auto, unfolding(crate::specs::Finding::step))]
    /// The assignment of a module, or the way to the next.
    fn step<'n>(&self, way: Way, name: &'n str) -> Result<Step, NameError<'n>>
    where
        't: 'n,
        requires { way.«module» < length (modules_in self.now) }
        ensures answer { answer_of result ≡ step (modules_in self.now) name.now way }
        ensures within { IfOk result (IsStepWithin (modules_in self.now)) }
    {
        if let Some(assignment) = self.own(way.module, name)? {
            return Ok(Step::Here(Found {
                module: way.module,
                assignment,
            }));
        }
        let import = self.import_of_name(way, name)?;
        let next = self.through(way.module, import, name)?;
        Ok(Step::On(next))
    }

    /// From one module to the next, in as many as there are.
    fn follow<'n>(&self, start: Way, name: &'n str) -> Result<Found, NameError<'n>>
    where
        't: 'n,
        requires { start.«module» < length (modules_in self.now) }
        ensures answer { answer_of result ≡ follow (modules_in self.now) name.now (length (modules_in self.now)) start }
        ensures within { IfOk result (IsWithin (modules_in self.now)) }
    {
        let mut way = start;
        for turn in 0..self.modules().len() {
            match self.step(way, name)? {
                Step::Here(found) => return Ok(found),
                Step::On(next) => way = next,
            }
        }
        Err(NameError {
            why: Why::Circular,
            name,
            place: Some(way.place),
        })
    }
}
