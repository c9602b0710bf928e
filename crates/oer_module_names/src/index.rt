//! Names and their numbers, found by the order of the Names.
ghost use Rattle.std.specs.Prelude.{◌≡◌, ℕ, List, [], ◌++◌, ◌∷◌, IfOk, OnOk, map};
ghost use Rattle.oer_module_names.specs.Sole.{each, numbered, first_of, is_there, with_number};
ghost use Rattle.oer_module_names.specs.Indexed.{IsIndexOf, Extends, held};

use std::alloc::{AllocError, Global};
use std::collections::BTreeMap;

/// The number of a Name that has but one.
#[derive(Clone, Copy)]
pub enum Sole {
    Nothing,
    One(usize),
    /// The first two that differ.
    Two(usize, usize),
}

impl Sole {
    /// One number more.
    pub fn with_number(self, number: usize) -> Sole
        ensures { result ≡ with_number self number }
    {
        match self {
            Sole::Nothing => Sole::One(number),
            Sole::One(first) if first == number => Sole::One(first),
            Sole::One(first) => Sole::Two(first, number),
            Sole::Two(first, second) => Sole::Two(first, second),
        }
    }

    /// The first number, or this one where there is none.
    pub fn first_of(self, number: usize) -> usize
        ensures { result ≡ first_of self number }
    {
        match self {
            Sole::Nothing => number,
            Sole::One(first) | Sole::Two(first, _) => first,
        }
    }

    pub fn is_there(self) -> bool
        ensures { result ≡ is_there self }
    {
        !matches!(self, Sole::Nothing)
    }
}

/// Names with the numbers that they were given.
#[derive(Drop)]
pub struct Index<'t> {
    pub slots: BTreeMap<&'t str, Sole>,
}

impl<'t> Index<'t> {
    /// No Names, which take no memory.
    pub fn new(alloc: Global) -> Index<'t>
        ensures { IsIndexOf result [] }
    {
        Index {
            slots: BTreeMap::new(alloc),
        }
    }

    #[tactic(auto, unfolding(crate::specs::Indexed::held))]
    /// What the Name has.
    pub fn get(&self, name: &str) -> Sole
        ensures { result ≡ held self.now name.now }
    {
        match self.slots.get(name) {
            Some(numbers) => *numbers,
            None => Sole::Nothing,
        }
    }

    /// Gives the Name one number more.
    pub fn add(&mut self, name: &'t str, number: usize) -> Result<(), AllocError>
        ensures { OnOk result (Extends self.old (record { name = name.now; number = number } ∷ []) self.new) }
    {
        let numbers = self.get(name).with_number(number);
        self.slots.insert(name, numbers)?;
        Ok(())
    }

    /// Gives each of the Names this number.
    pub fn add_each(&mut self, names: &[&'t str], number: usize) -> Result<(), AllocError>
        ensures { OnOk result (Extends self.old (each (map (λ w. w.now) names.now) number) self.new) }
    {
        for name in names {
            self.add(*name, number)?;
        }
        Ok(())
    }

    /// Names with their places among them.
    pub fn numbered(alloc: Global, names: &[&'t str]) -> Result<Index<'t>, AllocError>
        ensures { IfOk result (λ x. IsIndexOf x (numbered 0 (map (λ w. w.now) names.now))) }
    {
        let mut index = Index::new(alloc);
        for (place, name) in names.iter().enumerate() {
            index.add(*name, place)?;
        }
        Ok(index)
    }
}
