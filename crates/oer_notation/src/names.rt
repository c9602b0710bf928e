//! Names in the order of a text.
ghost use Rattle.std.specs.Prelude.{◌≡◌, ◌<◌, IfOk, IfSome, IsSome, List, OnErr, ℕ, false, length, map, string_bytes, true};
ghost use Rattle.std.specs.BTreeMap.{IsUnchanged, btree_map_len, get, get_by_text, values};
ghost use Rattle.std.specs.List.{All};
ghost use Rattle.std.specs.String.{string_cmp};
ghost use Rattle.std.proofs.Props.{props};
ghost use Rattle.oer_notation.specs.Places.{IsGrown, names_in, place_in};

use std::alloc::{AllocError, Global};
use std::collections::BTreeMap;
use std::collections::btree_map::Entry;

/// How many Names are found by their order. The map has room for twice as many.
const MOST_SORTED: usize = 68_719_476_736;

/// Names, each with its place. Those behind the most that are found by their order are looked through.
#[derive(Drop)]
pub struct Names {
    pub places: BTreeMap<String, usize>,
    pub others: Vec<String>,
    ghost below: { All (λ n. n < btree_map_len places) (values places) },
    ghost exact: { (w : List ℕ) → get_by_text places w ≡ place_in (names_in places) w } by { Prim.hlevel props },
}

/// The first place of the Name.
fn place_among(names: &[String], name: &str) -> Option<usize>
    ensures found { result ≡ place_in (map string_bytes names.now) name.now }
    ensures below { IfSome result (λ place. place < length names.now) }
{
    for place in 0..names.len() {
        if names[place].as_str() == name {
            return Some(place);
        }
    }
    None
}

/// Gives the Name the next place, and answers whether it had none. It is looked for once.
fn add_sorted(places: &mut BTreeMap<String, usize>, name: String) -> Result<bool, AllocError>
    ensures new { IfOk result (λ is_new. is_new ≡ true → IsGrown places.old places.new name) }
    ensures known { IfOk result (λ is_new. is_new ≡ false → IsSome (get string_cmp places.old name) × IsUnchanged places.old places.new) }
    ensures err { OnErr result (IsUnchanged places.old places.new) }
{
    let place = places.len();
    match places.entry(name)? {
        Entry::Vacant(entry) => {
            entry.insert(place);
            Ok(true)
        }
        Entry::Occupied(_) => Ok(false),
    }
}

impl Names {
    ghost use Rattle.std.specs.Prelude.{◌≡◌, ◌+◌, IfOk, [], map, option_map, string_bytes};
    ghost use Rattle.std.specs.BTreeMap.{btree_map_len};
    ghost use Rattle.oer_notation.specs.Places.{IsAdded, place_in};
    ghost use Rattle.oer_notation.specs.Views.{names_of};

    /// No Names, which take no memory.
    pub fn new(alloc: Global) -> Names
        ensures { names_of result ≡ [] }
    {
        Names {
            places: BTreeMap::new(alloc),
            others: Vec::new(alloc),
        }
    }

    /// The place of the Name.
    pub fn place(&self, name: &str) -> Option<usize>
        ensures { result ≡ place_in (names_of self.now) name.now }
    {
        match self.places.get(name) {
            Some(place) => Some(*place),
            None => self.other_place(name),
        }
    }

    /// The place of the Name, if it stands among those that are looked through.
    fn other_place(&self, name: &str) -> Option<usize>
        ensures { result ≡ option_map (λ k. btree_map_len self.now.places + k) (place_in (map string_bytes self.now.others.items) name.now) }
    {
        let place = place_among(&self.others, name)?;
        Some(self.places.len() + place)
    }

    /// Puts the Name behind the others, and answers whether it is new. One that is among them stays.
    pub fn add(&mut self, name: String) -> Result<bool, AllocError>
        ensures { IfOk result (λ is_new. IsAdded is_new (names_of self.old) (string_bytes name) (names_of self.new)) }
    {
        if !self.others.is_empty() || self.places.len() >= MOST_SORTED {
            return self.add_other(name);
        }
        add_sorted(&mut self.places, name)
    }

    /// The same of a Name that is then looked through.
    fn add_other(&mut self, name: String) -> Result<bool, AllocError>
        ensures { IfOk result (λ is_new. IsAdded is_new (names_of self.old) (string_bytes name) (names_of self.new)) }
    {
        if self.place(name.as_str()).is_some() {
            return Ok(false);
        }
        self.others.push(name)?;
        Ok(true)
    }
}
