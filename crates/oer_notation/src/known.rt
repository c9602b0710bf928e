//! Definitions, and the types that they gave their Names.
ghost use Rattle.std.specs.Prelude.{◌≡◌, ◌++◌, ◌∷◌, [], IfOk, None, OnOk, false, is_some, option_map, string_bytes, true};
ghost use Rattle.oer_types.specs.Schema.{the_type};
ghost use Rattle.oer_notation.specs.Defining.{with_known};
ghost use Rattle.oer_notation.specs.Reading.{find};
ghost use Rattle.oer_notation.specs.Views.{HasAllTypes, LacksOneType, given, known_by, next_name, shared_type};

use crate::names::Names;
use oer_types::Schema;
use std::alloc::{AllocError, Global};
use std::sync::Arc;

/// Types and their Names, in the order of their definitions. While a type is read, its Name stands
/// behind the others and has none.
#[derive(Drop)]
pub struct Definitions {
    pub names: Names,
    pub types: Vec<Arc<Schema>>,
}

/// No definitions, which take no memory.
#[tactic(auto, unfolding(crate::specs::Views::known_by))]
pub fn none(alloc: Global) -> Definitions
    ensures known { known_by result ≡ [] }
    ensures whole { HasAllTypes result }
{
    Definitions {
        names: Names::new(alloc),
        types: Vec::new(alloc),
    }
}

/// What has the type that a definition gave the Name.
pub fn find_shared<'d>(types: &'d Definitions, name: &str) -> Option<&'d Arc<Schema>>
    ensures { option_map (λ s. shared_type s.now) result ≡ find (known_by types.now) name.now }
{
    let place = types.names.place(name)?;
    types.types.get(place)
}

/// The type that a definition gave the Name.
pub fn find<'d>(types: &'d Definitions, name: &str) -> Option<&'d Schema>
    ensures { option_map (λ s. the_type s.now) result ≡ find (known_by types.now) name.now }
{
    match find_shared(types, name) {
        Some(schema) => Some(schema),
        None => None,
    }
}

#[tactic(auto, unfolding(crate::specs::Views::known_by), using(crate::proofs::Finding::together_named, crate::proofs::Finding::name_past_all, crate::proofs::Finding::some_found, crate::proofs::Finding::none_found))]
/// The Name of the next definition, whose type is yet to be added. It answers whether the Name had none.
pub fn add_name(types: &mut Definitions, name: String) -> Result<bool, AllocError>
    requires { HasAllTypes types.old }
    ensures new { IfOk result (λ is_new. is_new ≡ true → find (known_by types.old) (string_bytes name) ≡ None) }
    ensures known { IfOk result (λ is_new. is_new ≡ false → is_some (find (known_by types.old) (string_bytes name)) ≡ true) }
    ensures next { IfOk result (λ is_new. is_new ≡ true → (next_name types.new ≡ string_bytes name) × LacksOneType types.new) }
    ensures whole { IfOk result (λ is_new. is_new ≡ false → HasAllTypes types.new) }
    ensures same { OnOk result (known_by types.new ≡ known_by types.old) }
{
    types.names.add(name)
}

#[tactic(auto, unfolding(crate::specs::Views::known_by), using(crate::proofs::Finding::together_typed))]
/// The type of the last Name.
pub fn add_type(types: &mut Definitions, schema: Arc<Schema>) -> Result<(), AllocError>
    requires { LacksOneType types.old }
    ensures known { OnOk result (known_by types.new ≡ known_by types.old ++ given types.old schema ∷ []) }
    ensures whole { OnOk result (HasAllTypes types.new) }
{
    types.types.push(schema)?;
    Ok(())
}

/// A definition more, if its Name has no type yet.
pub fn define(
    alloc: Global,
    types: &mut Definitions,
    name: String,
    schema: Schema,
) -> Result<(), AllocError>
    requires { HasAllTypes types.old }
    ensures known { OnOk result (known_by types.new ≡ with_known (known_by types.old) (record { name = string_bytes name; type = the_type schema })) }
    ensures whole { OnOk result (HasAllTypes types.new) }
{
    let schema = Arc::new(alloc, schema)?;
    if !add_name(types, name)? {
        return Ok(());
    }
    add_type(types, schema)
}
