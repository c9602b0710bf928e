//! The well-formed type that a name has in modules.
ghost use Rattle.std.specs.Prelude.{◌≡◌, Some, map};
ghost use Rattle.oer_model.specs.FaultTest.{first_fault as spec_first_fault};
ghost use Rattle.oer_module_lexer.specs.Lexing.{lex};
ghost use Rattle.oer_module_names.specs.Views.{IsWithin, modules_in};
ghost use Rattle.oer_values.specs.ShapeView.{type_of};
ghost use Rattle.oer_modules.specs.Causes.{IsGiven};
ghost use Rattle.oer_modules.specs.Places.{lexed_of};
ghost use Rattle.oer_modules.specs.Schemas.{GivesType, IsMemory, name_place, no_type_of, no_type_words, placed_type, schema_of_modules, sound_by};
ghost use Rattle.oer_modules.specs.Texts.{library_of};

use crate::asked::{asked, type_at};
use crate::cause::Cause;
use crate::nesting::typed_by;
use crate::refusal::{Refusal, point_place, refuse, unreadable};
use crate::rejection::Rejection;
use crate::texts::{Library, lex_each, read_each};
use oer_module_lexer::Tokens;
use oer_module_names::{Found, Names, Place};
use oer_text::TextWhy;
use oer_types::Schema;
use oer_types::laws::first_fault;
use oer_values::Shape;
use std::alloc::{AllocError, Global};
use std::fmt;

/// Why modules give no type. It displays as one line.
#[derive(Clone, Copy)]
pub enum NoType<'t> {
    /// The modules can't be read, the Name stands for no type, or a part of it isn't taken; or an allocation failed.
    Refused(Refusal<'t>),
    /// The type isn't well-formed.
    Rejected(Rejection<'t>),
}

impl fmt::Display for NoType<'_> {
    ghost output = { λ none. Some (no_type_words (no_type_of none)) };

    fn fmt<W: fmt::Write>(&self, f: &mut fmt::Formatter<W>) -> fmt::Result {
        match self {
            NoType::Refused(refusal) => write!(f, "{refusal}"),
            NoType::Rejected(rejection) => write!(f, "{rejection}"),
        }
    }
}

impl<'t> From<AllocError> for NoType<'t> {
    ghost from_gives = { λ _ none. IsMemory none };

    fn from(error: AllocError) -> NoType<'t> {
        NoType::Refused(Refusal::from(error))
    }
}

/// A type, and where its Name is assigned.
#[derive(Drop)]
struct Placed {
    place: Place,
    shape: Shape,
}

/// Where a Name is assigned.
#[tactic(auto, unfolding(crate::specs::Schemas::name_place))]
fn name_place(names: &Names<'_, '_, '_>, found: Found) -> Place
    requires { IsWithin (modules_in names.now) found }
    ensures { result ≡ name_place (modules_in names.now) found }
{
    let assignment = names.assignment(found);
    Place {
        module: found.module,
        at: assignment.at,
    }
}

/// The type that a name has, well-formed or not.
#[tactic(auto, unfolding(crate::specs::Schemas::placed_type))]
fn placed_type<'n, 't>(
    alloc: Global,
    names: &Names<'_, '_, 't>,
    name: &'n str,
    nesting: u8,
) -> Result<Placed, Cause<'n>>
where
    't: 'n,
    ensures { IsGiven (λ p. (p.place, type_of p.shape)) result (placed_type (modules_in names.now) name.now nesting) }
{
    let found = asked(names, name)?;
    let of = type_at(names, found)?;
    let typed = typed_by(alloc, names, nesting, of)?;
    Ok(Placed {
        place: name_place(names, found),
        shape: typed.shape,
    })
}

/// The type, if it is well-formed.
fn sound<'t>(
    texts: &[&'t str],
    tokens: &[Tokens<'t>],
    library: &Library<'_, 't>,
    placed: Placed,
) -> Result<Schema, NoType<'t>>
    requires { map lexed_of tokens.now ≡ map (λ t. lex t.now) texts.now }
    ensures { GivesType result (sound_by (map (λ t. t.now) texts.now) (library_of library.now) placed.place (type_of placed.shape)
        (spec_first_fault (type_of placed.shape))) }
{
    first_fault();
    match Schema::new(placed.shape) {
        Ok(schema) => Ok(schema),
        Err((fault, _)) => {
            let point = point_place(texts, tokens, &[], &library.homes, placed.place);
            let why = TextWhy::Schema(fault);
            Err(NoType::Rejected(Rejection { point, why }))
        }
    }
}

/// The well-formed type that the name has in these texts of modules (X.680), whose text `type_of_modules` gives.
///
/// # Errors
/// Those of `type_of_modules`; then Rejected, where the Name is assigned, with the least fault of the type.
#[tactic(auto, unfolding(crate::specs::Schemas::schema_of_modules))]
pub fn schema_of_modules<'t>(
    alloc: Global,
    texts: &[&'t str],
    name: &'t str,
    nesting: u8,
) -> Result<Schema, NoType<'t>>
    ensures { GivesType result (schema_of_modules (map (λ t. t.now) texts.now) name.now nesting) }
{
    let tokens = lex_each(alloc, texts)?;
    let library = match read_each(alloc, &tokens) {
        Ok(library) => library,
        Err(error) => return Err(NoType::Refused(unreadable(texts, &tokens, error))),
    };
    let names = Names::new(alloc, &library.modules)?;
    match placed_type(alloc, &names, name, nesting) {
        Ok(placed) => sound(texts, &tokens, &library, placed),
        Err(cause) => Err(NoType::Refused(refuse(texts, &tokens, &[], &library, cause))),
    }
}
