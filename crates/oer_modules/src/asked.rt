//! The type that is asked for.
ghost use Rattle.std.specs.Prelude.{◌≡◌, IfOk};
ghost use Rattle.oer_module_names.specs.Views.{IsWithin, answer_of, modules_in};
ghost use Rattle.oer_module_text.specs.Errors.{seen};
ghost use Rattle.oer_module_values.specs.Views.{type_in};
ghost use Rattle.std.specs.Prelude.{◌<◌, length};
ghost use Rattle.oer_modules.specs.Asked.{asked, type_at};

use oer_module_names::{Found, NameError, Names, Place};
use oer_module_syntax::Body;
use oer_module_text::{Error, Part, Why, refused};
use oer_module_values::TypeIn;

/// What is asked for: `Module.Name` is what the Name stands for in that module, and a Name alone is the one assignment
/// of it in all modules.
#[tactic(auto, unfolding(crate::specs::Asked::asked))]
pub fn asked<'n, 't>(names: &Names<'_, '_, 't>, name: &'n str) -> Result<Found, NameError<'n>>
where
    't: 'n,
    ensures answer { answer_of result ≡ asked (modules_in names.now) name.now }
    ensures within { IfOk result (IsWithin (modules_in names.now)) }
{
    match name.split_once('.') {
        Some((of, name)) => {
            let module = names.find_module(of)?;
            names.find(module, name)
        }
        None => names.find_anywhere(name),
    }
}

/// The type that an assignment gives its name. NotAType, if it gives none; else Parameters, if it has some.
#[tactic(auto, unfolding(crate::specs::Asked::type_at))]
pub fn type_at<'m, 's, 't>(
    names: &Names<'m, 's, 't>,
    found: Found,
) -> Result<TypeIn<'m, 's, 't>, Error<'t>>
    requires { IsWithin (modules_in names.now) found }
    ensures value { seen type_in result ≡ type_at (modules_in names.now) found }
    ensures within { IfOk result (λ t. t.«module» < length (modules_in names.now)) }
{
    let assignment = names.assignment(found);
    let Body::Type(syntax) = &assignment.body else {
        return Err(Error {
            place: Place {
                module: found.module,
                at: assignment.at,
            },
            why: Why::Unresolved(oer_module_values::Why::NotAType),
        });
    };
    if !assignment.parameters.is_empty() {
        return Err(refused(found.module, assignment.at, Part::Parameters));
    }
    Ok(TypeIn {
        module: found.module,
        syntax,
    })
}
