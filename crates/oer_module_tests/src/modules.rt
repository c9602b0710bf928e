//! Sizes of lists, and values of enumerations as numbers, for which the programs don't ask.
ghost use Rattle.std.specs.Prelude.{◌<◌, IfSome, length};
ghost use Rattle.oer_module_names.specs.Views.{modules_in};

use oer_module_lexer::{Tokens, lex};
use oer_module_limits::size_limits;
use oer_module_names::{Names, Place};
use oer_module_syntax::{Body, Cursor, Module, read_modules};
use oer_module_terms::Amount;
use oer_module_values::{TypeIn, number};
use std::alloc::Global;
use std::test::Fail;

const TEXT: &str =
    "M DEFINITIONS ::= BEGIN A ::= SEQUENCE (SIZE(0..9)) OF NULL B ::= SET SIZE(1..4) OF NULL\n\
    C ::= SEQUENCE OF NULL Color ::= ENUMERATED {red, green(5)} END";

fn modules_of<'s, 't>(at: Global, tokens: &'s Tokens<'t>) -> Result<Vec<Module<'s, 't>>, Fail> {
    match read_modules(at, &mut Cursor::new(tokens), 3) {
        Ok(modules) => Ok(modules),
        Err(_) => Err(Fail::new("unread")),
    }
}

/// The type of a name, and its module.
fn type_named<'m, 's, 't>(names: &Names<'m, 's, 't>, name: &str) -> Option<TypeIn<'m, 's, 't>>
    ensures { IfSome result (λ t. t.«module» < length (modules_in names.now)) }
{
    let Ok(found) = names.find_anywhere(name) else {
        return None;
    };
    match &names.assignment(found).body {
        Body::Type(syntax) => Some(TypeIn {
            module: found.module,
            syntax,
        }),
        _ => None,
    }
}

fn has_sizes(
    at: Global,
    names: &Names<'_, '_, '_>,
    name: &str,
    low: Option<i128>,
    high: Option<i128>,
) -> Result<(), Fail> {
    let Some(of) = type_named(names, name) else {
        return Err(Fail::new(name));
    };
    match size_limits(at, names, of) {
        Ok(range) if range.low() == low && range.high() == high => Ok(()),
        _ => Err(Fail::new(name)),
    }
}

fn has_number<'m, 's, 't>(
    at: Global,
    names: &Names<'m, 's, 't>,
    amount: Amount<'s, 't>,
    want: i128,
) -> Result<(), Fail> {
    let Some(of) = type_named(names, "Color") else {
        return Err(Fail::new("Color"));
    };
    let place = Place {
        module: of.module,
        at: 0,
    };
    match number(at, names, of, place, amount) {
        Ok(found) if found == want => Ok(()),
        _ => Err(Fail::new("number")),
    }
}

#[test]
fn sizes_and_numbers(rt: HostRuntime) -> Result<(), Fail> {
    let at = rt.alloc();
    let tokens = lex(at, TEXT)?;
    let modules = modules_of(at, &tokens)?;
    let names = Names::new(at, &modules)?;
    has_sizes(at, &names, "A", Some(0), Some(9))?;
    has_sizes(at, &names, "B", Some(1), Some(4))?;
    has_sizes(at, &names, "C", None, None)?;
    let green = Amount::Named {
        name: "green",
        path: &tokens.spots[..0],
    };
    has_number(at, &names, green, 5)
}
