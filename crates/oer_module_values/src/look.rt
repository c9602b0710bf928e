//! Where a type stands, and what the steps behind a name are.
ghost use Rattle.std.specs.Prelude.{◌≡◌};
ghost use Rattle.oer_module_lexer.specs.Token.{spots_of, token_of};
ghost use Rattle.oer_module_syntax.specs.Tree.{tree_of};
ghost use Rattle.oer_module_values.specs.Looks.{path_by, path_of, path_seen, place_of};

use oer_module_lexer::{Sign, Spot, Token};
use oer_module_syntax::TypeSyntax;

/// What stands behind a name.
#[derive(Clone, Copy)]
pub enum Path<'t> {
    /// Nothing: the name is one of this module or an import.
    Own,
    /// A name of the module that is named before it (X.680, 14.1 and 14.2).
    Within(&'t str),
    /// Fields of a class or an object (X.681, 14 and 15).
    Fields,
}

/// The path of two steps.
fn path_by<'t>(first: Token<'t>, second: Token<'t>) -> Path<'t>
    ensures { path_seen result ≡ path_by (token_of first.entry) (token_of second.entry) }
{
    match (first, second) {
        (Token::Sign(Sign::Point), Token::Word(name)) => Path::Within(name),
        _ => Path::Fields,
    }
}

/// What the steps behind a name are.
pub fn path_of<'t>(steps: &[Spot<'t>]) -> Path<'t>
    ensures { path_seen result ≡ path_of (spots_of steps.now) }
{
    match steps {
        [] => Path::Own,
        [first, second] => path_by(first.token, second.token),
        _ => Path::Fields,
    }
}

/// The byte at which a type begins.
#[tactic(auto, using(oer_module_syntax::proofs::Trees::trees))]
pub fn place_of(syntax: &TypeSyntax<'_, '_>) -> usize
    ensures { result ≡ place_of (tree_of syntax.now) }
{
    match syntax {
        TypeSyntax::Plain { at, .. }
        | TypeSyntax::Named { at, .. }
        | TypeSyntax::Tagged { at, .. }
        | TypeSyntax::Structure { at, .. }
        | TypeSyntax::ListOf { at, .. }
        | TypeSyntax::Selection { at, .. }
        | TypeSyntax::InstanceOf { at, .. }
        | TypeSyntax::AnyDefinedBy { at, .. } => *at,
    }
}
