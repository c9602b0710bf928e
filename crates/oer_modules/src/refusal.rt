//! Why modules give no text, in words.
ghost use Rattle.std.specs.Prelude.{◌≡◌, Some, map, option_map};
ghost use Rattle.std.specs.Fmt.{WritesOnOk};
ghost use Rattle.oer_module_lexer.specs.Lexing.{lex};
ghost use Rattle.oer_module_lexer.specs.Token.{token_of};
ghost use Rattle.oer_module_syntax.specs.Tree.{module_of};
ghost use Rattle.oer_module_syntax.specs.declared.fault.Why.TheVariants as fault;
ghost use Rattle.oer_module_values.specs.Errors.{why_of as told_of};
ghost use Rattle.oer_module_values.specs.declared.error.Why.TheVariants as told;
ghost use Rattle.oer_module_text.specs.Errors.{why_of};
ghost use Rattle.oer_module_text.specs.declared.error.Why.TheVariants.{Unresolved};
ghost use Rattle.oer_modules.specs.Causes.{cause_of};
ghost use Rattle.oer_modules.specs.Marks.{AreMarked};
ghost use Rattle.oer_modules.specs.Places.{lexed_of, point_of};
ghost use Rattle.oer_modules.specs.Refusals.{both_names, name_at, point_place, refusal_of, refuse, unreadable};
ghost use Rattle.oer_modules.specs.Texts.{library_of};
ghost use Rattle.oer_modules.specs.Words.{both_words, fault_words, missing_words, name_words, plain, reason_words, reference_words, refusal_words, token_in, with_token};

use crate::cause::{Cause, MEMORY};
use crate::marks::Marks;
use crate::place::{Before, Point, point_at};
use crate::texts::{Library, Misread};
use crate::words::{At, Found, Plain, Seek, limit_words, part_words, told_words};
use oer_module_lexer::{Token, Tokens};
use oer_module_names::{NameError, Place};
use oer_module_syntax::Module;
use oer_module_text::Why;
use std::alloc::AllocError;
use std::fmt;

/// Why modules give no text. It displays as one line of printable characters of ASCII, at most some 200 of them:
/// `text 1, line 12, column 5: expected a type, found "}"`.
#[derive(Clone, Copy)]
pub struct Refusal<'t> {
    pub why: Why<'t>,
    /// Where this shows. There is none where the reason is all that was asked for, as a Name that no module has, and
    /// where an allocation failed.
    pub point: Option<Point<'t>>,
    /// The names of the first two modules that assign the Name, where that is the reason.
    pub modules: Option<(&'t str, &'t str)>,
}

impl<'t> From<AllocError> for Refusal<'t> {
    ghost from_gives = { λ _ r. r.why ≡ Unresolved (told.Unread fault.Memory) };

    fn from(_: AllocError) -> Refusal<'t> {
        Refusal {
            why: MEMORY,
            point: None,
            modules: None,
        }
    }
}

fn name_at<'t>(modules: &[Module<'_, 't>], module: usize) -> &'t str
    ensures { result.now ≡ name_at (map module_of modules.now) «module» }
{
    if module < modules.len() {
        modules[module].name
    } else {
        ""
    }
}

/// The names of the first two modules that assign the Name, where that is the reason.
fn both_names<'t>(modules: &[Module<'_, 't>], why: Why<'t>) -> Option<(&'t str, &'t str)>
    ensures { option_map (λ x. (x.0.now, x.1.now)) result ≡ both_names (map module_of modules.now) (why_of why.entry) }
{
    match why {
        Why::Unresolved(
            oer_module_values::Why::Unnamed(
                NameError {
                    why: oer_module_names::Why::InTwoModules { first, second },
                    ..
                },
            ),
        ) => Some((name_at(modules, first), name_at(modules, second))),
        _ => None,
    }
}

/// What is refused of a text that can't be read.
pub fn unreadable<'t>(texts: &[&'t str], tokens: &[Tokens<'t>], error: Misread) -> Refusal<'t>
    requires { map lexed_of tokens.now ≡ map (λ t. lex t.now) texts.now }
    ensures value { refusal_of result ≡ unreadable (map (λ t. t.now) texts.now) error }
    ensures why { result.why ≡ Unresolved (told.Unread error.fault.why) }
{
    Refusal {
        why: Why::Unresolved(oer_module_values::Why::Unread(error.fault.why)),
        point: point_at(texts, tokens, &[], error.text, error.fault.at),
        modules: None,
    }
}

/// A place in a module, as one in its text.
pub fn point_place<'t>(
    texts: &[&'t str],
    tokens: &[Tokens<'t>],
    marks: &[Marks],
    homes: &[usize],
    place: Place,
) -> Option<Point<'t>>
    requires lexed { map lexed_of tokens.now ≡ map (λ t. lex t.now) texts.now }
    requires marked { AreMarked (map (λ t. t.now) texts.now) marks.now }
    ensures { option_map point_of result ≡ point_place (map (λ t. t.now) texts.now) homes.now place }
{
    if place.module >= homes.len() {
        return None;
    }
    point_at(texts, tokens, marks, homes[place.module], place.at)
}

/// What is refused of modules that could be read. Where much of them is refused, marks save time.
pub fn refuse<'t>(
    texts: &[&'t str],
    tokens: &[Tokens<'t>],
    marks: &[Marks],
    library: &Library<'_, 't>,
    cause: Cause<'t>,
) -> Refusal<'t>
    requires lexed { map lexed_of tokens.now ≡ map (λ t. lex t.now) texts.now }
    requires marked { AreMarked (map (λ t. t.now) texts.now) marks.now }
    ensures value { refusal_of result ≡ refuse (map (λ t. t.now) texts.now) (library_of library.now) (cause_of cause.entry) }
    ensures why { result.why ≡ cause.entry.why }
{
    let point = match cause.place {
        Some(place) => point_place(texts, tokens, marks, &library.homes, place),
        None => None,
    };
    Refusal {
        why: cause.why,
        point,
        modules: both_names(&library.modules, cause.why),
    }
}

impl<'t> Refusal<'t> {
    fn show_missing<W: fmt::Write>(&self, f: &mut fmt::Formatter<W>, name: Plain<'t>) -> fmt::Result
        ensures { WritesOnOk W.write_str_gives f.old result (missing_words (plain name.entry.0.now) (option_map point_of self.now.point)) f.new }
    {
        match self.point {
            Some(_) => write!(f, "{name} is neither assigned nor imported here"),
            None => write!(f, "no module assigns {name}"),
        }
    }

    fn show_both<W: fmt::Write>(&self, f: &mut fmt::Formatter<W>, name: Plain<'t>) -> fmt::Result
        ensures { WritesOnOk W.write_str_gives f.old result (both_words (plain name.entry.0.now) (option_map (λ x. (x.0.now, x.1.now)) self.now.modules)) f.new }
    {
        match self.modules {
            Some((first, second)) => {
                let first = Plain(first);
                let second = Plain(second);
                write!(f, "two modules assign {name}: {first} and {second}")
            }
            None => write!(f, "two modules assign {name}"),
        }
    }

    fn show_name<W: fmt::Write>(
        &self,
        f: &mut fmt::Formatter<W>,
        error: NameError<'t>,
    ) -> fmt::Result
        ensures { WritesOnOk W.write_str_gives f.old result (name_words (refusal_of self.now) error.entry.why (plain error.entry.name.now)) f.new }
    {
        let name = Plain(error.name);
        match error.why {
            oer_module_names::Why::Missing => self.show_missing(f, name),
            oer_module_names::Why::NoModule => write!(f, "no module has the name {name}"),
            oer_module_names::Why::NotImported => {
                write!(f, "nothing is imported from {name} here")
            }
            oer_module_names::Why::OtherVersion => {
                write!(f, "the import asks for another version of {name}")
            }
            oer_module_names::Why::NotExported => write!(f, "the module doesn't export {name}"),
            oer_module_names::Why::Circular => write!(f, "the imports of {name} go round"),
            oer_module_names::Why::AssignedTwice { .. } => {
                write!(f, "the module assigns {name} twice")
            }
            oer_module_names::Why::ImportedTwice { .. } => {
                write!(f, "{name} is imported from two modules")
            }
            oer_module_names::Why::ModuleTwice { .. } => {
                write!(f, "two modules have the name {name}")
            }
            oer_module_names::Why::InTwoModules { .. } => self.show_both(f, name),
        }
    }

    /// The token at the place, if there is one.
    fn token(&self) -> Option<Token<'t>>
        ensures { option_map token_of result ≡ token_in (option_map point_of self.now.point) }
    {
        match self.point {
            Some(point) => point.token,
            None => None,
        }
    }

    /// A reason that has words of its own, and the token that shows it.
    fn show_words<W: fmt::Write>(&self, f: &mut fmt::Formatter<W>, words: &str) -> fmt::Result
        ensures { WritesOnOk W.write_str_gives f.old result (with_token (refusal_of self.now) words.now) f.new }
    {
        let at = At(self.token());
        write!(f, "{words}{at}")
    }

    fn show_fault<W: fmt::Write>(
        &self,
        f: &mut fmt::Formatter<W>,
        why: oer_module_syntax::Why,
    ) -> fmt::Result
        ensures { WritesOnOk W.write_str_gives f.old result (fault_words (refusal_of self.now) why) f.new }
    {
        match why {
            oer_module_syntax::Why::Memory => f.write_str("out of memory"),
            oer_module_syntax::Why::Token => {
                f.write_str("no token begins here, or it has no end")
            }
            oer_module_syntax::Why::TooDeep => self.show_words(f, "types or values nest too deep"),
            oer_module_syntax::Why::Expected(sought) => {
                let seek = Seek(sought);
                let found = Found(self.token());
                write!(f, "expected {seek}, found {found}")
            }
        }
    }

    fn show_reference<W: fmt::Write>(
        &self,
        f: &mut fmt::Formatter<W>,
        why: oer_module_values::Why<'t>,
    ) -> fmt::Result
        ensures { WritesOnOk W.write_str_gives f.old result (reference_words (refusal_of self.now) (told_of why.entry)) f.new }
    {
        match why {
            oer_module_values::Why::Unread(why) => self.show_fault(f, why),
            oer_module_values::Why::Unnamed(error) => self.show_name(f, error),
            why => self.show_words(f, told_words(why)),
        }
    }

    fn show_why<W: fmt::Write>(&self, f: &mut fmt::Formatter<W>) -> fmt::Result
        ensures { WritesOnOk W.write_str_gives f.old result (reason_words (refusal_of self.now) (why_of self.now.why)) f.new }
    {
        match self.why {
            Why::Unresolved(why) => self.show_reference(f, why),
            Why::Unlimited(why) => self.show_words(f, limit_words(why)),
            Why::NotTaken(part) => self.show_words(f, part_words(part)),
            Why::Misnumbered => self.show_words(
                f,
                "this item's number is taken, or below one before it, or too large",
            ),
            Why::TagNumber => self.show_words(
                f,
                "the number of a tag isn't between 0 and 4294967295",
            ),
            Why::NoSuchValue => self.show_words(f, "the default is no value of the type"),
            Why::TooDeep => self.show_words(f, "the type nests deeper than 32 levels"),
            Why::TooManyParts => self.show_words(f, "the type has more than 4096 parts"),
            Why::TooLong => self.show_words(f, "the text of the type is too long"),
            Why::TooWide => self.show_words(
                f,
                "the size or the number of an item is larger than our types have",
            ),
        }
    }
}

impl fmt::Display for Refusal<'_> {
    ghost output = { λ refusal. Some (refusal_words (refusal_of refusal)) };

    fn fmt<W: fmt::Write>(&self, f: &mut fmt::Formatter<W>) -> fmt::Result {
        let place = Before(self.point);
        write!(f, "{place}")?;
        self.show_why(f)
    }
}

impl fmt::Debug for Refusal<'_> {
    fn fmt<W: fmt::Write>(&self, f: &mut fmt::Formatter<W>) -> fmt::Result {
        write!(f, "{self}")
    }
}

impl std::error::Error for Refusal<'_> {}
