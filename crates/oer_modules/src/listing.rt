//! All definitions of modules.
ghost use Rattle.std.specs.Prelude.{◌≡◌, ◌++◌, IfOk, OnOk, map, option_map, string_bytes};
ghost use Rattle.oer_module_lexer.specs.Lexing.{lex};
ghost use Rattle.oer_module_names.specs.Views.{modules_in};
ghost use Rattle.oer_module_syntax.specs.Tree.{assignment_of, module_of};
ghost use Rattle.oer_module_text.specs.Errors.{place_in};
ghost use Rattle.oer_module_types.specs.Views.{typed_of};
ghost use Rattle.oer_modules.specs.Causes.{IsGiven};
ghost use Rattle.oer_modules.specs.Listed.{as_comment, as_line, entries_from, entries_of, entry_by_type, entry_of, nothing, printed_after, printed_of, rejected_words, unspelled_words, with_entry};
ghost use Rattle.oer_modules.specs.Marks.{AreMarked};
ghost use Rattle.oer_modules.specs.Named.{is_memory, named_text, named_type};
ghost use Rattle.oer_modules.specs.Places.{lexed_of, point_of};
ghost use Rattle.oer_modules.specs.Refusals.{refusal_of};
ghost use Rattle.oer_modules.specs.Texts.{library_of};
ghost use Rattle.oer_modules.specs.Words.{refusal_words};

use crate::asked::{asked, type_at};
use crate::cause::Cause;
use crate::marks::Marks;
use crate::nesting::typed_by;
use crate::place::{Before, Point};
use crate::refusal::{Refusal, point_place, refuse};
use crate::rejection::Rejection;
use crate::texts::Library;
use crate::unlisted::{Unlisted, unlisted_in};
use oer_module_lexer::Tokens;
use oer_module_names::{Names, Place};
use oer_module_syntax::{Assignment, Body, Module};
use oer_module_text::Why;
use oer_module_types::Typed;
use std::alloc::{AllocError, Global};

/// The type that a name has, and its text.
#[tactic(auto, unfolding(crate::specs::Named::named_type))]
pub fn named_type<'n, 't>(
    alloc: Global,
    names: &Names<'_, '_, 't>,
    name: &'n str,
    nesting: u8,
) -> Result<Typed, Cause<'n>>
where
    't: 'n,
    ensures { IsGiven typed_of result (named_type (modules_in names.now) name.now nesting) }
{
    let found = asked(names, name)?;
    let of = type_at(names, found)?;
    let typed = typed_by(alloc, names, nesting, of)?;
    Ok(typed)
}

/// The text of the type that a name has.
#[tactic(auto, unfolding(crate::specs::Named::named_text))]
pub fn named_text<'n, 't>(
    alloc: Global,
    names: &Names<'_, '_, 't>,
    name: &'n str,
    nesting: u8,
) -> Result<String, Cause<'n>>
where
    't: 'n,
    ensures { IsGiven string_bytes result (named_text (modules_in names.now) name.now nesting) }
{
    let typed = named_type(alloc, names, name, nesting)?;
    Ok(typed.text)
}

/// Whether the reason is that an allocation failed.
pub fn is_memory(why: Why<'_>) -> bool
    ensures { result ≡ is_memory why.entry }
{
    matches!(
        why,
        Why::Unresolved(oer_module_values::Why::Unread(oer_module_syntax::Why::Memory))
    )
}

/// Texts, what was read of them, and how often a type that contains itself is written out.
#[derive(Clone, Copy)]
pub struct Sources<'a, 'b, 'c, 'd, 'm, 's, 't> {
    pub texts: &'a [&'t str],
    pub tokens: &'b [Tokens<'t>],
    pub marks: &'a [Marks],
    pub library: &'c Library<'s, 't>,
    pub names: &'d Names<'m, 's, 't>,
    pub nesting: u8,
}

/// The lines of the definitions that are well-formed types, and of those that are refused.
#[derive(Drop)]
pub struct Listing {
    pub taken: String,
    pub refused: String,
}

impl Listing {
    /// No lines.
    pub fn new(alloc: Global) -> Listing
        ensures { printed_of result ≡ nothing }
    {
        Listing {
            taken: String::new(alloc),
            refused: String::new(alloc),
        }
    }

    /// A definition whose text is that of a well-formed type.
    fn take(&mut self, name: &str, text: &str) -> Result<(), AllocError>
        ensures { OnOk result (printed_of self.new ≡ with_entry (printed_of self.old) (as_line name.now text.now)) }
    {
        self.taken.push_str(name)?;
        self.taken.push_str(" ::= ")?;
        self.taken.push_str(text)?;
        self.taken.push_str("\n")
    }

    /// A definition that has no text.
    fn refuse(&mut self, alloc: Global, name: &str, refusal: Refusal<'_>) -> Result<(), AllocError>
        ensures { OnOk result (printed_of self.new ≡ with_entry (printed_of self.old) (as_comment name.now (refusal_words (refusal_of refusal.entry)))) }
    {
        let line = format!(in alloc; "-- {name}: {refusal}\n")?;
        self.refused.push_str(line.as_str())
    }

    /// A definition whose text isn't that of a well-formed type.
    fn reject(
        &mut self,
        alloc: Global,
        name: &str,
        rejection: Rejection<'_>,
    ) -> Result<(), AllocError>
        ensures { OnOk result (printed_of self.new ≡ with_entry (printed_of self.old) (as_comment name.now (rejected_words (option_map point_of rejection.entry.point) rejection.entry.why))) }
    {
        let line = format!(in alloc; "-- {name}: {rejection}\n")?;
        self.refused.push_str(line.as_str())
    }

    /// A definition whose type has no text.
    fn leave_out(
        &mut self,
        alloc: Global,
        name: &str,
        point: Option<Point<'_>>,
    ) -> Result<(), AllocError>
        ensures { OnOk result (printed_of self.new ≡ with_entry (printed_of self.old) (as_comment name.now (unspelled_words (option_map point_of point.entry)))) }
    {
        let place = Before(point);
        let line = format!(in alloc; "-- {name}: {place}the notation has no text for the type\n")?;
        self.refused.push_str(line.as_str())
    }

    /// A definition in the module of this number, which has this type.
    fn add_type<'t>(
        &mut self,
        alloc: Global,
        sources: Sources<'_, '_, '_, '_, '_, '_, 't>,
        module: usize,
        assignment: &Assignment<'_, 't>,
        typed: Typed,
    ) -> Result<(), AllocError>
        requires lexed { map lexed_of sources.tokens.now ≡ map (λ t. lex t.now) sources.texts.now }
        requires marked { AreMarked (map (λ t. t.now) sources.texts.now) sources.marks.now }
        ensures { OnOk result (printed_of self.new ≡ with_entry (printed_of self.old)
            (entry_by_type (map (λ t. t.now) sources.entry.texts.now) (library_of sources.entry.library.now) (place_in «module» assignment.now.at) assignment.now.name.now (typed_of typed))) }
    {
        let Typed { text, shape } = typed;
        let Some(why) = unlisted_in(alloc, shape, text.as_str())? else {
            return self.take(assignment.name, text.as_str());
        };
        let place = Place {
            module,
            at: assignment.at,
        };
        let point = point_place(
            sources.texts,
            sources.tokens,
            sources.marks,
            &sources.library.homes,
            place,
        );
        match why {
            Unlisted::Rejected(why) => {
                self.reject(alloc, assignment.name, Rejection { point, why })
            }
            Unlisted::Unspelled => self.leave_out(alloc, assignment.name, point),
        }
    }

    /// A definition in the module of this number, if it is one of a type.
    fn add<'t>(
        &mut self,
        alloc: Global,
        sources: Sources<'_, '_, '_, '_, '_, '_, 't>,
        module: usize,
        assignment: &Assignment<'_, 't>,
    ) -> Result<(), AllocError>
        requires lexed { map lexed_of sources.tokens.now ≡ map (λ t. lex t.now) sources.texts.now }
        requires marked { AreMarked (map (λ t. t.now) sources.texts.now) sources.marks.now }
        ensures { OnOk result (printed_of self.new ≡ with_entry (printed_of self.old)
            (entry_of (map (λ t. t.now) sources.entry.texts.now) (library_of sources.entry.library.now) (modules_in sources.entry.names.now) sources.entry.nesting «module» (assignment_of «assignment».now))) }
    {
        let Body::Type(_) = &assignment.body else {
            return Ok(());
        };
        match named_type(alloc, sources.names, assignment.name, sources.nesting) {
            Ok(typed) => self.add_type(alloc, sources, module, assignment, typed),
            Err(cause) if is_memory(cause.why) => Err(AllocError),
            Err(cause) => {
                let refusal = refuse(
                    sources.texts,
                    sources.tokens,
                    sources.marks,
                    sources.library,
                    cause,
                );
                self.refuse(alloc, assignment.name, refusal)
            }
        }
    }

    /// The definitions of the module of this number.
    fn add_module<'t>(
        &mut self,
        alloc: Global,
        sources: Sources<'_, '_, '_, '_, '_, '_, 't>,
        number: usize,
        module: &Module<'_, 't>,
    ) -> Result<(), AllocError>
        requires lexed { map lexed_of sources.tokens.now ≡ map (λ t. lex t.now) sources.texts.now }
        requires marked { AreMarked (map (λ t. t.now) sources.texts.now) sources.marks.now }
        ensures { OnOk result (printed_of self.new ≡ printed_after (printed_of self.old)
            (entries_of (map (λ t. t.now) sources.entry.texts.now) (library_of sources.entry.library.now) (modules_in sources.entry.names.now) sources.entry.nesting number (module_of «module».now).assignments)) }
    {
        for assignment in module.assignments.iter() {
            self.add(alloc, sources, number, assignment)?;
        }
        Ok(())
    }

    /// The definitions of all modules.
    pub fn add_modules<'t>(
        &mut self,
        alloc: Global,
        sources: Sources<'_, '_, '_, '_, '_, '_, 't>,
        modules: &[Module<'_, 't>],
    ) -> Result<(), AllocError>
        requires lexed { map lexed_of sources.tokens.now ≡ map (λ t. lex t.now) sources.texts.now }
        requires marked { AreMarked (map (λ t. t.now) sources.texts.now) sources.marks.now }
        ensures { OnOk result (printed_of self.new ≡ printed_after (printed_of self.old)
            (entries_from (map (λ t. t.now) sources.entry.texts.now) (library_of sources.entry.library.now) (modules_in sources.entry.names.now) sources.entry.nesting 0 (map module_of modules.now))) }
    {
        for (number, module) in modules.iter().enumerate() {
            self.add_module(alloc, sources, number, module)?;
        }
        Ok(())
    }

    /// All lines: those of the definitions that aren't refused come first.
    pub fn end(self) -> Result<String, AllocError>
        ensures { IfOk result (λ s. string_bytes s ≡ string_bytes self.taken ++ string_bytes self.refused) }
    {
        let Listing { mut taken, refused } = self;
        taken.push_str(refused.as_str())?;
        Ok(taken)
    }
}
