//! Tags as they are written.
ghost use Rattle.std.specs.Prelude.{◌≡◌, false};
ghost use Rattle.oer_module_parts.specs.Tags.{at_reference, behind_class, behind_reference, class_at, tag_at, tag_of};
ghost use Rattle.oer_module_syntax.specs.State.{IsReading, bump, fault, state_of};
ghost use Rattle.oer_module_terms.specs.Trees.{amount_of};
ghost use Rattle.oer_module_terms.specs.Values.{amount_at, named_at};

use oer_module_lexer::{Sign, Token};
use oer_module_syntax::{Cursor, Fault, Keyword, Pair, Sought, Why, after, names_value, pairs_len};
use oer_module_terms::Amount;
use oer_units::Class;

/// A tag, as it is written (X.680, 31.2): its class, and its number or the name of that.
#[derive(Clone, Copy)]
pub struct WrittenTag<'s, 't> {
    pub class: Class,
    pub number: Amount<'s, 't>,
}

fn no_number(cursor: &Cursor<'_, '_>) -> Fault
    ensures { result ≡ fault (Why.Expected Sought.Value) (state_of cursor.now) }
{
    cursor.fault(Why::Expected(Sought::Value))
}

/// Whether `TAG` and a colon are next, which say that this is a tag (X.680, 31.2).
fn is_at_reference(cursor: &Cursor<'_, '_>) -> bool
    ensures { result ≡ at_reference (state_of cursor.now) }
{
    match cursor.peek() {
        Some(Token::Word(word)) => word == "TAG" && after(cursor).is_at(Sign::Colon),
        _ => false,
    }
}

fn skip_reference(cursor: &mut Cursor<'_, '_>)
    ensures { state_of cursor.new ≡ behind_reference (state_of cursor.old) }
{
    if is_at_reference(cursor) {
        cursor.bump();
        cursor.bump();
    }
}

/// The class, which is that of the context where none is written (X.680, 31.2).
fn take_class(cursor: &mut Cursor<'_, '_>) -> Class
    ensures value { result ≡ class_at (state_of cursor.old) }
    ensures rest { state_of cursor.new ≡ behind_class (state_of cursor.old) }
{
    if cursor.take_keyword(Keyword::Universal) {
        return Class::Universal;
    }
    if cursor.take_keyword(Keyword::Application) {
        return Class::Application;
    }
    if cursor.take_keyword(Keyword::Private) {
        return Class::Private;
    }
    Class::Context
}

/// A number by its name, and the steps behind that.
#[tactic(auto, unfolding(oer_module_terms::specs::Values::named_at))]
fn read_named<'s, 't>(cursor: &mut Cursor<'s, 't>, name: &'t str) -> Result<Amount<'s, 't>, Fault>
    ensures { IsReading (λ a. (amount_of a, state_of cursor.new)) result (named_at name.now (state_of cursor.old)) }
{
    if !names_value(name, cursor) {
        return Err(no_number(cursor));
    }
    cursor.bump();
    let count = pairs_len(Pair::Step, cursor.spots);
    let path = cursor.take_front(count);
    Ok(Amount::Named { name, path })
}

/// A number without a sign, or the name of one.
#[tactic(auto, unfolding(oer_module_terms::specs::Values::amount_at))]
fn read_number<'s, 't>(cursor: &mut Cursor<'s, 't>) -> Result<Amount<'s, 't>, Fault>
    ensures { IsReading (λ a. (amount_of a, state_of cursor.new)) result (amount_at false (state_of cursor.old)) }
{
    match cursor.peek() {
        Some(Token::Number(digits)) => {
            cursor.bump();
            Ok(Amount::Number {
                negative: false,
                digits,
            })
        }
        Some(Token::Word(name)) => read_named(cursor, name),
        _ => Err(no_number(cursor)),
    }
}

/// A tag, at its opening bracket (X.680, 31.2): the class, the number, and before both perhaps `TAG` and a colon. In a
/// module whose header has INSTRUCTIONS for anything but TAG, brackets without `TAG` hold no tag, and this is not to be called.
///
/// # Errors
/// The first fault from the left: `Expected` at a token that can't go on. An instruction for another encoding, as
/// `[XER: ATTRIBUTE]`, is none: a value was expected at its first word.
#[tactic(auto, unfolding(crate::specs::Tags::tag_at, crate::specs::Tags::classed_at))]
pub fn read_tag<'s, 't>(cursor: &mut Cursor<'s, 't>) -> Result<WrittenTag<'s, 't>, Fault>
    ensures { IsReading (λ t. (tag_of t, state_of cursor.new)) result (tag_at (state_of cursor.old)) }
{
    cursor.expect(Sign::OpenBracket)?;
    skip_reference(cursor);
    let class = take_class(cursor);
    let number = read_number(cursor)?;
    cursor.expect(Sign::CloseBracket)?;
    Ok(WrittenTag { class, number })
}
