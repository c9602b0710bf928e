//! Why the text of a type is rejected, in words.
ghost use Rattle.std.specs.Prelude.{Some, option_map};
ghost use Rattle.std.specs.Fmt.{WritesOnOk};
ghost use Rattle.oer_modules.specs.Listed.{rejected_words, why_words};
ghost use Rattle.oer_modules.specs.Places.{point_of};

use crate::place::{Before, Point};
use oer_text::TextWhy;
use std::fmt;

/// Why a type of modules is rejected that has a text in our notation: it isn't well-formed. It displays as
/// `text 1, line 12, column 5: the type is rejected: EmptyElement`.
#[derive(Clone, Copy)]
pub struct Rejection<'t> {
    /// Where the Name of the type is assigned.
    pub point: Option<Point<'t>>,
    /// What `parse_type` says of the text.
    pub why: TextWhy,
}

impl Rejection<'_> {
    fn show_why<W: fmt::Write>(&self, f: &mut fmt::Formatter<W>) -> fmt::Result
        ensures { WritesOnOk W.write_str_gives f.old result (why_words self.now.why) f.new }
    {
        let why = self.why.name();
        write!(f, "the type is rejected: {why}")
    }
}

impl fmt::Display for Rejection<'_> {
    ghost output = { λ rejection. Some (rejected_words (option_map point_of rejection.point) rejection.why) };

    fn fmt<W: fmt::Write>(&self, f: &mut fmt::Formatter<W>) -> fmt::Result {
        let place = Before(self.point);
        write!(f, "{place}")?;
        self.show_why(f)
    }
}
