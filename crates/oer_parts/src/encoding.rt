//! An encoding that was checked, and its parts.
ghost use Rattle.std.specs.Prelude.{◌≡◌, IfOk};
ghost use Rattle.oer_model.specs.Parts.{find_part};
ghost use Rattle.oer_types.specs.Schema.{the_type};
ghost use Rattle.oer_parts.specs.AtMostOne.{IsFound-prop};
ghost use Rattle.oer_checker.specs.Check.{Answers, Finds, IsFound, IsOfOctets, Tells};
ghost use Rattle.oer_parts.specs.Handing.{Agrees, AnswersPart, Follows, Hands, IsOfPath};
ghost use Rattle.oer_parts.specs.Ranges.{LeadsFrom, Lies, octets_in_range};
ghost use Rattle.oer_parts.specs.Walk.{CanSplit, IsWithin, path_of, type_in};

use crate::fault::PartFault;
use crate::step::Step;
use crate::walk::Piece;
use oer_checker::{Verdict, check};
use oer_types::Schema;
use oer_units::ReadFault;
use std::ops::Range;

/// The encoding at the front of some octets. It was checked as a whole, so taking its parts
/// doesn't check it again.
#[derive(Clone, Copy)]
pub struct Encoding<'s, 'a> {
    schema: &'s Schema,
    octets: &'a [u8],
    /// How long it is, and whether it is canonical.
    pub verdict: Verdict,
    pub ghost found: { IsFound (the_type schema.now) octets.now verdict } by { IsFound-prop (the_type schema.now) octets.now verdict },
}

impl<'s, 'a> Encoding<'s, 'a> {
    ghost use Rattle.oer_parts.specs.Encoding.{octets_in, type_of_encoding, verdict_seen};

    /// The encoding of a value of the type that stands at the front of the octets, as [`check`] finds
    /// it; it fails as [`check`] does.
    pub fn at_front(schema: &'s Schema, octets: &'a [u8]) -> Result<Encoding<'s, 'a>, ReadFault>
        ensures kind { IfOk result (λ found. type_of_encoding found ≡ the_type schema.now) }
        ensures octets { IfOk result (λ found. octets_in found ≡ octets.now) }
        ensures told { Tells (the_type schema.now) octets.now (verdict_seen result) }
        ensures comes { Finds (the_type schema.now) octets.now (verdict_seen result) }
        ensures exact { Answers (the_type schema.now) octets.now (verdict_seen result) }
        ensures plain { IsOfOctets (verdict_seen result) }
    {
        let verdict = check(schema, octets)?;
        Ok(Encoding {
            schema,
            octets,
            verdict,
        })
    }

    /// The part to which the steps lead, as it stands in the octets: the part's own encoding, without
    /// its tag and without the length of an open type. Without a step it is the whole encoding. Of an
    /// addition or alternative that the type doesn't know it is the content of its open type. Nothing
    /// is allocated. The first step that fails decides:
    ///
    /// - `Absent`: the step names a component of the root or a known addition, which is absent;
    /// - `NoSuchStep`: any other step that leads nowhere.
    ///
    /// It never returns `Read`, since the octets were checked.
    pub fn part(&self, path: &[Step]) -> Result<&'a [u8], PartFault>
        ensures told { Hands (λ s. s.now) (type_of_encoding self.now) (octets_in self.now) (path_of path.now) result }
        ensures comes { Follows (λ s. s.now) (type_of_encoding self.now) (octets_in self.now) (path_of path.now) result }
        ensures exact { AnswersPart (λ s. s.now) (type_of_encoding self.now) (octets_in self.now) (path_of path.now) result }
        ensures plain { IsOfPath result }
    {
        match part_in(self.schema, self.octets, self.verdict, path) {
            Ok(found) => Ok(found.octets),
            Err(fault) => Err(fault),
        }
    }

    /// Where that part stands in the octets: it is `octets[range]`. It fails as
    /// [`part`](Encoding::part) does.
    pub fn part_range(&self, path: &[Step]) -> Result<Range<usize>, PartFault>
        ensures told { Hands (octets_in_range (octets_in self.now)) (type_of_encoding self.now) (octets_in self.now) (path_of path.now) result }
        ensures comes { Follows (octets_in_range (octets_in self.now)) (type_of_encoding self.now) (octets_in self.now) (path_of path.now) result }
        ensures exact { AnswersPart (octets_in_range (octets_in self.now)) (type_of_encoding self.now) (octets_in self.now) (path_of path.now) result }
        ensures plain { IsOfPath result }
        ensures lies { IfOk result (λ range. Lies (type_of_encoding self.now) (octets_in self.now) (path_of path.now) range) }
    {
        match part_in(self.schema, self.octets, self.verdict, path) {
            Ok(found) => Ok(found.before..found.before + found.octets.len()),
            Err(fault) => Err(fault),
        }
    }
}

/// A part of an encoding, and how many octets of the encoding are before it.
#[derive(Clone, Copy)]
struct Found<'a> {
    octets: &'a [u8],
    before: usize,
}

/// The part to which the steps lead in the encoding of that length at the front of the octets.
fn part_in<'a>(
    schema: &Schema,
    octets: &'a [u8],
    verdict: Verdict,
    path: &[Step],
) -> Result<Found<'a>, PartFault>
    requires { IsFound (the_type schema.now) octets.now verdict }
    ensures told { Hands (λ f. f.octets.now) (the_type schema.now) octets.now (path_of path.now) result }
    ensures comes { Follows (λ f. f.octets.now) (the_type schema.now) octets.now (path_of path.now) result }
    ensures exact { AnswersPart (λ f. f.octets.now) (the_type schema.now) octets.now (path_of path.now) result }
    ensures plain { IsOfPath result }
    ensures stands { IfOk result (λ f. LeadsFrom (the_type schema.now) octets.now (path_of path.now) f.octets.now f.before) }
{
    let whole = Piece {
        shape: Some(schema.shape()),
        octets: &octets[..verdict.octets],
        rest: verdict.octets,
    };
    follow(whole, path)
}

/// What the steps lead to.
fn follow<'a>(whole: Piece<'_, 'a>, path: &[Step]) -> Result<Found<'a>, PartFault>
    requires { CanSplit (type_in whole) whole.octets.now }
    ensures found { Agrees (λ f. f.octets.now) result (find_part (type_in whole.entry) whole.entry.octets.now (path_of path.now)) }
    ensures stands { IfOk result (λ f. IsWithin (type_in whole.entry) whole.entry.octets.now (path_of path.now) f.octets.now f.before) }
{
    let mut at = whole;
    let mut before = 0;
    for step in path {
        let next = at.enter(*step)?;
        before += at.octets.len() - next.rest;
        at = next;
    }
    Ok(Found {
        octets: at.octets,
        before,
    })
}
