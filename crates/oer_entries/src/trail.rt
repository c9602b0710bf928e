//! How the way leads on to other octets, and back.
ghost use Rattle.std.specs.Prelude.{◌≡◌, ◌≤◌, ◌+◌, ◌++◌, ◌∷◌, [], List, IfOk, OnOk, drop, length, map, option_map, string_bytes, take, vec_len};
ghost use Rattle.oer_model.specs.AsnType.{AsnType};
ghost use Rattle.oer_values.specs.ShapeView.{type_of};
ghost use Rattle.oer_entries.specs.declared.frame.Frame.{Frame};
ghost use Rattle.oer_entries.specs.Frames.{fresh, noted, seen};
ghost use Rattle.oer_entries.specs.Kinds.{kind_text};
ghost use Rattle.oer_entries.specs.Known.{plainly};
ghost use Rattle.oer_entries.specs.Next.{gone_on};
ghost use Rattle.oer_entries.specs.Trails.{IsWay, common, entered, last_by, last_type, parts_of, reached};

use crate::entry::Place;
use crate::frame::Frame;
use crate::next::{Next, next_of};
use crate::text::{cut, kind_of, push_name, push_step};
use crate::way::Way;
use oer_reader::Step;
use oer_rows::RowRef;
use oer_types::Shape;
use std::alloc::{AllocError, Global};

/// What is said of a part in the entry of its octets.
#[derive(Clone, Copy)]
pub(crate) struct Part<'p> {
    pub path: &'p str,
    pub names: &'p str,
    pub kind: &'static str,
}

impl Part<'_> {
    /// What is after the value: no part.
    pub const AFTER: Part<'static> = Part {
        path: "",
        names: "",
        kind: "-",
    };
}

/// The octets from this offset on.
pub(crate) fn octets_from(octets: &[u8], offset: usize) -> &[u8]
    ensures { result.now ≡ drop offset octets.now }
{
    &octets[offset.min(octets.len())..]
}

// So many octets from this offset on, or fewer where they end.
fn octets_at(octets: &[u8], offset: usize, count: usize) -> &[u8]
    ensures { result.now ≡ take count (drop offset octets.now) }
{
    let rest = octets_from(octets, offset);
    &rest[..count.min(rest.len())]
}

// How many of the frames are on the path.
fn shared(frames: &[Frame<'_>], path: &[Step]) -> usize
    ensures is { result ≡ common (drop 1 (map seen frames.now)) path.now + 1 }
    ensures steps { result ≤ length path.now + 1 }
{
    let mut count: usize = 1;
    for step in path {
        match frames.get(count) {
            Some(frame) if frame.step == Some(*step) => count += 1,
            _ => return count,
        }
    }
    count
}

impl<'a> Way<'a> {
    /// The way to the whole of the octets, which are of this type.
    pub(crate) fn whole(
        alloc: Global,
        shape: &'a Shape,
        octets: &'a [u8],
    ) -> Result<Way<'a>, AllocError>
        ensures way { IfOk result (λ way. IsWay (type_of shape.now) way) }
        ensures parts { IfOk result (λ way. parts_of way ≡ fresh None (plainly [] (type_of shape.now)) 0 0 ∷ []) }
        ensures octets { IfOk result (λ way. way.octets.now ≡ octets.now) }
    {
        let mut frames = Vec::new(alloc);
        frames.push(Frame::whole(shape))?;
        Ok(Way {
            frames,
            path: String::new(alloc),
            names: String::new(alloc),
            octets,
            end: 0,
            is_begun: false,
        })
    }

    /// The part at the end of the way.
    pub(crate) fn last(&self) -> &Frame<'a>
        ensures { (front : List Frame) × (self.now.frames.items ≡ front ++ result.now ∷ []) }
    {
        match self.frames.last() {
            Some(frame) => frame,
            None => unreachable!(),
        }
    }

    /// Notes a row of the last part.
    pub(crate) fn note(&mut self, row: RowRef<'_>)
        ensures parts { let octets = take (length row.entry.octets.now) (drop row.entry.offset self.old.octets.now) in
            parts_of self.new ≡ last_by (noted row.entry.role row.entry.offset octets) (parts_of self.old) }
        ensures way { (T : AsnType) → IsWay T self.old → IsWay T self.new }
        ensures octets { self.new.octets ≡ self.old.octets }
    {
        let octets = octets_at(self.octets, row.offset, row.octets.len());
        let Some(frame) = self.frames.last_mut() else {
            unreachable!();
        };
        frame.note(row.role, row.offset, octets);
        self.end = row.offset.saturating_add(octets.len());
        self.is_begun = true;
    }

    /// What is said of the part at the end of the way.
    pub(crate) fn part(&self) -> Part<'_>
        ensures { (result.path.now ≡ string_bytes self.now.path) × (result.names.now ≡ string_bytes self.now.names)
            × (result.kind.now ≡ kind_text (last_type (parts_of self.now))) }
    {
        Part {
            path: self.path.as_str(),
            names: self.names.as_str(),
            kind: kind_of(self.last().shape),
        }
    }

    /// The part at the end of the way, with copies of its texts.
    pub(crate) fn place(&self, alloc: Global) -> Result<Place<'a>, AllocError>
        ensures path { IfOk result (λ place. string_bytes place.path ≡ string_bytes self.now.path) }
        ensures names { IfOk result (λ place. string_bytes place.names ≡ string_bytes self.now.names) }
        ensures shape { IfOk result (λ place. option_map (λ s. type_of s.now) place.shape ≡ last_type (parts_of self.now)) }
    {
        Ok(Place {
            path: String::from_str(alloc, self.path.as_str())?,
            names: String::from_str(alloc, self.names.as_str())?,
            shape: self.last().shape,
        })
    }

    // Goes back to the part with this number, counted from 1, if there are more.
    fn go_back(&mut self, count: usize)
        requires { 1 ≤ count }
        ensures parts { parts_of self.new ≡ take count (parts_of self.old) }
        ensures way { (T : AsnType) → IsWay T self.old → IsWay T self.new }
        ensures end { self.new.end ≡ self.old.end }
        ensures octets { self.new.octets ≡ self.old.octets }
    {
        if count >= self.frames.len() {
            return;
        }
        self.frames.truncate(count);
        let last = self.last();
        let path_end = last.path_end;
        let names_end = last.names_end;
        cut(&mut self.path, path_end);
        cut(&mut self.names, names_end);
    }

    // Goes on to the part of the last one to which the step leads.
    fn enter(&mut self, alloc: Global, step: Step) -> Result<(), AllocError>
        ensures parts { (T : AsnType) → IsWay T self.old → OnOk result (parts_of self.new ≡ entered step (parts_of self.old)) }
        ensures way { (T : AsnType) → IsWay T self.old → OnOk result (IsWay T self.new) }
        ensures octets { self.new.octets ≡ self.old.octets }
    {
        let Some(last) = self.frames.last_mut() else {
            unreachable!();
        };
        last.last = Some(step);
        let mut inner = last.inner(step);
        push_step(&mut self.path, step)?;
        push_name(alloc, &mut self.names, inner.name)?;
        inner.path_end = self.path.len();
        inner.names_end = self.names.len();
        self.frames.push(inner)?;
        Ok(())
    }

    /// Goes to the part at the end of the path.
    pub(crate) fn go_to(&mut self, alloc: Global, path: &[Step]) -> Result<(), AllocError>
        ensures parts { (T : AsnType) → IsWay T self.old → OnOk result (parts_of self.new ≡ reached path.now (parts_of self.old)) }
        ensures way { (T : AsnType) → IsWay T self.old → OnOk result (IsWay T self.new) }
        ensures octets { self.new.octets ≡ self.old.octets }
    {
        let count = shared(self.frames.as_slice(), path);
        self.go_back(count);
        let steps = &path[count - 1..];
        for step in steps {
            self.enter(alloc, *step)?;
        }
        Ok(())
    }

    // Goes on to the part that comes next.
    fn go_on(&mut self, alloc: Global) -> Result<(), AllocError>
        ensures parts { (T : AsnType) → IsWay T self.old → OnOk result (parts_of self.new ≡ gone_on self.old.end (parts_of self.old)) }
        ensures way { (T : AsnType) → IsWay T self.old → OnOk result (IsWay T self.new) }
    {
        for _ in 0..self.frames.len() {
            let frame = self.last();
            match next_of(frame) {
                Next::Here => return Ok(()),
                Next::Inside(step) => return self.enter(alloc, step),
                Next::After => {}
            }
            let is_filled = match frame.end {
                Some(end) => self.end >= end,
                None => true,
            };
            let count = self.frames.len();
            if !is_filled || count < 2 {
                return Ok(());
            }
            self.go_back(count - 1);
        }
        Ok(())
    }

    // Goes on to the part that comes next, if a row was read.
    fn go_further(&mut self, alloc: Global) -> Result<(), AllocError>
        ensures { (T : AsnType) → IsWay T self.old → OnOk result (IsWay T self.new) }
    {
        if !self.is_begun {
            return Ok(());
        }
        self.go_on(alloc)
    }

    /// Goes on to the part that was being read when the octets were rejected, so many having been taken by
    /// then. Returns those of them that no row has.
    pub(crate) fn reject(&mut self, alloc: Global, taken: u64) -> Result<&'a [u8], AllocError>
        ensures { (T : AsnType) → IsWay T self.old → OnOk result (IsWay T self.new) }
    {
        let begin = self.end;
        self.go_further(alloc)?;
        let count = (taken as usize).saturating_sub(begin);
        Ok(octets_at(self.octets, begin, count))
    }
}
