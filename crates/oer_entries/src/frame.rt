//! A part on the way to the octets in hand.
ghost use Rattle.std.specs.Prelude.{◌≡◌, [], ◌∷◌, MatchOption, option_map, string_bytes};
ghost use Rattle.oer_model.specs.Parts.{to_chosen};
ghost use Rattle.oer_values.specs.ShapeView.{fields_of, sequence_with, type_of};
ghost use Rattle.oer_json.specs.Keys.{place_key, tag_key};
ghost use Rattle.oer_parts.specs.Walk.{step_of};
ghost use Rattle.oer_entries.specs.Frames.{fresh, noted, seen, type_at};
ghost use Rattle.oer_entries.specs.Known.{component_at, part_in, part_of, plainly, unknown};
ghost use Rattle.oer_entries.specs.Names.{text_of};
ghost use Rattle.oer_entries.specs.Next.{follows_tag};

use crate::units::{length_in, quantity_in, tag_in};
use oer_reader::{Role, Step};
use oer_types::{Addition, Alt, Field, Need, Shape, Value, find_alternative};
use oer_units::Tag;

/// What a part is called.
#[derive(Clone, Copy)]
pub enum Name<'a> {
    /// The whole has no name.
    Whole,
    /// A component, an addition or an alternative.
    Text(&'a str),
    /// An element, counted from 0.
    Item(usize),
    /// An addition that the type doesn't know, counted from 0 over all additions.
    Addition(usize),
    /// An alternative that the type doesn't know.
    Alternative(Tag),
}

/// A part on the way to the octets in hand, and what was read of it so far.
#[derive(Clone, Copy)]
pub(crate) struct Frame<'a> {
    /// The step that leads to it from the part around it; the whole has none.
    pub step: Option<Step>,
    pub name: Name<'a>,
    /// Its type, if that is known.
    pub shape: Option<&'a Shape>,
    /// Its DEFAULT.
    pub default: Option<&'a Value>,
    /// Whether octets of it were read.
    pub is_begun: bool,
    /// Whether it is a value without parts, and was read.
    pub is_done: bool,
    /// Where the open type ends that it fills.
    pub end: Option<usize>,
    /// The preamble of a SEQUENCE.
    pub preamble: Option<&'a [u8]>,
    /// The bitmap of its additions.
    pub bitmap: Option<&'a [u8]>,
    /// How many elements a SEQUENCE OF has.
    pub count: Option<usize>,
    /// The tag of a CHOICE.
    pub tag: Option<Tag>,
    /// The step to the part of it that was begun last.
    pub last: Option<Step>,
    /// How long the text of the path to it is.
    pub path_end: usize,
    /// How long the text of the names on that path is.
    pub names_end: usize,
}

impl<'a> Frame<'a> {
    // A part of which nothing was read yet.
    fn new(step: Option<Step>, name: Name<'a>, shape: Option<&'a Shape>) -> Frame<'a>
        ensures { seen result ≡ fresh step (record { name = text_of name.entry; type = option_map (λ s. type_of s.now) shape.entry; default_value = None }) 0 0 }
    {
        Frame {
            step,
            name,
            shape,
            default: None,
            is_begun: false,
            is_done: false,
            end: None,
            preamble: None,
            bitmap: None,
            count: None,
            tag: None,
            last: None,
            path_end: 0,
            names_end: 0,
        }
    }

    /// The whole.
    pub(crate) fn whole(shape: &'a Shape) -> Frame<'a>
        ensures { seen result ≡ fresh None (plainly [] (type_of shape.now)) 0 0 }
    {
        Frame::new(None, Name::Whole, Some(shape))
    }

    // A component of the root.
    fn component(step: Step, field: &'a Field) -> Frame<'a>
        ensures { seen result ≡ fresh (Some step) (component_at 0 (fields_of (field.now ∷ []))) 0 0 }
    {
        let mut frame = Frame::new(
            Some(step),
            Name::Text(field.name.as_str()),
            Some(&field.shape),
        );
        if let Need::Default(value) = &field.need {
            frame.default = Some(value);
        }
        frame
    }

    // An addition, which the type may not know.
    fn addition(step: Step, index: usize, known: Option<&'a Addition>) -> Frame<'a>
        ensures { MatchOption known.entry (seen result ≡ fresh (Some step) (unknown (place_key index)) 0 0)
            (λ a. seen result ≡ fresh (Some step) (plainly (string_bytes a.now.name) (type_of a.now.shape)) 0 0) }
    {
        match known {
            Some(one) => Frame::new(Some(step), Name::Text(one.name.as_str()), Some(&one.shape)),
            None => Frame::new(Some(step), Name::Addition(index), None),
        }
    }

    // The alternative with the tag, which the type may not know.
    fn chosen(step: Step, tag: Tag, known: Option<&'a Alt>) -> Frame<'a>
        ensures { MatchOption known.entry (seen result ≡ fresh (Some step) (unknown (tag_key tag)) 0 0)
            (λ a. seen result ≡ fresh (Some step) (plainly (string_bytes a.now.name) (type_of a.now.shape)) 0 0) }
    {
        match known {
            Some(one) => Frame::new(Some(step), Name::Text(one.name.as_str()), Some(&one.shape)),
            None => Frame::new(Some(step), Name::Alternative(tag), None),
        }
    }

    // The part of a SEQUENCE to which the step leads.
    fn of_sequence(
        step: Step,
        root: &'a [Field],
        additions: &'a Option<Vec<Addition>>,
    ) -> Option<Frame<'a>>
        ensures { let part = part_of (sequence_with root.now additions.now) None (step_of step) in
            MatchOption result (part ≡ unknown []) (λ f. seen f ≡ fresh (Some step) part 0 0) }
    {
        match step {
            Step::Component(index) => {
                let field = root.get(index)?;
                Some(Frame::component(step, field))
            }
            Step::Addition(index) => {
                let Some(additions) = additions else {
                    return None;
                };
                Some(Frame::addition(step, index, additions.get(index)))
            }
            _ => None,
        }
    }

    // The part to which the step leads, if its type has the step.
    fn known(&self, step: Step) -> Option<Frame<'a>>
        ensures { let part = part_in (type_at self.now) self.now.tag (step_of step) in
            MatchOption result (part ≡ unknown []) (λ f. seen f ≡ fresh (Some step) part 0 0) }
    {
        match self.shape? {
            Shape::Sequence { root, additions } => Frame::of_sequence(step, root, additions),
            Shape::SequenceOf { item, .. } => match step {
                Step::Item(index) => Some(Frame::new(Some(step), Name::Item(index), Some(item))),
                _ => None,
            },
            Shape::Choice { root, additions } => {
                let tag = self.tag?;
                Some(Frame::chosen(step, tag, find_alternative(root, additions, tag)))
            }
            _ => None,
        }
    }

    /// The part to which the step leads.
    pub(crate) fn inner(&self, step: Step) -> Frame<'a>
        ensures { seen result ≡ fresh (Some step) (part_in (type_at self.now) self.now.tag (step_of step)) 0 0 }
    {
        match self.known(step) {
            Some(frame) => frame,
            None => Frame::new(Some(step), Name::Whole, None),
        }
    }

    /// Whether the type knows the alternative with the tag, or has an extension marker, so that something
    /// follows the tag.
    pub(crate) fn has_alternative(&self, tag: Tag) -> bool
        ensures { result ≡ follows_tag (type_at self.now) tag }
    {
        let Some(Shape::Choice { root, additions }) = self.shape else {
            return false;
        };
        additions.is_some() || find_alternative(root, additions, tag).is_some()
    }

    /// What the alternative with the tag is called.
    pub(crate) fn alternative(&self, tag: Tag) -> Name<'a>
        ensures { text_of result ≡ (part_in (type_at self.now) (Some tag) to_chosen).name }
    {
        let Some(Shape::Choice { root, additions }) = self.shape else {
            return Name::Whole;
        };
        match find_alternative(root, additions, tag) {
            Some(one) => Name::Text(one.name.as_str()),
            None => Name::Alternative(tag),
        }
    }

    /// Notes octets that were read of the part.
    pub(crate) fn note(&mut self, role: Role, offset: usize, octets: &'a [u8])
        ensures { seen self.new ≡ noted role offset octets.now (seen self.old) }
    {
        self.is_begun = true;
        match role {
            Role::Preamble => self.preamble = Some(octets),
            Role::Bitmap => self.bitmap = Some(octets),
            Role::Quantity => self.count = quantity_in(octets).map(|count| count as usize),
            Role::Tag => self.tag = tag_in(octets),
            Role::Length => {
                let begin = offset.saturating_add(octets.len());
                self.end = length_in(octets).map(|count| begin.saturating_add(count as usize));
            }
            Role::Contents | Role::Unknown => self.is_done = true,
        }
    }
}
