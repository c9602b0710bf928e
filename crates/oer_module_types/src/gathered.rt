//! The components of a SEQUENCE, or the alternatives of a CHOICE, as they come.
ghost use Rattle.std.specs.Prelude.{◌≡◌, OnOk, string_bytes};
ghost use Rattle.oer_values.specs.ShapeView.{need_of, type_of};
ghost use Rattle.oer_module_types.specs.Gathered.{choice_in, empty, gathered_of, sequence_in, with_alternative, with_component, with_marker, with_part};

use oer_units::Tag;
use oer_values::{Addition, Alt, Field, Need, Shape};
use std::alloc::{AllocError, Global};

/// What stands between braces so far, and whether the marker is among it. Behind the marker components are additions, and
/// alternatives come later. A SEQUENCE has no alternatives, and a CHOICE no components.
#[derive(Drop)]
pub struct Gathered {
    pub fields: Vec<Field>,
    pub additions: Vec<Addition>,
    pub alternatives: Vec<Alt>,
    pub later: Vec<Alt>,
    pub marked: bool,
}

impl Gathered {
    /// Nothing yet.
    #[tactic(auto, unfolding(crate::specs::Gathered::gathered_of, crate::specs::Gathered::empty))]
    pub fn new(alloc: Global) -> Gathered
        ensures { gathered_of result ≡ empty }
    {
        Gathered {
            fields: Vec::new(alloc),
            additions: Vec::new(alloc),
            alternatives: Vec::new(alloc),
            later: Vec::new(alloc),
            marked: false,
        }
    }

    /// The marker.
    #[tactic(auto, unfolding(crate::specs::Gathered::gathered_of, crate::specs::Gathered::with_marker))]
    pub fn mark(&mut self)
        ensures { gathered_of self.new ≡ with_marker (gathered_of self.old) }
    {
        self.marked = true;
    }

    /// A component of the root; behind the marker it is an addition, which may be absent in any case.
    #[tactic(auto, unfolding(crate::specs::Gathered::gathered_of, crate::specs::Gathered::with_component))]
    fn add_component(&mut self, name: String, need: Need, shape: Shape) -> Result<(), AllocError>
        ensures { OnOk result (gathered_of self.new ≡ with_component (string_bytes name) (need_of need) (type_of shape) (gathered_of self.old)) }
    {
        if self.marked {
            self.additions.push(Addition { name, shape })?;
            return Ok(());
        }
        self.fields.push(Field { name, shape, need })?;
        Ok(())
    }

    #[tactic(auto, unfolding(crate::specs::Gathered::gathered_of, crate::specs::Gathered::with_alternative))]
    fn add_alternative(&mut self, name: String, tag: Tag, shape: Shape) -> Result<(), AllocError>
        ensures { OnOk result (gathered_of self.new ≡ with_alternative (string_bytes name) tag (type_of shape) (gathered_of self.old)) }
    {
        if self.marked {
            self.later.push(Alt { name, tag, shape })?;
            return Ok(());
        }
        self.alternatives.push(Alt { name, tag, shape })?;
        Ok(())
    }

    /// An alternative, if there is a tag, and else a component; behind all others.
    #[tactic(auto, unfolding(crate::specs::Gathered::with_part))]
    pub fn add(
        &mut self,
        tag: Option<Tag>,
        name: String,
        need: Need,
        shape: Shape,
    ) -> Result<(), AllocError>
        ensures { OnOk result (gathered_of self.new ≡ with_part tag (string_bytes name) (need_of need) (type_of shape) (gathered_of self.old)) }
    {
        match tag {
            Some(tag) => self.add_alternative(name, tag, shape),
            None => self.add_component(name, need, shape),
        }
    }

    /// The SEQUENCE of these components.
    #[tactic(auto, unfolding(crate::specs::Gathered::gathered_of, crate::specs::Gathered::sequence_in))]
    pub fn sequence(self) -> Shape
        ensures { type_of result ≡ sequence_in (gathered_of self) }
    {
        let Gathered {
            fields: root,
            additions,
            marked,
            ..
        } = self;
        if marked {
            return Shape::Sequence {
                root,
                additions: Some(additions),
            };
        }
        Shape::Sequence {
            root,
            additions: None,
        }
    }

    /// The CHOICE of these alternatives.
    #[tactic(auto, unfolding(crate::specs::Gathered::gathered_of, crate::specs::Gathered::choice_in))]
    pub fn choice(self) -> Shape
        ensures { type_of result ≡ choice_in (gathered_of self) }
    {
        let Gathered {
            alternatives: root,
            later,
            marked,
            ..
        } = self;
        if marked {
            return Shape::Choice {
                root,
                additions: Some(later),
            };
        }
        Shape::Choice {
            root,
            additions: None,
        }
    }
}
