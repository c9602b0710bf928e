//! A value of SEQUENCE as it is put together.
ghost use Rattle.std.specs.Prelude.{◌≡◌, OnOk, option_map};
ghost use Rattle.oer_values.specs.ValueView.{value_of};
ghost use Rattle.oer_module_defaults.specs.Filled.{empty, filled_of, sequence_in, with_value};

use oer_values::Value;
use std::alloc::{AllocError, Global};

/// The components of the root and the additions so far, each there or absent, and whether one of them is there.
#[derive(Drop)]
pub struct Filled {
    pub root: Vec<Option<Value>>,
    pub added: Vec<Option<Value>>,
    pub any: bool,
}

impl Filled {
    /// Nothing yet.
    #[tactic(auto, unfolding(crate::specs::Filled::filled_of, crate::specs::Filled::empty))]
    pub fn new(alloc: Global) -> Filled
        ensures { filled_of result ≡ empty }
    {
        Filled {
            root: Vec::new(alloc),
            added: Vec::new(alloc),
            any: false,
        }
    }

    /// Whether one is there.
    #[tactic(auto, unfolding(crate::specs::Filled::filled_of))]
    pub fn has_any(&self) -> bool
        ensures { result ≡ (filled_of self.now).any }
    {
        self.any
    }

    /// One more, an addition or a component of the root; none is absent.
    #[tactic(auto, unfolding(crate::specs::Filled::filled_of, crate::specs::Filled::with_value))]
    pub fn add(&mut self, added: bool, value: Option<Value>) -> Result<(), AllocError>
        ensures { OnOk result (filled_of self.new ≡ with_value added (option_map value_of value) (filled_of self.old)) }
    {
        self.any = self.any || value.is_some();
        if added {
            self.added.push(value)?;
            return Ok(());
        }
        self.root.push(value)?;
        Ok(())
    }

    /// The SEQUENCE of these components, without unknown additions.
    #[tactic(auto, unfolding(crate::specs::Filled::filled_of, crate::specs::Filled::sequence_in), using(oer_values::proofs::Values::values))]
    pub fn sequence(self, alloc: Global) -> Value
        ensures { value_of result ≡ sequence_in (filled_of self) }
    {
        let Filled { root, added, .. } = self;
        Value::Seq {
            root,
            added,
            unknown: Vec::new(alloc),
        }
    }
}
