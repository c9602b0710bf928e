//! Types that several handles may have.
ghost use Rattle.std.specs.Prelude.{◌≡◌, IfOk};
ghost use Rattle.oer_c.specs.Sharing.{types_in};

use oer_notation::Types;
use std::alloc::{AllocError, Global};
use std::sync::Arc;

/// Types on the heap, with a count of the handles that have them.
#[derive(Drop)]
pub struct Shared {
    pub(crate) types: Arc<Types>,
}

impl Shared {
    /// These types, for one handle.
    pub(crate) fn of(alloc: Global, types: Types) -> Result<Shared, AllocError>
        ensures { IfOk result (λ shared. types_in shared ≡ types) }
    {
        match Arc::new(alloc, types) {
            Ok(types) => Ok(Shared { types }),
            Err(_) => Err(AllocError),
        }
    }

    /// The same types, for one handle more. It fails where the count is full.
    pub(crate) fn again(&self) -> Result<Shared, AllocError>
        ensures { IfOk result (λ shared. types_in shared ≡ types_in self.now) }
    {
        let types = Arc::try_clone(&self.types)?;
        Ok(Shared { types })
    }

    pub(crate) fn get(&self) -> &Types
        ensures { result.now ≡ types_in self.now }
    {
        &self.types
    }
}
