//! Types on the heap that a pointer keeps.
ghost use Rattle.std.specs.Prelude.{◌≡◌, None, Some, Option};
ghost use Rattle.std.specs.Coded.{coded_option};
ghost use Rattle.oer_c.specs.contracts.shared.Shared.{the_row};
ghost use Rattle.oer_c.specs.declared.shared.Shared.{Shared as PlainShared};
ghost use Rattle.oer_c.specs.Held.{flag, holds};

use crate::raw_box::RawBox;
use crate::shared::Shared;
use std::alloc::Global;
use std::marker::{Model, Send};
use std::ptr::null_mut;

/// A pointer to types on the heap, which it owns, or to nothing.
#[repr(C)]
#[derive(Drop)]
pub struct Held {
    at: *mut (),
    pub ghost shared: { Option PlainShared } by { coded_option the_row.coded },
}

const _: () = prove!(size_of::<Held>() == 8);

impl Model for Held {
    ghost also_owns = { λ h. holds h.at h.shared };
}

impl Held {
    pub(crate) fn none() -> Held
        ensures { result.shared ≡ None }
    {
        Held { at: null_mut() }
    }

    pub(crate) fn of(shared: RawBox<Shared, Global>) -> Held
        ensures { result.shared ≡ Some shared.value }
    {
        let RawBox { at, alloc: _ } = shared;
        Held { at: at as *mut () }
    }

    pub(crate) fn into_raw_box(self, alloc: Global) -> RawBox<Shared, Global>
        requires { flag self.shared ≡ 0 → ⊥ }
        ensures { self.shared ≡ Some result.value }
    {
        let Held { at } = self;
        RawBox {
            at: at as *mut Shared,
            alloc,
        }
    }
}

// What it owns names no thread, so another one may have it.
unsafe impl Send for Held {}
