//! Types that are read once and kept between calls.
ghost use Rattle.std.specs.Prelude.{◌≡◌, None, Some, option_map};
ghost use Rattle.oer_c.specs.Held.{flag};

use crate::held::Held;
use crate::raw_box::RawBox;
use crate::shared::Shared;
use std::alloc::Global;
use std::mem::replace;

/// Types that were read, or none. C makes it of zeros, with none, and hands it to one call at a
/// time, from any thread; its fields are the library's alone. It takes 16 octets: the pointer at 0,
/// `full` at 8.
#[repr(C)]
#[derive(Drop)]
pub struct Handle {
    held: Held,
    full: u32,
    ghost told: { full ≡ flag held.shared },
}

const _: () = prove!(size_of::<Handle>() == 16);

impl Handle {
    fn none() -> Handle
        ensures { result.held.shared ≡ None }
    {
        Handle {
            held: Held::none(),
            full: 0,
        }
    }

    /// A handle with these types.
    pub(crate) fn of(shared: Box<Shared>) -> Handle
        ensures { result.held.shared ≡ Some shared.value }
    {
        Handle {
            held: Held::of(RawBox::of(shared)),
            full: 1,
        }
    }

    /// The types that it had; it has none then.
    pub(crate) fn take(&mut self, alloc: Global) -> Option<Box<Shared>>
        ensures taken { option_map (λ b. b.value) result ≡ self.old.held.shared }
        ensures left { self.new.held.shared ≡ None }
    {
        let Handle { held, full } = replace(self, Handle::none());
        if full == 0 {
            return None;
        }
        Some(held.into_raw_box(alloc).into_box())
    }
}
