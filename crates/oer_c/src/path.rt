//! The text of a path.
ghost use Rattle.oer_c.specs.Found.{AreSteps};

use crate::status::{MEMORY, NO_PATH};
use oer_parts::{PathFault, Step, read_path};
use std::alloc::Global;

/// The steps of the path that the text spells, or the status of a call that can't read it.
pub(crate) fn steps_of(alloc: Global, path: &[u8]) -> Result<Vec<Step>, u32>
    ensures { AreSteps path.now result }
{
    let Ok(path) = std::str::from_utf8(path) else {
        return Err(NO_PATH);
    };
    match read_path(alloc, path) {
        Ok(steps) => Ok(steps),
        Err(PathFault::Memory) => Err(MEMORY),
        Err(PathFault::Form) => Err(NO_PATH),
    }
}
