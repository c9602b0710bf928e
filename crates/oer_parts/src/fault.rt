//! Why no part is returned.

use oer_units::ReadFault;
use thiserror::Error;

/// Why no part of an encoding is returned.
#[derive(Clone, Copy, Debug, PartialEq, Eq, Error)]
pub enum PartFault {
    /// There is no encoding at the front of the octets.
    #[error("{0}")]
    Read(ReadFault),
    /// A step that the type doesn't have, or that goes on from a part that the type doesn't know;
    /// an element past the last; an unknown addition that is absent.
    #[error("NoSuchStep")]
    NoSuchStep,
    /// A component of the root, or an addition that the type knows, which is absent.
    #[error("Absent")]
    Absent,
}
