//! Why an encoding is not rewritten.

use oer_units::ReadFault;
use oer_writer::WriteFault;
use thiserror::Error;

/// Why the encoding that comes next is not rewritten.
#[derive(Clone, Copy, Debug, PartialEq, Eq, Error)]
pub enum RewriteFault {
    /// The value was not read, and nothing was written.
    #[error("{0}")]
    Read(ReadFault),
    /// The value was read, and its canonical octets were not all written.
    #[error("{0}")]
    Write(WriteFault),
}
