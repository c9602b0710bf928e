//! Why octets are not written.
use thiserror::Error;

/// Why the octets of a value are not all written. In lists of faults `Device` has number 2 and
/// `TooLong` number 3.
#[derive(Clone, Copy, Debug, PartialEq, Eq, Error)]
pub enum WriteFault {
    /// The sink failed after it had taken `written` octets, the first of the value's.
    #[error("the sink failed after {written} octets")]
    Device { written: u64 },
    /// The octets are 2^64 or more. None was written.
    #[error("2^64 octets or more")]
    TooLong,
}
